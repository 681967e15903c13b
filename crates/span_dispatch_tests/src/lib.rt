//! Tests of dispatchers, from outside: each is also a caller of their contracts.
#![tactic(auto)]

#[cfg(test)]
mod cache;
#[cfg(test)]
mod chosen;
#[cfg(test)]
mod dispatch;
#[cfg(test)]
mod isolation;
#[cfg(test)]
mod level_set;
#[cfg(test)]
mod nested;
#[cfg(test)]
mod registered;
#[cfg(test)]
mod requests;
#[cfg(test)]
mod scale;
#[cfg(test)]
mod view;
#[cfg(test)]
mod worker;
