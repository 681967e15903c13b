//! Tests of filters by targets, from outside: each is also a caller of their contracts.
#![tactic(auto)]

#[cfg(test)]
mod env;
#[cfg(test)]
mod env_filter;
#[cfg(test)]
mod field;
#[cfg(test)]
mod filter;
#[cfg(test)]
mod setting;
#[cfg(test)]
mod span;
#[cfg(test)]
mod text;
