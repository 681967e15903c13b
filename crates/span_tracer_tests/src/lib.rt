//! Tests of tracers, guards and macros, from outside.
#![tactic(auto)]

#[cfg(test)]
mod handle;
#[cfg(test)]
mod job;
#[cfg(test)]
mod macros;
#[cfg(test)]
mod observer;
#[cfg(test)]
mod receiver;
#[cfg(test)]
mod reload;
#[cfg(test)]
mod task;
#[cfg(test)]
mod trace;
