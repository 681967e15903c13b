//! Tests of rolling files and of lines that a thread writes, from outside.
#![tactic(auto)]

#[cfg(test)]
mod folder;
#[cfg(test)]
mod queue;
#[cfg(test)]
mod rolling;
