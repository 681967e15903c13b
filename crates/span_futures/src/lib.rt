//! Futures that are polled within a span: tasks that trace, each on a lane of its own.
//!
//! Stands for `Instrument` of the crate `tracing`.
#![tactic(auto)]

mod instrument;

pub use instrument::{Instrument, Instrumented};
