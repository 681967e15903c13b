//! Forms of lines with times and colours, and lines of JSON.
//!
//! Stands for the timers, the colours and the JSON of `fmt` in the crate `tracing-subscriber`.
#![tactic(auto)]

mod clocks;
mod held;
mod inert;
mod json_form;
mod line;
mod members;
mod object;
mod painted;
mod stamp;
mod time;
mod values;

pub use clocks::{Uptime, Utc};
pub use json_form::JsonForm;
pub use painted::Painted;
pub use stamp::Stamped;
pub use time::{TimeStyle, write_time};
