//! Records of `log` as events, and events as records of `log`.
//!
//! Stands for the crate `tracing-log`.
#![tactic(auto)]

mod bridge;
mod fields;
pub mod laws;
mod layer;
mod level;
mod record;

pub use bridge::{forward, record_metadata};
pub use fields::{Fields, log_value};
pub use layer::LogLayer;
pub use level::{AsLog, AsTrace};
pub use record::event_record;
