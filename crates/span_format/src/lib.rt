//! Events' lines in the formats that people know: full, compact and pretty.
//!
//! Stands for the formats of `fmt` in the crate `tracing-subscriber`, but JSON.
#![tactic(auto)]

mod field;
mod format;
mod kept;
pub mod laws;
mod layout;
mod line;
mod look;
mod part;
mod style;

pub use format::Format;
pub use layout::Layout;
