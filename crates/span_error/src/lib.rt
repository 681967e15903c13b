//! The spans that a lane is in, with their fields, as text for an error.
//!
//! Stands for the crate `tracing-error`.
#![tactic(auto)]

mod kept;
mod layer;
mod trace;

pub use kept::fields_tag;
pub use layer::ErrorLayer;
pub use trace::SpanTrace;
