//! How often each span and event came, and how long spans were busy, idle and open, by their
//! callsites.
//!
//! Stands for the crate `tracing-timing`.
#![tactic(auto)]

mod histogram;
mod layout;
mod life;
mod text;
mod timing;
mod unit;

pub use histogram::Histogram;
pub use life::Life;
pub use text::timing_text;
pub use timing::{Row, Timing};
