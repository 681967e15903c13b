//! Stacks: layers under filters, in pairs, and on a subscriber; and the laws of who is notified.
#![tactic(auto)]

mod always;
mod attach;
mod filtered;
pub mod laws;
mod layered;
mod stack;

pub use attach::{LayerExt, SubscriberExt, Unattached};
pub use filtered::Filtered;
pub use layered::Layered;
