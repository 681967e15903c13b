//! Layers: what is asked and notified of spans and events.
#![tactic(auto)]

mod always;
mod boxed;
mod identity;
mod layer;
mod list;
mod observe;
mod optional;
mod veto;

pub use always::{AlwaysUsableLayer, AlwaysUsableObserver};
pub use identity::Identity;
pub use layer::Layer;
pub use observe::{Observe, Observer};
