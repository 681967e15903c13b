//! Boxes: filters and layers whose types are picked while the program runs.
#![tactic(auto)]

mod boxed;
mod filter;
mod object;

pub use boxed::BoxedLayer;
pub use filter::{BoxedFilter, DynFilter};
pub use object::DynLayer;
