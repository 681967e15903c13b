//! Filters: which spans and events a layer is notified of.
#![tactic(auto)]

mod always;
mod closure;
mod combinator;
mod env_filter;
mod filter;
mod function;
pub mod laws;
mod level;
mod setting;
mod targets;

pub use always::AlwaysUsableFilter;
pub use closure::{DynFilterFn, FilterFn, dynamic_filter_fn, filter_fn};
pub use combinator::{And, FilterExt, Not, Or};
pub use filter::Filter;
pub use function::{Function, FunctionIn, NoCallsite};
