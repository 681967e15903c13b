//! Events and spans by macros, with fields by name, over a tracer or over a dispatcher and a lane.
//!
//! Stands for the macros of the crate `tracing`.
#![tactic(auto)]

pub mod example;
mod field;
pub mod laws;
mod levels;
mod macros;
mod metadata;
mod number;
mod parents;
mod parts;
mod span;
mod together;
mod values;

pub use field::IntoField;
pub use metadata::numbered_metadata;
pub use parents::{IntoParent, event_in, span_in};
pub use span::{exit_and_drop, open_and_enter};
pub use together::{
    eight_fields, five_fields, four_fields, one_field, seven_fields, six_fields, three_fields,
    two_fields,
};
pub use values::{Value, with_debug, with_display, with_value};
// The names by which macros find them.
pub use span_core::{Attributes, Event, FieldSet, FloatText, Kind, Level, Parent};
