//! A filter by what spans were given: more passes within a span of some name with some value.
//!
//! Stands for the fields in directives of `tracing_subscriber::filter::EnvFilter`.
#![tactic(auto)]

mod directive;
mod error;
mod filter;
mod parse;
mod value;

pub use directive::FieldDirective;
pub use error::FieldError;
pub use filter::FieldFilter;
pub use value::ValueMatch;
