//! The base types of the span registry: ids, levels, metadata, what spans are made of, refusals.
#![tactic(auto)]

mod error;
mod event;
mod field;
mod filter;
mod interest;
pub mod laws;
mod level;
mod metadata;
mod number_set;
mod pass;
mod span;
mod text;

pub use error::{Rejected, TraceError};
pub use event::Event;
pub use field::{FieldSet, FieldValue, Float, FloatText};
pub use filter::{FilterId, FilterMap};
pub use interest::Interest;
pub use level::{Level, LevelFilter, ParseLevelError, ParseLevelFilterError};
pub use metadata::{Kind, Metadata};
pub use pass::Pass;
pub use span::{Attributes, Current, Id, Lane, Parent, Record};
