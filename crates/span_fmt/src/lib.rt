//! Layers that write down what they are notified of, as text: a tree, a line for each event, or
//! what a form says, handed to a writer as it comes.
//!
//! Stands for the layer of `fmt` in the crate `tracing-subscriber`.
#![tactic(auto)]

mod escape;
mod fields;
mod form;
mod forms;
mod interleaved;
mod known;
mod lane;
pub mod laws;
mod lines;
mod outlet;
mod page;
mod quote;
mod serve;
mod stream;
mod tree;

pub use escape::{is_escaped, write_escaped};
pub use fields::{write_fields, write_value};
pub use form::Form;
pub use forms::{LinesForm, TreeForm};
pub use interleaved::InterleavedForm;
pub use lane::LaneNames;
pub use lines::Lines;
pub use quote::write_quoted;
pub use serve::{WithLines, WithStream, WithTree, serve_lines, serve_stream, serve_tree};
pub use stream::Stream;
pub use tree::Tree;
