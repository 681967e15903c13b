//! What filters go by: targets, read from a text such as `info,my_crate::db=debug,h2=off`, and the
//! spans that a lane is in, as `warn,[job]=debug`.
#![tactic(auto)]

mod directive;
mod env;
mod env_filter;
mod env_parse;
mod error;
pub mod laws;
mod order;
mod parse;
mod read;
mod setting;
mod span_directive;
mod targets;

pub use directive::Directive;
pub use env_filter::EnvFilter;
pub use error::{Fault, FromEnvError, ParseError, WrongDirective};
pub use parse::MAX_DIRECTIVES;
pub use setting::Setting;
pub use span_directive::SpanDirective;
pub use targets::Targets;
