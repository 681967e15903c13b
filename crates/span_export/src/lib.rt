//! What happened, in the formats of other tools: functions of points and of the table that these
//! refer to.
//!
//! Stands for the crates `tracing-chrome` and `tracing-flame`, which write while a program runs.
#![tactic(auto)]

mod chrome;
mod entry;
mod escape;
mod folded;
mod frame;
pub mod given;
pub mod laws;
mod page;
mod picture;
mod scope;
pub mod site;
mod stay;
pub mod value;
mod when;

pub use chrome::{chrome_lines, chrome_text};
pub use folded::{folded_scopes, folded_text};
pub use page::{PAGE_HEAD, PAGE_TAIL, timeline_page};
pub use picture::timeline_svg;
