//! Writers for layers that write: files that roll by size and by day, and a thread that writes
//! lines which wait for it in a queue.
//!
//! Stands for the crate `tracing-appender`.
#![tactic(auto)]

mod files;
mod guard;
mod lines;
mod name;
mod non_blocking;
mod old;
mod place;
mod rolling;
mod rotation;
mod shared;
mod waiting;
mod worker;

pub use guard::{DEFAULT_LIMIT, Finished, WorkerGuard};
pub use lines::{first_line, whole_lines};
pub use name::{LAST_DAY, date_of, day_text, file_name, number_in};
pub use non_blocking::NonBlocking;
pub use old::old_names;
pub use place::{Place, next_place, rolls, share, written_place};
pub use rolling::{Builder, RollingFileAppender};
pub use rotation::Rotation;
pub use waiting::Waiting;
pub use worker::Worker;
