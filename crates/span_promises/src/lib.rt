//! What a program may count on that puts recorders under levels, and has requests served: promises
//! in plain words, each proved of whatever requests are served, from what a dispatcher promises of
//! any stack.
#![tactic(auto)]

pub mod laws;
mod two;
mod watch;

pub use two::{Served, Two, record_two, warnings_and_infos};
pub use watch::{Watched, Watcher, watch_closes};
