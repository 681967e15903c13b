//! A dispatcher that keeps the journal of its requests, and one that workers share behind a lock.
#![tactic(auto)]

mod entry;
pub mod laws;
mod logged;
mod shared;

pub use entry::{Entry, EntryWith};
pub use logged::{Journal, Logged, Receipt};
pub use shared::{Crew, Shared, Unfinished, Worker};
