//! What happened on each lane and when, and how long each span was busy, idle and open.
//!
//! Stands for the crate `tracing-timing`.
#![tactic(auto)]

mod clock;
mod field;
mod finished;
mod happening;
mod kept;
pub mod laws;
mod measure;
mod serving;
mod site;
mod timeline;

pub use clock::{Counted, Now, Wall};
pub use field::{FieldRange, OwnedField, OwnedValue};
pub use happening::{Happening, Point};
pub use kept::{Table, Taken};
pub use measure::{Counts, busy_time, idle_time, open_time, since_opening};
pub use serving::{WithTimeline, serve_timed};
pub use site::Site;
pub use timeline::Timeline;
