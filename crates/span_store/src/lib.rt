//! The store of spans: what is kept of each, the lanes' stacks, and the calls that change them.
#![tactic(auto)]

mod bloom;
mod index;
mod keyed;
mod lane;
mod limits;
mod registry;
mod room;
mod seeded_state;
mod slot;
mod span_data;
mod span_record;
mod span_stack;
mod span_store;
mod stack;

pub use limits::Limits;
pub use registry::{Registry, Released};
pub use seeded_state::SeededState;
pub use span_data::{Data, SpanData};
pub use span_stack::SpanStack;
pub use stack::{LaneStack, StackIter};
