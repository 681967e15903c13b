//! What stands on the store of spans: stacks, what they are asked and notified of, and what their
//! layers see.
#![tactic(auto)]

mod context;
pub mod laws;
mod lookup;
mod mask;
mod notice;
mod registry;
mod scope;
mod subscriber;

pub use context::{Context, ContextMut};
pub use lookup::LookupSpan;
pub use mask::Mask;
pub use notice::Notice;
pub use scope::{Scope, ScopeFromRoot, SpanRef};
pub use span_extensions::{ExtensionMap, ExtensionValue, Extensions, ExtensionsMut, Tag};
pub use span_store::{
    Data, Limits, Registry, Released, SeededState, SpanData, SpanStack, StackIter,
};
pub use subscriber::{AlwaysUsable, Subscriber};
