//! One accepted request, as a journal keeps it.

ghost use Rattle.std.specs.Prelude.{◌≡◌, ⊤};

use span_core::{FilterMap, Id, Lane, LevelFilter, Metadata, Parent};
use std::alloc::AllocError;

/// One accepted request, with its lane and its answer.
///
/// Own to this port.
pub type Entry = EntryWith<Metadata, FilterMap>;

/// An entry by the types of its metadata and its verdict.
// No proof follows an enum that holds both itself: metadata hold references, and a verdict has a
// ghost field.
#[derive(Copy, Debug, PartialEq, Eq)]
pub enum EntryWith<M, V> {
    /// A span was made.
    New {
        /// The lane that asked for it.
        lane: Lane,
        /// What its callsite says of it.
        metadata: M,
        /// The parent that it asked for.
        parent: Parent,
        /// Which filters refused it.
        verdict: V,
        /// Its id.
        id: Id,
    },
    /// A new span was dropped.
    Unmade(Lane, M),
    /// An event was sent.
    Event {
        /// The lane that sent it.
        lane: Lane,
        /// What its callsite says of it.
        metadata: M,
        /// The parent that it asked for.
        parent: Parent,
        /// Whether it was made.
        made: bool,
    },
    /// A probe, and its answer.
    Probe(Lane, M, bool),
    /// The lane entered the span.
    Enter(Lane, Id),
    /// The lane left the span.
    Exit(Lane, Id),
    /// Values were recorded of the span.
    Record(Lane, Id),
    /// The first span follows from the second.
    Follows(Lane, Id, Id),
    /// The span has one handle more.
    Clone(Lane, Id),
    /// One handle of the span was dropped, and whether it closed.
    Drop(Lane, Id, bool),
    /// The filter with this number took a setting: this level, if it was one.
    Reload(Lane, u32, Option<LevelFilter>),
    /// The span that the lane was in.
    Current(Lane, Option<Id>),
}

// By hand: the derived one is proved variant by variant, each with all its parts.
impl<M: Copy, V: Copy> Clone for EntryWith<M, V> {
    ghost is_clone = { λ entry copy. copy ≡ entry };

    ghost is_infallible = { λ entry. ⊤ };

    fn clone(&self) -> Result<Self, AllocError> {
        Ok(*self)
    }
}
