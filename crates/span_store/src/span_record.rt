//! What the registry keeps of a span.
ghost use Rattle.std.specs.Prelude.{◌≡◌, ◌↔◌, IsTrue};
ghost use Rattle.span_store.specs.private.StoreRepr.{CountsAny, counts_in};

use crate::registry::Released;
use span_core::{FilterMap, Id, Metadata};

/// What is kept of a span.
#[derive(Drop)]
pub(crate) struct SpanRecord {
    pub(crate) metadata: Metadata,
    pub(crate) parent: Option<Id>,
    pub(crate) handles: u32,
    pub(crate) children: u32,
    pub(crate) verdict: FilterMap,
}

/// How many handles and children a span has.
#[derive(Clone, Copy)]
pub(crate) struct Counts {
    pub(crate) handles: u32,
    pub(crate) children: u32,
}

impl Counts {
    /// Whether the span is open.
    pub(crate) fn is_open(self) -> bool
        ensures { IsTrue result ↔ CountsAny self }
    {
        self.handles > 0 || self.children > 0
    }

    /// What a span with these counts is.
    pub(crate) fn state(self) -> Released
        ensures closing { (result ≡ Released.Closing) ↔ ¬ (CountsAny self) }
        ensures still_open { (result ≡ Released.StillOpen) ↔ CountsAny self }
    {
        if self.is_open() {
            Released::StillOpen
        } else {
            Released::Closing
        }
    }
}

impl SpanRecord {
    /// How many handles and children the span has.
    pub(crate) fn counts(&self) -> Counts
        ensures { result ≡ counts_in self.now }
    {
        Counts {
            handles: self.handles,
            children: self.children,
        }
    }
}
