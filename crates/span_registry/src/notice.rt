//! What the parts of a stack are notified of.
ghost use Rattle.std.specs.Prelude.{◌≡◌};
ghost use Rattle.span_registry.specs.Notice.{is_for_filters, notice_of};

use span_core::{Attributes, Event, Id, Record};

/// What a layer or a filter is notified of. Filters are notified of new spans, records, enters,
/// exits and closes alone.
///
/// Own to this port: each variant stands for a hook of `tracing_subscriber::Layer`.
#[derive(Clone, Copy)]
pub enum Notice<'a, 'b> {
    /// A new span, which can be read.
    NewSpan(&'a Attributes<'b>, Id),
    /// Values that a span was given later.
    Record(Id, &'a Record<'b>),
    /// The first span follows from the second.
    FollowsFrom(Id, Id),
    /// An event.
    Event(&'a Event<'b>),
    /// A span is entered.
    Enter(Id),
    /// A span is left.
    Exit(Id),
    /// The first span's handle was cloned under the second id.
    IdChange(Id, Id),
    /// A span is closing, and can still be read.
    Close(Id),
}

impl Notice<'_, '_> {
    /// Whether filters are notified of the notice, not layers alone.
    #[inline(always)]
    pub fn is_for_filters(&self) -> bool
        ensures { result ≡ is_for_filters (notice_of self.now) }
    {
        match self {
            Notice::FollowsFrom(_, _) | Notice::Event(_) | Notice::IdChange(_, _) => false,
            Notice::NewSpan(_, _) | Notice::Record(_, _) => true,
            Notice::Enter(_) | Notice::Exit(_) | Notice::Close(_) => true,
        }
    }
}
