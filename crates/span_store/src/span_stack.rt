//! A stack of spans by itself.
ghost use Rattle.std.specs.Option.{option_map};
ghost use Rattle.std.specs.Prelude.{◌≡◌, ◌∷◌, [], IfErr, OnErr, OnOk};
ghost use Rattle.span_core.specs.Span.{number_of};
ghost use Rattle.span_store.specs.LaneStack.{leave, leaves_for_good, newest, spans_to_give, without_duplicates};

use crate::stack::{LaneStack, StackIter};
use span_core::{Id, TraceError};
use std::alloc::Global;
use std::marker::Model;

/// A stack as each lane of a registry has one, seen as the list of its spans, newest first.
///
/// Stands for `tracing_subscriber::registry::SpanStack`.
#[derive(Drop)]
pub struct SpanStack {
    stack: LaneStack,
}

impl Model for SpanStack {
    ghost use Rattle.std.specs.Prelude.{List, ℕ};

    ghost Value = { List ℕ };

    ghost view = { λ a. a.stack.spans };
}

impl SpanStack {
    /// An empty stack. It takes no memory before the first `push`.
    pub fn new(alloc: Global) -> Self
        ensures { result ≡ [] }
    {
        SpanStack {
            stack: LaneStack::new(alloc),
        }
    }

    /// Enters a span, whether it stands on the stack or not. Refused for want of memory alone.
    pub fn push(&mut self, id: Id) -> Result<(), TraceError>
        ensures entered { OnOk result (self.new ≡ number_of id ∷ self.old) }
        ensures memory { IfErr result (λ e. e ≡ TraceError.OutOfMemory) }
        ensures unchanged { OnErr result (self.new ≡ self.old) }
    {
        self.stack.push(id)
    }

    /// Takes out the newest entry of a span, wherever it stands. Answers whether that leaves the
    /// span for good.
    pub fn pop(&mut self, id: Id) -> bool
        ensures left { self.new ≡ leave (number_of id) self.old }
        ensures for_good { result ≡ leaves_for_good (number_of id) self.old }
    {
        self.stack.pop(id)
    }

    /// The spans from the newest entry on, duplicates left out.
    pub fn iter(&self) -> StackIter<'_>
        ensures { spans_to_give result ≡ without_duplicates self.now }
    {
        self.stack.iter()
    }

    /// The newest entry that is no duplicate.
    pub fn current(&self) -> Option<Id>
        ensures { option_map number_of result ≡ newest (without_duplicates self.now) }
    {
        self.stack.current()
    }
}
