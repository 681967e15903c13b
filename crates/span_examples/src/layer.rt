//! Layers, as a program that uses the library writes them.
ghost use Rattle.std.specs.Prelude.{◌≡◌};
ghost use Rattle.span_registry.specs.Context.{WritesExtensions, view_lent};
ghost use Rattle.span_registry.specs.Subscriber.{SameButExtensions};
ghost use Rattle.span_registry.specs.View.{view_of};
ghost use Rattle.span_examples.specs.Layers.{closed_by, counted, longest_of, number_seen, opened_by, timed};

use span_core::Id;
use span_layers::Observe;
use span_registry::{ContextMut, ExtensionValue, Notice, Subscriber, Tag};

/// Counts the spans that it is notified of.
#[derive(Drop)]
pub struct SpanCounter {
    opened: u64,
    closed: u64,
}

impl SpanCounter {
    /// A counter that counted nothing yet.
    pub fn new() -> SpanCounter
        ensures opened { opened_by result ≡ 0 }
        ensures closed { closed_by result ≡ 0 }
    {
        SpanCounter {
            opened: 0,
            closed: 0,
        }
    }

    /// How many spans were opened.
    pub fn opened(&self) -> u64
        ensures { result ≡ opened_by self.now }
    {
        self.opened
    }

    /// How many spans were closed.
    pub fn closed(&self) -> u64
        ensures { result ≡ closed_by self.now }
    {
        self.closed
    }
}

impl<S: Subscriber> Observe<S> for SpanCounter {
    ghost observed = { λ x e lane under v y w. (y ≡ counted e x) × (w ≡ v) };

    fn observe(&mut self, notice: Notice<'_, '_>, _ctx: &mut ContextMut<'_, S>) {
        match notice {
            Notice::NewSpan(_, _) => self.opened = self.opened.saturating_add(1),
            Notice::Close(_) => self.closed = self.closed.saturating_add(1),
            _ => {}
        }
    }
}

/// Times spans, from opening to close, by a clock that counts what it is notified of. A span's
/// start is kept in its extensions.
#[derive(Drop)]
pub struct Timing {
    start: Tag<u64>,
    clock: u64,
    longest: u64,
}

impl Timing {
    /// Keeps starts under this tag.
    pub fn new(start: Tag<u64>) -> Timing
        ensures { longest_of result ≡ 0 }
    {
        Timing {
            start,
            clock: 0,
            longest: 0,
        }
    }

    /// The longest time that a span was open.
    pub fn longest(&self) -> u64
        ensures { result ≡ longest_of self.now }
    {
        self.longest
    }
}

impl<S: Subscriber> Observe<S> for Timing {
    ghost observed = { λ x e lane under v y w.
        (y ≡ timed ⟦<u64 as ExtensionValue>⟧.place e (view_of v.store lane under) x)
        × SameButExtensions v w };

    fn observe(&mut self, notice: Notice<'_, '_>, ctx: &mut ContextMut<'_, S>) {
        self.clock = self.clock.saturating_add(1);
        match notice {
            Notice::NewSpan(_, id) => put(self.start, self.clock, id, ctx),
            Notice::Close(id) => {
                if let Some(start) = number(self.start, id, ctx) {
                    self.longest = self.longest.max(self.clock.saturating_sub(start));
                }
            }
            _ => {}
        }
    }
}

/// Puts a number under this tag, as far as there is memory.
fn put<S: Subscriber>(tag: Tag<u64>, number: u64, id: Id, ctx: &mut ContextMut<'_, S>)
    ensures { WritesExtensions S.registry S.with_registry ctx.old ctx.new }
{
    if let Some(extensions) = ctx.extensions_mut(id) {
        let _ = extensions.replace(tag, number);
    }
}

/// The number under this tag, where the span is shown.
fn number<S: Subscriber>(tag: Tag<u64>, id: Id, ctx: &ContextMut<'_, S>) -> Option<u64>
    ensures { result ≡ number_seen ⟦<u64 as ExtensionValue>⟧.place tag id
        (view_lent S.registry ctx.now) }
{
    match ctx.ctx().span(id) {
        Some(span) => span.extensions().get(tag).copied(),
        None => None,
    }
}
