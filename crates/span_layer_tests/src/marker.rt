//! A layer that writes extensions.
ghost use Rattle.std.specs.Prelude.{⊤};
ghost use Rattle.span_registry.specs.Context.{WritesExtensions};

use span_core::{Event, Id};
use span_layers::{Observe, Observer};
use span_registry::{ContextMut, Notice, Subscriber, Tag};

/// Adds one to the number under its tag in the extensions of each event's span, as far as there is
/// memory.
#[derive(Drop)]
pub(crate) struct Marker {
    tag: Tag<u64>,
}

impl<S: Subscriber> Observe<S> for Marker {
    ghost observed = { λ x e lane under v y w. ⊤ };

    fn observe(&mut self, notice: Notice<'_, '_>, ctx: &mut ContextMut<'_, S>) {
        let Notice::Event(event) = notice else {
            return;
        };
        let Some(id) = span_of(event, ctx) else {
            return;
        };
        mark(self.tag, id, ctx);
    }
}

/// The span of an event, as a hook sees it.
fn span_of<S: Subscriber>(event: &Event<'_>, ctx: &ContextMut<'_, S>) -> Option<Id> {
    match ctx.ctx().event_span(event) {
        Some(span) => Some(span.id()),
        None => None,
    }
}

/// Adds one to the number under this tag of a span, as far as there is memory.
fn mark<S: Subscriber>(tag: Tag<u64>, id: Id, ctx: &mut ContextMut<'_, S>)
    ensures { WritesExtensions S.registry S.with_registry ctx.old ctx.new }
{
    let Some(mut extensions) = ctx.extensions_mut(id) else {
        return;
    };
    let count = match extensions.get_mut(tag) {
        Some(count) => count.saturating_add(1),
        None => 1,
    };
    let _ = extensions.replace(tag, count);
}

/// A layer that marks under this tag.
pub(crate) fn new_marker(tag: Tag<u64>) -> Observer<Marker> {
    Observer::new(Marker { tag })
}
