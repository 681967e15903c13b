//! The layer that keeps a number with each span.
ghost use Rattle.std.specs.Prelude.{◌≡◌};
ghost use Rattle.span_registry.specs.Context.{WritesExtensions};
ghost use Rattle.span_registry.specs.Subscriber.{SameButExtensions};

use span_core::Id;
use span_layers::Observe;
use span_registry::{ContextMut, Notice, Subscriber, Tag};

/// Keeps a number with each new span, under a tag that the span has no value of.
#[derive(Drop)]
pub struct Keeper;

impl<S: Subscriber> Observe<S> for Keeper {
    ghost observed = { λ x e lane under v y w. (y ≡ x) × SameButExtensions v w };

    fn observe(&mut self, notice: Notice<'_, '_>, ctx: &mut ContextMut<'_, S>) {
        if let Notice::NewSpan(_, id) = notice {
            keep(id, ctx);
        }
    }
}

/// Keeps a number with a span, as far as there is memory.
fn keep<S: Subscriber>(id: Id, ctx: &mut ContextMut<'_, S>)
    ensures { WritesExtensions S.registry S.with_registry ctx.old ctx.new }
{
    let tag: Tag<u64> = Tag::new(0);
    if let Some(extensions) = ctx.extensions_mut(id) {
        let _ = extensions.insert(tag, 5);
    }
}
