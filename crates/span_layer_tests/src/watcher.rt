//! A layer that keeps what it sees.
ghost use Rattle.std.specs.Prelude.{◌≡◌, ⊤, []};
ghost use Rattle.span_layers.specs.Observe.{observer_of};

use span_core::Id;
use span_layers::{Observe, Observer};
use span_registry::{ContextMut, Notice, Subscriber};
use std::alloc::Global;

/// What a watcher saw.
#[derive(Clone, Copy, PartialEq, Eq)]
pub enum Seen {
    /// A new span; its scope follows, leaf first.
    NewSpan(Id),
    /// An event; the scope of its span follows, leaf first.
    Event,
    /// A span of a scope.
    InScope(Id),
    /// A span is entered.
    Enter(Id),
    /// A span is left.
    Exit(Id),
    /// A span has values.
    Record(Id),
    /// The first follows from the second.
    Follows(Id, Id),
    /// A span is closing, and was found.
    Close(Id),
    /// A span is closing, and was not found.
    CloseUnseen(Id),
}

/// Keeps what it sees, as far as there is memory.
#[derive(Drop)]
pub struct Watcher {
    /// In its order.
    pub seen: Vec<Seen>,
}

impl Watcher {
    fn keep(&mut self, seen: Seen) {
        let _ = self.seen.push(seen);
    }
}

impl<S: Subscriber> Observe<S> for Watcher {
    ghost observed = { λ x e lane under v y w. ⊤ };

    fn observe(&mut self, notice: Notice<'_, '_>, ctx: &mut ContextMut<'_, S>) {
        match notice {
            Notice::NewSpan(_, id) => {
                self.keep(Seen::NewSpan(id));
                if let Some(scope) = ctx.ctx().span_scope(id) {
                    for span in scope {
                        self.keep(Seen::InScope(span.id()));
                    }
                }
            }
            Notice::Event(event) => {
                self.keep(Seen::Event);
                if let Some(scope) = ctx.ctx().event_scope(event) {
                    for span in scope {
                        self.keep(Seen::InScope(span.id()));
                    }
                }
            }
            Notice::Enter(id) => self.keep(Seen::Enter(id)),
            Notice::Exit(id) => self.keep(Seen::Exit(id)),
            Notice::Record(id, _) => self.keep(Seen::Record(id)),
            Notice::FollowsFrom(id, other) => self.keep(Seen::Follows(id, other)),
            Notice::IdChange(_, _) => {}
            Notice::Close(id) => {
                if ctx.span(id).is_some() {
                    self.keep(Seen::Close(id));
                } else {
                    self.keep(Seen::CloseUnseen(id));
                }
            }
        }
    }
}

/// A layer that has seen nothing.
pub fn new_watcher(alloc: Global) -> Observer<Watcher>
    ensures { (observer_of result).seen.items ≡ [] }
{
    Observer::new(Watcher {
        seen: Vec::new(alloc),
    })
}
