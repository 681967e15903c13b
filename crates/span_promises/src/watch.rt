//! A layer that looks up each span whose close it is notified of.
ghost use Rattle.std.specs.Prelude.{◌≡◌, IfErr, IfOk, length};
ghost use Rattle.span_core.specs.Span.{number_of};
ghost use Rattle.span_promises.specs.Watch.{LosesNone, looked_up, lost_by};
ghost use Rattle.span_registry.specs.Context.{view_lent};
ghost use Rattle.span_registry.specs.View.{is_shown, view_of};

use span_core::{Id, LevelFilter, TraceError};
use span_dispatch::{Answer, Dispatch, Request};
use span_layers::{Observe, Observer};
use span_registry::{ContextMut, LookupSpan, Notice, Registry, Subscriber};
use span_stacks::{Filtered, LayerExt, Layered, SubscriberExt, laws};
use std::alloc::Global;

/// A layer that looks up each span whose close it is notified of, and counts those that it doesn't
/// find.
#[derive(Debug, Drop)]
pub struct Watcher {
    lost: u64,
}

impl Watcher {
    /// A watcher that was notified of nothing yet.
    pub fn new() -> Watcher
        ensures { lost_by result ≡ 0 }
    {
        Watcher { lost: 0 }
    }

    /// How many spans the watcher didn't find when it was notified of their close.
    pub fn lost(&self) -> u64
        ensures { result ≡ lost_by self.now }
    {
        self.lost
    }
}

impl<S: Subscriber> Observe<S> for Watcher {
    ghost observed = { λ x e lane under v y w.
        (y ≡ looked_up e (view_of v.store lane under) x) × (w ≡ v) };

    fn observe(&mut self, notice: Notice<'_, '_>, ctx: &mut ContextMut<'_, S>) {
        if let Notice::Close(id) = notice {
            if !finds(id, ctx) {
                self.lost = self.lost.saturating_add(1);
            }
        }
    }
}

/// Whether the span can be looked up.
fn finds<S: LookupSpan>(id: Id, ctx: &ContextMut<'_, S>) -> bool
    ensures { result ≡ is_shown (view_lent S.registry ctx.now).spans (number_of id) }
{
    ctx.span(id).is_some()
}

/// A watcher under a level, on a registry.
pub type Watched = Layered<Filtered<Observer<Watcher>, LevelFilter>, Registry>;

/// Serves requests on a new watcher under this level, with an answer for each. The watcher finds
/// each span whose close it is notified of.
pub fn watch_closes(
    alloc: Global,
    level: LevelFilter,
    requests: &[Request<'_>],
) -> Result<(Dispatch<Watched>, Vec<Answer>), TraceError>
    ensures answered { IfOk result (λ done. length done.1.items ≡ length requests.now) }
    ensures found { IfOk result LosesNone }
    ensures memory { IfErr result (λ e. e ≡ TraceError.OutOfMemory) }
{
    laws::numbers_are_own();
    let layer = Observer::new(Watcher::new()).with_filter(level);
    let stack = match Registry::new(alloc).with(layer) {
        Ok(stack) => stack,
        Err(back) => return Err(back.error),
    };
    let mut dispatch = Dispatch::new(alloc, stack);
    let answers = dispatch.serve(alloc, requests)?;
    Ok((dispatch, answers))
}
