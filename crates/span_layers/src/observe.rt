//! A layer with one method: it refuses nothing, and is notified of everything through it.
ghost use Rattle.std.specs.Borrow.{Lends, sem};
ghost use Rattle.std.specs.Prelude.{◌≡◌, ⊤, true};
ghost use Rattle.span_layers.specs.Acts.{LeafActs};
ghost use Rattle.span_layers.specs.laws.Leaf.{is_leaf, observer_laws};
ghost use Rattle.span_layers.specs.laws.Path.{leaf_path_laws};
ghost use Rattle.span_layers.specs.Layer.{HearsBy};
ghost use Rattle.span_layers.specs.laws.Reload.{leaf_reloads};
ghost use Rattle.span_layers.specs.Observe.{ObserverStep, ObserverSteps, Observes, observer_of, open_answers, with_observer};
ghost use Rattle.span_layers.specs.contracts.observe.Observer.{the_row};
ghost use Rattle.span_registry.specs.Context.{HasNoRefusalsUnlessAsked, WritesExtensions, subscriber_lent};
ghost use Rattle.span_registry.specs.Form.{Leaf};
ghost use Rattle.span_registry.specs.Reload.{unreloaded};
ghost use Rattle.span_registry.specs.Notice.{notice_of};

use crate::layer::Layer;
use span_core::{Event, Interest, LevelFilter, Metadata, Pass};
use span_registry::{Context, ContextMut, Notice, Subscriber};
use span_targets::Setting;

/// What refuses nothing, and is notified through one method. `Observer` makes a layer of it.
pub trait Observe<S: Subscriber> {
    /// The observer may be notified. Only one that holds a closure says more than that it always
    /// may.
    ghost usable: { Self → Type 0 } = { λ x. ⊤ };

    /// How the observer goes on when it is notified.
    ghost observed: { ObserverSteps Self };

    /// Notifies of all that the filters round the observer enable. Refusals may be lent only with a
    /// new span or an event.
    fn observe(&mut self, notice: Notice<'_, '_>, ctx: &mut ContextMut<'_, S>)
        requires own { usable self.old }
        requires subscriber { S.usable (subscriber_lent ctx.old) }
        requires refusals { HasNoRefusalsUnlessAsked (notice_of notice) ctx.old }
        ensures own { usable self.new }
        ensures hook { Observes observed S.registry notice.entry self.old ctx.old self.new ctx.new }
        ensures written { WritesExtensions S.registry S.with_registry ctx.old ctx.new };
}

/// An observer as a layer.
#[derive(Debug, Drop)]
pub struct Observer<T> {
    observer: T,
}

impl<T> Observer<T> {
    /// The layer of this observer.
    pub fn new(observer: T) -> Observer<T>
        ensures { observer_of result ≡ observer }
    {
        Observer { observer }
    }

    /// The observer in the layer, as it now is.
    pub fn observer(&self) -> &T
        ensures { result.now ≡ observer_of self.now }
    {
        &self.observer
    }

    /// The observer in the layer, to be changed.
    pub fn observer_mut(&mut self) -> &mut T
        ensures* writes_back { sem 𝓛
            (Lends (the_row T.row) T.row self.entry result (with_observer self.old)) }
        ensures value { result.now ≡ observer_of self.old }
    {
        &mut self.observer
    }

    /// The observer, taken out of the layer.
    pub fn into_observer(self) -> T
        ensures { result ≡ observer_of self }
    {
        self.observer
    }
}

impl<S: Subscriber, T: Observe<S>> Layer<S> for Observer<T> {
    ghost usable = { λ x. T.usable x.observer };

    ghost has_form = { λ x f. f ≡ Leaf true open_answers };

    ghost stepped = { λ x p e lane under v y w.
        ObserverStep T.observed x.observer p e lane under v y.observer w };

    ghost hears = { HearsBy (λ x p e lane under v y w.
        ObserverStep T.observed x.observer p e lane under v y.observer w) };

    ghost acts_at = { LeafActs };

    ghost reloaded = { unreloaded };

    ghost registered = { λ x y. y ≡ x };

    ghost attached = { λ x y. y ≡ x };

    ghost laws = { observer_laws T.observed (λ x. x.observer) };

    ghost paths = { leaf_path_laws (λ x f h. is_leaf h) };

    ghost reloads = { leaf_reloads (observer_laws T.observed (λ x. x.observer)) };

    fn on_register_dispatch(&mut self) {
        // An observer has nothing to do.
    }

    fn on_layer(&mut self, _subscriber: &mut S) {
        // An observer has no filter.
    }

    fn register_callsite(&self, _meta: &Metadata, _pass: &mut Pass) -> Interest {
        Interest::Always
    }

    fn enabled(&self, _meta: &Metadata, _ctx: &Context<'_, S>, _pass: &mut Pass) -> bool {
        true // Nothing is refused.
    }

    fn event_enabled(&self, _event: &Event<'_>, _ctx: &Context<'_, S>, _pass: &mut Pass) -> bool {
        true // No event is refused.
    }

    fn max_level_hint(&self) -> Option<LevelFilter> {
        None
    }

    fn filter_count(&self) -> u32 {
        0
    }

    fn is_filtered(&self) -> bool {
        false // No filter is its own.
    }

    fn is_absent(&self) -> bool {
        false // The layer is there.
    }

    #[inline(always)]
    fn notify(&mut self, notice: Notice<'_, '_>, ctx: &mut ContextMut<'_, S>) {
        self.observer.observe(notice, ctx);
    }

    fn reload(&mut self, _number: u32, _setting: Setting) -> bool {
        false // No filter is in it.
    }
}
