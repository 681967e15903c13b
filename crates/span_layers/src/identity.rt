//! A layer that does nothing.
ghost use Rattle.std.specs.Prelude.{◌≡◌, true};
ghost use Rattle.span_layers.specs.Acts.{LeafActs};
ghost use Rattle.span_layers.specs.laws.Leaf.{is_leaf, idle_laws};
ghost use Rattle.span_layers.specs.laws.Path.{leaf_path_laws};
ghost use Rattle.span_layers.specs.Idle.{IdleSteps, identity};
ghost use Rattle.span_layers.specs.Layer.{HearsBy};
ghost use Rattle.span_layers.specs.laws.Reload.{leaf_reloads};
ghost use Rattle.span_layers.specs.Observe.{open_answers};
ghost use Rattle.span_registry.specs.Form.{Leaf};
ghost use Rattle.span_registry.specs.Reload.{unreloaded};

use crate::layer::Layer;
use span_core::{Event, Interest, LevelFilter, Metadata, Pass};
use span_registry::{Context, ContextMut, Notice, Subscriber};
use span_targets::Setting;

/// A layer that enables everything and does nothing.
///
/// Stands for `tracing_subscriber::layer::Identity`.
#[derive(Clone, Copy, Debug)]
pub struct Identity;

impl Identity {
    /// The layer that does nothing.
    pub fn new() -> Identity
        ensures { result ≡ identity }
    {
        Identity
    }
}

impl Default for Identity {
    ghost is_default = { λ x. x ≡ identity };

    fn default() -> Identity {
        Identity::new()
    }
}

impl<S: Subscriber> Layer<S> for Identity {
    ghost has_form = { λ x f. f ≡ Leaf true open_answers };

    ghost stepped = { IdleSteps };

    ghost hears = { HearsBy IdleSteps };

    ghost acts_at = { LeafActs };

    ghost reloaded = { unreloaded };

    ghost registered = { λ x y. y ≡ x };

    ghost attached = { λ x y. y ≡ x };

    ghost laws = { idle_laws (λ x f. f ≡ Leaf true open_answers) (λ x f h. is_leaf h) };

    ghost paths = { leaf_path_laws (λ x f h. is_leaf h) };

    ghost reloads = { leaf_reloads
        (idle_laws (λ x f. f ≡ Leaf true open_answers) (λ x f h. is_leaf h)) };

    fn on_register_dispatch(&mut self) {
        // An identity has nothing to do.
    }

    fn on_layer(&mut self, _subscriber: &mut S) {
        // An identity has no filter.
    }

    fn register_callsite(&self, _meta: &Metadata, _pass: &mut Pass) -> Interest {
        Interest::Always
    }

    fn enabled(&self, _meta: &Metadata, _ctx: &Context<'_, S>, _pass: &mut Pass) -> bool {
        true // Nothing is refused.
    }

    fn event_enabled(&self, _event: &Event<'_>, _ctx: &Context<'_, S>, _pass: &mut Pass) -> bool {
        true // No event is refused.
    }

    fn max_level_hint(&self) -> Option<LevelFilter> {
        None
    }

    fn filter_count(&self) -> u32 {
        0
    }

    fn is_filtered(&self) -> bool {
        false // No filter is its own.
    }

    fn is_absent(&self) -> bool {
        false // The layer is there.
    }

    #[inline(always)]
    fn notify(&mut self, _notice: Notice<'_, '_>, _ctx: &mut ContextMut<'_, S>) {}

    fn reload(&mut self, _number: u32, _setting: Setting) -> bool {
        false // No filter is in it.
    }
}
