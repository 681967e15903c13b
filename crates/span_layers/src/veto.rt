//! Filters as layers: they veto, for all layers, what they refuse.
ghost use Rattle.std.specs.Prelude.{◌≡◌, true};
ghost use Rattle.span_layers.specs.Acts.{LeafActs};
ghost use Rattle.span_layers.specs.laws.Leaf.{is_leaf, veto_laws};
ghost use Rattle.span_layers.specs.laws.Path.{leaf_path_laws};
ghost use Rattle.span_layers.specs.Idle.{IdleSteps};
ghost use Rattle.span_layers.specs.Layer.{HearsBy};
ghost use Rattle.span_layers.specs.laws.Reload.{leaf_reloads};
ghost use Rattle.span_layers.specs.Veto.{VetoForm};
ghost use Rattle.span_registry.specs.Reload.{unreloaded};

use crate::layer::Layer;
use span_core::{Event, Interest, LevelFilter, Metadata, Pass};
use span_filters::{DynFilterFn, Filter, FilterFn};
use span_registry::{Context, ContextMut, Notice, Subscriber};
use span_targets::Setting;

/// A filter that is a layer, too. As a layer it takes no number and no setting, and no hook of it
/// is called: each of these has hooks that do nothing.
pub trait Veto {}

impl Veto for LevelFilter {}

impl<F> Veto for FilterFn<F> {}

impl<F, R> Veto for DynFilterFn<F, R> {}

impl<S: Subscriber, F: Veto + Filter<S>> Layer<S> for F {
    ghost usable = { λ x. F.usable x };

    ghost has_form = { λ x. VetoForm (F.has_answers x) };

    ghost stepped = { IdleSteps };

    ghost hears = { HearsBy IdleSteps };

    ghost acts_at = { LeafActs };

    ghost reloaded = { unreloaded };

    ghost registered = { λ x y. y ≡ x };

    ghost attached = { λ x y. y ≡ x };

    ghost laws = { veto_laws F.has_answers };

    ghost paths = { leaf_path_laws (λ x f h. is_leaf h.2) };

    ghost reloads = { leaf_reloads (veto_laws F.has_answers) };

    fn on_register_dispatch(&mut self) {
        // A filter has nothing to do.
    }

    fn on_layer(&mut self, _subscriber: &mut S) {
        // The filter takes no number: what it refuses is refused for all.
    }

    fn register_callsite(&self, meta: &Metadata, _pass: &mut Pass) -> Interest {
        self.callsite_enabled(meta)
    }

    fn enabled(&self, meta: &Metadata, ctx: &Context<'_, S>, _pass: &mut Pass) -> bool {
        <F as Filter<S>>::enabled(self, meta, ctx)
    }

    fn event_enabled(&self, event: &Event<'_>, ctx: &Context<'_, S>, _pass: &mut Pass) -> bool {
        <F as Filter<S>>::event_enabled(self, event, ctx)
    }

    fn max_level_hint(&self) -> Option<LevelFilter> {
        <F as Filter<S>>::max_level_hint(self)
    }

    fn filter_count(&self) -> u32 {
        0
    }

    fn is_filtered(&self) -> bool {
        false // The filter stands under no other.
    }

    fn is_absent(&self) -> bool {
        false // The layer is there.
    }

    #[inline(always)]
    fn notify(&mut self, _notice: Notice<'_, '_>, _ctx: &mut ContextMut<'_, S>) {}

    fn reload(&mut self, _number: u32, _setting: Setting) -> bool {
        false // The filter has no number: what it refuses is refused for all.
    }
}
