//! A layer that vetoes events by their values.
ghost use Rattle.std.specs.Prelude.{◌≡◌};
ghost use Rattle.span_filters.specs.Filter.{settled_answers};
ghost use Rattle.span_layers.specs.Acts.{LeafActs};
ghost use Rattle.span_layers.specs.laws.Leaf.{is_leaf, veto_laws};
ghost use Rattle.span_layers.specs.laws.Path.{leaf_path_laws};
ghost use Rattle.span_layers.specs.Idle.{IdleSteps};
ghost use Rattle.span_layers.specs.Layer.{HearsBy};
ghost use Rattle.span_layers.specs.laws.Reload.{leaf_reloads};
ghost use Rattle.span_layers.specs.Veto.{VetoForm};
ghost use Rattle.span_registry.specs.Reload.{unreloaded};
ghost use Rattle.span_script.specs.Mute.{mute_answers};

use crate::mute::is_muted;
use span_core::{Event, Interest, LevelFilter, Metadata, Pass};
use span_layers::Layer;
use span_registry::{Context, ContextMut, Notice, Subscriber};
use span_targets::Setting;

/// Vetoes the events that have a field `mute` with the value `true`, and does nothing else.
#[derive(Clone, Copy, Debug)]
pub struct MuteVeto;

impl<S: Subscriber> Layer<S> for MuteVeto {
    ghost has_form = { λ x. VetoForm (settled_answers (λ v. mute_answers) x) };

    ghost stepped = { IdleSteps };

    ghost hears = { HearsBy IdleSteps };

    ghost acts_at = { LeafActs };

    ghost reloaded = { unreloaded };

    ghost registered = { λ x y. y ≡ x };

    ghost attached = { λ x y. y ≡ x };

    ghost laws = { veto_laws (settled_answers (λ v. mute_answers)) };

    ghost paths = { leaf_path_laws (λ x f h. is_leaf h.2) };

    ghost reloads = { leaf_reloads (veto_laws (settled_answers (λ v. mute_answers))) };

    fn on_register_dispatch(&mut self) {
        // It has nothing to do.
    }

    fn on_layer(&mut self, _subscriber: &mut S) {
        // It takes no number: what it refuses is refused for all.
    }

    fn register_callsite(&self, _meta: &Metadata, _pass: &mut Pass) -> Interest {
        Interest::Always
    }

    fn enabled(&self, _meta: &Metadata, _ctx: &Context<'_, S>, _pass: &mut Pass) -> bool {
        true // It refuses by the values, after.
    }

    fn event_enabled(&self, event: &Event<'_>, _ctx: &Context<'_, S>, _pass: &mut Pass) -> bool {
        !is_muted(event.values())
    }

    fn max_level_hint(&self) -> Option<LevelFilter> {
        None // It lets all levels by.
    }

    fn filter_count(&self) -> u32 {
        0
    }

    fn is_filtered(&self) -> bool {
        false // It stands under no filter.
    }

    fn is_absent(&self) -> bool {
        false // It is there.
    }

    fn notify(&mut self, _notice: Notice<'_, '_>, _ctx: &mut ContextMut<'_, S>) {}

    fn reload(&mut self, _number: u32, _setting: Setting) -> bool {
        false // No filter is in it.
    }
}
