//! A layer in a box.
ghost use Rattle.span_layers.specs.laws.Path.{box_path_laws};
ghost use Rattle.span_layers.specs.Boxed.{BoxHears, BoxReloads, BoxSteps};
ghost use Rattle.span_layers.specs.laws.Box.{box_laws};
ghost use Rattle.span_layers.specs.laws.Reload.{box_reloads};

use crate::layer::Layer;
use span_core::{Event, Interest, LevelFilter, Metadata, Pass};
use span_registry::{Context, ContextMut, Notice, Subscriber};
use span_targets::Setting;

/// A boxed layer acts as the layer in the box does.
impl<S: Subscriber, L: Layer<S>> Layer<S> for Box<L> {
    ghost usable = { λ x. L.usable x.value };

    ghost has_form = { λ x. L.has_form x.value };

    ghost stepped = { BoxSteps L.stepped };

    ghost hears = { BoxHears L.hears };

    ghost acts_at = { λ x. L.acts_at x.value };

    ghost reloaded = { BoxReloads L.reloaded };

    ghost registered = { λ x y. L.registered x.value y.value };

    ghost attached = { λ x y. L.attached x.value y.value };

    ghost laws = { box_laws L.laws };

    ghost paths = { box_path_laws L.paths };

    ghost reloads = { box_reloads L.reloads };

    fn on_register_dispatch(&mut self) {
        (**self).on_register_dispatch();
    }

    fn on_layer(&mut self, subscriber: &mut S) {
        (**self).on_layer(subscriber);
    }

    fn register_callsite(&self, meta: &Metadata, pass: &mut Pass) -> Interest {
        (**self).register_callsite(meta, pass)
    }

    fn enabled(&self, meta: &Metadata, ctx: &Context<'_, S>, pass: &mut Pass) -> bool {
        (**self).enabled(meta, ctx, pass)
    }

    fn event_enabled(&self, event: &Event<'_>, ctx: &Context<'_, S>, pass: &mut Pass) -> bool {
        (**self).event_enabled(event, ctx, pass)
    }

    fn max_level_hint(&self) -> Option<LevelFilter> {
        (**self).max_level_hint()
    }

    fn filter_count(&self) -> u32 {
        (**self).filter_count()
    }

    fn is_filtered(&self) -> bool {
        (**self).is_filtered()
    }

    fn is_absent(&self) -> bool {
        (**self).is_absent()
    }

    #[inline(always)]
    fn notify(&mut self, notice: Notice<'_, '_>, ctx: &mut ContextMut<'_, S>) {
        (**self).notify(notice, ctx);
    }

    fn reload(&mut self, number: u32, setting: Setting) -> bool {
        (**self).reload(number, setting)
    }
}
