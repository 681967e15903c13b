//! A layer that may be absent.
ghost use Rattle.std.specs.Prelude.{IfSome};
ghost use Rattle.span_layers.specs.Acts.{OptionActs};
ghost use Rattle.span_layers.specs.laws.Path.{option_path_laws};
ghost use Rattle.span_layers.specs.Reload.{OptionReloads};
ghost use Rattle.span_layers.specs.laws.Reload.{option_reloads};
ghost use Rattle.span_layers.specs.Optional.{OptionForm, OptionGoes, OptionHears, OptionSteps};
ghost use Rattle.span_layers.specs.laws.Option.{option_laws};

use crate::layer::Layer;
use span_core::{Event, Interest, LevelFilter, Metadata, Pass};
use span_registry::{Context, ContextMut, Notice, Subscriber};
use span_targets::Setting;

/// `None` is an absent layer: it refuses nothing, does nothing, and its hint is `OFF`. `Some` acts
/// as the layer that it holds.
impl<S: Subscriber, L: Layer<S>> Layer<S> for Option<L> {
    ghost usable = { λ x. IfSome x L.usable };

    ghost has_form = { OptionForm L.has_form };

    ghost stepped = { OptionSteps L.stepped };

    ghost hears = { OptionHears L.hears };

    ghost acts_at = { OptionActs L.acts_at };

    ghost reloaded = { OptionReloads L.reloaded };

    ghost registered = { OptionGoes L.registered };

    ghost attached = { OptionGoes L.attached };

    ghost laws = { option_laws L.laws };

    ghost paths = { option_path_laws L.paths };

    ghost reloads = { option_reloads L.reloads };

    fn on_register_dispatch(&mut self) {
        if let Some(layer) = self {
            layer.on_register_dispatch();
        }
    }

    fn on_layer(&mut self, subscriber: &mut S) {
        if let Some(layer) = self {
            layer.on_layer(subscriber);
        }
    }

    fn register_callsite(&self, meta: &Metadata, pass: &mut Pass) -> Interest {
        match self {
            Some(layer) => layer.register_callsite(meta, pass),
            None => Interest::Always,
        }
    }

    fn enabled(&self, meta: &Metadata, ctx: &Context<'_, S>, pass: &mut Pass) -> bool {
        match self {
            Some(layer) => layer.enabled(meta, ctx, pass),
            None => true,
        }
    }

    fn event_enabled(&self, event: &Event<'_>, ctx: &Context<'_, S>, pass: &mut Pass) -> bool {
        match self {
            Some(layer) => layer.event_enabled(event, ctx, pass),
            None => true,
        }
    }

    fn max_level_hint(&self) -> Option<LevelFilter> {
        match self {
            Some(layer) => layer.max_level_hint(),
            None => Some(LevelFilter::OFF),
        }
    }

    fn filter_count(&self) -> u32 {
        match self {
            Some(layer) => layer.filter_count(),
            None => 0,
        }
    }

    fn is_filtered(&self) -> bool {
        match self {
            Some(layer) => layer.is_filtered(),
            None => false,
        }
    }

    fn is_absent(&self) -> bool {
        match self {
            Some(layer) => layer.is_absent(),
            None => true,
        }
    }

    #[inline(always)]
    fn notify(&mut self, notice: Notice<'_, '_>, ctx: &mut ContextMut<'_, S>) {
        if let Some(layer) = self {
            layer.notify(notice, ctx);
        }
    }

    fn reload(&mut self, number: u32, setting: Setting) -> bool {
        match self {
            Some(layer) => layer.reload(number, setting),
            None => false,
        }
    }
}
