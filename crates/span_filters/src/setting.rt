//! A setting as a filter, in whose place another can be put while a program runs.
ghost use Rattle.std.specs.Prelude.{◌≡◌};
ghost use Rattle.span_filters.specs.Filter.{settled_answers};
ghost use Rattle.span_filters.specs.Setting.{ActsBySetting, setting_answers, setting_taken};
ghost use Rattle.span_filters.specs.laws.Setting.{setting_laws, setting_reloads};

use crate::always::AlwaysUsableFilter;
use crate::filter::Filter;
use span_core::{Event, Interest, LevelFilter, Metadata};
use span_registry::{Context, ContextMut, LookupSpan, Notice};
use span_targets::Setting;

/// What the level or the directives let by passes. Any other setting is taken in its place.
///
/// Stands for `tracing_subscriber::reload::Layer` round a filter.
impl<S: LookupSpan> Filter<S> for Setting {
    ghost has_answers = { settled_answers setting_answers };

    ghost reloaded = { setting_taken };

    ghost acts = { ActsBySetting };

    ghost laws = { setting_laws };

    ghost reloads = { setting_reloads };

    fn enabled(&self, meta: &Metadata, cx: &Context<'_, S>) -> bool {
        match self {
            Setting::Level(level) => level.enabled(meta, cx),
            Setting::Directives(filter) => filter.enabled(meta, cx),
        }
    }

    fn callsite_enabled(&self, meta: &Metadata) -> Interest {
        match self {
            Setting::Level(level) => Filter::<S>::callsite_enabled(level, meta),
            Setting::Directives(filter) => Filter::<S>::callsite_enabled(*filter, meta),
        }
    }

    fn event_enabled(&self, _event: &Event<'_>, _cx: &Context<'_, S>) -> bool {
        true
    }

    fn max_level_hint(&self) -> Option<LevelFilter> {
        match self {
            Setting::Level(level) => Some(*level),
            Setting::Directives(filter) => Some(filter.max_level()),
        }
    }

    #[inline(always)]
    fn notify(&mut self, _notice: Notice<'_, '_>, _ctx: &mut ContextMut<'_, S>) {}

    fn reload(&mut self, setting: Setting) -> bool {
        *self = setting;
        true
    }
}

impl<S: LookupSpan> AlwaysUsableFilter<S> for Setting {
    ghost always = { λ f. tt };
}
