//! Targets as a filter.
ghost use Rattle.std.specs.Prelude.{◌≡◌};
ghost use Rattle.span_filters.specs.Filter.{ActsSteadily, settled_answers};
ghost use Rattle.span_filters.specs.Targets.{targets_answers};
ghost use Rattle.span_filters.specs.laws.Filter.{settled_laws, steady_reloads};
ghost use Rattle.span_filters.specs.laws.Targets.{targets_honest};
ghost use Rattle.span_targets.specs.Targets.{wants};

use crate::always::AlwaysUsableFilter;
use crate::filter::Filter;
use span_core::{Event, Interest, LevelFilter, Metadata};
use span_registry::{Context, ContextMut, LookupSpan, Notice};
use span_targets::{Setting, Targets};

/// Whether the filter wants what has this metadata.
fn wants(filter: &Targets, meta: &Metadata) -> bool
    ensures { result ≡ wants filter.now meta.now }
{
    filter.would_enable(meta.target(), meta.level())
}

impl<S: LookupSpan> Filter<S> for Targets {
    ghost has_answers = { settled_answers targets_answers };

    ghost acts = { ActsSteadily (settled_answers targets_answers) };

    ghost laws = { settled_laws targets_answers targets_honest };

    ghost reloads = { steady_reloads };

    fn enabled(&self, meta: &Metadata, _cx: &Context<'_, S>) -> bool {
        wants(self, meta)
    }

    fn callsite_enabled(&self, meta: &Metadata) -> Interest {
        if wants(self, meta) {
            Interest::Always
        } else {
            Interest::Never
        }
    }

    fn event_enabled(&self, _event: &Event<'_>, _cx: &Context<'_, S>) -> bool {
        true
    }

    fn max_level_hint(&self) -> Option<LevelFilter> {
        Some(self.max_level())
    }

    #[inline(always)]
    fn notify(&mut self, _notice: Notice<'_, '_>, _ctx: &mut ContextMut<'_, S>) {}

    fn reload(&mut self, _setting: Setting) -> bool {
        false // The filter goes by targets.
    }
}

impl<S: LookupSpan> AlwaysUsableFilter<S> for Targets {
    ghost always = { λ f. tt };
}
