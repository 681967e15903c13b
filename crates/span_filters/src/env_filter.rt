//! Targets, and the spans that a lane is in, as a filter.
ghost use Rattle.std.specs.Prelude.{◌≡◌};
ghost use Rattle.span_filters.specs.EnvFilter.{env_answers, passes_around};
ghost use Rattle.span_filters.specs.Filter.{ActsSteadily, settled_answers};
ghost use Rattle.span_filters.specs.laws.EnvFilter.{env_honest};
ghost use Rattle.span_filters.specs.laws.Filter.{settled_laws, steady_reloads};
ghost use Rattle.span_registry.specs.Context.{view_in};
ghost use Rattle.span_targets.specs.EnvFilter.{spans_of};

use crate::always::AlwaysUsableFilter;
use crate::filter::Filter;
use span_core::{Event, Interest, Level, LevelFilter, Metadata};
use span_registry::{Context, ContextMut, LookupSpan, Notice};
use span_targets::{EnvFilter, Setting};

/// Whether the level passes in the span that a lane is in, or in one above that.
fn passes_around<S: LookupSpan>(filter: &EnvFilter, level: Level, cx: &Context<'_, S>) -> bool
    ensures { result ≡ passes_around (spans_of filter.now) level (view_in S.registry cx.now) }
{
    let Some(current) = cx.lookup_current() else {
        return false;
    };
    for span in current.scope() {
        if filter.passes_within(&span.metadata(), level) {
            return true;
        }
    }
    false
}

impl<S: LookupSpan> Filter<S> for EnvFilter {
    ghost has_answers = { settled_answers env_answers };

    ghost acts = { ActsSteadily (settled_answers env_answers) };

    ghost laws = { settled_laws env_answers env_honest };

    ghost reloads = { steady_reloads };

    fn enabled(&self, meta: &Metadata, cx: &Context<'_, S>) -> bool {
        self.passes_anywhere(meta) || passes_around(self, meta.level(), cx)
    }

    fn callsite_enabled(&self, meta: &Metadata) -> Interest {
        if self.passes_anywhere(meta) {
            Interest::Always
        } else if self.passes_somewhere(meta.level()) {
            Interest::Sometimes
        } else {
            Interest::Never
        }
    }

    fn event_enabled(&self, _event: &Event<'_>, _cx: &Context<'_, S>) -> bool {
        true
    }

    fn max_level_hint(&self) -> Option<LevelFilter> {
        Some(self.max_level())
    }

    #[inline(always)]
    fn notify(&mut self, _notice: Notice<'_, '_>, _ctx: &mut ContextMut<'_, S>) {}

    fn reload(&mut self, _setting: Setting) -> bool {
        false // The filter goes by targets and spans.
    }
}

impl<S: LookupSpan> AlwaysUsableFilter<S> for EnvFilter {
    ghost always = { λ f. tt };
}
