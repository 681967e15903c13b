//! A filter by level.
ghost use Rattle.span_filters.specs.Filter.{settled_answers};
ghost use Rattle.span_filters.specs.Level.{ActsByLevel, level_answers, level_taken};
ghost use Rattle.span_filters.specs.laws.Level.{level_laws, level_reloads};

use crate::filter::Filter;
use span_core::{Event, Interest, LevelFilter, Metadata};
use span_registry::{Context, ContextMut, LookupSpan, Notice};
use span_targets::Setting;

impl<S: LookupSpan> Filter<S> for LevelFilter {
    ghost has_answers = { settled_answers level_answers };

    ghost reloaded = { level_taken };

    ghost acts = { ActsByLevel };

    ghost laws = { level_laws };

    ghost reloads = { level_reloads };

    fn enabled(&self, meta: &Metadata, _cx: &Context<'_, S>) -> bool {
        self.passes(meta.level())
    }

    fn callsite_enabled(&self, meta: &Metadata) -> Interest {
        if self.passes(meta.level()) {
            Interest::Always
        } else {
            Interest::Never
        }
    }

    fn event_enabled(&self, _event: &Event<'_>, _cx: &Context<'_, S>) -> bool {
        true
    }

    fn max_level_hint(&self) -> Option<LevelFilter> {
        Some(*self)
    }

    #[inline(always)]
    fn notify(&mut self, _notice: Notice<'_, '_>, _ctx: &mut ContextMut<'_, S>) {}

    fn reload(&mut self, setting: Setting) -> bool {
        match setting.level() {
            Some(level) => {
                *self = level;
                true
            }
            None => false,
        }
    }
}
