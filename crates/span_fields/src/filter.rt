//! The filter, and the open spans that it knows of.
ghost use Rattle.std.specs.Prelude.{◌≡◌, ◌++◌, [], ◌∷◌, OnErr, OnOk, false};
ghost use Rattle.span_core.specs.Span.{number_of};
ghost use Rattle.span_fields.specs.Filter.{Forgets, GoesOn, Notes, directives_of, field_answers, has_failed, met, passes_around, passes_in, within_of};
ghost use Rattle.span_fields.specs.laws.Filter.{field_laws, field_reloads};
ghost use Rattle.span_filters.specs.Filter.{settled_answers};
ghost use Rattle.span_registry.specs.Context.{view_in};

use crate::directive::{FieldDirective, most_of, passes_somewhere, passes_within};
use span_core::{Event, FieldValue, Id, Interest, Level, LevelFilter, Metadata};
use span_filters::{AlwaysUsableFilter, Filter};
use span_registry::{Context, ContextMut, LookupSpan, Notice};
use span_targets::Setting;
use std::alloc::{AllocError, Global};

/// An open span that was given the value of a directive, and the levels that pass within it.
#[derive(Clone, Copy, Debug)]
struct Within {
    span: Id,
    level: LevelFilter,
}

/// Lets more by within spans of some name, once they were given some value: as `[job{id=7}]=debug`
/// says it, debug at most within spans `job` whose `id` is 7, and within those below them.
///
/// Metadata of a span that a directive names pass, too, up to its level, since a span can't be
/// told by its values before it is open. A span that was given the value once stays so until it
/// closes. Where memory is refused, it counts as one without the value, and `failed` says so.
///
/// Stands for `tracing_subscriber::filter::EnvFilter` as far as its directives have fields. For
/// directives without use `span_targets::EnvFilter`, and join both by `or`.
#[derive(Debug, Drop)]
pub struct FieldFilter {
    directives: Vec<FieldDirective>,
    within: Vec<Within>,
    failed: bool,
}

impl FieldFilter {
    /// A filter without directives, by which nothing passes.
    pub fn new(alloc: Global) -> FieldFilter
        ensures directives { directives_of result ≡ [] }
        ensures within { within_of result ≡ [] }
        ensures failed { has_failed result ≡ false }
    {
        FieldFilter {
            directives: Vec::new(alloc),
            within: Vec::new(alloc),
            failed: false,
        }
    }

    /// Whether memory was refused once, so that some span counts as one without the value.
    pub fn failed(&self) -> bool
        ensures { result ≡ has_failed self.now }
    {
        self.failed
    }

    /// The filter with one directive more.
    pub fn add(&mut self, directive: FieldDirective) -> Result<(), AllocError>
        ensures ok { OnOk result
            (directives_of self.new ≡ directives_of self.old ++ directive ∷ []) }
        ensures err { OnErr result (directives_of self.new ≡ directives_of self.old) }
        ensures within { within_of self.new ≡ within_of self.old }
        ensures failed { has_failed self.new ≡ has_failed self.old }
    {
        self.directives.push(directive)?;
        Ok(())
    }

    /// The directives, in the order in which they were added.
    pub fn directives(&self) -> &[FieldDirective]
        ensures { result.now ≡ directives_of self.now }
    {
        &self.directives
    }

    /// Notes the directives that a span with this metadata meets by these values.
    fn note(&mut self, span: Id, meta: &Metadata, values: &[(&'static str, FieldValue<'_>)])
        ensures { Notes (met (directives_of self.old) span meta.now values.now)
            self.old self.new }
    {
        let FieldFilter {
            directives,
            within,
            failed,
        } = self;
        for directive in directives.iter() {
            if directive.is_met(meta, values) {
                let level = directive.level();
                if within.push(Within { span, level }).is_err() {
                    *failed = true;
                    return;
                }
            }
        }
    }

    /// Forgets a span that closes.
    fn forget(&mut self, span: Id)
        ensures { Forgets (number_of span) self.old self.new }
    {
        self.within.retain(|entry| entry.span != span);
    }

    /// Whether the level passes within the span.
    fn passes_in(&self, span: Id, level: Level) -> bool
        ensures { result ≡ passes_in (within_of self.now) level (number_of span) }
    {
        self.within
            .iter()
            .any(|entry| entry.span == span && entry.level.passes(level))
    }
}

/// Whether the level passes in the span that a lane is in, or in one above that.
fn passes_around<S: LookupSpan>(filter: &FieldFilter, level: Level, cx: &Context<'_, S>) -> bool
    ensures { result ≡ passes_around (within_of filter.now) level (view_in S.registry cx.now) }
{
    let Some(current) = cx.lookup_current() else {
        return false;
    };
    for span in current.scope() {
        if filter.passes_in(span.id(), level) {
            return true;
        }
    }
    false
}

impl<S: LookupSpan> Filter<S> for FieldFilter {
    ghost has_answers = { settled_answers field_answers };

    ghost hooked = { GoesOn };

    ghost acts = { λ f conduct. ⊥ };

    ghost laws = { field_laws };

    ghost reloads = { field_reloads };

    fn enabled(&self, meta: &Metadata, cx: &Context<'_, S>) -> bool {
        (meta.is_span() && passes_within(&self.directives, meta))
            || (passes_somewhere(&self.directives, meta.level())
                && passes_around(self, meta.level(), cx))
    }

    fn callsite_enabled(&self, meta: &Metadata) -> Interest {
        if meta.is_span() && passes_within(&self.directives, meta) {
            Interest::Always
        } else if passes_somewhere(&self.directives, meta.level()) {
            Interest::Sometimes
        } else {
            Interest::Never
        }
    }

    fn event_enabled(&self, _event: &Event<'_>, _cx: &Context<'_, S>) -> bool {
        true
    }

    fn max_level_hint(&self) -> Option<LevelFilter> {
        Some(most_of(&self.directives, LevelFilter::OFF))
    }

    fn notify(&mut self, notice: Notice<'_, '_>, ctx: &mut ContextMut<'_, S>) {
        match notice {
            Notice::NewSpan(attrs, id) => self.note(id, &attrs.metadata(), attrs.values()),
            Notice::Record(id, record) => {
                if let Some(meta) = ctx.metadata(id) {
                    self.note(id, &meta, record.values());
                }
            }
            Notice::Close(id) => self.forget(id),
            _ => {}
        }
    }

    fn reload(&mut self, _setting: Setting) -> bool {
        false // The filter goes by values.
    }
}

impl<S: LookupSpan> AlwaysUsableFilter<S> for FieldFilter {
    ghost always = { λ f. tt };
}
