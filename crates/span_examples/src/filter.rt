//! Filters, as a program that uses the library writes them.
ghost use Rattle.std.specs.Prelude.{◌≡◌, IfOk};
ghost use Rattle.span_core.specs.Level.{passes_level};
ghost use Rattle.span_core.specs.Metadata.{level_of};
ghost use Rattle.span_filters.specs.laws.Closure.{unhinted_honest};
ghost use Rattle.span_filters.specs.Filter.{ActsSteadily, settled_answers};
ghost use Rattle.span_filters.specs.laws.Filter.{settled_laws, steady_reloads};
ghost use Rattle.span_registry.specs.Context.{view_in};
ghost use Rattle.span_examples.specs.Filters.{is_marked, view_on, target_answers, wanted_by, wants_target};
ghost use Rattle.span_examples.specs.laws.Target.{goes_by_target};

use span_boxed::{BoxedFilter, DynFilter};
use span_core::{Event, Interest, Lane, LevelFilter, Metadata};
use span_filters::{AlwaysUsableFilter, Filter, dynamic_filter_fn};
use span_registry::{Context, ContextMut, ExtensionValue, LookupSpan, Notice, Registry, Tag};
use span_targets::Setting;
use std::alloc::{AllocError, Global};

/// A filter by targets: it enables what has one of these.
#[derive(Drop)]
pub struct Wanted {
    wanted: &'static [&'static str],
}

impl Wanted {
    /// A filter that enables these targets.
    pub fn new(wanted: &'static [&'static str]) -> Wanted
        ensures { wanted_by result ≡ wanted.now }
    {
        Wanted { wanted }
    }

    /// Whether the target of metadata is one of the filter's, byte for byte.
    pub fn wants(&self, meta: &Metadata) -> bool
        ensures { result ≡ wants_target self.now meta.now }
    {
        let target = meta.target();
        self.wanted.iter().any(|wanted| *wanted == target)
    }
}

impl<S: LookupSpan> Filter<S> for Wanted {
    ghost has_answers = { settled_answers target_answers };

    ghost acts = { ActsSteadily (settled_answers target_answers) };

    ghost laws = { settled_laws target_answers
        (λ f. unhinted_honest (wants_target f) (goes_by_target f)) };

    ghost reloads = { steady_reloads };

    fn reload(&mut self, _setting: Setting) -> bool {
        false // It goes by the target.
    }

    fn enabled(&self, meta: &Metadata, _cx: &Context<'_, S>) -> bool {
        self.wants(meta)
    }

    fn callsite_enabled(&self, meta: &Metadata) -> Interest {
        if self.wants(meta) {
            Interest::Always
        } else {
            Interest::Never
        }
    }

    fn event_enabled(&self, _event: &Event<'_>, _cx: &Context<'_, S>) -> bool {
        true
    }

    fn max_level_hint(&self) -> Option<LevelFilter> {
        None
    }

    fn notify(&mut self, _notice: Notice<'_, '_>, _ctx: &mut ContextMut<'_, S>) {}
}

impl<S: LookupSpan> AlwaysUsableFilter<S> for Wanted {
    ghost always = { λ f. tt };
}

/// Whether metadata pass a filter that enables what comes in a marked span: one with a value under
/// this tag.
pub fn wants_in_marked<T: ExtensionValue>(
    registry: &Registry,
    lane: Lane,
    meta: &Metadata,
    mark: Tag<T>,
) -> bool
    ensures { result ≡ is_marked T.place mark (view_on registry.now lane) }
{
    let filter = dynamic_filter_fn(
        move |_meta: &Metadata, cx: &Context<'_, Registry>| -> bool
            ensures { result ≡ is_marked T.place mark (view_in (λ s. s) cx.entry.now) }
        {
            match cx.lookup_current() {
                Some(span) => span.extensions().get(mark).is_some(),
                None => false,
            }
        },
    );
    filter.enabled(meta, &Context::new(registry, lane))
}

/// Whether metadata pass a level in a box: where they pass the level.
pub fn wants_boxed(
    alloc: Global,
    level: LevelFilter,
    registry: &Registry,
    lane: Lane,
    meta: &Metadata,
) -> Result<bool, AllocError>
    ensures { IfOk result (λ wanted. wanted ≡ passes_level level (level_of meta.now)) }
{
    let object: Box<dyn DynFilter + Send> = Box::new(alloc, level)?;
    let filter = BoxedFilter::new(object);
    let cx = Context::new(registry, lane);
    Ok(filter.enabled(meta, &cx))
}
