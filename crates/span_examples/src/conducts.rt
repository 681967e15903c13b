//! Filters of each kind round a recorder: it keeps what it would alone under a filter that acts so.
ghost use Rattle.std.specs.Prelude.{◌≡◌, None, IfErr, IfOk};
ghost use Rattle.span_core.specs.Level.{passes_level};
ghost use Rattle.span_core.specs.Metadata.{level_of};
ghost use Rattle.span_filters.specs.Closure.{interest_under, test_answers, view_answers};
ghost use Rattle.span_filters.specs.Combinator.{and_answers, not_answers, or_answers};
ghost use Rattle.span_filters.specs.Level.{level_conduct};
ghost use Rattle.span_registry.specs.Behaviour.{Behaviour};
ghost use Rattle.span_registry.specs.Context.{view_in};
ghost use Rattle.span_examples.specs.Kinds.{CountsUnder, IsCounted, RecordsUnder, StandsSomehow, WillRecordUnder, both_conduct, in_a_span, one_conduct};

use crate::isolation::WithAnswers;
use crate::kinds::serve_new;
use span_boxed::{BoxedFilter, DynFilter};
use span_core::{LevelFilter, Metadata, TraceError};
use span_dispatch::{Answer, Recorder, Request};
use span_filters::{And, Filter, FilterExt, Not, Or, dynamic_filter_fn, filter_fn, laws};
use span_registry::{Context, Registry, Subscriber};
use span_stacks::{Filtered, LayerExt, Layered, SubscriberExt};
use std::alloc::Global;

/// A recorder under a filter, on a registry.
pub type Under<F> = Layered<Filtered<Recorder, F>, Registry>;

/// Puts a recorder under a filter of any kind on a new registry. The filter has answers.
fn put_filtered<F: Filter<Registry> + Drop>(
    alloc: Global,
    filter: F,
) -> Result<Under<F>, TraceError>
    requires usable { F.usable filter }
    requires answers { (a : Behaviour) × F.has_answers filter a }
    ensures usable { IfOk result ⟦<Under<F> as Subscriber>⟧.usable }
    ensures stands { let i = ⟦<Under<F> as Subscriber>⟧ in
        IfOk result (StandsSomehow i.registry i.has_form) }
    ensures records { IfOk result (WillRecordUnder ⟦<Under<F> as Subscriber>⟧ (F.acts filter)) }
    ensures memory { IfErr result (λ e. e ≡ TraceError.OutOfMemory) }
{
    span_stacks::laws::numbers_are_own();
    span_promises::laws::other_layers_make_no_difference::<Under<F>, Under<F>>();
    let layer = Recorder::new(alloc).with_filter(filter);
    match Registry::new(alloc).with(layer) {
        Ok(stack) => Ok(stack),
        Err(back) => Err(back.error),
    }
}

/// A recorder under two levels, of which both are to pass.
pub fn under_both(
    alloc: Global,
    first: LevelFilter,
    second: LevelFilter,
    requests: &[Request<'_>],
) -> Result<WithAnswers<Under<And<LevelFilter, LevelFilter>>>, TraceError>
    ensures kept { let i = ⟦<Under<And<LevelFilter, LevelFilter>> as Subscriber>⟧ in
        IfOk result (RecordsUnder i
        (both_conduct and_answers (level_conduct first) (level_conduct second)) requests.now) }
    ensures memory { IfErr result (λ e. e ≡ TraceError.OutOfMemory) }
{
    let stack = put_filtered(alloc, first.and(second))?;
    serve_new(alloc, stack, requests)
}

/// A recorder under two levels, of which either is to pass.
pub fn under_either(
    alloc: Global,
    first: LevelFilter,
    second: LevelFilter,
    requests: &[Request<'_>],
) -> Result<WithAnswers<Under<Or<LevelFilter, LevelFilter>>>, TraceError>
    ensures kept { let i = ⟦<Under<Or<LevelFilter, LevelFilter>> as Subscriber>⟧ in
        IfOk result (RecordsUnder i
        (both_conduct or_answers (level_conduct first) (level_conduct second)) requests.now) }
    ensures memory { IfErr result (λ e. e ≡ TraceError.OutOfMemory) }
{
    let stack = put_filtered(alloc, first.or(second))?;
    serve_new(alloc, stack, requests)
}

/// A recorder under what a level doesn't pass.
pub fn under_negated(
    alloc: Global,
    level: LevelFilter,
    requests: &[Request<'_>],
) -> Result<WithAnswers<Under<Not<LevelFilter>>>, TraceError>
    ensures kept { IfOk result
        (RecordsUnder ⟦<Under<Not<LevelFilter>> as Subscriber>⟧
        (one_conduct not_answers (level_conduct level)) requests.now) }
    ensures memory { IfErr result (λ e. e ≡ TraceError.OutOfMemory) }
{
    let stack = put_filtered(alloc, level.not())?;
    serve_new(alloc, stack, requests)
}

/// A recorder under a level that might be absent.
pub fn under_optional(
    alloc: Global,
    level: LevelFilter,
    requests: &[Request<'_>],
) -> Result<WithAnswers<Under<Option<LevelFilter>>>, TraceError>
    ensures kept { IfOk result
        (RecordsUnder ⟦<Under<Option<LevelFilter>> as Subscriber>⟧ (level_conduct level)
        requests.now) }
    ensures memory { IfErr result (λ e. e ≡ TraceError.OutOfMemory) }
{
    let stack = put_filtered(alloc, Some(level))?;
    serve_new(alloc, stack, requests)
}

/// How many notices the recorder keeps, unless it failed.
pub(crate) fn count(recorder: &Recorder) -> Option<usize>
    ensures { IsCounted recorder.now result }
{
    if recorder.failed() {
        return None;
    }
    Some(recorder.notices().len())
}

/// Serves requests on a recorder under a test of metadata, a closure, and counts the recorder's
/// notices.
pub fn count_tested(
    alloc: Global,
    level: LevelFilter,
    requests: &[Request<'_>],
) -> Result<(Vec<Answer>, Option<usize>), TraceError>
    ensures counted { IfOk result
        (CountsUnder (λ h. test_answers (λ m. passes_level level (level_of m)) None) requests.now) }
    ensures memory { IfErr result (λ e. e ≡ TraceError.OutOfMemory) }
{
    let filter = filter_fn(
        move |meta: &Metadata| -> bool
            ensures { result ≡ passes_level level (level_of meta.now) }
        { level.passes(meta.level()) },
    );
    laws::tests_are_plain::<Registry, _>(&filter);
    let stack = put_filtered(alloc, filter)?;
    let (dispatch, answers) = serve_new(alloc, stack, requests)?;
    let counted = count(dispatch.stack().outer().layer());
    Ok((answers, counted))
}

/// Serves requests on a recorder under a closure that asks for the current span, and counts the
/// recorder's notices of what comes in a span.
pub fn count_in_span(
    alloc: Global,
    requests: &[Request<'_>],
) -> Result<(Vec<Answer>, Option<usize>), TraceError>
    ensures counted { IfOk result
        (CountsUnder (λ h. view_answers in_a_span (interest_under None) None) requests.now) }
    ensures memory { IfErr result (λ e. e ≡ TraceError.OutOfMemory) }
{
    let filter = dynamic_filter_fn(
        move |_meta: &Metadata, cx: &Context<'_, Registry>| -> bool
            ensures { result ≡ in_a_span _meta.now (view_in (λ s. s) cx.entry.now) }
        { cx.lookup_current().is_some() },
    );
    laws::view_tests_may_be_plain::<Registry, _, _>(&filter);
    let stack = put_filtered(alloc, filter)?;
    let (dispatch, answers) = serve_new(alloc, stack, requests)?;
    let counted = count(dispatch.stack().outer().layer());
    Ok((answers, counted))
}

/// Serves requests on a recorder under a level in a box, and counts the recorder's notices.
pub fn count_boxed(
    alloc: Global,
    level: LevelFilter,
    requests: &[Request<'_>],
) -> Result<(Vec<Answer>, Option<usize>), TraceError>
    ensures counted { IfOk result (CountsUnder (level_conduct level) requests.now) }
    ensures memory { IfErr result (λ e. e ≡ TraceError.OutOfMemory) }
{
    let object: Box<dyn DynFilter + Send> = Box::new(alloc, level)?;
    let filter = BoxedFilter::new(object);
    let stack = put_filtered(alloc, filter)?;
    let (dispatch, answers) = serve_new(alloc, stack, requests)?;
    let counted = count(dispatch.stack().outer().layer());
    Ok((answers, counted))
}
