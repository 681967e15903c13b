//! Tests of a dispatcher that keeps its stack's hint and interests: what it asks of filters once,
//! and what each time.
ghost use Rattle.span_dispatch.specs.Serve.{stack_of};

use crate::requests::{
    AsLayer, AsLayers, Keeping, UnderOne, event, keeps, made, new_span, put_in_use, serve,
};
use span_core::{Event, Id, Kind, Level, LevelFilter, Metadata, TraceError};
use span_dispatch::{Answer, Dispatch, Recorded, Recorder, Request, Which, WhichParent};
use span_filters::{Filter, filter_fn};
use span_layer_tests::fixture::{LANE, metadata_of, put};
use span_layers::Layer;
use span_registry::{Registry, Subscriber};
use span_stacks::{Filtered, LayerExt, Layered};
use std::alloc::Global;
use std::cell::Cell;
use std::process::Abort;
use std::rc::Rc;
use std::test::Fail;

/// So many events of level info, from one callsite.
fn events(alloc: Global, count: usize) -> Result<Vec<Request<'static>>, Fail> {
    let mut requests = Vec::new(alloc);
    for _ in 0..count {
        requests.push(event(5, Level::INFO))?;
    }
    Ok(requests)
}

/// Sends an event of this level from one callsite. Answers whether it was made.
fn send<S: Subscriber>(dispatch: &mut Dispatch<S>, level: Level) -> Result<bool, TraceError>
    requires { S.usable (stack_of dispatch.old) }
    ensures { S.usable (stack_of dispatch.new) }
{
    dispatch.event(LANE, &Event::new(metadata_of(5, level, Kind::EVENT), &[]))
}

/// Sends an event of level info. Answers whether it was made, and the hint that the dispatcher then
/// has.
pub(crate) fn sent_under<S: Subscriber>(
    dispatch: &mut Dispatch<S>,
) -> (Result<bool, TraceError>, Option<LevelFilter>)
    requires { S.usable (stack_of dispatch.old) }
    ensures { S.usable (stack_of dispatch.new) }
{
    let is_made = send(dispatch, Level::INFO);
    (is_made, dispatch.max_level_hint())
}

/// Counts that a filter is asked.
pub(crate) fn count_one(asked: &Cell<u32>) {
    asked.set(asked.get().saturating_add(1));
}

/// Serves so many events.
fn serve_events<S: Subscriber>(
    alloc: Global,
    dispatch: &mut Dispatch<S>,
    count: usize,
) -> Result<(), Fail>
    requires { S.usable (stack_of dispatch.old) }
    ensures { S.usable (stack_of dispatch.new) }
{
    serve(alloc, dispatch, &events(alloc, count)?)?;
    Ok(())
}

/// How many of these events a recorder keeps. Fails where it keeps anything else.
fn events_in(recorder: &Recorder) -> Result<usize, Fail> {
    let notices = recorder.notices();
    let mut kept = notices.iter();
    if !kept.all(|notice| *notice == Recorded::Event(LANE, 5)) {
        return Err(Fail::from("another notice"));
    }
    Ok(notices.len())
}

/// How many of so many events two recorders keep, the inner one first.
fn kept_by_two<S: Subscriber + Drop + AsLayer<Recorder>, L: Layer<S> + Drop + AsLayer<Recorder>>(
    alloc: Global,
    stack: S,
    layer: L,
    count: usize,
) -> Result<(usize, usize), Fail>
    requires stack { S.usable stack }
    requires layer { L.usable layer }
{
    let mut dispatch = put_in_use(alloc, stack, layer, Keeping::Answers)?;
    serve_events(alloc, &mut dispatch, count)?;
    let stack = dispatch.stack();
    Ok((events_in(stack.as_inner())?, events_in(stack.as_outer())?))
}

/// Puts a recorder's layer on a stack, and one under a filter outside it, and counts what both keep
/// of so many events.
fn kept_below<
    S: Subscriber + Drop,
    L: Layer<S> + Drop + AsLayer<Recorder>,
    F: Filter<Layered<L, S>> + Drop,
>(alloc: Global, stack: S, inner: L, filter: F, count: usize) -> Result<(usize, usize), Fail>
    requires stack { S.usable stack }
    requires layer { L.usable inner }
    requires filter { F.usable filter }
{
    let under_filter = Recorder::new(alloc).with_filter(filter);
    kept_by_two(alloc, put(stack, inner)?, under_filter, count)
}

/// A recorder under a filter that is absent.
type UnderNone = Filtered<Recorder, Option<LevelFilter>>;

/// Puts a recorder under no filter on a stack, and one under a filter outside it, and counts what
/// both keep.
fn kept_outside<S: Subscriber + Drop, F: Filter<Layered<UnderNone, S>> + Drop>(
    alloc: Global,
    stack: S,
    filter: F,
    count: usize,
) -> Result<(usize, usize), Fail>
    requires stack { S.usable stack }
    requires filter { F.usable filter }
{
    let absent: Option<LevelFilter> = None;
    let under_none = Recorder::new(alloc).with_filter(absent);
    kept_below(alloc, stack, under_none, filter, count)
}

/// So many events under no filter, and under one that wants them: it is asked once.
fn asked_once(rt: &impl Abort, alloc: Global, count: usize) -> Result<(), Fail> {
    let asked = Rc::new(alloc, Cell::new(0))?;
    let counter = asked.clone()?;
    let counted = filter_fn(move |_meta: &Metadata| {
        count_one(&counter);
        true
    });
    let (other, counted) = kept_outside(alloc, Registry::new(alloc), counted, count)?;
    assert!(rt; (counted, other, asked.get()) == (count, count, 1));
    Ok(())
}

#[test]
fn filters_that_want_a_callsite_are_asked_of_it_once(rt: HostRuntime) -> Result<(), Fail> {
    asked_once(&rt, rt.alloc(), 2)?;
    asked_once(&rt, rt.alloc(), 10_000)
}

/// Of two recorders the outer one keeps none of three events, and the inner one all.
fn keeps_none<S: Subscriber + Drop + AsLayer<Recorder>, L: Layer<S> + Drop + AsLayer<Recorder>>(
    rt: &impl Abort,
    alloc: Global,
    stack: S,
    layer: L,
) -> Result<(), Fail>
    requires stack { S.usable stack }
    requires layer { L.usable layer }
{
    let mut dispatch = put_in_use(alloc, stack, layer, Keeping::Answers)?;
    serve_events(alloc, &mut dispatch, 3)?;
    let stack = dispatch.stack();
    keeps(rt, stack.as_outer(), &[]);
    let notice = Recorded::Event(LANE, 5);
    keeps(rt, stack.as_inner(), &[notice, notice, notice]);
    Ok(())
}

/// Puts a recorder's layer on a stack, and one under a filter outside it: that keeps none of three
/// events, and the other all.
fn keeps_none_below<
    S: Subscriber + Drop,
    L: Layer<S> + Drop + AsLayer<Recorder>,
    F: Filter<Layered<L, S>> + Drop,
>(rt: &impl Abort, alloc: Global, stack: S, inner: L, filter: F) -> Result<(), Fail>
    requires stack { S.usable stack }
    requires layer { L.usable inner }
    requires filter { F.usable filter }
{
    let under_filter = Recorder::new(alloc).with_filter(filter);
    keeps_none(rt, alloc, put(stack, inner)?, under_filter)
}

/// Puts a recorder under INFO on a stack, and one under a filter outside it, which keeps nothing.
fn keeps_none_outside<S: Subscriber + Drop, F: Filter<Layered<UnderOne, S>> + Drop>(
    rt: &impl Abort,
    alloc: Global,
    stack: S,
    filter: F,
) -> Result<(), Fail>
    requires stack { S.usable stack }
    requires filter { F.usable filter }
{
    let under_info = Recorder::new(alloc).with_filter(LevelFilter::INFO);
    keeps_none_below(rt, alloc, stack, under_info, filter)
}

#[test]
fn filters_that_differ_on_a_callsite_are_asked_each_time(rt: HostRuntime) -> Result<(), Fail> {
    let asked = Rc::new(rt.alloc(), Cell::new(0))?;
    let counter = asked.clone()?;
    let counted = filter_fn(move |meta: &Metadata| {
        count_one(&counter);
        meta.level() <= Level::WARN
    });
    keeps_none_outside(&rt, rt.alloc(), Registry::new(rt.alloc()), counted)?;
    // It is asked once for the interest, and once for each event.
    assert!(rt; asked.get() == 4);
    Ok(())
}

/// A stack of which levels can be set past its dispatcher.
trait Levels: Subscriber {
    /// Sets the level next to each recorder.
    fn set_levels(&mut self, level: LevelFilter)
        requires { Self.usable self.old }
        ensures { Self.usable self.new };
}

impl<S: Subscriber> Levels for Layered<UnderOne, S> {
    fn set_levels(&mut self, level: LevelFilter) {
        *self.outer_mut().filter_mut() = level;
    }
}

/// Changes the levels of a stack in use.
fn change_levels<S: Levels>(dispatch: &mut Dispatch<S>, level: LevelFilter)
    requires { S.usable (stack_of dispatch.old) }
    ensures { S.usable (stack_of dispatch.new) }
{
    dispatch.stack_mut().set_levels(level);
}

/// A recorder under WARN is sent an event of level info, and, its level changed to that, once more.
fn sends_around_a_change<S: Levels + AsLayer<Recorder>>(rt: &impl Abort, dispatch: &mut Dispatch<S>)
    requires { S.usable (stack_of dispatch.old) }
{
    let before = sent_under(dispatch);
    change_levels(dispatch, LevelFilter::INFO);
    let after = sent_under(dispatch);
    keeps(rt, dispatch.stack().as_layer(), &[Recorded::Event(LANE, 5)]);
    assert!(rt;
        [before, after]
            == [
                (Ok(false), Some(LevelFilter::WARN)),
                (Ok(true), Some(LevelFilter::INFO)),
            ]
    );
}

/// Puts that recorder on a stack.
fn sends_under_warn<S: Subscriber + Drop>(
    rt: &impl Abort,
    alloc: Global,
    stack: S,
) -> Result<(), Fail>
    requires { S.usable stack }
{
    let under_warn = Recorder::new(alloc).with_filter(LevelFilter::WARN);
    sends_around_a_change(
        rt,
        &mut put_in_use(alloc, stack, under_warn, Keeping::Answers)?,
    );
    Ok(())
}

#[test]
fn a_changed_stack_is_asked_again(rt: HostRuntime) -> Result<(), Fail> {
    sends_under_warn(&rt, rt.alloc(), Registry::new(rt.alloc()))
}

/// An event of each level, from a callsite of its own, each of them again, and one from a callsite
/// that has another level.
fn events_of_each_level() -> [Request<'static>; 11] {
    [
        event(3, Level::ERROR),
        event(4, Level::WARN),
        event(5, Level::INFO),
        event(6, Level::DEBUG),
        event(7, Level::TRACE),
        event(3, Level::ERROR),
        event(4, Level::WARN),
        event(5, Level::INFO),
        event(6, Level::DEBUG),
        event(7, Level::TRACE),
        event(5, Level::DEBUG),
    ]
}

/// The answers to these where info alone is wanted.
const ONLY_INFO: [Answer; 11] = [
    Answer::Dropped,
    Answer::Dropped,
    Answer::Done,
    Answer::Dropped,
    Answer::Dropped,
    Answer::Dropped,
    Answer::Dropped,
    Answer::Done,
    Answer::Dropped,
    Answer::Dropped,
    Answer::Refused(TraceError::CallsiteMismatch),
];

/// Serves those events, of which info alone is wanted, by a stack without a hint.
fn answers_each_level<S: Subscriber>(
    rt: &impl Abort,
    alloc: Global,
    dispatch: &mut Dispatch<S>,
) -> Result<(), Fail>
    requires { S.usable (stack_of dispatch.old) }
    ensures { S.usable (stack_of dispatch.new) }
{
    let answers = serve(alloc, dispatch, &events_of_each_level())?;
    assert!(rt; answers.as_slice() == ONLY_INFO.as_slice());
    assert!(rt; dispatch.max_level_hint() == None);
    Ok(())
}

/// Puts a recorder under a filter on a stack, and serves those events.
fn keeps_info_alone<S: Subscriber + Drop, F: Filter<S> + Drop>(
    rt: &impl Abort,
    alloc: Global,
    stack: S,
    filter: F,
) -> Result<(), Fail>
    requires stack { S.usable stack }
    requires filter { F.usable filter }
{
    let under_filter = Recorder::new(alloc).with_filter(filter);
    keeps_info_under(rt, alloc, stack, under_filter)
}

/// Puts that recorder's layer on a stack, and serves those events: it keeps those that are wanted.
fn keeps_info_under<S: Subscriber + Drop, L: Layer<S> + Drop + AsLayer<Recorder>>(
    rt: &impl Abort,
    alloc: Global,
    stack: S,
    layer: L,
) -> Result<(), Fail>
    requires stack { S.usable stack }
    requires layer { L.usable layer }
{
    let mut dispatch = put_in_use(alloc, stack, layer, Keeping::Answers)?;
    answers_each_level(rt, alloc, &mut dispatch)?;
    let twice = [Recorded::Event(LANE, 5), Recorded::Event(LANE, 5)];
    keeps(rt, dispatch.stack().as_layer(), &twice);
    Ok(())
}

#[test]
fn each_callsite_is_asked_of_once(rt: HostRuntime) -> Result<(), Fail> {
    let asked = Rc::new(rt.alloc(), Cell::new(0))?;
    let counter = asked.clone()?;
    let counted = filter_fn(move |meta: &Metadata| {
        count_one(&counter);
        meta.level() == Level::INFO
    });
    keeps_info_alone(&rt, rt.alloc(), Registry::new(rt.alloc()), counted)?;
    assert!(rt; asked.get() == 5);
    Ok(())
}

/// A recorder under two levels.
type UnderTwo = Filtered<UnderOne, LevelFilter>;

impl<S: Levels> Levels for Layered<UnderTwo, S> {
    fn set_levels(&mut self, level: LevelFilter) {
        self.inner_mut().set_levels(level);
        *self.outer_mut().layer_mut().filter_mut() = level;
    }
}

/// A span, entered, and an event of level debug in it.
fn one_span() -> [Request<'static>; 3] {
    [
        new_span(0, Level::INFO, WhichParent::Root),
        Request::Enter(LANE, Which::Made(0)),
        event(8, Level::DEBUG),
    ]
}

/// The event again; then the span is left and dropped.
fn rest_of(span: Id) -> [Request<'static>; 3] {
    [
        event(8, Level::DEBUG),
        Request::Exit(LANE, Which::Known(span)),
        Request::Drop(LANE, Which::Known(span)),
    ]
}

/// What a recorder keeps that begins under INFO, and is under DEBUG for the rest.
fn kept_over_a_change(span: Id) -> [Recorded; 5] {
    [
        Recorded::New(LANE, span),
        Recorded::Enter(LANE, span),
        Recorded::Event(LANE, 8),
        Recorded::Exit(LANE, span),
        Recorded::Close(LANE, span),
    ]
}

/// Serves the span and its event.
fn open_one_span<S: Subscriber>(alloc: Global, dispatch: &mut Dispatch<S>) -> Result<Id, Fail>
    requires { S.usable (stack_of dispatch.old) }
    ensures { S.usable (stack_of dispatch.new) }
{
    let answers = serve(alloc, dispatch, &one_span())?;
    made(&answers, 0)
}

/// Serves the rest of the requests.
fn close_one_span<S: Subscriber>(
    alloc: Global,
    dispatch: &mut Dispatch<S>,
    span: Id,
) -> Result<(), Fail>
    requires { S.usable (stack_of dispatch.old) }
    ensures { S.usable (stack_of dispatch.new) }
{
    serve(alloc, dispatch, &rest_of(span))?;
    Ok(())
}

/// Serves the requests, with the levels changed between the first and the rest of them.
fn serves_around_a_change<S: Levels + AsLayers<Recorder>>(
    rt: &impl Abort,
    alloc: Global,
    dispatch: &mut Dispatch<S>,
) -> Result<(), Fail>
    requires { S.usable (stack_of dispatch.old) }
{
    let span = open_one_span(alloc, dispatch)?;
    change_levels(dispatch, LevelFilter::DEBUG);
    close_one_span(alloc, dispatch, span)?;
    let stack = dispatch.stack();
    let kept = kept_over_a_change(span);
    keeps(rt, stack.as_inner(), &kept);
    keeps(rt, stack.as_outer(), &kept);
    Ok(())
}

/// Puts a recorder under two levels outside another. The level next to it is INFO at first.
fn serve_below_two<S: Levels + Drop + AsLayer<Recorder>>(
    rt: &impl Abort,
    alloc: Global,
    stack: S,
) -> Result<(), Fail>
    requires { S.usable stack }
{
    let under_two = Recorder::new(alloc)
        .with_filter(LevelFilter::INFO)
        .with_filter(LevelFilter::TRACE);
    serves_around_a_change(
        rt,
        alloc,
        &mut put_in_use(alloc, stack, under_two, Keeping::Answers)?,
    )
}

/// Puts a recorder under INFO on a stack, and serves around a change with two outside it.
fn serve_nested<S: Subscriber + Drop>(rt: &impl Abort, alloc: Global, stack: S) -> Result<(), Fail>
    requires { S.usable stack }
{
    let under_info = Recorder::new(alloc).with_filter(LevelFilter::INFO);
    serve_below_two(rt, alloc, put(stack, under_info)?)
}

#[test]
fn a_changed_stack_goes_on_with_its_spans(rt: HostRuntime) -> Result<(), Fail> {
    serve_nested(&rt, rt.alloc(), Registry::new(rt.alloc()))
}

/// Sends two events from one callsite, of different levels.
fn send_two_levels<S: Subscriber>(dispatch: &mut Dispatch<S>) -> [Result<bool, TraceError>; 2]
    requires { S.usable (stack_of dispatch.old) }
{
    [send(dispatch, Level::INFO), send(dispatch, Level::DEBUG)]
}

/// The one is sent, and the other refused.
fn sends_the_first_level<S: Subscriber + AsLayer<Recorder>>(
    rt: &impl Abort,
    dispatch: &mut Dispatch<S>,
)
    requires { S.usable (stack_of dispatch.old) }
{
    let sent = send_two_levels(dispatch);
    keeps(rt, dispatch.stack().as_layer(), &[Recorded::Event(LANE, 5)]);
    assert!(rt; sent == [Ok(true), Err(TraceError::CallsiteMismatch)]);
}

/// Puts a layer on a stack, and sends two levels from one callsite.
fn sends_the_first<S: Subscriber + Drop, L: Layer<S> + Drop + AsLayer<Recorder>>(
    rt: &impl Abort,
    alloc: Global,
    stack: S,
    layer: L,
) -> Result<(), Fail>
    requires stack { S.usable stack }
    requires layer { L.usable layer }
{
    sends_the_first_level(rt, &mut put_in_use(alloc, stack, layer, Keeping::Answers)?);
    Ok(())
}

#[test]
fn a_callsite_has_one_metadata(rt: HostRuntime) -> Result<(), Fail> {
    let recorder = Recorder::new(rt.alloc());
    sends_the_first(&rt, rt.alloc(), Registry::new(rt.alloc()), recorder)
}

/// A stack of an absent layer is sent nothing.
fn sends_nothing<S: Subscriber>(rt: &impl Abort, dispatch: &mut Dispatch<S>)
    requires { S.usable (stack_of dispatch.old) }
{
    assert!(rt; sent_under(dispatch) == (Ok(false), Some(LevelFilter::OFF)));
}

/// Puts an absent layer on a stack, which then is sent nothing.
fn sends_nothing_under<S: Subscriber + Drop, L: Layer<S> + Drop>(
    rt: &impl Abort,
    alloc: Global,
    stack: S,
    layer: L,
) -> Result<(), Fail>
    requires stack { S.usable stack }
    requires layer { L.usable layer }
{
    sends_nothing(rt, &mut put_in_use(alloc, stack, layer, Keeping::Answers)?);
    Ok(())
}

#[test]
fn an_absent_layer_alone_wants_nothing(rt: HostRuntime) -> Result<(), Fail> {
    let absent: Option<Recorder> = None;
    sends_nothing_under(&rt, rt.alloc(), Registry::new(rt.alloc()), absent)
}
