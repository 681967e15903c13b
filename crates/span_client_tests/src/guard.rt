//! Tests of guards, on a stack of all that can be called without a premise: the span is left
//! however the function returns.
use span_core::{
    Attributes, Event, FieldSet, Id, Kind, Lane, Level, LevelFilter, Metadata, TraceError,
};
use span_dispatch::{Dispatch, Recorded, Recorder};
use span_examples::guard::send_within;
use span_filters::{AlwaysUsableFilter, And, FilterExt, Not};
use span_layers::{AlwaysUsableLayer, Identity};
use span_registry::{AlwaysUsable, Registry};
use span_stacks::{Filtered, LayerExt, Layered, SubscriberExt};
use std::alloc::Global;
use std::process::Abort;
use std::test::Fail;

const LANE: Lane = Lane(0);

fn metadata_of(callsite: u64, level: Level, kind: Kind) -> Metadata {
    Metadata::new(callsite, "made", "tests", level, kind, FieldSet::new(&[]))
}

fn event_from(callsite: u64, level: Level) -> Event<'static> {
    Event::new(metadata_of(callsite, level, Kind::EVENT), &[])
}

/// What is up to level info, by a filter made of others.
fn up_to_info() -> Option<And<LevelFilter, Not<Not<LevelFilter>>>> {
    Some(LevelFilter::INFO.and(LevelFilter::TRACE.not().not()))
}

/// Layers in a list.
fn layers(alloc: Global) -> Result<Vec<Option<Box<Identity>>>, Fail> {
    let boxed = Box::new(alloc, Identity::new())?;
    Ok(vec![in alloc; Some(boxed), None]?)
}

/// Puts a layer on a stack, and that in use.
fn dispatch_of<S: AlwaysUsable + Drop, L: AlwaysUsableLayer<S> + Drop>(
    alloc: Global,
    stack: S,
    layer: L,
) -> Result<Dispatch<Layered<L, S>>, TraceError> {
    match stack.with(layer) {
        Ok(made) => Ok(Dispatch::new(alloc, made)),
        Err(back) => Err(back.error),
    }
}

/// The same of a layer round a recorder under a filter.
fn in_use<S, F, L>(
    alloc: Global,
    stack: S,
    filter: F,
    outer: L,
) -> Result<Dispatch<Layered<Layered<L, Filtered<Recorder, F>>, S>>, TraceError>
where
    S: AlwaysUsable + Drop,
    F: AlwaysUsableFilter<S> + Drop,
    L: AlwaysUsableLayer<S> + Drop,
{
    let layer = Recorder::new(alloc).with_filter(filter).and_then(outer);
    dispatch_of(alloc, stack, layer)
}

/// Opens a span.
fn opened<S: AlwaysUsable>(dispatch: &mut Dispatch<S>) -> Result<Id, Fail> {
    let metadata = metadata_of(0, Level::INFO, Kind::SPAN);
    match dispatch.new_span(LANE, &Attributes::new(metadata, &[]))? {
        Some(id) => Ok(id),
        None => Err(Fail::from("no span was made")),
    }
}

/// Sends an event within a new span, which the lane then has left.
fn sends_within<S: AlwaysUsable>(rt: &impl Abort, dispatch: &mut Dispatch<S>) -> Result<Id, Fail> {
    let id = opened(dispatch)?;
    let event = event_from(1, Level::INFO);
    assert!(rt; send_within(dispatch, LANE, id, &event) == Ok(true));
    assert!(rt; dispatch.current_span(LANE).id().is_none());
    Ok(id)
}

/// A recorder was told of a span that is entered and left, and of an event in it.
fn was_told_of_all(rt: &impl Abort, recorder: &Recorder, id: Id) {
    let expected = [
        Recorded::New(LANE, id),
        Recorded::Enter(LANE, id),
        Recorded::Event(LANE, 1),
        Recorded::Exit(LANE, id),
    ];
    assert!(rt; recorder.notices() == expected.as_slice());
}

/// So a recorder under a filter is told.
fn is_left<S, F, L>(
    rt: &impl Abort,
    alloc: Global,
    stack: S,
    filter: F,
    outer: L,
) -> Result<(), Fail>
where
    S: AlwaysUsable + Drop,
    F: AlwaysUsableFilter<S> + Drop,
    L: AlwaysUsableLayer<S> + Drop,
{
    let mut dispatch = in_use(alloc, stack, filter, outer)?;
    let id = sends_within(rt, &mut dispatch)?;
    was_told_of_all(rt, dispatch.stack().outer().inner().layer(), id);
    Ok(())
}

#[test]
fn a_guard_leaves_its_span(rt: HostRuntime) -> Result<(), Fail> {
    let outer = layers(rt.alloc())?;
    is_left(
        &rt,
        rt.alloc(),
        Registry::new(rt.alloc()),
        up_to_info(),
        outer,
    )
}

/// The same of an event that is refused.
fn is_refused_within<S: AlwaysUsable>(
    rt: &impl Abort,
    dispatch: &mut Dispatch<S>,
) -> Result<(), Fail> {
    let id = opened(dispatch)?;
    dispatch.event(LANE, &event_from(1, Level::INFO))?;
    let refused = send_within(dispatch, LANE, id, &event_from(1, Level::WARN));
    assert!(rt; refused == Err(TraceError::CallsiteMismatch));
    assert!(rt; dispatch.current_span(LANE).id().is_none());
    Ok(())
}

/// The same where a recorder is under a filter.
fn is_refused<S, F, L>(
    rt: &impl Abort,
    alloc: Global,
    stack: S,
    filter: F,
    outer: L,
) -> Result<(), Fail>
where
    S: AlwaysUsable + Drop,
    F: AlwaysUsableFilter<S> + Drop,
    L: AlwaysUsableLayer<S> + Drop,
{
    let mut dispatch = in_use(alloc, stack, filter, outer)?;
    is_refused_within(rt, &mut dispatch)
}

#[test]
fn a_refused_event_ends_the_guard(rt: HostRuntime) -> Result<(), Fail> {
    let outer = layers(rt.alloc())?;
    is_refused(
        &rt,
        rt.alloc(),
        Registry::new(rt.alloc()),
        up_to_info(),
        outer,
    )
}
