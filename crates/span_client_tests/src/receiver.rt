//! Tests over all crates: layers of many kinds in one receiver, a registry full of filters, and
//! what a stack says of itself.
ghost use Rattle.std.specs.Prelude.{⊤, IfOk};
ghost use Rattle.span_dispatch.specs.Serve.{stack_of};
ghost use Rattle.span_registry.specs.Context.{WritesExtensions};

use crate::fixture::{in_use, put};
use span_boxed::{BoxedLayer, DynLayer};
use span_core::{
    Event, FieldSet, Id, Interest, Kind, Lane, Level, LevelFilter, Metadata, Pass, TraceError,
};
use span_dispatch::{Answer, Dispatch, Recorded, Recorder, Request, Which, WhichParent};
use span_examples::dispatch::Recorded as Alone;
use span_examples::isolation::{Beside, WithAnswers, record_alone_and_beside};
use span_examples::outline::serve_outlined;
use span_examples::reload::reload;
use span_layers::{Layer, Observe, Observer};
use span_registry::{ContextMut, LookupSpan, Notice, Registry, Subscriber, Tag};
use span_stacks::{Filtered, LayerExt, Layered, SubscriberExt};
use std::alloc::Global;
use std::process::Abort;
use std::test::Fail;

const LANE: Lane = Lane(0);

/// Puts a stack in use, and sends it an event of level error.
fn sent_to<S: Subscriber + Drop>(alloc: Global, stack: S) -> Result<Dispatch<S>, TraceError>
    requires { S.usable stack }
{
    let mut dispatch = Dispatch::uncached(alloc, stack);
    let event = Event::new_root(metadata_of(7, Level::ERROR, Kind::EVENT), &[]);
    dispatch.event(LANE, &event)?;
    Ok(dispatch)
}

/// The same of a layer on a stack.
pub(crate) fn sent_to_layer<S: Subscriber + Drop, L: Layer<S> + Drop>(
    alloc: Global,
    stack: S,
    layer: L,
) -> Result<Dispatch<Layered<L, S>>, TraceError>
    requires stack { S.usable stack }
    requires layer { L.usable layer }
{
    sent_to(alloc, put(stack, layer)?)
}

fn metadata_of(callsite: u64, level: Level, kind: Kind) -> Metadata {
    Metadata::new(callsite, "made", "tests", level, kind, FieldSet::new(&[]))
}

/// A new span from this callsite, in none.
fn root_from(callsite: u64, level: Level) -> Request<'static> {
    let metadata = metadata_of(callsite, level, Kind::SPAN);
    Request::NewSpan {
        lane: LANE,
        metadata,
        parent: WhichParent::Root,
        values: &[],
    }
}

/// An event from this callsite, in the span that the first request of the list makes.
fn event_from(callsite: u64, level: Level) -> Request<'static> {
    let metadata = metadata_of(callsite, level, Kind::EVENT);
    Request::Event {
        lane: LANE,
        metadata,
        parent: WhichParent::Explicit(Which::Made(0)),
        values: &[],
    }
}

/// The span that the first request of the list made.
fn first_made(answers: &[Answer]) -> Result<Id, Fail> {
    match answers.first() {
        Some(Answer::Made(id)) => Ok(*id),
        _ => Err(Fail::from("no span was made")),
    }
}

/// Counts the events of each span, in its extensions.
#[derive(Drop)]
struct EventCounter;

/// The tag of the counts.
fn counts() -> Tag<u64> {
    Tag::new(0)
}

impl<S: Subscriber> Observe<S> for EventCounter {
    ghost observed = { λ x e lane under v y w. ⊤ };

    fn observe(&mut self, notice: Notice<'_, '_>, ctx: &mut ContextMut<'_, S>) {
        let Notice::Event(event) = notice else {
            return;
        };
        let Some(id) = span_of(event, ctx) else {
            return;
        };
        count(id, ctx);
    }
}

fn span_of<S: Subscriber>(event: &Event<'_>, ctx: &ContextMut<'_, S>) -> Option<Id> {
    match ctx.ctx().event_span(event) {
        Some(span) => Some(span.id()),
        None => None,
    }
}

/// Adds one to the count of a span, as far as there is memory.
fn count<S: Subscriber>(id: Id, ctx: &mut ContextMut<'_, S>)
    ensures { WritesExtensions S.registry S.with_registry ctx.old ctx.new }
{
    let Some(mut extensions) = ctx.extensions_mut(id) else {
        return;
    };
    let count = match extensions.get_mut(counts()) {
        Some(count) => count.saturating_add(1),
        None => 1,
    };
    let _ = extensions.replace(counts(), count);
}

/// The count of a span.
fn counted<S: LookupSpan>(stack: &S, id: Id) -> Option<u64> {
    let span = stack.span(id)?;
    span.extensions().get(counts()).copied()
}

/// A recorder under a level.
type Recording = Filtered<Recorder, LevelFilter>;

fn recording(alloc: Global, level: LevelFilter) -> Recording {
    Recorder::new(alloc).with_filter(level)
}

/// What the member at this place of a list was notified of.
fn notices_at(list: &[Recording], place: usize) -> &[Recorded] {
    match list.get(place) {
        Some(member) => member.layer().notices(),
        None => &[],
    }
}

/// Serves a span and an event of each level but the first in it: the trace event is dropped, and
/// three are counted. Answers the span.
fn counts_three<S: Subscriber>(
    rt: &impl Abort,
    alloc: Global,
    dispatch: &mut Dispatch<S>,
) -> Result<Id, Fail>
    requires { S.usable (stack_of dispatch.old) }
{
    let requests = [
        root_from(0, Level::INFO),
        event_from(1, Level::TRACE),
        event_from(2, Level::DEBUG),
        event_from(3, Level::INFO),
        event_from(4, Level::WARN),
    ];
    let answers = dispatch.serve(alloc, &requests)?;
    let id = first_made(&answers)?;
    assert!(rt; answers.get(1).copied() == Some(Answer::Dropped));
    assert!(rt; counted(dispatch.stack(), id) == Some(3));
    Ok(id)
}

/// The same of a layer on a stack, which is put in use.
fn in_use_counts_three<S: Subscriber + Drop, L: Layer<S> + Drop>(
    rt: &impl Abort,
    alloc: Global,
    stack: S,
    layer: L,
) -> Result<(Dispatch<Layered<L, S>>, Id), Fail>
    requires stack { S.usable stack }
    requires layer { L.usable layer }
{
    let mut dispatch = in_use(alloc, stack, layer)?;
    let id = counts_three(rt, alloc, &mut dispatch)?;
    Ok((dispatch, id))
}

#[test]
fn a_receiver_of_five(rt: HostRuntime) -> Result<(), Fail> {
    let alloc = rt.alloc();
    let list = vec![in alloc;
        recording(alloc, LevelFilter::INFO),
        recording(alloc, LevelFilter::WARN),
    ]?;
    let object: Box<dyn DynLayer + Send> = Box::new(alloc, Observer::new(EventCounter))?;
    let layers = Recorder::new(alloc)
        .and_then(list)
        .and_then(Some(recording(alloc, LevelFilter::WARN)))
        .and_then(BoxedLayer::new(object))
        .and_then(LevelFilter::DEBUG);
    let (dispatch, id) = in_use_counts_three(&rt, alloc, Registry::new(alloc), layers)?;
    each_heard_what_passes(&rt, dispatch.stack().outer().inner().inner(), id)
}

/// A layer that may be absent, on a list, on a recorder.
type Recordings = Layered<Option<Recording>, Layered<Vec<Recording>, Recorder>>;

/// The recorder heard all but the trace event, and each other one what its level passes: the new
/// span is of level info.
fn each_heard_what_passes(rt: &impl Abort, layers: &Recordings, id: Id) -> Result<(), Fail> {
    let new = Recorded::New(LANE, id);
    let debug = Recorded::Event(LANE, 2);
    let info = Recorded::Event(LANE, 3);
    let warn = Recorded::Event(LANE, 4);
    let base = layers.inner().inner();
    assert!(rt; base.notices() == [new, debug, info, warn].as_slice());
    let list = layers.inner().outer();
    assert!(rt; notices_at(list, 0) == [new, info, warn].as_slice());
    assert!(rt; notices_at(list, 1) == [warn].as_slice());
    let Some(optional) = layers.outer() else {
        return Err(Fail::from("the layer is absent"));
    };
    assert!(rt; optional.layer().notices() == [warn].as_slice());
    Ok(())
}

/// As many recorders under OFF as a registry has room for.
fn silent_recorders(alloc: Global) -> Result<Vec<Recording>, Fail> {
    let mut members = Vec::new(alloc);
    for _ in 0..128 {
        members.push(recording(alloc, LevelFilter::OFF))?;
    }
    Ok(members)
}

/// A recorder on a registry.
type Plain = Layered<Recorder, Registry>;

/// Puts two layers on a stack.
fn put_two<S, I, O>(stack: S, inner: I, outer: O) -> Result<Layered<O, Layered<I, S>>, TraceError>
where
    S: Subscriber + Drop,
    I: Layer<S> + Drop,
    O: Layer<Layered<I, S>> + Drop,
    requires stack { S.usable stack }
    requires inner { I.usable inner }
    requires outer { O.usable outer }
    ensures { IfOk result ⟦<Layered<O, Layered<I, S>> as Subscriber>⟧.usable }
{
    let below = put(stack, inner)?;
    put(below, outer)
}

/// Such a list on one.
type Full = Layered<Vec<Recording>, Plain>;

fn full(alloc: Global) -> Result<Full, Fail>
    ensures { IfOk result ⟦<Full as Subscriber>⟧.usable }
{
    let silent = silent_recorders(alloc)?;
    Ok(put_two(Registry::new(alloc), Recorder::new(alloc), silent)?)
}

/// A layer that a stack has no room for: what comes back, and the number of filters that were
/// handed out before.
#[derive(Drop)]
struct NoRoom<S, O> {
    layer: O,
    error: TraceError,
    filters: u32,
    dispatch: Dispatch<S>,
}

/// Puts a layer on a stack that has no room for it. An error event is sent to the rest.
fn no_room_for<S: Subscriber + Drop, O: Layer<S> + Drop>(
    alloc: Global,
    stack: S,
    more: O,
) -> Result<Option<NoRoom<S, O>>, TraceError>
    requires stack { S.usable stack }
    requires more { O.usable more }
{
    let Err(back) = stack.with(more) else {
        return Ok(None);
    };
    let filters = back.subscriber.root().filters();
    Ok(Some(NoRoom {
        layer: back.layer,
        error: back.error,
        filters,
        dispatch: sent_to(alloc, back.subscriber)?,
    }))
}

/// The recorder was told of the error event, and of the list nobody was.
fn plain_is_told_alone(rt: &impl Abort, stack: &Full) {
    let kept = stack.inner().outer().notices();
    assert!(rt; kept == [Recorded::Event(LANE, 7)].as_slice());
    for member in stack.outer().iter() {
        assert!(rt; member.layer().notices().is_empty());
    }
}

/// What is refused, and what comes back.
fn comes_back(rt: &impl Abort, back: &NoRoom<Full, Recording>) {
    assert!(rt; back.error == TraceError::TooManyFilters);
    assert!(rt; *back.layer.filter() == LevelFilter::WARN);
    assert!(rt; back.filters == 128);
    plain_is_told_alone(rt, back.dispatch.stack());
}

#[test]
fn a_registry_full_of_filters(rt: HostRuntime) -> Result<(), Fail> {
    let full = full(rt.alloc())?;
    match no_room_for(rt.alloc(), full, recording(rt.alloc(), LevelFilter::WARN))? {
        Some(back) => comes_back(&rt, &back),
        None => return Err(Fail::from("a 129th filter got a number")),
    }
    Ok(())
}

/// The interest of a stack in an error event, asked with a new pass.
fn interest_of<S: Subscriber>(stack: &S) -> Interest
    requires { S.usable stack.now }
{
    let metadata = metadata_of(1, Level::ERROR, Kind::EVENT);
    stack.register_callsite(&metadata, &mut Pass::new())
}

/// The interest of a layer on a stack, and of both layers.
fn interests_of<S, I, O>(stack: S, inner: I, outer: O) -> Result<(Interest, Interest), TraceError>
where
    S: Subscriber + Drop,
    I: Layer<S> + Drop,
    O: Layer<Layered<I, S>> + Drop,
    requires stack { S.usable stack }
    requires inner { I.usable inner }
    requires outer { O.usable outer }
{
    let one = put(stack, inner)?;
    let interest = interest_of(&one);
    Ok((interest, interest_of(&put(one, outer)?)))
}

/// The hint of a layer on a stack.
fn hint_of<S: Subscriber + Drop, L: Layer<S> + Drop>(
    stack: S,
    layer: L,
) -> Result<Option<LevelFilter>, TraceError>
    requires stack { S.usable stack }
    requires layer { L.usable layer }
{
    Ok(put(stack, layer)?.max_level_hint())
}

#[test]
fn what_one_filter_wants_is_of_interest(rt: HostRuntime) -> Result<(), Fail> {
    let all = recording(rt.alloc(), LevelFilter::TRACE);
    let nothing = recording(rt.alloc(), LevelFilter::OFF);
    let found = interests_of(Registry::new(rt.alloc()), all, nothing)?;
    assert!(rt; found == (Interest::Always, Interest::Sometimes));
    Ok(())
}

#[test]
fn what_a_layer_without_a_filter_may_want_is_of_interest(rt: HostRuntime) -> Result<(), Fail> {
    let all = Recorder::new(rt.alloc());
    let nothing = recording(rt.alloc(), LevelFilter::OFF);
    let found = interests_of(Registry::new(rt.alloc()), all, nothing)?;
    assert!(rt; found == (Interest::Always, Interest::Sometimes));
    Ok(())
}

#[test]
fn a_pair_under_filters_has_the_wider_hint(rt: HostRuntime) -> Result<(), Fail> {
    let all = recording(rt.alloc(), LevelFilter::TRACE);
    let few = recording(rt.alloc(), LevelFilter::INFO);
    let hint = hint_of(Registry::new(rt.alloc()), all.and_then(few))?;
    assert!(rt; hint == Some(LevelFilter::TRACE));
    Ok(())
}

/// A recorder under INFO is told of the span and of the event at warn, alone and beside another,
/// which is told of the event at debug, too.
fn are_the_same(
    rt: &impl Abort,
    alone: &WithAnswers<Alone>,
    beside: &WithAnswers<Beside>,
) -> Result<(), Fail> {
    let id = first_made(&alone.1)?;
    let answers = [Answer::Made(id), Answer::Done, Answer::Done];
    assert!(rt; alone.1.as_slice() == answers.as_slice());
    assert!(rt; beside.1.as_slice() == answers.as_slice());
    let new = Recorded::New(LANE, id);
    let debug = Recorded::Event(LANE, 1);
    let warn = Recorded::Event(LANE, 2);
    let kept = alone.0.stack().outer().layer().notices();
    assert!(rt; kept == [new, warn].as_slice());
    let stack = beside.0.stack();
    assert!(rt; stack.inner().outer().layer().notices() == [new, warn].as_slice());
    assert!(rt; stack.outer().layer().notices() == [new, debug, warn].as_slice());
    Ok(())
}

#[test]
fn a_recorder_keeps_the_same_alone_and_beside_another(rt: HostRuntime) -> Result<(), Fail> {
    let requests = [
        root_from(0, Level::INFO),
        event_from(1, Level::DEBUG),
        event_from(2, Level::WARN),
    ];
    let (level, other) = (LevelFilter::INFO, LevelFilter::TRACE);
    let (alone, beside) = record_alone_and_beside(rt.alloc(), level, other, &requests)?;
    are_the_same(&rt, &alone, &beside)
}

/// A warning, and, once the level is DEBUG, a span, the warning, and an event of level debug.
fn are_let_by(rt: &impl Abort, kept: &[Recorded]) {
    assert!(rt; kept.len() == 4);
    assert!(rt; kept.first().copied() == Some(Recorded::Event(LANE, 1)));
    assert!(rt; matches!(kept.get(1), Some(Recorded::New(_, _))));
    assert!(rt; kept.get(2).copied() == Some(Recorded::Event(LANE, 1)));
    assert!(rt; kept.get(3).copied() == Some(Recorded::Event(LANE, 2)));
}

#[test]
fn a_level_is_set_between_requests(rt: HostRuntime) -> Result<(), Fail> {
    let requests = [
        root_from(0, Level::INFO),
        event_from(1, Level::WARN),
        event_from(2, Level::DEBUG),
        event_from(3, Level::TRACE),
    ];
    let dispatch = reload(rt.alloc(), &requests, &requests)?;
    are_let_by(&rt, dispatch.stack().outer().layer().notices());
    Ok(())
}

/// A new span from this callsite, in the one that the request with this number makes.
fn span_in(parent: usize, callsite: u64, level: Level) -> Request<'static> {
    let metadata = metadata_of(callsite, level, Kind::SPAN);
    Request::NewSpan {
        lane: LANE,
        metadata,
        parent: WhichParent::Explicit(Which::Made(parent)),
        values: &[],
    }
}

/// An event with this name, in this parent.
fn named_event(name: &'static str, parent: WhichParent) -> Request<'static> {
    let fields = FieldSet::new(&[]);
    let metadata = Metadata::new(9, name, "tests", Level::WARN, Kind::EVENT, fields);
    Request::Event {
        lane: LANE,
        metadata,
        parent,
        values: &[],
    }
}

#[test]
fn an_outline_goes_by_what_its_own_level_shows(rt: HostRuntime) -> Result<(), Fail> {
    let requests = [
        root_from(0, Level::INFO),
        span_in(0, 1, Level::DEBUG),
        span_in(1, 2, Level::INFO),
        named_event("apart", WhichParent::Root),
        named_event("outer", WhichParent::Explicit(Which::Made(0))),
        named_event("hidden", WhichParent::Explicit(Which::Made(1))),
        event_from(3, Level::DEBUG),
        Request::Enter(LANE, Which::Made(2)),
        named_event("inner", WhichParent::Contextual),
    ];
    let (level, other) = (LevelFilter::INFO, LevelFilter::TRACE);
    let (answers, text) = serve_outlined(rt.alloc(), level, other, &requests)?;
    assert!(rt; answers.len() == 9);
    assert!(rt; text.as_str() == "apart\n  outer\nhidden\n    inner\n");
    Ok(())
}
