//! Tests of a dispatcher, as a program drives it: calls and lists of requests, and what a recorder
//! keeps of them.
ghost use Rattle.span_dispatch.specs.Serve.{stack_of};

use crate::requests::{
    AsLayer, Keeping, Plain, in_use, keeps, made, new_event, new_span, plain, put_in_use, serve,
    within,
};
use span_core::{Attributes, Event, Id, Kind, Lane, Level, Metadata, Record, TraceError};
use span_dispatch::{Answer, Dispatch, Recorded, Recorder, Request, Which, WhichParent};
use span_layer_tests::fixture::{LANE, metadata_of};
use span_layers::Layer;
use span_registry::{Context, LookupSpan, Registry, Subscriber};
use std::alloc::Global;
use std::process::Abort;
use std::test::Fail;

/// A recorder on a registry, in use by a dispatcher that keeps nothing.
fn fresh_plain(alloc: Global) -> Result<Dispatch<Plain>, TraceError> {
    Ok(in_use(alloc, plain(alloc)?, Keeping::Nothing))
}

/// What the one callsite for spans makes.
fn span_metadata() -> Metadata {
    metadata_of(6, Level::INFO, Kind::SPAN)
}

/// What the one callsite for events makes.
fn event_metadata() -> Metadata {
    metadata_of(7, Level::INFO, Kind::EVENT)
}

/// A span of level info.
fn span_in(parent: WhichParent) -> Request<'static> {
    new_span(6, Level::INFO, parent)
}

/// Opens a root, where no layer vetoes.
fn open<S: Subscriber>(dispatch: &mut Dispatch<S>) -> Result<Option<Id>, TraceError>
    requires { S.usable (stack_of dispatch.old) }
    ensures { S.usable (stack_of dispatch.new) }
{
    dispatch.new_span(LANE, &Attributes::new_root(span_metadata(), &[]))
}

/// Opens a root. Fails where a layer vetoes.
fn open_root<S: Subscriber>(dispatch: &mut Dispatch<S>) -> Result<Id, Fail>
    requires { S.usable (stack_of dispatch.old) }
    ensures { S.usable (stack_of dispatch.new) }
{
    Ok(open(dispatch)?.ok_or("a layer vetoes")?)
}

/// Sends an event where the lane is.
fn send<S: Subscriber>(dispatch: &mut Dispatch<S>) -> Result<bool, TraceError>
    requires { S.usable (stack_of dispatch.old) }
    ensures { S.usable (stack_of dispatch.new) }
{
    dispatch.event(LANE, &Event::new(event_metadata(), &[]))
}

/// Drops a handle.
fn drop_handle<S: Subscriber>(dispatch: &mut Dispatch<S>, id: Id) -> Result<bool, TraceError>
    requires { S.usable (stack_of dispatch.old) }
    ensures { S.usable (stack_of dispatch.new) }
{
    dispatch.drop_span(LANE, id)
}

/// The parent of an open span.
fn parent_of<S: LookupSpan>(stack: &S, id: Id) -> Option<Id> {
    let parent = stack.span(id)?.parent()?;
    Some(parent.id())
}

/// A span with two handles closes with the second drop.
fn closes_with_its_last_handle<S: Subscriber>(
    rt: &impl Abort,
    dispatch: &mut Dispatch<S>,
) -> Result<Id, Fail>
    requires { S.usable (stack_of dispatch.old) }
{
    let id = open_root(dispatch)?;
    assert!(rt; dispatch.clone_span(LANE, id) == Ok(id));
    assert!(rt; drop_handle(dispatch, id) == Ok(false));
    assert!(rt; drop_handle(dispatch, id) == Ok(true));
    assert!(rt; drop_handle(dispatch, id) == Err(TraceError::UnknownSpan(id)));
    Ok(id)
}

/// A recorder hears of that span.
fn tells_of_one_span<S: Subscriber + Drop, L: Layer<S> + Drop + AsLayer<Recorder>>(
    rt: &impl Abort,
    alloc: Global,
    stack: S,
    layer: L,
) -> Result<(), Fail>
    requires stack { S.usable stack }
    requires layer { L.usable layer }
{
    let mut dispatch = put_in_use(alloc, stack, layer, Keeping::Nothing)?;
    let id = closes_with_its_last_handle(rt, &mut dispatch)?;
    let recorder = dispatch.stack().as_layer();
    keeps(
        rt,
        recorder,
        &[Recorded::New(LANE, id), Recorded::Close(LANE, id)],
    );
    assert!(rt; !recorder.failed());
    Ok(())
}

#[test]
fn a_span_closes_with_its_last_handle(rt: HostRuntime) -> Result<(), Fail> {
    let recorder = Recorder::new(rt.alloc());
    tells_of_one_span(&rt, rt.alloc(), Registry::new(rt.alloc()), recorder)
}

/// Requests that name spans by the places of those that make them.
fn requests_by_places(never: Id) -> [Request<'static>; 9] {
    [
        span_in(WhichParent::Root),
        span_in(within(0)),
        new_event(7, Level::INFO, within(1)),
        Request::Enter(LANE, Which::Made(2)),
        span_in(within(2)),
        Request::Drop(LANE, Which::Made(9)),
        Request::Follows(LANE, Which::Made(0), Which::Made(3)),
        Request::Enter(LANE, Which::Known(never)),
        span_in(WhichParent::Explicit(Which::Known(never))),
    ]
}

/// The spans that these make: a root, its child, and another root. Looks at the answers.
fn made_by_places(rt: &impl Abort, answers: &[Answer], never: Id) -> Result<[Id; 3], Fail> {
    let root = made(answers, 0)?;
    let child = made(answers, 1)?;
    let other = made(answers, 4)?;
    assert!(rt;
        answers
            == [
                Answer::Made(root),
                Answer::Made(child),
                Answer::Done,
                Answer::Dropped,
                Answer::Made(other),
                Answer::Dropped,
                Answer::Dropped,
                Answer::Refused(TraceError::UnknownSpan(never)),
                Answer::Refused(TraceError::UnknownParent(never)),
            ]
            .as_slice()
    );
    Ok([root, child, other])
}

/// Serves them, and answers those spans.
fn serves_by_places<S: Subscriber>(
    rt: &impl Abort,
    alloc: Global,
    dispatch: &mut Dispatch<S>,
) -> Result<[Id; 3], Fail>
    requires { S.usable (stack_of dispatch.old) }
{
    let never = Id::from_u64(0);
    let answers = serve(alloc, dispatch, &requests_by_places(never))?;
    let [root, child, other] = made_by_places(rt, &answers, never)?;
    let stack = dispatch.stack();
    assert!(rt; (parent_of(stack, child), parent_of(stack, other)) == (Some(root), None));
    Ok([root, child, other])
}

/// A recorder hears of what they name.
fn tells_of_places<S: Subscriber + Drop, L: Layer<S> + Drop + AsLayer<Recorder>>(
    rt: &impl Abort,
    alloc: Global,
    stack: S,
    layer: L,
) -> Result<(), Fail>
    requires stack { S.usable stack }
    requires layer { L.usable layer }
{
    let mut dispatch = put_in_use(alloc, stack, layer, Keeping::Nothing)?;
    let [root, child, other] = serves_by_places(rt, alloc, &mut dispatch)?;
    let notices = [
        Recorded::New(LANE, root),
        Recorded::New(LANE, child),
        Recorded::Event(LANE, 7),
        Recorded::New(LANE, other),
    ];
    keeps(rt, dispatch.stack().as_layer(), &notices);
    Ok(())
}

#[test]
fn a_list_names_spans_by_their_places(rt: HostRuntime) -> Result<(), Fail> {
    let recorder = Recorder::new(rt.alloc());
    tells_of_places(&rt, rt.alloc(), Registry::new(rt.alloc()), recorder)
}

/// Requests of each kind, for one span.
fn requests_of_one_span(never: Id) -> [Request<'static>; 13] {
    let span = Which::Made(0);
    [
        span_in(WhichParent::Contextual),
        Request::Clone(LANE, span),
        Request::Enter(LANE, span),
        Request::Current(LANE),
        Request::Current(Lane(1)),
        Request::Record(LANE, span, &[]),
        Request::Follows(LANE, span, Which::Known(never)),
        Request::Exit(LANE, span),
        Request::Current(LANE),
        Request::Enabled(LANE, event_metadata()),
        Request::Drop(LANE, span),
        Request::Drop(LANE, span),
        Request::Clone(LANE, span),
    ]
}

/// Serves them: the span, and what is answered.
fn answers_in_order<S: Subscriber>(
    rt: &impl Abort,
    alloc: Global,
    dispatch: &mut Dispatch<S>,
    never: Id,
) -> Result<Id, Fail>
    requires { S.usable (stack_of dispatch.old) }
{
    let answers = serve(alloc, dispatch, &requests_of_one_span(never))?;
    let id = made(&answers, 0)?;
    assert!(rt;
        answers.as_slice()
            == [
                Answer::Made(id),
                Answer::Done,
                Answer::Done,
                Answer::Current(Some(id)),
                Answer::Current(None),
                Answer::Done,
                Answer::Done,
                Answer::Done,
                Answer::Current(None),
                Answer::Yes(true),
                Answer::Yes(false),
                Answer::Yes(true),
                Answer::Refused(TraceError::UnknownSpan(id)),
            ]
            .as_slice()
    );
    Ok(id)
}

/// A recorder hears of them in the same order.
fn tells_in_order<S: Subscriber + Drop, L: Layer<S> + Drop + AsLayer<Recorder>>(
    rt: &impl Abort,
    alloc: Global,
    stack: S,
    layer: L,
) -> Result<(), Fail>
    requires stack { S.usable stack }
    requires layer { L.usable layer }
{
    let mut dispatch = put_in_use(alloc, stack, layer, Keeping::Nothing)?;
    let never = Id::from_u64(0);
    let id = answers_in_order(rt, alloc, &mut dispatch, never)?;
    let notices = [
        Recorded::New(LANE, id),
        Recorded::Enter(LANE, id),
        Recorded::Record(LANE, id),
        Recorded::Follows(LANE, id, never),
        Recorded::Exit(LANE, id),
        Recorded::Close(LANE, id),
    ];
    keeps(rt, dispatch.stack().as_layer(), &notices);
    Ok(())
}

#[test]
fn a_list_is_answered_in_its_order(rt: HostRuntime) -> Result<(), Fail> {
    let recorder = Recorder::new(rt.alloc());
    tells_in_order(&rt, rt.alloc(), Registry::new(rt.alloc()), recorder)
}

/// Makes each call with a span that isn't open.
fn refuses_unknown<S: Subscriber>(
    rt: &impl Abort,
    dispatch: &mut Dispatch<S>,
    id: Id,
) -> Result<(), Fail>
    requires { S.usable (stack_of dispatch.old) }
    ensures { S.usable (stack_of dispatch.new) }
{
    let unknown = TraceError::UnknownSpan(id);
    let child = Attributes::child_of(id, span_metadata(), &[]);
    let event = Event::new_child_of(id, event_metadata(), &[]);
    let values = Record::new(&[]);
    assert!(rt; dispatch.enter(LANE, id) == Err(unknown));
    assert!(rt; dispatch.record(LANE, id, &values) == Err(unknown));
    assert!(rt; dispatch.follows_from(LANE, id, id) == Err(unknown));
    assert!(rt; dispatch.clone_span(LANE, id) == Err(unknown));
    assert!(rt; dispatch.drop_span(LANE, id) == Err(unknown));
    assert!(rt; dispatch.new_span(LANE, &child) == Err(TraceError::UnknownParent(id)));
    dispatch.exit(LANE, id);
    assert!(rt; dispatch.event(LANE, &event) == Ok(true));
    let found = Context::new(dispatch.stack(), LANE).event_span(&event);
    assert!(rt; found.is_none());
    Ok(())
}

/// Makes each call with ids that were never handed out and with that of a closed span. Answers the
/// closed span.
fn refuses_all_unknown<S: Subscriber>(
    rt: &impl Abort,
    dispatch: &mut Dispatch<S>,
) -> Result<Id, Fail>
    requires { S.usable (stack_of dispatch.old) }
    ensures { S.usable (stack_of dispatch.new) }
{
    let closed = open_root(dispatch)?;
    assert!(rt; drop_handle(dispatch, closed) == Ok(true));
    refuses_unknown(rt, dispatch, Id::from_u64(0))?;
    refuses_unknown(rt, dispatch, Id::from_u64(u64::MAX))?;
    refuses_unknown(rt, dispatch, closed)?;
    Ok(closed)
}

/// A recorder hears of the closed span, and of the events that have an unknown parent.
fn knows_open_spans_alone<S: Subscriber + Drop, L: Layer<S> + Drop + AsLayer<Recorder>>(
    rt: &impl Abort,
    alloc: Global,
    stack: S,
    layer: L,
    kept: Keeping,
) -> Result<(), Fail>
    requires stack { S.usable stack }
    requires layer { L.usable layer }
{
    let mut dispatch = put_in_use(alloc, stack, layer, kept)?;
    let closed = refuses_all_unknown(rt, &mut dispatch)?;
    let notices = [
        Recorded::New(LANE, closed),
        Recorded::Close(LANE, closed),
        Recorded::Event(LANE, 7),
        Recorded::Event(LANE, 7),
        Recorded::Event(LANE, 7),
    ];
    keeps(rt, dispatch.stack().as_layer(), &notices);
    Ok(())
}

#[test]
fn spans_may_be_unknown(rt: HostRuntime) -> Result<(), Fail> {
    let recorder = Recorder::new(rt.alloc());
    knows_open_spans_alone(
        &rt,
        rt.alloc(),
        Registry::new(rt.alloc()),
        recorder,
        Keeping::Nothing,
    )?;
    let recorder = Recorder::new(rt.alloc());
    knows_open_spans_alone(
        &rt,
        rt.alloc(),
        Registry::new(rt.alloc()),
        recorder,
        Keeping::Answers,
    )
}

/// The span that the lane is in.
fn current<S: Subscriber>(dispatch: &Dispatch<S>) -> Option<Id> {
    dispatch.current_span(LANE).id()
}

/// Enters a span.
fn enter<S: Subscriber>(dispatch: &mut Dispatch<S>, id: Id) -> Result<(), TraceError>
    requires { S.usable (stack_of dispatch.old) }
    ensures { S.usable (stack_of dispatch.new) }
{
    dispatch.enter(LANE, id)
}

/// What a program sees of a dispatcher: the span that the lane is in, and how many notices its
/// recorder keeps.
fn seen<S: Subscriber + AsLayer<Recorder>>(dispatch: &Dispatch<S>) -> (Option<Id>, usize, bool) {
    let recorder = dispatch.stack().as_layer();
    (
        current(dispatch),
        recorder.notices().len(),
        recorder.failed(),
    )
}

/// Opens a span, and once more where memory is refused: that changes nothing.
fn open_at_last<S: Subscriber + AsLayer<Recorder>>(
    rt: &impl Abort,
    dispatch: &mut Dispatch<S>,
) -> Result<Id, Fail>
    requires { S.usable (stack_of dispatch.old) }
    ensures { S.usable (stack_of dispatch.new) }
{
    let before = seen(dispatch);
    let opened = open(dispatch);
    if opened == Err(TraceError::OutOfMemory) {
        assert!(rt; seen(dispatch) == before);
        return open_root(dispatch);
    }
    Ok(opened?.ok_or("a layer vetoes")?)
}

/// Enters a span, and once more where memory is refused: that changes nothing.
fn enter_at_last<S: Subscriber + AsLayer<Recorder>>(
    rt: &impl Abort,
    dispatch: &mut Dispatch<S>,
    id: Id,
) -> Result<(), Fail>
    requires { S.usable (stack_of dispatch.old) }
    ensures { S.usable (stack_of dispatch.new) }
{
    let before = seen(dispatch);
    if let Err(error) = enter(dispatch, id) {
        assert!(rt; error == TraceError::OutOfMemory);
        assert!(rt; seen(dispatch) == before);
        enter(dispatch, id)?;
    }
    Ok(())
}

/// Serves requests, and once more where memory is refused before: that changes nothing.
fn serve_at_last<S: Subscriber + AsLayer<Recorder>>(
    rt: &impl Abort,
    alloc: Global,
    dispatch: &mut Dispatch<S>,
    requests: &[Request<'_>],
) -> Result<Vec<Answer>, Fail>
    requires { S.usable (stack_of dispatch.old) }
    ensures { S.usable (stack_of dispatch.new) }
{
    let before = seen(dispatch);
    match serve(alloc, dispatch, requests) {
        Err(error) => {
            assert!(rt; error == TraceError::OutOfMemory);
            assert!(rt; seen(dispatch) == before);
            Ok(serve(alloc, dispatch, requests)?)
        }
        Ok(answers) => Ok(answers),
    }
}

/// Opens a span, enters it, and sends an event in it.
fn send_in_span_at_last<S: Subscriber + AsLayer<Recorder>>(
    rt: &impl Abort,
    dispatch: &mut Dispatch<S>,
) -> Result<Id, Fail>
    requires { S.usable (stack_of dispatch.old) }
    ensures { S.usable (stack_of dispatch.new) }
{
    let id = open_at_last(rt, dispatch)?;
    enter_at_last(rt, dispatch, id)?;
    assert!(rt; (current(dispatch), send(dispatch)) == (Some(id), Ok(true)));
    Ok(id)
}

/// A recorder keeps what it is told of that span until it closes, or as much of it as there was
/// memory for.
fn keeps_what_fits(rt: &impl Abort, recorder: &Recorder, id: Id) {
    let told = [
        Recorded::New(LANE, id),
        Recorded::Enter(LANE, id),
        Recorded::Event(LANE, 7),
        Recorded::Close(LANE, id),
    ];
    assert!(rt; told.as_slice().starts_with(recorder.notices()));
    assert!(rt; recorder.failed() == (recorder.notices().len() < 4));
}

/// Drops the handle of that span, and so closes it.
fn drop_at_last<S: Subscriber + AsLayer<Recorder>>(
    rt: &impl Abort,
    alloc: Global,
    dispatch: &mut Dispatch<S>,
    id: Id,
) -> Result<(), Fail>
    requires { S.usable (stack_of dispatch.old) }
    ensures { S.usable (stack_of dispatch.new) }
{
    let requests = [Request::Drop(LANE, Which::Known(id))];
    let answers = serve_at_last(rt, alloc, dispatch, &requests)?;
    assert!(rt; answers.as_slice() == [Answer::Yes(true)].as_slice());
    Ok(())
}

/// Does all this with one span, and looks at its recorder.
fn serves_one_span_at_last<S: Subscriber + Drop, L: Layer<S> + Drop + AsLayer<Recorder>>(
    rt: &impl Abort,
    alloc: Global,
    stack: S,
    layer: L,
) -> Result<(), Fail>
    requires stack { S.usable stack }
    requires layer { L.usable layer }
{
    let mut dispatch = put_in_use(alloc, stack, layer, Keeping::Nothing)?;
    let id = send_in_span_at_last(rt, &mut dispatch)?;
    drop_at_last(rt, alloc, &mut dispatch, id)?;
    keeps_what_fits(rt, dispatch.stack().as_layer(), id);
    Ok(())
}

/// It passes too where any one allocation is refused: `tests/each_refusal_within_a_test` refuses
/// one after another.
#[test]
fn a_refusal_of_memory_changes_nothing(rt: HostRuntime) -> Result<(), Fail> {
    let recorder = Recorder::new(rt.alloc());
    serves_one_span_at_last(&rt, rt.alloc(), Registry::new(rt.alloc()), recorder)
}

/// Sends an event, and once more where memory is refused: that changes nothing. The recorder keeps
/// it, or says that there was no memory.
fn send_at_last<S: Subscriber + AsLayer<Recorder>>(rt: &impl Abort, dispatch: &mut Dispatch<S>)
    requires { S.usable (stack_of dispatch.old) }
{
    let before = seen(dispatch);
    if let Err(error) = send(dispatch) {
        assert!(rt; error == TraceError::OutOfMemory);
        assert!(rt; seen(dispatch) == before);
        assert!(rt; send(dispatch) == Ok(true));
    }
    let recorder = dispatch.stack().as_layer();
    assert!(rt; recorder.failed() == recorder.notices().is_empty());
}

/// Puts a layer on a stack, and sends an event until there is memory for all of it.
fn sends_at_last<S: Subscriber + Drop, L: Layer<S> + Drop + AsLayer<Recorder>>(
    rt: &impl Abort,
    alloc: Global,
    stack: S,
    layer: L,
) -> Result<(), Fail>
    requires stack { S.usable stack }
    requires layer { L.usable layer }
{
    send_at_last(rt, &mut put_in_use(alloc, stack, layer, Keeping::Answers)?);
    Ok(())
}

/// It passes too where any one allocation is refused: `tests/each_refusal_within_a_test` refuses
/// one after another.
#[test]
fn a_refused_interest_changes_nothing(rt: HostRuntime) -> Result<(), Fail> {
    let recorder = Recorder::new(rt.alloc());
    sends_at_last(&rt, rt.alloc(), Registry::new(rt.alloc()), recorder)
}

/// A recorder and a registry have this span alone.
fn have_one_span(rt: &impl Abort, recorder: &Recorder, registry: &Registry, id: Id) {
    let kept = [Recorded::New(LANE, id)];
    assert!(rt; (registry.is_open(id), recorder.notices()) == (true, kept.as_slice()));
}

#[test]
fn a_stack_is_taken_out(rt: HostRuntime) -> Result<(), Fail> {
    let mut dispatch = fresh_plain(rt.alloc())?;
    let id = open_root(&mut dispatch)?;
    let (recorder, registry) = dispatch.into_stack().into_parts();
    have_one_span(&rt, &recorder, &registry, id);
    Ok(())
}
