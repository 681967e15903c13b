//! Calls of a dispatcher.
ghost use Rattle.span_dispatch.specs.Serve.{stack_of};
ghost use Rattle.std.specs.Prelude.{IfOk};

use crate::call::State;
use crate::fault::Fault;
use crate::shown::{write_all_of, write_answer, write_notices, write_start};
use crate::site::{
    CALLSITES, KEPT_EVENT, LANE, UNKNOWN_EVENT, UNKNOWN_SPAN, event, event_metadata, new_span,
    other_event, preparation, sparing,
};
use crate::tried::Tried;
use span_core::{Event, LevelFilter, Record};
use span_dispatch::{Answer, Dispatch, Request, Which, WhichParent};
use span_registry::Subscriber;
use std::alloc::Global;
use std::io::Write;

/// The notices of the preparation.
const NOTICES: usize = 27;

/// How many notices a recorder has room for, where it has kept over half as many.
const ROOM: usize = 32;

/// A dispatcher in this state.
pub(crate) fn dispatcher<S: Tried>(alloc: Global, state: State) -> Result<Dispatch<S>, Fault>
    ensures { IfOk result (λ made. S.usable (stack_of made)) }
{
    let stack = S::made(alloc)?;
    match state {
        State::Begun => Ok(Dispatch::new(alloc, stack)),
        State::Kept => prepared(alloc, Dispatch::new(alloc, stack)),
        State::Uncached => prepared(alloc, Dispatch::uncached(alloc, stack)),
    }
}

/// The same dispatcher, once it served the preparation.
fn prepared<S: Subscriber + Drop>(
    alloc: Global,
    dispatch: Dispatch<S>,
) -> Result<Dispatch<S>, Fault>
    requires { S.usable (stack_of dispatch) }
    ensures { IfOk result (λ served. S.usable (stack_of served)) }
{
    let mut dispatch = dispatch;
    prepare(alloc, &mut dispatch)?;
    Ok(dispatch)
}

/// Has a dispatcher serve the preparation, of which nothing may be refused.
fn prepare<S: Subscriber>(alloc: Global, dispatch: &mut Dispatch<S>) -> Result<(), Fault>
    requires { S.usable (stack_of dispatch.old) }
    ensures { S.usable (stack_of dispatch.new) }
{
    let answers = dispatch.serve(alloc, &preparation())?;
    are_accepted(&answers)
}

/// Fails at the first answer that is a refusal.
fn are_accepted(answers: &[Answer]) -> Result<(), Fault> {
    for answer in answers {
        if let Answer::Refused(error) = answer {
            return Err(Fault::Refused(*error));
        }
    }
    Ok(())
}

/// Makes a request of a dispatcher, and writes what it shows without the request and after it.
pub(crate) fn make<S: Tried, W: Write>(
    alloc: Global,
    writer: &mut W,
    state: State,
    request: Request<'_>,
) -> Result<(), Fault> {
    write_dispatcher(writer, &mut dispatcher::<S>(alloc, state)?)?;
    write_asked(writer, &mut dispatcher::<S>(alloc, state)?, request)
}

/// Makes a request, and writes how it ends and what its dispatcher shows after it.
fn write_asked<S: Tried, W: Write>(
    writer: &mut W,
    dispatch: &mut Dispatch<S>,
    request: Request<'_>,
) -> Result<(), Fault>
    requires { S.usable (stack_of dispatch.old) }
{
    write_start(writer)?;
    ask(writer, dispatch, request)?;
    write_dispatcher(writer, dispatch)
}

/// Serves a list whose requests take no memory, and writes the same.
pub(crate) fn serve<S: Tried, W: Write>(alloc: Global, writer: &mut W) -> Result<(), Fault> {
    write_dispatcher(writer, &mut dispatcher::<S>(alloc, State::Kept)?)?;
    write_served(alloc, writer, &mut dispatcher::<S>(alloc, State::Kept)?)
}

/// Serves that list, and writes how it ends and what its dispatcher shows after it.
fn write_served<S: Tried, W: Write>(
    alloc: Global,
    writer: &mut W,
    dispatch: &mut Dispatch<S>,
) -> Result<(), Fault>
    requires { S.usable (stack_of dispatch.old) }
{
    write_start(writer)?;
    let ended = served(alloc, dispatch, &sparing());
    write_answer(writer, ended)?;
    write_dispatcher(writer, dispatch)
}

/// Reserves memory for more callsites than there is, and writes the same.
pub(crate) fn reserve<S: Tried, W: Write>(alloc: Global, writer: &mut W) -> Result<(), Fault> {
    write_dispatcher(writer, &mut dispatcher::<S>(alloc, State::Kept)?)?;
    write_reserved(writer, &mut dispatcher::<S>(alloc, State::Kept)?)
}

/// Reserves for as many callsites more as are kept, and writes how it ends and what its dispatcher
/// shows after it.
fn write_reserved<S: Tried, W: Write>(
    writer: &mut W,
    dispatch: &mut Dispatch<S>,
) -> Result<(), Fault>
    requires { S.usable (stack_of dispatch.old) }
{
    write_start(writer)?;
    let ended = Answer::of_done(dispatch.reserve_callsites(CALLSITES));
    write_answer(writer, ended)?;
    write_dispatcher(writer, dispatch)
}

/// How the serving of a list ends: as its last request.
fn served<S: Subscriber>(
    alloc: Global,
    dispatch: &mut Dispatch<S>,
    requests: &[Request<'_>],
) -> Answer
    requires { S.usable (stack_of dispatch.old) }
    ensures { S.usable (stack_of dispatch.new) }
{
    match dispatch.serve(alloc, requests) {
        Ok(answers) => answers.last().copied().unwrap_or(Answer::Dropped),
        Err(error) => Answer::Refused(error),
    }
}

/// A dispatcher whose recorder has room for no notice more.
fn full<S: Tried>(alloc: Global) -> Result<Dispatch<S>, Fault>
    ensures { IfOk result (λ filled. S.usable (stack_of filled)) }
{
    let mut dispatch = dispatcher::<S>(alloc, State::Kept)?;
    fill(&mut dispatch)?;
    Ok(dispatch)
}

/// Sends as many events as the recorder has room for.
fn fill<S: Subscriber>(dispatch: &mut Dispatch<S>) -> Result<(), Fault>
    requires { S.usable (stack_of dispatch.old) }
    ensures { S.usable (stack_of dispatch.new) }
{
    for _ in NOTICES..ROOM {
        send(dispatch)?;
    }
    Ok(())
}

/// Sends an event of a callsite that is kept.
fn send<S: Subscriber>(dispatch: &mut Dispatch<S>) -> Result<(), Fault>
    requires { S.usable (stack_of dispatch.old) }
    ensures { S.usable (stack_of dispatch.new) }
{
    let event = Event::new(event_metadata(KEPT_EVENT), &[]);
    if dispatch.event(LANE, &event)? {
        return Ok(());
    }
    Err(Fault::Unprepared)
}

/// Sends an event that the recorder has no room for, and then another; and writes the same, both
/// after the second.
pub(crate) fn record<S: Tried, W: Write>(alloc: Global, writer: &mut W) -> Result<(), Fault> {
    write_dispatcher(writer, &mut full::<S>(alloc)?)?;
    write_sent(writer, &mut full::<S>(alloc)?)
}

/// Sends those two events, and writes what the dispatcher shows after the second.
fn write_sent<S: Tried, W: Write>(writer: &mut W, dispatch: &mut Dispatch<S>) -> Result<(), Fault>
    requires { S.usable (stack_of dispatch.old) }
{
    write_start(writer)?;
    send(dispatch)?;
    write_answer(writer, Answer::Done)?;
    send(dispatch)?;
    write_dispatcher(writer, dispatch)
}

/// Writes all that a dispatcher shows and answers, and what its recorder was notified of.
pub(crate) fn write_dispatcher<S: Tried, W: Write>(
    writer: &mut W,
    dispatch: &mut Dispatch<S>,
) -> Result<(), Fault>
    requires { S.usable (stack_of dispatch.old) }
{
    write_levels(writer, dispatch.stack().level(), dispatch.max_level_hint())?;
    write_answers(writer, dispatch)?;
    write_all_of(writer, dispatch)?;
    let recorder = dispatch.stack().recorder();
    write_notices(writer, recorder.notices(), recorder.failed())
}

/// Writes the level of a stack and its hint.
fn write_levels<W: Write>(
    writer: &mut W,
    level: LevelFilter,
    hint: Option<LevelFilter>,
) -> Result<(), Fault> {
    writeln!(writer, "level {level:?}, hint {hint:?}")?;
    Ok(())
}

/// Writes what becomes of an event and of a span of callsites that weren't asked of, and of an
/// event of one that is kept with other metadata.
fn write_answers<S: Subscriber, W: Write>(
    writer: &mut W,
    dispatch: &mut Dispatch<S>,
) -> Result<(), Fault>
    requires { S.usable (stack_of dispatch.old) }
    ensures { S.usable (stack_of dispatch.new) }
{
    ask(writer, dispatch, event(UNKNOWN_EVENT))?;
    ask(writer, dispatch, new_span(UNKNOWN_SPAN, WhichParent::Root))?;
    ask(writer, dispatch, other_event())
}

/// Makes a request, and writes how it ends.
pub(crate) fn ask<S: Subscriber, W: Write>(
    writer: &mut W,
    dispatch: &mut Dispatch<S>,
    request: Request<'_>,
) -> Result<(), Fault>
    requires { S.usable (stack_of dispatch.old) }
    ensures { S.usable (stack_of dispatch.new) }
{
    let ended = asked(dispatch, request);
    write_answer(writer, ended)
}

/// How a request ends.
fn asked<S: Subscriber>(dispatch: &mut Dispatch<S>, request: Request<'_>) -> Answer
    requires { S.usable (stack_of dispatch.old) }
    ensures { S.usable (stack_of dispatch.new) }
{
    match request {
        Request::NewSpan {
            lane,
            metadata,
            parent,
            values,
        } => { Answer::of_span(dispatch.new_span(lane, &parent.attributes(&[], metadata, values))) }
        Request::Event {
            lane,
            metadata,
            parent,
            values,
        } => { Answer::of_event(dispatch.event(lane, &parent.event(&[], metadata, values))) }
        Request::Enabled(lane, metadata) => Answer::of_yes(dispatch.enabled(lane, &metadata)),
        Request::Current(lane) => Answer::of_current(dispatch.current_span(lane)),
        Request::Reload(number, setting) => Answer::of_done(dispatch.reload(number, setting)),
        _ => asked_of_span(dispatch, request),
    }
}

/// How a request of a span ends.
fn asked_of_span<S: Subscriber>(dispatch: &mut Dispatch<S>, request: Request<'_>) -> Answer
    requires { S.usable (stack_of dispatch.old) }
    ensures { S.usable (stack_of dispatch.new) }
{
    match request {
        Request::Enter(lane, Which::Known(id)) => Answer::of_done(dispatch.enter(lane, id)),
        Request::Exit(lane, Which::Known(id)) => {
            dispatch.exit(lane, id);
            Answer::Done
        }
        Request::Record(lane, Which::Known(id), values) => {
            Answer::of_done(dispatch.record(lane, id, &Record::new(values)))
        }
        Request::Follows(lane, Which::Known(id), Which::Known(other)) => {
            Answer::of_done(dispatch.follows_from(lane, id, other))
        }
        Request::Clone(lane, Which::Known(id)) => Answer::of_clone(dispatch.clone_span(lane, id)),
        Request::Drop(lane, Which::Known(id)) => Answer::of_yes(dispatch.drop_span(lane, id)),
        _ => Answer::Dropped, // It asks of no span that is known.
    }
}
