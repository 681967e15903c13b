//! Calls of a dispatcher that workers share.
ghost use Rattle.span_dispatch.specs.Serve.{stack_of};
ghost use Rattle.span_shared.specs.Worker.{called};
ghost use Rattle.std.specs.Prelude.{◌≡◌, ◌-◌, ◌<◌, ◌^◌, IfOk, OnErr, OnOk, vec_len};

use crate::call::State;
use crate::dispatcher::{dispatcher, write_dispatcher};
use crate::fault::Fault;
use crate::shown::{write_answer, write_start};
use crate::site::preparation;
use crate::tried::Tried;
use span_core::{Record, TraceError};
use span_dispatch::{Answer, Dispatch, Request, Which};
use span_registry::{LookupSpan, Subscriber};
use span_shared::{Crew, Journal, Receipt, Shared, Worker};
use std::alloc::Global;
use std::io::Write;
use std::marker::Brand;
use std::sync::Wait;
use std::sync::ledger::Blank;

/// What is left of a shared dispatcher when its worker is back.
struct Finished<S> {
    dispatch: Dispatch<S>,
    journal: Journal,
    receipts: Vec<Receipt>,
    /// How many of the worker's calls were accepted.
    accepted: u64,
}

impl<S: Drop> Drop for Finished<S> {
    fn drop(self) {
        let Finished {
            dispatch,
            journal,
            receipts,
            accepted,
        } = self;
    }
}

/// Makes a request of a shared dispatcher, and writes what it shows without the request and after
/// it.
pub(crate) fn make<S: Tried, W: Write>(
    rt: &impl Wait,
    alloc: Global,
    writer: &mut W,
    request: Request<'_>,
) -> Result<(), Fault> {
    write_after::<S, W>(rt, alloc, writer, None)?;
    write_after::<S, W>(rt, alloc, writer, Some(request))
}

/// Writes what a shared dispatcher shows after the preparation and this request, if there is one.
fn write_after<S: Tried, W: Write>(
    rt: &impl Wait,
    alloc: Global,
    writer: &mut W,
    request: Option<Request<'_>>,
) -> Result<(), Fault> {
    let mut finished = after::<S, W>(rt, alloc, writer, request)?;
    write_finished(writer, &mut finished)
}

/// What is left of a dispatcher that was shared with a worker, after the preparation and this
/// request, if there is one.
fn after<S: Tried, W: Write>(
    rt: &impl Wait,
    alloc: Global,
    writer: &mut W,
    request: Option<Request<'_>>,
) -> Result<Finished<S>, Fault>
    ensures { IfOk result (λ finished. S.usable (stack_of finished.dispatch)) }
{
    let dispatch = dispatcher::<S>(alloc, State::Begun)?;
    shared_with_one::<S, Brand, W>(rt, alloc, writer, Blank::new(1), dispatch, request)
}

/// Shares a dispatcher, and writes what it shows without that and after it.
pub(crate) fn share<S: Tried, W: Write>(alloc: Global, writer: &mut W) -> Result<(), Fault> {
    write_dispatcher(writer, &mut dispatcher::<S>(alloc, State::Begun)?)?;
    let dispatch = dispatcher::<S>(alloc, State::Begun)?;
    let mut dispatch = shared_once::<S, Brand, W>(alloc, writer, Blank::new(1), dispatch)?;
    write_dispatcher(writer, &mut dispatch)
}

/// Writes all that a dispatcher that was shared shows: its journal, and whether that holds its
/// receipts, too.
fn write_finished<S: Tried, W: Write>(
    writer: &mut W,
    finished: &mut Finished<S>,
) -> Result<(), Fault>
    requires { S.usable (stack_of finished.old.dispatch) }
{
    write_journal(writer, &finished.journal)?;
    write_receipts(
        writer,
        &finished.journal,
        &finished.receipts,
        finished.accepted,
    )?;
    write_dispatcher(writer, &mut finished.dispatch)
}

/// Writes the entries of a journal.
fn write_journal<W: Write>(writer: &mut W, journal: &Journal) -> Result<(), Fault> {
    for place in 0..journal.len() {
        if let Some(entry) = journal.get(place) {
            writeln!(writer, "{entry:?}")?;
        }
    }
    Ok(())
}

/// Writes whether a journal holds receipts, and how many calls of their worker were accepted.
fn write_receipts<W: Write>(
    writer: &mut W,
    journal: &Journal,
    receipts: &[Receipt],
    accepted: u64,
) -> Result<(), Fault> {
    for receipt in receipts {
        let held = journal.holds(receipt);
        writeln!(writer, "receipt of {} held {held}", receipt.place())?;
    }
    writeln!(writer, "accepted {accepted}")?;
    Ok(())
}

/// Shares a dispatcher with one worker, and writes how that ended. Where it was refused, what came
/// back is shared. Answers the dispatcher.
fn shared_once<S: Subscriber + Drop, L: Crew, W: Write>(
    alloc: Global,
    writer: &mut W,
    blank: Blank,
    dispatch: Dispatch<S>,
) -> Result<Dispatch<S>, Fault>
    requires name { blank.name ≡ L.name }
    requires parts { (blank.parts ≡ L.parts) × (L.parts ≡ 1) × (L.workers ≡ 1) }
    requires usable { S.usable (stack_of dispatch) }
    ensures { IfOk result (λ shared. S.usable (stack_of shared)) }
{
    if !dispatch.stack().root().is_fresh() {
        return Err(Fault::Unprepared);
    }
    let (book, all) = blank.open::<L>();
    write_start(writer)?;
    let (shared, workers) = match Shared::new(alloc, book, all, dispatch, 1) {
        Ok(shared) => {
            write_answer(writer, Answer::Done)?;
            shared
        }
        Err(rejected) => {
            write_answer(writer, Answer::Refused(rejected.error))?;
            let (dispatch, book, all) = rejected.value;
            match Shared::new(alloc, book, all, dispatch, 1) {
                Ok(shared) => shared,
                Err(_) => return Err(Fault::Memory),
            }
        }
    };
    match shared.finish(workers) {
        Ok((dispatch, _)) => Ok(dispatch),
        Err(_) => unreachable!(), // No worker is missing.
    }
}

/// A dispatcher of which nothing was asked, shared with one worker.
fn shared_of<S: Subscriber + Drop, L: Crew>(
    alloc: Global,
    blank: Blank,
    dispatch: Dispatch<S>,
) -> Result<(Shared<S, L>, Vec<Worker<L>>), Fault>
    requires name { blank.name ≡ L.name }
    requires parts { (blank.parts ≡ L.parts) × (L.parts ≡ 1) × (L.workers ≡ 1) }
    requires usable { S.usable (stack_of dispatch) }
    ensures { IfOk result (λ shared. vec_len shared.1 ≡ 1) }
{
    if !dispatch.stack().root().is_fresh() {
        return Err(Fault::Unprepared);
    }
    let (book, all) = blank.open::<L>();
    match Shared::new(alloc, book, all, dispatch, 1) {
        Ok(shared) => Ok(shared),
        Err(_) => Err(Fault::Memory),
    }
}

/// Shares a dispatcher with one worker, that prepares it and makes the request, if there is one,
/// and writes how that ended.
fn shared_with_one<S: Subscriber + Drop, L: Crew, W: Write>(
    rt: &impl Wait,
    alloc: Global,
    writer: &mut W,
    blank: Blank,
    dispatch: Dispatch<S>,
    request: Option<Request<'_>>,
) -> Result<Finished<S>, Fault>
    requires name { blank.name ≡ L.name }
    requires parts { (blank.parts ≡ L.parts) × (L.parts ≡ 1) × (L.workers ≡ 1) }
    requires usable { S.usable (stack_of dispatch) }
    ensures { IfOk result (λ finished. S.usable (stack_of finished.dispatch)) }
{
    let (shared, mut workers) = shared_of::<S, L>(alloc, blank, dispatch)?;
    let receipts = receipts_of(rt, alloc, writer, &shared, &mut workers[0], request)?;
    let accepted = workers[0].calls();
    let Ok((dispatch, journal)) = shared.finish(workers) else {
        unreachable!() // No worker is missing.
    };
    Ok(Finished {
        dispatch,
        journal,
        receipts,
        accepted,
    })
}

/// The receipts of a worker that made no call yet: of the preparation, and of the request, if there
/// is one that isn't refused.
fn receipts_of<S: Subscriber, L: Crew, W: Write>(
    rt: &impl Wait,
    alloc: Global,
    writer: &mut W,
    shared: &Shared<S, L>,
    worker: &mut Worker<L>,
    request: Option<Request<'_>>,
) -> Result<Vec<Receipt>, Fault> {
    if worker.calls() > 0 {
        return Err(Fault::Unprepared);
    }
    let mut receipts = Vec::new(alloc);
    prepare(rt, shared, worker, &mut receipts)?;
    if let Some(request) = request {
        try_once(rt, writer, shared, worker, &mut receipts, request)?;
    }
    Ok(receipts)
}

/// Makes the requests of the preparation, and keeps their receipts.
fn prepare<S: Subscriber, L: Crew>(
    rt: &impl Wait,
    shared: &Shared<S, L>,
    worker: &mut Worker<L>,
    receipts: &mut Vec<Receipt>,
) -> Result<(), Fault>
    requires { worker.old.calls ≡ 0 }
    ensures { OnOk result (worker.new.calls ≡ 32) }
{
    for request in &preparation() {
        receipts.push(asked(rt, shared, worker, *request)?)?;
    }
    Ok(())
}

/// Makes a request, and writes how it ended. Its receipt is kept.
fn try_once<S: Subscriber, L: Crew, W: Write>(
    rt: &impl Wait,
    writer: &mut W,
    shared: &Shared<S, L>,
    worker: &mut Worker<L>,
    receipts: &mut Vec<Receipt>,
    request: Request<'_>,
) -> Result<(), Fault>
    requires { worker.old.calls < 2 ^ 64 - 1 }
{
    write_start(writer)?;
    match asked(rt, shared, worker, request) {
        Ok(receipt) => {
            write_answer(writer, Answer::Done)?;
            receipts.push(receipt)?;
        }
        Err(error) => write_answer(writer, Answer::Refused(error))?,
    }
    Ok(())
}

/// The receipt of a request. A refused one isn't counted.
fn asked<S: Subscriber, L: Crew>(
    rt: &impl Wait,
    shared: &Shared<S, L>,
    worker: &mut Worker<L>,
    request: Request<'_>,
) -> Result<Receipt, TraceError>
    requires { worker.old.calls < 2 ^ 64 - 1 }
    ensures counted { OnOk result (worker.new ≡ called worker.old) }
    ensures unchanged { OnErr result (worker.new ≡ worker.old) }
{
    match request {
        Request::NewSpan {
            metadata,
            parent,
            values,
            ..
        } => {
            let attributes = parent.attributes(&[], metadata, values);
            Ok(shared.new_span(rt, worker, &attributes)?.1)
        }
        Request::Event {
            metadata,
            parent,
            values,
            ..
        } => {
            let event = parent.event(&[], metadata, values);
            Ok(shared.event(rt, worker, &event)?.1)
        }
        Request::Enabled(_, metadata) => Ok(shared.enabled(rt, worker, &metadata)?.1),
        Request::Current(_) => Ok(shared.current_span(rt, worker)?.1),
        Request::Reload(number, setting) => Ok(shared.reload(rt, worker, number, setting)?.1),
        _ => asked_of_span(rt, shared, worker, request),
    }
}

/// The receipt of a request of a span.
fn asked_of_span<S: Subscriber, L: Crew>(
    rt: &impl Wait,
    shared: &Shared<S, L>,
    worker: &mut Worker<L>,
    request: Request<'_>,
) -> Result<Receipt, TraceError>
    requires { worker.old.calls < 2 ^ 64 - 1 }
    ensures counted { OnOk result (worker.new ≡ called worker.old) }
    ensures unchanged { OnErr result (worker.new ≡ worker.old) }
{
    match request {
        Request::Enter(_, Which::Known(id)) => Ok(shared.enter(rt, worker, id)?.1),
        Request::Exit(_, Which::Known(id)) => Ok(shared.exit(rt, worker, id)?.1),
        Request::Record(_, Which::Known(id), values) => {
            Ok(shared.record(rt, worker, id, &Record::new(values))?.1)
        }
        Request::Follows(_, Which::Known(id), Which::Known(other)) => {
            Ok(shared.follows_from(rt, worker, id, other)?.1)
        }
        Request::Clone(_, Which::Known(id)) => Ok(shared.clone_span(rt, worker, id)?.1),
        Request::Drop(_, Which::Known(id)) => Ok(shared.drop_span(rt, worker, id)?.1),
        _ => Ok(shared.current_span(rt, worker)?.1), // It asks of no span that is known.
    }
}
