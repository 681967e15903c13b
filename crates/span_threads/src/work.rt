//! What each thread traces.
ghost use Rattle.std.specs.Prelude.{◌≡◌, ◌+◌, ◌-◌, ◌<◌, ◌≤◌, ◌^◌};

use span_core::{Attributes, Event, FieldSet, Kind, Level, Metadata, TraceError};
use span_registry::Subscriber;
use span_shared::{Crew, Shared, Worker};
use std::sync::Wait;

/// How many requests a thread makes.
const REQUESTS: u64 = 5;

/// The callsite of the threads' spans.
fn span_metadata() -> Metadata {
    Metadata::new(
        0,
        "job",
        "threads",
        Level::INFO,
        Kind::SPAN,
        FieldSet::new(&[]),
    )
}

/// The callsite of the threads' events.
fn event_metadata() -> Metadata {
    Metadata::new(
        1,
        "at work",
        "threads",
        Level::INFO,
        Kind::EVENT,
        FieldSet::new(&[]),
    )
}

/// A worker that comes back from its thread, and whether all of its requests were accepted.
#[derive(Drop)]
pub(crate) struct Worked<L: Crew> {
    pub(crate) worker: Worker<L>,
    pub(crate) done: Result<(), TraceError>,
}

/// Opens a span, is in it while an event happens, and drops it. Each call waits for the lock, for
/// that call alone.
fn trace<S: Subscriber, L: Crew>(
    rt: &impl Wait,
    shared: &Shared<S, L>,
    worker: &mut Worker<L>,
) -> Result<(), TraceError>
    requires { worker.old.calls < 2 ^ 64 - 5 }
    ensures lane { worker.new.lane ≡ worker.old.lane }
    ensures calls { worker.new.calls ≤ worker.old.calls + 5 }
{
    let attrs = Attributes::new(span_metadata(), &[]);
    let (made, _) = shared.new_span(rt, worker, &attrs)?;
    let Some(span) = made else {
        return Ok(()); // No layer wanted it.
    };
    shared.enter(rt, worker, span)?;
    shared.event(rt, worker, &Event::new(event_metadata(), &[]))?;
    shared.exit(rt, worker, span)?;
    shared.drop_span(rt, worker, span)?;
    Ok(())
}

/// A thread's whole work.
pub(crate) fn work<S: Subscriber, L: Crew>(
    rt: &impl Wait,
    shared: &Shared<S, L>,
    worker: Worker<L>,
) -> Worked<L> {
    let mut worker = worker;
    // Neither takes the lock: whether the level may be wanted, and whether the worker's count has
    // room.
    if !worker.passes_hint(Level::INFO) || worker.calls() >= u64::MAX - REQUESTS {
        return Worked {
            worker,
            done: Ok(()),
        };
    }
    let done = trace(rt, shared, &mut worker);
    Worked { worker, done }
}
