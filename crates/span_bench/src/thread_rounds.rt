//! The rounds of each workload of threads, which each thread does. A round that isn't done in full
//! ends the thread's work.
ghost use Rattle.std.specs.Prelude.{◌≡◌, ◌+◌, ◌*◌, OnOk};

use crate::fault::Fault;
use crate::site;
use span_core::{Attributes, Event, Id, Level};
use span_registry::Subscriber;
use span_shared::{Crew, Shared, Worker};
use std::sync::Wait;

/// Each round sends an event.
pub fn event<S: Subscriber, L: Crew>(
    rt: &impl Wait,
    shared: &Shared<S, L>,
    worker: &mut Worker<L>,
    rounds: u32,
) -> Result<(), Fault>
    ensures { OnOk result (worker.new.calls ≡ worker.old.calls + rounds) }
{
    let event = Event::new(site::event(), &[]);
    for _ in 0..rounds {
        if !sent(rt, shared, worker, &event)? {
            return Err(Fault::Undone);
        }
    }
    Ok(())
}

/// Each round opens a span and drops it.
pub fn new_and_drop<S: Subscriber, L: Crew>(
    rt: &impl Wait,
    shared: &Shared<S, L>,
    worker: &mut Worker<L>,
    rounds: u32,
) -> Result<(), Fault>
    ensures { OnOk result (worker.new.calls ≡ worker.old.calls + 2 * rounds) }
{
    let attrs = Attributes::new(site::span(), &[]);
    for _ in 0..rounds {
        let id = opened(rt, shared, worker, &attrs)?;
        close(rt, shared, worker, id)?;
    }
    Ok(())
}

/// Each round asks the receiver for an event that the hint rules out.
pub fn event_past_hint<S: Subscriber, L: Crew>(
    rt: &impl Wait,
    shared: &Shared<S, L>,
    worker: &mut Worker<L>,
    rounds: u32,
) -> Result<(), Fault>
    ensures { OnOk result (worker.new.calls ≡ worker.old.calls + rounds) }
{
    let event = Event::new(site::past_hint(), &[]);
    for _ in 0..rounds {
        if sent(rt, shared, worker, &event)? {
            return Err(Fault::Undone);
        }
    }
    Ok(())
}

/// Each round asks the worker first, and the receiver only for what passes the hint.
pub fn passes_hint<S: Subscriber, L: Crew>(
    rt: &impl Wait,
    shared: &Shared<S, L>,
    worker: &mut Worker<L>,
    rounds: u32,
) -> Result<(), Fault> {
    let event = Event::new(site::past_hint(), &[]);
    for _ in 0..rounds {
        if worker.passes_hint(Level::DEBUG) && sent(rt, shared, worker, &event)? {
            return Err(Fault::Undone);
        }
    }
    Ok(())
}

/// Sends an event. Answers whether it was made.
#[inline(always)]
fn sent<S: Subscriber, L: Crew>(
    rt: &impl Wait,
    shared: &Shared<S, L>,
    worker: &mut Worker<L>,
    event: &Event<'_>,
) -> Result<bool, Fault>
    ensures { OnOk result (worker.new.calls ≡ worker.old.calls + 1) }
{
    if worker.calls() == u64::MAX {
        return Err(Fault::Undone);
    }
    let (made, _) = shared.event(rt, worker, event)?;
    Ok(made)
}

/// Opens a span.
#[inline(always)]
fn opened<S: Subscriber, L: Crew>(
    rt: &impl Wait,
    shared: &Shared<S, L>,
    worker: &mut Worker<L>,
    attrs: &Attributes<'_>,
) -> Result<Id, Fault>
    ensures { OnOk result (worker.new.calls ≡ worker.old.calls + 1) }
{
    if worker.calls() == u64::MAX {
        return Err(Fault::Undone);
    }
    match shared.new_span(rt, worker, attrs)? {
        (Some(id), _) => Ok(id),
        (None, _) => Err(Fault::Undone),
    }
}

/// Drops the last handle of a span that has no child.
#[inline(always)]
fn close<S: Subscriber, L: Crew>(
    rt: &impl Wait,
    shared: &Shared<S, L>,
    worker: &mut Worker<L>,
    id: Id,
) -> Result<(), Fault>
    ensures { OnOk result (worker.new.calls ≡ worker.old.calls + 1) }
{
    if worker.calls() == u64::MAX {
        return Err(Fault::Undone);
    }
    match shared.drop_span(rt, worker, id)? {
        (true, _) => Ok(()),
        (false, _) => Err(Fault::Undone),
    }
}
