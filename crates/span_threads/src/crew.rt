//! Two workers in two threads, and the receiver that they share.
ghost use Rattle.span_store.specs.Store.{IsFresh};
ghost use Rattle.std.specs.Prelude.{◌≡◌, ◌+◌, IfOk, vec_len};

use crate::work::{Worked, work};
use span_core::TraceError;
use span_dispatch::{Dispatch, Recorder};
use span_registry::{Registry, Subscriber};
use span_shared::{Crew, Shared, Worker};
use span_stacks::{Layered, SubscriberExt};
use std::alloc::Global;
use std::marker::Brand;
use std::sync::Wait;
use std::sync::ledger::Blank;
use std::thread::Threads;
use std::{fmt, thread};
use thiserror::Error;

/// What the two threads traced.
#[derive(Clone, Copy, Debug, PartialEq, Eq)]
pub struct Traced {
    /// How many requests the journal has.
    pub requests: u64,
    /// How many of them the first worker made.
    pub first: u64,
    /// How many of them the second worker made.
    pub second: u64,
}

impl fmt::Display for Traced {
    fn fmt<W: fmt::Write>(&self, f: &mut fmt::Formatter<W>) -> fmt::Result {
        write!(
            f,
            "{} requests in one journal: {} of the first worker, {} of the second",
            self.requests, self.first, self.second
        )
    }
}

/// Why the threads traced nothing, or not all.
#[derive(Clone, Copy, Debug, PartialEq, Eq, Error)]
pub enum Fault {
    /// A request was refused, or memory for the receiver.
    #[error("{0}")]
    Refused(TraceError),
    /// No thread could be made.
    #[error("no thread could be made")]
    NoThread,
}

/// Each worker at work in a thread of its own. Answers both, where all of their requests were
/// accepted.
fn at_work<S: Subscriber + Send, L: Crew + Send + Sync, R: Threads + Wait + Sync>(
    rt: &R,
    shared: &Shared<S, L>,
    first: Worker<L>,
    second: Worker<L>,
) -> Result<(Worker<L>, Worker<L>), Fault> {
    thread::scope(
        thread::scope_env(),
        rt,
        move |scope| -> Result<(Worker<L>, Worker<L>), Fault> {
            let Ok(one) = scope.spawn(move || work(rt, shared, first)) else {
                return Err(Fault::NoThread);
            };
            let Ok(other) = scope.spawn(move || work(rt, shared, second)) else {
                return Err(Fault::NoThread);
            };
            let (one, other) = (one.join(rt), other.join(rt));
            Ok((accepted(one)?, accepted(other)?))
        },
    )
}

/// The worker that comes back from a thread, if all of its requests were accepted.
fn accepted<L: Crew>(worked: Worked<L>) -> Result<Worker<L>, Fault> {
    let Worked { worker, done } = worked;
    match done {
        Ok(()) => Ok(worker),
        Err(error) => Err(Fault::Refused(error)),
    }
}

/// Lets two workers work, and takes the receiver apart again.
fn work_and_finish<S: Subscriber + Send + Drop, L: Crew + Send + Sync, R: Threads + Wait + Sync>(
    rt: &R,
    shared: Shared<S, L>,
    workers: Vec<Worker<L>>,
) -> Result<Traced, Fault>
    requires { (vec_len workers ≡ 2) × (L.workers ≡ 2) }
    ensures { IfOk result (λ t. t.requests ≡ t.first + t.second) }
{
    let mut workers = workers;
    let (Some(second), Some(first)) = (workers.pop(), workers.pop()) else {
        unreachable!()
    };
    let (first, second) = at_work(rt, &shared, first, second)?;
    let (one, other) = (first.calls(), second.calls());
    workers.push_reserved(first);
    workers.push_reserved(second);
    let Ok((_, journal)) = shared.finish(workers) else {
        unreachable!()
    };
    Ok(Traced {
        requests: journal.len(),
        first: one,
        second: other,
    })
}

/// Opens the ledger of two workers, who trace through a receiver with this stack.
fn share<S: Subscriber + Send + Drop, L: Crew + Send + Sync, R: Threads + Wait + Sync>(
    rt: &R,
    alloc: Global,
    blank: Blank,
    stack: S,
) -> Result<Traced, Fault>
    requires name { blank.name ≡ L.name }
    requires parts { (blank.parts ≡ L.parts) × (L.parts ≡ 2) × (L.workers ≡ 2) }
    requires usable { S.usable stack }
    requires fresh { IsFresh (S.registry stack) }
    ensures { IfOk result (λ t. t.requests ≡ t.first + t.second) }
{
    let dispatch = Dispatch::new(alloc, stack);
    let (book, all) = blank.open::<L>();
    let Ok((shared, workers)) = Shared::new(alloc, book, all, dispatch, 2) else {
        return Err(Fault::Refused(TraceError::OutOfMemory));
    };
    work_and_finish(rt, shared, workers)
}

/// Puts a recorder on a stack, and lets two workers trace through it.
fn share_recorded<S: Subscriber + Send + Drop, L: Crew + Send + Sync, R: Threads + Wait + Sync>(
    rt: &R,
    alloc: Global,
    blank: Blank,
    stack: S,
) -> Result<Traced, Fault>
    requires name { blank.name ≡ L.name }
    requires parts { (blank.parts ≡ L.parts) × (L.parts ≡ 2) × (L.workers ≡ 2) }
    requires usable { S.usable stack }
    requires fresh { IsFresh (S.registry stack) }
    ensures { IfOk result (λ t. t.requests ≡ t.first + t.second) }
{
    match stack.with(Recorder::new(alloc)) {
        Ok(stack) => share::<Layered<Recorder, S>, L, R>(rt, alloc, blank, stack),
        Err(back) => Err(Fault::Refused(back.error)),
    }
}

/// Two threads trace through one receiver: a recorder on a registry.
pub fn trace_in_two_threads<R: Threads + Wait + Sync>(
    rt: &R,
    alloc: Global,
) -> Result<Traced, Fault>
    ensures { IfOk result (λ t. t.requests ≡ t.first + t.second) }
{
    let registry = Registry::new(alloc);
    share_recorded::<Registry, Brand, R>(rt, alloc, Blank::new(2), registry)
}
