//! Workers in threads, and the receiver that they share.
ghost use Rattle.span_bench.specs.ThreadOrder.{all_requests};
ghost use Rattle.span_store.specs.Store.{IsFresh};
ghost use Rattle.std.specs.Prelude.{◌≡◌, ◌<◌, IfOk};

use crate::fault::Fault;
use crate::receiver::{CountingStack, VetoingStack, counting_stack, vetoing_stack};
use crate::thread_order::ThreadOrder;
use crate::thread_workload::ThreadWorkload;
use crate::{thread_rounds, traced_crew};
use span_core::TraceError;
use span_dispatch::Dispatch;
use span_registry::{Registry, Subscriber};
use span_shared::{Crew, Shared, Worker};
use std::alloc::Global;
use std::marker::Brand;
use std::sync::Wait;
use std::sync::ledger::Blank;
use std::thread;
use std::thread::{JoinHandle, Threads};

/// What was asked of a receiver.
#[derive(Clone, Copy, Debug, PartialEq, Eq)]
pub struct Tally {
    /// How many requests its journal has.
    pub requests: u64,
    /// How many notices its layer counted.
    pub notices: u64,
}

/// A worker that comes back from its thread, and whether all of its rounds were done.
#[derive(Drop)]
struct Worked<L: Crew> {
    worker: Worker<L>,
    done: Result<(), Fault>,
}

/// Does an order, on a receiver of its own.
pub fn done<R: Threads + Wait + Sync>(
    rt: &R,
    alloc: Global,
    order: ThreadOrder,
) -> Result<Tally, Fault>
    ensures { IfOk result (λ t. t.requests ≡ all_requests order) }
{
    if order.threads == 0 {
        return Err(Fault::Line);
    }
    let blank = Blank::new(u64::from(order.threads));
    done_by_vetoing::<Registry, Brand, R>(rt, alloc, blank, Registry::new(alloc), order)
}

/// Does an order on this stack, with the layer that vetoes and the one that counts outside it.
fn done_by_vetoing<S, L, R>(
    rt: &R,
    alloc: Global,
    blank: Blank,
    stack: S,
    order: ThreadOrder,
) -> Result<Tally, Fault>
where
    S: Subscriber + Send + Drop,
    L: Crew + Send + Sync,
    R: Threads + Wait + Sync,
    requires name { blank.name ≡ L.name }
    requires parts { (blank.parts ≡ L.parts) × (L.parts ≡ order.threads)
        × (L.workers ≡ order.threads) }
    requires some { 0 < order.threads }
    requires usable { S.usable stack }
    requires fresh { IsFresh (S.registry stack) }
    ensures { IfOk result (λ t. t.requests ≡ all_requests order) }
{
    done_by_counting::<VetoingStack<S>, L, R>(rt, alloc, blank, vetoing_stack(stack)?, order)
}

/// Does an order on this stack, with the layer that counts outside it.
fn done_by_counting<S, L, R>(
    rt: &R,
    alloc: Global,
    blank: Blank,
    stack: S,
    order: ThreadOrder,
) -> Result<Tally, Fault>
where
    S: Subscriber + Send + Drop,
    L: Crew + Send + Sync,
    R: Threads + Wait + Sync,
    requires name { blank.name ≡ L.name }
    requires parts { (blank.parts ≡ L.parts) × (L.parts ≡ order.threads)
        × (L.workers ≡ order.threads) }
    requires some { 0 < order.threads }
    requires usable { S.usable stack }
    requires fresh { IsFresh (S.registry stack) }
    ensures { IfOk result (λ t. t.requests ≡ all_requests order) }
{
    let stack = counting_stack(stack)?;
    let (dispatch, requests) = if order.workload.is_traced() {
        traced_crew::done::<CountingStack<S>, R>(rt, alloc, stack, order)?
    } else {
        shared_by::<CountingStack<S>, L, R>(rt, alloc, blank, stack, order)?
    };
    Ok(Tally {
        requests,
        notices: dispatch.stack().outer().observer().notices(),
    })
}

/// Lets workers share a dispatcher, each in a thread of its own. Answers it, and how many requests
/// the journal has.
fn shared_by<S, L, R>(
    rt: &R,
    alloc: Global,
    blank: Blank,
    stack: S,
    order: ThreadOrder,
) -> Result<(Dispatch<S>, u64), Fault>
where
    S: Subscriber + Send + Drop,
    L: Crew + Send + Sync,
    R: Threads + Wait + Sync,
    requires name { blank.name ≡ L.name }
    requires parts { (blank.parts ≡ L.parts) × (L.parts ≡ order.threads)
        × (L.workers ≡ order.threads) }
    requires some { 0 < order.threads }
    requires usable { S.usable stack }
    requires fresh { IsFresh (S.registry stack) }
    ensures { IfOk result (λ r. r.1 ≡ all_requests order) }
{
    let dispatch = Dispatch::new(alloc, stack);
    let (book, all) = blank.open::<L>();
    let Ok((shared, workers)) = Shared::new(alloc, book, all, dispatch, order.threads) else {
        return Err(Fault::Refused(TraceError::OutOfMemory));
    };
    let workers = at_work(rt, alloc, &shared, workers, order)?;
    finished(shared, workers, order)
}

/// Takes a receiver apart, whose journal has the requests of this order. Answers the dispatcher,
/// and how many they are.
fn finished<S: Subscriber + Drop, L: Crew>(
    shared: Shared<S, L>,
    workers: Vec<Worker<L>>,
    order: ThreadOrder,
) -> Result<(Dispatch<S>, u64), Fault>
    ensures { IfOk result (λ r. r.1 ≡ all_requests order) }
{
    let Ok((dispatch, journal)) = shared.finish(workers) else {
        return Err(Fault::Undone);
    };
    if order.requests() != Some(journal.len()) {
        return Err(Fault::Undone);
    }
    Ok((dispatch, journal.len()))
}

/// Each worker at work in a thread of its own. Answers the workers.
fn at_work<S: Subscriber + Send, L: Crew + Send + Sync, R: Threads + Wait + Sync>(
    rt: &R,
    alloc: Global,
    shared: &Shared<S, L>,
    workers: Vec<Worker<L>>,
    order: ThreadOrder,
) -> Result<Vec<Worker<L>>, Fault> {
    thread::scope(
        thread::scope_env(),
        rt,
        move |scope| -> Result<Vec<Worker<L>>, Fault> {
            let mut threads = Vec::new(alloc);
            for worker in workers {
                let Ok(thread) = scope.spawn(move || work(rt, shared, worker, order)) else {
                    return Err(Fault::NoThread);
                };
                threads.push(thread)?;
            }
            joined(rt, alloc, threads)
        },
    )
}

/// Waits for the threads. Answers their workers.
fn joined<L: Crew>(
    rt: &impl Threads,
    alloc: Global,
    threads: Vec<JoinHandle<Worked<L>>>,
) -> Result<Vec<Worker<L>>, Fault> {
    let mut workers = Vec::new(alloc);
    for thread in threads {
        let Worked { worker, done } = thread.join(rt);
        done?;
        workers.push(worker)?;
    }
    Ok(workers)
}

/// A thread's whole work.
fn work<S: Subscriber, L: Crew>(
    rt: &impl Wait,
    shared: &Shared<S, L>,
    worker: Worker<L>,
    order: ThreadOrder,
) -> Worked<L> {
    let mut worker = worker;
    let done = match order.workload {
        ThreadWorkload::Event => thread_rounds::event(rt, shared, &mut worker, order.rounds),
        ThreadWorkload::NewAndDrop => thread_rounds::new_and_drop(
            rt,
            shared,
            &mut worker,
            order.rounds,
        ),
        ThreadWorkload::EventPastHint => thread_rounds::event_past_hint(
            rt,
            shared,
            &mut worker,
            order.rounds,
        ),
        ThreadWorkload::PassesHint => thread_rounds::passes_hint(
            rt,
            shared,
            &mut worker,
            order.rounds,
        ),
        ThreadWorkload::TracedEvent | ThreadWorkload::TracedSpan => Err(Fault::Undone),
    };
    Worked { worker, done }
}
