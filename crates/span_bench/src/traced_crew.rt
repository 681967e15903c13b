//! Threads that trace through one receiver, each by a tracer of its own.
ghost use Rattle.span_bench.specs.ThreadOrder.{all_requests};
ghost use Rattle.span_store.specs.Store.{IsFresh};
ghost use Rattle.std.specs.Prelude.{◌≡◌, IfOk};

use crate::fault::Fault;
use crate::thread_order::ThreadOrder;
use crate::thread_workload::ThreadWorkload;
use span_dispatch::Dispatch;
use span_registry::Subscriber;
use span_tracer::{Receiver, Tracer, info, info_span};
use std::alloc::Global;
use std::sync::Wait;
use std::thread;
use std::thread::Threads;

/// Does an order on a receiver over this stack. Answers its dispatcher, and how many calls it
/// accepted.
pub fn done<S, R>(
    rt: &R,
    alloc: Global,
    stack: S,
    order: ThreadOrder,
) -> Result<(Dispatch<S>, u64), Fault>
where
    S: Subscriber + Send + Drop,
    R: Threads + Wait + Sync,
    requires usable { S.usable stack }
    requires fresh { IsFresh (S.registry stack) }
    ensures { IfOk result (λ r. r.1 ≡ all_requests order) }
{
    let receiver = Receiver::new(alloc, Dispatch::new(alloc, stack));
    at_work(
        rt,
        alloc,
        tracers(rt, alloc, &receiver, order.threads)?,
        order,
    )?;
    let (dispatch, calls) = receiver.into_parts();
    if order.requests() != Some(calls) {
        return Err(Fault::Undone);
    }
    Ok((dispatch, calls))
}

/// So many tracers of a receiver.
fn tracers<'a, S: Subscriber, R: Wait>(
    rt: &'a R,
    alloc: Global,
    receiver: &'a Receiver<S>,
    count: u32,
) -> Result<Vec<Tracer<'a, R, S>>, Fault> {
    let mut tracers = Vec::new(alloc);
    for _ in 0..count {
        tracers.push(receiver.tracer(rt)?)?;
    }
    Ok(tracers)
}

/// Each tracer at work in a thread of its own.
fn at_work<S: Subscriber + Send, R: Threads + Wait + Sync>(
    rt: &R,
    alloc: Global,
    tracers: Vec<Tracer<'_, R, S>>,
    order: ThreadOrder,
) -> Result<(), Fault> {
    thread::scope(thread::scope_env(), rt, move |scope| -> Result<(), Fault> {
        let mut threads = Vec::new(alloc);
        for tracer in tracers {
            let Ok(thread) = scope.spawn(move || work(tracer, order)) else {
                return Err(Fault::NoThread);
            };
            threads.push(thread)?;
        }
        for thread in threads {
            thread.join(rt)?;
        }
        Ok(())
    })
}

/// A thread's whole work.
fn work<R: Wait, S: Subscriber>(tracer: Tracer<'_, R, S>, order: ThreadOrder) -> Result<(), Fault> {
    match order.workload {
        ThreadWorkload::TracedEvent => event(tracer, order.rounds),
        ThreadWorkload::TracedSpan => span(tracer, order.rounds),
        _ => Err(Fault::Undone),
    }
}

/// Each round sends an event.
fn event<R: Wait, S: Subscriber>(tracer: Tracer<'_, R, S>, rounds: u32) -> Result<(), Fault> {
    for _ in 0..rounds {
        if !info!(tracer; target: "bench", "event")? {
            return Err(Fault::Undone);
        }
    }
    Ok(())
}

/// Each round opens a span, and lets its handle go.
fn span<R: Wait, S: Subscriber>(tracer: Tracer<'_, R, S>, rounds: u32) -> Result<(), Fault> {
    for _ in 0..rounds {
        if info_span!(tracer; target: "bench", "span")?.is_disabled() {
            return Err(Fault::Undone);
        }
    }
    Ok(())
}
