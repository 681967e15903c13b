//! Scripts that ten workers serve through one lock, in one thread.
ghost use Rattle.std.specs.Prelude.{◌≡◌, ◌+◌, ◌-◌, ◌<◌, ◌≤◌, ◌^◌, IfErr, IfOk, length, vec_len};
ghost use Rattle.span_shared.specs.Journal.{IsLegal};
ghost use Rattle.span_store.specs.Store.{IsFresh};
ghost use Rattle.span_script.specs.Stacks.{AreCalled};

use crate::run_fault::RunFault;
use crate::way::Way;
use span_core::Lane;
use span_dispatch::{Answer, Call, Dispatch, Request};
use span_registry::Subscriber;
use span_shared::{Crew, Journal, Shared, Worker};
use std::alloc::Global;
use std::marker::Brand;
use std::sync::Wait;
use std::sync::ledger::Blank;

/// How many workers there are: one for each lane that a script names.
const WORKERS: u32 = 10;

/// Ten workers that share the stack, each on its lane. It leaves the journal of their requests.
pub(crate) struct ByWorkers<'a, T> {
    /// What workers wait by.
    pub(crate) rt: &'a T,
}

impl<T: Wait> Way for ByWorkers<'_, T> {
    type Left = Journal;

    ghost alone = { ⊥ };

    ghost is_left = { IsLegal };

    fn serve<S: Subscriber + Drop>(
        self,
        alloc: Global,
        stack: S,
        requests: &[Request<'_>],
    ) -> Result<(Vec<Answer>, Dispatch<S>, Journal), RunFault> {
        let ByWorkers { rt } = self;
        let blank = Blank::new(u64::from(WORKERS));
        serve::<S, Brand>(rt, alloc, blank, stack, requests)
    }
}

/// Has ten workers share a stack and serve requests by it, each on its lane.
fn serve<S: Subscriber + Drop, L: Crew>(
    rt: &impl Wait,
    alloc: Global,
    blank: Blank,
    stack: S,
    requests: &[Request<'_>],
) -> Result<(Vec<Answer>, Dispatch<S>, Journal), RunFault>
    requires name { blank.name ≡ L.name }
    requires parts { (blank.parts ≡ L.parts) × (L.parts ≡ 10) × (L.workers ≡ 10) }
    requires usable { S.usable stack }
    requires fresh { IsFresh (S.registry stack) }
    ensures each { IfOk result (λ r. length r.0.items ≡ length requests.now) }
    ensures legal { IfOk result (λ r. IsLegal r.2) }
    ensures fault { IfErr result (λ fault. fault ≡ RunFault.Memory) }
{
    let dispatch = Dispatch::new(alloc, stack);
    let (book, all) = blank.open::<L>();
    let Ok((shared, workers)) = Shared::new(alloc, book, all, dispatch, WORKERS) else {
        return Err(RunFault::Memory);
    };
    let mut workers = workers;
    let mut answers = Vec::with_capacity(alloc, requests.len())?;
    for request in requests {
        let answer = ask_by_lane(rt, &shared, &mut workers, &answers, request);
        answers.push_reserved(answer);
    }
    let Ok((dispatch, journal)) = shared.finish(workers) else {
        unreachable!() // No worker is missing.
    };
    Ok((answers, dispatch, journal))
}

/// One request, by the worker of its lane, where these are the answers so far. A level is set by
/// the first.
fn ask_by_lane<S: Subscriber, L: Crew>(
    rt: &impl Wait,
    shared: &Shared<S, L>,
    workers: &mut Vec<Worker<L>>,
    past: &[Answer],
    request: &Request<'_>,
) -> Answer
    requires room { length past.now < 2 ^ 64 - 1 }
    requires calls { AreCalled (length past.now) workers.old.items }
    ensures workers { vec_len workers.new ≡ vec_len workers.old }
    ensures calls { AreCalled (length past.now + 1) workers.new.items }
{
    let Some(call) = request.call(past) else {
        return Answer::Dropped;
    };
    let number = call.lane().unwrap_or(Lane(0)).0 as usize;
    if number >= workers.len() {
        return Answer::Dropped; // A script names no other lane.
    }
    ask_by(rt, shared, &mut workers[number], &call)
}

/// One call of a worker, answered as a script shows it: a receipt is no part of that.
fn ask_by<S: Subscriber, L: Crew>(
    rt: &impl Wait,
    shared: &Shared<S, L>,
    worker: &mut Worker<L>,
    call: &Call<'_>,
) -> Answer
    requires { worker.old.calls < 2 ^ 64 - 1 }
    ensures { worker.new.calls ≤ worker.old.calls + 1 }
{
    match shared.ask(rt, worker, call) {
        Ok((answer, _)) => answer,
        Err(error) => Answer::Refused(error),
    }
}
