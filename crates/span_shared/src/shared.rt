//! A dispatcher that workers share behind one lock.
ghost use Rattle.std.specs.Prelude.{◌≡◌, ℕ, ◌+◌, ◌-◌, ◌<◌, ◌≤◌, ◌^◌, ◌↔◌, IfErr, IfOk, IfSome, IsNone, IsOk, OnErr, OnOk, length, not, slice_get, vec_len};
ghost use Rattle.span_core.specs.Level.{is_above};
ghost use Rattle.span_dispatch.specs.Contract.{ClonesSpan, DropsOneHandle, EntersSpan, ExitsSpan, FollowsSpan, OpensSpan, Probes, RecordsValues, SendsEvent, ReloadsFilter};
ghost use Rattle.span_dispatch.specs.Serve.{stack_of};
ghost use Rattle.span_shared.specs.Journal.{Leaves};
ghost use Rattle.span_shared.specs.Logged.{AddsEntry, AddsNewSpan, Logs, LogsCall, NeverRefused, ShowsSpan, current_entry, event_entry};
ghost use Rattle.span_shared.specs.Worker.{AreCrew, AreCrewOf, SomeJournal, SomeLogged, called, calls_of, new_worker};
ghost use Rattle.span_store.specs.Closes.{HasNoClosing};
ghost use Rattle.span_store.specs.Store.{IsFresh};
ghost use Rattle.span_targets.specs.Setting.{level_in};

use crate::entry::{Entry, EntryWith};
use crate::logged::{Journal, Logged, Receipt};
use span_core::{
    Attributes, Current, Event, Id, Lane, Level, LevelFilter, Metadata, Record, Rejected,
    TraceError,
};
use span_dispatch::{Answer, Call, Dispatch};
use span_registry::Subscriber;
use span_targets::Setting;
use std::alloc::Global;
use std::marker::{Brand, Model, PhantomData};
use std::sync::ledger::{Book, Ledger, Share};
use std::sync::{Mutex, Wait};

/// A ledger that names the number of workers.
pub trait Crew: Ledger {
    ghost workers: { ℕ };
}

impl Crew for Brand {
    ghost workers = { 1 };
}

/// One worker of a crew, with the share that belongs to it.
#[derive(Drop)]
pub struct Worker<L: Crew> {
    lane: Lane,
    hint: Option<LevelFilter>,
    calls: u64,
    share: Share<L>,
}

impl<L: Crew> Model for Worker<L> {
    ghost use Rattle.std.specs.Prelude.{◌≡◌};
    ghost use Rattle.span_shared.specs.Worker.{WorkerState};

    ghost Value = { WorkerState };

    ghost view = { λ w. record { lane = w.lane; hint = w.hint; calls = w.calls } };

    ghost invariant = { λ w. (w.share.parts ≡ 1) × (w.share.amount ≡ w.calls) };
}

impl<L: Crew> Worker<L> {
    fn new(lane: Lane, hint: Option<LevelFilter>, share: Share<L>) -> Worker<L>
        requires { (share.parts ≡ 1) × (share.amount ≡ 0) }
        ensures { result ≡ new_worker lane hint }
    {
        Worker {
            lane,
            hint,
            calls: 0,
            share,
        }
    }

    /// The lane that the worker's calls come from.
    pub fn lane(&self) -> Lane
        ensures { result ≡ self.now.lane }
    {
        self.lane
    }

    /// How many of the worker's calls were accepted.
    pub fn calls(&self) -> u64
        ensures { result ≡ self.now.calls }
    {
        self.calls
    }

    /// Whether the level passes the hint that the worker was made with. This waits for nobody.
    pub fn passes_hint(&self, level: Level) -> bool
        ensures { result ≡ not (is_above level self.now.hint) }
    {
        match self.hint {
            Some(most) => most.passes(level),
            None => true,
        }
    }

    // Counts one call in the book.
    fn count(&mut self, book: &mut Book<L>)
        requires { self.old.calls < 2 ^ 64 - 1 }
        ensures worker { self.new ≡ called self.old }
        ensures book { book.new.total ≡ book.old.total + 1 }
    {
        book.add(&mut self.share, 1);
        self.calls += 1;
    }

    fn into_share(self) -> Share<L>
        ensures { (result.parts ≡ 1) × (result.amount ≡ self.calls) }
    {
        let Worker {
            lane: _,
            hint: _,
            calls: _,
            share,
        } = self;
        share
    }
}

/// A logged dispatcher under a lock; the journal's length stands in a book beside it.
#[derive(Drop)]
struct Locked<S: Subscriber, L: Crew> {
    logged: Logged<S>,
    calls: Book<L>,
    ghost counted: { calls.total ≡ length logged.journal },
}

// That the ledger has a part for each worker. No field beside a token can say so.
#[derive(Drop)]
struct Whole<L: Crew> {
    of: PhantomData<L>,
    ghost one_part_each: { L.workers ≡ L.parts },
}

/// A dispatcher that workers share. Each call promises what a `Logged` promises, of some one that
/// it found under the lock.
pub struct Shared<S: Subscriber, L: Crew> {
    lock: Mutex<Locked<S, L>>,
    workers: u32,
    whole: Whole<L>,
    ghost crew: { workers ≡ L.workers },
    ghost some: { 0 < workers },
}

impl<S: Subscriber + Drop, L: Crew> Drop for Shared<S, L> {
    fn drop(self) {
        let Shared {
            lock,
            workers,
            whole,
        } = self;
    }
}

/// A `Shared` of which a worker is missing, and the workers that aren't.
#[derive(Drop)]
pub struct Unfinished<S: Subscriber, L: Crew> {
    pub shared: Shared<S, L>,
    pub workers: Vec<Worker<L>>,
}

// A worker for each part of the share, or the share where memory is refused.
fn make_crew<L: Crew>(
    alloc: Global,
    all: Share<L>,
    workers: u32,
    hint: Option<LevelFilter>,
) -> Result<Vec<Worker<L>>, Share<L>>
    requires { (all.parts ≡ workers) × (all.amount ≡ 0) }
    ensures all { IfOk result (λ v. vec_len v ≡ workers) }
    ensures each { IfOk result (λ v. AreCrew hint v.items) }
    ensures back { IfErr result (λ s. s ≡ all) }
{
    let Ok(mut made) = Vec::with_capacity(alloc, workers as usize) else {
        return Err(all);
    };
    let mut rest = all;
    for lane in 0..workers {
        made.push_reserved(Worker::new(Lane(lane), hint, rest.split_off(1, 0)));
    }
    Ok(made)
}

// The shares of all workers in one.
fn merged<L: Crew>(workers: Vec<Worker<L>>) -> Option<Share<L>>
    ensures parts { IfSome result (λ s. s.parts ≡ vec_len workers) }
    ensures calls { IfSome result (λ s. s.amount ≡ calls_of workers.items) }
    ensures none { IsNone result ↔ (vec_len workers ≡ 0) }
{
    let mut left = workers;
    let mut all = left.pop()?.into_share();
    while let Some(worker) = left.pop() {
        all.merge(worker.into_share());
    }
    Some(all)
}

impl<S: Subscriber, L: Crew> Shared<S, L> {
    /// A shared dispatcher, over one whose registry is fresh, and a worker for each part of the
    /// share, on the lanes 0, 1, and so on.
    pub fn new(
        alloc: Global,
        book: Book<L>,
        all: Share<L>,
        dispatch: Dispatch<S>,
        workers: u32,
    ) -> Result<(Shared<S, L>, Vec<Worker<L>>), Rejected<(Dispatch<S>, Book<L>, Share<L>)>>
        requires usable { S.usable (stack_of dispatch) }
        requires fresh { IsFresh (S.registry (stack_of dispatch)) }
        requires unused { (book.total ≡ 0) × (all.amount ≡ 0) }
        requires whole { all.parts ≡ L.parts }
        requires workers { (0 < workers) × (workers ≡ L.workers) × (L.workers ≡ L.parts) }
        ensures all { IfOk result (λ r. vec_len r.1 ≡ workers) }
        ensures each { IfOk result (λ r. AreCrewOf S.Subscriber dispatch r.1.items) }
        ensures back { IfErr result (λ e. e.value ≡ (dispatch, book, all)) }
        ensures memory { IfErr result (λ e. e.error ≡ TraceError.OutOfMemory) }
    {
        let hint = dispatch.max_level_hint();
        match make_crew(alloc, all, workers, hint) {
            Ok(made) => {
                let logged = Logged::new(alloc, dispatch);
                let shared = Shared {
                    lock: Mutex::new(Locked {
                        logged,
                        calls: book,
                    }),
                    workers,
                    whole: Whole { of: PhantomData },
                };
                Ok((shared, made))
            }
            Err(all) => Err(Rejected {
                value: (dispatch, book, all),
                error: TraceError::OutOfMemory,
            }),
        }
    }

    /// Asks as `Dispatch::enabled` does.
    #[inline(always)]
    pub fn enabled(
        &self,
        rt: &impl Wait,
        worker: &mut Worker<L>,
        meta: &Metadata,
    ) -> Result<(bool, Receipt), TraceError>
        requires { worker.old.calls < 2 ^ 64 - 1 }
        ensures worker { OnOk result (worker.new ≡ called worker.old) }
        ensures logs { SomeLogged S.Subscriber
            (Logs (Probes S.Subscriber worker.old.lane meta.now)
            (AddsEntry (EntryWith.Probe worker.old.lane meta.now)) result) }
        ensures unchanged { OnErr result (worker.new ≡ worker.old) }
    {
        let mut guard = self.lock.lock(rt);
        let Locked { logged, calls } = &mut *guard;
        logged.stands();
        let given = logged.enabled(worker.lane, meta)?;
        worker.count(calls);
        Ok(given)
    }

    /// Opens a span as `Dispatch::new_span` does.
    #[inline(always)]
    pub fn new_span(
        &self,
        rt: &impl Wait,
        worker: &mut Worker<L>,
        attrs: &Attributes<'_>,
    ) -> Result<(Option<Id>, Receipt), TraceError>
        requires { worker.old.calls < 2 ^ 64 - 1 }
        ensures worker { OnOk result (worker.new ≡ called worker.old) }
        ensures logs { SomeLogged S.Subscriber
            (Logs (OpensSpan S.Subscriber worker.old.lane attrs.now)
            (AddsNewSpan S.Subscriber worker.old.lane attrs.now) result) }
        ensures unchanged { OnErr result (worker.new ≡ worker.old) }
    {
        let mut guard = self.lock.lock(rt);
        let Locked { logged, calls } = &mut *guard;
        logged.stands();
        let given = logged.new_span(worker.lane, attrs)?;
        worker.count(calls);
        Ok(given)
    }

    /// Notifies of an event as `Dispatch::event` does.
    #[inline(always)]
    pub fn event(
        &self,
        rt: &impl Wait,
        worker: &mut Worker<L>,
        event: &Event<'_>,
    ) -> Result<(bool, Receipt), TraceError>
        requires { worker.old.calls < 2 ^ 64 - 1 }
        ensures worker { OnOk result (worker.new ≡ called worker.old) }
        ensures logs { SomeLogged S.Subscriber
            (Logs (SendsEvent S.Subscriber worker.old.lane event.now)
            (AddsEntry (event_entry worker.old.lane event.now)) result) }
        ensures unchanged { OnErr result (worker.new ≡ worker.old) }
    {
        let mut guard = self.lock.lock(rt);
        let Locked { logged, calls } = &mut *guard;
        logged.stands();
        let given = logged.event(worker.lane, event)?;
        worker.count(calls);
        Ok(given)
    }

    /// Enters a span as `Dispatch::enter` does.
    #[inline(always)]
    pub fn enter(
        &self,
        rt: &impl Wait,
        worker: &mut Worker<L>,
        id: Id,
    ) -> Result<((), Receipt), TraceError>
        requires { worker.old.calls < 2 ^ 64 - 1 }
        ensures worker { OnOk result (worker.new ≡ called worker.old) }
        ensures logs { SomeLogged S.Subscriber
            (Logs (EntersSpan S.Subscriber worker.old.lane id)
            (AddsEntry (λ _. EntryWith.Enter worker.old.lane id)) result) }
        ensures unchanged { OnErr result (worker.new ≡ worker.old) }
    {
        let mut guard = self.lock.lock(rt);
        let Locked { logged, calls } = &mut *guard;
        logged.stands();
        let given = logged.enter(worker.lane, id)?;
        worker.count(calls);
        Ok(given)
    }

    /// Leaves a span as `Dispatch::exit` does.
    #[inline(always)]
    pub fn exit(
        &self,
        rt: &impl Wait,
        worker: &mut Worker<L>,
        id: Id,
    ) -> Result<((), Receipt), TraceError>
        requires { worker.old.calls < 2 ^ 64 - 1 }
        ensures worker { OnOk result (worker.new ≡ called worker.old) }
        ensures logs { SomeLogged S.Subscriber
            (Logs (NeverRefused (λ _. ExitsSpan S.Subscriber worker.old.lane id))
            (AddsEntry (λ _. EntryWith.Exit worker.old.lane id)) result) }
        ensures unchanged { OnErr result (worker.new ≡ worker.old) }
    {
        let mut guard = self.lock.lock(rt);
        let Locked { logged, calls } = &mut *guard;
        logged.stands();
        let given = logged.exit(worker.lane, id)?;
        worker.count(calls);
        Ok(given)
    }

    /// Notifies of values as `Dispatch::record` does.
    pub fn record(
        &self,
        rt: &impl Wait,
        worker: &mut Worker<L>,
        id: Id,
        values: &Record<'_>,
    ) -> Result<((), Receipt), TraceError>
        requires { worker.old.calls < 2 ^ 64 - 1 }
        ensures worker { OnOk result (worker.new ≡ called worker.old) }
        ensures logs { SomeLogged S.Subscriber
            (Logs (RecordsValues S.Subscriber worker.old.lane id values.now)
            (AddsEntry (λ _. EntryWith.Record worker.old.lane id)) result) }
        ensures unchanged { OnErr result (worker.new ≡ worker.old) }
    {
        let mut guard = self.lock.lock(rt);
        let Locked { logged, calls } = &mut *guard;
        logged.stands();
        let given = logged.record(worker.lane, id, values)?;
        worker.count(calls);
        Ok(given)
    }

    /// Notifies that a span follows from another as `Dispatch::follows_from` does.
    pub fn follows_from(
        &self,
        rt: &impl Wait,
        worker: &mut Worker<L>,
        id: Id,
        follows: Id,
    ) -> Result<((), Receipt), TraceError>
        requires { worker.old.calls < 2 ^ 64 - 1 }
        ensures worker { OnOk result (worker.new ≡ called worker.old) }
        ensures logs { SomeLogged S.Subscriber
            (Logs (FollowsSpan S.Subscriber worker.old.lane id follows)
            (AddsEntry (λ _. EntryWith.Follows worker.old.lane id follows)) result) }
        ensures unchanged { OnErr result (worker.new ≡ worker.old) }
    {
        let mut guard = self.lock.lock(rt);
        let Locked { logged, calls } = &mut *guard;
        logged.stands();
        let given = logged.follows_from(worker.lane, id, follows)?;
        worker.count(calls);
        Ok(given)
    }

    /// Adds a handle as `Dispatch::clone_span` does.
    pub fn clone_span(
        &self,
        rt: &impl Wait,
        worker: &mut Worker<L>,
        id: Id,
    ) -> Result<(Id, Receipt), TraceError>
        requires { worker.old.calls < 2 ^ 64 - 1 }
        ensures worker { OnOk result (worker.new ≡ called worker.old) }
        ensures same { IfOk result (λ r. r.0 ≡ id) }
        ensures logs { SomeLogged S.Subscriber
            (Logs (ClonesSpan S.Subscriber worker.old.lane id)
            (AddsEntry (λ _. EntryWith.Clone worker.old.lane id)) result) }
        ensures unchanged { OnErr result (worker.new ≡ worker.old) }
    {
        let mut guard = self.lock.lock(rt);
        let Locked { logged, calls } = &mut *guard;
        logged.stands();
        let given = logged.clone_span(worker.lane, id)?;
        worker.count(calls);
        Ok(given)
    }

    /// Takes a handle from a span as `Dispatch::drop_span` does.
    #[inline(always)]
    pub fn drop_span(
        &self,
        rt: &impl Wait,
        worker: &mut Worker<L>,
        id: Id,
    ) -> Result<(bool, Receipt), TraceError>
        requires { worker.old.calls < 2 ^ 64 - 1 }
        ensures worker { OnOk result (worker.new ≡ called worker.old) }
        ensures logs { SomeLogged S.Subscriber
            (Logs (DropsOneHandle S.Subscriber worker.old.lane id)
            (AddsEntry (EntryWith.Drop worker.old.lane id)) result) }
        ensures unchanged { OnErr result (worker.new ≡ worker.old) }
    {
        let mut guard = self.lock.lock(rt);
        let Locked { logged, calls } = &mut *guard;
        logged.stands();
        let given = logged.drop_span(worker.lane, id)?;
        worker.count(calls);
        Ok(given)
    }

    /// Reloads a filter as `Dispatch::reload` does. What `passes_hint` answers is unchanged.
    pub fn reload(
        &self,
        rt: &impl Wait,
        worker: &mut Worker<L>,
        number: u32,
        setting: Setting,
    ) -> Result<((), Receipt), TraceError>
        requires { worker.old.calls < 2 ^ 64 - 1 }
        ensures worker { OnOk result (worker.new ≡ called worker.old) }
        ensures logs { SomeLogged S.Subscriber
            (Logs (ReloadsFilter S.Subscriber number setting)
            (AddsEntry (λ _. EntryWith.Reload worker.old.lane number (level_in setting))) result) }
        ensures unchanged { OnErr result (worker.new ≡ worker.old) }
    {
        let mut guard = self.lock.lock(rt);
        let Locked { logged, calls } = &mut *guard;
        logged.stands();
        let given = logged.reload(worker.lane, number, setting)?;
        worker.count(calls);
        Ok(given)
    }

    /// The span that the lane is in, as `Dispatch::current_span` shows it.
    pub fn current_span(
        &self,
        rt: &impl Wait,
        worker: &mut Worker<L>,
    ) -> Result<(Current, Receipt), TraceError>
        requires { worker.old.calls < 2 ^ 64 - 1 }
        ensures worker { OnOk result (worker.new ≡ called worker.old) }
        ensures logs { SomeLogged S.Subscriber
            (Logs (NeverRefused (ShowsSpan S.Subscriber worker.old.lane))
            (AddsEntry (current_entry worker.old.lane)) result) }
        ensures unchanged { OnErr result (worker.new ≡ worker.old) }
    {
        let mut guard = self.lock.lock(rt);
        let Locked { logged, calls } = &mut *guard;
        logged.stands();
        let given = logged.current_span(worker.lane)?;
        worker.count(calls);
        Ok(given)
    }

    /// Serves a call from the worker's lane, whichever lane the call names, as the method of its
    /// kind does.
    ///
    /// Own to this port.
    pub fn ask(
        &self,
        rt: &impl Wait,
        worker: &mut Worker<L>,
        call: &Call<'_>,
    ) -> Result<(Answer, Receipt), TraceError>
        requires { worker.old.calls < 2 ^ 64 - 1 }
        ensures worker { OnOk result (worker.new ≡ called worker.old) }
        ensures logs { SomeLogged S.Subscriber
            (LogsCall S.Subscriber worker.old.lane call.now result) }
        ensures calls { worker.new.calls ≤ worker.old.calls + 1 }
        ensures unchanged { OnErr result (worker.new ≡ worker.old) }
    {
        let mut guard = self.lock.lock(rt);
        let Locked { logged, calls } = &mut *guard;
        logged.stands();
        let given = logged.ask(worker.lane, call)?;
        worker.count(calls);
        Ok(given)
    }

    /// How long the journal is now.
    pub fn len(&self, rt: &impl Wait) -> u64
        ensures { SomeJournal S.Subscriber (λ journal. result ≡ length journal) }
    {
        let guard = self.lock.lock(rt);
        let logged = &guard.logged;
        logged.stands();
        logged.journal().len()
    }

    /// The entry that stands at a place now.
    pub fn entry(&self, rt: &impl Wait, place: u64) -> Option<Entry>
        ensures { SomeJournal S.Subscriber (λ journal. result ≡ slice_get journal place) }
    {
        let guard = self.lock.lock(rt);
        let logged = &guard.logged;
        logged.stands();
        logged.journal().get(place)
    }

    /// Gives the dispatcher and the journal, where all workers are there; else all that was given.
    pub fn finish(self, workers: Vec<Worker<L>>) -> Result<(Dispatch<S>, Journal), Unfinished<S, L>>
        ensures complete { IsOk result ↔ (vec_len workers ≡ L.workers) }
        ensures sum { IfOk result (λ r. length r.1 ≡ calls_of workers.items) }
        ensures usable { IfOk result (λ r. S.usable (stack_of r.0)) }
        ensures leaves { IfOk result (λ r. Leaves r.1 (S.registry (stack_of r.0)).store) }
        ensures settled { IfOk result (λ r. HasNoClosing (S.registry (stack_of r.0)).store.spans) }
        ensures back { IfErr result (λ u. (u.shared ≡ self) × (u.workers ≡ workers)) }
    {
        if workers.len() != self.workers as usize {
            return Err(Unfinished {
                shared: self,
                workers,
            });
        }
        let Some(mut all) = merged(workers) else {
            unreachable!()
        };
        let Shared {
            lock,
            workers,
            whole,
        } = self;
        let Locked { logged, mut calls } = lock.into_inner();
        calls.audit(&mut all);
        Ok(logged.into_parts())
    }
}
