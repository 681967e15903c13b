//! A dispatcher that threads share, and of whose calls no journal is kept.
ghost use Rattle.std.specs.Prelude.{◌≡◌, IfOk};
ghost use Rattle.span_dispatch.specs.Serve.{stack_of};
ghost use Rattle.span_store.specs.Store.{IsFresh};
ghost use Rattle.span_tracer.specs.Receiver.{HasCounted, Journalled};
ghost use Rattle.span_tracer.specs.Tracer.{HasHint, alloc_of, tracer_hint, tracer_lane};

use crate::served::Served;
use crate::tracer::Tracer;
use span_core::{Lane, Metadata};
use span_dispatch::Dispatch;
use span_registry::Subscriber;
use std::alloc::Global;
use std::sync::atomic::{AtomicU64, Ordering};
use std::sync::{Mutex, MutexGuard, Wait};
use thiserror::Error;

/// How many callsites a receiver remembers as wanted. A callsite takes the place of its number's
/// remainder.
const WANTED: u64 = 64;

/// All lanes were handed out.
#[derive(Clone, Copy, Debug, PartialEq, Eq, Error)]
#[error("all lanes are handed out")]
pub struct LanesExhausted;

/// A dispatcher that threads share behind a lock. No journal of its calls is kept, but there is
/// one: between calls its store is, extensions aside, what a journal leaves that one thread could
/// have made, with an entry for each call that was accepted.
///
/// Own to this port: in the crate a dispatcher is shared by what it is made of.
pub struct Receiver<S: Subscriber> {
    lock: Mutex<Served<S>>,
    wanted: Vec<AtomicU64>,
    lanes: AtomicU64,
    alloc: Global,
}

impl<S: Subscriber + Drop> Drop for Receiver<S> {
    fn drop(self) {
        let Receiver {
            lock,
            wanted,
            lanes,
            alloc,
        } = self;
    }
}

impl<S: Subscriber> Receiver<S> {
    /// A receiver over a dispatcher whose registry is fresh. It served no call yet, and handed out
    /// no lane.
    pub fn new(alloc: Global, dispatch: Dispatch<S>) -> Receiver<S>
        requires usable { S.usable (stack_of dispatch) }
        requires fresh { IsFresh (S.registry (stack_of dispatch)) }
        ensures { alloc_of result ≡ alloc }
    {
        let mut wanted = Vec::new(alloc);
        for place in 0..WANTED {
            // No callsite with that number takes this place.
            if wanted.push(AtomicU64::new(place + 1)).is_err() {
                break;
            }
        }
        Receiver {
            lock: Mutex::new(Served::new(dispatch)),
            wanted,
            lanes: AtomicU64::new(0),
            alloc,
        }
    }

    /// A tracer on a lane that no other call of this has handed out: 0, 1, and so on.
    pub fn tracer<'a, R: Wait>(&'a self, rt: &'a R) -> Result<Tracer<'a, R, S>, LanesExhausted>
        ensures hint { IfOk result (λ t. HasHint S.Subscriber (tracer_hint t)) }
    {
        let number = self.lanes.fetch_add(1, Ordering::SeqCst);
        match u32::try_from(number) {
            Ok(lane) => Ok(self.tracer_on(rt, Lane(lane))),
            Err(_) => Err(LanesExhausted),
        }
    }

    /// A tracer on this lane, with the hint that the dispatcher has now.
    pub fn tracer_on<'a, R: Wait>(&'a self, rt: &'a R, lane: Lane) -> Tracer<'a, R, S>
        ensures lane { tracer_lane result ≡ lane }
        ensures hint { HasHint S.Subscriber (tracer_hint result) }
    {
        let hint = self.lock.lock(rt).hint();
        Tracer {
            rt,
            receiver: self,
            lane,
            hint,
        }
    }

    /// How many calls were accepted until now.
    pub fn calls(&self, rt: &impl Wait) -> u64
        ensures { HasCounted S.Subscriber result }
    {
        self.lock.lock(rt).calls()
    }

    /// The dispatcher, and how many calls were accepted: there is a journal with so many entries
    /// that one thread could have made, and that leaves the dispatcher's store, extensions aside.
    pub fn into_parts(self) -> (Dispatch<S>, u64)
        ensures { Journalled S.registry S.usable result.0 result.1 }
    {
        let Receiver {
            lock,
            wanted: _,
            lanes: _,
            alloc: _,
        } = self;
        lock.into_inner().into_parts()
    }

    /// The memory that texts of values are taken from.
    pub(crate) fn alloc(&self) -> Global
        ensures { result ≡ alloc_of self.now }
    {
        self.alloc
    }

    /// What stands behind the lock.
    #[inline(always)]
    pub(crate) fn served<'a>(&'a self, rt: &impl Wait) -> MutexGuard<'a, Served<S>> {
        match self.lock.try_lock() {
            Some(served) => served,
            None => self.served_later(rt),
        }
    }

    /// What stands behind the lock, once another lets it go.
    #[inline(never)]
    fn served_later<'a>(&'a self, rt: &impl Wait) -> MutexGuard<'a, Served<S>> {
        self.lock.lock(rt)
    }

    /// Whether the callsite was wanted when it was last asked, as far as that is remembered.
    #[inline(always)]
    pub(crate) fn remembers(&self, meta: &Metadata) -> bool {
        let number = meta.callsite();
        match self.wanted.get((number % WANTED) as usize) {
            Some(place) => place.load(Ordering::SeqCst) == number,
            None => false,
        }
    }

    /// Remembers whether the callsite with this number is wanted.
    #[inline(never)]
    pub(crate) fn remember(&self, number: u64, wanted: bool) {
        if let Some(place) = self.wanted.get((number % WANTED) as usize) {
            place.store(if wanted { number } else { !number }, Ordering::SeqCst);
        }
    }
}
