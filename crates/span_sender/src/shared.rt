//! What the end that hands over spans and the thread that posts them share: a gate, a bell, counts.
use crate::batches::Counts;
use std::sync::Wait;
use std::sync::atomic::{AtomicU64, Ordering};
use std::thread::{self, Parker};
use std::time::Duration;

const OPEN: u64 = 0;

const ENTERED: u64 = 1;

const CLOSED: u64 = 2;

/// A gate that a sender enters to hand over a span and then leaves, and that is closed once, with
/// nobody inside: what was handed over by then is all that ever is.
#[derive(Drop)]
pub(crate) struct Shared {
    gate: AtomicU64,
    bell: Parker,
    missed: AtomicU64,
    accepted: AtomicU64,
    refused: AtomicU64,
    dropped: AtomicU64,
}

impl Shared {
    pub(crate) fn new() -> Shared {
        Shared {
            gate: AtomicU64::new(OPEN),
            bell: Parker::new(),
            missed: AtomicU64::new(0),
            accepted: AtomicU64::new(0),
            refused: AtomicU64::new(0),
            dropped: AtomicU64::new(0),
        }
    }

    /// Enters the gate, unless it is closed.
    pub(crate) fn enter(&self) -> bool {
        self.pass(OPEN, ENTERED)
    }

    /// Leaves the gate, and calls the thread.
    pub(crate) fn leave(&self) {
        self.pass(ENTERED, OPEN);
        self.bell.unpark();
    }

    /// Closes the gate once nobody is inside, and calls the thread.
    pub(crate) fn close<R: Wait>(&self, rt: &R) {
        for _ in rt.forever() {
            if self.pass(OPEN, CLOSED) || self.is_closed() {
                break;
            }
            thread::yield_now();
        }
        self.bell.unpark();
    }

    pub(crate) fn is_closed(&self) -> bool {
        self.gate.load(Ordering::SeqCst) == CLOSED
    }

    /// Waits until the thread is called.
    pub(crate) fn wait<R: Wait>(&self, rt: &R) {
        self.bell.park(rt);
    }

    /// Waits until the thread is called, or for so many nanoseconds.
    pub(crate) fn wait_for<R: Wait>(&self, rt: &R, nanos: u64) {
        self.bell.park_timeout(rt, Duration::from_nanos(nanos));
    }

    fn pass(&self, from: u64, to: u64) -> bool {
        self.gate
            .compare_exchange(from, to, Ordering::SeqCst, Ordering::SeqCst)
            .is_ok()
    }

    /// Tells how many spans found the queue full.
    pub(crate) fn set_missed(&self, spans: u64) {
        self.missed.store(spans, Ordering::SeqCst);
    }

    /// Tells what became of the spans that the thread took.
    pub(crate) fn set_counts(&self, counts: Counts) {
        self.accepted.store(counts.accepted, Ordering::SeqCst);
        self.refused.store(counts.refused, Ordering::SeqCst);
        self.dropped.store(counts.dropped, Ordering::SeqCst);
    }

    pub(crate) fn accepted(&self) -> u64 {
        self.accepted.load(Ordering::SeqCst)
    }

    pub(crate) fn refused(&self) -> u64 {
        self.refused.load(Ordering::SeqCst)
    }

    pub(crate) fn dropped(&self) -> u64 {
        let missed = self.missed.load(Ordering::SeqCst);
        missed.saturating_add(self.dropped.load(Ordering::SeqCst))
    }
}
