//! What a writer of lines and the thread that writes them share: a gate, two bells and two counts.
use std::sync::Wait;
use std::sync::atomic::{AtomicU64, Ordering};
use std::thread::{self, Parker};

const OPEN: u64 = 0;

const ENTERED: u64 = 1;

const CLOSED: u64 = 2;

/// A gate that one writer enters to hand over a line and then leaves, and that is closed once, with
/// nobody inside: what was handed over by then is all that ever is.
#[derive(Drop)]
pub(crate) struct Shared {
    gate: AtomicU64,
    bell: Parker,
    room: Parker,
    dropped: AtomicU64,
    lost: AtomicU64,
}

impl Shared {
    pub(crate) fn new() -> Shared {
        Shared {
            gate: AtomicU64::new(OPEN),
            bell: Parker::new(),
            room: Parker::new(),
            dropped: AtomicU64::new(0),
            lost: AtomicU64::new(0),
        }
    }

    /// Enters the gate, unless it is closed.
    pub(crate) fn enter(&self) -> bool {
        self.pass(OPEN, ENTERED)
    }

    /// Leaves the gate, and calls the thread.
    pub(crate) fn leave(&self) {
        self.pass(ENTERED, OPEN);
        self.bell.unpark();
    }

    /// Closes the gate once nobody is inside, and calls the thread.
    pub(crate) fn close<R: Wait>(&self, rt: &R) {
        for _ in rt.forever() {
            if self.pass(OPEN, CLOSED) || self.is_closed() {
                break;
            }
            thread::yield_now();
        }
        self.bell.unpark();
    }

    pub(crate) fn is_closed(&self) -> bool {
        self.gate.load(Ordering::SeqCst) == CLOSED
    }

    /// Waits until the thread is called.
    pub(crate) fn wait<R: Wait>(&self, rt: &R) {
        self.bell.park(rt);
    }

    /// Says that a line was taken from the queue.
    pub(crate) fn make_room(&self) {
        self.room.unpark();
    }

    /// Waits until a line is taken from the queue.
    pub(crate) fn wait_for_room<R: Wait>(&self, rt: &R) {
        self.room.park(rt);
    }

    fn pass(&self, from: u64, to: u64) -> bool {
        self.gate
            .compare_exchange(from, to, Ordering::SeqCst, Ordering::SeqCst)
            .is_ok()
    }

    pub(crate) fn set_dropped(&self, lines: u64) {
        self.dropped.store(lines, Ordering::SeqCst);
    }

    pub(crate) fn dropped(&self) -> u64 {
        self.dropped.load(Ordering::SeqCst)
    }

    pub(crate) fn set_lost(&self, calls: u64) {
        self.lost.store(calls, Ordering::SeqCst);
    }

    pub(crate) fn lost(&self) -> u64 {
        self.lost.load(Ordering::SeqCst)
    }
}
