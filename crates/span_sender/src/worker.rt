//! The thread that posts spans.
ghost use Rattle.std.specs.Prelude.{◌≡◌, []};
ghost use Rattle.rtrb.specs.Ring.{IsPair, received, sent};
ghost use Rattle.span_sender.specs.Batches.{counts_of, held_by};
ghost use Rattle.span_sender.specs.Worker.{HasSent};
ghost use Rattle.span_sender.specs.declared.worker.Worker.{Worker};

use crate::batches::{Action, Batches, Counts};
use crate::poster::Poster;
use crate::send::{serve, time_of};
use crate::shared::Shared;
use rtrb::{Consumer, Producer};
use std::alloc::Global;
use std::snapshot::Snapshot;
use std::sync::Wait;
use std::thread::Promise;
use std::time::Clock;

/// What the thread has: its end of the queue, the batches, who posts them, and a clock.
pub struct Worker<P, C> {
    pub(crate) queue: Consumer<String>,
    pub(crate) batches: Batches,
    pub(crate) poster: P,
    pub(crate) clock: C,
    pub(crate) alloc: Global,
    pub(crate) timeout: u64,
}

impl<P: Drop, C: Drop> Drop for Worker<P, C> {
    fn drop(self) {
        let Worker {
            queue,
            batches,
            poster,
            clock,
            alloc: _,
            timeout: _,
        } = self;
    }
}

impl<P: Poster, C: Clock> Worker<P, C> {
    /// Takes the next span, if one waits and there is room for it.
    fn take_next(&mut self) -> bool
        ensures { (first : Worker P C) → HasSent P.posted first self.old
            → HasSent P.posted first self.new }
    {
        if !self.batches.has_room() {
            return false;
        }
        let Ok(span) = self.queue.pop() else {
            return false;
        };
        self.batches.push(span);
        true
    }

    /// Takes the spans that wait, as far as there is room.
    fn take_waiting(&mut self)
        ensures { (first : Worker P C) → HasSent P.posted first self.old
            → HasSent P.posted first self.new }
    {
        for _ in 0..u64::MAX {
            if !self.take_next() {
                break;
            }
        }
    }

    /// Posts the batch that is due, if one is.
    fn serve(&mut self, now: u64) -> Action
        ensures { (first : Worker P C) → HasSent P.posted first self.old
            → HasSent P.posted first self.new }
    {
        serve(
            self.alloc,
            &mut self.batches,
            &mut self.poster,
            &self.clock,
            now,
        )
    }

    /// Takes what waits, and once no more comes has it go at once.
    fn prepare(&mut self, closed: bool)
        ensures { (first : Worker P C) → HasSent P.posted first self.old
            → HasSent P.posted first self.new }
    {
        self.take_waiting();
        if closed {
            self.batches.flush();
        }
    }

    /// Posts what is due, and waits. Says whether to go on: not if no more comes and nothing is
    /// left or the time is over.
    fn go_on<R: Wait>(&mut self, rt: &R, shared: &Shared, times: &mut Times) -> bool
        ensures { (first : Worker P C) → HasSent P.posted first self.old
            → HasSent P.posted first self.new }
    {
        let closed = shared.is_closed();
        times.read(&self.clock, closed, self.timeout);
        if times.is_over() {
            return false;
        }
        self.prepare(closed);
        let action = self.serve(times.now);
        shared.set_counts(self.batches.counts());
        times.wait(rt, shared, action, closed)
    }

    /// Posts what comes, until the gate is closed and nothing is left or the time is over.
    pub(crate) fn run<R: Wait>(self, rt: &R, shared: &Shared) -> Worker<P, C>
        ensures { (first : Worker P C) → HasSent P.posted first self
            → HasSent P.posted first result }
    {
        let mut worker = self;
        let mut times = Times {
            now: 0,
            end: u64::MAX,
        };
        for _ in rt.forever() {
            if !worker.go_on(rt, shared, &mut times) {
                break;
            }
        }
        worker
    }

    /// Gives up what is left, once the other end of the queue is at hand.
    pub(crate) fn give_up(&mut self, queue: &mut Producer<String>)
        requires { IsPair queue.old self.old.queue }
        ensures all { received self.new.queue ≡ sent queue.old }
        ensures kept { (first : Worker P C) → HasSent P.posted first self.old
            → HasSent P.posted first self.new }
        ensures empty { held_by self.new.batches ≡ [] }
    {
        let left = self.queue.slots_beside(queue);
        self.batches.give_up();
        for _ in 0..left {
            let span = self.queue.pop_known();
            self.batches.give_up_one(span);
        }
    }

    /// Gives up what is left, and tells the counts; nothing comes any more.
    pub(crate) fn give_up_rest(&mut self, shared: &Shared) {
        self.batches.give_up();
        for _ in 0..u64::MAX {
            let Ok(span) = self.queue.pop() else {
                break;
            };
            self.batches.give_up_one(span);
        }
        shared.set_counts(self.batches.counts());
    }

    /// The poster, and what became of the spans.
    pub(crate) fn into_parts(self) -> (P, Counts)
    where
        C: Drop,
        ensures poster { result.0 ≡ self.poster }
        ensures counts { result.1 ≡ counts_of self.batches }
    {
        let counts = self.batches.counts();
        let Worker {
            queue,
            batches,
            poster,
            clock,
            alloc: _,
            timeout: _,
        } = self;
        (poster, counts)
    }
}

/// The time, and when the thread gives up.
#[derive(Drop)]
struct Times {
    now: u64,
    end: u64,
}

impl Times {
    /// Reads the clock; the end is set when the gate is first seen closed.
    fn read<C: Clock>(&mut self, clock: &C, closed: bool, timeout: u64) {
        self.now = time_of(clock, self.now);
        if closed {
            self.end = self.end.min(self.now.saturating_add(timeout));
        }
    }

    fn is_over(&self) -> bool {
        self.now >= self.end
    }

    /// Waits as long as there is nothing to be done. Says whether anything may come.
    fn wait<R: Wait>(&self, rt: &R, shared: &Shared, action: Action, closed: bool) -> bool {
        match action {
            Action::Post => true,
            Action::Until(time) => {
                shared.wait_for(rt, time.min(self.end).saturating_sub(self.now));
                true
            }
            Action::Idle => {
                if !closed {
                    shared.wait(rt);
                }
                !closed
            }
        }
    }
}

/// That a thread has sent what it took.
pub struct Kept<P, C>(pub(crate) Snapshot<Worker<P, C>>);

impl<P, C> Drop for Kept<P, C> {
    fn drop(self) {
        let Kept(_) = self;
    }
}

impl<P: Poster, C: Clock> Promise<Worker<P, C>> for Kept<P, C> {
    ghost kept_by = { λ kept worker. HasSent P.posted kept.0.value worker };
}
