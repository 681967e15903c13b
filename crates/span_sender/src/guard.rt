//! A thread that posts spans, and its guard.
ghost use Rattle.std.specs.Prelude.{◌≡◌, [], IfOk};
ghost use Rattle.span_sender.specs.Guard.{IsGuardOf, SendsAll, first_batches, first_poster};
ghost use Rattle.span_sender.specs.Config.{one_batch};
ghost use Rattle.span_sender.specs.Batches.{IsNew};
ghost use Rattle.span_sender.specs.Sender.{handed_by, missed_by};
ghost use Rattle.span_sender.specs.Worker.{HasSent};

use crate::batches::{Batches, Counts};
use crate::config::BatchConfig;
use crate::poster::Poster;
use crate::sender::Sender;
use crate::shared::Shared;
use crate::worker::{Kept, Worker};
use rtrb::RingBuffer;
use std::alloc::Global;
use std::io;
use std::snapshot::Snapshot;
use std::sync::{Arc, Wait};
use std::thread::{self, PromisedHandle, Threads};
use std::time::Clock;

/// The guard of the thread that posts spans. The thread ends with it: what was handed over by then
/// is posted until the guard's time is over, and what is left then is dropped and counted.
pub struct SenderGuard<P: Poster, C: Clock, R: Threads + Wait> {
    rt: R,
    shared: Arc<Shared, Global>,
    thread: PromisedHandle<Worker<P, C>, Kept<P, C>>,
}

impl<P: Poster + Drop, C: Clock + Drop, R: Threads + Wait + Drop> Drop for SenderGuard<P, C, R> {
    fn drop(self) {
        let SenderGuard { rt, shared, thread } = self;
        shared.close(&rt);
        let mut worker = thread.join(&rt);
        worker.give_up_rest(&shared);
        drop(worker);
    }
}

/// What is left once the thread has ended.
#[derive(Drop)]
pub struct Finished<P> {
    /// Who posted.
    pub poster: P,
    /// What became of the spans that were handed over.
    pub counts: Counts,
    /// How many spans were dropped as they were to be handed over.
    pub missed: u64,
}

impl Sender {
    /// Starts a thread that posts spans, and gives the end at which they are handed over.
    ///
    /// Beside the spans that wait, as many as `config` says, the thread holds one batch. It ends
    /// so many nanoseconds after its guard at the latest, but waits for an answer.
    pub fn new<P, C, R>(
        rt: R,
        alloc: Global,
        poster: P,
        clock: C,
        config: BatchConfig,
        timeout: u64,
    ) -> io::Result<(Sender, SenderGuard<P, C, R>)>
    where
        P: Poster + Send + Drop + 'static,
        C: Clock + Send + Drop + 'static,
        R: Threads + Wait + Copy + Send + 'static,
        ensures guard { IfOk result (λ made. IsGuardOf made.1 made.0) }
        ensures poster { IfOk result (λ made. first_poster made.1 ≡ poster) }
        ensures new { IfOk result (λ made. IsNew (one_batch config) (first_batches made.1)) }
        ensures handed { IfOk result (λ made. handed_by made.0 ≡ []) }
        ensures missed { IfOk result (λ made. missed_by made.0 ≡ 0) }
    {
        let (queue, spans) = RingBuffer::new(alloc, config.max_queue_size)?;
        let shared = Arc::new(alloc, Shared::new())?;
        let (ours, theirs) = (Arc::try_clone(&shared)?, Arc::try_clone(&shared)?);
        let worker = Worker {
            queue: spans,
            batches: Batches::new(alloc, config.one_batch())?,
            poster,
            clock,
            alloc,
            timeout,
        };
        let kept = Kept(Snapshot::of(&worker));
        let thread = thread::spawn_with(
            &rt,
            kept,
            move || -> Worker<P, C>
                requires { HasSent P.posted worker worker }
                ensures { HasSent P.posted worker result }
            { worker.run(&rt, &theirs) },
        )?;
        let sender = Sender {
            queue,
            missed: 0,
            shared: ours,
        };
        Ok((sender, SenderGuard { rt, shared, thread }))
    }
}

impl<P: Poster, C: Clock, R: Threads + Wait> SenderGuard<P, C, R> {
    /// How many spans the collector has. No clause speaks of what a thread has counted so far.
    pub fn accepted(&self) -> u64 {
        self.shared.accepted()
    }

    /// How many spans were refused. No clause speaks of what a thread has counted so far.
    pub fn refused(&self) -> u64 {
        self.shared.refused()
    }

    /// How many spans were dropped, also where they were to be handed over. No clause speaks of
    /// what a thread has counted so far.
    pub fn dropped(&self) -> u64 {
        self.shared.dropped()
    }

    /// Ends the thread, once all that was handed over is posted or its time is over: then what is
    /// left is dropped and counted.
    pub fn finish(self, sender: &mut Sender) -> Finished<P>
    where
        C: Drop,
        R: Drop,
        requires { IsGuardOf self sender.old }
        ensures all { SendsAll (first_batches self) (P.posted (first_poster self))
            (P.posted result.poster) (handed_by sender.old) result.counts }
        ensures missed { result.missed ≡ missed_by sender.old }
    {
        let SenderGuard { rt, shared, thread } = self;
        shared.close(&rt);
        let mut worker = thread.join(&rt);
        worker.give_up(&mut sender.queue);
        let (poster, counts) = worker.into_parts();
        shared.set_counts(counts);
        Finished {
            poster,
            counts,
            missed: sender.missed,
        }
    }
}
