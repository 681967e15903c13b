//! A thread that writes lines, and its guard.
ghost use Rattle.std.specs.Prelude.{◌≡◌, [], IfOk};
ghost use Rattle.std.specs.Io.KnownBytes.{Appends};
ghost use Rattle.span_appender.specs.Guard.{IsGuardOf, first_writer};
ghost use Rattle.span_appender.specs.Queue.{accepted, begun, dropped_by, handed};
ghost use Rattle.span_appender.specs.Worker.{HasWritten};

use crate::non_blocking::NonBlocking;
use crate::shared::Shared;
use crate::worker::{Kept, Worker};
use rtrb::RingBuffer;
use std::alloc::Global;
use std::io::{self, Write};
use std::snapshot::Snapshot;
use std::sync::{Arc, Wait};
use std::thread::{self, PromisedHandle, Threads};

/// The limit that `tracing_appender` has where none is set, to be given to `NonBlocking::new`.
pub const DEFAULT_LIMIT: usize = 128_000;

/// The guard of the thread that writes lines. The thread ends with it, once all lines that were
/// accepted are written; what a `NonBlocking` is given afterwards is dropped and counted.
pub struct WorkerGuard<W: Write, R: Threads + Wait> {
    rt: R,
    shared: Arc<Shared, Global>,
    thread: PromisedHandle<Worker<W>, Kept<W>>,
}

impl<W: Write + Drop, R: Threads + Wait + Drop> Drop for WorkerGuard<W, R> {
    fn drop(self) {
        let WorkerGuard { rt, shared, thread } = self;
        shared.close(&rt);
        drop(thread.join(&rt));
    }
}

/// What is left once the thread has ended.
#[derive(Drop)]
pub struct Finished<W> {
    /// The writer.
    pub writer: W,
    /// How many lines were dropped.
    pub dropped: u64,
    /// How many calls of the writer failed: each one for a line, or for a flush.
    pub lost: u64,
}

impl NonBlocking {
    /// Starts a thread that writes lines to a writer, and gives the end at which they are handed
    /// over.
    ///
    /// So many lines wait for the thread at most.
    pub fn new<W, R>(
        rt: R,
        alloc: Global,
        writer: W,
        limit: usize,
    ) -> io::Result<(NonBlocking, WorkerGuard<W, R>)>
    where
        W: Write + Send + Drop + 'static,
        R: Threads + Wait + Copy + Send + 'static,
        ensures guard { IfOk result (λ made. IsGuardOf made.1 made.0) }
        ensures writer { IfOk result (λ made. first_writer made.1 ≡ writer) }
        ensures accepted { IfOk result (λ made. accepted made.0 ≡ []) }
        ensures begun { IfOk result (λ made. begun made.0 ≡ []) }
        ensures dropped { IfOk result (λ made. dropped_by made.0 ≡ 0) }
    {
        let (queue, lines) = RingBuffer::new(alloc, limit)?;
        let shared = Arc::new(alloc, Shared::new())?;
        let (ours, theirs) = (Arc::try_clone(&shared)?, Arc::try_clone(&shared)?);
        let worker = Worker {
            queue: lines,
            writer,
            lost: 0,
        };
        let kept = Kept(Snapshot::of(&worker));
        let thread = thread::spawn_with(
            &rt,
            kept,
            move || -> Worker<W>
                requires { HasWritten W.contents worker worker }
                ensures { HasWritten W.contents worker result }
            { worker.run(&rt, &theirs) },
        )?;
        let lines = NonBlocking {
            alloc,
            queue,
            begun: Vec::new(alloc),
            dropped: 0,
            shared: ours,
        };
        Ok((lines, WorkerGuard { rt, shared, thread }))
    }
}

impl<W: Write, R: Threads + Wait> WorkerGuard<W, R> {
    /// How many lines were dropped. No clause speaks of what a thread has counted so far.
    pub fn dropped(&self) -> u64 {
        self.shared.dropped()
    }

    /// How many calls of the writer failed. No clause speaks of what a thread has counted so far.
    pub fn lost(&self) -> u64 {
        self.shared.lost()
    }

    /// Ends the thread, and writes what is begun. If no call failed, all is then written, in order.
    pub fn finish(self, lines: &mut NonBlocking) -> Finished<W>
    where
        R: Drop,
        requires { IsGuardOf self lines.old }
        ensures written { result.lost ≡ 0 → Appends (W.contents (first_writer self))
            (W.contents result.writer) (handed lines.old) }
        ensures dropped { result.dropped ≡ dropped_by lines.old }
    {
        let WorkerGuard { rt, shared, thread } = self;
        shared.close(&rt);
        let mut worker = thread.join(&rt);
        worker.write_rest(lines, &shared);
        let (writer, lost) = worker.into_parts();
        Finished {
            writer,
            dropped: lines.dropped,
            lost,
        }
    }
}
