//! The thread that writes the lines.
ghost use Rattle.std.specs.Prelude.{◌≡◌, ◌<◌, []};
ghost use Rattle.rtrb.specs.Ring.{IsPair, received, sent};
ghost use Rattle.std.specs.Io.KnownBytes.{Appends};
ghost use Rattle.span_appender.specs.Queue.{handed};
ghost use Rattle.span_appender.specs.Worker.{HasWritten, Wrote};
ghost use Rattle.span_appender.specs.declared.worker.Worker.{Worker};

use crate::non_blocking::NonBlocking;
use crate::shared::Shared;
use rtrb::{Consumer, Producer};
use std::io::Write;
use std::mem;
use std::snapshot::Snapshot;
use std::sync::Wait;
use std::thread::Promise;

/// What the thread has: its end of the queue, the writer that it owns, and how many calls of that
/// failed.
pub struct Worker<W> {
    pub(crate) queue: Consumer<Vec<u8>>,
    pub(crate) writer: W,
    pub(crate) lost: u64,
}

impl<W: Drop> Drop for Worker<W> {
    fn drop(self) {
        let Worker {
            queue,
            writer,
            lost: _,
        } = self;
    }
}

impl<W: Write> Worker<W> {
    /// Writes a line that was taken from the queue.
    pub(crate) fn write_line(&mut self, line: &[u8], shared: &Shared)
        ensures { Wrote W.contents self.old self.new line.now }
    {
        if self.writer.write_all(line).is_err() {
            self.lose(shared);
        }
    }

    /// Flushes the writer.
    fn flush(&mut self, shared: &Shared)
        ensures { Wrote W.contents self.old self.new [] }
    {
        if self.writer.flush().is_err() {
            self.lose(shared);
        }
    }

    fn lose(&mut self, shared: &Shared)
        ensures queue { self.new.queue ≡ self.old.queue }
        ensures writer { self.new.writer ≡ self.old.writer }
        ensures lost { 0 < self.new.lost }
    {
        self.lost = self.lost.saturating_add(1);
        shared.set_lost(self.lost);
    }

    /// Writes the next line, if one is in the queue.
    fn write_next(&mut self, shared: &Shared) -> bool
        ensures { (first : Worker W) → HasWritten W.contents first self.old
            → HasWritten W.contents first self.new }
    {
        let Ok(line) = self.queue.pop() else {
            return false;
        };
        shared.make_room();
        self.write_line(&line, shared);
        true
    }

    /// Writes the lines that are in the queue, and flushes the writer.
    fn write_waiting(&mut self, shared: &Shared)
        ensures { (first : Worker W) → HasWritten W.contents first self.old
            → HasWritten W.contents first self.new }
    {
        for _ in 0..u64::MAX {
            if !self.write_next(shared) {
                break;
            }
        }
        self.flush(shared);
    }

    /// Writes lines until the gate is closed and no line is left.
    pub(crate) fn run<R: Wait>(self, rt: &R, shared: &Shared) -> Worker<W>
        ensures { (first : Worker W) → HasWritten W.contents first self
            → HasWritten W.contents first result }
    {
        let mut worker = self;
        for _ in rt.forever() {
            let closed = shared.is_closed();
            worker.write_waiting(shared);
            if closed {
                break;
            }
            shared.wait(rt);
        }
        worker
    }

    /// Writes what is left in the queue, once its other end is at hand.
    fn write_known(&mut self, queue: &mut Producer<Vec<u8>>, shared: &Shared)
        requires { IsPair queue.old self.old.queue }
        ensures all { received self.new.queue ≡ sent queue.old }
        ensures kept { (first : Worker W) → HasWritten W.contents first self.old
            → HasWritten W.contents first self.new }
    {
        let left = self.queue.slots_beside(queue);
        for _ in 0..left {
            let line = self.queue.pop_known();
            self.write_line(&line, shared);
        }
    }

    /// Writes what is left in the queue and the line that is begun, and flushes the writer.
    pub(crate) fn write_rest(&mut self, lines: &mut NonBlocking, shared: &Shared)
        requires { IsPair lines.old.queue self.old.queue }
        ensures written { (first : Worker W) → HasWritten W.contents first self.old
            → self.new.lost ≡ 0
            → Appends (W.contents first.writer) (W.contents self.new.writer) (handed lines.old) }
        ensures dropped { lines.new.dropped ≡ lines.old.dropped }
    {
        self.write_known(&mut lines.queue, shared);
        let begun = mem::replace(&mut lines.begun, Vec::new(lines.alloc));
        self.write_line(&begun, shared);
        self.flush(shared);
    }

    /// The writer, and how many calls of it failed.
    pub(crate) fn into_parts(self) -> (W, u64)
        ensures writer { result.0 ≡ self.writer }
        ensures lost { result.1 ≡ self.lost }
    {
        let Worker {
            queue,
            writer,
            lost,
        } = self;
        (writer, lost)
    }
}

/// That a thread has written all lines that it took, if it lost none.
pub struct Kept<W>(pub(crate) Snapshot<Worker<W>>);

impl<W> Drop for Kept<W> {
    fn drop(self) {
        let Kept(_) = self;
    }
}

impl<W: Write> Promise<Worker<W>> for Kept<W> {
    ghost kept_by = { λ kept worker. HasWritten W.contents kept.0.value worker };
}
