//! A writer that hands lines to a thread, and never waits.
ghost use Rattle.std.specs.Prelude.{◌≡◌, ◌≢◌, ◌≤◌, ◌++◌, [], ◌∷◌, IfOk, OnOk, OnErr, IsFalse, IsTrue, length};
ghost use Rattle.span_appender.specs.Lines.{ends_line, first_line_length, first_piece};
ghost use Rattle.rtrb.specs.Ring.{SameProducer, sent};
ghost use Rattle.span_appender.specs.Queue.{Begins, HandsOver, IsUnchanged, begun, dropped_by};

use crate::lines::{first_line, is_line};
use crate::shared::Shared;
use rtrb::Producer;
use std::alloc::{AllocError, Global};
use std::io::{self, Write};
use std::mem;
use std::sync::Arc;

/// A writer that hands lines to a thread through a queue with a limit, and never waits: a line that
/// finds the queue full is dropped and counted.
///
/// A line is handed over once its newline is written, or by `flush`.
pub struct NonBlocking {
    pub(crate) alloc: Global,
    pub(crate) queue: Producer<Vec<u8>>,
    pub(crate) begun: Vec<u8>,
    pub(crate) dropped: u64,
    pub(crate) shared: Arc<Shared, Global>,
}

impl Drop for NonBlocking {
    fn drop(self) {
        let NonBlocking {
            alloc: _,
            mut queue,
            begun,
            dropped,
            shared,
        } = self;
        if !begun.is_empty() && !offer(&mut queue, &shared, begun) {
            shared.set_dropped(dropped.saturating_add(1));
        }
    }
}

impl NonBlocking {
    /// How many lines were dropped.
    pub fn dropped(&self) -> u64
        ensures { result ≡ dropped_by self.now }
    {
        self.dropped
    }

    /// Writes the first line of a text, and says how many bytes that has. With its newline, the
    /// line is handed over, or dropped and counted.
    pub fn put(&mut self, text: &[u8]) -> Result<usize, AllocError>
        ensures count { IfOk result (λ count. count ≡ first_line_length text.now) }
        ensures within { IfOk result (λ count. count ≤ length text.now) }
        ensures line { OnOk result (IsTrue (ends_line (first_piece text.now))
            → HandsOver self.old self.new (begun self.old ++ first_piece text.now)) }
        ensures piece { OnOk result (IsFalse (ends_line (first_piece text.now))
            → Begins self.old self.new (begun self.old ++ first_piece text.now)) }
        ensures err { OnErr result (IsUnchanged self.old self.new) }
    {
        let count = first_line(text);
        let piece = &text[..count];
        self.begun.extend_from_slice(piece)?;
        if is_line(piece) {
            self.hand_over();
        }
        Ok(count)
    }

    /// Hands over the line that is begun, if one is, without a newline.
    pub fn end_line(&mut self)
        ensures none { begun self.old ≡ [] → IsUnchanged self.old self.new }
        ensures line { begun self.old ≢ [] → HandsOver self.old self.new (begun self.old) }
    {
        if !self.begun.is_empty() {
            self.hand_over();
        }
    }

    fn hand_over(&mut self)
        ensures { HandsOver self.old self.new (begun self.old) }
    {
        let line = mem::replace(&mut self.begun, Vec::new(self.alloc));
        if !offer(&mut self.queue, &self.shared, line) {
            self.dropped = self.dropped.saturating_add(1);
            self.shared.set_dropped(self.dropped);
        }
    }
}

/// Puts a line in the queue, if that is open and not full.
fn offer(queue: &mut Producer<Vec<u8>>, shared: &Shared, line: Vec<u8>) -> bool
    ensures same { SameProducer queue.old queue.new }
    ensures accepted { IsTrue result → sent queue.new ≡ sent queue.old ++ line ∷ [] }
    ensures refused { IsFalse result → sent queue.new ≡ sent queue.old }
{
    if !shared.enter() {
        return false;
    }
    let pushed = queue.push(line).is_ok();
    shared.leave();
    pushed
}

impl Write for NonBlocking {
    fn write(&mut self, buf: &[u8]) -> io::Result<usize> {
        Ok(self.put(buf)?)
    }

    fn flush(&mut self) -> io::Result<()> {
        self.end_line();
        Ok(())
    }
}
