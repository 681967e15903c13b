//! A writer that hands lines to a thread, and waits where the queue is full.
ghost use Rattle.std.specs.Prelude.{◌≡◌, ◌≢◌, ◌≤◌, ◌++◌, [], ◌∷◌, Some, IfOk, OnOk, OnErr, IsFalse, IsTrue, length};
ghost use Rattle.rtrb.specs.Ring.{SameProducer, sent};
ghost use Rattle.span_appender.specs.Lines.{ends_line, first_line_length, first_piece};
ghost use Rattle.span_appender.specs.Queue.{Adds, Begins, IsUnchanged, begun, handed, lines_of};

use crate::lines::{first_line, is_line};
use crate::non_blocking::NonBlocking;
use crate::shared::Shared;
use rtrb::{Producer, PushError};
use std::alloc::AllocError;
use std::io::{self, Error, ErrorKind, Write};
use std::mem;
use std::sync::Wait;

/// A writer that hands lines to a thread through a queue with a limit, and waits where that is
/// full: no line that has ended is dropped. Once the thread's guard has gone, a write fails.
#[derive(Drop)]
pub struct Waiting<R: Wait> {
    rt: R,
    lines: NonBlocking,
}

impl NonBlocking {
    /// The same writer, which waits where the queue is full.
    pub fn waiting<R: Wait>(self, rt: R) -> Waiting<R>
        ensures { lines_of result ≡ self }
    {
        Waiting { rt, lines: self }
    }
}

impl<R: Wait> Waiting<R> {
    /// The same writer, which drops lines where the queue is full.
    pub fn lossy(self) -> NonBlocking
    where
        R: Drop,
        ensures { result ≡ lines_of self }
    {
        let Waiting { rt: _, lines } = self;
        lines
    }

    /// Writes the first line of a text, and says how many bytes that has. With its newline, the
    /// line is handed over. Fails for want of memory, and where the thread's guard has gone.
    pub fn put(&mut self, text: &[u8]) -> io::Result<usize>
        ensures count { IfOk result (λ count. count ≡ first_line_length text.now) }
        ensures within { IfOk result (λ count. count ≤ length text.now) }
        ensures line { OnOk result (IsTrue (ends_line (first_piece text.now))
            → Adds (lines_of self.old) (lines_of self.new)
            (begun (lines_of self.old) ++ first_piece text.now)) }
        ensures piece { OnOk result (IsFalse (ends_line (first_piece text.now))
            → Begins (lines_of self.old) (lines_of self.new)
            (begun (lines_of self.old) ++ first_piece text.now)) }
        ensures err { OnErr result (IsUnchanged (lines_of self.old) (lines_of self.new)) }
    {
        self.enter()?;
        let count = first_line(text);
        let piece = &text[..count];
        let kept = self.lines.begun.extend_from_slice(piece);
        if kept.is_ok() && is_line(piece) {
            hand_over(&self.rt, &mut self.lines);
        }
        self.lines.shared.leave();
        kept?;
        Ok(count)
    }

    /// Hands over the line that is begun, if one is, without a newline.
    pub fn end_line(&mut self) -> io::Result<()>
        ensures none { begun (lines_of self.old) ≡ []
            → IsUnchanged (lines_of self.old) (lines_of self.new) }
        ensures line { OnOk result (begun (lines_of self.old) ≢ []
            → Adds (lines_of self.old) (lines_of self.new) (begun (lines_of self.old))) }
        ensures err { OnErr result (IsUnchanged (lines_of self.old) (lines_of self.new)) }
    {
        self.enter()?;
        if !self.lines.begun.is_empty() {
            hand_over(&self.rt, &mut self.lines);
        }
        self.lines.shared.leave();
        Ok(())
    }

    fn enter(&self) -> io::Result<()> {
        if self.lines.shared.enter() {
            Ok(())
        } else {
            Err(Error::new(ErrorKind::BrokenPipe, "the thread that writes has ended"))
        }
    }
}

/// Hands over the line that is begun.
fn hand_over<R: Wait>(rt: &R, lines: &mut NonBlocking)
    ensures { Adds lines.old lines.new (begun lines.old) }
{
    let line = mem::replace(&mut lines.begun, Vec::new(lines.alloc));
    push_waiting(rt, &mut lines.queue, &lines.shared, line);
}

/// Puts a line in the queue, once that has room.
fn push_waiting<R: Wait>(rt: &R, queue: &mut Producer<Vec<u8>>, shared: &Shared, line: Vec<u8>)
    ensures same { SameProducer queue.old queue.new }
    ensures sent { sent queue.new ≡ sent queue.old ++ line ∷ [] }
{
    let mut line = line;
    for _ in rt.forever() {
        match queue.push(line) {
            Ok(()) => return,
            Err(PushError::Full(back)) => line = back,
        }
        shared.wait_for_room(rt);
    }
    unreachable!()
}

impl<R: Wait> Write for Waiting<R> {
    ghost contents = { λ w. Some (handed (lines_of w)) };

    fn write(&mut self, buf: &[u8]) -> io::Result<usize> {
        match self.put(buf) {
            Ok(count) => Ok(count),
            Err(error) => Err(error),
        }
    }

    fn flush(&mut self) -> io::Result<()> {
        match self.end_line() {
            Ok(()) => Ok(()),
            Err(error) => Err(error),
        }
    }
}
