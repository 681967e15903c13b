//! A writer that is handed lines, and what became of them.
ghost use Rattle.std.specs.Io.KnownBytes.{Appends, Keeps};
ghost use Rattle.std.specs.Prelude.{◌≡◌, ◌≤◌, false, length, take};
ghost use Rattle.span_fmt.specs.Outlet.{Mends, Puts, Takes, is_torn, lost_of, without_line, writer_of};

use std::io::{self, ErrorKind, Write};

/// A writer that is handed lines.
///
/// A line that the writer doesn't take whole is counted as lost. The next one is tried all the
/// same; where a part of the lost one was written, it begins with a line feed.
pub(crate) struct Outlet<W> {
    writer: W,
    lost: u64,
    torn: bool,
}

impl<W: Drop> Drop for Outlet<W> {
    fn drop(self) {
        let Outlet { writer, lost, torn } = self;
    }
}

impl<W: Write> Outlet<W> {
    /// An outlet of which nothing is written, and no line is lost.
    pub(crate) fn new(writer: W) -> Outlet<W>
        ensures writer { writer_of result ≡ writer }
        ensures lost { lost_of result ≡ 0 }
        ensures torn { is_torn result ≡ false }
    {
        Outlet {
            writer,
            lost: 0,
            torn: false,
        }
    }

    /// The writer.
    pub(crate) fn writer(&self) -> &W
        ensures { result.now ≡ writer_of self.now }
    {
        &self.writer
    }

    /// The writer, taken out.
    pub(crate) fn into_writer(self) -> W
        ensures { result ≡ writer_of self }
    {
        let Outlet { writer, lost, torn } = self;
        writer
    }

    /// How many lines were lost, as far as a `u64` goes.
    pub(crate) fn lost(&self) -> u64
        ensures { result ≡ lost_of self.now }
    {
        self.lost
    }

    /// Has the writer hand on what it keeps back.
    pub(crate) fn flush(&mut self) -> io::Result<()>
        ensures bytes { Keeps (W.contents (writer_of self.old)) (W.contents (writer_of self.new)) }
        ensures lost { lost_of self.new ≡ lost_of self.old }
        ensures torn { is_torn self.new ≡ is_torn self.old }
    {
        self.writer.flush()
    }

    /// Hands on a line; an empty one is none.
    pub(crate) fn put(&mut self, line: &str)
        ensures { Puts W.contents line.now self.old self.new }
    {
        if line.is_empty() {
            return;
        }
        if !self.mend() {
            self.lose();
            return;
        }
        let left = hand(&mut self.writer, line.as_bytes());
        if left.is_empty() {
            return;
        }
        self.torn = left.len() != line.len();
        self.lose();
    }

    /// Writes a line feed where the last line was cut. Answers whether a new line can begin.
    fn mend(&mut self) -> bool
        ensures { Mends W.contents self.old self.new result }
    {
        if !self.torn {
            return true;
        }
        if !hand(&mut self.writer, b"\n").is_empty() {
            return false;
        }
        self.torn = false;
        true
    }

    /// Counts a line that the writer wasn't handed.
    pub(crate) fn lose(&mut self)
        ensures { self.new ≡ without_line self.old }
    {
        self.lost = self.lost.saturating_add(1);
    }
}

/// Hands on bytes, up to the first call of the writer that fails or takes none, and gives those
/// that it didn't take. A call that is interrupted is tried again.
fn hand<'a, W: Write>(writer: &mut W, bytes: &'a [u8]) -> &'a [u8]
    ensures { Takes (W.contents writer.old) (W.contents writer.new) bytes.now result.now }
{
    let mut rest = bytes;
    let mut goes_on = true;
    for _turn in 0..u64::MAX {
        if rest.is_empty() {
            return rest;
        }
        if !goes_on {
            return rest;
        }
        let step = hand_some(writer, rest);
        rest = &rest[step.0..];
        goes_on = step.1;
    }
    rest
}

/// Hands on some bytes by one call. Answers how many the writer took, and whether it is to be
/// called again.
fn hand_some<W: Write>(writer: &mut W, bytes: &[u8]) -> (usize, bool)
    ensures bound { result.0 ≤ length bytes.now }
    ensures taken { Appends (W.contents writer.old) (W.contents writer.new)
        (take result.0 bytes.now) }
{
    match writer.write(bytes) {
        Ok(taken) => (taken, taken != 0),
        Err(error) => (0, error.kind() == ErrorKind::Interrupted),
    }
}
