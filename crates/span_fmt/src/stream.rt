//! A layer that hands each line to a writer as it comes.
ghost use Rattle.std.specs.Io.KnownBytes.{Keeps};
ghost use Rattle.std.specs.Prelude.{◌≡◌, ◌==◌, false, not};
ghost use Rattle.span_fmt.specs.Outlet.{is_torn, lost_of, writer_of};
ghost use Rattle.span_fmt.specs.Stream.{form_of, outlet_of, stream_steps};

use crate::form::Form;
use crate::outlet::Outlet;
use span_layers::{AlwaysUsableObserver, Observe};
use span_registry::{ContextMut, Notice, Subscriber};
use std::io::{self, Write};

/// A layer that hands each line of a form to a writer as it comes, by one call if that takes all.
///
/// A line that the writer doesn't take whole, or for which there is no memory, is lost, and is
/// counted. Those behind it are tried all the same; one behind a line that was cut begins with a
/// line feed.
///
/// It never flushes by itself: over a file or standard error each line is out at once, over a
/// `LineWriter` too, and over a `BufWriter` when that is full or flushed.
///
/// Stands for `tracing_subscriber::fmt::Layer` with its `MakeWriter`.
pub struct Stream<F, W> {
    form: F,
    outlet: Outlet<W>,
}

impl<F: Drop, W: Drop> Drop for Stream<F, W> {
    fn drop(self) {
        let Stream { form, outlet } = self;
    }
}

impl<F, W: Write> Stream<F, W> {
    /// A stream that has written nothing, and lost no line.
    pub fn new(form: F, writer: W) -> Stream<F, W>
        ensures form { form_of result ≡ form }
        ensures writer { writer_of (outlet_of result) ≡ writer }
        ensures lost { lost_of (outlet_of result) ≡ 0 }
        ensures torn { is_torn (outlet_of result) ≡ false }
    {
        Stream {
            form,
            outlet: Outlet::new(writer),
        }
    }

    /// The form.
    pub fn form(&self) -> &F
        ensures { result.now ≡ form_of self.now }
    {
        &self.form
    }

    /// The writer.
    pub fn writer(&self) -> &W
        ensures { result.now ≡ writer_of (outlet_of self.now) }
    {
        self.outlet.writer()
    }

    /// Whether a line was lost.
    pub fn failed(&self) -> bool
        ensures { result ≡ not (lost_of (outlet_of self.now) == 0) }
    {
        self.lost() != 0
    }

    /// How many lines were lost, as far as a `u64` goes.
    pub fn lost(&self) -> u64
        ensures { result ≡ lost_of (outlet_of self.now) }
    {
        self.outlet.lost()
    }

    /// Has the writer hand on what it keeps back.
    pub fn flush(&mut self) -> io::Result<()>
        ensures form { form_of self.new ≡ form_of self.old }
        ensures bytes { Keeps (W.contents (writer_of (outlet_of self.old)))
            (W.contents (writer_of (outlet_of self.new))) }
        ensures lost { lost_of (outlet_of self.new) ≡ lost_of (outlet_of self.old) }
        ensures torn { is_torn (outlet_of self.new) ≡ is_torn (outlet_of self.old) }
    {
        self.outlet.flush()
    }
}

impl<F: Drop, W: Write> Stream<F, W> {
    /// The writer, taken out.
    pub fn into_writer(self) -> W
        ensures { result ≡ writer_of (outlet_of self) }
    {
        let Stream { form, outlet } = self;
        outlet.into_writer()
    }
}

impl<S: Subscriber, F: Form<S>, W: Write> Observe<S> for Stream<F, W> {
    ghost observed = { stream_steps F.gives F.misses W.contents };

    fn observe(&mut self, notice: Notice<'_, '_>, ctx: &mut ContextMut<'_, S>) {
        match self.form.line(notice, ctx) {
            Ok(line) => self.outlet.put(line.as_str()),
            Err(_) => self.outlet.lose(),
        }
    }
}

impl<S: Subscriber, F: Form<S>, W: Write> AlwaysUsableObserver<S> for Stream<F, W> {
    ghost always = { λ x. tt };
}
