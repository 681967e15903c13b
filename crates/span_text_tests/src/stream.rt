//! Texts that are handed to a writer as they come: those of the worked run, to writers that take
//! all, that take a few bytes at a time, and that are full for a while.
ghost use Rattle.std.specs.Prelude.{Some};

use crate::fixture::in_use;
use crate::text::{LANE, OF_ALL, OF_EVENTS, heard, worked_on};
use span_core::LevelFilter;
use span_fmt::{Form, LinesForm, Stream, TreeForm, serve_stream};
use span_layers::Observer;
use span_registry::Registry;
use span_stacks::LayerExt;
use std::alloc::Global;
use std::fs;
use std::io::{self, ErrorKind, Write};
use std::process::Abort;
use std::test::Fail;

/// What a stream handed to a writer in memory, and that it lost nothing.
fn handed<F>(rt: &impl Abort, stream: &Stream<F, Vec<u8>>, text: &str) {
    assert!(rt; stream.writer().as_slice() == text.as_bytes());
    assert!(rt; !stream.failed());
    assert!(rt; stream.lost() == 0);
}

#[test]
fn a_tree_goes_to_a_writer(rt: HostRuntime) -> Result<(), Fail> {
    let bytes: Vec<u8> = Vec::new(rt.alloc());
    let layer = Observer::new(Stream::new(TreeForm::new(rt.alloc()), bytes));
    let stack = worked_on(rt.alloc(), Registry::new(rt.alloc()), layer)?;
    handed(&rt, stack.outer().observer(), OF_ALL);
    Ok(())
}

#[test]
fn lines_go_to_a_writer(rt: HostRuntime) -> Result<(), Fail> {
    let bytes: Vec<u8> = Vec::new(rt.alloc());
    let stream = Stream::new(LinesForm::new(rt.alloc()), bytes);
    let layer = Observer::new(stream).with_filter(LevelFilter::DEBUG);
    let stack = worked_on(rt.alloc(), Registry::new(rt.alloc()), layer)?;
    handed(&rt, stack.outer().layer().observer(), OF_EVENTS);
    Ok(())
}

#[test]
fn a_stream_under_a_level_is_served(rt: HostRuntime) -> Result<(), Fail> {
    let bytes: Vec<u8> = Vec::new(rt.alloc());
    let stream = Stream::new(LinesForm::new(rt.alloc()), bytes);
    let layer = Observer::new(stream).with_filter(LevelFilter::INFO);
    let mut dispatch = in_use(rt.alloc(), Registry::new(rt.alloc()), layer)?;
    serve_stream(rt.alloc(), &mut dispatch, &[heard(LANE)])?;
    let stream = dispatch.stack().outer().layer().observer();
    handed(&rt, stream, "0 INFO app: heard\n");
    Ok(())
}

/// A writer that takes a few bytes at each call, is interrupted now and then, and is full from some
/// call on until another.
#[derive(Drop)]
pub(crate) struct Faulty {
    bytes: Vec<u8>,
    most: usize,
    calls: usize,
    full: usize,
    again: usize,
}

impl Faulty {
    pub(crate) fn new(alloc: Global, most: usize, full: usize, again: usize) -> Faulty {
        Faulty {
            bytes: Vec::new(alloc),
            most,
            calls: 0,
            full,
            again,
        }
    }
}

impl Write for Faulty {
    ghost contents = { λ w. Some w.bytes.items };

    fn write(&mut self, buf: &[u8]) -> io::Result<usize> {
        let call = self.calls;
        self.calls = self.calls.saturating_add(1);
        if call % 3 == 1 {
            return Err(io::Error::from(ErrorKind::Interrupted));
        }
        if self.full <= call && call < self.again {
            return Err(io::Error::from(ErrorKind::StorageFull));
        }
        let some = if buf.len() < self.most {
            buf
        } else {
            &buf[..self.most]
        };
        self.bytes.write(some)
    }

    fn flush(&mut self) -> io::Result<()> {
        Ok(())
    }
}

/// What a stream handed to such a writer, and how many lines it lost.
pub(crate) fn handed_some<F>(rt: &impl Abort, stream: &Stream<F, Faulty>, text: &str, lost: u64) {
    assert!(rt; stream.writer().bytes.as_slice() == text.as_bytes());
    assert!(rt; stream.failed() == (lost != 0));
    assert!(rt; stream.lost() == lost);
}

#[test]
fn a_byte_at_a_time(rt: HostRuntime) -> Result<(), Fail> {
    let faulty = Faulty::new(rt.alloc(), 1, usize::MAX, usize::MAX);
    let layer = Observer::new(Stream::new(TreeForm::new(rt.alloc()), faulty));
    let stack = worked_on(rt.alloc(), Registry::new(rt.alloc()), layer)?;
    handed_some(&rt, stack.outer().observer(), OF_ALL, 0);
    Ok(())
}

/// The line that was cut, and behind those that were lost the next one on a line of its own.
const CUT: &str = "0 WARN outer{user=7}:inner{
0 INFO outer{user=7 late=false}: app: heard
";

#[test]
fn a_line_that_is_not_taken_is_lost(rt: HostRuntime) -> Result<(), Fail> {
    let faulty = Faulty::new(rt.alloc(), 9, 5, 8);
    let stream = Stream::new(LinesForm::new(rt.alloc()), faulty);
    let layer = Observer::new(stream).with_filter(LevelFilter::DEBUG);
    let stack = worked_on(rt.alloc(), Registry::new(rt.alloc()), layer)?;
    handed_some(&rt, stack.outer().layer().observer(), CUT, 2);
    Ok(())
}

/// How many of the worked run's lines a full disk loses.
pub(crate) fn lost_on_a_full_disk<F: Form<Registry> + Drop>(
    rt: &HostRuntime,
    form: F,
) -> Result<u64, Fail> {
    let disk = fs::create(rt, "/dev/full")?;
    let layer = Observer::new(Stream::new(form, disk));
    let stack = worked_on(rt.alloc(), Registry::new(rt.alloc()), layer)?;
    Ok(stack.outer().observer().lost())
}

#[test]
fn a_full_disk_loses_each_line(rt: HostRuntime) -> Result<(), Fail> {
    assert!(rt; lost_on_a_full_disk(&rt, TreeForm::new(rt.alloc()))? == 10);
    assert!(rt; lost_on_a_full_disk(&rt, LinesForm::new(rt.alloc()))? == 3);
    Ok(())
}
