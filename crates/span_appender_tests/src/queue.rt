//! Lines that a thread writes.
use crate::folder::{fresh, listed};
use span_appender::{Builder, NonBlocking};
use std::alloc::Global;
use std::io::{self, Error, ErrorKind, Write};
use std::sync::Arc;
use std::sync::atomic::{AtomicU64, Ordering};
use std::{fs, thread};

/// A writer that waits at a gate, and fails at lines that begin with a dash.
#[derive(Drop)]
struct Gated {
    gate: Arc<AtomicU64, Global>,
    text: Vec<u8>,
}

impl Write for Gated {
    fn write(&mut self, buf: &[u8]) -> io::Result<usize> {
        for _ in 0..u64::MAX {
            if self.gate.load(Ordering::SeqCst) == 1 {
                break;
            }
            thread::yield_now();
        }
        if buf.starts_with(b"-") {
            return Err(Error::from(ErrorKind::InvalidInput));
        }
        self.text.write(buf)
    }

    fn flush(&mut self) -> io::Result<()> {
        Ok(())
    }
}

#[test]
fn all_accepted_lines_are_in_the_file(rt: HostRuntime) -> io::Result<()> {
    let path = fresh(&rt, "queue")?;
    let files = Builder::new().build(rt, rt, path.as_str())?;
    let (mut lines, guard) = NonBlocking::new(rt, rt.alloc(), files, 8)?;
    lines.put(b"one\n")?;
    lines.put(b"two\n")?;
    lines.put(b"begun")?;
    let finished = guard.finish(&mut lines);
    assert!(rt; finished.lost == 0);
    assert!(rt; finished.dropped == 0);
    let all = listed(&rt, path.as_str())?;
    assert!(rt; all.as_str().ends_with(": one\ntwo\nbegun"));
    fs::remove_dir_all(&rt, path.as_str())
}

#[test]
fn a_full_queue_drops_lines_and_counts_them(rt: HostRuntime) -> io::Result<()> {
    let gate = Arc::new(rt.alloc(), AtomicU64::new(0))?;
    let gated = Gated {
        gate: Arc::try_clone(&gate)?,
        text: Vec::new(rt.alloc()),
    };
    let (mut lines, guard) = NonBlocking::new(rt, rt.alloc(), gated, 1)?;
    lines.put(b"a\n")?;
    lines.put(b"b\n")?;
    lines.put(b"c\n")?;
    lines.put(b"d\n")?;
    lines.put(b"e\n")?;
    // The thread has at most one line, and the queue one more.
    let dropped = lines.dropped();
    assert!(rt; dropped == 3 || dropped == 4);
    assert!(rt; guard.dropped() == dropped);
    gate.store(1, Ordering::SeqCst);
    let finished = guard.finish(&mut lines);
    assert!(rt; finished.lost == 0);
    assert!(rt; finished.dropped == dropped);
    assert!(rt; finished.writer.text.len() as u64 == 2 * (5 - dropped));
    assert!(rt; finished.writer.text.starts_with(b"a\n"));
    lines.write_all(b"late\n")?;
    assert!(rt; lines.dropped() == dropped + 1);
    Ok(())
}

#[test]
fn a_writer_that_fails_is_counted(rt: HostRuntime) -> io::Result<()> {
    let gated = Gated {
        gate: Arc::new(rt.alloc(), AtomicU64::new(1))?,
        text: Vec::new(rt.alloc()),
    };
    let (mut lines, guard) = NonBlocking::new(rt, rt.alloc(), gated, 8)?;
    lines.put(b"a\n")?;
    lines.put(b"-b\n")?;
    lines.put(b"c\n")?;
    let finished = guard.finish(&mut lines);
    assert!(rt; finished.lost == 1);
    assert!(rt; finished.dropped == 0);
    assert!(rt; finished.writer.text.as_slice() == b"a\nc\n".as_slice());
    Ok(())
}

#[test]
fn a_guard_that_goes_first_ends_the_thread(rt: HostRuntime) -> io::Result<()> {
    let path = fresh(&rt, "guard")?;
    let files = Builder::new().build(rt, rt, path.as_str())?;
    let (mut lines, guard) = NonBlocking::new(rt, rt.alloc(), files, 8)?;
    lines.write_all(b"one\ntwo\n")?;
    drop(guard);
    lines.write_all(b"late\n")?;
    assert!(rt; lines.dropped() == 1);
    let mut lines = lines.waiting(rt);
    assert!(rt; lines.write_all(b"later\n").is_err());
    let all = listed(&rt, path.as_str())?;
    assert!(rt; all.as_str().ends_with(": one\ntwo\n"));
    fs::remove_dir_all(&rt, path.as_str())
}
