//! Tests of scripts: what they print.
use crate::row::{ROWS, lines};
use span_core::{Id, Lane, TraceError};
use span_dispatch::{Answer, Recorded};
use span_registry::Limits;
use span_script::{Reason, RunFault, Script, Section, WrongLine, run, run_with, text_of};
use std::alloc::{AllocError, Global};
use std::io;
use std::io::{ErrorKind, Read, Write};
use std::process::Abort;
use std::test::Fail;

/// What becomes of a script.
fn ends<R: Read, W: Write>(alloc: Global, reader: &mut R, writer: &mut W) -> Result<(), RunFault> {
    run(alloc, reader, writer)
}

/// What a script prints.
fn printed(alloc: Global, script: &[u8]) -> Result<Vec<u8>, RunFault> {
    let mut input = script;
    let mut output = Vec::new(alloc);
    run(alloc, &mut input, &mut output)?;
    Ok(output)
}

#[test]
fn rows(rt: HostRuntime) -> Result<(), Fail> {
    for (script, wanted) in ROWS {
        let input = lines(rt.alloc(), script)?;
        let output = printed(rt.alloc(), input.as_bytes())?;
        let wanted = lines(rt.alloc(), wanted)?;
        assert!(rt; output.as_slice() == wanted.as_bytes(), "{script}");
    }
    Ok(())
}

/// What a row prints on a registry with one place, which holds two spans, one after another.
fn printed_with_one_place(alloc: Global, row: &str) -> Result<Vec<u8>, RunFault> {
    let limits = Limits {
        places: 1,
        generations: 2,
        count: u32::MAX,
    };
    let input = lines(alloc, row)?;
    let mut output = Vec::new(alloc);
    run_with(alloc, limits, &mut input.as_bytes(), &mut output)?;
    Ok(output)
}

#[test]
fn an_open_span_keeps_its_place(rt: HostRuntime) -> Result<(), Fail> {
    let output = printed_with_one_place(rt.alloc(), "stack plain / new 0 2 a / new 0 2 b")?;
    let wanted = lines(rt.alloc(), "a / refused 8 / == base / new a")?;
    assert!(rt; output.as_slice() == wanted.as_bytes());
    Ok(())
}

#[test]
fn a_place_retires(rt: HostRuntime) -> Result<(), Fail> {
    let script = "stack plain / new 0 2 a / drop 0 a / new 0 2 b / drop 0 b / new 0 2 c";
    let wanted = "a / ok / b / ok / refused 8 / == base / new a / close a / new b / close b";
    let output = printed_with_one_place(rt.alloc(), script)?;
    assert!(rt; output.as_slice() == lines(rt.alloc(), wanted)?.as_bytes());
    Ok(())
}

/// A script with each kind of line that has a reply of its own.
const ANSWERED: &str =
    "stack pair / new 0 2 p / new 0 3 q / event 0 5 / event 0 5 mute / enabled 0 2 / enabled 0 3 / clone p / follows 0 p q / current 0 / drop 0 p / drop 0 p / enter 0 p";

/// What it prints where it is answered as `replies_by_lines` says.
const REPLIED: &str =
    "p / none / ok / none / true / false / ok / none / ? / ok / ok / refused 1 / == a / new p / event 5 / follows p ? / id ? p / close p / == b";

/// The answers to it.
fn answers(made: Id, other: Id) -> [Answer; 12] {
    [
        Answer::Made(made),
        Answer::Dropped,
        Answer::Done,
        Answer::Dropped,
        Answer::Yes(true),
        Answer::Yes(false),
        Answer::Done,
        Answer::Dropped,
        Answer::Current(Some(other)),
        Answer::Yes(false),
        Answer::Yes(true),
        Answer::Refused(TraceError::UnknownSpan(made)),
    ]
}

/// What one recorder kept.
fn notices(made: Id, other: Id) -> [Recorded; 5] {
    let lane = Lane(0);
    [
        Recorded::New(lane, made),
        Recorded::Event(lane, 5),
        Recorded::Follows(lane, made, other),
        Recorded::IdChange(lane, Id::from_u64(0), made),
        Recorded::Close(lane, made),
    ]
}

#[test]
fn replies_by_lines(rt: HostRuntime) -> Result<(), Fail> {
    let text = lines(rt.alloc(), ANSWERED)?;
    let script = Script::parse(rt.alloc(), text.as_str())?;
    let (made, other) = (Id::from_u64(3), Id::from_u64(7));
    let kept = notices(made, other);
    let sections = [
        Section {
            name: "a",
            notices: &kept,
        },
        Section {
            name: "b",
            notices: &[],
        },
    ];
    let printed = text_of(rt.alloc(), script.lines(), &answers(made, other), &sections)?;
    assert!(rt; printed.as_str() == lines(rt.alloc(), REPLIED)?.as_str());
    Ok(())
}

#[test]
fn fault_texts_and_statuses(rt: HostRuntime) -> Result<(), Fail> {
    let wrong = WrongLine {
        line: 12,
        column: 3,
        reason: Reason::TooManyWords,
    };
    let rows = [
        (
            RunFault::Wrong(wrong),
            "script line 12 is wrong at column 3: the line has too many words",
            2,
        ),
        (RunFault::Io, "input or output failed", 1),
        (RunFault::Memory, "out of memory", 1),
    ];
    for (fault, text, status) in rows {
        assert!(rt; format!(in rt.alloc(); "{fault}")?.as_str() == text);
        assert!(rt; fault.status() == status);
    }
    Ok(())
}

#[test]
fn size_limit(rt: HostRuntime) -> Result<(), Fail> {
    let mut script = Vec::from_slice(rt.alloc(), b"stack plain".as_slice())?;
    for _ in script.len()..1_048_576 {
        script.push(b'\n')?;
    }
    let output = printed(rt.alloc(), script.as_slice())?;
    assert!(rt; output.as_slice() == b"== base\n".as_slice());
    script.push(b'\n')?;
    let ended = printed(rt.alloc(), script.as_slice());
    assert!(rt; ended == Err(RunFault::Io));
    Ok(())
}

/// Gives its text in two reads, each of which is interrupted first, and then fails or ends.
#[derive(Drop)]
struct Broken<'a> {
    parts: [&'a [u8]; 2],
    reads: usize,
    fails: bool,
}

impl Read for Broken<'_> {
    fn read(&mut self, buf: &mut [u8]) -> io::Result<usize> {
        let turn = self.reads;
        self.reads = turn.saturating_add(1);
        match turn {
            0 | 2 => Err(io::Error::from(ErrorKind::Interrupted)),
            1 => self.parts[0].read(buf),
            3 => self.parts[1].read(buf),
            _ if self.fails => Err(io::Error::from(ErrorKind::TimedOut)),
            _ => Ok(0),
        }
    }
}

/// Gives line ends for ever, and counts them.
#[derive(Drop)]
struct Endless {
    given: usize,
}

impl Read for Endless {
    fn read(&mut self, buf: &mut [u8]) -> io::Result<usize> {
        buf.fill(b'\n');
        self.given = self.given.saturating_add(buf.len());
        Ok(buf.len())
    }
}

/// A reader that fails once it gave this text, or ends.
fn reader_of(parts: [&[u8]; 2], fails: bool) -> Broken<'_> {
    Broken {
        parts,
        reads: 0,
        fails,
    }
}

#[test]
fn an_interrupted_reader_is_read_on(rt: HostRuntime) -> Result<(), Fail> {
    let mut output = Vec::new(rt.alloc());
    let mut reader = reader_of([b"stack pl", b"ain\nnew 0 2 p"], false);
    ends(rt.alloc(), &mut reader, &mut output)?;
    assert!(rt; output.as_slice() == b"p\n== base\nnew p\n".as_slice());
    Ok(())
}

#[test]
fn a_failing_reader_is_a_fault(rt: HostRuntime) {
    let mut output = Vec::new(rt.alloc());
    // A wrong line is not named, as the reader fails after it.
    let mut reader = reader_of([b"stack", b"plain\n"], true);
    let ended = ends(rt.alloc(), &mut reader, &mut output);
    assert!(rt; ended == Err(RunFault::Io));
    reader.reads = 4;
    let ended = ends(rt.alloc(), &mut reader, &mut output);
    assert!(rt; ended == Err(RunFault::Io));
    assert!(rt; reader.reads == 5);
}

#[test]
fn an_endless_reader_is_a_fault(rt: HostRuntime) {
    let mut output = Vec::new(rt.alloc());
    let mut endless = Endless { given: 0 };
    let ended = ends(rt.alloc(), &mut endless, &mut output);
    assert!(rt; ended == Err(RunFault::Io));
    assert!(rt; endless.given < 1_048_576 + 65_536);
}

/// Takes a byte at a time, so many of them, and then fails.
#[derive(Drop)]
struct Full {
    room: usize,
    flushes: bool,
}

impl Write for Full {
    fn write(&mut self, buf: &[u8]) -> io::Result<usize> {
        if self.room == 0 {
            return Err(io::Error::from(ErrorKind::StorageFull));
        }
        self.room -= 1;
        Ok(buf.len().min(1))
    }

    fn flush(&mut self) -> io::Result<()> {
        if self.flushes {
            return Ok(());
        }
        Err(io::Error::from(ErrorKind::StorageFull))
    }
}

#[test]
fn writers(rt: HostRuntime) {
    let script = b"stack plain\nnew 0 2 p".as_slice();
    // It prints 16 bytes.
    for room in 0..16 {
        let mut input = script;
        let mut full = Full {
            room,
            flushes: true,
        };
        let ended = ends(rt.alloc(), &mut input, &mut full);
        assert!(rt; ended == Err(RunFault::Io));
    }
    for flushes in [true, false] {
        let mut input = script;
        let mut full = Full { room: 16, flushes };
        let ended = ends(rt.alloc(), &mut input, &mut full);
        assert!(rt; ended.is_ok() == flushes);
    }
}

/// The spans of a chain.
const CHAIN: u32 = 10_000;

/// Spans each in the one before; then the handle of each is dropped, from the root on.
pub(crate) fn chain_script(alloc: Global) -> Result<String, AllocError> {
    let mut script = String::from_str(alloc, "stack plain\nnew 0 2 s0\n")?;
    for span in 1..CHAIN {
        writeln!(script, "new 0 2 s{span} in s{}", span - 1)?;
    }
    for span in 0..CHAIN {
        writeln!(script, "drop 0 s{span}")?;
    }
    Ok(script)
}

/// What it prints: all close by the last drop, the leaf first.
pub(crate) fn chain_replies(alloc: Global) -> Result<String, AllocError> {
    let mut replies = String::new(alloc);
    for span in 0..CHAIN {
        writeln!(replies, "s{span}")?;
    }
    for _ in 0..CHAIN {
        replies.push_str("ok\n")?;
    }
    replies.push_str("== base\n")?;
    for span in 0..CHAIN {
        writeln!(replies, "new s{span}")?;
    }
    for span in (0..CHAIN).rev() {
        writeln!(replies, "close s{span}")?;
    }
    Ok(replies)
}

#[test]
fn a_chain_closes_by_one_drop(rt: HostRuntime) -> Result<(), Fail> {
    let script = chain_script(rt.alloc())?;
    let replies = chain_replies(rt.alloc())?;
    let output = printed(rt.alloc(), script.as_bytes())?;
    assert!(rt; output.as_slice() == replies.as_bytes());
    Ok(())
}
