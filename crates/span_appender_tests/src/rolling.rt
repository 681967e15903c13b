//! Files that roll.
use crate::folder::{SetClock, fresh, listed};
use span_appender::{Builder, Rotation};
use std::fs;
use std::io::{self, Write};
use std::sync::Arc;
use std::sync::atomic::{AtomicU64, Ordering};

/// The first second of 2026-11-30.
const MONDAY: u64 = 20_787 * 86_400;

#[test]
fn a_file_rolls_by_size(rt: HostRuntime) -> io::Result<()> {
    let path = fresh(&rt, "size")?;
    let second = Arc::new(rt.alloc(), AtomicU64::new(MONDAY))?;
    let files = Builder::new()
        .rotation(Rotation::NEVER.max_bytes(8))
        .filename_prefix("app")
        .filename_suffix("log");
    let mut writer = files.build(rt, SetClock::new(&second)?, path.as_str())?;
    writer.write_all(b"one\ntwo\nthree\nfourfourfour\n")?;
    writer.flush()?;
    let all = listed(&rt, path.as_str())?;
    let expected = "app.0000000000.2026-11-30.log: one\ntwo\n\
        app.0000000001.2026-11-30.log: three\n\
        app.0000000002.2026-11-30.log: fourfour\
        app.0000000003.2026-11-30.log: four\n";
    assert!(rt; all.as_str() == expected);
    fs::remove_dir_all(&rt, path.as_str())
}

#[test]
fn a_file_rolls_by_day_between_two_lines(rt: HostRuntime) -> io::Result<()> {
    let path = fresh(&rt, "day")?;
    let second = Arc::new(rt.alloc(), AtomicU64::new(MONDAY + 86_399))?;
    let files = Builder::new()
        .rotation(Rotation::DAILY)
        .filename_suffix("log");
    let mut writer = files.build(rt, SetClock::new(&second)?, path.as_str())?;
    writer.write_all(b"late\nbe")?;
    second.store(MONDAY + 86_400, Ordering::SeqCst);
    writer.write_all(b"gun\n")?;
    writer.write_all(b"early\n")?;
    second.store(MONDAY, Ordering::SeqCst);
    writer.write_all(b"back\n")?;
    let all = listed(&rt, path.as_str())?;
    let expected = "0000000000.2026-11-30.log: late\nbegun\n\
        0000000001.2026-12-01.log: early\nback\n";
    assert!(rt; all.as_str() == expected);
    fs::remove_dir_all(&rt, path.as_str())
}

#[test]
fn the_newest_files_are_kept(rt: HostRuntime) -> io::Result<()> {
    let path = fresh(&rt, "keep")?;
    let second = Arc::new(rt.alloc(), AtomicU64::new(MONDAY))?;
    let other = format!(in rt.alloc(); "{path}/app.log")?;
    fs::write(&rt, other.as_str(), "of another\n")?;
    let files = Builder::new()
        .rotation(Rotation::NEVER.max_bytes(4))
        .filename_prefix("app")
        .filename_suffix("log")
        .max_log_files(2);
    let mut writer = files.build(rt, SetClock::new(&second)?, path.as_str())?;
    writer.write_all(b"a\nb\nc\nd\ne\nf\n")?;
    drop(writer);
    // A writer that comes later goes on with the newest file.
    let mut later = files.build(rt, SetClock::new(&second)?, path.as_str())?;
    later.write_all(b"g\n")?;
    let all = listed(&rt, path.as_str())?;
    let expected = "app.0000000002.2026-11-30.log: e\nf\n\
        app.0000000003.2026-11-30.log: g\n\
        app.log: of another\n";
    assert!(rt; all.as_str() == expected);
    fs::remove_dir_all(&rt, path.as_str())
}

#[test]
fn a_file_that_cannot_be_made_is_an_error(rt: HostRuntime) -> io::Result<()> {
    let path = fresh(&rt, "refused")?;
    let second = Arc::new(rt.alloc(), AtomicU64::new(MONDAY))?;
    let files = Builder::new().rotation(Rotation::NEVER.max_bytes(4));
    let mut writer = files.build(rt, SetClock::new(&second)?, path.as_str())?;
    let next = format!(in rt.alloc(); "{path}/0000000001.2026-11-30")?;
    fs::write(&rt, next.as_str(), "x\n")?;
    assert!(rt; writer.write(b"abc\ndef\n")? == 4);
    assert!(rt; writer.write(b"def\n").is_err());
    fs::remove_file(&rt, next.as_str())?;
    assert!(rt; writer.write(b"def\n")? == 4);
    let all = listed(&rt, path.as_str())?;
    assert!(rt; all.as_str() == "0000000000.2026-11-30: abc\n0000000001.2026-11-30: def\n");
    fs::remove_dir_all(&rt, path.as_str())
}
