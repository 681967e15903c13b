//! Tests of records of `log` that become events, and of events that are logged.
ghost use Rattle.span_dispatch.specs.Serve.{stack_of};

use crate::fixture::in_use;
use log::kv::{self, Source, Value, VisitSource};
use log::sink::{Memory, Writer};
use log::{Log, Logged, Record};
use span_core::{
    Attributes, Event, FieldSet, FieldValue, Float, FloatText, Kind, Lane, Level, LevelFilter,
    Metadata, TraceError,
};
use span_dispatch::Dispatch;
use span_layers::Observer;
use span_log::{AsLog, AsTrace, Fields, LogLayer, forward, record_metadata};
use span_registry::{Registry, Subscriber};
use std::alloc::{AllocError, Global};
use std::fmt::Display;
use std::io::{self, Write};
use std::process::Abort;
use std::test::Fail;

const LANE: Lane = Lane(0);

const LINES: [&str; 4] = [
    "[WARN  db] 42 rows",
    "[DEBUG app::net] sent bytes=7 ok=true",
    "[TRACE app::net] -1",
    "[INFO  app::net] told half=1.5 deep=-9223372036854775809",
];

/// Sends a record, and then three events.
fn send<S: Subscriber>(alloc: Global, dispatch: &mut Dispatch<S>) -> Result<(), TraceError>
    requires { S.usable (stack_of dispatch.old) }
{
    let record = Record::builder()
        .level(log::Level::Warn)
        .target("db")
        .args("42 rows")
        .build();
    forward(alloc, dispatch, LANE, &record)?;
    send_events(dispatch)
}

/// Sends three events, of which one has a field `message`, and one a field `message` without a
/// value.
fn send_events<S: Subscriber>(dispatch: &mut Dispatch<S>) -> Result<(), TraceError>
    requires { S.usable (stack_of dispatch.old) }
{
    let values = [
        ("bytes", FieldValue::U64(7)),
        ("ok", FieldValue::Bool(true)),
    ];
    dispatch.event(LANE, &Event::new(site(1, "sent", Level::DEBUG), &values))?;
    let values = [("message", FieldValue::I64(-1))];
    dispatch.event(LANE, &Event::new(site(2, "seen", Level::TRACE), &values))?;
    let mut room = FloatText::new();
    let values = [
        ("message", FieldValue::Absent),
        ("half", FieldValue::F64(Float::new(1.5, &mut room))),
        ("gone", FieldValue::Absent),
        ("deep", FieldValue::I128(-9_223_372_036_854_775_809)),
    ];
    dispatch.event(LANE, &Event::new(site(3, "told", Level::INFO), &values))?;
    Ok(())
}

fn site(callsite: u64, name: &'static str, level: Level) -> Metadata {
    let fields = FieldSet::new(&[]);
    Metadata::new(callsite, name, "app::net", level, Kind::EVENT, fields)
}

#[test]
fn records_and_events_are_logged(rt: HostRuntime) -> Result<(), Fail> {
    let layer = Observer::new(LogLayer::new(Memory::new(rt.alloc())));
    let mut dispatch = in_use(rt.alloc(), Registry::new(rt.alloc()), layer)?;
    send(rt.alloc(), &mut dispatch)?;
    let (layer, _registry) = dispatch.into_stack().into_parts();
    let lines = layer.into_observer().into_log().into_lines();
    are_lines(&rt, lines.as_slice(), &LINES);
    Ok(())
}

/// These lines were written, and no other.
fn are_lines(rt: &impl Abort, lines: &[String], wanted: &[&str]) {
    assert!(rt; lines.len() == wanted.len());
    for (line, want) in lines.iter().zip(wanted) {
        assert!(rt; line.as_str() == *want);
    }
}

/// A logger that goes by a level writes what is up to that.
#[test]
fn a_logger_of_warnings_writes_no_more(rt: HostRuntime) -> Result<(), Fail> {
    let alloc = rt.alloc();
    let logger = Logged::new(rt, log::Level::Warn, Memory::new(alloc));
    let mut dispatch = in_use(
        alloc,
        Registry::new(alloc),
        Observer::new(LogLayer::new(logger)),
    )?;
    send(alloc, &mut dispatch)?;
    let (layer, _registry) = dispatch.into_stack().into_parts();
    let (_rt, memory) = layer.into_observer().into_log().into_parts();
    let lines = memory.into_lines();
    are_lines(&rt, lines.as_slice(), &["[WARN  db] 42 rows"]);
    Ok(())
}

/// A writer that drops what it is given, and counts how often it is flushed.
#[derive(Drop)]
struct Flushes {
    number: u32,
}

impl Write for Flushes {
    fn write(&mut self, buf: &[u8]) -> io::Result<usize> {
        Ok(buf.len())
    }

    fn flush(&mut self) -> io::Result<()> {
        self.number = self.number.saturating_add(1);
        Ok(())
    }
}

/// Opens a span on a lane that enters, leaves and drops it.
fn pass_through_a_span<S: Subscriber>(dispatch: &mut Dispatch<S>) -> Result<(), Fail>
    requires { S.usable (stack_of dispatch.old) }
{
    let job = Metadata::new(4, "job", "app", Level::INFO, Kind::SPAN, FieldSet::new(&[]));
    let Some(id) = dispatch.new_span(LANE, &Attributes::new(job, &[]))? else {
        return Err(Fail::from("dropped"));
    };
    dispatch.enter(LANE, id)?;
    dispatch.exit(LANE, id);
    dispatch.drop_span(LANE, id)?;
    Ok(())
}

/// Neither an event nor a span makes a logger write out what it buffers.
#[test]
fn a_logger_is_not_flushed(rt: HostRuntime) -> Result<(), Fail> {
    let alloc = rt.alloc();
    let layer = Observer::new(LogLayer::new(Writer::new(Flushes { number: 0 })));
    let mut dispatch = in_use(alloc, Registry::new(alloc), layer)?;
    pass_through_a_span(&mut dispatch)?;
    dispatch.event(LANE, &Event::new(site(1, "sent", Level::INFO), &[]))?;
    let (layer, _registry) = dispatch.into_stack().into_parts();
    let flushes = layer.into_observer().into_log().into_inner();
    assert!(rt; flushes.number == 0);
    Ok(())
}

/// Writes of each pair its key and the kind of its value.
#[derive(Drop)]
struct Kinds {
    text: String,
}

/// The kind of a value.
fn kind_of<D>(value: Value<'_, D>) -> &'static str {
    match value {
        Value::U64(_) => "u64",
        Value::I64(_) => "i64",
        Value::U128(_) => "u128",
        Value::I128(_) => "i128",
        Value::Bool(_) => "bool",
        Value::Str(_) => "text",
        _ => "another",
    }
}

/// Writes a line of a key and a kind.
fn write_kind(text: &mut String, key: &str, kind: &str) -> Result<(), AllocError> {
    writeln!(text, "{key} {kind}")
}

impl VisitSource for Kinds {
    fn visit_pair<D: Display>(&mut self, key: &str, value: Value<'_, D>) -> Result<(), kv::Error> {
        match write_kind(&mut self.text, key, kind_of(value)) {
            Ok(()) => Ok(()),
            Err(_) => Err(kv::Error::msg("no memory")),
        }
    }
}

const KINDS: &str = "bytes u64
change i64
ok bool
by text
wide u128
deep i128
half text
";

/// A field is a pair of its own kind, but for a float, which is a text, unless it has no value, or
/// is the message or the target.
#[test]
fn pairs_are_of_the_kinds_of_fields(rt: HostRuntime) -> Result<(), Fail> {
    let mut room = FloatText::new();
    let values = [
        ("bytes", FieldValue::U64(7)),
        ("message", FieldValue::Text("sent")),
        ("change", FieldValue::I64(-1)),
        ("ok", FieldValue::Bool(true)),
        ("log.target", FieldValue::Text("db")),
        ("by", FieldValue::Text("true")),
        ("gone", FieldValue::Absent),
        ("wide", FieldValue::U128(18_446_744_073_709_551_616)),
        ("deep", FieldValue::I128(-1)),
        ("half", FieldValue::F64(Float::new(0.5, &mut room))),
    ];
    let mut kinds = Kinds {
        text: String::new(rt.alloc()),
    };
    Fields::new(&values).visit(&mut kinds)?;
    assert!(rt; kinds.text.as_str() == KINDS);
    Ok(())
}

#[test]
fn levels_are_the_same(rt: HostRuntime) {
    assert!(rt; log::Level::Error.as_trace() == Level::ERROR);
    assert!(rt; Level::TRACE.as_log() == log::Level::Trace);
    assert!(rt; log::LevelFilter::Off.as_trace() == LevelFilter::OFF);
    assert!(rt; LevelFilter::DEBUG.as_log() == log::LevelFilter::Debug);
    assert!(rt; record_metadata(log::Level::Trace).callsite() == u64::MAX);
}
