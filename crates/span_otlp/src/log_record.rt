//! Events outside every span as OpenTelemetry's log records, in its JSON.
ghost use Rattle.std.specs.Option.{option_map};
ghost use Rattle.std.specs.Prelude.{◌≡◌, IfOk, map, string_bytes};
ghost use Rattle.serde_json.specs.View.{view};
ghost use Rattle.span_core.specs.Level.{level_number};
ghost use Rattle.span_export.specs.Json.{AreCompact};
ghost use Rattle.span_export.specs.Site.{event_named, named_so};
ghost use Rattle.span_otlp.specs.Batch.{AreBatches};
ghost use Rattle.span_otlp.specs.LogRecord.{record_of, record_value, records_of, severity, severity_of};
ghost use Rattle.span_otlp.specs.declared.batch.Signal.TheVariants as signal;
ghost use Rattle.span_otlp.specs.private.Sent.{AreSent};

use crate::attribute::record_attributes;
use crate::batch::{Batches, Plan, Signal};
use crate::dropped::{missing, put_dropped};
use crate::otlp::{Trace, nanos};
use crate::value::words;
use serde_json::{Map, Value, put};
use span_core::Level;
use span_export::given::latest_given;
use span_export::site::{Name, find_site};
use span_times::{Happening, Point, Table};
use std::alloc::{AllocError, Global};

/// The events outside every span among these points, for OpenTelemetry: lines that are requests to
/// export log records, each an `ExportLogsServiceRequest` in JSON with up to so many of these. They
/// are in the order of the points, each once, in as few requests as that takes. 0 counts as 1.
///
/// A record has the event's name for its body, and the severity of its level. What the event was
/// given are its attributes, and so are its target and its lane unless a field is called `target`
/// or `thread.id`; of two fields of one name the later one. Of the trace this needs the service,
/// with its attributes and scope, and when the clock was at 0.
pub fn otlp_logs(
    alloc: Global,
    trace: &Trace,
    points: &[Point],
    table: Table<'_>,
    most: usize,
) -> Result<Vec<String>, AllocError>
    ensures mean { IfOk result (λ lines. AreBatches signal.Logs trace.now most
        (records_of trace.now table.entry points.now) (map string_bytes lines.items)) }
    ensures compact { IfOk result (λ lines. AreCompact (map string_bytes lines.items)) }
{
    let plan = Plan {
        trace,
        signal: Signal::Logs,
        most,
    };
    let batches = records(alloc, plan, table, points)?;
    batches.finish(alloc, plan)
}

/// The log records of these points, in batches.
fn records(
    alloc: Global,
    plan: Plan<'_>,
    table: Table<'_>,
    points: &[Point],
) -> Result<Batches, AllocError>
    ensures { IfOk result (λ batches. AreSent plan.entry
        (records_of plan.entry.trace.now table.entry points.now) batches) }
{
    let mut batches = Batches::new(alloc);
    for point in points {
        let value = record_of(alloc, plan.trace, table, point)?;
        batches.add(alloc, plan, value)?;
    }
    Ok(batches)
}

/// The log record of a point, if it is an event outside every span.
fn record_of(
    alloc: Global,
    trace: &Trace,
    table: Table<'_>,
    point: &Point,
) -> Result<Option<Value>, AllocError>
    ensures { IfOk result (λ made. option_map view made
        ≡ record_of trace.now table.entry point.now point.now.what) }
{
    match point.what {
        Happening::Sent(callsite, None) => Ok(Some(log_record(
            alloc, trace, table, point, callsite,
        )?)),
        _ => Ok(None),
    }
}

/// An event as a log record.
fn log_record(
    alloc: Global,
    trace: &Trace,
    table: Table<'_>,
    point: &Point,
    callsite: u64,
) -> Result<Value, AllocError>
    ensures { IfOk result (λ made. view made
        ≡ record_value trace.now table.entry (event_named table.entry point.now callsite)
        point.now) }
{
    let given = latest_given(alloc, point.fields_in(table.fields))?;
    let name = Name {
        site: find_site(table.sites, callsite),
        given: &given,
    };
    let mut members = Map::new(alloc);
    let attributes = record_attributes(alloc, name, point.lane)?;
    put(&mut members, alloc, "attributes", attributes)?;
    put(&mut members, alloc, "body", words(alloc, name.name())?)?;
    let number = Value::from(severity(name));
    put(&mut members, alloc, "severityNumber", number)?;
    let text = Value::try_from_str(alloc, name.level())?;
    put(&mut members, alloc, "severityText", text)?;
    let time = nanos(alloc, trace, point.time)?;
    put(&mut members, alloc, "timeUnixNano", time)?;
    put_dropped(&mut members, alloc, missing(table, point))?;
    Ok(Value::Object(members))
}

/// The number of an event's severity, and 0 where its level isn't known.
fn severity(name: Name<'_>) -> u64
    ensures { result ≡ severity (named_so name.entry) }
{
    match name.site {
        Some(site) => severity_of(site.level),
        None => 0,
    }
}

/// OpenTelemetry's number of a level's severity.
fn severity_of(level: Level) -> u64
    ensures { result ≡ severity_of (level_number level) }
{
    if level == Level::ERROR {
        17
    } else if level == Level::WARN {
        13
    } else if level == Level::INFO {
        9
    } else if level == Level::DEBUG {
        5
    } else {
        1
    }
}
