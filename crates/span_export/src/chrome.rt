//! Points in Chrome's trace format, which Perfetto opens.
ghost use Rattle.std.specs.BTreeSet.{contains};
ghost use Rattle.std.specs.List.{AllByRecursion, list_any};
ghost use Rattle.std.specs.Ordering.{nat_cmp};
ghost use Rattle.std.specs.Option.{option_map};
ghost use Rattle.std.specs.Prelude.{◌≡◌, ◌≤◌, ◌++◌, ◌==◌, ◌||◌, [], ◌∷◌, ℕ, IfOk, OnOk, codes, decimal, filter, flat_map, map, not, reverse, string_bytes};
ghost use Rattle.serde_json.specs.Data.{depth, string};
ghost use Rattle.serde_json.specs.Read.{max_depth};
ghost use Rattle.serde_json.specs.View.{items_view, view};
ghost use Rattle.span_core.specs.Span.{number_of};
ghost use Rattle.span_export.specs.Chrome.{args_of, begin_event, begin_of, change_event, changes, closed_on, end_event, events_at, events_since, instant, lane_named, lanes_in, micros, naming, own_event, redrawn, trace_of, trace_with};
ghost use Rattle.span_export.specs.Chrome.Change.{Begins, Ends};
ghost use Rattle.span_export.specs.Json.{AllMean, AreCompact, Means};
ghost use Rattle.span_export.specs.Entry.{is_of, spans_on};
ghost use Rattle.span_export.specs.Moment.{names};
ghost use Rattle.span_export.specs.Site.{event_named, given_said, named_so};

use crate::entry::{Entry, go_on, since_newest, since_oldest, spans_on};
use crate::given::latest_given;
use crate::site::{Name, Spans, find_site};
use crate::value::value_of;
use serde_json::{Map, Value, json, put};
use span_core::{Id, Lane};
use span_times::{Happening, OwnedField, Point, Table};
use std::alloc::{AllocError, Global};
use std::collections::BTreeSet;
use std::num::nearest_u64_to_f64;

/// How many nanoseconds are a microsecond.
const MICRO: f64 = 1000.0;

/// When something happens in a trace, and how spans are called.
#[derive(Clone, Copy)]
pub(crate) struct Moment<'s, 'a> {
    table: Table<'a>,
    spans: &'s Spans<'a>,
    /// In nanoseconds since the trace began.
    time: u64,
}

/// These points in Chrome's trace format, which Perfetto opens: a text in JSON.
///
/// Each entry begins a box of its lane, which ends with the exit, or where the span closes: an exit
/// from it then writes nothing. The format has the boxes of a lane end in order, the newest first.
/// Where another has to end, those above it end too, and begin again. Each opening and close begins
/// and ends a duration of its span; an event is an instant. The lane with the number 3 is called
/// `lane 3`. Times are in microseconds since the first point, with fractions.
pub fn chrome_text(alloc: Global, points: &[Point], table: Table<'_>) -> Result<String, AllocError>
    ensures { IfOk result
        (λ text. Means (string_bytes text) (trace_of table.entry points.now)) }
{
    let events = trace_events(alloc, points, table, begin_of(points))?;
    let trace = trace_value(alloc, events)?;
    trace.to_string(alloc)
}

/// The trace events of these points as `chrome_text` has them, each a text in JSON. The trace began
/// when the points' clock showed `begin`, in nanoseconds; what came before that is at 0.
///
/// They are for a file that grows while a program runs: it begins with `[`, each event has a comma
/// behind it, and viewers take it without an end, even from a program that was killed. Hand over
/// batches of what has closed, as `Timeline::take_finished` gives them. Each batch names its lanes,
/// and within a batch each end is that of its lane's newest box.
pub fn chrome_lines(
    alloc: Global,
    points: &[Point],
    table: Table<'_>,
    begin: u64,
) -> Result<Vec<String>, AllocError>
    ensures mean { IfOk result (λ lines. AllMean (map string_bytes lines.items)
        (events_since table.entry begin points.now)) }
    ensures compact { IfOk result (λ lines. AreCompact (map string_bytes lines.items)) }
{
    let events = trace_events(alloc, points, table, begin)?;
    lines_of(alloc, &events)
}

/// A line for each value.
fn lines_of(alloc: Global, values: &[Value]) -> Result<Vec<String>, AllocError>
    requires { AllByRecursion (λ v. depth (view v) ≤ max_depth) values.now }
    ensures mean { IfOk result
        (λ lines. AllMean (map string_bytes lines.items) (map view values.now)) }
    ensures compact { IfOk result (λ lines. AreCompact (map string_bytes lines.items)) }
{
    let mut lines = Vec::new(alloc);
    for value in values {
        lines.push(value.to_string(alloc)?)?;
    }
    Ok(lines)
}

/// A trace of these events.
fn trace_value(alloc: Global, events: Vec<Value>) -> Result<Value, AllocError>
    ensures { IfOk result (λ trace. view trace ≡ trace_with (items_view events.items)) }
{
    json!(in alloc; {"traceEvents": Value::Array(events)})
}

/// The trace events of points, in their order, in a trace that began at this time.
fn trace_events(
    alloc: Global,
    points: &[Point],
    table: Table<'_>,
    begin: u64,
) -> Result<Vec<Value>, AllocError>
    ensures { IfOk result
        (λ events. map view events.items ≡ events_since table.entry begin points.now) }
{
    let spans = Spans::of(alloc, points, table)?;
    let mut events = Vec::new(alloc);
    let mut entries = Vec::new(alloc);
    let mut known = BTreeSet::new(alloc);
    for point in points {
        name_lane(alloc, &mut events, &mut known, point.lane)?;
        let moment = Moment {
            table,
            spans: &spans,
            time: point.time.saturating_sub(begin),
        };
        write_point(alloc, &mut events, &moment, &entries, point)?;
        go_on(&mut entries, point)?;
    }
    Ok(events)
}

/// When a trace of these points begins.
fn begin_of(points: &[Point]) -> u64
    ensures { result ≡ begin_of points.now }
{
    match points.first() {
        Some(point) => point.time,
        None => 0,
    }
}

/// Writes the name of a lane, unless it has one.
fn name_lane(
    alloc: Global,
    events: &mut Vec<Value>,
    known: &mut BTreeSet<u32>,
    lane: Lane,
) -> Result<(), AllocError>
    ensures events { OnOk result (map view events.new.items
        ≡ map view events.old.items ++ naming (contains nat_cmp known.old lane.0) lane.0) }
    ensures known { OnOk result ((n : ℕ) → contains nat_cmp known.new n
        ≡ (contains nat_cmp known.old n || lane.0 == n)) }
{
    if known.insert(lane.0)? {
        events.push(lane_named(alloc, lane)?)?;
    }
    Ok(())
}

/// The trace event by which viewers call a lane so.
fn lane_named(alloc: Global, lane: Lane) -> Result<Value, AllocError>
    ensures { IfOk result (λ event. view event ≡ lane_named lane.0) }
{
    let name = format!(in alloc; "lane {}", lane.0)?;
    json!(in alloc; {
        "ph": "M",
        "name": "thread_name",
        "pid": 1u64,
        "tid": lane.0,
        "args": json!(in alloc; {"name": Value::String(name)})?
    })
}

/// Writes the trace events of a point, where these entries last before it.
fn write_point(
    alloc: Global,
    events: &mut Vec<Value>,
    moment: &Moment<'_, '_>,
    entries: &[Entry],
    point: &Point,
) -> Result<(), AllocError>
    ensures { OnOk result (map view events.new.items ≡ map view events.old.items
        ++ events_at moment.now.table (names moment.now) entries.now moment.now.time
        point.now) }
{
    write_changes(alloc, events, moment, entries, point)?;
    if let Some(event) = own_event(alloc, moment, point)? {
        events.push(event)?;
    }
    Ok(())
}

/// Writes what changes of the boxes with a point, where these entries last before it.
fn write_changes(
    alloc: Global,
    events: &mut Vec<Value>,
    moment: &Moment<'_, '_>,
    entries: &[Entry],
    point: &Point,
) -> Result<(), AllocError>
    ensures { OnOk result (map view events.new.items ≡ map view events.old.items
        ++ map (change_event (names moment.now) moment.now.time)
        (changes entries.now point.now point.now.what)) }
{
    match point.what {
        Happening::Entered(id) => write_begins(alloc, events, moment, point.lane, id),
        Happening::Left(id) => {
            let since = since_newest(entries, point.lane, id);
            redraw(alloc, events, moment, since, point.lane, id)
        }
        Happening::Closed(id) => close(alloc, events, moment, entries, id),
        _ => Ok(()),
    }
}

/// Writes that a box begins.
fn write_begins(
    alloc: Global,
    events: &mut Vec<Value>,
    moment: &Moment<'_, '_>,
    lane: Lane,
    id: Id,
) -> Result<(), AllocError>
    ensures { OnOk result (map view events.new.items ≡ map view events.old.items
        ++ change_event (names moment.now) moment.now.time (Begins lane.0 (number_of id)) ∷ []) }
{
    events.push(begin_event(alloc, "B", moment, lane, id)?)?;
    Ok(())
}

/// Writes that a box ends.
fn write_ends(
    alloc: Global,
    events: &mut Vec<Value>,
    moment: &Moment<'_, '_>,
    lane: Lane,
    id: Id,
) -> Result<(), AllocError>
    ensures { OnOk result (map view events.new.items ≡ map view events.old.items
        ++ change_event (names moment.now) moment.now.time (Ends lane.0 (number_of id)) ∷ []) }
{
    events.push(end_event(alloc, "E", moment, lane, id)?)?;
    Ok(())
}

/// Writes for each lane that is in a span that its boxes end up to the oldest of the span, and that
/// those of others begin again.
fn close(
    alloc: Global,
    events: &mut Vec<Value>,
    moment: &Moment<'_, '_>,
    entries: &[Entry],
    id: Id,
) -> Result<(), AllocError>
    ensures { OnOk result (map view events.new.items ≡ map view events.old.items
        ++ map (change_event (names moment.now) moment.now.time)
        (flat_map (closed_on (number_of id) entries.now) (lanes_in (number_of id) entries.now))) }
{
    for place in 0..entries.len() {
        let lane = entries[place].lane;
        if entries[place].span == id && !is_among(&entries[place + 1..], lane, id) {
            let since = since_oldest(entries, lane, id);
            redraw(alloc, events, moment, since, lane, id)?;
        }
    }
    Ok(())
}

/// Whether one of these entries is of this lane into this span.
fn is_among(entries: &[Entry], lane: Lane, id: Id) -> bool
    ensures { result ≡ list_any (is_of lane.0 (number_of id)) entries.now }
{
    entries.iter().any(|entry| entry.is_of(lane, id))
}

/// Writes that the boxes of a lane's entries among these end, and that those but for this span's
/// begin again.
fn redraw(
    alloc: Global,
    events: &mut Vec<Value>,
    moment: &Moment<'_, '_>,
    entries: &[Entry],
    lane: Lane,
    id: Id,
) -> Result<(), AllocError>
    ensures { OnOk result (map view events.new.items ≡ map view events.old.items
        ++ map (change_event (names moment.now) moment.now.time)
        (redrawn (number_of id) lane.0 (spans_on lane.0 entries.now))) }
{
    let spans = spans_on(alloc, entries, lane)?;
    end_all(alloc, events, moment, &spans, lane)?;
    begin_others(alloc, events, moment, &spans, lane, id)
}

/// Writes that the boxes of these spans end, the last first.
fn end_all(
    alloc: Global,
    events: &mut Vec<Value>,
    moment: &Moment<'_, '_>,
    spans: &[Id],
    lane: Lane,
) -> Result<(), AllocError>
    ensures { OnOk result (map view events.new.items ≡ map view events.old.items
        ++ map (change_event (names moment.now) moment.now.time)
        (map (Ends lane.0) (reverse (map number_of spans.now)))) }
{
    for place in (0..spans.len()).rev() {
        write_ends(alloc, events, moment, lane, spans[place])?;
    }
    Ok(())
}

/// Writes that the boxes of these spans begin, but for this span's.
fn begin_others(
    alloc: Global,
    events: &mut Vec<Value>,
    moment: &Moment<'_, '_>,
    spans: &[Id],
    lane: Lane,
    id: Id,
) -> Result<(), AllocError>
    ensures { OnOk result (map view events.new.items ≡ map view events.old.items
        ++ map (change_event (names moment.now) moment.now.time)
        (map (Begins lane.0) (filter (λ x. not (x == number_of id)) (map number_of spans.now)))) }
{
    for span in spans {
        if *span != id {
            write_begins(alloc, events, moment, lane, *span)?;
        }
    }
    Ok(())
}

/// The trace event of a point itself, if it has one.
fn own_event(
    alloc: Global,
    moment: &Moment<'_, '_>,
    point: &Point,
) -> Result<Option<Value>, AllocError>
    ensures { IfOk result (λ event. option_map view event
        ≡ own_event (event_named moment.now.table point.now) (names moment.now) point.now.lane.0
        moment.now.time point.now.what) }
{
    let event = match point.what {
        Happening::Opened(id, _, _) => begin_event(alloc, "b", moment, point.lane, id)?,
        Happening::Closed(id) => end_event(alloc, "e", moment, point.lane, id)?,
        Happening::Sent(callsite, _) => instant(alloc, moment, point, callsite)?,
        _ => return Ok(None),
    };
    Ok(Some(event))
}

/// The trace event of a span in a phase with which something begins, with what the span was given.
fn begin_event(
    alloc: Global,
    phase: &str,
    moment: &Moment<'_, '_>,
    lane: Lane,
    id: Id,
) -> Result<Value, AllocError>
    ensures { IfOk result (λ event. view event
        ≡ begin_event phase.now (names moment.now (number_of id)) (number_of id) lane.0
        moment.now.time) }
{
    let name = moment.spans.name(id);
    json!(in alloc; {
        "ph": phase,
        "name": name.name(),
        "cat": name.target(),
        "ts": micros(moment.time),
        "pid": 1u64,
        "tid": lane.0,
        "id": id_text(alloc, id)?,
        "args": args(alloc, name.given)?
    })
}

/// The trace event of a span in a phase with which something ends.
fn end_event(
    alloc: Global,
    phase: &str,
    moment: &Moment<'_, '_>,
    lane: Lane,
    id: Id,
) -> Result<Value, AllocError>
    ensures { IfOk result (λ event. view event
        ≡ end_event phase.now (names moment.now (number_of id)) (number_of id) lane.0
        moment.now.time) }
{
    let name = moment.spans.name(id);
    json!(in alloc; {
        "ph": phase,
        "name": name.name(),
        "cat": name.target(),
        "ts": micros(moment.time),
        "pid": 1u64,
        "tid": lane.0,
        "id": id_text(alloc, id)?
    })
}

/// Fields by their names.
fn args(alloc: Global, given: &[&OwnedField]) -> Result<Value, AllocError>
    ensures { IfOk result (λ args. view args ≡ args_of (given_said given.now)) }
{
    let mut members = Map::new(alloc);
    for field in given {
        let value = value_of(alloc, &field.value)?;
        put(&mut members, alloc, field.name.as_str(), value)?;
    }
    Ok(Value::Object(members))
}

/// Nanoseconds as microseconds: a thousandth of the nearest float, as floats divide.
#[tactic(auto, using(crate::proofs::Thousand::thousand))]
fn micros(time: u64) -> Value
    ensures { view result ≡ micros time }
{
    Value::from(nearest_u64_to_f64(time) / MICRO)
}

/// The number of a span as a text: readers of JSON keep no number above 2^53 whole.
fn id_text(alloc: Global, id: Id) -> Result<Value, AllocError>
    ensures { IfOk result (λ text. view text ≡ string (decimal (number_of id))) }
{
    let number = id.into_u64();
    Ok(Value::String(format!(in alloc; "{number}")?))
}

/// The trace event of an event: an instant of its lane.
fn instant(
    alloc: Global,
    moment: &Moment<'_, '_>,
    point: &Point,
    callsite: u64,
) -> Result<Value, AllocError>
    ensures { IfOk result (λ event. view event
        ≡ instant (event_named moment.now.table point.now callsite) point.now.lane.0
        moment.now.time) }
{
    let given = latest_given(alloc, point.fields_in(moment.table.fields))?;
    let name = Name {
        site: find_site(moment.table.sites, callsite),
        given: &given,
    };
    json!(in alloc; {
        "ph": "i",
        "name": name.name(),
        "cat": name.target(),
        "ts": micros(moment.time),
        "pid": 1u64,
        "tid": point.lane.0,
        "s": "t",
        "args": args(alloc, name.given)?
    })
}
