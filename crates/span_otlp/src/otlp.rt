//! Points as OpenTelemetry's spans, in its JSON.
ghost use Rattle.std.specs.Option.{option_copied, option_map};
ghost use Rattle.std.specs.Prelude.{◌≡◌, [], IfOk, Some, map, string_bytes};
ghost use Rattle.serde_json.specs.Data.{string};
ghost use Rattle.serde_json.specs.View.{members_view, view};
ghost use Rattle.span_core.specs.Span.{number_of};
ghost use Rattle.span_otlp.specs.Batch.{AreBatches};
ghost use Rattle.span_export.specs.Json.{AllMean, AreCompact, members};
ghost use Rattle.span_otlp.specs.Otlp.{event_of, event_value, events_of, has_error, is_failure, is_of_errors, link_of, link_value, links_of, nanos, parent_of, requests_of, span_at, span_head, span_id, span_value, spans_from, spans_in, spans_of, status_value, trace_id};
ghost use Rattle.span_export.specs.Site.{event_named, named_by, named_so};
ghost use Rattle.span_otlp.specs.declared.batch.Signal.TheVariants as signal;
ghost use Rattle.span_otlp.specs.private.Rooted.{trace_by};
ghost use Rattle.span_otlp.specs.private.Sent.{AreSent};

use crate::attribute::{event_attributes, span_attributes};
use crate::batch::{Batches, Plan, Signal};
use crate::dropped::{dropped_by, missing, put_dropped};
use crate::root::Roots;
use crate::trace_id::{OneTrace, TraceIds};
use crate::trace_parent::TraceParent;
use serde_json::{Map, Value, json, put};
use span_core::{Id, Level};
use span_export::given::latest_given;
use span_export::site::{Name, Spans, find_site};
use span_times::{Happening, Point, Site, Table, busy_time, idle_time, since_opening};
use std::alloc::{AllocError, Global};

/// What OpenTelemetry asks for of a trace beside its points.
#[derive(Debug, Drop)]
pub struct Trace {
    /// The number of the trace, which must not be 0.
    pub id: u128,
    /// The service whose spans these are.
    pub service: String,
    /// When the clock of the points was at 0, in nanoseconds since 1970.
    pub began: u64,
    /// The number of the span of another program below which the outermost spans are, if any is.
    pub parent: Option<u64>,
    /// What else is known of the service, as keys and texts: each key once, and no `service.name`.
    pub attributes: Vec<(String, String)>,
    /// What of the service made the spans and events, as a library.
    pub scope: Scope,
}

/// The instrumentation scope, which stands for a tracer's name: what made spans and events.
///
/// Stands for `opentelemetry::InstrumentationScope`.
#[derive(Debug, Drop)]
pub struct Scope {
    /// Its name, or nothing where that isn't known.
    pub name: String,
    /// Its version, or nothing where that isn't known.
    pub version: String,
}

impl Scope {
    /// Nothing is known.
    pub fn unknown(alloc: Global) -> Scope
        ensures name { string_bytes result.name ≡ [] }
        ensures version { string_bytes result.version ≡ [] }
    {
        Scope {
            name: String::new(alloc),
            version: String::new(alloc),
        }
    }
}

impl Trace {
    /// A trace that goes on here below a span of another program, without attributes and scope.
    pub fn under(alloc: Global, parent: &TraceParent, service: String, began: u64) -> Trace
        ensures id { result.id ≡ parent.now.trace }
        ensures parent { result.parent ≡ Some parent.now.span }
        ensures service { result.service ≡ service }
        ensures began { result.began ≡ began }
        ensures attributes { result.attributes.items ≡ [] }
        ensures scope_name { string_bytes result.scope.name ≡ [] }
        ensures scope_version { string_bytes result.scope.version ≡ [] }
    {
        Trace {
            id: parent.trace,
            service,
            began,
            parent: Some(parent.span),
            attributes: Vec::new(alloc),
            scope: Scope::unknown(alloc),
        }
    }
}

/// The spans that closed among these points, for OpenTelemetry: for each a line that is a request
/// to export it, an `ExportTraceServiceRequest` in JSON. A span whose opening isn't among the
/// points is left out.
///
/// A span has the parent and the events that the timeline found: where it stands under a filter,
/// the nearest span above that this let by; a span without one has the trace's. Each span that it
/// follows from is a link. Events and links are those behind the opening, so hand over all points
/// since then. What a span or an event was given are its attributes, and so are its `level`, its
/// `target`, its lane as `thread.id`, and of a span `busy_ns` and `idle_ns`, unless a field is
/// called so; of two fields of one name the later one. A span in which an event of level ERROR came
/// has the status of an error.
pub fn otlp_lines(
    alloc: Global,
    trace: &Trace,
    points: &[Point],
    table: Table<'_>,
) -> Result<Vec<String>, AllocError>
    ensures mean { IfOk result (λ lines. AllMean (map string_bytes lines.items)
        (requests_of trace.now table.entry points.now)) }
    ensures compact { IfOk result (λ lines. AreCompact (map string_bytes lines.items)) }
{
    otlp_batches(alloc, trace, points, table, 1)
}

/// The lines of `otlp_lines`, with up to so many spans in each request: in the order of their
/// closes, each once, in as few requests as that takes. 0 counts as 1.
pub fn otlp_batches(
    alloc: Global,
    trace: &Trace,
    points: &[Point],
    table: Table<'_>,
    most: usize,
) -> Result<Vec<String>, AllocError>
    ensures mean { IfOk result (λ lines. AreBatches signal.Spans trace.now most
        (spans_of trace.now table.entry points.now) (map string_bytes lines.items)) }
    ensures compact { IfOk result (λ lines. AreCompact (map string_bytes lines.items)) }
{
    otlp_traces(alloc, trace, &OneTrace(trace.id), points, table, most)
}

/// The requests of `otlp_batches`, but with a trace for each root span: these numbers count in
/// place of the trace's. A span is in the trace of its root, and a link says that of the span that
/// it links to.
///
/// A span has its parent's root, unless it has no parent. One whose opening is neither among the
/// points nor in the table's `above` is taken for a root: so hand over all points since the root
/// opened, or each time what `Timeline::take_finished` gives. A span that is linked to and was
/// handed out before is taken for one, too. Roots are below the trace's parent, if it has one,
/// which would be a span of another trace: leave it out.
pub fn otlp_traces<I: TraceIds>(
    alloc: Global,
    trace: &Trace,
    ids: &I,
    points: &[Point],
    table: Table<'_>,
    most: usize,
) -> Result<Vec<String>, AllocError>
    ensures mean { IfOk result (λ lines. AreBatches signal.Spans trace.now most
        (spans_in trace.now (I.trace_of ids.now) table.entry points.now)
        (map string_bytes lines.items)) }
    ensures compact { IfOk result (λ lines. AreCompact (map string_bytes lines.items)) }
{
    let spans = Spans::of(alloc, points, table)?;
    let roots = Roots::of(alloc, points, table)?;
    let traces = Traces { ids, roots };
    let plan = Plan {
        trace,
        signal: Signal::Spans,
        most,
    };
    let batches = batches(alloc, plan, &traces, table, &spans, points)?;
    batches.finish(alloc, plan)
}

/// Which trace each span is in.
#[derive(Drop)]
pub(crate) struct Traces<'a, I> {
    ids: &'a I,
    roots: Roots,
}

/// The spans that close at these points, in batches.
fn batches<I: TraceIds>(
    alloc: Global,
    plan: Plan<'_>,
    traces: &Traces<'_, I>,
    table: Table<'_>,
    spans: &Spans<'_>,
    points: &[Point],
) -> Result<Batches, AllocError>
    ensures { IfOk result (λ batches. AreSent plan.entry
        (spans_from plan.entry.trace.now (trace_by I.trace_of traces.now) table.entry
        (named_by spans.now) [] points.now) batches) }
{
    let mut batches = Batches::new(alloc);
    for (place, point) in points.iter().enumerate() {
        let life = &points[..=place];
        let span = span_at(alloc, plan.trace, traces, table, spans, life, point)?;
        batches.add(alloc, plan, span)?;
    }
    Ok(batches)
}

/// The span that closes at this point, the last of these, if one does that one of these opens.
fn span_at<I: TraceIds>(
    alloc: Global,
    trace: &Trace,
    traces: &Traces<'_, I>,
    table: Table<'_>,
    spans: &Spans<'_>,
    points: &[Point],
    point: &Point,
) -> Result<Option<Value>, AllocError>
    ensures { IfOk result (λ span. option_map view span
        ≡ span_at trace.now (trace_by I.trace_of traces.now) table.entry (named_by spans.now)
        points.now point.now point.now.what) }
{
    let Happening::Closed(id) = point.what else {
        return Ok(None);
    };
    let life = since_opening(points, id);
    let Some(opening) = life.first() else {
        return Ok(None);
    };
    let name = spans.name(id);
    let closed = Closed {
        id,
        opening: *opening,
        close: *point,
    };
    Ok(Some(span(alloc, trace, traces, table, name, closed, life)?))
}

/// A span that closed.
#[derive(Clone, Copy)]
pub(crate) struct Closed {
    id: Id,
    opening: Point,
    close: Point,
}

/// A span, of which these are the points from its opening to its close.
fn span<I: TraceIds>(
    alloc: Global,
    trace: &Trace,
    traces: &Traces<'_, I>,
    table: Table<'_>,
    name: Name<'_>,
    closed: Closed,
    life: &[Point],
) -> Result<Value, AllocError>
    ensures { IfOk result (λ span. view span ≡ span_value trace.now
        (trace_by I.trace_of traces.now) table.entry (named_so name.entry) closed life.now) }
{
    let mut members = span_head(alloc, trace, traces, closed)?;
    let text = Value::try_from_str(alloc, name.name())?;
    put(&mut members, alloc, "name", text)?;
    let (busy, idle) = (busy_time(life, closed.id), idle_time(life, closed.id));
    let attributes = span_attributes(alloc, name, closed.opening.lane, busy, idle)?;
    put(&mut members, alloc, "attributes", attributes)?;
    let events = Value::Array(events(alloc, trace, table, closed.id, life)?);
    put(&mut members, alloc, "events", events)?;
    let links = Value::Array(links(alloc, traces, closed.id, life)?);
    put(&mut members, alloc, "links", links)?;
    let failed = has_error(table.sites, life, closed.id);
    put(&mut members, alloc, "status", status(alloc, failed)?)?;
    put_dropped(&mut members, alloc, dropped_by(table, closed.id, life))?;
    Ok(Value::Object(members))
}

/// Which span it is, and when it opened and closed.
fn span_head<I: TraceIds>(
    alloc: Global,
    trace: &Trace,
    traces: &Traces<'_, I>,
    closed: Closed,
) -> Result<Map<String, Value>, AllocError>
    ensures { IfOk result (λ head. members_view head.entries
        ≡ members (span_head trace.now (trace_by I.trace_of traces.now) closed)) }
{
    let mut head = Map::new(alloc);
    let end = nanos(alloc, trace, closed.close.time)?;
    put(&mut head, alloc, "endTimeUnixNano", end)?;
    let start = nanos(alloc, trace, closed.opening.time)?;
    put(&mut head, alloc, "startTimeUnixNano", start)?;
    put(&mut head, alloc, "kind", Value::from(1u64))?;
    let parent = span_id(alloc, parent_of(trace, closed.opening.what))?;
    put(&mut head, alloc, "parentSpanId", parent)?;
    let id = span_id(alloc, Some(closed.id.into_u64()))?;
    put(&mut head, alloc, "spanId", id)?;
    put(
        &mut head,
        alloc,
        "traceId",
        trace_id(alloc, traces, closed.id)?,
    )?;
    Ok(head)
}

/// What became of a span: an error, or nothing that is known.
fn status(alloc: Global, failed: bool) -> Result<Value, AllocError>
    ensures { IfOk result (λ status. view status ≡ status_value failed) }
{
    if failed {
        json!(in alloc; {"code": 2u64})
    } else {
        json!(in alloc; {})
    }
}

/// Whether an event of level ERROR is in a span among these points.
fn has_error(sites: &[Site], points: &[Point], id: Id) -> bool
    ensures { result ≡ has_error sites.now id points.now }
{
    points.iter().any(|point| is_failure(sites, id, point.what))
}

/// Whether it is an event of level ERROR in a span.
fn is_failure(sites: &[Site], id: Id, what: Happening) -> bool
    ensures { result ≡ is_failure sites.now id what }
{
    match what {
        Happening::Sent(callsite, Some(span)) => {
            span == id && is_of_errors(find_site(sites, callsite))
        }
        _ => false,
    }
}

/// Whether a site has the level ERROR.
fn is_of_errors(site: Option<&Site>) -> bool
    ensures { result ≡ is_of_errors (option_copied site.entry) }
{
    match site {
        Some(site) => site.level == Level::ERROR,
        None => false,
    }
}

/// The number of the parent of a span that is opened so: the trace's where the points have none.
fn parent_of(trace: &Trace, what: Happening) -> Option<u64>
    ensures { result ≡ parent_of trace.now what }
{
    match what {
        Happening::Opened(_, _, Some(parent)) => Some(parent.into_u64()),
        _ => trace.parent,
    }
}

/// The links of a span among these points, to the spans that it follows from.
fn links<I: TraceIds>(
    alloc: Global,
    traces: &Traces<'_, I>,
    id: Id,
    since: &[Point],
) -> Result<Vec<Value>, AllocError>
    ensures { IfOk result (λ links. map view links.items
        ≡ links_of (trace_by I.trace_of traces.now) id since.now) }
{
    let mut links = Vec::new(alloc);
    for point in since {
        if let Some(link) = link_of(alloc, traces, id, point.what)? {
            links.push(link)?;
        }
    }
    Ok(links)
}

/// The link of what happened, if this span follows from another by it.
fn link_of<I: TraceIds>(
    alloc: Global,
    traces: &Traces<'_, I>,
    id: Id,
    what: Happening,
) -> Result<Option<Value>, AllocError>
    ensures { IfOk result (λ link. option_map view link
        ≡ link_of (trace_by I.trace_of traces.now) id what) }
{
    match what {
        Happening::Followed(span, from) if span == id => Ok(Some(link(alloc, traces, from)?)),
        _ => Ok(None),
    }
}

/// A link to a span, which has a trace of its own.
fn link<I: TraceIds>(alloc: Global, traces: &Traces<'_, I>, from: Id) -> Result<Value, AllocError>
    ensures { IfOk result (λ link. view link
        ≡ link_value (trace_by I.trace_of traces.now) from) }
{
    json!(in alloc; {
        "traceId": trace_id(alloc, traces, from)?,
        "spanId": span_id(alloc, Some(from.into_u64()))?
    })
}

/// The events of a span among these points.
fn events(
    alloc: Global,
    trace: &Trace,
    table: Table<'_>,
    id: Id,
    since: &[Point],
) -> Result<Vec<Value>, AllocError>
    ensures { IfOk result (λ events. map view events.items
        ≡ events_of trace.now table.entry id since.now) }
{
    let mut events = Vec::new(alloc);
    for point in since {
        if let Some(event) = event_of(alloc, trace, table, id, point)? {
            events.push(event)?;
        }
    }
    Ok(events)
}

/// The event of a point, if it is an event of this span.
fn event_of(
    alloc: Global,
    trace: &Trace,
    table: Table<'_>,
    id: Id,
    point: &Point,
) -> Result<Option<Value>, AllocError>
    ensures { IfOk result (λ event. option_map view event
        ≡ event_of trace.now table.entry id point.now point.now.what) }
{
    match point.what {
        Happening::Sent(callsite, Some(span)) if span == id => {
            Ok(Some(event(alloc, trace, table, point, callsite)?))
        }
        _ => Ok(None),
    }
}

/// An event of a span.
fn event(
    alloc: Global,
    trace: &Trace,
    table: Table<'_>,
    point: &Point,
    callsite: u64,
) -> Result<Value, AllocError>
    ensures { IfOk result (λ event. view event
        ≡ event_value trace.now table.entry (event_named table.entry point.now callsite)
        point.now) }
{
    let given = latest_given(alloc, point.fields_in(table.fields))?;
    let name = Name {
        site: find_site(table.sites, callsite),
        given: &given,
    };
    let mut members = Map::new(alloc);
    let attributes = event_attributes(alloc, name, point.lane)?;
    put(&mut members, alloc, "attributes", attributes)?;
    let text = Value::try_from_str(alloc, name.name())?;
    put(&mut members, alloc, "name", text)?;
    let time = nanos(alloc, trace, point.time)?;
    put(&mut members, alloc, "timeUnixNano", time)?;
    put_dropped(&mut members, alloc, missing(table, point))?;
    Ok(Value::Object(members))
}

/// The number of the trace that a span is in, as 32 hex digits.
fn trace_id<I: TraceIds>(
    alloc: Global,
    traces: &Traces<'_, I>,
    span: Id,
) -> Result<Value, AllocError>
    ensures { IfOk result (λ text. view text
        ≡ string (trace_id (trace_by I.trace_of traces.now (number_of span)))) }
{
    let number = traces.ids.trace_id(traces.roots.root(span));
    Ok(Value::String(hex::encode(alloc, number.to_be_bytes())?))
}

/// The number of a span as 16 hex digits, and none where there is no span.
fn span_id(alloc: Global, number: Option<u64>) -> Result<Value, AllocError>
    ensures { IfOk result (λ text. view text ≡ string (span_id number)) }
{
    let text = match number {
        Some(number) => hex::encode(alloc, number.to_be_bytes())?,
        None => String::new(alloc),
    };
    Ok(Value::String(text))
}

/// A time of points as nanoseconds since 1970, which are a text.
pub(crate) fn nanos(alloc: Global, trace: &Trace, time: u64) -> Result<Value, AllocError>
    ensures { IfOk result (λ text. view text ≡ nanos trace.now time) }
{
    let time = trace.began.saturating_add(time);
    Ok(Value::String(format!(in alloc; "{time}")?))
}
