//! Requests to export, each with up to so many spans or log records.
ghost use Rattle.std.specs.Prelude.{◌≡◌, ◌∷◌, ◌++◌, [], IfOk, List, OnOk, map, string_bytes};
ghost use Rattle.std.specs.Option.{option_map, option_to_list};
ghost use Rattle.serde_json.specs.Data.{Data};
ghost use Rattle.serde_json.specs.View.{view};
ghost use Rattle.span_otlp.specs.Batch.{known_attribute, request_value, resource_attributes, scope_value};
ghost use Rattle.span_otlp.specs.declared.batch.Signal.TheVariants.{Logs, Spans};
ghost use Rattle.span_otlp.specs.private.Sent.{AreAllSent, AreSent, HasSent, HaveRoom, IsWithin};

use crate::attribute::text_attribute;
use crate::otlp::{Scope, Trace};
use serde_json::{Value, json};
use std::alloc::{AllocError, Global};
use std::mem;

/// What requests export.
#[derive(Clone, Copy)]
pub(crate) enum Signal {
    Spans,
    Logs,
}

/// What requests export, of which trace, and how many of it each has at most.
#[derive(Clone, Copy)]
pub(crate) struct Plan<'a> {
    pub(crate) trace: &'a Trace,
    pub(crate) signal: Signal,
    pub(crate) most: usize,
}

/// Requests, each a line, and what waits for the next one.
#[derive(Drop)]
pub(crate) struct Batches {
    lines: Vec<String>,
    waiting: Vec<Value>,
}

impl Batches {
    /// Nothing yet.
    pub(crate) fn new(alloc: Global) -> Batches
        ensures lines { result.lines.items ≡ [] }
        ensures waiting { result.waiting.items ≡ [] }
    {
        Batches {
            lines: Vec::new(alloc),
            waiting: Vec::new(alloc),
        }
    }

    /// One more, if there is one: it waits for the next request, behind those that wait, unless
    /// these are as many as a request has. Then they go off before.
    pub(crate) fn add(
        &mut self,
        alloc: Global,
        plan: Plan<'_>,
        value: Option<Value>,
    ) -> Result<(), AllocError>
        ensures { OnOk result ((all : List Data) → IsWithin 6 (option_map view value)
            → AreSent plan.entry all self.old
            → AreSent plan.entry (all ++ option_to_list (option_map view value)) self.new) }
    {
        let Some(value) = value else {
            return Ok(());
        };
        self.make_room(alloc, plan)?;
        self.waiting.push(value)?;
        Ok(())
    }

    /// As many as a request has don't wait for long.
    fn make_room(&mut self, alloc: Global, plan: Plan<'_>) -> Result<(), AllocError>
        ensures { OnOk result ((all : List Data) → AreSent plan.entry all self.old
            → HaveRoom plan.entry all self.new) }
    {
        if self.waiting.len() >= plan.most.max(1) {
            return self.send(alloc, plan);
        }
        Ok(())
    }

    /// A request has what waits.
    fn send(&mut self, alloc: Global, plan: Plan<'_>) -> Result<(), AllocError>
        ensures { OnOk result (HasSent plan.entry self.old self.new) }
    {
        let values = mem::replace(&mut self.waiting, Vec::new(alloc));
        let request = request_for(alloc, plan, values)?;
        self.lines.push(request.to_string(alloc)?)?;
        Ok(())
    }

    /// All requests. The last one has what waited.
    pub(crate) fn finish(self, alloc: Global, plan: Plan<'_>) -> Result<Vec<String>, AllocError>
        ensures { IfOk result (λ lines. (all : List Data) → AreSent plan.entry all self
            → AreAllSent plan.entry all (map string_bytes lines.items)) }
    {
        let mut batches = self;
        batches.send_rest(alloc, plan)?;
        let Batches { lines, waiting } = batches;
        Ok(lines)
    }

    /// A last request has what waits, if anything does.
    fn send_rest(&mut self, alloc: Global, plan: Plan<'_>) -> Result<(), AllocError>
        ensures { OnOk result ((all : List Data) → AreSent plan.entry all self.old
            → AreAllSent plan.entry all (map string_bytes self.new.lines.items)) }
    {
        if self.waiting.is_empty() {
            return Ok(());
        }
        self.send(alloc, plan)
    }
}

/// A request to export these.
fn request_for(alloc: Global, plan: Plan<'_>, values: Vec<Value>) -> Result<Value, AllocError>
    ensures { IfOk result (λ request. view request
        ≡ request_value plan.entry.signal plan.entry.trace.now (map view values.items)) }
{
    match plan.signal {
        Signal::Spans => request_for_spans(alloc, plan.trace, values),
        Signal::Logs => request_for_records(alloc, plan.trace, values),
    }
}

/// A request to export these spans.
fn request_for_spans(alloc: Global, trace: &Trace, spans: Vec<Value>) -> Result<Value, AllocError>
    ensures { IfOk result
        (λ request. view request ≡ request_value Spans trace.now (map view spans.items)) }
{
    let attributes = Value::Array(resource_attributes(alloc, trace)?);
    let spans = Value::Array(spans);
    json!(in alloc; {
        "resourceSpans": [{
            "resource": {"attributes": attributes},
            "scopeSpans": [{"scope": scope(alloc, &trace.scope)?, "spans": spans}]
        }]
    })
}

/// A request to export these log records.
fn request_for_records(
    alloc: Global,
    trace: &Trace,
    records: Vec<Value>,
) -> Result<Value, AllocError>
    ensures { IfOk result
        (λ request. view request ≡ request_value Logs trace.now (map view records.items)) }
{
    let attributes = Value::Array(resource_attributes(alloc, trace)?);
    let records = Value::Array(records);
    json!(in alloc; {
        "resourceLogs": [{
            "resource": {"attributes": attributes},
            "scopeLogs": [{"logRecords": records, "scope": scope(alloc, &trace.scope)?}]
        }]
    })
}

/// What made the spans or records.
fn scope(alloc: Global, scope: &Scope) -> Result<Value, AllocError>
    ensures { IfOk result (λ made. view made ≡ scope_value scope.now) }
{
    json!(in alloc; {"name": scope.name.as_str(), "version": scope.version.as_str()})
}

/// What is known of the service: its name, and the attributes of the trace.
fn resource_attributes(alloc: Global, trace: &Trace) -> Result<Vec<Value>, AllocError>
    ensures { IfOk result (λ pairs. map view pairs.items ≡ resource_attributes trace.now) }
{
    let mut pairs = Vec::new(alloc);
    pairs.push(text_attribute(alloc, "service.name", trace.service.as_str())?)?;
    write_known(alloc, &mut pairs, &trace.attributes)?;
    Ok(pairs)
}

/// Writes keys and texts as attributes behind these.
fn write_known(
    alloc: Global,
    pairs: &mut Vec<Value>,
    known: &[(String, String)],
) -> Result<(), AllocError>
    ensures { OnOk result (map view pairs.new.items
        ≡ map view pairs.old.items ++ map known_attribute known.now) }
{
    for item in known {
        pairs.push(text_attribute(alloc, item.0.as_str(), item.1.as_str())?)?;
    }
    Ok(())
}
