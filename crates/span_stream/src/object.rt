//! Objects in JSON of events and spans.
ghost use Rattle.std.specs.Prelude.{◌≡◌, IfOk, OnOk, map, string_bytes};
ghost use Rattle.serde_json.specs.Data.{string};
ghost use Rattle.serde_json.specs.View.{members_view, view};
ghost use Rattle.span_core.specs.Event.{event_metadata, event_values};
ghost use Rattle.span_stream.specs.Object.{event_data, fields_data, plain_members, span_data, with_lane, with_spans};

use crate::values::put_values;
use serde_json::{Map, Value, put};
use span_core::{Event, FieldValue, Lane};
use std::alloc::{AllocError, Global};

/// How many bytes a text has room for beyond its own. The allocator keeps a few blocks of each size
/// at hand, and names of members take those of the smallest.
const SPARE: usize = 32;

/// The object of an event on a lane with this name, in these spans, with the text of its time.
pub(crate) fn event_object(
    alloc: Global,
    stamp: String,
    event: &Event<'_>,
    lane: Lane,
    name: &str,
    spans: Vec<Value>,
) -> Result<Value, AllocError>
    ensures { IfOk result (λ object. view object
        ≡ event_data (string_bytes stamp) event.now lane.0 name.now (map view spans.items)) }
{
    let mut members = plain_members(alloc, stamp, event)?;
    put_lane(&mut members, alloc, lane, name)?;
    put_spans(&mut members, alloc, spans)?;
    Ok(Value::Object(members))
}

/// The object of a span: its values, and its name in the place of a value called `name`.
pub(crate) fn span_object(
    alloc: Global,
    name: &str,
    values: Map<String, Value>,
) -> Result<Value, AllocError>
    ensures { IfOk result (λ object. view object
        ≡ span_data name.now (members_view values.entries)) }
{
    let mut members = values;
    put(&mut members, alloc, "name", text_of(alloc, name)?)?;
    Ok(Value::Object(members))
}

/// The members of an event's object, but for the spans round it.
fn plain_members(
    alloc: Global,
    stamp: String,
    event: &Event<'_>,
) -> Result<Map<String, Value>, AllocError>
    ensures { IfOk result (λ members. members_view members.entries
        ≡ plain_members (string_bytes stamp) (event_metadata event.now)
        (event_values event.now)) }
{
    let metadata = event.metadata();
    let level = text_of(alloc, metadata.level().as_str())?;
    let target = text_of(alloc, metadata.target())?;
    let fields = fields_of(alloc, metadata.name(), event.values())?;
    let mut members = Map::new(alloc);
    put(&mut members, alloc, "timestamp", Value::String(stamp))?;
    put(&mut members, alloc, "level", level)?;
    put(&mut members, alloc, "target", target)?;
    put(&mut members, alloc, "fields", fields)?;
    Ok(members)
}

/// An event's name as its message, and its values; one called `message` stands in its place.
fn fields_of(
    alloc: Global,
    name: &str,
    values: &[(&'static str, FieldValue<'_>)],
) -> Result<Value, AllocError>
    ensures { IfOk result (λ fields. view fields ≡ fields_data name.now values.now) }
{
    let mut fields = Map::new(alloc);
    put(&mut fields, alloc, "message", text_of(alloc, name)?)?;
    put_values(&mut fields, alloc, values)?;
    Ok(Value::Object(fields))
}

/// Puts a lane's number and name into an object, where the lane has a name.
fn put_lane(
    members: &mut Map<String, Value>,
    alloc: Global,
    lane: Lane,
    name: &str,
) -> Result<(), AllocError>
    ensures { OnOk result (members_view members.new.entries
        ≡ with_lane lane.0 name.now (members_view members.old.entries)) }
{
    if name.is_empty() {
        return Ok(());
    }
    put(members, alloc, "threadId", Value::from(u64::from(lane.0)))?;
    put(members, alloc, "threadName", text_of(alloc, name)?)
}

/// Puts the last of some spans and all of them into an object, if there is one.
fn put_spans(
    members: &mut Map<String, Value>,
    alloc: Global,
    spans: Vec<Value>,
) -> Result<(), AllocError>
    ensures { OnOk result (members_view members.new.entries
        ≡ with_spans (map view spans.items) (members_view members.old.entries)) }
{
    let Some(innermost) = spans.last() else {
        return Ok(());
    };
    put(members, alloc, "span", innermost.clone()?)?;
    put(members, alloc, "spans", Value::Array(spans))
}

/// A text in JSON.
fn text_of(alloc: Global, words: &str) -> Result<Value, AllocError>
    ensures { IfOk result (λ made. view made ≡ string words.now) }
{
    let mut text = String::with_capacity(alloc, words.len().saturating_add(SPARE))?;
    text.push_str(words)?;
    Ok(Value::String(text))
}
