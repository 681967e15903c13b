//! Attributes of OpenTelemetry: what is known by a name.
ghost use Rattle.std.specs.Prelude.{◌≡◌, ◌++◌, IfOk, OnOk, flat_map, map};
ghost use Rattle.serde_json.specs.View.{view};
ghost use Rattle.span_otlp.specs.Attribute.{attribute_of, attributes_of};
ghost use Rattle.span_otlp.specs.Otlp.{event_known, span_known};
ghost use Rattle.span_export.specs.Site.{given_said, named_so};
ghost use Rattle.span_otlp.specs.LogRecord.{record_known};
ghost use Rattle.span_otlp.specs.private.Own.{own_attribute};
ghost use Rattle.span_times.specs.Field.Said.{Whole, Words};
ghost use Rattle.span_times.specs.Field.{field_said};

use crate::value::{typed_value, whole};
use serde_json::{Value, json};
use span_core::Lane;
use span_export::given::is_given;
use span_export::site::Name;
use span_times::OwnedField;
use std::alloc::{AllocError, Global};

/// The attributes of an event: what is known of it, unless it was given fields with these names,
/// and what it was given.
pub(crate) fn event_attributes(
    alloc: Global,
    name: Name<'_>,
    lane: Lane,
) -> Result<Value, AllocError>
    ensures { IfOk result (λ pairs. view pairs
        ≡ attributes_of (event_known (named_so name.entry) lane.0) (named_so name.entry).given) }
{
    let mut pairs = known(alloc, name, lane)?;
    write_attributes(alloc, &mut pairs, name.given)?;
    Ok(Value::Array(pairs))
}

/// The attributes of a log record: what is known of the event beside its level, unless it was given
/// fields with these names, and what it was given.
pub(crate) fn record_attributes(
    alloc: Global,
    name: Name<'_>,
    lane: Lane,
) -> Result<Value, AllocError>
    ensures { IfOk result (λ pairs. view pairs
        ≡ attributes_of (record_known (named_so name.entry) lane.0) (named_so name.entry).given) }
{
    let mut pairs = Vec::new(alloc);
    write_place(alloc, &mut pairs, name, lane)?;
    write_attributes(alloc, &mut pairs, name.given)?;
    Ok(Value::Array(pairs))
}

/// The attributes of a span, with how long it was busy and idle.
pub(crate) fn span_attributes(
    alloc: Global,
    name: Name<'_>,
    lane: Lane,
    busy: u64,
    idle: u64,
) -> Result<Value, AllocError>
    ensures { IfOk result (λ pairs. view pairs ≡ attributes_of
        (span_known (named_so name.entry) lane.0 busy idle) (named_so name.entry).given) }
{
    let mut pairs = known(alloc, name, lane)?;
    write_number(alloc, &mut pairs, name.given, "busy_ns", busy)?;
    write_number(alloc, &mut pairs, name.given, "idle_ns", idle)?;
    write_attributes(alloc, &mut pairs, name.given)?;
    Ok(Value::Array(pairs))
}

/// What is known of a span or an event as attributes, unless fields with these names were given:
/// its level, its target and its lane.
fn known(alloc: Global, name: Name<'_>, lane: Lane) -> Result<Vec<Value>, AllocError>
    ensures { IfOk result (λ pairs. map view pairs.items ≡ flat_map
        (own_attribute (named_so name.entry).given) (event_known (named_so name.entry) lane.0)) }
{
    let mut pairs = Vec::new(alloc);
    write_text(alloc, &mut pairs, name.given, "level", name.level())?;
    write_place(alloc, &mut pairs, name, lane)?;
    Ok(pairs)
}

/// Writes the target and the lane as attributes behind these, unless fields with these names were
/// given.
fn write_place(
    alloc: Global,
    pairs: &mut Vec<Value>,
    name: Name<'_>,
    lane: Lane,
) -> Result<(), AllocError>
    ensures { OnOk result (map view pairs.new.items ≡ map view pairs.old.items ++ flat_map
        (own_attribute (named_so name.entry).given) (record_known (named_so name.entry) lane.0)) }
{
    write_text(alloc, pairs, name.given, "target", name.target())?;
    write_number(alloc, pairs, name.given, "thread.id", u64::from(lane.0))
}

/// Writes a text as an attribute behind these, unless a field with that name was given.
fn write_text(
    alloc: Global,
    pairs: &mut Vec<Value>,
    given: &[&OwnedField],
    key: &str,
    text: &str,
) -> Result<(), AllocError>
    ensures { OnOk result (map view pairs.new.items ≡ map view pairs.old.items
        ++ own_attribute (given_said given.now) (key.now, Words text.now)) }
{
    if !is_given(given, key) {
        pairs.push(text_attribute(alloc, key, text)?)?;
    }
    Ok(())
}

/// Writes a number as an attribute behind these, unless a field with that name was given.
fn write_number(
    alloc: Global,
    pairs: &mut Vec<Value>,
    given: &[&OwnedField],
    key: &str,
    number: u64,
) -> Result<(), AllocError>
    ensures { OnOk result (map view pairs.new.items ≡ map view pairs.old.items
        ++ own_attribute (given_said given.now) (key.now, Whole number)) }
{
    if !is_given(given, key) {
        pairs.push(number_attribute(alloc, key, number)?)?;
    }
    Ok(())
}

/// Writes fields as attributes behind these.
fn write_attributes(
    alloc: Global,
    pairs: &mut Vec<Value>,
    given: &[&OwnedField],
) -> Result<(), AllocError>
    ensures { OnOk result (map view pairs.new.items
        ≡ map view pairs.old.items ++ map attribute_of (given_said given.now)) }
{
    for field in given {
        pairs.push(attribute(alloc, field)?)?;
    }
    Ok(())
}

/// A field as an attribute.
fn attribute(alloc: Global, field: &OwnedField) -> Result<Value, AllocError>
    ensures { IfOk result (λ pair. view pair ≡ attribute_of (field_said field.now)) }
{
    json!(in alloc; {"key": field.name.as_str(), "value": typed_value(alloc, &field.value)?})
}

/// An attribute whose value is a text.
pub(crate) fn text_attribute(alloc: Global, key: &str, text: &str) -> Result<Value, AllocError>
    ensures { IfOk result (λ pair. view pair ≡ attribute_of (key.now, Words text.now)) }
{
    json!(in alloc; {"key": key, "value": {"stringValue": text}})
}

/// An attribute whose value is a number.
fn number_attribute(alloc: Global, key: &str, number: u64) -> Result<Value, AllocError>
    ensures { IfOk result (λ pair. view pair ≡ attribute_of (key.now, Whole number)) }
{
    json!(in alloc; {"key": key, "value": whole(alloc, number)?})
}
