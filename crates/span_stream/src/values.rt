//! Values of fields as members of objects in JSON.
ghost use Rattle.std.specs.Prelude.{◌≡◌, ◌↔◌, [], IfOk, IsTrue, OnOk};
ghost use Rattle.serde_json.specs.View.{members_view, view};
ghost use Rattle.span_core.specs.Field.{present};
ghost use Rattle.span_stream.specs.Values.{value_data, with_value, with_values};

use serde_json::{Map, Value, put};
use span_core::FieldValue;
use std::alloc::{AllocError, Global};

/// Puts the values of those fields that have one into an object, by their names. Of two of one name
/// the later one stays.
pub(crate) fn put_values(
    members: &mut Map<String, Value>,
    alloc: Global,
    values: &[(&'static str, FieldValue<'_>)],
) -> Result<(), AllocError>
    ensures { OnOk result (members_view members.new.entries
        ≡ with_values values.now (members_view members.old.entries)) }
{
    for field in values {
        put_value(members, alloc, field.0, field.1)?;
    }
    Ok(())
}

/// Puts a value into an object by its name, if there is one.
fn put_value(
    members: &mut Map<String, Value>,
    alloc: Global,
    name: &str,
    value: FieldValue<'_>,
) -> Result<(), AllocError>
    ensures { OnOk result (members_view members.new.entries
        ≡ with_value name.now value.entry (members_view members.old.entries)) }
{
    if value.is_absent() {
        return Ok(());
    }
    put(members, alloc, name, value_of(alloc, value)?)
}

/// Whether no field has a value.
pub(crate) fn are_absent(values: &[(&'static str, FieldValue<'_>)]) -> bool
    ensures { IsTrue result ↔ present values.now ≡ [] }
{
    values.iter().all(|field| field.1.is_absent())
}

/// A value in JSON.
pub(crate) fn value_of(alloc: Global, value: FieldValue<'_>) -> Result<Value, AllocError>
    ensures { IfOk result (λ made. view made ≡ value_data value.entry) }
{
    match value {
        FieldValue::U64(number) => Ok(Value::from(number)),
        FieldValue::I64(number) => Ok(Value::from(number)),
        FieldValue::U128(number) => Ok(Value::String(format!(in alloc; "{number}")?)),
        FieldValue::I128(number) => Ok(Value::String(format!(in alloc; "{number}")?)),
        FieldValue::F64(float) => Ok(Value::from(float.value())),
        FieldValue::Bool(flag) => Ok(Value::from(flag)),
        FieldValue::Text(text) => Value::try_from_str(alloc, text),
        FieldValue::Absent => Ok(Value::Null),
    }
}
