//! Values of fields in JSON.
ghost use Rattle.std.specs.Prelude.{◌≡◌, IfOk};
ghost use Rattle.serde_json.specs.View.{view};
ghost use Rattle.span_times.specs.Field.{said};
ghost use Rattle.span_export.specs.Value.{number_or, value_data};

use serde_json::Value;
use span_times::OwnedValue;
use std::alloc::{AllocError, Global};

/// A value in JSON: a number of more than 64 bits as a text, and a float that isn't finite as its
/// text.
pub(crate) fn value_of(alloc: Global, value: &OwnedValue) -> Result<Value, AllocError>
    ensures { IfOk result (λ made. view made ≡ value_data (said value.now)) }
{
    match value {
        OwnedValue::U64(number) => Ok(Value::from(*number)),
        OwnedValue::I64(number) => Ok(Value::from(*number)),
        OwnedValue::U128(number) => Ok(Value::String(format!(in alloc; "{number}")?)),
        OwnedValue::I128(number) => Ok(Value::String(format!(in alloc; "{number}")?)),
        OwnedValue::F64(float, text) => number_or(alloc, *float, text.as_str()),
        OwnedValue::Bool(flag) => Ok(Value::from(*flag)),
        OwnedValue::Text(text) => Value::try_from_str(alloc, text.as_str()),
    }
}

/// A float as a number, or these words where it isn't finite.
pub fn number_or(alloc: Global, float: f64, words: &str) -> Result<Value, AllocError>
    ensures { IfOk result (λ made. view made ≡ number_or words.now float) }
{
    match Value::from(float) {
        Value::Null => Value::try_from_str(alloc, words),
        number => Ok(number),
    }
}
