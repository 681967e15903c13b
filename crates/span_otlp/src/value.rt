//! Values of fields in OpenTelemetry's JSON.
ghost use Rattle.std.specs.Prelude.{◌≡◌, IfOk};
ghost use Rattle.serde_json.specs.View.{view};
ghost use Rattle.span_otlp.specs.Value.{proto_name, typed_data, whole_data};
ghost use Rattle.span_times.specs.Field.Said.{Words};
ghost use Rattle.span_times.specs.Field.{said};

use serde_json::{Value, json};
use span_export::value::number_or;
use span_times::OwnedValue;
use std::alloc::{AllocError, Global};

/// A value as OpenTelemetry has it: of the type that fits, and as a text where none does.
pub(crate) fn typed_value(alloc: Global, value: &OwnedValue) -> Result<Value, AllocError>
    ensures { IfOk result (λ made. view made ≡ typed_data (said value.now)) }
{
    match value {
        OwnedValue::U64(number) => whole(alloc, *number),
        OwnedValue::I64(number) => {
            json!(in alloc; {"intValue": Value::String(format!(in alloc; "{number}")?)})
        }
        OwnedValue::U128(number) => {
            json!(in alloc; {"stringValue": Value::String(format!(in alloc; "{number}")?)})
        }
        OwnedValue::I128(number) => {
            json!(in alloc; {"stringValue": Value::String(format!(in alloc; "{number}")?)})
        }
        OwnedValue::F64(float, text) => {
            let number = number_or(alloc, *float, proto_name(text.as_str()))?;
            json!(in alloc; {"doubleValue": number})
        }
        OwnedValue::Bool(flag) => json!(in alloc; {"boolValue": Value::Bool(*flag)}),
        OwnedValue::Text(text) => words(alloc, text.as_str()),
    }
}

/// A text as OpenTelemetry has it.
pub(crate) fn words(alloc: Global, text: &str) -> Result<Value, AllocError>
    ensures { IfOk result (λ made. view made ≡ typed_data (Words text.now)) }
{
    json!(in alloc; {"stringValue": text})
}

/// A number without a sign as OpenTelemetry has it: an integer, if it is below 2^63.
pub(crate) fn whole(alloc: Global, number: u64) -> Result<Value, AllocError>
    ensures { IfOk result (λ made. view made ≡ whole_data number) }
{
    let text = Value::String(format!(in alloc; "{number}")?);
    if number < 1 << 63 {
        json!(in alloc; {"intValue": text})
    } else {
        json!(in alloc; {"stringValue": text})
    }
}

/// How JSON of protocol buffers calls a float that isn't finite.
fn proto_name(text: &str) -> &str
    ensures { result.now ≡ proto_name text.now }
{
    match text {
        "inf" => "Infinity",
        "-inf" => "-Infinity",
        _ => "NaN",
    }
}
