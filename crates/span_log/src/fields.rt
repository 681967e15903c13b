//! Fields as the pairs of a record of `log`.
ghost use Rattle.std.specs.Prelude.{◌≡◌, Some};
ghost use Rattle.log.specs.Kv as kv;
ghost use Rattle.span_core.specs.Field.{value_text};
ghost use Rattle.span_log.specs.Fields.{IsLogValueOf, fields_in, is_pair, pairs_of};

use log::kv::{self, Primitive, Source, Value, VisitSource};
use span_core::FieldValue;
use std::fmt::Display;

/// Fields as pairs: each name with the text of its value, but for fields without a value, and for
/// `message` and `log.target`, which have places of their own.
#[derive(Clone, Copy)]
pub struct Fields<'a>(&'a [(&'static str, FieldValue<'a>)]);

impl<'a> Fields<'a> {
    /// The pairs of these fields.
    pub fn new(values: &'a [(&'static str, FieldValue<'a>)]) -> Fields<'a>
        ensures { fields_in result ≡ values.now }
    {
        Fields(values)
    }
}

impl<'a> Source for Fields<'a> {
    ghost pairs = { λ fields. Some (pairs_of (fields_in fields)) };

    fn visit<V: VisitSource>(&self, visitor: &mut V) -> Result<(), kv::Error> {
        for field in self.0 {
            if !field.1.is_absent() && is_pair(field.0) {
                visitor.visit_pair(field.0, log_value(field.1))?;
            }
        }
        Ok(())
    }
}

/// A field with this name is a pair.
fn is_pair(name: &str) -> bool
    ensures { result ≡ is_pair name.now }
{
    name != "message" && name != "log.target"
}

/// A value as one of `log` with the same text: of the same kind, but for a float, which becomes its
/// text, and for no value, which becomes an empty text.
pub fn log_value<'a>(value: FieldValue<'a>) -> Value<'a, Primitive>
    ensures kind { IsLogValueOf value.entry result }
    ensures text { kv.value_text ⟦<Primitive as Display>⟧.output result
        ≡ Some (value_text value.entry) }
{
    match value {
        FieldValue::U64(number) => Value::U64(number),
        FieldValue::I64(number) => Value::I64(number),
        FieldValue::U128(number) => Value::U128(number),
        FieldValue::I128(number) => Value::I128(number),
        FieldValue::F64(float) => Value::Str(float.text()),
        FieldValue::Bool(flag) => Value::Bool(flag),
        FieldValue::Text(text) => Value::Str(text),
        FieldValue::Absent => Value::Str(""),
    }
}
