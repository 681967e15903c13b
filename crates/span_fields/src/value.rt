//! The value that a directive asks for.
ghost use Rattle.std.specs.Prelude.{◌≡◌};
ghost use Rattle.span_fields.specs.Directive.{is_given, is_value};

use span_core::FieldValue;

/// The value that a directive asks for.
#[derive(Debug, Drop)]
pub enum ValueMatch {
    /// This number, of up to 64 bits.
    Number(i128),
    /// True or false.
    Bool(bool),
    /// This text.
    Text(String),
}

impl ValueMatch {
    /// Whether the value is the one that is asked for. A number of more than 64 bits is none, nor
    /// is a float.
    pub fn matches(&self, value: &FieldValue<'_>) -> bool
        ensures { result ≡ is_value self.now value.now }
    {
        match (self, value) {
            (ValueMatch::Number(asked), FieldValue::U64(number)) => *asked == i128::from(*number),
            (ValueMatch::Number(asked), FieldValue::I64(number)) => *asked == i128::from(*number),
            (ValueMatch::Bool(true), FieldValue::Bool(flag)) => *flag,
            (ValueMatch::Bool(false), FieldValue::Bool(flag)) => !*flag,
            (ValueMatch::Text(asked), FieldValue::Text(text)) => asked.as_str() == *text,
            _ => false,
        }
    }
}

/// Whether the field was given the value that is asked for.
pub(crate) fn is_given(
    field: &str,
    value: &ValueMatch,
    values: &[(&'static str, FieldValue<'_>)],
) -> bool
    ensures { result ≡ is_given field.now value.now values.now }
{
    values
        .iter()
        .any(|(name, given)| *name == field && value.matches(given))
}
