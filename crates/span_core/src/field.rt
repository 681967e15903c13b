//! The names of a callsite's fields, and their values.
ghost use Rattle.std.specs.Prelude.{◌≡◌, ◌↔◌, ◌==◌, IsTrue, length, map, Any, Some};
ghost use Rattle.span_core.specs.Field.{ReadsBack, float_text, float_value, is_absent, value_text};
ghost use Rattle.span_core.specs.Metadata.{names_of};
ghost use Rattle.span_core.specs.declared.field.FieldValue.TheVariants as value;

use crate::text::same_texts;
use std::fmt;

/// The names of a callsite's fields.
///
/// Stands for `tracing_core::field::FieldSet`, whose fields belong to a callsite.
#[derive(Clone, Copy, Debug, PartialEq, Eq)]
pub struct FieldSet {
    names: &'static [&'static str],
}

impl FieldSet {
    /// The fields with these names.
    pub fn new(names: &'static [&'static str]) -> FieldSet
        ensures { names_of result ≡ names.now }
    {
        FieldSet { names }
    }

    /// The names, in the order in which they were given.
    pub fn names(&self) -> &'static [&'static str]
        ensures { result.now ≡ names_of self.now }
    {
        self.names
    }

    /// Whether two callsites' fields have the same names in the same order.
    #[inline(always)]
    pub fn has_same_names(&self, other: &FieldSet) -> bool
        ensures { IsTrue result ↔
            (map (λ name. name.now) (names_of self.now)
            ≡ map (λ name. name.now) (names_of other.now)) }
    {
        if self.names.is_empty() {
            return other.names.is_empty(); // Most callsites have no fields.
        }
        same_texts(self.names, other.names)
    }

    /// How many names there are.
    pub fn len(&self) -> usize
        ensures { result ≡ length (names_of self.now) }
    {
        self.names.len()
    }

    /// Whether there is no name.
    pub fn is_empty(&self) -> bool
        ensures { result ≡ (length (names_of self.now) == 0) }
    {
        self.names.is_empty()
    }

    /// Whether the name is among the fields', byte for byte.
    pub fn contains(&self, name: &str) -> bool
        ensures { IsTrue result ↔ Any (λ given. given.now ≡ name.now) (names_of self.now) }
    {
        self.names.iter().any(|given| *given == name)
    }
}

/// The text of a float, while it is the value of a field.
///
/// Own to this port: the crate hands layers the float, and each of them writes its text.
#[derive(Drop)]
pub struct FloatText {
    buffer: ryu::Buffer,
}

impl FloatText {
    /// Room for a float's text.
    pub fn new() -> FloatText {
        FloatText {
            buffer: ryu::Buffer::new(),
        }
    }
}

/// A float with its text, which reads back as the float.
#[derive(Clone, Copy, Debug, PartialEq)]
pub struct Float<'a> {
    value: f64,
    text: &'a str,
}

impl<'a> Float<'a> {
    /// This float, with its text in this room: the shortest digits that read back as it, `NaN`,
    /// `inf` or `-inf`.
    pub fn new(value: f64, room: &'a mut FloatText) -> Float<'a>
        ensures value { float_value result ≡ value }
        ensures text { ReadsBack value (float_text result) }
    {
        Float {
            value,
            text: room.buffer.format(value),
        }
    }

    /// The float.
    pub fn value(&self) -> f64
        ensures { result ≡ float_value self.now }
    {
        self.value
    }

    /// The float's text.
    pub fn text(&self) -> &'a str
        ensures { result.now ≡ float_text self.now }
    {
        self.text
    }
}

/// The value of a field.
///
/// Stands for `tracing_core::field::Value`, which a visitor reads.
#[derive(Clone, Copy, Debug, PartialEq)]
pub enum FieldValue<'a> {
    /// A number without a sign.
    U64(u64),
    /// A number with a sign.
    I64(i64),
    /// A number without a sign, of up to 128 bits.
    U128(u128),
    /// A number with a sign, of up to 128 bits.
    I128(i128),
    /// A float.
    F64(Float<'a>),
    /// True or false.
    Bool(bool),
    /// A text.
    Text(&'a str),
    /// No value: layers leave the field out.
    Absent,
}

impl FieldValue<'_> {
    /// Whether there is no value.
    pub fn is_absent(&self) -> bool
        ensures { result ≡ is_absent self.now }
    {
        matches!(self, FieldValue::Absent)
    }
}

impl<'a> fmt::Display for FieldValue<'a> {
    ghost output = { λ value. Some (value_text value) };

    fn fmt<W: fmt::Write>(&self, f: &mut fmt::Formatter<W>) -> fmt::Result {
        match self {
            FieldValue::U64(number) => write!(f, "{number}"),
            FieldValue::I64(number) => write!(f, "{number}"),
            FieldValue::U128(number) => write!(f, "{number}"),
            FieldValue::I128(number) => write!(f, "{number}"),
            FieldValue::F64(float) => write!(f, "{}", float.text),
            FieldValue::Bool(flag) => write!(f, "{flag}"),
            FieldValue::Text(text) => write!(f, "{text}"),
            FieldValue::Absent => Ok(()),
        }
    }
}

impl<'a> From<u64> for FieldValue<'a> {
    ghost from_gives = { λ number given. given ≡ value.U64 number };

    fn from(number: u64) -> FieldValue<'a> {
        FieldValue::U64(number)
    }
}

impl<'a> From<i64> for FieldValue<'a> {
    ghost from_gives = { λ number given. given ≡ value.I64 number };

    fn from(number: i64) -> FieldValue<'a> {
        FieldValue::I64(number)
    }
}

impl<'a> From<bool> for FieldValue<'a> {
    ghost from_gives = { λ flag given. given ≡ value.Bool flag };

    fn from(flag: bool) -> FieldValue<'a> {
        FieldValue::Bool(flag)
    }
}

impl<'a> From<&'a str> for FieldValue<'a> {
    ghost from_gives = { λ text given. given ≡ value.Text text };

    fn from(text: &'a str) -> FieldValue<'a> {
        FieldValue::Text(text)
    }
}

impl<'a> From<u128> for FieldValue<'a> {
    ghost from_gives = { λ number given. given ≡ value.U128 number };

    fn from(number: u128) -> FieldValue<'a> {
        FieldValue::U128(number)
    }
}

impl<'a> From<i128> for FieldValue<'a> {
    ghost from_gives = { λ number given. given ≡ value.I128 number };

    fn from(number: i128) -> FieldValue<'a> {
        FieldValue::I128(number)
    }
}

impl<'a> From<Float<'a>> for FieldValue<'a> {
    ghost from_gives = { λ float given. given ≡ value.F64 float };

    fn from(float: Float<'a>) -> FieldValue<'a> {
        FieldValue::F64(float)
    }
}
