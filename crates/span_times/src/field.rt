//! Fields with their values, kept.
ghost use Rattle.std.specs.Option.{option_map, option_to_list};
ghost use Rattle.std.specs.Prelude.{◌≡◌, ◌≢◌, ◌++◌, [], IfOk, OnErr, OnOk};
ghost use Rattle.span_times.specs.Field.{field_said, fields_said, given_by, kept_in, said, said_of, within};

use span_core::FieldValue;
use std::alloc::{AllocError, Global};

/// A value of a field, owned.
#[derive(Debug, PartialEq, Drop)]
pub enum OwnedValue {
    /// A number without a sign.
    U64(u64),
    /// A number with a sign.
    I64(i64),
    /// A number without a sign, of up to 128 bits.
    U128(u128),
    /// A number with a sign, of up to 128 bits.
    I128(i128),
    /// A float, and its text.
    F64(f64, String),
    /// True or false.
    Bool(bool),
    /// A text.
    Text(String),
}

impl OwnedValue {
    /// The same value, owned, if there is one.
    pub fn of(alloc: Global, value: FieldValue<'_>) -> Result<Option<OwnedValue>, AllocError>
        ensures said { IfOk result (λ owned. option_map said owned ≡ said_of value.entry) }
        ensures refused { OnErr result (said_of value.entry ≢ None) }
    {
        let owned = match value {
            FieldValue::U64(number) => OwnedValue::U64(number),
            FieldValue::I64(number) => OwnedValue::I64(number),
            FieldValue::U128(number) => OwnedValue::U128(number),
            FieldValue::I128(number) => OwnedValue::I128(number),
            FieldValue::F64(float) => {
                OwnedValue::F64(float.value(), String::from_str(alloc, float.text())?)
            }
            FieldValue::Bool(flag) => OwnedValue::Bool(flag),
            FieldValue::Text(text) => OwnedValue::Text(String::from_str(alloc, text)?),
            FieldValue::Absent => return Ok(None),
        };
        Ok(Some(owned))
    }

    /// The same value once more.
    fn copied(&self, alloc: Global) -> Result<OwnedValue, AllocError>
        ensures { IfOk result (λ copy. said copy ≡ said self.now) }
    {
        let copy = match self {
            OwnedValue::U64(number) => OwnedValue::U64(*number),
            OwnedValue::I64(number) => OwnedValue::I64(*number),
            OwnedValue::U128(number) => OwnedValue::U128(*number),
            OwnedValue::I128(number) => OwnedValue::I128(*number),
            OwnedValue::F64(float, text) => {
                OwnedValue::F64(*float, String::from_str(alloc, text.as_str())?)
            }
            OwnedValue::Bool(flag) => OwnedValue::Bool(*flag),
            OwnedValue::Text(text) => OwnedValue::Text(String::from_str(alloc, text.as_str())?),
        };
        Ok(copy)
    }
}

/// A field with its value.
#[derive(Debug, PartialEq, Drop)]
pub struct OwnedField {
    /// The field's name.
    pub name: String,
    /// Its value.
    pub value: OwnedValue,
}

impl OwnedField {
    /// The same field once more.
    pub(crate) fn copied(&self, alloc: Global) -> Result<OwnedField, AllocError>
        ensures { IfOk result (λ copy. field_said copy ≡ field_said self.now) }
    {
        let name = String::from_str(alloc, self.name.as_str())?;
        let value = self.value.copied(alloc)?;
        Ok(OwnedField { name, value })
    }
}

/// Where the fields of a point are among all that a timeline kept.
#[derive(Clone, Copy, Debug, PartialEq, Eq)]
pub struct FieldRange {
    /// How many come before them.
    pub from: usize,
    /// How many come before what follows them.
    pub to: usize,
}

impl FieldRange {
    /// No fields.
    pub const NONE: FieldRange = FieldRange { from: 0, to: 0 };

    /// The fields in this range; where some are missing, those that are there.
    pub fn of<'a>(&self, fields: &'a [OwnedField]) -> &'a [OwnedField]
        ensures { result.now ≡ within self.now fields.now }
    {
        let to = self.to.min(fields.len());
        if self.from < to {
            &fields[self.from..to]
        } else {
            &[]
        }
    }
}

/// Keeps the fields that have a value behind these, if values are kept. Where memory is refused,
/// these stay.
pub(crate) fn keep_given(
    alloc: Global,
    kept: bool,
    fields: &mut Vec<OwnedField>,
    values: &[(&'static str, FieldValue<'_>)],
) -> Result<(), AllocError>
    ensures kept { OnOk result
        (kept_in fields.new.items ≡ kept_in fields.old.items ++ given_by kept values.now) }
    ensures unchanged { OnErr result (kept_in fields.new.items ≡ kept_in fields.old.items) }
    ensures refused { OnErr result (given_by kept values.now ≢ []) }
{
    if kept {
        keep_fields(alloc, fields, values)
    } else {
        Ok(())
    }
}

/// Keeps the fields that have a value behind these. Where memory is refused, these stay.
fn keep_fields(
    alloc: Global,
    fields: &mut Vec<OwnedField>,
    values: &[(&'static str, FieldValue<'_>)],
) -> Result<(), AllocError>
    ensures kept { OnOk result
        (kept_in fields.new.items ≡ kept_in fields.old.items ++ fields_said values.now) }
    ensures unchanged { OnErr result (kept_in fields.new.items ≡ kept_in fields.old.items) }
    ensures refused { OnErr result (fields_said values.now ≢ []) }
{
    let before = fields.len();
    for field in values {
        if let Err(error) = keep_field(alloc, fields, field.0, field.1) {
            fields.truncate(before);
            return Err(error);
        }
    }
    Ok(())
}

/// Keeps a field behind these, if it has a value.
fn keep_field(
    alloc: Global,
    fields: &mut Vec<OwnedField>,
    name: &str,
    value: FieldValue<'_>,
) -> Result<(), AllocError>
    ensures kept { OnOk result (kept_in fields.new.items ≡ kept_in fields.old.items
        ++ option_to_list (option_map (λ s. (name.now, s)) (said_of value.entry))) }
    ensures unchanged { OnErr result (fields.new.items ≡ fields.old.items) }
    ensures refused { OnErr result (said_of value.entry ≢ None) }
{
    if let Some(value) = OwnedValue::of(alloc, value)? {
        let name = String::from_str(alloc, name)?;
        fields.push(OwnedField { name, value })?;
    }
    Ok(())
}
