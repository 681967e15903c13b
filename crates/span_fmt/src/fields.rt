//! Names and values of fields as text, in one line.
ghost use Rattle.std.specs.Prelude.{◌≡◌, ◌↔◌, [], IsTrue, OnOk};
ghost use Rattle.span_core.specs.Field.{present};
ghost use Rattle.span_fmt.specs.Text.{IsContinued, field_text, fields_text, rest_text, shown_text};

use crate::escape::write_escaped;
use crate::quote::write_quoted;
use span_core::{FieldValue, Metadata};
use std::alloc::AllocError;

/// How many bytes a line has room for before it grows: most lines are shorter.
pub(crate) const ROOM: usize = 128;

/// Writes each field that has a value behind a space, as `name=value`. Names are escaped, as
/// `write_escaped` has them, and texts stand in quotes, as `write_quoted` has them.
///
/// Where memory is refused, no clause says what of it is written: throw the text away.
pub fn write_fields(
    text: &mut String,
    values: &[(&'static str, FieldValue<'_>)],
) -> Result<(), AllocError>
    ensures { OnOk result (IsContinued text.old text.new (fields_text values.now)) }
{
    for field in values {
        if !field.1.is_absent() {
            write_field(text, field.0, field.1)?;
        }
    }
    Ok(())
}

/// Whether no field has a value.
pub(crate) fn are_absent(values: &[(&'static str, FieldValue<'_>)]) -> bool
    ensures { IsTrue result ↔ present values.now ≡ [] }
{
    values.iter().all(|field| field.1.is_absent())
}

/// Writes one field behind a space.
fn write_field(text: &mut String, name: &str, value: FieldValue<'_>) -> Result<(), AllocError>
    ensures { OnOk result (IsContinued text.old text.new (field_text name.now value.entry)) }
{
    text.push_str(" ")?;
    write_escaped(text, name)?;
    text.push_str("=")?;
    write_value(text, value)
}

/// Writes how a line ends: with the target, the name, and these values.
pub(crate) fn write_rest(
    text: &mut String,
    metadata: Metadata,
    values: &[(&'static str, FieldValue<'_>)],
) -> Result<(), AllocError>
    ensures { OnOk result (IsContinued text.old text.new (rest_text metadata values.now)) }
{
    write_escaped(text, metadata.target())?;
    text.push_str(": ")?;
    write_escaped(text, metadata.name())?;
    write_fields(text, values)?;
    text.push_str("\n")
}

/// Writes a value, a text in quotes.
///
/// Where memory is refused, no clause says what of it is written: throw the text away.
pub fn write_value(text: &mut String, value: FieldValue<'_>) -> Result<(), AllocError>
    ensures { OnOk result (IsContinued text.old text.new (shown_text value.entry)) }
{
    if let FieldValue::Text(words) = value {
        return write_quoted(text, words);
    }
    write!(text, "{value}")
}
