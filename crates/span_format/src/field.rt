//! Fields as text.
ghost use Rattle.std.specs.Prelude.{◌≡◌, ◌<◌, ◌↔◌, [], IsTrue, OnOk};
ghost use Rattle.span_core.specs.Field.{present};
ghost use Rattle.span_fmt.specs.Text.{IsContinued};
ghost use Rattle.span_format.specs.Field.{bare, field_text, fields_text, has_message, is_message, name_text, unled, words_text};

use crate::layout::Layout;
use span_core::{FieldValue, Metadata};
use span_fmt::{write_escaped, write_value};
use std::alloc::{AllocError, Global};

/// How many bytes a line has room for before it grows: most lines are shorter.
pub(crate) const ROOM: usize = 128;

/// Writes each field that has a value behind what stands in front of it.
pub(crate) fn write_fields(
    text: &mut String,
    layout: Layout,
    values: &[(&'static str, FieldValue<'_>)],
) -> Result<(), AllocError>
    ensures { OnOk result (IsContinued text.old text.new (fields_text layout values.now)) }
{
    for field in values {
        if !field.1.is_absent() {
            write_field(text, layout, field.0, field.1)?;
        }
    }
    Ok(())
}

/// Writes one field behind what stands in front of it: its name and its value, or a message alone.
fn write_field(
    text: &mut String,
    layout: Layout,
    name: &str,
    value: FieldValue<'_>,
) -> Result<(), AllocError>
    ensures { OnOk result
        (IsContinued text.old text.new (field_text layout name.now value.entry)) }
{
    text.push_str(layout.separator())?;
    write_name(text, layout, name)?;
    write_value(text, value)
}

/// Writes a field's name and what stands behind it, and nothing where the field is a message.
fn write_name(text: &mut String, layout: Layout, name: &str) -> Result<(), AllocError>
    ensures { OnOk result (IsContinued text.old text.new (name_text layout name.now)) }
{
    if is_message(name) {
        return Ok(());
    }
    write_escaped(text, name)?;
    text.push_str(layout.mark())
}

/// Writes what an event says: its message, which is its name where no field is one, and its fields.
pub(crate) fn write_words(
    text: &mut String,
    alloc: Global,
    layout: Layout,
    metadata: Metadata,
    values: &[(&'static str, FieldValue<'_>)],
) -> Result<(), AllocError>
    ensures { OnOk result (IsContinued text.old text.new (words_text layout metadata values.now)) }
{
    if !has_message(values) {
        write_escaped(text, metadata.name())?;
        return write_fields(text, layout, values);
    }
    let mut fields = String::with_capacity(alloc, ROOM)?;
    write_fields(&mut fields, layout, values)?;
    text.push_str(unled(fields.as_str()))
}

/// Whether no field has a value.
pub(crate) fn are_absent(values: &[(&'static str, FieldValue<'_>)]) -> bool
    ensures { IsTrue result ↔ present values.now ≡ [] }
{
    values.iter().all(|field| field.1.is_absent())
}

/// Whether a field that has a value is a message.
fn has_message(values: &[(&'static str, FieldValue<'_>)]) -> bool
    ensures { result ≡ has_message values.now }
{
    values
        .iter()
        .any(|field| !field.1.is_absent() && is_message(field.0))
}

/// Whether a field with this name is a message.
fn is_message(name: &str) -> bool
    ensures { result ≡ is_message name.now }
{
    name == "message"
}

/// Fields without what stands in front of the first: a comma, and a space.
pub(crate) fn unled(fields: &str) -> &str
    ensures { result.now ≡ unled fields.now }
{
    bare(bare(fields, ','), ' ')
}

/// A text without this character in front of it, if it stands there.
fn bare(text: &str, lead: char) -> &str
    requires { lead < 128 }
    ensures { result.now ≡ bare lead text.now }
{
    text.strip_prefix(lead).unwrap_or(text)
}
