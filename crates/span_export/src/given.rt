//! Fields that a span or an event was given, of each name the latest.
ghost use Rattle.std.specs.Prelude.{◌≡◌, ◌++◌, IfOk, OnOk, [], string_bytes};
ghost use Rattle.std.specs.Str.{bytes_eq};
ghost use Rattle.span_fmt.specs.Text.{IsContinued};
ghost use Rattle.span_times.specs.Field.{field_said, kept_in, said};
ghost use Rattle.span_export.specs.Given.{field_shown, given_shown, rest_shown, value_shown};
ghost use Rattle.span_export.specs.Site.{given_said, is_given, put_field, put_fields};

use span_fmt::{write_escaped, write_quoted};
use span_times::{OwnedField, OwnedValue};
use std::alloc::{AllocError, Global};

/// Fields of different names.
pub type Given<'a> = Vec<&'a OwnedField>;

/// These fields, of two of one name the later one.
pub fn latest_given<'a>(alloc: Global, fields: &'a [OwnedField]) -> Result<Given<'a>, AllocError>
    ensures { IfOk result
        (λ given. given_said given.items ≡ put_fields (kept_in fields.now) []) }
{
    let mut given = Given::new(alloc);
    put_all(&mut given, fields)?;
    Ok(given)
}

/// Puts each field behind those that were given, or in the place of that with its name.
pub(crate) fn put_all<'a>(given: &mut Given<'a>, fields: &'a [OwnedField]) -> Result<(), AllocError>
    ensures { OnOk result (given_said given.new.items
        ≡ put_fields (kept_in fields.now) (given_said given.old.items)) }
{
    for field in fields {
        put(given, field)?;
    }
    Ok(())
}

/// Puts a field behind those that were given, or in the place of that with its name.
fn put<'a>(given: &mut Given<'a>, field: &'a OwnedField) -> Result<(), AllocError>
    ensures { OnOk result (given_said given.new.items
        ≡ put_field (field_said field.now) (given_said given.old.items)) }
{
    for place in 0..given.len() {
        if has_name(given[place], field.name.as_str()) {
            given[place] = field;
            return Ok(());
        }
    }
    given.push(field)?;
    Ok(())
}

/// Whether a field of this name is among these.
pub fn is_given(given: &[&OwnedField], name: &str) -> bool
    ensures { result ≡ is_given name.now (given_said given.now) }
{
    for field in given {
        if has_name(field, name) {
            return true;
        }
    }
    false
}

/// Whether a field has this name.
fn has_name(field: &OwnedField, name: &str) -> bool
    ensures { result ≡ bytes_eq (string_bytes field.now.name) name.now }
{
    field.name.as_str() == name
}

/// Writes fields in braces with spaces between, as `{id=7 kind="a b"}`, and nothing where there are
/// none. Names are escaped, as `span_fmt::write_escaped` has them, and texts in quotes, as
/// `span_fmt::write_quoted` has them.
pub(crate) fn write_given(text: &mut String, given: &[&OwnedField]) -> Result<(), AllocError>
    ensures { OnOk result
        (IsContinued text.old text.new (given_shown (given_said given.now))) }
{
    let Some((first, rest)) = given.split_first() else {
        return Ok(());
    };
    text.push_str("{")?;
    write_field(text, first)?;
    write_rest(text, rest)?;
    text.push_str("}")
}

/// Writes each field behind a space.
fn write_rest(text: &mut String, given: &[&OwnedField]) -> Result<(), AllocError>
    ensures { OnOk result (IsContinued text.old text.new (rest_shown (given_said given.now))) }
{
    for field in given {
        text.push_str(" ")?;
        write_field(text, field)?;
    }
    Ok(())
}

/// Writes a field, as `id=7`.
fn write_field(text: &mut String, field: &OwnedField) -> Result<(), AllocError>
    ensures { OnOk result (IsContinued text.old text.new (field_shown (field_said field.now))) }
{
    write_escaped(text, field.name.as_str())?;
    text.push_str("=")?;
    write_value(text, &field.value)
}

/// Writes a value, a text in quotes.
fn write_value(text: &mut String, value: &OwnedValue) -> Result<(), AllocError>
    ensures { OnOk result (IsContinued text.old text.new (value_shown (said value.now))) }
{
    match value {
        OwnedValue::U64(number) => write!(text, "{number}"),
        OwnedValue::I64(number) => write!(text, "{number}"),
        OwnedValue::U128(number) => write!(text, "{number}"),
        OwnedValue::I128(number) => write!(text, "{number}"),
        OwnedValue::F64(_, words) => text.push_str(words.as_str()),
        OwnedValue::Bool(flag) => write!(text, "{flag}"),
        OwnedValue::Text(words) => write_quoted(text, words.as_str()),
    }
}
