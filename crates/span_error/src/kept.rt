//! The text of a span's fields, as the span's extensions have it.
ghost use Rattle.std.specs.Prelude.{◌≡◌, ◌≢◌, ◌↔◌, [], IsTrue, OnErr, OnOk};
ghost use Rattle.span_error.specs.Kept.{Keeps, fields_number, kept_text};
ghost use Rattle.span_extensions.specs.Extensions.{tag_number};
ghost use Rattle.span_extensions.specs.Shown.{shown_map};
ghost use Rattle.span_fmt.specs.Text.{fields_text};

use span_core::FieldValue;
use span_fmt::write_fields;
use span_registry::{ExtensionMap, ExtensionValue, Extensions, Tag};
use std::alloc::{AllocError, Global};

/// The tag under which the text of a span's fields is kept: the one with the last number. Keep
/// nothing else under it.
pub fn fields_tag() -> Tag<String>
    ensures { tag_number result ≡ fields_number }
{
    Tag::new(u32::MAX)
}

/// The text of a span's fields, each behind a space.
pub(crate) fn text_kept(extensions: Extensions<'_>) -> &str
    ensures { result.now
        ≡ kept_text ⟦<String as ExtensionValue>⟧.place (shown_map extensions.entry) }
{
    match extensions.get(fields_tag()) {
        Some(text) => text.as_str(),
        None => "",
    }
}

/// Keeps the text of fields behind what is kept. Where no field has a value, no memory is needed.
pub(crate) fn keep(
    alloc: Global,
    extensions: &mut ExtensionMap,
    values: &[(&'static str, FieldValue<'_>)],
) -> Result<(), AllocError>
    ensures kept { OnOk result (Keeps ⟦<String as ExtensionValue>⟧.place (fields_text values.now)
        extensions.old extensions.new) }
    ensures unchanged { OnErr result (extensions.new ≡ extensions.old) }
    ensures refused { OnErr result (fields_text values.now ≢ []) }
{
    if are_absent(values) {
        return Ok(());
    }
    // A copy: where memory is refused, what is kept stays as it was.
    let mut text = String::from_str(alloc, text_kept(Extensions::new(extensions)))?;
    write_fields(&mut text, values)?;
    match extensions.replace(fields_tag(), text) {
        Ok(_) => Ok(()),
        Err(_) => Err(AllocError),
    }
}

/// Whether no field has a value.
fn are_absent(values: &[(&'static str, FieldValue<'_>)]) -> bool
    ensures { IsTrue result ↔ fields_text values.now ≡ [] }
{
    values.iter().all(|field| field.1.is_absent())
}
