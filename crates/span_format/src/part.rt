//! What lines show of the spans round an event.
ghost use Rattle.std.specs.Prelude.{◌≡◌, OnOk, flat_map, reverse};
ghost use Rattle.span_fmt.specs.Lines.{spaced};
ghost use Rattle.span_fmt.specs.Text.{IsContinued};
ghost use Rattle.span_fmt.specs.Tree.{given};
ghost use Rattle.span_format.specs.Kept.{kept_in};
ghost use Rattle.span_format.specs.Part.{behind_with, braced, part_text, place_text, reference_part};

use crate::field::unled;
use crate::kept::Kept;
use crate::style::{Style, write_styled};
use span_core::Metadata;
use span_registry::{LookupSpan, Scope};
use std::alloc::{AllocError, Global};

/// What is written of a span, and whether names and targets are in styles there.
#[derive(Clone, Copy)]
pub(crate) enum Part {
    /// `name{field=value}:`
    Label(bool),
    /// `name:`
    Name(bool),
    /// ` field=value`
    Fields,
    /// `    in target::name with field: value`, a line of its own.
    Place(bool),
    /// The same without the target.
    BarePlace(bool),
}

/// Writes a part of each span of a scope, from the root on, and a space behind all, if there is any.
pub(crate) fn write_spaced<S: LookupSpan>(
    text: &mut String,
    alloc: Global,
    part: Part,
    spans: Option<Scope<'_, S>>,
    kept: &Kept,
) -> Result<(), AllocError>
    ensures { OnOk result (IsContinued text.old text.new (spaced
        (flat_map (reference_part part (kept_in kept.now))
        (reverse (given S.registry spans.entry))))) }
{
    let start = text.len();
    write_from_root(text, alloc, part, spans, kept)?;
    if text.len() == start {
        return Ok(());
    }
    text.push_str(" ")
}

/// Writes a part of each span of a scope, from the root on.
pub(crate) fn write_from_root<S: LookupSpan>(
    text: &mut String,
    alloc: Global,
    part: Part,
    spans: Option<Scope<'_, S>>,
    kept: &Kept,
) -> Result<(), AllocError>
    ensures { OnOk result (IsContinued text.old text.new
        (flat_map (reference_part part (kept_in kept.now))
        (reverse (given S.registry spans.entry)))) }
{
    let Some(spans) = spans else {
        return Ok(());
    };
    let Ok(spans) = spans.from_root(alloc) else {
        return Err(AllocError);
    };
    for span in spans {
        write_part(text, part, span.metadata(), kept.text(span.id()))?;
    }
    Ok(())
}

/// Writes a part of each span of a scope, innermost first.
pub(crate) fn write_outwards<S: LookupSpan>(
    text: &mut String,
    part: Part,
    spans: Option<Scope<'_, S>>,
    kept: &Kept,
) -> Result<(), AllocError>
    ensures { OnOk result (IsContinued text.old text.new
        (flat_map (reference_part part (kept_in kept.now)) (given S.registry spans.entry))) }
{
    let Some(spans) = spans else {
        return Ok(());
    };
    for span in spans {
        write_part(text, part, span.metadata(), kept.text(span.id()))?;
    }
    Ok(())
}

/// Writes a part of a span with these fields.
fn write_part(
    text: &mut String,
    part: Part,
    metadata: Metadata,
    fields: &str,
) -> Result<(), AllocError>
    ensures { OnOk result (IsContinued text.old text.new (part_text part metadata fields.now)) }
{
    match part {
        Part::Label(ansi) => {
            write_styled(text, ansi, Style::Bold, metadata.name())?;
            write_braced(text, fields)?;
            text.push_str(":")
        }
        Part::Name(ansi) => {
            write_styled(text, ansi, Style::Bold, metadata.name())?;
            text.push_str(":")
        }
        Part::Fields => text.push_str(fields),
        Part::Place(ansi) => {
            text.push_str("    in ")?;
            write_styled(text, ansi, Style::Dim, metadata.target())?;
            text.push_str("::")?;
            write_place(text, ansi, metadata, fields)
        }
        Part::BarePlace(ansi) => {
            text.push_str("    in ")?;
            write_place(text, ansi, metadata, fields)
        }
    }
}

/// Writes a span's name, and its fields behind `with`, if it has any.
fn write_place(
    text: &mut String,
    ansi: bool,
    metadata: Metadata,
    fields: &str,
) -> Result<(), AllocError>
    ensures { OnOk result (IsContinued text.old text.new (place_text ansi metadata fields.now)) }
{
    write_styled(text, ansi, Style::Bold, metadata.name())?;
    write_with(text, fields)?;
    text.push_str("\n")
}

/// Writes fields in braces, and nothing where there are none.
fn write_braced(text: &mut String, fields: &str) -> Result<(), AllocError>
    ensures { OnOk result (IsContinued text.old text.new (braced fields.now)) }
{
    if fields.is_empty() {
        return Ok(());
    }
    let fields = unled(fields);
    write!(text, "{{{fields}}}")
}

/// Writes fields behind `with`, and nothing where there are none.
fn write_with(text: &mut String, fields: &str) -> Result<(), AllocError>
    ensures { OnOk result (IsContinued text.old text.new (behind_with fields.now)) }
{
    if fields.is_empty() {
        return Ok(());
    }
    let fields = unled(fields);
    write!(text, " with {fields}")
}
