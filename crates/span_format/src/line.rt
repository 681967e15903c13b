//! The line of an event in each layout.
ghost use Rattle.std.specs.Prelude.{◌≡◌, ◌≢◌, IfErr, IfOk, OnOk, [], string_bytes};
ghost use Rattle.span_registry.specs.Context.{view_lent};
ghost use Rattle.span_fmt.specs.Text.{IsContinued};
ghost use Rattle.span_format.specs.Kept.{kept_in};
ghost use Rattle.span_format.specs.Line.{at_text, compact_line, event_line, full_line, place_part, pretty_line};
ghost use Rattle.span_format.specs.Look.{looks};

use crate::field::{ROOM, write_words};
use crate::kept::Kept;
use crate::layout::Layout;
use crate::look::Look;
use crate::part::{Part, write_from_root, write_outwards, write_spaced};
use crate::style::{Style, write_styled};
use span_core::{Event, Lane, Metadata};
use span_registry::{ContextMut, Subscriber};
use std::alloc::{AllocError, Global};

/// The line of an event in what a hook sees.
pub(crate) fn event_line<S: Subscriber>(
    alloc: Global,
    look: &Look,
    event: &Event<'_>,
    kept: &Kept,
    ctx: &ContextMut<'_, S>,
) -> Result<String, AllocError>
    ensures text { IfOk result (λ line. string_bytes line ≡ event_line (looks look.now) event.now
        (view_lent S.registry ctx.now) (kept_in kept.now)) }
    ensures refused { IfErr result (λ e. event_line (looks look.now) event.now
        (view_lent S.registry ctx.now) (kept_in kept.now) ≢ []) }
{
    match look.layout {
        Layout::Full => full_line(alloc, look, event, kept, ctx),
        Layout::Compact => compact_line(alloc, look, event, kept, ctx),
        Layout::Pretty => pretty_line(alloc, look, event, kept, ctx),
    }
}

/// The line of an event in full.
fn full_line<S: Subscriber>(
    alloc: Global,
    look: &Look,
    event: &Event<'_>,
    kept: &Kept,
    ctx: &ContextMut<'_, S>,
) -> Result<String, AllocError>
    ensures { IfOk result (λ line. string_bytes line ≡ full_line (looks look.now) event.now
        (view_lent S.registry ctx.now) (kept_in kept.now)) }
{
    let seen = ctx.ctx();
    let metadata = event.metadata();
    let mut line = String::with_capacity(alloc, ROOM)?;
    look.begin(&mut line, ctx.lane(), metadata.level())?;
    let part = Part::Label(look.ansi);
    write_spaced(&mut line, alloc, part, seen.event_scope(event), kept)?;
    look.write_target(&mut line, metadata)?;
    write_words(&mut line, alloc, look.layout, metadata, event.values())?;
    line.push_str("\n")?;
    Ok(line)
}

/// The line of an event in short.
fn compact_line<S: Subscriber>(
    alloc: Global,
    look: &Look,
    event: &Event<'_>,
    kept: &Kept,
    ctx: &ContextMut<'_, S>,
) -> Result<String, AllocError>
    ensures { IfOk result (λ line. string_bytes line ≡ compact_line (looks look.now) event.now
        (view_lent S.registry ctx.now) (kept_in kept.now)) }
{
    let seen = ctx.ctx();
    let metadata = event.metadata();
    let mut line = String::with_capacity(alloc, ROOM)?;
    look.begin(&mut line, ctx.lane(), metadata.level())?;
    let part = Part::Name(look.ansi);
    write_spaced(&mut line, alloc, part, seen.event_scope(event), kept)?;
    look.write_target(&mut line, metadata)?;
    write_words(&mut line, alloc, look.layout, metadata, event.values())?;
    write_from_root(
        &mut line,
        alloc,
        Part::Fields,
        seen.event_scope(event),
        kept,
    )?;
    line.push_str("\n")?;
    Ok(line)
}

/// The lines of an event for reading: what it says, where it comes from, and the spans round it.
fn pretty_line<S: Subscriber>(
    alloc: Global,
    look: &Look,
    event: &Event<'_>,
    kept: &Kept,
    ctx: &ContextMut<'_, S>,
) -> Result<String, AllocError>
    ensures { IfOk result (λ line. string_bytes line ≡ pretty_line (looks look.now) event.now
        (view_lent S.registry ctx.now) (kept_in kept.now)) }
{
    let seen = ctx.ctx();
    let metadata = event.metadata();
    let mut line = String::with_capacity(alloc, ROOM)?;
    look.write_level(&mut line, metadata.level())?;
    write_words(&mut line, alloc, look.layout, metadata, event.values())?;
    line.push_str("\n")?;
    write_at(&mut line, look, ctx.lane(), metadata)?;
    write_outwards(&mut line, place_part(look), seen.event_scope(event), kept)?;
    line.push_str("\n")?;
    Ok(line)
}

/// What is written of each span in a line of its own.
fn place_part(look: &Look) -> Part
    ensures { result ≡ place_part (looks look.now) }
{
    if look.target {
        Part::Place(look.ansi)
    } else {
        Part::BarePlace(look.ansi)
    }
}

/// Writes the line of an event's target and lane, as far as they are shown.
fn write_at(
    text: &mut String,
    look: &Look,
    lane: Lane,
    metadata: Metadata,
) -> Result<(), AllocError>
    ensures { OnOk result
        (IsContinued text.old text.new (at_text (looks look.now) lane.0 metadata)) }
{
    if !look.target && !look.lanes {
        return Ok(());
    }
    text.push_str("   ")?;
    if look.target {
        text.push_str(" at ")?;
        write_styled(text, look.ansi, Style::Dim, metadata.target())?;
    }
    if look.lanes {
        text.push_str(" on ")?;
        look.write_lane(text, lane)?;
    }
    text.push_str("\n")
}
