//! The entries of lanes into spans that last.
ghost use Rattle.std.specs.Option.{option_map};
ghost use Rattle.std.specs.Prelude.{◌≡◌, IfOk, OnOk, map};
ghost use Rattle.span_core.specs.Span.{number_of};
ghost use Rattle.span_export.specs.Entry.{entries_after, is_of, left, newest_span, since_newest, since_oldest, spans_in, spans_on};

use span_core::{Id, Lane};
use span_times::{Happening, Point};
use std::alloc::{AllocError, Global};

/// An entry of a lane into a span.
#[derive(Clone, Copy)]
pub(crate) struct Entry {
    pub(crate) lane: Lane,
    pub(crate) span: Id,
}

impl Entry {
    /// Whether the entry is of this lane into this span.
    pub(crate) fn is_of(&self, lane: Lane, span: Id) -> bool
        ensures { result ≡ is_of lane.0 (number_of span) self.now }
    {
        self.lane == lane && self.span == span
    }
}

/// The entries that last after what happened, the oldest first. A span that closes is left by that
/// on each lane: no layer is notified of exits from it any more.
pub(crate) fn go_on(entries: &mut Vec<Entry>, point: &Point) -> Result<(), AllocError>
    ensures { OnOk result
        (entries.new.items ≡ entries_after entries.old.items point.now point.now.what) }
{
    match point.what {
        Happening::Entered(span) => entries.push(Entry {
            lane: point.lane,
            span,
        })?,
        Happening::Left(span) => leave(entries, point.lane, span),
        Happening::Closed(span) => entries.retain(|entry| entry.span != span),
        _ => {}
    }
    Ok(())
}

/// Ends the newest entry of a lane into a span.
fn leave(entries: &mut Vec<Entry>, lane: Lane, span: Id)
    ensures { entries.new.items ≡ left lane.0 (number_of span) entries.old.items }
{
    for place in (0..entries.len()).rev() {
        if entries[place].is_of(lane, span) {
            entries.remove(place);
            return;
        }
    }
}

/// The entries from the newest of a lane into a span on, and none where there is none.
pub(crate) fn since_newest(entries: &[Entry], lane: Lane, span: Id) -> &[Entry]
    ensures { result.now ≡ since_newest lane.0 (number_of span) entries.now }
{
    for place in (0..entries.len()).rev() {
        if entries[place].is_of(lane, span) {
            return &entries[place..];
        }
    }
    &[]
}

/// The entries from the oldest of a lane into a span on, and none where there is none.
pub(crate) fn since_oldest(entries: &[Entry], lane: Lane, span: Id) -> &[Entry]
    ensures { result.now ≡ since_oldest lane.0 (number_of span) entries.now }
{
    for place in 0..entries.len() {
        if entries[place].is_of(lane, span) {
            return &entries[place..];
        }
    }
    &[]
}

/// The spans that a lane's entries among these are into.
pub(crate) fn spans_on(alloc: Global, entries: &[Entry], lane: Lane) -> Result<Vec<Id>, AllocError>
    ensures { IfOk result
        (λ spans. map number_of spans.items ≡ spans_on lane.0 entries.now) }
{
    let mut spans = Vec::new(alloc);
    for entry in entries {
        if entry.lane == lane {
            spans.push(entry.span)?;
        }
    }
    Ok(spans)
}

/// The spans that a lane is in, outermost first, each once.
pub(crate) fn spans_in(alloc: Global, entries: &[Entry], lane: Lane) -> Result<Vec<Id>, AllocError>
    ensures { IfOk result
        (λ spans. map number_of spans.items ≡ spans_in lane.0 entries.now) }
{
    let mut spans = Vec::new(alloc);
    for entry in entries {
        if entry.lane == lane && !spans.contains(&entry.span) {
            spans.push(entry.span)?;
        }
    }
    Ok(spans)
}

/// The span of a lane's newest entry, if the lane has one.
pub(crate) fn newest_span(entries: &[Entry], lane: Lane) -> Option<Id>
    ensures { option_map number_of result ≡ newest_span lane.0 entries.now }
{
    let mut newest = None;
    for entry in entries {
        if entry.lane == lane {
            newest = Some(entry.span);
        }
    }
    newest
}
