//! How many attributes were dropped: fields that points came with, and that aren't in the table.
ghost use Rattle.std.specs.Prelude.{◌≡◌, OnOk};
ghost use Rattle.serde_json.specs.View.{members_view};
ghost use Rattle.span_core.specs.Span.{number_of};
ghost use Rattle.span_otlp.specs.Dropped.{dropped_by, lost_at, missing, tells_of, with_dropped};

use serde_json::{Map, Value, put};
use span_core::Id;
use span_times::{Happening, Point, Table};
use std::alloc::{AllocError, Global};

/// How many fields a point came with that the table doesn't have.
pub(crate) fn missing(table: Table<'_>, point: &Point) -> u64
    ensures { result ≡ missing table.entry point.now }
{
    let came = point.fields.to.saturating_sub(point.fields.from);
    let known = point.fields_in(table.fields).len();
    came.saturating_sub(known) as u64
}

/// How many fields a span was given at these points that the table doesn't have.
pub(crate) fn dropped_by(table: Table<'_>, id: Id, points: &[Point]) -> u64
    ensures { result ≡ dropped_by table.entry (number_of id) points.now }
{
    let mut dropped = 0u64;
    for point in points {
        dropped = dropped.saturating_add(lost_at(table, id, point));
    }
    dropped
}

/// How many fields a span was given at this point that the table doesn't have.
fn lost_at(table: Table<'_>, id: Id, point: &Point) -> u64
    ensures { result ≡ lost_at table.entry (number_of id) point.now }
{
    if tells_of(id, point.what) {
        missing(table, point)
    } else {
        0
    }
}

/// Whether a span is given fields by this.
fn tells_of(id: Id, what: Happening) -> bool
    ensures { result ≡ tells_of (number_of id) what }
{
    match what {
        Happening::Opened(span, _, _) | Happening::Recorded(span) => span == id,
        _ => false,
    }
}

/// Says how many attributes were dropped, unless none were.
pub(crate) fn put_dropped(
    members: &mut Map<String, Value>,
    alloc: Global,
    count: u64,
) -> Result<(), AllocError>
    ensures { OnOk result (members_view members.new.entries
        ≡ with_dropped count (members_view members.old.entries)) }
{
    if count == 0 {
        return Ok(());
    }
    let count = Value::from(count.min(u64::from(u32::MAX)));
    put(members, alloc, "droppedAttributesCount", count)
}
