//! Spans that closed, and how long they took.
ghost use Rattle.std.specs.Prelude.{◌≡◌};
ghost use Rattle.span_core.specs.Span.{number_of};
ghost use Rattle.span_timing.specs.Life.{life_in, opener, since_opening};

use span_core::Id;
use span_times::{Happening, Point, busy_time, idle_time, open_time};

/// A span that closed.
#[derive(Clone, Copy, Debug, PartialEq, Eq)]
pub struct Life {
    /// The number of the callsite that opened it.
    pub callsite: u64,
    /// How long it was busy, in nanoseconds, as `span_times::busy_time` has it.
    pub busy: u64,
    /// How long it was idle.
    pub idle: u64,
    /// How long it was open.
    pub open: u64,
}

/// The life of a span by these points, of which the last closes it; none where none opens it.
pub(crate) fn life_in(points: &[Point], id: Id) -> Option<Life>
    ensures { result ≡ life_in points.now (number_of id) }
{
    let lived = since_opening(points, id);
    let callsite = opener(lived)?;
    Some(Life {
        callsite,
        busy: busy_time(lived, id),
        idle: idle_time(lived, id),
        open: open_time(lived, id).unwrap_or(0),
    })
}

/// The callsite that opens a span at the first of these points.
fn opener(lived: &[Point]) -> Option<u64>
    ensures { result ≡ opener lived.now }
{
    let opening = lived.first()?;
    match opening.what {
        Happening::Opened(_, callsite, _) => Some(callsite),
        _ => None,
    }
}

/// The points from the last on that opens a span; none where none does.
fn since_opening(points: &[Point], id: Id) -> &[Point]
    ensures { result.now ≡ since_opening (number_of id) points.now }
{
    for start in (0..points.len()).rev() {
        if points[start].what.opens(id) {
            return &points[start..];
        }
    }
    &[]
}
