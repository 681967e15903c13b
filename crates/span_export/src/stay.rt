//! Stays of lanes in spans.
ghost use Rattle.std.specs.Prelude.{◌≡◌, IfOk, map};
ghost use Rattle.span_core.specs.Span.{number_of};
ghost use Rattle.span_export.specs.Picture.{closed_by, depth_on, ended, lasts, lasts_in, stays_of};

use span_core::{Id, Lane};
use span_times::{Happening, Point};
use std::alloc::{AllocError, Global};

/// A time for which a lane is in a span.
#[derive(Clone, Copy)]
pub(crate) struct Stay {
    pub(crate) lane: Lane,
    /// How many rows the stay is shown below the first: more than each that it began in.
    pub(crate) depth: u64,
    pub(crate) span: Id,
    pub(crate) entered: u64,
    pub(crate) left: Option<u64>,
}

impl Stay {
    /// Whether the stay is on this lane, and not over.
    fn lasts(&self, lane: Lane) -> bool
        ensures { result ≡ lasts lane.0 self.now }
    {
        self.lane == lane && self.left.is_none()
    }

    /// The stay, over by now if this span is its own.
    fn closed(self, span: Id, time: u64) -> Stay
        ensures { result ≡ closed_by (number_of span) time self }
    {
        if self.span == span && self.left.is_none() {
            return Stay {
                left: Some(time),
                ..self
            };
        }
        self
    }

    /// Whether the stay is on this lane, of this span, and not over.
    fn lasts_in(&self, lane: Lane, span: Id) -> bool
        ensures { result ≡ lasts_in lane.0 (number_of span) self.now }
    {
        self.lasts(lane) && self.span == span
    }
}

/// The stays of lanes in spans, in the order in which they began. One ends where its span is left,
/// or where that closes, on whichever lane.
pub(crate) fn stays(alloc: Global, points: &[Point]) -> Result<Vec<Stay>, AllocError>
    ensures { IfOk result (λ stays. stays.items ≡ stays_of points.now) }
{
    let mut stays = Vec::new(alloc);
    for point in points {
        match point.what {
            Happening::Entered(span) => stays.push(Stay {
                lane: point.lane,
                depth: depth_on(&stays, point.lane),
                span,
                entered: point.time,
                left: None,
            })?,
            Happening::Left(span) => end(&mut stays, point.lane, span, point.time),
            Happening::Closed(span) => close(&mut stays, span, point.time),
            _ => {}
        }
    }
    Ok(stays)
}

/// The depth below the newest stay of a lane that isn't over, and 0 where there is none.
fn depth_on(stays: &[Stay], lane: Lane) -> u64
    ensures { result ≡ depth_on lane.0 stays.now }
{
    let mut depth = 0u64;
    for stay in stays {
        if stay.lasts(lane) {
            depth = stay.depth.saturating_add(1);
        }
    }
    depth
}

/// Ends the newest stay of a span on a lane that isn't over.
fn end(stays: &mut [Stay], lane: Lane, span: Id, time: u64)
    ensures { stays.new ≡ ended lane.0 (number_of span) time stays.old }
{
    for place in (0..stays.len()).rev() {
        if stays[place].lasts_in(lane, span) {
            stays[place].left = Some(time);
            return;
        }
    }
}

/// Ends the stays of a span that aren't over.
fn close(stays: &mut [Stay], span: Id, time: u64)
    ensures { stays.new ≡ map (closed_by (number_of span) time) stays.old }
{
    for stay in stays.iter_mut() {
        *stay = stay.closed(span, time);
    }
}
