//! How long a span was busy, idle and open, and how much happened.
ghost use Rattle.std.specs.Option.{option_map};
ghost use Rattle.std.specs.Prelude.{◌≡◌, None, find};
ghost use Rattle.span_core.specs.Span.{number_of};
ghost use Rattle.span_times.specs.Measure.{busy_in, capped, closes, count_in, gap, idle_in, is_about, is_close, is_event, is_gap, is_opening, open_in, opens, since_opening, spent};

use crate::happening::{Happening, Point};
use span_core::Id;

/// Two parts of the time in which a span is open. Where it is entered and left in turns, they are
/// all of it.
#[derive(Clone, Copy)]
enum Part {
    Busy,
    Idle,
}

/// How long a span was busy: from each entry to the next exit, on any lanes, in nanoseconds up to
/// `u64::MAX`.
///
/// Where it is entered once more before it is left, the later entry counts.
pub fn busy_time(points: &[Point], id: Id) -> u64
    ensures { result ≡ busy_in points.now (number_of id) }
{
    time_of(Part::Busy, points, id)
}

/// How long a span was open and idle: from its opening and each exit to the next entry, or to its
/// close, up to `u64::MAX`.
///
/// Where it is left once more before it is entered, the later exit counts.
pub fn idle_time(points: &[Point], id: Id) -> u64
    ensures { result ≡ idle_in points.now (number_of id) }
{
    time_of(Part::Idle, points, id)
}

/// How long a span was open: from its first opening to its first close, if both happened.
pub fn open_time(points: &[Point], id: Id) -> Option<u64>
    ensures { result ≡ open_in points.now (number_of id) }
{
    let opened = opening(points, id)?;
    let closed = close(points, id)?;
    Some(closed.time.saturating_sub(opened.time))
}

/// The points from the last on that opens a span; none where none does.
pub fn since_opening(points: &[Point], id: Id) -> &[Point]
    ensures { result.now ≡ since_opening (number_of id) points.now }
{
    for start in (0..points.len()).rev() {
        if points[start].what.opens(id) {
            return &points[start..];
        }
    }
    &[]
}

/// The first opening of a span with this id.
fn opening(points: &[Point], id: Id) -> Option<&Point>
    ensures { option_map (λ p. p.now) result ≡ find (λ p. opens (number_of id) p.what) points.now }
{
    points.iter().find(|point| point.what.opens(id))
}

/// The first close of a span with this id.
fn close(points: &[Point], id: Id) -> Option<&Point>
    ensures { option_map (λ p. p.now) result ≡ find (λ p. closes (number_of id) p.what) points.now }
{
    points.iter().find(|point| point.what.closes(id))
}

/// How long a part of a span took.
fn time_of(part: Part, points: &[Point], id: Id) -> u64
    ensures { result ≡ capped (spent (is_gap part) (number_of id) None points.now) }
{
    let mut last: Option<Point> = None;
    let mut time = 0u64;
    for point in points {
        if point.what.is_about(id) {
            time = time.saturating_add(part.between(last, point));
            last = Some(*point);
        }
    }
    time
}

impl Happening {
    /// A span with this id opens, is entered or left, or closes.
    pub fn is_about(&self, id: Id) -> bool
        ensures { result ≡ is_about (number_of id) self.now }
    {
        match self {
            Happening::Opened(other, _, _)
            | Happening::Entered(other)
            | Happening::Left(other)
            | Happening::Closed(other) => *other == id,
            _ => false,
        }
    }

    /// A span with this id opens.
    pub fn opens(&self, id: Id) -> bool
        ensures { result ≡ opens (number_of id) self.now }
    {
        match self {
            Happening::Opened(other, _, _) => *other == id,
            _ => false,
        }
    }

    /// A span with this id closes.
    pub fn closes(&self, id: Id) -> bool
        ensures { result ≡ closes (number_of id) self.now }
    {
        match self {
            Happening::Closed(other) => *other == id,
            _ => false,
        }
    }
}

impl Part {
    /// The time from the point before, where that is of this part.
    fn between(self, last: Option<Point>, point: &Point) -> u64
        ensures { result ≡ gap (is_gap self) last point.now }
    {
        match last {
            Some(from) if self.lies_between(from.what, point.what) => {
                point.time.saturating_sub(from.time)
            }
            _ => 0,
        }
    }

    /// What lies between two neighbours is of this part.
    fn lies_between(self, from: Happening, to: Happening) -> bool
        ensures { result ≡ is_gap self from to }
    {
        match self {
            Part::Busy => matches!((from, to), (Happening::Entered(_), Happening::Left(_))),
            Part::Idle => matches!(
                (from, to),
                (
                    Happening::Opened(_, _, _) | Happening::Left(_),
                    Happening::Entered(_) | Happening::Closed(_)
                )
            ),
        }
    }
}

/// How much happened.
#[derive(Clone, Copy, Debug, PartialEq, Eq)]
pub struct Counts {
    /// How many spans opened.
    pub opened: usize,
    /// How many spans closed.
    pub closed: usize,
    /// How many events were sent.
    pub events: usize,
}

impl Counts {
    /// How many spans opened and closed in these points, and how many events were sent.
    pub fn of(points: &[Point]) -> Counts
        ensures opened { result.opened ≡ count_in is_opening points.now }
        ensures closed { result.closed ≡ count_in is_close points.now }
        ensures events { result.events ≡ count_in is_event points.now }
    {
        let mut opened = 0;
        let mut closed = 0;
        let mut events = 0;
        for point in points {
            match point.what {
                Happening::Opened(_, _, _) => opened += 1,
                Happening::Closed(_) => closed += 1,
                Happening::Sent(_, _) => events += 1,
                _ => {}
            }
        }
        Counts {
            opened,
            closed,
            events,
        }
    }
}
