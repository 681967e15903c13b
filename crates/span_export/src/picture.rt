//! Points as a picture: a box for each time that a lane is in a span.
ghost use Rattle.std.specs.Prelude.{◌≡◌, ◌++◌, IfOk, OnOk, codes, string_bytes};
ghost use Rattle.span_export.specs.Picture.{IsPicture, area_of, box_of, box_text, boxes_text, circle_text, has_room, label_text, mark_of, marks_text, name_text, title_of, top_in};
ghost use Rattle.span_export.specs.Scale.{scale_of, x_at};
ghost use Rattle.span_export.specs.Site.{named_by, named_so};

use crate::escape::xml_text;
use crate::frame::{Plan, Tops, frame};
use crate::given::{latest_given, write_given};
use crate::site::{Name, Spans, find_site};
use crate::stay::{Stay, stays};
use crate::when::{write_moment, write_stay};
use span_core::Lane;
use span_times::{Happening, Point, Table};
use std::alloc::{AllocError, Global};

/// Where time is shown.
#[derive(Clone, Copy)]
pub(crate) struct Scale {
    /// The time of the first point.
    pub(crate) begin: u64,
    /// The time of the last.
    pub(crate) finish: u64,
    /// How wide the time between is.
    pub(crate) plot: u32,
}

/// These points as a picture in SVG, this wide and at least 320: for each lane the spans that it
/// was in, a box below those that it was in already, and its events above them all. What was never
/// left goes on up to the last point. A character that XML doesn't have, as most of those below the
/// space, is shown as U+FFFD.
///
/// A box has the colour of its span's level, and its name where there is room for it. Its title has
/// what the span was given as well, as `job{id=7}`, and below that when the lane came in, after the
/// first point, and how long it stayed, as `from 1.500 ms for 20.000 µs`. An event's mark has such
/// a title too, with `at 1.500 ms`. It takes time that grows as the square of how many boxes there
/// are: it is meant for what a person can look at.
pub fn timeline_svg(
    alloc: Global,
    points: &[Point],
    table: Table<'_>,
    width: u32,
) -> Result<String, AllocError>
    ensures { IfOk result (λ svg. IsPicture (string_bytes svg) table.entry points.now width) }
{
    let spans = Spans::of(alloc, points, table)?;
    let stays = stays(alloc, points)?;
    let scale = Scale::of(points, width);
    let plan = Plan::of(alloc, &scale, points, &stays)?;
    let frame = frame(alloc, &scale, &plan)?;
    let boxes = boxes(alloc, &spans, &scale, &plan.tops, &stays)?;
    let marks = marks(alloc, table, &scale, &plan.tops, points)?;
    assembled(alloc, &frame, &boxes, &marks)
}

/// A picture of these parts.
fn assembled(alloc: Global, frame: &str, boxes: &str, marks: &str) -> Result<String, AllocError>
    ensures { IfOk result (λ svg. string_bytes svg
        ≡ frame.now ++ boxes.now ++ marks.now ++ codes "</svg>\n") }
{
    format!(in alloc; "{frame}{boxes}{marks}</svg>\n")
}

impl Scale {
    /// The scale of a picture of these points that is so wide.
    fn of(points: &[Point], width: u32) -> Scale
        ensures { result ≡ scale_of points.now width }
    {
        let begin = match points.first() {
            Some(point) => point.time,
            None => 0,
        };
        let finish = match points.last() {
            Some(point) => point.time,
            None => 0,
        };
        Scale {
            begin,
            finish,
            plot: width.max(320) - 96,
        }
    }

    /// Where a time lies between first and last, from the left.
    pub(crate) fn x(&self, time: u64) -> u64
        ensures { result ≡ x_at self.now time }
    {
        let span = self.finish.saturating_sub(self.begin).max(1);
        let part = time.saturating_sub(self.begin).min(span);
        let place = u128::from(part) * u128::from(self.plot) / u128::from(span);
        let plot = u64::from(self.plot);
        72 + u64::try_from(place).unwrap_or(plot).min(plot)
    }
}

/// The boxes of stays.
fn boxes(
    alloc: Global,
    spans: &Spans<'_>,
    scale: &Scale,
    tops: &Tops,
    stays: &[Stay],
) -> Result<String, AllocError>
    ensures { IfOk result (λ text. string_bytes text
        ≡ boxes_text (named_by spans.now) scale.now (top_in tops.now) stays.now) }
{
    let mut text = String::new(alloc);
    for stay in stays {
        let name = spans.name(stay.span);
        write_box(alloc, &mut text, scale, top_of(tops, stay.lane), name, stay)?;
    }
    Ok(text)
}

/// Writes the box of a stay on a lane with this top.
fn write_box(
    alloc: Global,
    text: &mut String,
    scale: &Scale,
    top: u64,
    name: Name<'_>,
    stay: &Stay,
) -> Result<(), AllocError>
    ensures { OnOk result (string_bytes text.new ≡ string_bytes text.old
        ++ box_of scale.now top (named_so name.entry) stay.now) }
{
    let mut title = title(alloc, name)?;
    write_stay(&mut title, scale, stay)?;
    let shown = xml_text(alloc, name.name())?;
    let area = Area::of(scale, top, stay);
    let label = label(alloc, shown.as_str(), area)?;
    write_rect(text, title.as_str(), name.level(), area, label.as_str())
}

/// The title of a span or an event: its name and what it was given.
fn title(alloc: Global, name: Name<'_>) -> Result<String, AllocError>
    ensures { IfOk result (λ title. string_bytes title ≡ title_of (named_so name.entry)) }
{
    let mut title = String::from_str(alloc, name.name())?;
    write_given(&mut title, name.given)?;
    xml_text(alloc, title.as_str())
}

/// Writes a box with this title, at this level, here, with this label.
fn write_rect(
    text: &mut String,
    title: &str,
    level: &str,
    area: Area,
    label: &str,
) -> Result<(), AllocError>
    ensures { OnOk result (string_bytes text.new ≡ string_bytes text.old
        ++ box_text title.now level.now area label.now) }
{
    let Area { x, y, width } = area;
    write!(
        text,
        "<g><title>{title}</title><rect class=\"{level}\" x=\"{x}\" y=\"{y}\" \
         width=\"{width}\" height=\"20\"/>{label}</g>\n"
    )
}

/// A name in a box, if there is room for it.
fn label(alloc: Global, name: &str, area: Area) -> Result<String, AllocError>
    ensures { IfOk result (λ label. string_bytes label ≡ label_text name.now area) }
{
    if area.has_room(name) {
        name_in(alloc, name, area)
    } else {
        Ok(String::new(alloc))
    }
}

/// A name in a box.
fn name_in(alloc: Global, name: &str, area: Area) -> Result<String, AllocError>
    ensures { IfOk result (λ text. string_bytes text ≡ name_text name.now area) }
{
    let x = area.x.saturating_add(5);
    let y = area.y.saturating_add(14);
    format!(in alloc; "<text x=\"{x}\" y=\"{y}\">{name}</text>")
}

/// Where a box is, and how wide.
#[derive(Clone, Copy)]
pub(crate) struct Area {
    x: u64,
    y: u64,
    width: u64,
}

impl Area {
    /// Where the box of a stay is, on a lane with this top.
    fn of(scale: &Scale, top: u64, stay: &Stay) -> Area
        ensures { result ≡ area_of scale.now top stay.now }
    {
        let x = scale.x(stay.entered);
        let until = scale.x(stay.left.unwrap_or(scale.finish));
        let down = stay.depth.saturating_mul(24).saturating_add(16);
        Area {
            x,
            y: top.saturating_add(down),
            width: until.saturating_sub(x).max(1),
        }
    }

    /// Whether the box has room for a name.
    fn has_room(&self, name: &str) -> bool
        ensures { result ≡ has_room name.now self.now }
    {
        name.len() as u64 <= self.width.saturating_sub(10) / 7
    }
}

/// The marks of events.
fn marks(
    alloc: Global,
    table: Table<'_>,
    scale: &Scale,
    tops: &Tops,
    points: &[Point],
) -> Result<String, AllocError>
    ensures { IfOk result (λ text. string_bytes text
        ≡ marks_text table.entry scale.now (top_in tops.now) points.now) }
{
    let mut text = String::new(alloc);
    for point in points {
        let top = top_of(tops, point.lane);
        write_point(alloc, &mut text, table, scale, top, point)?;
    }
    Ok(text)
}

/// Writes the mark of a point on a lane with this top, if it is an event.
fn write_point(
    alloc: Global,
    text: &mut String,
    table: Table<'_>,
    scale: &Scale,
    top: u64,
    point: &Point,
) -> Result<(), AllocError>
    ensures { OnOk result (string_bytes text.new ≡ string_bytes text.old
        ++ mark_of table.entry scale.now top point.now point.now.what) }
{
    let Happening::Sent(callsite, _) = point.what else {
        return Ok(());
    };
    let given = latest_given(alloc, point.fields_in(table.fields))?;
    let name = Name {
        site: find_site(table.sites, callsite),
        given: &given,
    };
    let mut title = title(alloc, name)?;
    write_moment(&mut title, scale, point.time)?;
    let x = scale.x(point.time);
    write_circle(text, title.as_str(), name.level(), x, top.saturating_add(8))
}

/// Writes a circle with this title, at this level, here.
fn write_circle(
    text: &mut String,
    title: &str,
    level: &str,
    x: u64,
    y: u64,
) -> Result<(), AllocError>
    ensures { OnOk result (string_bytes text.new ≡ string_bytes text.old
        ++ circle_text title.now level.now x y) }
{
    write!(
        text,
        "<circle class=\"{level}\" cx=\"{x}\" cy=\"{y}\" r=\"4\"><title>{title}</title></circle>\n"
    )
}

/// The top of a lane.
fn top_of(tops: &Tops, lane: Lane) -> u64
    ensures { result ≡ top_in tops.now lane.0 }
{
    tops.get(&lane.0).copied().unwrap_or(0)
}
