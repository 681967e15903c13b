//! What stands round the boxes of a picture: the axis of time, the names of lanes, what the colours
//! mean.
ghost use Rattle.std.specs.BTreeMap.{get};
ghost use Rattle.std.specs.Ordering.{nat_cmp};
ghost use Rattle.std.specs.Prelude.{◌≡◌, ◌<◌, ◌≤◌, ◌*◌, ◌++◌, ℕ, IfOk, OnOk, max, string_bytes};
ghost use Rattle.span_export.specs.Frame.{axis_text, frame_text, head_in, head_text, lane_text, lanes_text, style, tag_text, time_line, tick_text, tick_time};
ghost use Rattle.span_export.specs.private.Plan.{IsPlanOf, rows_in, rows_on};

use crate::picture::Scale;
use crate::stay::Stay;
use span_core::Lane;
use span_times::Point;
use std::alloc::{AllocError, Global};
use std::collections::BTreeMap;

/// The tops of lanes, by their numbers.
pub(crate) type Tops = BTreeMap<u32, u64>;

/// How high the part above the lanes is.
const HEAD: u64 = 56;

/// How letters, lines and levels look.
const STYLE: &str = "<style>
text{font:12px sans-serif;fill:#222}
.lane{font-weight:bold}
.time{font-size:10px;fill:#777;text-anchor:middle}
.line{stroke:#ddd}
rect{fill:#eee;stroke:#999}
.paper{fill:#fff;stroke:none}
rect.ERROR{fill:#ffb8b8;stroke:#c33}
rect.WARN{fill:#ffdf9e;stroke:#c80}
rect.INFO{fill:#bfe6c5;stroke:#3a5}
rect.DEBUG{fill:#bcdcf8;stroke:#37b}
rect.TRACE{fill:#dedee6;stroke:#889}
circle{fill:#999;stroke:#fff}
circle.ERROR{fill:#c33}
circle.WARN{fill:#c80}
circle.INFO{fill:#3a5}
circle.DEBUG{fill:#37b}
circle.TRACE{fill:#889}
</style>
";

/// What the colours mean.
const LEGEND: &str = "\
<rect class=\"ERROR\" x=\"72\" y=\"8\" width=\"12\" height=\"12\"/>\
<text x=\"88\" y=\"18\">ERROR</text>
<rect class=\"WARN\" x=\"148\" y=\"8\" width=\"12\" height=\"12\"/>\
<text x=\"164\" y=\"18\">WARN</text>
<rect class=\"INFO\" x=\"224\" y=\"8\" width=\"12\" height=\"12\"/>\
<text x=\"240\" y=\"18\">INFO</text>
<rect class=\"DEBUG\" x=\"300\" y=\"8\" width=\"12\" height=\"12\"/>\
<text x=\"316\" y=\"18\">DEBUG</text>
<rect class=\"TRACE\" x=\"376\" y=\"8\" width=\"12\" height=\"12\"/>\
<text x=\"392\" y=\"18\">TRACE</text>
<circle cx=\"452\" cy=\"14\" r=\"4\"/><text x=\"462\" y=\"18\">event</text>
";

/// Where things are in a picture.
#[derive(Drop)]
pub(crate) struct Plan {
    /// Where lanes are, from the top.
    pub(crate) tops: Tops,
    /// How high the picture is.
    pub(crate) height: u64,
    /// How much time lies between lines of the axis.
    pub(crate) step: u64,
}

impl Plan {
    /// Each lane that has points below the rows of those with smaller numbers.
    pub(crate) fn of(
        alloc: Global,
        scale: &Scale,
        points: &[Point],
        stays: &[Stay],
    ) -> Result<Plan, AllocError>
        ensures { IfOk result (λ plan. IsPlanOf plan scale.now points.now stays.now) }
    {
        let rows = rows(alloc, points, stays)?;
        let mut tops = BTreeMap::new(alloc);
        let mut height = HEAD;
        for (lane, count) in rows.iter() {
            tops.insert(*lane, height)?;
            height = height
                .saturating_add(count.saturating_mul(24))
                .saturating_add(24);
        }
        Ok(Plan {
            tops,
            height,
            step: step(scale.finish.saturating_sub(scale.begin)),
        })
    }
}

/// How many rows each lane that has points has.
fn rows(alloc: Global, points: &[Point], stays: &[Stay]) -> Result<Tops, AllocError>
    ensures { IfOk result
        (λ rows. (lane : ℕ) → get nat_cmp rows lane ≡ rows_in points.now stays.now lane) }
{
    let mut rows = BTreeMap::new(alloc);
    for point in points {
        if !rows.contains_key(&point.lane.0) {
            rows.insert(point.lane.0, rows_on(stays, point.lane))?;
        }
    }
    Ok(rows)
}

/// How many rows a lane has: as many as its deepest stay needs, and at least one.
fn rows_on(stays: &[Stay], lane: Lane) -> u64
    ensures { result ≡ rows_on lane.0 stays.now }
{
    let mut rows = 1u64;
    for stay in stays {
        if stay.lane == lane {
            rows = rows.max(stay.depth.saturating_add(1));
        }
    }
    rows
}

/// All that stands round boxes and marks.
pub(crate) fn frame(alloc: Global, scale: &Scale, plan: &Plan) -> Result<String, AllocError>
    ensures { IfOk result (λ text. string_bytes text ≡ frame_text scale.now plan.now) }
{
    let width = u64::from(scale.plot) + 96;
    let mut text = head(alloc, width, plan.height)?;
    text.push_str(LEGEND)?;
    let axis = axis(alloc, scale, plan)?;
    text.push_str(axis.as_str())?;
    let lanes = lanes(alloc, &plan.tops, width)?;
    text.push_str(lanes.as_str())?;
    Ok(text)
}

/// How a picture begins: with its size, its style and its paper.
fn head(alloc: Global, width: u64, height: u64) -> Result<String, AllocError>
    ensures { IfOk result (λ text. string_bytes text ≡ head_text width height) }
{
    let tag = tag(alloc, width, height)?;
    head_behind(alloc, tag.as_str(), width, height)
}

/// The tag that begins a picture of this size, which can be scaled.
fn tag(alloc: Global, width: u64, height: u64) -> Result<String, AllocError>
    ensures { IfOk result (λ text. string_bytes text ≡ tag_text width height) }
{
    format!(in alloc;
        "<svg xmlns=\"http://www.w3.org/2000/svg\" viewBox=\"0 0 {width} {height}\" \
         width=\"{width}\" height=\"{height}\">\n"
    )
}

/// This tag, and behind it the style and the paper.
fn head_behind(alloc: Global, tag: &str, width: u64, height: u64) -> Result<String, AllocError>
    ensures { IfOk result (λ text. string_bytes text ≡ head_in tag.now style width height) }
{
    format!(in alloc; "{tag}{STYLE}<rect class=\"paper\" width=\"{width}\" height=\"{height}\"/>\n")
}

/// Lines at some times, with how long after the first point these are.
fn axis(alloc: Global, scale: &Scale, plan: &Plan) -> Result<String, AllocError>
    ensures { IfOk result (λ text. string_bytes text ≡ axis_text scale.now plan.now 9) }
{
    let mut text = String::new(alloc);
    for count in 0..9u64 {
        write_tick(alloc, &mut text, scale, plan, count)?;
    }
    Ok(text)
}

/// Writes the line that is so many steps after the first point, unless that is after the last.
fn write_tick(
    alloc: Global,
    text: &mut String,
    scale: &Scale,
    plan: &Plan,
    count: u64,
) -> Result<(), AllocError>
    ensures { OnOk result (string_bytes text.new
        ≡ string_bytes text.old ++ tick_text scale.now plan.now count) }
{
    let after = plan.step.saturating_mul(count);
    if after > scale.finish.saturating_sub(scale.begin) {
        return Ok(());
    }
    let time = tick_time(alloc, after, plan.step)?;
    let x = scale.x(scale.begin.saturating_add(after));
    write_line(text, time.as_str(), x, plan.height)
}

/// Writes a line down to this height, with this time above it.
fn write_line(text: &mut String, time: &str, x: u64, height: u64) -> Result<(), AllocError>
    ensures { OnOk result (string_bytes text.new
        ≡ string_bytes text.old ++ time_line time.now x height) }
{
    write!(
        text,
        "<text class=\"time\" x=\"{x}\" y=\"42\">{time}</text>\
         <path class=\"line\" d=\"M{x}.5 48V{height}\"/>\n"
    )
}

/// One, two or five times a power of ten: the least of which at most eight fit into a time.
fn step(span: u64) -> u64
    ensures few { span < result * 9 }
    ensures some { result * 3 ≤ max span 3 }
{
    let mut power = 1u64;
    while power <= span / 90 {
        power *= 10;
    }
    if span / 9 < power {
        power
    } else if span / 18 < power {
        power * 2
    } else if span / 45 < power {
        power * 5
    } else {
        power * 10
    }
}

/// A time in the largest unit of which the steps are multiples.
fn tick_time(alloc: Global, time: u64, step: u64) -> Result<String, AllocError>
    ensures { IfOk result (λ text. string_bytes text ≡ tick_time time step) }
{
    if step % 1_000_000_000 == 0 {
        let count = time / 1_000_000_000;
        format!(in alloc; "{count} s")
    } else if step % 1_000_000 == 0 {
        let count = time / 1_000_000;
        format!(in alloc; "{count} ms")
    } else if step % 1000 == 0 {
        let count = time / 1000;
        format!(in alloc; "{count} µs")
    } else {
        format!(in alloc; "{time} ns")
    }
}

/// The names of lanes, and lines between them.
fn lanes(alloc: Global, tops: &Tops, width: u64) -> Result<String, AllocError>
    ensures { IfOk result (λ text. string_bytes text ≡ lanes_text width tops.now) }
{
    let mut text = String::new(alloc);
    for (lane, top) in tops.iter() {
        write_lane(&mut text, width, *lane, *top)?;
    }
    Ok(text)
}

/// Writes the name of a lane, and a line above it.
fn write_lane(text: &mut String, width: u64, lane: u32, top: u64) -> Result<(), AllocError>
    ensures { OnOk result (string_bytes text.new
        ≡ string_bytes text.old ++ lane_text width lane top) }
{
    let line = top.saturating_sub(4);
    let base = top.saturating_add(30);
    write!(
        text,
        "<path class=\"line\" d=\"M0 {line}.5H{width}\"/>\
         <text class=\"lane\" x=\"10\" y=\"{base}\">lane {lane}</text>\n"
    )
}
