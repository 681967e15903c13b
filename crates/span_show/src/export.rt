//! Points in the formats of other tools.
ghost use Rattle.std.specs.Prelude.{◌≡◌, IfOk, flat_map, string_bytes};
ghost use Rattle.span_show.specs.Show.{IsExport, IsTable, line_of};

use crate::fault::ShowFault;
use crate::format::Export;
use span_export::{chrome_text, folded_scopes, folded_text, timeline_page, timeline_svg};
use span_otlp::{Scope, Trace, otlp_lines};
use span_times::{Point, Site, Table};
use span_timing::{Timing, timing_text};
use std::alloc::{AllocError, Global};

/// How wide a picture is.
const WIDTH: u32 = 960;

/// How wide a page's picture is: so many times can be told apart.
const PAGE_WIDTH: u32 = 1_000_000;

/// These points as a text in this format.
pub(crate) fn export(
    alloc: Global,
    format: Export,
    points: &[Point],
    table: Table<'_>,
) -> Result<String, AllocError>
    ensures { IfOk result (λ text. IsExport format table.entry points.now (string_bytes text)) }
{
    match format {
        Export::Chrome => chrome_text(alloc, points, table),
        Export::Otlp => otlp_text(alloc, points, table),
        Export::Folded => folded_text(alloc, points, table),
        Export::Scopes => folded_scopes(alloc, points, table),
        Export::Timing => times_text(alloc, points, table.sites),
        Export::Svg => timeline_svg(alloc, points, table, WIDTH),
        Export::Page => timeline_page(alloc, points, table, PAGE_WIDTH),
    }
}

/// A table of how long spans took, and how often events came.
fn times_text(alloc: Global, points: &[Point], sites: &[Site]) -> Result<String, AllocError>
    ensures { IfOk result (λ text. IsTable sites.now points.now (string_bytes text)) }
{
    let mut timing = Timing::new(alloc);
    timing.add(points)?;
    timing_text(alloc, &timing, sites)
}

/// The spans of OpenTelemetry, each in a line of its own.
fn otlp_text(alloc: Global, points: &[Point], table: Table<'_>) -> Result<String, AllocError>
    ensures { IfOk result
        (λ text. IsExport Export.Otlp table.entry points.now (string_bytes text)) }
{
    let trace = Trace {
        id: 1,
        service: String::from_str(alloc, "script")?,
        began: 0,
        parent: None,
        attributes: Vec::new(alloc),
        scope: Scope::unknown(alloc),
    };
    let lines = otlp_lines(alloc, &trace, points, table)?;
    text_of(alloc, &lines)
}

/// Each of these in a line of its own.
fn text_of(alloc: Global, lines: &[String]) -> Result<String, AllocError>
    ensures { IfOk result
        (λ text. string_bytes text ≡ flat_map line_of lines.now) }
{
    let mut text = String::new(alloc);
    for line in lines {
        writeln!(text, "{line}")?;
    }
    Ok(text)
}
