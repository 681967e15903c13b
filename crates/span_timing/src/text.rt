//! A table of how often spans and events came, and how long spans took.
ghost use Rattle.std.specs.Option.{option_copied, option_map_or};
ghost use Rattle.std.specs.Prelude.{◌≡◌, ◌==◌, ◌++◌, ◌∷◌, [], IfOk, OnOk, codes, decimal, find, flat_map, string_bytes};
ghost use Rattle.span_fmt.specs.Escape.{escaped};
ghost use Rattle.span_timing.specs.Text.{called, called_by, callsites_in, each_once, event_lines, event_words, further_line, span_lines, span_words, times_cells, timing_text};
ghost use Rattle.span_timing.specs.Timing.{events_at, row_at};
ghost use Rattle.span_timing.specs.private.Cells.{cells_in, lines_in, words_in};

use crate::histogram::Histogram;
use crate::layout::{Line, laid_out};
use crate::timing::{Row, Timing};
use crate::unit::time_text;
use span_fmt::write_escaped;
use span_times::Site;
use std::alloc::{AllocError, Global};

/// A table for people: how often the spans of each callsite closed, and how long they were open,
/// busy and idle, at the 50th, 90th and 99th percent and at most; then how often each event came.
///
/// Callsites stand in the order of `sites`, and are called as these have them, escaped as
/// `span_fmt::write_escaped` does. Behind them come those that it doesn't have, as `?`. A time up
/// to which some part lies is up to a sixteenth too great, and what is shown of any is cut off.
pub fn timing_text(alloc: Global, timing: &Timing, sites: &[Site]) -> Result<String, AllocError>
    ensures { IfOk result (λ text. string_bytes text ≡ timing_text timing.now sites.now) }
{
    let callsites = callsites(alloc, timing, sites)?;
    let mut lines = Vec::new(alloc);
    push_spans(alloc, &mut lines, timing, sites, &callsites)?;
    push_events(alloc, &mut lines, timing, sites, &callsites)?;
    laid_out(alloc, &lines)
}

/// The numbers of all callsites, each once: those of these sites first.
fn callsites(alloc: Global, timing: &Timing, sites: &[Site]) -> Result<Vec<u64>, AllocError>
    ensures { IfOk result (λ numbers. numbers.items ≡ callsites_in timing.now sites.now) }
{
    let mut numbers: Vec<u64> = sites.iter().map(|site| site.callsite).collect(alloc)?;
    numbers.extend_from_slice(&timing.span_callsites()?)?;
    numbers.extend_from_slice(&timing.event_callsites()?)?;
    each_once(alloc, &numbers)
}

/// These numbers, each once, where it stands first.
fn each_once(alloc: Global, numbers: &[u64]) -> Result<Vec<u64>, AllocError>
    ensures { IfOk result (λ once. once.items ≡ each_once numbers.now) }
{
    let mut once = Vec::new(alloc);
    for number in numbers {
        if !once.contains(number) {
            once.push(*number)?;
        }
    }
    Ok(once)
}

/// Pushes the lines of spans, below what their columns are called.
fn push_spans(
    alloc: Global,
    lines: &mut Vec<Line>,
    timing: &Timing,
    sites: &[Site],
    callsites: &[u64],
) -> Result<(), AllocError>
    ensures { OnOk result (lines_in lines.new.items ≡ lines_in lines.old.items ++ span_words
        ∷ flat_map (λ n. option_map_or (span_lines sites.now n) (row_at n timing.now) [])
        callsites.now) }
{
    let words = [
        "span", "target", "count", "time", "50%", "90%", "99%", "most",
    ];
    lines.push(line_of(alloc, &words)?)?;
    for callsite in callsites {
        push_row(alloc, lines, sites, *callsite, timing.row(*callsite))?;
    }
    Ok(())
}

/// Pushes the lines of events, below what their columns are called.
fn push_events(
    alloc: Global,
    lines: &mut Vec<Line>,
    timing: &Timing,
    sites: &[Site],
    callsites: &[u64],
) -> Result<(), AllocError>
    ensures { OnOk result (lines_in lines.new.items ≡ lines_in lines.old.items ++ event_words
        ∷ flat_map (λ n. event_lines sites.now n (events_at n timing.now)) callsites.now) }
{
    lines.push(line_of(alloc, &["event", "target", "count"])?)?;
    for callsite in callsites {
        push_count(alloc, lines, sites, *callsite, timing.events(*callsite))?;
    }
    Ok(())
}

/// A line of these words.
fn line_of(alloc: Global, words: &[&str]) -> Result<Line, AllocError>
    ensures { IfOk result (λ line. cells_in line.items ≡ words_in words.now) }
{
    let mut line = Vec::new(alloc);
    for word in words {
        line.push(String::from_str(alloc, *word)?)?;
    }
    Ok(line)
}

/// Pushes the three lines of a callsite of which spans closed.
fn push_row(
    alloc: Global,
    lines: &mut Vec<Line>,
    sites: &[Site],
    callsite: u64,
    row: Option<&Row>,
) -> Result<(), AllocError>
    ensures { OnOk result (lines_in lines.new.items ≡ lines_in lines.old.items
        ++ option_map_or (span_lines sites.now callsite) (option_copied row.entry) []) }
{
    let Some(row) = row else {
        return Ok(());
    };
    let mut first = named_line(alloc, sites, callsite, row.open.count())?;
    push_times(alloc, &mut first, "open", &row.open)?;
    lines.push(first)?;
    lines.push(further_line(alloc, "busy", &row.busy)?)?;
    lines.push(further_line(alloc, "idle", &row.idle)?)?;
    Ok(())
}

/// Pushes the line of a callsite that sent events.
fn push_count(
    alloc: Global,
    lines: &mut Vec<Line>,
    sites: &[Site],
    callsite: u64,
    count: u64,
) -> Result<(), AllocError>
    ensures { OnOk result (lines_in lines.new.items
        ≡ lines_in lines.old.items ++ event_lines sites.now callsite count) }
{
    if count == 0 {
        return Ok(());
    }
    lines.push(named_line(alloc, sites, callsite, count)?)?;
    Ok(())
}

/// A line under another, which has the name, the target and the count.
fn further_line(alloc: Global, part: &str, times: &Histogram) -> Result<Line, AllocError>
    ensures { IfOk result (λ line. cells_in line.items ≡ further_line part.now times.now) }
{
    let mut line = line_of(alloc, &["", "", ""])?;
    push_times(alloc, &mut line, part, times)?;
    Ok(line)
}

/// The name and the target of a callsite, and how often it came.
fn named_line(alloc: Global, sites: &[Site], callsite: u64, count: u64) -> Result<Line, AllocError>
    ensures { IfOk result
        (λ line. cells_in line.items ≡ called sites.now callsite ++ decimal count ∷ []) }
{
    let mut line = called(alloc, find_site(sites, callsite))?;
    line.push(format!(in alloc; "{count}")?)?;
    Ok(line)
}

/// The first site with this number.
fn find_site(sites: &[Site], callsite: u64) -> Option<&Site>
    ensures { option_copied result ≡ find (λ s. s.callsite == callsite) sites.now }
{
    sites.iter().find(|site| site.callsite == callsite)
}

/// The name and the target of a site, escaped.
fn called(alloc: Global, site: Option<&Site>) -> Result<Line, AllocError>
    ensures { IfOk result (λ line. cells_in line.items ≡ called_by (option_copied site.entry)) }
{
    let Some(site) = site else {
        return line_of(alloc, &["?", "?"]);
    };
    let mut line = Vec::new(alloc);
    line.push(escaped(alloc, site.name.as_str())?)?;
    line.push(escaped(alloc, site.target.as_str())?)?;
    Ok(line)
}

/// A text, escaped.
fn escaped(alloc: Global, text: &str) -> Result<String, AllocError>
    ensures { IfOk result (λ new. string_bytes new ≡ escaped text.now) }
{
    let mut new = String::new(alloc);
    write_escaped(&mut new, text)?;
    Ok(new)
}

/// Pushes how times are spread.
fn push_times(
    alloc: Global,
    line: &mut Line,
    part: &str,
    times: &Histogram,
) -> Result<(), AllocError>
    ensures { OnOk result
        (cells_in line.new.items ≡ cells_in line.old.items ++ times_cells part.now times.now) }
{
    line.push(String::from_str(alloc, part)?)?;
    for percent in [50, 90, 99] {
        line.push(time_text(alloc, times.quantile(percent, 100))?)?;
    }
    line.push(time_text(alloc, times.most())?)?;
    Ok(())
}
