//! Points as folded stacks, of which flame graphs are made.
ghost use Rattle.std.specs.BTreeMap.{get};
ghost use Rattle.std.specs.Ordering.{nat_cmp};
ghost use Rattle.std.specs.Prelude.{◌≡◌, ◌++◌, IfOk, List, OnOk, decimal, flat_map, map, string_bytes};
ghost use Rattle.span_core.specs.Span.{number_of};
ghost use Rattle.span_times.specs.declared.happening.Point.{Point};
ghost use Rattle.span_export.specs.Folded.{add, folded, frame_name, line_text, scopes_folded, stack_frame, stack_text, sums_of};
ghost use Rattle.span_export.specs.Site.{named_by, named_so};
ghost use Rattle.span_export.specs.Sums.{sums_in};
ghost use Rattle.span_export.specs.private.Scopes.{stacks_by};

use crate::entry::{Entry, go_on, newest_span, spans_in};
use crate::escape::replaced;
use crate::given::write_given;
use crate::scope::{Scopes, scope, scopes};
use crate::site::{Name, Spans};
use span_core::{Id, Lane};
use span_fmt::write_escaped;
use span_times::{Point, Table};
use std::alloc::{AllocError, Global};
use std::collections::BTreeMap;

/// How long lanes stood in each stack, by its text.
type Sums = BTreeMap<String, u64>;

/// These points as folded stacks, of which flame graphs are made: a line for each stack of spans
/// that some lane stood in, in the order of their texts.
///
/// A line has the names of the spans, outermost first, with semicolons between, each with the
/// fields that the span was given, as `job{id=7}` (hand over no fields to leave them out), and how
/// long lanes stood so, in nanoseconds up to `u64::MAX`: each time is that from one point of a lane
/// to its next. What comes after a lane's last point isn't counted. Where a span closes, each lane
/// leaves it by that; what such a lane stood since its last point counts without the span.
///
/// A stack has the spans that its lane is in, whatever their parents: a span that is entered on
/// another lane than its parent is outermost there, as a root is. `folded_scopes` has the parents.
///
/// Names are escaped, as `span_fmt::write_escaped` has them, and a semicolon as `\u{3b}`. A
/// space is written as `_`, and an empty name as `\u{}`.
pub fn folded_text(alloc: Global, points: &[Point], table: Table<'_>) -> Result<String, AllocError>
    ensures { IfOk result (λ text. string_bytes text ≡ folded table.entry points.now) }
{
    let sums = sum_up(alloc, points, table, Stacks::Entered)?;
    lines(alloc, &sums)
}

/// These points as folded stacks, as `folded_text` has them, but by scope: a stack has the span
/// that its lane entered last and hasn't left, and all spans above that, whichever lanes these were
/// entered on, and whether they closed since.
///
/// Which spans are above one is by its opening among the points, and by theirs. One that isn't
/// opened there stands outermost, and as `?`.
///
/// Stands for the stacks of the crate `tracing-flame`.
pub fn folded_scopes(
    alloc: Global,
    points: &[Point],
    table: Table<'_>,
) -> Result<String, AllocError>
    ensures { IfOk result
        (λ text. string_bytes text ≡ scopes_folded table.entry points.now) }
{
    let scopes = scopes(alloc, points)?;
    let sums = sum_up(alloc, points, table, Stacks::Scoped(&scopes))?;
    lines(alloc, &sums)
}

/// Which spans are in a lane's stack.
#[derive(Clone, Copy)]
pub(crate) enum Stacks<'a> {
    /// Those that the lane entered.
    Entered,
    /// The scope of the one that it entered last.
    Scoped(&'a Scopes),
}

impl Stacks<'_> {
    /// The spans in the stack of a lane, by the entries that last.
    fn of(self, alloc: Global, entries: &[Entry], lane: Lane) -> Result<Vec<Id>, AllocError>
        ensures { IfOk result (λ stack. map number_of stack.items
            ≡ stacks_by self.entry lane.0 entries.now) }
    {
        match self {
            Stacks::Entered => spans_in(alloc, entries, lane),
            Stacks::Scoped(scopes) => match newest_span(entries, lane) {
                Some(span) => scope(alloc, scopes, span),
                None => Ok(Vec::new(alloc)),
            },
        }
    }
}

/// A line for each of these sums.
fn lines(alloc: Global, sums: &Sums) -> Result<String, AllocError>
    ensures { IfOk result
        (λ text. string_bytes text ≡ flat_map line_text (sums_in sums.now)) }
{
    let mut text = String::new(alloc);
    for (stack, time) in sums.iter() {
        writeln!(text, "{stack} {time}")?;
    }
    Ok(text)
}

/// How long lanes stood in each stack.
fn sum_up(
    alloc: Global,
    points: &[Point],
    table: Table<'_>,
    stacks: Stacks<'_>,
) -> Result<Sums, AllocError>
    ensures { IfOk result
        (λ sums. sums_in sums ≡ sums_of (stacks_by stacks.entry) table.entry points.now) }
{
    let spans = Spans::of(alloc, points, table)?;
    let mut sums = BTreeMap::new(alloc);
    let mut entries = Vec::new(alloc);
    let mut times: BTreeMap<u32, u64> = BTreeMap::new(alloc);
    for point in points {
        let stack = stacks.of(alloc, &entries, point.lane)?;
        if !stack.is_empty() {
            let since = times.get(&point.lane.0).copied().unwrap_or(0);
            let text = text_of(alloc, &spans, &stack)?;
            let time = point.time.saturating_sub(since);
            add(&mut sums, text, time)?;
        }
        go_on(&mut entries, point)?;
        times.insert(point.lane.0, point.time)?;
    }
    Ok(sums)
}

/// Adds so much to the sum of this stack.
fn add(sums: &mut Sums, stack: String, time: u64) -> Result<(), AllocError>
    ensures { OnOk result (sums_in sums.new ≡ add (string_bytes stack) time (sums_in sums.old)) }
{
    let so_far = sums.get(&stack).copied().unwrap_or(0);
    sums.insert(stack, so_far.saturating_add(time))?;
    Ok(())
}

/// A stack as text: the names of its spans with what these were given, outermost first.
fn text_of(alloc: Global, spans: &Spans<'_>, stack: &[Id]) -> Result<String, AllocError>
    ensures { IfOk result (λ text. string_bytes text
        ≡ stack_text (named_by spans.now) (map number_of stack.now)) }
{
    let mut text = String::new(alloc);
    let Some((outermost, rest)) = stack.split_first() else {
        return Ok(text);
    };
    let frame = stack_frame(alloc, spans.name(*outermost))?;
    text.push_str(frame.as_str())?;
    for span in rest {
        let frame = stack_frame(alloc, spans.name(*span))?;
        text.push_str(";")?;
        text.push_str(frame.as_str())?;
    }
    Ok(text)
}

/// A span as a frame: its name, escaped, and what it was given; a semicolon is escaped as well, and
/// `_` stands for each space. An empty name is as no other is written.
///
/// A semicolon would end the frame, and a number behind a space be read as a second count.
fn stack_frame(alloc: Global, name: Name<'_>) -> Result<String, AllocError>
    ensures { IfOk result (λ new. string_bytes new ≡ stack_frame (named_so name.entry)) }
{
    let mut frame = String::new(alloc);
    write_name(&mut frame, name.name())?;
    write_given(&mut frame, name.given)?;
    let frame = replaced(alloc, frame.as_str(), ';', "\\u{3b}")?;
    replaced(alloc, frame.as_str(), ' ', "_")
}

/// Writes a name, escaped; an empty one as no other is written.
fn write_name(text: &mut String, name: &str) -> Result<(), AllocError>
    ensures { OnOk result
        (string_bytes text.new ≡ string_bytes text.old ++ frame_name name.now) }
{
    if name.is_empty() {
        return text.push_str("\\u{}");
    }
    write_escaped(text, name)
}
