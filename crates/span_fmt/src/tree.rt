//! A line for each span that opens or closes, each record and each event, indented by depth.
ghost use Rattle.std.specs.Io.KnownBytes.{Appends};
ghost use Rattle.std.specs.Prelude.{◌≡◌, ◌≢◌, IfErr, IfOk, OnErr, OnOk, [], drop, false, string_bytes};
ghost use Rattle.span_core.specs.Span.{number_of};
ghost use Rattle.span_registry.specs.Notice.{notice_of};
ghost use Rattle.span_registry.specs.Context.{view_lent};
ghost use Rattle.span_fmt.specs.Known.{nothing_known, with_text};
ghost use Rattle.span_fmt.specs.Lane.{names_in};
ghost use Rattle.span_fmt.specs.Text.{IsContinued, head_text, tail_text};
ghost use Rattle.span_fmt.specs.Tree.{event_text, given, has_failed, names_of, notice_text, span_text, text_of, tree_steps};

use crate::fields::{ROOM, write_rest};
use crate::lane::LaneNames;
use crate::page::Page;
use span_core::{Event, FieldValue, Id, Lane, Metadata};
use span_layers::{AlwaysUsableObserver, Observe};
use span_registry::{ContextMut, LookupSpan, Notice, Scope, Subscriber, laws};
use std::alloc::{AllocError, Global};
use std::io::{self, Write};

/// A layer that writes a line for each new span, event, record and close that it is notified of, up
/// to the first that finds no memory.
///
/// A line begins with its lane, by its name in quotes if it has one, and is indented by the spans
/// above that its own context shows.
pub struct Tree {
    alloc: Global,
    page: Page,
    names: LaneNames,
}

impl Drop for Tree {
    fn drop(self) {
        let Tree { alloc, page, names } = self;
    }
}

impl Tree {
    /// A tree that has written nothing, and has no names of lanes.
    pub fn new(alloc: Global) -> Tree
        ensures text { text_of result ≡ [] }
        ensures failed { has_failed result ≡ false }
        ensures names { names_of result ≡ nothing_known }
    {
        Tree {
            alloc,
            page: Page::new(alloc),
            names: LaneNames::new(alloc),
        }
    }

    /// The lines that are written.
    pub fn text(&self) -> &str
        ensures { result.now ≡ text_of self.now }
    {
        self.page.text()
    }

    /// Whether no memory was found for a line: nothing is written since then.
    pub fn failed(&self) -> bool
        ensures { result ≡ has_failed self.now }
    {
        self.page.is_cut()
    }

    /// Writes the lines to a writer. Where that fails, no clause says what is there.
    pub fn write_to<W: Write>(&self, writer: &mut W) -> io::Result<()>
        ensures { OnOk result
            (Appends (W.contents writer.old) (W.contents writer.new) (text_of self.now)) }
    {
        writer.write_all(self.text().as_bytes())
    }

    /// Takes out the lines that are written, and begins anew, also where it had failed: ask
    /// `failed` before.
    pub fn take_text(&mut self) -> String
        ensures taken { string_bytes result ≡ text_of self.old }
        ensures text { text_of self.new ≡ [] }
        ensures failed { has_failed self.new ≡ false }
        ensures names { names_of self.new ≡ names_of self.old }
    {
        self.page.take(self.alloc)
    }

    /// Gives a lane a name, which lines show from now on; an empty one is none.
    pub fn name_lane(&mut self, lane: Lane, name: &str) -> Result<(), AllocError>
        ensures named { OnOk result
            (names_of self.new ≡ with_text lane.0 name.now (names_of self.old)) }
        ensures unchanged { OnErr result (names_of self.new ≡ names_of self.old) }
        ensures text { text_of self.new ≡ text_of self.old }
        ensures failed { has_failed self.new ≡ has_failed self.old }
    {
        self.names.set(self.alloc, lane, name)
    }
}

impl<S: Subscriber> Observe<S> for Tree {
    ghost observed = { tree_steps };

    fn observe(&mut self, notice: Notice<'_, '_>, ctx: &mut ContextMut<'_, S>) {
        laws::extensions_change_no_look_up();
        let due = text_due(self.alloc, &self.names, notice, ctx);
        self.page.write(due);
    }
}

/// The line of a notice in what a hook sees, or nothing.
pub(crate) fn text_due<S: Subscriber>(
    alloc: Global,
    names: &LaneNames,
    notice: Notice<'_, '_>,
    ctx: &ContextMut<'_, S>,
) -> Result<String, AllocError>
    ensures text { IfOk result (λ line. string_bytes line
        ≡ notice_text (names_in names.now) (notice_of notice.entry)
        (view_lent S.registry ctx.now)) }
    ensures refused { IfErr result (λ e. notice_text (names_in names.now) (notice_of notice.entry)
        (view_lent S.registry ctx.now) ≢ []) }
{
    match notice {
        Notice::NewSpan(attrs, id) => span_line(alloc, names, ">", id, attrs.values(), ctx),
        Notice::Record(id, values) => span_line(alloc, names, "~", id, values.values(), ctx),
        Notice::Close(id) => span_line(alloc, names, "<", id, &[], ctx),
        Notice::Event(event) => event_line(alloc, names, event, ctx),
        _ => Ok(String::new(alloc)),
    }
}

/// The line of a span that a hook sees, and nothing of one that is hidden from it.
pub(crate) fn span_line<S: Subscriber>(
    alloc: Global,
    names: &LaneNames,
    mark: &str,
    id: Id,
    values: &[(&'static str, FieldValue<'_>)],
    ctx: &ContextMut<'_, S>,
) -> Result<String, AllocError>
    ensures text { IfOk result (λ line. string_bytes line
        ≡ span_text (names_in names.now) mark.now (number_of id) values.now
        (view_lent S.registry ctx.now)) }
    ensures refused { IfErr result (λ e. span_text (names_in names.now) mark.now (number_of id)
        values.now (view_lent S.registry ctx.now) ≢ []) }
{
    let Some(metadata) = ctx.metadata(id) else {
        return Ok(String::new(alloc));
    };
    let look = ctx.ctx();
    let mut line = head(alloc, names, ctx.lane(), above(look.span_scope(id)))?;
    write_tail(&mut line, mark, metadata, values)?;
    Ok(line)
}

/// The line of an event in what a hook sees.
fn event_line<S: Subscriber>(
    alloc: Global,
    names: &LaneNames,
    event: &Event<'_>,
    ctx: &ContextMut<'_, S>,
) -> Result<String, AllocError>
    ensures text { IfOk result (λ line. string_bytes line
        ≡ event_text (names_in names.now) event.now (view_lent S.registry ctx.now)) }
    ensures refused { IfErr result
        (λ e. event_text (names_in names.now) event.now (view_lent S.registry ctx.now) ≢ []) }
{
    let look = ctx.ctx();
    let mut line = head(alloc, names, ctx.lane(), look.event_scope(event))?;
    write_tail(&mut line, "-", event.metadata(), event.values())?;
    Ok(line)
}

/// The spans of a scope that are above its first.
pub(crate) fn above<S: LookupSpan>(spans: Option<Scope<'_, S>>) -> Option<Scope<'_, S>>
    ensures { given S.registry result ≡ drop 1 (given S.registry spans.entry) }
{
    let mut spans = spans?;
    let _first = spans.next();
    Some(spans)
}

/// How a line begins: with its lane, and two spaces for each of these spans.
fn head<S: LookupSpan>(
    alloc: Global,
    names: &LaneNames,
    lane: Lane,
    spans: Option<Scope<'_, S>>,
) -> Result<String, AllocError>
    ensures { IfOk result (λ line. string_bytes line
        ≡ head_text (names_in names.now) lane.0 (given S.registry spans.entry)) }
{
    let mut line = String::with_capacity(alloc, ROOM)?;
    names.write_lane(&mut line, lane)?;
    line.push_str(" ")?;
    let Some(spans) = spans else {
        return Ok(line);
    };
    for _span in spans {
        line.push_str("  ")?;
    }
    Ok(line)
}

/// Writes how a line goes on: with a mark, the level, and its end.
fn write_tail(
    line: &mut String,
    mark: &str,
    metadata: Metadata,
    values: &[(&'static str, FieldValue<'_>)],
) -> Result<(), AllocError>
    ensures { OnOk result (IsContinued line.old line.new
        (tail_text mark.now metadata values.now)) }
{
    let level = metadata.level();
    write!(line, "{mark} {level} ")?;
    write_rest(line, metadata, values)
}

impl<S: Subscriber> AlwaysUsableObserver<S> for Tree {
    ghost always = { λ x. tt };
}
