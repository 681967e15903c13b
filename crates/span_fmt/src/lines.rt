//! A line for each event, with the spans around it, and the values that they were given.
ghost use Rattle.std.specs.Io.KnownBytes.{Appends};
ghost use Rattle.std.specs.Prelude.{◌≡◌, ◌≢◌, IfErr, IfOk, OnErr, OnOk, [], false, true, flat_map, reverse, string_bytes};
ghost use Rattle.span_core.specs.Span.{number_of};
ghost use Rattle.span_registry.specs.Context.{view_lent};
ghost use Rattle.span_fmt.specs.Known.{known_in, nothing_known, with_text, with_values};
ghost use Rattle.span_fmt.specs.Lane.{names_in};
ghost use Rattle.span_fmt.specs.Lines.{bare, begun_text, braced, event_line, has_failed, known_of, lines_steps, names_of, reference_label, spaced, label_text, text_of};
ghost use Rattle.span_fmt.specs.Text.{IsContinued, fields_text};
ghost use Rattle.span_fmt.specs.Tree.{given};

use crate::escape::write_escaped;
use crate::fields::{ROOM, write_rest};
use crate::known::Known;
use crate::lane::LaneNames;
use crate::page::Page;
use span_core::{Event, FieldValue, Id, Lane, Level};
use span_layers::{AlwaysUsableObserver, Observe};
use span_registry::{ContextMut, LookupSpan, Notice, Scope, Subscriber, laws};
use std::alloc::{AllocError, Global};
use std::io::{self, Write};

/// A layer that writes a line for each event that it is notified of, up to the first notice that
/// finds no memory.
///
/// A line begins with its lane, by its name in quotes if it has one. It names the spans around the
/// event that its own context shows, from the root on, each with the values that it was given.
///
/// Stands for `tracing_subscriber::fmt::Layer`, without time stamps and colours.
pub struct Lines {
    alloc: Global,
    page: Page,
    known: Known,
    names: LaneNames,
}

impl Drop for Lines {
    fn drop(self) {
        let Lines {
            alloc,
            page,
            known,
            names,
        } = self;
    }
}

impl Lines {
    /// A `Lines` that has written nothing, knows no span's values, and has no names of lanes.
    pub fn new(alloc: Global) -> Lines
        ensures text { text_of result ≡ [] }
        ensures failed { has_failed result ≡ false }
        ensures known { known_of result ≡ nothing_known }
        ensures names { names_of result ≡ nothing_known }
    {
        Lines {
            alloc,
            page: Page::new(alloc),
            known: Known::new(alloc),
            names: LaneNames::new(alloc),
        }
    }

    /// The lines that are written.
    pub fn text(&self) -> &str
        ensures { result.now ≡ text_of self.now }
    {
        self.page.text()
    }

    /// Whether no memory was found for a line or for a span's values: nothing is written since
    /// then.
    pub fn failed(&self) -> bool
        ensures { result ≡ has_failed self.now }
    {
        self.page.is_cut()
    }

    /// Writes the lines to a writer. Where that fails, no clause says what is there.
    pub fn write_to<W: Write>(&self, writer: &mut W) -> io::Result<()>
        ensures { OnOk result
            (Appends (W.contents writer.old) (W.contents writer.new) (text_of self.now)) }
    {
        writer.write_all(self.text().as_bytes())
    }

    /// Takes out the lines that are written, and begins anew, also where it had failed: ask
    /// `failed` before.
    ///
    /// What is known of spans is kept, but for values that they were given since it failed.
    pub fn take_text(&mut self) -> String
        ensures taken { string_bytes result ≡ text_of self.old }
        ensures text { text_of self.new ≡ [] }
        ensures failed { has_failed self.new ≡ false }
        ensures known { known_of self.new ≡ known_of self.old }
        ensures names { names_of self.new ≡ names_of self.old }
    {
        self.page.take(self.alloc)
    }

    /// Gives a lane a name, which lines show from now on; an empty one is none.
    pub fn name_lane(&mut self, lane: Lane, name: &str) -> Result<(), AllocError>
        ensures named { OnOk result
            (names_of self.new ≡ with_text lane.0 name.now (names_of self.old)) }
        ensures unchanged { OnErr result (names_of self.new ≡ names_of self.old) }
        ensures text { text_of self.new ≡ text_of self.old }
        ensures failed { has_failed self.new ≡ has_failed self.old }
        ensures known { known_of self.new ≡ known_of self.old }
    {
        self.names.set(self.alloc, lane, name)
    }

    /// Notes the values that a span is given, if memory is found for them, and was for all before.
    fn note(&mut self, id: Id, values: &[(&'static str, FieldValue<'_>)])
        ensures text { text_of self.new ≡ text_of self.old }
        ensures before { has_failed self.new ≡ false → has_failed self.old ≡ false }
        ensures known { has_failed self.new ≡ false
            → known_of self.new ≡ with_values (number_of id) values.now (known_of self.old) }
        ensures failed { has_failed self.new ≡ true → known_of self.new ≡ known_of self.old }
        ensures free { fields_text values.now ≡ [] → has_failed self.new ≡ has_failed self.old }
        ensures names { names_of self.new ≡ names_of self.old }
    {
        if self.page.is_cut() {
            return;
        }
        if self.known.add(self.alloc, id, values).is_err() {
            self.page.cut();
        }
    }
}

impl<S: Subscriber> Observe<S> for Lines {
    ghost observed = { lines_steps };

    fn observe(&mut self, notice: Notice<'_, '_>, ctx: &mut ContextMut<'_, S>) {
        laws::extensions_change_no_look_up();
        match notice {
            Notice::NewSpan(attrs, id) => self.note(id, attrs.values()),
            Notice::Record(id, values) => self.note(id, values.values()),
            Notice::Close(id) => self.known.forget(id),
            Notice::Event(event) => {
                let line = line_due(self.alloc, &self.names, event, &self.known, ctx);
                self.page.write(line);
            }
            _ => {}
        }
    }
}

/// The line of an event in what a hook sees, with what is known of spans.
pub(crate) fn line_due<S: Subscriber>(
    alloc: Global,
    names: &LaneNames,
    event: &Event<'_>,
    known: &Known,
    ctx: &ContextMut<'_, S>,
) -> Result<String, AllocError>
    ensures text { IfOk result (λ line. string_bytes line
        ≡ event_line (names_in names.now) event.now (view_lent S.registry ctx.now)
        (known_in known.now)) }
    ensures refused { IfErr result (λ e. event_line (names_in names.now) event.now
        (view_lent S.registry ctx.now) (known_in known.now) ≢ []) }
{
    let look = ctx.ctx();
    let around = spans_around(alloc, look.event_scope(event), known)?;
    let metadata = event.metadata();
    let mut line = begun(alloc, names, ctx.lane(), metadata.level())?;
    write_spaced(&mut line, around.as_str())?;
    write_rest(&mut line, metadata, event.values())?;
    Ok(line)
}

/// How a line begins: with its lane and level.
fn begun(alloc: Global, names: &LaneNames, lane: Lane, level: Level) -> Result<String, AllocError>
    ensures { IfOk result
        (λ line. string_bytes line ≡ begun_text (names_in names.now) lane.0 level) }
{
    let mut line = String::with_capacity(alloc, ROOM)?;
    names.write_lane(&mut line, lane)?;
    write!(line, " {level} ")?;
    Ok(line)
}

/// The spans of a scope from the root on, each with its values.
fn spans_around<S: LookupSpan>(
    alloc: Global,
    spans: Option<Scope<'_, S>>,
    known: &Known,
) -> Result<String, AllocError>
    ensures { IfOk result (λ text. string_bytes text
        ≡ flat_map (reference_label (known_in known.now))
        (reverse (given S.registry spans.entry))) }
{
    let Some(spans) = spans else {
        return Ok(String::new(alloc));
    };
    let mut text = String::with_capacity(alloc, ROOM)?;
    let Ok(spans) = spans.from_root(alloc) else {
        return Err(AllocError);
    };
    for span in spans {
        write_span(&mut text, span.name(), known.text(span.id()))?;
    }
    Ok(text)
}

/// Writes a span: its name, its values in braces, and a colon.
fn write_span(text: &mut String, name: &str, values: &str) -> Result<(), AllocError>
    ensures { OnOk result (IsContinued text.old text.new (label_text name.now values.now)) }
{
    write_escaped(text, name)?;
    write_braced(text, values)?;
    text.push_str(":")
}

/// Writes values in braces, without the space in front of them.
fn write_braced(text: &mut String, values: &str) -> Result<(), AllocError>
    ensures { OnOk result (IsContinued text.old text.new (braced values.now)) }
{
    if values.is_empty() {
        return Ok(());
    }
    let bare = without_space(values);
    write!(text, "{{{bare}}}")
}

/// A text without the space in front of it, if there is one.
fn without_space(text: &str) -> &str
    ensures { result.now ≡ bare text.now }
{
    text.strip_prefix(' ').unwrap_or(text)
}

/// Writes words and a space behind them, and nothing where there are none.
fn write_spaced(text: &mut String, words: &str) -> Result<(), AllocError>
    ensures { OnOk result (IsContinued text.old text.new (spaced words.now)) }
{
    if words.is_empty() {
        return Ok(());
    }
    write!(text, "{words} ")
}

impl<S: Subscriber> AlwaysUsableObserver<S> for Lines {
    ghost always = { λ x. tt };
}
