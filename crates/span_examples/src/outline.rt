//! A layer that writes an outline of what it is notified of: a line for each event, indented by the
//! spans that its own context shows.
ghost use Rattle.std.specs.Prelude.{◌≡◌, ℕ, List, [], false, string_bytes, IfErr, IfOk};
ghost use Rattle.span_registry.specs.Context.{view_lent};
ghost use Rattle.span_examples.specs.Outline.{Copies, ServesOutlined, StartsOutlined, WritesLine, has_failed, indent, line_of, outline_steps, spans_round, text_in};

use crate::dispatch::Recorded;
use crate::isolation::serve_first;
use span_core::{Event, LevelFilter, TraceError};
use span_dispatch::{Answer, Recorder, Request};
use span_layers::{Observe, Observer};
use span_registry::{ContextMut, Notice, Registry, Subscriber, laws};
use span_stacks::{Filtered, LayerExt, Layered, SubscriberExt};
use std::alloc::{AllocError, Global};

/// A layer that writes a line for each event that it is notified of, up to the first that finds no
/// memory.
#[derive(Drop)]
pub struct Outline {
    alloc: Global,
    text: String,
    failed: bool,
}

impl Outline {
    /// An outline that has written nothing.
    pub fn new(alloc: Global) -> Outline
        ensures text { text_in result ≡ [] }
        ensures failed { has_failed result ≡ false }
    {
        Outline {
            alloc,
            text: String::new(alloc),
            failed: false,
        }
    }

    /// The lines that are written.
    pub fn text(&self) -> &str
        ensures { result.now ≡ text_in self.now }
    {
        self.text.as_str()
    }

    /// Whether no memory was found for a line: nothing is written since then.
    pub fn failed(&self) -> bool
        ensures { result ≡ has_failed self.now }
    {
        self.failed
    }

    /// Writes a line, if there is memory for it, and was.
    fn write(&mut self, line: Result<String, AllocError>)
        ensures { (bytes : List ℕ) → IfOk line (λ s. string_bytes s ≡ bytes)
            → WritesLine bytes self.old self.new }
    {
        if self.failed {
            return;
        }
        match line {
            Ok(line) => self.failed = self.text.push_str(line.as_str()).is_err(),
            Err(_) => self.failed = true,
        }
    }
}

impl<S: Subscriber> Observe<S> for Outline {
    ghost observed = { outline_steps };

    fn observe(&mut self, notice: Notice<'_, '_>, ctx: &mut ContextMut<'_, S>) {
        if let Notice::Event(event) = notice {
            laws::extensions_change_no_look_up();
            let line = line_seen(self.alloc, event, ctx);
            self.write(line);
        }
    }
}

/// The line of an event in what a hook sees.
fn line_seen<S: Subscriber>(
    alloc: Global,
    event: &Event<'_>,
    ctx: &ContextMut<'_, S>,
) -> Result<String, AllocError>
    ensures { IfOk result (λ s. string_bytes s ≡ line_of event.now (view_lent S.registry ctx.now)) }
{
    let mut line = indentation(alloc, event, ctx)?;
    line.push_str(event.metadata().name())?;
    line.push_str("\n")?;
    Ok(line)
}

/// Two spaces for each span that a hook sees round an event.
fn indentation<S: Subscriber>(
    alloc: Global,
    event: &Event<'_>,
    ctx: &ContextMut<'_, S>,
) -> Result<String, AllocError>
    ensures { IfOk result (λ s. string_bytes s
        ≡ indent (spans_round event.now (view_lent S.registry ctx.now))) }
{
    let mut spaces = String::new(alloc);
    let look = ctx.ctx();
    let Some(scope) = look.event_scope(event) else {
        return Ok(spaces);
    };
    for _span in scope {
        spaces.push_str("  ")?;
    }
    Ok(spaces)
}

/// An outline under a level, outside a recorder under a level on a registry.
pub type Outlined = Layered<Filtered<Observer<Outline>, LevelFilter>, Recorded>;

/// Serves requests on a new outline under a level, beside a recorder under another, and gives the
/// answers and the text.
pub fn serve_outlined(
    alloc: Global,
    level: LevelFilter,
    other: LevelFilter,
    requests: &[Request<'_>],
) -> Result<(Vec<Answer>, String), TraceError>
    ensures served { IfOk result
        (ServesOutlined ⟦<Outlined as Subscriber>⟧ level other requests.now) }
    ensures memory { IfErr result (λ e. e ≡ TraceError.OutOfMemory) }
{
    let stack = stack_outlined(alloc, level, other)?;
    let (dispatch, answers) = serve_first(alloc, stack, requests)?;
    let text = copied(alloc, dispatch.stack().outer().layer().observer())?;
    Ok((answers, text))
}

/// The stack, on a new registry.
fn stack_outlined(
    alloc: Global,
    level: LevelFilter,
    other: LevelFilter,
) -> Result<Outlined, TraceError>
    ensures starts { IfOk result (StartsOutlined ⟦<Outlined as Subscriber>⟧ level other) }
    ensures memory { IfErr result (λ e. e ≡ TraceError.OutOfMemory) }
{
    span_stacks::laws::numbers_are_own();
    let recorder = Recorder::new(alloc).with_filter(other);
    let recorded = match Registry::new(alloc).with(recorder) {
        Ok(stack) => stack,
        Err(back) => return Err(back.error),
    };
    let layer = Observer::new(Outline::new(alloc)).with_filter(level);
    match recorded.with(layer) {
        Ok(stack) => Ok(stack),
        Err(back) => Err(back.error),
    }
}

/// The whole text of an outline, refused where there is no memory for it, or was none for one of
/// its lines.
fn copied(alloc: Global, outline: &Outline) -> Result<String, TraceError>
    ensures text { IfOk result (Copies outline.now) }
    ensures memory { IfErr result (λ e. e ≡ TraceError.OutOfMemory) }
{
    if outline.failed() {
        return Err(TraceError::OutOfMemory);
    }
    Ok(String::from_str(alloc, outline.text())?)
}
