//! The spans that a lane is in, as text.
ghost use Rattle.std.specs.Prelude.{◌≡◌, ◌↔◌, [], IfErr, IfOk, IsTrue, OnOk, Some, string_bytes};
ghost use Rattle.span_core.specs.declared.error.TraceError.TheVariants.{OutOfMemory};
ghost use Rattle.span_error.specs.Trace.{Captures, around_text, begun_line, fields_line, reference_lines, text_of, trace_text};
ghost use Rattle.span_fmt.specs.Text.{IsContinued};
ghost use Rattle.span_registry.specs.References.{reference_of, to_give};
ghost use Rattle.span_tracer.specs.Tracer.{tracer_lane};

use crate::kept::text_kept;
use span_core::{Lane, TraceError};
use span_fmt::write_escaped;
use span_registry::{Context, ExtensionValue, LookupSpan, Scope, SpanRef, Subscriber};
use span_tracer::Tracer;
use std::alloc::{AllocError, Global};
use std::fmt;
use std::sync::Wait;

/// The span that was current on a lane, and those above it, innermost first, with the fields that
/// an `ErrorLayer` kept of them.
///
/// Stands for `tracing_error::SpanTrace`.
#[derive(Debug, Drop)]
pub struct SpanTrace {
    text: String,
}

impl fmt::Display for SpanTrace {
    ghost output = { λ trace. Some (text_of trace) };

    fn fmt<W: fmt::Write>(&self, f: &mut fmt::Formatter<W>) -> fmt::Result {
        let text = self.text();
        write!(f, "{text}")
    }
}

impl SpanTrace {
    /// The current span of the tracer's lane, and those above it. Refused for want of memory alone.
    pub fn capture<R: Wait, S: Subscriber>(
        tracer: Tracer<'_, R, S>,
    ) -> Result<SpanTrace, TraceError>
        ensures text { IfOk result (Captures ⟦<String as ExtensionValue>⟧.place S.Subscriber
            (tracer_lane tracer.entry)) }
        ensures memory { IfErr result (λ e. e ≡ OutOfMemory) }
    {
        let (alloc, lane) = (tracer.alloc(), tracer.lane());
        match tracer.with_stack(move |stack| text_around(alloc, lane, stack)) {
            Ok(text) => Ok(SpanTrace { text }),
            Err(_) => Err(TraceError::OutOfMemory),
        }
    }

    /// The text: for each span its number, its target and its name, and in a line below them its
    /// fields, if it has any. Names are escaped, as `span_fmt::write_escaped` has them, and texts
    /// of fields stand in quotes, as `span_fmt::write_quoted` has them.
    pub fn text(&self) -> &str
        ensures { result.now ≡ text_of self.now }
    {
        self.text.as_str()
    }

    /// Whether the lane was in no span.
    pub fn is_empty(&self) -> bool
        ensures { IsTrue result ↔ text_of self.now ≡ [] }
    {
        self.text.is_empty()
    }
}

/// The text of the current span of a lane of this stack, and of those above it.
fn text_around<S: LookupSpan>(alloc: Global, lane: Lane, stack: &S) -> Result<String, AllocError>
    ensures { IfOk result (λ text. string_bytes text
        ≡ around_text ⟦<String as ExtensionValue>⟧.place S.registry stack.now lane) }
{
    match Context::new(stack, lane).lookup_current() {
        Some(innermost) => text_of_scope(alloc, innermost.scope()),
        None => Ok(String::new(alloc)),
    }
}

/// The text of the spans of a scope.
fn text_of_scope<S: LookupSpan>(alloc: Global, spans: Scope<'_, S>) -> Result<String, AllocError>
    ensures { IfOk result (λ text. string_bytes text
        ≡ trace_text ⟦<String as ExtensionValue>⟧.place (to_give S.registry spans.entry)) }
{
    let mut text = String::new(alloc);
    let mut number = 0u64;
    for span in spans {
        write_span(&mut text, number, &span)?;
        number = number.saturating_add(1);
    }
    Ok(text)
}

/// Writes the lines of a span.
fn write_span<S>(text: &mut String, number: u64, span: &SpanRef<'_, S>) -> Result<(), AllocError>
    ensures { OnOk result (IsContinued text.old text.new
        (reference_lines ⟦<String as ExtensionValue>⟧.place number (reference_of span.now))) }
{
    let metadata = span.metadata();
    begin_line(text, number)?;
    write_escaped(text, metadata.target())?;
    text.push_str("::")?;
    write_escaped(text, metadata.name())?;
    write_below(text, text_kept(span.extensions()))
}

/// Begins the first line of a span, behind the lines of those before.
fn begin_line(text: &mut String, number: u64) -> Result<(), AllocError>
    ensures { OnOk result (IsContinued text.old text.new (begun_line number)) }
{
    if number != 0 {
        text.push_str("\n")?;
    }
    write!(text, "{number:>4}: ")
}

/// Writes a span's fields in a line of their own, and nothing where there are none.
fn write_below(text: &mut String, fields: &str) -> Result<(), AllocError>
    ensures { OnOk result (IsContinued text.old text.new (fields_line fields.now)) }
{
    if fields.is_empty() {
        return Ok(());
    }
    write!(text, "\n           with{fields}")
}
