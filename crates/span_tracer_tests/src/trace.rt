//! An error that keeps the spans that its job was in.
ghost use Rattle.span_store.specs.Store.{IsFresh};

use crate::receiver::traced;
use span_core::{FieldValue, Record, TraceError};
use span_error::{ErrorLayer, SpanTrace};
use span_layers::Observer;
use span_registry::{Registry, Subscriber};
use span_stacks::SubscriberExt;
use span_tracer::{Tracer, info_span};
use std::alloc::Global;
use std::process::Abort;
use std::sync::Wait;
use std::test::Fail;
use thiserror::Error;

/// Why a job failed, and in which spans.
#[derive(Debug, Drop, Error)]
enum JobError {
    #[error("not a number\n{0}")]
    NotANumber(SpanTrace),
    #[error("not traced")]
    Trace(#[from] TraceError),
}

/// What the error of a job says.
const OF_ERROR: &str = r#"not a number
   0: span_tracer_tests::trace::parse
           with word="two"
   1: span_tracer_tests::trace::job
           with id=7 user="x"
   2: span_tracer_tests::trace::all"#;

/// Reads a number, in a span of its own.
fn parse<R: Wait, S: Subscriber>(tracer: Tracer<'_, R, S>, word: &str) -> Result<u64, JobError> {
    let _span = info_span!(tracer; "parse", word)?.entered()?;
    match word.parse::<u64>() {
        Ok(number) => Ok(number),
        Err(_) => Err(JobError::NotANumber(SpanTrace::capture(tracer)?)),
    }
}

/// A job, in a span that is told its user later.
fn run<R: Wait, S: Subscriber>(
    tracer: Tracer<'_, R, S>,
    id: u64,
    word: &str,
) -> Result<u64, JobError> {
    let span = info_span!(tracer; "job", id)?;
    span.record(&Record::new(&[("user", FieldValue::Text("x"))]))?;
    let _entered = span.enter()?;
    parse(tracer, word)
}

/// Runs jobs in a span without fields, up to the first that fails.
fn run_all<R: Wait, S: Subscriber>(tracer: Tracer<'_, R, S>) -> Result<u64, JobError> {
    let _span = info_span!(tracer; "all")?.entered()?;
    let one = run(tracer, 6, "1")?;
    let two = run(tracer, 7, "two")?;
    Ok(one.saturating_add(two))
}

/// Runs the jobs on a receiver over this stack. Answers the stack, and what their error says.
fn run_on<R: Wait + Abort, S: Subscriber + Drop>(
    rt: &R,
    alloc: Global,
    stack: S,
) -> Result<(S, String), Fail>
    requires usable { S.usable stack }
    requires fresh { IsFresh (S.registry stack) }
{
    let receiver = traced(alloc, stack);
    let tracer = receiver.tracer(rt)?;
    let said = match run_all(tracer) {
        Ok(_) => String::new(alloc),
        Err(error) => format!(in alloc; "{error}")?,
    };
    assert!(rt; SpanTrace::capture(tracer)?.is_empty());
    Ok((receiver.into_parts().0.into_stack(), said))
}

/// The error names the spans that its job was in, innermost first, with their fields.
#[test]
fn an_error_keeps_its_spans(rt: HostRuntime) -> Result<(), Fail> {
    let alloc = rt.alloc();
    let stack = Registry::new(alloc).with(Observer::new(ErrorLayer::new(alloc)))?;
    let (stack, said) = run_on(&rt, alloc, stack)?;
    assert!(&rt; said.as_str() == OF_ERROR);
    assert!(&rt; !stack.outer().observer().failed());
    Ok(())
}
