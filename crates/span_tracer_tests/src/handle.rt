//! Handles of a span and guards of it, as a tree shows what they leave.
ghost use Rattle.span_store.specs.Store.{IsFresh};

use crate::receiver::traced;
use span_core::{Attributes, FieldSet, Kind, Level, Metadata, TraceError};
use span_fmt::Tree;
use span_layers::Observer;
use span_registry::{Registry, Subscriber};
use span_stacks::SubscriberExt;
use span_tracer::{Tracer, info, info_span};
use std::alloc::Global;
use std::sync::Wait;
use std::test::Fail;

const OF_HANDLES: &str = "0 > INFO app: kept
0   - INFO app: open still
0 < INFO app: kept
0 > INFO app: twice
0   - INFO app: in once more
0 - INFO app: out
0 < INFO app: twice
0 > INFO app: scope
0 - INFO app: out
0 < INFO app: scope
0 > INFO app: at once
0   - INFO app: entered
0 < INFO app: at once
";

/// A handle that outlives a guard, and its copy.
fn keep_open<R: Wait, S: Subscriber>(tracer: Tracer<'_, R, S>) -> Result<(), Fail> {
    let span = info_span!(tracer; target: "app", "kept")?;
    let other = span.another()?;
    let copy = other.clone()?;
    drop(span.entered()?);
    drop(other);
    info!(tracer; target: "app", parent: copy.id(), "open still")?;
    Ok(())
}

/// Two guards of one span on one lane: the first one's end leaves the lane in it.
fn enter_twice<R: Wait, S: Subscriber>(tracer: Tracer<'_, R, S>) -> Result<(), TraceError> {
    let span = info_span!(tracer; target: "app", "twice")?;
    let first = span.enter()?;
    let second = span.enter()?;
    drop(first);
    info!(tracer; target: "app", "in once more")?;
    drop(second);
    info!(tracer; target: "app", "out")?;
    Ok(())
}

/// A closure that runs within a span, and the lane afterwards.
fn run_in_scope<R: Wait, S: Subscriber>(tracer: Tracer<'_, R, S>) -> Result<u8, TraceError> {
    let span = info_span!(tracer; target: "app", "scope")?;
    let given = span.in_scope(|| 7u8)?;
    info!(tracer; target: "app", "out")?;
    Ok(given)
}

/// A span that is opened and entered by one call.
fn enter_at_once<R: Wait, S: Subscriber>(tracer: Tracer<'_, R, S>) -> Result<(), TraceError> {
    let none = FieldSet::new(&[]);
    let metadata = Metadata::new(1, "at once", "app", Level::INFO, Kind::SPAN, none);
    let _entered = tracer.enter(&Attributes::new(metadata, &[]))?;
    info!(tracer; target: "app", "entered")?;
    Ok(())
}

/// Takes handles and guards of spans, on a receiver over this stack.
fn handles_on<R: Wait, S: Subscriber + Drop>(rt: &R, alloc: Global, stack: S) -> Result<S, Fail>
    requires usable { S.usable stack }
    requires fresh { IsFresh (S.registry stack) }
{
    let receiver = traced(alloc, stack);
    let tracer = receiver.tracer(rt)?;
    keep_open(tracer)?;
    enter_twice(tracer)?;
    if run_in_scope(tracer)? != 7 {
        return Err(Fail::from("another value"));
    }
    enter_at_once(tracer)?;
    Ok(receiver.into_parts().0.into_stack())
}

#[test]
fn handles_and_guards_leave_what_they_should(rt: HostRuntime) -> Result<(), Fail> {
    let alloc = rt.alloc();
    let stack = Registry::new(alloc).with(Observer::new(Tree::new(alloc)))?;
    let stack = handles_on(&rt, alloc, stack)?;
    assert!(&rt; stack.outer().observer().text() == OF_HANDLES);
    Ok(())
}
