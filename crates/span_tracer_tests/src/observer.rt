//! A timeline behind a receiver's lock, whose finished spans are taken between calls.

ghost use Rattle.span_store.specs.Store.{IsFresh};

use span_dispatch::Dispatch;
use span_layers::Observer;
use span_registry::Registry;
use span_stacks::SubscriberExt;
use span_times::{Counted, Happening, Taken, Timeline};
use span_tracer::{HasObserver, Receiver, info_span};
use std::alloc::Global;
use std::process::Abort;
use std::sync::Wait;
use std::test::Fail;

/// How many spans are closed by these points.
fn closes(taken: &Taken) -> usize {
    let is_close = |what| matches!(what, Happening::Closed(_));
    taken
        .points
        .iter()
        .filter(|point| is_close(point.what))
        .count()
}

/// Takes what finished while a span is open, and the rest once that closed.
fn take_twice<S, R>(rt: &R, alloc: Global, stack: S) -> Result<(), Fail>
where
    S: HasObserver<Observer = Timeline<Counted>> + Drop,
    R: Wait + Abort,
    requires usable { S.usable stack }
    requires fresh { IsFresh (S.registry stack) }
{
    let receiver = Receiver::new(alloc, Dispatch::new(alloc, stack));
    let tracer = receiver.tracer(rt)?;
    let outer = info_span!(tracer; "outer")?.entered()?;
    drop(info_span!(tracer; "inner")?.entered()?);
    let first = tracer.with_observer(|timeline| timeline.take_finished())?;
    drop(outer);
    let second = tracer.with_observer(|timeline| timeline.take_finished())?;
    assert!(rt; closes(&first) == 1);
    assert!(rt; closes(&second) == 1);
    assert!(rt; tracer.with_observer(|timeline| timeline.points().is_empty()));
    Ok(())
}

#[test]
fn finished_spans_are_taken_while_others_are_open(rt: HostRuntime) -> Result<(), Fail> {
    let alloc = rt.alloc();
    let layer = Observer::new(Timeline::new(alloc, Counted::new()));
    take_twice(&rt, alloc, Registry::new(alloc).with(layer)?)
}
