//! A filter that is reloaded behind a receiver.

ghost use Rattle.span_store.specs.Store.{IsFresh};

use span_core::{Event, FieldSet, Kind, Level, LevelFilter, Metadata, TraceError};
use span_dispatch::{Dispatch, Recorder};
use span_registry::{Registry, Subscriber};
use span_stacks::{LayerExt, SubscriberExt};
use span_targets::Setting;
use span_tracer::Receiver;
use std::alloc::Global;
use std::process::Abort;
use std::sync::Wait;
use std::test::Fail;

/// The metadata of an event of level info.
fn event() -> Metadata {
    Metadata::new(
        1,
        "event",
        "web",
        Level::INFO,
        Kind::EVENT,
        FieldSet::new(&[]),
    )
}

/// Reloads the second filter of a stack, and tells it an event.
fn reloaded_behind_a_receiver<S: Subscriber + Drop, R: Wait + Abort>(
    rt: &R,
    alloc: Global,
    stack: S,
) -> Result<S, Fail>
    requires usable { S.usable stack }
    requires fresh { IsFresh (S.registry stack) }
{
    let receiver = Receiver::new(alloc, Dispatch::new(alloc, stack));
    receiver
        .tracer(rt)?
        .reload(1, Setting::parse(alloc, "web=info")?)?;
    let refused = receiver
        .tracer(rt)?
        .reload(2, Setting::Level(LevelFilter::OFF));
    assert!(rt; refused == Err(TraceError::NotSettable(2)));
    assert!(rt; receiver.tracer(rt)?.event(&Event::new(event(), &[]))?);
    let (dispatch, calls) = receiver.into_parts();
    assert!(rt; calls == 2);
    Ok(dispatch.into_stack())
}

#[test]
fn only_the_filter_with_the_number_takes_the_setting(rt: HostRuntime) -> Result<(), Fail> {
    let alloc = rt.alloc();
    let off = Setting::Level(LevelFilter::OFF);
    let below = Registry::new(alloc).with(Recorder::new(alloc).with_filter(off))?;
    let stack = below.with(Recorder::new(alloc).with_filter(off))?;
    let stack = reloaded_behind_a_receiver(&rt, alloc, stack)?;
    assert!(rt; stack.outer().layer().notices().len() == 1);
    assert!(rt; stack.inner().outer().layer().notices().is_empty());
    Ok(())
}
