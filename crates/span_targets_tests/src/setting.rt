//! Tests of settings that a filter takes while a program runs. What serves is generic in its stack:
//! the borrow checker doesn't follow a dispatcher of a named stack type that holds several settings.

ghost use Rattle.span_dispatch.specs.Serve.{stack_of};
ghost use Rattle.span_store.specs.Store.{IsFresh};

use span_core::{
    Attributes, Event, FieldSet, Id, Kind, Lane, Level, LevelFilter, Metadata, TraceError,
};
use span_dispatch::{Dispatch, Recorder};
use span_registry::{Registry, Subscriber};
use span_stacks::{Filtered, LayerExt, Layered, SubscriberExt};
use span_targets::{Fault, ParseError, Setting, WrongDirective};
use std::alloc::Global;
use std::process::Abort;
use std::test::Fail;

/// The lane that asks.
const LANE: Lane = Lane(0);

/// A recorder under a level, on a registry.
type Levelled = Layered<Filtered<Recorder, LevelFilter>, Registry>;

/// The metadata of an event of this target and level.
fn event_of(callsite: u64, target: &'static str, level: Level) -> Metadata {
    Metadata::new(
        callsite,
        "event",
        target,
        level,
        Kind::EVENT,
        FieldSet::new(&[]),
    )
}

/// The metadata of a span `job`.
fn job() -> Metadata {
    Metadata::new(
        0,
        "job",
        "web",
        Level::ERROR,
        Kind::SPAN,
        FieldSet::new(&[]),
    )
}

/// Whether an event of this target and level passes.
fn passes<S: Subscriber>(
    dispatch: &mut Dispatch<S>,
    callsite: u64,
    target: &'static str,
    level: Level,
) -> Result<bool, TraceError>
    requires { S.usable (stack_of dispatch.old) }
    ensures { S.usable (stack_of dispatch.new) }
{
    dispatch.event(LANE, &Event::new(event_of(callsite, target, level), &[]))
}

/// Opens a span `job`.
fn open<S: Subscriber>(dispatch: &mut Dispatch<S>) -> Result<Id, Fail>
    requires { S.usable (stack_of dispatch.old) }
    ensures { S.usable (stack_of dispatch.new) }
{
    match dispatch.new_span(LANE, &Attributes::new(job(), &[]))? {
        Some(id) => Ok(id),
        None => Err(Fail::from("dropped")),
    }
}

/// Directives are taken by a filter that let warnings pass, while a span is open.
fn reload_while_a_span_is_open<S: Subscriber + Drop>(
    rt: &impl Abort,
    alloc: Global,
    stack: S,
) -> Result<(), Fail>
    requires usable { S.usable stack }
    requires fresh { IsFresh (S.registry stack) }
{
    let mut dispatch = Dispatch::new(alloc, stack);
    let id = open(&mut dispatch)?;
    assert!(rt; passes(&mut dispatch, 1, "web", Level::WARN)?);
    assert!(rt; !passes(&mut dispatch, 2, "app::db", Level::DEBUG)?);
    dispatch.reload(0, Setting::parse(alloc, "error,app::db=debug")?)?;
    assert!(rt; !passes(&mut dispatch, 1, "web", Level::WARN)?);
    assert!(rt; passes(&mut dispatch, 2, "app::db", Level::DEBUG)?);
    assert!(rt; dispatch.max_level_hint() == Some(LevelFilter::DEBUG));
    assert!(rt; dispatch.drop_span(LANE, id)?);
    Ok(())
}

#[test]
fn directives_are_taken_while_a_span_is_open(rt: HostRuntime) -> Result<(), Fail> {
    let alloc = rt.alloc();
    let layer = Recorder::new(alloc).with_filter(Setting::Level(LevelFilter::WARN));
    reload_while_a_span_is_open(&rt, alloc, Registry::new(alloc).with(layer)?)
}

/// Directives let more pass within a span, and are taken while the lane is in it.
fn reload_within_a_span<S: Subscriber + Drop>(
    rt: &impl Abort,
    alloc: Global,
    stack: S,
) -> Result<S, Fail>
    requires usable { S.usable stack }
    requires fresh { IsFresh (S.registry stack) }
{
    let mut dispatch = Dispatch::new(alloc, stack);
    let id = open(&mut dispatch)?;
    dispatch.enter(LANE, id)?;
    assert!(rt; !passes(&mut dispatch, 1, "web", Level::INFO)?);
    dispatch.reload(0, Setting::parse(alloc, "off,[job]=info")?)?;
    assert!(rt; passes(&mut dispatch, 1, "web", Level::INFO)?);
    dispatch.exit(LANE, id);
    passes(&mut dispatch, 1, "web", Level::INFO)?;
    dispatch.reload(0, Setting::Level(LevelFilter::OFF))?;
    assert!(rt; dispatch.max_level_hint() == Some(LevelFilter::OFF));
    Ok(dispatch.into_stack())
}

#[test]
fn more_passes_within_a_span_from_then_on(rt: HostRuntime) -> Result<(), Fail> {
    let alloc = rt.alloc();
    let layer = Recorder::new(alloc).with_filter(Setting::Level(LevelFilter::ERROR));
    let stack = reload_within_a_span(&rt, alloc, Registry::new(alloc).with(layer)?)?;
    // (the span, that a lane enters it, an event in it, and that the lane leaves it)
    assert!(rt; stack.outer().layer().notices().len() == 4);
    Ok(())
}

/// The outer filter of a stack is reloaded, and an event is served.
fn reload_the_second<S: Subscriber + Drop>(
    rt: &impl Abort,
    alloc: Global,
    stack: S,
) -> Result<S, Fail>
    requires usable { S.usable stack }
    requires fresh { IsFresh (S.registry stack) }
{
    let mut dispatch = Dispatch::new(alloc, stack);
    dispatch.reload(1, Setting::parse(alloc, "web=info")?)?;
    assert!(rt; passes(&mut dispatch, 1, "web", Level::INFO)?);
    Ok(dispatch.into_stack())
}

#[test]
fn only_the_filter_with_the_number_takes_it(rt: HostRuntime) -> Result<(), Fail> {
    let alloc = rt.alloc();
    let off = Setting::Level(LevelFilter::OFF);
    let below = Registry::new(alloc).with(Recorder::new(alloc).with_filter(off))?;
    let stack = below.with(Recorder::new(alloc).with_filter(off))?;
    let stack = reload_the_second(&rt, alloc, stack)?;
    assert!(rt; stack.outer().layer().notices().len() == 1);
    assert!(rt; stack.inner().outer().layer().notices().is_empty());
    Ok(())
}

#[test]
fn a_filter_by_level_takes_no_directives(rt: HostRuntime) -> Result<(), Fail> {
    let alloc = rt.alloc();
    let recorder = Recorder::new(alloc).with_filter(LevelFilter::WARN);
    let stack: Levelled = Registry::new(alloc).with(recorder)?;
    let mut dispatch = Dispatch::new(alloc, stack);
    let refused = dispatch.reload(0, Setting::parse(alloc, "debug")?);
    assert!(rt; refused == Err(TraceError::NotSettable(0)));
    assert!(rt; dispatch.max_level_hint() == Some(LevelFilter::WARN));
    dispatch.reload(0, Setting::from(LevelFilter::DEBUG))?;
    assert!(rt; dispatch.max_level_hint() == Some(LevelFilter::DEBUG));
    Ok(())
}

#[test]
fn a_wrong_text_is_no_setting(rt: HostRuntime) -> Result<(), Fail> {
    let wrong = Setting::parse(rt.alloc(), "info,web=loud");
    let Err(error) = wrong else {
        return Err(Fail::from("read"));
    };
    let expected = WrongDirective {
        number: 2,
        fault: Fault::UnknownLevel,
    };
    assert!(rt; error == ParseError::Wrong(expected));
    Ok(())
}
