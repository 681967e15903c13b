//! What macros make of fields, texts, targets and parents, as a tree shows it.
ghost use Rattle.span_dispatch.specs.Serve.{stack_of};
ghost use Rattle.span_store.specs.Store.{IsFresh};

use crate::receiver::traced;
use span_core::{Id, Lane, LevelFilter, TraceError};
use span_dispatch::Dispatch;
use span_fmt::Tree;
use span_layers::Observer;
use span_registry::{Registry, Subscriber};
use span_stacks::{LayerExt, SubscriberExt};
use span_targets::Setting;
use span_tracer::{
    Tracer, debug, debug_span, error, error_span, info, info_span, trace, trace_span, warn,
    warn_span,
};
use std::alloc::Global;
use std::process::Abort;
use std::sync::Wait;
use std::test::Fail;

const OF_FIELDS: &str = r#"0 - INFO app: plain
0 - WARN app: numbers small=7 large=340282366920938463463374607431768211455 change=-2 part=1.5
0 - ERROR app: texts word="to be" ok=true way="left"
0 - DEBUG app: shown number="7" maybe="Some(3)"
0 - TRACE app: optional there=3
0 - INFO app: read {} of {} message="read 1 of 2" bytes=9
"#;

const OF_PARENTS: &str = "0 > WARN app: outer
0 > INFO app: alone
0   > INFO app: under
0     - INFO app: told
0   < INFO app: under
0   - INFO app: within
0 < INFO app: alone
0 < WARN app: outer
";

/// Sends an event with fields of each kind.
fn tell_of_fields<R: Wait, S: Subscriber>(
    tracer: Tracer<'_, R, S>,
    way: &str,
    there: Option<u8>,
    missing: Option<u8>,
) -> Result<(), TraceError> {
    let number = 7u8;
    info!(tracer; target: "app", "plain")?;
    warn!(
        tracer;
        target: "app", small = 7u8, large = u128::MAX, change = -2i128, part = 1.5f64, "numbers"
    )?;
    error!(tracer; target: "app", word = "to be", ok = true, way, "texts")?;
    debug!(tracer; target: "app", %number, maybe = ?there; "shown")?;
    trace!(tracer; target: "app", there, missing; "optional")?;
    info!(tracer; target: "app", bytes = 9u8; "read {} of {}", 1u8, 2u8)?;
    Ok(())
}

/// Spans and events in the spans that they name.
fn tell_of_parents<R: Wait, S: Subscriber>(tracer: Tracer<'_, R, S>) -> Result<(), TraceError> {
    let outer = warn_span!(tracer; target: "app", "outer")?;
    let _alone = info_span!(tracer; target: "app", parent: None::<Id>, "alone")?.entered()?;
    let under = info_span!(tracer; target: "app", parent: &outer, "under")?;
    info!(tracer; target: "app", parent: under.id(), "told")?;
    drop(under);
    info!(tracer; target: "app", "within")?;
    Ok(())
}

/// Sends an event whose value may not be there: then the function ends, if the value is computed.
fn send_value<R: Wait, S: Subscriber>(
    tracer: Tracer<'_, R, S>,
    value: Result<u8, TraceError>,
) -> Result<bool, TraceError> {
    info!(tracer; value = value?, "value")
}

/// As `send_value`, of a level that the hint rules out.
fn send_high<R: Wait, S: Subscriber>(
    tracer: Tracer<'_, R, S>,
    value: Result<u8, TraceError>,
) -> Result<bool, TraceError> {
    debug!(tracer; value = value?, "value")
}

/// Opens a span with a value, of a level that isn't above the hint. Answers whether one was made.
fn open_value<R: Wait, S: Subscriber>(
    tracer: Tracer<'_, R, S>,
    value: Result<u8, TraceError>,
) -> Result<bool, TraceError> {
    let span = info_span!(tracer; "value", value = value?)?;
    Ok(!span.is_disabled())
}

/// Values are computed where the callsite is wanted: not above the hint, and not above a level that
/// was set, once the callsite was refused.
fn compute_where_wanted<R: Wait, S: Subscriber>(
    rt: &impl Abort,
    tracer: Tracer<'_, R, S>,
) -> Result<(), Fail> {
    let none = Err(TraceError::OutOfMemory);
    assert!(rt; send_high(tracer, none) == Ok(false));
    assert!(rt; send_value(tracer, Ok(1)) == Ok(true));
    assert!(rt; send_value(tracer, none) == none.map(|_| true));
    assert!(rt; open_value(tracer, Ok(1)) == Ok(true));
    assert!(rt; open_value(tracer, none) == none.map(|_| true));
    tracer.reload(0, Setting::Level(LevelFilter::ERROR))?;
    assert!(rt; send_value(tracer, Ok(1)) == Ok(false));
    assert!(rt; send_value(tracer, none) == Ok(false));
    assert!(rt; open_value(tracer, Ok(1)) == Ok(false));
    assert!(rt; open_value(tracer, none) == Ok(false));
    Ok(())
}

#[test]
fn fields_of_each_kind(rt: HostRuntime) -> Result<(), Fail> {
    let alloc = rt.alloc();
    let stack = Registry::new(alloc).with(Observer::new(Tree::new(alloc)))?;
    let stack = fields_on(&rt, alloc, stack)?;
    assert!(&rt; stack.outer().observer().text() == OF_FIELDS);
    Ok(())
}

/// Traces fields on a receiver over this stack.
fn fields_on<R: Wait, S: Subscriber + Drop>(rt: &R, alloc: Global, stack: S) -> Result<S, Fail>
    requires usable { S.usable stack }
    requires fresh { IsFresh (S.registry stack) }
{
    let receiver = traced(alloc, stack);
    tell_of_fields(receiver.tracer(rt)?, "left", Some(3), None)?;
    Ok(receiver.into_parts().0.into_stack())
}

#[test]
fn spans_and_events_in_what_they_name(rt: HostRuntime) -> Result<(), Fail> {
    let alloc = rt.alloc();
    let stack = Registry::new(alloc).with(Observer::new(Tree::new(alloc)))?;
    let stack = parents_on(&rt, alloc, stack)?;
    assert!(&rt; stack.outer().observer().text() == OF_PARENTS);
    Ok(())
}

/// Traces spans and events that name their parents, on a receiver over this stack.
fn parents_on<R: Wait, S: Subscriber + Drop>(rt: &R, alloc: Global, stack: S) -> Result<S, Fail>
    requires usable { S.usable stack }
    requires fresh { IsFresh (S.registry stack) }
{
    let receiver = traced(alloc, stack);
    tell_of_parents(receiver.tracer(rt)?)?;
    Ok(receiver.into_parts().0.into_stack())
}

#[test]
fn unwanted_values_are_not_computed(rt: HostRuntime) -> Result<(), Fail> {
    let alloc = rt.alloc();
    let layer = Observer::new(Tree::new(alloc)).with_filter(LevelFilter::INFO);
    let stack = Registry::new(alloc).with(layer)?;
    values_on(&rt, alloc, stack)
}

/// Computes values where they are wanted, on a receiver over this stack.
fn values_on<R: Wait + Abort, S: Subscriber + Drop>(
    rt: &R,
    alloc: Global,
    stack: S,
) -> Result<(), Fail>
    requires usable { S.usable stack }
    requires fresh { IsFresh (S.registry stack) }
{
    let receiver = traced(alloc, stack);
    compute_where_wanted(rt, receiver.tracer(rt)?)
}

const LANE: Lane = Lane(0);

/// An event and a span of whatever is asked.
macro_rules! told {
    ($($asked:expr),+) => {{
        warn!(
            $($asked),+;
            target: "app", small = 7u8, large = u128::MAX, part = 1.5f64, word = "to be", "numbers"
        )?;
        let missing: Option<u8> = None;
        info!($($asked),+; target: "app", missing; "optional")?;
        error!($($asked),+; target: "app", "plain")?;
        info_span!($($asked),+; target: "app", parent: None::<Id>, "opened", there = Some(3u8))?
    }};
}

const OF_TOLD: &str =
    r#"0 - WARN app: numbers small=7 large=340282366920938463463374607431768211455 part=1.5 word="to be"
0 - INFO app: optional
0 - ERROR app: plain
0 > INFO app: opened there=3
0 < INFO app: opened
"#;

/// Tells a tracer, and enters the span.
fn tell_tracer<R: Wait, S: Subscriber>(tracer: Tracer<'_, R, S>) -> Result<(), TraceError> {
    let _entered = told!(tracer).entered()?;
    Ok(())
}

/// Tells a dispatcher the same, and enters the span.
fn tell_dispatcher<S: Subscriber>(dispatch: &mut Dispatch<S>) -> Result<(), TraceError>
    requires { S.usable (stack_of dispatch.old) }
{
    if let Some(id) = told!(dispatch, LANE) {
        dispatch.enter(LANE, id)?;
        dispatch.exit(LANE, id);
        dispatch.drop_span(LANE, id)?;
    }
    Ok(())
}

/// Tells a receiver over this stack.
fn told_by_tracer<R: Wait, S: Subscriber + Drop>(rt: &R, alloc: Global, stack: S) -> Result<S, Fail>
    requires usable { S.usable stack }
    requires fresh { IsFresh (S.registry stack) }
{
    let receiver = traced(alloc, stack);
    tell_tracer(receiver.tracer(rt)?)?;
    Ok(receiver.into_parts().0.into_stack())
}

/// Tells a dispatcher over this stack.
fn told_by_dispatcher<S: Subscriber + Drop>(alloc: Global, stack: S) -> Result<S, Fail>
    requires { S.usable stack }
{
    let mut dispatch = Dispatch::new(alloc, stack);
    tell_dispatcher(&mut dispatch)?;
    Ok(dispatch.into_stack())
}

#[test]
fn a_tracer_and_a_dispatcher_are_told_the_same(rt: HostRuntime) -> Result<(), Fail> {
    let alloc = rt.alloc();
    let stack = Registry::new(alloc).with(Observer::new(Tree::new(alloc)))?;
    let stack = told_by_tracer(&rt, alloc, stack)?;
    assert!(&rt; stack.outer().observer().text() == OF_TOLD);
    let stack = Registry::new(alloc).with(Observer::new(Tree::new(alloc)))?;
    let stack = told_by_dispatcher(alloc, stack)?;
    assert!(&rt; stack.outer().observer().text() == OF_TOLD);
    Ok(())
}

/// Sends an event whose value may not be there to a dispatcher.
fn send_to<S: Subscriber>(
    dispatch: &mut Dispatch<S>,
    value: Result<u8, TraceError>,
) -> Result<bool, TraceError>
    requires { S.usable (stack_of dispatch.old) }
    ensures { S.usable (stack_of dispatch.new) }
{
    info!(dispatch, LANE; value = value?, "value")
}

/// Opens a span whose value may not be there. Answers whether one was made.
fn open_at<S: Subscriber>(
    dispatch: &mut Dispatch<S>,
    value: Result<u8, TraceError>,
) -> Result<bool, TraceError>
    requires { S.usable (stack_of dispatch.old) }
    ensures { S.usable (stack_of dispatch.new) }
{
    let id = info_span!(dispatch, LANE; "value", value = value?)?;
    Ok(id.is_some())
}

/// Values for a dispatcher are computed where the callsite is wanted.
fn compute_for<S: Subscriber>(rt: &impl Abort, dispatch: &mut Dispatch<S>) -> Result<(), Fail>
    requires { S.usable (stack_of dispatch.old) }
{
    let none = Err(TraceError::OutOfMemory);
    assert!(rt; send_to(dispatch, Ok(1)) == Ok(true));
    assert!(rt; send_to(dispatch, none) == none.map(|_| true));
    assert!(rt; open_at(dispatch, Ok(1)) == Ok(true));
    assert!(rt; open_at(dispatch, none) == none.map(|_| true));
    dispatch.reload(0, Setting::Level(LevelFilter::ERROR))?;
    assert!(rt; send_to(dispatch, Ok(1)) == Ok(false));
    assert!(rt; send_to(dispatch, none) == Ok(false));
    assert!(rt; open_at(dispatch, Ok(1)) == Ok(false));
    assert!(rt; open_at(dispatch, none) == Ok(false));
    Ok(())
}

#[test]
fn a_dispatcher_wants_no_value_above_its_level(rt: HostRuntime) -> Result<(), Fail> {
    let alloc = rt.alloc();
    let layer = Observer::new(Tree::new(alloc)).with_filter(LevelFilter::INFO);
    let stack = Registry::new(alloc).with(layer)?;
    compute_on(&rt, alloc, stack)
}

/// Computes values where they are wanted, on a dispatcher over this stack.
fn compute_on<S: Subscriber + Drop>(rt: &impl Abort, alloc: Global, stack: S) -> Result<(), Fail>
    requires { S.usable stack }
{
    compute_for(rt, &mut Dispatch::new(alloc, stack))
}

const OF_LEVELS: &str = "0 - ERROR app: first
0 - WARN app: second
0 - INFO app: third
0 - DEBUG app: fourth
0 - TRACE app: fifth
0 > ERROR app: one
0 < ERROR app: one
0 > WARN app: two
0 < WARN app: two
0 > INFO app: three
0 < INFO app: three
0 > DEBUG app: four
0 < DEBUG app: four
0 > TRACE app: five
0 < TRACE app: five
";

/// An event of each level.
macro_rules! events_of_each_level {
    ($($asked:expr),+) => {{
        error!($($asked),+; target: "app", "first")?;
        warn!($($asked),+; target: "app", "second")?;
        info!($($asked),+; target: "app", "third")?;
        debug!($($asked),+; target: "app", "fourth")?;
        trace!($($asked),+; target: "app", "fifth")?;
    }};
}

/// Events and spans of each level, by a tracer.
fn tell_tracer_of_levels<R: Wait, S: Subscriber>(
    tracer: Tracer<'_, R, S>,
) -> Result<(), TraceError> {
    events_of_each_level!(tracer);
    drop(error_span!(tracer; target: "app", "one")?);
    drop(warn_span!(tracer; target: "app", "two")?);
    drop(info_span!(tracer; target: "app", "three")?);
    drop(debug_span!(tracer; target: "app", "four")?);
    drop(trace_span!(tracer; target: "app", "five")?);
    Ok(())
}

/// Drops the handle of a span, if one was made.
fn close<S: Subscriber>(dispatch: &mut Dispatch<S>, made: Option<Id>) -> Result<(), TraceError>
    requires { S.usable (stack_of dispatch.old) }
    ensures { S.usable (stack_of dispatch.new) }
{
    if let Some(id) = made {
        dispatch.drop_span(LANE, id)?;
    }
    Ok(())
}

/// Events and spans of each level, by a dispatcher.
fn tell_dispatcher_of_levels<S: Subscriber>(dispatch: &mut Dispatch<S>) -> Result<(), TraceError>
    requires { S.usable (stack_of dispatch.old) }
{
    events_of_each_level!(dispatch, LANE);
    let one = error_span!(dispatch, LANE; target: "app", "one")?;
    close(dispatch, one)?;
    let two = warn_span!(dispatch, LANE; target: "app", "two")?;
    close(dispatch, two)?;
    let three = info_span!(dispatch, LANE; target: "app", "three")?;
    close(dispatch, three)?;
    let four = debug_span!(dispatch, LANE; target: "app", "four")?;
    close(dispatch, four)?;
    let five = trace_span!(dispatch, LANE; target: "app", "five")?;
    close(dispatch, five)
}

/// Tells a receiver over this stack of each level.
fn levels_by_tracer<R: Wait, S: Subscriber + Drop>(
    rt: &R,
    alloc: Global,
    stack: S,
) -> Result<S, Fail>
    requires usable { S.usable stack }
    requires fresh { IsFresh (S.registry stack) }
{
    let receiver = traced(alloc, stack);
    tell_tracer_of_levels(receiver.tracer(rt)?)?;
    Ok(receiver.into_parts().0.into_stack())
}

/// Tells a dispatcher over this stack of each level.
fn levels_by_dispatcher<S: Subscriber + Drop>(alloc: Global, stack: S) -> Result<S, Fail>
    requires { S.usable stack }
{
    let mut dispatch = Dispatch::new(alloc, stack);
    tell_dispatcher_of_levels(&mut dispatch)?;
    Ok(dispatch.into_stack())
}

#[test]
fn events_and_spans_of_each_level(rt: HostRuntime) -> Result<(), Fail> {
    let alloc = rt.alloc();
    let stack = Registry::new(alloc).with(Observer::new(Tree::new(alloc)))?;
    let stack = levels_by_tracer(&rt, alloc, stack)?;
    assert!(&rt; stack.outer().observer().text() == OF_LEVELS);
    let stack = Registry::new(alloc).with(Observer::new(Tree::new(alloc)))?;
    let stack = levels_by_dispatcher(alloc, stack)?;
    assert!(&rt; stack.outer().observer().text() == OF_LEVELS);
    Ok(())
}

const OF_A_PARENT: &str = "0 > INFO app: outer
0   - INFO app: told
0   - INFO app: told code=7
0   > INFO app: under
0   < INFO app: under
0   > INFO app: under code=7
0   < INFO app: under
0 < INFO app: outer
";

/// Events and spans in a span that they name, by a dispatcher whose lane is in none.
fn tell_within<S: Subscriber>(dispatch: &mut Dispatch<S>) -> Result<(), TraceError>
    requires { S.usable (stack_of dispatch.old) }
{
    let outer = info_span!(dispatch, LANE; target: "app", "outer")?;
    info!(dispatch, LANE; target: "app", parent: outer, "told")?;
    info!(dispatch, LANE; target: "app", parent: outer, code = 7u8, "told")?;
    let under = info_span!(dispatch, LANE; target: "app", parent: outer, "under")?;
    close(dispatch, under)?;
    let under = info_span!(dispatch, LANE; target: "app", parent: outer, "under", code = 7u8)?;
    close(dispatch, under)?;
    close(dispatch, outer)
}

/// Tells a dispatcher over this stack of what names its parent.
fn within_on<S: Subscriber + Drop>(alloc: Global, stack: S) -> Result<S, Fail>
    requires { S.usable stack }
{
    let mut dispatch = Dispatch::new(alloc, stack);
    tell_within(&mut dispatch)?;
    Ok(dispatch.into_stack())
}

#[test]
fn a_dispatcher_goes_by_the_parent_that_is_named(rt: HostRuntime) -> Result<(), Fail> {
    let alloc = rt.alloc();
    let stack = Registry::new(alloc).with(Observer::new(Tree::new(alloc)))?;
    let stack = within_on(alloc, stack)?;
    assert!(&rt; stack.outer().observer().text() == OF_A_PARENT);
    Ok(())
}
