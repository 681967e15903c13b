//! Tests of filters by targets where filters stand: alone, in others, in a box, in a stack.

use span_boxed::{BoxedFilter, DynFilter};
use span_core::{FieldSet, Interest, Kind, Level, LevelFilter, Metadata, Pass};
use span_filters::{Filter, FilterExt};
use span_layers::{Identity, Layer};
use span_registry::{Context, Registry, Subscriber};
use span_stacks::{Filtered, SubscriberExt};
use span_targets::Targets;
use std::process::Abort;
use std::test::Fail;

/// A target, a level, and whether an event of these is wanted.
type Row = (&'static str, Level, bool);

/// The metadata of an event.
fn event_of(target: &'static str, level: Level) -> Metadata {
    Metadata::new(1, "event", target, level, Kind::EVENT, FieldSet::new(&[]))
}

/// A filter says this of events, and has this hint.
fn says<F: Filter<Registry>>(rt: &impl Abort, filter: &F, rows: &[Row], hint: Option<LevelFilter>)
    requires { F.usable filter.now }
{
    for (target, level, wanted) in rows {
        let metadata = event_of(*target, *level);
        assert!(rt; filter.enabled(&metadata, &Context::none()) == *wanted);
        assert!(rt; filter.callsite_enabled(&metadata).is_always() == *wanted);
    }
    assert!(rt; filter.max_level_hint() == hint);
}

const TEXT: &str = "info,db=trace,h2=off";

const ROWS: [Row; 5] = [
    ("db::pool", Level::TRACE, true),
    ("web", Level::INFO, true),
    ("web", Level::DEBUG, false),
    ("h2", Level::ERROR, false),
    ("h3", Level::ERROR, true),
];

#[test]
fn alone_or_where_it_may_be_absent(rt: HostRuntime) -> Result<(), Fail> {
    let targets = Targets::parse(rt.alloc(), TEXT)?;
    says(&rt, &targets, &ROWS, Some(LevelFilter::TRACE));
    says(&rt, &Some(targets), &ROWS, Some(LevelFilter::TRACE));
    Ok(())
}

#[test]
fn in_other_filters(rt: HostRuntime) -> Result<(), Fail> {
    let targets = Targets::parse(rt.alloc(), TEXT)?;
    let rows = [
        ("db", Level::TRACE, false),
        ("db", Level::DEBUG, true),
        ("h2", Level::ERROR, false),
    ];
    says(
        &rt,
        &targets.and(LevelFilter::DEBUG),
        &rows,
        Some(LevelFilter::DEBUG),
    );
    let targets = Targets::parse(rt.alloc(), TEXT)?;
    let rows = [
        ("h2", Level::WARN, true),
        ("h2", Level::INFO, false),
        ("db", Level::TRACE, true),
    ];
    says(
        &rt,
        &targets.or(LevelFilter::WARN),
        &rows,
        Some(LevelFilter::TRACE),
    );
    let targets = Targets::parse(rt.alloc(), TEXT)?;
    let rows = [
        ("h2", Level::ERROR, true),
        ("web", Level::INFO, false),
        ("web", Level::DEBUG, true),
    ];
    says(&rt, &targets.not(), &rows, None);
    Ok(())
}

#[test]
fn in_a_box(rt: HostRuntime) -> Result<(), Fail> {
    let targets = Targets::parse(rt.alloc(), TEXT)?;
    let object: Box<dyn DynFilter + Send> = Box::new(rt.alloc(), targets)?;
    let boxed = BoxedFilter::new(object);
    says(&rt, &boxed, &ROWS, Some(LevelFilter::TRACE));
    Ok(())
}

/// What a stack answers of an event, asked with a new pass.
fn interest_in<S: Subscriber>(stack: &S, target: &'static str, level: Level) -> Interest
    requires { S.usable stack.now }
{
    stack.register_callsite(&event_of(target, level), &mut Pass::new())
}

/// A stack under a layer goes by the layer's filter.
fn goes_by_the_filter<S: Subscriber + Drop, L: Layer<S> + Drop>(
    rt: &impl Abort,
    stack: S,
    layer: L,
) -> Result<(), Fail>
    requires layer { L.usable layer }
    requires stack { S.usable stack }
{
    let Ok(stack) = stack.with(layer) else {
        return Err(Fail::from("no number"));
    };
    assert!(rt; interest_in(&stack, "db::pool", Level::TRACE).is_always());
    assert!(rt; interest_in(&stack, "h2", Level::ERROR).is_never());
    assert!(rt; stack.max_level_hint() == Some(LevelFilter::TRACE));
    Ok(())
}

#[test]
fn under_a_layer(rt: HostRuntime) -> Result<(), Fail> {
    let layer = Filtered::new(Identity, Targets::parse(rt.alloc(), TEXT)?);
    goes_by_the_filter(&rt, Registry::new(rt.alloc()), layer)
}
