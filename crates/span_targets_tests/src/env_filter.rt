//! Tests of filters by spans where filters stand: in others, in a box, where one may be absent.

use crate::span::{LANE, enter, event_of, span_of};
use span_boxed::{BoxedFilter, DynFilter};
use span_core::{Interest, Lane, Level, LevelFilter};
use span_filters::{Filter, FilterExt};
use span_registry::{Context, Registry};
use span_targets::EnvFilter;
use std::alloc::Global;
use std::process::Abort;
use std::test::Fail;

/// A level, whether an event of it is wanted in no span and within `job`, and the interest in such.
type Row = (Level, bool, bool, Interest);

/// A registry whose lane is within `job`.
fn within_job(alloc: Global) -> Result<Registry, Fail> {
    let mut registry = Registry::new(alloc);
    enter(&mut registry, span_of("job", "web"))?;
    Ok(registry)
}

/// A filter says this of events, and has this hint.
fn says<F: Filter<Registry>>(
    rt: &impl Abort,
    filter: &F,
    registry: &Registry,
    rows: &[Row],
    hint: Option<LevelFilter>,
)
    requires { F.usable filter.now }
{
    for (level, outside, within, interest) in rows {
        let metadata = event_of(*level);
        assert!(rt; filter.enabled(&metadata, &Context::new(registry, Lane(1))) == *outside);
        assert!(rt; filter.enabled(&metadata, &Context::new(registry, LANE)) == *within);
        assert!(rt; filter.callsite_enabled(&metadata) == *interest);
    }
    assert!(rt; filter.max_level_hint() == hint);
}

const TEXT: &str = "warn,[job]=debug";

const ROWS: [Row; 3] = [
    (Level::WARN, true, true, Interest::Always),
    (Level::DEBUG, false, true, Interest::Sometimes),
    (Level::TRACE, false, false, Interest::Never),
];

#[test]
fn where_it_may_be_absent(rt: HostRuntime) -> Result<(), Fail> {
    let registry = within_job(rt.alloc())?;
    let filter = Some(EnvFilter::parse(rt.alloc(), TEXT)?);
    says(&rt, &filter, &registry, &ROWS, Some(LevelFilter::DEBUG));
    Ok(())
}

#[test]
fn and_a_level(rt: HostRuntime) -> Result<(), Fail> {
    let registry = within_job(rt.alloc())?;
    let filter = EnvFilter::parse(rt.alloc(), TEXT)?.and(LevelFilter::INFO);
    let rows = [
        (Level::WARN, true, true, Interest::Always),
        (Level::INFO, false, true, Interest::Sometimes),
        (Level::DEBUG, false, false, Interest::Never),
    ];
    says(&rt, &filter, &registry, &rows, Some(LevelFilter::INFO));
    Ok(())
}

#[test]
fn or_a_level(rt: HostRuntime) -> Result<(), Fail> {
    let registry = within_job(rt.alloc())?;
    let filter = EnvFilter::parse(rt.alloc(), TEXT)?.or(LevelFilter::INFO);
    let rows = [
        (Level::INFO, true, true, Interest::Always),
        (Level::DEBUG, false, true, Interest::Sometimes),
        (Level::TRACE, false, false, Interest::Never),
    ];
    says(&rt, &filter, &registry, &rows, Some(LevelFilter::DEBUG));
    Ok(())
}

#[test]
fn not_what_it_lets_by(rt: HostRuntime) -> Result<(), Fail> {
    let registry = within_job(rt.alloc())?;
    let filter = EnvFilter::parse(rt.alloc(), TEXT)?.not();
    let rows = [
        (Level::WARN, false, false, Interest::Never),
        (Level::DEBUG, true, false, Interest::Sometimes),
        (Level::TRACE, true, true, Interest::Always),
    ];
    says(&rt, &filter, &registry, &rows, None);
    Ok(())
}

#[test]
fn in_a_box(rt: HostRuntime) -> Result<(), Fail> {
    let registry = within_job(rt.alloc())?;
    let filter = EnvFilter::parse(rt.alloc(), TEXT)?;
    let object: Box<dyn DynFilter + Send> = Box::new(rt.alloc(), filter)?;
    let boxed = BoxedFilter::new(object);
    says(&rt, &boxed, &registry, &ROWS, Some(LevelFilter::DEBUG));
    Ok(())
}
