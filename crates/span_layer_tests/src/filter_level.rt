//! Tests of filters whose level is set: which of them take one.
use crate::store_fixture::{event_at, is_shown_as, wants};
use span_boxed::{BoxedFilter, DynFilter};
use span_core::{Level, LevelFilter, Metadata};
use span_filters::{Filter, FilterExt, dynamic_filter_fn, filter_fn};
use span_registry::{Context, Registry};
use span_targets::Setting;
use std::process::Abort;
use std::test::Fail;

/// Sets the level of a filter that wants warnings, and no more, to info.
fn takes_a_level<F: Filter<Registry>>(rt: &impl Abort, filter: &mut F)
    requires { F.usable filter.old }
    ensures { F.usable filter.new }
{
    assert!(rt; !wants(filter, event_at(Level::INFO)));
    assert!(rt; filter.reload(Setting::Level(LevelFilter::INFO)));
    assert!(rt; wants(filter, event_at(Level::INFO)));
    assert!(rt; !wants(filter, event_at(Level::DEBUG)));
}

/// Sets the level of a filter that takes none, and wants info, or doesn't, before and after.
fn takes_no_level<F: Filter<Registry>>(rt: &impl Abort, filter: &mut F, wanted: bool)
    requires { F.usable filter.old }
    ensures { F.usable filter.new }
{
    assert!(rt; wants(filter, event_at(Level::INFO)) == wanted);
    assert!(rt; !filter.reload(Setting::Level(LevelFilter::TRACE)));
    assert!(rt; wants(filter, event_at(Level::INFO)) == wanted);
    assert!(rt; !filter.reload(Setting::Level(LevelFilter::OFF)));
    assert!(rt; wants(filter, event_at(Level::INFO)) == wanted);
}

#[test]
fn a_level_is_taken(rt: HostRuntime) -> Result<(), Fail> {
    let mut level = LevelFilter::WARN;
    takes_a_level(&rt, &mut level);
    assert!(rt; level == LevelFilter::INFO);
    let mut some = Some(LevelFilter::WARN);
    takes_a_level(&rt, &mut some);
    assert!(rt; some == Some(LevelFilter::INFO));
    Ok(())
}

#[test]
fn a_box_passes_a_level_on(rt: HostRuntime) -> Result<(), Fail> {
    let object: Box<dyn DynFilter + Send> = Box::new(rt.alloc(), LevelFilter::WARN)?;
    let mut boxed = BoxedFilter::new(object);
    takes_a_level(&rt, &mut boxed);
    Ok(())
}

#[test]
fn no_level_is_taken(rt: HostRuntime) -> Result<(), Fail> {
    let alloc = rt.alloc();
    let mut none: Option<LevelFilter> = None;
    takes_no_level(&rt, &mut none, true);
    let mut both = LevelFilter::INFO.and(LevelFilter::WARN);
    takes_no_level(&rt, &mut both, false);
    let text = "And { a: LevelFilter::INFO, b: LevelFilter::WARN }";
    is_shown_as(&rt, alloc, &both, text)?;
    let mut either = LevelFilter::INFO.or(LevelFilter::WARN);
    takes_no_level(&rt, &mut either, true);
    let text = "Or { a: LevelFilter::INFO, b: LevelFilter::WARN }";
    is_shown_as(&rt, alloc, &either, text)?;
    let mut not = LevelFilter::INFO.not();
    takes_no_level(&rt, &mut not, false);
    is_shown_as(&rt, alloc, &not, "Not(LevelFilter::INFO)")
}

#[test]
fn closures_take_no_level(rt: HostRuntime) -> Result<(), Fail> {
    let mut filter = filter_fn(|meta: &Metadata| meta.level() == Level::INFO);
    takes_no_level(&rt, &mut filter, true);
    let mut filter = dynamic_filter_fn(|meta: &Metadata, _cx: &Context<'_, Registry>| {
        meta.level() == Level::WARN
    });
    takes_no_level(&rt, &mut filter, false);
    Ok(())
}
