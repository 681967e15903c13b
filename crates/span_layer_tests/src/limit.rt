//! Tests of limits: counts, places and filters.
use crate::store_fixture::{child_of, clone_of, closes, open, root};
use span_core::{FilterId, TraceError};
use span_registry::{Limits, LookupSpan, Registry};
use std::alloc::Global;
use std::process::Abort;
use std::test::Fail;

/// Makes handles and children until there is no more room for one.
fn fills_a_count(rt: &impl Abort, registry: &mut Registry) -> Result<(), Fail> {
    assert!(rt; registry.is_fresh());
    let p = open(registry, &root())?;
    assert!(rt; !registry.is_fresh());
    assert!(rt; clone_of(registry, p) == Ok(p));
    assert!(rt; clone_of(registry, p) == Err(TraceError::CountFull(p)));
    open(registry, &child_of(p))?;
    open(registry, &child_of(p))?;
    let third = open(registry, &child_of(p));
    assert!(rt; third == Err(TraceError::CountFull(p)));
    assert!(rt; registry.retired() == 0);
    Ok(())
}

#[test]
fn counts_are_limited(rt: HostRuntime) -> Result<(), Fail> {
    let limits = Limits {
        places: 10,
        generations: 9,
        count: 2,
    };
    fills_a_count(&rt, &mut Registry::with_limits(rt.alloc(), limits))
}

/// Makes spans until no place is left, and one more once a span has closed.
fn fills_two_places(rt: &impl Abort, alloc: Global, registry: &mut Registry) -> Result<(), Fail> {
    let p = open(registry, &root())?;
    open(registry, &root())?;
    let third = open(registry, &root());
    assert!(rt; third == Err(TraceError::TooManySpans));
    closes(rt, alloc, registry, p, &[p])?;
    assert!(rt; open(registry, &root()).is_ok());
    Ok(())
}

#[test]
fn places_are_limited(rt: HostRuntime) -> Result<(), Fail> {
    let limits = Limits {
        places: 2,
        generations: 9,
        count: 9,
    };
    fills_two_places(
        &rt,
        rt.alloc(),
        &mut Registry::with_limits(rt.alloc(), limits),
    )?;
    let Limits {
        places,
        generations,
        count,
    } = Limits::MAX;
    assert!(rt; [places, generations, count] == [4_294_967_295; 3]);
    Ok(())
}

/// Registers filters until there is no more room for one.
fn hands_out_in_order(rt: &impl Abort, registry: &mut Registry) {
    for number in 0..128 {
        assert!(rt; registry.filters() == number);
        assert!(rt; registry.register_filter() == Ok(FilterId::of(number)));
    }
    assert!(rt; registry.register_filter() == Err(TraceError::TooManyFilters));
    assert!(rt; registry.filters() == 128);
}

#[test]
fn filters_are_handed_out_in_order(rt: HostRuntime) -> Result<(), Fail> {
    hands_out_in_order(&rt, &mut Registry::new(rt.alloc()));
    Ok(())
}

/// Registers 64 filters, and one more.
fn hands_out_a_65th(rt: &impl Abort, registry: &mut Registry) -> Result<(), Fail> {
    for _ in 0..64 {
        registry.register_filter()?;
    }
    assert!(rt; registry.filters() == 64);
    assert!(rt; registry.register_filter() == Ok(FilterId::of(64)));
    assert!(rt; registry.filters() == 65);
    Ok(())
}

#[test]
fn a_65th_filter_has_the_number_64(rt: HostRuntime) -> Result<(), Fail> {
    hands_out_a_65th(&rt, &mut Registry::new(rt.alloc()))
}
