//! Tests of places that hold one span after another, and of ids that are never issued again.
ghost use Rattle.std.specs.Prelude.{◌≤◌};

use crate::store_fixture::{LANE, current, enter, insert, let_go, open, root, value_of};
use crate::unknown_span::refuses_unknown;
use span_core::{Id, TraceError};
use span_registry::{Limits, LookupSpan, Registry, Subscriber, Tag};
use std::alloc::Global;
use std::process::Abort;
use std::test::Fail;

/// A registry of so many places, with as many spans one after the other in each.
fn limited(alloc: Global, places: u32, generations: u32) -> Registry
    requires places { 1 ≤ places }
    requires generations { 1 ≤ generations }
{
    let limits = Limits {
        places,
        generations,
        count: 9,
    };
    Registry::with_limits(alloc, limits)
}

/// Makes a root.
fn new_root(registry: &mut Registry) -> Result<Id, TraceError> {
    open(registry, &root())
}

/// Makes a root and drops it.
fn come_and_gone(registry: &mut Registry, alloc: Global) -> Result<Id, Fail> {
    let id = new_root(registry)?;
    let_go(registry, id, alloc)?;
    Ok(id)
}

/// Of two places one is retired with its third span, whose id and those before it are unknown then;
/// the other has room.
fn retires_a_place(rt: &impl Abort, alloc: Global, registry: &mut Registry) -> Result<(), Fail> {
    let a = new_root(registry)?;
    let b = new_root(registry)?;
    let_go(registry, a, alloc)?;
    let c = come_and_gone(registry, alloc)?;
    assert!(rt; registry.retired() == 0);
    let d = come_and_gone(registry, alloc)?;
    assert!(rt; registry.retired() == 1);
    for id in [a, c, d] {
        assert!(rt; enter(registry, id) == Err(TraceError::UnknownSpan(id)));
        assert!(rt; registry.span_data(id).is_none());
    }
    assert!(rt; new_root(registry) == Err(TraceError::TooManySpans));
    let_go(registry, b, alloc)?;
    assert!(rt; new_root(registry).is_ok());
    Ok(())
}

#[test]
fn a_place_is_retired_after_its_last_generation(rt: HostRuntime) -> Result<(), Fail> {
    retires_a_place(&rt, rt.alloc(), &mut limited(rt.alloc(), 2, 3))
}

/// A span closes while the lane is in it, and the next one in its place isn't the one that is left.
fn leaves_the_next_alone(
    rt: &impl Abort,
    alloc: Global,
    registry: &mut Registry,
) -> Result<(), Fail> {
    let a = new_root(registry)?;
    enter(registry, a)?;
    let_go(registry, a, alloc)?;
    let c = new_root(registry)?;
    assert!(rt; (a.into_u64(), c.into_u64()) == (1, 4_294_967_297));
    let before = current(registry);
    registry.exit(LANE, a);
    registry.exit(LANE, a);
    assert!(rt; (before, current(registry)) == (None, None));
    assert!(rt; registry.is_open(c));
    Ok(())
}

#[test]
fn the_next_span_of_a_place_is_another(rt: HostRuntime) -> Result<(), Fail> {
    leaves_the_next_alone(&rt, rt.alloc(), &mut Registry::new(rt.alloc()))
}

/// The one place is retired with its second span, and both are unknown then.
fn retires_its_one_place(
    rt: &impl Abort,
    alloc: Global,
    registry: &mut Registry,
) -> Result<(), Fail> {
    let a = come_and_gone(registry, alloc)?;
    let b = come_and_gone(registry, alloc)?;
    assert!(rt; registry.retired() == 1);
    assert!(rt; new_root(registry) == Err(TraceError::TooManySpans));
    for id in [a, b] {
        refuses_unknown(rt, registry, id);
    }
    Ok(())
}

#[test]
fn one_place_for_two_spans(rt: HostRuntime) -> Result<(), Fail> {
    retires_its_one_place(&rt, rt.alloc(), &mut limited(rt.alloc(), 1, 2))
}

/// Of four places three are used, and two of these freed: the one freed last is used first, and the
/// fourth at last.
fn uses_the_last_first(
    rt: &impl Abort,
    alloc: Global,
    registry: &mut Registry,
) -> Result<(), Fail> {
    let first = new_root(registry)?;
    let second = new_root(registry)?;
    let third = new_root(registry)?;
    assert!(rt; (first.into_u64(), second.into_u64(), third.into_u64()) == (1, 2, 3));
    let_go(registry, first, alloc)?;
    let_go(registry, second, alloc)?;
    assert!(rt; new_root(registry) == Ok(Id::from_u64(4_294_967_298)));
    assert!(rt; new_root(registry) == Ok(Id::from_u64(4_294_967_297)));
    assert!(rt; new_root(registry) == Ok(Id::from_u64(4)));
    assert!(rt; new_root(registry) == Err(TraceError::TooManySpans));
    Ok(())
}

#[test]
fn the_place_freed_last_is_used_first(rt: HostRuntime) -> Result<(), Fail> {
    uses_the_last_first(&rt, rt.alloc(), &mut limited(rt.alloc(), 4, 3))
}

/// The next span has no value under the tag under which the last one had one.
fn forgets_values(rt: &impl Abort, alloc: Global, registry: &mut Registry) -> Result<(), Fail> {
    let tag: Tag<u64> = Tag::new(0);
    let a = new_root(registry)?;
    insert(registry, a, tag, 7)?;
    let_go(registry, a, alloc)?;
    let b = new_root(registry)?;
    let value = value_of(registry, b, tag);
    assert!(rt; (b, value) == (Id::from_u64(2), None));
    Ok(())
}

#[test]
fn a_place_has_no_values_of_its_last_span(rt: HostRuntime) -> Result<(), Fail> {
    forgets_values(&rt, rt.alloc(), &mut limited(rt.alloc(), 3, 1))
}
