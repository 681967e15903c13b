//! Tests of memory that is held before it is used.
ghost use Rattle.std.specs.Prelude.{IsOk};
ghost use Rattle.span_core.specs.Span.{number_of};
ghost use Rattle.span_store.specs.Step.{HasNoEntryReserved, HasNoPlaceReserved, HasPlace};
ghost use Rattle.span_store.specs.Store.{IsOpen};

use crate::store_fixture::{clone_of, span_named};
use span_core::{Attributes, Id, Lane, Pass, TraceError};
use span_registry::{Limits, Registry, Subscriber};
use std::process::Abort;
use std::test::Fail;

/// A lane of which nothing was said before.
const LANE: Lane = Lane(77);

/// Opens a root. Where a place is left for which memory is held, it isn't refused.
fn open_root(registry: &mut Registry) -> Result<Id, TraceError>
    ensures { HasPlace registry.old → ¬ (HasNoPlaceReserved registry.old) → IsOk result }
{
    let root = Attributes::new_root(span_named("root"), &[]);
    registry.new_span(LANE, &root, &Pass::new())
}

/// Enters a span. Where it is open, and memory is held for an entry more, it isn't refused.
fn enter(registry: &mut Registry, lane: Lane, id: Id) -> Result<(), TraceError>
    ensures { IsOpen registry.old.store.spans (number_of id)
        → ¬ (HasNoEntryReserved registry.old lane) → IsOk result }
{
    registry.enter(lane, id)
}

/// Opens two spans in the two places that were reserved, and enters them in the three entries.
fn fills_what_is_reserved(rt: &impl Abort, registry: &mut Registry) -> Result<(), Fail> {
    assert!(rt; registry.reserve(2).is_ok());
    assert!(rt; registry.reserve_entries(LANE, 3).is_ok());
    assert!(rt; registry.is_fresh());
    let first = open_root(registry)?;
    let second = open_root(registry)?;
    assert!(rt; clone_of(registry, second) == Ok(second));
    for id in [first, second, first] {
        assert!(rt; enter(registry, LANE, id).is_ok());
    }
    assert!(rt; registry.current_span(LANE).id() == Some(second));
    assert!(rt; registry.current_span(Lane(0)).id().is_none());
    Ok(())
}

#[test]
fn what_is_reserved_can_be_used(rt: HostRuntime) -> Result<(), Fail> {
    let limits = Limits {
        places: 2,
        generations: 9,
        count: 9,
    };
    fills_what_is_reserved(&rt, &mut Registry::with_limits(rt.alloc(), limits))
}
