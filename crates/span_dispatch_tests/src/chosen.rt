//! Tests of lanes and callsites whose numbers somebody chose: by the fixed seed they are hashed
//! alike, by another apart, and by both they are served.
ghost use Rattle.span_dispatch.specs.Serve.{stack_of};

use span_core::{Attributes, Event, Id, Kind, Lane, Level, TraceError};
use span_dispatch::Dispatch;
use span_layer_tests::fixture::{LANE, metadata_of};
use span_registry::{Limits, Registry, SeededState, Subscriber};
use std::alloc::{AllocError, Global};
use std::hash::{BuildHasher, Hash};
use std::process::Abort;
use std::test::Fail;

/// Numbers that have the same place in a map of 256 by the fixed seed, as lanes and as callsites.
const CHOSEN: [u32; 8] = [
    44, 165_202, 280_208, 327_456, 379_172, 517_424, 531_737, 613_379,
];

/// Where a number stands in a map of 256 places, if its place is free.
fn place_of<T: Hash + Drop>(hasher: SeededState, number: T) -> u64 {
    let hash = hasher.hash_one(number);
    (hash ^ hash >> 32) & 0xFF
}

/// The places of the chosen numbers as lanes.
fn places_of_lanes(alloc: Global, hasher: SeededState) -> Result<Vec<u64>, AllocError> {
    let mut places = Vec::new(alloc);
    for number in CHOSEN {
        places.push(place_of(hasher, number))?;
    }
    Ok(places)
}

/// The places of the chosen numbers as callsites.
fn places_of_callsites(alloc: Global, hasher: SeededState) -> Result<Vec<u64>, AllocError> {
    let mut places = Vec::new(alloc);
    for number in CHOSEN {
        places.push(place_of(hasher, u64::from(number)))?;
    }
    Ok(places)
}

#[test]
fn the_fixed_seed_hashes_them_alike(rt: HostRuntime) -> Result<(), Fail> {
    let lanes = places_of_lanes(rt.alloc(), SeededState::fixed())?;
    assert!(rt; lanes.as_slice() == [0; 8].as_slice());
    let callsites = places_of_callsites(rt.alloc(), SeededState::fixed())?;
    assert!(rt; callsites.as_slice() == [0; 8].as_slice());
    Ok(())
}

#[test]
fn another_seed_hashes_them_apart(rt: HostRuntime) -> Result<(), Fail> {
    let lanes = places_of_lanes(rt.alloc(), SeededState::new(1))?;
    assert!(rt; lanes.as_slice() == [209, 77, 152, 145, 217, 167, 222, 234].as_slice());
    let callsites = places_of_callsites(rt.alloc(), SeededState::new(1))?;
    assert!(rt; callsites.as_slice() == [54, 232, 164, 254, 225, 132, 13, 214].as_slice());
    Ok(())
}

/// Sends an event from a callsite. Answers whether it was made.
fn send<S: Subscriber>(dispatch: &mut Dispatch<S>, callsite: u32) -> Result<bool, TraceError>
    requires { S.usable (stack_of dispatch.old) }
    ensures { S.usable (stack_of dispatch.new) }
{
    let metadata = metadata_of(u64::from(callsite), Level::INFO, Kind::EVENT);
    dispatch.event(LANE, &Event::new(metadata, &[]))
}

/// Each callsite makes its event.
fn sends_each<S: Subscriber>(rt: &impl Abort, dispatch: &mut Dispatch<S>) -> Result<(), Fail>
    requires { S.usable (stack_of dispatch.old) }
    ensures { S.usable (stack_of dispatch.new) }
{
    for number in CHOSEN {
        assert!(rt; send(dispatch, number)?);
    }
    Ok(())
}

/// Opens a root.
fn open<S: Subscriber>(dispatch: &mut Dispatch<S>) -> Result<Id, Fail>
    requires { S.usable (stack_of dispatch.old) }
    ensures { S.usable (stack_of dispatch.new) }
{
    let metadata = metadata_of(1, Level::INFO, Kind::SPAN);
    let opened = dispatch.new_span(LANE, &Attributes::new_root(metadata, &[]))?;
    Ok(opened.ok_or("a layer vetoes")?)
}

/// Each lane enters a span of its own, and is in it.
fn enters_each<S: Subscriber>(rt: &impl Abort, dispatch: &mut Dispatch<S>) -> Result<(), Fail>
    requires { S.usable (stack_of dispatch.old) }
{
    for number in CHOSEN {
        let id = open(dispatch)?;
        dispatch.enter(Lane(number), id)?;
        assert!(rt; dispatch.current_span(Lane(number)).id() == Some(id));
    }
    Ok(())
}

/// Each callsite makes its event, and each lane enters a span, on a registry with this hasher.
fn serves_each(rt: &impl Abort, alloc: Global, hasher: SeededState) -> Result<(), Fail> {
    let registry = Registry::with_hasher(alloc, Limits::MAX, hasher);
    let mut dispatch = Dispatch::new(alloc, registry);
    sends_each(rt, &mut dispatch)?;
    enters_each(rt, &mut dispatch)
}

#[test]
fn they_are_served(rt: HostRuntime) -> Result<(), Fail> {
    serves_each(&rt, rt.alloc(), SeededState::fixed())?;
    serves_each(&rt, rt.alloc(), SeededState::new(1))
}
