//! Tests of lanes' stacks: duplicates, and spans that are left in any order.
use crate::store_fixture::{LANE, current, enter, open, root};
use span_core::Id;
use span_registry::{Registry, SpanStack, Subscriber};
use std::process::Abort;
use std::test::Fail;

/// A span that is entered twice is on a stack twice, and is current by its first entry alone.
fn has_a_duplicate(rt: &impl Abort, stack: &mut SpanStack) -> Result<(), Fail> {
    let one = Id::from_u64(1);
    let two = Id::from_u64(2);
    for id in [one, two, one] {
        stack.push(id)?;
    }
    assert!(rt; stack.current() == Some(two));
    assert!(rt; !stack.pop(one));
    assert!(rt; stack.current() == Some(two));
    let mut spans = stack.iter();
    assert!(rt; spans.next() == Some(two));
    assert!(rt; spans.next() == Some(one));
    assert!(rt; spans.next() == None);
    assert!(rt; stack.pop(one));
    assert!(rt; stack.current() == Some(two));
    assert!(rt; !stack.pop(Id::from_u64(7)));
    assert!(rt; stack.pop(two));
    assert!(rt; stack.current() == None);
    Ok(())
}

#[test]
fn a_second_entry_is_a_duplicate(rt: HostRuntime) -> Result<(), Fail> {
    has_a_duplicate(&rt, &mut SpanStack::new(rt.alloc()))
}

/// Two ids that are 64 apart are told apart on a stack.
fn tells_apart(rt: &impl Abort, stack: &mut SpanStack) -> Result<(), Fail> {
    let low = Id::from_u64(3);
    let high = Id::from_u64(67);
    for id in [low, high] {
        stack.push(id)?;
    }
    assert!(rt; stack.current() == Some(high));
    assert!(rt; stack.pop(low));
    stack.push(low)?;
    assert!(rt; stack.current() == Some(low));
    stack.push(low)?;
    assert!(rt; !stack.pop(low));
    assert!(rt; stack.pop(low));
    assert!(rt; !stack.pop(low));
    assert!(rt; stack.pop(high));
    assert!(rt; stack.current() == None);
    Ok(())
}

#[test]
fn ids_that_are_64_apart_are_no_duplicates(rt: HostRuntime) -> Result<(), Fail> {
    tells_apart(&rt, &mut SpanStack::new(rt.alloc()))
}

/// A span that is entered 1000 times is current until it is left as often.
fn is_left_at_last(rt: &impl Abort, registry: &mut Registry) -> Result<(), Fail> {
    let p = open(registry, &root())?;
    for _ in 0..1000 {
        enter(registry, p)?;
    }
    for _ in 0..999 {
        registry.exit(LANE, p);
        assert!(rt; current(registry) == Some(p));
    }
    registry.exit(LANE, p);
    assert!(rt; current(registry) == None);
    assert!(rt; registry.is_open(p));
    Ok(())
}

#[test]
fn a_span_is_entered_1000_times(rt: HostRuntime) -> Result<(), Fail> {
    is_left_at_last(&rt, &mut Registry::new(rt.alloc()))
}
