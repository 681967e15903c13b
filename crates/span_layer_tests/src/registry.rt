//! Tests of a registry's spans: parents, chains and extensions.
use crate::store_fixture::{
    LANE, child_of, closes, current, enter, insert, is_shown_as, let_go, open, root, span_named,
    value_of,
};
use span_core::{Attributes, Id, Lane, Pass, TraceError};
use span_registry::{Limits, LookupSpan, Registry, Released, Subscriber, Tag, laws};
use std::alloc::Global;
use std::process::Abort;
use std::test::Fail;

/// A contextual span is in the one that its lane is in, and a root on another lane.
fn is_in_the_entered_one(
    rt: &impl Abort,
    alloc: Global,
    registry: &mut Registry,
) -> Result<(), Fail> {
    let contextual = Attributes::new(span_named("contextual"), &[]);
    let p = open(registry, &root())?;
    enter(registry, p)?;
    let c = open(registry, &contextual)?;
    let other = registry.new_span(Lane(1), &contextual, &Pass::new())?;
    assert!(rt; registry.release(p) == Ok(Released::StillOpen));
    assert!(rt; registry.release(p) == Err(TraceError::NoHandle(p)));
    closes(rt, alloc, registry, other, &[other])?;
    closes(rt, alloc, registry, c, &[c, p])?;
    assert!(rt; current(registry) == None);
    Ok(())
}

#[test]
fn a_contextual_span_is_in_the_entered_one(rt: HostRuntime) -> Result<(), Fail> {
    laws::closes_once();
    is_in_the_entered_one(&rt, rt.alloc(), &mut Registry::new(rt.alloc()))
}

/// Opens 10,000 spans, each in the one before, and puts them in a chain, root first.
fn open_chain(registry: &mut Registry, chain: &mut Vec<Id>) -> Result<(), Fail> {
    let mut last = open(registry, &root())?;
    chain.push(last)?;
    for _ in 1..10_000 {
        last = open(registry, &child_of(last))?;
        chain.push(last)?;
    }
    Ok(())
}

/// Drops the handles of a chain but the leaf's, by which nothing is closed. Turns the chain, and
/// answers the leaf.
fn release_all_but_the_leaf(
    rt: &impl Abort,
    registry: &mut Registry,
    chain: &mut Vec<Id>,
) -> Result<Id, Fail> {
    let leaf = chain.pop().ok_or("no leaf")?;
    for id in chain.iter() {
        assert!(rt; registry.release(*id) == Ok(Released::StillOpen));
    }
    chain.push(leaf)?;
    chain.reverse();
    Ok(leaf)
}

/// Drops the handles of a chain from the root on: nothing is closed before the leaf's is dropped,
/// and all by that.
fn closes_by_its_leaf(
    rt: &impl Abort,
    alloc: Global,
    registry: &mut Registry,
    chain: &mut Vec<Id>,
) -> Result<(), Fail> {
    open_chain(registry, chain)?;
    let leaf = release_all_but_the_leaf(rt, registry, chain)?;
    closes(rt, alloc, registry, leaf, chain.as_slice())?;
    for id in chain.iter() {
        assert!(rt; registry.span(*id).is_none());
    }
    Ok(())
}

/// A chain is opened and closed.
fn closes_a_chain(rt: &impl Abort, registry: &mut Registry, alloc: Global) -> Result<(), Fail> {
    closes_by_its_leaf(rt, alloc, registry, &mut Vec::new(alloc))
}

/// A chain fills a registry, and retires all of its places.
fn retires_a_chain(rt: &impl Abort, registry: &mut Registry, alloc: Global) -> Result<(), Fail> {
    closes_a_chain(rt, registry, alloc)?;
    assert!(rt; registry.retired() == 10_000);
    assert!(rt; open(registry, &root()) == Err(TraceError::TooManySpans));
    Ok(())
}

#[test]
fn a_chain_closes_in_one_drop(rt: HostRuntime) -> Result<(), Fail> {
    closes_a_chain(&rt, &mut Registry::new(rt.alloc()), rt.alloc())?;
    let limits = Limits {
        places: 10_000,
        generations: 1,
        count: 1,
    };
    let registry = &mut Registry::with_limits(rt.alloc(), limits);
    retires_a_chain(&rt, registry, rt.alloc())
}

/// Of two spans one has a value, until it closes.
fn keeps_values_apart(rt: &impl Abort, alloc: Global, registry: &mut Registry) -> Result<(), Fail> {
    let tag = Tag::<u64>::new(0);
    let p = open(registry, &root())?;
    let q = open(registry, &root())?;
    insert(registry, p, tag, 5)?;
    let kept = (value_of(registry, p, tag), value_of(registry, q, tag));
    assert!(rt; kept == (Some(5), None));
    let_go(registry, p, alloc)?;
    assert!(rt; registry.extensions_mut(p).is_none());
    Ok(())
}

#[test]
fn extensions_belong_to_one_span(rt: HostRuntime) -> Result<(), Fail> {
    keeps_values_apart(&rt, rt.alloc(), &mut Registry::new(rt.alloc()))
}

#[test]
fn text_of_a_registry(rt: HostRuntime) -> Result<(), Fail> {
    let registry = Registry::new(rt.alloc());
    is_shown_as(&rt, rt.alloc(), &registry, "Registry { .. }")
}
