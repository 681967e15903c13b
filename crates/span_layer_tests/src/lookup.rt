//! Tests of the look-ups: spans by their ids, parents and scopes under masks.
use crate::store_fixture::{
    Family, LANE, family_in, insert, is_shown_as, open_named, parent_of, shows_scope, shows_up,
    span_named, value_of,
};
use span_core::{FieldSet, FilterId, Id, TraceError};
use span_registry::{Context, LookupSpan, Registry, Scope, ScopeFromRoot, SpanData, SpanRef, Tag};
use std::alloc::{AllocError, Global};
use std::process::Abort;
use std::test::Fail;

/// A family of which filter 0 refused the child, and filter 1 the root.
fn refused_family(registry: &mut Registry) -> Result<Family, TraceError> {
    family_in(registry, FilterId::of(1), FilterId::of(0))
}

/// The leaf's scope and parent, by each mask.
fn shows_by_masks<S: LookupSpan>(
    rt: &impl Abort,
    alloc: Global,
    all: Context<'_, S>,
    leaf: Id,
) -> Result<(), Fail> {
    let child_hidden = all.with_filter(FilterId::of(0));
    let root_hidden = all.with_filter(FilterId::of(1));
    let both_hidden = child_hidden.with_filter(FilterId::of(1));
    for (ctx, named, parent) in [
        (all, ("leaf child root ", "root child leaf "), Some("child")),
        (child_hidden, ("leaf root ", "root leaf "), Some("root")),
        (root_hidden, ("leaf child ", "child leaf "), Some("child")),
        (both_hidden, ("leaf ", "leaf "), None),
    ] {
        shows_scope(rt, alloc, &ctx, leaf, named)?;
        assert!(rt; parent_of(&ctx, leaf) == parent);
    }
    Ok(())
}

/// A registry shows its family by each mask.
fn shows_a_family(rt: &impl Abort, alloc: Global, registry: &mut Registry) -> Result<(), Fail> {
    let family = refused_family(registry)?;
    shows_by_masks(rt, alloc, Context::new(registry, LANE), family.leaf)
}

#[test]
fn scopes_under_masks(rt: HostRuntime) -> Result<(), Fail> {
    shows_a_family(&rt, rt.alloc(), &mut Registry::new(rt.alloc()))
}

/// The scopes and parents of the other two, where the child is shown, and where it isn't.
fn shows_ancestors<S: LookupSpan>(
    rt: &impl Abort,
    alloc: Global,
    all: Context<'_, S>,
    family: Family,
) -> Result<(), Fail> {
    let Family { root, child, .. } = family;
    let child_hidden = all.with_filter(FilterId::of(0));
    for (span, ctx, leaf_first, parent) in [
        (child, all, "child root ", Some("root")),
        (root, all, "root ", None),
        (root, child_hidden, "root ", None),
    ] {
        shows_up(rt, alloc, &ctx, span, leaf_first)?;
        assert!(rt; parent_of(&ctx, span) == parent);
    }
    assert!(rt; child_hidden.span_scope(child).is_none());
    Ok(())
}

/// A registry shows its family but the leaf.
fn shows_all_but_the_leaf(
    rt: &impl Abort,
    alloc: Global,
    registry: &mut Registry,
) -> Result<(), Fail> {
    let family = refused_family(registry)?;
    shows_ancestors(rt, alloc, Context::new(registry, LANE), family)
}

#[test]
fn scopes_of_ancestors(rt: HostRuntime) -> Result<(), Fail> {
    shows_all_but_the_leaf(&rt, rt.alloc(), &mut Registry::new(rt.alloc()))
}

/// The next filter, and how many there are by now, asked of a registry through the trait alone.
fn first_filter<R: LookupSpan>(subscriber: &mut R) -> Result<(FilterId, u32), TraceError> {
    let filter = subscriber.register_filter()?;
    Ok((filter, subscriber.root().filters()))
}

/// What a reference shows of the leaf of a family.
fn is_the_leaf<S: LookupSpan>(
    rt: &impl Abort,
    found: &SpanRef<'_, S>,
    family: Family,
) -> Result<(), Fail> {
    assert!(rt; found.id() == family.leaf);
    assert!(rt; found.metadata() == span_named("leaf"));
    assert!(rt; found.name() == "leaf");
    assert!(rt; found.fields() == FieldSet::new(&["size"]));
    assert!(rt; found.parent().ok_or("no child")?.id() == family.child);
    Ok(())
}

/// A registry finds the leaf of a family.
fn shows_the_leaf(rt: &impl Abort, registry: &Registry, family: Family) -> Result<(), Fail> {
    let found = registry.span(family.leaf).ok_or("no leaf")?;
    is_the_leaf(rt, &found, family)
}

/// The leaf has a value, and the child has none. A reference shows the rest of the leaf.
fn has_a_value(rt: &impl Abort, registry: &mut Registry) -> Result<(), Fail> {
    let family = refused_family(registry)?;
    let size = Tag::<u64>::new(3);
    insert(registry, family.leaf, size, 42)?;
    let of_leaf = value_of(registry, family.leaf, size);
    let of_child = value_of(registry, family.child, size);
    assert!(rt; (of_leaf, of_child) == (Some(42), None));
    assert!(rt; registry.span(Id::from_u64(0)).is_none());
    shows_the_leaf(rt, registry, family)
}

#[test]
fn what_a_reference_shows_of_a_span(rt: HostRuntime) -> Result<(), Fail> {
    has_a_value(&rt, &mut Registry::new(rt.alloc()))
}

/// What is found of the child of a family, from its leaf on.
fn finds_the_child(rt: &impl Abort, registry: &Registry, family: Family) -> Result<(), Fail> {
    let leaf = registry.root().span_data(family.leaf).ok_or("no leaf")?;
    let child = leaf.parent().ok_or("no child")?;
    let found = registry.span_data(child).ok_or("no child")?;
    assert!(rt; found.id() == family.child);
    assert!(rt; found.metadata().name() == "child");
    assert!(rt; found.parent() == Some(family.root));
    assert!(rt; !found.is_enabled_for(FilterId::of(0)));
    assert!(rt; found.is_enabled_for(FilterId::of(1)));
    assert!(rt; !found.is_enabled_for(FilterId::unattached()));
    Ok(())
}

/// A registry hands out its first filter and has a family, whose child is found.
fn finds_in_a_family(rt: &impl Abort, registry: &mut Registry) -> Result<(), Fail> {
    assert!(rt; first_filter(registry)? == (FilterId::of(0), 1));
    let family = refused_family(registry.root_mut())?;
    finds_the_child(rt, registry, family)
}

#[test]
fn what_is_found_of_a_span(rt: HostRuntime) -> Result<(), Fail> {
    finds_in_a_family(&rt, &mut Registry::new(rt.alloc()))
}

/// Opens so many spans, each in the one before, and answers the last.
fn open_chain(registry: &mut Registry, count: u32) -> Result<Option<Id>, TraceError> {
    let mut last = None;
    for _ in 0..count {
        last = Some(open_named(registry, "link", last, FilterId::none())?);
    }
    Ok(last)
}

/// The ids of these spans.
fn ids<R: LookupSpan>(alloc: Global, scope: Scope<'_, R>) -> Result<Vec<Id>, AllocError> {
    let mut found = Vec::new(alloc);
    for span in scope {
        found.push(span.id())?;
    }
    Ok(found)
}

/// The last of these spans, or else this one.
fn last_of<R: LookupSpan>(scope: ScopeFromRoot<'_, R>, first: Id) -> Id {
    let mut last = first;
    for span in scope {
        last = span.id();
    }
    last
}

/// How long a scope is from the root on, before and after the root comes. Answers the root.
fn begins_at_the_root<R: LookupSpan>(
    rt: &impl Abort,
    scope: &mut ScopeFromRoot<'_, R>,
    depth: usize,
) -> Result<Id, Fail> {
    assert!(rt; scope.size_hint() == (depth, Some(depth)));
    let root = scope.next().ok_or("no root")?;
    assert!(rt; root.parent().is_none());
    let rest = depth.saturating_sub(1);
    assert!(rt; scope.size_hint() == (rest, Some(rest)));
    Ok(root.id())
}

/// The spans of a chain in a new registry, the last first: their numbers count from 1.
fn counts_down(rt: &impl Abort, chain: &[Id]) {
    let mut left = chain.len() as u64;
    for id in chain {
        assert!(rt; id.into_u64() == left);
        left = left.saturating_sub(1);
    }
}

/// How long a span's scope is, in both orders: the root comes first in one of them, and the span
/// last.
fn is_so_deep<R: LookupSpan>(
    rt: &impl Abort,
    alloc: Global,
    leaf: &SpanRef<'_, R>,
    depth: usize,
) -> Result<(), Fail> {
    let up = ids(alloc, leaf.scope())?;
    assert!(rt; up.len() == depth);
    counts_down(rt, &up);
    let mut scope = leaf.scope().from_root(alloc)?;
    let root = begins_at_the_root(rt, &mut scope, depth)?;
    assert!(rt; last_of(scope, root) == leaf.id());
    Ok(())
}

/// A chain of so many spans is as deep as that.
fn opens_so_deep(
    rt: &impl Abort,
    alloc: Global,
    registry: &mut Registry,
    depth: u32,
) -> Result<(), Fail> {
    let id = open_chain(registry, depth)?.ok_or("no span")?;
    let leaf = registry.span(id).ok_or("no leaf")?;
    is_so_deep(rt, alloc, &leaf, depth as usize)
}

#[test]
fn lengths_of_scopes(rt: HostRuntime) -> Result<(), Fail> {
    for depth in [1, 16, 17, 1000] {
        opens_so_deep(&rt, rt.alloc(), &mut Registry::new(rt.alloc()), depth)?;
    }
    Ok(())
}

/// The text of the leaf's scope, root first.
fn shows_a_scope(rt: &impl Abort, alloc: Global, registry: &mut Registry) -> Result<(), Fail> {
    let family = refused_family(registry)?;
    let leaf = registry.span(family.leaf).ok_or("no leaf")?;
    let scope = leaf.scope().from_root(alloc)?;
    is_shown_as(rt, alloc, &scope, "ScopeFromRoot { .. }")
}

#[test]
fn text_of_a_scope(rt: HostRuntime) -> Result<(), Fail> {
    shows_a_scope(&rt, rt.alloc(), &mut Registry::new(rt.alloc()))
}
