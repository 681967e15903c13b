//! What several tests stand on: metadata, the calls of a registry, spans in one another, and what
//! filters say.
use span_core::{
    Attributes, Event, FieldSet, FilterId, Id, Interest, Kind, Lane, Level, LevelFilter, Metadata,
    Pass, TraceError,
};
use span_filters::Filter;
use span_registry::{Context, LookupSpan, Registry, Released, Scope, SpanRef, Subscriber, Tag};
use std::alloc::{AllocError, Global};
use std::fmt;
use std::process::Abort;
use std::test::Fail;

/// The lane on which tests act.
pub(crate) const LANE: Lane = Lane(0);

/// The metadata of a span at info, with this name and the field `size`.
pub(crate) fn span_named(name: &'static str) -> Metadata {
    Metadata::new(
        1,
        name,
        "tests",
        Level::INFO,
        Kind::SPAN,
        FieldSet::new(&["size"]),
    )
}

/// The metadata of an event of this target, at this level.
pub(crate) fn event_of(target: &'static str, level: Level) -> Metadata {
    Metadata::new(2, "event", target, level, Kind::EVENT, FieldSet::new(&[]))
}

/// The metadata of an event at this level.
pub(crate) fn event_at(level: Level) -> Metadata {
    event_of("tests", level)
}

/// What a root is made of.
pub(crate) fn root() -> Attributes<'static> {
    Attributes::new_root(span_named("root"), &[])
}

/// What a span in this one is made of.
pub(crate) fn child_of(parent: Id) -> Attributes<'static> {
    Attributes::child_of(parent, span_named("child"), &[])
}

/// Opens a span that no filter refuses.
pub(crate) fn open(registry: &mut Registry, attributes: &Attributes<'_>) -> Result<Id, TraceError> {
    registry.new_span(LANE, attributes, &Pass::new())
}

/// Opens a span in a parent, or a root. These filters refuse it.
pub(crate) fn open_named(
    registry: &mut Registry,
    name: &'static str,
    parent: Option<Id>,
    refusing: FilterId,
) -> Result<Id, TraceError> {
    let mut pass = Pass::new();
    pass.set(refusing, false);
    let attributes = match parent {
        Some(id) => Attributes::child_of(id, span_named(name), &[]),
        None => Attributes::new_root(span_named(name), &[]),
    };
    registry.new_span(LANE, &attributes, &pass)
}

/// Enters a span.
pub(crate) fn enter(registry: &mut Registry, id: Id) -> Result<(), TraceError> {
    registry.enter(LANE, id)
}

/// Clones a handle.
pub(crate) fn clone_of(registry: &mut Registry, id: Id) -> Result<Id, TraceError> {
    registry.clone_span(LANE, id)
}

/// The span that the lane is in.
pub(crate) fn current(registry: &Registry) -> Option<Id> {
    registry.current_span(LANE).id()
}

/// Drops a handle, and answers the spans that are closed and taken out by that, in their order.
fn drop_handle(registry: &mut Registry, id: Id, alloc: Global) -> Result<Vec<Id>, Fail> {
    let mut closed = Vec::new(alloc);
    let mut next = match registry.release(id)? {
        Released::StillOpen => None,
        Released::Closing => Some(id),
    };
    while let Some(span) = next {
        next = registry.remove(span);
        closed.push(span)?;
    }
    Ok(closed)
}

/// Drops a handle, whatever is closed by that.
pub(crate) fn let_go(registry: &mut Registry, id: Id, alloc: Global) -> Result<(), Fail> {
    drop_handle(registry, id, alloc)?;
    Ok(())
}

/// Drops a handle, by which these spans close, in their order.
pub(crate) fn closes(
    rt: &impl Abort,
    alloc: Global,
    registry: &mut Registry,
    id: Id,
    expected: &[Id],
) -> Result<(), Fail> {
    let closed = drop_handle(registry, id, alloc)?;
    assert!(rt; closed.as_slice() == expected);
    Ok(())
}

/// The debug text of a value is this.
pub(crate) fn is_shown_as<T: fmt::Debug>(
    rt: &impl Abort,
    alloc: Global,
    value: &T,
    text: &str,
) -> Result<(), Fail> {
    let shown = format!(in alloc; "{value:?}")?;
    assert!(rt; shown.as_str() == text);
    Ok(())
}

/// Gives a span a value under a tag.
pub(crate) fn insert(
    registry: &mut Registry,
    id: Id,
    tag: Tag<u64>,
    value: u64,
) -> Result<(), Fail> {
    let extensions = registry.extensions_mut(id).ok_or("no extensions")?;
    extensions.insert(tag, value)?;
    Ok(())
}

/// The value of a span under a tag.
pub(crate) fn value_of<R: LookupSpan>(subscriber: &R, id: Id, tag: Tag<u64>) -> Option<u64> {
    let span = subscriber.span(id)?;
    span.extensions().get(tag).copied()
}

/// A root, a span in it, and one in that.
#[derive(Clone, Copy, Drop)]
pub(crate) struct Family {
    pub(crate) root: Id,
    pub(crate) child: Id,
    pub(crate) leaf: Id,
}

/// Opens a family: its root is refused by the first of these filters, and its child by the second.
pub(crate) fn family_in(
    registry: &mut Registry,
    refusing_root: FilterId,
    refusing_child: FilterId,
) -> Result<Family, TraceError> {
    let root = open_named(registry, "root", None, refusing_root)?;
    let child = open_named(registry, "child", Some(root), refusing_child)?;
    let leaf = open_named(registry, "leaf", Some(child), FilterId::none())?;
    Ok(Family { root, child, leaf })
}

/// The name of a span, if one is found.
pub(crate) fn name_of<S: LookupSpan>(found: Option<SpanRef<'_, S>>) -> Option<&'static str> {
    match found {
        Some(span) => Some(span.name()),
        None => None,
    }
}

/// The names of these spans, with a space behind each.
pub(crate) fn names<S: LookupSpan>(
    alloc: Global,
    scope: Scope<'_, S>,
) -> Result<String, AllocError> {
    let mut text = String::new(alloc);
    for span in scope {
        text.push_str(span.name())?;
        text.push_str(" ")?;
    }
    Ok(text)
}

/// The same from the root on.
pub(crate) fn names_from_root<S: LookupSpan>(
    alloc: Global,
    scope: Scope<'_, S>,
) -> Result<String, TraceError> {
    let mut text = String::new(alloc);
    for span in scope.from_root(alloc)? {
        text.push_str(span.name())?;
        text.push_str(" ")?;
    }
    Ok(text)
}

/// The names of a span and of those round it, leaf first, as a context shows them.
fn up<S: LookupSpan>(alloc: Global, ctx: &Context<'_, S>, id: Id) -> Result<String, Fail> {
    let scope = ctx.span_scope(id).ok_or("no span")?;
    Ok(names(alloc, scope)?)
}

/// The same, root first.
fn down<S: LookupSpan>(alloc: Global, ctx: &Context<'_, S>, id: Id) -> Result<String, Fail> {
    let scope = ctx.span_scope(id).ok_or("no span")?;
    Ok(names_from_root(alloc, scope)?)
}

/// A context shows these names of a span and of those round it, leaf first.
pub(crate) fn shows_up<S: LookupSpan>(
    rt: &impl Abort,
    alloc: Global,
    ctx: &Context<'_, S>,
    id: Id,
    named: &str,
) -> Result<(), Fail> {
    let shown = up(alloc, ctx, id)?;
    assert!(rt; shown.as_str() == named);
    Ok(())
}

/// The same, root first.
fn shows_down<S: LookupSpan>(
    rt: &impl Abort,
    alloc: Global,
    ctx: &Context<'_, S>,
    id: Id,
    named: &str,
) -> Result<(), Fail> {
    let shown = down(alloc, ctx, id)?;
    assert!(rt; shown.as_str() == named);
    Ok(())
}

/// A context shows these names of a span and of those round it, leaf first and root first.
pub(crate) fn shows_scope<S: LookupSpan>(
    rt: &impl Abort,
    alloc: Global,
    ctx: &Context<'_, S>,
    id: Id,
    named: (&'static str, &'static str),
) -> Result<(), Fail> {
    shows_up(rt, alloc, ctx, id, named.0)?;
    shows_down(rt, alloc, ctx, id, named.1)
}

/// The name of a span's parent, if a context shows one.
pub(crate) fn parent_of<S: LookupSpan>(ctx: &Context<'_, S>, id: Id) -> Option<&'static str> {
    let span = ctx.span(id)?;
    name_of(span.parent())
}

/// Whether a filter lets an event by of which it let the metadata by, where there is no subscriber.
pub(crate) fn lets_by<F: Filter<Registry>>(filter: &F, metadata: Metadata) -> bool
    requires { F.usable filter.now }
{
    filter.event_enabled(&Event::new(metadata, &[]), &Context::none())
}

/// Whether a filter wants an event with this metadata, where there is no subscriber.
pub(crate) fn wants<F: Filter<Registry>>(filter: &F, metadata: Metadata) -> bool
    requires { F.usable filter.now }
{
    filter.enabled(&metadata, &Context::none()) && lets_by(filter, metadata)
}

/// A filter's interest in a callsite of events at this level.
pub(crate) fn interest_in<F: Filter<Registry>>(filter: &F, level: Level) -> Interest
    requires { F.usable filter.now }
{
    filter.callsite_enabled(&event_at(level))
}

/// A level; whether a filter wants events at it, and its interest in their callsite.
pub(crate) type Row = (Level, bool, Interest);

/// A filter says this of events at these levels, and has this hint.
pub(crate) fn says<F: Filter<Registry>>(
    rt: &impl Abort,
    filter: &F,
    rows: &[Row],
    hint: Option<LevelFilter>,
)
    requires { F.usable filter.now }
{
    for (level, wanted, interest) in rows {
        assert!(rt; wants(filter, event_at(*level)) == *wanted);
        assert!(rt; interest_in(filter, *level) == *interest);
    }
    assert!(rt; hint_of(filter) == hint);
}

/// The highest level that a filter may want, if it knows one.
pub(crate) fn hint_of<F: Filter<Registry>>(filter: &F) -> Option<LevelFilter>
    requires { F.usable filter.now }
{
    filter.max_level_hint()
}
