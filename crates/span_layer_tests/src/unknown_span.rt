//! Tests of calls with ids of which no open span is known: ids that were never handed out, of
//! closed spans, of a closing one.
use crate::store_fixture::{
    LANE, child_of, clone_of, closes, current, enter, event_at, let_go, open, root, span_named,
};
use span_core::{Attributes, Event, FilterId, Id, Level, Record, TraceError};
use span_registry::{Context, Limits, LookupSpan, Registry, Released, Subscriber};
use std::alloc::Global;
use std::process::Abort;
use std::test::Fail;

/// Makes each call that wants an open span with one that isn't.
pub(crate) fn refuses_unknown(rt: &impl Abort, registry: &mut Registry, id: Id) {
    let unknown = TraceError::UnknownSpan(id);
    assert!(rt; !registry.is_open(id));
    assert!(rt; enter(registry, id) == Err(unknown));
    assert!(rt; registry.release(id) == Err(unknown));
    assert!(rt; clone_of(registry, id) == Err(unknown));
    let child = open(registry, &child_of(id));
    assert!(rt; child == Err(TraceError::UnknownParent(id)));
}

/// Notifies a registry of a span that isn't there. It has nothing to refuse.
fn notify_of(registry: &mut Registry, id: Id) {
    registry.record(LANE, id, &Record::new(&[]));
    registry.record_follows_from(LANE, id, id);
    registry.exit(LANE, id);
    registry.close_hooks(LANE, id);
}

/// Looks a span up that isn't there, and the span of an event in it.
fn finds_nothing(rt: &impl Abort, ctx: &Context<'_, Registry>, id: Id) {
    let event = Event::new_child_of(id, event_at(Level::INFO), &[]);
    assert!(rt; ctx.span(id).is_none());
    assert!(rt; ctx.span_scope(id).is_none());
    assert!(rt; ctx.metadata(id).is_none());
    assert!(rt; !ctx.exists(id));
    assert!(rt; !ctx.is_enabled_for(id, FilterId::none()));
    assert!(rt; ctx.event_span(&event).is_none());
    assert!(rt; ctx.event_scope(&event).is_none());
}

/// Makes each call with ids that were never handed out and with that of a closed span, while the
/// lane is in another.
fn knows_open_spans_alone(
    rt: &impl Abort,
    registry: &mut Registry,
    alloc: Global,
) -> Result<(), Fail> {
    let p = open(registry, &root())?;
    let closed = open(registry, &root())?;
    let_go(registry, closed, alloc)?;
    enter(registry, p)?;
    for id in [Id::from_u64(0), Id::from_u64(u64::MAX), closed] {
        refuses_unknown(rt, registry, id);
        notify_of(registry, id);
        assert!(rt; registry.extensions_mut(id).is_none());
        assert!(rt; registry.span_data(id).is_none());
        finds_nothing(rt, &Context::new(registry, LANE), id);
        assert!(rt; current(registry) == Some(p));
    }
    registry.exit(LANE, p);
    assert!(rt; current(registry) == None);
    closes(rt, alloc, registry, p, &[p])
}

#[test]
fn spans_may_be_unknown(rt: HostRuntime) -> Result<(), Fail> {
    knows_open_spans_alone(&rt, &mut Registry::new(rt.alloc()), rt.alloc())
}

#[test]
fn closed_spans_are_unknown_where_places_are_few(rt: HostRuntime) -> Result<(), Fail> {
    for generations in [1, 2] {
        let limits = Limits {
            places: 2,
            generations,
            count: 1,
        };
        let registry = &mut Registry::with_limits(rt.alloc(), limits);
        knows_open_spans_alone(&rt, registry, rt.alloc())?;
    }
    Ok(())
}

/// A span that closes while the lane is in it is unknown, and is still the one that the lane is in.
fn is_unknown_while_closing(
    rt: &impl Abort,
    registry: &mut Registry,
    alloc: Global,
) -> Result<(), Fail> {
    let p = open(registry, &root())?;
    enter(registry, p)?;
    assert!(rt; registry.release(p) == Ok(Released::Closing));
    refuses_unknown(rt, registry, p);
    assert!(rt; registry.extensions_mut(p).is_some());
    let shown = registry.current_span(LANE);
    assert!(rt; shown.id() == Some(p));
    assert!(rt; shown.metadata() == Some(span_named("root")));
    let q = open(registry, &Attributes::new(span_named("q"), &[]))?;
    closes(rt, alloc, registry, q, &[q])?;
    assert!(rt; current(registry) == Some(p));
    Ok(())
}

#[test]
fn a_closing_span_is_unknown(rt: HostRuntime) -> Result<(), Fail> {
    is_unknown_while_closing(&rt, &mut Registry::new(rt.alloc()), rt.alloc())
}
