//! Tests of contexts: what one filter refused is hidden from those that stand under it, and from
//! nobody else.
ghost use Rattle.span_core.specs.Filters.{is_attached};
ghost use Rattle.std.specs.Prelude.{IfOk, IsTrue};

use crate::store_fixture::{
    Family, LANE, enter, event_at, family_in, name_of, names, open, parent_of, root, shows_scope,
    value_of,
};
use span_core::{Event, FilterId, Id, Level, Pass, TraceError};
use span_registry::{Context, ContextMut, LookupSpan, Registry, Subscriber, Tag};
use std::alloc::Global;
use std::process::Abort;
use std::test::Fail;

/// Registers a filter, and opens a family of which that refuses the child. The lane has entered all
/// of it.
fn hide_child(registry: &mut Registry) -> Result<(FilterId, Family), TraceError>
    ensures { IfOk result (λ r. IsTrue (is_attached r.0)) }
{
    let info = registry.register_filter()?;
    let family = family_in(registry, FilterId::none(), info)?;
    for id in [family.root, family.child, family.leaf] {
        enter(registry, id)?;
    }
    Ok((info, family))
}

/// An event in this span.
fn event_in(id: Id) -> Event<'static> {
    Event::new_child_of(id, event_at(Level::INFO), &[])
}

/// The names of an event's span and of those round it, leaf first, if a context shows that span.
fn up_of_event<S: LookupSpan>(
    alloc: Global,
    ctx: &Context<'_, S>,
    event: &Event<'_>,
) -> Result<Option<String>, Fail> {
    match ctx.event_scope(event) {
        Some(scope) => Ok(Some(names(alloc, scope)?)),
        None => Ok(None),
    }
}

/// The name of an event's span, if a context shows one.
fn span_of<S: LookupSpan>(ctx: &Context<'_, S>, event: &Event<'_>) -> Option<&'static str> {
    name_of(ctx.event_span(event))
}

/// The newest span that the lane is in, of those that a context shows.
fn current_of<S: LookupSpan>(ctx: &Context<'_, S>) -> Option<Id> {
    let span = ctx.lookup_current()?;
    Some(span.id())
}

/// The child is in the leaf's scope without the filter, and isn't under it.
fn hides_from_its_own(rt: &impl Abort, alloc: Global, registry: &mut Registry) -> Result<(), Fail> {
    let (info, family) = hide_child(registry)?;
    let all = Context::new(registry, LANE);
    let without = ("leaf child root ", "root child leaf ");
    shows_scope(rt, alloc, &all, family.leaf, without)?;
    let under = ("leaf root ", "root leaf ");
    shows_scope(rt, alloc, &all.with_filter(info), family.leaf, under)
}

#[test]
fn one_filter_hides_from_its_own_alone(rt: HostRuntime) -> Result<(), Fail> {
    hides_from_its_own(&rt, rt.alloc(), &mut Registry::new(rt.alloc()))
}

/// An event in a span has a scope of these names, leaf first.
fn has_a_scope<S: LookupSpan>(
    rt: &impl Abort,
    alloc: Global,
    ctx: &Context<'_, S>,
    id: Id,
    named: &str,
) -> Result<(), Fail> {
    let shown = up_of_event(alloc, ctx, &event_in(id))?.ok_or("no scope")?;
    assert!(rt; shown.as_str() == named);
    Ok(())
}

/// Under the filter an event in the leaf has a scope, and one in the child has none.
fn scopes_of_events<S: LookupSpan>(
    rt: &impl Abort,
    alloc: Global,
    filtered: &Context<'_, S>,
    family: Family,
) -> Result<(), Fail> {
    has_a_scope(rt, alloc, filtered, family.leaf, "leaf root ")?;
    let of_child = up_of_event(alloc, filtered, &event_in(family.child))?;
    assert!(rt; of_child.is_none());
    Ok(())
}

/// A registry hides the child from events under its filter.
fn hides_from_events(rt: &impl Abort, alloc: Global, registry: &mut Registry) -> Result<(), Fail> {
    let (info, family) = hide_child(registry)?;
    let filtered = Context::new(registry, LANE).with_filter(info);
    scopes_of_events(rt, alloc, &filtered, family)
}

#[test]
fn an_event_in_a_hidden_span_has_no_scope(rt: HostRuntime) -> Result<(), Fail> {
    hides_from_events(&rt, rt.alloc(), &mut Registry::new(rt.alloc()))
}

/// What a context shows: the span of an event in the child, the leaf's parent, the child's
/// metadata, and whether the child is there.
fn shown_of<S: LookupSpan>(
    ctx: &Context<'_, S>,
    family: Family,
) -> (Option<&'static str>, Option<&'static str>, bool, bool) {
    let child = family.child;
    (
        span_of(ctx, &event_in(child)),
        parent_of(ctx, family.leaf),
        ctx.metadata(child).is_some(),
        ctx.exists(child),
    )
}

/// Without the filter all is shown, and under it nothing of the child but that it is there.
fn shows_or_hides<S: LookupSpan>(
    rt: &impl Abort,
    all: &Context<'_, S>,
    filtered: &Context<'_, S>,
    family: Family,
) {
    let shown = (Some("child"), Some("child"), true, true);
    assert!(rt; shown_of(all, family) == shown);
    let hidden = (None, Some("root"), false, true);
    assert!(rt; shown_of(filtered, family) == hidden);
}

/// A registry shows its child without the filter, and hides it under that.
fn hides_its_child(rt: &impl Abort, registry: &mut Registry) -> Result<(), Fail> {
    let (info, family) = hide_child(registry)?;
    let all = Context::new(registry, LANE);
    shows_or_hides(rt, &all, &all.with_filter(info), family);
    Ok(())
}

#[test]
fn what_is_hidden_is_found_by_nobody_under_the_mask(rt: HostRuntime) -> Result<(), Fail> {
    hides_its_child(&rt, &mut Registry::new(rt.alloc()))
}

/// Whether the leaf and the child are enabled for a filter.
fn enabled_of<S: LookupSpan>(ctx: &Context<'_, S>, family: Family, filter: FilterId) -> [bool; 2] {
    [
        ctx.is_enabled_for(family.leaf, filter),
        ctx.is_enabled_for(family.child, filter),
    ]
}

/// By the verdicts, and so by none of a filter without a number.
fn enables_by_verdicts<S: LookupSpan>(
    rt: &impl Abort,
    all: &Context<'_, S>,
    filtered: &Context<'_, S>,
    family: Family,
    info: FilterId,
) {
    assert!(rt; enabled_of(filtered, family, info) == [true, false]);
    assert!(rt; enabled_of(all, family, info) == [true, false]);
    let unattached = enabled_of(all, family, FilterId::unattached());
    assert!(rt; unattached == [false, false]);
}

/// A registry enables the family for a filter by what that refused.
fn enables_its_family(rt: &impl Abort, registry: &mut Registry) -> Result<(), Fail> {
    let (info, family) = hide_child(registry)?;
    let all = Context::new(registry, LANE);
    enables_by_verdicts(rt, &all, &all.with_filter(info), family, info);
    Ok(())
}

#[test]
fn what_a_filter_refused_is_not_enabled_for_it(rt: HostRuntime) -> Result<(), Fail> {
    enables_its_family(&rt, &mut Registry::new(rt.alloc()))
}

/// What a context shows of where the lane is: the span of an event there, of one in no span, and
/// the newest.
fn place_of<S: LookupSpan>(
    ctx: &Context<'_, S>,
) -> (Option<&'static str>, Option<&'static str>, Option<Id>) {
    let metadata = event_at(Level::INFO);
    (
        span_of(ctx, &Event::new(metadata, &[])),
        span_of(ctx, &Event::new_root(metadata, &[])),
        current_of(ctx),
    )
}

/// The lane is in the child, which is hidden under the filter.
fn places_of_events<S: Subscriber>(
    rt: &impl Abort,
    all: &Context<'_, S>,
    filtered: &Context<'_, S>,
    family: Family,
) {
    assert!(rt; place_of(all) == (Some("child"), None, Some(family.child)));
    assert!(rt; place_of(filtered) == (Some("root"), None, Some(family.root)));
    assert!(rt; current_of(&filtered.to_root()) == Some(family.root));
    assert!(rt; filtered.current_span().id() == Some(family.child));
}

/// The lane leaves the leaf, and so events are in the span round it that is shown.
fn puts_events_in_what_is_shown(rt: &impl Abort, registry: &mut Registry) -> Result<(), Fail> {
    let (info, family) = hide_child(registry)?;
    registry.exit(LANE, family.leaf);
    let all = Context::new(registry, LANE);
    let filtered = all.with_filter(info);
    places_of_events(rt, &all, &filtered, family);
    assert!(rt; filtered.enabled(&event_at(Level::INFO)));
    Ok(())
}

#[test]
fn an_event_is_in_the_span_that_is_shown(rt: HostRuntime) -> Result<(), Fail> {
    puts_events_in_what_is_shown(&rt, &mut Registry::new(rt.alloc()))
}

/// A context without a subscriber shows nothing of a span that is open elsewhere, and enables all.
fn shows_nothing(rt: &impl Abort, nowhere: &Context<'_, Registry>, id: Id) {
    assert!(rt; nowhere.lane() == LANE);
    let found = [
        nowhere.exists(id),
        nowhere.span(id).is_some(),
        nowhere.lookup_current().is_some(),
        nowhere.current_span().id().is_some(),
        nowhere.enabled(&event_at(Level::INFO)),
    ];
    assert!(rt; found == [false, false, false, false, true]);
}

/// A span is opened and entered that is shown nowhere else.
fn is_shown_nowhere(rt: &impl Abort, registry: &mut Registry) -> Result<(), Fail> {
    let root = open(registry, &root())?;
    enter(registry, root)?;
    shows_nothing(rt, &Context::none(), root);
    Ok(())
}

#[test]
fn without_a_subscriber_no_span_is_there(rt: HostRuntime) -> Result<(), Fail> {
    is_shown_nowhere(&rt, &mut Registry::new(rt.alloc()))
}

/// Gives a span a value under a tag, if a hook sees it.
fn write<S: LookupSpan>(
    hook: &mut ContextMut<'_, S>,
    id: Id,
    tag: Tag<u64>,
    value: u64,
) -> Result<(), Fail> {
    let extensions = hook.extensions_mut(id).ok_or("no span")?;
    extensions.insert(tag, value)?;
    Ok(())
}

/// Gives the child a value without a mask, and the leaf one under this filter, from which the child
/// is hidden.
fn write_to_what_is_seen(
    rt: &impl Abort,
    registry: &mut Registry,
    info: FilterId,
    family: Family,
) -> Result<(), Fail>
    requires { IsTrue (is_attached info) }
{
    let size = Tag::<u64>::new(0);
    let pass = Pass::new();
    let mut hook = ContextMut::new(registry, LANE, &pass);
    write(&mut hook, family.child, size, 3)?;
    assert!(rt; name_of(hook.lend().span(family.child)) == Some("child"));
    let mut filtered = hook.with_filter(info);
    assert!(rt; filtered.span(family.child).is_none());
    assert!(rt; filtered.metadata(family.child).is_none());
    assert!(rt; filtered.metadata(family.leaf).is_some());
    assert!(rt; filtered.extensions_mut(family.child).is_none());
    write(&mut filtered, family.leaf, size, 4)
}

/// The child and the leaf have the values that a hook gave them.
fn has_what_is_written(rt: &impl Abort, registry: &mut Registry) -> Result<(), Fail> {
    let (info, family) = hide_child(registry)?;
    write_to_what_is_seen(rt, registry, info, family)?;
    let size = Tag::<u64>::new(0);
    let of_child = value_of(registry, family.child, size);
    let of_leaf = value_of(registry, family.leaf, size);
    assert!(rt; (of_child, of_leaf) == (Some(3), Some(4)));
    Ok(())
}

#[test]
fn a_hook_writes_what_it_sees(rt: HostRuntime) -> Result<(), Fail> {
    has_what_is_written(&rt, &mut Registry::new(rt.alloc()))
}

/// A hook of which this filter refused the child.
fn knows_refusals(rt: &impl Abort, hook: ContextMut<'_, Registry>, info: FilterId, family: Family)
    requires { IsTrue (is_attached info) }
{
    let refused = [
        hook.refuses(info),
        hook.refuses(FilterId::of(1)),
        hook.refuses(FilterId::unattached()),
    ];
    assert!(rt; refused == [true, false, true]);
    let filtered = hook.with_filter(info);
    let enabled = [
        filtered.is_enabled_for(family.leaf, info),
        filtered.is_enabled_for(family.child, info),
    ];
    assert!(rt; enabled == [true, false]);
    assert!(rt; filtered.lane() == LANE);
    assert!(rt; name_of(filtered.lookup_current()) == Some("leaf"));
}

/// A registry has a hook that knows what the filter refused.
fn has_a_knowing_hook(rt: &impl Abort, registry: &mut Registry) -> Result<(), Fail> {
    let (info, family) = hide_child(registry)?;
    let mut pass = Pass::new();
    pass.set(info, false);
    let hook = ContextMut::new(registry, LANE, &pass);
    knows_refusals(rt, hook, info, family);
    Ok(())
}

#[test]
fn a_hook_knows_what_its_filter_refused(rt: HostRuntime) -> Result<(), Fail> {
    has_a_knowing_hook(&rt, &mut Registry::new(rt.alloc()))
}

/// While its registry is out, a hook shows nothing of it but over it.
fn goes_without(rt: &impl Abort, hook: ContextMut<'_, Registry>, leaf: Id) {
    let mut hook = hook;
    hook.event(&event_in(leaf));
    let mut root = hook.take_root();
    let found = hook.ctx().exists(leaf);
    let over = hook.over(&mut root).extensions_mut(leaf).is_some();
    hook.put_root(root);
    assert!(rt; (found, over) == (false, true));
    assert!(rt; current_of(&hook.ctx()) == Some(leaf));
}

/// A registry has a hook that goes without it.
fn is_gone_without(rt: &impl Abort, registry: &mut Registry) -> Result<(), Fail> {
    let (_, family) = hide_child(registry)?;
    let pass = Pass::new();
    let hook = ContextMut::new(registry, LANE, &pass);
    goes_without(rt, hook, family.leaf);
    Ok(())
}

#[test]
fn a_hook_may_be_without_its_registry(rt: HostRuntime) -> Result<(), Fail> {
    is_gone_without(&rt, &mut Registry::new(rt.alloc()))
}
