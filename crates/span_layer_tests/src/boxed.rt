//! Tests of boxed layers: a box adds nothing to the layer in it.
use crate::fixture::{LANE, put};
use crate::marker::new_marker;
use crate::signer::{Signer, signed};
use crate::stack::{hint_of, interest_in, is_text, number_at, open, open_and_enter, send};
use span_boxed::{BoxedLayer, DynLayer};
use span_core::{Id, Interest, Level, LevelFilter, Metadata, Pass};
use span_filters::{Filter, dynamic_filter_fn};
use span_layers::{Identity, Layer};
use span_registry::{Context, ContextMut, LookupSpan, Registry, Subscriber, Tag};
use span_stacks::{Filtered, LayerExt};
use span_targets::Setting;
use std::alloc::Global;
use std::process::Abort;
use std::test::Fail;

/// The tag of the marks.
fn tag() -> Tag<u64> {
    Tag::new(0)
}

/// Opens and enters a span, and sends two events in it: how often was it marked?
fn marks_of_two_events<S: Subscriber>(stack: &mut S) -> Result<Option<u64>, Fail>
    requires { S.usable stack.old }
{
    let id = open_and_enter(stack, Level::INFO)?;
    send(stack, Level::INFO);
    send(stack, Level::INFO);
    Ok(number_at(stack, tag(), id))
}

/// How often a layer on a stack marks the span of two events.
fn marks_on<S: Subscriber + Drop, L: Layer<S> + Drop>(
    stack: S,
    layer: L,
) -> Result<Option<u64>, Fail>
    requires layer { L.usable layer }
    requires stack { S.usable stack }
{
    let mut stack = put(stack, layer)?;
    marks_of_two_events(&mut stack)
}

/// How often a layer marks the span of two events, under a filter.
fn marks_under<L: Layer<Registry> + Drop, F: Filter<Registry> + Drop>(
    alloc: Global,
    layer: L,
    filter: F,
) -> Result<Option<u64>, Fail>
    requires layer { L.usable layer }
    requires filter { F.usable filter }
{
    marks_on(Registry::new(alloc), layer.with_filter(filter))
}

/// The same of a boxed layer, under a filter that passes spans, events, both or neither.
fn marks_of_a_box(alloc: Global, spans: bool, events: bool) -> Result<Option<u64>, Fail> {
    let object: Box<dyn DynLayer + Send> = Box::new(alloc, new_marker(tag()))?;
    let layer = BoxedLayer::new(object);
    let passes = dynamic_filter_fn(move |meta: &Metadata, _cx: &Context<'_, Registry>| {
        if meta.is_span() { spans } else { events }
    });
    marks_under(alloc, layer, passes)
}

#[test]
fn a_boxed_layer_under_a_filter_that_refuses_events(rt: HostRuntime) -> Result<(), Fail> {
    assert!(rt; marks_of_a_box(rt.alloc(), true, false)? == None);
    Ok(())
}

#[test]
fn a_boxed_layer_under_a_filter_that_refuses_spans(rt: HostRuntime) -> Result<(), Fail> {
    assert!(rt; marks_of_a_box(rt.alloc(), false, true)? == None);
    Ok(())
}

#[test]
fn a_boxed_layer_under_a_filter_that_passes_all(rt: HostRuntime) -> Result<(), Fail> {
    assert!(rt; marks_of_a_box(rt.alloc(), true, true)? == Some(2));
    Ok(())
}

/// What a stack says of itself: whether it is filtered and whether it is absent, and its hint.
fn said_by<S: Subscriber>(stack: &S) -> (bool, bool, Option<LevelFilter>)
    requires { S.usable stack.now }
{
    (stack.is_filtered(), stack.is_absent(), hint_of(stack))
}

/// A layer on a stack answers as one under INFO.
fn answers_as_under_info<S: Subscriber + Drop, L: Layer<S> + Drop>(
    rt: &impl Abort,
    stack: S,
    layer: L,
) -> Result<(), Fail>
    requires layer { L.usable layer }
    requires stack { S.usable stack }
{
    let made = put(stack, layer)?;
    assert!(rt; made.root().filters() == 1);
    assert!(rt; said_by(&made) == (true, false, Some(LevelFilter::INFO)));
    assert!(rt; interest_in(&made, Level::INFO) == Interest::Always);
    assert!(rt; interest_in(&made, Level::DEBUG) == Interest::Never);
    Ok(())
}

/// A box shows nothing of the layer in it.
fn shows_a_box(rt: &impl Abort, alloc: Global, layer: &BoxedLayer) -> Result<(), Fail> {
    is_text(
        rt,
        format!(in alloc; "{layer:?}")?.as_str(),
        "BoxedLayer { .. }",
    );
    Ok(())
}

#[test]
fn a_box_answers_as_the_layer_in_it(rt: HostRuntime) -> Result<(), Fail> {
    let inside = Filtered::new(Identity, LevelFilter::INFO);
    let object: Box<dyn DynLayer + Send> = Box::new(rt.alloc(), inside)?;
    let layer = BoxedLayer::new(object);
    shows_a_box(&rt, rt.alloc(), &layer)?;
    answers_as_under_info(&rt, Registry::new(rt.alloc()), layer)
}

/// Notifies a layer that a span has another id, the same: what do signers write of that?
fn signed_at_a_change<L: Layer<Registry>>(
    layer: &mut L,
    registry: &mut Registry,
    id: Id,
) -> Option<u64>
    requires { L.usable layer.old }
    ensures { L.usable layer.new }
{
    layer.on_id_change(id, id, &mut ContextMut::new(registry, LANE, &Pass::new()));
    number_at(registry, signed(), id)
}

/// How many filters a layer has, before it is put in use.
fn count_and_use<L: Layer<Registry>>(layer: &mut L) -> u32
    requires { L.usable layer.old }
    ensures { L.usable layer.new }
{
    let count = layer.filter_count();
    layer.on_register_dispatch();
    count
}

/// What signers in a layer write of a changed id, before it is put in use and then.
fn signs_once_in_use<L: Layer<Registry>>(
    rt: &impl Abort,
    layer: &mut L,
    registry: &mut Registry,
) -> Result<(), Fail>
    requires { L.usable layer.old }
{
    let id = open(registry, Level::INFO, None)?;
    assert!(rt; signed_at_a_change(layer, registry, id) == None);
    assert!(rt; count_and_use(layer) == 0);
    assert!(rt; signed_at_a_change(layer, registry, id) == Some(1));
    Ok(())
}

#[test]
fn a_box_hands_everything_on(rt: HostRuntime) -> Result<(), Fail> {
    let object: Box<dyn DynLayer + Send> = Box::new(rt.alloc(), Signer::new(1))?;
    let mut layer = BoxedLayer::new(object);
    signs_once_in_use(&rt, &mut layer, &mut Registry::new(rt.alloc()))
}

/// Sets the level of the filter with number 1 to debug, and then that of the filter with number 0:
/// is it taken, and which hint has the layer then?
fn hints_by_level<L: Layer<Registry>>(layer: &mut L) -> [(bool, Option<LevelFilter>); 2]
    requires { L.usable layer.old }
    ensures { L.usable layer.new }
{
    let other = layer.reload(1, Setting::Level(LevelFilter::DEBUG));
    let before = layer.max_level_hint();
    let own = layer.reload(0, Setting::Level(LevelFilter::DEBUG));
    [(other, before), (own, layer.max_level_hint())]
}

/// A layer under INFO has one filter, which gets the number 0 and takes another level.
fn takes_a_level<L: Layer<Registry>>(rt: &impl Abort, layer: &mut L, registry: &mut Registry)
    requires { L.usable layer.old }
{
    layer.on_layer(registry);
    let [other, own] = hints_by_level(layer);
    assert!(rt; other == (false, Some(LevelFilter::INFO)));
    assert!(rt; own == (true, Some(LevelFilter::DEBUG)));
}

#[test]
fn a_box_passes_a_level_on(rt: HostRuntime) -> Result<(), Fail> {
    let inside = Filtered::new(Identity, LevelFilter::INFO);
    let object: Box<dyn DynLayer + Send> = Box::new(rt.alloc(), inside)?;
    let mut layer = BoxedLayer::new(object);
    takes_a_level(&rt, &mut layer, &mut Registry::new(rt.alloc()));
    Ok(())
}
