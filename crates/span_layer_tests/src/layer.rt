//! Tests of stacks, as a program drives them, with layers that keep what they are notified of.
ghost use Rattle.std.specs.Prelude.{◌≡◌, false};
ghost use Rattle.span_layers.specs.Acts.{LeafActs};
ghost use Rattle.span_layers.specs.laws.Leaf.{is_leaf, any_laws};
ghost use Rattle.span_layers.specs.laws.Path.{leaf_path_laws};
ghost use Rattle.span_layers.specs.Layer.{HearsBy, AnySteps};
ghost use Rattle.span_layers.specs.laws.Reload.{leaf_reloads};
ghost use Rattle.span_layers.specs.Observe.{open_answers};
ghost use Rattle.span_registry.specs.Form.{Leaf};
ghost use Rattle.span_registry.specs.Reload.{unreloaded};

use crate::fixture::{LANE, metadata_of, put};
use crate::marker::new_marker;
use crate::stack::{notify, number_at, open, put_under, send_in};
use crate::watcher::{Seen, Watcher, new_watcher};
use span_core::{
    Event, Id, Interest, Kind, Level, LevelFilter, Metadata, Pass, Record, TraceError,
};
use span_layers::{Layer, Observer};
use span_registry::{Context, ContextMut, LookupSpan, Notice, Registry, Subscriber, Tag};
use span_stacks::{Filtered, LayerExt, Layered, SubscriberExt, Unattached};
use span_targets::Setting;
use std::alloc::{AllocError, Global};
use std::process::Abort;
use std::test::Fail;

/// Sends an event at each new span. Its hooks do more than write extensions, and its form says so.
#[derive(Drop)]
struct Echo;

impl<S: Subscriber> Layer<S> for Echo {
    ghost has_form = { λ x f. f ≡ Leaf false open_answers };

    ghost stepped = { AnySteps };

    ghost hears = { HearsBy AnySteps };

    ghost acts_at = { LeafActs };

    ghost reloaded = { unreloaded };

    ghost registered = { λ x y. y ≡ x };

    ghost attached = { λ x y. y ≡ x };

    ghost laws = { any_laws (Leaf false open_answers) (λ x y. y ≡ x) tt };

    ghost paths = { leaf_path_laws (λ x f h. is_leaf h) };

    ghost reloads = { leaf_reloads (any_laws (Leaf false open_answers) (λ x y. y ≡ x) tt) };

    fn on_register_dispatch(&mut self) {}

    fn on_layer(&mut self, _subscriber: &mut S) {}

    fn register_callsite(&self, _meta: &Metadata, _pass: &mut Pass) -> Interest {
        Interest::Always
    }

    fn enabled(&self, _meta: &Metadata, _ctx: &Context<'_, S>, _pass: &mut Pass) -> bool {
        true
    }

    fn event_enabled(&self, _event: &Event<'_>, _ctx: &Context<'_, S>, _pass: &mut Pass) -> bool {
        true
    }

    fn max_level_hint(&self) -> Option<LevelFilter> {
        None
    }

    fn filter_count(&self) -> u32 {
        0
    }

    fn is_filtered(&self) -> bool {
        false
    }

    fn is_absent(&self) -> bool {
        false
    }

    fn notify(&mut self, notice: Notice<'_, '_>, ctx: &mut ContextMut<'_, S>) {
        if let Notice::NewSpan(_, id) = notice {
            let event = Event::new_child_of(id, metadata_of(1, Level::INFO, Kind::EVENT), &[]);
            ctx.event(&event);
        }
    }

    fn reload(&mut self, _number: u32, _setting: Setting) -> bool {
        false // No filter is in it.
    }
}

/// What has a watcher to look at: where it has several, the outermost.
trait AsWatcher {
    fn as_watcher(&self) -> &Observer<Watcher>;
}

impl AsWatcher for Observer<Watcher> {
    fn as_watcher(&self) -> &Observer<Watcher> {
        self
    }
}

impl<L: AsWatcher, F> AsWatcher for Filtered<L, F> {
    fn as_watcher(&self) -> &Observer<Watcher> {
        self.layer().as_watcher()
    }
}

impl<L: AsWatcher, S> AsWatcher for Layered<L, S> {
    fn as_watcher(&self) -> &Observer<Watcher> {
        self.outer().as_watcher()
    }
}

/// What has two watchers to look at.
trait AsWatchers {
    fn as_outer(&self) -> &Observer<Watcher>;

    fn as_inner(&self) -> &Observer<Watcher>;
}

impl<L: AsWatcher, S: AsWatcher> AsWatchers for Layered<L, S> {
    fn as_outer(&self) -> &Observer<Watcher> {
        self.outer().as_watcher()
    }

    fn as_inner(&self) -> &Observer<Watcher> {
        self.inner().as_watcher()
    }
}

/// A watcher saw this.
fn saw(rt: &impl Abort, watcher: &Observer<Watcher>, seen: &[Seen]) {
    assert!(rt; watcher.observer().seen.as_slice() == seen);
}

/// Three spans, each in the one before, and an event in the second, which alone is of level debug.
fn three_spans<S: Subscriber>(rt: &impl Abort, stack: &mut S) -> Result<[Id; 3], Fail>
    requires { S.usable stack.old }
    ensures { S.usable stack.new }
{
    let root = open(stack, Level::INFO, None)?;
    let child = open(stack, Level::DEBUG, Some(root))?;
    let leaf = open(stack, Level::INFO, Some(child))?;
    assert!(rt; send_in(stack, Level::INFO, child));
    Ok([root, child, leaf])
}

/// A watcher saw the first and the last of three spans, each in the one before, and an event.
fn saw_two_spans(rt: &impl Abort, watcher: &Observer<Watcher>, root: Id, leaf: Id) {
    let two = [
        Seen::NewSpan(root),
        Seen::InScope(root),
        Seen::NewSpan(leaf),
        Seen::InScope(leaf),
        Seen::InScope(root),
        Seen::Event,
    ];
    saw(rt, watcher, &two);
}

/// A watcher saw three spans, each in the one before, and an event in the second.
fn saw_three_spans(rt: &impl Abort, watcher: &Observer<Watcher>, [root, child, leaf]: [Id; 3]) {
    let three = [
        Seen::NewSpan(root),
        Seen::InScope(root),
        Seen::NewSpan(child),
        Seen::InScope(child),
        Seen::InScope(root),
        Seen::NewSpan(leaf),
        Seen::InScope(leaf),
        Seen::InScope(child),
        Seen::InScope(root),
        Seen::Event,
        Seen::InScope(child),
        Seen::InScope(root),
    ];
    saw(rt, watcher, &three);
}

/// The outer watcher, under INFO, sees nothing of the second of three spans, and the open one sees
/// all.
fn hides_from_one_alone<S: Subscriber + AsWatchers>(
    rt: &impl Abort,
    stack: &mut S,
) -> Result<(), Fail>
    requires { S.usable stack.old }
{
    let spans = three_spans(rt, stack)?;
    let [root, _, leaf] = spans;
    saw_two_spans(rt, stack.as_outer(), root, leaf);
    saw_three_spans(rt, stack.as_inner(), spans);
    Ok(())
}

/// A span of level info and one of level debug, and all else that comes of the second.
fn shown_and_hidden<S: Subscriber>(stack: &mut S) -> Result<(Id, Id), Fail>
    requires { S.usable stack.old }
    ensures { S.usable stack.new }
{
    let shown = open(stack, Level::INFO, None)?;
    let hidden = open(stack, Level::DEBUG, None)?;
    notify(stack, hidden, shown)?;
    Ok((shown, hidden))
}

/// A watcher saw a span, and all else that came of it.
fn saw_a_span(rt: &impl Abort, watcher: &Observer<Watcher>, shown: Id) {
    let one = [
        Seen::NewSpan(shown),
        Seen::InScope(shown),
        Seen::Record(shown),
        Seen::Follows(shown, shown),
    ];
    saw(rt, watcher, &one);
}

/// A watcher saw two spans, and all else that came of them.
fn saw_both(rt: &impl Abort, watcher: &Observer<Watcher>, shown: Id, hidden: Id) {
    let both = [
        Seen::NewSpan(shown),
        Seen::InScope(shown),
        Seen::NewSpan(hidden),
        Seen::InScope(hidden),
        Seen::Enter(hidden),
        Seen::Record(hidden),
        Seen::Follows(shown, hidden),
        Seen::Exit(hidden),
        Seen::Record(shown),
        Seen::Follows(shown, shown),
        Seen::Close(hidden),
    ];
    saw(rt, watcher, &both);
}

/// The outer watcher, under INFO, sees nothing of a span of level debug, and the open one sees all.
fn see_all_but_the_hidden<S: Subscriber + AsWatchers>(
    rt: &impl Abort,
    stack: &mut S,
) -> Result<(), Fail>
    requires { S.usable stack.old }
{
    let (shown, hidden) = shown_and_hidden(stack)?;
    saw_a_span(rt, stack.as_outer(), shown);
    saw_both(rt, stack.as_inner(), shown, hidden);
    Ok(())
}

/// Which spans come to two watchers, the outer one under INFO and the inner one open.
#[derive(Clone, Copy)]
enum Spans {
    /// Three, each in the one before, of which the second is of level debug.
    Nested,
    /// One of level info and one of level debug, and all else that comes of the second.
    Apart,
}

/// The outer watcher sees nothing of the span of level debug, and the open one sees all.
fn hides_from_one<S: Subscriber + AsWatchers>(
    rt: &impl Abort,
    stack: &mut S,
    spans: Spans,
) -> Result<(), Fail>
    requires { S.usable stack.old }
{
    match spans {
        Spans::Nested => hides_from_one_alone(rt, stack),
        Spans::Apart => see_all_but_the_hidden(rt, stack),
    }
}

/// Puts the outer watcher's layer on a stack with an open one.
fn hides_under<S: Subscriber + Drop + AsWatcher, L: Layer<S> + Drop + AsWatcher>(
    rt: &impl Abort,
    stack: S,
    layer: L,
    spans: Spans,
) -> Result<(), Fail>
    requires stack { S.usable stack }
    requires layer { L.usable layer }
{
    hides_from_one(rt, &mut put(stack, layer)?, spans)
}

/// Puts an open watcher on a stack, and one under INFO outside it.
fn hides_outside<S: Subscriber + Drop, L: Layer<S> + Drop + AsWatcher>(
    rt: &impl Abort,
    alloc: Global,
    stack: S,
    inner: L,
    spans: Spans,
) -> Result<(), Fail>
    requires stack { S.usable stack }
    requires layer { L.usable inner }
{
    let under_info = new_watcher(alloc).with_filter(LevelFilter::INFO);
    hides_under(rt, put(stack, inner)?, under_info, spans)
}

#[test]
fn one_layers_filter_hides_nothing_from_another(rt: HostRuntime) -> Result<(), Fail> {
    let open = new_watcher(rt.alloc());
    hides_outside(
        &rt,
        rt.alloc(),
        Registry::new(rt.alloc()),
        open,
        Spans::Nested,
    )
}

#[test]
fn a_hidden_span_is_hidden_from_its_layer_alone(rt: HostRuntime) -> Result<(), Fail> {
    let open = new_watcher(rt.alloc());
    hides_outside(
        &rt,
        rt.alloc(),
        Registry::new(rt.alloc()),
        open,
        Spans::Apart,
    )
}

/// Puts a stack in use, and notifies it of a new span and of its close.
fn open_and_close<S: Subscriber>(stack: &mut S) -> Result<Id, Fail>
    requires { S.usable stack.old }
    ensures { S.usable stack.new }
{
    stack.on_register_dispatch();
    let id = open(stack, Level::TRACE, None)?;
    stack.close_hooks(LANE, id);
    Ok(id)
}

/// What a watcher saw last.
fn last_seen(watcher: &Observer<Watcher>) -> Option<Seen> {
    watcher.observer().seen.last().copied()
}

/// What each of three watchers saw last.
trait LastSeen {
    fn last_seen(&self) -> [Option<Seen>; 3];
}

impl<O: AsWatcher, L: AsWatchers, S> LastSeen for Layered<O, Layered<L, S>> {
    fn last_seen(&self) -> [Option<Seen>; 3] {
        let pair = self.inner().outer();
        [
            last_seen(self.as_watcher()),
            last_seen(pair.as_outer()),
            last_seen(pair.as_inner()),
        ]
    }
}

/// Each of three watchers sees last that a span is closing.
fn all_see_a_close<S: Subscriber + LastSeen>(rt: &impl Abort, stack: &mut S) -> Result<(), Fail>
    requires { S.usable stack.old }
{
    let id = open_and_close(stack)?;
    assert!(rt; stack.last_seen() == [Some(Seen::Close(id)); 3]);
    Ok(())
}

/// Puts a watcher's layer outside two that are one layer of a stack: all three see a span close.
fn all_see_under<
    S: Subscriber + Drop,
    L: Layer<S> + Drop + AsWatchers,
    O: Layer<Layered<L, S>> + Drop + AsWatcher,
>(rt: &impl Abort, two: Layered<L, S>, outer: O) -> Result<(), Fail>
    requires two { ⟦<Layered<L, S> as Subscriber>⟧.usable two }
    requires outer { O.usable outer }
{
    all_see_a_close(rt, &mut put_under(outer, two)?)
}

/// Puts two watchers on a stack as one layer, and one outside them: all three see a span close.
fn all_see<S: Subscriber + Drop, L: Layer<S> + Drop + AsWatcher>(
    rt: &impl Abort,
    alloc: Global,
    stack: S,
    pair: (L, L),
) -> Result<(), Fail>
    requires stack { S.usable stack }
    requires inner { L.usable pair.0 }
    requires outer { L.usable pair.1 }
{
    let (inner, outer) = pair;
    all_see_under(rt, put(stack, inner.and_then(outer))?, new_watcher(alloc))
}

#[test]
fn every_layer_sees_a_closing_span(rt: HostRuntime) -> Result<(), Fail> {
    let pair = (new_watcher(rt.alloc()), new_watcher(rt.alloc()));
    all_see(&rt, rt.alloc(), Registry::new(rt.alloc()), pair)
}

/// A registry that handed out all numbers of filters.
fn without_numbers(alloc: Global) -> Result<Registry, TraceError> {
    let mut registry = Registry::new(alloc);
    for _ in 0..128 {
        registry.register_filter()?;
    }
    Ok(registry)
}

/// A layer that a stack refuses, with that stack.
fn refused<S: Subscriber + Drop, L: Layer<S> + Drop>(
    stack: S,
    layer: L,
) -> Result<Unattached<L, S>, Fail>
    requires layer { L.usable layer }
    requires stack { S.usable stack }
{
    match stack.with(layer) {
        Ok(_) => Err(Fail::from("a 129th filter got a number")),
        Err(back) => Ok(back),
    }
}

/// A layer under INFO was refused, since all numbers were handed out.
fn is_the_129th<L>(rt: &impl Abort, back: &Unattached<Filtered<L, LevelFilter>, Registry>) {
    assert!(rt;
        (back.error, back.subscriber.filters(), *back.layer.filter())
            == (TraceError::TooManyFilters, 128, LevelFilter::INFO)
    );
}

/// A refusal is written so; of neither part is anything shown.
fn is_written<L, S>(rt: &impl Abort, alloc: Global, back: &Unattached<L, S>) -> Result<(), Fail> {
    let text = format!(in alloc; "{back} ({back:?})")?;
    assert!(rt;
        text.as_str() == "the layer wasn't put on: there are too many filters (Unattached { .. })"
    );
    Ok(())
}

/// How many filters a registry has under a layer.
fn filters_under<L: Layer<Registry> + Drop>(registry: Registry, layer: L) -> Result<u32, TraceError>
    requires { L.usable layer }
{
    let stack = put(registry, layer)?;
    Ok(stack.inner().filters())
}

/// A full registry refuses the first of two layers under a level, and takes the second without: it
/// needs no number.
fn takes_no_filter<L: Layer<Registry> + Drop>(
    rt: &impl Abort,
    alloc: Global,
    full: Registry,
    layers: (L, L),
) -> Result<(), Fail>
    requires first { L.usable layers.0 }
    requires second { L.usable layers.1 }
{
    let (first, second) = layers;
    let back = refused(full, first.with_filter(LevelFilter::INFO))?;
    is_the_129th(rt, &back);
    is_written(rt, alloc, &back)?;
    let count = filters_under(back.subscriber, second)?;
    assert!(rt; count == 128);
    Ok(())
}

#[test]
fn a_registry_has_room_for_128_filters(rt: HostRuntime) -> Result<(), Fail> {
    let full = without_numbers(rt.alloc())?;
    takes_no_filter(
        &rt,
        rt.alloc(),
        full,
        (new_watcher(rt.alloc()), new_watcher(rt.alloc())),
    )
}

/// Puts a layer on a stack. Both are let go of where the stack refuses it.
fn put_or_drop<S: Subscriber + Drop, L: Layer<S> + Drop>(
    stack: S,
    layer: L,
) -> Result<Layered<L, S>, TraceError>
    requires layer { L.usable layer }
    requires stack { S.usable stack }
{
    Ok(stack.with(layer)?)
}

/// The same in a program that goes by `anyhow`.
fn put_or_say<S: Subscriber + Drop, L: Layer<S> + Drop>(
    stack: S,
    layer: L,
) -> anyhow::Result<Layered<L, S>>
    requires layer { L.usable layer }
    requires stack { S.usable stack }
{
    Ok(stack.with(layer)?)
}

/// Why a full registry refuses a layer under a level.
fn refusal<L: Layer<Registry> + Drop>(full: Registry, layer: L) -> Option<TraceError>
    requires { L.usable layer }
{
    put_or_drop(full, layer.with_filter(LevelFilter::INFO)).err()
}

/// What `anyhow` says where a full registry refuses a layer under a level.
fn said<L: Layer<Registry> + Drop>(full: Registry, layer: L) -> Option<anyhow::Error>
    requires { L.usable layer }
{
    put_or_say(full, layer.with_filter(LevelFilter::INFO)).err()
}

#[test]
fn a_refused_layer_is_said(rt: HostRuntime) -> Result<(), Fail> {
    let full = without_numbers(rt.alloc())?;
    let Some(error) = said(full, new_watcher(rt.alloc())) else {
        return Err(Fail::from("a 129th filter got a number"));
    };
    let text = format!(in rt.alloc(); "{error}")?;
    assert!(rt; text.as_str() == "the layer wasn't put on: there are too many filters");
    Ok(())
}

#[test]
fn a_refused_layer_becomes_its_reason(rt: HostRuntime) -> Result<(), Fail> {
    let full = without_numbers(rt.alloc())?;
    let reason = refusal(full, new_watcher(rt.alloc()));
    assert!(rt; reason == Some(TraceError::TooManyFilters));
    Ok(())
}

/// A layer under a filter without a number is asked of an event, and is then notified of it: it
/// lets it by, and doesn't hear of it.
fn lets_by_and_keeps<S: Subscriber, L: Layer<S> + AsWatcher>(
    rt: &impl Abort,
    layer: &mut L,
    stack: &mut S,
)
    requires layer { L.usable layer.old }
    requires stack { S.usable stack.old }
{
    let metadata = metadata_of(1, Level::ERROR, Kind::EVENT);
    let event = Event::new(metadata, &[]);
    let mut pass = Pass::new();
    assert!(rt; layer.enabled(&metadata, &Context::new(stack, LANE), &mut pass));
    assert!(rt; layer.event_enabled(&event, &Context::new(stack, LANE), &mut pass));
    layer.on_event(&event, &mut ContextMut::new(stack, LANE, &pass));
    saw(rt, layer.as_watcher(), &[]);
}

#[test]
fn an_unattached_filter_keeps_everything_from_its_layer(rt: HostRuntime) -> Result<(), Fail> {
    let mut layer = Filtered::new(new_watcher(rt.alloc()), LevelFilter::TRACE);
    lets_by_and_keeps(&rt, &mut layer, &mut Registry::new(rt.alloc()));
    Ok(())
}

/// Opens a span of level info, and sends an event of each of three levels in it.
fn three_events<S: Subscriber>(rt: &impl Abort, stack: &mut S) -> Result<Id, Fail>
    requires { S.usable stack.old }
    ensures { S.usable stack.new }
{
    let id = open(stack, Level::INFO, None)?;
    for level in [Level::TRACE, Level::DEBUG, Level::INFO] {
        assert!(rt; send_in(stack, level, id));
    }
    Ok(id)
}

/// A watcher saw one span, and one event in it.
fn saw_one_event(rt: &impl Abort, watcher: &Observer<Watcher>, id: Id) {
    let once = [
        Seen::NewSpan(id),
        Seen::InScope(id),
        Seen::Event,
        Seen::InScope(id),
    ];
    saw(rt, watcher, &once);
}

/// A watcher under three levels sees what all of them pass.
fn sees_what_three_pass<S: Subscriber + AsWatcher>(
    rt: &impl Abort,
    stack: &mut S,
) -> Result<(), Fail>
    requires { S.usable stack.old }
{
    let id = three_events(rt, stack)?;
    assert!(rt; stack.root().filters() == 3);
    saw_one_event(rt, stack.as_watcher(), id);
    Ok(())
}

/// Puts a watcher under three levels on a stack.
fn sees_on<S: Subscriber + Drop, L: Layer<S> + Drop + AsWatcher>(
    rt: &impl Abort,
    stack: S,
    layer: L,
) -> Result<(), Fail>
    requires stack { S.usable stack }
    requires layer { L.usable layer }
{
    sees_what_three_pass(rt, &mut put(stack, layer)?)
}

/// Puts a watcher under one level under two more.
fn sees_under_three<S: Subscriber + Drop, L: Layer<S> + Drop + AsWatcher>(
    rt: &impl Abort,
    stack: S,
    layer: L,
) -> Result<(), Fail>
    requires stack { S.usable stack }
    requires layer { L.usable layer }
{
    let nested = layer
        .with_filter(LevelFilter::INFO)
        .with_filter(LevelFilter::DEBUG);
    sees_on(rt, stack, nested)
}

#[test]
fn nested_filters_must_all_pass(rt: HostRuntime) -> Result<(), Fail> {
    let under_trace = new_watcher(rt.alloc()).with_filter(LevelFilter::TRACE);
    sees_under_three(&rt, Registry::new(rt.alloc()), under_trace)
}

/// Of three events in a span two are marked under the first tag, and one under the second.
fn marks_two_and_one<S: Subscriber>(
    rt: &impl Abort,
    stack: &mut S,
    tags: [Tag<u64>; 2],
) -> Result<(), Fail>
    requires { S.usable stack.old }
    ensures { S.usable stack.new }
{
    let id = three_events(rt, stack)?;
    let [first, second] = tags;
    let marks = [number_at(stack, first, id), number_at(stack, second, id)];
    assert!(rt; marks == [Some(2), Some(1)]);
    Ok(())
}

/// Puts a layer on a stack, where it marks two of three events under the first tag, and one under
/// the second.
fn marks_on<S: Subscriber + Drop, L: Layer<S> + Drop>(
    rt: &impl Abort,
    stack: S,
    layer: L,
    tags: [Tag<u64>; 2],
) -> Result<(), Fail>
    requires stack { S.usable stack }
    requires layer { L.usable layer }
{
    marks_two_and_one(rt, &mut put(stack, layer)?, tags)
}

/// Puts two layers as one on a stack: the inner marks under the second tag, and the outer under the
/// first.
fn marks_in_a_pair<S: Subscriber + Drop, L: Layer<S> + Drop>(
    rt: &impl Abort,
    stack: S,
    pair: (L, L),
    tags: [Tag<u64>; 2],
) -> Result<(), Fail>
    requires stack { S.usable stack }
    requires inner { L.usable pair.0 }
    requires outer { L.usable pair.1 }
{
    let (inner, outer) = pair;
    marks_on(rt, stack, inner.and_then(outer), tags)
}

#[test]
fn hooks_write_extensions_under_their_filters(rt: HostRuntime) -> Result<(), Fail> {
    let (all, few) = (Tag::new(0), Tag::new(1));
    let inner = new_marker(few).with_filter(LevelFilter::INFO);
    let outer = new_marker(all).with_filter(LevelFilter::DEBUG);
    marks_in_a_pair(&rt, Registry::new(rt.alloc()), (inner, outer), [all, few])
}

/// The watcher that a layer stands on.
trait WatcherBelow {
    fn watcher_below(&self) -> &Observer<Watcher>;
}

impl<L, S: AsWatcher> WatcherBelow for Layered<L, S> {
    fn watcher_below(&self) -> &Observer<Watcher> {
        self.inner().as_watcher()
    }
}

/// A new span sends an event, which the watcher sees.
fn sees_the_echo<S: Subscriber + WatcherBelow>(rt: &impl Abort, stack: &mut S) -> Result<(), Fail>
    requires { S.usable stack.old }
{
    let id = open(stack, Level::INFO, None)?;
    saw_one_event(rt, stack.watcher_below(), id);
    Ok(())
}

/// Puts what sends an event at each new span on a stack, whose watcher sees that.
fn sees_under<S: Subscriber + Drop + AsWatcher, L: Layer<S> + Drop>(
    rt: &impl Abort,
    stack: S,
    echo: L,
) -> Result<(), Fail>
    requires stack { S.usable stack }
    requires layer { L.usable echo }
{
    sees_the_echo(rt, &mut put(stack, echo)?)
}

/// Puts a watcher on a stack, and an echo outside it.
fn sees_below<S: Subscriber + Drop, L: Layer<S> + Drop + AsWatcher>(
    rt: &impl Abort,
    stack: S,
    watcher: L,
) -> Result<(), Fail>
    requires stack { S.usable stack }
    requires layer { L.usable watcher }
{
    sees_under(rt, put(stack, watcher)?, Echo)
}

#[test]
fn a_hook_may_send_an_event(rt: HostRuntime) -> Result<(), Fail> {
    sees_below(&rt, Registry::new(rt.alloc()), new_watcher(rt.alloc()))
}

/// A watcher that saw an event.
fn watcher_of_an_event(alloc: Global) -> Result<Observer<Watcher>, AllocError> {
    let mut watcher = new_watcher(alloc);
    watcher.observer_mut().seen.push(Seen::Event)?;
    Ok(watcher)
}

/// What is taken out of an observer on a registry without filters has seen an event.
fn gathered_an_event(rt: &impl Abort, registry: &Registry, watcher: &Watcher) {
    assert!(rt; (registry.filters(), watcher.seen.as_slice()) == (0, [Seen::Event].as_slice()));
}

#[test]
fn what_an_observer_gathered_is_taken_out(rt: HostRuntime) -> Result<(), Fail> {
    let watcher = watcher_of_an_event(rt.alloc())?;
    let (layer, registry) = put(Registry::new(rt.alloc()), watcher)?.into_parts();
    gathered_an_event(&rt, &registry, &layer.into_observer());
    Ok(())
}
