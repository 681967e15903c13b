//! Tests of what other layers' filters make no difference to, and of what they do where a filter
//! reads extensions.
ghost use Rattle.span_dispatch.specs.Serve.{stack_of};
ghost use Rattle.span_dispatch_tests.specs.Marked.{in_marked, is_marked};
ghost use Rattle.span_registry.specs.Context.{view_in};
ghost use Rattle.std.specs.Prelude.{◌≡◌, ⊤};

use crate::requests::{
    AsLayer, AsLayers, Keeping, event, keeps, made, new_span, put_in_use, serve, within,
};
use span_core::{Id, Level, LevelFilter, Metadata};
use span_dispatch::{Dispatch, Recorded, Recorder, Request, Which, WhichParent};
use span_filters::{FunctionIn, dynamic_filter_fn};
use span_layer_tests::fixture::{LANE, put};
use span_layers::{Layer, Observe, Observer};
use span_registry::{
    Context, ContextMut, ExtensionValue, LookupSpan, Notice, Registry, Subscriber, Tag,
};
use span_stacks::LayerExt;
use std::alloc::Global;
use std::process::Abort;
use std::test::Fail;

/// Three spans at info, debug, info, each in the one before, all entered; an event of each level
/// where the lane is; then all are left and dropped.
fn requests() -> [Request<'static>; 17] {
    [
        new_span(0, Level::INFO, WhichParent::Root),
        new_span(1, Level::DEBUG, within(0)),
        new_span(2, Level::INFO, within(1)),
        Request::Enter(LANE, Which::Made(0)),
        Request::Enter(LANE, Which::Made(1)),
        Request::Enter(LANE, Which::Made(2)),
        event(5, Level::ERROR),
        event(6, Level::WARN),
        event(7, Level::INFO),
        event(8, Level::DEBUG),
        event(9, Level::TRACE),
        Request::Exit(LANE, Which::Made(2)),
        Request::Exit(LANE, Which::Made(1)),
        Request::Exit(LANE, Which::Made(0)),
        Request::Drop(LANE, Which::Made(2)),
        Request::Drop(LANE, Which::Made(1)),
        Request::Drop(LANE, Which::Made(0)),
    ]
}

/// What A is notified of: what INFO passes.
fn due_to_a(p: Id, r: Id) -> [Recorded; 11] {
    [
        Recorded::New(LANE, p),
        Recorded::New(LANE, r),
        Recorded::Enter(LANE, p),
        Recorded::Enter(LANE, r),
        Recorded::Event(LANE, 5),
        Recorded::Event(LANE, 6),
        Recorded::Event(LANE, 7),
        Recorded::Exit(LANE, r),
        Recorded::Exit(LANE, p),
        Recorded::Close(LANE, r),
        Recorded::Close(LANE, p),
    ]
}

/// What B is notified of: everything.
fn due_to_b(p: Id, q: Id, r: Id) -> [Recorded; 17] {
    [
        Recorded::New(LANE, p),
        Recorded::New(LANE, q),
        Recorded::New(LANE, r),
        Recorded::Enter(LANE, p),
        Recorded::Enter(LANE, q),
        Recorded::Enter(LANE, r),
        Recorded::Event(LANE, 5),
        Recorded::Event(LANE, 6),
        Recorded::Event(LANE, 7),
        Recorded::Event(LANE, 8),
        Recorded::Event(LANE, 9),
        Recorded::Exit(LANE, r),
        Recorded::Exit(LANE, q),
        Recorded::Exit(LANE, p),
        Recorded::Close(LANE, r),
        Recorded::Close(LANE, q),
        Recorded::Close(LANE, p),
    ]
}

/// Serves the list. Answers the three spans.
fn serve_requests<S: Subscriber>(alloc: Global, dispatch: &mut Dispatch<S>) -> Result<[Id; 3], Fail>
    requires { S.usable (stack_of dispatch.old) }
{
    let answers = serve(alloc, dispatch, &requests())?;
    Ok([made(&answers, 0)?, made(&answers, 1)?, made(&answers, 2)?])
}

/// Serves the list by a stack of A and B, C outside them, and looks at what A and B were notified
/// of.
fn tells_a_and_b<S: Subscriber + Drop + AsLayers<Recorder>, L: Layer<S> + Drop>(
    rt: &impl Abort,
    alloc: Global,
    stack: S,
    c: L,
) -> Result<(), Fail>
    requires stack { S.usable stack }
    requires layer { L.usable c }
{
    let mut dispatch = put_in_use(alloc, stack, c, Keeping::Answers)?;
    let [p, q, r] = serve_requests(alloc, &mut dispatch)?;
    let a_and_b = dispatch.stack().inner();
    keeps(rt, a_and_b.as_outer(), &due_to_a(p, r));
    keeps(rt, a_and_b.as_inner(), &due_to_b(p, q, r));
    Ok(())
}

/// Puts A on a stack of B, and outside it C, a recorder under this level: A and B are told the same
/// of the list.
fn tells_below_c<S: Subscriber + Drop + AsLayer<Recorder>, L: Layer<S> + Drop + AsLayer<Recorder>>(
    rt: &impl Abort,
    alloc: Global,
    stack: S,
    a: L,
    outermost: LevelFilter,
) -> Result<(), Fail>
    requires stack { S.usable stack }
    requires layer { L.usable a }
{
    let c = Recorder::new(alloc).with_filter(outermost);
    tells_a_and_b(rt, alloc, put(stack, a)?, c)
}

/// Puts A, under INFO, on a stack of B, and C outside it.
fn tells_beside<S: Subscriber + Drop + AsLayer<Recorder>>(
    rt: &impl Abort,
    alloc: Global,
    stack: S,
    outermost: LevelFilter,
) -> Result<(), Fail>
    requires { S.usable stack }
{
    let a = Recorder::new(alloc).with_filter(LevelFilter::INFO);
    tells_below_c(rt, alloc, stack, a, outermost)
}

/// Puts B on a stack, and A and C outside it.
fn tells_with_b<S: Subscriber + Drop, L: Layer<S> + Drop + AsLayer<Recorder>>(
    rt: &impl Abort,
    alloc: Global,
    stack: S,
    b: L,
    outermost: LevelFilter,
) -> Result<(), Fail>
    requires stack { S.usable stack }
    requires layer { L.usable b }
{
    tells_beside(rt, alloc, put(stack, b)?, outermost)
}

#[test]
fn another_layers_filter_makes_no_difference(rt: HostRuntime) -> Result<(), Fail> {
    let b = Recorder::new(rt.alloc());
    tells_with_b(
        &rt,
        rt.alloc(),
        Registry::new(rt.alloc()),
        b,
        LevelFilter::TRACE,
    )?;
    let b = Recorder::new(rt.alloc());
    tells_with_b(
        &rt,
        rt.alloc(),
        Registry::new(rt.alloc()),
        b,
        LevelFilter::OFF,
    )
}

/// The test of a filter: it passes spans, and of events those in a marked span, one with a value
/// under this tag. It reads extensions, so the filter isn't plain.
#[derive(Drop)]
struct InMarked {
    mark: Tag<bool>,
}

impl<S: LookupSpan> FunctionIn<Metadata, S, bool> for InMarked {
    ghost callable_in = { λ f. ⊤ };

    ghost gives_in = { λ f m c passes. passes
        ≡ in_marked ⟦<bool as ExtensionValue>⟧.place f.mark m (view_in S.registry c) };

    fn apply_in(&self, meta: &Metadata, cx: &Context<'_, S>) -> bool {
        meta.is_span() || is_marked(self.mark, cx)
    }
}

/// The lane is in a span that has a value under this tag.
fn is_marked<S: LookupSpan>(mark: Tag<bool>, cx: &Context<'_, S>) -> bool
    ensures { result ≡ is_marked ⟦<bool as ExtensionValue>⟧.place mark (view_in S.registry cx.now) }
{
    match cx.lookup_current() {
        Some(span) => span.extensions().get(mark).is_some(),
        None => false,
    }
}

/// Marks each new span, as far as there is memory.
#[derive(Drop)]
struct SpanMarker {
    mark: Tag<bool>,
}

impl<S: Subscriber> Observe<S> for SpanMarker {
    ghost observed = { λ x e lane under v y w. ⊤ };

    fn observe(&mut self, notice: Notice<'_, '_>, ctx: &mut ContextMut<'_, S>) {
        if let Notice::NewSpan(_, id) = notice {
            if let Some(extensions) = ctx.extensions_mut(id) {
                let _ = extensions.insert(self.mark, true);
            }
        }
    }
}

/// A span, entered, and an event where the lane is; then the span is left and dropped.
fn one_span() -> [Request<'static>; 5] {
    [
        new_span(0, Level::INFO, WhichParent::Root),
        Request::Enter(LANE, Which::Made(0)),
        event(5, Level::INFO),
        Request::Exit(LANE, Which::Made(0)),
        Request::Drop(LANE, Which::Made(0)),
    ]
}

/// Serves that list. Answers the span.
fn serve_one_span<S: Subscriber>(alloc: Global, dispatch: &mut Dispatch<S>) -> Result<Id, Fail>
    requires { S.usable (stack_of dispatch.old) }
{
    let answers = serve(alloc, dispatch, &one_span())?;
    made(&answers, 0)
}

/// A is notified of that span, and of the event in it too or not.
fn told_of_one_span(rt: &impl Abort, recorder: &Recorder, p: Id, of_event: bool) {
    let (new, enter) = (Recorded::New(LANE, p), Recorded::Enter(LANE, p));
    let (exit, close) = (Recorded::Exit(LANE, p), Recorded::Close(LANE, p));
    if of_event {
        let event = Recorded::Event(LANE, 5);
        keeps(rt, recorder, &[new, enter, event, exit, close]);
    } else {
        keeps(rt, recorder, &[new, enter, exit, close]);
    }
}

/// Serves that list by a stack of A, C outside it, and looks at what A is notified of.
fn tells_a<S: Subscriber + Drop + AsLayer<Recorder>, L: Layer<S> + Drop>(
    rt: &impl Abort,
    alloc: Global,
    stack: S,
    c: L,
    of_event: bool,
) -> Result<(), Fail>
    requires stack { S.usable stack }
    requires layer { L.usable c }
{
    let mut dispatch = put_in_use(alloc, stack, c, Keeping::Answers)?;
    let p = serve_one_span(alloc, &mut dispatch)?;
    told_of_one_span(rt, dispatch.stack().inner().as_layer(), p, of_event);
    Ok(())
}

/// Puts A on a stack, and outside it C, which marks spans under this level.
fn tells_beside_marker<S: Subscriber + Drop, L: Layer<S> + Drop + AsLayer<Recorder>>(
    rt: &impl Abort,
    alloc: Global,
    stack: S,
    a: L,
    mark: Tag<bool>,
    outermost: LevelFilter,
    of_event: bool,
) -> Result<(), Fail>
    requires stack { S.usable stack }
    requires layer { L.usable a }
{
    let c = Observer::new(SpanMarker { mark }).with_filter(outermost);
    tells_a(rt, alloc, put(stack, a)?, c, of_event)
}

/// Puts A, under a filter by marks, on a stack, and C outside it.
fn tells_by_marks<S: Subscriber + Drop>(
    rt: &impl Abort,
    alloc: Global,
    stack: S,
    outermost: LevelFilter,
    of_event: bool,
) -> Result<(), Fail>
    requires { S.usable stack }
{
    let mark = Tag::new(0);
    let a = Recorder::new(alloc).with_filter(dynamic_filter_fn(InMarked { mark }));
    tells_beside_marker(rt, alloc, stack, a, mark, outermost, of_event)
}

#[test]
fn another_layer_makes_a_difference_to_a_filter_by_marks(rt: HostRuntime) -> Result<(), Fail> {
    let registry = Registry::new(rt.alloc());
    tells_by_marks(&rt, rt.alloc(), registry, LevelFilter::TRACE, true)?;
    let registry = Registry::new(rt.alloc());
    tells_by_marks(&rt, rt.alloc(), registry, LevelFilter::OFF, false)
}
