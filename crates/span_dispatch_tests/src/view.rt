//! Tests of what filters and layers under a dispatcher can read: what one layer's filter hides is
//! hidden from that layer alone.
ghost use Rattle.span_dispatch.specs.Serve.{stack_of};
ghost use Rattle.std.specs.Prelude.{⊤};

use crate::requests::{
    AsLayer, AsLayers, Keeping, Plain, event, made, new_event, new_span, put_in_use, serve, within,
};
use span_core::{Id, Level, LevelFilter, Metadata};
use span_dispatch::{Dispatch, Recorded, Recorder, Request, Which, WhichParent};
use span_filters::{Filter, dynamic_filter_fn};
use span_layer_tests::fixture::{LANE, put};
use span_layer_tests::watcher::{Seen, Watcher, new_watcher};
use span_layers::{Layer, Observe, Observer};
use span_registry::{Context, ContextMut, Notice, Registry, Scope, SpanRef, Subscriber};
use span_stacks::{LayerExt, Layered};
use std::alloc::Global;
use std::process::Abort;
use std::test::Fail;

/// A span, and another one while the lane is in it; both are dropped.
fn one_in_another() -> [Request<'static>; 6] {
    [
        new_span(0, Level::INFO, WhichParent::Root),
        Request::Enter(LANE, Which::Made(0)),
        new_span(0, Level::INFO, WhichParent::Root),
        Request::Drop(LANE, Which::Made(2)),
        Request::Exit(LANE, Which::Made(0)),
        Request::Drop(LANE, Which::Made(0)),
    ]
}

/// Serves them. Answers the two spans.
fn serve_one_in_another<S: Subscriber>(
    alloc: Global,
    dispatch: &mut Dispatch<S>,
) -> Result<[Id; 2], Fail>
    requires { S.usable (stack_of dispatch.old) }
{
    let answers = serve(alloc, dispatch, &one_in_another())?;
    Ok([made(&answers, 0)?, made(&answers, 2)?])
}

#[test]
fn a_filter_may_ask_for_the_current_span(rt: HostRuntime) -> Result<(), Fail> {
    let outside = dynamic_filter_fn(|_meta: &Metadata, cx: &Context<'_, Plain>| {
        cx.lookup_current().is_none()
    });
    let registry = Registry::new(rt.alloc());
    keep_one_in_another(&rt, rt.alloc(), registry, outside)
}

/// Puts a recorder on a stack, and one under this filter outside it.
fn keep_one_in_another<S: Subscriber + Drop, F: Filter<Layered<Recorder, S>> + Drop>(
    rt: &impl Abort,
    alloc: Global,
    stack: S,
    outside: F,
) -> Result<(), Fail>
    requires stack { S.usable stack }
    requires filter { F.usable outside }
{
    keep_below(rt, alloc, stack, Recorder::new(alloc), outside)
}

/// Puts a recorder's layer on a stack, and one under this filter outside it.
fn keep_below<
    S: Subscriber + Drop,
    L: Layer<S> + Drop + AsLayer<Recorder>,
    F: Filter<Layered<L, S>> + Drop,
>(rt: &impl Abort, alloc: Global, stack: S, inner: L, outside: F) -> Result<(), Fail>
    requires stack { S.usable stack }
    requires layer { L.usable inner }
    requires filter { F.usable outside }
{
    let under_outside = Recorder::new(alloc).with_filter(outside);
    keep_under(rt, alloc, put(stack, inner)?, under_outside)
}

/// Puts the outer recorder's layer on a stack of another, and serves one span in another.
fn keep_under<S: Subscriber + Drop + AsLayer<Recorder>, L: Layer<S> + Drop + AsLayer<Recorder>>(
    rt: &impl Abort,
    alloc: Global,
    stack: S,
    layer: L,
) -> Result<(), Fail>
    requires stack { S.usable stack }
    requires layer { L.usable layer }
{
    keeps_one_in_another(
        rt,
        alloc,
        &mut put_in_use(alloc, stack, layer, Keeping::Answers)?,
    )
}

/// Of two recorders, the outer one under a filter, the inner one keeps all of the two spans, and
/// the other those outside all spans.
fn keeps_one_in_another<S: Subscriber + AsLayers<Recorder>>(
    rt: &impl Abort,
    alloc: Global,
    dispatch: &mut Dispatch<S>,
) -> Result<(), Fail>
    requires { S.usable (stack_of dispatch.old) }
{
    let [p, q] = serve_one_in_another(alloc, dispatch)?;
    let stack = dispatch.stack();
    the_outer_span_alone(rt, stack.as_outer(), p);
    both_spans(rt, stack.as_inner(), [p, q]);
    Ok(())
}

fn the_outer_span_alone(rt: &impl Abort, recorder: &Recorder, p: Id) {
    assert!(rt;
        recorder.notices()
            == [
                Recorded::New(LANE, p),
                Recorded::Enter(LANE, p),
                Recorded::Exit(LANE, p),
                Recorded::Close(LANE, p),
            ]
            .as_slice()
    );
}

fn both_spans(rt: &impl Abort, recorder: &Recorder, [p, q]: [Id; 2]) {
    assert!(rt;
        recorder.notices()
            == [
                Recorded::New(LANE, p),
                Recorded::Enter(LANE, p),
                Recorded::New(LANE, q),
                Recorded::Close(LANE, q),
                Recorded::Exit(LANE, p),
                Recorded::Close(LANE, p),
            ]
            .as_slice()
    );
}

/// Reads the span of each event, as far as there is memory: its scope, leaf first and root first,
/// and its parent.
#[derive(Drop)]
struct Reader {
    alloc: Global,
    up: Vec<Option<Id>>,
    down: Vec<Id>,
    parents: Vec<Option<Id>>,
}

impl<S: Subscriber> Observe<S> for Reader {
    ghost observed = { λ x e lane under v y w. ⊤ };

    fn observe(&mut self, notice: Notice<'_, '_>, ctx: &mut ContextMut<'_, S>) {
        let Notice::Event(event) = notice else {
            return;
        };
        match ctx.ctx().event_span(event) {
            Some(span) => {
                read_up(&mut self.up, span.scope());
                read_down(self.alloc, &mut self.down, span.scope());
                read_parent(&mut self.parents, &span);
            }
            None => {
                let _ = self.up.push(None);
            }
        }
    }
}

/// Keeps these spans, in their order.
fn read_up<S: Subscriber>(seen: &mut Vec<Option<Id>>, scope: Scope<'_, S>) {
    for span in scope {
        let _ = seen.push(Some(span.id()));
    }
}

/// Keeps these spans, from the root on.
fn read_down<S: Subscriber>(alloc: Global, seen: &mut Vec<Id>, scope: Scope<'_, S>) {
    if let Ok(spans) = scope.from_root(alloc) {
        for span in spans {
            let _ = seen.push(span.id());
        }
    }
}

/// Keeps the parent of a span.
fn read_parent<S: Subscriber>(seen: &mut Vec<Option<Id>>, span: &SpanRef<'_, S>) {
    let _ = seen.push(match span.parent() {
        Some(parent) => Some(parent.id()),
        None => None,
    });
}

/// A layer that has read nothing.
fn new_reader(alloc: Global) -> Observer<Reader> {
    Observer::new(Reader {
        alloc,
        up: Vec::new(alloc),
        down: Vec::new(alloc),
        parents: Vec::new(alloc),
    })
}

/// Spans each in the one before, of which INFO passes all but the second. The lane is in the
/// second; an event in the third, one in the second, and one where the lane is.
fn family() -> [Request<'static>; 8] {
    [
        new_span(0, Level::INFO, WhichParent::Root),
        new_span(1, Level::DEBUG, within(0)),
        new_span(0, Level::INFO, within(1)),
        Request::Enter(LANE, Which::Made(0)),
        Request::Enter(LANE, Which::Made(1)),
        new_event(7, Level::INFO, within(2)),
        new_event(7, Level::INFO, within(1)),
        event(7, Level::INFO),
    ]
}

/// Serves them. Answers the three spans.
fn serve_family<S: Subscriber>(alloc: Global, dispatch: &mut Dispatch<S>) -> Result<[Id; 3], Fail>
    requires { S.usable (stack_of dispatch.old) }
{
    let answers = serve(alloc, dispatch, &family())?;
    Ok([made(&answers, 0)?, made(&answers, 1)?, made(&answers, 2)?])
}

fn reads_what_info_passes(rt: &impl Abort, reader: &Reader, [root, _, leaf]: [Id; 3]) {
    assert!(rt; reader.up.as_slice() == [Some(leaf), Some(root), None, Some(root)].as_slice());
    assert!(rt; reader.down.as_slice() == [root, leaf, root].as_slice());
    assert!(rt; reader.parents.as_slice() == [Some(root), None].as_slice());
}

fn reads_all(rt: &impl Abort, reader: &Reader, [root, child, leaf]: [Id; 3]) {
    assert!(rt;
        reader.up.as_slice()
            == [
                Some(leaf),
                Some(child),
                Some(root),
                Some(child),
                Some(root),
                Some(child),
                Some(root),
            ]
            .as_slice()
    );
    assert!(rt; reader.down.as_slice() == [root, child, leaf, root, child, root, child].as_slice());
    assert!(rt; reader.parents.as_slice() == [Some(child), Some(root), Some(root)].as_slice());
}

impl AsLayer<Reader> for Observer<Reader> {
    fn as_layer(&self) -> &Reader {
        self.observer()
    }
}

/// Of two readers, each reads the family's scopes as far as its own filter passes them: INFO the
/// outer one.
fn read_the_family<S: Subscriber + AsLayers<Reader>>(
    rt: &impl Abort,
    alloc: Global,
    dispatch: &mut Dispatch<S>,
) -> Result<(), Fail>
    requires { S.usable (stack_of dispatch.old) }
{
    let spans = serve_family(alloc, dispatch)?;
    let stack = dispatch.stack();
    reads_what_info_passes(rt, stack.as_outer(), spans);
    reads_all(rt, stack.as_inner(), spans);
    Ok(())
}

/// Puts the outer reader's layer on a stack of another, and has both read.
fn read_under<S: Subscriber + Drop + AsLayer<Reader>, L: Layer<S> + Drop + AsLayer<Reader>>(
    rt: &impl Abort,
    alloc: Global,
    stack: S,
    layer: L,
) -> Result<(), Fail>
    requires stack { S.usable stack }
    requires layer { L.usable layer }
{
    read_the_family(
        rt,
        alloc,
        &mut put_in_use(alloc, stack, layer, Keeping::Answers)?,
    )
}

/// Puts a reader's layer on a stack, and one under INFO outside it.
fn read_below<S: Subscriber + Drop, L: Layer<S> + Drop + AsLayer<Reader>>(
    rt: &impl Abort,
    alloc: Global,
    stack: S,
    inner: L,
) -> Result<(), Fail>
    requires stack { S.usable stack }
    requires layer { L.usable inner }
{
    let under_info = new_reader(alloc).with_filter(LevelFilter::INFO);
    read_under(rt, alloc, put(stack, inner)?, under_info)
}

/// Puts a reader on a stack, and one under INFO outside it.
fn read_on<S: Subscriber + Drop>(rt: &impl Abort, alloc: Global, stack: S) -> Result<(), Fail>
    requires { S.usable stack }
{
    read_below(rt, alloc, stack, new_reader(alloc))
}

#[test]
fn scopes_leave_out_what_a_layers_own_filter_refused(rt: HostRuntime) -> Result<(), Fail> {
    read_on(&rt, rt.alloc(), Registry::new(rt.alloc()))
}

/// What a watcher without a filter sees of one span in another: it finds both while they close.
fn sees_both_close(rt: &impl Abort, watcher: &Watcher, [p, q]: [Id; 2]) {
    assert!(rt;
        watcher.seen.as_slice()
            == [
                Seen::NewSpan(p),
                Seen::InScope(p),
                Seen::Enter(p),
                Seen::NewSpan(q),
                Seen::InScope(q),
                Seen::Close(q),
                Seen::Exit(p),
                Seen::Close(p),
            ]
            .as_slice()
    );
}

impl AsLayer<Watcher> for Observer<Watcher> {
    fn as_layer(&self) -> &Watcher {
        self.observer()
    }
}

/// A stack whose outermost layer is of two watchers.
trait EndsInPair {
    fn outer_of_pair(&self) -> &Watcher;

    fn inner_of_pair(&self) -> &Watcher;
}

impl<L: AsLayers<Watcher>, S> EndsInPair for Layered<L, S> {
    fn outer_of_pair(&self) -> &Watcher {
        self.outer().as_outer()
    }

    fn inner_of_pair(&self) -> &Watcher {
        self.outer().as_inner()
    }
}

/// Three watchers see the same: two in one layer, and one outside it.
fn watch_under<S: Subscriber + Drop + EndsInPair, L: Layer<S> + Drop + AsLayer<Watcher>>(
    rt: &impl Abort,
    alloc: Global,
    stack: S,
    layer: L,
) -> Result<(), Fail>
    requires stack { S.usable stack }
    requires layer { L.usable layer }
{
    let mut dispatch = put_in_use(alloc, stack, layer, Keeping::Answers)?;
    let spans = serve_one_in_another(alloc, &mut dispatch)?;
    let stack = dispatch.stack();
    sees_both_close(rt, stack.as_layer(), spans);
    sees_both_close(rt, stack.inner().outer_of_pair(), spans);
    sees_both_close(rt, stack.inner().inner_of_pair(), spans);
    Ok(())
}

/// Puts the layer of two watchers on a stack, and one outside it.
fn watch_below<S: Subscriber + Drop, L: Layer<S> + Drop + AsLayers<Watcher>>(
    rt: &impl Abort,
    alloc: Global,
    stack: S,
    pair: L,
) -> Result<(), Fail>
    requires stack { S.usable stack }
    requires layer { L.usable pair }
{
    watch_under(rt, alloc, put(stack, pair)?, new_watcher(alloc))
}

/// Puts two watchers as one layer on a stack, and one outside them.
fn watch_on<S: Subscriber + Drop>(rt: &impl Abort, alloc: Global, stack: S) -> Result<(), Fail>
    requires { S.usable stack }
{
    let pair = new_watcher(alloc).and_then(new_watcher(alloc));
    watch_below(rt, alloc, stack, pair)
}

#[test]
fn every_layer_finds_a_closing_span(rt: HostRuntime) -> Result<(), Fail> {
    watch_on(&rt, rt.alloc(), Registry::new(rt.alloc()))
}
