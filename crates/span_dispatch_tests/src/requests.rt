//! Requests, and dispatchers of any stack that serve them.
ghost use Rattle.std.specs.Prelude.{IfOk};
ghost use Rattle.span_dispatch.specs.Serve.{stack_of};

use span_core::{Id, Kind, Level, LevelFilter, TraceError};
use span_dispatch::{Answer, Dispatch, Recorded, Recorder, Request, Which, WhichParent};
use span_layer_tests::fixture::{LANE, metadata_of, put};
use span_layers::Layer;
use span_registry::{Registry, Subscriber};
use span_stacks::{Filtered, Layered};
use std::alloc::Global;
use std::process::Abort;
use std::test::Fail;

/// A span of a callsite with this number, without values.
pub(crate) fn new_span(callsite: u64, level: Level, parent: WhichParent) -> Request<'static> {
    Request::NewSpan {
        lane: LANE,
        metadata: metadata_of(callsite, level, Kind::SPAN),
        parent,
        values: &[],
    }
}

/// An event of a callsite with this number, without values.
pub(crate) fn new_event(callsite: u64, level: Level, parent: WhichParent) -> Request<'static> {
    Request::Event {
        lane: LANE,
        metadata: metadata_of(callsite, level, Kind::EVENT),
        parent,
        values: &[],
    }
}

/// An event where the lane is.
pub(crate) fn event(callsite: u64, level: Level) -> Request<'static> {
    new_event(callsite, level, WhichParent::Contextual)
}

/// In the span that the request at this place made.
pub(crate) fn within(place: usize) -> WhichParent {
    WhichParent::Explicit(Which::Made(place))
}

/// The span that the request at this place made.
pub(crate) fn made(answers: &[Answer], place: usize) -> Result<Id, Fail> {
    match answers.get(place) {
        Some(Answer::Made(id)) => Ok(*id),
        _ => Err(Fail::from("no span was made")),
    }
}

/// What has a layer of this kind to look at: where it has several, the outermost.
pub(crate) trait AsLayer<T> {
    fn as_layer(&self) -> &T;
}

impl AsLayer<Recorder> for Recorder {
    fn as_layer(&self) -> &Recorder {
        self
    }
}

impl<T, L: AsLayer<T>, F> AsLayer<T> for Filtered<L, F> {
    fn as_layer(&self) -> &T {
        self.layer().as_layer()
    }
}

impl<T, L: AsLayer<T>, S> AsLayer<T> for Layered<L, S> {
    fn as_layer(&self) -> &T {
        self.outer().as_layer()
    }
}

/// What has two layers of this kind to look at.
pub(crate) trait AsLayers<T> {
    fn as_outer(&self) -> &T;

    fn as_inner(&self) -> &T;
}

impl<T, L: AsLayer<T>, S: AsLayer<T>> AsLayers<T> for Layered<L, S> {
    fn as_outer(&self) -> &T {
        self.outer().as_layer()
    }

    fn as_inner(&self) -> &T {
        self.inner().as_layer()
    }
}

/// A recorder keeps these notices.
pub(crate) fn keeps(rt: &impl Abort, recorder: &Recorder, notices: &[Recorded]) {
    assert!(rt; recorder.notices() == notices);
}

/// A recorder on a registry.
pub(crate) type Plain = Layered<Recorder, Registry>;

pub(crate) fn plain(alloc: Global) -> Result<Plain, TraceError> {
    put(Registry::new(alloc), Recorder::new(alloc))
}

/// A recorder under a level.
pub(crate) type UnderOne = Filtered<Recorder, LevelFilter>;

/// Recorders under levels, as a layer has them.
pub(crate) trait HasList {
    fn list(&self) -> &[UnderOne];
}

impl HasList for Vec<UnderOne> {
    fn list(&self) -> &[UnderOne] {
        self.as_slice()
    }
}

/// What a dispatcher keeps of what its stack answers.
#[derive(Clone, Copy, Debug, PartialEq, Eq)]
pub(crate) enum Keeping {
    /// The hint, and the interests in callsites.
    Answers,
    /// Nothing: it asks each time.
    Nothing,
}

/// Puts a stack in use by a dispatcher that keeps this.
pub(crate) fn in_use<S: Subscriber>(alloc: Global, stack: S, keeps: Keeping) -> Dispatch<S>
    requires { S.usable stack }
    ensures { S.usable (stack_of result) }
{
    match keeps {
        Keeping::Answers => Dispatch::new(alloc, stack),
        Keeping::Nothing => Dispatch::uncached(alloc, stack),
    }
}

/// Puts a layer on a stack, and that in use by a dispatcher that keeps this.
// One call, since each at a known layer takes the prover six seconds.
pub(crate) fn put_in_use<S: Subscriber + Drop, L: Layer<S> + Drop>(
    alloc: Global,
    stack: S,
    layer: L,
    keeps: Keeping,
) -> Result<Dispatch<Layered<L, S>>, TraceError>
    requires layer { L.usable layer }
    requires stack { S.usable stack }
    ensures { IfOk result (λ made. ⟦<Layered<L, S> as Subscriber>⟧.usable (stack_of made)) }
{
    Ok(in_use(alloc, put(stack, layer)?, keeps))
}

/// Serves a list.
pub(crate) fn serve<S: Subscriber>(
    alloc: Global,
    dispatch: &mut Dispatch<S>,
    requests: &[Request<'_>],
) -> Result<Vec<Answer>, TraceError>
    requires { S.usable (stack_of dispatch.old) }
    ensures { S.usable (stack_of dispatch.new) }
{
    dispatch.serve(alloc, requests)
}
