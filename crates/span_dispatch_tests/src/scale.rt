//! Many filters, long chains and many entries, each by a dispatcher that keeps hint and interests
//! and by one that keeps nothing.
ghost use Rattle.span_dispatch.specs.Serve.{stack_of};

use crate::requests::{AsLayer, HasList, Keeping, UnderOne, event, keeps, put_in_use, serve};
use span_core::{Attributes, FilterId, Id, Kind, Level, LevelFilter, TraceError};
use span_dispatch::{Answer, Dispatch, Recorded, Recorder};
use span_layer_tests::fixture::{LANE, metadata_of, put};
use span_layers::Layer;
use span_registry::{LookupSpan, Registry, Subscriber};
use span_stacks::{LayerExt, Layered};
use std::alloc::{AllocError, Global};
use std::process::Abort;
use std::test::Fail;

/// The spans of a chain.
const DEPTH: usize = 10_000;

/// How often a lane enters a span.
const ENTRIES: u32 = 1_000;

/// Recorders, each under OFF: as many as there is room for.
fn closed(alloc: Global) -> Result<Vec<UnderOne>, AllocError> {
    let mut layers = Vec::new(alloc);
    for _ in 0..FilterId::LIMIT {
        layers.push(Recorder::new(alloc).with_filter(LevelFilter::OFF))?;
    }
    Ok(layers)
}

/// Serves an error event.
fn serve_error<S: Subscriber>(
    rt: &impl Abort,
    alloc: Global,
    dispatch: &mut Dispatch<S>,
) -> Result<(), Fail>
    requires { S.usable (stack_of dispatch.old) }
    ensures { S.usable (stack_of dispatch.new) }
{
    let answers = serve(alloc, dispatch, &[event(1, Level::ERROR)])?;
    assert!(rt; answers.as_slice() == [Answer::Done].as_slice());
    Ok(())
}

/// The open recorder alone was told of the event.
fn is_told_alone(open: &Recorder, closed: &[UnderOne]) -> bool {
    let told = open.notices() == [Recorded::Event(LANE, 1)].as_slice();
    let mut others = closed.iter();
    told && others.all(|layer| layer.layer().notices().is_empty())
}

/// Has an open recorder and, outside it, those under OFF.
trait OpenBelowClosed {
    fn open(&self) -> &Recorder;

    fn outside(&self) -> &[UnderOne];
}

impl<L: HasList, S: AsLayer<Recorder>> OpenBelowClosed for Layered<L, S> {
    fn open(&self) -> &Recorder {
        self.inner().as_layer()
    }

    fn outside(&self) -> &[UnderOne] {
        self.outer().list()
    }
}

/// The open recorder alone is told of an error event.
fn tells_the_open_one<S: Subscriber + OpenBelowClosed>(
    rt: &impl Abort,
    alloc: Global,
    dispatch: &mut Dispatch<S>,
) -> Result<(), Fail>
    requires { S.usable (stack_of dispatch.old) }
{
    serve_error(rt, alloc, dispatch)?;
    let stack = dispatch.stack();
    assert!(rt; is_told_alone(stack.open(), stack.outside()));
    Ok(())
}

/// Puts the layer that has the recorders under OFF on a stack, and sends it events.
fn tells_under<S: Subscriber + Drop + AsLayer<Recorder>, L: Layer<S> + Drop + HasList>(
    rt: &impl Abort,
    alloc: Global,
    stack: S,
    layer: L,
    keeps: Keeping,
) -> Result<(), Fail>
    requires stack { S.usable stack }
    requires layer { L.usable layer }
{
    tells_the_open_one(rt, alloc, &mut put_in_use(alloc, stack, layer, keeps)?)
}

/// Puts recorders under OFF outside an open one on a stack.
fn tells_below_closed<S: Subscriber + Drop + AsLayer<Recorder>>(
    rt: &impl Abort,
    alloc: Global,
    stack: S,
    keeps: Keeping,
) -> Result<(), Fail>
    requires { S.usable stack }
{
    tells_under(rt, alloc, stack, closed(alloc)?, keeps)
}

/// Puts an open recorder on a stack, and recorders under OFF outside it.
fn tells_an_open_one<S: Subscriber + Drop, L: Layer<S> + Drop + AsLayer<Recorder>>(
    rt: &impl Abort,
    alloc: Global,
    stack: S,
    layer: L,
    keeps: Keeping,
) -> Result<(), Fail>
    requires stack { S.usable stack }
    requires layer { L.usable layer }
{
    tells_below_closed(rt, alloc, put(stack, layer)?, keeps)
}

#[test]
fn of_129_recorders_the_open_one_is_told(rt: HostRuntime) -> Result<(), Fail> {
    let open = Recorder::new(rt.alloc());
    tells_an_open_one(
        &rt,
        rt.alloc(),
        Registry::new(rt.alloc()),
        open,
        Keeping::Answers,
    )
}

#[test]
fn of_129_recorders_it_is_told_where_nothing_is_kept(rt: HostRuntime) -> Result<(), Fail> {
    let open = Recorder::new(rt.alloc());
    tells_an_open_one(
        &rt,
        rt.alloc(),
        Registry::new(rt.alloc()),
        open,
        Keeping::Nothing,
    )
}

/// Opens a span with these attributes. Fails where a layer vetoes.
fn open_by<S: Subscriber>(
    dispatch: &mut Dispatch<S>,
    attributes: &Attributes<'_>,
) -> Result<Id, Fail>
    requires { S.usable (stack_of dispatch.old) }
    ensures { S.usable (stack_of dispatch.new) }
{
    let opened = dispatch.new_span(LANE, attributes)?;
    Ok(opened.ok_or("a layer vetoes")?)
}

/// Opens a span in a parent, or a root.
fn open<S: Subscriber>(dispatch: &mut Dispatch<S>, parent: Option<Id>) -> Result<Id, Fail>
    requires { S.usable (stack_of dispatch.old) }
    ensures { S.usable (stack_of dispatch.new) }
{
    let metadata = metadata_of(2, Level::INFO, Kind::SPAN);
    match parent {
        Some(id) => open_by(dispatch, &Attributes::child_of(id, metadata, &[])),
        None => open_by(dispatch, &Attributes::new_root(metadata, &[])),
    }
}

/// Opens a chain of spans, each in the one before.
fn open_chain<S: Subscriber>(alloc: Global, dispatch: &mut Dispatch<S>) -> Result<Vec<Id>, Fail>
    requires { S.usable (stack_of dispatch.old) }
    ensures { S.usable (stack_of dispatch.new) }
{
    let mut chain = Vec::with_capacity(alloc, DEPTH)?;
    let mut parent = None;
    for _ in 0..DEPTH {
        let id = open(dispatch, parent)?;
        chain.push(id)?;
        parent = Some(id);
    }
    Ok(chain)
}

/// Drops the handles of a chain from the root on: only the last drop closes.
fn drop_chain<S: Subscriber>(
    rt: &impl Abort,
    dispatch: &mut Dispatch<S>,
    chain: &[Id],
) -> Result<(), Fail>
    requires { S.usable (stack_of dispatch.old) }
    ensures { S.usable (stack_of dispatch.new) }
{
    let mut left = chain.len();
    for id in chain {
        left = left.saturating_sub(1);
        assert!(rt; dispatch.drop_span(LANE, *id)? == (left == 0));
    }
    Ok(())
}

/// What a recorder is told of a chain whose leaf is dropped last.
fn told_of(alloc: Global, chain: &[Id]) -> Result<Vec<Recorded>, AllocError> {
    let mut notices = Vec::new(alloc);
    for id in chain {
        notices.push(Recorded::New(LANE, *id))?;
    }
    for id in chain.iter().rev() {
        notices.push(Recorded::Close(LANE, *id))?;
    }
    Ok(notices)
}

/// Opens a chain, and drops its handles from the root on.
fn close_chain<S: Subscriber>(
    rt: &impl Abort,
    alloc: Global,
    dispatch: &mut Dispatch<S>,
) -> Result<Vec<Id>, Fail>
    requires { S.usable (stack_of dispatch.old) }
{
    let chain = open_chain(alloc, dispatch)?;
    drop_chain(rt, dispatch, &chain)?;
    Ok(chain)
}

/// A recorder is told of such a chain.
fn told_of_chain(
    rt: &impl Abort,
    alloc: Global,
    recorder: &Recorder,
    chain: &[Id],
) -> Result<(), Fail> {
    let told = told_of(alloc, chain)?;
    keeps(rt, recorder, told.as_slice());
    Ok(())
}

/// No span of a chain is open.
fn is_closed<S: LookupSpan>(rt: &impl Abort, stack: &S, chain: &[Id]) {
    let mut closed = chain.iter();
    assert!(rt; closed.all(|id| stack.span(*id).is_none()));
}

/// A chain closes with its leaf, leaf first and root last.
fn closes_a_chain<S: Subscriber + Drop, L: Layer<S> + Drop + AsLayer<Recorder>>(
    rt: &impl Abort,
    alloc: Global,
    stack: S,
    layer: L,
    keeps: Keeping,
) -> Result<(), Fail>
    requires stack { S.usable stack }
    requires layer { L.usable layer }
{
    let mut dispatch = put_in_use(alloc, stack, layer, keeps)?;
    let chain = close_chain(rt, alloc, &mut dispatch)?;
    let stack = dispatch.stack();
    is_closed(rt, stack, &chain);
    told_of_chain(rt, alloc, stack.as_layer(), &chain)
}

#[test]
fn a_chain_of_10000_spans_closes_with_its_leaf(rt: HostRuntime) -> Result<(), Fail> {
    let recorder = Recorder::new(rt.alloc());
    closes_a_chain(
        &rt,
        rt.alloc(),
        Registry::new(rt.alloc()),
        recorder,
        Keeping::Answers,
    )?;
    let recorder = Recorder::new(rt.alloc());
    closes_a_chain(
        &rt,
        rt.alloc(),
        Registry::new(rt.alloc()),
        recorder,
        Keeping::Nothing,
    )
}

/// Enters a span.
fn enter<S: Subscriber>(dispatch: &mut Dispatch<S>, id: Id) -> Result<(), TraceError>
    requires { S.usable (stack_of dispatch.old) }
    ensures { S.usable (stack_of dispatch.new) }
{
    dispatch.enter(LANE, id)
}

/// Enters a span so many times.
fn enter_often<S: Subscriber>(dispatch: &mut Dispatch<S>, id: Id) -> Result<(), TraceError>
    requires { S.usable (stack_of dispatch.old) }
    ensures { S.usable (stack_of dispatch.new) }
{
    for _ in 0..ENTRIES {
        enter(dispatch, id)?;
    }
    Ok(())
}

/// Leaves a span so many times.
fn leave_often<S: Subscriber>(dispatch: &mut Dispatch<S>, id: Id, times: u32)
    requires { S.usable (stack_of dispatch.old) }
    ensures { S.usable (stack_of dispatch.new) }
{
    for _ in 0..times {
        dispatch.exit(LANE, id);
    }
}

/// A lane that entered a span often is in it until it has left it as often.
fn leaves_as_often<S: Subscriber>(rt: &impl Abort, dispatch: &mut Dispatch<S>) -> Result<(), Fail>
    requires { S.usable (stack_of dispatch.old) }
    ensures { S.usable (stack_of dispatch.new) }
{
    let id = open(dispatch, None)?;
    enter_often(dispatch, id)?;
    leave_often(dispatch, id, ENTRIES - 1);
    assert!(rt; dispatch.current_span(LANE).id() == Some(id));
    leave_often(dispatch, id, 1);
    assert!(rt; dispatch.current_span(LANE).id() == None);
    Ok(())
}

/// Puts a layer on a stack, in which a lane leaves a span as often as it entered it.
fn leaves_under<S: Subscriber + Drop, L: Layer<S> + Drop>(
    rt: &impl Abort,
    alloc: Global,
    stack: S,
    layer: L,
    keeps: Keeping,
) -> Result<(), Fail>
    requires stack { S.usable stack }
    requires layer { L.usable layer }
{
    leaves_as_often(rt, &mut put_in_use(alloc, stack, layer, keeps)?)
}

#[test]
fn a_span_is_entered_1000_times(rt: HostRuntime) -> Result<(), Fail> {
    let recorder = Recorder::new(rt.alloc());
    leaves_under(
        &rt,
        rt.alloc(),
        Registry::new(rt.alloc()),
        recorder,
        Keeping::Answers,
    )?;
    let recorder = Recorder::new(rt.alloc());
    leaves_under(
        &rt,
        rt.alloc(),
        Registry::new(rt.alloc()),
        recorder,
        Keeping::Nothing,
    )
}
