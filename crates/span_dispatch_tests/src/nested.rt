//! Eight filters round one recorder, of which number 3 passes less than the others: outside a
//! recorder without a filter, with a list of recorders outside both, and through each kind of
//! dispatcher.
ghost use Rattle.span_dispatch.specs.Serve.{stack_of};
ghost use Rattle.std.specs.Prelude.{◌≡◌, ◌-◌, ◌<◌, ◌^◌};

use crate::requests::{AsLayer, AsLayers, HasList, Keeping, UnderOne, in_use, keeps};
use span_core::{Attributes, FilterId, Id, Kind, Level, LevelFilter};
use span_dispatch::{Dispatch, Recorded, Recorder};
use span_layer_tests::fixture::{LANE, metadata_of, put};
use span_layers::Layer;
use span_registry::{LookupSpan, Registry, SpanData, Subscriber};
use span_shared::{Crew, Entry, EntryWith, Shared, Worker};
use span_stacks::{LayerExt, Layered};
use std::alloc::{AllocError, Global};
use std::marker::Brand;
use std::process::Abort;
use std::sync::Wait;
use std::sync::ledger::Blank;
use std::test::Fail;

/// Which dispatcher opens the spans.
#[derive(Clone, Copy, PartialEq, Eq)]
enum By {
    /// One of its own, which keeps this.
    Own(Keeping),
    /// One that threads can share.
    Shared,
}

/// How many recorders the list has. Each stands under a filter of its own.
const LISTED: u32 = 56;

/// What has a recorder without a filter innermost, one deep under filters outside it, and a list of
/// recorders outside both.
trait HasThree {
    fn base(&self) -> &Recorder;

    fn deep(&self) -> &Recorder;

    fn listed(&self) -> &[UnderOne];
}

impl<L: HasList, S: AsLayers<Recorder>> HasThree for Layered<L, S> {
    fn base(&self) -> &Recorder {
        self.inner().as_inner()
    }

    fn deep(&self) -> &Recorder {
        self.inner().as_outer()
    }

    fn listed(&self) -> &[UnderOne] {
        self.outer().list()
    }
}

/// The list: each of its recorders is told of all levels.
fn listed(alloc: Global) -> Result<Vec<UnderOne>, AllocError> {
    let mut layers = Vec::new(alloc);
    for _ in 0..LISTED {
        layers.push(Recorder::new(alloc).with_filter(LevelFilter::TRACE))?;
    }
    Ok(layers)
}

/// A root of level info.
fn info_root() -> Attributes<'static> {
    Attributes::new_root(metadata_of(3, Level::INFO, Kind::SPAN), &[])
}

/// A root of level warn.
fn warn_root() -> Attributes<'static> {
    Attributes::new_root(metadata_of(4, Level::WARN, Kind::SPAN), &[])
}

/// The numbers of the filters that refused a span, out of all that a registry has room for. Fails
/// where the registry doesn't find the span.
fn refused_by<S: LookupSpan>(alloc: Global, stack: &S, id: Id) -> Result<Vec<u32>, Fail> {
    let span = stack.span_data(id).ok_or("the span isn't found")?;
    let mut numbers = Vec::new(alloc);
    for number in 0..FilterId::LIMIT {
        if !span.is_enabled_for(FilterId::of(number)) {
            numbers.push(number)?;
        }
    }
    Ok(numbers)
}

/// Number 3 alone refused the info span, and none the warn span.
fn has_verdicts<S: LookupSpan>(
    rt: &impl Abort,
    alloc: Global,
    stack: &S,
    [info, warn]: [Id; 2],
) -> Result<(), Fail> {
    assert!(rt; refused_by(alloc, stack, info)?.as_slice() == [3].as_slice());
    assert!(rt; refused_by(alloc, stack, warn)?.is_empty());
    Ok(())
}

/// The recorder under eight filters is told of the warn span, and each other one of both spans.
fn tells_each<S: HasThree>(rt: &impl Abort, stack: &S, [info, warn]: [Id; 2]) {
    let both = [Recorded::New(LANE, info), Recorded::New(LANE, warn)];
    keeps(rt, stack.base(), &both);
    keeps(rt, stack.deep(), &[Recorded::New(LANE, warn)]);
    assert!(rt; stack.listed().len() == LISTED as usize);
    for member in stack.listed() {
        keeps(rt, member.layer(), &both);
    }
}

/// A stack shows of both spans what is to be seen.
fn shows<S: LookupSpan + HasThree>(
    rt: &impl Abort,
    alloc: Global,
    stack: &S,
    spans: [Id; 2],
) -> Result<(), Fail> {
    has_verdicts(rt, alloc, stack, spans)?;
    tells_each(rt, stack, spans);
    Ok(())
}

/// Has a dispatcher open both spans, and looks at them.
fn by_dispatcher<S: Subscriber + HasThree>(
    rt: &impl Abort,
    alloc: Global,
    dispatch: &mut Dispatch<S>,
) -> Result<(), Fail>
    requires { S.usable (stack_of dispatch.old) }
{
    let info = dispatch.new_span(LANE, &info_root())?;
    let warn = dispatch.new_span(LANE, &warn_root())?;
    let spans = [info.ok_or("a layer vetoes")?, warn.ok_or("a layer vetoes")?];
    shows(rt, alloc, dispatch.stack(), spans)
}

/// An entry says that a span was made, and prints its verdict so.
fn prints_verdict(rt: &impl Abort, alloc: Global, entry: Entry, wanted: &str) -> Result<(), Fail> {
    let EntryWith::New { verdict, .. } = entry else {
        return Err(Fail::from("no span was made"));
    };
    assert!(rt; format!(in alloc; "{verdict:?}")?.as_str() == wanted);
    Ok(())
}

/// Has a worker open both spans, and looks at their entries.
fn opened_by_worker<S: Subscriber, C: Crew>(
    rt: &(impl Abort + Wait),
    alloc: Global,
    shared: &Shared<S, C>,
    worker: &mut Worker<C>,
) -> Result<[Id; 2], Fail>
    requires { worker.old.calls < 2 ^ 64 - 2 }
{
    let (info, first) = shared.new_span(rt, worker, &info_root())?;
    let (warn, second) = shared.new_span(rt, worker, &warn_root())?;
    prints_verdict(rt, alloc, first.entry(), "FilterMap { disabled_by: {3} }")?;
    prints_verdict(rt, alloc, second.entry(), "FilterMap { disabled_by: {} }")?;
    Ok([info.ok_or("a layer vetoes")?, warn.ok_or("a layer vetoes")?])
}

/// Has the first worker of a dispatcher that threads share open both spans.
fn opened_by_first<S: Subscriber, C: Crew>(
    rt: &(impl Abort + Wait),
    alloc: Global,
    shared: &Shared<S, C>,
    workers: &mut Vec<Worker<C>>,
) -> Result<[Id; 2], Fail> {
    let worker = workers.first_mut().ok_or("no worker")?;
    if worker.calls() > 0 {
        return Err(Fail::from("the worker isn't new"));
    }
    opened_by_worker(rt, alloc, shared, worker)
}

/// Has one worker of a dispatcher that threads can share open both spans, and looks at them.
fn by_worker<S: Subscriber + Drop + HasThree, C: Crew>(
    rt: &(impl Abort + Wait),
    alloc: Global,
    blank: Blank,
    stack: S,
) -> Result<(), Fail>
    requires name { blank.name ≡ C.name }
    requires parts { (blank.parts ≡ C.parts) × (C.parts ≡ 1) × (C.workers ≡ 1) }
    requires usable { S.usable stack }
{
    if !stack.root().is_fresh() {
        return Err(Fail::from("the registry isn't new"));
    }
    let (book, all) = blank.open::<C>();
    let dispatch = Dispatch::new(alloc, stack);
    let Ok((shared, mut workers)) = Shared::new(alloc, book, all, dispatch, 1) else {
        return Err(Fail::from("no memory"));
    };
    let spans = opened_by_first(rt, alloc, &shared, &mut workers)?;
    match shared.finish(workers) {
        Ok((dispatch, _)) => shows(rt, alloc, dispatch.stack(), spans),
        Err(_) => Err(Fail::from("a worker is missing")),
    }
}

/// Has such a dispatcher of a stack with 64 filters open both spans, and looks at them.
fn opened_by<S: Subscriber + Drop + HasThree>(
    rt: &(impl Abort + Wait),
    alloc: Global,
    by: By,
    stack: S,
) -> Result<(), Fail>
    requires { S.usable stack }
{
    assert!(rt; stack.root().filters() == 64);
    match by {
        By::Own(keeps) => by_dispatcher(rt, alloc, &mut in_use(alloc, stack, keeps)),
        By::Shared => by_worker::<S, Brand>(rt, alloc, Blank::new(1), stack),
    }
}

/// Puts a list's layer on a stack of two recorders, and has a dispatcher open both spans.
fn under_list<S: Subscriber + Drop + AsLayers<Recorder>, L: Layer<S> + Drop + HasList>(
    rt: &(impl Abort + Wait),
    alloc: Global,
    by: By,
    stack: S,
    list: L,
) -> Result<(), Fail>
    requires stack { S.usable stack }
    requires layer { L.usable list }
{
    opened_by(rt, alloc, by, put(stack, list)?)
}

/// Puts the list on a stack of two recorders.
fn under_listed<S: Subscriber + Drop + AsLayers<Recorder>>(
    rt: &(impl Abort + Wait),
    alloc: Global,
    by: By,
    stack: S,
) -> Result<(), Fail>
    requires { S.usable stack }
{
    under_list(rt, alloc, by, stack, listed(alloc)?)
}

/// Puts a recorder under eight filters on a stack of another.
fn on_stack<S: Subscriber + Drop + AsLayer<Recorder>, L: Layer<S> + Drop + AsLayer<Recorder>>(
    rt: &(impl Abort + Wait),
    alloc: Global,
    by: By,
    stack: S,
    layer: L,
) -> Result<(), Fail>
    requires stack { S.usable stack }
    requires layer { L.usable layer }
{
    under_listed(rt, alloc, by, put(stack, layer)?)
}

/// Puts two filters that pass all round a layer with six, and the layer on a stack.
fn in_two_more<S: Subscriber + Drop + AsLayer<Recorder>, L: Layer<S> + Drop + AsLayer<Recorder>>(
    rt: &(impl Abort + Wait),
    alloc: Global,
    by: By,
    stack: S,
    layer: L,
) -> Result<(), Fail>
    requires stack { S.usable stack }
    requires layer { L.usable layer }
{
    let under_two = layer
        .with_filter(LevelFilter::TRACE)
        .with_filter(LevelFilter::TRACE);
    on_stack(rt, alloc, by, stack, under_two)
}

/// Puts two filters round a layer with four, of which the inner one refuses. Numbers are given from
/// the outermost filter on, from 0, and two filters more will stand outside these: so the inner one
/// here is number 3, which refuses.
fn in_four_more<S: Subscriber + Drop + AsLayer<Recorder>, L: Layer<S> + Drop + AsLayer<Recorder>>(
    rt: &(impl Abort + Wait),
    alloc: Global,
    by: By,
    stack: S,
    layer: L,
) -> Result<(), Fail>
    requires stack { S.usable stack }
    requires layer { L.usable layer }
{
    let under_two = layer
        .with_filter(LevelFilter::WARN)
        .with_filter(LevelFilter::TRACE);
    in_two_more(rt, alloc, by, stack, under_two)
}

/// Puts two filters that pass all round a layer with two, and then four more.
fn in_six_more<S: Subscriber + Drop + AsLayer<Recorder>, L: Layer<S> + Drop + AsLayer<Recorder>>(
    rt: &(impl Abort + Wait),
    alloc: Global,
    by: By,
    stack: S,
    layer: L,
) -> Result<(), Fail>
    requires stack { S.usable stack }
    requires layer { L.usable layer }
{
    let under_two = layer
        .with_filter(LevelFilter::TRACE)
        .with_filter(LevelFilter::TRACE);
    in_four_more(rt, alloc, by, stack, under_two)
}

/// Puts eight filters round a recorder, on a stack of another.
fn in_eight<S: Subscriber + Drop + AsLayer<Recorder>>(
    rt: &(impl Abort + Wait),
    alloc: Global,
    by: By,
    stack: S,
) -> Result<(), Fail>
    requires { S.usable stack }
{
    let under_two = Recorder::new(alloc)
        .with_filter(LevelFilter::TRACE)
        .with_filter(LevelFilter::TRACE);
    in_six_more(rt, alloc, by, stack, under_two)
}

/// Puts a recorder without a filter on a stack, and one under eight filters outside it.
fn outside_base<S: Subscriber + Drop, L: Layer<S> + Drop + AsLayer<Recorder>>(
    rt: &(impl Abort + Wait),
    alloc: Global,
    by: By,
    stack: S,
    base: L,
) -> Result<(), Fail>
    requires stack { S.usable stack }
    requires layer { L.usable base }
{
    in_eight(rt, alloc, by, put(stack, base)?)
}

/// Has such a dispatcher open an info span, of which all but the recorder under eight filters are
/// told, and a warn span, of which all are.
fn tells_by(rt: &(impl Abort + Wait), alloc: Global, by: By) -> Result<(), Fail> {
    outside_base(rt, alloc, by, Registry::new(alloc), Recorder::new(alloc))
}

#[test]
fn of_eight_filters_number_3_refuses(rt: HostRuntime) -> Result<(), Fail> {
    tells_by(&rt, rt.alloc(), By::Own(Keeping::Answers))
}

#[test]
fn of_eight_filters_number_3_refuses_where_nothing_is_kept(rt: HostRuntime) -> Result<(), Fail> {
    tells_by(&rt, rt.alloc(), By::Own(Keeping::Nothing))
}

#[test]
fn of_eight_filters_number_3_refuses_where_workers_share(rt: HostRuntime) -> Result<(), Fail> {
    tells_by(&rt, rt.alloc(), By::Shared)
}
