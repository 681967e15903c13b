//! Tests of levels that are set: what is asked anew, what a refusal leaves as it was, and what open
//! spans keep.
ghost use Rattle.span_dispatch.specs.Serve.{stack_of};

use crate::cache::{count_one, sent_under};
use crate::requests::{
    AsLayer, AsLayers, Keeping, UnderOne, event, made, new_span, put_in_use, serve,
};
use span_core::{Id, Level, LevelFilter, Metadata, TraceError};
use span_dispatch::{Answer, Dispatch, Recorded, Recorder, Request, Which, WhichParent};
use span_filters::{Filter, filter_fn};
use span_layer_tests::fixture::{LANE, put};
use span_layers::Layer;
use span_registry::{Registry, Subscriber};
use span_stacks::{LayerExt, Layered};
use span_targets::Setting;
use std::alloc::Global;
use std::cell::Cell;
use std::process::Abort;
use std::rc::Rc;
use std::test::Fail;

/// Sets a level.
fn set<S: Subscriber>(
    dispatch: &mut Dispatch<S>,
    number: u32,
    level: LevelFilter,
) -> Result<(), TraceError>
    requires { S.usable (stack_of dispatch.old) }
    ensures { S.usable (stack_of dispatch.new) }
{
    dispatch.reload(number, Setting::Level(level))
}

/// What a dispatcher says of an event of level info: whether it was made, and the hint then.
type Said = (Result<bool, TraceError>, Option<LevelFilter>);

/// Of a stack whose one filter is the level WARN: what is said before that is INFO, and what then.
fn raised_by_calls<S: Subscriber>(
    rt: &impl Abort,
    dispatch: &mut Dispatch<S>,
    before: Said,
    after: Said,
) -> Result<(), Fail>
    requires { S.usable (stack_of dispatch.old) }
    ensures { S.usable (stack_of dispatch.new) }
{
    assert!(rt; sent_under(dispatch) == before);
    assert!(rt; set(dispatch, 1, LevelFilter::INFO) == Err(TraceError::NotSettable(1)));
    assert!(rt; sent_under(dispatch) == before);
    assert!(rt; set(dispatch, 0, LevelFilter::INFO) == Ok(()));
    assert!(rt; sent_under(dispatch) == after);
    Ok(())
}

/// A recorder was told of one event.
fn told_once(rt: &impl Abort, recorder: &Recorder) {
    assert!(rt; recorder.notices() == [Recorded::Event(LANE, 5)].as_slice());
}

/// A recorder under WARN is notified of the third of three events: by then its level is INFO.
fn the_third_event_alone<S: Subscriber + Drop, L: Layer<S> + Drop + AsLayer<Recorder>>(
    rt: &impl Abort,
    alloc: Global,
    stack: S,
    layer: L,
    keeps: Keeping,
    said: [Said; 2],
) -> Result<(), Fail>
    requires stack { S.usable stack }
    requires layer { L.usable layer }
{
    let [before, after] = said;
    let mut dispatch = put_in_use(alloc, stack, layer, keeps)?;
    raised_by_calls(rt, &mut dispatch, before, after)?;
    told_once(rt, dispatch.stack().as_layer());
    Ok(())
}

#[test]
fn a_level_is_set_by_a_call(rt: HostRuntime) -> Result<(), Fail> {
    let said = [
        (Ok(false), Some(LevelFilter::WARN)),
        (Ok(true), Some(LevelFilter::INFO)),
    ];
    let under_warn = Recorder::new(rt.alloc()).with_filter(LevelFilter::WARN);
    let registry = Registry::new(rt.alloc());
    the_third_event_alone(
        &rt,
        rt.alloc(),
        registry,
        under_warn,
        Keeping::Answers,
        said,
    )?;
    let asked_each_time = [(Ok(true), None); 2];
    let under_warn = Recorder::new(rt.alloc()).with_filter(LevelFilter::WARN);
    let registry = Registry::new(rt.alloc());
    the_third_event_alone(
        &rt,
        rt.alloc(),
        registry,
        under_warn,
        Keeping::Nothing,
        asked_each_time,
    )
}

/// An event of level info, two levels that no filter takes, and the event again.
fn refused_levels() -> [Request<'static>; 4] {
    [
        event(5, Level::INFO),
        Request::Reload(2, Setting::Level(LevelFilter::INFO)),
        Request::Reload(1, Setting::Level(LevelFilter::INFO)),
        event(5, Level::INFO),
    ]
}

/// What these are answered.
fn refused_around(before: Answer) -> [Answer; 4] {
    [
        before,
        Answer::Refused(TraceError::NotSettable(2)),
        Answer::Refused(TraceError::NotSettable(1)),
        before,
    ]
}

/// Of a stack whose filters are the level WARN, and one that passes the same and counts how often
/// it is asked: what an event of level info is answered before the level is INFO, and how often the
/// other filter was asked before, and then.
fn raised_in_lists<S: Subscriber>(
    rt: &impl Abort,
    alloc: Global,
    dispatch: &mut Dispatch<S>,
    asked: &Cell<u32>,
    before: Answer,
    counts: [u32; 2],
) -> Result<(), Fail>
    requires { S.usable (stack_of dispatch.old) }
    ensures { S.usable (stack_of dispatch.new) }
{
    let answers = serve(alloc, dispatch, &refused_levels())?;
    assert!(rt; answers.as_slice() == refused_around(before).as_slice());
    let asked_before = asked.get();
    let raised = [
        Request::Reload(0, Setting::Level(LevelFilter::INFO)),
        event(5, Level::INFO),
    ];
    let answers = serve(alloc, dispatch, &raised)?;
    assert!(rt; answers.as_slice() == [Answer::Done, Answer::Done].as_slice());
    assert!(rt; [asked_before, asked.get()] == counts);
    Ok(())
}

/// A recorder under WARN, beside one under a closure, is notified of the third of three events: by
/// then its level is INFO.
fn the_third_event_beside_a_closure(
    rt: &impl Abort,
    alloc: Global,
    keeps: Keeping,
    before: Answer,
    counts: [u32; 2],
) -> Result<(), Fail> {
    let asked = Rc::new(alloc, Cell::new(0))?;
    let counter = asked.clone()?;
    let counted = filter_fn(move |meta: &Metadata| {
        count_one(&counter);
        meta.level() <= Level::WARN
    });
    let registry = Registry::new(alloc);
    told_beside(
        rt,
        alloc,
        keeps,
        registry,
        counted,
        (&asked, before, counts),
    )
}

/// A cell that counts how often a filter is asked, what an event is answered at first, and the
/// counts.
type Expected<'a> = (&'a Cell<u32>, Answer, [u32; 2]);

/// Puts a recorder under WARN on a stack, and one under another filter outside it, and looks at
/// what both are told.
fn told_beside<S: Subscriber + Drop, F: Filter<Layered<UnderOne, S>> + Drop>(
    rt: &impl Abort,
    alloc: Global,
    keeps: Keeping,
    stack: S,
    other: F,
    expected: Expected<'_>,
) -> Result<(), Fail>
    requires stack { S.usable stack }
    requires filter { F.usable other }
{
    let under_warn = Recorder::new(alloc).with_filter(LevelFilter::WARN);
    told_outside(rt, alloc, keeps, stack, under_warn, other, expected)
}

/// Puts the recorder under WARN on a stack, and one under another filter outside it, and looks at
/// what both are told.
fn told_outside<
    S: Subscriber + Drop,
    L: Layer<S> + Drop + AsLayer<Recorder>,
    F: Filter<Layered<L, S>> + Drop,
>(
    rt: &impl Abort,
    alloc: Global,
    keeps: Keeping,
    stack: S,
    under_warn: L,
    other: F,
    expected: Expected<'_>,
) -> Result<(), Fail>
    requires stack { S.usable stack }
    requires layer { L.usable under_warn }
    requires filter { F.usable other }
{
    let under_other = Recorder::new(alloc).with_filter(other);
    let stack = put(stack, under_warn)?;
    told_under(rt, alloc, keeps, stack, under_other, expected)
}

/// Puts the outer recorder's layer on a stack, and looks at what both recorders are told.
fn told_under<S: Subscriber + Drop + AsLayer<Recorder>, L: Layer<S> + Drop + AsLayer<Recorder>>(
    rt: &impl Abort,
    alloc: Global,
    keeps: Keeping,
    stack: S,
    layer: L,
    expected: Expected<'_>,
) -> Result<(), Fail>
    requires stack { S.usable stack }
    requires layer { L.usable layer }
{
    let mut dispatch = put_in_use(alloc, stack, layer, keeps)?;
    raised_beside(rt, alloc, &mut dispatch, expected)
}

/// The inner recorder alone is told.
fn raised_beside<S: Subscriber + AsLayers<Recorder>>(
    rt: &impl Abort,
    alloc: Global,
    dispatch: &mut Dispatch<S>,
    expected: Expected<'_>,
) -> Result<(), Fail>
    requires { S.usable (stack_of dispatch.old) }
{
    let (asked, before, counts) = expected;
    raised_in_lists(rt, alloc, dispatch, asked, before, counts)?;
    let stack = dispatch.stack();
    assert!(rt; stack.as_outer().notices().is_empty());
    told_once(rt, stack.as_inner());
    Ok(())
}

/// Where interests are kept, the closure is asked of the callsite at the first event, and not again
/// for the two levels that are refused. Behind the level that is set it is asked of it again, and
/// of the event, since the two filters differ now. Where nothing is kept, it is asked of each
/// event.
#[test]
fn a_level_is_set_in_a_list(rt: HostRuntime) -> Result<(), Fail> {
    the_third_event_beside_a_closure(&rt, rt.alloc(), Keeping::Answers, Answer::Dropped, [1, 3])?;
    the_third_event_beside_a_closure(&rt, rt.alloc(), Keeping::Nothing, Answer::Done, [2, 3])
}

/// A span of this level, in none.
fn root(callsite: u64, level: Level) -> Request<'static> {
    new_span(callsite, level, WhichParent::Root)
}

/// A span of level debug and one of level info, and, the level set to DEBUG, another debug span.
/// With the level OFF the first two are entered and left, an error event is sent, and all three are
/// dropped.
fn spans_between_levels() -> [Request<'static>; 13] {
    [
        root(1, Level::DEBUG),
        root(0, Level::INFO),
        Request::Reload(0, Setting::Level(LevelFilter::DEBUG)),
        Request::Enter(LANE, Which::Made(0)),
        root(1, Level::DEBUG),
        Request::Reload(0, Setting::Level(LevelFilter::OFF)),
        Request::Enter(LANE, Which::Made(1)),
        event(5, Level::ERROR),
        Request::Exit(LANE, Which::Made(1)),
        Request::Exit(LANE, Which::Made(0)),
        Request::Drop(LANE, Which::Made(0)),
        Request::Drop(LANE, Which::Made(1)),
        Request::Drop(LANE, Which::Made(4)),
    ]
}

/// Serves them. Answers the three spans.
fn serve_between_levels<S: Subscriber>(
    alloc: Global,
    dispatch: &mut Dispatch<S>,
) -> Result<[Id; 3], Fail>
    requires { S.usable (stack_of dispatch.old) }
{
    let answers = serve(alloc, dispatch, &spans_between_levels())?;
    Ok([made(&answers, 0)?, made(&answers, 1)?, made(&answers, 4)?])
}

/// A recorder that began under INFO: of the first span it is told nothing, and of the other two all
/// but what no level lets by.
fn told_of_its_own(rt: &impl Abort, recorder: &Recorder, [_, info, debug]: [Id; 3]) {
    assert!(rt;
        recorder.notices()
            == [
                Recorded::New(LANE, info),
                Recorded::New(LANE, debug),
                Recorded::Enter(LANE, info),
                Recorded::Exit(LANE, info),
                Recorded::Close(LANE, info),
                Recorded::Close(LANE, debug),
            ]
            .as_slice()
    );
}

/// The recorder without a filter.
fn told_of_all(rt: &impl Abort, recorder: &Recorder, [first, info, debug]: [Id; 3]) {
    assert!(rt;
        recorder.notices()
            == [
                Recorded::New(LANE, first),
                Recorded::New(LANE, info),
                Recorded::Enter(LANE, first),
                Recorded::New(LANE, debug),
                Recorded::Enter(LANE, info),
                Recorded::Event(LANE, 5),
                Recorded::Exit(LANE, info),
                Recorded::Exit(LANE, first),
                Recorded::Close(LANE, first),
                Recorded::Close(LANE, info),
                Recorded::Close(LANE, debug),
            ]
            .as_slice()
    );
}

/// Each of two recorders is told of its own.
fn tells_between_levels<S: Subscriber + AsLayers<Recorder>>(
    rt: &impl Abort,
    alloc: Global,
    dispatch: &mut Dispatch<S>,
) -> Result<(), Fail>
    requires { S.usable (stack_of dispatch.old) }
{
    let spans = serve_between_levels(alloc, dispatch)?;
    let stack = dispatch.stack();
    told_of_its_own(rt, stack.as_outer(), spans);
    told_of_all(rt, stack.as_inner(), spans);
    Ok(())
}

/// Puts a recorder under INFO outside one that is in a layer.
fn tells_outside<S: Subscriber + Drop, L: Layer<S> + Drop + AsLayer<Recorder>>(
    rt: &impl Abort,
    alloc: Global,
    stack: S,
    layer: L,
) -> Result<(), Fail>
    requires stack { S.usable stack }
    requires layer { L.usable layer }
{
    tells_under_info(rt, alloc, put(stack, layer)?)
}

/// Puts a recorder under INFO on a stack of another, and sets levels while spans are open.
fn tells_under_info<S: Subscriber + Drop + AsLayer<Recorder>>(
    rt: &impl Abort,
    alloc: Global,
    stack: S,
) -> Result<(), Fail>
    requires { S.usable stack }
{
    let under_info = Recorder::new(alloc).with_filter(LevelFilter::INFO);
    tells_under(rt, alloc, stack, under_info)
}

/// Puts the outer recorder's layer on a stack of another, and sets levels while spans are open.
fn tells_under<S: Subscriber + Drop + AsLayer<Recorder>, L: Layer<S> + Drop + AsLayer<Recorder>>(
    rt: &impl Abort,
    alloc: Global,
    stack: S,
    layer: L,
) -> Result<(), Fail>
    requires stack { S.usable stack }
    requires layer { L.usable layer }
{
    tells_between_levels(
        rt,
        alloc,
        &mut put_in_use(alloc, stack, layer, Keeping::Answers)?,
    )
}

#[test]
fn open_spans_keep_their_verdicts(rt: HostRuntime) -> Result<(), Fail> {
    let recorder = Recorder::new(rt.alloc());
    tells_outside(&rt, rt.alloc(), Registry::new(rt.alloc()), recorder)
}
