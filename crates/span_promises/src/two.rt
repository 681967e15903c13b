//! Two recorders, each under a level of its own, on a registry.
ghost use Rattle.std.specs.Prelude.{◌≡◌, IfErr, IfOk};
ghost use Rattle.span_core.specs.Metadata.{callsite_of, level_of};
ghost use Rattle.span_dispatch.specs.Serve.{Served as ServedBy};
ghost use Rattle.span_promises.specs.Begins.{ServesAtFirst};
ghost use Rattle.span_promises.specs.Program.{KeepsEach};
ghost use Rattle.span_promises.specs.Promises.{ClosesChildrenFirst, ClosesOnce, DropsNothingWanted};

use span_core::{FieldSet, Kind, Lane, Level, LevelFilter, Metadata, TraceError};
use span_dispatch::{Answer, Dispatch, Recorder, Request, Which, WhichParent};
use span_registry::{Registry, Subscriber};
use span_stacks::{Filtered, LayerExt, Layered, SubscriberExt, laws};
use std::alloc::Global;

/// A recorder under a level.
type One = Filtered<Recorder, LevelFilter>;

/// Two recorders, each under a level of its own, on a registry. The filter of the outer one has the
/// number 0, and that of the inner one 1.
pub type Two = Layered<Layered<One, One>, Registry>;

/// A dispatcher with its answers.
pub type Served = (Dispatch<Two>, Vec<Answer>);

/// Serves requests on two new recorders, under these levels.
///
/// No new span and no event is dropped that a level passes at its turn. Neither recorder keeps two
/// closes of one span, nor a close of a parent before that of a child whose request named it.
pub fn record_two(
    alloc: Global,
    outer: LevelFilter,
    inner: LevelFilter,
    requests: &[Request<'_>],
) -> Result<Served, TraceError>
    ensures wanted { IfOk result (DropsNothingWanted outer inner requests.now) }
    ensures once { IfOk result ClosesOnce }
    ensures children_first { IfOk result (ClosesChildrenFirst requests.now) }
    ensures memory { IfErr result (λ e. e ≡ TraceError.OutOfMemory) }
{
    serve_at_first(alloc, outer, inner, requests)
}

/// Serves a span at `INFO`, entered and left, and in it an event at `WARN`, on two new recorders:
/// the outer one, under `INFO`, keeps all five notices, and the inner one, under `WARN`, the event
/// alone, unless something was refused or a recorder failed.
pub fn warnings_and_infos(alloc: Global) -> Result<Served, TraceError>
    ensures kept { IfOk result KeepsEach }
    ensures memory { IfErr result (λ e. e ≡ TraceError.OutOfMemory) }
{
    span_registry::laws::closes_once();
    span_dispatch::laws::a_close_is_told_to_whom_the_span_was();
    let lane = Lane(0);
    let request = callsite(0, "request", Level::INFO, Kind::SPAN);
    let late = callsite(1, "late", Level::WARN, Kind::EVENT);
    let values = &[];
    let requests = [
        Request::NewSpan {
            lane,
            metadata: request,
            parent: WhichParent::Contextual,
            values,
        },
        Request::Enter(lane, Which::Made(0)),
        Request::Event {
            lane,
            metadata: late,
            parent: WhichParent::Contextual,
            values,
        },
        Request::Exit(lane, Which::Made(0)),
        Request::Drop(lane, Which::Made(0)),
    ];
    serve_at_first(alloc, LevelFilter::INFO, LevelFilter::WARN, &requests)
}

/// A callsite without fields.
fn callsite(number: u64, name: &'static str, level: Level, kind: Kind) -> Metadata
    ensures number { callsite_of result ≡ number }
    ensures level { level_of result ≡ level }
{
    Metadata::new(number, name, "my_spans", level, kind, FieldSet::new(&[]))
}

/// Puts two new recorders under these levels, and the stack in use, and serves requests.
pub(crate) fn serve_at_first(
    alloc: Global,
    outer: LevelFilter,
    inner: LevelFilter,
    requests: &[Request<'_>],
) -> Result<Served, TraceError>
    ensures served { let two = ⟦<Two as Subscriber>⟧ in IfOk result (ServesAtFirst outer inner
        (ServedBy two.registry two.with_registry two.has_form two.stepped two.reloaded two.hears
        two.acts_at requests.now)) }
    ensures memory { IfErr result (λ e. e ≡ TraceError.OutOfMemory) }
{
    laws::numbers_are_own();
    let within = Recorder::new(alloc).with_filter(inner);
    let without = Recorder::new(alloc).with_filter(outer);
    let stack = match Registry::new(alloc).with(within.and_then(without)) {
        Ok(stack) => stack,
        Err(back) => return Err(back.error),
    };
    let mut dispatch = Dispatch::new(alloc, stack);
    let answers = dispatch.serve(alloc, requests)?;
    Ok((dispatch, answers))
}
