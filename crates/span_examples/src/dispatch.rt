//! Requests, served by a dispatcher, and what a recorder in its stack keeps of them.
ghost use Rattle.std.specs.Prelude.{◌≡◌, IfErr, IfOk};
ghost use Rattle.span_examples.specs.Dispatches.{KeepsWhatPasses};

use span_core::{Lane, LevelFilter, Metadata, TraceError};
use span_dispatch::{Answer, Dispatch, Recorder, Request, Which, WhichParent};
use span_registry::Registry;
use span_stacks::{Filtered, LayerExt, Layered, SubscriberExt, laws};
use std::alloc::Global;

/// A recorder under a level, on a registry.
pub type Recorded = Layered<Filtered<Recorder, LevelFilter>, Registry>;

/// Serves two spans, the second in the first, and an event, in a new stack. Its recorder keeps what
/// the level passes.
pub fn record_some(
    alloc: Global,
    level: LevelFilter,
    lane: Lane,
    outer: Metadata,
    inner: Metadata,
    event: Metadata,
) -> Result<(Dispatch<Recorded>, Vec<Answer>), TraceError>
    ensures kept { IfOk result (KeepsWhatPasses level lane outer inner event) }
    ensures memory { IfErr result (λ e. e ≡ TraceError.OutOfMemory) }
{
    laws::numbers_are_own();
    let layer = Recorder::new(alloc).with_filter(level);
    let stack = match Registry::new(alloc).with(layer) {
        Ok(stack) => stack,
        Err(back) => return Err(back.error),
    };
    let mut dispatch = Dispatch::uncached(alloc, stack);
    let values = &[];
    let requests = [
        Request::NewSpan {
            lane,
            metadata: outer,
            parent: WhichParent::Root,
            values,
        },
        Request::NewSpan {
            lane,
            metadata: inner,
            parent: WhichParent::Explicit(Which::Made(0)),
            values,
        },
        Request::Event {
            lane,
            metadata: event,
            parent: WhichParent::Contextual,
            values,
        },
    ];
    let answers = dispatch.serve(alloc, &requests)?;
    Ok((dispatch, answers))
}
