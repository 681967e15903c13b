//! A recorder whose level is set while the program runs.
ghost use Rattle.std.specs.Prelude.{◌≡◌, IfErr, IfOk};
ghost use Rattle.span_examples.specs.Reload.{Reloads};

use crate::dispatch::Recorded;
use span_core::{LevelFilter, TraceError};
use span_dispatch::{Dispatch, Recorder, Request};
use span_registry::{Registry, Subscriber};
use span_stacks::{LayerExt, SubscriberExt, laws};
use span_targets::Setting;
use std::alloc::Global;

/// Serves requests with a new recorder under WARN, sets its level to DEBUG, and serves more. The
/// recorder keeps what it kept, and the level is always taken: its filter has the number 0.
pub fn reload(
    alloc: Global,
    first: &[Request<'_>],
    rest: &[Request<'_>],
) -> Result<Dispatch<Recorded>, TraceError>
    ensures reloads { IfOk result (Reloads ⟦<Recorded as Subscriber>⟧ first.now rest.now) }
    ensures memory { IfErr result (λ e. e ≡ TraceError.OutOfMemory) }
{
    laws::numbers_are_own();
    let layer = Recorder::new(alloc).with_filter(LevelFilter::WARN);
    let stack = match Registry::new(alloc).with(layer) {
        Ok(stack) => stack,
        Err(back) => return Err(back.error),
    };
    let mut dispatch = Dispatch::new(alloc, stack);
    dispatch.serve(alloc, first)?;
    dispatch.reload(0, Setting::Level(LevelFilter::DEBUG))?;
    dispatch.serve(alloc, rest)?;
    Ok(dispatch)
}
