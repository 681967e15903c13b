//! The same recorder under the same level in two stacks: what else stands in a stack makes no
//! difference to it.
ghost use Rattle.std.specs.Prelude.{IfErr, IfOk, ◌≡◌};
ghost use Rattle.span_dispatch.specs.Serve.{Served};
ghost use Rattle.span_examples.specs.Isolation.{KeepTheSame, ServesFirst};

use crate::dispatch::Recorded;
use span_core::{LevelFilter, TraceError};
use span_dispatch::{Answer, Dispatch, Recorder, Request};
use span_registry::{Registry, Subscriber};
use span_stacks::{Filtered, LayerExt, Layered, SubscriberExt};
use std::alloc::Global;

/// A recorder under a level, outside another on a registry.
pub type Beside = Layered<Filtered<Recorder, LevelFilter>, Recorded>;

/// A dispatcher with what it answered.
pub type WithAnswers<S> = (Dispatch<S>, Vec<Answer>);

/// Serves the same requests on a recorder under a level alone, and on one beside another recorder
/// under another level.
///
/// Where both were answered the same, the recorder that stands alone and the one beside another
/// went through the same.
pub fn record_alone_and_beside(
    alloc: Global,
    level: LevelFilter,
    other: LevelFilter,
    requests: &[Request<'_>],
) -> Result<(WithAnswers<Recorded>, WithAnswers<Beside>), TraceError>
    ensures same { let one = ⟦<Recorded as Subscriber>⟧ in let two = ⟦<Beside as Subscriber>⟧ in
        IfOk result (KeepTheSame level other requests.now
        (Served one.registry one.with_registry one.has_form one.stepped one.reloaded one.hears
        one.acts_at requests.now)
        (Served two.registry two.with_registry two.has_form two.stepped two.reloaded two.hears
        two.acts_at requests.now)) }
    ensures memory { IfErr result (λ e. e ≡ TraceError.OutOfMemory) }
{
    span_stacks::laws::numbers_are_own();
    span_promises::laws::other_layers_make_no_difference::<Recorded, Beside>();
    let first = Recorder::new(alloc).with_filter(level);
    let alone = match Registry::new(alloc).with(first) {
        Ok(stack) => stack,
        Err(back) => return Err(back.error),
    };
    let second = Recorder::new(alloc).with_filter(level);
    let within = match Registry::new(alloc).with(second) {
        Ok(stack) => stack,
        Err(back) => return Err(back.error),
    };
    let third = Recorder::new(alloc).with_filter(other);
    let beside = match within.with(third) {
        Ok(stack) => stack,
        Err(back) => return Err(back.error),
    };
    Ok((
        serve_first(alloc, alone, requests)?,
        serve_first(alloc, beside, requests)?,
    ))
}

/// Puts a stack in use, serves requests with it, and gives the answers, too.
pub(crate) fn serve_first<S: Subscriber + Drop>(
    alloc: Global,
    stack: S,
    requests: &[Request<'_>],
) -> Result<WithAnswers<S>, TraceError>
    requires { S.usable stack }
    ensures served { IfOk result
        (ServesFirst S.registry S.with_registry S.has_form S.stepped S.reloaded S.hears S.acts_at
        S.registered requests.now stack) }
    ensures memory { IfErr result (λ e. e ≡ TraceError.OutOfMemory) }
{
    let mut dispatch = Dispatch::uncached(alloc, stack);
    let answers = dispatch.serve(alloc, requests)?;
    Ok((dispatch, answers))
}
