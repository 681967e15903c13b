//! Lists of requests, served with a timeline outermost.
ghost use Rattle.std.specs.Prelude.{IfErr, IfOk};
ghost use Rattle.span_dispatch.specs.Serve.{stack_of};
ghost use Rattle.span_times.specs.Serving.{AnswersTimed, FindsNoMemory};
ghost use Rattle.span_dispatch.specs.Contract.{StaysReadyWith};
ghost use Rattle.span_registry.specs.Reload.{KeepsRules};

use crate::clock::Now;
use crate::timeline::Timeline;
use span_core::TraceError;
use span_dispatch::{Answer, Dispatch, Request};
use span_layers::Observer;
use span_registry::Subscriber;
use span_stacks::Layered;
use std::alloc::Global;

/// A stack, and outside it a timeline.
pub type WithTimeline<S, C> = Layered<Observer<Timeline<C>>, S>;

/// Serves requests in order, with one answer for each; the timeline keeps a point for all that it
/// is notified of, unless it failed.
pub fn serve_timed<S: Subscriber, C: Now>(
    alloc: Global,
    dispatch: &mut Dispatch<WithTimeline<S, C>>,
    requests: &[Request<'_>],
) -> Result<Vec<Answer>, TraceError>
    requires { ⟦<WithTimeline<S, C> as Subscriber>⟧.usable (stack_of dispatch.old) }
    ensures usable { ⟦<WithTimeline<S, C> as Subscriber>⟧.usable (stack_of dispatch.new) }
    ensures ready { StaysReadyWith ⟦<WithTimeline<S, C> as Subscriber>⟧ KeepsRules dispatch.old
        dispatch.new }
    ensures answered { IfOk result (AnswersTimed C.latest C.gives
        ⟦<WithTimeline<S, C> as Subscriber>⟧ requests.now dispatch.old dispatch.new) }
    ensures refused { IfErr result (λ error. FindsNoMemory error dispatch.old dispatch.new) }
{
    let answers = dispatch.serve(alloc, requests)?;
    Ok(answers)
}
