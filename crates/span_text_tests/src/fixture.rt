//! Layers on stacks, put in use.
ghost use Rattle.std.specs.Prelude.{IfOk};
ghost use Rattle.span_dispatch.specs.Serve.{stack_of};
ghost use Rattle.span_stacks.specs.Layered.{inner_of, outer_of};

use span_core::TraceError;
use span_dispatch::Dispatch;
use span_layers::Layer;
use span_registry::Subscriber;
use span_stacks::{Layered, SubscriberExt};
use std::alloc::Global;

/// Puts a layer on a stack.
pub(crate) fn put<S: Subscriber + Drop, L: Layer<S> + Drop>(
    stack: S,
    layer: L,
) -> Result<Layered<L, S>, TraceError>
    requires layer { L.usable layer }
    requires stack { S.usable stack }
    ensures layer { IfOk result (λ made. L.usable (outer_of made)) }
    ensures stack { IfOk result (λ made. S.usable (inner_of made)) }
{
    match stack.with(layer) {
        Ok(made) => Ok(made),
        Err(back) => Err(back.error),
    }
}

/// Puts a layer on a stack, and that in use.
pub(crate) fn in_use<S: Subscriber + Drop, L: Layer<S> + Drop>(
    alloc: Global,
    stack: S,
    layer: L,
) -> Result<Dispatch<Layered<L, S>>, TraceError>
    requires stack { S.usable stack }
    requires layer { L.usable layer }
    ensures { IfOk result (λ made. ⟦<Layered<L, S> as Subscriber>⟧.usable (stack_of made)) }
{
    let made = put(stack, layer)?;
    Ok(Dispatch::new(alloc, made))
}
