//! The stack that calls of dispatchers are tried on.
ghost use Rattle.span_stacks.specs.Layered.{inner_of, outer_of};
ghost use Rattle.std.specs.Prelude.{IfOk};

use crate::fault::Fault;
use span_core::LevelFilter;
use span_dispatch::Recorder;
use span_layers::Layer;
use span_registry::{Registry, Subscriber};
use span_stacks::{Filtered, LayerExt, Layered, SubscriberExt};
use std::alloc::Global;

/// A stack with a recorder under a level.
pub(crate) trait Tried: Subscriber + Drop {
    /// Such a stack, of which nothing was asked.
    fn made(alloc: Global) -> Result<Self, Fault>
        ensures { IfOk result Self.usable };

    /// The level.
    fn level(&self) -> LevelFilter;

    /// The recorder.
    fn recorder(&self) -> &Recorder;
}

/// A recorder under a level, on a registry.
type Recording = Layered<Filtered<Recorder, LevelFilter>, Registry>;

/// Outside it that level as a layer, which vetoes what is above it.
pub(crate) type Stack = Layered<LevelFilter, Recording>;

/// A layer on a subscriber.
fn put<S: Subscriber + Drop, L: Layer<S> + Drop>(stack: S, layer: L) -> Result<Layered<L, S>, Fault>
    requires layer { L.usable layer }
    requires stack { S.usable stack }
    ensures layer { IfOk result (λ made. L.usable (outer_of made)) }
    ensures stack { IfOk result (λ made. S.usable (inner_of made)) }
{
    match stack.with(layer) {
        Ok(made) => Ok(made),
        Err(back) => Err(Fault::Refused(back.error)),
    }
}

/// A layer on a subscriber, and outside it a level.
fn under_level<S: Subscriber + Drop, L: Layer<S> + Drop>(
    stack: S,
    layer: L,
) -> Result<Layered<LevelFilter, Layered<L, S>>, Fault>
    requires layer { L.usable layer }
    requires stack { S.usable stack }
    ensures layer { IfOk result (λ made. L.usable (outer_of (inner_of made))) }
    ensures stack { IfOk result (λ made. S.usable (inner_of (inner_of made))) }
{
    put(put(stack, layer)?, LevelFilter::INFO)
}

impl Tried for Stack {
    fn made(alloc: Global) -> Result<Stack, Fault> {
        let layer = Recorder::new(alloc).with_filter(LevelFilter::INFO);
        under_level(Registry::new(alloc), layer)
    }

    fn level(&self) -> LevelFilter {
        *self.inner().outer().filter()
    }

    fn recorder(&self) -> &Recorder {
        self.inner().outer().layer()
    }
}
