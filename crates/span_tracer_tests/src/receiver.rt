//! Receivers for tests.
ghost use Rattle.span_store.specs.Store.{IsFresh};

use span_dispatch::Dispatch;
use span_registry::Subscriber;
use span_tracer::Receiver;
use std::alloc::Global;

/// A receiver over this stack.
pub(crate) fn traced<S: Subscriber>(alloc: Global, stack: S) -> Receiver<S>
    requires usable { S.usable stack }
    requires fresh { IsFresh (S.registry stack) }
{
    Receiver::new(alloc, Dispatch::new(alloc, stack))
}
