//! The receiver that the threads share: a layer that counts, over one that vetoes what is less
//! severe than info, over a registry.
ghost use Rattle.span_stacks.specs.Layered.{inner_of};
ghost use Rattle.span_store.specs.Store.{IsFresh};
ghost use Rattle.std.specs.Prelude.{◌≡◌, IfOk};

use crate::fault::Fault;
use crate::layers::{Counting, counting};
use span_core::LevelFilter;
use span_registry::Subscriber;
use span_stacks::{Layered, SubscriberExt};

/// A layer that counts, over a stack.
pub type CountingStack<S> = Layered<Counting, S>;

/// A layer that vetoes what is less severe than info, over a stack.
pub type VetoingStack<S> = Layered<LevelFilter, S>;

/// Puts a layer that counts on a stack.
pub fn counting_stack<S: Subscriber + Drop>(stack: S) -> Result<CountingStack<S>, Fault>
    requires usable { S.usable stack }
    requires fresh { IsFresh (S.registry stack) }
    ensures usable { IfOk result (λ made. ⟦<CountingStack<S> as Subscriber>⟧.usable made) }
    ensures fresh { IfOk result (λ made. IsFresh (S.registry (inner_of made))) }
{
    match stack.with(counting()) {
        Ok(made) => Ok(made),
        Err(back) => Err(Fault::Refused(back.error)),
    }
}

/// Puts a layer on a stack that vetoes what is less severe than info. Then its hint is info.
pub fn vetoing_stack<S: Subscriber + Drop>(stack: S) -> Result<VetoingStack<S>, Fault>
    requires usable { S.usable stack }
    requires fresh { IsFresh (S.registry stack) }
    ensures usable { IfOk result (λ made. ⟦<VetoingStack<S> as Subscriber>⟧.usable made) }
    ensures fresh { IfOk result (λ made. IsFresh (S.registry (inner_of made))) }
{
    match stack.with(LevelFilter::INFO) {
        Ok(made) => Ok(made),
        Err(_) => Err(Fault::Undone),
    }
}
