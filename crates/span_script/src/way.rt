//! The ways in which a stack serves the requests of a script.
ghost use Rattle.std.specs.Prelude.{◌≡◌, ⊤, IfErr, IfOk, length};
ghost use Rattle.span_store.specs.Store.{IsFresh};
ghost use Rattle.span_script.specs.Stacks.{ServesInUse};

use crate::run_fault::RunFault;
use span_dispatch::{Answer, Dispatch, Request};
use span_registry::Subscriber;
use std::alloc::Global;

/// A way in which a stack serves requests.
pub(crate) trait Way {
    /// What is left beside the answers and the stack.
    type Left: Drop;

    /// The stack's dispatcher alone serves them, in their order.
    ghost alone: { Type 0 };

    /// What is known of what is left.
    ghost is_left: { Self.Left → Type 0 };

    /// Puts a stack in use, and serves requests with it, one answer for each.
    fn serve<S: Subscriber + Drop>(
        self,
        alloc: Global,
        stack: S,
        requests: &[Request<'_>],
    ) -> Result<(Vec<Answer>, Dispatch<S>, Self::Left), RunFault>
        requires usable { S.usable stack }
        requires fresh { IsFresh (S.registry stack) }
        ensures each { IfOk result (λ r. length r.0.items ≡ length requests.now) }
        ensures alone { IfOk result (λ r.
            alone → ServesInUse S.Subscriber requests.now stack (r.0, r.1)) }
        ensures left { IfOk result (λ r. is_left r.2) }
        ensures fault { IfErr result (λ fault. fault ≡ RunFault.Memory) };
}

/// The stack's dispatcher alone.
#[derive(Drop)]
pub(crate) struct Alone;

impl Way for Alone {
    type Left = ();

    ghost alone = { ⊤ };

    ghost is_left = { λ left. ⊤ };

    fn serve<S: Subscriber + Drop>(
        self,
        alloc: Global,
        stack: S,
        requests: &[Request<'_>],
    ) -> Result<(Vec<Answer>, Dispatch<S>, ()), RunFault> {
        let mut dispatch = Dispatch::new(alloc, stack);
        match dispatch.serve(alloc, requests) {
            Ok(answers) => Ok((answers, dispatch, ())),
            Err(_) => Err(RunFault::Memory), // It is refused for nothing else.
        }
    }
}
