//! The layer that counts: in the stacks of one thread, and in the receiver that threads share.
ghost use Rattle.std.specs.Prelude.{◌≡◌};
ghost use Rattle.span_bench.specs.Counter.{counted, notices_of};

use span_layers::Observe;
use span_registry::{ContextMut, Notice, Subscriber};

/// Counts what it is notified of: a layer that does nothing would be left out by the compiler.
#[derive(Drop)]
pub struct Counter {
    notices: u64,
}

impl Counter {
    /// Nothing was counted.
    pub fn new() -> Counter
        ensures { notices_of result ≡ 0 }
    {
        Counter { notices: 0 }
    }

    /// How many notices it counted.
    pub fn notices(&self) -> u64
        ensures { result ≡ notices_of self.now }
    {
        self.notices
    }
}

impl<S: Subscriber> Observe<S> for Counter {
    ghost observed = { λ x e lane under v y w. (y ≡ counted x) × (w ≡ v) };

    fn observe(&mut self, _notice: Notice<'_, '_>, _ctx: &mut ContextMut<'_, S>) {
        self.notices = self.notices.saturating_add(1);
    }
}
