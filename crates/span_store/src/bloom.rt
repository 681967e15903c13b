//! Sets of ids that may hold more than was put in.
ghost use Rattle.std.specs.Prelude.{◌≡◌, ℕ, ◌<◌, ◌%◌, ◌↔◌, IsTrue};
ghost use Rattle.span_core.specs.Span.{number_of};
ghost use Rattle.span_store.specs.private.Bloom.{MayHold};

use span_core::Id;

/// A set of ids, as a Bloom filter of one word: it holds each id that was put in, and maybe others.
#[derive(Clone, Copy)]
pub(crate) struct Bloom {
    /// Bit n is 1 where an id was put in that leaves n when divided by 64.
    bits: u64,
}

impl Bloom {
    /// A set of no id.
    pub(crate) fn new() -> Bloom
        ensures { (x : ℕ) → ¬ (MayHold result x) }
    {
        Bloom { bits: 0 }
    }

    /// Puts an id in.
    pub(crate) fn insert(&mut self, id: Id)
        ensures put { MayHold self.new (number_of id) }
        ensures kept { (x : ℕ) → MayHold self.old x → MayHold self.new x }
    {
        self.bits |= 1 << bit_of(id);
    }

    /// Whether the id may have been put in.
    pub(crate) fn may_hold(self, id: Id) -> bool
        ensures { IsTrue result ↔ MayHold self (number_of id) }
    {
        (self.bits >> bit_of(id)) & 1 == 1
    }
}

/// The bit that stands for an id.
fn bit_of(id: Id) -> u32
    ensures bit { result ≡ number_of id % 64 }
    ensures within { result < 64 }
{
    (id.into_u64() % 64) as u32
}
