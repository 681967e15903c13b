//! What the numbers of lanes and callsites are hashed by.
ghost use Rattle.std.specs.Hash as fed;
ghost use Rattle.std.specs.Hash.FoldHasher as folding;
ghost use Rattle.std.specs.List.{fold};
ghost use Rattle.std.specs.Prelude.{◌≡◌};
ghost use Rattle.span_store.specs.SeededState.{initial_hasher};

use std::hash::{BuildHasher, FoldHasher, Hasher};

/// Hashes the numbers of lanes and callsites by the kit's fast hasher, from a seed on.
///
/// Whoever knows the seed can choose numbers that are hashed alike, and a search among those takes
/// longer the more there are. Where others choose numbers, give a seed that nobody else knows, as
/// `RandomState::new(&rt)?.hash_one(0u64)` is one. The hasher is not cryptographic: whoever can
/// measure how long many calls take may still find such numbers.
#[derive(Clone, Copy)]
pub struct SeededState {
    initial: FoldHasher,
}

impl SeededState {
    /// Hashes by this seed.
    pub fn new(seed: u64) -> SeededState
        ensures { initial_hasher result ≡ fold folding.write folding.initial (fed.u64 seed) }
    {
        let mut initial = FoldHasher::default();
        initial.write_u64(seed);
        SeededState { initial }
    }

    /// Hashes by the seed that is the same in every program, as a map of the kit that is given no
    /// hasher does.
    pub fn fixed() -> SeededState
        ensures { initial_hasher result ≡ folding.initial }
    {
        SeededState {
            initial: FoldHasher::default(),
        }
    }
}

impl BuildHasher for SeededState {
    type Hasher = FoldHasher;

    ghost build_hasher = { initial_hasher };

    fn build_hasher(&self) -> FoldHasher {
        self.initial
    }
}
