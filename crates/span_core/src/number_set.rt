//! Sets of filter numbers.
ghost use Rattle.std.specs.Prelude.{◌≡◌, ◌↔◌, ℕ, ◌<◌, ◌^◌, ◌&&◌, ◌==◌, IsBitSet, IsTrue, false};
ghost use Rattle.span_core.specs.declared.number_set.TheConstants.{LIMIT};

use std::fmt;

/// How many filters there are at most: their numbers are below this.
pub const LIMIT: usize = 128;

/// A set of numbers of filters, as a word.
#[derive(Clone, Copy, PartialEq, Eq)]
pub struct NumberSet {
    /// The set's word: bit n is 1 where n is in the set.
    bits: u128,
    ghost fits: { bits < 2 ^ 128 },
}

impl NumberSet {
    ghost use Rattle.span_core.specs.NumberSet.{SetsAll, has_number, some_below};

    /// The set of no number.
    pub fn none() -> NumberSet
        ensures { (n : ℕ) → has_number result n ≡ false }
    {
        NumberSet { bits: 0 }
    }

    /// The set of this number alone.
    pub fn of(number: u32) -> NumberSet
        requires { number < LIMIT }
        ensures { (n : ℕ) → has_number result n ≡ (n == number) }
    {
        NumberSet { bits: 1 << number }
    }

    /// Whether the number is in the set.
    #[tactic(auto, using(crate::proofs::Words::none_past))]
    pub fn contains(&self, number: u32) -> bool
        ensures { result ≡ has_number self.now number }
    {
        (number as usize) < LIMIT && (self.bits >> number) & 1 == 1
    }

    /// This set with all of these numbers put in, or with all of them taken out.
    pub fn with(self, numbers: NumberSet, held: bool) -> NumberSet
        ensures { SetsAll (has_number self) (has_number result) (has_number numbers) held }
    {
        let bits = if held {
            self.bits | numbers.bits
        } else {
            self.bits & !numbers.bits
        };
        NumberSet { bits }
    }

    /// Whether some number is in both sets.
    pub fn meets(&self, other: &NumberSet) -> bool
        ensures { result ≡ some_below LIMIT (λ n. has_number self.now n && has_number other.now n) }
    {
        self.bits & other.bits != 0
    }

    /// The word in which a 1 stands for each number of the set.
    pub fn word(&self) -> u128
        ensures { (n : ℕ) → IsBitSet result n ↔ IsTrue (has_number self.now n) }
    {
        self.bits
    }
}

/// Shown as `{0, 3}`.
impl fmt::Debug for NumberSet {
    fn fmt<W: fmt::Write>(&self, f: &mut fmt::Formatter<W>) -> fmt::Result {
        f.debug_set()
            .entries((0..LIMIT as u32).filter(|n| self.contains(*n)))
            .finish()
    }
}

/// The word in which a 1 stands for each number of the set, as `1001` for 0 and 3.
impl fmt::Binary for NumberSet {
    fn fmt<W: fmt::Write>(&self, f: &mut fmt::Formatter<W>) -> fmt::Result {
        fmt::Binary::fmt(&self.bits, f)
    }
}
