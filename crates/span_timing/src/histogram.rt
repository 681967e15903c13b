//! How times are spread.
ghost use Rattle.std.specs.Prelude.{◌≡◌, ◌≤◌, ◌<◌, ◌^◌, ◌++◌, ◌∷◌, [], ℕ, List, OnErr, OnOk, length};
ghost use Rattle.span_timing.specs.Histogram.{IsOf, IsQuantile, IsSame, bucket_end, counted, counts_in, most_in, quantile_in};
ghost use Rattle.span_times.specs.Measure.{capped};

use std::alloc::{AllocError, Global};
use std::collections::BTreeMap;

/// How times are spread: how many fell into each bucket, and the greatest.
///
/// Each time below 32 has a bucket of its own; above, each power of two is cut into 16 buckets. So
/// however many times it is given, a histogram has 976 counts at most, and a quantile is a
/// sixteenth too great at most.
#[derive(Drop)]
pub struct Histogram {
    counts: BTreeMap<u64, u64>,
    most: u64,
}

impl Clone for Histogram {
    ghost is_clone = { IsSame };

    fn clone(&self) -> Result<Histogram, AllocError> {
        let counts = self.counts.clone()?;
        Ok(Histogram {
            counts,
            most: self.most,
        })
    }
}

impl Histogram {
    /// No times yet.
    pub fn new(alloc: Global) -> Histogram
        ensures { IsOf [] result }
    {
        Histogram {
            counts: BTreeMap::new(alloc),
            most: 0,
        }
    }

    /// Adds a time. Where memory is refused, the histogram stays.
    pub fn add(&mut self, time: u64) -> Result<(), AllocError>
        ensures added { OnOk result ((times : List ℕ) → IsOf times self.old
            → IsOf (times ++ time ∷ []) self.new) }
        ensures counts { OnErr result (counts_in self.new ≡ counts_in self.old) }
        ensures most { OnErr result (most_in self.new ≡ most_in self.old) }
    {
        let end = bucket_end(time);
        let so_far = self.counts.get(&end).copied().unwrap_or(0);
        self.counts.insert(end, so_far.saturating_add(1))?;
        self.most = self.most.max(time);
        Ok(())
    }

    /// How many times it was given, up to `u64::MAX`.
    pub fn count(&self) -> u64
        ensures { result ≡ capped (counted self.now) }
    {
        let mut count = 0u64;
        for (_, times) in self.counts.iter() {
            count = count.saturating_add(*times);
        }
        count
    }

    /// The greatest time, exactly, and 0 where there is none.
    pub fn most(&self) -> u64
        ensures { result ≡ most_in self.now }
    {
        self.most
    }

    /// A time up to which so many parts of the whole lie, as `quantile(99, 100)`, at most a
    /// sixteenth too great. It is 0 where there is no time.
    pub fn quantile(&self, parts: u32, whole: u32) -> u64
        ensures rank { (times : List ℕ) → IsOf times self.now → length times < 2 ^ 64
            → 0 < length times → 0 < parts → parts ≤ whole
            → IsQuantile parts whole times result }
        ensures most { result ≤ most_in self.now }
        ensures exact { result ≡ quantile_in parts whole self.now }
    {
        let wanted = u128::from(self.count()) * u128::from(parts);
        let mut count = 0u64;
        for (end, times) in self.counts.iter() {
            count = count.saturating_add(*times);
            if u128::from(count) * u128::from(whole) >= wanted {
                return self.most.min(*end);
            }
        }
        self.most
    }
}

/// Where the bucket of a time ends.
fn bucket_end(time: u64) -> u64
    ensures { result ≡ bucket_end time }
{
    let width = 2u64.pow(59 - time.max(16).leading_zeros());
    time - time % width + (width - 1)
}
