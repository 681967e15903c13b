//! Which filters a layer stands under, and which filters refused.
ghost use Rattle.std.specs.Prelude.{◌≡◌, ℕ, ◌<◌, ◌==◌, IsTrue, false, not};
ghost use Rattle.span_core.specs.Filters.{HasFiltersOfBoth, IsEmpty, SetsFilters};
ghost use Rattle.span_core.specs.Filters.{has_filter, is_attached, is_enabled, refuses};
ghost use Rattle.span_core.specs.Word.{IsWord};
ghost use Rattle.span_core.specs.declared.number_set.TheConstants.{LIMIT};

use crate::number_set::{self, NumberSet};
use std::fmt;

/// The filters that a layer stands under: a set of numbers below 128, or unattached where a filter
/// has no number yet.
///
/// Stands for `tracing_subscriber::filter::FilterId`, where unattached is the set of all numbers.
#[derive(Clone, Copy, PartialEq, Eq)]
pub struct FilterId {
    /// The filters' numbers; none where the id is unattached.
    numbers: Option<NumberSet>,
}

impl FilterId {
    /// How many filters there may be: their numbers are below this.
    pub const LIMIT: u32 = number_set::LIMIT as u32;

    /// The id of no filter.
    pub fn none() -> FilterId
        ensures attached { IsTrue (is_attached result) }
        ensures members { IsEmpty (has_filter result) }
    {
        FilterId {
            numbers: Some(NumberSet::none()),
        }
    }

    /// The id of the filter with this number, which is below 128.
    pub fn of(number: u32) -> FilterId
        requires { number < LIMIT }
        ensures attached { IsTrue (is_attached result) }
        ensures members { (n : ℕ) → has_filter result n ≡ (n == number) }
    {
        FilterId {
            numbers: Some(NumberSet::of(number)),
        }
    }

    /// The id of a filter that has no number yet.
    pub fn unattached() -> FilterId
        ensures { is_attached result ≡ false }
    {
        FilterId { numbers: None }
    }

    /// Whether the id is unattached: its filter has no number yet.
    pub fn is_unattached(&self) -> bool
        ensures { result ≡ not (is_attached self.now) }
    {
        self.numbers.is_none()
    }

    /// Whether the filter with this number is among the id's: none is where the id is unattached.
    pub fn contains(&self, number: u32) -> bool
        ensures { result ≡ has_filter self.now number }
    {
        match &self.numbers {
            Some(numbers) => numbers.contains(number),
            None => false,
        }
    }

    /// The id of both ids' filters: the other where this one is unattached, and unattached where
    /// the other is.
    pub fn and(self, other: FilterId) -> FilterId
        ensures attached { is_attached result ≡ is_attached other }
        ensures unattached { is_attached self ≡ false → result ≡ other }
        ensures members { IsTrue (is_attached other) → HasFiltersOfBoth result self other }
    {
        match (self.numbers, other.numbers) {
            (Some(outer), Some(inner)) => FilterId {
                numbers: Some(outer.with(inner, true)),
            },
            _ => other,
        }
    }
}

/// The filters that refused, as a request's answers or a span's verdict.
///
/// Stands for `tracing_subscriber`'s private `FilterMap`.
#[derive(Clone, Copy, PartialEq, Eq)]
pub struct FilterMap {
    disabled_by: NumberSet,
}

impl FilterMap {
    /// The map in which no filter refused.
    pub(crate) fn none() -> FilterMap
        ensures { IsEmpty (refuses result) }
    {
        FilterMap {
            disabled_by: NumberSet::none(),
        }
    }

    /// Whether the id is attached and none of its filters refused.
    pub fn is_enabled(&self, id: FilterId) -> bool
        ensures { result ≡ is_enabled self.now id }
    {
        match id.numbers {
            Some(numbers) => !numbers.meets(&self.disabled_by),
            None => false,
        }
    }

    /// The filters that refused, as a word: its bit n is 1 exactly if filter n refuses.
    ///
    /// Own to this port.
    pub fn word(&self) -> u128
        ensures { IsWord self.now result }
    {
        self.disabled_by.word()
    }

    /// The map in which the id's filters refuse where they aren't enabled, and no longer do where
    /// they are. An unattached id changes nothing.
    pub(crate) fn set(self, id: FilterId, enabled: bool) -> FilterMap
        ensures unattached { is_attached id ≡ false → result ≡ self }
        ensures members { SetsFilters self result id enabled }
    {
        match id.numbers {
            Some(numbers) => FilterMap {
                disabled_by: self.disabled_by.with(numbers, !enabled),
            },
            None => self,
        }
    }
}

impl fmt::Debug for FilterId {
    fn fmt<W: fmt::Write>(&self, f: &mut fmt::Formatter<W>) -> fmt::Result {
        match &self.numbers {
            Some(numbers) => write!(f, "FilterId({numbers:?})"),
            None => write!(f, "FilterId(DISABLED)"),
        }
    }
}

impl fmt::Binary for FilterId {
    fn fmt<W: fmt::Write>(&self, f: &mut fmt::Formatter<W>) -> fmt::Result {
        match &self.numbers {
            Some(numbers) => {
                write!(f, "FilterId(")?;
                fmt::Binary::fmt(numbers, f)?;
                write!(f, ")")
            }
            None => write!(f, "FilterId(DISABLED)"),
        }
    }
}

impl fmt::Debug for FilterMap {
    fn fmt<W: fmt::Write>(&self, f: &mut fmt::Formatter<W>) -> fmt::Result {
        let numbers = &self.disabled_by;
        write!(f, "FilterMap {{ disabled_by: {numbers:?} }}")
    }
}

impl fmt::Binary for FilterMap {
    fn fmt<W: fmt::Write>(&self, f: &mut fmt::Formatter<W>) -> fmt::Result {
        write!(f, "FilterMap {{ bits: ")?;
        fmt::Binary::fmt(&self.disabled_by, f)?;
        write!(f, " }}")
    }
}
