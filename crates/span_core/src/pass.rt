//! What the filters said during one request.
ghost use Rattle.std.specs.Prelude.{◌≡◌, false, Option, None, Some};
ghost use Rattle.span_core.specs.Filters.{IsEmpty, SetsFilters, is_attached, refuses};
ghost use Rattle.span_core.specs.Pass.{interest_sum, refused_of};
ghost use Rattle.span_core.specs.Interest.{sum_with};

use crate::filter::{FilterId, FilterMap};
use crate::interest::Interest;

/// The filters' answers during one request: which of them refused, and the sum of their interests.
///
/// Stands for `tracing_subscriber`'s private `FilterState`, which each thread has.
#[derive(Clone, Copy, Debug, PartialEq, Eq)]
pub struct Pass {
    refused: FilterMap,
    interest: Option<Interest>,
}

impl Pass {
    /// A pass in which no filter was asked.
    pub fn new() -> Pass
        ensures refused { IsEmpty (refuses (refused_of result)) }
        ensures interest { interest_sum result ≡ None }
    {
        Pass {
            refused: FilterMap::none(),
            interest: None,
        }
    }

    /// The filters that refused in this pass.
    pub fn refused(&self) -> FilterMap
        ensures { result ≡ refused_of self.now }
    {
        self.refused
    }

    /// Keeps the answer of this id's filters: they refuse where they aren't enabled, and no longer
    /// do where they are. An unattached id changes nothing.
    pub fn set(&mut self, id: FilterId, enabled: bool)
        ensures unattached { is_attached id ≡ false → self.new ≡ self.old }
        ensures members { SetsFilters (refused_of self.old) (refused_of self.new) id enabled }
        ensures interest { interest_sum self.new ≡ interest_sum self.old }
    {
        self.refused = self.refused.set(id, enabled);
    }

    /// Adds an interest to the sum: the first is taken, an equal one leaves the sum unchanged, a
    /// different one makes it `Sometimes`.
    pub fn add_interest(&mut self, added: Interest)
        ensures interest { interest_sum self.new ≡ Some (sum_with (interest_sum self.old) added) }
        ensures refused { refused_of self.new ≡ refused_of self.old }
    {
        let sum = match self.interest {
            Some(sum) => sum.and(added),
            None => added,
        };
        self.interest = Some(sum);
    }

    /// Forgets the sum of interests.
    pub fn clear_interest(&mut self)
        ensures interest { interest_sum self.new ≡ None }
        ensures refused { refused_of self.new ≡ refused_of self.old }
    {
        self.interest = None;
    }

    /// Takes out the sum of interests, if one was added.
    pub fn take_interest(&mut self) -> Option<Interest>
        ensures taken { result ≡ interest_sum self.old }
        ensures interest { interest_sum self.new ≡ None }
        ensures refused { refused_of self.new ≡ refused_of self.old }
    {
        self.interest.take()
    }
}
