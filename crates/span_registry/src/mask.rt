//! The filters that one looks under.
ghost use Rattle.std.specs.Prelude.{IsTrue};
ghost use Rattle.span_core.specs.Filters.{is_attached};

use span_core::{FilterId, FilterMap};
use span_store::{Data, SpanData};

/// A set of filters: a span that one of them refused is hidden. Each of them has its number.
#[derive(Clone, Copy)]
pub struct Mask {
    filters: FilterId,

    ghost attached: { IsTrue (is_attached filters) },
}

impl Mask {
    ghost use Rattle.std.specs.Prelude.{◌≡◌, ◌&&◌, false, not};
    ghost use Rattle.span_core.specs.Filters.{has_filter, is_enabled, meets, refuses, union};
    ghost use Rattle.span_store.specs.Data.{data_span};
    ghost use Rattle.span_registry.specs.Mask.{filters_of};

    /// The mask of no filter.
    pub(crate) fn none() -> Mask
        ensures { filters_of result ≡ (λ n. false) }
    {
        Mask {
            filters: FilterId::none(),
        }
    }

    /// The mask with the filters of this id too, which is attached.
    pub(crate) fn and(self, filter: FilterId) -> Mask
        requires { IsTrue (is_attached filter) }
        ensures { filters_of result ≡ union (filters_of self) (has_filter filter) }
    {
        Mask {
            filters: self.filters.and(filter),
        }
    }

    /// Whether the id is attached, and neither one of its filters nor one of the mask's refused.
    pub(crate) fn passes(self, verdict: FilterMap, filter: FilterId) -> bool
        ensures { result
            ≡ (not (meets (filters_of self) (refuses verdict)) && is_enabled verdict filter) }
    {
        verdict.is_enabled(self.filters.and(filter))
    }

    /// Whether one of the mask's filters refused the span when it was made.
    pub(crate) fn hides(self, found: &Data<'_>) -> bool
        ensures { result ≡ meets (filters_of self) (refuses (data_span found.now).verdict) }
    {
        !found.is_enabled_for(self.filters)
    }
}
