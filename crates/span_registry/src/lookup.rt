//! Spans are found by their ids, in whatever a registry stands in.
ghost use Rattle.std.specs.Borrow.{sem};
ghost use Rattle.std.specs.Prelude.{◌≡◌, IfErr, IfOk, OnErr};
ghost use Rattle.span_store.specs.Data.{FindsData};
ghost use Rattle.span_store.specs.Step.{HandsOut, RefusesFilter};
ghost use Rattle.span_store.specs.Store.{IsForest, RegistryState};
ghost use Rattle.span_registry.specs.Lends.{lends_registry};
ghost use Rattle.span_registry.specs.References.{FindsSpan};

use crate::mask::Mask;
use crate::scope::SpanRef;
use span_core::{FilterId, Id, TraceError};
use span_store::{Data, Registry};

/// What a registry stands in: the registry itself, or layers around it.
///
/// Stands for `tracing_subscriber::registry::LookupSpan`.
pub trait LookupSpan {
    /// The registry of the value.
    ghost registry: { Self → RegistryState };

    /// The value with another registry.
    ghost with_registry: { Self → RegistryState → Self };

    /// The registry that the value stands on.
    fn root(&self) -> &Registry
        ensures { result.now ≡ registry self.now };

    /// The registry that the value stands on, to be changed.
    fn root_mut(&mut self) -> &mut Registry
        ensures* writes_back { sem 𝓛 (lends_registry Self.row with_registry self.entry result) }
        ensures value { result.now ≡ registry self.old };

    /// The data of a span that is in the store, closing or not.
    fn span_data(&self, id: Id) -> Option<Data<'_>>
        ensures found { FindsData (registry self.now).store id result }
        ensures forest { IsForest (registry self.now).store.spans };

    /// Hands out the next filter: 0, 1, and so on. Refused past the limit of 128
    /// (`TooManyFilters`).
    ///
    /// Stands for the crate's `register_filter`, which panics there.
    fn register_filter(&mut self) -> Result<FilterId, TraceError>
        ensures filter { IfOk result (λ id. HandsOut id (registry self.old) (registry self.new)) }
        ensures alone { self.new ≡ with_registry self.old (registry self.new) }
        ensures refused { IfErr result (RefusesFilter (registry self.old)) }
        ensures unchanged { OnErr result (self.new ≡ self.old) };

    /// A reference to a span that is in the store, closing or not, under a mask of no filter.
    final fn span(&self, id: Id) -> Option<SpanRef<'_, Self>>
        ensures { FindsSpan registry self.now id result }
    {
        let data = self.span_data(id)?;
        Some(SpanRef::new(self, data, Mask::none()))
    }

    ghost registry_with: { (s : Self) (w : RegistryState) → registry (with_registry s w) ≡ w };

    ghost with_twice: { (s : Self) (v w : RegistryState)
        → with_registry (with_registry s v) w ≡ with_registry s w };

    ghost with_own: { (s : Self) → with_registry s (registry s) ≡ s };
}
