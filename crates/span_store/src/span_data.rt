//! What a look-up finds of a span.
ghost use Rattle.std.specs.Prelude.{◌≡◌, ℕ, Bool, IsTrue, Option};
ghost use Rattle.std.specs.Option.{option_map};
ghost use Rattle.span_core.specs.Filters.{is_enabled};
ghost use Rattle.span_core.specs.Span.{number_of};
ghost use Rattle.span_core.specs.declared.metadata.Metadata.{Metadata};
ghost use Rattle.span_core.specs.declared.filter.FilterId.{FilterId};
ghost use Rattle.span_core.specs.declared.span.Id.{Id};
ghost use Rattle.span_extensions.specs.Shown.{shown_map};
ghost use Rattle.span_extensions.specs.declared.extensions.ExtensionMap.{ExtensionMap};

use crate::span_record::SpanRecord;
use span_core::{FilterId, Id, Metadata};
use span_extensions::{ExtensionMap, Extensions};

/// What is kept of a span, to be read.
///
/// Stands for `tracing_subscriber::registry::SpanData`.
pub trait SpanData {
    /// The span's id.
    ghost id_of: { Self → Id };

    /// The span's metadata.
    ghost metadata_of: { Self → Metadata };

    /// The number of the span's parent.
    ghost parent_of: { Self → Option ℕ };

    /// The span's extensions.
    ghost extensions_of: { Self → ExtensionMap };

    /// Whether the span is enabled for a filter.
    ghost enabled_for: { Self → FilterId → Bool };

    /// The span's id.
    fn id(&self) -> Id
        ensures { result ≡ id_of self.now };

    /// The span's metadata.
    fn metadata(&self) -> Metadata
        ensures { result ≡ metadata_of self.now };

    /// The id of the span's parent, whether that is hidden or not.
    fn parent(&self) -> Option<Id>
        ensures { option_map number_of result ≡ parent_of self.now };

    /// The span's extensions.
    fn extensions(&self) -> Extensions<'_>
        ensures { shown_map result ≡ extensions_of self.now };

    /// True where the span is enabled for a filter. Data that know no filters answer so for each.
    fn is_enabled_for(&self, _filter: FilterId) -> bool
        ensures enabled { IsTrue (enabled_for self.now _filter) → IsTrue result }
    {
        true
    }
}

/// What a registry keeps of a span, borrowed from it.
///
/// Stands for `tracing_subscriber::registry::Data`.
#[derive(Drop)]
pub struct Data<'a> {
    pub(crate) id: Id,
    pub(crate) record: &'a SpanRecord,
    pub(crate) extensions: &'a ExtensionMap,
}

impl SpanData for Data<'_> {
    ghost use Rattle.span_store.specs.Data.{data_extensions, data_id, data_span};

    ghost id_of = { data_id };

    ghost metadata_of = { λ d. (data_span d).metadata };

    ghost parent_of = { λ d. (data_span d).parent };

    ghost extensions_of = { data_extensions };

    ghost enabled_for = { λ d filter. is_enabled (data_span d).verdict filter };

    fn id(&self) -> Id {
        self.id
    }

    fn metadata(&self) -> Metadata {
        self.record.metadata
    }

    fn parent(&self) -> Option<Id> {
        self.record.parent
    }

    fn extensions(&self) -> Extensions<'_> {
        Extensions::new(self.extensions)
    }

    /// Whether none of the id's filters refused the span when it was made. False where the id is
    /// unattached.
    fn is_enabled_for(&self, filter: FilterId) -> bool
        ensures enabled { IsTrue (is_enabled (data_span self.now).verdict filter) → IsTrue result }
        ensures exact { result ≡ is_enabled (data_span self.now).verdict filter }
    {
        self.record.verdict.is_enabled(filter)
    }
}
