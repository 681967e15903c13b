//! References to spans, and the spans around them.
ghost use Rattle.std.specs.List.{list_all};
ghost use Rattle.std.specs.Prelude.{IsTrue, is_some};

use crate::lookup::LookupSpan;
use crate::mask::Mask;
use smallvec::SmallVec;
use span_core::{FieldSet, Id, Metadata, TraceError};
use span_extensions::Extensions;
use span_store::{Data, SpanData};
use std::alloc::Global;
use std::fmt;

/// A span that was found, with the subscriber that it was found in and the mask that it was found
/// under.
///
/// Stands for `tracing_subscriber::registry::SpanRef`.
#[derive(Drop)]
pub struct SpanRef<'a, R> {
    subscriber: &'a R,
    data: Data<'a>,
    mask: Mask,
}

impl<'a, R> SpanRef<'a, R> {
    ghost use Rattle.std.specs.Prelude.{◌≡◌};
    ghost use Rattle.span_core.specs.Metadata.{fields_of, name_of};
    ghost use Rattle.span_extensions.specs.Shown.{shown_map};
    ghost use Rattle.span_store.specs.Data.{data_extensions, data_id, data_span};
    ghost use Rattle.span_registry.specs.Mask.{filters_of};
    ghost use Rattle.span_registry.specs.References.{extensions_of_reference, id_of_reference, mask_of, span_of_reference, subscriber_of};

    /// A reference to the span with these data.
    pub(crate) fn new(subscriber: &'a R, found: Data<'a>, mask: Mask) -> SpanRef<'a, R>
        ensures subscriber { subscriber_of result ≡ subscriber.now }
        ensures mask { mask_of result ≡ filters_of mask }
        ensures id { id_of_reference result ≡ data_id found.entry }
        ensures span { span_of_reference result ≡ data_span found.entry }
        ensures extensions { extensions_of_reference result ≡ data_extensions found.entry }
    {
        SpanRef {
            subscriber,
            data: found,
            mask,
        }
    }

    /// The span's id.
    pub fn id(&self) -> Id
        ensures { result ≡ id_of_reference self.now }
    {
        self.data.id()
    }

    /// The span's metadata.
    pub fn metadata(&self) -> Metadata
        ensures { result ≡ (span_of_reference self.now).metadata }
    {
        self.data.metadata()
    }

    /// The span's name.
    pub fn name(&self) -> &'static str
        ensures { result.now ≡ name_of (span_of_reference self.now).metadata }
    {
        self.metadata().name()
    }

    /// The names of the span's fields.
    pub fn fields(&self) -> FieldSet
        ensures { result ≡ fields_of (span_of_reference self.now).metadata }
    {
        self.metadata().fields()
    }

    /// The span's extensions.
    pub fn extensions(&self) -> Extensions<'_>
        ensures { shown_map result ≡ extensions_of_reference self.now }
    {
        self.data.extensions()
    }
}

impl<'a, R: LookupSpan> SpanRef<'a, R> {
    ghost use Rattle.std.specs.Option.{option_map};
    ghost use Rattle.std.specs.Prelude.{◌≡◌};
    ghost use Rattle.span_registry.specs.Mask.{filters_of};
    ghost use Rattle.span_registry.specs.References.{FindsNearest, parent_of_reference, reference_of, scope_of_reference, to_give};

    /// The span nearest to `from`, itself or above it, that the mask doesn't hide.
    #[inline(always)]
    fn nearest_shown(subscriber: &'a R, from: Option<Id>, mask: Mask) -> Option<SpanRef<'a, R>>
        ensures { FindsNearest R.registry subscriber.now (filters_of mask) from result }
    {
        let mut next = from;
        while let Some(id) = next {
            let data = subscriber.span_data(id)?;
            next = data.parent();
            if !mask.hides(&data) {
                return Some(SpanRef::new(subscriber, data, mask));
            }
        }
        None
    }

    /// The nearest ancestor of the span that the mask doesn't hide, under the same mask.
    pub fn parent(&self) -> Option<SpanRef<'a, R>>
        ensures { option_map reference_of result ≡ parent_of_reference R.registry self.now }
    {
        SpanRef::nearest_shown(self.subscriber, self.data.parent(), self.mask)
    }

    /// The span and its ancestors, leaf first, those that the mask hides left out.
    pub fn scope(&self) -> Scope<'a, R>
        ensures { to_give R.registry result ≡ scope_of_reference R.registry self.now }
    {
        Scope {
            subscriber: self.subscriber,
            next: Some(self.id()),
            mask: self.mask,
        }
    }
}

/// A span and its ancestors, leaf first, those that a mask hides left out.
///
/// Stands for `tracing_subscriber::registry::Scope`.
#[derive(Drop)]
pub struct Scope<'a, R> {
    subscriber: &'a R,
    next: Option<Id>,
    mask: Mask,
}

impl<'a, R: LookupSpan> Iterator for Scope<'a, R> {
    ghost use Rattle.std.specs.Iterator.{YieldsFirstBy, item_count};
    ghost use Rattle.span_registry.specs.References.{reference_of, to_give};

    type Item = SpanRef<'a, R>;

    ghost next_gives = { YieldsFirstBy reference_of (to_give R.registry) };

    ghost remaining = { item_count (to_give R.registry) };

    #[inline(always)]
    fn next(&mut self) -> Option<SpanRef<'a, R>> {
        match SpanRef::nearest_shown(self.subscriber, self.next, self.mask) {
            Some(found) => {
                self.next = found.data.parent();
                Some(found)
            }
            None => {
                self.next = None;
                None
            }
        }
    }
}

/// A span and its ancestors, the root first, those that a mask hides left out.
///
/// Stands for `tracing_subscriber::registry::ScopeFromRoot`.
pub struct ScopeFromRoot<'a, R> {
    /// The spans, leaf first. Each place holds one. Their type has `None` since a place that isn't
    /// used needs a value too.
    spans: SmallVec<Option<SpanRef<'a, R>>, 16>,

    ghost full: { IsTrue (list_all is_some spans.items) },
}

// (the lifetime has a name: under '_ a loop over it gets no proof)
impl<'a, R> Drop for ScopeFromRoot<'a, R> {
    fn drop(self) {
        let ScopeFromRoot { spans } = self;
    }
}

impl<'a, R: LookupSpan> Scope<'a, R> {
    ghost use Rattle.std.specs.Prelude.{◌≡◌, ◌≤◌, length, IfErr, IfOk, IsOk};
    ghost use Rattle.span_registry.specs.References.{Reverses, to_give};

    /// The spans of the scope from the root on. Up to 16 need no memory, and more are refused for
    /// want of memory alone.
    pub fn from_root(self, alloc: Global) -> Result<ScopeFromRoot<'a, R>, TraceError>
        ensures reversed { IfOk result (Reverses R.registry self.entry) }
        ensures memory { IfErr result (λ e. e ≡ TraceError.OutOfMemory) }
        ensures short { length (to_give R.registry self.entry) ≤ 16 → IsOk result }
    {
        let mut spans = SmallVec::new(alloc);
        for span in self {
            spans.push(Some(span))?;
        }
        Ok(ScopeFromRoot { spans })
    }
}

impl<'a, R> Iterator for ScopeFromRoot<'a, R> {
    ghost use Rattle.std.specs.Iterator.SizeHint.{IsWithinCount};
    ghost use Rattle.std.specs.Iterator.{UpTo, YieldsFirstBy, item_count};
    ghost use Rattle.std.specs.Prelude.{◌≡◌, length, IfSome, Some};
    ghost use Rattle.span_registry.specs.References.{reference_of, to_give_from_root};

    type Item = SpanRef<'a, R>;

    ghost next_gives = { YieldsFirstBy reference_of to_give_from_root };

    ghost remaining = { item_count to_give_from_root };

    fn next(&mut self) -> Option<SpanRef<'a, R>> {
        self.spans.pop().flatten()
    }

    /// As many spans as there are.
    fn size_hint(&self) -> (usize, Option<usize>)
        ensures lower { IsWithinCount result.0 (item_count to_give_from_root self.now) }
        ensures upper { IfSome result.1 (UpTo (item_count to_give_from_root self.now)) }
        ensures exact { let n = length (to_give_from_root self.now) in result ≡ (n, Some n) }
    {
        let len = self.spans.len();
        (len, Some(len))
    }
}

impl<R> fmt::Debug for ScopeFromRoot<'_, R> {
    fn fmt<W: fmt::Write>(&self, f: &mut fmt::Formatter<W>) -> fmt::Result {
        write!(f, "ScopeFromRoot {{ .. }}")
    }
}
