//! The spans that are in the store, with their extensions, each found by its id.
ghost use Rattle.std.specs.FinMap.{get};
ghost use Rattle.std.specs.FinSet.{len as set_len};
ghost use Rattle.std.specs.Option.{option_copied, option_map};
ghost use Rattle.std.specs.Prelude.{◌≡◌, ◌≤◌, ◌↔◌, IfErr, IfOk, IfSome, None, IsSome, IsTrue, MatchBool, OnErr, OnOk, Some, length, max, slice_set, ◌<◌};
ghost use Rattle.span_core.specs.Span.{number_of};
ghost use Rattle.span_extensions.specs.Extensions.{no_values};
ghost use Rattle.span_store.specs.private.StoreRepr.{AreKeptIssued, CountsOneChild, GainsHandle, GrowsEmpty, HasNoRoom, HasNoneReserved, HasRecord, HasRoom, Inserts, KeepsNothing, LosesHandle, RefusesGain, RefusesLoss, RetiresKept, TakesOut, Writes, counts_in, fewer, more, no_spans};

use crate::keyed::Keyed;
use crate::limits::Limits;
use crate::registry::Released;
use crate::slot::Slots;
use crate::span_record::{Counts, SpanRecord};
use span_core::{Id, TraceError};
use span_extensions::ExtensionMap;
use std::alloc::Global;
use std::marker::Model;

/// The spans in the store, seen as the map from their numbers to their records, and that to their
/// extensions.
#[derive(Drop)]
pub(crate) struct SpanStore {
    pub(crate) slots: Slots,
    records: Keyed<SpanRecord>,
    /// The extensions under the records' keys, and under those of what is reserved. Those of no
    /// record hold no value. They and the slots are open to `Registry::extensions_mut`: what a call
    /// lends of a value that holds a static text isn't followed back into it.
    pub(crate) extensions: Vec<ExtensionMap>,
}

impl Model for SpanStore {
    ghost use Rattle.std.specs.Coded.{codes};
    ghost use Rattle.std.specs.FinMap.{code as map_code};
    ghost use Rattle.std.specs.FinSet.{code as set_code};
    ghost use Rattle.span_extensions.specs.contracts.extensions.ExtensionMap as values;
    ghost use Rattle.span_store.specs.private.StoreRepr.{KeepsSpans, KeptSpans, kept_of};
    ghost use Rattle.span_store.specs.contracts.limits.Limits as bounds;
    ghost use Rattle.span_store.specs.contracts.span_record.SpanRecord as kept;

    ghost Value = { KeptSpans };

    ghost coded = { Prim.hlevel (
      codes,
      map_code,
      set_code,
      kept.the_row.coded,
      values.the_row.coded,
      bounds.the_row.coded,
    ) };

    ghost view = { kept_of };

    ghost invariant = { KeepsSpans };
}

impl SpanStore {
    /// A store without spans. It takes no memory.
    pub(crate) fn new(alloc: Global, limits: Limits) -> Self
        ensures { result ≡ no_spans limits }
    {
        SpanStore {
            slots: Slots::new(alloc, limits),
            records: Keyed::new(alloc),
            extensions: Vec::new(alloc),
        }
    }

    /// The limits of the store.
    pub(crate) fn limits(&self) -> Limits
        ensures { result ≡ self.now.limits }
    {
        self.slots.limits()
    }

    /// How many slots held their last span.
    pub(crate) fn retired(&self) -> u32
        ensures retired { result ≡ self.now.retired }
        ensures late { RetiresKept self.now }
    {
        self.slots.retired()
    }

    /// Whether no id was issued.
    pub(crate) fn is_fresh(&self) -> bool
        ensures issued { IsTrue result ↔ (set_len self.now.issued ≡ 0) }
        ensures nothing { IsTrue result → KeepsNothing self.now }
    {
        self.slots.is_fresh()
    }

    /// Every span was issued.
    pub(crate) fn is_sound(&self)
        ensures { AreKeptIssued self.now }
    {
        self.slots.is_sound();
    }

    /// Whether there is no slot for one more span.
    pub(crate) fn is_full(&self) -> bool
        ensures { MatchBool result (HasNoRoom self.now) (HasRoom self.now) }
    {
        self.slots.are_full()
    }

    /// The record of a span.
    #[inline(always)]
    pub(crate) fn get(&self, id: Id) -> Option<&SpanRecord>
        ensures { option_copied result ≡ get self.now.records (number_of id) }
    {
        match self.slots.key_of(id) {
            Some(key) => self.records.get(key),
            None => None,
        }
    }

    /// The record of a span, and its extensions.
    #[inline(always)]
    pub(crate) fn get_both(&self, id: Id) -> Option<(&SpanRecord, &ExtensionMap)>
        ensures record { option_map (λ b. b.0.now) result ≡ get self.now.records (number_of id) }
        ensures extensions { option_map (λ b. b.1.now) result
            ≡ get self.now.extensions (number_of id) }
    {
        match self.slots.key_of(id) {
            Some(key) => self.records.get(key).zip(self.extensions.get(key)),
            None => None,
        }
    }

    /// How many handles and children a span has.
    #[inline(always)]
    pub(crate) fn counts_of(&self, id: Id) -> Option<Counts>
        ensures { result ≡ option_map counts_in (get self.now.records (number_of id)) }
    {
        match self.get(id) {
            Some(found) => Some(found.counts()),
            None => None,
        }
    }

    /// Takes a child from a span. Answers the span, if that is closing by this.
    pub(crate) fn lose_child(&mut self, id: Id) -> Option<Id>
        requires { HasRecord self.old id (λ r. 0 < r.children) }
        ensures written { Writes id fewer self.old self.new }
        ensures closing { IfSome result (λ p. (p ≡ id) × HasRecord self.old id CountsOneChild) }
        ensures still_open { result ≡ None → HasRecord self.old id (λ r. ¬ (CountsOneChild r)) }
    {
        let key = self.slots.key_of(id)?;
        let found = self.records.get_mut(key)?;
        found.children -= 1;
        match found.counts().state() {
            Released::Closing => Some(id),
            Released::StillOpen => None,
        }
    }

    /// Gives a span a child.
    pub(crate) fn gain_child(&mut self, id: Id, count: u32)
        requires { HasRecord self.old id (λ r. r.children < count) }
        ensures { Writes id more self.old self.new }
    {
        if let Some(key) = self.slots.key_of(id) {
            if let Some(found) = self.records.get_mut(key) {
                found.children += 1;
            }
        }
    }

    /// Takes a handle from a span, and answers whether the span is closing by that.
    ///
    /// Refused where the span isn't open (`UnknownSpan`), else where it has no handle (`NoHandle`).
    pub(crate) fn release(&mut self, id: Id) -> Result<Released, TraceError>
        ensures released { IfOk result (λ answer. LosesHandle id answer self.old self.new) }
        ensures refused { IfErr result (RefusesLoss self.old id) }
        ensures unchanged { OnErr result (self.new ≡ self.old) }
    {
        let Some(key) = self.slots.key_of(id) else {
            return Err(TraceError::UnknownSpan(id));
        };
        let Some(found) = self.records.get_mut(key) else {
            return Err(TraceError::UnknownSpan(id));
        };
        if !found.counts().is_open() {
            return Err(TraceError::UnknownSpan(id));
        }
        if found.handles == 0 {
            return Err(TraceError::NoHandle(id));
        }
        found.handles -= 1;
        Ok(found.counts().state())
    }

    /// Gives a span one more handle.
    ///
    /// Refused where the span isn't open (`UnknownSpan`), else where its handles are at the limit
    /// (`CountFull`).
    pub(crate) fn add_handle(&mut self, id: Id) -> Result<(), TraceError>
        ensures added { OnOk result (GainsHandle id self.old self.new) }
        ensures refused { IfErr result (RefusesGain self.old id) }
        ensures unchanged { OnErr result (self.new ≡ self.old) }
    {
        let count = self.limits().count;
        let Some(key) = self.slots.key_of(id) else {
            return Err(TraceError::UnknownSpan(id));
        };
        let Some(found) = self.records.get_mut(key) else {
            return Err(TraceError::UnknownSpan(id));
        };
        if !found.counts().is_open() {
            return Err(TraceError::UnknownSpan(id));
        }
        if found.handles >= count {
            return Err(TraceError::CountFull(id));
        }
        found.handles += 1;
        Ok(())
    }

    /// Holds memory for so many spans, those that there are and the retired slots among them.
    ///
    /// Refused for want of memory alone, where fewer were reserved.
    pub(crate) fn reserve(&mut self, alloc: Global, count: u32) -> Result<(), TraceError>
        ensures reserved { OnOk result
            (self.new ≡ record self.old { reserved = max self.old.reserved count }) }
        ensures memory { IfErr result
            (λ e. (e ≡ TraceError.OutOfMemory) × (self.old.reserved < count)) }
        ensures unchanged { OnErr result (self.new ≡ self.old) }
    {
        if count <= self.slots.reserved() {
            return Ok(());
        }
        let places = count as usize;
        let more = places.saturating_sub(self.records.len());
        self.records.reserve(more)?;
        reach(&mut self.extensions, alloc, places)?;
        self.slots.reserve(count)?;
        Ok(())
    }

    /// Puts a span in the store, under an id that was never issued.
    ///
    /// Refused for want of memory alone, where none is reserved for one more span.
    pub(crate) fn insert(&mut self, alloc: Global, span: SpanRecord) -> Result<Id, TraceError>
        requires { HasRoom self.old }
        ensures inserted { IfOk result (λ id. Inserts id span self.old self.new) }
        ensures memory { IfErr result
            (λ e. (e ≡ TraceError.OutOfMemory) × HasNoneReserved self.old) }
        ensures unchanged { OnErr result (self.new ≡ self.old) }
    {
        self.records.reserve(1)?;
        let key = self.records.vacant_key();
        reach(&mut self.extensions, alloc, key + 1)?;
        let id = self.slots.take(key)?;
        self.records.insert_reserved(span);
        Ok(id)
    }

    /// Takes a span out, with its extensions, and answers its parent. It needs no memory.
    pub(crate) fn remove(&mut self, id: Id) -> Option<Id>
        requires { IsSome (get self.old.records (number_of id)) }
        ensures parent { option_map (λ r. r.parent) (get self.old.records (number_of id))
            ≡ Some result }
        ensures taken { TakesOut id self.old self.new }
    {
        let key = self.slots.key_of(id)?;
        self.slots.give_back(id);
        forget(&mut self.extensions, key);
        let span = self.records.remove(key);
        span.parent
    }
}

/// Makes extensions without a value, until there are so many.
///
/// Refused for want of memory alone, where there are fewer.
fn reach(extensions: &mut Vec<ExtensionMap>, alloc: Global, count: usize) -> Result<(), TraceError>
    ensures reached { OnOk result (count ≤ length extensions.new.items) }
    ensures grown { GrowsEmpty extensions.old.items extensions.new.items }
    ensures memory { IfErr result
        (λ e. (e ≡ TraceError.OutOfMemory) × (length extensions.old.items < count)) }
{
    while extensions.len() < count {
        extensions.push(ExtensionMap::new(alloc))?;
    }
    Ok(())
}

/// Takes all values under this key out. The box that was made there stays.
fn forget(extensions: &mut Vec<ExtensionMap>, key: usize)
    requires { key < length extensions.old.items }
    ensures { extensions.new.items ≡ slice_set extensions.old.items key no_values }
{
    extensions[key].clear();
}
