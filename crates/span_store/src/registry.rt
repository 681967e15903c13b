//! The store of spans, with the lanes' stacks: the calls that ask it, and those that change it.
ghost use Rattle.std.specs.Borrow.{sem};
ghost use Rattle.std.specs.FinMap.{get};
ghost use Rattle.std.specs.FinSet as set;
ghost use Rattle.std.specs.Option.{option_copied_mut, option_map, unwrap_or};
ghost use Rattle.std.specs.Prelude.{◌≡◌, ◌≤◌, ◌↔◌, [], OnErr, OnOk, IfErr, IfOk, IsSome, IsTrue, None};
ghost use Rattle.span_core.specs.Span.{asked_parent, number_of};
ghost use Rattle.span_store.specs.Data.{FindsData};
ghost use Rattle.span_store.specs.private.StoreRepr.{HasParent, IsParentAt, RefusesParentAt};
ghost use Rattle.span_store.specs.Lends.{lends_extensions};
ghost use Rattle.span_store.specs.Step.{Clones, Enters, Exits, HandsOut, Opens, RefusesClone, RefusesEnter, RefusesEntries, RefusesFilter, RefusesNew, RefusesPlaces, RefusesRelease, Releases, Removes, RetiresLate, ShowsCurrent, asked, entered_last, with_entries_reserved, with_places_reserved};
ghost use Rattle.span_store.specs.Store.{AreIssued, IsClosing, IsForest, IsFresh, IsInStore, IsOpen, new_registry, stack_on};

use crate::lane::LaneStacks;
use crate::limits::Limits;
use crate::seeded_state::SeededState;
use crate::span_data::Data;
use crate::span_record::SpanRecord;
use crate::span_store::SpanStore;
use crate::stack::LaneStack;
use span_core::{Attributes, Current, FilterId, FilterMap, Id, Lane, Parent, Pass, TraceError};
use span_extensions::ExtensionsMut;
use std::alloc::Global;
use std::fmt;
use std::marker::Model;

/// What is left of a span after a handle was taken from it.
#[derive(Clone, Copy, Debug, PartialEq, Eq)]
pub enum Released {
    /// The span has a handle or a child left.
    StillOpen,
    /// The span has neither: layers are to be notified of its close, and it is to be removed.
    Closing,
}

/// The store of spans, with the lanes' stacks.
///
/// Stands for `tracing_subscriber::registry::Registry`, owned and without locks.
pub struct Registry {
    alloc: Global,
    spans: SpanStore,
    stacks: LaneStacks,
    filters: u32,
}

impl Drop for Registry {
    fn drop(self) {
        let Registry {
            alloc,
            spans,
            stacks,
            filters,
        } = self;
    }
}

impl Model for Registry {
    ghost use Rattle.std.specs.Coded.{codes};
    ghost use Rattle.std.specs.FinMap.{code as map_code};
    ghost use Rattle.std.specs.FinSet.{code as set_code};
    ghost use Rattle.span_core.specs.contracts.filter.FilterMap as verdict;
    ghost use Rattle.span_core.specs.contracts.metadata.Metadata as metadata;
    ghost use Rattle.span_extensions.specs.contracts.extensions.ExtensionMap as values;
    ghost use Rattle.span_store.specs.Store.{RegistryState};
    ghost use Rattle.span_store.specs.contracts.limits.Limits as bounds;

    ghost Value = { RegistryState };

    ghost coded = { Prim.hlevel (
      codes,
      map_code,
      set_code,
      metadata.the_row.coded,
      verdict.the_row.coded,
      values.the_row.coded,
      bounds.the_row.coded,
    ) };

    ghost use Rattle.span_store.specs.private.State.{IsSound, state_of};

    ghost view = { state_of };

    ghost invariant = { IsSound };
}

impl Registry {
    /// An empty registry, with limits as high as they go.
    pub fn new(alloc: Global) -> Self
        ensures { result ≡ new_registry Limits.MAX }
    {
        Registry::with_limits(alloc, Limits::MAX)
    }

    /// An empty registry with these limits.
    pub fn with_limits(alloc: Global, limits: Limits) -> Self
        requires places { 1 ≤ limits.places }
        requires generations { 1 ≤ limits.generations }
        requires count { 1 ≤ limits.count }
        ensures { result ≡ new_registry limits }
    {
        Registry::with_hasher(alloc, limits, SeededState::fixed())
    }

    /// An empty registry with these limits, which hashes the numbers of lanes so, and dispatchers
    /// on it those of callsites. It is for numbers that somebody else chooses: under `new` and
    /// `with_limits` they can be chosen so that calls take long.
    ///
    /// Own to this port.
    pub fn with_hasher(alloc: Global, limits: Limits, hasher: SeededState) -> Self
        requires places { 1 ≤ limits.places }
        requires generations { 1 ≤ limits.generations }
        requires count { 1 ≤ limits.count }
        ensures { result ≡ new_registry limits }
    {
        Registry {
            alloc,
            spans: SpanStore::new(alloc, limits),
            stacks: LaneStacks::new(alloc, hasher),
            filters: 0,
        }
    }

    /// An empty registry in the same memory, with the same hasher, and limits as high as they go.
    pub fn emptied(&self) -> Self
        ensures { result ≡ new_registry Limits.MAX }
    {
        Registry::with_hasher(self.alloc, Limits::MAX, self.hasher())
    }

    /// What the numbers of lanes and callsites are hashed by.
    pub fn hasher(&self) -> SeededState {
        self.stacks.hasher()
    }

    /// Whether no id was issued; then the store has nothing.
    pub fn is_fresh(&self) -> bool
        ensures issued { IsTrue result ↔ (set.len self.now.store.issued ≡ 0) }
        ensures fresh { IsTrue result ↔ IsFresh self.now }
    {
        self.spans.is_fresh()
    }

    /// Whether the span has a handle or a child.
    pub fn is_open(&self, id: Id) -> bool
        ensures { IsTrue result ↔ IsOpen self.now.store.spans (number_of id) }
    {
        match self.spans.counts_of(id) {
            Some(counts) => counts.is_open(),
            None => false,
        }
    }

    /// The verdict of a span that is in the store, closing or not.
    #[inline(always)]
    pub fn verdict_of(&self, id: Id) -> Option<FilterMap>
        ensures { result
            ≡ option_map (λ r. r.verdict) (get self.now.store.spans (number_of id)) }
    {
        match self.spans.get(id) {
            Some(found) => Some(found.verdict),
            None => None,
        }
    }

    /// How many filters were handed out.
    pub fn filters(&self) -> u32
        ensures { result ≡ self.now.filters }
    {
        self.filters
    }

    /// How many places are retired: those that held their last span.
    pub fn retired(&self) -> u32
        ensures retired { result ≡ self.now.retired }
        ensures late { RetiresLate self.now }
    {
        self.spans.retired()
    }

    /// Holds memory for so many places, those that hold a span or are retired among them. Until as
    /// many do, a new span isn't refused for want of memory.
    ///
    /// Refused for want of memory alone, where fewer were reserved.
    pub fn reserve(&mut self, places: u32) -> Result<(), TraceError>
        ensures reserved { OnOk result (self.new ≡ with_places_reserved self.old places) }
        ensures memory { IfErr result (RefusesPlaces self.old places) }
        ensures unchanged { OnErr result (self.new ≡ self.old) }
    {
        self.spans.reserve(self.alloc, places)
    }

    /// Holds memory for so many entries on a lane's stack, those that are there among them. Until
    /// it has as many, the lane isn't refused a span for want of memory.
    ///
    /// Refused for want of memory alone, where fewer were reserved for the lane.
    pub fn reserve_entries(&mut self, lane: Lane, entries: usize) -> Result<(), TraceError>
        ensures reserved { OnOk result (self.new ≡ with_entries_reserved self.old lane entries) }
        ensures memory { IfErr result (RefusesEntries self.old lane entries) }
        ensures unchanged { OnErr result (self.new ≡ self.old) }
    {
        self.stacks.reserve(self.alloc, lane, entries)
    }

    /// Each chain of parents ends at a root, and every span in the store was issued.
    pub fn is_sound(&self)
        ensures forest { IsForest self.now.store.spans }
        ensures issued { AreIssued self.now.store }
    {
        self.spans.is_sound();
    }

    /// What is kept of a span that is in the store, closing or not.
    pub fn data_of(&self, id: Id) -> Option<Data<'_>>
        ensures found { FindsData self.now.store id result }
        ensures forest { IsForest self.now.store.spans }
    {
        let (record, extensions) = self.spans.get_both(id)?;
        Some(Data {
            id,
            record,
            extensions,
        })
    }

    /// The extensions of a span that is in the store, closing or not, to be read and changed.
    pub fn extensions_mut(&mut self, id: Id) -> Option<ExtensionsMut<'_>>
        ensures* writes_back { sem 𝓛 (lends_extensions self.entry id result) }
        ensures value { option_copied_mut result ≡ get self.old.store.extensions (number_of id) }
        ensures there { IsSome result ↔ IsInStore self.old.store.spans (number_of id) }
    {
        match self.spans.slots.key_of(id) {
            Some(key) => Some(&mut self.spans.extensions[key]),
            None => None,
        }
    }

    /// Hands out the next filter: 0, 1, and so on. Refused past the limit of 128
    /// (`TooManyFilters`).
    pub fn hand_out_filter(&mut self) -> Result<FilterId, TraceError>
        ensures filter { IfOk result (λ id. HandsOut id self.old self.new) }
        ensures refused { IfErr result (RefusesFilter self.old) }
        ensures unchanged { OnErr result (self.new ≡ self.old) }
    {
        if self.filters >= FilterId::LIMIT {
            return Err(TraceError::TooManyFilters);
        }
        let id = FilterId::of(self.filters);
        self.filters += 1;
        Ok(id)
    }

    /// Opens a span with one handle, and answers its id, which was never handed out before. The
    /// filters that the pass holds as refusing are its verdict.
    ///
    /// Refused where the explicit parent isn't open (`UnknownParent`), else where the parent's
    /// children are at the limit (`CountFull`), else where no place or id is left (`TooManySpans`),
    /// else for want of memory.
    pub fn open(
        &mut self,
        lane: Lane,
        attrs: &Attributes<'_>,
        pass: &Pass,
    ) -> Result<Id, TraceError>
        ensures opened { IfOk result
            (λ id. Opens lane (asked attrs.now pass.now) id self.old self.new) }
        ensures refused { IfErr result (RefusesNew self.old lane (asked_parent attrs.now)) }
        ensures unchanged { OnErr result (self.new ≡ self.old) }
    {
        let parent = self.parent_for(lane, attrs.asked_parent())?;
        if self.spans.is_full() {
            return Err(TraceError::TooManySpans);
        }
        let span = SpanRecord {
            metadata: attrs.metadata(),
            parent,
            handles: 1,
            children: 0,
            verdict: pass.refused(),
        };
        let count = self.spans.limits().count;
        let id = self.spans.insert(self.alloc, span)?;
        if let Some(above) = parent {
            self.spans.gain_child(above, count);
        }
        Ok(id)
    }

    /// Enters a span on a lane, whether it stands there already or not.
    ///
    /// Refused where the span isn't open (`UnknownSpan`), else for want of memory.
    pub fn enter_on(&mut self, lane: Lane, id: Id) -> Result<(), TraceError>
        ensures entered { OnOk result (Enters lane id self.old self.new) }
        ensures refused { IfErr result (RefusesEnter self.old lane id) }
        ensures unchanged { OnErr result (self.new ≡ self.old) }
    {
        if !self.is_open(id) {
            return Err(TraceError::UnknownSpan(id));
        }
        self.is_sound(); // What is open was issued.
        self.stacks.push(self.alloc, lane, id)
    }

    /// Leaves a span on a lane, whether it is open and stands there or not.
    pub fn leave_on(&mut self, lane: Lane, id: Id)
        ensures { Exits lane id self.old self.new }
    {
        self.stacks.pop(lane, id);
    }

    /// The span that a lane is in. This looks at the newest entry of the lane's stack that is no
    /// duplicate, and at no other.
    pub fn current_on(&self, lane: Lane) -> Current
        ensures { ShowsCurrent self.now.store lane result }
    {
        let Some(id) = self.entered_last(lane) else {
            return Current::none();
        };
        match self.spans.get(id) {
            Some(found) => Current::new(id, found.metadata),
            None => Current::none(),
        }
    }

    /// Adds a handle.
    ///
    /// Refused where the span isn't open (`UnknownSpan`), else where its handles are at the limit
    /// (`CountFull`).
    pub fn add_handle(&mut self, id: Id) -> Result<(), TraceError>
        ensures cloned { OnOk result (Clones id self.old self.new) }
        ensures refused { IfErr result (RefusesClone self.old id) }
        ensures unchanged { OnErr result (self.new ≡ self.old) }
    {
        self.spans.add_handle(id)?;
        Ok(())
    }

    /// Takes a handle from a span, and answers whether the span is closing by that.
    ///
    /// Refused where the span isn't open (`UnknownSpan`), else where it has no handle (`NoHandle`).
    pub fn release(&mut self, id: Id) -> Result<Released, TraceError>
        ensures released { IfOk result (λ answer. Releases id answer self.old self.new) }
        ensures refused { IfErr result (RefusesRelease self.old id) }
        ensures unchanged { OnErr result (self.new ≡ self.old) }
        ensures forest { IsForest self.old.store.spans }
    {
        self.spans.release(id)
    }

    /// Takes a closing span out. Answers its parent, if that is closing by this.
    pub fn remove(&mut self, id: Id) -> Option<Id>
        requires { IsClosing self.old.store.spans (number_of id) }
        ensures { Removes id result self.old self.new }
    {
        match self.spans.remove(id) {
            Some(parent) => self.spans.lose_child(parent),
            None => None,
        }
    }

    /// The stack of a lane, if it has one.
    pub fn stack_on(&self, lane: Lane) -> Option<&LaneStack>
        ensures { unwrap_or (option_map (λ s. s.now.spans) result) []
            ≡ stack_on self.now.store.stacks lane.0 }
    {
        self.stacks.get(lane)
    }

    /// The newest entry of a lane's stack that is no duplicate.
    fn entered_last(&self, lane: Lane) -> Option<Id>
        ensures { option_map number_of result ≡ entered_last self.now.store lane.0 }
    {
        match self.stack_on(lane) {
            Some(stack) => stack.current(),
            None => None,
        }
    }

    /// The span as a parent, or none where it isn't open. Refused where it can count no more
    /// children (`CountFull`).
    fn open_parent(&self, id: Id) -> Result<Option<Id>, TraceError>
        ensures found { IfOk result (IsParentAt self.now id) }
        ensures refused { IfErr result (RefusesParentAt self.now id) }
    {
        let Some(counts) = self.spans.counts_of(id) else {
            return Ok(None);
        };
        if !counts.is_open() {
            return Ok(None);
        }
        if counts.children >= self.spans.limits().count {
            return Err(TraceError::CountFull(id));
        }
        Ok(Some(id))
    }

    /// The parent of a contextual span.
    fn context(&self, lane: Lane) -> Result<Option<Id>, TraceError>
        ensures found { IfOk result (HasParent self.now lane Parent.Contextual) }
        ensures refused { IfErr result (RefusesNew self.now lane Parent.Contextual) }
    {
        match self.entered_last(lane) {
            Some(id) => self.open_parent(id),
            None => Ok(None),
        }
    }

    /// The parent that a new span gets.
    fn parent_for(&self, lane: Lane, asked: Parent) -> Result<Option<Id>, TraceError>
        ensures found { IfOk result (HasParent self.now lane asked) }
        ensures refused { IfErr result (RefusesNew self.now lane asked) }
    {
        match asked {
            Parent::Root => Ok(None),
            Parent::Contextual => self.context(lane),
            Parent::Explicit(id) => match self.open_parent(id)? {
                Some(parent) => Ok(Some(parent)),
                None => Err(TraceError::UnknownParent(id)),
            },
        }
    }
}

impl fmt::Debug for Registry {
    fn fmt<W: fmt::Write>(&self, f: &mut fmt::Formatter<W>) -> fmt::Result {
        f.debug_struct("Registry").finish_non_exhaustive()
    }
}
