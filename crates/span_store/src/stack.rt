//! The spans that a lane has entered.
ghost use Rattle.std.specs.Prelude.{◌≡◌, ◌<◌, ◌≤◌, [], IfErr, IfSome, IsTrue, OnErr, OnOk, length, slice_index_or, true, vec_capacity};
ghost use Rattle.std.specs.Bool.{OnTrue};
ghost use Rattle.std.specs.Iterator.{YieldsFirstBy, item_count};
ghost use Rattle.std.specs.Option.{is_some, option_map};
ghost use Rattle.span_core.specs.Span.{number_of};
ghost use Rattle.span_core.specs.declared.span.Id.{Id};
ghost use Rattle.span_store.specs.declared.stack.Entry.{Entry};
ghost use Rattle.span_store.specs.LaneStack.{leave, leaves_for_good, newest, no_entries, spans_to_give, stands, with_entry, with_room, without_duplicates, without_entry};
ghost use Rattle.span_store.specs.private.Index.{Indexes, times};
ghost use Rattle.span_store.specs.private.Marks.{AreMarked, HoldsAll, IsAtLast, IsAtLastId, IsLastOf, KeepsDistinct, WantsEntry, WantsRoom, ids, ids_down, numbers_down};

use crate::bloom::Bloom;
use crate::index::Index;
use crate::room::make_room;
use span_core::{Id, TraceError};
use std::alloc::Global;
use std::marker::Model;

/// With fewer distinct spans a stack gets no index, since a walk takes no longer.
const DEEP: usize = 80;

#[derive(Clone, Copy)]
pub(crate) struct Entry {
    id: Id,
    duplicate: bool,
    /// The ids that may stand before the entry.
    before: Bloom,
}

/// All entries of a stack, duplicates too, seen as the list of their spans, newest first, and the
/// room for them.
#[derive(Drop)]
struct Entries {
    entries: Vec<Entry>,
    /// The ids that may stand among the entries: of any other id no entry is looked at.
    held: Bloom,
    /// For how many entries there is memory, whether they are there or not.
    room: usize,
    /// An index of the entries, where their spans are many.
    index: Index,
}

impl Model for Entries {
    ghost use Rattle.std.specs.Prelude.{◌≤◌, vec_capacity};
    ghost use Rattle.span_store.specs.LaneStack.{HeldStack};
    ghost use Rattle.span_store.specs.private.Index.{Indexes};
    ghost use Rattle.span_store.specs.private.Marks.{KeepsEntries, ids_down};

    ghost Value = { HeldStack };

    ghost view = { λ a. record { spans = ids_down a.entries.items; room = a.room } };

    ghost invariant = { λ a. KeepsEntries a.entries.items a.held
        × (a.room ≤ vec_capacity a.entries) × Indexes a.index (ids_down a.entries.items) };
}

impl Entries {
    fn new(alloc: Global) -> Self
        ensures { result ≡ no_entries }
    {
        Entries {
            entries: Vec::new(alloc),
            held: Bloom::new(),
            room: 0,
            index: Index::none(),
        }
    }

    /// Whether the span may stand among the entries.
    fn may_hold(&self, id: Id) -> bool
        ensures { stands (number_of id) self.now.spans ≡ true → IsTrue result }
    {
        self.held.may_hold(id)
    }

    /// Makes an index of the entries, of so many distinct spans, where these are many and there is
    /// memory for it.
    fn keep_index(&mut self, distinct: usize)
        ensures { self.new ≡ self.old }
    {
        if self.index.is_none() && distinct >= DEEP {
            self.index = index_of(*self.entries.allocator(), &self.entries);
        }
    }

    /// Whether the span stands among the entries, if an index says so.
    fn indexed(&self, id: Id) -> Option<bool>
        ensures { IfSome result (λ b. b ≡ stands (number_of id) self.now.spans) }
    {
        self.index.holds(id)
    }

    /// Holds memory for so many entries, with those that there are.
    ///
    /// Refused for want of memory alone.
    fn reserve(&mut self, depth: usize) -> Result<(), TraceError>
        ensures reserved { OnOk result (self.new ≡ with_room depth self.old) }
        ensures memory { IfErr result (λ e. e ≡ TraceError.OutOfMemory) }
        ensures unchanged { OnErr result (self.new ≡ self.old) }
    {
        make_room(&mut self.entries, depth)?;
        self.room = self.room.max(depth);
        Ok(())
    }

    /// Puts an entry of a span in front, which is a duplicate or isn't.
    ///
    /// Refused for want of memory alone, where there is no room.
    #[inline(always)]
    fn push(&mut self, id: Id, duplicate: bool) -> Result<(), TraceError>
        requires { duplicate ≡ stands (number_of id) self.old.spans }
        ensures entered { OnOk result (self.new ≡ with_entry (number_of id) self.old) }
        ensures memory { IfErr result (WantsEntry self.old) }
        ensures unchanged { OnErr result (self.new ≡ self.old) }
    {
        let before = self.held;
        self.entries.push(Entry {
            id,
            duplicate,
            before,
        })?;
        self.held.insert(id);
        self.index.add(id, duplicate);
        Ok(())
    }

    /// Takes out the newest entry of a span. Answers where it stood, if that leaves the span for
    /// good.
    fn pop(&mut self, id: Id) -> Option<usize>
        ensures left { self.new ≡ without_entry (number_of id) self.old }
        ensures for_good { is_some result ≡ leaves_for_good (number_of id) self.old.spans }
    {
        match last_place(&self.entries, self.held, &self.index, id) {
            None => None,
            Some(place) => {
                let entry = self.entries.remove(place);
                self.index.remove(id, entry.duplicate, place);
                if place < self.entries.len() {
                    self.entries[place].before = entry.before;
                } else {
                    self.held = entry.before;
                }
                (!entry.duplicate).then_some(place)
            }
        }
    }
}

/// The stack of a lane, seen as the list of its spans, newest first, and the room for them.
#[derive(Drop)]
pub struct LaneStack {
    entries: Entries,
    /// The spans of the entries that are no duplicates, oldest first. So no look-up walks over
    /// duplicates.
    distinct: Vec<Id>,
}

impl Model for LaneStack {
    ghost use Rattle.std.specs.Prelude.{◌≤◌, vec_capacity};
    ghost use Rattle.span_store.specs.LaneStack.{HeldStack};
    ghost use Rattle.span_store.specs.private.Marks.{KeepsDistinct};

    ghost Value = { HeldStack };

    ghost view = { λ a. a.entries };

    ghost invariant = { λ a. KeepsDistinct a.entries.spans a.distinct.items
        × (a.entries.room ≤ vec_capacity a.distinct) };
}

impl LaneStack {
    /// An empty stack. It takes no memory before the first `push` or `reserve`.
    pub(crate) fn new(alloc: Global) -> Self
        ensures { result ≡ no_entries }
    {
        LaneStack {
            entries: Entries::new(alloc),
            distinct: Vec::new(alloc),
        }
    }

    /// Holds memory for so many entries, with those that there are.
    ///
    /// Refused for want of memory alone, where there isn't room for as many.
    pub(crate) fn reserve(&mut self, depth: usize) -> Result<(), TraceError>
        ensures reserved { OnOk result (self.new ≡ with_room depth self.old) }
        ensures memory { IfErr result (WantsRoom depth self.old) }
        ensures unchanged { OnErr result (self.new ≡ self.old) }
    {
        if depth <= self.entries.room {
            return Ok(());
        }
        make_room(&mut self.distinct, depth)?;
        self.entries.reserve(depth)?;
        Ok(())
    }

    /// Enters a span, whether it stands on the stack or not.
    ///
    /// Refused for want of memory alone, where there is no room.
    pub(crate) fn push(&mut self, id: Id) -> Result<(), TraceError>
        ensures entered { OnOk result (self.new ≡ with_entry (number_of id) self.old) }
        ensures memory { IfErr result (WantsEntry self.old) }
        ensures unchanged { OnErr result (self.new ≡ self.old) }
    {
        if holds(&mut self.entries, &self.distinct, id) {
            return self.entries.push(id, true);
        }
        self.distinct.reserve(1)?;
        self.entries.push(id, false)?;
        self.distinct.push_reserved(id);
        Ok(())
    }

    /// Takes out the newest entry of a span, wherever it stands. Answers whether that leaves the
    /// span for good.
    pub(crate) fn pop(&mut self, id: Id) -> bool
        ensures left { self.new ≡ without_entry (number_of id) self.old }
        ensures for_good { result ≡ leaves_for_good (number_of id) self.old.spans }
    {
        match self.entries.pop(id) {
            Some(place) => {
                take_out(&mut self.distinct, id, place);
                true
            }
            None => false,
        }
    }

    /// The spans from the newest entry on, duplicates left out.
    pub fn iter(&self) -> StackIter<'_>
        ensures { spans_to_give result ≡ without_duplicates self.now.spans }
    {
        StackIter(&self.distinct)
    }

    /// The newest entry that is no duplicate.
    pub fn current(&self) -> Option<Id>
        ensures { option_map number_of result ≡ newest (without_duplicates self.now.spans) }
    {
        self.iter().next()
    }
}

/// Whether the span stands among the entries. These are their distinct spans.
#[inline(always)]
fn holds(entries: &mut Entries, distinct: &[Id], id: Id) -> bool
    requires { KeepsDistinct entries.old.spans distinct.now }
    ensures kept { entries.new ≡ entries.old }
    ensures held { result ≡ stands (number_of id) entries.old.spans }
{
    if !entries.may_hold(id) {
        return false;
    }
    is_held(entries, distinct, id)
}

/// Whether the span stands among the entries, found by their index or by a walk.
#[inline(never)]
fn is_held(entries: &mut Entries, distinct: &[Id], id: Id) -> bool
    requires { KeepsDistinct entries.old.spans distinct.now }
    ensures kept { entries.new ≡ entries.old }
    ensures held { result ≡ stands (number_of id) entries.old.spans }
{
    entries.keep_index(distinct.len());
    match entries.indexed(id) {
        Some(stands) => stands,
        None => is_among(distinct, id),
    }
}

/// An index of these entries, if there is memory for it.
// (compiled by itself: a function clears the room of its locals at entry, and this one has many)
#[inline(never)]
fn index_of(alloc: Global, entries: &[Entry]) -> Index
    requires { AreMarked entries.now }
    ensures { Indexes result (ids_down entries.now) }
{
    let mut index = Index::with_capacity(alloc, entries.len());
    for entry in entries {
        index.add(entry.id, entry.duplicate);
    }
    index
}

/// Where the last entry of a span stands. The filter `held` may hold each entry's span.
#[inline(always)]
fn last_place(entries: &[Entry], held: Bloom, index: &Index, id: Id) -> Option<usize>
    requires held { HoldsAll held (ids entries.now) }
    requires indexed { Indexes index.now (ids_down entries.now) }
    ensures { IsAtLast entries.now (number_of id) result }
{
    let top = entries.len().saturating_sub(1);
    if is_entry_at(entries, top, id) {
        return Some(top);
    }
    searched_place(entries, held, index, id)
}

/// Where the last entry of a span stands, found by the index or by a walk.
#[inline(never)]
fn searched_place(entries: &[Entry], held: Bloom, index: &Index, id: Id) -> Option<usize>
    requires held { HoldsAll held (ids entries.now) }
    requires indexed { Indexes index.now (ids_down entries.now) }
    ensures { IsAtLast entries.now (number_of id) result }
{
    if !held.may_hold(id) {
        return None;
    }
    if let Some(place) = sole_place(entries, index, id) {
        return Some(place);
    }
    for i in (0..entries.len()).rev() {
        if entries[i].id == id {
            return Some(i);
        }
    }
    None
}

/// Where the entry of a span stands, if the index says that it has one alone.
fn sole_place(entries: &[Entry], index: &Index, id: Id) -> Option<usize>
    requires { Indexes index.now (ids_down entries.now) }
    ensures { IfSome result (IsLastOf entries.now (number_of id)) }
{
    let place = index.place(id)?;
    if !is_entry_at(entries, place, id) {
        return None;
    }
    Some(place)
}

/// Whether an entry of the span stands at this place.
fn is_entry_at(entries: &[Entry], place: usize, id: Id) -> bool
    ensures within { OnTrue result (place < length entries.now) }
    ensures there { OnTrue result ((d : Entry)
        → number_of (slice_index_or entries.now place d).id ≡ number_of id) }
{
    place < entries.len() && entries[place].id == id
}

/// Whether the span is one of these.
fn is_among(spans: &[Id], id: Id) -> bool
    ensures { result ≡ stands (number_of id) (numbers_down spans.now) }
{
    spans.contains(&id)
}

/// Takes a span out of these, of which none stands twice. It may stand at the place `near`.
fn take_out(spans: &mut Vec<Id>, id: Id, near: usize)
    requires { times (number_of id) (numbers_down spans.old.items) ≤ 1 }
    ensures left { numbers_down spans.new.items
        ≡ leave (number_of id) (numbers_down spans.old.items) }
    ensures capacity { vec_capacity spans.new ≡ vec_capacity spans.old }
{
    match place_in(spans, id, near) {
        Some(place) => {
            spans.remove(place);
        }
        None => {}
    }
}

/// Where the span stands among these, of which none stands twice: on top, at `near` or elsewhere.
#[inline(always)]
fn place_in(spans: &[Id], id: Id, near: usize) -> Option<usize>
    requires { times (number_of id) (numbers_down spans.now) ≤ 1 }
    ensures { IsAtLastId spans.now (number_of id) result }
{
    let top = spans.len().saturating_sub(1);
    if is_at(spans, top, id) {
        return Some(top);
    }
    place_near(spans, id, near)
}

/// Where the span stands among these, of which none stands twice: at `near` or elsewhere.
#[inline(never)]
fn place_near(spans: &[Id], id: Id, near: usize) -> Option<usize>
    requires { times (number_of id) (numbers_down spans.now) ≤ 1 }
    ensures { IsAtLastId spans.now (number_of id) result }
{
    if is_at(spans, near, id) {
        return Some(near);
    }
    walked_place(spans, id)
}

/// Whether the span stands at this place.
fn is_at(spans: &[Id], place: usize, id: Id) -> bool
    ensures within { OnTrue result (place < length spans.now) }
    ensures there { OnTrue result ((d : Id)
        → number_of (slice_index_or spans.now place d) ≡ number_of id) }
{
    place < spans.len() && spans[place] == id
}

/// Where the last one of these stands that is the span.
fn walked_place(spans: &[Id], id: Id) -> Option<usize>
    ensures { IsAtLastId spans.now (number_of id) result }
{
    for i in (0..spans.len()).rev() {
        if spans[i] == id {
            return Some(i);
        }
    }
    None
}

/// The spans on a stack, newest first, duplicates left out.
#[derive(Drop)]
pub struct StackIter<'a>(&'a [Id]);

impl<'a> Iterator for StackIter<'a> {
    type Item = Id;

    ghost next_gives = { YieldsFirstBy number_of spans_to_give };

    ghost remaining = { item_count spans_to_give };

    fn next(&mut self) -> Option<Id> {
        let (last, below) = self.0.split_last()?;
        self.0 = below;
        Some(*last)
    }
}
