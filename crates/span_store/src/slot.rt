//! The registry's places: each is kept as a slot, which holds one span after another.
ghost use Rattle.std.specs.FinMap.{get};
ghost use Rattle.std.specs.FinSet.{len as set_len};
ghost use Rattle.std.specs.Prelude.{◌≡◌, ◌≤◌, ◌<◌, ◌↔◌, IfErr, IfOk, IfSome, IsSome, IsTrue, MatchBool, None, OnErr, Some, length, max, vec_capacity, ◌++◌, ◌∷◌, [], OnOk};
ghost use Rattle.span_core.specs.Span.{number_of};
ghost use Rattle.span_store.specs.private.Slot.{AreHeldIssued, AreUnused, GivesBack, HasNoSlot, HasNoSlotReserved, HasSlot, IsOfNoSlot, RetiresInTime, TakesSlot, WantsMemory, first_held, key_of_slot, no_slots, number_at};

use crate::limits::Limits;
use crate::room::make_room;
use span_core::{Id, TraceError};
use std::alloc::Global;
use std::marker::Model;

/// How far apart the ids of two generations of a slot are: an id is `generation * GENERATION + slot
/// + 1`.
const GENERATION: u64 = 4294967296;

/// A slot, which holds one span after another, seen as its generation and, where it holds a span,
/// that span's key.
#[derive(Drop)]
pub(crate) struct Slot {
    /// The key under which the slot's span is stored. It says nothing where the slot holds none.
    key: usize,
    /// How many spans the slot held before.
    generation: u32,
    /// Whether the slot holds a span.
    is_held: bool,
}

impl Model for Slot {
    ghost use Rattle.std.specs.Prelude.{cond, None, Some};
    ghost use Rattle.span_store.specs.private.SlotValue.{SlotValue};

    ghost Value = { SlotValue };

    ghost view = { λ a. record {
      generation = a.generation;
      key = cond a.is_held (Some a.key) None;
    } };
}

impl Slot {
    /// The key of the span that the slot holds in this generation.
    #[inline(always)]
    fn key_in(&self, generation: u32) -> Option<usize>
        ensures { result ≡ key_of_slot self.now generation }
    {
        if self.is_held && self.generation == generation {
            return Some(self.key);
        }
        None
    }

    /// Lets the slot hold the span that is stored under this key, and answers its generation.
    fn hold(&mut self, key: usize) -> u32
        ensures held { self.new ≡ record self.old { key = Some key } }
        ensures generation { result ≡ self.old.generation }
    {
        self.key = key;
        self.is_held = true;
        self.generation
    }
}

/// The slots, seen as the map from the numbers of the spans that they hold to the keys under which
/// these are stored.
#[derive(Drop)]
pub(crate) struct Slots {
    limits: Limits,
    slots: Vec<Slot>,
    /// The slots that may be used again, the one freed last at the end. The list has room for all
    /// slots.
    free: Vec<u32>,
    /// How many slots held their last span.
    retired: u32,
    /// How many slots there is memory for, whether they were made or not.
    reserved: u32,
}

impl Model for Slots {
    ghost use Rattle.std.specs.Coded.{codes};
    ghost use Rattle.std.specs.FinMap.{code as map_code};
    ghost use Rattle.std.specs.FinSet.{code as set_code};
    ghost use Rattle.span_store.specs.private.Slot.{KeepsSlots, SlotState, slots_of};
    ghost use Rattle.span_store.specs.contracts.limits.Limits as bounds;

    ghost Value = { SlotState };

    ghost coded = { Prim.hlevel (codes, map_code, set_code, bounds.the_row.coded) };

    ghost view = { slots_of };

    ghost invariant = { KeepsSlots };
}

/// The slot and the generation that this id names.
#[inline(always)]
fn parts_of(id: Id) -> Option<(u32, u32)>
    ensures at { IfSome result (λ p. number_of id ≡ number_at p.0 p.1) }
    ensures slot { IfSome result (λ p. p.0 < 4294967295) }
    ensures nowhere { result ≡ None → IsOfNoSlot (number_of id) }
{
    let number = id.into_u64();
    let low = number % GENERATION;
    if low == 0 {
        return None;
    }
    Some(((low - 1) as u32, (number / GENERATION) as u32))
}

/// The id of the span that this slot holds in this generation.
fn id_at(slot: u32, generation: u32) -> Id
    requires { slot < 4294967295 }
    ensures { number_of result ≡ number_at slot generation }
{
    Id::from_u64(u64::from(generation) * GENERATION + u64::from(slot) + 1)
}

/// Makes a slot that holds a span in its first generation, and room for it among the free ones.
fn make(slots: &mut Vec<Slot>, free: &mut Vec<u32>, key: usize) -> Result<(), TraceError>
    requires { length slots.old.items < 4294967295 }
    ensures made { OnOk result (slots.new.items ≡ slots.old.items ++ first_held key ∷ []) }
    ensures room { OnOk result (length slots.new.items ≤ vec_capacity free.new) }
    ensures kept { vec_capacity free.old ≤ vec_capacity free.new }
    ensures free { free.new.items ≡ free.old.items }
    ensures capacity { vec_capacity slots.old ≤ vec_capacity slots.new }
    ensures unchanged { OnErr result (slots.new.items ≡ slots.old.items) }
    ensures memory { IfErr result
        (λ e. (e ≡ TraceError.OutOfMemory) × WantsMemory slots.old free.old) }
{
    free.reserve(slots.len() + 1)?;
    slots.push(Slot {
        key,
        generation: 0,
        is_held: true,
    })?;
    Ok(())
}

impl Slots {
    /// Slots of which none is made. They take no memory.
    pub(crate) fn new(alloc: Global, limits: Limits) -> Self
        ensures { result ≡ no_slots limits }
    {
        Slots {
            limits,
            slots: Vec::new(alloc),
            free: Vec::new(alloc),
            retired: 0,
            reserved: 0,
        }
    }

    /// The limits of the slots.
    pub(crate) fn limits(&self) -> Limits
        ensures { result ≡ self.now.limits }
    {
        self.limits
    }

    /// How many slots held their last span.
    pub(crate) fn retired(&self) -> u32
        ensures retired { result ≡ self.now.retired }
        ensures late { RetiresInTime self.now }
    {
        self.retired
    }

    /// Whether no slot was used.
    pub(crate) fn is_fresh(&self) -> bool
        ensures issued { IsTrue result ↔ (set_len self.now.issued ≡ 0) }
        ensures unused { IsTrue result → AreUnused self.now }
    {
        self.slots.is_empty()
    }

    /// Every number that is held was issued.
    pub(crate) fn is_sound(&self)
        ensures { AreHeldIssued self.now }
    {
        // A field's read shows the prover the slots' value.
        let _ = &self.retired;
    }

    /// The key under which a span is stored.
    #[inline(always)]
    pub(crate) fn key_of(&self, id: Id) -> Option<usize>
        ensures { result ≡ get self.now.keys (number_of id) }
    {
        let slots = &self.slots;
        let (slot, generation) = parts_of(id)?;
        let found = slots.get(slot as usize)?;
        found.key_in(generation)
    }

    /// Whether each slot holds a span or is retired, and no more may be made.
    pub(crate) fn are_full(&self) -> bool
        ensures { MatchBool result (HasNoSlot self.now) (HasSlot self.now) }
    {
        self.free.is_empty() && self.slots.len() as u64 >= u64::from(self.limits.places)
    }

    /// For how many slots memory is held.
    pub(crate) fn reserved(&self) -> u32
        ensures { result ≡ self.now.reserved }
    {
        self.reserved
    }

    /// Holds memory for so many slots, with those that there are. Refused for want of memory alone.
    pub(crate) fn reserve(&mut self, count: u32) -> Result<(), TraceError>
        ensures reserved { OnOk result
            (self.new ≡ record self.old { reserved = max self.old.reserved count }) }
        ensures memory { IfErr result (λ e. e ≡ TraceError.OutOfMemory) }
        ensures unchanged { OnErr result (self.new ≡ self.old) }
    {
        make_room(&mut self.slots, count as usize)?;
        make_room(&mut self.free, count as usize)?;
        self.reserved = self.reserved.max(count);
        Ok(())
    }

    /// Gives a span that is kept under this key a slot: the one freed last, else a new one.
    ///
    /// Refused for want of memory alone, where none is reserved for a slot more.
    pub(crate) fn take(&mut self, key: usize) -> Result<Id, TraceError>
        requires { HasSlot self.old }
        ensures taken { IfOk result (λ id. TakesSlot key id self.old self.new) }
        ensures memory { IfErr result
            (λ e. (e ≡ TraceError.OutOfMemory) × HasNoSlotReserved self.old) }
        ensures unchanged { OnErr result (self.new ≡ self.old) }
    {
        match self.free.pop() {
            Some(slot) => {
                let generation = self.slots[slot as usize].hold(key);
                Ok(id_at(slot, generation))
            }
            None => {
                let slot = self.slots.len() as u32;
                make(&mut self.slots, &mut self.free, key)?;
                Ok(id_at(slot, 0))
            }
        }
    }

    /// Takes the slot of a span back, to be used again where it may hold a span more. It needs no
    /// memory.
    pub(crate) fn give_back(&mut self, id: Id)
        requires { IsSome (get self.old.keys (number_of id)) }
        ensures { GivesBack id self.old self.new }
    {
        if let Some((slot, generation)) = parts_of(id) {
            let next = generation + 1;
            self.slots[slot as usize] = Slot {
                key: 0,
                generation: next,
                is_held: false,
            };
            if next < self.limits.generations {
                self.free.push_reserved(slot);
            } else {
                self.retired += 1;
            }
        }
    }
}
