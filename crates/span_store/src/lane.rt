//! The stacks of all lanes.
ghost use Rattle.std.specs.Option.{option_map, unwrap_or};
ghost use Rattle.std.specs.Prelude.{◌≡◌, ◌≤◌, ◌<◌, ◌∷◌, [], IfErr, OnErr, OnOk, length, max};
ghost use Rattle.span_core.specs.Span.{number_of};
ghost use Rattle.span_store.specs.LaneStack.{leave, with_entry, with_room};
ghost use Rattle.span_store.specs.private.Marks.{WantsEntry, WantsRoom};
ghost use Rattle.span_store.specs.Store.{room_on, stack_on, with_room_on, with_stack_on};
ghost use Rattle.span_store.specs.private.StoreRepr.{ChangesStack, TakesOff, held_on, no_stacks};

use crate::seeded_state::SeededState;
use crate::stack::LaneStack;
use span_core::{Id, Lane, TraceError};
use std::alloc::Global;
use std::collections::HashMap;
use std::marker::Model;

/// The lanes' stacks, seen as the map of those that aren't empty, and that of the room for entries.
#[derive(Drop)]
pub(crate) struct LaneStacks {
    /// The stack of lane 0, which is found without a search: many programs have no other lane.
    first: LaneStack,
    /// The stacks of the other lanes.
    others: HashMap<u32, LaneStack, SeededState>,
}

impl Model for LaneStacks {
    ghost use Rattle.std.specs.Coded.{codes};
    ghost use Rattle.std.specs.FinMap.{code as map_code};
    ghost use Rattle.span_store.specs.private.StoreRepr.{KeptStacks, stacks_with};

    ghost Value = { KeptStacks };

    ghost coded = { Prim.hlevel (codes, map_code) };

    ghost view = { λ a. stacks_with a.first a.others.entries };
}

impl LaneStacks {
    /// Lanes that entered no span. They take no memory.
    pub(crate) fn new(alloc: Global, hasher: SeededState) -> Self
        ensures { result ≡ no_stacks }
    {
        LaneStacks {
            first: LaneStack::new(alloc),
            others: HashMap::with_hasher(alloc, hasher),
        }
    }

    /// What the numbers of lanes are hashed by.
    pub(crate) fn hasher(&self) -> SeededState {
        *self.others.hasher()
    }

    /// The stack of a lane, if it has one.
    pub(crate) fn get(&self, lane: Lane) -> Option<&LaneStack>
        ensures { unwrap_or (option_map (λ s. s.now.spans) result) []
            ≡ stack_on self.now.stacks lane.0 }
    {
        if lane.0 == 0 {
            return Some(&self.first);
        }
        self.others.get(&lane.0)
    }

    /// Holds memory for so many entries on a lane, with those that there are.
    ///
    /// Refused for want of memory alone, where fewer were reserved for it.
    pub(crate) fn reserve(
        &mut self,
        alloc: Global,
        lane: Lane,
        depth: usize,
    ) -> Result<(), TraceError>
        ensures reserved { OnOk result (self.new ≡ record self.old {
          rooms = with_room_on self.old.rooms lane.0 (max (room_on self.old.rooms lane.0) depth);
        }) }
        ensures unchanged { OnErr result (self.new ≡ self.old) }
        ensures memory { IfErr result
            (λ e. (e ≡ TraceError.OutOfMemory) × (room_on self.old.rooms lane.0 < depth)) }
    {
        if lane.0 == 0 {
            return self.first.reserve(depth);
        }
        let others = &mut self.others;
        if depth == 0 {
            return Ok(());
        }
        reserve_on(alloc, others, lane, depth)
    }

    /// Enters a span on a lane.
    ///
    /// Refused for want of memory alone, where none is reserved for one more entry.
    pub(crate) fn push(&mut self, alloc: Global, lane: Lane, id: Id) -> Result<(), TraceError>
        ensures entered { OnOk result (self.new ≡ record self.old {
          stacks = with_stack_on self.old.stacks lane.0
              (number_of id ∷ stack_on self.old.stacks lane.0);
        }) }
        ensures unchanged { OnErr result (self.new ≡ self.old) }
        ensures memory { IfErr result (λ e. (e ≡ TraceError.OutOfMemory)
            × (room_on self.old.rooms lane.0 ≤ length (stack_on self.old.stacks lane.0))) }
    {
        if lane.0 == 0 {
            return self.first.push(id);
        }
        push_on(alloc, &mut self.others, lane, id)
    }

    /// Leaves a span on a lane.
    pub(crate) fn pop(&mut self, lane: Lane, id: Id)
        ensures { self.new ≡ record self.old {
          stacks = with_stack_on self.old.stacks lane.0
              (leave (number_of id) (stack_on self.old.stacks lane.0));
        } }
    {
        if lane.0 == 0 {
            self.first.pop(id);
            return;
        }
        pop_from(&mut self.others, lane, id);
    }
}

/// Holds memory for so many entries, one at least, on one of these lanes.
///
/// Refused for want of memory alone, where there isn't room for as many.
fn reserve_on(
    alloc: Global,
    stacks: &mut HashMap<u32, LaneStack, SeededState>,
    lane: Lane,
    depth: usize,
) -> Result<(), TraceError>
    requires { 0 < depth }
    ensures reserved { OnOk result (ChangesStack lane (with_room depth) stacks.old stacks.new) }
    ensures unchanged { OnErr result (stacks.new.entries ≡ stacks.old.entries) }
    ensures memory { IfErr result (WantsRoom depth (held_on stacks.old lane)) }
{
    if let Some(stack) = stacks.get_mut(&lane.0) {
        return stack.reserve(depth);
    }
    let mut stack = LaneStack::new(alloc);
    stack.reserve(depth)?;
    stacks.insert(lane.0, stack)?;
    Ok(())
}

/// Enters a span on one of these lanes. Refused for want of memory alone, where there is no room.
fn push_on(
    alloc: Global,
    stacks: &mut HashMap<u32, LaneStack, SeededState>,
    lane: Lane,
    id: Id,
) -> Result<(), TraceError>
    ensures entered { OnOk result
        (ChangesStack lane (with_entry (number_of id)) stacks.old stacks.new) }
    ensures unchanged { OnErr result (stacks.new.entries ≡ stacks.old.entries) }
    ensures memory { IfErr result (WantsEntry (held_on stacks.old lane)) }
{
    if let Some(stack) = stacks.get_mut(&lane.0) {
        return stack.push(id);
    }
    let mut stack = LaneStack::new(alloc);
    stack.push(id)?;
    stacks.insert(lane.0, stack)?;
    Ok(())
}

/// Leaves a span on one of these lanes.
fn pop_from(stacks: &mut HashMap<u32, LaneStack, SeededState>, lane: Lane, id: Id)
    ensures { TakesOff lane id stacks.old stacks.new }
{
    if let Some(stack) = stacks.get_mut(&lane.0) {
        stack.pop(id);
    }
}
