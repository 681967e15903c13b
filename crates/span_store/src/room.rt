//! Room in vectors.
ghost use Rattle.std.specs.Prelude.{◌≡◌, ◌≤◌, OnOk, vec_capacity};

use std::alloc::AllocError;

/// Makes room for so many items, with those that there are.
pub(crate) fn make_room<T>(items: &mut Vec<T>, count: usize) -> Result<(), AllocError>
    ensures room { OnOk result (count ≤ vec_capacity items.new) }
    ensures capacity { vec_capacity items.old ≤ vec_capacity items.new }
    ensures items { items.new.items ≡ items.old.items }
{
    items.reserve(count.saturating_sub(items.len()))
}
