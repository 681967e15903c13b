//! Values by their tags' numbers: one table for each type of value.
ghost use Rattle.std.specs.Prelude.{◌≡◌, OnOk, OnErr, IfOk, IfErr, IsTrue, None};
ghost use Rattle.std.specs.Option.{option_copied, option_copied_mut};
ghost use Rattle.std.specs.Borrow.{sem};
ghost use Rattle.std.specs.FinMap as map;
ghost use Rattle.span_extensions.specs.Lends.{lends_entry};

use std::alloc::{AllocFailed, Global};
use std::collections::BTreeMap;
use std::marker::Model;

/// The values of one type, by their tags' numbers: seen as a finite map.
#[derive(Drop)]
pub struct Table<T> {
    entries: BTreeMap<u32, T>,
}

impl<T> Model for Table<T> {
    ghost use Rattle.std.specs.Prelude.{ℕ};
    ghost use Rattle.std.specs.Coded.{coded_ℕ};
    ghost use Rattle.std.specs.Ordering.{nat_cmp};
    ghost use Rattle.std.specs.FinMap.{FinMap, code, from_entries};

    ghost Value = { FinMap nat_cmp T };

    ghost coded = { code coded_ℕ T.code };

    ghost view = { λ a. from_entries a.entries.entries };
}

impl<T> Table<T> {
    /// A table with no values. It takes no memory.
    pub(crate) fn new(alloc: Global) -> Self
        ensures { result ≡ map.empty }
    {
        Table {
            entries: BTreeMap::new(alloc),
        }
    }

    /// How many values there are.
    pub(crate) fn len(&self) -> usize
        ensures { result ≡ map.len self.now }
    {
        self.entries.len()
    }

    /// Whether there is no value.
    pub(crate) fn is_empty(&self) -> bool
        ensures { IsTrue result → self.now ≡ map.empty }
    {
        self.entries.is_empty()
    }

    /// The value under this number.
    pub(crate) fn get(&self, number: u32) -> Option<&T>
        ensures { option_copied result ≡ map.get self.now number }
    {
        self.entries.get(&number)
    }

    /// The value under this number, to be changed.
    pub(crate) fn get_mut(&mut self, number: u32) -> Option<&mut T>
        ensures* writes_back { sem 𝓛 (lends_entry T.row self.entry number result) }
        ensures value { option_copied_mut result ≡ map.get self.old number }
    {
        self.entries.get_mut(&number)
    }

    /// Puts the value under this number, and answers the one that was there. No memory is needed
    /// where there was one.
    pub(crate) fn insert(&mut self, number: u32, value: T) -> Result<Option<T>, T>
        ensures old { IfOk result (λ old. old ≡ map.get self.old number) }
        ensures ok { OnOk result (self.new ≡ map.insert self.old number value) }
        ensures value_returned { IfErr result (λ refused. refused ≡ value) }
        ensures absent { OnErr result (map.get self.old number ≡ None) }
        ensures err { OnErr result (self.new ≡ self.old) }
    {
        match self.entries.insert(number, value) {
            Ok(old) => Ok(old),
            Err(refused) => {
                let AllocFailed { value: (_, value) } = refused;
                Err(value)
            }
        }
    }

    /// Takes the value under this number out.
    pub(crate) fn remove(&mut self, number: u32) -> Option<T>
        ensures value { result ≡ map.get self.old number }
        ensures after { self.new ≡ map.remove self.old number }
    {
        self.entries.remove(&number)
    }
}
