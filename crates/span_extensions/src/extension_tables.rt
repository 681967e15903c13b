//! The tables that hold a span's values.
ghost use Rattle.std.specs.Prelude.{◌≡◌, OnOk, OnErr, IfOk, IfErr, IsTrue, min};
ghost use Rattle.std.specs.Option.{option_copied, option_copied_mut};
ghost use Rattle.std.specs.Borrow.{sem};
ghost use Rattle.span_extensions.specs.Extensions.{RefusesReplace, no_values, value_count, value_under, with_value, without_value};
ghost use Rattle.span_extensions.specs.Lends.{lends_tabled};

use crate::extension_value::{ExtensionValue, Internal};
use crate::table::Table;
use crate::tag::Tag;
use span_core::{Rejected, TraceError};
use std::alloc::Global;

/// The values of one span, by their tags: a table for each type that a tag may have.
#[derive(Drop)]
pub struct ExtensionTables {
    pub(crate) unsigned_numbers: Table<u64>,
    pub(crate) signed_numbers: Table<i64>,
    pub(crate) flags: Table<bool>,
    pub(crate) texts: Table<String>,
    pub(crate) bytes: Table<Vec<u8>>,
    pub(crate) number_lists: Table<Vec<u64>>,
}

impl ExtensionTables {
    /// Tables with no values. They take no memory of their own.
    pub(crate) fn new(alloc: Global) -> Self
        ensures { result ≡ no_values }
    {
        ExtensionTables {
            unsigned_numbers: Table::new(alloc),
            signed_numbers: Table::new(alloc),
            flags: Table::new(alloc),
            texts: Table::new(alloc),
            bytes: Table::new(alloc),
            number_lists: Table::new(alloc),
        }
    }

    /// Whether there is no value.
    pub(crate) fn is_empty(&self) -> bool
        ensures { IsTrue result → self.now ≡ no_values }
    {
        self.unsigned_numbers.is_empty()
            && self.signed_numbers.is_empty()
            && self.flags.is_empty()
            && self.texts.is_empty()
            && self.bytes.is_empty()
            && self.number_lists.is_empty()
    }

    /// How many values there are. A number above `usize::MAX` is given as `usize::MAX`.
    pub(crate) fn len(&self) -> usize
        ensures { result ≡ min (value_count self.now) usize.MAX }
    {
        self.unsigned_numbers
            .len()
            .saturating_add(self.signed_numbers.len())
            .saturating_add(self.flags.len())
            .saturating_add(self.texts.len())
            .saturating_add(self.bytes.len())
            .saturating_add(self.number_lists.len())
    }

    /// The value under the tag.
    pub(crate) fn get<T: ExtensionValue>(&self, tag: Tag<T>) -> Option<&T>
        ensures { option_copied result ≡ value_under T.place self.now tag }
    {
        T::table(self, Internal).get(tag.number())
    }

    /// The value under the tag, to be changed.
    pub(crate) fn get_mut<T: ExtensionValue>(&mut self, tag: Tag<T>) -> Option<&mut T>
        ensures* writes_back { sem 𝓛 (lends_tabled T.row T.place self.entry tag result) }
        ensures value { option_copied_mut result ≡ value_under T.place self.old tag }
    {
        T::table_mut(self, Internal).get_mut(tag.number())
    }

    /// Puts the value under the tag, and answers the one that was there. No memory is needed where
    /// there was one. The value is handed back where memory is refused.
    pub(crate) fn replace<T: ExtensionValue>(
        &mut self,
        tag: Tag<T>,
        value: T,
    ) -> Result<Option<T>, Rejected<T>>
        ensures before { IfOk result (λ old. old ≡ value_under T.place self.old tag) }
        ensures replaced { OnOk result (self.new ≡ with_value T.place self.old tag value) }
        ensures refused { IfErr result (λ r. RefusesReplace T.place self.old tag r.error) }
        ensures returned { IfErr result (λ r. r.value ≡ value) }
        ensures unchanged { OnErr result (self.new ≡ self.old) }
    {
        match T::table_mut(self, Internal).insert(tag.number(), value) {
            Ok(old) => Ok(old),
            Err(value) => Err(Rejected {
                value,
                error: TraceError::OutOfMemory,
            }),
        }
    }

    /// Takes the value under the tag out.
    pub(crate) fn remove<T: ExtensionValue>(&mut self, tag: Tag<T>) -> Option<T>
        ensures value { result ≡ value_under T.place self.old tag }
        ensures after { self.new ≡ without_value T.place self.old tag }
    {
        T::table_mut(self, Internal).remove(tag.number())
    }

    /// Takes all values out.
    pub(crate) fn clear(&mut self, alloc: Global)
        ensures { self.new ≡ no_values }
    {
        if !self.is_empty() {
            *self = ExtensionTables::new(alloc);
        }
    }
}
