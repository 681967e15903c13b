//! A span's extensions: values that are found by tags.
ghost use Rattle.std.specs.Prelude.{◌≡◌, IfOk, IfErr, OnOk, OnErr, None, min};
ghost use Rattle.std.specs.Option.{option_copied, option_copied_mut};
ghost use Rattle.std.specs.Borrow.{sem};
ghost use Rattle.span_extensions.specs.Extensions.{Inserts, RefusesInsert, RefusesReplace, no_values, tabled, value_count, value_under, with_value, without_value};
ghost use Rattle.span_extensions.specs.Lends.{lends_value};
ghost use Rattle.span_extensions.specs.Shown.{shown_map};

use crate::extension_tables::ExtensionTables;
use crate::extension_value::ExtensionValue;
use crate::tag::Tag;
use span_core::{Rejected, TraceError};
use std::alloc::Global;
use std::fmt;
use std::marker::Model;

/// The values of one span, by their tags. The map takes two words until room for a value was made.
#[derive(Drop)]
pub struct ExtensionMap {
    alloc: Global,
    /// `None` until room for a value was made. The box then stays, for the next span that is stored
    /// under this key.
    tables: Option<Box<ExtensionTables>>,
}

impl Model for ExtensionMap {
    ghost use Rattle.span_extensions.specs.Extensions.{tabled};
    ghost use Rattle.span_extensions.specs.contracts.extension_tables.ExtensionTables as values;
    ghost use Rattle.span_extensions.specs.declared.extension_tables.ExtensionTables.{ExtensionTables};

    ghost Value = { ExtensionTables };

    ghost coded = { values.the_row.coded };

    ghost view = { λ a. tabled a.tables };
}

/// These tables, or new ones where there are none. Refused for want of memory alone.
fn made(
    tables: Option<Box<ExtensionTables>>,
    alloc: Global,
) -> Result<Box<ExtensionTables>, TraceError>
    ensures made { IfOk result (λ b. b.value ≡ tabled tables) }
    ensures absent { OnErr result (tables ≡ None) }
    ensures memory { IfErr result (λ e. e ≡ TraceError.OutOfMemory) }
{
    match tables {
        Some(tables) => Ok(tables),
        None => Ok(Box::new(alloc, ExtensionTables::new(alloc))?),
    }
}

impl ExtensionMap {
    /// A map with no values. It takes no memory.
    pub fn new(alloc: Global) -> Self
        ensures { result ≡ no_values }
    {
        ExtensionMap {
            alloc,
            tables: None,
        }
    }

    /// How many values there are. A number above `usize::MAX` is given as `usize::MAX`.
    pub(crate) fn len(&self) -> usize
        ensures { result ≡ min (value_count self.now) usize.MAX }
    {
        match &self.tables {
            Some(tables) => tables.len(),
            None => 0,
        }
    }

    /// Takes all values out. The box of the tables stays, for values to come.
    pub fn clear(&mut self)
        ensures { self.new ≡ no_values }
    {
        if let Some(tables) = &mut self.tables {
            tables.clear(self.alloc);
        }
    }

    /// The value under the tag.
    pub fn get<T: ExtensionValue>(&self, tag: Tag<T>) -> Option<&T>
        ensures { option_copied result ≡ value_under T.place self.now tag }
    {
        match &self.tables {
            Some(tables) => tables.get(tag),
            None => None,
        }
    }

    /// The value under the tag, to be changed.
    pub fn get_mut<T: ExtensionValue>(&mut self, tag: Tag<T>) -> Option<&mut T>
        ensures* writes_back { sem 𝓛 (lends_value T.row T.place self.entry tag result) }
        ensures value { option_copied_mut result ≡ value_under T.place self.old tag }
    {
        match &mut self.tables {
            Some(tables) => tables.get_mut(tag),
            None => None,
        }
    }

    /// Puts the value under a tag that has none. The value is handed back where the tag has one
    /// already, and where memory is refused.
    pub fn insert<T: ExtensionValue>(&mut self, tag: Tag<T>, value: T) -> Result<(), Rejected<T>>
        ensures inserted { OnOk result (Inserts T.place tag value self.old self.new) }
        ensures refused { IfErr result (λ r. RefusesInsert T.place self.old tag r.error) }
        ensures returned { IfErr result (λ r. r.value ≡ value) }
        ensures unchanged { OnErr result (self.new ≡ self.old) }
    {
        if self.get(tag).is_some() {
            return Err(Rejected {
                value,
                error: TraceError::TagTaken,
            });
        }
        let _none = self.replace(tag, value)?;
        Ok(())
    }

    /// Puts the value under the tag, and answers the one that was there. No memory is needed where
    /// there was one. The value is handed back where memory is refused.
    pub fn replace<T: ExtensionValue>(
        &mut self,
        tag: Tag<T>,
        value: T,
    ) -> Result<Option<T>, Rejected<T>>
        ensures before { IfOk result (λ old. old ≡ value_under T.place self.old tag) }
        ensures replaced { OnOk result (self.new ≡ with_value T.place self.old tag value) }
        ensures refused { IfErr result (λ r. RefusesReplace T.place self.old tag r.error) }
        ensures returned { IfErr result (λ r. r.value ≡ value) }
        ensures unchanged { OnErr result (self.new ≡ self.old) }
    {
        match made(self.tables.take(), self.alloc) {
            Ok(mut tables) => {
                let answer = tables.replace(tag, value);
                self.tables = Some(tables);
                answer
            }
            Err(error) => Err(Rejected { value, error }),
        }
    }

    /// Takes the value under the tag out.
    pub fn remove<T: ExtensionValue>(&mut self, tag: Tag<T>) -> Option<T>
        ensures value { result ≡ value_under T.place self.old tag }
        ensures after { self.new ≡ without_value T.place self.old tag }
    {
        match &mut self.tables {
            Some(tables) => tables.remove(tag),
            None => None,
        }
    }
}

/// Shown as `ExtensionsMut { len: 2 }`, for two values.
impl fmt::Debug for ExtensionMap {
    fn fmt<W: fmt::Write>(&self, f: &mut fmt::Formatter<W>) -> fmt::Result {
        f.debug_struct("ExtensionsMut")
            .field("len", &self.len())
            .finish()
    }
}

/// A span's extensions, to be read and changed.
///
/// Stands for `tracing_subscriber::registry::ExtensionsMut`.
pub type ExtensionsMut<'a> = &'a mut ExtensionMap;

/// A span's extensions, to be read.
///
/// Stands for `tracing_subscriber::registry::Extensions`.
#[derive(Clone, Copy)]
pub struct Extensions<'a> {
    map: &'a ExtensionMap,
}

impl fmt::Debug for Extensions<'_> {
    fn fmt<W: fmt::Write>(&self, f: &mut fmt::Formatter<W>) -> fmt::Result {
        f.debug_struct("Extensions")
            .field("len", &self.map.len())
            .finish()
    }
}

impl<'a> Extensions<'a> {
    /// A view of these values.
    pub fn new(map: &'a ExtensionMap) -> Extensions<'a>
        ensures { shown_map result ≡ map.now }
    {
        Extensions { map }
    }

    /// The value under the tag.
    pub fn get<T: ExtensionValue>(&self, tag: Tag<T>) -> Option<&'a T>
        ensures { option_copied result ≡ value_under T.place (shown_map self.now) tag }
    {
        self.map.get(tag)
    }
}
