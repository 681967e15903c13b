//! The values that spans were given, as text.
ghost use Rattle.std.specs.Prelude.{◌≡◌, ◌≢◌, [], OnErr, OnOk};
ghost use Rattle.span_core.specs.Span.{number_of};
ghost use Rattle.span_fmt.specs.Known.{known_in, nothing_known, with_text, with_values};
ghost use Rattle.span_fmt.specs.Text.{fields_text};

use crate::fields::{are_absent, write_fields};
use span_core::{FieldValue, Id};
use std::alloc::{AllocError, Global};
use std::collections::BTreeMap;

/// The text of the values that spans were given, by the spans' numbers.
#[derive(Drop)]
pub(crate) struct Known {
    texts: BTreeMap<u64, String>,
}

impl Known {
    /// What is known before any span was given a value.
    pub(crate) fn new(alloc: Global) -> Known
        ensures { known_in result ≡ nothing_known }
    {
        Known {
            texts: BTreeMap::new(alloc),
        }
    }

    /// The text of a span's values, each behind a space.
    pub(crate) fn text(&self, id: Id) -> &str
        ensures { result.now ≡ known_in self.now (number_of id) }
    {
        match self.texts.get(&id.into_u64()) {
            Some(text) => text.as_str(),
            None => "",
        }
    }

    /// Adds values of a span to what is known. Where no field has a value, no memory is needed.
    pub(crate) fn add(
        &mut self,
        alloc: Global,
        id: Id,
        values: &[(&'static str, FieldValue<'_>)],
    ) -> Result<(), AllocError>
        ensures added { OnOk result
            (known_in self.new ≡ with_values (number_of id) values.now (known_in self.old)) }
        ensures unchanged { OnErr result (known_in self.new ≡ known_in self.old) }
        ensures refused { OnErr result (fields_text values.now ≢ []) }
    {
        if are_absent(values) {
            return Ok(());
        }
        // First by themselves: where memory is refused, what is known stays as it was.
        let mut added = String::new(alloc);
        write_fields(&mut added, values)?;
        if let Some(text) = self.texts.get_mut(&id.into_u64()) {
            return text.push_str(&added);
        }
        match self.texts.insert(id.into_u64(), added) {
            Ok(_) => Ok(()),
            Err(_) => Err(AllocError),
        }
    }

    /// Forgets the values of a span.
    pub(crate) fn forget(&mut self, id: Id)
        ensures { known_in self.new ≡ with_text (number_of id) [] (known_in self.old) }
    {
        self.texts.remove(&id.into_u64());
    }
}
