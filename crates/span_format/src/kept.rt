//! The fields of open spans, as text.
ghost use Rattle.std.specs.Prelude.{◌≡◌, ◌≢◌, ◌++◌, [], OnErr, OnOk, string_bytes};
ghost use Rattle.span_core.specs.Span.{number_of};
ghost use Rattle.span_fmt.specs.Known.{nothing_known, with_text};
ghost use Rattle.span_format.specs.Field.{fields_text};
ghost use Rattle.span_format.specs.Kept.{kept_in, with_values};

use crate::field::{are_absent, write_fields};
use crate::layout::Layout;
use span_core::{FieldValue, Id};
use std::alloc::{AllocError, Global};
use std::collections::BTreeMap;

/// The text of the fields that open spans were given, by the spans' numbers.
#[derive(Drop)]
pub(crate) struct Kept {
    texts: BTreeMap<u64, String>,
}

impl Kept {
    /// What is kept before any span was given a field.
    pub(crate) fn new(alloc: Global) -> Kept
        ensures { kept_in result ≡ nothing_known }
    {
        Kept {
            texts: BTreeMap::new(alloc),
        }
    }

    /// The text of a span's fields, each behind what stands in front of it.
    pub(crate) fn text(&self, id: Id) -> &str
        ensures { result.now ≡ kept_in self.now (number_of id) }
    {
        match self.texts.get(&id.into_u64()) {
            Some(text) => text.as_str(),
            None => "",
        }
    }

    /// Adds fields of a span to what is kept. Where none has a value, no memory is needed.
    pub(crate) fn add(
        &mut self,
        alloc: Global,
        layout: Layout,
        id: Id,
        values: &[(&'static str, FieldValue<'_>)],
    ) -> Result<(), AllocError>
        ensures added { OnOk result
            (kept_in self.new ≡ with_values layout (number_of id) values.now (kept_in self.old)) }
        ensures unchanged { OnErr result (kept_in self.new ≡ kept_in self.old) }
        ensures refused { OnErr result (fields_text layout values.now ≢ []) }
    {
        if are_absent(values) {
            return Ok(());
        }
        // Apart first: where memory is refused, what is kept stays as it was.
        let mut added = String::new(alloc);
        write_fields(&mut added, layout, values)?;
        self.append(id, added)
    }

    /// Puts a text behind what is kept of a span.
    fn append(&mut self, id: Id, added: String) -> Result<(), AllocError>
        ensures added { OnOk result (kept_in self.new ≡ with_text (number_of id)
            (kept_in self.old (number_of id) ++ string_bytes added) (kept_in self.old)) }
        ensures unchanged { OnErr result (kept_in self.new ≡ kept_in self.old) }
    {
        if let Some(text) = self.texts.get_mut(&id.into_u64()) {
            return text.push_str(added.as_str());
        }
        match self.texts.insert(id.into_u64(), added) {
            Ok(_) => Ok(()),
            Err(_) => Err(AllocError),
        }
    }

    /// Forgets the fields of a span.
    pub(crate) fn forget(&mut self, id: Id)
        ensures { kept_in self.new ≡ with_text (number_of id) [] (kept_in self.old) }
    {
        self.texts.remove(&id.into_u64());
    }
}
