//! The values that spans were given, as members of objects in JSON.
ghost use Rattle.std.specs.Prelude.{◌≡◌, ◌≢◌, [], IfOk, OnErr, OnOk};
ghost use Rattle.serde_json.specs.Data.{no_members};
ghost use Rattle.serde_json.specs.View.{members_view};
ghost use Rattle.span_core.specs.Field.{present};
ghost use Rattle.span_core.specs.Span.{number_of};
ghost use Rattle.span_stream.specs.Members.{members_kept, nothing_kept, with_members};
ghost use Rattle.span_stream.specs.Values.{with_values};

use crate::held::{Held, waiting_of};
use crate::values::are_absent;
use serde_json::{Map, Value};
use span_core::{FieldValue, Id};
use std::alloc::{AllocError, Global};
use std::collections::BTreeMap;

/// The values that spans were given, by the spans' numbers.
#[derive(Drop)]
pub(crate) struct Members {
    kept: BTreeMap<u64, Held>,
}

impl Members {
    /// What is known before any span was given a value.
    pub(crate) fn new(alloc: Global) -> Members
        ensures { members_kept result ≡ nothing_kept }
    {
        Members {
            kept: BTreeMap::new(alloc),
        }
    }

    /// The values of a span.
    pub(crate) fn of(&self, alloc: Global, id: Id) -> Result<Map<String, Value>, AllocError>
        ensures { IfOk result
            (λ members. members_view members.entries ≡ members_kept self.now (number_of id)) }
    {
        let Some(kept) = self.kept.get(&id.into_u64()) else {
            return Ok(Map::new(alloc));
        };
        kept.members(alloc)
    }

    /// Adds values of a span to what is known. Where no field has a value, no memory is needed.
    pub(crate) fn add(
        &mut self,
        alloc: Global,
        id: Id,
        values: &[(&'static str, FieldValue<'_>)],
    ) -> Result<(), AllocError>
        ensures added { OnOk result (members_kept self.new ≡ with_members (number_of id)
            (with_values values.now (members_kept self.old (number_of id)))
            (members_kept self.old)) }
        ensures unchanged { OnErr result (members_kept self.new ≡ members_kept self.old) }
        ensures refused { OnErr result (present values.now ≢ []) }
    {
        if are_absent(values) {
            return Ok(());
        }
        let waiting = waiting_of(alloc, values)?;
        if let Some(held) = self.kept.get_mut(&id.into_u64()) {
            return held.add(waiting);
        }
        match self.kept.insert(id.into_u64(), Held::new(alloc, waiting)) {
            Ok(_) => Ok(()),
            Err(_) => Err(AllocError),
        }
    }

    /// Forgets the values of a span.
    pub(crate) fn forget(&mut self, id: Id)
        ensures { members_kept self.new
            ≡ with_members (number_of id) no_members (members_kept self.old) }
    {
        self.kept.remove(&id.into_u64());
    }
}
