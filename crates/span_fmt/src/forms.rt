//! What `Tree` and `Lines` write, as forms.
ghost use Rattle.std.specs.Prelude.{◌≡◌, ◌≢◌, IfOk, OnErr, OnOk, [], string_bytes};
ghost use Rattle.span_core.specs.Span.{number_of};
ghost use Rattle.span_fmt.specs.Forms.{lines_give, lines_miss, known_by_form, names_by_form, names_by_tree, tree_gives, tree_misses};
ghost use Rattle.span_fmt.specs.Known.{nothing_known, with_text, with_values};
ghost use Rattle.span_fmt.specs.Text.{fields_text};

use crate::form::Form;
use crate::known::Known;
use crate::lane::LaneNames;
use crate::lines::line_due;
use crate::tree::text_due;
use span_core::{FieldValue, Id, Lane};
use span_registry::{ContextMut, Notice, Subscriber, laws};
use std::alloc::{AllocError, Global};

/// The lines of a `Tree`.
#[derive(Drop)]
pub struct TreeForm {
    alloc: Global,
    names: LaneNames,
}

impl TreeForm {
    /// The lines of a `Tree` that has no names of lanes.
    pub fn new(alloc: Global) -> TreeForm
        ensures { names_by_tree result ≡ nothing_known }
    {
        TreeForm {
            alloc,
            names: LaneNames::new(alloc),
        }
    }

    /// Gives a lane a name, which lines show; an empty one is none. Do so before the form goes into a
    /// `Stream`.
    pub fn name_lane(&mut self, lane: Lane, name: &str) -> Result<(), AllocError>
        ensures named { OnOk result
            (names_by_tree self.new ≡ with_text lane.0 name.now (names_by_tree self.old)) }
        ensures unchanged { OnErr result (names_by_tree self.new ≡ names_by_tree self.old) }
    {
        self.names.set(self.alloc, lane, name)
    }
}

impl<S: Subscriber> Form<S> for TreeForm {
    ghost gives = { tree_gives };

    ghost misses = { tree_misses };

    fn line(
        &mut self,
        notice: Notice<'_, '_>,
        ctx: &ContextMut<'_, S>,
    ) -> Result<String, AllocError> {
        laws::extensions_change_no_look_up();
        text_due(self.alloc, &self.names, notice, ctx)
    }
}

/// The lines of a `Lines`, which knows the values that spans were given.
///
/// Where it finds no memory for a span's values, it doesn't know them later, and the notice counts
/// as a line that is lost.
pub struct LinesForm {
    alloc: Global,
    known: Known,
    names: LaneNames,
}

impl Drop for LinesForm {
    fn drop(self) {
        let LinesForm {
            alloc,
            known,
            names,
        } = self;
    }
}

impl LinesForm {
    /// The lines of a `Lines` that knows no span's values, and has no names of lanes.
    pub fn new(alloc: Global) -> LinesForm
        ensures known { known_by_form result ≡ nothing_known }
        ensures names { names_by_form result ≡ nothing_known }
    {
        LinesForm {
            alloc,
            known: Known::new(alloc),
            names: LaneNames::new(alloc),
        }
    }

    /// Gives a lane a name, which lines show; an empty one is none. Do so before the form goes into a
    /// `Stream`.
    pub fn name_lane(&mut self, lane: Lane, name: &str) -> Result<(), AllocError>
        ensures named { OnOk result
            (names_by_form self.new ≡ with_text lane.0 name.now (names_by_form self.old)) }
        ensures unchanged { OnErr result (names_by_form self.new ≡ names_by_form self.old) }
        ensures known { known_by_form self.new ≡ known_by_form self.old }
    {
        self.names.set(self.alloc, lane, name)
    }

    /// Notes values that a span is given; there is no line of that.
    fn note(
        &mut self,
        id: Id,
        values: &[(&'static str, FieldValue<'_>)],
    ) -> Result<String, AllocError>
        ensures noted { IfOk result (λ line. (string_bytes line ≡ [])
            × (known_by_form self.new
            ≡ with_values (number_of id) values.now (known_by_form self.old))) }
        ensures unchanged { OnErr result (known_by_form self.new ≡ known_by_form self.old) }
        ensures refused { OnErr result (fields_text values.now ≢ []) }
        ensures names { names_by_form self.new ≡ names_by_form self.old }
    {
        self.known.add(self.alloc, id, values)?;
        Ok(String::new(self.alloc))
    }
}

impl<S: Subscriber> Form<S> for LinesForm {
    ghost gives = { lines_give };

    ghost misses = { lines_miss };

    fn line(
        &mut self,
        notice: Notice<'_, '_>,
        ctx: &ContextMut<'_, S>,
    ) -> Result<String, AllocError> {
        laws::extensions_change_no_look_up();
        match notice {
            Notice::NewSpan(attrs, id) => self.note(id, attrs.values()),
            Notice::Record(id, values) => self.note(id, values.values()),
            Notice::Close(id) => {
                self.known.forget(id);
                Ok(String::new(self.alloc))
            }
            Notice::Event(event) => line_due(self.alloc, &self.names, event, &self.known, ctx),
            _ => Ok(String::new(self.alloc)),
        }
    }
}
