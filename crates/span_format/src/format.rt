//! The format of events' lines.
ghost use Rattle.std.specs.Prelude.{◌≡◌, ◌≢◌, IfOk, OnErr, OnOk, [], string_bytes, true, false};
ghost use Rattle.span_core.specs.Span.{number_of};
ghost use Rattle.span_fmt.specs.Known.{nothing_known, with_text};
ghost use Rattle.span_format.specs.Field.{fields_text};
ghost use Rattle.span_format.specs.Format.{format_gives, format_misses, kept_by, looks_of};
ghost use Rattle.span_format.specs.Kept.{with_values};
ghost use Rattle.span_format.specs.Look.{new_looks};

use crate::kept::Kept;
use crate::layout::Layout;
use crate::line::event_line;
use crate::look::Look;
use span_core::{FieldValue, Id, Lane};
use span_fmt::{Form, LaneNames};
use span_registry::{ContextMut, Notice, Subscriber, laws};
use std::alloc::{AllocError, Global};

/// The lines of events in a layout, with the spans round each that its own context shows and the
/// fields that these were given.
///
/// Levels and targets are shown, lanes aren't, and no part is in a style, as long as nothing else
/// is asked for. Nothing is kept but the text of open spans' fields. Where no memory is found for a
/// span's fields, they are missing later, and the notice counts as a line that is lost.
///
/// Stands for `tracing_subscriber::fmt::format::Format`.
pub struct Format {
    alloc: Global,
    look: Look,
    kept: Kept,
}

impl Drop for Format {
    fn drop(self) {
        let Format { alloc, look, kept } = self;
    }
}

impl Format {
    /// Lines in this layout.
    pub fn new(alloc: Global, layout: Layout) -> Format
        ensures looks { looks_of result ≡ new_looks layout }
        ensures kept { kept_by result ≡ nothing_known }
    {
        Format {
            alloc,
            look: Look {
                layout,
                level: true,
                target: true,
                lanes: false,
                ansi: false,
                names: LaneNames::new(alloc),
            },
            kept: Kept::new(alloc),
        }
    }

    /// The same, and levels are shown or not.
    pub fn with_level(mut self, shown: bool) -> Format
        ensures looks { looks_of result ≡ record (looks_of self) { level = shown } }
        ensures kept { kept_by result ≡ kept_by self }
    {
        self.look.level = shown;
        self
    }

    /// The same, and targets are shown or not.
    pub fn with_target(mut self, shown: bool) -> Format
        ensures looks { looks_of result ≡ record (looks_of self) { target = shown } }
        ensures kept { kept_by result ≡ kept_by self }
    {
        self.look.target = shown;
        self
    }

    /// The same, and lanes are shown or not: each by its name in quotes, or else by its number.
    ///
    /// Stands for `Format::with_thread_names`.
    pub fn with_lanes(mut self, shown: bool) -> Format
        ensures looks { looks_of result ≡ record (looks_of self) { lanes = shown } }
        ensures kept { kept_by result ≡ kept_by self }
    {
        self.look.lanes = shown;
        self
    }

    /// The same, and parts of lines are in styles, for terminals, or not: levels in their colours,
    /// names of spans bold, and targets dimmed. What a value says is in none.
    ///
    /// Stands for `tracing_subscriber::fmt::format::Format::with_ansi`.
    pub fn with_ansi(mut self, ansi: bool) -> Format
        ensures looks { looks_of result ≡ record (looks_of self) { ansi = ansi } }
        ensures kept { kept_by result ≡ kept_by self }
    {
        self.look.ansi = ansi;
        self
    }

    /// Gives a lane a name; an empty one is none.
    pub fn name_lane(&mut self, lane: Lane, name: &str) -> Result<(), AllocError>
        ensures named { OnOk result (looks_of self.new ≡ record (looks_of self.old) {
          names = with_text lane.0 name.now (looks_of self.old).names;
        }) }
        ensures unchanged { OnErr result (looks_of self.new ≡ looks_of self.old) }
        ensures kept { kept_by self.new ≡ kept_by self.old }
    {
        self.look.names.set(self.alloc, lane, name)
    }

    /// Notes fields that a span is given; there is no line of that.
    fn note(
        &mut self,
        id: Id,
        values: &[(&'static str, FieldValue<'_>)],
    ) -> Result<String, AllocError>
        ensures line { IfOk result (λ line. string_bytes line ≡ []) }
        ensures noted { OnOk result (kept_by self.new ≡ with_values (looks_of self.old).layout
            (number_of id) values.now (kept_by self.old)) }
        ensures looks { looks_of self.new ≡ looks_of self.old }
        ensures unchanged { OnErr result (kept_by self.new ≡ kept_by self.old) }
        ensures refused { OnErr result
            (fields_text (looks_of self.old).layout values.now ≢ []) }
    {
        self.kept.add(self.alloc, self.look.layout, id, values)?;
        Ok(String::new(self.alloc))
    }
}

impl<S: Subscriber> Form<S> for Format {
    ghost gives = { format_gives };

    ghost misses = { format_misses };

    fn line(
        &mut self,
        notice: Notice<'_, '_>,
        ctx: &ContextMut<'_, S>,
    ) -> Result<String, AllocError> {
        laws::extensions_change_no_look_up();
        match notice {
            Notice::NewSpan(attrs, id) => self.note(id, attrs.values()),
            Notice::Record(id, values) => self.note(id, values.values()),
            Notice::Close(id) => {
                self.kept.forget(id);
                Ok(String::new(self.alloc))
            }
            Notice::Event(event) => event_line(self.alloc, &self.look, event, &self.kept, ctx),
            _ => Ok(String::new(self.alloc)),
        }
    }
}
