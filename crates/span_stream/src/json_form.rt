//! A line of JSON for each event.
ghost use Rattle.std.specs.Prelude.{◌≡◌, ℕ};
ghost use Rattle.span_stream.specs.Members.{AreFlat, members_kept};

use crate::line::json_line;
use crate::members::Members;
use crate::time::TimeStyle;
use span_core::{Event, FieldValue, Id, Lane};
use span_fmt::{Form, LaneNames};
use span_registry::{ContextMut, Notice, Subscriber, laws};
use span_times::Now;
use std::alloc::{AllocError, Global};

/// A line for each event: an object in JSON with its `timestamp`, `level`, `target` and `fields`,
/// whose `message` is its name unless a value is called so; and where it is in a span, the `span`
/// and all `spans` round it, from the root on, each with its `name` and its other values. Where its
/// lane has a name, that is its `threadName`, and the lane's number its `threadId`.
///
/// In its texts control characters, the separators of lines and paragraphs, and what turns the
/// direction of writing are escaped, so that a line acts on no terminal.
///
/// Stands for `tracing_subscriber::fmt::format::Json`.
pub struct JsonForm<C> {
    alloc: Global,
    clock: C,
    style: TimeStyle,
    members: Members,
    names: LaneNames,
    ghost flat: { AreFlat (members_kept members) },
}

impl<C: Drop> Drop for JsonForm<C> {
    fn drop(self) {
        let JsonForm {
            alloc,
            clock,
            style,
            members,
            names,
        } = self;
    }
}

impl<C: Now> JsonForm<C> {
    ghost use Rattle.std.specs.Prelude.{◌≢◌, [], IfOk, OnErr, OnOk, string_bytes};
    ghost use Rattle.span_core.specs.Field.{present};
    ghost use Rattle.span_core.specs.Span.{number_of};
    ghost use Rattle.span_fmt.specs.Known.{nothing_known, with_text};
    ghost use Rattle.span_stream.specs.Json.{clock_of, known_of, names_of, style_of};
    ghost use Rattle.span_stream.specs.Members.{nothing_kept, with_members};
    ghost use Rattle.span_stream.specs.Values.{with_values};

    /// The lines of a form that knows no span's values and no lane's name, with times by this
    /// clock, in this style.
    pub fn new(alloc: Global, clock: C, style: TimeStyle) -> JsonForm<C>
        ensures known { known_of result ≡ nothing_kept }
        ensures clock { clock_of result ≡ clock }
        ensures style { style_of result ≡ style }
        ensures names { names_of result ≡ nothing_known }
    {
        JsonForm {
            alloc,
            clock,
            style,
            members: Members::new(alloc),
            names: LaneNames::new(alloc),
        }
    }

    /// Gives a lane a name, which lines of its events say beside its number; an empty one is none.
    /// Do so before the form goes into a `Stream`.
    ///
    /// Stands for `tracing_subscriber::fmt::format::Format::with_thread_names`.
    pub fn name_lane(&mut self, lane: Lane, name: &str) -> Result<(), AllocError>
        ensures named { OnOk result
            (names_of self.new ≡ with_text lane.0 name.now (names_of self.old)) }
        ensures unchanged { OnErr result (names_of self.new ≡ names_of self.old) }
        ensures known { known_of self.new ≡ known_of self.old }
        ensures clock { clock_of self.new ≡ clock_of self.old }
        ensures style { style_of self.new ≡ style_of self.old }
    {
        self.names.set(self.alloc, lane, name)
    }

    /// Notes values that a span is given; there is no line of that.
    fn note(
        &mut self,
        id: Id,
        values: &[(&'static str, FieldValue<'_>)],
    ) -> Result<String, AllocError>
        ensures line { IfOk result (λ line. string_bytes line ≡ []) }
        ensures noted { IfOk result (λ line. known_of self.new ≡ with_members (number_of id)
            (with_values values.now (known_of self.old (number_of id))) (known_of self.old)) }
        ensures clock { clock_of self.new ≡ clock_of self.old }
        ensures style { style_of self.new ≡ style_of self.old }
        ensures names { names_of self.new ≡ names_of self.old }
        ensures unchanged { OnErr result (known_of self.new ≡ known_of self.old) }
        ensures refused { OnErr result (present values.now ≢ []) }
    {
        match self.members.add(self.alloc, id, values) {
            Ok(_) => Ok(String::new(self.alloc)),
            Err(error) => Err(error),
        }
    }
}

impl<S: Subscriber, C: Now> Form<S> for JsonForm<C> {
    ghost use Rattle.span_stream.specs.Json.{json_gives, json_misses};

    ghost gives = { json_gives C.latest C.gives };

    ghost misses = { json_misses C.latest C.gives };

    fn line(
        &mut self,
        notice: Notice<'_, '_>,
        ctx: &ContextMut<'_, S>,
    ) -> Result<String, AllocError> {
        laws::extensions_change_no_look_up();
        match notice {
            Notice::NewSpan(attrs, id) => self.note(id, attrs.values()),
            Notice::Record(id, values) => self.note(id, values.values()),
            Notice::Close(id) => {
                self.members.forget(id);
                Ok(String::new(self.alloc))
            }
            Notice::Event(event) => {
                let time = self.clock.now();
                json_line(
                    self.alloc,
                    self.style,
                    time,
                    event,
                    &self.members,
                    &self.names,
                    ctx,
                )
            }
            _ => Ok(String::new(self.alloc)),
        }
    }
}
