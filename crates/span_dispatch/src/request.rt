//! What is asked of a dispatcher, in a list, and what it answers.

ghost use Rattle.std.specs.Prelude.{◌≡◌};
ghost use Rattle.span_core.specs.Event.{event_metadata, event_of, event_parent, event_values};
ghost use Rattle.span_core.specs.Span.{asked_parent, attributes_of, metadata_of, values_of};
ghost use Rattle.span_dispatch.specs.Call.{current_answer, look_answer, done_answer, event_answer, span_answer, yes_answer};
ghost use Rattle.span_dispatch.specs.Serve.{resolved, resolved_parent};

use span_core::{Attributes, Current, Event, FieldValue, Id, Lane, Metadata, Parent, TraceError};
use span_targets::Setting;

/// A span that a request names.
///
/// Own to this port, as all in this module is.
#[derive(Clone, Copy, Debug, PartialEq, Eq)]
pub enum Which {
    /// The span with this id.
    Known(Id),
    /// The span that the request at this place of the list made.
    ///
    /// Where no earlier request at that place made one, the request that names it is dropped; as a
    /// parent, a root takes its place.
    Made(usize),
}

impl Which {
    /// The span that is named, given the answers so far.
    pub fn span_of(self, past: &[Answer]) -> Option<Id>
        ensures { result ≡ resolved past.now self }
    {
        match self {
            Which::Known(id) => Some(id),
            Which::Made(place) => match past.get(place) {
                Some(Answer::Made(id)) => Some(*id),
                _ => None,
            },
        }
    }
}

/// The parent that a request for a new span or an event names.
#[derive(Clone, Copy, Debug, PartialEq, Eq)]
pub enum WhichParent {
    /// No parent: a root.
    Root,
    /// The span that the lane is in.
    Contextual,
    /// The span that is named.
    Explicit(Which),
}

impl WhichParent {
    /// The parent that is asked for, given the answers so far.
    pub fn parent_of(self, past: &[Answer]) -> Parent
        ensures { result ≡ resolved_parent past.now self }
    {
        match self {
            WhichParent::Root => Parent::Root,
            WhichParent::Contextual => Parent::Contextual,
            WhichParent::Explicit(which) => match which.span_of(past) {
                Some(id) => Parent::Explicit(id),
                None => Parent::Root,
            },
        }
    }

    /// The attributes of a new span with this parent, given the answers so far.
    pub fn attributes<'a>(
        self,
        past: &[Answer],
        metadata: Metadata,
        values: &'a [(&'static str, FieldValue<'a>)],
    ) -> Attributes<'a>
        ensures metadata { metadata_of result ≡ metadata }
        ensures parent { asked_parent result ≡ resolved_parent past.now self }
        ensures values { values_of result ≡ values.now }
        ensures whole { result ≡ attributes_of metadata values.entry
            (resolved_parent past.now self) }
    {
        match self.parent_of(past) {
            Parent::Root => Attributes::new_root(metadata, values),
            Parent::Contextual => Attributes::new(metadata, values),
            Parent::Explicit(id) => Attributes::child_of(id, metadata, values),
        }
    }

    /// An event with this parent, given the answers so far.
    pub fn event<'a>(
        self,
        past: &[Answer],
        metadata: Metadata,
        values: &'a [(&'static str, FieldValue<'a>)],
    ) -> Event<'a>
        ensures metadata { event_metadata result ≡ metadata }
        ensures parent { event_parent result ≡ resolved_parent past.now self }
        ensures values { event_values result ≡ values.now }
        ensures whole { result ≡ event_of metadata values.entry (resolved_parent past.now self) }
    {
        match self.parent_of(past) {
            Parent::Root => Event::new_root(metadata, values),
            Parent::Contextual => Event::new(metadata, values),
            Parent::Explicit(id) => Event::new_child_of(id, metadata, values),
        }
    }
}

/// One request of a list. Values stand by the names of their fields, and are handed on to hooks as
/// they are.
#[derive(Clone, Copy, Debug)]
pub enum Request<'a> {
    /// To open a span.
    NewSpan {
        /// The lane that opens it.
        lane: Lane,
        /// What its callsite says of it.
        metadata: Metadata,
        /// The parent that is asked for.
        parent: WhichParent,
        /// The values of its fields.
        values: &'a [(&'static str, FieldValue<'a>)],
    },
    /// To send an event.
    Event {
        /// The lane that sends it.
        lane: Lane,
        /// What its callsite says of it.
        metadata: Metadata,
        /// The span that it is said to be in.
        parent: WhichParent,
        /// The values of its fields.
        values: &'a [(&'static str, FieldValue<'a>)],
    },
    /// To let the lane enter the span.
    Enter(Lane, Which),
    /// To let the lane leave the span.
    Exit(Lane, Which),
    /// To record values of the span.
    Record(Lane, Which, &'a [(&'static str, FieldValue<'a>)]),
    /// To record that the first span follows from the second.
    Follows(Lane, Which, Which),
    /// To add a handle to the span.
    Clone(Lane, Which),
    /// To drop a handle of the span.
    Drop(Lane, Which),
    /// Whether a span or an event with this metadata would be made.
    Enabled(Lane, Metadata),
    /// Which span the lane is in.
    Current(Lane),
    /// To have the filter with this number take a setting.
    Reload(u32, Setting),
}

/// The answer to a request.
#[derive(Clone, Copy, Debug, PartialEq, Eq)]
pub enum Answer {
    /// A span was made, with this id.
    Made(Id),
    /// The new span or the event was dropped, since hint or interest ruled it out or a layer vetoed
    /// it; or the request names no span, and nothing was asked.
    Dropped,
    /// The request was served, and there is no more to say.
    Done,
    /// Whether the span or the event would be made; or whether the span closed by the drop.
    Yes(bool),
    /// The span that the lane is in, if it is in one.
    Current(Option<Id>),
    /// The request was refused, and changed nothing.
    Refused(TraceError),
}

impl Answer {
    /// The answer for what opening a span gave.
    pub fn of_span(made: Result<Option<Id>, TraceError>) -> Answer
        ensures { result ≡ span_answer made }
    {
        match made {
            Ok(Some(id)) => Answer::Made(id),
            Ok(None) => Answer::Dropped,
            Err(error) => Answer::Refused(error),
        }
    }

    /// The answer for what sending an event gave.
    pub fn of_event(made: Result<bool, TraceError>) -> Answer
        ensures { result ≡ event_answer made }
    {
        match made {
            Ok(true) => Answer::Done,
            Ok(false) => Answer::Dropped,
            Err(error) => Answer::Refused(error),
        }
    }

    /// The answer for what gives nothing but a refusal.
    pub fn of_done(done: Result<(), TraceError>) -> Answer
        ensures { result ≡ done_answer done }
    {
        match done {
            Ok(()) => Answer::Done,
            Err(error) => Answer::Refused(error),
        }
    }

    /// The answer for what cloning a handle gave.
    pub fn of_clone(cloned: Result<Id, TraceError>) -> Answer
        ensures { result ≡ done_answer cloned }
    {
        match cloned {
            Ok(_) => Answer::Done,
            Err(error) => Answer::Refused(error),
        }
    }

    /// The answer for what gives a truth value.
    pub fn of_yes(said: Result<bool, TraceError>) -> Answer
        ensures { result ≡ yes_answer said }
    {
        match said {
            Ok(yes) => Answer::Yes(yes),
            Err(error) => Answer::Refused(error),
        }
    }

    /// The answer for the span that a lane was shown to be in.
    pub fn of_current(current: Current) -> Answer
        ensures { result ≡ current_answer current }
    {
        Answer::Current(current.id())
    }

    /// The answer for a look at a lane's span that may be refused.
    pub fn of_look(shown: Result<Current, TraceError>) -> Answer
        ensures { result ≡ look_answer shown }
    {
        match shown {
            Ok(current) => Answer::of_current(current),
            Err(error) => Answer::Refused(error),
        }
    }
}
