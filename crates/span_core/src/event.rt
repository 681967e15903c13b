//! What an event is made of.
ghost use Rattle.std.specs.Prelude.{◌≡◌, ◌↔◌, IsTrue};
ghost use Rattle.span_core.specs.Span.{explicit_parent};
ghost use Rattle.span_core.specs.Event.{event_metadata, event_of, event_parent, event_values};

use crate::field::FieldValue;
use crate::metadata::Metadata;
use crate::span::{Id, Parent};

/// An event: metadata, values by the names of its fields, and the parent that it asks for.
///
/// Stands for `tracing_core::Event`, with values in a slice in place of a `ValueSet`.
#[derive(Clone, Copy, Debug)]
pub struct Event<'a> {
    metadata: Metadata,
    values: &'a [(&'static str, FieldValue<'a>)],
    parent: Parent,
}

impl<'a> Event<'a> {
    /// An event in the span that its lane is in.
    pub fn new(metadata: Metadata, values: &'a [(&'static str, FieldValue<'a>)]) -> Event<'a>
        ensures metadata { event_metadata result ≡ metadata }
        ensures values { event_values result ≡ values.now }
        ensures parent { event_parent result ≡ Parent.Contextual }
        ensures whole { result ≡ event_of metadata values.entry Parent.Contextual }
    {
        Event {
            metadata,
            values,
            parent: Parent::Contextual,
        }
    }

    /// An event in no span.
    pub fn new_root(metadata: Metadata, values: &'a [(&'static str, FieldValue<'a>)]) -> Event<'a>
        ensures metadata { event_metadata result ≡ metadata }
        ensures values { event_values result ≡ values.now }
        ensures parent { event_parent result ≡ Parent.Root }
        ensures whole { result ≡ event_of metadata values.entry Parent.Root }
    {
        Event {
            metadata,
            values,
            parent: Parent::Root,
        }
    }

    /// An event in this span.
    pub fn new_child_of(
        parent: Id,
        metadata: Metadata,
        values: &'a [(&'static str, FieldValue<'a>)],
    ) -> Event<'a>
        ensures metadata { event_metadata result ≡ metadata }
        ensures values { event_values result ≡ values.now }
        ensures parent { event_parent result ≡ Parent.Explicit parent }
        ensures whole { result ≡ event_of metadata values.entry (Parent.Explicit parent) }
    {
        Event {
            metadata,
            values,
            parent: Parent::Explicit(parent),
        }
    }

    /// The event's metadata.
    pub fn metadata(&self) -> Metadata
        ensures { result ≡ event_metadata self.now }
    {
        self.metadata
    }

    /// The event's values, by the names of their fields.
    pub fn values(&self) -> &'a [(&'static str, FieldValue<'a>)]
        ensures { result.now ≡ event_values self.now }
    {
        self.values
    }

    /// Which span the event asks for.
    ///
    /// Own to this port: the crate asks three questions.
    pub fn asked_parent(&self) -> Parent
        ensures { result ≡ event_parent self.now }
    {
        self.parent
    }

    /// Whether the event asks for no span.
    pub fn is_root(&self) -> bool
        ensures { IsTrue result ↔ (event_parent self.now ≡ Parent.Root) }
    {
        self.asked_parent() == Parent::Root
    }

    /// Whether the event asks for the span that its lane is in.
    pub fn is_contextual(&self) -> bool
        ensures { IsTrue result ↔ (event_parent self.now ≡ Parent.Contextual) }
    {
        self.asked_parent() == Parent::Contextual
    }

    /// The span that the event asks for by its id, if it does.
    pub fn parent(&self) -> Option<Id>
        ensures { result ≡ explicit_parent (event_parent self.now) }
    {
        match self.asked_parent() {
            Parent::Explicit(id) => Some(id),
            _ => None,
        }
    }
}
