//! What names a span, what a new one is made of, and the span that a lane is in.
ghost use Rattle.std.specs.Prelude.{◌≡◌, ◌↔◌, IsTrue, Some, None};
ghost use Rattle.std.specs.Option.{option_map};
ghost use Rattle.span_core.specs.Span.{asked_parent, attributes_of, current_span, explicit_parent};
ghost use Rattle.span_core.specs.Span.{metadata_of, number_of, record_of, recorded_values, values_of};

use crate::field::FieldValue;
use crate::metadata::Metadata;

/// The id of a span. The number 0 is never handed out, and the number has no further meaning.
///
/// Stands for `tracing_core::span::Id`, and is passed by value.
#[derive(Clone, Copy, Debug, PartialEq, Eq, PartialOrd, Ord, Hash)]
pub struct Id {
    number: u64,
}

impl Id {
    /// The id with this number.
    pub fn from_u64(number: u64) -> Id
        ensures { number_of result ≡ number }
    {
        Id { number }
    }

    /// The number of this id.
    pub fn into_u64(self) -> u64
        ensures { result ≡ number_of self }
    {
        self.number
    }
}

/// The number of a lane: a stack of entered spans, as one thread has it.
///
/// Own to this port: in the crate the thread itself is the lane.
#[derive(Clone, Copy, Debug, PartialEq, Eq, PartialOrd, Ord, Hash)]
pub struct Lane(pub u32);

/// The span that a lane is in, with its metadata, if it is in one.
///
/// Stands for `tracing_core::span::Current`, which can be unknown too.
#[derive(Clone, Copy, Debug, PartialEq, Eq)]
pub struct Current {
    span: Option<(Id, Metadata)>,
}

impl Current {
    /// A lane in no span.
    pub fn none() -> Current
        ensures { current_span result ≡ None }
    {
        Current { span: None }
    }

    /// A lane in this span.
    pub fn new(id: Id, metadata: Metadata) -> Current
        ensures { current_span result ≡ Some (id, metadata) }
    {
        Current {
            span: Some((id, metadata)),
        }
    }

    /// The span's id.
    pub fn id(&self) -> Option<Id>
        ensures { result ≡ option_map (λ s. s.0) (current_span self.now) }
    {
        match self.span {
            Some((id, _)) => Some(id),
            None => None,
        }
    }

    /// The span's metadata.
    pub fn metadata(&self) -> Option<Metadata>
        ensures { result ≡ option_map (λ s. s.1) (current_span self.now) }
    {
        match &self.span {
            Some(span) => Some(span.1),
            None => None,
        }
    }

    /// Whether the lane is in no span.
    pub fn is_none(&self) -> bool
        ensures { IsTrue result ↔ (current_span self.now ≡ None) }
    {
        self.span.is_none()
    }
}

/// Which parent a new span or an event names.
///
/// Stands for `tracing_core`'s private `Parent`.
#[derive(Clone, Copy, Debug, PartialEq, Eq)]
pub enum Parent {
    /// No parent: a root.
    Root,
    /// The span that its lane is in.
    Contextual,
    /// The span with this id.
    Explicit(Id),
}

/// What a new span is made of: metadata, values by the names of its fields, and the parent that it
/// asks for.
///
/// Stands for `tracing_core::span::Attributes`, with values in a slice in place of a `ValueSet`.
#[derive(Clone, Copy, Debug)]
pub struct Attributes<'a> {
    metadata: Metadata,
    values: &'a [(&'static str, FieldValue<'a>)],
    parent: Parent,
}

impl<'a> Attributes<'a> {
    /// A span whose parent is the one that its lane is in.
    pub fn new(metadata: Metadata, values: &'a [(&'static str, FieldValue<'a>)]) -> Attributes<'a>
        ensures metadata { metadata_of result ≡ metadata }
        ensures values { values_of result ≡ values.now }
        ensures parent { asked_parent result ≡ Parent.Contextual }
        ensures whole { result ≡ attributes_of metadata values.entry Parent.Contextual }
    {
        Attributes {
            metadata,
            values,
            parent: Parent::Contextual,
        }
    }

    /// A span without a parent.
    pub fn new_root(
        metadata: Metadata,
        values: &'a [(&'static str, FieldValue<'a>)],
    ) -> Attributes<'a>
        ensures metadata { metadata_of result ≡ metadata }
        ensures values { values_of result ≡ values.now }
        ensures parent { asked_parent result ≡ Parent.Root }
        ensures whole { result ≡ attributes_of metadata values.entry Parent.Root }
    {
        Attributes {
            metadata,
            values,
            parent: Parent::Root,
        }
    }

    /// A span whose parent is this one.
    pub fn child_of(
        parent: Id,
        metadata: Metadata,
        values: &'a [(&'static str, FieldValue<'a>)],
    ) -> Attributes<'a>
        ensures metadata { metadata_of result ≡ metadata }
        ensures values { values_of result ≡ values.now }
        ensures parent { asked_parent result ≡ Parent.Explicit parent }
        ensures whole { result ≡ attributes_of metadata values.entry (Parent.Explicit parent) }
    {
        Attributes {
            metadata,
            values,
            parent: Parent::Explicit(parent),
        }
    }

    /// The span's metadata.
    pub fn metadata(&self) -> Metadata
        ensures { result ≡ metadata_of self.now }
    {
        self.metadata
    }

    /// The values, by the names of the fields.
    pub fn values(&self) -> &'a [(&'static str, FieldValue<'a>)]
        ensures { result.now ≡ values_of self.now }
    {
        self.values
    }

    /// Which parent the span asks for.
    ///
    /// Own to this port: the crate asks three questions.
    pub fn asked_parent(&self) -> Parent
        ensures { result ≡ asked_parent self.now }
    {
        self.parent
    }

    /// Whether the span asks for no parent.
    pub fn is_root(&self) -> bool
        ensures { IsTrue result ↔ (asked_parent self.now ≡ Parent.Root) }
    {
        self.asked_parent() == Parent::Root
    }

    /// Whether the span asks for the one that its lane is in.
    pub fn is_contextual(&self) -> bool
        ensures { IsTrue result ↔ (asked_parent self.now ≡ Parent.Contextual) }
    {
        self.asked_parent() == Parent::Contextual
    }

    /// The parent that the span asks for by its id, if it does.
    pub fn parent(&self) -> Option<Id>
        ensures { result ≡ explicit_parent (asked_parent self.now) }
    {
        match self.asked_parent() {
            Parent::Explicit(id) => Some(id),
            _ => None,
        }
    }
}

/// Values recorded of a span after it was made.
///
/// Stands for `tracing_core::span::Record`, with values in a slice in place of a `ValueSet`.
#[derive(Clone, Copy, Debug)]
pub struct Record<'a> {
    recorded: &'a [(&'static str, FieldValue<'a>)],
}

impl<'a> Record<'a> {
    /// A record of these values.
    pub fn new(values: &'a [(&'static str, FieldValue<'a>)]) -> Record<'a>
        ensures values { recorded_values result ≡ values.now }
        ensures whole { result ≡ record_of values.entry }
    {
        Record { recorded: values }
    }

    /// The values, by the names of the fields.
    pub fn values(&self) -> &'a [(&'static str, FieldValue<'a>)]
        ensures { result.now ≡ recorded_values self.now }
    {
        self.recorded
    }
}
