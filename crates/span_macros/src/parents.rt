//! What macros make of the parents that they are given.
ghost use Rattle.std.specs.Prelude.{◌≡◌};
ghost use Rattle.span_core.specs.Event.{event_of};
ghost use Rattle.span_core.specs.Span.{attributes_of};
ghost use Rattle.span_core.specs.declared.span.Parent.TheVariants.{Explicit};
ghost use Rattle.span_core.specs.declared.span.Parent.{Parent as Asked};
ghost use Rattle.span_macros.specs.Field.{parent_by};

use span_core::{Attributes, Event, FieldValue, Id, Metadata, Parent};

/// What a macro takes as the parent of a span or an event.
pub trait IntoParent {
    /// The parent that it names.
    ghost parent_of: { Self → Asked };

    /// The parent.
    fn into_parent(self) -> Parent
        ensures { result ≡ parent_of self };
}

impl IntoParent for Parent {
    ghost parent_of = { λ parent. parent };

    fn into_parent(self) -> Parent {
        self
    }
}

impl IntoParent for Id {
    ghost parent_of = { Explicit };

    fn into_parent(self) -> Parent {
        Parent::Explicit(self)
    }
}

impl IntoParent for Option<Id> {
    ghost parent_of = { parent_by };

    fn into_parent(self) -> Parent {
        match self {
            Some(id) => Parent::Explicit(id),
            None => Parent::Root,
        }
    }
}

/// An event with this parent.
#[inline(always)]
pub fn event_in<'a>(
    parent: Parent,
    metadata: Metadata,
    values: &'a [(&'static str, FieldValue<'a>)],
) -> Event<'a>
    ensures { result ≡ event_of metadata values.entry parent }
{
    match parent {
        Parent::Contextual => Event::new(metadata, values),
        Parent::Root => Event::new_root(metadata, values),
        Parent::Explicit(id) => Event::new_child_of(id, metadata, values),
    }
}

/// Attributes of a span with this parent.
#[inline(always)]
pub fn span_in<'a>(
    parent: Parent,
    metadata: Metadata,
    values: &'a [(&'static str, FieldValue<'a>)],
) -> Attributes<'a>
    ensures { result ≡ attributes_of metadata values.entry parent }
{
    match parent {
        Parent::Contextual => Attributes::new(metadata, values),
        Parent::Root => Attributes::new_root(metadata, values),
        Parent::Explicit(id) => Attributes::child_of(id, metadata, values),
    }
}
