//! What happens to spans and events, and when.
ghost use Rattle.std.specs.Option.{option_map};
ghost use Rattle.std.specs.Prelude.{◌≡◌};
ghost use Rattle.span_core.specs.Event.{event_parent};
ghost use Rattle.span_core.specs.Span.{number_of};
ghost use Rattle.span_registry.specs.Notice.{notice_of};
ghost use Rattle.span_registry.specs.Context.{view_lent};
ghost use Rattle.span_times.specs.Field.{within};
ghost use Rattle.span_times.specs.Finished.{own_span};
ghost use Rattle.span_times.specs.Timeline.{happening_of, metadata_in, parent_found, span_found, values_in};

use crate::field::{FieldRange, OwnedField};
use span_core::{Event, FieldValue, Id, Lane, Metadata};
use span_registry::{ContextMut, LookupSpan, Notice};

/// What happened, as a timeline was notified of it. Callsites are named by their numbers.
#[derive(Clone, Copy, Debug, PartialEq, Eq)]
pub enum Happening {
    /// A callsite opened a span, whose parent is the nearest span above it that isn't hidden from
    /// the timeline.
    Opened(Id, u64, Option<Id>),
    /// A span was given values.
    Recorded(Id),
    /// The first span follows from the second.
    Followed(Id, Id),
    /// A callsite sent an event, in this span, as the timeline sees it.
    Sent(u64, Option<Id>),
    /// A span was entered.
    Entered(Id),
    /// A span was left.
    Left(Id),
    /// The first span has a handle under the second id, too.
    Renamed(Id, Id),
    /// A span closed.
    Closed(Id),
}

impl Happening {
    /// The span that this happened to, or in which it was sent, if there is one.
    pub(crate) fn span(&self) -> Option<Id>
        ensures { option_map number_of result ≡ own_span self.now }
    {
        match self {
            Happening::Opened(id, _, _)
            | Happening::Recorded(id)
            | Happening::Followed(id, _)
            | Happening::Entered(id)
            | Happening::Left(id)
            | Happening::Renamed(id, _)
            | Happening::Closed(id) => Some(*id),
            Happening::Sent(_, span) => *span,
        }
    }
}

/// What happened, on which lane, and when.
#[derive(Clone, Copy, Debug, PartialEq, Eq)]
pub struct Point {
    /// When, in nanoseconds.
    pub time: u64,
    /// The lane that it happened on.
    pub lane: Lane,
    /// What.
    pub what: Happening,
    /// Where the fields are that it came with: those of a new span, of a record or of an event.
    pub fields: FieldRange,
}

impl Point {
    /// The fields that it came with, among those that were kept.
    pub fn fields_in<'a>(&self, kept: &'a [OwnedField]) -> &'a [OwnedField]
        ensures { result.now ≡ within self.now.fields kept.now }
    {
        self.fields.of(kept)
    }
}

/// The fields that a notice comes with.
pub(crate) fn values_in<'b>(notice: Notice<'_, 'b>) -> &'b [(&'static str, FieldValue<'b>)]
    ensures { result.now ≡ values_in (notice_of notice.entry) }
{
    match notice {
        Notice::NewSpan(attrs, _) => attrs.values(),
        Notice::Record(_, values) => values.values(),
        Notice::Event(event) => event.values(),
        _ => &[],
    }
}

/// The metadata of the callsite that a notice comes from, where it is a new span or an event.
pub(crate) fn metadata_in(notice: Notice<'_, '_>) -> Option<Metadata>
    ensures { result ≡ metadata_in (notice_of notice.entry) }
{
    match notice {
        Notice::NewSpan(attrs, _) => Some(attrs.metadata()),
        Notice::Event(event) => Some(event.metadata()),
        _ => None,
    }
}

/// What happens by a notice, in what a hook sees.
pub(crate) fn happening_in<S: LookupSpan>(
    notice: Notice<'_, '_>,
    ctx: &ContextMut<'_, S>,
) -> Happening
    ensures { result ≡ happening_of (notice_of notice.entry) (view_lent S.registry ctx.now) }
{
    match notice {
        Notice::NewSpan(attrs, id) => {
            Happening::Opened(id, attrs.metadata().callsite(), parent_found(id, ctx))
        }
        Notice::Record(id, _) => Happening::Recorded(id),
        Notice::FollowsFrom(id, other) => Happening::Followed(id, other),
        Notice::Event(event) => {
            Happening::Sent(event.metadata().callsite(), span_found(event, ctx))
        }
        Notice::Enter(id) => Happening::Entered(id),
        Notice::Exit(id) => Happening::Left(id),
        Notice::IdChange(id, other) => Happening::Renamed(id, other),
        Notice::Close(id) => Happening::Closed(id),
    }
}

/// The parent of a span that a hook sees: the nearest span above it that isn't hidden.
fn parent_found<S: LookupSpan>(id: Id, ctx: &ContextMut<'_, S>) -> Option<Id>
    ensures { result ≡ parent_found (number_of id) (view_lent S.registry ctx.now) }
{
    let span = ctx.ctx().span(id)?;
    let parent = span.parent()?;
    Some(parent.id())
}

/// The span of an event, in what a hook sees.
fn span_found<S: LookupSpan>(event: &Event<'_>, ctx: &ContextMut<'_, S>) -> Option<Id>
    ensures { result ≡ span_found (event_parent event.now) (view_lent S.registry ctx.now) }
{
    let span = ctx.ctx().event_span(event)?;
    Some(span.id())
}
