//! What a recorder keeps of what it is notified of.
ghost use Rattle.std.specs.Prelude.{◌≡◌};
ghost use Rattle.span_dispatch.specs.Recorder.{kept_on};
ghost use Rattle.span_registry.specs.Notice.{notice_of};

use span_core::{Id, Lane};
use span_registry::Notice;

/// What a recorder keeps of a notice: on which lane it came, and of which spans it is, or of an
/// event from which callsite.
///
/// Own to this port.
#[derive(Clone, Copy, Debug, PartialEq, Eq)]
pub enum Recorded {
    /// A span was made.
    New(Lane, Id),
    /// Values of a span were recorded.
    Record(Lane, Id),
    /// The first span follows from the second.
    Follows(Lane, Id, Id),
    /// There was an event, from the callsite with this number.
    Event(Lane, u64),
    /// A span was entered.
    Enter(Lane, Id),
    /// A span was left.
    Exit(Lane, Id),
    /// The first span's handle was cloned under the second id.
    IdChange(Lane, Id, Id),
    /// A span closes.
    Close(Lane, Id),
}

impl Recorded {
    /// What is kept of this notice on this lane.
    pub fn of(lane: Lane, notice: Notice<'_, '_>) -> Recorded
        ensures { result ≡ kept_on lane.0 (notice_of notice.entry) }
    {
        match notice {
            Notice::NewSpan(_, id) => Recorded::New(lane, id),
            Notice::Record(id, _) => Recorded::Record(lane, id),
            Notice::FollowsFrom(id, other) => Recorded::Follows(lane, id, other),
            Notice::Event(event) => Recorded::Event(lane, event.metadata().callsite()),
            Notice::Enter(id) => Recorded::Enter(lane, id),
            Notice::Exit(id) => Recorded::Exit(lane, id),
            Notice::IdChange(id, new) => Recorded::IdChange(lane, id, new),
            Notice::Close(id) => Recorded::Close(lane, id),
        }
    }
}
