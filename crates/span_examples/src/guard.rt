//! A guard: a lane is in a span until it is let go.
ghost use Rattle.std.specs.Prelude.{◌≡◌, IfErr, IfOk};
ghost use Rattle.span_examples.specs.Guard.{IsLeft, IsOver, KeepsSpan, KeepsStacks, RefusesWithin, SendsBy, SendsWithin, dispatch_of, loan_of};

use span_core::{Event, Id, Lane, TraceError};
use span_dispatch::Dispatch;
use span_registry::AlwaysUsable;

/// A span that a lane is in. When it is let go, the lane leaves the span.
///
/// No premise can be shown there, so no closure may be in the dispatcher's stack.
pub struct Entered<'a, S: AlwaysUsable> {
    dispatch: &'a mut Dispatch<S>,
    lane: Lane,
    id: Id,
}

impl<'a, S: AlwaysUsable> Entered<'a, S> {
    /// Takes over a span that the lane has just entered, to leave it later.
    pub fn new(dispatch: &'a mut Dispatch<S>, lane: Lane, id: Id) -> Entered<'a, S>
        ensures loan { loan_of result ≡ dispatch.entry.ghost_name }
        ensures over { IsOver lane id dispatch.old result }
    {
        Entered { dispatch, lane, id }
    }

    /// Sends an event, from the lane that is in the span. Refused as `Dispatch::event` is.
    pub fn event(&mut self, event: &Event<'_>) -> Result<bool, TraceError>
        ensures span { KeepsSpan S.Subscriber self.old self.new }
        ensures sent { SendsBy S.Subscriber event.now result self.old self.new }
    {
        self.dispatch.event(self.lane, event)
    }
}

impl<S: AlwaysUsable> Drop for Entered<'_, S> {
    fn drop(self)
        ensures { IsLeft S.Subscriber self.entry self.exit.0.now }
    {
        let Entered { dispatch, lane, id } = self;
        dispatch.exit(lane, id);
    }
}

/// Sends an event from within a span. However that ends, each lane then has the stack that it had.
pub fn send_within<S: AlwaysUsable>(
    dispatch: &mut Dispatch<S>,
    lane: Lane,
    id: Id,
    event: &Event<'_>,
) -> Result<bool, TraceError>
    ensures stacks { KeepsStacks S.Subscriber dispatch.old dispatch.new }
    ensures sent { IfOk result
        (SendsWithin S.Subscriber lane id event.now dispatch.old dispatch.new) }
    ensures refused { IfErr result (RefusesWithin S.Subscriber lane id event.now dispatch.old) }
{
    dispatch.enter(lane, id)?;
    let mut span = Entered::new(dispatch, lane, id);
    span.event(event)
}
