//! What `in_span!` does before its block and after it.
ghost use Rattle.span_dispatch.specs.Contract.{ChangesStack, IsSettled, StaysReady};
ghost use Rattle.span_dispatch.specs.Registration.{KeepsRegistered};
ghost use Rattle.span_dispatch.specs.Serve.{stack_of};
ghost use Rattle.span_macros.specs.Span.{LeavesIfMade, OpensToEnter};

use span_core::{Attributes, Id, Lane, TraceError};
use span_dispatch::Dispatch;
use span_registry::{LookupSpan, Subscriber, laws};

/// Opens a span and enters it; none where hint or interest rule it out or a layer vetoes it.
///
/// Refused as `Dispatch::new_span` is, and where memory to enter the span is refused: then it is
/// dropped again, and closes.
pub fn open_and_enter<S: Subscriber>(
    dispatch: &mut Dispatch<S>,
    lane: Lane,
    attrs: &Attributes<'_>,
) -> Result<Option<Id>, TraceError>
    requires { S.usable (stack_of dispatch.old) }
    ensures usable { S.usable (stack_of dispatch.new) }
    ensures registered { KeepsRegistered dispatch.old dispatch.new }
    ensures ready { StaysReady S.Subscriber dispatch.old dispatch.new }
    ensures settled { IsSettled S.Subscriber dispatch.old → IsSettled S.Subscriber dispatch.new }
    ensures opens { OpensToEnter S.Subscriber lane attrs.now result dispatch.old dispatch.new }
{
    laws::parents_are_open();
    laws::a_registry_is_sound(dispatch.stack().root());
    let Some(id) = dispatch.new_span(lane, attrs)? else {
        return Ok(None);
    };
    if let Err(error) = dispatch.enter(lane, id) {
        // Its one handle is there, and goes.
        let _ = dispatch.drop_span(lane, id);
        return Err(error);
    }
    Ok(Some(id))
}

/// Leaves a span and takes a handle of it away. Answers whether the span closed; where there is
/// none, nothing is done.
///
/// Refused as `Dispatch::drop_span` is, once the lane has left the span.
pub fn exit_and_drop<S: Subscriber>(
    dispatch: &mut Dispatch<S>,
    lane: Lane,
    made: Option<Id>,
) -> Result<bool, TraceError>
    requires { S.usable (stack_of dispatch.old) }
    ensures usable { S.usable (stack_of dispatch.new) }
    ensures rest { ChangesStack dispatch.old dispatch.new }
    ensures ready { StaysReady S.Subscriber dispatch.old dispatch.new }
    ensures settled { IsSettled S.Subscriber dispatch.old → IsSettled S.Subscriber dispatch.new }
    ensures left { LeavesIfMade S.Subscriber lane made result dispatch.old dispatch.new }
{
    let Some(id) = made else {
        return Ok(false);
    };
    dispatch.exit(lane, id);
    dispatch.drop_span(lane, id)
}
