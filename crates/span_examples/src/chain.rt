//! Single calls in a row, and a stack that is put in another's place: a dispatcher that was ready
//! is ready again.
ghost use Rattle.std.specs.Prelude.{◌≡◌, ℕ, IfErr, IfOk, OnOk};
ghost use Rattle.span_dispatch.specs.Serve.{stack_of};
ghost use Rattle.span_examples.specs.Chain.{IsReadyStack, OpensAndDrops};
ghost use Rattle.span_examples.specs.Kinds.{IsReadyNow};

use span_core::{Attributes, Id, Lane, TraceError};
use span_dispatch::Dispatch;
use span_registry::Subscriber;

/// Opens a span, and drops its only handle.
pub fn open_and_drop<S: Subscriber>(
    dispatch: &mut Dispatch<S>,
    lane: Lane,
    attrs: &Attributes<'_>,
) -> Result<Option<Id>, TraceError>
    requires { S.usable (stack_of dispatch.old) }
    ensures usable { S.usable (stack_of dispatch.new) }
    ensures ready { IsReadyNow S.Subscriber dispatch.old → IsReadyNow S.Subscriber dispatch.new }
    ensures served { IfOk result
        (OpensAndDrops S.Subscriber lane attrs.now dispatch.old dispatch.new) }
{
    let Some(id) = dispatch.new_span(lane, attrs)? else {
        return Ok(None);
    };
    dispatch.drop_span(lane, id)?;
    Ok(Some(id))
}

/// Puts another stack in place of the dispatcher's. It is ready if the stack is: all that was kept
/// is forgotten.
pub fn restart<S: Subscriber + Drop>(dispatch: &mut Dispatch<S>, stack: S)
    ensures stack { stack_of dispatch.new ≡ stack }
    ensures ready { IsReadyStack S.Subscriber stack → IsReadyNow S.Subscriber dispatch.new }
{
    *dispatch.stack_mut() = stack;
}
