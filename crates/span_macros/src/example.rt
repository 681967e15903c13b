//! Each macro in a function that says what it comes to, for callers to copy.
ghost use Rattle.std.specs.Prelude.{◌≡◌, ◌+◌, ◌-◌, ◌<◌, ◌^◌, []};
ghost use Rattle.span_dispatch.specs.Contract.{StaysReady};
ghost use Rattle.span_dispatch.specs.Serve.{stack_of};
ghost use Rattle.span_macros.specs.Asked.{AsksThenOpens, AsksThenSends, Opens, RunsInSpan, Sends};
ghost use Rattle.span_macros.specs.Example.{AreOfFailed, AreOfJob, copied_site, copy_site, copy_values, done_site, done_values, ended_site, failed_site, idle_site, job_site, read_site};
ghost use Rattle.span_macros.specs.Made.{IsEventAt, IsSpanAt, ShowsCallsite};

use crate::{debug, event, in_span, info_span, metadata, new_span, warn};
use span_core::{Id, Lane, Metadata, TraceError};
use span_dispatch::Dispatch;
use span_registry::Subscriber;

/// The metadata of an event that tells of bytes.
pub fn read_metadata() -> Metadata
    ensures { ShowsCallsite read_site result }
{
    metadata!(EVENT, INFO, "read", bytes, ok)
}

/// Sends an event with numbers, a truth value and a text.
pub fn report<S: Subscriber>(
    dispatch: &mut Dispatch<S>,
    lane: Lane,
    count: u8,
    change: i32,
    by: &str,
) -> Result<bool, TraceError>
    requires { S.usable (stack_of dispatch.old) }
    ensures usable { S.usable (stack_of dispatch.new) }
    ensures ready { StaysReady S.Subscriber dispatch.old dispatch.new }
    ensures sent { Sends S.Subscriber (IsEventAt done_site (done_values count change by.entry))
        lane result dispatch.old dispatch.new }
{
    event!(dispatch, lane; WARN, "done"; count = count, change = change, ok = true, by = by)
}

/// Opens a span without fields.
pub fn rest<S: Subscriber>(dispatch: &mut Dispatch<S>, lane: Lane) -> Result<Option<Id>, TraceError>
    requires { S.usable (stack_of dispatch.old) }
    ensures usable { S.usable (stack_of dispatch.new) }
    ensures ready { StaysReady S.Subscriber dispatch.old dispatch.new }
    ensures opened { Opens S.Subscriber (IsSpanAt idle_site []) lane result dispatch.old
        dispatch.new }
{
    new_span!(dispatch, lane; DEBUG, "idle")
}

/// Opens a span with two fields.
pub fn open_copy<S: Subscriber>(
    dispatch: &mut Dispatch<S>,
    lane: Lane,
    from: u64,
    to: u64,
) -> Result<Option<Id>, TraceError>
    requires { S.usable (stack_of dispatch.old) }
    ensures usable { S.usable (stack_of dispatch.new) }
    ensures ready { StaysReady S.Subscriber dispatch.old dispatch.new }
    ensures opened { Opens S.Subscriber (IsSpanAt copy_site (copy_values from to)) lane result
        dispatch.old dispatch.new }
{
    new_span!(dispatch, lane; INFO, "copy"; from = from, to = to)
}

/// Sends an event in a span with two fields, and leaves it.
pub fn copy<S: Subscriber>(
    dispatch: &mut Dispatch<S>,
    lane: Lane,
    from: u64,
    to: u64,
) -> Result<bool, TraceError>
    requires { S.usable (stack_of dispatch.old) }
    ensures usable { S.usable (stack_of dispatch.new) }
    ensures ready { StaysReady S.Subscriber dispatch.old dispatch.new }
    ensures sent { RunsInSpan S.Subscriber (Sends S.Subscriber (IsEventAt copied_site []) lane)
        (IsSpanAt copy_site (copy_values from to)) lane result dispatch.old dispatch.new }
{
    in_span!(dispatch, lane; INFO, "copy"; from = from, to = to => {
        event!(dispatch, lane; TRACE, "copied")
    })
}

/// Sends an event with two fields, where its callsite is wanted.
pub fn fail<S: Subscriber>(
    dispatch: &mut Dispatch<S>,
    lane: Lane,
    code: u16,
    by: &str,
) -> Result<bool, TraceError>
    requires { S.usable (stack_of dispatch.old) }
    ensures usable { S.usable (stack_of dispatch.new) }
    ensures ready { StaysReady S.Subscriber dispatch.old dispatch.new }
    ensures sent { AsksThenSends S.Subscriber failed_site (AreOfFailed code by.now) lane result
        dispatch.old dispatch.new }
{
    warn!(dispatch, lane; code, by, "failed")
}

/// Opens a span with a float and a number that may be missing, where its callsite is wanted.
pub fn open_job<S: Subscriber>(
    dispatch: &mut Dispatch<S>,
    lane: Lane,
    share: f64,
    user: Option<u64>,
) -> Result<Option<Id>, TraceError>
    requires { S.usable (stack_of dispatch.old) }
    ensures usable { S.usable (stack_of dispatch.new) }
    ensures ready { StaysReady S.Subscriber dispatch.old dispatch.new }
    ensures opened { AsksThenOpens S.Subscriber job_site (AreOfJob share user) lane result
        dispatch.old dispatch.new }
{
    info_span!(dispatch, lane; "job", share, user)
}

/// Sends an event without fields.
pub fn end<S: Subscriber>(dispatch: &mut Dispatch<S>, lane: Lane) -> Result<bool, TraceError>
    requires { S.usable (stack_of dispatch.old) }
    ensures usable { S.usable (stack_of dispatch.new) }
    ensures ready { StaysReady S.Subscriber dispatch.old dispatch.new }
    ensures sent { Sends S.Subscriber (IsEventAt ended_site []) lane result dispatch.old
        dispatch.new }
{
    debug!(dispatch, lane; "ended")
}

/// The lane whose turn it is; then it is the next one's turn.
fn lane_in_turn(turn: &mut u32) -> Lane
    requires { turn.old < 2 ^ 32 - 1 }
    ensures { turn.new ≡ turn.old + 1 }
{
    let lane = Lane(*turn);
    *turn += 1;
    lane
}

/// Sends an event with a field on the lane whose turn it is: what says the lane runs once.
pub fn fail_in_turn<S: Subscriber>(
    dispatch: &mut Dispatch<S>,
    turn: &mut u32,
    code: u32,
) -> Result<bool, TraceError>
    requires turn { turn.old < 2 ^ 32 - 1 }
    requires usable { S.usable (stack_of dispatch.old) }
    ensures turn { turn.new ≡ turn.old + 1 }
    ensures usable { S.usable (stack_of dispatch.new) }
{
    warn!(dispatch, lane_in_turn(turn); code, "failed")
}
