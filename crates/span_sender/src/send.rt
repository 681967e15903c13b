//! Posts what a queue holds.
ghost use Rattle.std.specs.Prelude.{◌≡◌, [], IsFalse, IsTrue};
ghost use Rattle.span_sender.specs.Run.{PostsNext, SameSpans, Sends, TriesOnce};
ghost use Rattle.span_sender.specs.Answer.{is_post};
ghost use Rattle.span_sender.specs.Batches.{held_by};

use crate::batches::{Action, Batches};
use crate::body::export_body;
use crate::poster::Poster;
use std::alloc::Global;
use std::sync::Wait;
use std::time::{Clock, Duration};

/// The time by a clock, in nanoseconds; where that can't be read or goes back, the latest time.
pub(crate) fn time_of<C: Clock>(clock: &C, latest: u64) -> u64 {
    match clock.monotonic() {
        Ok(time) => u64::try_from(time.as_nanos())
            .unwrap_or(u64::MAX)
            .max(latest),
        Err(_) => latest,
    }
}

/// Posts the batch under way, and tells the queue what came. Says whether it could be posted:
/// without memory for the request nothing happens.
pub(crate) fn try_batch<P: Poster, C: Clock>(
    alloc: Global,
    batches: &mut Batches,
    poster: &mut P,
    clock: &C,
    now: u64,
) -> bool
    ensures posted { IsTrue result
        → TriesOnce batches.old batches.new (P.posted poster.old) (P.posted poster.new) }
    ensures none { IsFalse result
        → (batches.new ≡ batches.old) × (poster.new ≡ poster.old) }
{
    let Ok(body) = export_body(alloc, batches.batch()) else {
        return false;
    };
    let answer = poster.post(&body);
    let then = time_of(clock, now);
    batches.answered(answer, then);
    true
}

/// Does what is to be done at a time: where a batch is to go, posts it and tells the queue what
/// came. Says what it did, or until when there is nothing to be done; for want of memory, that is
/// as long as after a failed try.
pub fn serve<P: Poster, C: Clock>(
    alloc: Global,
    batches: &mut Batches,
    poster: &mut P,
    clock: &C,
    now: u64,
) -> Action
    ensures sends { Sends batches.old batches.new (P.posted poster.old) (P.posted poster.new) [] }
    ensures posts { IsTrue (is_post result) → PostsNext batches.old batches.new now
        (P.posted poster.old) (P.posted poster.new) }
    ensures none { IsFalse (is_post result)
        → SameSpans batches.old batches.new × (poster.new ≡ poster.old) }
    ensures idle { result ≡ Action.Idle → held_by batches.new ≡ [] }
{
    match batches.next(now) {
        Action::Post => {
            if try_batch(alloc, batches, poster, clock, now) {
                Action::Post
            } else {
                Action::Until(now.saturating_add(batches.pause()))
            }
        }
        Action::Until(time) => Action::Until(time),
        Action::Idle => Action::Idle,
    }
}

/// Posts all that is held, waiting between tries by the clock's `sleep`, until nothing is left; at
/// the deadline it gives up what is left, and counts that as dropped.
pub fn send_all<R: Wait, P: Poster, C: Clock>(
    rt: &R,
    alloc: Global,
    batches: &mut Batches,
    poster: &mut P,
    clock: &C,
    deadline: u64,
)
    ensures sends { Sends batches.old batches.new (P.posted poster.old) (P.posted poster.new) [] }
    ensures empty { held_by batches.new ≡ [] }
{
    let mut now = 0;
    for _ in rt.forever() {
        now = time_of(clock, now);
        if now >= deadline {
            batches.give_up();
            break;
        }
        batches.flush();
        match serve(alloc, batches, poster, clock, now) {
            Action::Idle => break,
            Action::Until(time) => {
                clock.sleep(Duration::from_nanos(time.min(deadline).saturating_sub(now)));
            }
            Action::Post => {}
        }
    }
}
