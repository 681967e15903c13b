//! Tasks that trace, each on a lane of its own: a task is in its span while it is polled.
ghost use Rattle.span_store.specs.Store.{IsFresh};

use crate::receiver::traced;
use futures::Future;
use futures::executor::block_on;
use futures::future::join;
use futures::task::{Context, Poll};
use span_core::TraceError;
use span_fmt::Tree;
use span_futures::{Instrument, Instrumented};
use span_layers::Observer;
use span_registry::{Registry, Subscriber};
use span_stacks::SubscriberExt;
use span_tracer::{Tracer, info, info_span};
use std::alloc::{AllocGlobal, Global};
use std::process::Abort;
use std::random::RandomSource;
use std::sync::Wait;
use std::test::Fail;
use std::thread;
use std::thread::Threads;

/// A task of three polls, which sends an event at each.
#[derive(Drop)]
struct Task<'a, R: Wait, S: Subscriber> {
    tracer: Tracer<'a, R, S>,
    polls: u8,
}

impl<R: Wait, S: Subscriber> Future for Task<'_, R, S> {
    type Output = Result<(), TraceError>;

    fn poll(&mut self, cx: &mut Context<'_>) -> Poll<Result<(), TraceError>> {
        if let Err(error) = info!(self.tracer; target: "app", poll = self.polls, "polled") {
            return Poll::Ready(Err(error));
        }
        self.polls = self.polls.saturating_add(1);
        if self.polls < 3 {
            return cx.yield_now();
        }
        Poll::Ready(Ok(()))
    }
}

/// A task within a span of its own, on the tracer's lane.
fn task_in_span<'a, R: Wait, S: Subscriber>(
    tracer: Tracer<'a, R, S>,
    number: u8,
) -> Result<Instrumented<'a, R, S, Task<'a, R, S>>, TraceError> {
    let span = info_span!(tracer; target: "app", "task", number)?;
    Ok(Task { tracer, polls: 0 }.instrument(span))
}

/// Two tasks that one thread polls in turn. A task that is done is let go, and its span closes.
const IN_TURN: &str = "0 > INFO app: task number=1
1 > INFO app: task number=2
0   - INFO app: polled poll=0
1   - INFO app: polled poll=0
0   - INFO app: polled poll=1
1   - INFO app: polled poll=1
0   - INFO app: polled poll=2
0 < INFO app: task
1   - INFO app: polled poll=2
1 < INFO app: task
";

#[test]
fn two_tasks_of_one_thread(rt: HostRuntime) -> Result<(), Fail> {
    let alloc = rt.alloc();
    let stack = Registry::new(alloc).with(Observer::new(Tree::new(alloc)))?;
    let stack = poll_in_turn(&rt, alloc, stack)?;
    assert!(&rt; stack.outer().observer().text() == IN_TURN);
    Ok(())
}

/// Polls two tasks in turn, on a receiver over this stack.
fn poll_in_turn<R, S>(rt: &R, alloc: Global, stack: S) -> Result<S, Fail>
where
    R: Wait + RandomSource + AllocGlobal,
    S: Subscriber + Drop,
    requires usable { S.usable stack }
    requires fresh { IsFresh (S.registry stack) }
{
    let receiver = traced(alloc, stack);
    let (first, second) = (receiver.tracer(rt)?, receiver.tracer(rt)?);
    let (first, second) = (task_in_span(first, 1)?, task_in_span(second, 2)?);
    let (first, second) = block_on(rt, join(first, second))?;
    first?;
    second?;
    Ok(receiver.into_parts().0.into_stack())
}

/// What is written of a task of the first lane, and of one of the second.
const OF_THE_FIRST: &str = "0 > INFO app: task number=1
0   - INFO app: polled poll=0
0   - INFO app: polled poll=1
0   - INFO app: polled poll=2
0 < INFO app: task
";

const OF_THE_SECOND: &str = "1 > INFO app: task number=2
1   - INFO app: polled poll=0
1   - INFO app: polled poll=1
1   - INFO app: polled poll=2
1 < INFO app: task
";

/// Whether the lines of a text that begin so are these.
fn has_lines(text: &str, start: &str, lines: &str) -> bool {
    text.lines()
        .filter(|line| line.starts_with(start))
        .eq(lines.lines())
}

#[test]
fn two_tasks_of_two_threads(rt: HostRuntime) -> Result<(), Fail> {
    let alloc = rt.alloc();
    let stack = Registry::new(alloc).with(Observer::new(Tree::new(alloc)))?;
    let (stack, served) = poll_side_by_side(&rt, alloc, stack)?;
    assert!(&rt; served);
    let text = stack.outer().observer().text();
    assert!(&rt; has_lines(text, "0", OF_THE_FIRST));
    assert!(&rt; has_lines(text, "1", OF_THE_SECOND));
    Ok(())
}

/// Polls two tasks in a thread each, on a receiver over this stack. Answers the stack, and whether
/// nothing was refused.
fn poll_side_by_side<R, S>(rt: &R, alloc: Global, stack: S) -> Result<(S, bool), Fail>
where
    R: Threads + Wait + RandomSource + AllocGlobal + Sync,
    S: Subscriber + Send + Drop,
    requires usable { S.usable stack }
    requires fresh { IsFresh (S.registry stack) }
{
    let receiver = traced(alloc, stack);
    let (here, there) = (receiver.tracer(rt)?, receiver.tracer(rt)?);
    let (there, here) = thread::join(
        rt,
        move || runs_alone(rt, there, 2),
        move || runs_alone(rt, here, 1),
    );
    Ok((receiver.into_parts().0.into_stack(), here && there))
}

/// Runs a task to its end on this thread. Answers whether nothing was refused.
fn runs_alone<R, S>(rt: &R, tracer: Tracer<'_, R, S>, number: u8) -> bool
where
    R: Wait + RandomSource + AllocGlobal,
    S: Subscriber,
{
    match task_in_span(tracer, number) {
        Ok(task) => matches!(block_on(rt, task), Ok(Ok(()))),
        Err(_) => false,
    }
}
