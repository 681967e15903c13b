//! Jobs that fail, return early or break within a span: a guard leaves it on each way out.
ghost use Rattle.span_store.specs.Store.{IsFresh};

use crate::receiver::traced;
use span_core::{Level, TraceError};
use span_fmt::Tree;
use span_layers::Observer;
use span_registry::{Registry, Subscriber};
use span_stacks::SubscriberExt;
use span_times::{Counted, Happening, OwnedValue, Timeline};
use span_tracer::{Tracer, info, info_span};
use std::alloc::Global;
use std::process::Abort;
use std::sync::Wait;
use std::test::Fail;
use thiserror::Error;

/// Why a job failed.
#[derive(Debug, Drop, Error)]
enum JobError {
    #[error("not a number: {0}")]
    NotANumber(u64),
    #[error("not traced")]
    Trace(#[from] TraceError),
}

/// Four jobs. The second fails, and is left by `?`.
const OF_JOBS: &str = "0 > INFO span_tracer_tests::job: job id=1
0   - INFO span_tracer_tests::job: parsed number=1
0 < INFO span_tracer_tests::job: job
0 > INFO span_tracer_tests::job: job id=2
0 < INFO span_tracer_tests::job: job
0 > INFO span_tracer_tests::job: job id=3
0   - INFO span_tracer_tests::job: parsed number=3
0 < INFO span_tracer_tests::job: job
0 > INFO span_tracer_tests::job: job id=4
0   - INFO span_tracer_tests::job: parsed number=4
0 < INFO span_tracer_tests::job: job
";

fn parse(job: u64) -> Result<u64, JobError> {
    if job == 2 {
        Err(JobError::NotANumber(job))
    } else {
        Ok(job)
    }
}

fn run<R: Wait, S: Subscriber>(tracer: Tracer<'_, R, S>, job: u64) -> Result<u64, JobError> {
    let _span = info_span!(tracer; "job", id = job)?.entered()?;
    let number = parse(job)?;
    info!(tracer; number, "parsed")?;
    Ok(number)
}

/// Runs four jobs on a receiver over this stack. Answers the stack, how many jobs failed, and how
/// many calls were accepted.
fn run_all<R: Wait, S: Subscriber + Drop>(
    rt: &R,
    alloc: Global,
    stack: S,
) -> Result<(S, u8, u64), Fail>
    requires usable { S.usable stack }
    requires fresh { IsFresh (S.registry stack) }
{
    let receiver = traced(alloc, stack);
    let tracer = receiver.tracer(rt)?;
    let mut failed = 0u8;
    for job in 1..5u64 {
        if run(tracer, job).is_err() {
            failed = failed.saturating_add(1);
        }
    }
    let (dispatch, calls) = receiver.into_parts();
    Ok((dispatch.into_stack(), failed, calls))
}

/// Each of four jobs is within a span of its own that closes, also the one that fails.
#[test]
fn each_job_leaves_its_span(rt: HostRuntime) -> Result<(), Fail> {
    let alloc = rt.alloc();
    let stack = Registry::new(alloc).with(Observer::new(Tree::new(alloc)))?;
    let (stack, failed, calls) = run_all(&rt, alloc, stack)?;
    assert!(&rt; failed == 1);
    assert!(&rt; calls == 21);
    assert!(&rt; stack.outer().observer().text() == OF_JOBS);
    assert!(&rt; stack.outer().observer().text().contains("parsed number=3"));
    Ok(())
}

/// Of the first job: its span is opened and entered, and then an event is sent in it.
#[test]
fn names_and_fields_are_recorded(rt: HostRuntime) -> Result<(), Fail> {
    let alloc = rt.alloc();
    let timeline = Timeline::new(alloc, Counted::new()).with_values(true);
    let stack = Registry::new(alloc).with(Observer::new(timeline))?;
    let (stack, _, _) = run_all(&rt, alloc, stack)?;
    let timeline = stack.outer().observer();
    let (points, table) = (timeline.points(), timeline.table());
    assert!(&rt; points.len() > 2);
    assert!(&rt; table.sites.len() > 1);
    let parsed = &table.sites[1];
    assert!(&rt; parsed.name.as_str() == "parsed" && parsed.level == Level::INFO);
    assert!(&rt;
        matches!(points[2].what, Happening::Sent(site, Some(_)) if site == parsed.callsite)
    );
    let fields = points[2].fields_in(table.fields);
    assert!(&rt; fields.len() == 1);
    assert!(&rt; fields[0].name.as_str() == "number");
    assert!(&rt; fields[0].value == OwnedValue::U64(1));
    Ok(())
}

/// Two searches: one returns from within a span, the other breaks out of one.
const OF_SEARCHES: &str = "0 > INFO app: try number=1
0 < INFO app: try
0 > INFO app: try number=4
0 < INFO app: try
0 > INFO app: try number=1
0 < INFO app: try
0 > INFO app: try number=101
0 < INFO app: try
0 - INFO app: none
";

/// The first even number, each tried within a span. A number above 100 ends the search.
fn first_even<R: Wait, S: Subscriber>(
    tracer: Tracer<'_, R, S>,
    numbers: &[u64],
) -> Result<Option<u64>, TraceError> {
    for number in numbers {
        let _span = info_span!(tracer; target: "app", "try", number = *number)?.entered()?;
        if *number % 2 == 0 {
            return Ok(Some(*number));
        }
        if *number > 100 {
            break;
        }
    }
    info!(tracer; target: "app", "none")?;
    Ok(None)
}

/// Searches twice on a receiver over this stack. Answers the stack, and what was found.
fn search_twice<R: Wait, S: Subscriber + Drop>(
    rt: &R,
    alloc: Global,
    stack: S,
) -> Result<(S, Option<u64>, Option<u64>), Fail>
    requires usable { S.usable stack }
    requires fresh { IsFresh (S.registry stack) }
{
    let receiver = traced(alloc, stack);
    let tracer = receiver.tracer(rt)?;
    let first = first_even(tracer, &[1, 4, 6])?;
    let second = first_even(tracer, &[1, 101, 6])?;
    let (dispatch, _) = receiver.into_parts();
    Ok((dispatch.into_stack(), first, second))
}

/// A span is left also where its block ends by `return` or `break`.
#[test]
fn return_and_break_leave_their_span(rt: HostRuntime) -> Result<(), Fail> {
    let alloc = rt.alloc();
    let stack = Registry::new(alloc).with(Observer::new(Tree::new(alloc)))?;
    let (stack, first, second) = search_twice(&rt, alloc, stack)?;
    assert!(&rt; first == Some(4));
    assert!(&rt; second.is_none());
    assert!(&rt; stack.outer().observer().text() == OF_SEARCHES);
    Ok(())
}
