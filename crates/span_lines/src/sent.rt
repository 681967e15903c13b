//! Spans through a receiver and a timeline to a sender.
ghost use Rattle.std.specs.Prelude.{None};
ghost use Rattle.span_store.specs.Store.{IsFresh};

use crate::order::{Order, Work};
use crate::rounds;
use anyhow::ensure;
use span_dispatch::Dispatch;
use span_layers::Observer;
use span_otlp::{Scope, Trace, otlp_lines};
use span_registry::Registry;
use span_sender::{Answer, BatchConfig, Poster, RetryPolicy, Sender, SenderGuard};
use span_stacks::SubscriberExt;
use span_times::{Counted, Timeline};
use span_tracer::{HasObserver, Receiver, Tracer};
use std::alloc::Global;
use std::io::{self, Write};
use std::sync::atomic::{AtomicU64, Ordering};
use std::sync::{Arc, Wait};
use std::thread::Threads;
use std::time::{Clock, Duration};

/// After so many rounds the sender is handed what has closed.
const AT_ONCE: u64 = 100;

/// A second for what is left at the end, in nanoseconds.
const TIMEOUT: u64 = 1_000_000_000;

/// As OpenTelemetry's SDKs begin, but that the waits are a thousandth as long.
const CONFIG: BatchConfig = BatchConfig {
    max_queue_size: 2048,
    max_export_batch_size: 512,
    scheduled_delay: 5_000_000,
    retry: RetryPolicy {
        max_attempts: 5,
        initial_backoff: 1_000_000,
        max_backoff: 5_000_000,
    },
};

/// A collector that writes each request that it accepts as a line, and counts the spans in it. It
/// refuses some requests, is busy at others, and now and then it asks for a second, or doesn't
/// answer.
#[derive(Drop)]
struct Collector<W> {
    posts: u64,
    spans: Arc<AtomicU64, Global>,
    writer: W,
}

impl<W: Write> Collector<W> {
    /// What comes of the next request.
    fn next(&mut self) -> Answer {
        self.posts = self.posts.saturating_add(1);
        let retry_after = if self.posts % 1024 == 0 {
            Some(1)
        } else {
            None
        };
        let code = match self.posts % 64 {
            3 => 429,
            7 => 400,
            9 => return Answer::Failed,
            0 | 5 | 6 => 503,
            _ => 200,
        };
        Answer::Status {
            code,
            retry_after,
            rejected: 0,
        }
    }
}

impl<W: Write> Poster for Collector<W> {
    ghost posted = { λ _. None };

    fn post(&mut self, body: &[u8]) -> Answer {
        let answer = self.next();
        if answer.is_accepted() {
            if write_line(&mut self.writer, body).is_err() {
                return Answer::Failed;
            }
            self.spans.fetch_add(spans_in(body), Ordering::SeqCst);
        }
        answer
    }
}

/// Writes a request as a line.
fn write_line<W: Write>(writer: &mut W, body: &[u8]) -> io::Result<()> {
    writer.write_all(body)?;
    writer.write_all(b"\n")
}

/// How many spans a request has: each has one of these keys.
fn spans_in(body: &[u8]) -> u64 {
    let keys = body.split(|byte| *byte == b'"');
    let spans = keys.filter(|key| *key == b"endTimeUnixNano".as_slice());
    u64::try_from(spans.count()).unwrap_or(u64::MAX)
}

/// Does what is asked for, and hands the spans to a sender, whose collector writes them. Says how
/// many were accepted, refused and dropped.
pub fn sent<R, W>(rt: R, alloc: Global, writer: W, order: Order) -> anyhow::Result<()>
where
    R: Threads + Wait + Clock + Eprint + Copy + Send + Drop + 'static,
    W: Write + Send + Drop + 'static,
{
    let spans = Arc::new(alloc, AtomicU64::new(0))?;
    let collector = Collector {
        posts: 0,
        spans: Arc::try_clone(&spans)?,
        writer,
    };
    let (mut sender, guard) = Sender::new(rt, alloc, collector, rt, CONFIG, TIMEOUT)?;
    let layer = Observer::new(Timeline::new(alloc, Counted::new()).with_values(true));
    let stack = Registry::new(alloc).with(layer)?;
    let handed = made(&rt, alloc, stack, order, &mut sender)?;
    wait_for(&rt, &guard, handed);
    let (accepted, refused, dropped) = (guard.accepted(), guard.refused(), guard.dropped());
    ensure!(
        spans.load(Ordering::SeqCst) == accepted,
        "the collector counts otherwise"
    );
    eprintln!(rt; "{accepted} {refused} {dropped}")?;
    Ok(())
}

/// Waits until it is counted what became of so many spans, a minute at most.
fn wait_for<P: Poster, C: Clock, R: Threads + Wait + Clock>(
    rt: &R,
    guard: &SenderGuard<P, C, R>,
    spans: u64,
) {
    for _ in 0..60_000 {
        let sent = guard.accepted().saturating_add(guard.refused());
        if sent.saturating_add(guard.dropped()) >= spans {
            break;
        }
        rt.sleep(Duration::from_millis(1));
    }
}

/// Does what is asked for through a receiver over this stack, and hands over the spans. Says how
/// many there were.
fn made<R: Wait, S: HasObserver<Observer = Timeline<Counted>> + Drop>(
    rt: &R,
    alloc: Global,
    stack: S,
    order: Order,
    sender: &mut Sender,
) -> anyhow::Result<u64>
    requires usable { S.usable stack }
    requires fresh { IsFresh (S.registry stack) }
{
    let receiver = Receiver::new(alloc, Dispatch::new(alloc, stack));
    let tracer = receiver.tracer(rt)?;
    let trace = Trace {
        id: 1,
        service: String::from_str(alloc, "lines")?,
        began: 0,
        parent: None,
        attributes: Vec::new(alloc),
        scope: Scope::unknown(alloc),
    };
    let mut handed = 0u64;
    for _ in 0..order.rounds / AT_ONCE {
        let more = hand_over(tracer, alloc, &trace, order.work, AT_ONCE, sender)?;
        handed = handed.saturating_add(more);
    }
    let rest = order.rounds % AT_ONCE;
    let more = hand_over(tracer, alloc, &trace, order.work, rest, sender)?;
    ensure!(
        !tracer.with_observer(|timeline| timeline.failed()),
        "out of memory"
    );
    Ok(handed.saturating_add(more))
}

/// Does so many rounds of a work, and hands over the spans that have closed. Says how many.
fn hand_over<R: Wait, S: HasObserver<Observer = Timeline<Counted>>>(
    tracer: Tracer<'_, R, S>,
    alloc: Global,
    trace: &Trace,
    work: Work,
    rounds: u64,
    sender: &mut Sender,
) -> anyhow::Result<u64> {
    rounds::done(tracer, work, rounds)?;
    let taken = tracer.with_observer(|timeline| timeline.take_finished())?;
    let mut handed = 0u64;
    for line in otlp_lines(alloc, trace, &taken.points, taken.table())? {
        sender.push(line);
        handed = handed.saturating_add(1);
    }
    Ok(handed)
}
