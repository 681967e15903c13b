//! Tests of the sender of closed spans, which were worked out by hand.
ghost use Rattle.std.specs.Prelude.{None};

use span_sender::{
    Action, Answer, BatchConfig, Batches, Connect, Fate, HttpPoster, Poster, RetryPolicy, Sender,
    export_body, send_all,
};
use std::alloc::{AllocError, Global};
use std::io::{self, Error, ErrorKind, Read, Write};
use std::sync::Arc;
use std::sync::atomic::{AtomicU64, Ordering};
use std::test::Fail;
use std::time::{Clock, Duration};

/// Batches of two, of four spans at most; two tries more, after 10 and then 20 nanoseconds.
const SMALL: BatchConfig = BatchConfig {
    max_queue_size: 4,
    max_export_batch_size: 2,
    scheduled_delay: 100,
    retry: RetryPolicy {
        max_attempts: 3,
        initial_backoff: 10,
        max_backoff: 15,
    },
};

/// An answer of this status.
fn status(code: u16) -> Answer {
    Answer::Status {
        code,
        retry_after: None,
        rejected: 0,
    }
}

/// Pushes a span.
fn push(alloc: Global, batches: &mut Batches, span: &str) -> Result<bool, AllocError> {
    Ok(batches.push(String::from_str(alloc, span)?))
}

#[test]
fn a_batch_is_accepted_at_once(rt: HostRuntime) -> Result<(), Fail> {
    let alloc = rt.alloc();
    let mut batches = Batches::new(alloc, SMALL)?;
    assert!(rt; matches!(batches.next(0), Action::Idle));
    assert!(rt; push(alloc, &mut batches, "a")?);
    assert!(rt; push(alloc, &mut batches, "b")?);
    assert!(rt; push(alloc, &mut batches, "c")?);
    assert!(rt; matches!(batches.next(7), Action::Post));
    assert!(rt; batches.batch().len() == 2);
    assert!(rt; batches.batch()[0].as_str() == "a");
    assert!(rt; matches!(batches.answered(status(200), 50), Fate::Accepted));
    // The next batch isn't full, so it waits for its time.
    assert!(rt; matches!(batches.next(60), Action::Until(150)));
    assert!(rt; matches!(batches.next(150), Action::Post));
    assert!(rt; batches.batch()[0].as_str() == "c");
    assert!(rt; matches!(batches.answered(status(202), 160), Fate::Accepted));
    let counts = batches.counts();
    assert!(rt; counts.pushed == 3);
    assert!(rt; counts.accepted == 3);
    assert!(rt; batches.is_empty());
    Ok(())
}

#[test]
fn a_batch_waits_longer_after_each_try(rt: HostRuntime) -> Result<(), Fail> {
    let alloc = rt.alloc();
    let mut batches = Batches::new(alloc, SMALL)?;
    assert!(rt; push(alloc, &mut batches, "a")?);
    assert!(rt; matches!(batches.next(0), Action::Post));
    assert!(rt; matches!(batches.answered(status(503), 1), Fate::Kept));
    // A span that comes meanwhile isn't of this batch.
    assert!(rt; push(alloc, &mut batches, "b")?);
    assert!(rt; matches!(batches.next(5), Action::Until(11)));
    assert!(rt; matches!(batches.next(11), Action::Post));
    assert!(rt; batches.batch().len() == 1);
    assert!(rt; matches!(batches.answered(Answer::Failed, 12), Fate::Kept));
    // Twice as long, but no longer than 15.
    assert!(rt; matches!(batches.next(12), Action::Until(27)));
    assert!(rt; matches!(batches.next(27), Action::Post));
    assert!(rt; matches!(batches.answered(status(429), 28), Fate::Refused));
    assert!(rt; batches.counts().refused == 1);
    assert!(rt; batches.len() == 1);
    Ok(())
}

#[test]
fn seconds_that_are_asked_for_win(rt: HostRuntime) -> Result<(), Fail> {
    let alloc = rt.alloc();
    let mut batches = Batches::new(alloc, SMALL)?;
    assert!(rt; push(alloc, &mut batches, "a")?);
    assert!(rt; matches!(batches.next(0), Action::Post));
    let answer = Answer::Status {
        code: 503,
        retry_after: Some(2),
        rejected: 0,
    };
    assert!(rt; matches!(batches.answered(answer, 1), Fate::Kept));
    assert!(rt; matches!(batches.next(2), Action::Until(2_000_000_001)));
    // No flush goes before that.
    batches.flush();
    assert!(rt; matches!(batches.next(2), Action::Until(2_000_000_001)));
    Ok(())
}

#[test]
fn what_is_no_fault_of_the_moment_is_refused(rt: HostRuntime) -> Result<(), Fail> {
    let alloc = rt.alloc();
    let mut batches = Batches::new(alloc, SMALL)?;
    for code in [400, 404, 500, 301] {
        assert!(rt; push(alloc, &mut batches, "a")?);
        batches.flush();
        assert!(rt; matches!(batches.next(0), Action::Post));
        assert!(rt; matches!(batches.answered(status(code), 0), Fate::Refused));
    }
    assert!(rt; batches.counts().refused == 4);
    assert!(rt; batches.is_empty());
    Ok(())
}

#[test]
fn rejected_spans_are_refused(rt: HostRuntime) -> Result<(), Fail> {
    let alloc = rt.alloc();
    let mut batches = Batches::new(alloc, SMALL)?;
    for rejected in [1, 3] {
        assert!(rt; push(alloc, &mut batches, "a")?);
        assert!(rt; push(alloc, &mut batches, "b")?);
        assert!(rt; matches!(batches.next(0), Action::Post));
        let answer = Answer::Status {
            code: 200,
            retry_after: None,
            rejected,
        };
        assert!(rt; matches!(batches.answered(answer, 0), Fate::Accepted));
    }
    // One of two, and then no more than there were.
    assert!(rt; batches.counts().accepted == 1);
    assert!(rt; batches.counts().refused == 3);
    assert!(rt; batches.is_empty());
    Ok(())
}

#[test]
fn a_full_queue_drops_and_counts(rt: HostRuntime) -> Result<(), Fail> {
    let alloc = rt.alloc();
    let mut batches = Batches::new(alloc, SMALL)?;
    for _ in 0..4 {
        assert!(rt; push(alloc, &mut batches, "a")?);
    }
    assert!(rt; !push(alloc, &mut batches, "b")?);
    let counts = batches.counts();
    assert!(rt; counts.pushed == 5);
    assert!(rt; counts.dropped == 1);
    assert!(rt; batches.len() == 4);
    batches.give_up();
    assert!(rt; batches.counts().dropped == 5);
    Ok(())
}

/// A poster that keeps what it posts, and answers by the number of the request.
#[derive(Drop)]
struct Collector {
    posts: u64,
    /// The bytes of all bodies that were accepted.
    taken: Vec<u8>,
}

impl Poster for Collector {
    ghost posted = { λ _. None };

    fn post(&mut self, body: &[u8]) -> Answer {
        self.posts = self.posts.saturating_add(1);
        match self.posts % 5 {
            1 => status(503),
            2 => Answer::Failed,
            3 if self.posts % 3 == 0 => status(400),
            _ => match self.taken.extend_from_slice(body) {
                Ok(()) => status(200),
                Err(_) => Answer::Failed,
            },
        }
    }
}

/// A clock that goes on as long as a thread sleeps.
#[derive(Drop)]
struct Sleeper {
    now: Arc<AtomicU64, Global>,
}

impl Clock for Sleeper {
    fn monotonic(&self) -> io::Result<Duration> {
        Ok(Duration::from_nanos(self.now.load(Ordering::SeqCst)))
    }

    fn since_1970(&self) -> io::Result<Duration> {
        self.monotonic()
    }

    fn sleep(&self, duration: Duration) {
        let nanos = u64::try_from(duration.as_nanos()).unwrap_or(u64::MAX);
        self.now.fetch_add(nanos.max(1), Ordering::SeqCst);
    }
}

/// How often a byte stands in a text.
fn times(byte: u8, text: &[u8]) -> u64 {
    let mut times = 0u64;
    for b in text {
        if *b == byte {
            times = times.saturating_add(1);
        }
    }
    times
}

#[test]
fn no_span_of_ten_thousand_is_lost(rt: HostRuntime) -> Result<(), Fail> {
    let alloc = rt.alloc();
    let config = BatchConfig {
        max_queue_size: 9_000,
        max_export_batch_size: 7,
        scheduled_delay: 100,
        retry: SMALL.retry,
    };
    let mut batches = Batches::new(alloc, config)?;
    for _ in 0..10_000 {
        push(alloc, &mut batches, "#")?;
    }
    let mut collector = Collector {
        posts: 0,
        taken: Vec::new(alloc),
    };
    let clock = Sleeper {
        now: Arc::new(alloc, AtomicU64::new(0))?,
    };
    send_all(
        &rt,
        alloc,
        &mut batches,
        &mut collector,
        &clock,
        1_000_000_000,
    );
    let counts = batches.counts();
    assert!(rt; counts.pushed == 10_000);
    assert!(rt; counts.dropped == 1_000);
    assert!(rt; counts.accepted.saturating_add(counts.refused) == 9_000);
    assert!(rt; counts.refused > 0);
    assert!(rt; times(b'#', &collector.taken) == counts.accepted);
    Ok(())
}

#[test]
fn a_deadline_drops_what_is_left(rt: HostRuntime) -> Result<(), Fail> {
    let alloc = rt.alloc();
    let mut batches = Batches::new(alloc, SMALL)?;
    for _ in 0..4 {
        push(alloc, &mut batches, "#")?;
    }
    let mut collector = Collector {
        posts: 0,
        taken: Vec::new(alloc),
    };
    let clock = Sleeper {
        now: Arc::new(alloc, AtomicU64::new(0))?,
    };
    // The first request fails, and the second would be after 10.
    send_all(&rt, alloc, &mut batches, &mut collector, &clock, 9);
    assert!(rt; collector.posts == 1);
    assert!(rt; batches.counts().dropped == 4);
    Ok(())
}

#[test]
fn a_thread_sends_all(rt: HostRuntime) -> Result<(), Fail> {
    let alloc = rt.alloc();
    let config = BatchConfig {
        max_queue_size: 10_000,
        max_export_batch_size: 100,
        scheduled_delay: 1_000_000,
        retry: RetryPolicy {
            max_attempts: 3,
            initial_backoff: 1_000,
            max_backoff: 1_000,
        },
    };
    let collector = Collector {
        posts: 0,
        taken: Vec::new(alloc),
    };
    let (mut sender, guard) = Sender::new(rt, alloc, collector, rt, config, 20_000_000_000)?;
    for _ in 0..10_000 {
        assert!(rt; sender.push(String::from_str(alloc, "#")?));
    }
    let finished = guard.finish(&mut sender);
    assert!(rt; finished.missed == 0);
    assert!(rt; finished.counts.pushed == 10_000);
    let counts = finished.counts;
    assert!(rt; counts.accepted.saturating_add(counts.refused) == 10_000);
    assert!(rt; times(b'#', &finished.poster.taken) == finished.counts.accepted);
    // What comes later is dropped.
    assert!(rt; !sender.push(String::from_str(alloc, "#")?));
    assert!(rt; sender.missed() == 1);
    Ok(())
}

#[test]
fn requests_are_joined(rt: HostRuntime) -> Result<(), Fail> {
    let alloc = rt.alloc();
    let mut spans = Vec::new(alloc);
    spans.push(String::from_str(alloc, "{\"resourceSpans\":[{\"a\":1}]}")?)?;
    spans.push(String::from_str(alloc, "{\"resourceSpans\":[{\"b\":2},{}]}")?)?;
    spans.push(String::from_str(alloc, "{\"c\":[]}")?)?;
    let body = export_body(alloc, &spans)?;
    let expected = b"{\"resourceSpans\":[{\"a\":1},{\"b\":2},{},{\"c\":[]}]}".as_slice();
    assert!(rt; body.as_slice() == expected);
    let none = export_body(alloc, &spans[..0])?;
    assert!(rt; none.as_slice() == b"{\"resourceSpans\":[]}".as_slice());
    Ok(())
}

/// A connection that answers so, piece by piece, and counts what is written.
#[derive(Drop)]
struct Line {
    answer: &'static [u8],
    written: Arc<AtomicU64, Global>,
}

impl Read for Line {
    fn read(&mut self, buf: &mut [u8]) -> io::Result<usize> {
        let (Some((first, rest)), Some(place)) = (self.answer.split_first(), buf.first_mut()) else {
            return Ok(0);
        };
        *place = *first;
        self.answer = rest;
        Ok(1)
    }
}

impl Write for Line {
    fn write(&mut self, buf: &[u8]) -> io::Result<usize> {
        self.written.fetch_add(buf.len() as u64, Ordering::SeqCst);
        Ok(buf.len())
    }

    fn flush(&mut self) -> io::Result<()> {
        Ok(())
    }
}

/// Makes such connections, or none.
#[derive(Drop)]
struct Lines {
    answer: Option<&'static [u8]>,
    written: Arc<AtomicU64, Global>,
}

impl Connect for Lines {
    type Connection = Line;

    fn connect(&mut self) -> io::Result<Line> {
        match self.answer {
            Some(answer) => Ok(Line {
                answer,
                written: Arc::try_clone(&self.written)?,
            }),
            None => Err(Error::from(ErrorKind::ConnectionRefused)),
        }
    }
}

/// What came of a body of two bytes that was posted to who answers so.
#[derive(Drop)]
struct Came {
    answer: Answer,
    /// How many bytes were written.
    written: u64,
    /// What the collector said of spans that it rejected.
    message: Option<String>,
}

/// Posts a body of two bytes to who answers so.
fn post_to(alloc: Global, answer: Option<&'static [u8]>) -> Result<Came, Fail> {
    let written = Arc::new(alloc, AtomicU64::new(0))?;
    let lines = Lines {
        answer,
        written: Arc::try_clone(&written)?,
    };
    let mut poster = HttpPoster::new(alloc, lines, String::from_str(alloc, "localhost:4318")?);
    let answer = poster.post(b"{}");
    let message = match poster.message() {
        Some(message) => Some(String::from_str(alloc, message)?),
        None => None,
    };
    Ok(Came {
        answer,
        written: written.load(Ordering::SeqCst),
        message,
    })
}

/// The status of what came, and the seconds that it asks for.
fn head_of(came: &Came) -> Option<(u16, Option<u64>)> {
    match came.answer {
        Answer::Status {
            code,
            retry_after,
            ..
        } => Some((code, retry_after)),
        Answer::Failed => None,
    }
}

#[test]
fn answers_are_read(rt: HostRuntime) -> Result<(), Fail> {
    let alloc = rt.alloc();
    let came = post_to(alloc, Some(b"HTTP/1.1 200 OK\r\n\r\n{}"))?;
    assert!(rt; head_of(&came) == Some((200, None)));
    // The head has 26 bytes in its line, 22, 32, 19 and 19 in its fields, and 2; the body 2.
    assert!(rt; came.written == 122);
    let busy = b"HTTP/1.1 503 Busy\r\nX: 1\r\nretry-AFTER: 12 \r\n\r\n";
    assert!(rt; head_of(&post_to(alloc, Some(busy))?) == Some((503, Some(12))));
    let dated = b"HTTP/1.1 429 Slow\r\nRetry-After: Fri, 31 Dec 1999 23:59:59 GMT\r\n\r\n";
    assert!(rt; head_of(&post_to(alloc, Some(dated))?) == Some((429, None)));
    let signed = b"HTTP/1.1 429 Slow\r\nRetry-After: +5\r\n\r\n";
    assert!(rt; head_of(&post_to(alloc, Some(signed))?) == Some((429, None)));
    assert!(rt; head_of(&post_to(alloc, Some(b"HTTP/1.1 200 OK\r\nCut"))?) == None);
    assert!(rt; head_of(&post_to(alloc, Some(b"SSH-2.0\r\n\r\n"))?) == None);
    assert!(rt; head_of(&post_to(alloc, Some(b""))?) == None);
    assert!(rt; head_of(&post_to(alloc, None)?) == None);
    Ok(())
}

/// How many spans an answer says were rejected.
fn rejected_in(alloc: Global, answer: &'static [u8]) -> Result<u64, Fail> {
    Ok(post_to(alloc, Some(answer))?.answer.rejected())
}

#[test]
fn partial_successes_are_read(rt: HostRuntime) -> Result<(), Fail> {
    let alloc = rt.alloc();
    let said = b"HTTP/1.1 200 OK\r\nContent-Length: 61\r\n\r\n{\"partialSuccess\":\
        {\"rejectedSpans\":\"3\",\"errorMessage\":\"old\"}}";
    let came = post_to(alloc, Some(said))?;
    assert!(rt; head_of(&came) == Some((200, None)));
    assert!(rt; came.answer.rejected() == 3);
    assert!(rt; matches!(&came.message, Some(message) if message.as_str() == "old"));
    // As a number, in a body that goes on until the connection ends.
    let number = b"HTTP/1.1 200 OK\r\n\r\n{\"partialSuccess\":{\"rejectedSpans\":70000}}";
    assert!(rt; rejected_in(alloc, number)? == 70_000);
    // What is behind the body's length isn't of the body.
    let long =
        b"HTTP/1.1 200 OK\r\nContent-Length: 2\r\n\r\n{}{\"partialSuccess\":{\"rejectedSpans\":1}}";
    assert!(rt; rejected_in(alloc, long)? == 0);
    let cut =
        b"HTTP/1.1 200 OK\r\nContent-Length: 90\r\n\r\n{\"partialSuccess\":{\"rejectedSpans\":1}";
    assert!(rt; rejected_in(alloc, cut)? == 0);
    let negative = b"HTTP/1.1 200 OK\r\n\r\n{\"partialSuccess\":{\"rejectedSpans\":-1}}";
    assert!(rt; rejected_in(alloc, negative)? == 0);
    let large =
        b"HTTP/1.1 200 OK\r\n\r\n{\"partialSuccess\":{\"rejectedSpans\":\"9223372036854775808\"}}";
    assert!(rt; rejected_in(alloc, large)? == 0);
    assert!(rt; rejected_in(alloc, b"HTTP/1.1 200 OK\r\n\r\n{\"partialSuccess\":{}}")? == 0);
    assert!(rt; rejected_in(alloc, b"HTTP/1.1 200 OK\r\n\r\nrejected")? == 0);
    Ok(())
}
