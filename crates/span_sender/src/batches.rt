//! A queue of spans, of which batches are posted.
ghost use Rattle.std.specs.Prelude.{◌≡◌, ◌+◌, ◌-◌, ◌^◌, ◌<◌, ◌≤◌, ◌==◌, ◌↔◌, if◌then◌else◌, [], ◌∷◌, ◌++◌, IfOk, IsTrue, IsFalse, length, take, vec_capacity, vec_len};
ghost use Rattle.span_sender.specs.Answer.{fate_of, is_post};

use crate::answer::{Answer, Fate};
use crate::config::BatchConfig;
use std::alloc::{AllocError, Global};

/// What became of the spans so far, in numbers that stop at the largest.
#[derive(Clone, Copy, Debug)]
pub struct Counts {
    /// How many were pushed.
    pub pushed: u64,
    /// How many the collector has.
    pub accepted: u64,
    /// How many it rejected or refused, or didn't take in as many tries as were granted.
    pub refused: u64,
    /// How many found the queue full, or were given up.
    pub dropped: u64,
}

/// What is to be done.
#[derive(Clone, Copy, Debug)]
pub enum Action {
    /// Nothing, until a span is pushed.
    Idle,
    /// Nothing before this time.
    Until(u64),
    /// The batch is to be posted, and the answer to be told.
    Post,
}

/// Spans that wait for a collector, each as the text of an export request of one span: what a
/// collector rejects is counted in spans. They go in batches, one at a time, and a batch is held
/// until it was accepted, refused or given up.
///
/// It reads no clock: times are nanoseconds by a clock of the caller's.
#[derive(Drop)]
pub struct Batches {
    config: BatchConfig,
    held: Vec<String>,
    sending: usize,
    failed: u32,
    due: u64,
    counts: Counts,
    pub ghost within: { sending ≤ vec_len held },
    pub ghost room: { config.max_queue_size ≤ vec_capacity held },
    pub ghost balanced: { counts.pushed < 2 ^ 64 - 1
        → counts.pushed ≡ ((counts.accepted + counts.refused) + counts.dropped) + vec_len held },
}

impl Batches {
    ghost use Rattle.span_sender.specs.Post.{Posts};
    ghost use Rattle.span_sender.specs.Run.{Sends};
    ghost use Rattle.span_sender.specs.Batches.{Answered, Ends, GivesUp, HasRoom, HoldsSame, IsAsBefore, IsNew, Takes, action_at, batch_of, config_of, counts_of, due_at, failed_tries, held_by, posted_by, sending, with_dropped, with_ended, with_pushed};

    /// A queue that holds nothing. It has room for all that it may hold: no other call allocates.
    pub fn new(alloc: Global, config: BatchConfig) -> Result<Batches, AllocError>
        ensures { IfOk result (IsNew config) }
    {
        Ok(Batches {
            config,
            held: Vec::with_capacity(alloc, config.max_queue_size)?,
            sending: 0,
            failed: 0,
            due: 0,
            counts: Counts {
                pushed: 0,
                accepted: 0,
                refused: 0,
                dropped: 0,
            },
        })
    }

    /// What became of the spans so far.
    pub fn counts(&self) -> Counts
        ensures value { result ≡ counts_of self.now }
        ensures sum { result.pushed < 2 ^ 64 - 1 → result.pushed
            ≡ ((result.accepted + result.refused) + result.dropped) + length (held_by self.now) }
    {
        self.counts
    }

    /// The spans of the request under way.
    pub fn batch(&self) -> &[String]
        ensures { result.now ≡ batch_of self.now }
    {
        &self.held[..self.sending]
    }

    /// How long the queue waits after a first try that failed.
    pub(crate) fn pause(&self) -> u64 {
        self.config.retry.backoff(0)
    }

    /// How many spans are held.
    pub fn len(&self) -> usize
        ensures { result ≡ length (held_by self.now) }
    {
        self.held.len()
    }

    /// Whether no span is held.
    pub fn is_empty(&self) -> bool
        ensures { IsTrue result ↔ (held_by self.now ≡ []) }
    {
        self.held.is_empty()
    }

    /// Takes a span where there is room, and else drops and counts it; never waits. Says whether it
    /// was taken.
    pub fn push(&mut self, span: String) -> bool
        ensures room { IsTrue result ↔ HasRoom self.old }
        ensures taken { IsTrue result
            → Takes self.old self.new span (with_pushed (counts_of self.old)) }
        ensures dropped { IsFalse result
            → HoldsSame self.old self.new (with_dropped (with_pushed (counts_of self.old)) 1) }
    {
        let has_room = self.has_room();
        self.counts.pushed = self.counts.pushed.saturating_add(1);
        if has_room {
            self.held.push_reserved(span);
        } else {
            self.counts.dropped = self.counts.dropped.saturating_add(1);
        }
        has_room
    }

    /// Whether there is room for a span.
    pub fn has_room(&self) -> bool
        ensures { IsTrue result ↔ HasRoom self.now }
    {
        self.held.len() < self.config.max_queue_size
    }

    /// What is to be done at a time. At `Post` a request is under way: post `batch`, and tell what
    /// came by `answered`.
    pub fn next(&mut self, now: u64) -> Action
        ensures action { result ≡ action_at self.old now }
        ensures held { HoldsSame self.old self.new (counts_of self.old) }
        ensures post { IsTrue (is_post result) → sending self.new ≡ posted_by self.old }
        ensures other { IsFalse (is_post result) → sending self.new ≡ sending self.old }
    {
        let held = self.held.len();
        let size = self.config.max_export_batch_size;
        if held == 0 {
            return Action::Idle;
        }
        let is_full = self.sending == 0 && size <= held;
        if self.due > now && !is_full {
            return Action::Until(self.due);
        }
        if self.sending == 0 {
            self.sending = size.min(held);
        }
        Action::Post
    }

    /// Takes what came of a request: it is posted again later, or its spans are counted and no
    /// longer held. Says which.
    pub fn answered(&mut self, answer: Answer, now: u64) -> Fate
        ensures fate { result ≡ fate_of (config_of self.old).retry (failed_tries self.old) answer }
        ensures effect { Answered result self.old self.new answer now }
    {
        let retry = self.config.retry;
        match answer.fate(retry, self.failed) {
            Fate::Accepted => {
                self.end(now, answer.rejected());
                Fate::Accepted
            }
            Fate::Refused => {
                self.end(now, u64::MAX);
                Fate::Refused
            }
            Fate::Kept => {
                self.due = now.saturating_add(retry.wait_after(self.failed, answer));
                self.failed += 1;
                Fate::Kept
            }
        }
    }

    /// Counts the spans of the request under way, so many of them or all as refused, and lets them
    /// go.
    fn end(&mut self, now: u64, refused: u64)
        ensures { Ends self.old self.new
            (with_ended (counts_of self.old) (length (batch_of self.old)) refused) now }
    {
        let sent = self.sending as u64;
        let refused = refused.min(sent);
        self.held.drain(..self.sending);
        self.counts.accepted = self.counts.accepted.saturating_add(sent - refused);
        self.counts.refused = self.counts.refused.saturating_add(refused);
        self.sending = 0;
        self.failed = 0;
        self.due = now.saturating_add(self.config.scheduled_delay);
    }

    /// Has what is held go at once, also in a batch that isn't full; but a request that failed
    /// still waits.
    pub fn flush(&mut self)
        ensures due { due_at self.new ≡ (if sending self.old == 0 then 0 else due_at self.old) }
        ensures same { IsAsBefore self.old self.new }
    {
        if self.sending == 0 {
            self.due = 0;
        }
    }

    /// Gives up all that is held, and counts it as dropped.
    pub fn give_up(&mut self)
        ensures { GivesUp self.old self.new }
    {
        self.counts.dropped = self.counts.dropped.saturating_add(self.held.len() as u64);
        self.held.clear();
        self.sending = 0;
        self.failed = 0;
    }

    /// Takes a span, and gives it up.
    pub(crate) fn give_up_one(&mut self, span: String)
        requires { held_by self.old ≡ [] }
        ensures held { held_by self.new ≡ [] }
        ensures sends { (known : Posts) → Sends self.old self.new known known (span ∷ []) }
    {
        self.push(span);
        self.give_up();
    }
}
