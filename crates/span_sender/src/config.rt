//! How large batches are, and when they go.
ghost use Rattle.std.specs.Prelude.{◌≡◌, ◌<◌};
ghost use Rattle.span_sender.specs.Answer.{backoff, wait_after};

use crate::answer::Answer;

const NANOS_PER_SECOND: u64 = 1_000_000_000;

/// How large batches are, and when they go, in nanoseconds.
#[derive(Clone, Copy, Debug)]
pub struct BatchConfig {
    /// How many spans are held at most: what comes then is dropped and counted.
    pub max_queue_size: usize,
    /// How many spans go in one request at most.
    pub max_export_batch_size: usize,
    /// How long a batch that isn't full waits after the one before it.
    pub scheduled_delay: u64,
    /// When a request is posted again.
    pub retry: RetryPolicy,
    pub ghost room: { 0 < max_queue_size },
    pub ghost batch: { 0 < max_export_batch_size },
}

/// When a request is posted again, in nanoseconds.
#[derive(Clone, Copy, Debug)]
pub struct RetryPolicy {
    /// How often a request is posted at most.
    pub max_attempts: u32,
    /// How long to wait after the first try.
    pub initial_backoff: u64,
    /// How long to wait at most, but where the collector asks for more.
    pub max_backoff: u64,
}

impl BatchConfig {
    ghost use Rattle.span_sender.specs.Config.{one_batch};

    /// What OpenTelemetry's SDKs begin with.
    pub const DEFAULT: BatchConfig = BatchConfig {
        max_queue_size: 2048,
        max_export_batch_size: 512,
        scheduled_delay: 5_000_000_000,
        retry: RetryPolicy::DEFAULT,
    };

    /// The same for a queue that holds one batch at most.
    pub(crate) fn one_batch(self) -> BatchConfig
        ensures { result ≡ one_batch self }
    {
        BatchConfig {
            max_queue_size: self.max_export_batch_size,
            max_export_batch_size: self.max_export_batch_size,
            scheduled_delay: self.scheduled_delay,
            retry: self.retry,
        }
    }
}

impl RetryPolicy {
    /// Five tries, with a second after the first, and five seconds at most.
    pub const DEFAULT: RetryPolicy = RetryPolicy {
        max_attempts: 5,
        initial_backoff: 1_000_000_000,
        max_backoff: 5_000_000_000,
    };

    /// How long to wait after a try that failed, behind so many others: twice as long each time.
    pub fn backoff(self, failed: u32) -> u64
        ensures { result ≡ backoff self failed }
    {
        let mut wait = self.initial_backoff.min(self.max_backoff);
        for _doubled in 0..failed {
            wait = wait.saturating_mul(2).min(self.max_backoff);
        }
        wait
    }

    /// How long to wait after an answer: the seconds that the collector asks for, or else the
    /// backoff.
    pub fn wait_after(self, failed: u32, answer: Answer) -> u64
        ensures { result ≡ wait_after self failed answer }
    {
        match answer {
            Answer::Status {
                retry_after: Some(seconds),
                ..
            } => seconds.saturating_mul(NANOS_PER_SECOND),
            _ => self.backoff(failed),
        }
    }
}
