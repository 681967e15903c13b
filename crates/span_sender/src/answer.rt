//! What comes of a request.
ghost use Rattle.std.specs.Prelude.{◌≡◌};
ghost use Rattle.span_sender.specs.Answer.{fate_of, is_accepted, is_retried, rejected_by};

use crate::config::RetryPolicy;

/// What came of a request that was posted.
#[derive(Clone, Copy, Debug)]
pub enum Answer {
    /// The collector answered.
    Status {
        code: u16,
        /// The seconds after which to come again, where it says these. It is followed, however
        /// long: a poster of your own may cap it.
        retry_after: Option<u64>,
        /// How many spans it rejected, where it took the others.
        rejected: u64,
    },
    /// No answer came: the connection failed.
    Failed,
}

/// What becomes of a batch.
#[derive(Clone, Copy, Debug)]
pub enum Fate {
    /// The collector has the spans, but those that its answer rejected: these are given up and count
    /// as refused.
    Accepted,
    /// The spans are given up and counted.
    Refused,
    /// The spans are posted again.
    Kept,
}

impl Answer {
    /// Whether the collector has taken the spans, but those that it rejected.
    pub fn is_accepted(self) -> bool
        ensures { result ≡ is_accepted self }
    {
        match self {
            Answer::Status { code, .. } => 200 <= code && code <= 299,
            Answer::Failed => false,
        }
    }

    /// How many spans it rejected, where it took the others.
    pub fn rejected(self) -> u64
        ensures { result ≡ rejected_by self }
    {
        match self {
            Answer::Status { rejected, .. } => rejected,
            Answer::Failed => 0,
        }
    }

    /// Whether OTLP has the request posted again.
    pub fn is_retried(self) -> bool
        ensures { result ≡ is_retried self }
    {
        match self {
            Answer::Status { code, .. } => code == 429 || code == 502 || code == 503 || code == 504,
            Answer::Failed => true,
        }
    }

    /// What becomes of a batch of which so many tries have failed before.
    pub fn fate(self, policy: RetryPolicy, failed: u32) -> Fate
        ensures { result ≡ fate_of policy failed self }
    {
        if self.is_accepted() {
            Fate::Accepted
        } else if self.is_retried() && failed.saturating_add(1) < policy.max_attempts {
            Fate::Kept
        } else {
            Fate::Refused
        }
    }
}
