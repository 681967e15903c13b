//! The workloads of threads that share a receiver.
ghost use Rattle.std.specs.Prelude.{◌≡◌, IfSome};
ghost use Rattle.span_bench.specs.ThreadWorkload.{name_of, requests_of};

/// What one round does, in each thread.
#[derive(Clone, Copy, Debug, PartialEq, Eq)]
pub enum ThreadWorkload {
    /// An event is sent.
    Event,
    /// A span is opened, and closes as its handle is dropped.
    NewAndDrop,
    /// An event is sent by the macro of a tracer.
    TracedEvent,
    /// A span is opened by the macro of a tracer, and closes as its handle is let go.
    TracedSpan,
    /// An event that the stack's hint rules out is asked of the receiver, which drops it.
    EventPastHint,
    /// The worker is asked whether the level passes the hint, and as it doesn't, the receiver is
    /// asked nothing.
    PassesHint,
}

impl ThreadWorkload {
    /// The workload with this name, if there is one.
    pub fn of(name: &str) -> Option<ThreadWorkload>
        ensures { IfSome result (λ workload. name.now ≡ name_of workload) }
    {
        match name {
            "event" => Some(ThreadWorkload::Event),
            "new_and_drop" => Some(ThreadWorkload::NewAndDrop),
            "traced_event" => Some(ThreadWorkload::TracedEvent),
            "traced_span" => Some(ThreadWorkload::TracedSpan),
            "event_past_hint" => Some(ThreadWorkload::EventPastHint),
            "passes_hint" => Some(ThreadWorkload::PassesHint),
            _ => None,
        }
    }

    /// Its name.
    pub fn name(self) -> &'static str
        ensures { result.now ≡ name_of self }
    {
        match self {
            ThreadWorkload::Event => "event",
            ThreadWorkload::NewAndDrop => "new_and_drop",
            ThreadWorkload::TracedEvent => "traced_event",
            ThreadWorkload::TracedSpan => "traced_span",
            ThreadWorkload::EventPastHint => "event_past_hint",
            ThreadWorkload::PassesHint => "passes_hint",
        }
    }

    /// Whether a tracer does it.
    pub fn is_traced(self) -> bool {
        matches!(
            self,
            ThreadWorkload::TracedEvent | ThreadWorkload::TracedSpan
        )
    }

    /// How many requests a round makes.
    pub fn requests(self) -> u64
        ensures { result ≡ requests_of self }
    {
        match self {
            ThreadWorkload::Event | ThreadWorkload::TracedEvent | ThreadWorkload::EventPastHint =>
                1,
            ThreadWorkload::NewAndDrop | ThreadWorkload::TracedSpan => 2,
            ThreadWorkload::PassesHint => 0,
        }
    }
}
