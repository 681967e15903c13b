//! The workloads of one thread.
ghost use Rattle.std.specs.Prelude.{◌≡◌, IfSome};
ghost use Rattle.span_bench.specs.Workload.{name_of};

/// What one round does. Each has a size.
#[derive(Clone, Copy, Debug, PartialEq, Eq)]
pub enum Workload {
    /// A span is opened, and closes as its handle is dropped. So many others are open.
    NewAndDrop,
    /// A span is entered and left, on one of so many lanes.
    EnterAndExit,
    /// An event is sent, from one of so many callsites.
    Event,
    /// The same, from one that was registered.
    EventBy,
    /// An event is sent by a tracer's macro, from one callsite.
    TracedEvent,
    /// The same, with a number and a text.
    TracedValues,
    /// The same, of a level that the hint rules out.
    TracedAboveHint,
    /// A span is opened by a tracer's macro and entered. Its guard leaves it, and drops its handle.
    TracedSpan,
    /// A chain of so many spans is opened. Their handles are dropped, the deepest span's last, and
    /// all close.
    Cascade,
    /// A span and its ancestors are walked through, so many in all.
    Scope,
    /// The same, the root first.
    FromRoot,
    /// A value is kept with one of so many spans, in place of the one before.
    Replace,
}

impl Workload {
    /// The workload with this name, if there is one.
    pub fn of(name: &str) -> Option<Workload>
        ensures { IfSome result (λ workload. name.now ≡ name_of workload) }
    {
        match name {
            "new_and_drop" => Some(Workload::NewAndDrop),
            "enter_and_exit" => Some(Workload::EnterAndExit),
            "event" => Some(Workload::Event),
            "event_by" => Some(Workload::EventBy),
            "traced_event" => Some(Workload::TracedEvent),
            "traced_values" => Some(Workload::TracedValues),
            "traced_above_hint" => Some(Workload::TracedAboveHint),
            "traced_span" => Some(Workload::TracedSpan),
            "cascade" => Some(Workload::Cascade),
            "scope" => Some(Workload::Scope),
            "from_root" => Some(Workload::FromRoot),
            "replace" => Some(Workload::Replace),
            _ => None,
        }
    }
}
