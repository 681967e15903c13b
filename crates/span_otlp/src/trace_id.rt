//! Numbers of traces, by those of their root spans.
ghost use Rattle.std.specs.Prelude.{◌≡◌, ℕ};
ghost use Rattle.span_core.specs.Span.{number_of};
ghost use Rattle.span_otlp.specs.TraceId.{seeded};

use span_core::Id;

/// Says which trace each root span is in, with all that are below it.
///
/// Stands for `opentelemetry_sdk::trace::IdGenerator`, but for the numbers of spans, which they
/// have.
pub trait TraceIds {
    /// The number of the trace by that of the root.
    ghost trace_of: { Self → ℕ → ℕ };

    /// The number of the trace of this root, which must not be 0.
    fn trace_id(&self, root: Id) -> u128
        ensures { result ≡ trace_of self.now (number_of root) };
}

/// All spans are in the one trace with this number, as that of a span of another program.
#[derive(Clone, Copy, Debug)]
pub struct OneTrace(pub u128);

impl TraceIds for OneTrace {
    ghost trace_of = { λ one root. one.0 };

    fn trace_id(&self, _root: Id) -> u128 {
        self.0
    }
}

/// Each root is in a trace of its own, as far as registries have different seeds: take a random
/// one. The seed is the upper half of a trace's number, and the root's, spread over 64 bits, the
/// lower.
#[derive(Clone, Copy, Debug)]
pub struct SeededTraces(pub u64);

/// An odd number, by which those of roots are spread: what takes samples looks at the lower bits.
const SPREAD: u64 = 0x9E37_79B9_7F4A_7C15;

impl TraceIds for SeededTraces {
    ghost trace_of = { λ seed root. seeded seed.0 root };

    fn trace_id(&self, root: Id) -> u128 {
        let lower = root.into_u64().wrapping_mul(SPREAD);
        u128::from(self.0) * (1 << 64) + u128::from(lower)
    }
}
