//! A future within a span.
ghost use Rattle.std.specs.Prelude.{◌≡◌};
ghost use Rattle.futures.specs.Poll.{IfReady, OnPending};
ghost use Rattle.futures.specs.Task.{Covers, Keeps};
ghost use Rattle.span_futures.specs.Instrumented.{RunsWithin, future_within, span_around};
ghost use Rattle.span_tracer.specs.Span.{span_id, span_tracer};
ghost use Rattle.span_tracer.specs.Tracer.{tracer_lane};

use futures::Future;
use futures::task::{Context, Poll};
use span_registry::Subscriber;
use span_tracer::Span;
use std::sync::Wait;

/// A future that enters its span at each poll, and leaves it after. Let go, it drops the span's
/// handle.
///
/// Where entering is refused, the future is polled all the same, outside of the span.
///
/// Stands for `tracing::instrument::Instrumented`.
#[derive(Drop)]
pub struct Instrumented<'a, R: Wait, S: Subscriber, F> {
    future: F,
    span: Span<'a, R, S>,
}

impl<R: Wait, S: Subscriber, F: Future> Instrumented<'_, R, S, F> {
    /// Polls the future as its `Future` does, within the span unless entering that is refused.
    pub fn poll_within(&mut self, cx: &mut Context<'_>) -> Poll<F::Output>
        requires { F.can_poll (future_within self.old) }
        ensures within { RunsWithin S.Subscriber
            (tracer_lane (span_tracer (span_around self.old))) (span_id (span_around self.old)) }
        ensures span { span_around self.new ≡ span_around self.old }
        ensures value { IfReady result (F.gives (future_within self.old)) }
        ensures again { OnPending result (F.can_poll (future_within self.new)) }
        ensures same { OnPending result
            ((x : _) → F.gives (future_within self.new) x → F.gives (future_within self.old) x) }
        ensures registered { OnPending result (Covers cx.new (F.needs (future_within self.new))) }
        ensures kept { Keeps cx.old cx.new }
    {
        match self.span.enter() {
            Ok(_entered) => self.future.poll(cx),
            Err(_) => self.future.poll(cx),
        }
    }
}

impl<R: Wait, S: Subscriber, F: Future> Future for Instrumented<'_, R, S, F> {
    type Output = F::Output;

    ghost can_poll = { λ task. F.can_poll (future_within task) };

    ghost needs = { λ task. F.needs (future_within task) };

    ghost gives = { λ task. F.gives (future_within task) };

    fn poll(&mut self, cx: &mut Context<'_>) -> Poll<F::Output> {
        self.poll_within(cx)
    }
}

/// Puts futures into spans.
///
/// Stands for `tracing::Instrument`.
pub trait Instrument: Future {
    /// The future within this span.
    final fn instrument<'a, R: Wait, S: Subscriber>(
        self,
        span: Span<'a, R, S>,
    ) -> Instrumented<'a, R, S, Self>
    where
        Self: Sized,
        ensures future { future_within result ≡ self }
        ensures span { span_around result ≡ span.entry }
    {
        Instrumented { future: self, span }
    }
}

impl<F: Future> Instrument for F {}
