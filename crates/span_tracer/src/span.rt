//! Handles of spans, and guards that leave their span however they end.
ghost use Rattle.std.specs.Prelude.{◌≡◌, ◌↔◌, IfOk, IfSome, IsTrue, None, OnOk};
ghost use Rattle.span_dispatch.specs.Contract.{RecordsValues};
ghost use Rattle.span_macros.specs.Field.{parent_by};
ghost use Rattle.span_tracer.specs.Receiver.{ServesSome};
ghost use Rattle.span_tracer.specs.Span.{AddsHandle, DropsHandle, EntersIfMade, LeavesAndDrops, LeavesSpan, done_of, held_span, span_id, span_of, span_tracer};
ghost use Rattle.span_tracer.specs.Tracer.{tracer_lane};

use crate::tracer::Tracer;
use span_core::{Id, Parent, Record, TraceError};
use span_macros::IntoParent;
use span_registry::Subscriber;
use std::alloc::AllocError;
use std::sync::Wait;

/// A handle of a span, or none where no span was made. Let go, the handle is dropped. The span
/// closes once its last handle is dropped and its last child has closed.
///
/// Stands for `tracing::Span`.
pub struct Span<'a, R: Wait, S: Subscriber> {
    pub(crate) tracer: Tracer<'a, R, S>,
    pub(crate) id: Option<Id>,
}

impl<R: Wait, S: Subscriber> Drop for Span<'_, R, S> {
    fn drop(self)
        ensures { DropsHandle S.Subscriber (tracer_lane (span_tracer self.entry))
            (span_id self.entry) }
    {
        let Span { tracer, id } = self;
        if let Some(id) = id {
            // It is refused only where the span's handles were dropped by its id.
            let _ = tracer.drop_span(id);
        }
    }
}

impl<R: Wait, S: Subscriber> IntoParent for &Span<'_, R, S> {
    ghost parent_of = { λ span. parent_by (span_id span.now) };

    fn into_parent(self) -> Parent {
        self.id().into_parent()
    }
}

impl<R: Wait, S: Subscriber> Clone for Span<'_, R, S> {
    ghost is_clone = { λ x y. (span_id y ≡ span_id x) × (span_tracer y ≡ span_tracer x) };

    fn clone(&self) -> Result<Self, AllocError> {
        match self.another() {
            Ok(span) => Ok(span),
            Err(_) => Err(AllocError),
        }
    }
}

impl<'a, R: Wait, S: Subscriber> Span<'a, R, S> {
    /// The span's id, if one was made.
    pub fn id(&self) -> Option<Id>
        ensures { result ≡ span_id self.now }
    {
        self.id
    }

    /// Whether no span was made.
    pub fn is_disabled(&self) -> bool
        ensures { IsTrue result ↔ (span_id self.now ≡ None) }
    {
        self.id.is_none()
    }

    /// Another handle of the span. Refused as `Dispatch::clone_span` is.
    pub fn another(&self) -> Result<Span<'a, R, S>, TraceError>
        ensures span { IfOk result (λ h. span_id h ≡ span_id self.now) }
        ensures tracer { IfOk result (λ h. span_tracer h ≡ span_tracer self.now) }
        ensures added { AddsHandle S.Subscriber (tracer_lane (span_tracer self.now))
            (span_id self.now) (done_of result) }
    {
        let Some(id) = self.id else {
            return Ok(self.tracer.no_span());
        };
        match self.tracer.clone_span(id) {
            Ok(_) => Ok(Span {
                tracer: self.tracer,
                id: Some(id),
            }),
            Err(error) => Err(error),
        }
    }

    /// Notifies of values that the span was given later, if there is one.
    pub fn record(&self, values: &Record<'_>) -> Result<(), TraceError>
        ensures { IfSome (span_id self.now) (λ id. ServesSome S.Subscriber
            (RecordsValues S.Subscriber (tracer_lane (span_tracer self.now)) id values.now
            result)) }
    {
        match self.id {
            Some(id) => self.tracer.record(id, values),
            None => Ok(()),
        }
    }

    /// Enters the span, if there is one. The guard leaves it.
    pub fn enter<'s>(&'s self) -> Result<Entered<'s, 'a, R, S>, TraceError>
        ensures span { IfOk result (λ g. span_of g ≡ self.now) }
        ensures enters { EntersIfMade S.Subscriber (tracer_lane (span_tracer self.now))
            (span_id self.now) (done_of result) }
    {
        match self.ask_to_enter() {
            Ok(()) => Ok(Entered { span: self }),
            Err(error) => Err(error),
        }
    }

    /// Asks to enter the span, if there is one.
    fn ask_to_enter(&self) -> Result<(), TraceError>
        ensures { EntersIfMade S.Subscriber (tracer_lane (span_tracer self.now)) (span_id self.now)
            result }
    {
        match self.id {
            Some(id) => self.tracer.enter_span(id),
            None => Ok(()),
        }
    }

    /// Does something within the span, if there is one. Refused as `enter` is, and then nothing is
    /// done.
    pub fn in_scope<T, F: FnOnce() -> T>(&self, body: F) -> Result<T, TraceError>
        requires { F.IsAlwaysCallable body }
        ensures given { IfOk result (F.post body) }
        ensures entered { EntersIfMade S.Subscriber (tracer_lane (span_tracer self.now))
            (span_id self.now) (done_of result) }
        ensures left { OnOk result (LeavesSpan S.Subscriber (tracer_lane (span_tracer self.now))
            (span_id self.now)) }
    {
        match self.enter() {
            Ok(_entered) => Ok(body()),
            Err(error) => Err(error),
        }
    }

    /// The tracer and the span's id, whose handle the caller is to drop.
    fn into_parts(self) -> (Tracer<'a, R, S>, Option<Id>)
        ensures tracer { result.0 ≡ span_tracer self.entry }
        ensures id { result.1 ≡ span_id self.entry }
    {
        let Span { tracer, id } = self;
        (tracer, id)
    }

    /// Enters the span, if there is one. The guard leaves it, and then drops this handle.
    pub fn entered(self) -> Result<EnteredSpan<'a, R, S>, TraceError>
        ensures span { IfOk result (λ g. held_span g ≡ self.entry) }
        ensures enters { EntersIfMade S.Subscriber (tracer_lane (span_tracer self.entry))
            (span_id self.entry) (done_of result) }
    {
        match self.ask_to_enter() {
            Ok(()) => Ok(EnteredSpan { span: self }),
            Err(error) => Err(error),
        }
    }
}

/// A lane is in a span until this is let go. The span's handle stays.
///
/// Stands for `tracing::span::Entered`.
pub struct Entered<'s, 'a, R: Wait, S: Subscriber> {
    span: &'s Span<'a, R, S>,
}

impl<R: Wait, S: Subscriber> Drop for Entered<'_, '_, R, S> {
    fn drop(self)
        ensures { LeavesSpan S.Subscriber (tracer_lane (span_tracer (span_of self.entry)))
            (span_id (span_of self.entry)) }
    {
        let Entered { span } = self;
        if let Some(id) = span.id {
            span.tracer.exit_span(id);
        }
    }
}

/// A lane is in a span until this is let go; then the span's handle is dropped.
///
/// Stands for `tracing::span::EnteredSpan`.
pub struct EnteredSpan<'a, R: Wait, S: Subscriber> {
    span: Span<'a, R, S>,
}

impl<R: Wait, S: Subscriber> Drop for EnteredSpan<'_, R, S> {
    fn drop(self)
        ensures { LeavesAndDrops S.Subscriber
            (tracer_lane (span_tracer (held_span self.entry))) (span_id (held_span self.entry)) }
    {
        let EnteredSpan { span } = self;
        let (tracer, id) = span.into_parts();
        if let Some(id) = id {
            tracer.exit_and_drop(id);
        }
    }
}

impl<'a, R: Wait, S: Subscriber> EnteredSpan<'a, R, S> {
    /// The span's id, if one was made.
    pub fn id(&self) -> Option<Id>
        ensures { result ≡ span_id (held_span self.now) }
    {
        self.span.id
    }
}
