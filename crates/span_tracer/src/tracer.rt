//! A handle by which one lane traces through a receiver.
ghost use Rattle.std.specs.Fn.{FnOnceReturnsAt, FnOnceReturnsAtMut};
ghost use Rattle.std.specs.Prelude.{◌≡◌, ◌⊎◌, IfErr, IfOk, None, Ok, Some, false, not, true};
ghost use Rattle.span_core.specs.Level.{is_above};
ghost use Rattle.span_core.specs.Metadata.{level_of};
ghost use Rattle.span_dispatch.specs.Contract.{ClonesSpan, DropsOneHandle, EntersSpan, ExitsSpan, FollowsSpan, RecordsValues, ReloadsFilter, Shows};
ghost use Rattle.span_dispatch.specs.Serve.{stack_of};
ghost use Rattle.span_tracer.specs.Receiver.{ChangesObserver, ServesSome};
ghost use Rattle.span_tracer.specs.Span.{EntersIfMade, LeavesAndDrops, RefusesToTrace, held_span, opened, span_id, span_tracer};
ghost use Rattle.span_tracer.specs.Tracer.{HasHint, TracesEvent, TracesProbe, TracesSpan, tracer_alloc, tracer_hint, tracer_lane};

use crate::observer::HasObserver;
use crate::receiver::Receiver;
use crate::span::{EnteredSpan, Span};
use span_core::{
    Attributes, Current, Event, Id, Lane, Level, LevelFilter, Metadata, Record, TraceError,
};
use span_registry::Subscriber;
use span_targets::Setting;
use std::alloc::Global;
use std::sync::Wait;

/// A handle by which one lane traces through a receiver: a value that is copied.
///
/// What its hint rules out is answered without the lock. That is the hint that the dispatcher had
/// when the tracer was made: a setting that a filter takes later reaches the tracers that are made
/// later, and `renewed` makes one.
///
/// Own to this port: in the crate a thread finds its dispatcher and its lane by itself.
pub struct Tracer<'a, R: Wait, S: Subscriber> {
    pub(crate) rt: &'a R,
    pub(crate) receiver: &'a Receiver<S>,
    pub(crate) lane: Lane,
    pub(crate) hint: Option<LevelFilter>,
}

impl<R: Wait, S: Subscriber> Copy for Tracer<'_, R, S> {}

impl<R: Wait, S: Subscriber> Clone for Tracer<'_, R, S> {
    ghost is_clone = { λ x y. y ≡ x };

    fn clone(&self) -> Result<Self, std::alloc::AllocError> {
        Ok(*self)
    }
}

impl<'a, R: Wait, S: Subscriber> Tracer<'a, R, S> {
    /// The lane that the tracer's calls come from.
    pub fn lane(&self) -> Lane
        ensures { result ≡ tracer_lane self.now }
    {
        self.lane
    }

    /// A tracer on the same lane, with the hint that the dispatcher has now.
    pub fn renewed(&self) -> Tracer<'a, R, S>
        ensures lane { tracer_lane result ≡ tracer_lane self.now }
        ensures hint { HasHint S.Subscriber (tracer_hint result) }
    {
        self.receiver.tracer_on(self.rt, self.lane)
    }

    /// Whether the level passes the hint that the tracer was made with. This waits for nobody.
    #[inline(always)]
    pub fn passes_hint(&self, level: Level) -> bool
        ensures { result ≡ not (is_above level (tracer_hint self.now)) }
    {
        match self.hint {
            Some(most) => most.passes(level),
            None => true,
        }
    }

    /// Whether a span or an event with this metadata is worth its values: its level passes the
    /// hint, and the dispatcher wanted the callsite when it was last asked, else wants it now.
    ///
    /// Refused as `Dispatch::enabled` is.
    #[inline(always)]
    pub fn wants(&self, meta: &Metadata) -> Result<bool, TraceError>
        ensures above { is_above (level_of meta.now) (tracer_hint self.now) ≡ true
            → result ≡ Ok false }
        ensures asked { (result ≡ Ok true) ⊎ TracesProbe S.Subscriber (tracer_lane self.now)
            (tracer_hint self.now) meta.now result }
    {
        if !self.passes_hint(meta.level()) {
            return Ok(false);
        }
        if self.receiver.remembers(meta) {
            return Ok(true);
        }
        (*self).asks(*meta)
    }

    /// A handle of no span.
    pub fn no_span(&self) -> Span<'a, R, S>
        ensures tracer { span_tracer result ≡ self.now }
        ensures none { span_id result ≡ None }
    {
        Span {
            tracer: *self,
            id: None,
        }
    }

    /// The memory that texts of values are taken from.
    pub fn alloc(&self) -> Global
        ensures { result ≡ tracer_alloc self.now }
    {
        self.receiver.alloc()
    }

    /// Asks whether a callsite is wanted, and remembers the answer. A caller's own tracer isn't
    /// lent, and so its hint is read once.
    #[inline(never)]
    fn asks(self, meta: Metadata) -> Result<bool, TraceError>
        ensures { TracesProbe S.Subscriber (tracer_lane self.entry) (tracer_hint self.entry) meta
            result }
    {
        let given = self.enabled(&meta);
        if let Ok(wanted) = given {
            self.receiver.remember(meta.callsite(), wanted);
        }
        given
    }

    /// Asks as `Dispatch::enabled` does, unless the hint rules it out.
    pub fn enabled(&self, meta: &Metadata) -> Result<bool, TraceError>
        ensures { TracesProbe S.Subscriber (tracer_lane self.now) (tracer_hint self.now) meta.now
            result }
    {
        if !self.passes_hint(meta.level()) {
            return Ok(false);
        }
        let mut served = self.receiver.served(self.rt);
        served.enabled(self.lane, meta)
    }

    /// Notifies of an event as `Dispatch::event` does, unless the hint rules it out: then the
    /// answer is false.
    #[inline(always)]
    pub fn event(&self, event: &Event<'_>) -> Result<bool, TraceError>
        ensures { TracesEvent S.Subscriber (tracer_lane self.now) (tracer_hint self.now) event.now
            result }
    {
        if !self.passes_hint(event.metadata().level()) {
            return Ok(false);
        }
        let mut served = self.receiver.served(self.rt);
        served.event(self.lane, event)
    }

    /// Notifies of an event as `event` does. Where it isn't made, its callsite is asked again
    /// before values are computed for it.
    #[inline(always)]
    pub fn event_as_wanted(&self, event: &Event<'_>) -> Result<bool, TraceError>
        ensures { TracesEvent S.Subscriber (tracer_lane self.now) (tracer_hint self.now) event.now
            result }
    {
        match self.event(event) {
            Ok(true) => Ok(true),
            Ok(false) => {
                self.receiver.remember(event.metadata().callsite(), false);
                Ok(false)
            }
            Err(error) => Err(error),
        }
    }

    /// Opens a span as `Dispatch::new_span` does, unless the hint rules it out. The answer holds
    /// its handle, or none where no span is made.
    pub fn span(&self, attrs: &Attributes<'_>) -> Result<Span<'a, R, S>, TraceError>
        ensures tracer { IfOk result (λ h. span_tracer h ≡ self.now) }
        ensures opens { TracesSpan S.Subscriber (tracer_lane self.now) (tracer_hint self.now)
            attrs.now (opened result) }
    {
        match self.open(attrs) {
            Ok(id) => Ok(Span { tracer: *self, id }),
            Err(error) => Err(error),
        }
    }

    /// Opens a span as `span` does. Where none is made, its callsite is asked again before values
    /// are computed for it.
    #[inline(always)]
    pub fn span_as_wanted(&self, attrs: &Attributes<'_>) -> Result<Span<'a, R, S>, TraceError>
        ensures tracer { IfOk result (λ h. span_tracer h ≡ self.now) }
        ensures opens { TracesSpan S.Subscriber (tracer_lane self.now) (tracer_hint self.now)
            attrs.now (opened result) }
    {
        match self.open(attrs) {
            Ok(id) => {
                if id.is_none() {
                    self.receiver.remember(attrs.metadata().callsite(), false);
                }
                Ok(Span { tracer: *self, id })
            }
            Err(error) => Err(error),
        }
    }

    /// Opens a span as `span` does, and answers its id.
    #[inline(always)]
    fn open(&self, attrs: &Attributes<'_>) -> Result<Option<Id>, TraceError>
        ensures { TracesSpan S.Subscriber (tracer_lane self.now) (tracer_hint self.now) attrs.now
            result }
    {
        if !self.passes_hint(attrs.metadata().level()) {
            return Ok(None);
        }
        let mut served = self.receiver.served(self.rt);
        served.new_span(self.lane, attrs)
    }

    /// Opens a span and enters it. The answer leaves it and drops its handle at its end.
    ///
    /// Refused as `span` is, and where memory to enter is refused: then the span is dropped again.
    pub fn enter(&self, attrs: &Attributes<'_>) -> Result<EnteredSpan<'a, R, S>, TraceError>
        ensures tracer { IfOk result (λ g. span_tracer (held_span g) ≡ self.now) }
        ensures opens { IfOk result (λ g. TracesSpan S.Subscriber (tracer_lane self.now)
            (tracer_hint self.now) attrs.now (Ok (span_id (held_span g)))) }
        ensures enters { IfOk result (λ g. EntersIfMade S.Subscriber (tracer_lane self.now)
            (span_id (held_span g)) (Ok tt)) }
        ensures refused { IfErr result (RefusesToTrace S.Subscriber (tracer_lane self.now)
            (tracer_hint self.now) attrs.now) }
    {
        match self.span(attrs) {
            Ok(span) => match span.entered() {
                Ok(guard) => Ok(guard),
                Err(error) => Err(error),
            },
            Err(error) => Err(error),
        }
    }

    /// Notifies of values that a span was given later, as `Dispatch::record` does.
    pub fn record(&self, id: Id, values: &Record<'_>) -> Result<(), TraceError>
        ensures { ServesSome S.Subscriber
            (RecordsValues S.Subscriber (tracer_lane self.now) id values.now result) }
    {
        let mut served = self.receiver.served(self.rt);
        served.record(self.lane, id, values)
    }

    /// Notifies that the first span follows from the second, as `Dispatch::follows_from` does.
    pub fn follows_from(&self, id: Id, follows: Id) -> Result<(), TraceError>
        ensures { ServesSome S.Subscriber
            (FollowsSpan S.Subscriber (tracer_lane self.now) id follows result) }
    {
        let mut served = self.receiver.served(self.rt);
        served.follows_from(self.lane, id, follows)
    }

    /// Reloads a filter as `Dispatch::reload` does. Tracers that are made later have the new hint.
    pub fn reload(&self, number: u32, setting: Setting) -> Result<(), TraceError>
        ensures { ServesSome S.Subscriber (ReloadsFilter S.Subscriber number setting result) }
    {
        let mut served = self.receiver.served(self.rt);
        served.reload(number, setting)
    }

    /// The span that the lane is in, as `Dispatch::current_span` shows it.
    pub fn current(&self) -> Current
        ensures { ServesSome S.Subscriber
            (λ old new. Shows S.Subscriber (tracer_lane self.now) old result) }
    {
        self.receiver.served(self.rt).current_span(self.lane)
    }

    /// Does something with the dispatcher's stack, while the lock is held: a call of a tracer of
    /// this receiver in there would wait for good.
    pub fn with_stack<T, F: FnOnce(&S) -> T>(&self, body: F) -> T
        requires { F.IsAlwaysCallable body }
        ensures { ServesSome S.Subscriber
            (λ old new. FnOnceReturnsAt F.FnOnce body (stack_of old) result) }
    {
        self.receiver.served(self.rt).with_stack(body)
    }

    /// Enters a span as `Dispatch::enter` does.
    pub(crate) fn enter_span(&self, id: Id) -> Result<(), TraceError>
        ensures { ServesSome S.Subscriber
            (EntersSpan S.Subscriber (tracer_lane self.now) id result) }
    {
        let mut served = self.receiver.served(self.rt);
        served.enter(self.lane, id)
    }

    /// Leaves a span as `Dispatch::exit` does.
    pub(crate) fn exit_span(&self, id: Id)
        ensures { ServesSome S.Subscriber (ExitsSpan S.Subscriber (tracer_lane self.now) id) }
    {
        let mut served = self.receiver.served(self.rt);
        served.exit(self.lane, id);
    }

    /// Leaves a span as `Dispatch::exit` does, and drops a handle of it as `Dispatch::drop_span`
    /// does, with no call of another in between.
    pub(crate) fn exit_and_drop(&self, id: Id)
        ensures { LeavesAndDrops S.Subscriber (tracer_lane self.now) (Some id) }
    {
        let mut served = self.receiver.served(self.rt);
        // It is refused only where the span's handles were dropped by its id.
        let _ = served.exit_and_drop(self.lane, id);
    }

    /// Adds a handle as `Dispatch::clone_span` does.
    pub(crate) fn clone_span(&self, id: Id) -> Result<Id, TraceError>
        ensures same { IfOk result (λ cloned. cloned ≡ id) }
        ensures clones { ServesSome S.Subscriber
            (ClonesSpan S.Subscriber (tracer_lane self.now) id result) }
    {
        let mut served = self.receiver.served(self.rt);
        served.clone_span(self.lane, id)
    }

    /// Takes a handle from a span as `Dispatch::drop_span` does.
    pub(crate) fn drop_span(&self, id: Id) -> Result<bool, TraceError>
        ensures { ServesSome S.Subscriber
            (DropsOneHandle S.Subscriber (tracer_lane self.now) id result) }
    {
        let mut served = self.receiver.served(self.rt);
        served.drop_span(self.lane, id)
    }
}

impl<'a, R: Wait, S: HasObserver> Tracer<'a, R, S> {
    /// Does something with the observer of the stack's outermost layer, while the lock is held: a
    /// call of a tracer of this receiver in there would wait for good. The stack is asked anew
    /// then of what was cached of its answers.
    ///
    /// Own to this port.
    pub fn with_observer<A, F: FnOnce(&mut S::Observer) -> A>(&self, body: F) -> A
        requires { F.IsAlwaysCallable body }
        ensures { ServesSome S.Subscriber
            (ChangesObserver S.registry S.observer S.replaced
            (FnOnceReturnsAtMut F.FnOnce body) result) }
    {
        self.receiver.served(self.rt).with_observer(body)
    }
}
