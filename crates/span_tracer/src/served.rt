//! What stands behind a receiver's lock.
ghost use Rattle.std.specs.Fn.{FnOnceReturnsAt, FnOnceReturnsAtMut};
ghost use Rattle.std.specs.Prelude.{◌≡◌, IfOk};
ghost use Rattle.span_dispatch.specs.Contract.{ClonesSpan, DropsOneHandle, EntersSpan, ExitsSpan, FollowsSpan, OpensSpan, Probes, RecordsValues, SendsEvent, ReloadsFilter, Shows};
ghost use Rattle.span_dispatch.specs.Serve.{stack_of};
ghost use Rattle.span_store.specs.Store.{IsFresh};
ghost use Rattle.span_tracer.specs.Receiver.{ChangesObserver, HasCounted, Journalled, ServesSome};
ghost use Rattle.span_tracer.specs.Span.{ExitsThenDrops};
ghost use Rattle.span_tracer.specs.Tracer.{HasHint};
ghost use Rattle.span_tracer.specs.private.Served.{count_after};

use crate::callsite::{Table, find, learn};
use crate::observer::HasObserver;
use span_core::{Attributes, Current, Event, Id, Lane, LevelFilter, Metadata, Record, TraceError};
use span_dispatch::Dispatch;
use span_registry::Subscriber;
use span_targets::Setting;
use std::marker::Model;

/// How many calls were accepted, after one more with this result.
#[inline(always)]
fn counted<A>(calls: u64, given: &Result<A, TraceError>) -> u64
    ensures { result ≡ count_after given.now calls }
{
    match given {
        Ok(_) => calls.saturating_add(1),
        Err(_) => calls,
    }
}

/// A dispatcher between a receiver's calls, the callsites that it registered, and how many calls it
/// accepted.
#[derive(Drop)]
pub(crate) struct Served<S: Subscriber> {
    dispatch: Dispatch<S>,
    callsites: Table,
    calls: u64,
}

impl<S: Subscriber> Model for Served<S> {
    ghost use Rattle.std.specs.Coded.{codes};
    ghost use Rattle.span_dispatch.specs.contracts.cache.Cache as kept;
    ghost use Rattle.span_dispatch.specs.declared.dispatch.Dispatch.{Dispatch};
    ghost use Rattle.span_tracer.specs.Receiver.{Journalled, ServedState};
    ghost use Rattle.span_tracer.specs.private.Callsite.{AreRegistered};

    ghost Value = { ServedState (Dispatch S) };

    ghost coded = { Prim.hlevel (codes, kept.the_row.coded) };

    ghost view = { λ l. record { dispatch = l.dispatch; calls = l.calls } };

    ghost invariant = { λ l. Journalled S.registry S.usable l.dispatch l.calls
        × AreRegistered l.dispatch l.callsites.places };
}

impl<S: Subscriber> Served<S> {
    /// A dispatcher that served no call yet.
    pub(crate) fn new(dispatch: Dispatch<S>) -> Served<S>
        requires usable { S.usable (stack_of dispatch) }
        requires fresh { IsFresh (S.registry (stack_of dispatch)) }
        ensures dispatch { result.dispatch ≡ dispatch }
        ensures calls { result.calls ≡ 0 }
    {
        Served {
            dispatch,
            callsites: Table::new(),
            calls: 0,
        }
    }

    /// The hint that the dispatcher has.
    pub(crate) fn hint(&self) -> Option<LevelFilter>
        ensures { HasHint S.Subscriber result }
    {
        let Served {
            dispatch,
            callsites: _,
            calls: _,
        } = self;
        dispatch.max_level_hint()
    }

    /// How many calls were accepted.
    pub(crate) fn calls(&self) -> u64
        ensures counted { HasCounted S.Subscriber result }
        ensures exact { result ≡ self.now.calls }
    {
        self.calls
    }

    /// The dispatcher, and how many calls were accepted.
    pub(crate) fn into_parts(self) -> (Dispatch<S>, u64)
        ensures dispatch { result.0 ≡ self.dispatch }
        ensures calls { result.1 ≡ self.calls }
        ensures journalled { Journalled S.registry S.usable result.0 result.1 }
    {
        let Served {
            dispatch,
            callsites,
            calls,
        } = self;
        (dispatch, calls)
    }

    /// Asks as `Dispatch::enabled` does.
    pub(crate) fn enabled(&mut self, lane: Lane, meta: &Metadata) -> Result<bool, TraceError>
        ensures { ServesSome S.Subscriber (Probes S.Subscriber lane meta.now result) }
    {
        let Served {
            dispatch,
            callsites: _,
            calls,
        } = self;
        let given = dispatch.enabled(lane, meta);
        *calls = counted(*calls, &given);
        given
    }

    /// Opens a span as `Dispatch::new_span` does, its callsite registered.
    #[inline(always)]
    pub(crate) fn new_span(
        &mut self,
        lane: Lane,
        attrs: &Attributes<'_>,
    ) -> Result<Option<Id>, TraceError>
        ensures { ServesSome S.Subscriber (OpensSpan S.Subscriber lane attrs.now result) }
    {
        let Served {
            dispatch,
            callsites,
            calls,
        } = self;
        if let Some(known) = find(callsites, &attrs.metadata()) {
            let own = *attrs; // What is lent to a call is read anew behind a lock.
            let given = dispatch.new_span_by(lane, known, &own);
            *calls = counted(*calls, &given);
            return given;
        }
        self.new_span_anew(lane, *attrs)
    }

    /// Opens a span as `new_span` does, and registers its callsite first.
    #[inline(never)]
    fn new_span_anew(&mut self, lane: Lane, attrs: Attributes<'_>) -> Result<Option<Id>, TraceError>
        ensures { ServesSome S.Subscriber (OpensSpan S.Subscriber lane attrs.entry result) }
    {
        let Served {
            dispatch,
            callsites,
            calls,
        } = self;
        learn(dispatch, callsites, &attrs.metadata());
        let given = dispatch.new_span(lane, &attrs);
        *calls = counted(*calls, &given);
        given
    }

    /// Notifies of an event as `Dispatch::event` does, its callsite registered.
    #[inline(always)]
    pub(crate) fn event(&mut self, lane: Lane, event: &Event<'_>) -> Result<bool, TraceError>
        ensures { ServesSome S.Subscriber (SendsEvent S.Subscriber lane event.now result) }
    {
        let Served {
            dispatch,
            callsites,
            calls,
        } = self;
        if let Some(known) = find(callsites, &event.metadata()) {
            let own = *event; // What is lent to a call is read anew behind a lock.
            let given = dispatch.event_by(lane, known, &own);
            *calls = counted(*calls, &given);
            return given;
        }
        self.event_later(lane, event)
    }

    /// Notifies of an event as `event_anew` does: the room for its answer is cleared only here.
    #[inline(always)]
    fn event_later(&mut self, lane: Lane, event: &Event<'_>) -> Result<bool, TraceError>
        ensures { ServesSome S.Subscriber (SendsEvent S.Subscriber lane event.now result) }
    {
        self.event_anew(lane, *event)
    }

    /// Notifies of an event as `event` does, and registers its callsite first.
    #[inline(never)]
    fn event_anew(&mut self, lane: Lane, event: Event<'_>) -> Result<bool, TraceError>
        ensures { ServesSome S.Subscriber (SendsEvent S.Subscriber lane event.entry result) }
    {
        let Served {
            dispatch,
            callsites,
            calls,
        } = self;
        learn(dispatch, callsites, &event.metadata());
        let given = dispatch.event(lane, &event);
        *calls = counted(*calls, &given);
        given
    }

    /// Enters a span as `Dispatch::enter` does.
    pub(crate) fn enter(&mut self, lane: Lane, id: Id) -> Result<(), TraceError>
        ensures { ServesSome S.Subscriber (EntersSpan S.Subscriber lane id result) }
    {
        let Served {
            dispatch,
            callsites: _,
            calls,
        } = self;
        let given = dispatch.enter(lane, id);
        *calls = counted(*calls, &given);
        given
    }

    /// Leaves a span as `Dispatch::exit` does.
    pub(crate) fn exit(&mut self, lane: Lane, id: Id)
        ensures { ServesSome S.Subscriber (ExitsSpan S.Subscriber lane id) }
    {
        let Served {
            dispatch,
            callsites: _,
            calls,
        } = self;
        dispatch.exit(lane, id);
        *calls = counted(*calls, &Ok(()));
    }

    /// Notifies of values as `Dispatch::record` does.
    pub(crate) fn record(
        &mut self,
        lane: Lane,
        id: Id,
        values: &Record<'_>,
    ) -> Result<(), TraceError>
        ensures { ServesSome S.Subscriber
            (RecordsValues S.Subscriber lane id values.now result) }
    {
        let Served {
            dispatch,
            callsites: _,
            calls,
        } = self;
        let given = dispatch.record(lane, id, values);
        *calls = counted(*calls, &given);
        given
    }

    /// Notifies that a span follows from another as `Dispatch::follows_from` does.
    pub(crate) fn follows_from(&mut self, lane: Lane, id: Id, follows: Id) -> Result<(), TraceError>
        ensures { ServesSome S.Subscriber (FollowsSpan S.Subscriber lane id follows result) }
    {
        let Served {
            dispatch,
            callsites: _,
            calls,
        } = self;
        let given = dispatch.follows_from(lane, id, follows);
        *calls = counted(*calls, &given);
        given
    }

    /// Adds a handle as `Dispatch::clone_span` does.
    pub(crate) fn clone_span(&mut self, lane: Lane, id: Id) -> Result<Id, TraceError>
        ensures same { IfOk result (λ cloned. cloned ≡ id) }
        ensures clones { ServesSome S.Subscriber (ClonesSpan S.Subscriber lane id result) }
    {
        let Served {
            dispatch,
            callsites: _,
            calls,
        } = self;
        let given = dispatch.clone_span(lane, id);
        *calls = counted(*calls, &given);
        given
    }

    /// Takes a handle from a span as `Dispatch::drop_span` does.
    pub(crate) fn drop_span(&mut self, lane: Lane, id: Id) -> Result<bool, TraceError>
        ensures { ServesSome S.Subscriber (DropsOneHandle S.Subscriber lane id result) }
    {
        let Served {
            dispatch,
            callsites: _,
            calls,
        } = self;
        let given = dispatch.drop_span(lane, id);
        *calls = counted(*calls, &given);
        given
    }

    /// Leaves a span as `Dispatch::exit` does, and takes a handle from it as `Dispatch::drop_span`
    /// does, with no call in between.
    pub(crate) fn exit_and_drop(&mut self, lane: Lane, id: Id) -> Result<bool, TraceError>
        ensures { ServesSome S.Subscriber (ExitsThenDrops S.Subscriber lane id result) }
    {
        let Served {
            dispatch,
            callsites: _,
            calls,
        } = self;
        dispatch.exit(lane, id);
        *calls = counted(*calls, &Ok(()));
        let given = dispatch.drop_span(lane, id);
        *calls = counted(*calls, &given);
        given
    }

    /// Reloads a filter as `Dispatch::reload` does. Callsites are registered anew.
    pub(crate) fn reload(&mut self, number: u32, setting: Setting) -> Result<(), TraceError>
        ensures { ServesSome S.Subscriber (ReloadsFilter S.Subscriber number setting result) }
    {
        let Served {
            dispatch,
            callsites,
            calls,
        } = self;
        let given = dispatch.reload(number, setting);
        *callsites = Table::new();
        *calls = counted(*calls, &given);
        given
    }

    /// Does something with the dispatcher's stack.
    pub(crate) fn with_stack<T, F: FnOnce(&S) -> T>(&self, body: F) -> T
        requires { F.IsAlwaysCallable body }
        ensures { ServesSome S.Subscriber
            (λ old new. FnOnceReturnsAt F.FnOnce body (stack_of old) result) }
    {
        let Served {
            dispatch,
            callsites: _,
            calls: _,
        } = self;
        body(dispatch.stack())
    }

    /// The span that a lane is in, as `Dispatch::current_span` shows it.
    pub(crate) fn current_span(&self, lane: Lane) -> Current
        ensures { ServesSome S.Subscriber (λ old new. Shows S.Subscriber lane old result) }
    {
        let Served {
            dispatch,
            callsites: _,
            calls: _,
        } = self;
        dispatch.current_span(lane)
    }
}

impl<S: HasObserver> Served<S> {
    /// Does something with the stack's observer. Callsites are registered anew.
    pub(crate) fn with_observer<A, F: FnOnce(&mut S::Observer) -> A>(&mut self, body: F) -> A
        requires { F.IsAlwaysCallable body }
        ensures { ServesSome S.Subscriber
            (ChangesObserver S.registry S.observer S.replaced
            (FnOnceReturnsAtMut F.FnOnce body) result) }
    {
        let Served {
            dispatch,
            callsites,
            calls: _,
        } = self;
        let given = dispatch.stack_mut().with_observer(body);
        *callsites = Table::new();
        given
    }
}
