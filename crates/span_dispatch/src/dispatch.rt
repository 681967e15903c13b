//! A dispatcher: it takes requests, asks the layers of a stack, and notifies them.
ghost use Rattle.std.specs.Borrow.{Lends, sem};
ghost use Rattle.std.specs.Prelude.{◌≡◌, ℕ, None, Ok, Some, true, false, IfErr, IfOk, IfSome, OnErr, OnOk};
ghost use Rattle.span_core.specs.Event.{event_metadata};
ghost use Rattle.span_core.specs.Filters.{IsEmpty};
ghost use Rattle.span_core.specs.Metadata.{ShowSame};
ghost use Rattle.span_core.specs.Span.{metadata_of, number_of};
ghost use Rattle.span_dispatch.specs.Cache.{no_callsite};
ghost use Rattle.span_dispatch.specs.Contract.{BecomesReady, ChangesKept, ClonesSpan, DropsOneHandle, EntersSpan, ExitsSpan, FollowsSpan, GoesByKept, KeepsOnly, LearnsCallsite, OpensSpan, OpensSpanWith, Probes, RecordsValues, RefusesMetadata, ReservesCallsites, SameStack, SendsEvent, ServesCurrent, ReloadsFilter, Shows, ShowsHint, ShowsKept, StaysReady, StaysUpToDate, StaysReadyWith};
ghost use Rattle.span_dispatch.specs.private.Registration.{IsRegisteredAs};
ghost use Rattle.span_dispatch.specs.private.Step.{Admits, ClosesEach, Decides};
ghost use Rattle.span_dispatch.specs.contracts.dispatch.Dispatch.{the_row};
ghost use Rattle.span_dispatch.specs.Registration.{IsRegistered, KeepsRegistered, Knows, registered_metadata};
ghost use Rattle.span_dispatch.specs.Serve.{KeepsUpToDate, alloc_of, forgetful, hint_by, kept_by, stack_of, with_stack};
ghost use Rattle.span_store.specs.Store.{IsClosing};
ghost use Rattle.span_registry.specs.Form.{Form};
ghost use Rattle.span_registry.specs.Question.{refusals};
ghost use Rattle.span_registry.specs.Reload.{ReloadedForm};

use crate::cache::Cache;
use crate::registration::{Epoch, Registration};
use span_core::{
    Attributes, Current, Event, Id, Interest, Lane, LevelFilter, Metadata, Pass, Record, TraceError,
};
use span_registry::{Released, Subscriber};
use span_targets::Setting;
use std::alloc::Global;

/// A stack behind one door: it takes requests, asks the stack's layers, and notifies them.
///
/// Stands for `tracing_core::Dispatch`. What `tracing_subscriber` keeps of filters' answers in a
/// thread local is a `Pass` here, which ends with its request. What it keeps of callsites each
/// dispatcher caches by itself here.
#[derive(Debug)]
pub struct Dispatch<S> {
    stack: S,
    alloc: Global,
    cache: Cache,
    epoch: Epoch,
}

impl<S: Drop> Drop for Dispatch<S> {
    fn drop(self) {
        let Dispatch {
            stack,
            alloc,
            cache,
            epoch,
        } = self;
    }
}

// No bound, so that a caller's proof can read the stack without its whole implementation.
impl<S> Dispatch<S> {
    /// The dispatcher's stack, as it now is.
    pub fn stack(&self) -> &S
        ensures { result.now ≡ stack_of self.now }
    {
        &self.stack
    }

    /// The memory that the dispatcher's cache takes from.
    ///
    /// Own to this port.
    pub fn alloc(&self) -> Global
        ensures { result ≡ alloc_of self.now }
    {
        self.alloc
    }

    /// The dispatcher's stack, taken out. Layers stay in use, and a new dispatcher puts them in use
    /// once more.
    pub fn into_stack(self) -> S
        ensures { result ≡ stack_of self }
    {
        let Dispatch {
            stack,
            alloc,
            cache,
            epoch,
        } = self;
        stack
    }
}

impl<S: Subscriber> Dispatch<S> {
    /// A dispatcher that caches: it goes by the stack's hint, and caches the interest in each
    /// callsite that the stack is asked of. Puts all layers of the stack in use, once each.
    ///
    /// The numbers of callsites are hashed as the stack's registry hashes those of lanes: see
    /// `Registry::with_hasher`.
    pub fn new(alloc: Global, stack: S) -> Dispatch<S>
        requires { S.usable stack }
        ensures usable { S.usable (stack_of result) }
        ensures registered { S.registered stack (stack_of result) }
        ensures registry { S.registry (stack_of result) ≡ S.registry stack }
        ensures kept { KeepsOnly (Some no_callsite) result }
        ensures current { (f : Form) (n : ℕ) → KeepsUpToDate f n result }
        ensures ready { BecomesReady S.Subscriber stack result }
    {
        Dispatch {
            stack: put_in_use(stack),
            alloc,
            cache: Cache::Empty,
            epoch: Epoch::first(),
        }
    }

    /// A dispatcher that caches nothing, and asks the stack of each request. Puts all layers of the
    /// stack in use, once each.
    ///
    /// Own to this port.
    pub fn uncached(alloc: Global, stack: S) -> Dispatch<S>
        requires { S.usable stack }
        ensures usable { S.usable (stack_of result) }
        ensures registered { S.registered stack (stack_of result) }
        ensures registry { S.registry (stack_of result) ≡ S.registry stack }
        ensures kept { KeepsOnly None result }
        ensures current { (f : Form) (n : ℕ) → KeepsUpToDate f n result }
        ensures ready { BecomesReady S.Subscriber stack result }
    {
        Dispatch {
            stack: put_in_use(stack),
            alloc,
            cache: Cache::Off,
            epoch: Epoch::first(),
        }
    }

    /// The dispatcher's stack, to be changed. All that was cached of its answers is forgotten.
    pub fn stack_mut(&mut self) -> &mut S
        ensures* writes_back { sem 𝓛
            (Lends (the_row S.row) S.row self.entry result (with_stack (forgetful self.old))) }
        ensures value { result.now ≡ stack_of self.old }
    {
        self.cache.forget();
        self.epoch = self.epoch.next();
        &mut self.stack
    }

    /// The highest level that may be enabled, as the stack's hint says. None under `uncached`.
    pub fn max_level_hint(&self) -> Option<LevelFilter>
        requires { S.usable (stack_of self.now) }
        ensures none { kept_by self.now ≡ None → result ≡ None }
        ensures kept { ShowsKept self.now result }
        ensures hint { ShowsHint S.Subscriber self.now result }
    {
        match &self.cache {
            Cache::Off => None,
            Cache::Empty => self.stack.max_level_hint(),
            Cache::Filled(known) => known.hint(),
        }
    }

    /// Whether a span or an event with this metadata is enabled, as far as metadata decide. The
    /// filters' answers go into the pass, which is a new one. `kept`, if given, is the cached
    /// interest.
    #[inline(always)]
    fn admits(
        &mut self,
        lane: Lane,
        meta: &Metadata,
        kept: Option<Interest>,
        pass: &mut Pass,
    ) -> Result<bool, TraceError>
        requires usable { S.usable (stack_of self.old) }
        requires known { IfSome kept (Knows self.old meta.now) }
        requires fresh { IsEmpty (refusals pass.old) }
        ensures rest { ChangesKept self.old self.new }
        ensures registered { KeepsRegistered self.old self.new }
        ensures up_to_date { StaysUpToDate S.Subscriber self.old self.new }
        ensures admitted { Admits S.Subscriber lane meta.now self.old pass.new result self.new }
        ensures decided { IfOk result
            (λ said. Decides S.Subscriber lane meta.now self.old (said, refusals pass.new)) }
        ensures kept { GoesByKept meta.now false (RefusesMetadata meta.now self.old) result self.old
            self.new }
    {
        match self.cache.interest(self.alloc, &self.stack, meta, kept) {
            Err(error) => Err(error),
            Ok(Interest::Never) => Ok(false),
            Ok(Interest::Sometimes) => Ok(self.stack.enabled(lane, meta, pass)),
            Ok(Interest::Always) => Ok(true),
        }
    }

    /// Asks as `admits` does, by a registration where one is given. Where that has the interest
    /// always, nothing is called.
    #[inline(always)]
    fn admits_by(
        &mut self,
        lane: Lane,
        meta: Metadata,
        callsite: Option<&Registration>,
        pass: &mut Pass,
    ) -> Result<bool, TraceError>
        requires usable { S.usable (stack_of self.old) }
        requires known { IfSome callsite (λ r. IsRegisteredAs meta self.old r.now) }
        requires fresh { IsEmpty (refusals pass.old) }
        ensures rest { ChangesKept self.old self.new }
        ensures registered { KeepsRegistered self.old self.new }
        ensures up_to_date { StaysUpToDate S.Subscriber self.old self.new }
        ensures admitted { Admits S.Subscriber lane meta self.old pass.new result self.new }
        ensures decided { IfOk result
            (λ said. Decides S.Subscriber lane meta self.old (said, refusals pass.new)) }
        ensures kept { GoesByKept meta false (RefusesMetadata meta self.old) result self.old
            self.new }
    {
        let Some(callsite) = callsite else {
            return self.admits(lane, &meta, None, pass);
        };
        if callsite.is_always_in(self.epoch) {
            return Ok(true);
        }
        self.admits_later(lane, meta, callsite, pass)
    }

    /// Asks as `admits_by` does, by a call that isn't inlined: room for its answer is cleared here.
    #[inline(always)]
    fn admits_later(
        &mut self,
        lane: Lane,
        meta: Metadata,
        callsite: &Registration,
        pass: &mut Pass,
    ) -> Result<bool, TraceError>
        requires usable { S.usable (stack_of self.old) }
        requires known { IsRegisteredAs meta self.old callsite.now }
        ensures rest { ChangesKept self.old self.new }
        ensures registered { KeepsRegistered self.old self.new }
        ensures up_to_date { StaysUpToDate S.Subscriber self.old self.new }
        ensures admitted { Admits S.Subscriber lane meta self.old pass.new result self.new }
        ensures decided { IfOk result
            (λ said. Decides S.Subscriber lane meta self.old (said, refusals pass.new)) }
        ensures kept { GoesByKept meta false (RefusesMetadata meta self.old) result self.old
            self.new }
    {
        let (said, asked) = self.admits_anew(lane, meta, callsite);
        *pass = asked;
        said
    }

    /// Asks as `admits` does, with a new pass: the answer, and what the pass becomes.
    #[inline(never)]
    fn admits_anew(
        &mut self,
        lane: Lane,
        meta: Metadata,
        callsite: &Registration,
    ) -> (Result<bool, TraceError>, Pass)
        requires usable { S.usable (stack_of self.old) }
        requires known { IsRegisteredAs meta self.old callsite.now }
        ensures rest { ChangesKept self.old self.new }
        ensures registered { KeepsRegistered self.old self.new }
        ensures up_to_date { StaysUpToDate S.Subscriber self.old self.new }
        ensures admitted { Admits S.Subscriber lane meta self.old result.1 result.0 self.new }
        ensures decided { IfOk result.0
            (λ said. Decides S.Subscriber lane meta self.old (said, refusals result.1)) }
        ensures kept { GoesByKept meta false (RefusesMetadata meta self.old) result.0 self.old
            self.new }
    {
        let kept = callsite.interest_in(self.epoch);
        let mut pass = Pass::new();
        let said = self.admits(lane, &meta, kept, &mut pass);
        (said, pass)
    }

    /// Whether a span or an event with this metadata would be made, as far as metadata decide:
    /// neither hint nor interest rules it out, and no layer vetoes it.
    ///
    /// Where its level isn't above the hint, refused where its callsite is cached with other
    /// metadata (`CallsiteMismatch`), and for want of memory where it isn't cached and none is held
    /// for one more; never refused under `uncached`.
    pub fn enabled(&mut self, lane: Lane, meta: &Metadata) -> Result<bool, TraceError>
        requires { S.usable (stack_of self.old) }
        ensures stack { SameStack self.old self.new }
        ensures registered { KeepsRegistered self.old self.new }
        ensures ready { StaysReady S.Subscriber self.old self.new }
        ensures probes { Probes S.Subscriber lane meta.now result self.old self.new }
    {
        let mut pass = Pass::new();
        self.admits(lane, meta, None, &mut pass)
    }

    /// Registers a callsite: the stack is asked for its interest in it, which is cached, unless it
    /// was cached before, the level is above the hint or the dispatcher caches nothing.
    /// `new_span_by` and `event_by` then find it with no search, until the cache is forgotten.
    ///
    /// Refused as `enabled` is.
    pub fn register_callsite(&mut self, meta: &Metadata) -> Result<Registration, TraceError>
        requires { S.usable (stack_of self.old) }
        ensures stack { SameStack self.old self.new }
        ensures registered { KeepsRegistered self.old self.new }
        ensures ready { StaysReady S.Subscriber self.old self.new }
        ensures metadata { IfOk result (λ r. registered_metadata r ≡ meta.now) }
        ensures registers { IfOk result (IsRegistered self.new) }
        ensures learns { LearnsCallsite S.Subscriber meta.now result self.old self.new }
    {
        match self.cache.interest(self.alloc, &self.stack, meta, None) {
            Err(error) => Err(error),
            Ok(_) => Ok(Registration::new(*meta, self.cache.kept(meta), self.epoch)),
        }
    }

    /// Holds memory for so many callsites more: that many that aren't cached yet are then cached
    /// with no need of more. Under `uncached` nothing happens. Where no hint was read yet, it is
    /// read, as by a first request.
    ///
    /// What `reload` and `stack_mut` forget is forgotten with its memory, which is then to be
    /// reserved anew.
    ///
    /// Refused for want of memory alone, where it isn't held already.
    ///
    /// Own to this port.
    pub fn reserve_callsites(&mut self, callsites: usize) -> Result<(), TraceError>
        requires { S.usable (stack_of self.old) }
        ensures stack { SameStack self.old self.new }
        ensures registered { KeepsRegistered self.old self.new }
        ensures ready { StaysReady S.Subscriber self.old self.new }
        ensures reserves { ReservesCallsites S.Subscriber callsites result self.old self.new }
    {
        self.cache.reserve(self.alloc, &self.stack, callsites)
    }

    /// Opens a span with one handle and notifies of it, unless hint or interest rule it out or a
    /// layer vetoes it: then the answer is none, and the stack is unchanged.
    ///
    /// Refused as `enabled` is, else as `Subscriber::new_span` is.
    #[inline(always)]
    pub fn new_span(&mut self, lane: Lane, attrs: &Attributes<'_>) -> Result<Option<Id>, TraceError>
        requires { S.usable (stack_of self.old) }
        ensures usable { S.usable (stack_of self.new) }
        ensures registered { KeepsRegistered self.old self.new }
        ensures ready { StaysReady S.Subscriber self.old self.new }
        ensures opens { OpensSpan S.Subscriber lane attrs.now result self.old self.new }
    {
        let mut pass = Pass::new();
        self.open(lane, attrs, None, &mut pass)
    }

    /// Opens a span as `new_span` does, for a callsite that this dispatcher registered: the
    /// attributes' metadata show the same.
    #[inline(always)]
    pub fn new_span_by(
        &mut self,
        lane: Lane,
        callsite: &Registration,
        attrs: &Attributes<'_>,
    ) -> Result<Option<Id>, TraceError>
        requires usable { S.usable (stack_of self.old) }
        requires known { IsRegistered self.old callsite.now }
        requires same { ShowSame (registered_metadata callsite.now) (metadata_of attrs.now) }
        ensures usable { S.usable (stack_of self.new) }
        ensures registered { KeepsRegistered self.old self.new }
        ensures ready { StaysReady S.Subscriber self.old self.new }
        ensures opens { OpensSpan S.Subscriber lane attrs.now result self.old self.new }
    {
        let mut pass = Pass::new();
        self.open(lane, attrs, Some(callsite), &mut pass)
    }

    /// Opens a span as `new_span` does, with a new pass of the caller's. Where one is made, the
    /// filters that refuse it in the pass are its verdict.
    ///
    /// Own to this port.
    #[inline(always)]
    pub fn new_span_with(
        &mut self,
        lane: Lane,
        attrs: &Attributes<'_>,
        pass: &mut Pass,
    ) -> Result<Option<Id>, TraceError>
        requires usable { S.usable (stack_of self.old) }
        requires fresh { IsEmpty (refusals pass.old) }
        ensures usable { S.usable (stack_of self.new) }
        ensures registered { KeepsRegistered self.old self.new }
        ensures ready { StaysReady S.Subscriber self.old self.new }
        ensures opens { OpensSpanWith S.Subscriber pass.new lane attrs.now result self.old
            self.new }
    {
        self.open(lane, attrs, None, pass)
    }

    /// Opens a span as `new_span_with` does, by a registration if one is given.
    #[inline(always)]
    fn open(
        &mut self,
        lane: Lane,
        attrs: &Attributes<'_>,
        callsite: Option<&Registration>,
        pass: &mut Pass,
    ) -> Result<Option<Id>, TraceError>
        requires usable { S.usable (stack_of self.old) }
        requires known { IfSome callsite (λ r.
            IsRegisteredAs (metadata_of attrs.now) self.old r.now) }
        requires fresh { IsEmpty (refusals pass.old) }
        ensures usable { S.usable (stack_of self.new) }
        ensures registered { KeepsRegistered self.old self.new }
        ensures ready { StaysReady S.Subscriber self.old self.new }
        ensures opens { OpensSpanWith S.Subscriber pass.new lane attrs.now result self.old
            self.new }
    {
        match self.admits_by(lane, attrs.metadata(), callsite, pass) {
            Err(error) => Err(error),
            Ok(false) => Ok(None),
            Ok(true) => match self.stack.new_span(lane, attrs, pass) {
                Ok(id) => Ok(Some(id)),
                Err(error) => Err(error),
            },
        }
    }

    /// Notifies of an event, unless hint or interest rule it out or a layer vetoes it: then the
    /// answer is false. Refused as `enabled` is.
    #[inline(always)]
    pub fn event(&mut self, lane: Lane, event: &Event<'_>) -> Result<bool, TraceError>
        requires { S.usable (stack_of self.old) }
        ensures usable { S.usable (stack_of self.new) }
        ensures registered { KeepsRegistered self.old self.new }
        ensures ready { StaysReady S.Subscriber self.old self.new }
        ensures sends { SendsEvent S.Subscriber lane event.now result self.old self.new }
    {
        self.send(lane, event, None)
    }

    /// Notifies of an event as `event` does, for a callsite that this dispatcher registered: the
    /// event's metadata show the same.
    #[inline(always)]
    pub fn event_by(
        &mut self,
        lane: Lane,
        callsite: &Registration,
        event: &Event<'_>,
    ) -> Result<bool, TraceError>
        requires usable { S.usable (stack_of self.old) }
        requires known { IsRegistered self.old callsite.now }
        requires same { ShowSame (registered_metadata callsite.now) (event_metadata event.now) }
        ensures usable { S.usable (stack_of self.new) }
        ensures registered { KeepsRegistered self.old self.new }
        ensures ready { StaysReady S.Subscriber self.old self.new }
        ensures sends { SendsEvent S.Subscriber lane event.now result self.old self.new }
    {
        self.send(lane, event, Some(callsite))
    }

    /// Notifies of an event as `event` does, by a registration if one is given.
    #[inline(always)]
    fn send(
        &mut self,
        lane: Lane,
        event: &Event<'_>,
        callsite: Option<&Registration>,
    ) -> Result<bool, TraceError>
        requires usable { S.usable (stack_of self.old) }
        requires known { IfSome callsite (λ r.
            IsRegisteredAs (event_metadata event.now) self.old r.now) }
        ensures usable { S.usable (stack_of self.new) }
        ensures registered { KeepsRegistered self.old self.new }
        ensures ready { StaysReady S.Subscriber self.old self.new }
        ensures sends { SendsEvent S.Subscriber lane event.now result self.old self.new }
    {
        let mut pass = Pass::new();
        match self.admits_by(lane, event.metadata(), callsite, &mut pass) {
            Err(error) => Err(error),
            Ok(false) => Ok(false),
            Ok(true) => {
                if !self.stack.event_enabled(lane, event, &mut pass) {
                    return Ok(false);
                }
                self.stack.event(lane, event, &pass);
                Ok(true)
            }
        }
    }

    /// Enters a span, and notifies of that. Refused where it isn't open (`UnknownSpan`), else for
    /// want of memory.
    pub fn enter(&mut self, lane: Lane, id: Id) -> Result<(), TraceError>
        requires { S.usable (stack_of self.old) }
        ensures usable { S.usable (stack_of self.new) }
        ensures ready { StaysReady S.Subscriber self.old self.new }
        ensures enters { EntersSpan S.Subscriber lane id result self.old self.new }
    {
        self.stack.enter(lane, id)
    }

    /// Leaves a span, and notifies of that. Where it isn't open, the lane leaves it and no layer is
    /// notified.
    pub fn exit(&mut self, lane: Lane, id: Id)
        requires { S.usable (stack_of self.old) }
        ensures usable { S.usable (stack_of self.new) }
        ensures ready { StaysReady S.Subscriber self.old self.new }
        ensures exits { ExitsSpan S.Subscriber lane id self.old self.new }
    {
        if self.stack.root().is_open(id) {
            self.stack.exit(lane, id);
            return;
        }
        self.stack.root_mut().exit(lane, id);
    }

    /// Notifies of values that a span was given later. Refused where the span isn't open
    /// (`UnknownSpan`).
    pub fn record(&mut self, lane: Lane, id: Id, values: &Record<'_>) -> Result<(), TraceError>
        requires { S.usable (stack_of self.old) }
        ensures usable { S.usable (stack_of self.new) }
        ensures ready { StaysReady S.Subscriber self.old self.new }
        ensures records { RecordsValues S.Subscriber lane id values.now result self.old self.new }
    {
        if !self.stack.root().is_open(id) {
            return Err(TraceError::UnknownSpan(id));
        }
        self.stack.record(lane, id, values);
        Ok(())
    }

    /// Notifies that the first span follows from the second. Refused where the first isn't open
    /// (`UnknownSpan`).
    pub fn follows_from(&mut self, lane: Lane, id: Id, follows: Id) -> Result<(), TraceError>
        requires { S.usable (stack_of self.old) }
        ensures usable { S.usable (stack_of self.new) }
        ensures ready { StaysReady S.Subscriber self.old self.new }
        ensures follows { FollowsSpan S.Subscriber lane id follows result self.old self.new }
    {
        let registry = self.stack.root();
        if !registry.is_open(id) {
            return Err(TraceError::UnknownSpan(id));
        }
        self.stack.record_follows_from(lane, id, follows);
        Ok(())
    }

    /// Adds a handle to a span, and answers its id. Refused as `Subscriber::clone_span` is.
    pub fn clone_span(&mut self, lane: Lane, id: Id) -> Result<Id, TraceError>
        requires { S.usable (stack_of self.old) }
        ensures usable { S.usable (stack_of self.new) }
        ensures ready { StaysReady S.Subscriber self.old self.new }
        ensures same { IfOk result (λ cloned. cloned ≡ id) }
        ensures clones { ClonesSpan S.Subscriber lane id result self.old self.new }
    {
        self.stack.clone_span(lane, id)
    }

    /// Takes a handle from a span. All that closes by that is taken out, a child before its parent,
    /// and layers are notified of each close before. Answers whether the span closed.
    ///
    /// Refused where the span isn't open (`UnknownSpan`), else where it has no handle (`NoHandle`).
    pub fn drop_span(&mut self, lane: Lane, id: Id) -> Result<bool, TraceError>
        requires { S.usable (stack_of self.old) }
        ensures usable { S.usable (stack_of self.new) }
        ensures ready { StaysReady S.Subscriber self.old self.new }
        ensures drops { DropsOneHandle S.Subscriber lane id result self.old self.new }
    {
        match self.stack.root_mut().release(id) {
            Err(error) => Err(error),
            Ok(Released::StillOpen) => Ok(false),
            Ok(Released::Closing) => {
                close_all(&mut self.stack, lane, id);
                Ok(true)
            }
        }
    }

    /// Has the filter with this number take a setting. The cached hint and interests are forgotten;
    /// open spans keep their verdicts, and no layer is notified.
    ///
    /// Refused where no attached filter has the number, or the one that has it doesn't take
    /// the setting (`NotSettable`).
    ///
    /// Stands for `tracing_subscriber::reload::Handle::reload`.
    pub fn reload(&mut self, number: u32, setting: Setting) -> Result<(), TraceError>
        requires { S.usable (stack_of self.old) }
        ensures usable { S.usable (stack_of self.new) }
        ensures registered { KeepsRegistered self.old self.new }
        ensures ready { StaysReadyWith S.Subscriber (ReloadedForm number) self.old self.new }
        ensures sets { ReloadsFilter S.Subscriber number setting result self.old self.new }
    {
        if !self.stack.reload(number, setting) {
            return Err(TraceError::NotSettable(number));
        }
        Cache::forget(&mut self.cache);
        self.epoch = self.epoch.next();
        Ok(())
    }

    /// The span that a lane is in.
    pub fn current_span(&self, lane: Lane) -> Current
        ensures shown { Shows S.Subscriber lane self.now result }
        ensures served { ServesCurrent S.Subscriber lane result self.now }
    {
        self.stack.current_span(lane)
    }
}

/// Notifies of a closing span and takes it out, and then each parent that closes by that.
fn close_all<S: Subscriber>(stack: &mut S, lane: Lane, id: Id)
    requires usable { S.usable stack.old }
    requires closing { IsClosing (S.registry stack.old).store.spans (number_of id) }
    ensures usable { S.usable stack.new }
    ensures closes { ClosesEach S.registry S.with_registry S.has_form S.stepped S.reloaded lane id
        stack.old stack.new }
{
    let mut next = Some(id);
    while let Some(span) = next {
        stack.close_hooks(lane, span);
        next = stack.root_mut().remove(span);
    }
}

/// The stack, with all its layers put in use.
fn put_in_use<S: Subscriber>(stack: S) -> S
    requires { S.usable stack }
    ensures usable { S.usable result }
    ensures registered { S.registered stack result }
    ensures registry { S.registry result ≡ S.registry stack }
{
    let mut stack = stack;
    stack.on_register_dispatch();
    stack
}
