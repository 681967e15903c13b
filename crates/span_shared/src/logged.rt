//! The accepted requests of a dispatcher, in order, and a dispatcher that keeps them.
ghost use Rattle.std.specs.Prelude.{◌≡◌, ◌<◌, ◌↔◌, [], IsTrue, OnErr, OnOk, IfErr, IfOk, None, Some, false, true, length, slice_get, vec_capacity, vec_len};
ghost use Rattle.span_dispatch.specs.Contract.{ClonesSpan, DropsAll, DropsOneHandle, EntersSpan, ExitsSpan, FollowsSpan, OpensSpan, Probes, RecordsValues, SendsEvent, ReloadsFilter, StaysReady, StaysReadyWith};
ghost use Rattle.span_shared.specs.Journal.{Adds, KeepsJournal, Leaves, Stands, holds_by};
ghost use Rattle.span_shared.specs.Logged.{AddsEntry, AddsNewSpan, Logs, LogsCall, NeverRefused, On, ShowsSpan, answered, current_entry, event_entry};
ghost use Rattle.span_dispatch.specs.Call.{done_answer, event_answer, look_answer, span_answer, yes_answer};
ghost use Rattle.span_dispatch.specs.Serve.{stack_of};
ghost use Rattle.span_store.specs.Closes.{HasNoClosing};
ghost use Rattle.span_store.specs.Store.{IsFresh};
ghost use Rattle.span_targets.specs.Setting.{level_in};
ghost use Rattle.span_registry.specs.Reload.{KeepsRules, ReloadedForm};

use crate::entry::{Entry, EntryWith};
use span_core::{Attributes, Current, Event, Id, Lane, Metadata, Pass, Record, TraceError};
use span_dispatch::{Answer, Call, Dispatch};
use span_registry::Subscriber;
use span_targets::Setting;
use std::alloc::Global;
use std::marker::Model;

/// The accepted requests, in order. Contracts see a journal as the list of its entries.
///
/// Own to this port.
#[derive(Debug)]
pub struct Journal {
    entries: Vec<Entry>,
}

impl Drop for Journal {
    fn drop(self) {
        let Journal { entries } = self;
    }
}

impl Model for Journal {
    ghost use Rattle.std.specs.Prelude.{List};
    ghost use Rattle.span_shared.specs.Journal.{Entry};

    ghost Value = { List Entry };

    ghost view = { λ j. j.entries.items };
}

impl Journal {
    /// A journal without entries.
    fn new(alloc: Global) -> Journal
        ensures { result ≡ [] }
    {
        Journal {
            entries: Vec::new(alloc),
        }
    }

    /// How many entries there are.
    pub fn len(&self) -> u64
        ensures { result ≡ length self.now }
    {
        self.entries.len() as u64
    }

    /// Whether the journal has no entry.
    pub fn is_empty(&self) -> bool
        ensures { IsTrue result ↔ (self.now ≡ []) }
    {
        self.entries.is_empty()
    }

    /// The entry at a place, counted from 0.
    pub fn get(&self, place: u64) -> Option<Entry>
        ensures { result ≡ slice_get self.now place }
    {
        self.entries.as_slice().get(place as usize).copied()
    }

    /// Whether the receipt's entry stands at its place.
    pub fn holds(&self, receipt: &Receipt) -> bool
        ensures same { result ≡ holds_by ⟦<Option<Entry> as PartialEq>⟧.eq self.now receipt.now }
        ensures held { Stands self.now receipt.now → IsTrue result }
    {
        is_same(&self.get(receipt.place), &Some(receipt.entry))
    }
}

/// Equality, which a value has with itself.
fn is_same<T: Eq>(a: &T, b: &T) -> bool
    ensures same { result ≡ T.eq a.now b.now }
    ensures itself { a.now ≡ b.now → IsTrue result }
{
    *a == *b
}

/// An accepted request's place in its journal, and its entry. Only a logged dispatcher makes one.
///
/// Own to this port.
#[derive(Drop, Debug)]
pub struct Receipt {
    place: u64,
    entry: Entry,
}

impl Model for Receipt {
    ghost use Rattle.span_shared.specs.Journal.{Placed};

    ghost Value = { Placed };

    ghost view = { λ r. record { place = r.place; entry = r.entry } };
}

impl Receipt {
    /// The place in the journal, counted from 0.
    pub fn place(&self) -> u64
        ensures { result ≡ self.now.place }
    {
        self.place
    }

    /// The entry.
    pub fn entry(&self) -> Entry
        ensures { result ≡ self.now.entry }
    {
        self.entry
    }
}

/// A dispatcher with its journal. Between calls each entry could have happened after those before
/// it, and all of them leave the dispatcher's store, extensions aside.
///
/// The calls are those of `Dispatch`. One that isn't refused appends its entry, and gives that
/// entry's receipt beside its answer. Each is refused for want of memory for the journal first, and
/// then as `Dispatch` refuses it; a refused call appends nothing.
///
/// Own to this port.
#[derive(Drop)]
pub struct Logged<S: Subscriber> {
    dispatch: Dispatch<S>,
    journal: Journal,
}

impl<S: Subscriber> Model for Logged<S> {
    ghost use Rattle.std.specs.Coded.{codes};
    ghost use Rattle.span_shared.specs.Journal.{KeepsJournal, LoggedState};
    ghost use Rattle.span_dispatch.specs.contracts.cache.Cache as kept;
    ghost use Rattle.span_dispatch.specs.declared.dispatch.Dispatch.{Dispatch};

    ghost Value = { LoggedState (Dispatch S) };

    ghost coded = { Prim.hlevel (codes, kept.the_row.coded) };

    ghost view = { λ l. record { dispatch = l.dispatch; journal = l.journal } };

    ghost invariant = { λ l. KeepsJournal S.registry S.usable l.dispatch l.journal };
}

impl<S: Subscriber> Logged<S> {
    /// A logged dispatcher without entries, over a dispatcher whose registry is fresh.
    pub fn new(alloc: Global, dispatch: Dispatch<S>) -> Logged<S>
        requires usable { S.usable (stack_of dispatch) }
        requires fresh { IsFresh (S.registry (stack_of dispatch)) }
        ensures dispatch { result.dispatch ≡ dispatch }
        ensures journal { result.journal ≡ [] }
    {
        Logged {
            dispatch,
            journal: Journal::new(alloc),
        }
    }

    /// The dispatcher.
    pub fn dispatch(&self) -> &Dispatch<S>
        ensures dispatch { result.now ≡ self.now.dispatch }
        ensures usable { S.usable (stack_of result.now) }
        ensures settled { HasNoClosing (S.registry (stack_of result.now)).store.spans }
    {
        &self.dispatch
    }

    /// The journal.
    pub fn journal(&self) -> &Journal
        ensures journal { result.now ≡ self.now.journal }
        ensures leaves { Leaves self.now.journal (S.registry (stack_of self.now.dispatch)).store }
    {
        &self.journal
    }

    // What is kept between calls.
    pub(crate) fn stands(&self)
        ensures { KeepsJournal S.registry S.usable self.now.dispatch self.now.journal }
    {
        let Logged { dispatch, journal } = self;
    }

    /// The dispatcher and the journal.
    pub fn into_parts(self) -> (Dispatch<S>, Journal)
        ensures dispatch { result.0 ≡ self.dispatch }
        ensures journal { result.1 ≡ self.journal }
        ensures usable { S.usable (stack_of result.0) }
        ensures leaves { Leaves result.1 (S.registry (stack_of result.0)).store }
        ensures settled { HasNoClosing (S.registry (stack_of result.0)).store.spans }
    {
        let Logged { dispatch, journal } = self;
        (dispatch, journal)
    }

    /// Asks as `Dispatch::enabled` does.
    #[inline(always)]
    pub fn enabled(&mut self, lane: Lane, meta: &Metadata) -> Result<(bool, Receipt), TraceError>
        ensures ready { On (StaysReady S.Subscriber) self.old self.new }
        ensures logs { Logs (Probes S.Subscriber lane meta.now)
            (AddsEntry (EntryWith.Probe lane meta.now)) result self.old self.new }
    {
        let Logged { dispatch, journal } = self;
        let Journal { entries } = journal;
        entries.reserve(1)?;
        let given = dispatch.enabled(lane, meta)?;
        let receipt = noted(entries, Entry::Probe(lane, *meta, given));
        Ok((given, receipt))
    }

    /// Opens a span as `Dispatch::new_span` does.
    #[inline(always)]
    pub fn new_span(
        &mut self,
        lane: Lane,
        attrs: &Attributes<'_>,
    ) -> Result<(Option<Id>, Receipt), TraceError>
        ensures ready { On (StaysReady S.Subscriber) self.old self.new }
        ensures logs { Logs (OpensSpan S.Subscriber lane attrs.now)
            (AddsNewSpan S.Subscriber lane attrs.now) result self.old self.new }
    {
        let Logged { dispatch, journal } = self;
        let Journal { entries } = journal;
        entries.reserve(1)?;
        let mut pass = Pass::new();
        let Some(id) = dispatch.new_span_with(lane, attrs, &mut pass)? else {
            let receipt = noted(entries, Entry::Unmade(lane, attrs.metadata()));
            return Ok((None, receipt));
        };
        let entry = Entry::New {
            lane,
            metadata: attrs.metadata(),
            parent: attrs.asked_parent(),
            verdict: pass.refused(),
            id,
        };
        let receipt = noted(entries, entry);
        Ok((Some(id), receipt))
    }

    /// Notifies of an event as `Dispatch::event` does.
    #[inline(always)]
    pub fn event(&mut self, lane: Lane, event: &Event<'_>) -> Result<(bool, Receipt), TraceError>
        ensures ready { On (StaysReady S.Subscriber) self.old self.new }
        ensures logs { Logs (SendsEvent S.Subscriber lane event.now)
            (AddsEntry (event_entry lane event.now)) result self.old self.new }
    {
        let Logged { dispatch, journal } = self;
        let Journal { entries } = journal;
        entries.reserve(1)?;
        let made = dispatch.event(lane, event)?;
        let entry = Entry::Event {
            lane,
            metadata: event.metadata(),
            parent: event.asked_parent(),
            made,
        };
        let receipt = noted(entries, entry);
        Ok((made, receipt))
    }

    /// Enters a span as `Dispatch::enter` does.
    #[inline(always)]
    pub fn enter(&mut self, lane: Lane, id: Id) -> Result<((), Receipt), TraceError>
        ensures ready { On (StaysReady S.Subscriber) self.old self.new }
        ensures logs { Logs (EntersSpan S.Subscriber lane id)
            (AddsEntry (λ _. EntryWith.Enter lane id)) result self.old self.new }
    {
        let Logged { dispatch, journal } = self;
        let Journal { entries } = journal;
        entries.reserve(1)?;
        dispatch.enter(lane, id)?;
        let receipt = noted(entries, Entry::Enter(lane, id));
        Ok(((), receipt))
    }

    /// Leaves a span as `Dispatch::exit` does.
    #[inline(always)]
    pub fn exit(&mut self, lane: Lane, id: Id) -> Result<((), Receipt), TraceError>
        ensures ready { On (StaysReady S.Subscriber) self.old self.new }
        ensures logs { Logs (NeverRefused (λ _. ExitsSpan S.Subscriber lane id))
            (AddsEntry (λ _. EntryWith.Exit lane id)) result self.old self.new }
    {
        let Logged { dispatch, journal } = self;
        let Journal { entries } = journal;
        entries.reserve(1)?;
        dispatch.exit(lane, id);
        let receipt = noted(entries, Entry::Exit(lane, id));
        Ok(((), receipt))
    }

    /// Notifies of values as `Dispatch::record` does.
    pub fn record(
        &mut self,
        lane: Lane,
        id: Id,
        values: &Record<'_>,
    ) -> Result<((), Receipt), TraceError>
        ensures ready { On (StaysReady S.Subscriber) self.old self.new }
        ensures logs { Logs (RecordsValues S.Subscriber lane id values.now)
            (AddsEntry (λ _. EntryWith.Record lane id)) result self.old self.new }
    {
        let Logged { dispatch, journal } = self;
        let Journal { entries } = journal;
        entries.reserve(1)?;
        dispatch.record(lane, id, values)?;
        let receipt = noted(entries, Entry::Record(lane, id));
        Ok(((), receipt))
    }

    /// Notifies that a span follows from another as `Dispatch::follows_from` does.
    pub fn follows_from(
        &mut self,
        lane: Lane,
        id: Id,
        follows: Id,
    ) -> Result<((), Receipt), TraceError>
        ensures ready { On (StaysReady S.Subscriber) self.old self.new }
        ensures logs { Logs (FollowsSpan S.Subscriber lane id follows)
            (AddsEntry (λ _. EntryWith.Follows lane id follows)) result self.old self.new }
    {
        let Logged { dispatch, journal } = self;
        let Journal { entries } = journal;
        entries.reserve(1)?;
        dispatch.follows_from(lane, id, follows)?;
        let receipt = noted(entries, Entry::Follows(lane, id, follows));
        Ok(((), receipt))
    }

    /// Adds a handle as `Dispatch::clone_span` does.
    pub fn clone_span(&mut self, lane: Lane, id: Id) -> Result<(Id, Receipt), TraceError>
        ensures ready { On (StaysReady S.Subscriber) self.old self.new }
        ensures same { IfOk result (λ r. r.0 ≡ id) }
        ensures logs { Logs (ClonesSpan S.Subscriber lane id)
            (AddsEntry (λ _. EntryWith.Clone lane id)) result self.old self.new }
    {
        let Logged { dispatch, journal } = self;
        let Journal { entries } = journal;
        entries.reserve(1)?;
        let given = dispatch.clone_span(lane, id)?;
        let receipt = noted(entries, Entry::Clone(lane, id));
        Ok((given, receipt))
    }

    /// Takes a handle from a span as `Dispatch::drop_span` does.
    #[inline(always)]
    pub fn drop_span(&mut self, lane: Lane, id: Id) -> Result<(bool, Receipt), TraceError>
        ensures ready { On (StaysReady S.Subscriber) self.old self.new }
        ensures logs { Logs (DropsOneHandle S.Subscriber lane id)
            (AddsEntry (EntryWith.Drop lane id)) result self.old self.new }
        ensures all { IfOk result
            (λ r. DropsAll S.Subscriber id self.old.dispatch self.new.dispatch r.0) }
    {
        let Logged { dispatch, journal } = self;
        let Journal { entries } = journal;
        entries.reserve(1)?;
        let given = dispatch.drop_span(lane, id)?;
        let receipt = noted(entries, Entry::Drop(lane, id, given));
        Ok((given, receipt))
    }

    /// Reloads a filter as `Dispatch::reload` does. The lane stands in the entry alone.
    pub fn reload(
        &mut self,
        lane: Lane,
        number: u32,
        setting: Setting,
    ) -> Result<((), Receipt), TraceError>
        ensures ready { On (StaysReadyWith S.Subscriber (ReloadedForm number)) self.old self.new }
        ensures logs { Logs (ReloadsFilter S.Subscriber number setting)
            (AddsEntry (λ _. EntryWith.Reload lane number (level_in setting)))
            result self.old self.new }
    {
        let Logged { dispatch, journal } = self;
        let Journal { entries } = journal;
        entries.reserve(1)?;
        dispatch.reload(number, setting)?;
        let receipt = noted(entries, Entry::Reload(lane, number, setting.level()));
        Ok(((), receipt))
    }

    /// The span that a lane is in, as `Dispatch::current_span` shows it.
    pub fn current_span(&mut self, lane: Lane) -> Result<(Current, Receipt), TraceError>
        ensures dispatch { self.new.dispatch ≡ self.old.dispatch }
        ensures logs { Logs (NeverRefused (ShowsSpan S.Subscriber lane))
            (AddsEntry (current_entry lane)) result self.old self.new }
    {
        let Logged { dispatch, journal } = self;
        let Journal { entries } = journal;
        entries.reserve(1)?;
        let given = dispatch.current_span(lane);
        let receipt = noted(entries, Entry::Current(lane, given.id()));
        Ok((given, receipt))
    }

    /// Serves a call from a lane, whichever lane the call names, as the method of its kind does.
    ///
    /// Own to this port.
    pub fn ask(&mut self, lane: Lane, call: &Call<'_>) -> Result<(Answer, Receipt), TraceError>
        ensures ready { On (StaysReadyWith S.Subscriber KeepsRules) self.old self.new }
        ensures logs { LogsCall S.Subscriber lane call.now result self.old self.new }
    {
        match call {
            Call::OpenSpan(_, attributes) => span_answered(self.new_span(lane, attributes)),
            Call::SendEvent(_, event) => event_answered(self.event(lane, event)),
            Call::Enter(_, id) => done_answered(self.enter(lane, *id)),
            Call::Exit(_, id) => done_answered(self.exit(lane, *id)),
            Call::RecordValues(_, id, values) => done_answered(self.record(lane, *id, values)),
            Call::Follow(_, id, other) => done_answered(self.follows_from(lane, *id, *other)),
            Call::AddHandle(_, id) => done_answered(self.clone_span(lane, *id)),
            Call::DropHandle(_, id) => yes_answered(self.drop_span(lane, *id)),
            Call::Probe(_, metadata) => yes_answered(self.enabled(lane, metadata)),
            Call::AskCurrent(_) => look_answered(self.current_span(lane)),
            Call::Reload(number, setting) => done_answered(self.reload(lane, *number, *setting)),
        }
    }
}

/// The answer for what opening a span gave, with the same receipt.
fn span_answered(
    given: Result<(Option<Id>, Receipt), TraceError>,
) -> Result<(Answer, Receipt), TraceError>
    ensures { result ≡ answered span_answer given }
{
    match given {
        Ok((made, receipt)) => Ok((Answer::of_span(Ok(made)), receipt)),
        Err(error) => Err(error),
    }
}

/// The answer for what sending an event gave, with the same receipt.
fn event_answered(
    given: Result<(bool, Receipt), TraceError>,
) -> Result<(Answer, Receipt), TraceError>
    ensures { result ≡ answered event_answer given }
{
    match given {
        Ok((made, receipt)) => Ok((Answer::of_event(Ok(made)), receipt)),
        Err(error) => Err(error),
    }
}

/// The answer for what gives nothing but a refusal, with the same receipt.
fn done_answered<A: Copy>(
    given: Result<(A, Receipt), TraceError>,
) -> Result<(Answer, Receipt), TraceError>
    ensures { result ≡ answered done_answer given }
{
    match given {
        Ok((_, receipt)) => Ok((Answer::Done, receipt)),
        Err(error) => Err(error),
    }
}

/// The answer for what gives a truth value, with the same receipt.
fn yes_answered(given: Result<(bool, Receipt), TraceError>) -> Result<(Answer, Receipt), TraceError>
    ensures { result ≡ answered yes_answer given }
{
    match given {
        Ok((said, receipt)) => Ok((Answer::Yes(said), receipt)),
        Err(error) => Err(error),
    }
}

/// The answer for a look at a lane's span, with the same receipt.
fn look_answered(
    given: Result<(Current, Receipt), TraceError>,
) -> Result<(Answer, Receipt), TraceError>
    ensures { result ≡ answered look_answer given }
{
    match given {
        Ok((current, receipt)) => Ok((Answer::of_current(current), receipt)),
        Err(error) => Err(error),
    }
}

/// Appends an entry, where there is room for one more, and gives its receipt.
#[inline(always)]
fn noted(entries: &mut Vec<Entry>, entry: Entry) -> Receipt
    requires { vec_len entries.old < vec_capacity entries.old }
    ensures { Adds entry entries.old.items result entries.new.items }
{
    let place = entries.len() as u64;
    entries.push_reserved(entry);
    Receipt { place, entry }
}
