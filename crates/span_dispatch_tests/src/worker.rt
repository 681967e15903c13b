//! Tests of workers: two lanes that meet, the entry of each request, and the values that a layer is
//! handed.
ghost use Rattle.span_dispatch.specs.Serve.{stack_of};
ghost use Rattle.span_stacks.specs.Layered.{inner_of, outer_of};
ghost use Rattle.span_store.specs.Store.{IsFresh};
ghost use Rattle.std.specs.Prelude.{◌≡◌, ◌-◌, ◌<◌, ◌^◌, ⊤, IfOk};

use crate::requests::UnderOne;
use span_core::{
    Attributes, Event, FieldValue, Id, Kind, Lane, Level, LevelFilter, Metadata, Parent, Pass,
    Record,
};
use span_dispatch::{Dispatch, Recorder};
use span_layer_tests::fixture::{LANE, metadata_of};
use span_layers::{Layer, Observe, Observer};
use span_registry::{ContextMut, Notice, Registry, Subscriber};
use span_shared::{Crew, Entry, Journal, Logged, Receipt, Shared, Unfinished, Worker};
use span_stacks::{LayerExt, Layered, SubscriberExt};
use span_targets::Setting;
use std::alloc::Global;
use std::marker::Brand;
use std::process::Abort;
use std::sync::Wait;
use std::sync::ledger::Blank;
use std::test::Fail;
use std::thread;
use std::thread::Threads;

/// How often a lane looks for the other's entry.
const TURNS: u32 = 1_000_000;

/// The callsite of all spans.
fn span_metadata() -> Metadata {
    metadata_of(0, Level::INFO, Kind::SPAN)
}

/// The callsite of all events.
fn event_metadata() -> Metadata {
    metadata_of(1, Level::INFO, Kind::EVENT)
}

/// What a lane brings back: its worker, its receipt, whether its own entry stood at the receipt's
/// place, and whether it saw the other lane's.
#[derive(Drop)]
struct Met<L: Crew> {
    worker: Worker<L>,
    receipt: Option<Receipt>,
    own: bool,
    seen: bool,
}

/// The receipt's entry stands at its place, and the journal is longer than that.
fn stands<S: Subscriber, L: Crew>(
    rt: &impl Wait,
    shared: &Shared<S, L>,
    receipt: &Receipt,
) -> bool {
    let found = shared.entry(rt, receipt.place());
    found == Some(receipt.entry()) && receipt.place() < shared.len(rt)
}

/// Reads entries until another lane's is seen.
fn sees_another<S: Subscriber, L: Crew>(rt: &impl Wait, shared: &Shared<S, L>, mine: Lane) -> bool {
    let mut place = 0u64;
    for _ in 0..TURNS {
        match shared.entry(rt, place) {
            Some(Entry::New { lane, .. }) if lane != mine => return true,
            Some(_) => place = place.wrapping_add(1),
            None => thread::yield_now(),
        }
    }
    false
}

/// Makes a span, and waits to see the other lane's.
fn meet<S: Subscriber, L: Crew>(
    rt: &impl Wait,
    shared: &Shared<S, L>,
    worker: Worker<L>,
) -> Met<L> {
    let mut worker = worker;
    let mut receipt = None;
    if worker.calls() < u64::MAX {
        let attrs = Attributes::new(span_metadata(), &[]);
        if let Ok((_, given)) = shared.new_span(rt, &mut worker, &attrs) {
            receipt = Some(given);
        }
    }
    let own = match &receipt {
        Some(given) => stands(rt, shared, given),
        None => false,
    };
    let seen = sees_another(rt, shared, worker.lane());
    Met {
        worker,
        receipt,
        own,
        seen,
    }
}

/// Two lanes in two threads.
fn in_two_threads<S: Subscriber + Send, L: Crew + Send + Sync, R: Threads + Wait + Sync>(
    rt: &R,
    shared: &Shared<S, L>,
    first: Worker<L>,
    second: Worker<L>,
) -> Result<(Met<L>, Met<L>), Fail> {
    thread::scope(
        thread::scope_env(),
        rt,
        move |scope| -> Result<(Met<L>, Met<L>), Fail> {
            let one = scope.spawn(move || meet(rt, shared, first))?;
            let other = scope.spawn(move || meet(rt, shared, second))?;
            Ok((one.join(rt), other.join(rt)))
        },
    )
}

/// With one worker missing everything comes back.
fn one_missing<S: Subscriber + Drop, L: Crew>(
    alloc: Global,
    shared: Shared<S, L>,
    worker: Worker<L>,
) -> Result<Unfinished<S, L>, Fail> {
    let mut workers = Vec::with_capacity(alloc, 2)?;
    workers.push(worker)?;
    match shared.finish(workers) {
        Ok(_) => Err("a worker is missing".into()),
        Err(unfinished) => Ok(unfinished),
    }
}

/// With all workers the receiver is taken apart.
fn finished<S: Subscriber + Drop, L: Crew>(
    shared: Shared<S, L>,
    workers: Vec<Worker<L>>,
) -> Result<(Dispatch<S>, Journal), Fail> {
    match shared.finish(workers) {
        Ok(parts) => Ok(parts),
        Err(_) => Err("no worker is missing".into()),
    }
}

/// The first worker is handed in alone, and then both are.
fn one_then_both<S: Subscriber + Drop, L: Crew>(
    alloc: Global,
    shared: Shared<S, L>,
    first: Worker<L>,
    second: Worker<L>,
) -> Result<Journal, Fail> {
    let Unfinished {
        shared,
        mut workers,
    } = one_missing(alloc, shared, first)?;
    workers.push(second)?;
    let (_, journal) = finished(shared, workers)?;
    Ok(journal)
}

/// Two workers of a receiver meet.
fn both_meet<S: Subscriber + Send, L: Crew + Send + Sync, R: Threads + Wait + Sync>(
    rt: &R,
    shared: &Shared<S, L>,
    workers: Vec<Worker<L>>,
) -> Result<(Met<L>, Met<L>), Fail> {
    let mut workers = workers;
    let (Some(second), Some(first)) = (workers.pop(), workers.pop()) else {
        return Err("two workers".into());
    };
    in_two_threads(rt, shared, first, second)
}

/// Each saw its own entry and the other's, on lanes that follow each other, and has no hint.
fn assert_met<L: Crew>(rt: &impl Abort, one: &Met<L>, other: &Met<L>) {
    assert!(rt; one.own && one.seen);
    assert!(rt; other.own && other.seen);
    assert!(rt; (one.worker.lane(), other.worker.lane()) == (Lane(0), Lane(1)));
    assert!(rt; one.worker.passes_hint(Level::TRACE) && other.worker.passes_hint(Level::TRACE));
}

/// The entry of a lane's new span at this place of a journal of new spans: their ids count from 1.
fn new_span_at(place: u64, lane: Lane) -> Entry {
    Entry::New {
        lane,
        metadata: span_metadata(),
        parent: Parent::Contextual,
        verdict: Pass::new().refused(),
        id: Id::from_u64(place.wrapping_add(1)),
    }
}

/// A journal of two calls holds the receipts of lanes 0 and 1, each with the entry that is due at
/// its place.
fn assert_held(
    rt: &impl Abort,
    journal: &Journal,
    calls: u64,
    receipts: [Option<Receipt>; 2],
) -> Result<(), Fail> {
    assert!(rt; (calls, journal.len()) == (2, 2));
    let mut lane = 0;
    for receipt in receipts {
        let receipt = receipt.ok_or("a receipt")?;
        assert!(rt; journal.holds(&receipt));
        assert!(rt; journal.get(receipt.place()) == Some(new_span_at(receipt.place(), Lane(lane))));
        lane = 1;
    }
    Ok(())
}

/// Two workers meet, and their receipts are held.
fn meet_and_finish<S, L, R>(
    rt: &R,
    alloc: Global,
    shared: Shared<S, L>,
    workers: Vec<Worker<L>>,
) -> Result<(), Fail>
where
    S: Subscriber + Send + Drop,
    L: Crew + Send + Sync,
    R: Threads + Wait + Abort + Sync,
{
    let (one, other) = both_meet(rt, &shared, workers)?;
    assert_met(rt, &one, &other);
    let calls = one.worker.calls().wrapping_add(other.worker.calls());
    let receipts = [one.receipt, other.receipt];
    let journal = one_then_both(alloc, shared, one.worker, other.worker)?;
    assert_held(rt, &journal, calls, receipts)
}

/// Two workers share a dispatcher.
fn two_meet<S, L, R>(rt: &R, alloc: Global, blank: Blank, stack: S) -> Result<(), Fail>
where
    S: Subscriber + Send + Drop,
    L: Crew + Send + Sync,
    R: Threads + Wait + Abort + Sync,
    requires name { blank.name ≡ L.name }
    requires parts { (blank.parts ≡ L.parts) × (L.parts ≡ 2) × (L.workers ≡ 2) }
    requires usable { S.usable stack }
    requires fresh { IsFresh (S.registry stack) }
{
    let (book, all) = blank.open::<L>();
    match Shared::new(alloc, book, all, Dispatch::new(alloc, stack), 2) {
        Ok((shared, workers)) => meet_and_finish(rt, alloc, shared, workers),
        Err(_) => Err("no memory".into()),
    }
}

#[test]
fn both_lanes_meet(rt: HostRuntime) -> Result<(), Fail> {
    let registry = Registry::new(rt.alloc());
    two_meet::<Registry, Brand, HostRuntime>(&rt, rt.alloc(), Blank::new(2), registry)
}

/// Opens a root span.
fn open<S: Subscriber>(logged: &mut Logged<S>) -> Result<Id, Fail> {
    match logged.new_span(LANE, &Attributes::new_root(span_metadata(), &[]))? {
        (Some(id), _) => Ok(id),
        (None, _) => Err("no span".into()),
    }
}

/// Each request once. A level is set that rules out the last span, and one span is left after it
/// was closed.
fn make_each<S: Subscriber>(logged: &mut Logged<S>) -> Result<(Id, Id), Fail> {
    logged.enabled(LANE, &event_metadata())?;
    let (p, q) = (open(logged)?, open(logged)?);
    logged.enter(LANE, p)?;
    logged.enter(LANE, q)?;
    logged.record(LANE, p, &Record::new(&[]))?;
    logged.follows_from(LANE, p, q)?;
    logged.clone_span(LANE, p)?;
    logged.drop_span(LANE, p)?;
    logged.event(LANE, &Event::new(event_metadata(), &[]))?;
    logged.drop_span(LANE, q)?;
    logged.current_span(LANE)?;
    logged.exit(LANE, q)?;
    logged.current_span(LANE)?;
    logged.reload(LANE, 0, Setting::Level(LevelFilter::WARN))?;
    logged.new_span(LANE, &Attributes::new(span_metadata(), &[]))?;
    Ok((p, q))
}

/// The entries that these requests leave.
fn entries_of(p: Id, q: Id) -> [Entry; 16] {
    let (span, event) = (span_metadata(), event_metadata());
    let passed = Pass::new().refused();
    [
        Entry::Probe(LANE, event, true),
        Entry::New {
            lane: LANE,
            metadata: span,
            parent: Parent::Root,
            verdict: passed,
            id: p,
        },
        Entry::New {
            lane: LANE,
            metadata: span,
            parent: Parent::Root,
            verdict: passed,
            id: q,
        },
        Entry::Enter(LANE, p),
        Entry::Enter(LANE, q),
        Entry::Record(LANE, p),
        Entry::Follows(LANE, p, q),
        Entry::Clone(LANE, p),
        Entry::Drop(LANE, p, false),
        Entry::Event {
            lane: LANE,
            metadata: event,
            parent: Parent::Contextual,
            made: true,
        },
        Entry::Drop(LANE, q, true),
        Entry::Current(LANE, None),
        Entry::Exit(LANE, q),
        Entry::Current(LANE, Some(p)),
        Entry::Reload(LANE, 0, Some(LevelFilter::WARN)),
        Entry::Unmade(LANE, span),
    ]
}

/// Makes each request of a receiver whose journal is empty.
fn make_first<S: Subscriber>(rt: &impl Abort, logged: &mut Logged<S>) -> Result<(Id, Id), Fail> {
    assert!(rt; logged.journal().is_empty());
    make_each(logged)
}

/// A journal has these entries alone, in order.
fn assert_entries(rt: &impl Abort, journal: &Journal, entries: &[Entry]) {
    assert!(rt; journal.len() == entries.len() as u64);
    for (place, entry) in entries.iter().enumerate() {
        assert!(rt; journal.get(place as u64) == Some(*entry));
    }
}

/// A receiver's journal, once each request was made of it.
fn journal_of<S: Subscriber + Drop>(rt: &impl Abort, alloc: Global, stack: S) -> Result<(), Fail>
    requires usable { S.usable stack }
    requires fresh { IsFresh (S.registry stack) }
{
    let mut logged = Logged::new(alloc, Dispatch::new(alloc, stack));
    let (p, q) = make_first(rt, &mut logged)?;
    let (_, journal) = logged.into_parts();
    assert_entries(rt, &journal, &entries_of(p, q));
    Ok(())
}

/// A layer on a stack with a fresh registry.
fn put<S: Subscriber + Drop, L: Layer<S> + Drop>(stack: S, layer: L) -> Result<Layered<L, S>, Fail>
    requires layer { L.usable layer }
    requires stack { S.usable stack }
    requires fresh { IsFresh (S.registry stack) }
    ensures layer { IfOk result (λ made. L.usable (outer_of made)) }
    ensures stack { IfOk result (λ made. S.usable (inner_of made)) }
    ensures fresh { IfOk result (λ made. IsFresh (S.registry (inner_of made))) }
{
    match stack.with(layer) {
        Ok(made) => Ok(made),
        Err(_) => Err("no room for a filter".into()),
    }
}

/// The journal of such a stack with a recorder under a level.
fn journal_under_info<S: Subscriber + Drop>(
    rt: &impl Abort,
    alloc: Global,
    stack: S,
) -> Result<(), Fail>
    requires usable { S.usable stack }
    requires fresh { IsFresh (S.registry stack) }
{
    let layer = Recorder::new(alloc).with_filter(LevelFilter::INFO);
    journal_of(rt, alloc, put(stack, layer)?)
}

#[test]
fn each_request_adds_its_entry(rt: HostRuntime) -> Result<(), Fail> {
    journal_under_info(&rt, rt.alloc(), Registry::new(rt.alloc()))
}

/// A worker's hint passes warn, info and debug, or not.
fn passed<L: Crew>(worker: &Worker<L>) -> [bool; 3] {
    [
        worker.passes_hint(Level::WARN),
        worker.passes_hint(Level::INFO),
        worker.passes_hint(Level::DEBUG),
    ]
}

/// A worker under INFO goes on with that hint once the level is DEBUG, and once it is WARN, though
/// a debug event is made while it is DEBUG, and an info event isn't while it is WARN.
fn goes_on_with_its_hint<S: Subscriber, L: Crew>(
    rt: &(impl Abort + Wait),
    shared: &Shared<S, L>,
    worker: &mut Worker<L>,
) -> Result<(), Fail>
    requires { worker.old.calls < 2 ^ 64 - 4 }
{
    let debug = Event::new(metadata_of(2, Level::DEBUG, Kind::EVENT), &[]);
    let info = Event::new(event_metadata(), &[]);
    assert!(rt; passed(worker) == [true, true, false]);
    shared.reload(rt, worker, 0, Setting::Level(LevelFilter::DEBUG))?;
    assert!(rt; passed(worker) == [true, true, false]);
    assert!(rt; shared.event(rt, worker, &debug)?.0);
    shared.reload(rt, worker, 0, Setting::Level(LevelFilter::WARN))?;
    assert!(rt; passed(worker) == [true, true, false]);
    assert!(rt; !shared.event(rt, worker, &info)?.0);
    Ok(())
}

/// A new worker goes on with its hint.
fn a_new_one_goes_on<S: Subscriber, L: Crew>(
    rt: &(impl Abort + Wait),
    shared: &Shared<S, L>,
    workers: Vec<Worker<L>>,
) -> Result<(), Fail> {
    let mut workers = workers;
    let mut worker = workers.pop().ok_or("a worker")?;
    if worker.calls() > 0 {
        return Err("a new worker".into());
    }
    goes_on_with_its_hint(rt, shared, &mut worker)
}

/// The one worker of a stack under INFO goes on with its hint.
fn one_goes_on<S: Subscriber + Drop, L: Crew>(
    rt: &(impl Abort + Wait),
    alloc: Global,
    blank: Blank,
    stack: S,
) -> Result<(), Fail>
    requires name { blank.name ≡ L.name }
    requires parts { (blank.parts ≡ L.parts) × (L.parts ≡ 1) × (L.workers ≡ 1) }
    requires usable { S.usable stack }
    requires fresh { IsFresh (S.registry stack) }
{
    let (book, all) = blank.open::<L>();
    match Shared::new(alloc, book, all, Dispatch::new(alloc, stack), 1) {
        Ok((shared, workers)) => a_new_one_goes_on(rt, &shared, workers),
        Err(_) => Err("no memory".into()),
    }
}

/// Puts a recorder under INFO on a stack, whose one worker goes on with its hint.
fn one_goes_on_under_info<S: Subscriber + Drop>(
    rt: &(impl Abort + Wait),
    alloc: Global,
    stack: S,
) -> Result<(), Fail>
    requires usable { S.usable stack }
    requires fresh { IsFresh (S.registry stack) }
{
    let stack = put(stack, Recorder::new(alloc).with_filter(LevelFilter::INFO))?;
    one_goes_on::<Layered<UnderOne, S>, Brand>(rt, alloc, Blank::new(1), stack)
}

#[test]
fn a_worker_goes_on_with_its_hint(rt: HostRuntime) -> Result<(), Fail> {
    one_goes_on_under_info(&rt, rt.alloc(), Registry::new(rt.alloc()))
}

/// A layer that keeps the first number that a new span was given, and the first that was recorded
/// of it.
#[derive(Drop)]
struct Numbers {
    made: Option<u64>,
    recorded: Option<u64>,
}

impl<S: Subscriber> Observe<S> for Numbers {
    ghost observed = { λ x e lane under v y w. ⊤ };

    fn observe(&mut self, notice: Notice<'_, '_>, _ctx: &mut ContextMut<'_, S>) {
        match notice {
            Notice::NewSpan(attrs, _) => self.made = number_in(attrs.values()),
            Notice::Record(_, record) => self.recorded = number_in(record.values()),
            _ => {}
        }
    }
}

/// The first number among these values.
fn number_in(values: &[(&'static str, FieldValue<'_>)]) -> Option<u64> {
    match values.first() {
        Some((_, FieldValue::U64(number))) => Some(*number),
        _ => None,
    }
}

/// Opens a span with a value, records another of it, and enters it: then it is the current one.
fn hand_in<S: Subscriber, L: Crew>(
    rt: &impl Wait,
    shared: &Shared<S, L>,
    worker: &mut Worker<L>,
) -> Result<(), Fail>
    requires { worker.old.calls < 2 ^ 64 - 4 }
{
    let seven = [("number", FieldValue::U64(7))];
    let nine = [("number", FieldValue::U64(9))];
    let (made, _) = shared.new_span(rt, worker, &Attributes::new(span_metadata(), &seven))?;
    let id = made.ok_or("a span")?;
    shared.record(rt, worker, id, &Record::new(&nine))?;
    shared.enter(rt, worker, id)?;
    let (current, _) = shared.current_span(rt, worker)?;
    if current.metadata() != Some(span_metadata()) {
        return Err("the span that the lane is in".into());
    }
    Ok(())
}

/// A new worker hands values in, and comes back.
fn handed_by_new<S: Subscriber, L: Crew>(
    rt: &impl Wait,
    shared: &Shared<S, L>,
    workers: Vec<Worker<L>>,
) -> Result<Vec<Worker<L>>, Fail> {
    let mut workers = workers;
    let mut worker = workers.pop().ok_or("a worker")?;
    if worker.calls() > 0 {
        return Err("a new worker".into());
    }
    hand_in(rt, shared, &mut worker)?;
    workers.push(worker)?;
    Ok(workers)
}

/// One worker hands values in. Answers the dispatcher.
fn handed_in<S: Subscriber + Drop, L: Crew>(
    rt: &impl Wait,
    alloc: Global,
    blank: Blank,
    stack: S,
) -> Result<Dispatch<S>, Fail>
    requires name { blank.name ≡ L.name }
    requires parts { (blank.parts ≡ L.parts) × (L.parts ≡ 1) × (L.workers ≡ 1) }
    requires usable { S.usable stack }
    requires fresh { IsFresh (S.registry stack) }
{
    let (book, all) = blank.open::<L>();
    match Shared::new(alloc, book, all, Dispatch::new(alloc, stack), 1) {
        Ok((shared, workers)) => {
            let workers = handed_by_new(rt, &shared, workers)?;
            Ok(finished(shared, workers)?.0)
        }
        Err(_) => Err("no memory".into()),
    }
}

/// The numbers that such a layer outermost keeps.
fn numbers_kept<S: Subscriber>(
    dispatch: &Dispatch<Layered<Observer<Numbers>, S>>,
) -> (Option<u64>, Option<u64>) {
    let numbers = dispatch.stack().outer().observer();
    (numbers.made, numbers.recorded)
}

/// Puts such a layer on a stack. Answers the numbers that it was handed.
fn numbers_handed<S: Subscriber + Drop, L: Crew>(
    rt: &impl Wait,
    alloc: Global,
    blank: Blank,
    stack: S,
) -> Result<(Option<u64>, Option<u64>), Fail>
    requires name { blank.name ≡ L.name }
    requires parts { (blank.parts ≡ L.parts) × (L.parts ≡ 1) × (L.workers ≡ 1) }
    requires usable { S.usable stack }
    requires fresh { IsFresh (S.registry stack) }
{
    let layer = Observer::new(Numbers {
        made: None,
        recorded: None,
    });
    let stack = put(stack, layer)?;
    let dispatch = handed_in::<Layered<Observer<Numbers>, S>, L>(rt, alloc, blank, stack)?;
    Ok(numbers_kept(&dispatch))
}

#[test]
fn a_layer_is_handed_the_values(rt: HostRuntime) -> Result<(), Fail> {
    let registry = Registry::new(rt.alloc());
    let numbers = numbers_handed::<Registry, Brand>(&rt, rt.alloc(), Blank::new(1), registry)?;
    assert!(rt; numbers == (Some(7), Some(9)));
    Ok(())
}
