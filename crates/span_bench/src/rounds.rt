//! The rounds of each workload of one thread. A round that isn't done in full ends the run.
ghost use Rattle.std.specs.Prelude.{◌≡◌, ◌+◌, ◌-◌, ◌<◌, ◌≤◌, IfOk, OnOk, Some, length, slice_get};
ghost use Rattle.span_bench.specs.Rounds.{AreRegistered, IsDepth, value_in};
ghost use Rattle.span_dispatch.specs.Serve.{stack_of};
ghost use Rattle.span_registry.specs.Subscriber.{SameButExtensions};

use crate::fault::Fault;
use crate::site;
use span_core::{Attributes, Event, Id, Kind, Lane, Metadata};
use span_dispatch::{Dispatch, Registration};
use span_registry::{ExtensionValue, LookupSpan, Registry, Subscriber, Tag, laws};
use std::alloc::Global;

/// How many callsites the spans of a workload have, where that isn't its size.
const CALLSITES: u32 = 10;

const LANE: Lane = Lane(0);

/// Each round opens a span and drops it. So many others are open.
pub fn new_and_drop<S: Subscriber>(
    alloc: Global,
    dispatch: &mut Dispatch<S>,
    others: u32,
    rounds: u32,
) -> Result<u32, Fault>
    requires { S.usable (stack_of dispatch.old) }
    ensures { IfOk result (λ done. done ≡ rounds) }
{
    let table = site::table(alloc, Kind::SPAN, CALLSITES)?;
    open_all(dispatch, &table, others)?;
    let mut turn = 0;
    let mut done = 0;
    for _ in 0..rounds {
        let metadata = table.get(turn as usize).ok_or(Fault::Undone)?;
        let id = opened(dispatch, &Attributes::new(*metadata, &[]))?;
        close(dispatch, id)?;
        turn = after(turn, CALLSITES);
        done += 1;
    }
    Ok(done)
}

/// Each round enters a span and leaves it, on the next of so many lanes.
pub fn enter_and_exit<S: Subscriber>(
    alloc: Global,
    dispatch: &mut Dispatch<S>,
    lanes: u32,
    rounds: u32,
) -> Result<u32, Fault>
    requires { S.usable (stack_of dispatch.old) }
    ensures { IfOk result (λ done. done ≡ rounds) }
{
    let table = site::table(alloc, Kind::SPAN, 1)?;
    let metadata = table.first().ok_or(Fault::Undone)?;
    let id = opened(dispatch, &Attributes::new(*metadata, &[]))?;
    let mut turn = 0;
    let mut done = 0;
    for _ in 0..rounds {
        let lane = Lane(turn);
        dispatch.enter(lane, id)?;
        dispatch.exit(lane, id);
        turn = after(turn, lanes);
        done += 1;
    }
    Ok(done)
}

/// Each round sends an event from the next of so many callsites.
pub fn event<S: Subscriber>(
    alloc: Global,
    dispatch: &mut Dispatch<S>,
    callsites: u32,
    rounds: u32,
) -> Result<u32, Fault>
    requires { S.usable (stack_of dispatch.old) }
    ensures { IfOk result (λ done. done ≡ rounds) }
{
    let table = site::table(alloc, Kind::EVENT, callsites)?;
    let mut turn = 0;
    let mut done = 0;
    for _ in 0..rounds {
        let metadata = table.get(turn as usize).ok_or(Fault::Undone)?;
        if !dispatch.event(LANE, &Event::new(*metadata, &[]))? {
            return Err(Fault::Undone);
        }
        turn = after(turn, callsites);
        done += 1;
    }
    Ok(done)
}

/// Each round sends an event from the next of so many registered callsites.
pub fn event_by<S: Subscriber>(
    alloc: Global,
    dispatch: &mut Dispatch<S>,
    callsites: u32,
    rounds: u32,
) -> Result<u32, Fault>
    requires { S.usable (stack_of dispatch.old) }
    ensures { IfOk result (λ done. done ≡ rounds) }
{
    let table = registered(alloc, dispatch, callsites)?;
    let mut turn = 0;
    let mut done = 0;
    for _ in 0..rounds {
        let callsite = table.get(turn as usize).ok_or(Fault::Undone)?;
        if !dispatch.event_by(LANE, callsite, &Event::new(callsite.metadata(), &[]))? {
            return Err(Fault::Undone);
        }
        turn = after(turn, callsites);
        done += 1;
    }
    Ok(done)
}

/// So many callsites of events, registered.
fn registered<S: Subscriber>(
    alloc: Global,
    dispatch: &mut Dispatch<S>,
    count: u32,
) -> Result<Vec<Registration>, Fault>
    requires { S.usable (stack_of dispatch.old) }
    ensures usable { S.usable (stack_of dispatch.new) }
    ensures registered { IfOk result (AreRegistered dispatch.new) }
{
    let sites = site::table(alloc, Kind::EVENT, count)?;
    let mut table = Vec::new(alloc);
    for metadata in &sites {
        table.push(dispatch.register_callsite(metadata)?)?;
    }
    Ok(table)
}

/// Each round opens a chain of so many spans, and drops their handles, the deepest span's last.
pub fn cascade<S: Subscriber>(
    alloc: Global,
    dispatch: &mut Dispatch<S>,
    depth: u32,
    rounds: u32,
) -> Result<u32, Fault>
    requires { S.usable (stack_of dispatch.old) }
    ensures { IfOk result (λ done. done ≡ rounds) }
{
    let table = site::table(alloc, Kind::SPAN, CALLSITES)?;
    let mut done = 0;
    for _ in 0..rounds {
        let chain = chain(alloc, dispatch, &table, depth)?;
        drop_all(dispatch, &chain)?;
        done += 1;
    }
    Ok(done)
}

/// Each round walks through a chain of so many spans, the deepest first.
// (compiled by itself: what else its caller keeps in registers would be moved aside in the walk)
#[inline(never)]
pub fn scope<S: Subscriber>(
    alloc: Global,
    dispatch: &mut Dispatch<S>,
    depth: u32,
    rounds: u32,
) -> Result<u32, Fault>
    requires { S.usable (stack_of dispatch.old) }
    ensures { IfOk result (λ done. done ≡ rounds) }
{
    let table = site::table(alloc, Kind::SPAN, CALLSITES)?;
    let deepest = deepest_of(&chain(alloc, dispatch, &table, depth)?)?;
    let mut done = 0;
    for _ in 0..rounds {
        if walked(dispatch.stack(), deepest) != depth {
            return Err(Fault::Undone);
        }
        done += 1;
    }
    Ok(done)
}

/// Each round walks through a chain of so many spans, the root first.
// (compiled by itself: what else its caller keeps in registers would be moved aside in the walk)
#[inline(never)]
pub fn from_root<S: Subscriber>(
    alloc: Global,
    dispatch: &mut Dispatch<S>,
    depth: u32,
    rounds: u32,
) -> Result<u32, Fault>
    requires { S.usable (stack_of dispatch.old) }
    ensures { IfOk result (λ done. done ≡ rounds) }
{
    let table = site::table(alloc, Kind::SPAN, CALLSITES)?;
    let deepest = deepest_of(&chain(alloc, dispatch, &table, depth)?)?;
    let mut done = 0;
    for _ in 0..rounds {
        if walked_from_root(alloc, dispatch.stack(), deepest)? != depth {
            return Err(Fault::Undone);
        }
        done += 1;
    }
    Ok(done)
}

/// Each round keeps a number with the next of so many spans, in place of the one before.
pub fn replace<S: Subscriber>(
    alloc: Global,
    dispatch: &mut Dispatch<S>,
    spans: u32,
    rounds: u32,
) -> Result<u32, Fault>
    requires { S.usable (stack_of dispatch.old) }
    ensures { IfOk result (λ done. done ≡ rounds) }
{
    let table = site::table(alloc, Kind::SPAN, CALLSITES)?;
    let chain = chain(alloc, dispatch, &table, spans)?;
    let registry = dispatch.stack_mut().root_mut();
    let tag: Tag<u64> = Tag::new(0);
    keep_each(registry, &chain, tag)?;
    let mut turn = 0;
    let mut done = 0;
    for round in 0..rounds {
        let id = chain.get(turn as usize).ok_or(Fault::Undone)?;
        if replaced(registry, *id, tag, u64::from(round))?.is_none() {
            return Err(Fault::Undone);
        }
        turn = after(turn, spans);
        done += 1;
    }
    Ok(done)
}

/// The turn after this one, of so many.
#[inline(always)]
fn after(turn: u32, turns: u32) -> u32
    ensures next { turn + 1 < turns → result ≡ turn + 1 }
    ensures first { turns ≤ turn + 1 → result ≡ 0 }
{
    match turn.checked_add(1) {
        Some(next) if next < turns => next,
        _ => 0,
    }
}

/// Opens a span.
#[inline(always)]
fn opened<S: Subscriber>(dispatch: &mut Dispatch<S>, attrs: &Attributes<'_>) -> Result<Id, Fault>
    requires { S.usable (stack_of dispatch.old) }
    ensures { S.usable (stack_of dispatch.new) }
{
    match dispatch.new_span(LANE, attrs)? {
        Some(id) => Ok(id),
        None => Err(Fault::Undone),
    }
}

/// Opens so many spans, from the callsites of a table in turn.
fn open_all<S: Subscriber>(
    dispatch: &mut Dispatch<S>,
    table: &[Metadata],
    count: u32,
) -> Result<(), Fault>
    requires { S.usable (stack_of dispatch.old) }
    ensures { S.usable (stack_of dispatch.new) }
{
    let mut turn = 0;
    for _ in 0..count {
        let metadata = table.get(turn as usize).ok_or(Fault::Undone)?;
        opened(dispatch, &Attributes::new(*metadata, &[]))?;
        turn = after(turn, CALLSITES);
    }
    Ok(())
}

/// Drops the last handle of a span that has no child.
#[inline(always)]
fn close<S: Subscriber>(dispatch: &mut Dispatch<S>, id: Id) -> Result<(), Fault>
    requires { S.usable (stack_of dispatch.old) }
    ensures { S.usable (stack_of dispatch.new) }
{
    if dispatch.drop_span(LANE, id)? {
        return Ok(());
    }
    Err(Fault::Undone)
}

/// Opens a chain of so many spans, each in the one before, from the callsites of a table in turn.
fn chain<S: Subscriber>(
    alloc: Global,
    dispatch: &mut Dispatch<S>,
    table: &[Metadata],
    depth: u32,
) -> Result<Vec<Id>, Fault>
    requires { S.usable (stack_of dispatch.old) }
    ensures { S.usable (stack_of dispatch.new) }
{
    let root = table.first().ok_or(Fault::Undone)?;
    let mut last = opened(dispatch, &Attributes::new_root(*root, &[]))?;
    let mut chain = Vec::new(alloc);
    chain.push(last)?;
    let mut turn = 0;
    for _ in 1..depth {
        turn = after(turn, CALLSITES);
        let metadata = table.get(turn as usize).ok_or(Fault::Undone)?;
        last = opened(dispatch, &Attributes::child_of(last, *metadata, &[]))?;
        chain.push(last)?;
    }
    Ok(chain)
}

/// The last span of a chain.
fn deepest_of(chain: &[Id]) -> Result<Id, Fault>
    ensures { IfOk result (λ id. slice_get chain.now (length chain.now - 1) ≡ Some id) }
{
    match chain.last() {
        Some(id) => Ok(*id),
        None => Err(Fault::Undone),
    }
}

/// Drops the handles of a chain. All of its spans close with the last.
fn drop_all<S: Subscriber>(dispatch: &mut Dispatch<S>, chain: &[Id]) -> Result<(), Fault>
    requires { S.usable (stack_of dispatch.old) }
    ensures { S.usable (stack_of dispatch.new) }
{
    let Some((deepest, above)) = chain.split_last() else {
        return Err(Fault::Undone);
    };
    for id in above {
        if dispatch.drop_span(LANE, *id)? {
            return Err(Fault::Undone);
        }
    }
    close(dispatch, *deepest)
}

/// How many spans there are from this one up to its root.
fn walked<S: LookupSpan>(stack: &S, id: Id) -> u32
    ensures { IsDepth (S.registry stack.now) id result }
{
    let Some(span) = stack.span(id) else {
        return 0;
    };
    let mut count = 0u32;
    for _each in span.scope() {
        count = count.saturating_add(1);
    }
    count
}

/// The same, counted from the root.
fn walked_from_root<S: LookupSpan>(alloc: Global, stack: &S, id: Id) -> Result<u32, Fault>
    ensures { IfOk result (IsDepth (S.registry stack.now) id) }
{
    let Some(span) = stack.span(id) else {
        return Ok(0);
    };
    let mut count = 0u32;
    for _each in span.scope().from_root(alloc)? {
        count = count.saturating_add(1);
    }
    Ok(count)
}

/// Keeps a number with each of these spans.
fn keep_each(registry: &mut Registry, ids: &[Id], tag: Tag<u64>) -> Result<(), Fault>
    ensures { SameButExtensions registry.old registry.new }
{
    for id in ids {
        replaced(registry, *id, tag, 0)?;
    }
    Ok(())
}

/// Keeps a value with a span under a tag. Answers the one before.
fn replaced<T: ExtensionValue>(
    registry: &mut Registry,
    id: Id,
    tag: Tag<T>,
    value: T,
) -> Result<Option<T>, Fault>
    ensures before { IfOk result (λ before. before ≡ value_in T.place registry.old id tag) }
    ensures kept { OnOk result (value_in T.place registry.new id tag ≡ Some value) }
    ensures rest { SameButExtensions registry.old registry.new }
{
    laws::tags_keep_their_values::<T, T>();
    let Some(extensions) = registry.extensions_mut(id) else {
        return Err(Fault::Undone);
    };
    match extensions.replace(tag, value) {
        Ok(before) => Ok(before),
        Err(rejected) => Err(Fault::Refused(rejected.error)),
    }
}
