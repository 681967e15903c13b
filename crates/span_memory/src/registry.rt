//! Calls of a registry, of its spans' extensions, and of their scopes.
ghost use Rattle.span_dispatch.specs.Serve.{stack_of};
ghost use Rattle.std.specs.Prelude.{◌≤◌};

use crate::call::RegistryCall;
use crate::fault::Fault;
use crate::look_up::look_up;
use crate::shown::{write_all_of, write_answer, write_start};
use crate::site::{ENTERED, LANE, OTHER_LANE, SPANS, UNKNOWN_SPAN, nth, span_metadata};
use crate::values::called_of_values;
use span_core::{Attributes, Id, Lane, Pass, TraceError};
use span_dispatch::{Answer, Dispatch};
use span_registry::{Limits, LookupSpan, Registry, Subscriber, Tag};
use std::alloc::Global;
use std::io::Write;

/// How many values the first span has.
const VALUES: u32 = 15;

/// Makes a call of a registry, and writes what it shows without the call and after it.
pub(crate) fn make<W: Write>(
    alloc: Global,
    writer: &mut W,
    call: RegistryCall,
) -> Result<(), Fault> {
    write_registry(alloc, writer, prepared(alloc, call)?)?;
    let mut registry = prepared(alloc, call)?;
    write_called(alloc, writer, &mut registry, call)?;
    write_registry(alloc, writer, registry)
}

/// Makes a call of a registry, and writes how it ended.
fn write_called<W: Write>(
    alloc: Global,
    writer: &mut W,
    registry: &mut Registry,
    call: RegistryCall,
) -> Result<(), Fault> {
    write_start(writer)?;
    let ended = called(alloc, registry, call);
    write_answer(writer, Answer::of_done(ended))
}

/// Closes a chain of spans, and writes the same.
pub(crate) fn close_chain<W: Write>(alloc: Global, writer: &mut W) -> Result<(), Fault> {
    let call = RegistryCall::CloseChain;
    write_registry(alloc, writer, prepared(alloc, call)?)?;
    let mut dispatch = Dispatch::uncached(alloc, prepared(alloc, call)?);
    write_closed(writer, &mut dispatch, spans_of(call))
}

/// Drops the handles of a chain, and writes how that ended, and what is left.
fn write_closed<S: Subscriber, W: Write>(
    writer: &mut W,
    dispatch: &mut Dispatch<S>,
    spans: u64,
) -> Result<(), Fault>
    requires { S.usable (stack_of dispatch.old) }
    ensures { S.usable (stack_of dispatch.new) }
{
    write_start(writer)?;
    let ended = drop_each(dispatch, spans);
    write_answer(writer, Answer::of_yes(ended))?;
    write_all_of(writer, dispatch)
}

/// Drops the handles of a chain from the root on, and answers whether the last one closes it.
fn drop_each<S: Subscriber>(dispatch: &mut Dispatch<S>, spans: u64) -> Result<bool, TraceError>
    requires { S.usable (stack_of dispatch.old) }
    ensures { S.usable (stack_of dispatch.new) }
{
    let mut closes = false;
    for number in 1..=spans {
        closes = dispatch.drop_span(LANE, nth(number))?;
    }
    Ok(closes)
}

/// Writes all that a registry shows.
fn write_registry<W: Write>(
    alloc: Global,
    writer: &mut W,
    registry: Registry,
) -> Result<(), Fault> {
    let mut dispatch = Dispatch::uncached(alloc, registry);
    write_all_of(writer, &mut dispatch)
}

/// How many spans are prepared for a call.
fn spans_of(call: RegistryCall) -> u64 {
    match call {
        RegistryCall::FromRoot(spans) => spans,
        RegistryCall::CloseChain => SPANS + 1,
        _ => SPANS,
    }
}

/// How many lanes have entered spans.
fn lanes_of(call: RegistryCall) -> u32 {
    match call {
        RegistryCall::EnterFirst => 0,
        RegistryCall::EnterOneLaneMore => 15,
        _ => 1,
    }
}

/// A registry with room for one span more, and for one child or handle more of each.
fn limits_of(call: RegistryCall) -> Limits
    ensures places { 1 ≤ result.places }
    ensures generations { 1 ≤ result.generations }
    ensures count { 1 ≤ result.count }
{
    match call {
        RegistryCall::NewSpanOfFullParent => Limits { count: 1, ..ROOM },
        RegistryCall::NewSpanWithoutPlace => Limits { places: 16, ..ROOM },
        _ => ROOM,
    }
}

/// The limits of most registries.
const ROOM: Limits = Limits {
    places: 17,
    generations: u32::MAX,
    count: 2,
};

/// A registry with spans each in the one before, of which lanes are in some. The first has values.
fn prepared(alloc: Global, call: RegistryCall) -> Result<Registry, Fault> {
    let mut registry = Registry::with_limits(alloc, limits_of(call));
    prepare(&mut registry, call)?;
    Ok(registry)
}

/// Opens those spans, has the lanes enter them, puts the values in, and reserves for the call.
fn prepare(registry: &mut Registry, call: RegistryCall) -> Result<(), Fault> {
    for number in 1..=spans_of(call) {
        open(registry, number)?;
    }
    for lane in 0..lanes_of(call) {
        enter_some(registry, Lane(lane))?;
    }
    insert_values(registry)?;
    reserve(registry, call)?;
    Ok(())
}

/// Reserves what a call takes that is to need no memory.
fn reserve(registry: &mut Registry, call: RegistryCall) -> Result<(), TraceError> {
    match call {
        RegistryCall::NewSpanReserved => registry.reserve(ROOM.places),
        RegistryCall::EnterReserved => registry.reserve_entries(OTHER_LANE, 1),
        _ => Ok(()),
    }
}

/// Opens the next span, in the one before, if there is one.
fn open(registry: &mut Registry, number: u64) -> Result<Id, TraceError> {
    let metadata = span_metadata(number);
    let attributes = if number > 1 {
        Attributes::child_of(nth(number - 1), metadata, &[])
    } else {
        Attributes::new_root(metadata, &[])
    };
    registry.new_span(LANE, &attributes, &Pass::new())
}

/// Has a lane enter the first spans.
fn enter_some(registry: &mut Registry, lane: Lane) -> Result<(), TraceError> {
    for number in 1..=ENTERED {
        registry.enter(lane, nth(number))?;
    }
    Ok(())
}

/// Puts values of the first span under the first tags.
fn insert_values(registry: &mut Registry) -> Result<(), Fault> {
    let Some(extensions) = registry.extensions_mut(nth(1)) else {
        return Err(Fault::Unprepared);
    };
    let mut extensions = extensions;
    for tag in 0..VALUES {
        if extensions.insert(Tag::<u64>::new(tag), 7).is_err() {
            return Err(Fault::Memory);
        }
    }
    Ok(())
}

/// How a call ends.
fn called(alloc: Global, registry: &mut Registry, call: RegistryCall) -> Result<(), TraceError> {
    match call {
        RegistryCall::NewSpan | RegistryCall::NewSpanReserved => open_child(registry, nth(SPANS)),
        RegistryCall::NewSpanOfFullParent => open_child(registry, nth(1)),
        RegistryCall::NewSpanWithoutPlace => open_child(registry, nth(SPANS)),
        RegistryCall::Enter | RegistryCall::EnterReserved => registry.enter(OTHER_LANE, nth(5)),
        RegistryCall::EnterFirst => registry.enter(LANE, nth(5)),
        RegistryCall::EnterOneLaneMore => registry.enter(Lane(15), nth(5)),
        RegistryCall::EnterUnknown => registry.enter(LANE, nth(0)),
        RegistryCall::Exit => {
            registry.exit(LANE, nth(ENTERED));
            Ok(())
        }
        RegistryCall::CloneSpan => clone_span(registry, nth(1)),
        RegistryCall::Release => release(registry, nth(1)),
        RegistryCall::RegisterFilter => {
            registry.register_filter()?;
            Ok(())
        }
        RegistryCall::FromRoot(spans) => from_root(alloc, registry, nth(spans)),
        RegistryCall::LookUp => look_up(registry),
        _ => called_of_values(registry, call),
    }
}

/// Opens a span in another.
fn open_child(registry: &mut Registry, parent: Id) -> Result<(), TraceError> {
    let attributes = Attributes::child_of(parent, span_metadata(UNKNOWN_SPAN), &[]);
    registry.new_span(LANE, &attributes, &Pass::new())?;
    Ok(())
}

/// Adds a handle.
fn clone_span(registry: &mut Registry, id: Id) -> Result<(), TraceError> {
    registry.clone_span(LANE, id)?;
    Ok(())
}

/// Takes a handle.
fn release(registry: &mut Registry, id: Id) -> Result<(), TraceError> {
    registry.release(id)?;
    Ok(())
}

/// Asks for the scope of a span from its root on.
fn from_root(alloc: Global, registry: &Registry, id: Id) -> Result<(), TraceError> {
    let Some(span) = registry.span(id) else {
        return Err(TraceError::UnknownSpan(id));
    };
    span.scope().from_root(alloc)?;
    Ok(())
}
