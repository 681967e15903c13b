//! Generic code over a subscriber, proved from the trait's contract, and each call of the trait
//! once at a registry.
ghost use Rattle.std.specs.Prelude.{◌≡◌, IfOk, OnOk};
ghost use Rattle.span_core.specs.Span.{number_of};
ghost use Rattle.span_store.specs.Store.{SameStacks, handles_of};

use crate::store_fixture::{LANE, event_at, root, span_named};
use span_core::{
    Attributes, Event, Id, Interest, Lane, Level, LevelFilter, Pass, Record, TraceError,
};
use span_registry::{LookupSpan, Registry, Subscriber};
use span_targets::Setting;
use std::process::Abort;
use std::test::Fail;

/// Enters a span and leaves it at once: each lane has the stack that it had.
fn enter_and_exit<S: Subscriber>(stack: &mut S, lane: Lane, id: Id) -> Result<(), TraceError>
    requires { S.usable stack.old }
    ensures usable { S.usable stack.new }
    ensures stacks { OnOk result
        (SameStacks (S.registry stack.old).store (S.registry stack.new).store) }
{
    stack.enter(lane, id)?;
    stack.exit(lane, id);
    Ok(())
}

/// Opens a span and clones it: it has two handles.
fn open_twice<S: Subscriber>(
    stack: &mut S,
    lane: Lane,
    attrs: &Attributes<'_>,
    pass: &Pass,
) -> Result<Id, TraceError>
    requires { S.usable stack.old }
    ensures usable { S.usable stack.new }
    ensures handles { IfOk result
        (λ id. handles_of (S.registry stack.new).store.spans (number_of id) ≡ 2) }
{
    let id = stack.new_span(lane, attrs, pass)?;
    stack.clone_span(lane, id)
}

/// Asks a stack on which nothing was done yet every question.
fn ask<S: Subscriber>(rt: &impl Abort, stack: &S) -> Result<(), Fail>
    requires { S.usable stack.now }
{
    let meta = span_named("span");
    let event = Event::new(event_at(Level::INFO), &[]);
    let mut pass = Pass::new();
    assert!(rt; stack.register_callsite(&meta, &mut pass) == Interest::Always);
    assert!(rt; stack.enabled(LANE, &meta, &mut pass));
    assert!(rt; stack.event_enabled(LANE, &event, &mut pass));
    assert!(rt; stack.max_level_hint() == None);
    assert!(rt; stack.is_registry());
    assert!(rt; !stack.is_filtered());
    assert!(rt; !stack.is_absent());
    Ok(())
}

/// Notifies a stack on which nothing was done yet of everything.
fn notify<S: Subscriber>(rt: &impl Abort, stack: &mut S) -> Result<(), Fail>
    requires { S.usable stack.old }
    ensures { S.usable stack.new }
{
    let attrs = Attributes::new(span_named("span"), &[]);
    let pass = Pass::new();
    stack.on_register_dispatch();
    let id = open_twice(stack, LANE, &attrs, &pass)?;
    stack.enter(LANE, id)?;
    assert!(rt; stack.current_span(LANE).id() == Some(id));
    stack.record(LANE, id, &Record::new(&[]));
    stack.record_follows_from(LANE, id, id);
    stack.event(LANE, &Event::new(event_at(Level::INFO), &[]), &pass);
    stack.exit(LANE, id);
    assert!(rt; stack.current_span(LANE).is_none());
    enter_and_exit(stack, LANE, id)?;
    stack.close_hooks(LANE, id);
    assert!(rt; !stack.reload(0, Setting::Level(LevelFilter::INFO)));
    Ok(())
}

/// Enters and clones a span that isn't there.
fn refuses_unknown<S: Subscriber>(rt: &impl Abort, stack: &mut S)
    requires { S.usable stack.old }
{
    let id = Id::from_u64(u64::MAX);
    let unknown = TraceError::UnknownSpan(id);
    assert!(rt; stack.enter(LANE, id) == Err(unknown));
    assert!(rt; stack.clone_span(LANE, id) == Err(unknown));
}

/// Makes each call of the trait at a stack on which nothing was done yet.
fn makes_each_call<S: Subscriber>(rt: &impl Abort, stack: &mut S) -> Result<(), Fail>
    requires { S.usable stack.old }
{
    ask(rt, stack)?;
    notify(rt, stack)?;
    refuses_unknown(rt, stack);
    Ok(())
}

#[test]
fn a_registry_is_a_subscriber(rt: HostRuntime) -> Result<(), Fail> {
    makes_each_call(&rt, &mut Registry::new(rt.alloc()))
}

/// The sum of interests counts only once there is a filter, and is taken out then.
fn takes_interest_under_filters(rt: &impl Abort, registry: &mut Registry) -> Result<(), Fail> {
    let meta = span_named("span");
    let mut pass = Pass::new();
    pass.add_interest(Interest::Never);
    assert!(rt; registry.register_callsite(&meta, &mut pass) == Interest::Always);
    registry.register_filter()?;
    assert!(rt; registry.register_callsite(&meta, &mut pass) == Interest::Never);
    assert!(rt; registry.register_callsite(&meta, &mut pass) == Interest::Always);
    Ok(())
}

#[test]
fn callsites_under_filters(rt: HostRuntime) -> Result<(), Fail> {
    takes_interest_under_filters(&rt, &mut Registry::new(rt.alloc()))
}
