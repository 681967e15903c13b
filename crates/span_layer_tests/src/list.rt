//! Tests of lists of layers.
use crate::fixture::{LANE, put};
use crate::signer::{Signer, signed};
use crate::stack::{hint_of, interest_in, number_at, open_and_enter, shown_at};
use span_core::{Id, Interest, Level, LevelFilter, Pass, TraceError};
use span_layers::Layer;
use span_registry::{ContextMut, LookupSpan, Registry, Subscriber};
use span_stacks::{LayerExt, Layered};
use std::alloc::Global;
use std::process::Abort;
use std::test::Fail;

fn three_members(alloc: Global) -> Result<Vec<Signer>, Fail> {
    Ok(vec![in alloc; Signer::new(1), Signer::new(2), Signer::new(3)]?)
}

#[test]
fn an_empty_list_wants_nothing(rt: HostRuntime) -> Result<(), Fail> {
    let nothing = Vec::<Signer>::new(rt.alloc());
    let said = shown_at(
        Registry::new(rt.alloc()),
        nothing,
        [Level::ERROR, Level::TRACE],
    )?;
    let hint = Some(LevelFilter::OFF);
    assert!(rt; said == [(Interest::Never, true, true, hint); 2]);
    Ok(())
}

/// The hint of a stack under a layer.
fn hint_under<S: Subscriber + Drop, L: Layer<S> + Drop>(
    stack: S,
    layer: L,
) -> Result<Option<LevelFilter>, TraceError>
    requires layer { L.usable layer }
    requires stack { S.usable stack }
{
    let stack = put(stack, layer)?;
    Ok(hint_of(&stack))
}

/// The hint of a stack and a layer on it, under an empty list.
fn hint_under_nothing<S: Subscriber + Drop, L: Layer<S> + Drop>(
    alloc: Global,
    stack: S,
    layer: L,
) -> Result<Option<LevelFilter>, TraceError>
    requires layer { L.usable layer }
    requires stack { S.usable stack }
{
    hint_under(put(stack, layer)?, Vec::<Signer>::new(alloc))
}

#[test]
fn an_empty_list_leaves_the_hint_to_what_is_below(rt: HostRuntime) -> Result<(), Fail> {
    let registry = Registry::new(rt.alloc());
    let hint = hint_under_nothing(rt.alloc(), registry, LevelFilter::INFO)?;
    assert!(rt; hint == Some(LevelFilter::INFO));
    Ok(())
}

#[test]
fn a_list_wants_what_a_member_wants(rt: HostRuntime) -> Result<(), Fail> {
    let levels = vec![in rt.alloc(); LevelFilter::WARN, LevelFilter::DEBUG]?;
    let said = shown_at(
        Registry::new(rt.alloc()),
        levels,
        [Level::INFO, Level::WARN],
    )?;
    let hint = Some(LevelFilter::DEBUG);
    assert!(rt;
        said == [
            (Interest::Always, false, true, hint),
            (Interest::Always, true, true, hint),
        ]
    );
    Ok(())
}

/// How many filters a stack under a layer has, and its interest in errors.
fn filters_and_interest<S: Subscriber + Drop, L: Layer<S> + Drop>(
    stack: S,
    layer: L,
) -> Result<(u32, Interest), TraceError>
    requires layer { L.usable layer }
    requires stack { S.usable stack }
{
    let stack = put(stack, layer)?;
    Ok((stack.root().filters(), interest_in(&stack, Level::ERROR)))
}

#[test]
fn a_list_wants_what_a_filtered_member_wants(rt: HostRuntime) -> Result<(), Fail> {
    let all = Signer::new(1).with_filter(LevelFilter::TRACE);
    let none = Signer::new(2).with_filter(LevelFilter::OFF);
    let members = vec![in rt.alloc(); all, none]?;
    let said = filters_and_interest(Registry::new(rt.alloc()), members)?;
    assert!(rt; said == (2, Interest::Sometimes));
    Ok(())
}

/// Puts a stack in use, and notifies it of a new span that the lane enters: which number do signers
/// write of that?
fn signed_in_use<S: Subscriber>(stack: &mut S) -> Result<Option<u64>, Fail>
    requires { S.usable stack.old }
    ensures { S.usable stack.new }
{
    stack.on_register_dispatch();
    let id = open_and_enter(stack, Level::INFO)?;
    Ok(number_at(stack, signed(), id))
}

/// Members 1, 2 and 3 of a list on a registry are put in use once, and sign a span in their order
/// when it is new and when it is entered.
fn sign_in_turn(rt: &impl Abort, stack: &mut Layered<Vec<Signer>, Registry>) -> Result<(), Fail> {
    let digits = signed_in_use(stack)?;
    assert!(rt; digits == Some(123123));
    for member in stack.outer().iter() {
        assert!(rt; member.in_use == 1);
    }
    Ok(())
}

#[test]
fn members_go_by_index(rt: HostRuntime) -> Result<(), Fail> {
    let members = three_members(rt.alloc())?;
    sign_in_turn(&rt, &mut put(Registry::new(rt.alloc()), members)?)
}

/// Notifies a list that a span has another id: each member hears of that once.
fn hear_of_a_changed_id(rt: &impl Abort, members: &mut Vec<Signer>, registry: &mut Registry) {
    let (old, new) = (Id::from_u64(1), Id::from_u64(2));
    let pass = Pass::new();
    members.on_id_change(old, new, &mut ContextMut::new(registry, LANE, &pass));
    for member in members.iter() {
        assert!(rt; member.changes == 1);
    }
}

#[test]
fn each_member_hears_of_a_changed_id(rt: HostRuntime) -> Result<(), Fail> {
    let mut members = three_members(rt.alloc())?;
    hear_of_a_changed_id(&rt, &mut members, &mut Registry::new(rt.alloc()));
    Ok(())
}
