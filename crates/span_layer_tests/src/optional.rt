//! Tests of layers that add nothing of their own: one that does nothing, one that may be absent,
//! one in a box.
use crate::fixture::{LANE, put};
use crate::signer::Signer;
use crate::stack::{Shown, hint_of, is_text, send, shown};
use span_core::{Id, Interest, Level, LevelFilter, Pass, TraceError};
use span_layers::{Identity, Layer};
use span_registry::{ContextMut, LookupSpan, Registry, Subscriber};
use span_stacks::{Filtered, LayerExt, Layered};
use std::process::Abort;
use std::test::Fail;

fn is_absent<S: Subscriber>(stack: &S) -> bool
    requires { S.usable stack.now }
{
    stack.is_absent()
}

/// What a stack under this layer answers of an event of this level, and whether the layer is
/// absent.
fn shown_and_absent<S: Subscriber + Drop, L: Layer<S> + Drop>(
    stack: S,
    layer: L,
    level: Level,
) -> Result<(Shown, bool), TraceError>
    requires layer { L.usable layer }
    requires stack { S.usable stack }
{
    let stack = put(stack, layer)?;
    Ok((shown(&stack, level), is_absent(&stack)))
}

/// Whether a stack under this layer is absent, and its hint.
fn absent_under<S: Subscriber + Drop, L: Layer<S> + Drop>(
    stack: S,
    layer: L,
) -> Result<(bool, Option<LevelFilter>), Fail>
    requires layer { L.usable layer }
    requires stack { S.usable stack }
{
    let stack = put(stack, layer)?;
    Ok((is_absent(&stack), hint_of(&stack)))
}

/// Whether a layer is absent once it stands under one that does nothing, and the hint that the
/// stack then has: where the layer is absent, the hint is what it would be without that.
fn under_identity<S: Subscriber + Drop, L: Layer<S> + Drop>(
    stack: S,
    layer: L,
) -> Result<(bool, Option<LevelFilter>), Fail>
    requires layer { L.usable layer }
    requires stack { S.usable stack }
{
    absent_under(put(stack, layer)?, Identity)
}

/// Puts a stack with a layer under INFO in use, and sends an event that INFO passes and one that it
/// doesn't.
fn use_under_info<S: Subscriber>(rt: &impl Abort, stack: &mut S)
    requires { S.usable stack.old }
    ensures { S.usable stack.new }
{
    stack.on_register_dispatch();
    send(stack, Level::INFO);
    send(stack, Level::DEBUG);
    assert!(rt; stack.root().filters() == 1);
    assert!(rt; stack.is_filtered());
    assert!(rt; !stack.is_absent());
    assert!(rt; stack.max_level_hint() == Some(LevelFilter::INFO));
}

#[test]
fn an_absent_layer_wants_no_level(rt: HostRuntime) -> Result<(), Fail> {
    let absent: Option<Signer> = None;
    let said = shown_and_absent(Registry::new(rt.alloc()), absent, Level::ERROR)?;
    let hint = Some(LevelFilter::OFF);
    assert!(rt; said == ((Interest::Always, true, true, hint), true));
    let absent: Option<Signer> = None;
    assert!(rt; under_identity(Registry::new(rt.alloc()), absent)? == (true, None));
    Ok(())
}

/// A signer was put in use once, and heard of one event.
fn is_used_once(rt: &impl Abort, signer: &Signer) {
    assert!(rt; signer.in_use == 1);
    assert!(rt; signer.events == 1);
}

/// A signer under INFO that may be absent, on a registry.
type MaySign = Layered<Option<Filtered<Signer, LevelFilter>>, Registry>;

/// The signer is there, and is what it is.
fn has_a_signer(rt: &impl Abort, stack: &mut MaySign) -> Result<(), Fail> {
    use_under_info(rt, stack);
    let Some(layer) = stack.outer() else {
        return Err(Fail::from("the layer is absent"));
    };
    is_used_once(rt, layer.layer());
    Ok(())
}

#[test]
fn a_layer_that_is_there_is_what_it_is(rt: HostRuntime) -> Result<(), Fail> {
    let layer = Some(Signer::new(1).with_filter(LevelFilter::INFO));
    has_a_signer(&rt, &mut put(Registry::new(rt.alloc()), layer)?)
}

#[test]
fn a_boxed_layer_is_what_it_holds(rt: HostRuntime) -> Result<(), Fail> {
    let layer = Box::new(rt.alloc(), Signer::new(1).with_filter(LevelFilter::INFO))?;
    let mut stack = put(Registry::new(rt.alloc()), layer)?;
    use_under_info(&rt, &mut stack);
    is_used_once(&rt, stack.outer().layer());
    Ok(())
}

/// Notifies a signer that may be absent, in its box, that a span has another id: it is there, and
/// hears of that once.
fn hears_of_a_changed_id(
    rt: &impl Abort,
    layer: &mut Box<Option<Signer>>,
    registry: &mut Registry,
) -> Result<(), Fail> {
    let (pass, id) = (Pass::new(), Id::from_u64(1));
    layer.on_id_change(id, id, &mut ContextMut::new(registry, LANE, &pass));
    let Some(signer) = &**layer else {
        return Err(Fail::from("the layer is absent"));
    };
    assert!(rt; signer.changes == 1);
    Ok(())
}

#[test]
fn a_changed_id_reaches_what_is_held(rt: HostRuntime) -> Result<(), Fail> {
    let mut layer = Box::new(rt.alloc(), Some(Signer::new(1)))?;
    hears_of_a_changed_id(&rt, &mut layer, &mut Registry::new(rt.alloc()))
}

#[test]
fn a_layer_may_do_nothing(rt: HostRuntime) -> Result<(), Fail> {
    let registry = Registry::new(rt.alloc());
    let said = shown_and_absent(registry, Identity::default(), Level::TRACE)?;
    assert!(rt; said == ((Interest::Always, true, true, None), false));
    is_text(
        &rt,
        format!(in rt.alloc(); "{:?}", Identity)?.as_str(),
        "Identity",
    );
    Ok(())
}
