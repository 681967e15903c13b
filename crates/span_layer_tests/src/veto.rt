//! Tests of filters as layers: they veto.
use crate::fixture::put;
use crate::stack::{Shown, open_and_enter, shown, shown_at};
use span_core::{Interest, Level, LevelFilter, Metadata};
use span_filters::{dynamic_filter_fn, filter_fn};
use span_layers::Layer;
use span_registry::{Context, Registry, Subscriber};
use std::test::Fail;

#[test]
fn a_level_as_a_layer_vetoes(rt: HostRuntime) -> Result<(), Fail> {
    let said = shown_at(
        Registry::new(rt.alloc()),
        LevelFilter::INFO,
        [Level::INFO, Level::DEBUG],
    )?;
    let hint = Some(LevelFilter::INFO);
    assert!(rt;
        said == [
            (Interest::Always, true, true, hint),
            (Interest::Never, false, true, hint),
        ]
    );
    Ok(())
}

#[test]
fn closures_as_layers_veto(rt: HostRuntime) -> Result<(), Fail> {
    let test = filter_fn(|meta: &Metadata| meta.level() == Level::INFO);
    let said = shown_at(Registry::new(rt.alloc()), test, [Level::INFO, Level::WARN])?;
    assert!(rt;
        said == [
            (Interest::Always, true, true, None),
            (Interest::Never, false, true, None),
        ]
    );
    Ok(())
}

/// What a stack answers of an event outside all spans, and in one.
fn shown_in_a_span<S: Subscriber>(stack: &mut S) -> Result<[Shown; 2], Fail>
    requires { S.usable stack.old }
{
    let before = shown(stack, Level::TRACE);
    open_and_enter(stack, Level::INFO)?;
    Ok([before, shown(stack, Level::TRACE)])
}

/// The same of a stack under this layer.
fn shown_in_a_span_under<S: Subscriber + Drop, L: Layer<S> + Drop>(
    stack: S,
    layer: L,
) -> Result<[Shown; 2], Fail>
    requires layer { L.usable layer }
    requires stack { S.usable stack }
{
    shown_in_a_span(&mut put(stack, layer)?)
}

#[test]
fn closures_with_a_context_as_layers_veto(rt: HostRuntime) -> Result<(), Fail> {
    let outside = dynamic_filter_fn(|_meta: &Metadata, cx: &Context<'_, Registry>| {
        cx.current_span().is_none()
    });
    let said = shown_in_a_span_under(Registry::new(rt.alloc()), outside)?;
    assert!(rt;
        said == [
            (Interest::Sometimes, true, true, None),
            (Interest::Sometimes, false, true, None),
        ]
    );
    Ok(())
}
