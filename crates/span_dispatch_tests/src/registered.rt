//! Tests of registered callsites: what is asked by one is answered as it is without, also once a
//! level was set.
ghost use Rattle.std.specs.Prelude.{◌≡◌};
ghost use Rattle.span_core.specs.Metadata.{kind_of};
ghost use Rattle.span_dispatch.specs.Registration.{IsRegistered, KeepsRegistered};
ghost use Rattle.span_dispatch.specs.Serve.{stack_of};

use crate::requests::{AsLayer, Keeping, keeps, put_in_use};
use span_core::{Attributes, Event, FieldSet, Id, Kind, Level, LevelFilter, Metadata, TraceError};
use span_dispatch::{Dispatch, Recorded, Recorder, Registration};
use span_layer_tests::fixture::LANE;
use span_layers::Layer;
use span_registry::{Registry, Subscriber};
use span_stacks::LayerExt;
use span_targets::Setting;
use std::alloc::Global;
use std::process::Abort;
use std::test::Fail;

/// A callsite of level info.
fn callsite(number: u64, kind: Kind) -> Metadata {
    Metadata::new(number, "read", "app", Level::INFO, kind, FieldSet::new(&[]))
}

/// Sends an event by a registered callsite.
fn sent_by<S: Subscriber>(
    dispatch: &mut Dispatch<S>,
    callsite: &Registration,
) -> Result<bool, TraceError>
    requires usable { S.usable (stack_of dispatch.old) }
    requires registered { IsRegistered dispatch.old callsite.now }
    ensures usable { S.usable (stack_of dispatch.new) }
    ensures registered { KeepsRegistered dispatch.old dispatch.new }
{
    dispatch.event_by(LANE, callsite, &Event::new(callsite.metadata(), &[]))
}

/// Opens a span by a registered callsite. Answers it, if it was made.
fn opened_by<S: Subscriber>(
    dispatch: &mut Dispatch<S>,
    callsite: &Registration,
) -> Result<Option<Id>, TraceError>
    requires usable { S.usable (stack_of dispatch.old) }
    requires registered { IsRegistered dispatch.old callsite.now }
    ensures usable { S.usable (stack_of dispatch.new) }
    ensures registered { KeepsRegistered dispatch.old dispatch.new }
{
    let attrs = Attributes::new_root(callsite.metadata(), &[]);
    dispatch.new_span_by(LANE, callsite, &attrs)
}

/// Of a stack whose one filter is the level INFO: a span and two events by their callsites, and one
/// more of each while the level is WARN, which are answered so. Answers the first span.
fn sent_under_levels<S: Subscriber>(
    rt: &impl Abort,
    dispatch: &mut Dispatch<S>,
    under_warn: bool,
) -> Result<Id, Fail>
    requires { S.usable (stack_of dispatch.old) }
    ensures { S.usable (stack_of dispatch.new) }
{
    let event = dispatch.register_callsite(&callsite(5, Kind::EVENT))?;
    let span = dispatch.register_callsite(&callsite(6, Kind::SPAN))?;
    assert!(rt; sent_by(dispatch, &event) == Ok(true));
    let id = opened_by(dispatch, &span)?.ok_or("a layer vetoes")?;
    dispatch.reload(0, Setting::Level(LevelFilter::WARN))?;
    assert!(rt; sent_by(dispatch, &event) == Ok(under_warn));
    assert!(rt; opened_by(dispatch, &span)?.is_some() == under_warn);
    dispatch.reload(0, Setting::Level(LevelFilter::INFO))?;
    assert!(rt; sent_by(dispatch, &event) == Ok(true));
    Ok(id)
}

/// A recorder under INFO is told of what passes its levels. While the level is WARN, an answer says
/// that something was made where nothing is kept.
fn tells_by_levels<S: Subscriber + Drop, L: Layer<S> + Drop + AsLayer<Recorder>>(
    rt: &impl Abort,
    alloc: Global,
    stack: S,
    layer: L,
    kept: Keeping,
) -> Result<(), Fail>
    requires stack { S.usable stack }
    requires layer { L.usable layer }
{
    let mut dispatch = put_in_use(alloc, stack, layer, kept)?;
    let id = sent_under_levels(rt, &mut dispatch, kept == Keeping::Nothing)?;
    let event = Recorded::Event(LANE, 5);
    keeps(
        rt,
        dispatch.stack().as_layer(),
        &[event, Recorded::New(LANE, id), event],
    );
    Ok(())
}

#[test]
fn a_registered_callsite_goes_by_the_level_that_is_set(rt: HostRuntime) -> Result<(), Fail> {
    let under_info = Recorder::new(rt.alloc()).with_filter(LevelFilter::INFO);
    tells_by_levels(
        &rt,
        rt.alloc(),
        Registry::new(rt.alloc()),
        under_info,
        Keeping::Answers,
    )
}

#[test]
fn it_does_where_nothing_is_kept(rt: HostRuntime) -> Result<(), Fail> {
    let under_info = Recorder::new(rt.alloc()).with_filter(LevelFilter::INFO);
    tells_by_levels(
        &rt,
        rt.alloc(),
        Registry::new(rt.alloc()),
        under_info,
        Keeping::Nothing,
    )
}
