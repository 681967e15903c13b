//! Tests of filters by what spans were given.

ghost use Rattle.span_dispatch.specs.Serve.{stack_of};
ghost use Rattle.span_store.specs.Store.{IsFresh};

use crate::span::LANE;
use span_core::{
    Attributes, Event, FieldSet, FieldValue, Id, Interest, Kind, Lane, Level, LevelFilter,
    Metadata, Record, TraceError,
};
use span_dispatch::{Dispatch, Recorder};
use span_fields::{FieldDirective, FieldError, FieldFilter, ValueMatch};
use span_filters::{Filter, FilterExt};
use span_registry::{Registry, Subscriber};
use span_stacks::{LayerExt, SubscriberExt};
use span_targets::EnvFilter;
use std::alloc::Global;
use std::process::Abort;
use std::test::Fail;

/// The metadata of an event of this level, with a callsite of its own.
fn event_of(level: Level) -> Metadata {
    let callsite = if level == Level::TRACE {
        5
    } else if level == Level::DEBUG {
        4
    } else {
        3
    };
    let fields = FieldSet::new(&[]);
    Metadata::new(callsite, "event", "web", level, Kind::EVENT, fields)
}

/// The metadata of a span with the fields `id`, `name` and `fast`.
fn span_of(name: &'static str, target: &'static str) -> Metadata {
    let fields = FieldSet::new(&["id", "name", "fast"]);
    Metadata::new(2, name, target, Level::INFO, Kind::SPAN, fields)
}

/// A filter by these directives.
fn filter_of(alloc: Global, texts: &[&str]) -> Result<FieldFilter, Fail> {
    let mut filter = FieldFilter::new(alloc);
    for text in texts {
        filter.add(FieldDirective::parse(alloc, text)?)?;
    }
    Ok(filter)
}

/// Sends an event of this level on a lane.
fn send<S: Subscriber>(
    dispatch: &mut Dispatch<S>,
    lane: Lane,
    level: Level,
) -> Result<bool, TraceError>
    requires { S.usable (stack_of dispatch.old) }
    ensures { S.usable (stack_of dispatch.new) }
{
    dispatch.event(lane, &Event::new(event_of(level), &[]))
}

/// Opens a span and enters it.
fn enter<S: Subscriber>(dispatch: &mut Dispatch<S>, attrs: &Attributes<'_>) -> Result<Id, Fail>
    requires { S.usable (stack_of dispatch.old) }
    ensures { S.usable (stack_of dispatch.new) }
{
    match dispatch.new_span(LANE, attrs)? {
        Some(id) => {
            dispatch.enter(LANE, id)?;
            Ok(id)
        }
        None => Err(Fail::from("dropped")),
    }
}

/// Leaves a span, and drops its handle.
fn leave<S: Subscriber>(dispatch: &mut Dispatch<S>, id: Id) -> Result<bool, TraceError>
    requires { S.usable (stack_of dispatch.old) }
    ensures { S.usable (stack_of dispatch.new) }
{
    dispatch.exit(LANE, id);
    dispatch.drop_span(LANE, id)
}

/// Sends events within a job of number 8, and within one of number 7 and what is below that.
fn within_jobs<S: Subscriber + Drop>(alloc: Global, stack: S) -> Result<S, Fail>
    requires usable { S.usable stack }
    requires fresh { IsFresh (S.registry stack) }
{
    let mut dispatch = Dispatch::new(alloc, stack);
    let values = [("id", FieldValue::U64(8))];
    let eighth = enter(
        &mut dispatch,
        &Attributes::new(span_of("job", "web"), &values),
    )?;
    send(&mut dispatch, LANE, Level::WARN)?;
    send(&mut dispatch, LANE, Level::DEBUG)?;
    leave(&mut dispatch, eighth)?;
    let values = [("id", FieldValue::U64(7))];
    let seventh = enter(
        &mut dispatch,
        &Attributes::new(span_of("job", "web"), &values),
    )?;
    let step = enter(&mut dispatch, &Attributes::new(span_of("job", "web"), &[]))?;
    send(&mut dispatch, LANE, Level::DEBUG)?;
    send(&mut dispatch, LANE, Level::TRACE)?;
    send(&mut dispatch, Lane(1), Level::DEBUG)?;
    leave(&mut dispatch, step)?;
    leave(&mut dispatch, seventh)?;
    send(&mut dispatch, LANE, Level::DEBUG)?;
    Ok(dispatch.into_stack())
}

/// A layer was notified of three spans, and of a warning in the first and an event in the last.
#[test]
fn more_passes_within_a_job_of_a_number(rt: HostRuntime) -> Result<(), Fail> {
    let alloc = rt.alloc();
    let fields = filter_of(alloc, &["[job{id=7}]=debug"])?;
    let filter = EnvFilter::parse(alloc, "warn,[job]=info")?.or(fields);
    let layer = Recorder::new(alloc).with_filter(filter);
    let stack = within_jobs(alloc, Registry::new(alloc).with(layer)?)?;
    // (each span is opened, entered, left and closed)
    assert!(rt; stack.outer().layer().notices().len() == 3 * 4 + 2);
    Ok(())
}

/// Sends an event before a value is recorded, one after that, and one after another value is.
fn record_values<S: Subscriber + Drop>(alloc: Global, stack: S) -> Result<S, Fail>
    requires usable { S.usable stack }
    requires fresh { IsFresh (S.registry stack) }
{
    let mut dispatch = Dispatch::new(alloc, stack);
    let job = enter(&mut dispatch, &Attributes::new(span_of("job", "web"), &[]))?;
    send(&mut dispatch, LANE, Level::TRACE)?;
    dispatch.record(
        LANE,
        job,
        &Record::new(&[("name", FieldValue::Text("pay"))]),
    )?;
    send(&mut dispatch, LANE, Level::TRACE)?;
    dispatch.record(
        LANE,
        job,
        &Record::new(&[("name", FieldValue::Text("send"))]),
    )?;
    send(&mut dispatch, LANE, Level::TRACE)?;
    leave(&mut dispatch, job)?;
    Ok(dispatch.into_stack())
}

/// A layer was notified of a span, of two records, and of the two events behind the first.
#[test]
fn a_value_that_is_recorded_later_counts(rt: HostRuntime) -> Result<(), Fail> {
    let alloc = rt.alloc();
    let filter = filter_of(alloc, &["web[job{name=pay}]"])?;
    let layer = Recorder::new(alloc).with_filter(filter);
    let stack = record_values(alloc, Registry::new(alloc).with(layer)?)?;
    assert!(rt; !stack.outer().filter().failed());
    assert!(rt; stack.outer().layer().notices().len() == 4 + 2 + 2);
    Ok(())
}

/// What the filter says of a callsite before it is asked of a view.
#[test]
fn interests_and_the_hint(rt: HostRuntime) -> Result<(), Fail> {
    let filter = filter_of(
        rt.alloc(),
        &["[job{id=7}]=debug", "db[job{fast=true}]=warn"],
    )?;
    let says = |meta: &Metadata| Filter::<Registry>::callsite_enabled(&filter, meta);
    assert!(rt; says(&event_of(Level::DEBUG)) == Interest::Sometimes);
    assert!(rt; says(&event_of(Level::TRACE)) == Interest::Never);
    assert!(rt; says(&span_of("job", "web")) == Interest::Always);
    assert!(rt; says(&span_of("step", "web")) == Interest::Sometimes);
    assert!(rt; Filter::<Registry>::max_level_hint(&filter) == Some(LevelFilter::DEBUG));
    let empty = FieldFilter::new(rt.alloc());
    assert!(rt; Filter::<Registry>::max_level_hint(&empty) == Some(LevelFilter::OFF));
    Ok(())
}

/// The text of the one directive is read as these parts.
fn reads(rt: &impl Abort, directive: &FieldDirective, parts: [&str; 3], level: LevelFilter) {
    let [target, name, field] = parts;
    assert!(rt; directive.target() == target);
    assert!(rt; directive.name() == name);
    assert!(rt; directive.field() == field);
    assert!(rt; directive.level() == level);
}

#[test]
fn what_a_text_says(rt: HostRuntime) -> Result<(), Fail> {
    let texts = [
        "db[job{id=-7}]=2",
        "[step{fast=true}]",
        "[step{name=a=b]}]=off",
    ];
    let filter = filter_of(rt.alloc(), &texts)?;
    let [first, second, third] = filter.directives() else {
        return Err(Fail::from("not three"));
    };
    reads(&rt, first, ["db", "job", "id"], LevelFilter::WARN);
    assert!(rt; first.value().matches(&FieldValue::I64(-7)));
    assert!(rt; !first.value().matches(&FieldValue::Text("-7")));
    reads(&rt, second, ["", "step", "fast"], LevelFilter::TRACE);
    assert!(rt; second.value().matches(&FieldValue::Bool(true)));
    assert!(rt; !second.value().matches(&FieldValue::Bool(false)));
    reads(&rt, third, ["", "step", "name"], LevelFilter::OFF);
    assert!(rt; third.value().matches(&FieldValue::Text("a=b]")));
    Ok(())
}

/// Numbers are compared as numbers, whatever type they have.
#[test]
fn numbers_of_each_type(rt: HostRuntime) -> Result<(), Fail> {
    let seven = ValueMatch::Number(7);
    assert!(rt; seven.matches(&FieldValue::U64(7)));
    assert!(rt; seven.matches(&FieldValue::I64(7)));
    assert!(rt; !seven.matches(&FieldValue::U64(8)));
    assert!(rt; !seven.matches(&FieldValue::Bool(true)));
    assert!(rt; !seven.matches(&FieldValue::Absent));
    Ok(())
}

#[test]
fn texts_that_are_wrong(rt: HostRuntime) -> Result<(), Fail> {
    let rows = [
        ("", FieldError::Misshapen),
        ("info", FieldError::Misshapen),
        ("[job]=debug", FieldError::Misshapen),
        ("[job{id}]=debug", FieldError::Misshapen),
        ("[job{id=7]=debug", FieldError::Misshapen),
        ("[job{id=7}=debug", FieldError::Misshapen),
        ("[job{id=7}]debug", FieldError::Misshapen),
        ("[job{id=7}x]=debug", FieldError::Misshapen),
        ("a=b[job{id=7}]=debug", FieldError::Misshapen),
        ("[j]ob{id=7}]=debug", FieldError::Misshapen),
        ("[{id=7}]=debug", FieldError::Misshapen),
        ("[job{=7}]=debug", FieldError::Misshapen),
        ("[job{i}d=7}]=debug", FieldError::Misshapen),
        ("[job{id=7}]=loud", FieldError::UnknownLevel),
        ("[job{id=7}]=info=info", FieldError::UnknownLevel),
    ];
    for (text, error) in rows {
        is_wrong(&rt, rt.alloc(), text, error);
    }
    Ok(())
}

/// A text is wrong for this reason.
fn is_wrong(rt: &impl Abort, alloc: Global, text: &str, error: FieldError) {
    match FieldDirective::parse(alloc, text) {
        Ok(_) => assert!(rt; false),
        Err(found) => assert!(rt; found == error),
    }
}
