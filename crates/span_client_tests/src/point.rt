//! Points, worked out by hand and of a timeline, and what they refer to.
ghost use Rattle.span_dispatch.specs.Serve.{stack_of};

use crate::fixture::in_use;
use span_core::{Attributes, FieldSet, FieldValue, Id, Kind, Lane, Level, Metadata};
use span_dispatch::Dispatch;
use span_layers::Observer;
use span_registry::{Registry, Subscriber};
use span_times::{
    Counted, FieldRange, Happening, OwnedField, OwnedValue, Point, Site, Table, Taken, Timeline,
};
use std::alloc::Global;
use std::test::Fail;

/// At this time, on this lane, with these fields.
pub(crate) fn with(time: u64, lane: u32, what: Happening, from: usize, to: usize) -> Point {
    Point {
        time,
        lane: Lane(lane),
        what,
        fields: FieldRange { from, to },
    }
}

/// At this time, on this lane, without fields.
pub(crate) fn at(time: u64, lane: u32, what: Happening) -> Point {
    with(time, lane, what, 0, 0)
}

/// The site of a callsite with this number.
pub(crate) fn site(
    alloc: Global,
    callsite: u64,
    name: &'static str,
    target: &'static str,
    level: Level,
) -> Result<Site, Fail> {
    let fields = FieldSet::new(&[]);
    let metadata = Metadata::new(callsite, name, target, level, Kind::SPAN, fields);
    Ok(Site::of(alloc, metadata)?)
}

/// The sites of two spans and two events.
pub(crate) fn sites(alloc: Global) -> Result<Vec<Site>, Fail> {
    let mut sites = Vec::new(alloc);
    sites.push(site(alloc, 1, "outer", "app", Level::INFO)?)?;
    sites.push(site(alloc, 2, "inner", "app::net", Level::DEBUG)?)?;
    sites.push(site(alloc, 3, "<said>", "app", Level::WARN)?)?;
    sites.push(site(alloc, 4, "broken", "app", Level::ERROR)?)?;
    Ok(sites)
}

/// Two spans on one lane, one in the other, with an event within both; a span of an unknown
/// callsite on another lane.
pub(crate) fn points() -> [Point; 12] {
    let (first, second, other) = (Id::from_u64(1), Id::from_u64(2), Id::from_u64(7));
    [
        with(1000, 0, Happening::Opened(first, 1, None), 0, 2),
        at(2000, 0, Happening::Entered(first)),
        at(3000, 0, Happening::Opened(second, 2, Some(first))),
        at(4000, 0, Happening::Entered(second)),
        with(5000, 0, Happening::Sent(3, Some(second)), 2, 3),
        at(6000, 1, Happening::Opened(other, 9, Some(first))),
        at(6500, 1, Happening::Entered(other)),
        at(7000, 0, Happening::Left(second)),
        at(8000, 0, Happening::Closed(second)),
        at(9000, 1, Happening::Left(other)),
        at(10000, 0, Happening::Left(first)),
        at(11999, 0, Happening::Closed(first)),
    ]
}

/// These sites, and no fields.
pub(crate) fn names(sites: &[Site]) -> Table<'_> {
    Table {
        sites,
        fields: &[],
        above: &[],
    }
}

/// The fields that these came with.
pub(crate) fn fields(alloc: Global) -> Result<Vec<OwnedField>, Fail> {
    let mut fields = Vec::new(alloc);
    fields.push(field(alloc, "id", OwnedValue::U64(7))?)?;
    let words = String::from_str(alloc, "a \"b\"")?;
    fields.push(field(alloc, "for", OwnedValue::Text(words))?)?;
    fields.push(field(alloc, "left", OwnedValue::I64(-3))?)?;
    Ok(fields)
}

/// A field with this value.
pub(crate) fn field(alloc: Global, name: &str, value: OwnedValue) -> Result<OwnedField, Fail> {
    let name = String::from_str(alloc, name)?;
    Ok(OwnedField { name, value })
}

/// A text with what some format gives a meaning, and 10 KB behind it.
pub(crate) fn hostile(alloc: Global) -> Result<String, Fail> {
    let mut text = String::from_str(alloc, "\"<a;b>&\\\n\0 x}")?;
    for _ in 0..10_240 {
        text.push_str("y")?;
    }
    Ok(text)
}

/// One field with such a value, and a name alike.
pub(crate) fn hostile_fields(alloc: Global) -> Result<Vec<OwnedField>, Fail> {
    let mut fields = Vec::new(alloc);
    fields.push(field(alloc, "a;b\"", OwnedValue::Text(hostile(alloc)?))?)?;
    Ok(fields)
}

/// A span that was given it, and that a lane is in.
pub(crate) fn hostile_points() -> [Point; 3] {
    let first = Id::from_u64(1);
    [
        with(0, 0, Happening::Opened(first, 1, None), 0, 1),
        at(1, 0, Happening::Entered(first)),
        at(2, 0, Happening::Closed(first)),
    ]
}

/// Opens a span, which was given its id, and is in it until it closes.
fn run_job<S: Subscriber>(dispatch: &mut Dispatch<S>) -> Result<(), Fail>
    requires { S.usable (stack_of dispatch.old) }
{
    let fields = FieldSet::new(&["id"]);
    let metadata = Metadata::new(1, "job", "queue", Level::INFO, Kind::SPAN, fields);
    let values = [("id", FieldValue::U64(7))];
    let job = Attributes::new_root(metadata, &values);
    let Some(id) = dispatch.new_span(Lane(0), &job)? else {
        return Err(Fail::from("dropped"));
    };
    dispatch.enter(Lane(0), id)?;
    dispatch.exit(Lane(0), id);
    dispatch.drop_span(Lane(0), id)?;
    Ok(())
}

/// What a timeline has of such a span.
pub(crate) fn job(alloc: Global) -> Result<Taken, Fail> {
    let layer = Observer::new(Timeline::new(alloc, Counted::new()).with_values(true));
    let mut dispatch = in_use(alloc, Registry::new(alloc), layer)?;
    run_job(&mut dispatch)?;
    let (layer, _registry) = dispatch.into_stack().into_parts();
    let mut timeline = layer.into_observer();
    Ok(timeline.take())
}
