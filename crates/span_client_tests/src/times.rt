//! Timelines that were worked out by hand.
ghost use Rattle.std.specs.Prelude.{IfOk};
ghost use Rattle.span_dispatch.specs.Serve.{stack_of};

use crate::fixture::in_use;
use span_core::{
    Attributes, Event, FieldSet, FieldValue, Id, Kind, Lane, Level, LevelFilter, Metadata, Record,
};
use span_dispatch::{Dispatch, Request, WhichParent};
use span_layers::Observer;
use span_registry::{Registry, Subscriber};
use span_stacks::LayerExt;
use span_times::{
    Counted, Counts, FieldRange, Happening, Now, OwnedField, OwnedValue, Point, Taken, Timeline,
    Wall, busy_time, idle_time, open_time, serve_timed,
};
use std::cell::Cell;
use std::io;
use std::process::Abort;
use std::test::Fail;
use std::time::{Clock, Duration};

const LANE: Lane = Lane(3);

/// A span's callsite.
fn span_called(callsite: u64, name: &'static str, level: Level) -> Metadata {
    Metadata::new(callsite, name, "app", level, Kind::SPAN, FieldSet::new(&[]))
}

/// An event's callsite.
fn event_called(callsite: u64, name: &'static str) -> Metadata {
    let fields = FieldSet::new(&[]);
    Metadata::new(callsite, name, "app", Level::INFO, Kind::EVENT, fields)
}

/// Opens a span, is in it twice, the first time with an event, and drops it.
fn live<S: Subscriber>(dispatch: &mut Dispatch<S>) -> Result<Id, Fail>
    requires { S.usable (stack_of dispatch.old) }
{
    let fetch = span_called(1, "fetch", Level::INFO);
    let done = event_called(2, "done");
    let Some(id) = dispatch.new_span(LANE, &Attributes::new_root(fetch, &[]))? else {
        return Err(Fail::from("dropped"));
    };
    dispatch.enter(LANE, id)?;
    dispatch.event(LANE, &Event::new_root(done, &[]))?;
    dispatch.exit(LANE, id);
    dispatch.enter(LANE, id)?;
    dispatch.exit(LANE, id);
    dispatch.drop_span(LANE, id)?;
    Ok(id)
}

#[test]
fn a_span_is_timed(rt: HostRuntime) -> Result<(), Fail> {
    let layer = Observer::new(Timeline::new(rt.alloc(), Counted::new()));
    let mut dispatch = in_use(rt.alloc(), Registry::new(rt.alloc()), layer)?;
    let id = live(&mut dispatch)?;
    is_timed(&rt, dispatch.into_stack().outer().observer(), id);
    Ok(())
}

/// A span was open for 6 µs, half of them busy, and nothing else happened.
fn is_timed(rt: &impl Abort, timeline: &Timeline<Counted>, id: Id) {
    let points = timeline.points();
    assert!(rt; !timeline.failed());
    assert!(rt; points.len() == 7);
    assert!(rt; points[3] == at(4000, Happening::Left(id)));
    assert!(rt; busy_time(points, id) == 3000);
    assert!(rt; idle_time(points, id) == 3000);
    assert!(rt; open_time(points, id) == Some(6000));
    let counts = Counts::of(points);
    assert!(rt; (counts.opened, counts.closed, counts.events) == (1, 1, 1));
}

#[test]
fn a_list_is_timed(rt: HostRuntime) -> Result<(), Fail> {
    let layer = Observer::new(Timeline::new(rt.alloc(), Counted::new()));
    let mut dispatch = in_use(rt.alloc(), Registry::new(rt.alloc()), layer)?;
    let requests = [Request::Event {
        lane: LANE,
        metadata: event_called(5, "ping"),
        parent: WhichParent::Root,
        values: &[],
    }];
    serve_timed(rt.alloc(), &mut dispatch, &requests)?;
    let (layer, _registry) = dispatch.into_stack().into_parts();
    takes_its_point(&rt, &mut layer.into_observer());
    Ok(())
}

/// A timeline's one point is taken out.
fn takes_its_point(rt: &impl Abort, timeline: &mut Timeline<Counted>) {
    let taken = timeline.take();
    assert!(rt; taken.points.len() == 1);
    assert!(rt; taken.points[0] == at(1000, Happening::Sent(5, None)));
    assert!(rt; timeline.points().is_empty());
}

fn outer() -> Metadata {
    span_called(1, "outer", Level::INFO)
}

fn middle() -> Metadata {
    span_called(2, "middle", Level::DEBUG)
}

fn inner() -> Metadata {
    span_called(3, "inner", Level::INFO)
}

fn said() -> Metadata {
    event_called(4, "said")
}

/// Opens three spans, each in the one before, the second at a lower level; sends an event on the
/// lane that is in the second, and another that asks for it.
fn nested<S: Subscriber>(dispatch: &mut Dispatch<S>) -> Result<[Id; 3], Fail>
    requires { S.usable (stack_of dispatch.old) }
{
    let Some(a) = dispatch.new_span(LANE, &Attributes::new(outer(), &[]))? else {
        return Err(Fail::from("dropped"));
    };
    dispatch.enter(LANE, a)?;
    let Some(b) = dispatch.new_span(LANE, &Attributes::new(middle(), &[]))? else {
        return Err(Fail::from("dropped"));
    };
    dispatch.enter(LANE, b)?;
    let Some(c) = dispatch.new_span(LANE, &Attributes::new(inner(), &[]))? else {
        return Err(Fail::from("dropped"));
    };
    dispatch.event(LANE, &Event::new(said(), &[]))?;
    dispatch.event(LANE, &Event::new_child_of(b, said(), &[]))?;
    Ok([a, b, c])
}

/// A timeline of all has the points of these spans.
fn shows_all(rt: &impl Abort, timeline: &Timeline<Counted>, [a, b, c]: [Id; 3]) {
    let points = [
        at(1000, Happening::Opened(a, 1, None)),
        at(2000, Happening::Entered(a)),
        at(3000, Happening::Opened(b, 2, Some(a))),
        at(4000, Happening::Entered(b)),
        at(5000, Happening::Opened(c, 3, Some(b))),
        at(6000, Happening::Sent(4, Some(b))),
        at(7000, Happening::Sent(4, Some(b))),
    ];
    assert!(rt; timeline.points() == points.as_slice());
}

/// One under INFO has those of the first and the third.
fn shows_part(rt: &impl Abort, timeline: &Timeline<Counted>, [a, _, c]: [Id; 3]) {
    let points = [
        at(1000, Happening::Opened(a, 1, None)),
        at(2000, Happening::Entered(a)),
        at(3000, Happening::Opened(c, 3, Some(a))),
        at(4000, Happening::Sent(4, Some(a))),
        at(5000, Happening::Sent(4, None)),
    ];
    assert!(rt; timeline.points() == points.as_slice());
}

#[test]
fn parents_are_those_that_it_sees(rt: HostRuntime) -> Result<(), Fail> {
    let alloc = rt.alloc();
    let whole = Observer::new(Timeline::new(alloc, Counted::new()));
    let part = Observer::new(Timeline::new(alloc, Counted::new())).with_filter(LevelFilter::INFO);
    let mut dispatch = in_use(alloc, Registry::new(alloc), whole.and_then(part))?;
    let spans = nested(&mut dispatch)?;
    let both = dispatch.stack().outer();
    shows_all(&rt, both.inner().observer(), spans);
    shows_part(&rt, both.outer().layer().observer(), spans);
    Ok(())
}

/// At this time, on one lane, without fields.
fn at(time: u64, what: Happening) -> Point {
    Point {
        time,
        lane: LANE,
        what,
        fields: FieldRange::NONE,
    }
}

/// Opens a span with values, of which one is absent.
fn open_with_values<S: Subscriber>(dispatch: &mut Dispatch<S>) -> Result<Id, Fail>
    requires { S.usable (stack_of dispatch.old) }
    ensures { IfOk result (λ id. S.usable (stack_of dispatch.new)) }
{
    let values = [("id", FieldValue::U64(7)), ("absent", FieldValue::Absent)];
    let job = Attributes::new_root(span_called(1, "job", Level::INFO), &values);
    match dispatch.new_span(LANE, &job)? {
        Some(id) => Ok(id),
        None => Err(Fail::from("dropped")),
    }
}

/// Opens a span with values, records another one of it and sends an event with values.
fn with_values<S: Subscriber>(dispatch: &mut Dispatch<S>) -> Result<(), Fail>
    requires { S.usable (stack_of dispatch.old) }
{
    let id = open_with_values(dispatch)?;
    let recorded = [("kind", FieldValue::Text("slow"))];
    dispatch.record(LANE, id, &Record::new(&recorded))?;
    dispatch.enter(LANE, id)?;
    let values = [
        ("a", FieldValue::I64(-1)),
        ("b", FieldValue::U128(2)),
        ("c", FieldValue::I128(-3)),
        ("d", FieldValue::Bool(true)),
    ];
    dispatch.event(LANE, &Event::new(said(), &values))?;
    Ok(())
}

#[test]
fn values_come_with_their_points(rt: HostRuntime) -> Result<(), Fail> {
    let alloc = rt.alloc();
    let timeline = Timeline::new(alloc, Counted::new()).with_values(true);
    let mut dispatch = in_use(alloc, Registry::new(alloc), Observer::new(timeline))?;
    with_values(&mut dispatch)?;
    let stack = dispatch.into_stack();
    let timeline = stack.outer().observer();
    let (points, table) = (timeline.points(), timeline.table());
    assert!(rt; points.len() == 4);
    assert!(rt; table.sites.len() == 2 && table.sites[0].name.as_str() == "job");
    let opened = points[0].fields_in(table.fields);
    assert!(rt; opened.len() == 1);
    assert!(rt; opened[0].name.as_str() == "id" && opened[0].value == OwnedValue::U64(7));
    let recorded = points[1].fields_in(table.fields);
    let slow = OwnedValue::Text(String::from_str(alloc, "slow")?);
    assert!(rt;
        recorded.len() == 1 && recorded[0].name.as_str() == "kind" && recorded[0].value == slow
    );
    assert!(rt; points[2].fields_in(table.fields).is_empty());
    let sent = points[3].fields_in(table.fields);
    assert!(rt; sent.len() == 4 && sent[2].value == OwnedValue::I128(-3));
    Ok(())
}

#[test]
fn values_are_kept_where_asked(rt: HostRuntime) -> Result<(), Fail> {
    let alloc = rt.alloc();
    let timeline = Observer::new(Timeline::new(alloc, Counted::new()));
    let mut dispatch = in_use(alloc, Registry::new(alloc), timeline)?;
    with_values(&mut dispatch)?;
    let stack = dispatch.into_stack();
    assert!(rt; stack.outer().observer().points().len() == 4);
    assert!(rt; stack.outer().observer().table().fields.is_empty());
    Ok(())
}

/// Sends an event outside of all spans; opens a span with a value, is in it with an event that has
/// another one, and drops it.
fn do_job<S: Subscriber>(dispatch: &mut Dispatch<S>) -> Result<Id, Fail>
    requires { S.usable (stack_of dispatch.old) }
    ensures { IfOk result (λ id. S.usable (stack_of dispatch.new)) }
{
    dispatch.event(LANE, &Event::new_root(said(), &[]))?;
    let job = open_with_values(dispatch)?;
    dispatch.enter(LANE, job)?;
    let values = [("done", FieldValue::Bool(true))];
    dispatch.event(LANE, &Event::new(said(), &values))?;
    dispatch.exit(LANE, job);
    dispatch.drop_span(LANE, job)?;
    Ok(job)
}

/// Opens a span with a value, does a job meanwhile, and records another value of it.
fn do_job_meanwhile<S: Subscriber>(dispatch: &mut Dispatch<S>) -> Result<[Id; 2], Fail>
    requires { S.usable (stack_of dispatch.old) }
{
    let open = open_with_values(dispatch)?;
    let job = do_job(dispatch)?;
    let recorded = [("kind", FieldValue::Text("slow"))];
    dispatch.record(LANE, open, &Record::new(&recorded))?;
    Ok([open, job])
}

#[test]
fn what_is_over_is_handed_out(rt: HostRuntime) -> Result<(), Fail> {
    let alloc = rt.alloc();
    let timeline = Timeline::new(alloc, Counted::new()).with_values(true);
    let mut dispatch = in_use(alloc, Registry::new(alloc), Observer::new(timeline))?;
    let [open, job] = do_job_meanwhile(&mut dispatch)?;
    let (layer, _registry) = dispatch.into_stack().into_parts();
    let mut timeline = layer.into_observer();
    let taken = timeline.take_finished()?;
    hands_out_job(&rt, &taken, job);
    assert!(rt; taken.above.as_slice() == [Happening::Opened(open, 1, None)].as_slice());
    keeps_open(&rt, &timeline, open);
    assert!(rt; timeline.take_finished()?.points.is_empty());
    keeps_open(&rt, &timeline, open);
    Ok(())
}

/// The job was handed out, with the event outside, and its values.
fn hands_out_job(rt: &impl Abort, taken: &Taken, job: Id) {
    let points = &taken.points;
    assert!(rt; points.len() == 6);
    assert!(rt; is_at(&points[0], 2000, Happening::Sent(4, None)));
    assert!(rt; is_at(&points[1], 3000, Happening::Opened(job, 1, None)));
    assert!(rt; is_at(&points[2], 4000, Happening::Entered(job)));
    assert!(rt; is_at(&points[3], 5000, Happening::Sent(4, Some(job))));
    assert!(rt; is_at(&points[4], 6000, Happening::Left(job)));
    assert!(rt; is_at(&points[5], 7000, Happening::Closed(job)));
    let (opened, sent) = (
        points[1].fields_in(&taken.fields),
        points[3].fields_in(&taken.fields),
    );
    assert!(rt; opened.len() == 1 && opened[0].value == OwnedValue::U64(7));
    assert!(rt; sent.len() == 1 && sent[0].value == OwnedValue::Bool(true));
    assert!(rt; taken.fields.len() == 2 && taken.sites.len() == 2);
}

/// The points of a span that is open are there, with their values.
fn keeps_open(rt: &impl Abort, timeline: &Timeline<Counted>, open: Id) {
    let (points, table) = (timeline.points(), timeline.table());
    assert!(rt; points.len() == 2);
    assert!(rt; is_at(&points[0], 1000, Happening::Opened(open, 1, None)));
    assert!(rt; is_at(&points[1], 8000, Happening::Recorded(open)));
    let recorded = points[1].fields_in(table.fields);
    assert!(rt; recorded.len() == 1 && recorded[0].name.as_str() == "kind");
    assert!(rt; table.fields.len() == 2 && table.sites.len() == 2);
}

/// It is of this time, and this happened.
fn is_at(point: &Point, time: u64, what: Happening) -> bool {
    point.time == time && point.lane == LANE && point.what == what
}

#[test]
fn each_job_is_handed_out_once(rt: HostRuntime) -> Result<(), Fail> {
    let alloc = rt.alloc();
    let timeline = Timeline::new(alloc, Counted::new());
    let mut dispatch = in_use(alloc, Registry::new(alloc), Observer::new(timeline))?;
    do_job(&mut dispatch)?;
    let (layer, registry) = dispatch.into_stack().into_parts();
    let mut timeline = layer.into_observer();
    assert!(rt; one_job(&timeline.take_finished()?));
    assert!(rt; timeline.points().is_empty());
    let mut dispatch = in_use(alloc, registry, Observer::new(timeline))?;
    do_job(&mut dispatch)?;
    let (layer, _registry) = dispatch.into_stack().into_parts();
    let mut timeline = layer.into_observer();
    let taken = timeline.take_finished()?;
    assert!(rt; one_job(&taken) && taken.points.len() == 6);
    assert!(rt; taken.points[0].time == 7000);
    Ok(())
}

/// One span opened and closed, and there were two events.
fn one_job(taken: &Taken) -> bool {
    let counts = Counts::of(&taken.points);
    counts.opened == 1 && counts.closed == 1 && counts.events == 2
}

#[test]
fn how_large_points_are(rt: HostRuntime) {
    assert!(rt; size_of::<Point>() == 72);
}

#[test]
fn how_large_fields_are(rt: HostRuntime) {
    assert!(rt; size_of::<OwnedField>() == 80);
}

#[test]
fn times_of_points(rt: HostRuntime) {
    let a = Id::from_u64(1);
    let b = Id::from_u64(2);
    let points = [
        at(5, Happening::Entered(a)),
        at(7, Happening::Entered(b)),
        at(9, Happening::Entered(a)),
        at(12, Happening::Left(a)),
        at(20, Happening::Left(a)),
        at(21, Happening::Closed(a)),
        at(22, Happening::Left(b)),
    ];
    assert!(rt;
        busy_time(&points, a) == 3,
        "the later entry counts, and each exit once"
    );
    assert!(rt; idle_time(&points, a) == 1, "the later exit counts");
    assert!(rt; open_time(&points, a) == None, "it wasn't seen to open");
    assert!(rt; busy_time(&points, b) == 15);
}

/// A clock that goes back after its first reading, can't be read then, and goes on.
#[derive(Drop)]
struct Faulty {
    read: Cell<u64>,
}

impl Clock for Faulty {
    fn monotonic(&self) -> io::Result<Duration> {
        let read = self.read.get();
        self.read.set(read.saturating_add(1));
        match read {
            0 => Ok(Duration::new(5, 1)),
            1 => Ok(Duration::new(3, 0)),
            2 => Err(io::Error::from(io::ErrorKind::Other)),
            _ => Ok(Duration::new(9, 0)),
        }
    }

    fn since_1970(&self) -> io::Result<Duration> {
        self.monotonic()
    }
}

#[test]
fn the_wall_clock_never_goes_back(rt: HostRuntime) {
    let mut wall = Wall::new(Faulty { read: Cell::new(0) });
    for want in [5_000_000_001, 5_000_000_001, 5_000_000_001, 9_000_000_000] {
        assert!(rt; wall.now() == want);
    }
}
