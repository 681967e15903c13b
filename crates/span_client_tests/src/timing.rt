//! Tests of how times are spread, which were worked out by hand.

use crate::fixture::in_use;
use span_core::{Attributes, Event, FieldSet, Id, Kind, Lane, Level, Metadata};
use span_layers::Observer;
use span_registry::Registry;
use span_times::{Counted, FieldRange, Happening, Point, Site, Timeline};
use span_timing::{Histogram, Timing, timing_text};
use std::alloc::Global;
use std::process::Abort;
use std::test::Fail;

/// At this time.
fn at(time: u64, what: Happening) -> Point {
    Point {
        time,
        lane: Lane(0),
        what,
        fields: FieldRange::NONE,
    }
}

/// A callsite with this number.
fn called(callsite: u64, name: &'static str, kind: Kind) -> Metadata {
    let fields = FieldSet::new(&[]);
    Metadata::new(callsite, name, "app", Level::INFO, kind, fields)
}

/// The sites of two spans and an event.
fn sites(alloc: Global) -> Result<Vec<Site>, Fail> {
    let mut sites = Vec::new(alloc);
    sites.push(Site::of(alloc, called(9, "fetch", Kind::SPAN))?)?;
    sites.push(Site::of(alloc, called(1, "a b\n", Kind::SPAN))?)?;
    sites.push(Site::of(alloc, called(3, "done", Kind::EVENT))?)?;
    Ok(sites)
}

#[test]
fn small_times_are_exact(rt: HostRuntime) -> Result<(), Fail> {
    let mut times = Histogram::new(rt.alloc());
    assert!(rt; times.count() == 0 && times.most() == 0 && times.quantile(1, 2) == 0);
    for time in [7, 3, 1, 10, 5, 2, 8, 4, 6, 9u64] {
        times.add(time)?;
    }
    assert!(rt; times.count() == 10);
    assert!(rt; times.most() == 10);
    assert!(rt; times.quantile(1, 10) == 1);
    assert!(rt; times.quantile(50, 100) == 5);
    assert!(rt; times.quantile(51, 100) == 6);
    assert!(rt; times.quantile(90, 100) == 9);
    assert!(rt; times.quantile(1, 1) == 10);
    Ok(())
}

#[test]
fn great_times_are_a_sixteenth_too_great_at_most(rt: HostRuntime) -> Result<(), Fail> {
    let mut times = Histogram::new(rt.alloc());
    for time in [1000, 1000, 1000, 5000u64] {
        times.add(time)?;
    }
    assert!(rt; times.quantile(75, 100) == 1023);
    assert!(rt; times.quantile(76, 100) == 5000);
    times.add(u64::MAX)?;
    assert!(rt; times.quantile(80, 100) == 5119);
    assert!(rt; times.quantile(999, 1000) == u64::MAX);
    assert!(rt; times.most() == u64::MAX && times.count() == 5);
    Ok(())
}

/// A span in which another one and an event are, and a close without an opening.
fn first_batch() -> [Point; 8] {
    let (outer, inner) = (Id::from_u64(1), Id::from_u64(2));
    [
        at(1000, Happening::Opened(outer, 9, None)),
        at(2000, Happening::Entered(outer)),
        at(3000, Happening::Opened(inner, 1, Some(outer))),
        at(3100, Happening::Sent(3, Some(outer))),
        at(3999, Happening::Closed(inner)),
        at(5000, Happening::Left(outer)),
        at(9000, Happening::Closed(outer)),
        at(9000, Happening::Closed(Id::from_u64(7))),
    ]
}

/// One more span of the outer one's callsite, under that one's id, and an event of nobody's.
fn second_batch() -> [Point; 5] {
    let outer = Id::from_u64(1);
    [
        at(10000, Happening::Opened(outer, 9, None)),
        at(11000, Happening::Entered(outer)),
        at(12000, Happening::Left(outer)),
        at(13000, Happening::Closed(outer)),
        at(13000, Happening::Sent(8, None)),
    ]
}

const TABLE: &str = "\
span   target  count  time      50%      90%      99%     most
fetch  app         2  open  3.07 µs  8.00 µs  8.00 µs  8.00 µs
                      busy  1.02 µs  3.00 µs  3.00 µs  3.00 µs
                      idle  2.04 µs  5.00 µs  5.00 µs  5.00 µs
a b\\n  app         1  open   999 ns   999 ns   999 ns   999 ns
                      busy     0 ns     0 ns     0 ns     0 ns
                      idle   999 ns   999 ns   999 ns   999 ns
event  target  count
done   app         1
?      ?           1
";

#[test]
fn spans_are_spread_by_callsites(rt: HostRuntime) -> Result<(), Fail> {
    let alloc = rt.alloc();
    let mut timing = Timing::new(alloc);
    timing.add(&first_batch())?;
    timing.add(&second_batch())?;
    let Some(row) = timing.row(9) else {
        return Err(Fail::from("no row"));
    };
    assert!(rt; row.open.count() == 2 && row.open.most() == 8000);
    assert!(rt; row.busy.count() == 2 && row.busy.most() == 3000);
    assert!(rt; row.idle.count() == 2 && row.idle.most() == 5000);
    assert!(rt; timing.row(3).is_none());
    assert!(rt; timing.events(3) == 1 && timing.events(8) == 1 && timing.events(9) == 0);
    assert!(rt; timing_text(alloc, &timing, &sites(alloc)?)?.as_str() == TABLE);
    Ok(())
}

const LONG: &str = "\
span   target  count  time      50%      90%      99%     most
fetch  app         1  open  12.3 ms  12.3 ms  12.3 ms  12.3 ms
                      busy   456 µs   456 µs   456 µs   456 µs
                      idle  11.8 ms  11.8 ms  11.8 ms  11.8 ms
a b\\n  app         1  open   1234 s   1234 s   1234 s   1234 s
                      busy     0 ns     0 ns     0 ns     0 ns
                      idle   1234 s   1234 s   1234 s   1234 s
event  target  count
";

#[test]
fn times_are_in_units_of_their_size(rt: HostRuntime) -> Result<(), Fail> {
    let alloc = rt.alloc();
    let (short, long) = (Id::from_u64(1), Id::from_u64(2));
    let points = [
        at(0, Happening::Opened(short, 9, None)),
        at(0, Happening::Opened(long, 1, None)),
        at(0, Happening::Entered(short)),
        at(456_789, Happening::Left(short)),
        at(12_345_678, Happening::Closed(short)),
        at(1_234_567_890_123, Happening::Closed(long)),
    ];
    let mut timing = Timing::new(alloc);
    timing.add(&points)?;
    assert!(rt; timing_text(alloc, &timing, &sites(alloc)?)?.as_str() == LONG);
    Ok(())
}

/// A span with an event, which the timeline's clock counts at 1, 2, 3, 4 and 5 µs.
#[test]
fn what_a_timeline_hands_out_is_counted(rt: HostRuntime) -> Result<(), Fail> {
    let alloc = rt.alloc();
    let layer = Observer::new(Timeline::new(alloc, Counted::new()));
    let mut dispatch = in_use(alloc, Registry::new(alloc), layer)?;
    let fetch = called(9, "fetch", Kind::SPAN);
    let done = called(3, "done", Kind::EVENT);
    let lane = Lane(0);
    let Some(id) = dispatch.new_span(lane, &Attributes::new_root(fetch, &[]))? else {
        return Err(Fail::from("dropped"));
    };
    dispatch.enter(lane, id)?;
    dispatch.event(lane, &Event::new_root(done, &[]))?;
    dispatch.exit(lane, id);
    dispatch.drop_span(lane, id)?;
    let (layer, _registry) = dispatch.into_stack().into_parts();
    let taken = layer.into_observer().take_finished()?;
    let mut timing = Timing::new(alloc);
    timing.add(&taken.points)?;
    let Some(row) = timing.row(9) else {
        return Err(Fail::from("no row"));
    };
    assert!(rt; row.open.most() == 4000 && row.open.count() == 1);
    assert!(rt; row.busy.most() == 2000 && row.idle.most() == 2000);
    assert!(rt; timing.events(3) == 1);
    Ok(())
}
