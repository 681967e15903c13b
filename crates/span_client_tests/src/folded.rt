//! Tests of folded stacks by scope, which were worked out by hand.
use span_core::{FieldSet, Id, Kind, Lane, Level, Metadata};
use span_export::{folded_scopes, folded_text};
use span_times::{FieldRange, Happening, OwnedField, OwnedValue, Point, Site, Table};
use std::alloc::Global;
use std::test::Fail;

/// At this time, on this lane, with the first of the fields or without any.
fn at(time: u64, lane: u32, what: Happening) -> Point {
    let to = match what {
        Happening::Opened(_, 4, _) => 1,
        _ => 0,
    };
    Point {
        time,
        lane: Lane(lane),
        what,
        fields: FieldRange { from: 0, to },
    }
}

/// The sites of four spans, the last of a hostile name.
fn sites(alloc: Global) -> Result<Vec<Site>, Fail> {
    let mut sites = Vec::new(alloc);
    let names = ["serve", "job", "query", "a;b\n<c 2>\r\\\0"];
    for (place, name) in names.iter().enumerate() {
        let (callsite, fields) = (place as u64 + 1, FieldSet::new(&[]));
        let metadata = Metadata::new(callsite, name, "app", Level::INFO, Kind::SPAN, fields);
        sites.push(Site::of(alloc, metadata)?)?;
    }
    Ok(sites)
}

/// The folded stacks of these points by entries, and by scope.
fn folded(alloc: Global, points: &[Point]) -> Result<(String, String), Fail> {
    let sites = sites(alloc)?;
    let name = String::from_str(alloc, "k;")?;
    let value = OwnedValue::Text(String::from_str(alloc, "\"; 1\n</script>")?);
    let mut fields = Vec::new(alloc);
    fields.push(OwnedField { name, value })?;
    let table = Table {
        sites: &sites,
        fields: &fields,
        above: &[],
    };
    let entered = folded_text(alloc, points, table)?;
    Ok((entered, folded_scopes(alloc, points, table)?))
}

#[test]
fn parents_are_above_on_every_lane(rt: HostRuntime) -> Result<(), Fail> {
    let (serve, job, query) = (Id::from_u64(1), Id::from_u64(2), Id::from_u64(3));
    let points = [
        at(0, 0, Happening::Opened(serve, 1, None)),
        at(0, 0, Happening::Entered(serve)),
        at(10, 0, Happening::Opened(job, 2, Some(serve))),
        at(10, 1, Happening::Entered(job)),
        at(14, 1, Happening::Opened(query, 3, Some(job))),
        at(14, 2, Happening::Entered(query)),
        at(20, 2, Happening::Left(query)),
        at(25, 1, Happening::Left(job)),
        at(30, 0, Happening::Left(serve)),
    ];
    let (entered, scopes) = folded(rt.alloc(), &points)?;
    assert!(rt; entered.as_str() == "job 15\nquery 6\nserve 30\n");
    assert!(rt; scopes.as_str() == "serve 30\nserve;job 15\nserve;job;query 6\n");
    Ok(())
}

/// The parent closes while its child is entered, which is in no stack of entries; a span that was
/// entered last closes, which leaves the one below; a parent isn't opened among the points.
#[test]
fn what_closed_or_is_not_known(rt: HostRuntime) -> Result<(), Fail> {
    let (parent, child, other) = (Id::from_u64(1), Id::from_u64(2), Id::from_u64(3));
    let points = [
        at(0, 0, Happening::Opened(parent, 1, None)),
        at(0, 0, Happening::Opened(child, 2, Some(parent))),
        at(0, 0, Happening::Opened(other, 3, Some(Id::from_u64(9)))),
        at(0, 0, Happening::Entered(child)),
        at(5, 1, Happening::Closed(parent)),
        at(7, 0, Happening::Entered(other)),
        at(8, 0, Happening::Closed(other)),
        at(11, 0, Happening::Left(child)),
    ];
    let (entered, scopes) = folded(rt.alloc(), &points)?;
    assert!(rt; entered.as_str() == "job 10\njob;query 1\n");
    assert!(rt; scopes.as_str() == "?;query 1\nserve;job 10\n");
    Ok(())
}

/// A frame of a hostile name and value, between others.
const HOSTILE: &str = "serve 1
serve;a\\u{3b}b\\n<c_2>\\r\\\\\\u{0}{k\\u{3b}=\"\\\"\\u{3b}_1\\n</script>\"} 2
serve;a\\u{3b}b\\n<c_2>\\r\\\\\\u{0}{k\\u{3b}=\"\\\"\\u{3b}_1\\n</script>\"};query 4
";

#[test]
fn a_hostile_parent_stays_one_frame(rt: HostRuntime) -> Result<(), Fail> {
    let (serve, odd, query) = (Id::from_u64(1), Id::from_u64(2), Id::from_u64(3));
    let points = [
        at(0, 0, Happening::Opened(serve, 1, None)),
        at(0, 0, Happening::Opened(odd, 4, Some(serve))),
        at(0, 0, Happening::Opened(query, 3, Some(odd))),
        at(0, 0, Happening::Entered(serve)),
        at(1, 0, Happening::Left(serve)),
        at(1, 1, Happening::Entered(odd)),
        at(3, 1, Happening::Left(odd)),
        at(3, 2, Happening::Entered(query)),
        at(7, 2, Happening::Closed(query)),
    ];
    let (_, scopes) = folded(rt.alloc(), &points)?;
    assert!(rt; scopes.as_str() == HOSTILE);
    Ok(())
}
