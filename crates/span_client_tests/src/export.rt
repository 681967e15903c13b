//! Tests of exports, which were worked out by hand.
use crate::point::{at, fields, hostile_fields, hostile_points, job, names, points, site, sites};
use span_core::{Id, Level};
use span_export::{
    PAGE_HEAD, PAGE_TAIL, chrome_lines, chrome_text, folded_text, timeline_page, timeline_svg,
};
use span_times::{Happening, Point, Table};
use std::alloc::Global;
use std::test::Fail;

const TRACE: &str = "{\"traceEvents\":[\
{\"args\":{\"name\":\"lane 0\"},\"name\":\"thread_name\",\"ph\":\"M\",\"pid\":1,\"tid\":0},\
{\"args\":{\"for\":\"a \\\"b\\\"\",\"id\":7},\"cat\":\"app\",\"id\":\"1\",\"name\":\"outer\",\
\"ph\":\"b\",\"pid\":1,\"tid\":0,\"ts\":0.0},\
{\"args\":{\"for\":\"a \\\"b\\\"\",\"id\":7},\"cat\":\"app\",\"id\":\"1\",\"name\":\"outer\",\
\"ph\":\"B\",\"pid\":1,\"tid\":0,\"ts\":1.0},\
{\"args\":{},\"cat\":\"app::net\",\"id\":\"2\",\"name\":\"inner\",\"ph\":\"b\",\"pid\":1,\
\"tid\":0,\"ts\":2.0},\
{\"args\":{},\"cat\":\"app::net\",\"id\":\"2\",\"name\":\"inner\",\"ph\":\"B\",\"pid\":1,\
\"tid\":0,\"ts\":3.0},\
{\"args\":{\"left\":-3},\"cat\":\"app\",\"name\":\"<said>\",\"ph\":\"i\",\"pid\":1,\"s\":\"t\",\
\"tid\":0,\"ts\":4.0},\
{\"args\":{\"name\":\"lane 1\"},\"name\":\"thread_name\",\"ph\":\"M\",\"pid\":1,\"tid\":1},\
{\"args\":{},\"cat\":\"?\",\"id\":\"7\",\"name\":\"?\",\"ph\":\"b\",\"pid\":1,\"tid\":1,\
\"ts\":5.0},\
{\"args\":{},\"cat\":\"?\",\"id\":\"7\",\"name\":\"?\",\"ph\":\"B\",\"pid\":1,\"tid\":1,\
\"ts\":5.5},\
{\"cat\":\"app::net\",\"id\":\"2\",\"name\":\"inner\",\"ph\":\"E\",\"pid\":1,\"tid\":0,\"ts\":6.0},\
{\"cat\":\"app::net\",\"id\":\"2\",\"name\":\"inner\",\"ph\":\"e\",\"pid\":1,\"tid\":0,\"ts\":7.0},\
{\"cat\":\"?\",\"id\":\"7\",\"name\":\"?\",\"ph\":\"E\",\"pid\":1,\"tid\":1,\"ts\":8.0},\
{\"cat\":\"app\",\"id\":\"1\",\"name\":\"outer\",\"ph\":\"E\",\"pid\":1,\"tid\":0,\"ts\":9.0},\
{\"cat\":\"app\",\"id\":\"1\",\"name\":\"outer\",\"ph\":\"e\",\"pid\":1,\"tid\":0,\"ts\":10.999}\
]}";

#[test]
fn a_trace_for_perfetto(rt: HostRuntime) -> Result<(), Fail> {
    let alloc = rt.alloc();
    let (sites, fields) = (sites(alloc)?, fields(alloc)?);
    let table = Table {
        sites: &sites,
        fields: &fields,
        above: &[],
    };
    let text = chrome_text(alloc, &points(), table)?;
    assert!(rt; text.as_str() == TRACE);
    Ok(())
}

/// A trace of these events.
fn joined(alloc: Global, events: &[String]) -> Result<String, Fail> {
    let mut text = String::from_str(alloc, "{\"traceEvents\":[")?;
    for (place, event) in events.iter().enumerate() {
        if place > 0 {
            text.push(',')?;
        }
        text.push_str(event.as_str())?;
    }
    text.push_str("]}")?;
    Ok(text)
}

#[test]
fn events_of_a_trace_that_grows(rt: HostRuntime) -> Result<(), Fail> {
    let alloc = rt.alloc();
    let (sites, fields) = (sites(alloc)?, fields(alloc)?);
    let table = Table {
        sites: &sites,
        fields: &fields,
        above: &[],
    };
    let events = chrome_lines(alloc, &points(), table, 1000)?;
    assert!(rt; joined(alloc, &events)?.as_str() == TRACE);
    let events = chrome_lines(alloc, &points()[..1], table, 0)?;
    assert!(rt; events.len() == 2 && events[1].as_str().ends_with("\"ts\":1.0}"));
    Ok(())
}

/// A span that two lanes are in closes on one of them, while the other is in another above it. Then
/// that lane leaves both.
fn closed_while_in() -> [Point; 8] {
    let (first, second) = (Id::from_u64(1), Id::from_u64(2));
    [
        at(0, 0, Happening::Opened(first, 1, None)),
        at(0, 0, Happening::Opened(second, 2, None)),
        at(1000, 0, Happening::Entered(first)),
        at(2000, 0, Happening::Entered(second)),
        at(3000, 1, Happening::Entered(first)),
        at(4000, 1, Happening::Closed(first)),
        at(5000, 0, Happening::Left(first)),
        at(6000, 0, Happening::Left(second)),
    ]
}

/// What follows the entries: the first lane's inner box makes way for the outer one to end.
const AT_THE_CLOSE: &str = "\
{\"cat\":\"app::net\",\"id\":\"2\",\"name\":\"inner\",\"ph\":\"E\",\"pid\":1,\"tid\":0,\"ts\":4.0},\
{\"cat\":\"app\",\"id\":\"1\",\"name\":\"outer\",\"ph\":\"E\",\"pid\":1,\"tid\":0,\"ts\":4.0},\
{\"args\":{},\"cat\":\"app::net\",\"id\":\"2\",\"name\":\"inner\",\"ph\":\"B\",\"pid\":1,\
\"tid\":0,\"ts\":4.0},\
{\"cat\":\"app\",\"id\":\"1\",\"name\":\"outer\",\"ph\":\"E\",\"pid\":1,\"tid\":1,\"ts\":4.0},\
{\"cat\":\"app\",\"id\":\"1\",\"name\":\"outer\",\"ph\":\"e\",\"pid\":1,\"tid\":1,\"ts\":4.0},\
{\"cat\":\"app::net\",\"id\":\"2\",\"name\":\"inner\",\"ph\":\"E\",\"pid\":1,\"tid\":0,\"ts\":6.0}\
]}";

#[test]
fn a_box_ends_where_its_span_closes(rt: HostRuntime) -> Result<(), Fail> {
    let alloc = rt.alloc();
    let sites = sites(alloc)?;
    let text = chrome_text(alloc, &closed_while_in(), names(&sites))?;
    assert!(rt; text.as_str().ends_with(AT_THE_CLOSE));
    let stacks = folded_text(alloc, &closed_while_in(), names(&sites))?;
    assert!(rt; stacks.as_str() == "inner 4000\nouter 2000\n");
    Ok(())
}

/// The first span is left before the second, and once more, which writes nothing.
const OUT_OF_TURN: &str = "\
{\"cat\":\"app::net\",\"id\":\"2\",\"name\":\"inner\",\"ph\":\"E\",\"pid\":1,\"tid\":0,\"ts\":3.0},\
{\"cat\":\"app\",\"id\":\"1\",\"name\":\"outer\",\"ph\":\"E\",\"pid\":1,\"tid\":0,\"ts\":3.0},\
{\"args\":{},\"cat\":\"app::net\",\"id\":\"2\",\"name\":\"inner\",\"ph\":\"B\",\"pid\":1,\
\"tid\":0,\"ts\":3.0},\
{\"cat\":\"app::net\",\"id\":\"2\",\"name\":\"inner\",\"ph\":\"E\",\"pid\":1,\"tid\":0,\"ts\":5.0}\
]}";

#[test]
fn no_end_is_of_another_box(rt: HostRuntime) -> Result<(), Fail> {
    let alloc = rt.alloc();
    let sites = sites(alloc)?;
    let (first, second) = (Id::from_u64(1), Id::from_u64(2));
    let points = [
        at(7000, 0, Happening::Opened(first, 1, None)),
        at(7000, 0, Happening::Opened(second, 2, None)),
        at(8000, 0, Happening::Entered(first)),
        at(9000, 0, Happening::Entered(second)),
        at(10000, 0, Happening::Left(first)),
        at(11000, 0, Happening::Left(first)),
        at(12000, 0, Happening::Left(second)),
    ];
    let text = chrome_text(alloc, &points, names(&sites))?;
    assert!(rt; text.as_str().ends_with(OUT_OF_TURN));
    Ok(())
}

#[test]
fn stacks_for_a_flame_graph(rt: HostRuntime) -> Result<(), Fail> {
    let alloc = rt.alloc();
    let sites = sites(alloc)?;
    let text = folded_text(alloc, &points(), names(&sites))?;
    assert!(rt; text.as_str() == "? 2500\nouter 5000\nouter;inner 3000\n");
    Ok(())
}

/// The name `a;b` and so on, and within it the empty one, which another lane is in too.
const ODD: &str = "\\u{} 4
a\\u{3b}b\\nc_2\\r\\\\ 6
a\\u{3b}b\\nc_2\\r\\\\;\\u{} 1
";

#[test]
fn a_name_stays_one_frame(rt: HostRuntime) -> Result<(), Fail> {
    let alloc = rt.alloc();
    let odd = site(alloc, 5, "a;b\nc 2\r\\", "app", Level::INFO)?;
    let sites = [odd, site(alloc, 6, "", "app", Level::INFO)?];
    let (first, second) = (Id::from_u64(1), Id::from_u64(2));
    let points = [
        at(0, 0, Happening::Opened(first, 5, None)),
        at(0, 0, Happening::Opened(second, 6, None)),
        at(2, 0, Happening::Entered(first)),
        at(5, 0, Happening::Entered(second)),
        at(6, 0, Happening::Left(second)),
        at(9, 0, Happening::Left(first)),
        at(9, 1, Happening::Entered(second)),
        at(13, 1, Happening::Left(second)),
    ];
    let text = folded_text(alloc, &points, names(&sites))?;
    assert!(rt; text.as_str() == ODD);
    Ok(())
}

#[test]
fn a_closed_span_is_left(rt: HostRuntime) -> Result<(), Fail> {
    let alloc = rt.alloc();
    let sites = sites(alloc)?;
    let (first, second) = (Id::from_u64(1), Id::from_u64(2));
    let points = [
        at(0, 0, Happening::Opened(first, 1, None)),
        at(0, 0, Happening::Opened(second, 2, None)),
        at(0, 0, Happening::Entered(first)),
        at(0, 0, Happening::Entered(second)),
        at(5, 0, Happening::Closed(second)),
        at(7, 0, Happening::Left(first)),
    ];
    let text = folded_text(alloc, &points, names(&sites))?;
    assert!(rt; text.as_str() == "outer 2\nouter;inner 5\n");
    Ok(())
}

const BOXES: &str = "\
<g><title>outer{id=7 for=\"a \\\"b\\\"\"}
from 1.000 µs for 8.000 µs</title>\
<rect class=\"INFO\" x=\"145\" y=\"72\" width=\"584\" height=\"20\"/>\
<text x=\"150\" y=\"86\">outer</text></g>
<g><title>inner
from 3.000 µs for 3.000 µs</title>\
<rect class=\"DEBUG\" x=\"291\" y=\"96\" width=\"219\" height=\"20\"/>\
<text x=\"296\" y=\"110\">inner</text></g>
<g><title>?
from 5.500 µs for 2.500 µs</title><rect class=\"?\" x=\"474\" y=\"144\" width=\"182\" height=\"20\"/>\
<text x=\"479\" y=\"158\">?</text></g>
<circle class=\"WARN\" cx=\"364\" cy=\"64\" r=\"4\"><title>&lt;said&gt;{left=-3}
at 4.000 µs</title></circle>
</svg>
";

const HEAD: &str = "\
<svg xmlns=\"http://www.w3.org/2000/svg\" viewBox=\"0 0 900 176\" width=\"900\" height=\"176\">
<style>
";

/// The first two of six lines: one each 2 µs, of which 10999 ns are shown on 804, and behind the
/// legend.
const AXIS: &str = "<text x=\"462\" y=\"18\">event</text>
<text class=\"time\" x=\"72\" y=\"42\">0 µs</text><path class=\"line\" d=\"M72.5 48V176\"/>
<text class=\"time\" x=\"218\" y=\"42\">2 µs</text><path class=\"line\" d=\"M218.5 48V176\"/>
";

#[test]
fn a_picture(rt: HostRuntime) -> Result<(), Fail> {
    let alloc = rt.alloc();
    let (sites, fields) = (sites(alloc)?, fields(alloc)?);
    let table = Table {
        sites: &sites,
        fields: &fields,
        above: &[],
    };
    let svg = timeline_svg(alloc, &points(), table, 900)?;
    assert!(rt; svg.as_str().starts_with(HEAD));
    assert!(rt; svg.as_str().contains(AXIS));
    assert!(rt; svg.as_str().ends_with(BOXES));
    Ok(())
}

#[test]
fn a_name_is_within_xml(rt: HostRuntime) -> Result<(), Fail> {
    let alloc = rt.alloc();
    let name = "a\u{1}\t\u{1F}\u{7F}\u{FFFE}\u{FFFF}\u{FFFD}\u{1F600}<&>";
    let sites = [site(alloc, 5, name, "app", Level::INFO)?];
    let points = [at(0, 0, Happening::Sent(5, None))];
    let svg = timeline_svg(alloc, &points, names(&sites), 400)?;
    let shown =
        "<title>a\u{FFFD}\t\u{FFFD}\u{7F}\u{FFFD}\u{FFFD}\u{FFFD}\u{1F600}&lt;&amp;&gt;\nat";
    assert!(rt; svg.as_str().contains(shown));
    Ok(())
}

/// Times after the first point, and what the marks of events say then.
const MARKED: [(u64, &str); 7] = [
    (0, "\nat 0 ns</title>"),
    (999, "\nat 999 ns</title>"),
    (1000, "\nat 1.000 µs</title>"),
    (999_999, "\nat 999.999 µs</title>"),
    (1_099_999, "\nat 1.099 ms</title>"),
    (1_234_567_890, "\nat 1.234 s</title>"),
    (61_000_000_009, "\nat 61.000 s</title>"),
];

#[test]
fn a_title_tells_the_time(rt: HostRuntime) -> Result<(), Fail> {
    let alloc = rt.alloc();
    let sites = sites(alloc)?;
    for (time, shown) in MARKED {
        let points = [
            at(5, 0, Happening::Sent(4, None)),
            at(time + 5, 0, Happening::Sent(4, None)),
        ];
        let svg = timeline_svg(alloc, &points, names(&sites), 400)?;
        assert!(rt; svg.as_str().contains(shown));
    }
    Ok(())
}

#[test]
fn a_page_is_a_picture_between_head_and_tail(rt: HostRuntime) -> Result<(), Fail> {
    let alloc = rt.alloc();
    let (sites, fields) = (sites(alloc)?, fields(alloc)?);
    let table = Table {
        sites: &sites,
        fields: &fields,
        above: &[],
    };
    let page = timeline_page(alloc, &points(), table, 900)?;
    let page = page.as_str();
    assert!(rt; page.starts_with("<!DOCTYPE html>\n<html lang=\"en\">\n<head>\n"));
    assert!(rt; page.ends_with("</script>\n</body>\n</html>\n"));
    let Some((before, from_picture)) = page.split_once(HEAD) else {
        return Err(Fail::from("no picture"));
    };
    let Some((_, behind)) = from_picture.split_once(BOXES) else {
        return Err(Fail::from("no boxes"));
    };
    assert!(rt; before == PAGE_HEAD && before.ends_with("<main>\n"));
    assert!(rt; behind == PAGE_TAIL && behind.starts_with("</main>\n"));
    Ok(())
}

/// What a page must not have but where it means it.
const ENDING: &str = "</title></svg></main><script src=x>alert(1)</script>\"'`&lt;\0\u{1}";

#[test]
fn no_name_ends_the_picture_of_a_page(rt: HostRuntime) -> Result<(), Fail> {
    let alloc = rt.alloc();
    let sites = [site(alloc, 5, ENDING, "app", Level::INFO)?];
    let span = Id::from_u64(1);
    let points = [
        at(0, 0, Happening::Opened(span, 5, None)),
        at(0, 0, Happening::Entered(span)),
        at(1, 0, Happening::Closed(span)),
    ];
    let page = timeline_page(alloc, &points, names(&sites), 2000)?;
    let shown = "&lt;/title&gt;&lt;/svg&gt;&lt;/main&gt;&lt;script src=x&gt;alert(1)\
&lt;/script&gt;\"'`&amp;lt;\u{FFFD}\u{FFFD}";
    let Some((_, rest)) = page.as_str().split_once(shown) else {
        return Err(Fail::from("no title"));
    };
    let Some((between, rest)) = rest.split_once(shown) else {
        return Err(Fail::from("no name"));
    };
    assert!(rt; between.starts_with("\nfrom 0 ns for 1 ns</title><rect class=\"INFO\" x=\"72\""));
    assert!(rt; rest.starts_with("</text></g>\n</svg>\n</main>\n"));
    assert!(rt; !page.as_str().contains("alert(1)</script>"));
    assert!(rt; !PAGE_HEAD.contains("src=") && !PAGE_HEAD.contains("url("));
    Ok(())
}

#[test]
fn a_hostile_value_stays_a_value_in_json(rt: HostRuntime) -> Result<(), Fail> {
    let alloc = rt.alloc();
    let (sites, fields) = (sites(alloc)?, hostile_fields(alloc)?);
    let table = Table {
        sites: &sites,
        fields: &fields,
        above: &[],
    };
    let shown = "{\"a;b\\\"\":\"\\\"<a;b>&\\\\\\n\\u0000 x}yyyy";
    let trace_text = chrome_text(alloc, &hostile_points(), table)?;
    assert!(rt; trace_text.as_str().contains(shown));
    assert!(rt; !trace_text.as_str().contains("\n"));
    Ok(())
}

#[test]
fn a_hostile_value_stays_a_value_in_text(rt: HostRuntime) -> Result<(), Fail> {
    let alloc = rt.alloc();
    let (sites, fields) = (sites(alloc)?, hostile_fields(alloc)?);
    let table = Table {
        sites: &sites,
        fields: &fields,
        above: &[],
    };
    let stacks = folded_text(alloc, &hostile_points(), table)?;
    let shown = "outer{a\\u{3b}b\"=\"\\\"<a\\u{3b}b>&\\\\\\n\\u{0}_x}yyyy";
    assert!(rt; stacks.as_str().starts_with(shown));
    assert!(rt; stacks.as_str().ends_with("y\"} 1\n"));
    let svg = timeline_svg(alloc, &hostile_points(), table, 400)?;
    let shown = "<title>outer{a;b\"=\"\\\"&lt;a;b&gt;&amp;\\\\\\n\\u{0} x}yyyy";
    assert!(rt; svg.as_str().contains(shown));
    Ok(())
}

#[test]
fn a_job_shows_its_id(rt: HostRuntime) -> Result<(), Fail> {
    let alloc = rt.alloc();
    let taken = job(alloc)?;
    let trace = chrome_text(alloc, &taken.points, taken.table())?;
    assert!(rt;
        trace
            .as_str()
            .contains("{\"args\":{\"id\":7},\"cat\":\"queue\"")
    );
    let stacks = folded_text(alloc, &taken.points, taken.table())?;
    assert!(rt; stacks.as_str() == "job{id=7} 1000\n");
    let svg = timeline_svg(alloc, &taken.points, taken.table(), 400)?;
    assert!(rt;
        svg.as_str()
            .contains("<title>job{id=7}\nfrom 1.000 µs for 1.000 µs</title>")
    );
    Ok(())
}

/// The third span is below the second, though the first is left by then; nothing leaves it. There
/// is no room for its name.
const OUT_OF_ORDER: &str = "\
<g><title>outer
from 0 ns for 20 ns</title><rect class=\"INFO\" x=\"72\" y=\"72\" width=\"112\" height=\"20\"/>\
<text x=\"77\" y=\"86\">outer</text></g>
<g><title>inner
from 10 ns for 30 ns</title>\
<rect class=\"DEBUG\" x=\"128\" y=\"96\" width=\"168\" height=\"20\"/>\
<text x=\"133\" y=\"110\">inner</text></g>
<g><title>outer
from 35 ns, never left</title>\
<rect class=\"INFO\" x=\"268\" y=\"120\" width=\"28\" height=\"20\"/></g>
</svg>
";

#[test]
fn left_out_of_order(rt: HostRuntime) -> Result<(), Fail> {
    let alloc = rt.alloc();
    let sites = sites(alloc)?;
    let (a, b, c) = (Id::from_u64(1), Id::from_u64(2), Id::from_u64(3));
    let points = [
        at(0, 4, Happening::Opened(a, 1, None)),
        at(0, 4, Happening::Opened(b, 2, None)),
        at(0, 4, Happening::Opened(c, 1, None)),
        at(0, 4, Happening::Entered(a)),
        at(10, 4, Happening::Entered(b)),
        at(20, 4, Happening::Left(a)),
        at(35, 4, Happening::Entered(c)),
        at(40, 4, Happening::Left(b)),
    ];
    let svg = timeline_svg(alloc, &points, names(&sites), 0)?;
    assert!(rt; svg.as_str().ends_with(OUT_OF_ORDER));
    Ok(())
}
