//! Tests of exports of a hostile name, target, field and value.
use span_core::{FieldSet, Id, Kind, Lane, Level, Metadata};
use span_export::{chrome_text, timeline_page, timeline_svg};
use span_times::{FieldRange, Happening, OwnedField, OwnedValue, Point, Site, Table};
use std::alloc::Global;
use std::test::Fail;

/// What some format gives a meaning, all of it in one text.
const WORDS: &str = "\"'<a;b>&\\\n\0]]></script>";

/// A span on its lane for 2 µs: its name, its target, its field and that one's value are these.
fn points() -> [Point; 3] {
    let span = Id::from_u64(1);
    [
        at(0, Happening::Opened(span, 1, None)),
        at(0, Happening::Entered(span)),
        at(2000, Happening::Closed(span)),
    ]
}

/// At this time, with the field where a span opens.
fn at(time: u64, what: Happening) -> Point {
    let to = match what {
        Happening::Opened(_, _, _) => 1,
        _ => 0,
    };
    Point {
        time,
        lane: Lane(0),
        what,
        fields: FieldRange { from: 0, to },
    }
}

/// The site of the span.
fn site(alloc: Global) -> Result<Site, Fail> {
    let fields = FieldSet::new(&[]);
    let metadata = Metadata::new(1, WORDS, WORDS, Level::INFO, Kind::SPAN, fields);
    Ok(Site::of(alloc, metadata)?)
}

/// Its field.
fn field(alloc: Global) -> Result<OwnedField, Fail> {
    let value = OwnedValue::Text(String::from_str(alloc, WORDS)?);
    let name = String::from_str(alloc, WORDS)?;
    Ok(OwnedField { name, value })
}

const EVENT: &str = "{\"args\":{\
\"\\\"'<a;b>&\\\\\\n\\u0000]]></script>\":\"\\\"'<a;b>&\\\\\\n\\u0000]]></script>\"},\
\"cat\":\"\\\"'<a;b>&\\\\\\n\\u0000]]></script>\",\"id\":\"1\",\
\"name\":\"\\\"'<a;b>&\\\\\\n\\u0000]]></script>\",\"ph\":\"b\",\"pid\":1,\"tid\":0,\"ts\":0.0}";

#[test]
fn in_a_trace(rt: HostRuntime) -> Result<(), Fail> {
    let alloc = rt.alloc();
    let (sites, fields) = ([site(alloc)?], [field(alloc)?]);
    let table = Table {
        sites: &sites,
        fields: &fields,
        above: &[],
    };
    let trace = chrome_text(alloc, &points(), table)?;
    assert!(rt; trace.as_str().contains(EVENT));
    assert!(rt; !trace.as_str().contains("\n"));
    Ok(())
}

/// The name as it is, for what XML lacks U+FFFD, and the field as in a line; then the name.
const BOX: &str = "<g><title>\"'&lt;a;b&gt;&amp;\\\n\u{FFFD}]]&gt;&lt;/script&gt;\
{\"'&lt;a;b&gt;&amp;\\\\\\n\\u{0}]]&gt;&lt;/script&gt;=\
\"\\\"'&lt;a;b&gt;&amp;\\\\\\n\\u{0}]]&gt;&lt;/script&gt;\"}
from 0 ns for 2.000 µs</title><rect class=\"INFO\" x=\"72\" y=\"72\" width=\"864\" height=\"20\"/>\
<text x=\"77\" y=\"86\">\"'&lt;a;b&gt;&amp;\\\n\u{FFFD}]]&gt;&lt;/script&gt;</text></g>
</svg>
";

#[test]
fn in_a_picture_and_a_page(rt: HostRuntime) -> Result<(), Fail> {
    let alloc = rt.alloc();
    let (sites, fields) = ([site(alloc)?], [field(alloc)?]);
    let table = Table {
        sites: &sites,
        fields: &fields,
        above: &[],
    };
    let svg = timeline_svg(alloc, &points(), table, 960)?;
    assert!(rt; svg.as_str().ends_with(BOX));
    let page = timeline_page(alloc, &points(), table, 960)?;
    let Some((before, behind)) = page.as_str().split_once("</script>") else {
        return Err(Fail::from("no script"));
    };
    assert!(rt; before.contains(BOX));
    assert!(rt; behind == "\n</body>\n</html>\n");
    Ok(())
}
