//! Tests of exports to OpenTelemetry, which were worked out by hand.
ghost use Rattle.std.specs.Prelude.{◌*◌, ◌<◌};
ghost use Rattle.span_core.specs.Span.{number_of};

use crate::point::{
    at, field, fields, hostile_fields, hostile_points, job, names, points, site, sites, with,
};
use span_core::{Id, Level};
use span_otlp::{
    Scope, SeededTraces, Trace, TraceIds, TraceParent, laws, otlp_batches, otlp_lines, otlp_logs,
    otlp_traces,
};
use span_times::{Happening, OwnedField, OwnedValue, Point, Table};
use std::alloc::Global;
use std::test::Fail;

const INNER: &str = "{\"resourceSpans\":[{\
\"resource\":{\"attributes\":[{\"key\":\"service.name\",\"value\":{\"stringValue\":\"shop\"}}]},\
\"scopeSpans\":[{\"scope\":{\"name\":\"shop_server\",\"version\":\"1.2\"},\"spans\":[{\
\"attributes\":[{\"key\":\"level\",\"value\":{\"stringValue\":\"DEBUG\"}},\
{\"key\":\"target\",\"value\":{\"stringValue\":\"app::net\"}},\
{\"key\":\"thread.id\",\"value\":{\"intValue\":\"0\"}},\
{\"key\":\"busy_ns\",\"value\":{\"intValue\":\"3000\"}},\
{\"key\":\"idle_ns\",\"value\":{\"intValue\":\"2000\"}}],\
\"endTimeUnixNano\":\"1700000000000008000\",\
\"events\":[{\"attributes\":[{\"key\":\"level\",\"value\":{\"stringValue\":\"WARN\"}},\
{\"key\":\"target\",\"value\":{\"stringValue\":\"app\"}},\
{\"key\":\"thread.id\",\"value\":{\"intValue\":\"0\"}},\
{\"key\":\"left\",\"value\":{\"intValue\":\"-3\"}}],\
\"name\":\"<said>\",\"timeUnixNano\":\"1700000000000005000\"}],\
\"kind\":1,\"links\":[],\"name\":\"inner\",\"parentSpanId\":\"0000000000000001\",\
\"spanId\":\"0000000000000002\",\"startTimeUnixNano\":\"1700000000000003000\",\"status\":{},\
\"traceId\":\"000000000000000000000000000000ab\"}]}]}]}";

const OUTER: &str = "{\"resourceSpans\":[{\
\"resource\":{\"attributes\":[{\"key\":\"service.name\",\"value\":{\"stringValue\":\"shop\"}}]},\
\"scopeSpans\":[{\"scope\":{\"name\":\"shop_server\",\"version\":\"1.2\"},\"spans\":[{\
\"attributes\":[{\"key\":\"level\",\"value\":{\"stringValue\":\"INFO\"}},\
{\"key\":\"target\",\"value\":{\"stringValue\":\"app\"}},\
{\"key\":\"thread.id\",\"value\":{\"intValue\":\"0\"}},\
{\"key\":\"busy_ns\",\"value\":{\"intValue\":\"8000\"}},\
{\"key\":\"idle_ns\",\"value\":{\"intValue\":\"2999\"}},\
{\"key\":\"id\",\"value\":{\"intValue\":\"7\"}},\
{\"key\":\"for\",\"value\":{\"stringValue\":\"a \\\"b\\\"\"}}],\
\"endTimeUnixNano\":\"1700000000000011999\",\"events\":[],\
\"kind\":1,\"links\":[],\"name\":\"outer\",\"parentSpanId\":\"\",\
\"spanId\":\"0000000000000001\",\"startTimeUnixNano\":\"1700000000000001000\",\"status\":{},\
\"traceId\":\"000000000000000000000000000000ab\"}]}]}]}";

/// The trace of a service.
fn trace_of_shop(alloc: Global) -> Result<Trace, Fail> {
    Ok(Trace {
        id: 0xab,
        service: String::from_str(alloc, "shop")?,
        began: 1_700_000_000_000_000_000,
        parent: None,
        attributes: Vec::new(alloc),
        scope: Scope {
            name: String::from_str(alloc, "shop_server")?,
            version: String::from_str(alloc, "1.2")?,
        },
    })
}

#[test]
fn spans_for_opentelemetry(rt: HostRuntime) -> Result<(), Fail> {
    let alloc = rt.alloc();
    let (sites, fields) = (sites(alloc)?, fields(alloc)?);
    let table = Table {
        sites: &sites,
        fields: &fields,
        above: &[],
    };
    let trace = trace_of_shop(alloc)?;
    let lines = otlp_lines(alloc, &trace, &points(), table)?;
    assert!(rt; lines.len() == 2, "the span of the other lane isn't closed");
    assert!(rt; lines[0].as_str() == INNER);
    assert!(rt; lines[1].as_str() == OUTER);
    Ok(())
}

/// Three spans close, one that opened elsewhere does, and one stays open.
fn five_spans() -> [Point; 8] {
    let (first, second, third) = (Id::from_u64(1), Id::from_u64(2), Id::from_u64(3));
    let (elsewhere, open) = (Id::from_u64(4), Id::from_u64(5));
    [
        at(0, 0, Happening::Opened(first, 1, None)),
        at(1, 0, Happening::Opened(second, 2, None)),
        at(2, 0, Happening::Opened(third, 5, None)),
        at(3, 0, Happening::Opened(open, 1, None)),
        at(4, 0, Happening::Closed(second)),
        at(5, 0, Happening::Closed(elsewhere)),
        at(6, 0, Happening::Closed(third)),
        at(7, 0, Happening::Closed(first)),
    ]
}

/// The first request of two spans each. The second one has a name and a target that are hostile.
const PAIR: &str = "{\"resourceSpans\":[{\
\"resource\":{\"attributes\":[{\"key\":\"service.name\",\"value\":{\"stringValue\":\"shop\"}}]},\
\"scopeSpans\":[{\"scope\":{\"name\":\"shop_server\",\"version\":\"1.2\"},\"spans\":[{\
\"attributes\":[{\"key\":\"level\",\"value\":{\"stringValue\":\"DEBUG\"}},\
{\"key\":\"target\",\"value\":{\"stringValue\":\"app::net\"}},\
{\"key\":\"thread.id\",\"value\":{\"intValue\":\"0\"}},\
{\"key\":\"busy_ns\",\"value\":{\"intValue\":\"0\"}},\
{\"key\":\"idle_ns\",\"value\":{\"intValue\":\"3\"}}],\
\"endTimeUnixNano\":\"1700000000000000004\",\"events\":[],\
\"kind\":1,\"links\":[],\"name\":\"inner\",\"parentSpanId\":\"\",\
\"spanId\":\"0000000000000002\",\"startTimeUnixNano\":\"1700000000000000001\",\"status\":{},\
\"traceId\":\"000000000000000000000000000000ab\"},{\
\"attributes\":[{\"key\":\"level\",\"value\":{\"stringValue\":\"INFO\"}},\
{\"key\":\"target\",\"value\":{\"stringValue\":\"<;\\u0000>\"}},\
{\"key\":\"thread.id\",\"value\":{\"intValue\":\"0\"}},\
{\"key\":\"busy_ns\",\"value\":{\"intValue\":\"0\"}},\
{\"key\":\"idle_ns\",\"value\":{\"intValue\":\"4\"}}],\
\"endTimeUnixNano\":\"1700000000000000006\",\"events\":[],\
\"kind\":1,\"links\":[],\"name\":\"a\\n\\\"\",\"parentSpanId\":\"\",\
\"spanId\":\"0000000000000003\",\"startTimeUnixNano\":\"1700000000000000002\",\"status\":{},\
\"traceId\":\"000000000000000000000000000000ab\"}]}]}]}";

#[test]
fn spans_in_batches(rt: HostRuntime) -> Result<(), Fail> {
    let alloc = rt.alloc();
    let mut sites = sites(alloc)?;
    sites.push(site(alloc, 5, "a\n\"", "<;\0>", Level::INFO)?)?;
    let trace = trace_of_shop(alloc)?;
    let pairs = otlp_batches(alloc, &trace, &five_spans(), names(&sites), 2)?;
    assert!(rt; pairs.len() == 2);
    assert!(rt; pairs[0].as_str() == PAIR);
    assert!(rt;
        pairs[1]
            .as_str()
            .contains("\"spanId\":\"0000000000000001\"")
    );
    assert!(rt; !pairs[1].as_str().contains("},{\"attributes\""));
    let all = otlp_batches(alloc, &trace, &five_spans(), names(&sites), 3)?;
    assert!(rt; all.len() == 1);
    let none = otlp_batches(alloc, &trace, &five_spans()[..4], names(&sites), 3)?;
    assert!(rt; none.is_empty());
    Ok(())
}

#[test]
fn fields_that_the_table_lacks_are_counted(rt: HostRuntime) -> Result<(), Fail> {
    let alloc = rt.alloc();
    let sites = sites(alloc)?;
    let lines = otlp_lines(alloc, &trace_of_shop(alloc)?, &points(), names(&sites))?;
    assert!(rt; lines.len() == 2);
    let event = "\"droppedAttributesCount\":1,\"name\":\"<said>\"";
    assert!(rt; lines[0].as_str().contains(event));
    let span = "\"droppedAttributesCount\":2,\"endTimeUnixNano\"";
    assert!(rt; lines[1].as_str().contains(span));
    assert!(rt; !lines[0].as_str().contains("Count\":0"));
    Ok(())
}

#[test]
fn batches_of_one_are_lines(rt: HostRuntime) -> Result<(), Fail> {
    let alloc = rt.alloc();
    let sites = sites(alloc)?;
    let trace = trace_of_shop(alloc)?;
    let lines = otlp_lines(alloc, &trace, &five_spans(), names(&sites))?;
    let ones = otlp_batches(alloc, &trace, &five_spans(), names(&sites), 0)?;
    assert!(rt; lines.len() == 3 && ones.len() == 3);
    for place in 0..3 {
        assert!(rt; ones[place].as_str() == lines[place].as_str());
    }
    Ok(())
}

#[test]
fn the_outermost_spans_are_below_the_parent(rt: HostRuntime) -> Result<(), Fail> {
    let alloc = rt.alloc();
    let sites = sites(alloc)?;
    let parent = TraceParent {
        trace: 0xab,
        span: 0xf0,
        flags: 1,
    };
    let trace = Trace::under(alloc, &parent, String::from_str(alloc, "shop")?, 0);
    let lines = otlp_lines(alloc, &trace, &points(), names(&sites))?;
    assert!(rt; lines.len() == 2);
    assert!(rt;
        lines[0]
            .as_str()
            .contains("\"parentSpanId\":\"0000000000000001\"")
    );
    assert!(rt;
        lines[1]
            .as_str()
            .contains("\"parentSpanId\":\"00000000000000f0\"")
    );
    let id = "\"traceId\":\"000000000000000000000000000000ab\"";
    assert!(rt; lines[1].as_str().contains(id));
    Ok(())
}

const RESOURCE: &str = "{\"resourceSpans\":[{\"resource\":{\"attributes\":[\
{\"key\":\"service.name\",\"value\":{\"stringValue\":\"shop\"}},\
{\"key\":\"service.version\",\"value\":{\"stringValue\":\"1 \\\"b\\\"\"}},\
{\"key\":\"host.name\",\"value\":{\"stringValue\":\"\"}}]},";

#[test]
fn the_resource_has_attributes(rt: HostRuntime) -> Result<(), Fail> {
    let alloc = rt.alloc();
    let sites = sites(alloc)?;
    let mut trace = trace_of_shop(alloc)?;
    let version = String::from_str(alloc, "service.version")?;
    let text = String::from_str(alloc, "1 \"b\"")?;
    trace.attributes.push((version, text))?;
    let host = String::from_str(alloc, "host.name")?;
    trace.attributes.push((host, String::new(alloc)))?;
    let lines = otlp_lines(alloc, &trace, &points(), names(&sites))?;
    assert!(rt; lines.len() == 2);
    assert!(rt; lines[0].as_str().starts_with(RESOURCE));
    assert!(rt; lines[1].as_str().starts_with(RESOURCE));
    Ok(())
}

const LINKS: &str = "\"links\":[\
{\"spanId\":\"0000000000000007\",\"traceId\":\"000000000000000000000000000000ab\"},\
{\"spanId\":\"0000000000000001\",\"traceId\":\"000000000000000000000000000000ab\"}],";

#[test]
fn what_a_span_follows_from_is_a_link(rt: HostRuntime) -> Result<(), Fail> {
    let alloc = rt.alloc();
    let sites = sites(alloc)?;
    let (first, second, other) = (Id::from_u64(1), Id::from_u64(2), Id::from_u64(7));
    let points = [
        at(0, 0, Happening::Opened(first, 1, None)),
        at(1, 0, Happening::Followed(second, first)),
        at(2, 0, Happening::Opened(second, 2, None)),
        at(3, 0, Happening::Followed(second, other)),
        at(4, 0, Happening::Followed(other, second)),
        at(5, 0, Happening::Followed(second, first)),
        at(6, 0, Happening::Closed(second)),
        at(7, 0, Happening::Closed(first)),
    ];
    let lines = otlp_lines(alloc, &trace_of_shop(alloc)?, &points, names(&sites))?;
    assert!(rt; lines.len() == 2);
    assert!(rt; lines[0].as_str().contains(LINKS));
    assert!(rt; lines[1].as_str().contains("\"links\":[],"));
    Ok(())
}

/// Each type as OpenTelemetry has it: what fits none is a text.
const TYPED: &str = "\"attributes\":[\
{\"key\":\"target\",\"value\":{\"stringValue\":\"app\"}},\
{\"key\":\"thread.id\",\"value\":{\"intValue\":\"0\"}},\
{\"key\":\"busy_ns\",\"value\":{\"intValue\":\"0\"}},\
{\"key\":\"idle_ns\",\"value\":{\"intValue\":\"2\"}},\
{\"key\":\"level\",\"value\":{\"boolValue\":true}},\
{\"key\":\"u\",\"value\":{\"stringValue\":\"9223372036854775808\"}},\
{\"key\":\"v\",\"value\":{\"intValue\":\"9223372036854775807\"}},\
{\"key\":\"w\",\"value\":{\"stringValue\":\"340282366920938463463374607431768211455\"}},\
{\"key\":\"x\",\"value\":{\"stringValue\":\"-1\"}},\
{\"key\":\"f\",\"value\":{\"doubleValue\":0.5}},\
{\"key\":\"g\",\"value\":{\"doubleValue\":\"-Infinity\"}},\
{\"key\":\"t\",\"value\":{\"stringValue\":\"two\"}}]";

/// Fields of all types, one of them twice.
fn typed(alloc: Global) -> Result<Vec<OwnedField>, Fail> {
    let mut fields = Vec::new(alloc);
    fields.push(field(alloc, "level", OwnedValue::Bool(true))?)?;
    fields.push(field(alloc, "u", OwnedValue::U64(1 << 63))?)?;
    fields.push(field(alloc, "v", OwnedValue::U64((1 << 63) - 1))?)?;
    fields.push(field(alloc, "w", OwnedValue::U128(u128::MAX))?)?;
    fields.push(field(alloc, "x", OwnedValue::I128(-1))?)?;
    fields.push(field(
        alloc,
        "f",
        OwnedValue::F64(0.5, String::from_str(alloc, "0.5")?),
    )?)?;
    fields.push(field(
        alloc,
        "g",
        OwnedValue::F64(f64::NEG_INFINITY, String::from_str(alloc, "-inf")?),
    )?)?;
    fields.push(field(
        alloc,
        "t",
        OwnedValue::Text(String::from_str(alloc, "one")?),
    )?)?;
    fields.push(field(
        alloc,
        "t",
        OwnedValue::Text(String::from_str(alloc, "two")?),
    )?)?;
    Ok(fields)
}

#[test]
fn attributes_have_their_types(rt: HostRuntime) -> Result<(), Fail> {
    let alloc = rt.alloc();
    let (sites, fields) = (sites(alloc)?, typed(alloc)?);
    let table = Table {
        sites: &sites,
        fields: &fields,
        above: &[],
    };
    let (trace, first) = (trace_of_shop(alloc)?, Id::from_u64(1));
    let points = [
        with(0, 0, Happening::Opened(first, 1, None), 0, 5),
        with(1, 0, Happening::Recorded(first), 5, 9),
        at(2, 0, Happening::Closed(first)),
    ];
    let lines = otlp_lines(alloc, &trace, &points, table)?;
    assert!(rt; lines.len() == 1);
    assert!(rt; lines[0].as_str().contains(TYPED));
    Ok(())
}

#[test]
fn an_error_is_a_status(rt: HostRuntime) -> Result<(), Fail> {
    let alloc = rt.alloc();
    let sites = sites(alloc)?;
    let (trace, first, second) = (trace_of_shop(alloc)?, Id::from_u64(1), Id::from_u64(2));
    let points = [
        at(0, 0, Happening::Opened(first, 1, None)),
        at(0, 0, Happening::Opened(second, 2, Some(first))),
        at(1, 0, Happening::Sent(4, Some(second))),
        at(2, 0, Happening::Closed(second)),
        at(3, 0, Happening::Closed(first)),
    ];
    let lines = otlp_lines(alloc, &trace, &points, names(&sites))?;
    assert!(rt; lines.len() == 2);
    assert!(rt; lines[0].as_str().contains("\"status\":{\"code\":2}"));
    assert!(rt; lines[1].as_str().contains("\"status\":{}"));
    Ok(())
}

/// An event with a field, one in a span, one of an unknown callsite on another lane, and one whose
/// two fields aren't in the table.
fn events_about_a_span() -> [Point; 6] {
    let first = Id::from_u64(1);
    [
        with(5000, 0, Happening::Sent(3, None), 2, 3),
        at(6000, 0, Happening::Opened(first, 1, None)),
        at(6500, 0, Happening::Sent(4, Some(first))),
        at(7000, 1, Happening::Sent(9, None)),
        at(7500, 0, Happening::Closed(first)),
        with(8000, 0, Happening::Sent(4, None), 3, 5),
    ]
}

/// The first request of two log records each.
const RECORDS: &str = "{\"resourceLogs\":[{\
\"resource\":{\"attributes\":[{\"key\":\"service.name\",\"value\":{\"stringValue\":\"shop\"}}]},\
\"scopeLogs\":[{\"logRecords\":[{\
\"attributes\":[{\"key\":\"target\",\"value\":{\"stringValue\":\"app\"}},\
{\"key\":\"thread.id\",\"value\":{\"intValue\":\"0\"}},\
{\"key\":\"left\",\"value\":{\"intValue\":\"-3\"}}],\
\"body\":{\"stringValue\":\"<said>\"},\"severityNumber\":13,\"severityText\":\"WARN\",\
\"timeUnixNano\":\"1700000000000005000\"},{\
\"attributes\":[{\"key\":\"target\",\"value\":{\"stringValue\":\"?\"}},\
{\"key\":\"thread.id\",\"value\":{\"intValue\":\"1\"}}],\
\"body\":{\"stringValue\":\"?\"},\"severityNumber\":0,\"severityText\":\"?\",\
\"timeUnixNano\":\"1700000000000007000\"}],\
\"scope\":{\"name\":\"shop_server\",\"version\":\"1.2\"}}]}]}";

/// The one record of the second.
const LAST_RECORD: &str = "\"logRecords\":[{\
\"attributes\":[{\"key\":\"target\",\"value\":{\"stringValue\":\"app\"}},\
{\"key\":\"thread.id\",\"value\":{\"intValue\":\"0\"}}],\
\"body\":{\"stringValue\":\"broken\"},\"droppedAttributesCount\":2,\
\"severityNumber\":17,\"severityText\":\"ERROR\",\
\"timeUnixNano\":\"1700000000000008000\"}],\
\"scope\":{\"name\":\"shop_server\",\"version\":\"1.2\"}}]}]}";

#[test]
fn events_outside_spans_are_log_records(rt: HostRuntime) -> Result<(), Fail> {
    let alloc = rt.alloc();
    let (sites, fields) = (sites(alloc)?, fields(alloc)?);
    let table = Table {
        sites: &sites,
        fields: &fields,
        above: &[],
    };
    let lines = otlp_logs(
        alloc,
        &trace_of_shop(alloc)?,
        &events_about_a_span(),
        table,
        2,
    )?;
    assert!(rt; lines.len() == 2);
    assert!(rt; lines[0].as_str() == RECORDS);
    assert!(rt; lines[1].as_str().ends_with(LAST_RECORD));
    Ok(())
}

/// OpenTelemetry's numbers.
const SEVERITIES: [(Level, &str); 5] = [
    (
        Level::TRACE,
        "\"severityNumber\":1,\"severityText\":\"TRACE\"",
    ),
    (
        Level::DEBUG,
        "\"severityNumber\":5,\"severityText\":\"DEBUG\"",
    ),
    (
        Level::INFO,
        "\"severityNumber\":9,\"severityText\":\"INFO\"",
    ),
    (
        Level::WARN,
        "\"severityNumber\":13,\"severityText\":\"WARN\"",
    ),
    (
        Level::ERROR,
        "\"severityNumber\":17,\"severityText\":\"ERROR\"",
    ),
];

#[test]
fn a_level_is_a_severity(rt: HostRuntime) -> Result<(), Fail> {
    let alloc = rt.alloc();
    let trace = trace_of_shop(alloc)?;
    for (level, shown) in SEVERITIES {
        let sites = [site(alloc, 5, "said", "app", level)?];
        let points = [at(0, 0, Happening::Sent(5, None))];
        let lines = otlp_logs(alloc, &trace, &points, names(&sites), 1)?;
        assert!(rt; lines.len() == 1 && lines[0].as_str().contains(shown));
    }
    Ok(())
}

/// Traces of the numbers of roots, with two zeroes.
struct Hundreds;

impl TraceIds for Hundreds {
    ghost trace_of = { λ ids root. root * 0x100 };

    fn trace_id(&self, root: Id) -> u128 {
        u128::from(root.into_u64()) * 0x100
    }
}

/// A root with a child and a grandchild, another root, and a span below one that opened elsewhere.
/// The grandchild follows from the other root, this from the child, and the last from its parent.
fn three_roots() -> [Point; 13] {
    let (first, child, grandchild) = (Id::from_u64(1), Id::from_u64(2), Id::from_u64(3));
    let (other, below, elsewhere) = (Id::from_u64(4), Id::from_u64(5), Id::from_u64(9));
    [
        at(0, 0, Happening::Opened(first, 1, None)),
        at(0, 0, Happening::Opened(child, 2, Some(first))),
        at(0, 0, Happening::Opened(other, 1, None)),
        at(0, 0, Happening::Opened(grandchild, 2, Some(child))),
        at(0, 0, Happening::Opened(below, 2, Some(elsewhere))),
        at(1, 0, Happening::Followed(grandchild, other)),
        at(1, 0, Happening::Followed(other, child)),
        at(1, 0, Happening::Followed(below, elsewhere)),
        at(2, 0, Happening::Closed(grandchild)),
        at(2, 0, Happening::Closed(child)),
        at(2, 0, Happening::Closed(other)),
        at(2, 0, Happening::Closed(below)),
        at(2, 0, Happening::Closed(first)),
    ]
}

/// What each span ends with: its number, when it began, and its trace. They are in the order of the
/// closes.
const TRACED: [&str; 5] = [
    "\"spanId\":\"0000000000000003\",\"startTimeUnixNano\":\"1700000000000000000\",\"status\":{},\
\"traceId\":\"00000000000000000000000000000100\"}]}]}]}",
    "\"spanId\":\"0000000000000002\",\"startTimeUnixNano\":\"1700000000000000000\",\"status\":{},\
\"traceId\":\"00000000000000000000000000000100\"}]}]}]}",
    "\"spanId\":\"0000000000000004\",\"startTimeUnixNano\":\"1700000000000000000\",\"status\":{},\
\"traceId\":\"00000000000000000000000000000400\"}]}]}]}",
    "\"spanId\":\"0000000000000005\",\"startTimeUnixNano\":\"1700000000000000000\",\"status\":{},\
\"traceId\":\"00000000000000000000000000000900\"}]}]}]}",
    "\"spanId\":\"0000000000000001\",\"startTimeUnixNano\":\"1700000000000000000\",\"status\":{},\
\"traceId\":\"00000000000000000000000000000100\"}]}]}]}",
];

/// Their links.
const LINKED: [&str; 5] = [
    "\"links\":[{\"spanId\":\"0000000000000004\",\
\"traceId\":\"00000000000000000000000000000400\"}],",
    "\"links\":[],",
    "\"links\":[{\"spanId\":\"0000000000000002\",\
\"traceId\":\"00000000000000000000000000000100\"}],",
    "\"links\":[{\"spanId\":\"0000000000000009\",\
\"traceId\":\"00000000000000000000000000000900\"}],",
    "\"links\":[],",
];

#[test]
fn each_root_has_a_trace(rt: HostRuntime) -> Result<(), Fail> {
    let alloc = rt.alloc();
    let (sites, trace) = (sites(alloc)?, trace_of_shop(alloc)?);
    let lines = otlp_traces(alloc, &trace, &Hundreds, &three_roots(), names(&sites), 1)?;
    assert!(rt; lines.len() == 5);
    for place in 0..5 {
        assert!(rt; lines[place].as_str().ends_with(TRACED[place]));
        assert!(rt; lines[place].as_str().contains(LINKED[place]));
    }
    Ok(())
}

#[test]
fn a_part_is_in_the_trace_of_its_root(rt: HostRuntime) -> Result<(), Fail> {
    laws::a_child_is_in_its_parents_trace();
    laws::parts_keep_traces();
    let alloc = rt.alloc();
    let (sites, trace) = (sites(alloc)?, trace_of_shop(alloc)?);
    let (root, child, grandchild) = (Id::from_u64(1), Id::from_u64(2), Id::from_u64(3));
    let above = [
        Happening::Opened(root, 1, None),
        Happening::Opened(child, 2, Some(root)),
    ];
    let points = [
        at(0, 0, Happening::Opened(grandchild, 2, Some(child))),
        at(2, 0, Happening::Closed(grandchild)),
    ];
    let table = Table {
        above: &above,
        ..names(&sites)
    };
    let lines = otlp_traces(alloc, &trace, &Hundreds, &points, table, 1)?;
    assert!(rt; lines.len() == 1);
    assert!(rt; lines[0].as_str().ends_with(TRACED[0]));
    Ok(())
}

/// The number of a trace that W3C takes.
fn valid_trace(ids: &SeededTraces, root: Id) -> u128
    requires { 0 < number_of root }
    ensures { 0 < result }
{
    laws::traces_have_numbers();
    ids.trace_id(root)
}

#[test]
fn no_seed_gives_the_number_0(rt: HostRuntime) {
    let number = valid_trace(&SeededTraces(0), Id::from_u64(1));
    assert!(rt; number == 0x9e37_79b9_7f4a_7c15);
}

/// The number of the second root, which is four times that of the first, of which 2 were carried.
const SEEDED: &str = "\"traceId\":\"000000000000abcd78dde6e5fd29f054\"}]}]}]}";

#[test]
fn seeds_give_numbers(rt: HostRuntime) -> Result<(), Fail> {
    let alloc = rt.alloc();
    let (sites, trace) = (sites(alloc)?, trace_of_shop(alloc)?);
    let ids = SeededTraces(0xabcd);
    let lines = otlp_traces(alloc, &trace, &ids, &three_roots(), names(&sites), 1)?;
    assert!(rt; lines.len() == 5);
    let first = "\"traceId\":\"000000000000abcd9e3779b97f4a7c15\"}]}]}]}";
    assert!(rt; lines[0].as_str().ends_with(first));
    assert!(rt; lines[2].as_str().ends_with(SEEDED));
    Ok(())
}

#[test]
fn a_hostile_value_stays_a_value(rt: HostRuntime) -> Result<(), Fail> {
    let alloc = rt.alloc();
    let (sites, fields) = (sites(alloc)?, hostile_fields(alloc)?);
    let table = Table {
        sites: &sites,
        fields: &fields,
        above: &[],
    };
    let lines = otlp_lines(alloc, &trace_of_shop(alloc)?, &hostile_points(), table)?;
    assert!(rt; lines.len() == 1);
    let shown = "{\"key\":\"a;b\\\"\",\
\"value\":{\"stringValue\":\"\\\"<a;b>&\\\\\\n\\u0000 x}yyyy";
    assert!(rt; lines[0].as_str().contains(shown));
    Ok(())
}

#[test]
fn a_job_shows_its_id(rt: HostRuntime) -> Result<(), Fail> {
    let alloc = rt.alloc();
    let taken = job(alloc)?;
    let lines = otlp_lines(alloc, &trace_of_shop(alloc)?, &taken.points, taken.table())?;
    assert!(rt; lines.len() == 1);
    assert!(rt;
        lines[0]
            .as_str()
            .contains("{\"key\":\"id\",\"value\":{\"intValue\":\"7\"}}")
    );
    Ok(())
}
