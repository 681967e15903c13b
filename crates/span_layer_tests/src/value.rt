//! Tests of the values that requests are made of: worked values, and each public call once.
use crate::store_fixture::is_shown_as;
use span_core::{
    Attributes, Current, Event, FieldSet, FieldValue, FilterId, Id, Interest, Kind, Lane, Level,
    LevelFilter, Metadata, Parent, Pass, Record, Rejected, TraceError,
};
use std::alloc::Global;
use std::fmt;
use std::process::Abort;
use std::test::Fail;

const FIELDS: [&str; 2] = ["user", "retries"];

fn span_metadata() -> Metadata {
    Metadata::new(
        7,
        "request",
        "shop::web",
        Level::INFO,
        Kind::SPAN,
        FieldSet::new(&FIELDS),
    )
}

fn event_metadata() -> Metadata {
    Metadata::new(
        8,
        "refused",
        "shop::web",
        Level::WARN,
        Kind::EVENT,
        FieldSet::new(&[]),
    )
}

/// What `fmt::Binary` writes.
#[derive(Drop)]
struct InBinary<T>(T);

impl<T: fmt::Binary> fmt::Display for InBinary<T> {
    fn fmt<W: fmt::Write>(&self, f: &mut fmt::Formatter<W>) -> fmt::Result {
        fmt::Binary::fmt(&self.0, f)
    }
}

/// A value is written so.
fn is_written_as<T: fmt::Display>(
    rt: &impl Abort,
    alloc: Global,
    value: &T,
    text: &str,
) -> Result<(), Fail> {
    let shown = format!(in alloc; "{value}")?;
    assert!(rt; shown.as_str() == text);
    Ok(())
}

/// A value is written so in binary.
fn is_in_binary<T: fmt::Binary + Drop>(
    rt: &impl Abort,
    alloc: Global,
    value: T,
    text: &str,
) -> Result<(), Fail> {
    is_written_as(rt, alloc, &InBinary(value), text)
}

#[test]
fn interests_are_summed(rt: HostRuntime) -> Result<(), Fail> {
    let mut pass = Pass::new();
    assert!(rt; pass.take_interest() == None);
    pass.add_interest(Interest::always());
    pass.add_interest(Interest::always());
    assert!(rt; pass.take_interest() == Some(Interest::Always));
    assert!(rt; pass.take_interest() == None);
    pass.add_interest(Interest::always());
    pass.add_interest(Interest::never());
    pass.add_interest(Interest::always());
    assert!(rt; pass.take_interest() == Some(Interest::Sometimes));
    pass.add_interest(Interest::sometimes());
    pass.clear_interest();
    assert!(rt; pass.take_interest() == None);
    assert!(rt; Interest::Never.is_never() && !Interest::Always.is_never());
    assert!(rt; Interest::Sometimes.is_sometimes() && !Interest::Never.is_sometimes());
    assert!(rt; Interest::Always.is_always() && !Interest::Sometimes.is_always());
    Ok(())
}

#[test]
fn ids_of_filters_are_written(rt: HostRuntime) -> Result<(), Fail> {
    let joined = FilterId::of(0).and(FilterId::of(3));
    is_shown_as(&rt, rt.alloc(), &joined, "FilterId({0, 3})")?;
    is_in_binary(&rt, rt.alloc(), joined, "FilterId(1001)")?;
    let none = FilterId::none();
    is_shown_as(&rt, rt.alloc(), &none, "FilterId({})")?;
    is_in_binary(&rt, rt.alloc(), none, "FilterId(0)")?;
    let unattached = FilterId::unattached();
    is_shown_as(&rt, rt.alloc(), &unattached, "FilterId(DISABLED)")?;
    is_in_binary(&rt, rt.alloc(), unattached, "FilterId(DISABLED)")
}

#[test]
fn maps_of_filters_are_written(rt: HostRuntime) -> Result<(), Fail> {
    let mut pass = Pass::new();
    pass.set(FilterId::of(0).and(FilterId::of(3)), false);
    let map = pass.refused();
    is_shown_as(&rt, rt.alloc(), &map, "FilterMap { disabled_by: {0, 3} }")?;
    is_in_binary(&rt, rt.alloc(), map, "FilterMap { bits: 1001 }")
}

#[test]
fn filters_refuse(rt: HostRuntime) -> Result<(), Fail> {
    let first = FilterId::of(0);
    let last = FilterId::of(127);
    let both = first.and(last);
    assert!(rt; both.contains(0) && both.contains(127));
    assert!(rt; !both.contains(1) && !both.contains(128));
    assert!(rt; !both.is_unattached() && both.and(FilterId::unattached()).is_unattached());
    assert!(rt; FilterId::unattached().and(last) == last);
    let mut pass = Pass::new();
    pass.set(both, false);
    pass.set(first, true);
    pass.set(FilterId::unattached(), false);
    let map = pass.refused();
    assert!(rt; map.is_enabled(first) && map.is_enabled(FilterId::none()));
    assert!(rt; !map.is_enabled(last) && !map.is_enabled(both));
    assert!(rt; !map.is_enabled(FilterId::unattached()));
    Ok(())
}

#[test]
fn words_of_filters_end_at_127(rt: HostRuntime) -> Result<(), Fail> {
    let last = FilterId::of(127);
    let both = FilterId::of(0).and(last);
    is_shown_as(&rt, rt.alloc(), &both, "FilterId({0, 127})")?;
    let mut pass = Pass::new();
    assert!(rt; pass.refused().word() == 0);
    pass.set(last, false);
    let map = pass.refused();
    for n in 0..127 {
        assert!(rt; map.is_enabled(FilterId::of(n)));
    }
    assert!(rt; !map.is_enabled(last));
    assert!(rt; map.word() == 1 << 127);
    for n in 0..FilterId::LIMIT {
        pass.set(FilterId::of(n), false);
    }
    let map = pass.refused();
    assert!(rt; map.is_enabled(FilterId::none()) && !map.is_enabled(both));
    assert!(rt; map.word() == u128::MAX);
    Ok(())
}

#[test]
fn levels_pass(rt: HostRuntime) -> Result<(), Fail> {
    let levels = [
        Level::ERROR,
        Level::WARN,
        Level::INFO,
        Level::DEBUG,
        Level::TRACE,
    ];
    let filters = [
        (LevelFilter::OFF, 0, "LevelFilter::OFF"),
        (LevelFilter::ERROR, 1, "LevelFilter::ERROR"),
        (LevelFilter::WARN, 2, "LevelFilter::WARN"),
        (LevelFilter::INFO, 3, "LevelFilter::INFO"),
        (LevelFilter::DEBUG, 4, "LevelFilter::DEBUG"),
        (LevelFilter::TRACE, 5, "LevelFilter::TRACE"),
    ];
    for (filter, passed, text) in filters {
        for (place, level) in levels.iter().enumerate() {
            assert!(rt; filter.passes(*level) == (place < passed));
        }
        is_shown_as(&rt, rt.alloc(), &filter, text)?;
    }
    assert!(rt; Level::ERROR < Level::WARN && Level::DEBUG < Level::TRACE);
    assert!(rt; LevelFilter::OFF < LevelFilter::ERROR && LevelFilter::INFO < LevelFilter::DEBUG);
    Ok(())
}

/// No level is read from this text, and what is answered says what could be.
fn is_no_level(rt: &impl Abort, alloc: Global, text: &str) -> Result<(), Fail> {
    let Err(refusal) = text.parse::<Level>() else {
        return Err(Fail::from("a level was read"));
    };
    is_written_as(
        rt,
        alloc,
        &refusal,
        "error parsing level: expected one of \"error\", \"warn\", \"info\", \"debug\", \
         \"trace\", or a number 1-5",
    )
}

#[test]
fn levels_are_read(rt: HostRuntime) -> Result<(), Fail> {
    let texts = [
        ("error", Level::ERROR),
        ("Warn", Level::WARN),
        ("INFO", Level::INFO),
        ("dEBUG", Level::DEBUG),
        ("trace", Level::TRACE),
        ("1", Level::ERROR),
        ("2", Level::WARN),
        ("003", Level::INFO),
        ("+4", Level::DEBUG),
        ("5", Level::TRACE),
    ];
    for (text, level) in texts {
        assert!(rt; text.parse::<Level>().ok() == Some(level));
    }
    for text in ["", "off", "0", "6", "-1", "warning", "war", " info", "2 "] {
        is_no_level(&rt, rt.alloc(), text)?;
    }
    Ok(())
}

/// No filter is read from this text, and what is answered says what could be.
fn is_no_filter(rt: &impl Abort, alloc: Global, text: &str) -> Result<(), Fail> {
    let Err(refusal) = text.parse::<LevelFilter>() else {
        return Err(Fail::from("a filter was read"));
    };
    is_written_as(
        rt,
        alloc,
        &refusal,
        "error parsing level filter: expected one of \"off\", \"error\", \"warn\", \"info\", \
         \"debug\", \"trace\", or a number 0-5",
    )
}

#[test]
fn filters_by_level_are_read(rt: HostRuntime) -> Result<(), Fail> {
    let texts = [
        ("", LevelFilter::ERROR),
        ("off", LevelFilter::OFF),
        ("OFF", LevelFilter::OFF),
        ("0", LevelFilter::OFF),
        ("error", LevelFilter::ERROR),
        ("Warn", LevelFilter::WARN),
        ("INFO", LevelFilter::INFO),
        ("debug", LevelFilter::DEBUG),
        ("5", LevelFilter::TRACE),
    ];
    for (text, filter) in texts {
        assert!(rt; text.parse::<LevelFilter>().ok() == Some(filter));
    }
    for text in ["6", "-0", "of", "none", " ", "LevelFilter::INFO"] {
        is_no_filter(&rt, rt.alloc(), text)?;
    }
    Ok(())
}

#[test]
fn metadata_is_read_back(rt: HostRuntime) -> Result<(), Fail> {
    let metadata = span_metadata();
    assert!(rt; metadata.callsite() == 7);
    assert!(rt; metadata.name() == "request");
    assert!(rt; metadata.target() == "shop::web");
    assert!(rt; metadata.level() == Level::INFO);
    assert!(rt; metadata.kind() == Kind::SPAN);
    assert!(rt; metadata.is_span() && !metadata.is_event());
    assert!(rt; event_metadata().is_event() && !event_metadata().is_span());
    let fields = metadata.fields();
    assert!(rt; (fields.len(), fields.names().len()) == (2, 2));
    for (name, wanted) in fields.names().iter().zip(FIELDS) {
        assert!(rt; *name == wanted);
    }
    assert!(rt; !fields.is_empty() && event_metadata().fields().is_empty());
    assert!(rt; fields.contains("retries") && !fields.contains("retry"));
    Ok(())
}

/// Metadata with this name.
fn named(name: &'static str) -> Metadata {
    let fields = FieldSet::new(&[]);
    Metadata::new(8, name, "shop::web", Level::WARN, Kind::EVENT, fields)
}

/// Metadata with this target.
fn aimed_at(target: &'static str) -> Metadata {
    let fields = FieldSet::new(&[]);
    Metadata::new(8, "refused", target, Level::WARN, Kind::EVENT, fields)
}

/// A text, and three that differ from it in a letter: the first, one in the middle, the last.
const TEXTS: [(&str, [&str; 3]); 8] = [
    ("r", ["R", "s", "1"]),
    ("request", ["Request", "reqUest", "requesT"]),
    ("requests", ["Requests", "reqUests", "requestS"]),
    ("requested", ["Requested", "requEsted", "requesteD"]),
    (
        "request_started",
        ["Request_started", "request-started", "request_starteD"],
    ),
    (
        "requests_started",
        ["Requests_started", "requests-started", "requests_starteD"],
    ),
    (
        "shop::web::orders::checkout_v2",
        [
            "Shop::web::orders::checkout_v2",
            "shop::web::ordErs::checkout_v2",
            "shop::web::orders::checkout_v3",
        ],
    ),
    (
        "shop::web::orders::checkout_v2_api",
        [
            "Shop::web::orders::checkout_v2_api",
            "shop::web::orders:-checkout_v2_api",
            "shop::web::orders::checkout_v2_apI",
        ],
    ),
];

/// Metadata with this text show the same as others with it, and not as those with the others.
fn shows_itself_alone(rt: &impl Abort, text: &'static str, others: [&'static str; 3]) {
    assert!(rt; named(text).shows_same(&named(text)));
    assert!(rt; aimed_at(text).shows_same(&aimed_at(text)));
    for other in others {
        assert!(rt; !named(text).shows_same(&named(other)));
        assert!(rt; !aimed_at(text).shows_same(&aimed_at(other)));
    }
}

#[test]
fn texts_are_told_apart_by_each_letter(rt: HostRuntime) -> Result<(), Fail> {
    assert!(rt; named("").shows_same(&named("")) && !named("").shows_same(&named("r")));
    for (text, others) in TEXTS {
        shows_itself_alone(&rt, text, others);
    }
    Ok(())
}

/// These are the values, under their names.
fn are_values(
    rt: &impl Abort,
    values: &[(&'static str, FieldValue<'_>)],
    wanted: &[(&'static str, FieldValue<'_>)],
) {
    assert!(rt; values.len() == wanted.len());
    for (value, want) in values.iter().zip(wanted) {
        assert!(rt; value.0 == want.0);
        assert!(rt; value.1 == want.1);
    }
}

#[test]
fn attributes_are_read_back(rt: HostRuntime) -> Result<(), Fail> {
    let values = [
        ("user", FieldValue::Text("ann")),
        ("retries", FieldValue::U64(3)),
    ];
    let metadata = span_metadata();
    let contextual = Attributes::new(metadata, &values);
    let root = Attributes::new_root(metadata, &values);
    let child = Attributes::child_of(Id::from_u64(5), metadata, &values);
    assert!(rt; contextual.metadata() == metadata);
    are_values(&rt, contextual.values(), &values);
    assert!(rt; contextual.is_contextual() && !contextual.is_root());
    assert!(rt; root.is_root() && !root.is_contextual());
    assert!(rt; root.parent() == None);
    assert!(rt; child.parent() == Some(Id::from_u64(5)));
    assert!(rt; child.asked_parent() == Parent::Explicit(Id::from_u64(5)));
    are_values(&rt, Record::new(&values).values(), &values);
    Ok(())
}

#[test]
fn events_are_read_back(rt: HostRuntime) -> Result<(), Fail> {
    let values = [
        ("mute", FieldValue::Bool(true)),
        ("by", FieldValue::I64(-1)),
    ];
    let metadata = event_metadata();
    let contextual = Event::new(metadata, &values);
    let root = Event::new_root(metadata, &values);
    let child = Event::new_child_of(Id::from_u64(5), metadata, &values);
    assert!(rt; contextual.metadata() == metadata);
    are_values(&rt, contextual.values(), &values);
    assert!(rt; contextual.is_contextual() && !contextual.is_root());
    assert!(rt; root.is_root() && !root.is_contextual());
    assert!(rt; root.parent() == None);
    assert!(rt; child.parent() == Some(Id::from_u64(5)));
    assert!(rt; child.asked_parent() == Parent::Explicit(Id::from_u64(5)));
    Ok(())
}

#[test]
fn current_span_is_read_back(rt: HostRuntime) -> Result<(), Fail> {
    let current = Current::new(Id::from_u64(9), span_metadata());
    assert!(rt; current.id().map(|id| id.into_u64()) == Some(9));
    assert!(rt; current.metadata() == Some(span_metadata()));
    assert!(rt; !current.is_none() && Current::none().is_none());
    assert!(rt; Current::none().id() == None);
    assert!(rt; Lane(0) < Lane(1) && Parent::Root != Parent::Contextual);
    Ok(())
}

#[test]
fn refusals_are_written(rt: HostRuntime) -> Result<(), Fail> {
    let id = Id::from_u64(4711);
    let refusals = [
        (TraceError::UnknownSpan(id), 1, "the span isn't open"),
        (TraceError::UnknownParent(id), 2, "the parent isn't open"),
        (TraceError::NoHandle(id), 3, "the span has no handle left"),
        (TraceError::TooManyFilters, 4, "there are too many filters"),
        (TraceError::TagTaken, 5, "the tag is taken"),
        (
            TraceError::CallsiteMismatch,
            6,
            "the callsite has other metadata",
        ),
        (TraceError::CountFull(id), 7, "the span's count is full"),
        (TraceError::TooManySpans, 8, "there are too many spans"),
        (TraceError::OutOfMemory, 9, "out of memory"),
        (
            TraceError::NotSettable(7),
            10,
            "no filter takes the setting",
        ),
    ];
    for (refusal, number, text) in refusals {
        assert!(rt; refusal.number() == number);
        is_written_as(&rt, rt.alloc(), &refusal, text)?;
    }
    let rejected = Rejected {
        value: 11,
        error: TraceError::TagTaken,
    };
    assert!(rt; rejected.value == 11);
    assert!(rt; rejected.error.number() == 5);
    Ok(())
}

#[test]
fn levels_and_values_are_written(rt: HostRuntime) -> Result<(), Fail> {
    assert!(rt; Level::WARN.as_str() == "WARN");
    let (error, warn, info) = (Level::ERROR, Level::WARN, Level::INFO);
    let (debug, trace) = (Level::DEBUG, Level::TRACE);
    assert!(rt;
        format!(in rt.alloc(); "{error} {warn} {info} {debug} {trace}")?.as_str()
            == "ERROR WARN INFO DEBUG TRACE"
    );
    let count = FieldValue::from(7u64);
    let change = FieldValue::from(-3i64);
    let is_new = FieldValue::from(true);
    let user = FieldValue::from("me");
    assert!(rt;
        format!(in rt.alloc(); "{count} {change} {is_new} {user}")?.as_str() == "7 -3 true me"
    );
    Ok(())
}
