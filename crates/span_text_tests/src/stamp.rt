//! Lines with times, in colours and in JSON: those of the worked run.
use crate::fixture::put;
use crate::text::{LANE, OF_EVENTS, OTHER_LANE, site, worked_on};
use span_core::{FieldValue, Kind, Level, LevelFilter, TraceError};
use span_dispatch::{Dispatch, Request, WhichParent};
use span_fmt::{Form, LinesForm, Stream};
use span_layers::{Layer, Observer};
use span_registry::{Registry, Subscriber};
use span_stacks::{LayerExt, Layered};
use span_stream::{JsonForm, Painted, Stamped, TimeStyle, Uptime, Utc, write_time};
use span_times::{Counted, Now};
use std::alloc::Global;
use std::process::Abort;
use std::test::Fail;

/// What a form writes of the worked run, under a level.
pub(crate) fn written<F: Form<Registry> + Drop>(alloc: Global, form: F) -> Result<Vec<u8>, Fail> {
    let bytes: Vec<u8> = Vec::new(alloc);
    let layer = Observer::new(Stream::new(form, bytes)).with_filter(LevelFilter::DEBUG);
    let stack = worked_on(alloc, Registry::new(alloc), layer)?;
    let mut copy = Vec::new(alloc);
    copy.extend_from_slice(stack.outer().layer().observer().writer())?;
    Ok(copy)
}

/// What is written of the worked run with counted times in this style.
fn stamped(alloc: Global, style: TimeStyle) -> Result<Vec<u8>, Fail> {
    let form = Stamped::new(alloc, LinesForm::new(alloc), Counted::new(), style);
    written(alloc, form)
}

const WITH_TIMES: &str =
    "1970-01-01T00:00:00.000001Z 0 WARN outer{user=7}:inner{try=-2}: app::net: said what=\"a\\nb\" ok=true
1970-01-01T00:00:00.000002Z 3 INFO app: heard
1970-01-01T00:00:00.000003Z 0 INFO outer{user=7 late=false}: app: heard
";

const WITH_SECONDS: &str =
    "0.000001s 0 WARN outer{user=7}:inner{try=-2}: app::net: said what=\"a\\nb\" ok=true
0.000002s 3 INFO app: heard
0.000003s 0 INFO outer{user=7 late=false}: app: heard
";

#[test]
fn lines_have_times(rt: HostRuntime) -> Result<(), Fail> {
    let utc = stamped(rt.alloc(), TimeStyle::Utc)?;
    assert!(rt; utc.as_slice() == WITH_TIMES.as_bytes());
    let seconds = stamped(rt.alloc(), TimeStyle::Seconds)?;
    assert!(rt; seconds.as_slice() == WITH_SECONDS.as_bytes());
    Ok(())
}

const WITH_DIMMED_SECONDS: &str = concat!(
    "\u{1b}[2m0.000001s\u{1b}[0m 0 WARN outer{user=7}:inner{try=-2}: app::net: ",
    "said what=\"a\\nb\" ok=true\n",
    "\u{1b}[2m0.000002s\u{1b}[0m 3 INFO app: heard\n",
    "\u{1b}[2m0.000003s\u{1b}[0m 0 INFO outer{user=7 late=false}: app: heard\n"
);

/// What is written of the worked run with counted seconds, dimmed or not.
fn dimmed(alloc: Global, ansi: bool) -> Result<Vec<u8>, Fail> {
    let lines = LinesForm::new(alloc);
    let form = Stamped::new(alloc, lines, Counted::new(), TimeStyle::Seconds);
    written(alloc, form.with_ansi(ansi))
}

#[test]
fn times_are_dimmed_where_asked(rt: HostRuntime) -> Result<(), Fail> {
    let in_styles = dimmed(rt.alloc(), true)?;
    assert!(rt; in_styles.as_slice() == WITH_DIMMED_SECONDS.as_bytes());
    let plain = dimmed(rt.alloc(), false)?;
    assert!(rt; plain.as_slice() == WITH_SECONDS.as_bytes());
    Ok(())
}

/// Times in nanoseconds, with their texts in both styles.
const TIMES: [(u64, &str, &str); 5] = [
    (0, "1970-01-01T00:00:00.000000Z", "0.000000s"),
    (999, "1970-01-01T00:00:00.000000Z", "0.000000s"),
    (
        1_709_210_096_789_012_999,
        "2024-02-29T12:34:56.789012Z",
        "1709210096.789012s",
    ),
    (
        4_102_444_799_999_999_999,
        "2099-12-31T23:59:59.999999Z",
        "4102444799.999999s",
    ),
    (
        u64::MAX,
        "2554-07-21T23:34:33.709551Z",
        "18446744073.709551s",
    ),
];

#[test]
fn times_have_six_places(rt: HostRuntime) -> Result<(), Fail> {
    for (time, utc, seconds) in TIMES {
        let mut text = String::new(rt.alloc());
        write_time(&mut text, TimeStyle::Utc, time)?;
        assert!(rt; text.as_str() == utc);
        let mut text = String::new(rt.alloc());
        write_time(&mut text, TimeStyle::Seconds, time)?;
        assert!(rt; text.as_str() == seconds);
    }
    Ok(())
}

/// A clock that is read twice doesn't go back.
fn goes_on<C: Now + Drop>(rt: &impl Abort, clock: C) {
    let mut clock = clock;
    let first = clock.now();
    assert!(rt; first <= clock.now());
}

#[test]
fn clocks_go_on(rt: HostRuntime) -> Result<(), Fail> {
    goes_on(&rt, Utc::new(rt.clone()?));
    goes_on(&rt, Uptime::new(rt.clone()?));
    Ok(())
}

const IN_COLOURS: &str =
    "\x1b[33m0 WARN outer{user=7}:inner{try=-2}: app::net: said what=\"a\\nb\" ok=true\x1b[0m
\x1b[32m3 INFO app: heard\x1b[0m
\x1b[32m0 INFO outer{user=7 late=false}: app: heard\x1b[0m
";

/// What is written of the worked run in colours or without.
fn painted(alloc: Global, colours: bool) -> Result<Vec<u8>, Fail> {
    written(alloc, Painted::new(alloc, LinesForm::new(alloc), colours))
}

#[test]
fn lines_have_colours_where_asked(rt: HostRuntime) -> Result<(), Fail> {
    let in_colours = painted(rt.alloc(), true)?;
    assert!(rt; in_colours.as_slice() == IN_COLOURS.as_bytes());
    let plain = painted(rt.alloc(), false)?;
    assert!(rt; plain.as_slice() == OF_EVENTS.as_bytes());
    Ok(())
}

const IN_JSON: &str =
    r#"{"fields":{"message":"said","ok":true,"what":"a\nb"},"level":"WARN","span":{"name":"inner","try":-2},"spans":[{"name":"outer","user":7},{"name":"inner","try":-2}],"target":"app::net","timestamp":"1970-01-01T00:00:00.000001Z"}
{"fields":{"message":"heard"},"level":"INFO","target":"app","timestamp":"1970-01-01T00:00:00.000002Z"}
{"fields":{"message":"heard"},"level":"INFO","span":{"late":false,"name":"outer","user":7},"spans":[{"late":false,"name":"outer","user":7}],"target":"app","timestamp":"1970-01-01T00:00:00.000003Z"}
"#;

#[test]
fn lines_of_json(rt: HostRuntime) -> Result<(), Fail> {
    let form = JsonForm::new(rt.alloc(), Counted::new(), TimeStyle::Utc);
    let lines = written(rt.alloc(), form)?;
    assert!(rt; lines.as_slice() == IN_JSON.as_bytes());
    Ok(())
}

const WITH_A_NAME: &str =
    r#"{"fields":{"message":"said","ok":true,"what":"a\nb"},"level":"WARN","span":{"name":"inner","try":-2},"spans":[{"name":"outer","user":7},{"name":"inner","try":-2}],"target":"app::net","timestamp":"1970-01-01T00:00:00.000001Z"}
{"fields":{"message":"heard"},"level":"INFO","target":"app","threadId":3,"threadName":"worker-3","timestamp":"1970-01-01T00:00:00.000002Z"}
{"fields":{"message":"heard"},"level":"INFO","span":{"late":false,"name":"outer","user":7},"spans":[{"late":false,"name":"outer","user":7}],"target":"app","timestamp":"1970-01-01T00:00:00.000003Z"}
"#;

#[test]
fn lines_of_json_name_lanes(rt: HostRuntime) -> Result<(), Fail> {
    let mut form = JsonForm::new(rt.alloc(), Counted::new(), TimeStyle::Utc);
    form.name_lane(OTHER_LANE, "worker-3")?;
    let lines = written(rt.alloc(), form)?;
    assert!(rt; lines.as_slice() == WITH_A_NAME.as_bytes());
    Ok(())
}

/// Texts that act on a terminal, or would read as another line, and some that don't.
const ACTING: &[(&str, FieldValue<'static>)] = &[
    (
        "control",
        FieldValue::Text("\u{1b}[2J\u{7f}\u{85}\u{9b}2J\u{9f}"),
    ),
    ("line", FieldValue::Text("a\u{2028}b\u{2029}c\u{2027}d")),
    (
        "plain",
        FieldValue::Text("~\u{a0}\u{e9}\u{2030}\u{1f600}\\"),
    ),
    (
        "turned",
        FieldValue::Text("\u{61c}\u{200e}\u{200f}\u{202a}\u{202e}\u{2066}\u{2069}"),
    ),
];

/// Escapes as RFC 8259 spells them.
const ESCAPED: &str = concat!(
    r#"{"fields":{"control":"\u001b[2J\u007f\u0085\u009b2J\u009f","#,
    r#""line":"a\u2028b\u2029c"#,
    "\u{2027}d\",\"message\":\"said\",\"plain\":\"~\u{a0}\u{e9}\u{2030}\u{1f600}",
    r#"\\","turned":"\u061c\u200e\u200f\u202a\u202e\u2066\u2069"},"#,
    r#""level":"WARN","target":"app","timestamp":"1970-01-01T00:00:00.000001Z"}"#,
    "\n"
);

/// Puts a stack in use, has it serve one event with such texts, and gives it back.
fn sent<S: Subscriber + Drop>(alloc: Global, stack: S) -> Result<S, TraceError>
    requires { S.usable stack }
{
    let said = Request::Event {
        lane: LANE,
        metadata: site(4, "said", "app", Level::WARN, Kind::EVENT),
        parent: WhichParent::Root,
        values: ACTING,
    };
    let mut dispatch = Dispatch::new(alloc, stack);
    dispatch.serve(alloc, &[said])?;
    Ok(dispatch.into_stack())
}

/// Puts a layer on a stack, has that serve the event, and gives it back.
fn sent_on<S: Subscriber + Drop, L: Layer<S> + Drop>(
    alloc: Global,
    stack: S,
    layer: L,
) -> Result<Layered<L, S>, TraceError>
    requires stack { S.usable stack }
    requires layer { L.usable layer }
{
    let made = put(stack, layer)?;
    sent(alloc, made)
}

/// What a form writes of the event.
fn written_of_acting<F: Form<Registry> + Drop>(alloc: Global, form: F) -> Result<Vec<u8>, Fail> {
    let bytes: Vec<u8> = Vec::new(alloc);
    let layer = Observer::new(Stream::new(form, bytes));
    let stack = sent_on(alloc, Registry::new(alloc), layer)?;
    let mut copy = Vec::new(alloc);
    copy.extend_from_slice(stack.outer().observer().writer())?;
    Ok(copy)
}

#[test]
fn lines_of_json_act_on_no_terminal(rt: HostRuntime) -> Result<(), Fail> {
    let form = JsonForm::new(rt.alloc(), Counted::new(), TimeStyle::Utc);
    let lines = written_of_acting(rt.alloc(), form)?;
    assert!(rt; lines.as_slice() == ESCAPED.as_bytes());
    Ok(())
}
