//! Texts worked by hand: of one run on two lanes, by a tree of everything and by one under a level.
use crate::fixture::{in_use, put};
use span_core::{FieldSet, FieldValue, Kind, Lane, Level, LevelFilter, Metadata, TraceError};
use span_dispatch::{Dispatch, Request, Which, WhichParent};
use span_fmt::{Lines, Tree, serve_lines, serve_tree, write_escaped, write_fields, write_quoted};
use span_layers::{Layer, Observer};
use span_registry::{Registry, Subscriber};
use span_stacks::{LayerExt, Layered};
use std::alloc::Global;
use std::process::Abort;
use std::test::Fail;

pub(crate) const LANE: Lane = Lane(0);

pub(crate) const OTHER_LANE: Lane = Lane(3);

const NOTHING: &[(&str, FieldValue<'static>)] = &[];

const USER: &[(&str, FieldValue<'static>)] = &[("user", FieldValue::U64(7))];

const TRIES: &[(&str, FieldValue<'static>)] = &[("try", FieldValue::I64(-2))];

const SAID: &[(&str, FieldValue<'static>)] = &[
    ("what", FieldValue::Text("a\nb")),
    ("ok", FieldValue::Bool(true)),
];

const LATE: &[(&str, FieldValue<'static>)] = &[("late", FieldValue::Bool(false))];

pub(crate) const OF_ALL: &str = "0 > INFO app: outer user=7
0   > TRACE app: step
0     > DEBUG app::net: inner try=-2
0       - WARN app::net: said what=\"a\\nb\" ok=true
3 ~ INFO app: outer late=false
3 - INFO app: heard
3     < DEBUG app::net: inner
0     - INFO app: heard
0   < TRACE app: step
0 < INFO app: outer
";

/// The span `step` is hidden, so it counts for no depth.
const UNDER_DEBUG: &str = "0 > INFO app: outer user=7
0   > DEBUG app::net: inner try=-2
0     - WARN app::net: said what=\"a\\nb\" ok=true
3 ~ INFO app: outer late=false
3 - INFO app: heard
3   < DEBUG app::net: inner
0   - INFO app: heard
0 < INFO app: outer
";

/// The span `step` is hidden here too.
pub(crate) const OF_EVENTS: &str =
    "0 WARN outer{user=7}:inner{try=-2}: app::net: said what=\"a\\nb\" ok=true
3 INFO app: heard
0 INFO outer{user=7 late=false}: app: heard
";

pub(crate) fn site(
    callsite: u64,
    name: &'static str,
    target: &'static str,
    level: Level,
    kind: Kind,
) -> Metadata {
    Metadata::new(callsite, name, target, level, kind, FieldSet::new(&[]))
}

/// Opens a span in the span that the lane is in.
pub(crate) fn open<'a>(
    metadata: Metadata,
    values: &'a [(&'static str, FieldValue<'a>)],
) -> Request<'a> {
    Request::NewSpan {
        lane: LANE,
        metadata,
        parent: WhichParent::Contextual,
        values,
    }
}

/// An event without values, in the span that the lane is in.
pub(crate) fn heard(lane: Lane) -> Request<'static> {
    let metadata = site(5, "heard", "app", Level::INFO, Kind::EVENT);
    Request::Event {
        lane,
        metadata,
        parent: WhichParent::Contextual,
        values: NOTHING,
    }
}

/// Puts a stack in use, serves the requests of the worked run, and gives it back.
fn worked<S: Subscriber + Drop>(alloc: Global, stack: S) -> Result<S, TraceError>
    requires { S.usable stack }
{
    let said = site(4, "said", "app::net", Level::WARN, Kind::EVENT);
    let (outer, step, inner) = (Which::Made(0), Which::Made(2), Which::Made(4));
    let requests = [
        open(site(1, "outer", "app", Level::INFO, Kind::SPAN), USER),
        Request::Enter(LANE, outer),
        open(site(2, "step", "app", Level::TRACE, Kind::SPAN), &[]),
        Request::Enter(LANE, step),
        open(
            site(3, "inner", "app::net", Level::DEBUG, Kind::SPAN),
            TRIES,
        ),
        Request::Enter(LANE, inner),
        Request::Event {
            lane: LANE,
            metadata: said,
            parent: WhichParent::Contextual,
            values: SAID,
        },
        Request::Record(OTHER_LANE, outer, LATE),
        heard(OTHER_LANE),
        Request::Exit(LANE, inner),
        Request::Drop(OTHER_LANE, inner),
        heard(LANE),
        Request::Exit(LANE, step),
        Request::Drop(LANE, step),
        Request::Exit(LANE, outer),
        Request::Drop(LANE, outer),
    ];
    let mut dispatch = Dispatch::new(alloc, stack);
    dispatch.serve(alloc, &requests)?;
    Ok(dispatch.into_stack())
}

/// A tree wrote this.
fn wrote(rt: &impl Abort, tree: &Tree, text: &str) {
    assert!(rt; tree.text() == text);
}

/// Puts a layer on a stack, has that serve the worked run, and gives it back.
pub(crate) fn worked_on<S: Subscriber + Drop, L: Layer<S> + Drop>(
    alloc: Global,
    stack: S,
    layer: L,
) -> Result<Layered<L, S>, TraceError>
    requires stack { S.usable stack }
    requires layer { L.usable layer }
{
    let made = put(stack, layer)?;
    worked(alloc, made)
}

#[test]
fn a_line_for_each_notice(rt: HostRuntime) -> Result<(), Fail> {
    let all = put(
        Registry::new(rt.alloc()),
        Observer::new(Tree::new(rt.alloc())),
    )?;
    let under = Observer::new(Tree::new(rt.alloc())).with_filter(LevelFilter::DEBUG);
    let stack = worked_on(rt.alloc(), all, under)?;
    wrote(&rt, stack.outer().layer().observer(), UNDER_DEBUG);
    wrote(&rt, stack.inner().outer().observer(), OF_ALL);
    Ok(())
}

/// A tree's text is written elsewhere, and then taken out.
fn takes_its_text(rt: &impl Abort, alloc: Global, tree: &mut Tree) -> Result<(), Fail> {
    assert!(rt; !tree.failed());
    let mut bytes: Vec<u8> = Vec::new(alloc);
    tree.write_to(&mut bytes)?;
    assert!(rt; bytes.as_slice() == OF_ALL.as_bytes());
    assert!(rt; tree.take_text().as_str() == OF_ALL);
    assert!(rt; tree.text() == "");
    Ok(())
}

#[test]
fn a_text_is_taken_out(rt: HostRuntime) -> Result<(), Fail> {
    let layer = Observer::new(Tree::new(rt.alloc()));
    let mut stack = worked_on(rt.alloc(), Registry::new(rt.alloc()), layer)?;
    takes_its_text(&rt, rt.alloc(), stack.outer_mut().observer_mut())
}

/// A warning, and an event that isn't one.
fn said_and_unheard() -> [Request<'static>; 2] {
    let said = site(4, "said", "app::net", Level::WARN, Kind::EVENT);
    let unheard = site(5, "unheard", "app::net", Level::INFO, Kind::EVENT);
    [
        Request::Event {
            lane: LANE,
            metadata: said,
            parent: WhichParent::Contextual,
            values: &[],
        },
        Request::Event {
            lane: LANE,
            metadata: unheard,
            parent: WhichParent::Contextual,
            values: &[],
        },
    ]
}

#[test]
fn a_tree_under_a_level_is_served(rt: HostRuntime) -> Result<(), Fail> {
    let layer = Observer::new(Tree::new(rt.alloc())).with_filter(LevelFilter::WARN);
    let mut dispatch = in_use(rt.alloc(), Registry::new(rt.alloc()), layer)?;
    serve_tree(rt.alloc(), &mut dispatch, &said_and_unheard())?;
    let tree = dispatch.stack().outer().layer().observer();
    wrote(&rt, tree, "0 - WARN app::net: said\n");
    Ok(())
}

/// The same of lines.
fn takes_its_lines(rt: &impl Abort, alloc: Global, lines: &mut Lines) -> Result<(), Fail> {
    assert!(rt; !lines.failed());
    let mut bytes: Vec<u8> = Vec::new(alloc);
    lines.write_to(&mut bytes)?;
    assert!(rt; bytes.as_slice() == OF_EVENTS.as_bytes());
    assert!(rt; lines.take_text().as_str() == OF_EVENTS);
    assert!(rt; lines.text() == "");
    Ok(())
}

#[test]
fn a_line_for_each_event(rt: HostRuntime) -> Result<(), Fail> {
    let layer = Observer::new(Lines::new(rt.alloc())).with_filter(LevelFilter::DEBUG);
    let mut stack = worked_on(rt.alloc(), Registry::new(rt.alloc()), layer)?;
    takes_its_lines(
        &rt,
        rt.alloc(),
        stack.outer_mut().layer_mut().observer_mut(),
    )
}

#[test]
fn lines_under_a_level_are_served(rt: HostRuntime) -> Result<(), Fail> {
    let layer = Observer::new(Lines::new(rt.alloc())).with_filter(LevelFilter::INFO);
    let mut dispatch = in_use(rt.alloc(), Registry::new(rt.alloc()), layer)?;
    serve_lines(rt.alloc(), &mut dispatch, &[heard(LANE)])?;
    let lines = dispatch.stack().outer().layer().observer();
    assert!(rt; lines.text() == "0 INFO app: heard\n");
    Ok(())
}

#[test]
fn fields_in_one_line(rt: HostRuntime) -> Result<(), Fail> {
    let mut text = String::from_str(rt.alloc(), "begun")?;
    let values = [
        ("first", FieldValue::Text("\nx\n\n")),
        ("second", FieldValue::Text("")),
        ("most", FieldValue::U64(u64::MAX)),
        ("least", FieldValue::I64(i64::MIN)),
    ];
    write_fields(&mut text, &values)?;
    let whole =
        r#"begun first="\nx\n\n" second="" most=18446744073709551615 least=-9223372036854775808"#;
    assert!(rt; text.as_str() == whole);
    Ok(())
}

/// What acts on a terminal: that rings, clears the screen, goes back to the line's start, and the
/// like.
const ACTING: [(&str, &str); 8] = [
    ("\u{7}", "\\u{7}"),
    ("a\u{1b}[2Jb", "a\\u{1b}[2Jb"),
    ("100%\r0%", "100%\\r0%"),
    ("a\tb\u{0}\u{7f}", "a\\tb\\u{0}\\u{7f}"),
    ("\u{9b}31m\u{9f}\u{a0}", "\\u{9b}31m\\u{9f}\u{a0}"),
    ("a\nb\u{2028}c\u{2029}", "a\\nb\\u{2028}c\\u{2029}"),
    (
        "\u{202e}txt\u{202c}\u{2066}\u{2069}\u{61c}\u{200f}",
        "\\u{202e}txt\\u{202c}\\u{2066}\\u{2069}\\u{61c}\\u{200f}",
    ),
    ("C:\\new \\u{1b}", "C:\\\\new \\\\u{1b}"),
];

#[test]
fn what_acts_is_escaped(rt: HostRuntime) -> Result<(), Fail> {
    for (words, escaped) in ACTING {
        let mut text = String::new(rt.alloc());
        write_escaped(&mut text, words)?;
        assert!(rt; text.as_str() == escaped);
    }
    Ok(())
}

#[test]
fn what_is_plain_stays(rt: HostRuntime) -> Result<(), Fail> {
    let plain = " ~\u{a0}\u{200d}\u{202f}\u{206a}é€\u{1f600}\"'/{}=";
    let mut text = String::from_str(rt.alloc(), "> ")?;
    write_escaped(&mut text, plain)?;
    assert!(rt; text.as_str().strip_prefix("> ") == Some(plain));
    Ok(())
}

/// Texts, and what is written of each in quotes.
const QUOTED: [(&str, &str); 5] = [
    ("", r#""""#),
    ("a=1: {b} 'c'", r#""a=1: {b} 'c'""#),
    ("é\u{a0}€\u{1f600}", "\"é\u{a0}€\u{1f600}\""),
    ("a \"b\"\u{7} é\\", r#""a \"b\"\u{7} é\\""#),
    ("\\\" \u{2028}", r#""\\\" \u{2028}""#),
];

#[test]
fn texts_in_quotes(rt: HostRuntime) -> Result<(), Fail> {
    for (words, quoted) in QUOTED {
        let mut text = String::new(rt.alloc());
        write_quoted(&mut text, words)?;
        assert!(rt; text.as_str() == quoted);
    }
    Ok(())
}

const BREAKING: &[(&str, FieldValue<'static>)] = &[("k\n", FieldValue::Text("v\r"))];

const POSING: &[(&str, FieldValue<'static>)] = &[(
    "f\u{2028}",
    FieldValue::Text("\n0 - INFO app: forged"),
)];

/// An event whose texts would begin a line of their own, within a span whose name does.
pub(crate) fn forging() -> [Request<'static>; 3] {
    [
        open(site(1, "s\u{85}", "app", Level::INFO, Kind::SPAN), BREAKING),
        Request::Enter(LANE, Which::Made(0)),
        Request::Event {
            lane: LANE,
            metadata: site(2, "e\u{1b}", "app\n0", Level::WARN, Kind::EVENT),
            parent: WhichParent::Contextual,
            values: POSING,
        },
    ]
}

const FORGED: &str = r#"0 > INFO app: s\u{85} k\n="v\r"
0   - WARN app\n0: e\u{1b} f\u{2028}="\n0 - INFO app: forged"
"#;

#[test]
fn no_text_begins_a_line_of_a_tree(rt: HostRuntime) -> Result<(), Fail> {
    let layer = Observer::new(Tree::new(rt.alloc())).with_filter(LevelFilter::TRACE);
    let mut dispatch = in_use(rt.alloc(), Registry::new(rt.alloc()), layer)?;
    serve_tree(rt.alloc(), &mut dispatch, &forging())?;
    wrote(&rt, dispatch.stack().outer().layer().observer(), FORGED);
    Ok(())
}

const FORGED_EVENT: &str =
    r#"0 WARN s\u{85}{k\n="v\r"}: app\n0: e\u{1b} f\u{2028}="\n0 - INFO app: forged"
"#;

#[test]
fn no_text_begins_a_line_of_lines(rt: HostRuntime) -> Result<(), Fail> {
    let layer = Observer::new(Lines::new(rt.alloc())).with_filter(LevelFilter::TRACE);
    let mut dispatch = in_use(rt.alloc(), Registry::new(rt.alloc()), layer)?;
    serve_lines(rt.alloc(), &mut dispatch, &forging())?;
    let lines = dispatch.stack().outer().layer().observer();
    assert!(rt; lines.text() == FORGED_EVENT);
    Ok(())
}

const TWO_IN_ONE: &[(&str, FieldValue<'static>)] = &[(
    "user",
    FieldValue::Text("x\" admin=\"true"),
)];

const GREETING: &[(&str, FieldValue<'static>)] = &[
    ("message", FieldValue::Text("hi \u{202e}\\ a=1")),
    ("n", FieldValue::U64(1)),
    ("none", FieldValue::Absent),
];

/// An event with a message among its fields, in a span with a field that poses as two.
pub(crate) fn posing() -> [Request<'static>; 3] {
    [
        open(site(1, "s", "app", Level::INFO, Kind::SPAN), TWO_IN_ONE),
        Request::Enter(LANE, Which::Made(0)),
        Request::Event {
            lane: LANE,
            metadata: site(2, "{}", "app", Level::ERROR, Kind::EVENT),
            parent: WhichParent::Contextual,
            values: GREETING,
        },
    ]
}

const POSED: &str = r#"0 > INFO app: s user="x\" admin=\"true"
0   - ERROR app: {} message="hi \u{202e}\\ a=1" n=1
"#;

#[test]
fn no_text_poses_as_a_field_of_a_tree(rt: HostRuntime) -> Result<(), Fail> {
    let layer = Observer::new(Tree::new(rt.alloc())).with_filter(LevelFilter::TRACE);
    let mut dispatch = in_use(rt.alloc(), Registry::new(rt.alloc()), layer)?;
    serve_tree(rt.alloc(), &mut dispatch, &posing())?;
    wrote(&rt, dispatch.stack().outer().layer().observer(), POSED);
    Ok(())
}

const POSED_EVENT: &str =
    r#"0 ERROR s{user="x\" admin=\"true"}: app: {} message="hi \u{202e}\\ a=1" n=1
"#;

#[test]
fn no_text_poses_as_a_field_of_lines(rt: HostRuntime) -> Result<(), Fail> {
    let layer = Observer::new(Lines::new(rt.alloc())).with_filter(LevelFilter::TRACE);
    let mut dispatch = in_use(rt.alloc(), Registry::new(rt.alloc()), layer)?;
    serve_lines(rt.alloc(), &mut dispatch, &posing())?;
    assert!(rt; dispatch.stack().outer().layer().observer().text() == POSED_EVENT);
    Ok(())
}
