//! The lines of formats: those of the worked run in each layout, and of texts that pose as others.
use crate::fixture::in_use;
use crate::stamp::written;
use crate::stream::{Faulty, handed_some, lost_on_a_full_disk};
use crate::text::{OTHER_LANE, forging, posing, worked_on};
use span_core::LevelFilter;
use span_dispatch::Request;
use span_fmt::{Stream, serve_stream};
use span_format::{Format, Layout};
use span_layers::Observer;
use span_registry::Registry;
use span_stacks::LayerExt;
use span_stream::{Painted, Stamped, TimeStyle};
use span_times::Counted;
use std::alloc::{AllocError, Global};
use std::test::Fail;

const IN_FULL: &str = r#" WARN outer{user=7}:inner{try=-2}: app::net: said what="a\nb" ok=true
 INFO app: heard
 INFO outer{user=7 late=false}: app: heard
"#;

const IN_SHORT: &str = r#" WARN outer:inner: app::net: said what="a\nb" ok=true user=7 try=-2
 INFO app: heard
 INFO outer: app: heard user=7 late=false
"#;

const TO_READ: &str = r#" WARN said, what: "a\nb", ok: true
    at app::net
    in app::net::inner with try: -2
    in app::outer with user: 7

 INFO heard
    at app

 INFO heard
    at app
    in app::outer with user: 7, late: false

"#;

#[test]
fn a_line_in_each_layout(rt: HostRuntime) -> Result<(), Fail> {
    let full = written(rt.alloc(), Format::new(rt.alloc(), Layout::Full))?;
    assert!(rt; full.as_slice() == IN_FULL.as_bytes());
    let short = written(rt.alloc(), Format::new(rt.alloc(), Layout::Compact))?;
    assert!(rt; short.as_slice() == IN_SHORT.as_bytes());
    let long = written(rt.alloc(), Format::new(rt.alloc(), Layout::Pretty))?;
    assert!(rt; long.as_slice() == TO_READ.as_bytes());
    Ok(())
}

/// Lines in a layout that show lanes, of which one has a name, and neither levels nor targets.
fn with_lanes_alone(alloc: Global, layout: Layout) -> Result<Format, AllocError> {
    let mut format = Format::new(alloc, layout)
        .with_level(false)
        .with_target(false)
        .with_lanes(true);
    format.name_lane(OTHER_LANE, "worker-3")?;
    Ok(format)
}

const FULL_BY_LANES: &str = r#"0 outer{user=7}:inner{try=-2}: said what="a\nb" ok=true
"worker-3" heard
0 outer{user=7 late=false}: heard
"#;

const PRETTY_BY_LANES: &str = r#"said, what: "a\nb", ok: true
    on 0
    in inner with try: -2
    in outer with user: 7

heard
    on "worker-3"

heard
    on 0
    in outer with user: 7, late: false

"#;

#[test]
fn lanes_are_shown_by_their_names(rt: HostRuntime) -> Result<(), Fail> {
    let full = written(rt.alloc(), with_lanes_alone(rt.alloc(), Layout::Full)?)?;
    assert!(rt; full.as_slice() == FULL_BY_LANES.as_bytes());
    let pretty = written(rt.alloc(), with_lanes_alone(rt.alloc(), Layout::Pretty)?)?;
    assert!(rt; pretty.as_slice() == PRETTY_BY_LANES.as_bytes());
    Ok(())
}

const FULL_IN_STYLES: &str = concat!(
    "\u{1b}[33m WARN\u{1b}[0m \u{1b}[1mouter\u{1b}[0m{user=7}:\u{1b}[1minner\u{1b}[0m{try=-2}: ",
    "\u{1b}[2mapp::net\u{1b}[0m: said what=\"a\\nb\" ok=true\n",
    "\u{1b}[32m INFO\u{1b}[0m \u{1b}[2mapp\u{1b}[0m: heard\n",
    "\u{1b}[32m INFO\u{1b}[0m \u{1b}[1mouter\u{1b}[0m{user=7 late=false}: ",
    "\u{1b}[2mapp\u{1b}[0m: heard\n"
);

const SHORT_IN_STYLES: &str = concat!(
    "\u{1b}[33m WARN\u{1b}[0m \u{1b}[1mouter\u{1b}[0m:\u{1b}[1minner\u{1b}[0m: ",
    "\u{1b}[2mapp::net\u{1b}[0m: said what=\"a\\nb\" ok=true user=7 try=-2\n",
    "\u{1b}[32m INFO\u{1b}[0m \u{1b}[2mapp\u{1b}[0m: heard\n",
    "\u{1b}[32m INFO\u{1b}[0m \u{1b}[1mouter\u{1b}[0m: ",
    "\u{1b}[2mapp\u{1b}[0m: heard user=7 late=false\n"
);

const PRETTY_IN_STYLES: &str = concat!(
    "\u{1b}[33m WARN\u{1b}[0m said, what: \"a\\nb\", ok: true\n",
    "    at \u{1b}[2mapp::net\u{1b}[0m\n",
    "    in \u{1b}[2mapp::net\u{1b}[0m::\u{1b}[1minner\u{1b}[0m with try: -2\n",
    "    in \u{1b}[2mapp\u{1b}[0m::\u{1b}[1mouter\u{1b}[0m with user: 7\n",
    "\n",
    "\u{1b}[32m INFO\u{1b}[0m heard\n",
    "    at \u{1b}[2mapp\u{1b}[0m\n",
    "\n",
    "\u{1b}[32m INFO\u{1b}[0m heard\n",
    "    at \u{1b}[2mapp\u{1b}[0m\n",
    "    in \u{1b}[2mapp\u{1b}[0m::\u{1b}[1mouter\u{1b}[0m with user: 7, late: false\n",
    "\n"
);

/// What is written of the worked run in a layout, with parts in styles or not.
fn styled(alloc: Global, layout: Layout, ansi: bool) -> Result<Vec<u8>, Fail> {
    written(alloc, Format::new(alloc, layout).with_ansi(ansi))
}

#[test]
fn parts_are_in_styles_where_asked(rt: HostRuntime) -> Result<(), Fail> {
    let full = styled(rt.alloc(), Layout::Full, true)?;
    assert!(rt; full.as_slice() == FULL_IN_STYLES.as_bytes());
    let short = styled(rt.alloc(), Layout::Compact, true)?;
    assert!(rt; short.as_slice() == SHORT_IN_STYLES.as_bytes());
    let pretty = styled(rt.alloc(), Layout::Pretty, true)?;
    assert!(rt; pretty.as_slice() == PRETTY_IN_STYLES.as_bytes());
    let plain = styled(rt.alloc(), Layout::Full, false)?;
    assert!(rt; plain.as_slice() == IN_FULL.as_bytes());
    Ok(())
}

const STAMPED: &str =
    "\x1b[33m0.000001s  WARN outer{user=7}:inner{try=-2}: app::net: said what=\"a\\nb\" ok=true\x1b[0m
\x1b[32m0.000002s  INFO app: heard\x1b[0m
\x1b[32m0.000003s  INFO outer{user=7 late=false}: app: heard\x1b[0m
";

#[test]
fn times_and_colours_go_over_a_format(rt: HostRuntime) -> Result<(), Fail> {
    let alloc = rt.alloc();
    let full = Format::new(alloc, Layout::Full);
    let stamped = Stamped::new(alloc, full, Counted::new(), TimeStyle::Seconds);
    let lines = written(alloc, Painted::new(alloc, stamped, true))?;
    assert!(rt; lines.as_slice() == STAMPED.as_bytes());
    Ok(())
}

/// What is written of these requests in a layout.
fn served(alloc: Global, layout: Layout, requests: &[Request<'_>]) -> Result<Vec<u8>, Fail> {
    let stream = Stream::new(Format::new(alloc, layout), Vec::new(alloc));
    let layer = Observer::new(stream).with_filter(LevelFilter::TRACE);
    let mut dispatch = in_use(alloc, Registry::new(alloc), layer)?;
    serve_stream(alloc, &mut dispatch, requests)?;
    let mut copy = Vec::new(alloc);
    copy.extend_from_slice(dispatch.stack().outer().layer().observer().writer())?;
    Ok(copy)
}

const FORGED: &str = concat!(
    " WARN s\\u{85}{k\\n=\"v\\r\"}: app\\n0: e\\u{1b} ",
    "f\\u{2028}=\"\\n0 - INFO app: forged\"\n"
);

#[test]
fn no_text_begins_a_line(rt: HostRuntime) -> Result<(), Fail> {
    let lines = served(rt.alloc(), Layout::Full, &forging())?;
    assert!(rt; lines.as_slice() == FORGED.as_bytes());
    Ok(())
}

const POSED_IN_FULL: &str = r#"ERROR s{user="x\" admin=\"true"}: app: "hi \u{202e}\\ a=1" n=1
"#;

const POSED_IN_SHORT: &str = r#"ERROR s: app: "hi \u{202e}\\ a=1" n=1 user="x\" admin=\"true"
"#;

const POSED_TO_READ: &str = r#"ERROR "hi \u{202e}\\ a=1", n: 1
    at app
    in app::s with user: "x\" admin=\"true"

"#;

#[test]
fn no_text_poses_as_a_field(rt: HostRuntime) -> Result<(), Fail> {
    let full = served(rt.alloc(), Layout::Full, &posing())?;
    assert!(rt; full.as_slice() == POSED_IN_FULL.as_bytes());
    let short = served(rt.alloc(), Layout::Compact, &posing())?;
    assert!(rt; short.as_slice() == POSED_IN_SHORT.as_bytes());
    let pretty = served(rt.alloc(), Layout::Pretty, &posing())?;
    assert!(rt; pretty.as_slice() == POSED_TO_READ.as_bytes());
    Ok(())
}

/// The line that was cut, and behind those that were lost the next one on a line of its own.
const CUT: &str = " WARN outer{user=7}:inner{t
 INFO outer{user=7 late=false}: app: heard
";

#[test]
fn a_line_that_is_not_taken_is_lost(rt: HostRuntime) -> Result<(), Fail> {
    let faulty = Faulty::new(rt.alloc(), 9, 5, 8);
    let stream = Stream::new(Format::new(rt.alloc(), Layout::Full), faulty);
    let layer = Observer::new(stream).with_filter(LevelFilter::DEBUG);
    let stack = worked_on(rt.alloc(), Registry::new(rt.alloc()), layer)?;
    handed_some(&rt, stack.outer().layer().observer(), CUT, 2);
    Ok(())
}

#[test]
fn a_full_disk_loses_each_event(rt: HostRuntime) -> Result<(), Fail> {
    let pretty = Format::new(rt.alloc(), Layout::Pretty);
    assert!(rt; lost_on_a_full_disk(&rt, pretty)? == 3);
    Ok(())
}
