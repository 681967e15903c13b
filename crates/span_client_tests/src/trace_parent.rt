//! Tests of W3C's text of a span of another program.
use span_otlp::TraceParent;
use std::test::Fail;

/// The example of W3C's page.
const TEXT: &str = "00-4bf92f3577b34da6a3ce929d0e0e4736-00f067aa0ba902b7-01";

/// What that text says.
const PARENT: TraceParent = TraceParent {
    trace: 0x4bf9_2f35_77b3_4da6_a3ce_929d_0e0e_4736,
    span: 0x00f0_67aa_0ba9_02b7,
    flags: 1,
};

#[test]
fn a_text_is_read_and_written(rt: HostRuntime) -> Result<(), Fail> {
    let alloc = rt.alloc();
    assert!(rt; TEXT.parse::<TraceParent>().ok() == Some(PARENT));
    let text = format!(in alloc; "{PARENT}")?;
    assert!(rt; text.as_str() == TEXT);
    Ok(())
}

#[test]
fn the_least_and_the_greatest_are_read_again(rt: HostRuntime) -> Result<(), Fail> {
    let alloc = rt.alloc();
    let least = TraceParent {
        trace: 1,
        span: 1,
        flags: 0,
    };
    let text = format!(in alloc; "{least}")?;
    assert!(rt; text.as_str() == "00-00000000000000000000000000000001-0000000000000001-00");
    assert!(rt; text.as_str().parse::<TraceParent>().ok() == Some(least));
    let greatest = TraceParent {
        trace: u128::MAX,
        span: u64::MAX,
        flags: u8::MAX,
    };
    let text = format!(in alloc; "{greatest}")?;
    assert!(rt; text.as_str() == "00-ffffffffffffffffffffffffffffffff-ffffffffffffffff-ff");
    assert!(rt; text.as_str().parse::<TraceParent>().ok() == Some(greatest));
    Ok(())
}

/// Of higher versions, which may go on.
const LATER: [&str; 4] = [
    "01-4bf92f3577b34da6a3ce929d0e0e4736-00f067aa0ba902b7-01",
    "cc-4bf92f3577b34da6a3ce929d0e0e4736-00f067aa0ba902b7-01-",
    "0a-4bf92f3577b34da6a3ce929d0e0e4736-00f067aa0ba902b7-01-WHAT the future\u{E4}",
    "fe-4bf92f3577b34da6a3ce929d0e0e4736-00f067aa0ba902b7-01-00",
];

#[test]
fn a_higher_version_is_read_as_far(rt: HostRuntime) {
    for text in LATER {
        assert!(rt; text.parse::<TraceParent>().ok() == Some(PARENT));
    }
}

/// Too short, too long, with other dashes, with capitals, with what is no digit, of version ff, of
/// numbers that are 0.
const REFUSED: [&str; 20] = [
    "",
    "00",
    "00-4bf92f3577b34da6a3ce929d0e0e4736-00f067aa0ba902b7",
    "00-4bf92f3577b34da6a3ce929d0e0e4736-00f067aa0ba902b7-0",
    "00-4bf92f3577b34da6a3ce929d0e0e473-00f067aa0ba902b7-001",
    "00-4bf92f3577b34da6a3ce929d0e0e4736-00f067aa0ba902b7-01-",
    "00-4bf92f3577b34da6a3ce929d0e0e4736-00f067aa0ba902b7-01 ",
    " 00-4bf92f3577b34da6a3ce929d0e0e4736-00f067aa0ba902b7-01",
    "01-4bf92f3577b34da6a3ce929d0e0e4736-00f067aa0ba902b7-012",
    "01-4bf92f3577b34da6a3ce929d0e0e4736-00f067aa0ba902b7-01.",
    "00_4bf92f3577b34da6a3ce929d0e0e4736-00f067aa0ba902b7-01",
    "00-4bf92f3577b34da6a3ce929d0e0e4736-00f067aa0ba902b7+01",
    "00-4BF92F3577B34DA6A3CE929D0E0E4736-00f067aa0ba902b7-01",
    "0A-4bf92f3577b34da6a3ce929d0e0e4736-00f067aa0ba902b7-01",
    "00-4bf92f3577b34da6a3ce929d0e0e473g-00f067aa0ba902b7-01",
    "00-4bf92f3577b34da6a3ce929d0e0e47\u{E4}-00f067aa0ba902b7-01",
    "ff-4bf92f3577b34da6a3ce929d0e0e4736-00f067aa0ba902b7-01",
    "ff-4bf92f3577b34da6a3ce929d0e0e4736-00f067aa0ba902b7-01-00",
    "00-00000000000000000000000000000000-00f067aa0ba902b7-01",
    "00-4bf92f3577b34da6a3ce929d0e0e4736-0000000000000000-01",
];

#[test]
fn other_texts_are_refused(rt: HostRuntime) {
    for text in REFUSED {
        assert!(rt; text.parse::<TraceParent>().is_err());
    }
}
