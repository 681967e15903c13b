//! Tests of the texts that filters are read from, and of those that they are written as.

use span_core::{Level, LevelFilter};
use span_targets::{Fault, ParseError, Targets, WrongDirective};
use std::alloc::{AllocError, Global};
use std::process::Abort;
use std::test::Fail;

/// A filter is written as this text.
fn is_written<T: std::fmt::Display>(
    rt: &impl Abort,
    alloc: Global,
    value: &T,
    text: &str,
) -> Result<(), Fail> {
    let written = value.to_string(alloc)?;
    assert!(rt; written.as_str() == text);
    Ok(())
}

/// A text is read, and its filter is written as the other.
fn is_read(rt: &impl Abort, alloc: Global, text: &str, written: &str) -> Result<(), Fail> {
    is_written(rt, alloc, &Targets::parse(alloc, text)?, written)
}

/// Texts of the crate's own tests, and what it reads in them.
#[test]
fn texts_of_the_crate(rt: HostRuntime) -> Result<(), Fail> {
    let rows = [
        ("common=iNfo,server=dEbUg", "server=debug,common=info"),
        (
            "crate1::mod1=error,crate1::mod2,crate2=debug,crate3=off",
            "crate1::mod2=trace,crate1::mod1=error,crate3=off,crate2=debug",
        ),
        (
            "crate1::mod1=1,crate1::mod2=2,crate1::mod2::mod3=3,\
             crate2=4,crate3=5,crate3::mod2::mod1=0",
            "crate3::mod2::mod1=off,crate1::mod2::mod3=info,crate1::mod2=warn,\
             crate1::mod1=error,crate3=trace,crate2=debug",
        ),
    ];
    for (text, written) in rows {
        is_read(&rt, rt.alloc(), text, written)?;
    }
    Ok(())
}

/// A later directive replaces an earlier one; blanks and letters beyond ASCII are a target's.
#[test]
fn texts_at_the_edge(rt: HostRuntime) -> Result<(), Fail> {
    let rows = [
        ("", "error"),
        ("info,h2=off,h2=+3", "h2=info,info"),
        ("info,", "error"),
        ("=debug,caf\u{e9},7", "caf\u{e9}=trace,7=trace,=debug"),
    ];
    is_written(&rt, rt.alloc(), &Targets::new(rt.alloc()), "off")?;
    for (text, written) in rows {
        is_read(&rt, rt.alloc(), text, written)?;
    }
    Ok(())
}

/// A text isn't read, and this is said of it.
fn is_refused(rt: &impl Abort, alloc: Global, text: &str, said: &str) -> Result<(), Fail> {
    match Targets::parse(alloc, text) {
        Ok(_targets) => Err(Fail::from("it was read")),
        Err(error) => is_written(rt, alloc, &error, said),
    }
}

/// What is wrong with a text, and where.
#[test]
fn wrong_texts(rt: HostRuntime) -> Result<(), Fail> {
    let rows = [
        ("info,a=b=c,x=9", "directive 2: it has more than one '='"),
        (
            "a=loud",
            "directive 1: its level isn't off, error, warn, info, debug, trace or 0 to 5",
        ),
        ("a,b,[x{=info", "directive 3: its target has a '['"),
        ("[[[", "directive 1: its target has a '['"),
    ];
    for (text, said) in rows {
        is_refused(&rt, rt.alloc(), text, said)?;
    }
    Ok(())
}

/// What is wrong is left out, and told.
#[test]
fn wrong_directives_are_left_out(rt: HostRuntime) -> Result<(), Fail> {
    let (targets, wrong) = Targets::parse_lossy(rt.alloc(), "info,a=b=c,x=9,db=debug,[")?;
    is_written(&rt, rt.alloc(), &targets, "db=debug,info")?;
    let told = [
        (2, Fault::TwoEquals),
        (3, Fault::UnknownLevel),
        (5, Fault::Bracket),
    ];
    assert!(rt; wrong.len() == told.len());
    for (found, (number, fault)) in wrong.iter().zip(told) {
        assert!(rt; found.number == number);
        assert!(rt; found.fault == fault);
    }
    Ok(())
}

/// A text that is this one so often: each time it is doubled.
pub(crate) fn doubled(alloc: Global, text: &str, times: u32) -> Result<String, AllocError> {
    let mut all = String::from_str(alloc, text)?;
    for _ in 0..times {
        let once = all.clone()?;
        all.push_str(once.as_str())?;
    }
    Ok(all)
}

/// A text is wrong at this directive.
fn is_wrong_at(rt: &impl Abort, alloc: Global, text: &str, number: usize, fault: Fault) {
    match Targets::parse(alloc, text) {
        Err(
            ParseError::Wrong(
                WrongDirective {
                    number: n,
                    fault: f,
                },
            ),
        ) => {
            assert!(rt; n == number);
            assert!(rt; f == fault);
        }
        _ => assert!(rt; false),
    }
}

/// Texts of a megabyte that mean harm are wrong at one of the first directives.
#[test]
fn hostile_texts(rt: HostRuntime) -> Result<(), Fail> {
    let alloc = rt.alloc();
    let commas = doubled(alloc, ",", 20)?;
    is_wrong_at(&rt, alloc, commas.as_str(), 1025, Fault::TooMany);
    let many = doubled(alloc, "a::b=info,", 17)?;
    is_wrong_at(&rt, alloc, many.as_str(), 1025, Fault::TooMany);
    let equals = doubled(alloc, "=", 20)?;
    is_wrong_at(&rt, alloc, equals.as_str(), 1, Fault::TwoEquals);
    let brackets = doubled(alloc, "[{", 19)?;
    is_wrong_at(&rt, alloc, brackets.as_str(), 1, Fault::Bracket);
    Ok(())
}

/// Reads a text, once more where memory is refused, and adds a target so: what is refused leaves
/// the filter as it was. It passes too where any one allocation is refused:
/// `tests/each_refusal_within_a_test` refuses one after another.
#[test]
fn a_refusal_of_memory_is_told(rt: HostRuntime) -> Result<(), Fail> {
    let text = "info,my_crate=debug,x=9,h2=off";
    let (mut targets, wrong) = match Targets::parse_lossy(rt.alloc(), text) {
        Ok(read) => read,
        Err(_refused) => Targets::parse_lossy(rt.alloc(), text)?,
    };
    assert!(rt; wrong.len() == 1);
    if targets.add("tokio", LevelFilter::WARN).is_err() {
        assert!(rt; targets.would_enable("tokio", Level::INFO));
        targets.add("tokio", LevelFilter::WARN)?;
    }
    passes_to(&rt, &targets, "tokio::net", Level::WARN, Level::INFO);
    passes_to(&rt, &targets, "my_crate", Level::DEBUG, Level::TRACE);
    Ok(())
}

/// The level passes at the target, and the next one doesn't.
fn passes_to(rt: &impl Abort, targets: &Targets, target: &str, passes: Level, next: Level) {
    assert!(rt; targets.would_enable(target, passes));
    assert!(rt; !targets.would_enable(target, next));
}

/// What `tracing_subscriber::filter::Targets` 0.3.16 enabled by this text.
#[test]
fn targets_of_the_crate(rt: HostRuntime) -> Result<(), Fail> {
    let text = "info,my_crate::db=debug,h2=off,hyper::proto,my_crate=WARN";
    let targets = Targets::parse(rt.alloc(), text)?;
    let rows = [
        ("my_crate::db::pool", Level::DEBUG, Level::TRACE),
        ("my_crate::dbx", Level::DEBUG, Level::TRACE),
        ("my_crate::web", Level::WARN, Level::INFO),
        ("my_crates", Level::WARN, Level::INFO),
        ("hyper", Level::INFO, Level::DEBUG),
        ("h", Level::INFO, Level::DEBUG),
    ];
    for (target, passes, next) in rows {
        passes_to(&rt, &targets, target, passes, next);
    }
    assert!(rt; !targets.would_enable("h2", Level::ERROR));
    assert!(rt; targets.would_enable("hyper::proto::h1", Level::TRACE));
    Ok(())
}

/// A filter that is made by calls, as the crate's example has it.
#[test]
fn a_filter_of_calls(rt: HostRuntime) -> Result<(), Fail> {
    let targets = Targets::new(rt.alloc())
        .with_target("my_crate", LevelFilter::INFO)?
        .with_targets(&[
            ("my_crate::interesting_module", LevelFilter::DEBUG),
            ("other", LevelFilter::OFF),
        ])?
        .with_default(LevelFilter::ERROR);
    passes_to(&rt, &targets, "my_crate", Level::INFO, Level::DEBUG);
    let module = "my_crate::interesting_module::part";
    passes_to(&rt, &targets, module, Level::DEBUG, Level::TRACE);
    passes_to(&rt, &targets, "elsewhere", Level::ERROR, Level::WARN);
    assert!(rt; targets.default_level() == Some(LevelFilter::ERROR));
    assert!(rt; targets.max_level() == LevelFilter::DEBUG);
    let longest = targets.iter().next().ok_or("no directive")?;
    assert!(rt; longest.target() == "my_crate::interesting_module");
    assert!(rt; longest.level() == LevelFilter::DEBUG);
    Ok(())
}
