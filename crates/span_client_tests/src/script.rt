//! Tests of scripts: what they ask for, which lines are wrong, and why.
use crate::row::lines;
use span_core::{FieldValue, Lane, LevelFilter};
use span_dispatch::{Request, Which};
use span_script::{Reason, Script, ScriptFault, StackName, WrongLine};
use span_targets::{Fault, WrongDirective};
use std::alloc::Global;
use std::process::Abort;
use std::test::Fail;

/// The first line that is wrong of a text that isn't a script.
fn wrong_line(alloc: Global, text: &str) -> Option<WrongLine> {
    match Script::parse(alloc, text) {
        Err(ScriptFault::Wrong(wrong)) => Some(wrong),
        _ => None,
    }
}

/// Scripts that are no scripts, and the first of their lines that is wrong.
const WRONG: [(&[u8], u64); 70] = [
    // What stands first.
    (b"", 1),
    (b"\n\n\n", 1),
    (b"new 0 2 p", 1),
    (b"\n\nstack pairs", 3),
    (b"stack Pair", 1),
    (b"stack none", 1),
    (b"stack", 1),
    (b"stack plain base", 1),
    (b"stack plain\nstack plain", 2),
    (b"stack nested\ncurrent 0\nstack pair", 3),
    // What parts lines and words.
    (b" stack plain", 1),
    (b"stack  plain", 1),
    (b"stack plain ", 1),
    (b"stack plain\r\n", 1),
    (b"stack plain\n\n \n", 3),
    (b"stack plain\n\r\n", 2),
    (b"stack plain\nnew\t0 2 p", 2),
    (b"stack plain\ncurrent 0\0", 2),
    // What isn't text.
    (b"stack plain\n\xff\nsummary", 2),
    (b"stack plain\n\nsummary\n\xff", 3),
    (b"stack plain\ncurrent 0\ncurrent \xc3", 3),
    (b"stack plain\ncurrent \xe2\x82\ncurrent 0", 2),
    (b"stack plain\nnew 0 2 p\nenter 0 \xc3\xa9", 3),
    // The word for what is asked.
    (b"stack plain\nnews 0 2 p", 2),
    (b"stack plain\nNew 0 2 p", 2),
    (b"stack plain\nevents 0 7", 2),
    (b"stack plain\nid 0", 2),
    // Lanes and sites.
    (b"stack plain\ncurrent", 2),
    (b"stack plain\ncurrent 10", 2),
    (b"stack plain\ncurrent x", 2),
    (b"stack plain\ncurrent +", 2),
    (b"stack plain\ncurrent ", 2),
    (b"stack plain\nnew 0 5 p", 2),
    (b"stack plain\nnew 0 02 p", 2),
    (b"stack plain\nevent 0", 2),
    (b"stack plain\nevent 0 4", 2),
    (b"stack plain\nevent 0 10", 2),
    (b"stack plain\nenabled 0", 2),
    (b"stack plain\nenabled 0 10", 2),
    (b"stack plain\nenabled 0 x", 2),
    // Labels.
    (b"stack plain\nnew 0 2", 2),
    (b"stack plain\nnew 0 2 ", 2),
    (b"stack plain\nnew 0 2 ?", 2),
    (b"stack plain\nnew 0 2 1p", 2),
    (b"stack plain\nnew 0 2 pQ", 2),
    (b"stack plain\nnew 0 2 a1b2c3d4e5f6g7h8i", 2),
    (b"stack plain\nnew 0 2 mute", 2),
    (b"stack plain\nnew 0 2 p\n\nnew 0 2 p", 4),
    (b"stack plain\ncurrent 0\nenter 0 p\nnew 0 2 p", 3),
    (b"stack plain\nnew 0 2 p in p", 2),
    (b"stack plain\nclone p", 2),
    (b"stack plain\nnew 0 2 p\nfollows 0 p q", 3),
    (b"stack plain\nnew 0 2 p\nfollows 0 q p", 3),
    (b"stack plain\nevent 0 7 in p", 2),
    // What stands last.
    (b"stack plain\nnew 0 2 p of ?", 2),
    (b"stack plain\nnew 0 2 p in", 2),
    (b"stack plain\nnew 0 2 p in root", 2),
    (b"stack plain\nnew 0 2 p root root", 2),
    (b"stack plain\nnew 0 2 p\ndrop 0 p p", 3),
    (b"stack plain\nnew 0 2 p mute", 2),
    (b"stack plain\nnew 0 2 p\nclone 0 p", 3),
    (b"stack plain\nclone", 2),
    (b"stack plain\nfollows 0 ?", 2),
    (b"stack plain\nfollows 0 ? ? ?", 2),
    (b"stack plain\nenabled 0 2 root", 2),
    (b"stack plain\nevent 0 7 in", 2),
    (b"stack plain\nevent 0 7 in mute", 2),
    (b"stack plain\nevent 0 7 mute mute", 2),
    (b"stack plain\nevent 0 7 mute root", 2),
    (b"stack plain\nevent 0 7 in ? root", 2),
];

#[test]
fn wrong_lines(rt: HostRuntime) -> Result<(), Fail> {
    for (script, line) in WRONG {
        let text = String::from_utf8_lossy(rt.alloc(), script)?;
        let found = wrong_line(rt.alloc(), text.as_str()).map(|wrong| wrong.line);
        assert!(rt; found == Some(line), "{script:?}");
    }
    Ok(())
}

/// Texts, the line and the column at which they are wrong, and why.
const REASONS: [(&str, u64, usize, Reason); 35] = [
    ("", 1, 1, Reason::NoStack),
    ("\nnew 0 2 p", 2, 1, Reason::NoStack),
    ("stack pairs", 1, 7, Reason::UnknownStack),
    ("stack", 1, 7, Reason::TooFewWords),
    ("stack plain base", 1, 13, Reason::TooManyWords),
    ("stack  plain", 1, 7, Reason::EmptyWord),
    (" stack plain", 1, 1, Reason::EmptyWord),
    ("stack plain ", 1, 13, Reason::EmptyWord),
    ("stack plain\r\n", 1, 12, Reason::CarriageReturn),
    ("stack plain\n\r\n", 2, 1, Reason::CarriageReturn),
    ("stack plain\nnews 0 2 p", 2, 1, Reason::UnknownWord),
    ("stack plain\nnew x 2 p", 2, 5, Reason::UnknownWord),
    ("stack plain\nnew 0 5 p", 2, 7, Reason::UnknownWord),
    ("stack plain\nevent 0 4 mute", 2, 9, Reason::UnknownWord),
    ("stack plain\nlevel 10 off", 2, 7, Reason::UnknownWord),
    ("stack plain\nlevel 0 warning", 2, 9, Reason::UnknownWord),
    ("stack plain\nlevel 0", 2, 9, Reason::TooFewWords),
    ("stack plain\nnew 0 2 p of ?", 2, 11, Reason::UnknownWord),
    (
        "stack plain\nevent 0 7 mute root",
        2,
        16,
        Reason::TooManyWords,
    ),
    ("stack plain\nenter 0 p p", 2, 11, Reason::TooManyWords),
    ("stack plain\nnew 0 2 mute", 2, 9, Reason::NotLabel),
    (
        "stack plain\nnew 0 2 a1b2c3d4e5f6g7h8i",
        2,
        9,
        Reason::NotLabel,
    ),
    ("stack plain\nclone P", 2, 7, Reason::NotLabel),
    (
        "stack plain\nnew 0 2 p\nfollows 0 p q",
        3,
        13,
        Reason::Undeclared,
    ),
    ("stack plain\nnew 0 2 p in p", 2, 14, Reason::Undeclared),
    (
        "stack plain\nevent 0 7 in new mute",
        2,
        14,
        Reason::Undeclared,
    ),
    (
        "stack plain\nnew 0 2 p\n\nnew 1 3 p in p",
        4,
        9,
        Reason::DeclaredBefore,
    ),
    (
        "stack plain\nnew 0 2 new\nnew 0 2 new in ?",
        3,
        9,
        Reason::DeclaredBefore,
    ),
    ("stack plain\ntargets 0", 2, 11, Reason::TooFewWords),
    ("stack plain\ntargets 0 ", 2, 11, Reason::EmptyWord),
    (
        "stack plain\ntargets 0 warn\r\n",
        2,
        15,
        Reason::CarriageReturn,
    ),
    (
        "stack plain\ntargets 0 warn, a=debug",
        2,
        17,
        Reason::TooManyWords,
    ),
    ("stack plain\ntargets 10 warn", 2, 9, Reason::UnknownWord),
    (
        "stack plain\ntargets 0 a=b=c,d=e=f",
        2,
        11,
        Reason::Directive(WrongDirective {
            number: 1,
            fault: Fault::TwoEquals,
        }),
    ),
    (
        "stack plain\ntargets 0 warn,app=loud",
        2,
        11,
        Reason::Directive(WrongDirective {
            number: 2,
            fault: Fault::UnknownLevel,
        }),
    ),
];

#[test]
fn reasons(rt: HostRuntime) {
    for (text, line, column, reason) in REASONS {
        let wanted = WrongLine {
            line,
            column,
            reason,
        };
        assert!(rt; wrong_line(rt.alloc(), text) == Some(wanted), "{text:?}");
    }
}

#[test]
fn texts_of_reasons(rt: HostRuntime) -> Result<(), Fail> {
    let wrong = WrongLine {
        line: 12,
        column: 3,
        reason: Reason::TooManyWords,
    };
    let wanted = "line 12, column 3: the line has too many words";
    assert!(rt; format!(in rt.alloc(); "{wrong}")?.as_str() == wanted);
    let fault = ScriptFault::Wrong(wrong);
    assert!(rt; format!(in rt.alloc(); "{fault}")?.as_str() == wanted);
    Ok(())
}

/// Every line of scripts, in every form.
const EVERY_LINE: &str =
    "stack nested / new 0 0 a / new 1 4 b root / new 2 1 c in a / new 9 3 d in ? / enter 0 a / exit 0 ? / record 3 b / follows 4 a ? / clone b / drop 5 b / event 0 5 / event 0 6 mute / event 0 7 root / event 0 8 root mute / event 0 9 in c / event 0 5 in ? mute / enabled 0 0 / enabled 0 9 / current 0 / level 0 off / level 9 trace / targets 8 warn,app::db=debug,[s0]";

/// How many events of these are muted. Their one clone is of the second span, and filters 0 and 9
/// are set to levels, 8 to directives.
fn muted_events(rt: &impl Abort, requests: &[Request<'_>]) -> usize {
    let mut muted = 0usize;
    for request in requests {
        match request {
            Request::Clone(lane, which) => {
                assert!(rt; *lane == Lane(0));
                assert!(rt; *which == Which::Made(1));
            }
            Request::Reload(number, setting) => {
                let wanted = match *number {
                    0 => Some(LevelFilter::OFF),
                    9 => Some(LevelFilter::TRACE),
                    _ => None,
                };
                assert!(rt; setting.level() == wanted);
                assert!(rt; *number == 0 || *number == 9 || *number == 8);
            }
            Request::Event {
                values: [(name, value)],
                ..
            } => {
                assert!(rt; *name == "mute");
                assert!(rt; *value == FieldValue::Bool(true));
                muted = muted.saturating_add(1);
            }
            _ => {}
        }
    }
    muted
}

#[test]
fn every_line(rt: HostRuntime) -> Result<(), Fail> {
    let text = lines(rt.alloc(), EVERY_LINE)?;
    let script = Script::parse(rt.alloc(), text.as_str())?;
    assert!(rt; script.stack() == StackName::Nested);
    assert!(rt; script.lines().len() == 22);
    assert!(rt; script.requests().len() == 22);
    assert!(rt; muted_events(&rt, script.requests()) == 3);
    Ok(())
}
