//! A span of another program, as W3C's header `traceparent` hands it over.
ghost use Rattle.std.specs.Char.{is_ascii_uppercase};
ghost use Rattle.std.specs.List.{list_any};
ghost use Rattle.std.specs.Prelude.{◌≡◌, ◌≤◌, ◌*◌, MatchOption, None, Some, length};
ghost use Rattle.hex.specs.Hex.{encode_lower};
ghost use Rattle.span_core.specs.LevelText.{Reads};
ghost use Rattle.span_otlp.specs.TraceParent.{Spells, written};
ghost use Rattle.span_otlp.specs.private.Reading.{bytes_behind_dash, bytes_in_front, may_end, parent_in};

use hex::FromHex;
use std::fmt;
use std::str::{FromStr, from_utf8};
use thiserror::Error;

/// A span of another program, below which a trace goes on here.
///
/// Its text is that of the header `traceparent` of W3C's Trace Context: `00-`, the trace in 32
/// lower-case hex digits, `-`, the span in 16, `-` and the flags in 2, as in
/// `00-4bf92f3577b34da6a3ce929d0e0e4736-00f067aa0ba902b7-01`.
///
/// Stands for `opentelemetry::trace::SpanContext`.
#[derive(Clone, Copy, Debug, PartialEq, Eq)]
pub struct TraceParent {
    /// The number of the trace, which is not 0 in a text that is read.
    pub trace: u128,
    /// The number of the span, which is not 0 in a text that is read.
    pub span: u64,
    /// Bits that the other program set; the lowest says that it may have recorded the span.
    pub flags: u8,
}

/// Reads the text of the header, without space around it. Of a higher version than 00, but not ff,
/// the first 55 bytes are read so, and what follows must be nothing or begin with `-`.
impl FromStr for TraceParent {
    type Err = WrongTraceParent;

    ghost from_str_gives = { λ text r. Reads (Spells text) r };

    fn from_str(text: &str) -> Result<TraceParent, WrongTraceParent> {
        match parent_in(text.as_bytes()) {
            Some(parent) => Ok(parent),
            None => Err(WrongTraceParent(())),
        }
    }
}

/// Writes the text of the header, of version 00. It can be read where neither number is 0.
impl fmt::Display for TraceParent {
    ghost output = { λ parent. Some (written parent) };

    fn fmt<W: fmt::Write>(&self, f: &mut fmt::Formatter<W>) -> fmt::Result {
        let (mut trace, mut span, mut flags) = ([0u8; 32], [0u8; 16], [0u8; 2]);
        let trace = digits_of(&self.trace.to_be_bytes(), &mut trace);
        let span = digits_of(&self.span.to_be_bytes(), &mut span);
        let flags = digits_of(&[self.flags], &mut flags);
        write!(f, "00-{trace}-{span}-{flags}")
    }
}

/// The text is of no parent.
#[derive(Clone, Copy, Debug, Error)]
#[error("error parsing traceparent: expected 00-, 32 lower-case hex digits, -, 16, -, 2, and no 0")]
pub struct WrongTraceParent(());

/// The lower-case digits of these bytes, two for each, in a place that has as many.
fn digits_of<'a>(bytes: &[u8], place: &'a mut [u8]) -> &'a str
    requires { length place.old ≡ 2 * length bytes.now }
    ensures { result.now ≡ encode_lower bytes.now }
{
    let _ = hex::encode_to_slice(bytes, place);
    match from_utf8(place) {
        Ok(text) => text,
        Err(_) => "",
    }
}

/// The parent that a text is of.
fn parent_in(text: &[u8]) -> Option<TraceParent>
    ensures { result ≡ parent_in text.now }
{
    let (version, text) = bytes_in_front::<1>(text)?;
    let (trace, text) = bytes_behind_dash::<16>(text)?;
    let (span, text) = bytes_behind_dash::<8>(text)?;
    let (flags, rest) = bytes_behind_dash::<1>(text)?;
    let parent = TraceParent {
        trace: u128::from_be_bytes(trace),
        span: u64::from_be_bytes(span),
        flags: flags[0],
    };
    if parent.trace == 0 || parent.span == 0 || !may_end(version[0], rest) {
        return None;
    }
    Some(parent)
}

/// Whether a text of this version may end so behind the flags.
fn may_end(version: u8, rest: &[u8]) -> bool
    ensures { result ≡ may_end version rest.now }
{
    match rest {
        [] => version != 255,
        [first, ..] => version != 0 && version != 255 && *first == b'-',
    }
}

/// Behind a dash: bytes that are spelled by two lower-case digits each, and what follows them.
fn bytes_behind_dash<const N: usize>(text: &[u8]) -> Option<([u8; N], &[u8])>
    requires { N ≤ 16 }
    ensures { MatchOption result (bytes_behind_dash N text.now ≡ None)
        (λ found. bytes_behind_dash N text.now ≡ Some (found.0, found.1.now)) }
{
    match text {
        [b'-', digits @ ..] => bytes_in_front::<N>(digits),
        _ => None,
    }
}

/// Bytes that are spelled by two lower-case digits each, and what follows them.
fn bytes_in_front<const N: usize>(text: &[u8]) -> Option<([u8; N], &[u8])>
    requires { N ≤ 16 }
    ensures { MatchOption result (bytes_in_front N text.now ≡ None)
        (λ found. bytes_in_front N text.now ≡ Some (found.0, found.1.now)) }
{
    let (digits, rest) = text.split_at_checked(2 * N)?;
    if has_capital(digits) {
        return None;
    }
    let bytes = <[u8; N] as FromHex>::from_hex(digits).ok()?;
    Some((bytes, rest))
}

/// Whether a capital is among these bytes.
fn has_capital(text: &[u8]) -> bool
    ensures { result ≡ list_any is_ascii_uppercase text.now }
{
    text.iter().any(|byte| byte.is_ascii_uppercase())
}
