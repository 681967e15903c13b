//! The head of an answer by HTTP/1.1.
ghost use Rattle.std.specs.Prelude.{◌≡◌, ◌≤◌, ◌==◌, ◌||◌, All, drop, length, map, option_and_then, option_copied};
ghost use Rattle.httparse.specs.Grammar.{ResponseHead};
ghost use Rattle.httparse.specs.Spans.{IsHeaderWithin, header_bytes};
ghost use Rattle.span_sender.specs.Reply.{answer_body, is_whole, number_in, value_named};
ghost use Rattle.span_sender.specs.private.Head.{Hears, IsHead};

use crate::answer::Answer;
use crate::number::number_in;
use httparse::Status;
use httparse::spans::{EMPTY_HEADER_SPAN, HeaderSpan, parse_response};

/// How many fields the head of an answer has at most.
const MOST_FIELDS: usize = 64;

/// What the head of an answer says.
#[derive(Clone, Copy, Debug)]
pub(crate) struct Head {
    pub code: u16,
    /// The seconds after which to come again.
    pub retry_after: Option<u64>,
    /// Whether the body has a transfer coding, as chunks: then it isn't read.
    pub has_chunks: bool,
    /// How many bytes the body has, where the head says so: else it ends with the connection.
    pub body_length: Option<u64>,
    /// How many bytes the head has.
    pub len: usize,
}

/// What the first bytes of an answer say.
#[derive(Clone, Copy, Debug)]
pub(crate) enum Heard {
    /// The head came.
    Came(Head),
    /// More has to come.
    Unfinished,
    /// It is no answer by HTTP/1.1, or has too many fields.
    Wrong,
}

/// What the first bytes of an answer say.
pub(crate) fn head_in(bytes: &[u8]) -> Heard
    ensures { Hears bytes.now result }
{
    let mut spans = [EMPTY_HEADER_SPAN; MOST_FIELDS];
    match parse_response(bytes, &mut spans) {
        Ok(Status::Complete(head)) => {
            let fields = &spans[..head.headers];
            Heard::Came(Head {
                code: head.code,
                retry_after: number_named(bytes, fields, b"retry-after"),
                has_chunks: value_named(bytes, fields, b"transfer-encoding").is_some(),
                body_length: number_named(bytes, fields, b"content-length"),
                len: head.len,
            })
        }
        Ok(Status::Partial) => Heard::Unfinished,
        Err(_) => Heard::Wrong,
    }
}

/// The value of the first field with this name.
fn value_named<'a>(bytes: &'a [u8], fields: &[HeaderSpan], name: &[u8]) -> Option<&'a [u8]>
    requires { All (IsHeaderWithin (length bytes.now)) fields.now }
    ensures { option_copied result
        ≡ value_named name.now (map (header_bytes bytes.now) fields.now) }
{
    for field in fields {
        if field.name.of(bytes).eq_ignore_ascii_case(name) {
            return Some(field.value.of(bytes));
        }
    }
    None
}

/// The number that is the value of the first field with this name.
fn number_named(bytes: &[u8], fields: &[HeaderSpan], name: &[u8]) -> Option<u64>
    requires { All (IsHeaderWithin (length bytes.now)) fields.now }
    ensures { result ≡ option_and_then number_in
        (value_named name.now (map (header_bytes bytes.now) fields.now)) }
{
    number_in(value_named(bytes, fields, name)?)
}

impl Head {
    /// The answer that has this head, and rejects so many spans.
    pub(crate) fn answer(self, rejected: u64) -> Answer
        ensures { result ≡ Answer.Status self.code self.retry_after rejected }
    {
        Answer::Status {
            code: self.code,
            retry_after: self.retry_after,
            rejected,
        }
    }

    /// Whether no body is read: a 204 has none, and one with a transfer coding isn't read.
    fn skips_body(self) -> bool
        ensures { result ≡ (self.code == 204 || self.has_chunks) }
    {
        self.code == 204 || self.has_chunks
    }

    /// The body, as far as it came.
    pub(crate) fn body_in(self, bytes: &[u8]) -> &[u8]
        requires { self.len ≤ length bytes.now }
        ensures { (head : ResponseHead) → IsHead bytes.now self head
            → result.now ≡ answer_body head (drop self.len bytes.now) }
    {
        let rest = &bytes[self.len..];
        match self.body_length {
            _ if self.skips_body() => &rest[..0],
            Some(length) if length < rest.len() as u64 => &rest[..length as usize],
            _ => rest,
        }
    }

    /// Whether no more that may come behind these bytes counts: the body is whole, or isn't read as
    /// the answer is no success.
    pub(crate) fn is_whole(self, bytes: &[u8]) -> bool
        requires { self.len ≤ length bytes.now }
        ensures { (head : ResponseHead) → IsHead bytes.now self head
            → result ≡ is_whole head (length (drop self.len bytes.now)) }
    {
        let came = (bytes.len() - self.len) as u64;
        let is_success = 200 <= self.code && self.code <= 299;
        let has_all = match self.body_length {
            Some(length) => length <= came,
            None => false,
        };
        !is_success || self.skips_body() || has_all
    }
}
