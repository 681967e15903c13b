//! Reads what a collector answers by HTTP/1.1.
ghost use Rattle.std.specs.Prelude.{◌≡◌, ◌++◌, ◌<◌, ◌≤◌, ◌+◌, ◌⊎◌, IfErr, IfOk, IsFalse, IsTrue, MatchOption, OnOk, length, max};
ghost use Rattle.std.specs.Io.KnownBytes.{IsAtEnd, ReadConsumes};
ghost use Rattle.std.specs.Io.{ReadsAtMost};
ghost use Rattle.span_sender.specs.Reply.{HasNoReply, IsByHead, IsDone, IsReply, ReadsBehind};

use crate::answer::Answer;
use crate::head::{Heard, head_in};
use crate::partial::partial_in;
use std::alloc::Global;
use std::io::{self, Error, ErrorKind, Read};

/// How many bytes of an answer are read, if its head is unfinished: more would only be parsed anew.
const LONGEST_HEAD: usize = 16_384;

/// How many bytes of an answer are read.
const LONGEST_ANSWER: usize = 65_536;

/// How many bytes are read at once.
const CHUNK: usize = 1024;

/// An answer, and what the collector says of spans that it rejected.
#[derive(Drop)]
pub struct Reply {
    /// What counts for the spans.
    pub answer: Answer,
    /// Why spans were rejected, or a warning.
    pub message: Option<String>,
}

/// What an answer says, as far as it came; nothing where its head isn't there, or is none by
/// HTTP/1.1, or has more than 64 fields.
///
/// A body that comes in chunks, isn't JSON, or says no number of rejected spans that OTLP has,
/// rejects none. An error for want of memory to read it: what counts is its head alone, and no span
/// is rejected. Posted again, the spans that it took would be there twice.
pub fn answer_in(alloc: Global, bytes: &[u8]) -> Result<Option<Reply>, Answer>
    ensures said { IfOk result
        (λ reply. MatchOption reply (HasNoReply bytes.now) (IsReply bytes.now)) }
    ensures unread { IfErr result (IsByHead bytes.now) }
{
    let Heard::Came(head) = head_in(bytes) else {
        return Ok(None);
    };
    let Ok(partial) = partial_in(alloc, head.body_in(bytes)) else {
        return Err(head.answer(0));
    };
    Ok(Some(Reply {
        answer: head.answer(partial.rejected),
        message: partial.message,
    }))
}

/// Whether what may come behind these bytes counts for the answer.
fn goes_on(bytes: &[u8]) -> bool
    ensures on { IsTrue result → length bytes.now < 65536 }
    ensures done { IsFalse result → IsDone bytes.now }
{
    match head_in(bytes) {
        _ if bytes.len() >= LONGEST_ANSWER => false,
        Heard::Came(head) => !head.is_whole(bytes),
        Heard::Unfinished => bytes.len() < LONGEST_HEAD,
        Heard::Wrong => false,
    }
}

/// Reads what comes of an answer behind these bytes of it, until the connection ends, no more
/// counts, or there are 64 KiB of it: 16 KiB while its head is unfinished. An error where the reader
/// fails, or for want of memory: what came before that is kept.
pub fn read_answer<C: Read>(connection: &mut C, bytes: &mut Vec<u8>) -> io::Result<()>
    ensures read { ReadsBehind (C.remaining connection.old) (C.remaining connection.new)
        bytes.old.items bytes.new.items }
    ensures ends { OnOk result
        (IsDone bytes.new.items ⊎ IsAtEnd (C.remaining connection.new)) }
    ensures most { length bytes.new.items ≤ max (length bytes.old.items) (65536 + 1024) }
{
    let mut chunk = [0u8; CHUNK];
    while goes_on(bytes) {
        if !read_more(connection, &mut chunk, bytes)? {
            break;
        }
    }
    Ok(())
}

/// Reads once, by way of a chunk. Says whether anything came.
fn read_more<C: Read>(connection: &mut C, chunk: &mut [u8], bytes: &mut Vec<u8>) -> io::Result<bool>
    requires { 0 < length chunk.old }
    ensures read { ReadsBehind (C.remaining connection.old) (C.remaining connection.new)
        bytes.old.items bytes.new.items }
    ensures more { IfOk result
        (λ more. IsTrue more → length bytes.old.items < length bytes.new.items) }
    ensures end { IfOk result (λ more. IsFalse more → IsAtEnd (C.remaining connection.new)) }
    ensures most { length bytes.new.items ≤ length bytes.old.items + length chunk.old }
    ensures chunk { length chunk.new ≡ length chunk.old }
{
    bytes.reserve(chunk.len())?;
    let count = read_once(connection, chunk)?;
    bytes.extend_from_slice(&chunk[..count])?;
    Ok(count > 0)
}

/// Reads once. A read that was interrupted counts as none yet.
fn read_once<C: Read>(connection: &mut C, chunk: &mut [u8]) -> io::Result<usize>
    ensures bound { ReadsAtMost result chunk.new }
    ensures bytes { ReadConsumes (C.remaining connection.old) (C.remaining connection.new)
        result chunk.new }
    ensures chunk { length chunk.new ≡ length chunk.old }
{
    for _ in 0..u64::MAX {
        match connection.read(chunk) {
            Err(error) if error.kind() == ErrorKind::Interrupted => {}
            result => return result,
        }
    }
    Err(Error::from(ErrorKind::Interrupted))
}
