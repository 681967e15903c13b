//! Posts by HTTP/1.1, over connections that the caller makes.
ghost use Rattle.std.specs.Io.KnownBytes.{Appends};
ghost use Rattle.std.specs.Prelude.{◌≡◌, ◌++◌, IfOk, None, OnOk, option_copied, string_bytes};
ghost use Rattle.span_sender.specs.Http.{host_of, message_of, net_of, request_head};

use crate::answer::Answer;
use crate::poster::Poster;
use crate::reply::{Reply, answer_in, read_answer};
use std::alloc::{AllocError, Global};
use std::io::{self, Error, ErrorKind, Read, Write};

/// Makes connections to a collector. Who has the net implements it, with timeouts as it sees fit:
/// an answer may come a byte at a time, so let a connection's reads fail once it is too old, not
/// only where one takes long.
pub trait Connect {
    type Connection: Read + Write + Drop;

    /// Makes a connection for one request.
    fn connect(&mut self) -> io::Result<Self::Connection>;
}

/// Posts each request over a connection of its own: a failed one is an answer too, as is an answer
/// that is no HTTP/1.1. Of a success the body counts too, as far as it comes in the first 64 KiB of
/// the answer; one in chunks isn't read, and so rejects none. An interim answer (1xx) is taken for
/// the answer: its spans are refused.
///
/// No clause speaks of what it posts, or of its answers: the net is the caller's.
#[derive(Drop)]
pub struct HttpPoster<N> {
    net: N,
    alloc: Global,
    host: String,
    message: Option<String>,
}

impl<N: Connect> HttpPoster<N> {
    /// Posts to this host, as `localhost:4318`, at `/v1/traces`.
    pub fn new(alloc: Global, net: N, host: String) -> HttpPoster<N>
        ensures net { net_of result ≡ net }
        ensures host { host_of result ≡ string_bytes host }
        ensures message { message_of result ≡ None }
    {
        HttpPoster {
            net,
            alloc,
            host,
            message: None,
        }
    }

    /// What the collector said last of spans that it rejected, or as a warning, but where that is
    /// empty. It is as it came: escape it before it goes to a terminal.
    pub fn message(&self) -> Option<&str>
        ensures { option_copied result ≡ message_of self.now }
    {
        match &self.message {
            Some(message) => Some(message.as_str()),
            None => None,
        }
    }

    fn exchange(&mut self, body: &[u8]) -> io::Result<Reply> {
        let head = request_head(self.alloc, self.host.as_str(), body.len())?;
        let mut connection = self.net.connect()?;
        write_request(&mut connection, &head, body)?;
        let mut bytes = Vec::new(self.alloc);
        let end = read_answer(&mut connection, &mut bytes);
        match answer_in(self.alloc, &bytes) {
            Ok(Some(reply)) => Ok(reply),
            Ok(None) => {
                end?;
                Err(Error::new(ErrorKind::InvalidData, "no answer by HTTP/1.1"))
            }
            Err(answer) => Ok(Reply {
                answer,
                message: None,
            }),
        }
    }
}

impl<N: Connect> Poster for HttpPoster<N> {
    ghost posted = { λ _. None };

    fn post(&mut self, body: &[u8]) -> Answer {
        let Ok(Reply { answer, message }) = self.exchange(body) else {
            return Answer::Failed;
        };
        if matches!(&message, Some(message) if !message.is_empty()) {
            self.message = message;
        }
        answer
    }
}

/// The head of a request with so long a body.
pub fn request_head(alloc: Global, host: &str, length: usize) -> Result<Vec<u8>, AllocError>
    ensures { IfOk result (λ head. head.items ≡ request_head host.now length) }
{
    let length = length.to_string(alloc)?;
    let mut head = Vec::from_slice(alloc, b"POST /v1/traces HTTP/1.1\r\nHost: ")?;
    head.extend_from_slice(host.as_bytes())?;
    head.extend_from_slice(b"\r\nContent-Type: application/json\r\nContent-Length: ")?;
    head.extend_from_slice(length.as_bytes())?;
    head.extend_from_slice(b"\r\nConnection: close\r\n\r\n")?;
    Ok(head)
}

/// Writes a request.
pub fn write_request<C: Write>(connection: &mut C, head: &[u8], body: &[u8]) -> io::Result<()>
    ensures { OnOk result (Appends (C.contents connection.old) (C.contents connection.new)
        (head.now ++ body.now)) }
{
    connection.write_all(head)?;
    connection.write_all(body)?;
    connection.flush()
}
