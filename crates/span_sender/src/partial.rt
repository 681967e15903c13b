//! What a collector says of spans that it rejected.
ghost use Rattle.std.specs.Prelude.{◌≡◌, IfOk, Some, option_map, string_bytes};
ghost use Rattle.serde_json.specs.Find.{as_number, as_str};
ghost use Rattle.serde_json.specs.View.{view};
ghost use Rattle.span_sender.specs.Reply.{fitting, json_in, message_in, number_said, partial_in, rejected_in};
ghost use Rattle.span_sender.specs.private.Partial.{Says};

use crate::number::number_in;
use serde_json::Value;
use std::alloc::{AllocError, Global};

/// What the body of an answer says of spans.
#[derive(Drop)]
pub(crate) struct Partial {
    /// How many were rejected.
    pub rejected: u64,
    /// Why, or a warning.
    pub message: Option<String>,
}

/// What a body says of spans.
pub(crate) fn partial_in(alloc: Global, body: &[u8]) -> Result<Partial, AllocError>
    ensures { IfOk result (Says (partial_in (json_in body.now))) }
{
    match Value::from_slice(alloc, body) {
        Ok(value) => said_by(alloc, value.get("partialSuccess")),
        Err(error) if error.is_memory() => Err(AllocError),
        Err(_) => said_by(alloc, None),
    }
}

/// What a value says of spans, if there is one.
fn said_by(alloc: Global, partial: Option<&Value>) -> Result<Partial, AllocError>
    ensures { IfOk result (Says (option_map (λ value. view value.now) partial.entry)) }
{
    match partial {
        Some(partial) => Ok(Partial {
            rejected: rejected_in(partial),
            message: message_in(alloc, partial)?,
        }),
        None => Ok(Partial {
            rejected: 0,
            message: None,
        }),
    }
}

/// How many spans were rejected.
fn rejected_in(partial: &Value) -> u64
    ensures { result ≡ rejected_in (Some (view partial.now)) }
{
    match partial.get("rejectedSpans") {
        Some(spans) => spans_of(spans),
        None => 0,
    }
}

/// How many spans a value says, as a number or in digits; none where it says no such number.
fn spans_of(value: &Value) -> u64
    ensures { result
        ≡ fitting (number_said (as_str (view value.now)) (as_number (view value.now))) }
{
    let spans = match value.as_str() {
        Some(digits) => number_in(digits.as_bytes()),
        None => value.as_u64(),
    };
    match spans {
        Some(spans) if spans <= i64::MAX as u64 => spans,
        _ => 0,
    }
}

/// Why spans were rejected, or a warning.
fn message_in(alloc: Global, partial: &Value) -> Result<Option<String>, AllocError>
    ensures { IfOk result (λ message. option_map string_bytes message
        ≡ message_in (Some (view partial.now))) }
{
    let Some(message) = partial.get("errorMessage") else {
        return Ok(None);
    };
    match message.as_str() {
        Some(text) => Ok(Some(String::from_str(alloc, text)?)),
        None => Ok(None),
    }
}
