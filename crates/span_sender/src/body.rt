//! The body of a request.
ghost use Rattle.std.specs.Prelude.{◌≡◌, ◌++◌, IfOk, OnOk};
ghost use Rattle.span_sender.specs.Body.{body_of, listed, resource_spans};

use std::alloc::{AllocError, Global};

/// How an export request begins.
const OPENING: &[u8] = b"{\"resourceSpans\":[";

/// How it ends.
const CLOSING: &[u8] = b"]}";

/// What an export request has in its list; any other text stands for itself.
pub(crate) fn resource_spans(text: &[u8]) -> &[u8]
    ensures { result.now ≡ resource_spans text.now }
{
    if text.len() >= 20 && text.starts_with(OPENING) && text.ends_with(CLOSING) {
        &text[18..text.len() - 2]
    } else {
        text
    }
}

/// Writes what the requests of spans have in their lists, with commas between.
fn push_spans(body: &mut Vec<u8>, spans: &[String]) -> Result<(), AllocError>
    ensures { OnOk result (body.new.items ≡ body.old.items ++ listed spans.now) }
{
    let Some((first, rest)) = spans.split_first() else {
        return Ok(());
    };
    body.extend_from_slice(resource_spans(first.as_bytes()))?;
    for span in rest {
        body.push(b',')?;
        body.extend_from_slice(resource_spans(span.as_bytes()))?;
    }
    Ok(())
}

/// One export request for spans, each the text of a request of its own: the body to be posted.
pub fn export_body(alloc: Global, spans: &[String]) -> Result<Vec<u8>, AllocError>
    ensures { IfOk result (λ body. body.items ≡ body_of spans.now) }
{
    let mut body = Vec::from_slice(alloc, OPENING)?;
    push_spans(&mut body, spans)?;
    body.extend_from_slice(CLOSING)?;
    Ok(body)
}
