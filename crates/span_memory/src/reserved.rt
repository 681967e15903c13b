//! A list that is served from memory that was reserved.

use crate::fault::Fault;
use crate::shown::{write_all_of, write_answer, write_start};
use crate::site::{CALLSITES, ENTERED, LANE, SPANS, preparation};
use span_dispatch::{Answer, Dispatch};
use span_registry::Registry;
use std::alloc::Global;
use std::io::Write;

/// A dispatcher on a registry, with memory for all spans, entries and callsites of the preparation.
fn reserved(alloc: Global) -> Result<Dispatch<Registry>, Fault> {
    let mut registry = Registry::new(alloc);
    registry.reserve(SPANS as u32)?;
    registry.reserve_entries(LANE, ENTERED as usize)?;
    let mut dispatch = Dispatch::new(alloc, registry);
    dispatch.reserve_callsites(CALLSITES)?;
    Ok(dispatch)
}

/// Serves the preparation, with room for its answers, and writes what such a dispatcher shows
/// without that, how it ends, and what it shows then.
pub(crate) fn serve<W: Write>(alloc: Global, writer: &mut W) -> Result<(), Fault> {
    write_all_of(writer, &mut reserved(alloc)?)?;
    let mut dispatch = reserved(alloc)?;
    let requests = preparation();
    let mut answers = Vec::with_capacity(alloc, requests.len())?;
    write_start(writer)?;
    dispatch.serve_into(&requests, &mut answers);
    write_answer(writer, ended(&answers))?;
    write_all_of(writer, &mut dispatch)
}

/// The first refusal among answers; else that all is done.
fn ended(answers: &[Answer]) -> Answer {
    for answer in answers {
        if let Answer::Refused(_) = answer {
            return *answer;
        }
    }
    Answer::Done
}
