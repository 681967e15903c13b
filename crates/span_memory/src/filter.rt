//! Copies of filters.

use crate::call::FilterKind;
use crate::fault::Fault;
use crate::named::Named;
use crate::shown::{write_answer, write_start};
use crate::site::{event_metadata, span_metadata};
use span_core::TraceError;
use span_dispatch::Answer;
use span_filters::{Filter, FilterExt, dynamic_filter_fn, filter_fn};
use span_registry::Registry;
use std::alloc::Global;
use std::fmt::Debug;
use std::io::Write;

/// Copies a filter, and writes what it answers without that and after it.
pub(crate) fn make<W: Write>(alloc: Global, writer: &mut W, kind: FilterKind) -> Result<(), Fault> {
    match kind {
        FilterKind::Function => copy_function(alloc, writer),
        FilterKind::InContext => copy_in_context(alloc, writer),
        FilterKind::And => copy_and(alloc, writer),
        FilterKind::Or => copy_or(alloc, writer),
        FilterKind::Not => copy_not(alloc, writer),
    }
}

/// Copies a filter by a test of metadata.
fn copy_function<W: Write>(alloc: Global, writer: &mut W) -> Result<(), Fault> {
    let filter = filter_fn(Named::new(alloc, "span")?);
    write_answers(writer, &filter)?;
    write_start(writer)?;
    let ended = done(filter.clone());
    write_answer(writer, ended)?;
    write_answers(writer, &filter)
}

/// Copies a filter by a test in a context and one of callsites.
fn copy_in_context<W: Write>(alloc: Global, writer: &mut W) -> Result<(), Fault> {
    let test = Named::new(alloc, "span")?;
    let filter = dynamic_filter_fn(test).with_callsite_filter(Named::new(alloc, "event")?);
    write_answers(writer, &filter)?;
    write_start(writer)?;
    let ended = done(filter.clone());
    write_answer(writer, ended)?;
    write_answers(writer, &filter)
}

/// Copies what is made by `and` of two tests of names.
fn copy_and<W: Write>(alloc: Global, writer: &mut W) -> Result<(), Fault> {
    let filter = Named::new(alloc, "a")?.and(Named::new(alloc, "b")?);
    write_text(writer, &filter)?;
    write_start(writer)?;
    let ended = done(filter.clone());
    write_answer(writer, ended)?;
    write_text(writer, &filter)
}

/// The same by `or`.
fn copy_or<W: Write>(alloc: Global, writer: &mut W) -> Result<(), Fault> {
    let filter = Named::new(alloc, "a")?.or(Named::new(alloc, "b")?);
    write_text(writer, &filter)?;
    write_start(writer)?;
    let ended = done(filter.clone());
    write_answer(writer, ended)?;
    write_text(writer, &filter)
}

/// The same by `not`.
fn copy_not<W: Write>(alloc: Global, writer: &mut W) -> Result<(), Fault> {
    let filter = Named::new(alloc, "a")?.not();
    write_text(writer, &filter)?;
    write_start(writer)?;
    let ended = done(filter.clone());
    write_answer(writer, ended)?;
    write_text(writer, &filter)
}

/// How a copy ended.
fn done<T: Drop>(copy: Result<T, TraceError>) -> Answer {
    match copy {
        Ok(_) => Answer::Done,
        Err(error) => Answer::Refused(error),
    }
}

/// Writes what a filter answers of callsites.
fn write_answers<F: Filter<Registry>, W: Write>(writer: &mut W, filter: &F) -> Result<(), Fault>
    requires { F.usable filter.now }
{
    writeln!(
        writer,
        "spans {:?}, events {:?}, hint {:?}",
        filter.callsite_enabled(&span_metadata(1)),
        filter.callsite_enabled(&event_metadata(1)),
        filter.max_level_hint()
    )?;
    Ok(())
}

/// Writes what a filter is made of.
fn write_text<F: Debug, W: Write>(writer: &mut W, filter: &F) -> Result<(), Fault> {
    writeln!(writer, "{filter:?}")?;
    Ok(())
}
