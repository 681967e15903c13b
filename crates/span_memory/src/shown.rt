//! What is written of a state, and of how a call ended.
ghost use Rattle.span_dispatch.specs.Serve.{stack_of};

use crate::fault::Fault;
use crate::site::{KEPT_SPAN, LANE, OTHER_LANE, nth, span_metadata};
use span_core::{Attributes, Id, Lane, TraceError};
use span_dispatch::{Answer, Dispatch, Recorded};
use span_registry::{Extensions, LookupSpan, Registry, Subscriber, Tag};
use std::io::Write;

/// The spans that are looked up: more than a state has.
const LOOKED_UP: u64 = 18;

/// The tags that are looked up.
const TAGS: u32 = 16;

/// The most entries of a lane that are left.
const ENTRIES: u32 = 20;

/// Writes a text.
fn write_text<W: Write>(writer: &mut W, text: &str) -> Result<(), Fault> {
    Ok(writer.write_all(text.as_bytes())?)
}

/// Writes a text and a number after it.
fn write_number<W: Write>(writer: &mut W, text: &str, number: u64) -> Result<(), Fault> {
    write!(writer, "{text}{number}")?;
    Ok(())
}

/// Writes that the call begins, by one write and without memory: `tests/each_call_refused` refuses
/// memory from here to the next write.
pub(crate) fn write_start<W: Write>(writer: &mut W) -> Result<(), Fault> {
    Ok(writer.write_all(b"call\n")?)
}

/// Writes how a call ended, in a line.
pub(crate) fn write_answer<W: Write>(writer: &mut W, answer: Answer) -> Result<(), Fault> {
    let text = match answer {
        Answer::Made(_) => "made",
        Answer::Dropped => "dropped",
        Answer::Done => "done",
        Answer::Yes(true) => "true",
        Answer::Yes(false) => "false",
        Answer::Current(Some(_)) => "current true",
        Answer::Current(None) => "current false",
        Answer::Refused(error) => return write_refused(writer, error),
    };
    write_text(writer, text)?;
    write_text(writer, "\n")
}

/// Writes that a call was refused, and with which number.
fn write_refused<W: Write>(writer: &mut W, error: TraceError) -> Result<(), Fault> {
    writeln!(writer, "refused {}", error.number())?;
    Ok(())
}

/// Writes what look-ups show of each span.
pub(crate) fn write_spans<W: Write>(writer: &mut W, registry: &Registry) -> Result<(), Fault> {
    writeln!(
        writer,
        "filters {}, retired {}",
        registry.filters(),
        registry.retired()
    )?;
    for number in 0..=LOOKED_UP {
        write_span(writer, registry, nth(number))?;
    }
    Ok(())
}

/// Writes what look-ups show of a span, if it is there.
fn write_span<W: Write>(writer: &mut W, registry: &Registry, id: Id) -> Result<(), Fault> {
    let Some(span) = registry.span(id) else {
        return Ok(());
    };
    let parent = match span.parent() {
        Some(parent) => Some(parent.id()),
        None => None,
    };
    write_origin(writer, id, parent, span.metadata().callsite())?;
    write_values(writer, span.extensions())
}

/// Writes the ids of a span and of its parent, if it has one, and its callsite.
fn write_origin<W: Write>(
    writer: &mut W,
    id: Id,
    parent: Option<Id>,
    callsite: u64,
) -> Result<(), Fault> {
    write_number(writer, "span ", id.into_u64())?;
    if let Some(parent) = parent {
        write_number(writer, " in ", parent.into_u64())?;
    }
    write_number(writer, " of callsite ", callsite)?;
    write_text(writer, ", values")
}

/// Writes the values of a span, and ends the line.
fn write_values<W: Write>(writer: &mut W, values: Extensions<'_>) -> Result<(), Fault> {
    for tag in 0..TAGS {
        if let Some(value) = values.get(Tag::<u64>::new(tag)) {
            write!(writer, " {tag}: {value}")?;
        }
    }
    write_text(writer, "\n")
}

/// Writes what look-ups, stacks and handles show, and whether there is room for one span more. So
/// lanes leave their spans, all handles are dropped, and what is left is written.
pub(crate) fn write_all_of<S: Subscriber, W: Write>(
    writer: &mut W,
    dispatch: &mut Dispatch<S>,
) -> Result<(), Fault>
    requires { S.usable (stack_of dispatch.old) }
    ensures { S.usable (stack_of dispatch.new) }
{
    write_spans(writer, dispatch.stack().root())?;
    write_one_more(writer, dispatch)?;
    write_stack(writer, dispatch, LANE)?;
    write_stack(writer, dispatch, OTHER_LANE)?;
    for number in 1..=LOOKED_UP {
        write_handles(writer, dispatch, nth(number))?;
    }
    write_spans(writer, dispatch.stack().root())
}

/// Opens a root, and writes how that ends.
fn write_one_more<S: Subscriber, W: Write>(
    writer: &mut W,
    dispatch: &mut Dispatch<S>,
) -> Result<(), Fault>
    requires { S.usable (stack_of dispatch.old) }
    ensures { S.usable (stack_of dispatch.new) }
{
    let attributes = Attributes::new_root(span_metadata(KEPT_SPAN), &[]);
    let opened = dispatch.new_span(LANE, &attributes);
    write_answer(writer, Answer::of_span(opened))
}

/// Writes the spans that a lane is in, newest first, and leaves them.
fn write_stack<S: Subscriber, W: Write>(
    writer: &mut W,
    dispatch: &mut Dispatch<S>,
    lane: Lane,
) -> Result<(), Fault>
    requires { S.usable (stack_of dispatch.old) }
    ensures { S.usable (stack_of dispatch.new) }
{
    write_number(writer, "lane ", u64::from(lane.0))?;
    write_text(writer, " in")?;
    for _ in 0..ENTRIES {
        let Some(id) = dispatch.current_span(lane).id() else {
            break;
        };
        write_number(writer, " ", id.into_u64())?;
        dispatch.exit(lane, id);
    }
    write_text(writer, "\n")
}

/// Writes what each handle of an open span answers as it is dropped, and why there is none more.
fn write_handles<S: Subscriber, W: Write>(
    writer: &mut W,
    dispatch: &mut Dispatch<S>,
    id: Id,
) -> Result<(), Fault>
    requires { S.usable (stack_of dispatch.old) }
    ensures { S.usable (stack_of dispatch.new) }
{
    if !dispatch.stack().root().is_open(id) {
        return Ok(());
    }
    write_number(writer, "drops of ", id.into_u64())?;
    write_text(writer, ":")?;
    for _ in 0..ENTRIES {
        match dispatch.drop_span(LANE, id) {
            Ok(true) => write_text(writer, " true")?,
            Ok(false) => write_text(writer, " false")?,
            Err(error) => {
                write_text(writer, " ")?;
                return write_refused(writer, error);
            }
        }
    }
    Ok(())
}

/// Writes notices, and whether their recorder failed.
pub(crate) fn write_notices<W: Write>(
    writer: &mut W,
    notices: &[Recorded],
    failed: bool,
) -> Result<(), Fault> {
    for notice in notices {
        writeln!(writer, "{notice:?}")?;
    }
    writeln!(writer, "failed {failed}")?;
    Ok(())
}
