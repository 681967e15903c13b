//! From a script to what is shown of it.
ghost use Rattle.std.specs.Prelude.{◌≡◌, IfErr, IfOk, string_bytes};
ghost use Rattle.span_show.specs.Fault.{IsFault, IsFaultOf, IsFaultOfRequests};
ghost use Rattle.span_show.specs.Show.{IsExportOf, IsShown, IsWritten, Shows, ShowsOf};

use crate::export::export;
use crate::fault::ShowFault;
use crate::format::{Export, Format};
use crate::serve::{WithStream, stream, told_of};
use span_dispatch::Request;
use span_fmt::{LinesForm, TreeForm};
use span_registry::{Registry, Subscriber};
use span_script::{Script, read_script};
use span_times::{Counted, WithTimeline};
use std::alloc::Global;
use std::io::{Read, Write};

/// Shows the script that a reader gives, in a format, and answers the writer.
///
/// All of the script is read first. The stack that it names makes no difference: its requests are
/// served on a new registry with a stream of lines or a timeline outside it, which is notified of
/// everything. The writer is handed lines as they come, and an export at the end.
pub fn show<R: Read, W: Write + Drop>(
    alloc: Global,
    format: Format,
    reader: &mut R,
    writer: W,
) -> Result<W, ShowFault>
    ensures shown { IfOk result (ShowsOf W.contents
        ⟦<WithStream<Registry, TreeForm, W> as Subscriber>⟧
        ⟦<WithStream<Registry, LinesForm, W> as Subscriber>⟧
        ⟦<WithTimeline<Registry, Counted> as Subscriber>⟧
        format (R.remaining reader.old) writer) }
    ensures fault { IfErr result (IsFaultOf format (R.remaining reader.old)) }
{
    let bytes = read_script(alloc, reader)?;
    // What isn't text becomes a character that no line has outside its directives.
    let text = String::from_utf8_lossy(alloc, &bytes)?;
    show_text(alloc, format, text.as_str(), writer)
}

/// Shows the script that a text spells.
fn show_text<W: Write + Drop>(
    alloc: Global,
    format: Format,
    text: &str,
    writer: W,
) -> Result<W, ShowFault>
    ensures shown { IfOk result (Shows W.contents
        ⟦<WithStream<Registry, TreeForm, W> as Subscriber>⟧
        ⟦<WithStream<Registry, LinesForm, W> as Subscriber>⟧
        ⟦<WithTimeline<Registry, Counted> as Subscriber>⟧ format text.now writer) }
    ensures fault { IfErr result (IsFault format text.now) }
{
    let script = Script::parse(alloc, text)?;
    show_requests(alloc, format, script.requests(), writer)
}

/// Shows these requests.
fn show_requests<W: Write + Drop>(
    alloc: Global,
    format: Format,
    requests: &[Request<'_>],
    writer: W,
) -> Result<W, ShowFault>
    ensures shown { IfOk result (IsShown W.contents
        ⟦<WithStream<Registry, TreeForm, W> as Subscriber>⟧
        ⟦<WithStream<Registry, LinesForm, W> as Subscriber>⟧
        ⟦<WithTimeline<Registry, Counted> as Subscriber>⟧ format requests.now writer) }
    ensures fault { IfErr result (IsFaultOfRequests format) }
{
    match format {
        Format::Tree => stream(alloc, TreeForm::new(alloc), requests, writer),
        Format::Lines => stream(alloc, LinesForm::new(alloc), requests, writer),
        Format::Points(format) => show_points(alloc, format, requests, writer),
    }
}

/// Exports the points of these requests.
fn show_points<W: Write + Drop>(
    alloc: Global,
    format: Export,
    requests: &[Request<'_>],
    mut writer: W,
) -> Result<W, ShowFault>
    ensures shown { IfOk result (IsWritten W.contents
        (IsExportOf ⟦<WithTimeline<Registry, Counted> as Subscriber>⟧ format requests.now)
        writer) }
    ensures fault { IfErr result (IsFaultOfRequests (Format.Points format)) }
{
    let taken = told_of(alloc, requests)?;
    let text = export(alloc, format, &taken.points, taken.table())?;
    match writer.write_all(text.as_bytes()) {
        Ok(()) => Ok(writer),
        Err(_) => Err(ShowFault::Output),
    }
}
