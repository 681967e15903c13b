//! From a script to what it prints.
ghost use Rattle.std.specs.Prelude.{◌≡◌, string_bytes, IfOk, IfErr, OnOk};
ghost use Rattle.std.specs.Io.KnownBytes.{Appends};
ghost use Rattle.span_shared.specs.Journal.{IsLegal};
ghost use Rattle.span_script.specs.Program.{BlamesFirstWrong, IsRunFault, IsUnwritten, Prints, PrintsShared, RefusesLong, Writes};
ghost use Rattle.span_script.specs.Stacks.{ArePositive};

use crate::crew::ByWorkers;
use crate::read::read_script;
use crate::run_fault::RunFault;
use crate::script::Script;
use crate::stacks::text_by;
use crate::way::Alone;
use span_registry::Limits;
use span_shared::Journal;
use std::alloc::Global;
use std::io::{Read, Write};
use std::sync::Wait;

/// Reads a script, serves it, and writes its replies and notices.
///
/// The whole script is read first. Where it can't be read, or a line is wrong, nothing is written.
/// A fault of reading is `Io`, and so is one of writing: then a part of the output may be written.
pub fn run<R: Read, W: Write>(alloc: Global, reader: &mut R, writer: &mut W) -> Result<(), RunFault>
    ensures done { OnOk result
        (Writes (Prints Limits.MAX) (R.remaining reader.old) W.contents writer.old writer.new) }
    ensures wrong { IfErr result (BlamesFirstWrong (R.remaining reader.old)) }
    ensures unwritten { IfErr result
        (IsUnwritten (Prints Limits.MAX) (R.remaining reader.old) writer.old writer.new) }
    ensures too_long { RefusesLong (R.remaining reader.old) result writer.old writer.new }
{
    run_with(alloc, Limits::MAX, reader, writer)
}

/// Does what `run` does, on a registry with these limits.
pub fn run_with<R: Read, W: Write>(
    alloc: Global,
    limits: Limits,
    reader: &mut R,
    writer: &mut W,
) -> Result<(), RunFault>
    requires { ArePositive limits }
    ensures done { OnOk result
        (Writes (Prints limits) (R.remaining reader.old) W.contents writer.old writer.new) }
    ensures wrong { IfErr result (BlamesFirstWrong (R.remaining reader.old)) }
    ensures unwritten { IfErr result
        (IsUnwritten (Prints limits) (R.remaining reader.old) writer.old writer.new) }
    ensures too_long { RefusesLong (R.remaining reader.old) result writer.old writer.new }
{
    let bytes = read_script(alloc, reader)?;
    // What isn't text becomes a character that no line has outside its directives.
    let text = String::from_utf8_lossy(alloc, &bytes)?;
    let output = output_of(alloc, limits, text.as_str())?;
    write_output(writer, output.as_str())
}

/// Does what `run` does by ten workers that share a receiver, in one thread: lane L by worker L,
/// and what has no lane by worker 0. Answers the journal of the accepted requests.
pub fn run_shared<R: Read, W: Write>(
    rt: &impl Wait,
    alloc: Global,
    reader: &mut R,
    writer: &mut W,
) -> Result<Journal, RunFault>
    ensures done { OnOk result
        (Writes PrintsShared (R.remaining reader.old) W.contents writer.old writer.new) }
    ensures legal { IfOk result IsLegal }
    ensures wrong { IfErr result (BlamesFirstWrong (R.remaining reader.old)) }
    ensures unwritten { IfErr result
        (IsUnwritten PrintsShared (R.remaining reader.old) writer.old writer.new) }
    ensures too_long { RefusesLong (R.remaining reader.old) result writer.old writer.new }
{
    let bytes = read_script(alloc, reader)?;
    let text = String::from_utf8_lossy(alloc, &bytes)?;
    let (output, journal) = shared_output_of(rt, alloc, text.as_str())?;
    write_output(writer, output.as_str())?;
    Ok(journal)
}

/// What a script prints.
fn output_of(alloc: Global, limits: Limits, text: &str) -> Result<String, RunFault>
    requires { ArePositive limits }
    ensures printed { IfOk result (λ output. Prints limits text.now (string_bytes output)) }
    ensures fault { IfErr result (IsRunFault text.now) }
{
    let script = Script::parse(alloc, text)?;
    let (output, ()) = text_by(Alone, alloc, limits, &script)?;
    Ok(output)
}

/// What a script prints, where workers share its stack, and the journal.
fn shared_output_of(
    rt: &impl Wait,
    alloc: Global,
    text: &str,
) -> Result<(String, Journal), RunFault>
    ensures printed { IfOk result (λ r. PrintsShared text.now (string_bytes r.0)) }
    ensures legal { IfOk result (λ r. IsLegal r.1) }
    ensures fault { IfErr result (IsRunFault text.now) }
{
    let script = Script::parse(alloc, text)?;
    text_by(ByWorkers { rt }, alloc, Limits::MAX, &script)
}

/// Writes all of the output, or fails.
fn write_output<W: Write>(writer: &mut W, output: &str) -> Result<(), RunFault>
    ensures all { OnOk result (Appends (W.contents writer.old) (W.contents writer.new) output.now) }
    ensures fault { IfErr result (λ fault. fault ≡ RunFault.Io) }
{
    if writer.write_all(output.as_bytes()).is_err() {
        return Err(RunFault::Io);
    }
    if writer.flush().is_err() {
        return Err(RunFault::Io);
    }
    Ok(())
}
