//! Shows what a script of spans does: as a tree of text, as a trace for other tools, as a
//! picture, or as a page.
#![tactic(auto)]

mod export;
mod fault;
mod format;
mod serve;
mod show;

use crate::fault::ShowFault;
use crate::format::Format;
use crate::show::show;
use span_fmt::write_escaped;
use span_script::SCRIPT_LIMIT;
use std::alloc::AllocError;
use std::env;
use std::fs::File;
use std::process::ExitCode;

fn main(rt: HostRuntime) -> ExitCode {
    let Some((format, path)) = asked_for(&rt) else {
        return blame(&rt, "", ShowFault::Usage);
    };
    match print_shown(&rt, format, path.as_str()) {
        Ok(()) => ExitCode::SUCCESS,
        Err(fault) => blame(&rt, path.as_str(), fault),
    }
}

/// What the arguments ask for: a format and the path of a script.
fn asked_for(rt: &HostRuntime) -> Option<(Format, String)> {
    let Ok(mut arguments) = env::args(rt) else {
        return None;
    };
    let _program = arguments.next();
    let (Some(format), Some(path), None) = (arguments.next(), arguments.next(), arguments.next())
    else {
        return None;
    };
    let format = Format::of(format.as_str())?;
    Some((format, path))
}

/// Prints what is shown of the script with this path, lines as they come.
fn print_shown(rt: &HostRuntime, format: Format, path: &str) -> Result<(), ShowFault> {
    let Ok(mut script) = File::open(rt, path) else {
        return Err(ShowFault::Unopened);
    };
    if let Ok(about) = script.metadata()
        && about.len() > SCRIPT_LIMIT as u64
    {
        return Err(ShowFault::TooLong);
    }
    show(rt.alloc(), format, &mut script, rt.stdout())?;
    Ok(())
}

/// Says why nothing is shown, and how the program ends by that.
fn blame(rt: &HostRuntime, path: &str, fault: ShowFault) -> ExitCode {
    // Where standard error can't be written, the status alone tells.
    let _ = match named(rt, path) {
        Ok(name) if fault.is_of_file() => eprintln!(rt; "{name}: {fault}"),
        _ => eprintln!(rt; "{fault}"),
    };
    ExitCode::from(fault.status())
}

/// A path, so that it acts on no terminal.
fn named(rt: &HostRuntime, path: &str) -> Result<String, AllocError> {
    let mut name = String::new(rt.alloc());
    write_escaped(&mut name, path)?;
    Ok(name)
}
