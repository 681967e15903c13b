//! Runs a script of spans: standard input says what is asked, standard output what comes of it.
#![tactic(auto)]

use span_script::run;
use std::process::ExitCode;

fn main(rt: HostRuntime) -> ExitCode {
    match run(rt.alloc(), &mut rt.stdin(), &mut rt.stdout()) {
        Ok(()) => ExitCode::SUCCESS,
        Err(fault) => {
            // Where standard error can't be written, the status alone tells.
            let _ = eprintln!(rt; "{fault}");
            ExitCode::from(fault.status())
        }
    }
}
