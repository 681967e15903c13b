//! Two threads that trace through one receiver, each as a worker of its own.
#![tactic(auto)]

mod crew;
mod work;

use std::process::ExitCode;

fn main(rt: HostRuntime) -> ExitCode {
    match crew::trace_in_two_threads(&rt, rt.alloc()) {
        Ok(traced) => match println!(rt; "{traced}") {
            Ok(()) => ExitCode::SUCCESS,
            Err(_) => ExitCode::FAILURE,
        },
        Err(fault) => {
            // Where standard error can't be written, the status alone tells.
            let _ = eprintln!(rt; "{fault}");
            ExitCode::FAILURE
        }
    }
}
