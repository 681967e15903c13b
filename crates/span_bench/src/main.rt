//! Runs workloads on stacks of layers, in one thread, and in threads that share a receiver:
//! `bench/run` counts the instructions of rounds in one thread, and `bench/run_threads` takes the
//! time of rounds in threads.
#![tactic(auto)]

mod counter;
mod crew;
mod fault;
mod keeper;
mod layers;
mod order;
mod receiver;
mod rounds;
mod run;
mod site;
mod thread_order;
mod thread_rounds;
mod thread_workload;
mod traced_crew;
mod traced_rounds;
mod workload;

use std::process::ExitCode;

fn main(rt: HostRuntime) -> ExitCode {
    match run::run(&rt, rt.alloc(), &mut rt.stdin(), &mut rt.stdout()) {
        Ok(()) => ExitCode::SUCCESS,
        Err(fault) => {
            // Where standard error can't be written, the status alone tells.
            let _ = eprintln!(rt; "{fault}");
            ExitCode::from(fault.status())
        }
    }
}
