//! Makes calls that standard input names, one a line, and writes what look-ups, stacks, notices and
//! journal show without each call, how it ended, and what they show after it.
//! `tests/each_call_refused` refuses memory in it.
#![tactic(auto)]

mod attach;
mod call;
mod dispatcher;
mod fault;
mod filter;
mod lane_stack;
mod look_up;
mod named;
mod registry;
mod reserved;
mod run;
mod shared;
mod shown;
mod site;
mod tried;
mod values;
mod veto;

use std::process::ExitCode;

fn main(rt: HostRuntime) -> ExitCode {
    match run::run(&rt, rt.alloc(), &mut rt.stdin(), &mut rt.stdout()) {
        Ok(()) => ExitCode::SUCCESS,
        Err(fault) => {
            // Where standard error can't be written, the status alone tells.
            let _ = eprintln!(rt; "{fault}");
            ExitCode::from(fault.status())
        }
    }
}
