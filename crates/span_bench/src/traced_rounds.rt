//! The rounds of each workload that a tracer's macros do. A round that isn't done in full ends the
//! run.
ghost use Rattle.std.specs.Prelude.{◌≡◌, IfOk};

use crate::fault::Fault;
use crate::workload::Workload;
use span_registry::Subscriber;
use span_tracer::{Tracer, info, info_span, trace};
use std::sync::Wait;

/// Does the rounds of a workload, if it is a tracer's.
pub fn done<R: Wait, S: Subscriber>(
    tracer: Tracer<'_, R, S>,
    workload: Workload,
    rounds: u32,
) -> Result<u32, Fault>
    ensures { IfOk result (λ done. done ≡ rounds) }
{
    match workload {
        Workload::TracedEvent => event(tracer, rounds),
        Workload::TracedValues => values(tracer, rounds),
        Workload::TracedAboveHint => above_hint(tracer, rounds),
        Workload::TracedSpan => span(tracer, rounds),
        _ => Err(Fault::Line),
    }
}

/// Each round sends an event.
fn event<R: Wait, S: Subscriber>(tracer: Tracer<'_, R, S>, rounds: u32) -> Result<u32, Fault>
    ensures { IfOk result (λ done. done ≡ rounds) }
{
    let mut done = 0;
    for _ in 0..rounds {
        if !info!(tracer; target: "my_server::connection::headers", "read_one_header")? {
            return Err(Fault::Undone);
        }
        done += 1;
    }
    Ok(done)
}

/// Each round sends an event with a number and a text.
fn values<R: Wait, S: Subscriber>(tracer: Tracer<'_, R, S>, rounds: u32) -> Result<u32, Fault>
    ensures { IfOk result (λ done. done ≡ rounds) }
{
    let mut done = 0;
    for _ in 0..rounds {
        let made = info!(
            tracer;
            target: "my_server::connection::headers", bytes = done, method = "get",
            "read_one_header"
        )?;
        if !made {
            return Err(Fault::Undone);
        }
        done += 1;
    }
    Ok(done)
}

/// Each round sends an event with a number and a text, of a level that the hint rules out.
fn above_hint<R: Wait, S: Subscriber>(tracer: Tracer<'_, R, S>, rounds: u32) -> Result<u32, Fault>
    ensures { IfOk result (λ done. done ≡ rounds) }
{
    let mut done = 0;
    for _ in 0..rounds {
        let made = trace!(
            tracer;
            target: "my_server::connection::headers", bytes = done, method = "get",
            "read_one_header"
        )?;
        if made {
            return Err(Fault::Undone);
        }
        done += 1;
    }
    Ok(done)
}

/// Each round opens a span with a number, enters it, leaves it and drops its handle.
fn span<R: Wait, S: Subscriber>(tracer: Tracer<'_, R, S>, rounds: u32) -> Result<u32, Fault>
    ensures { IfOk result (λ done. done ≡ rounds) }
{
    let mut done = 0;
    for _ in 0..rounds {
        let span = info_span!(
            tracer;
            target: "my_server::connection::headers", "read_one_header", bytes = done
        )?;
        let entered = span.entered()?;
        if entered.id().is_none() {
            return Err(Fault::Undone);
        }
        done += 1;
    }
    Ok(done)
}
