//! The rounds of each work.

use crate::order::Work;
use span_core::TraceError;
use span_registry::Subscriber;
use span_tracer::{Tracer, info, info_span};
use std::sync::Wait;

/// The text that each event has.
const BY: &str = "a text of some length";

/// Does so many rounds of a work.
pub fn done<R: Wait, S: Subscriber>(
    tracer: Tracer<'_, R, S>,
    work: Work,
    rounds: u64,
) -> Result<(), TraceError> {
    match work {
        Work::Event => events(tracer, rounds),
        Work::Deep => {
            let _outer = info_span!(tracer; "outer", depth = 1)?.entered()?;
            let _middle = info_span!(tracer; "middle", depth = 2)?.entered()?;
            let _inner = info_span!(tracer; "inner", depth = 3)?.entered()?;
            events(tracer, rounds)
        }
        Work::Span => {
            for count in 0..rounds {
                spanned(tracer, count)?;
            }
            Ok(())
        }
    }
}

/// So many events.
fn events<R: Wait, S: Subscriber>(tracer: Tracer<'_, R, S>, rounds: u64) -> Result<(), TraceError> {
    for count in 0..rounds {
        info!(tracer; count = count, by = BY, "done")?;
    }
    Ok(())
}

/// An event in a span of its own.
fn spanned<R: Wait, S: Subscriber>(tracer: Tracer<'_, R, S>, count: u64) -> Result<(), TraceError> {
    let _span = info_span!(tracer; "work", count = count, flag = true, by = BY)?.entered()?;
    info!(tracer; count = count, by = BY, "done")?;
    Ok(())
}
