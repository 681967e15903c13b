//! Handles by which threads and tasks trace through one receiver: tracers, spans, guards that leave
//! their span however they end, and macros.
//!
//! Stands for spans, guards and macros of the crate `tracing`, and for a dispatcher that threads
//! share.
#![tactic(auto)]

mod callsite;
mod observer;
mod receiver;
mod served;
mod span;
mod tracer;

pub use observer::HasObserver;
pub use receiver::{LanesExhausted, Receiver};
pub use span::{Entered, EnteredSpan, Span};
pub use span_macros::{
    IntoParent, Value, debug, debug_span, error, error_span, info, info_span, trace, trace_span,
    warn, warn_span,
};
pub use tracer::Tracer;
