//! What happened, for OpenTelemetry: functions of points and of the table that these refer to.
//!
//! Stands for the crates `tracing-opentelemetry` and `opentelemetry-appender-tracing`, which write
//! while a program runs.
#![tactic(auto)]

mod attribute;
mod batch;
mod dropped;
pub mod laws;
mod log_record;
mod otlp;
mod root;
mod trace_id;
mod trace_parent;
mod value;

pub use log_record::otlp_logs;
pub use otlp::{Scope, Trace, otlp_batches, otlp_lines, otlp_traces};
pub use trace_id::{OneTrace, SeededTraces, TraceIds};
pub use trace_parent::{TraceParent, WrongTraceParent};
