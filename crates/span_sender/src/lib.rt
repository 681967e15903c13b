//! A sender of closed spans to a collector of OpenTelemetry: a queue with a limit, batches that are
//! posted until they are accepted or counted, and a thread that does so.
//!
//! Stands for the `BatchSpanProcessor` of `opentelemetry_sdk` and the HTTP exporter of
//! `opentelemetry-otlp`. Who calls it hands in the net.
#![tactic(auto)]

mod answer;
mod batches;
mod body;
mod config;
mod guard;
mod head;
mod http;
pub mod laws;
mod number;
mod partial;
mod poster;
mod reply;
mod send;
mod sender;
mod shared;
mod worker;

pub use answer::{Answer, Fate};
pub use batches::{Action, Batches, Counts};
pub use body::export_body;
pub use config::{BatchConfig, RetryPolicy};
pub use guard::{Finished, SenderGuard};
pub use http::{Connect, HttpPoster, request_head, write_request};
pub use poster::Poster;
pub use reply::{Reply, answer_in, read_answer};
pub use send::{send_all, serve};
pub use sender::Sender;
pub use worker::Worker;
