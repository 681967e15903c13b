//! Records of `log` as events.
ghost use Rattle.std.specs.Prelude.{◌≡◌, ◌∷◌, [], Some, codes};
ghost use Rattle.span_dispatch.specs.Contract.{StaysReady};
ghost use Rattle.span_dispatch.specs.Registration.{KeepsRegistered};
ghost use Rattle.span_dispatch.specs.Serve.{stack_of};
ghost use Rattle.span_log.specs.Event.{IsMetadataFor};
ghost use Rattle.span_log.specs.Fields.{texts_of};
ghost use Rattle.span_log.specs.Forward.{Forwards};

use crate::level::AsTrace;
use log::kv::Source;
use log::span::Spans;
use log::{Level, Record};
use span_core::{Event, FieldSet, FieldValue, Kind, Lane, Metadata, TraceError};
use span_dispatch::Dispatch;
use span_registry::Subscriber;
use std::alloc::Global;
use std::fmt::Display;

/// The metadata of all records at one level. Their callsites have the five highest numbers, traces
/// the highest.
///
/// Stands for the callsites of `tracing_log`, one for each level.
pub fn record_metadata(level: Level) -> Metadata
    ensures { IsMetadataFor level result }
{
    let number = u64::MAX - 5 + level as u64;
    let fields = FieldSet::new(&["message", "log.target"]);
    Metadata::new(
        number,
        "log event",
        "log",
        level.as_trace(),
        Kind::EVENT,
        fields,
    )
}

/// Sends a record as an event, with its message and its target as fields.
///
/// Answers and is refused as `Dispatch::event`, and for want of memory for the message, also where
/// the message's own `fmt` fails.
///
/// Stands for `tracing_log::format_trace`, which sends to the default dispatcher.
pub fn forward<S: Subscriber, D: Display, K: Source, P: Spans>(
    alloc: Global,
    dispatch: &mut Dispatch<S>,
    lane: Lane,
    logged: &Record<'_, D, K, P>,
) -> Result<bool, TraceError>
    requires { S.usable (stack_of dispatch.old) }
    ensures usable { S.usable (stack_of dispatch.new) }
    ensures ready { StaysReady S.Subscriber dispatch.old dispatch.new }
    ensures registered { KeepsRegistered dispatch.old dispatch.new }
    ensures sent { Forwards S.Subscriber D.output lane logged.now result dispatch.old dispatch.new }
{
    let message = format!(in alloc; "{}", logged.args())?;
    let values = record_fields(message.as_str(), logged.target());
    let event = Event::new(record_metadata(logged.level()), &values);
    dispatch.event(lane, &event)
}

/// The fields of a record: its message and its target.
fn record_fields<'a>(message: &'a str, target: &'a str) -> [(&'static str, FieldValue<'a>); 2]
    ensures { texts_of result
        ≡ (codes "message", Some message.now) ∷ (codes "log.target", Some target.now) ∷ [] }
{
    [
        ("message", FieldValue::Text(message)),
        ("log.target", FieldValue::Text(target)),
    ]
}
