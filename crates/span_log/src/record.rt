//! Events as records of `log`.
ghost use Rattle.std.specs.Prelude.{◌≡◌};
ghost use Rattle.span_log.specs.Record.{IsRecordOf, value_under};

use crate::fields::Fields;
use crate::level::AsLog;
use log::{Metadata, Record};
use span_core::{Event, FieldValue};

/// An event as a record of `log`: at the same level, with its first field `message` or else its
/// name as the message, with the text of its first field `log.target` or else its target, and with
/// the fields of other names as pairs. Fields without a value are left out.
///
/// Stands for what `tracing` hands to `log`, with the target by `tracing_log::NormalizeEvent`,
/// which takes it of records alone.
pub fn event_record<'a>(event: &Event<'a>) -> Record<'a, FieldValue<'a>, Fields<'a>>
    ensures { IsRecordOf event.now result }
{
    let metadata = event.metadata();
    let values = event.values();
    let target = match value_under(values, "log.target") {
        Some(FieldValue::Text(target)) => target,
        _ => metadata.target(),
    };
    let message = match value_under(values, "message") {
        Some(message) => message,
        None => FieldValue::Text(metadata.name()),
    };
    let level = metadata.level().as_log();
    Record::new(
        Metadata::new(level, target),
        message,
        Fields::new(values),
        (),
    )
}

/// The value of the first field with this name that has one.
fn value_under<'a>(
    values: &'a [(&'static str, FieldValue<'a>)],
    name: &str,
) -> Option<FieldValue<'a>>
    ensures { result ≡ value_under values.now name.now }
{
    let field = values
        .iter()
        .find(|field| !field.1.is_absent() && field.0 == name)?;
    Some(field.1)
}
