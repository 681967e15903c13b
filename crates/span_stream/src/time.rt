//! The text of a time.
ghost use Rattle.std.specs.Prelude.{OnOk};
ghost use Rattle.span_fmt.specs.Text.{IsContinued};
ghost use Rattle.span_stream.specs.Time.{WritesTime, seconds_text};
ghost use Rattle.span_stream.specs.declared.time.TimeStyle.TheVariants as style;

use jiff_core::Timestamp;
use jiff_fmt::temporal::DateTimePrinter;
use std::alloc::AllocError;

/// How the reading of a clock is shown.
///
/// Stands for `tracing_subscriber::fmt::time::{SystemTime, Uptime}`.
#[derive(Clone, Copy, Debug)]
pub enum TimeStyle {
    /// As a time since 1970, as RFC 3339 has it, in UTC: `2026-11-28T23:55:14.346377Z`.
    Utc,
    /// As seconds: `12.000345s`.
    Seconds,
}

/// Writes a time in nanoseconds, with six places of a second.
///
/// Where memory is refused, no clause says what of it is written: throw the text away.
pub fn write_time(text: &mut String, style: TimeStyle, time: u64) -> Result<(), AllocError>
    ensures { OnOk result (WritesTime style time text.old text.new) }
{
    match style {
        TimeStyle::Utc => write_utc(text, time),
        TimeStyle::Seconds => write_seconds(text, time),
    }
}

/// Writes a time since 1970, as RFC 3339 has it.
fn write_utc(text: &mut String, time: u64) -> Result<(), AllocError>
    ensures { OnOk result (WritesTime style.Utc time text.old text.new) }
{
    let Ok(instant) = Timestamp::from_nanosecond(i128::from(time)) else {
        return Err(AllocError); // No u64 is so late.
    };
    let printer = DateTimePrinter::new().precision(Some(6));
    text.push_str(printer.timestamp_text(instant).as_str())
}

/// Writes seconds with six places.
fn write_seconds(text: &mut String, time: u64) -> Result<(), AllocError>
    ensures { OnOk result (IsContinued text.old text.new (seconds_text time)) }
{
    let micros = time / 1000;
    write!(text, "{}.{:06}s", micros / 1_000_000, micros % 1_000_000)
}
