//! When a box or a mark of a picture was, as the title tells it.
ghost use Rattle.std.specs.Prelude.{◌≡◌, ◌-◌, ◌++◌, OnOk, codes, string_bytes};
ghost use Rattle.span_export.specs.When.{in_unit, moment_text, stay_text, time_told};

use crate::picture::Scale;
use crate::stay::Stay;
use std::alloc::AllocError;

/// Writes how long after the first point a lane came into a span, and how long it was there, in a
/// line of its own.
pub(crate) fn write_stay(text: &mut String, scale: &Scale, stay: &Stay) -> Result<(), AllocError>
    ensures { OnOk result
        (string_bytes text.new ≡ string_bytes text.old ++ stay_text scale.now stay.now) }
{
    text.push_str("\nfrom ")?;
    write_time(text, stay.entered.saturating_sub(scale.begin))?;
    let Some(left) = stay.left else {
        return text.push_str(", never left");
    };
    text.push_str(" for ")?;
    write_time(text, left.saturating_sub(stay.entered))
}

/// Writes how long after the first point something happened, in a line of its own.
pub(crate) fn write_moment(text: &mut String, scale: &Scale, time: u64) -> Result<(), AllocError>
    ensures { OnOk result
        (string_bytes text.new ≡ string_bytes text.old ++ moment_text scale.now time) }
{
    text.push_str("\nat ")?;
    write_time(text, time.saturating_sub(scale.begin))
}

/// Writes a time in the largest unit that it reaches, cut off behind three places.
fn write_time(text: &mut String, time: u64) -> Result<(), AllocError>
    ensures { OnOk result (string_bytes text.new ≡ string_bytes text.old ++ time_told time) }
{
    if time >= 1_000_000_000 {
        write_in(text, time / 1_000_000, "s")
    } else if time >= 1_000_000 {
        write_in(text, time / 1000, "ms")
    } else if time >= 1000 {
        write_in(text, time, "µs")
    } else {
        write!(text, "{time} ns")
    }
}

/// Writes so many thousandths of a unit.
fn write_in(text: &mut String, thousandths: u64, unit: &str) -> Result<(), AllocError>
    ensures { OnOk result (string_bytes text.new
        ≡ string_bytes text.old ++ in_unit thousandths unit.now) }
{
    write!(
        text,
        "{}.{:03} {unit}",
        thousandths / 1000,
        thousandths % 1000
    )
}
