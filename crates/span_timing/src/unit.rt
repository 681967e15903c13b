//! Times as people read them.
ghost use Rattle.std.specs.Prelude.{◌≡◌, ◌++◌, IfOk, codes, string_bytes};
ghost use Rattle.span_timing.specs.Unit.{three_digits, time_text};

use std::alloc::{AllocError, Global};

/// A time, cut off, in the greatest unit of which it has one: with three digits at least, but for
/// those below 100 nanoseconds.
pub(crate) fn time_text(alloc: Global, time: u64) -> Result<String, AllocError>
    ensures { IfOk result (λ text. string_bytes text ≡ time_text time) }
{
    if time >= 1_000_000_000 {
        in_unit(alloc, time / 1_000_000, "s")
    } else if time >= 1_000_000 {
        in_unit(alloc, time / 1000, "ms")
    } else if time >= 1000 {
        in_unit(alloc, time, "µs")
    } else {
        format!(in alloc; "{time} ns")
    }
}

/// Thousandths of a unit as a number with three digits at least.
fn in_unit(alloc: Global, thousandths: u64, unit: &str) -> Result<String, AllocError>
    ensures { IfOk result
        (λ text. string_bytes text ≡ three_digits thousandths ++ codes " " ++ unit.now) }
{
    let whole = thousandths / 1000;
    let tenths = thousandths / 100 % 10;
    let hundredths = thousandths / 10 % 10;
    if thousandths >= 100_000 {
        format!(in alloc; "{whole} {unit}")
    } else if thousandths >= 10_000 {
        format!(in alloc; "{whole}.{tenths} {unit}")
    } else {
        format!(in alloc; "{whole}.{tenths}{hundredths} {unit}")
    }
}
