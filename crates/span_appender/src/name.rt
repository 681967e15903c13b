//! How files are called.
ghost use Rattle.std.specs.Prelude.{◌≡◌, ◌≤◌, ◌↔◌, ◌++◌, pos, unsigned_abs, IsSome, IfSome, IfOk, OnOk, length, string_bytes};
ghost use Rattle.jiff.specs.Words.{epoch_day};
ghost use Rattle.span_appender.specs.Name.{IsDayText, IsNameOf, date_text, name_text, padded};

use jiff::ToSpan;
use jiff::civil::Date;
use std::alloc::{AllocError, Global};
use std::io::{self, Error, ErrorKind};

/// The last day that has a date, 9999-12-31.
pub const LAST_DAY: u64 = 2_932_896;

/// How many digits a file's number has in its name.
const DIGITS: u8 = 10;

/// How many bytes a date has in a file's name.
const DATE_LENGTH: usize = 10;

/// The date of a day, counted from 1970-01-01.
pub fn date_of(day: u64) -> Option<Date>
    ensures succeeds { IsSome result ↔ (day ≤ LAST_DAY) }
    ensures value { IfSome result (λ date. epoch_day date ≡ pos day) }
{
    if day > LAST_DAY {
        return None;
    }
    match jiff::civil::date(1970, 1, 1).checked_add((day as i64).days()) {
        Ok(date) => Some(date),
        Err(_) => None,
    }
}

/// Appends the last digits of a number, so many of them.
fn push_padded(text: &mut String, digits: u8, number: u32) -> Result<(), AllocError>
    ensures { OnOk result (string_bytes text.new
        ≡ string_bytes text.old ++ padded digits number) }
{
    if digits == 0 {
        return Ok(());
    }
    push_padded(text, digits - 1, number / 10)?;
    text.push((b'0' + (number % 10) as u8) as char)
}

/// The year of a date.
fn year_of(date: Date) -> u32
    ensures { result ≡ unsigned_abs date.year }
{
    date.year().unsigned_abs() as u32
}

/// The month of a date.
fn month_of(date: Date) -> u32
    ensures { result ≡ date.month }
{
    date.month().unsigned_abs() as u32
}

/// The day of a date.
fn day_of(date: Date) -> u32
    ensures { result ≡ date.day }
{
    date.day().unsigned_abs() as u32
}

/// The text of a date, as 2026-11-30.
fn text_of(alloc: Global, date: Date) -> Result<String, AllocError>
    ensures { IfOk result (λ text. string_bytes text ≡ date_text date) }
{
    let (year, month, day) = (year_of(date), month_of(date), day_of(date));
    let mut text = String::new(alloc);
    push_padded(&mut text, 4, year)?;
    text.push_str("-")?;
    push_padded(&mut text, 2, month)?;
    text.push_str("-")?;
    push_padded(&mut text, 2, day)?;
    Ok(text)
}

/// The text of a day, as 2026-11-30. Fails where the day has no date, or for want of memory.
pub fn day_text(alloc: Global, day: u64) -> io::Result<String>
    ensures { IfOk result (λ text. IsDayText day (string_bytes text)) }
{
    let Some(date) = date_of(day) else {
        return Err(Error::new(ErrorKind::InvalidData, "the clock is past 9999-12-31"));
    };
    let text = text_of(alloc, date)?;
    Ok(text)
}

/// The name of a file: its number and its date, between what stands before and behind them.
pub fn file_name(
    alloc: Global,
    before: &str,
    number: u32,
    date: &str,
    behind: &str,
) -> Result<String, AllocError>
    ensures { IfOk result (λ name. string_bytes name
        ≡ name_text before.now number date.now behind.now) }
{
    let mut name = String::from_str(alloc, before)?;
    push_padded(&mut name, DIGITS, number)?;
    name.push_str(".")?;
    name.push_str(date)?;
    name.push_str(behind)?;
    Ok(name)
}

/// The number in a file's name, if it is one that `file_name` gives with these texts before and
/// behind number and date.
pub fn number_in(
    alloc: Global,
    before: &str,
    behind: &str,
    name: &str,
) -> Result<Option<u32>, AllocError>
    ensures { IfOk result (λ found. IfSome found (λ number.
        IsNameOf before.now behind.now number name.now)) }
{
    let Some((number, date)) = parts(before, behind, name) else {
        return Ok(None);
    };
    let again = file_name(alloc, before, number, date, behind)?;
    Ok(if again.as_str() == name {
        Some(number)
    } else {
        None
    })
}

/// A number and a date of a name that may be a file's.
fn parts<'a>(before: &str, behind: &str, name: &'a str) -> Option<(u32, &'a str)>
    ensures { IfSome result (λ found. length found.1.now ≡ DATE_LENGTH) }
{
    let (number, date) = name
        .strip_prefix(before)?
        .strip_suffix(behind)?
        .split_once('.')?;
    let number = number.parse().ok()?;
    if date.len() == DATE_LENGTH {
        Some((number, date))
    } else {
        None
    }
}
