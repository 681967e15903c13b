//! Directives, read from a text.
ghost use Rattle.std.specs.Prelude.{◌≡◌};
ghost use Rattle.span_targets.specs.Text.{alone, has, level_named, meaning, sides};
ghost use Rattle.span_targets.specs.private.Take.{ReadsOne};

use crate::error::Fault;
use span_core::LevelFilter;

/// What a directive says: which levels pass where a target begins with this one, or by default.
#[derive(Clone, Copy)]
pub(crate) struct Said<'a> {
    pub(crate) target: Option<&'a str>,
    pub(crate) level: LevelFilter,
}

/// Reads a directive: `target=level`, a level, or a target.
pub(crate) fn read_directive(text: &str) -> Result<Said<'_>, Fault>
    ensures { ReadsOne (meaning text.now) result }
{
    match text.split_once('=') {
        Some((target, level)) => read_sides(target, level),
        None => read_alone(text),
    }
}

fn read_sides<'a>(target: &'a str, level: &str) -> Result<Said<'a>, Fault>
    ensures { ReadsOne (sides target.now level.now) result }
{
    if has_byte(level, b'=') {
        return Err(Fault::TwoEquals);
    }
    if has_byte(target, b'[') {
        return Err(Fault::Bracket);
    }
    match level_of(level) {
        Some(level) => Ok(Said {
            target: Some(target),
            level,
        }),
        None => Err(Fault::UnknownLevel),
    }
}

fn read_alone(text: &str) -> Result<Said<'_>, Fault>
    ensures { ReadsOne (alone text.now (level_named text.now)) result }
{
    if let Some(level) = level_of(text) {
        return Ok(Said {
            target: None,
            level,
        });
    }
    if has_byte(text, b'[') {
        return Err(Fault::Bracket);
    }
    Ok(Said {
        target: Some(text),
        level: LevelFilter::TRACE,
    })
}

/// Whether the byte is one of the text's.
pub(crate) fn has_byte(text: &str, byte: u8) -> bool
    ensures { result ≡ has byte text.now }
{
    text.as_bytes().contains(&byte)
}

/// The levels that a text names.
pub(crate) fn level_of(text: &str) -> Option<LevelFilter>
    ensures { result ≡ level_named text.now }
{
    text.parse::<LevelFilter>().ok()
}
