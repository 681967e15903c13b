//! Directives, read from texts.
ghost use Rattle.std.specs.Prelude.{◌≡◌, ◌<◌, IfOk};
ghost use Rattle.span_fields.specs.Text.{AsksFor, Reads, cut, field_meaning, has_mark, is_word, known_level, level_after};
ghost use Rattle.span_fields.specs.private.Read.{ReadsCut, ReadsLevel, ReadsParts};
ghost use Rattle.span_targets.specs.Text.{level_named};

use crate::directive::FieldDirective;
use crate::error::FieldError;
use crate::value::ValueMatch;
use span_core::LevelFilter;
use span_targets::laws::levels_are_those_read;
use std::alloc::{AllocError, Global};

/// The parts of a directive's text.
#[derive(Clone, Copy)]
struct Parts<'a> {
    target: &'a str,
    name: &'a str,
    field: &'a str,
    value: &'a str,
    level: LevelFilter,
}

/// A text on both sides of the first such byte.
fn cut(text: &str, byte: u8) -> Option<(&str, &str)>
    requires { byte < 128 }
    ensures { ReadsCut (cut byte text.now) result }
{
    text.split_once(byte as char)
}

/// Whether a part has a byte that stands between parts.
fn has_mark(text: &str) -> bool
    ensures { result ≡ has_mark text.now }
{
    text.as_bytes()
        .iter()
        .any(|byte| matches!(byte, b'[' | b'{' | b'=' | b'}' | b']'))
}

/// Whether a part is a name: it isn't empty, and no byte that stands between parts is in it.
fn is_word(text: &str) -> bool
    ensures { result ≡ is_word text.now }
{
    !text.is_empty() && !has_mark(text)
}

/// The levels that a text names, if it names some.
fn read_word(text: &str) -> Result<LevelFilter, FieldError>
    ensures { ReadsLevel (known_level (level_named text.now)) result }
{
    levels_are_those_read(text);
    match text.parse::<LevelFilter>() {
        Ok(level) => Ok(level),
        Err(_) => Err(FieldError::UnknownLevel),
    }
}

/// The levels by what stands behind a `}`: a `]`, and then nothing, or `=` and a level.
fn read_level(text: &str) -> Result<LevelFilter, FieldError>
    ensures { ReadsLevel (level_after text.now) result }
{
    let Some((before, behind)) = cut(text, b']') else {
        return Err(FieldError::Misshapen);
    };
    if !before.is_empty() {
        return Err(FieldError::Misshapen);
    }
    if behind.is_empty() {
        return Ok(LevelFilter::TRACE);
    }
    let Some((before, level)) = cut(behind, b'=') else {
        return Err(FieldError::Misshapen);
    };
    if !before.is_empty() {
        return Err(FieldError::Misshapen);
    }
    read_word(level)
}

/// Reads the parts of a directive.
fn read_parts(text: &str) -> Result<Parts<'_>, FieldError>
    ensures { ReadsParts (field_meaning text.now) result }
{
    let Some((target, behind)) = cut(text, b'[') else {
        return Err(FieldError::Misshapen);
    };
    let Some((name, behind)) = cut(behind, b'{') else {
        return Err(FieldError::Misshapen);
    };
    let Some((field, behind)) = cut(behind, b'=') else {
        return Err(FieldError::Misshapen);
    };
    let Some((value, behind)) = cut(behind, b'}') else {
        return Err(FieldError::Misshapen);
    };
    if has_mark(target) || !is_word(name) || !is_word(field) {
        return Err(FieldError::Misshapen);
    }
    match read_level(behind) {
        Ok(level) => Ok(Parts {
            target,
            name,
            field,
            value,
            level,
        }),
        Err(error) => Err(error),
    }
}

/// The value that a text asks for.
fn value_of(alloc: Global, text: &str) -> Result<ValueMatch, AllocError>
    ensures { IfOk result (AsksFor text.now) }
{
    if let Ok(flag) = text.parse::<bool>() {
        return Ok(ValueMatch::Bool(flag));
    }
    if let Ok(number) = text.parse::<i64>() {
        return Ok(ValueMatch::Number(i128::from(number)));
    }
    Ok(ValueMatch::Text(String::from_str(alloc, text)?))
}

impl FieldDirective {
    /// Reads a directive, as `[job{id=7}]=debug` or `app[job{id=7}]=debug`, of which each level
    /// passes where nothing stands behind the `]`. The value is true or false where the text is
    /// `true` or `false`; a number where the text is one from -2^63 to 2^63 - 1; else the text.
    ///
    /// Refused where one of `[{=}]` is missing, where a target, a name or a field has one of them,
    /// where name or field is empty, or where the level is none that `LevelFilter` reads.
    pub fn parse(alloc: Global, text: &str) -> Result<FieldDirective, FieldError>
        ensures { Reads text.now result }
    {
        let parts = match read_parts(text) {
            Ok(parts) => parts,
            Err(error) => return Err(error),
        };
        let value = value_of(alloc, parts.value)?;
        let directive = FieldDirective::new(
            alloc,
            parts.target,
            parts.name,
            parts.field,
            value,
            parts.level,
        )?;
        Ok(directive)
    }
}
