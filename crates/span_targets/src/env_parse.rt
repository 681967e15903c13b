//! Filters by targets and spans, read from texts.
ghost use Rattle.std.specs.Prelude.{◌≡◌};
ghost use Rattle.span_targets.specs.EnvText.{EnvReads, env_meaning, env_reading, has_mark, level_behind, span_meaning};
ghost use Rattle.span_targets.specs.private.EnvTake.{EnvTakes, EnvTakesAll, ReadsEither, ReadsLevel, ReadsSpan};

use crate::env_filter::EnvFilter;
use crate::error::{Fault, ParseError, WrongDirective};
use crate::parse::MAX_DIRECTIVES;
use crate::read::{Said, has_byte, level_of, read_directive};
use crate::targets::Targets;
use span_core::LevelFilter;
use std::alloc::Global;

/// What a directive for spans says: which levels pass within spans of this name, where their target
/// begins with this one.
#[derive(Clone, Copy)]
pub(crate) struct SaidOfSpans<'a> {
    target: &'a str,
    name: &'a str,
    level: LevelFilter,
}

/// What a directive says: of targets, or of spans.
#[derive(Clone, Copy)]
pub(crate) enum SaidOf<'a> {
    Targets(Said<'a>),
    Spans(SaidOfSpans<'a>),
}

/// Reads a directive: one for spans has a `[`.
fn read_either(text: &str) -> Result<SaidOf<'_>, Fault>
    ensures { ReadsEither (env_meaning text.now) result }
{
    match text.split_once('[') {
        Some((target, behind)) => match read_span(target, behind) {
            Ok(said) => Ok(SaidOf::Spans(said)),
            Err(fault) => Err(fault),
        },
        None => match read_directive(text) {
            Ok(said) => Ok(SaidOf::Targets(said)),
            Err(fault) => Err(fault),
        },
    }
}

/// Reads a directive for spans: their target, and what stands behind its `[`.
fn read_span<'a>(target: &'a str, behind: &'a str) -> Result<SaidOfSpans<'a>, Fault>
    ensures { ReadsSpan (span_meaning target.now behind.now) result }
{
    if has_mark(target) {
        return Err(Fault::Span);
    }
    let Some((name, rest)) = behind.split_once(']') else {
        return Err(Fault::Span);
    };
    if has_byte(name, b'{') {
        return Err(Fault::Span);
    }
    match read_level_behind(rest) {
        Ok(level) => Ok(SaidOfSpans {
            target,
            name,
            level,
        }),
        Err(fault) => Err(fault),
    }
}

/// Whether the text has a byte that no target has before a `[`: `=`, `]` or `{`.
fn has_mark(text: &str) -> bool
    ensures { result ≡ has_mark text.now }
{
    has_byte(text, b'=') || has_byte(text, b']') || has_byte(text, b'{')
}

/// Reads what stands behind a `]`: nothing, or `=` and a level.
fn read_level_behind(text: &str) -> Result<LevelFilter, Fault>
    ensures { ReadsLevel (level_behind text.now) result }
{
    if text.is_empty() {
        return Ok(LevelFilter::TRACE);
    }
    let Some((before, level)) = text.split_once('=') else {
        return Err(Fault::Span);
    };
    if !before.is_empty() {
        return Err(Fault::Span);
    }
    level_of(level).ok_or(Fault::UnknownLevel)
}

impl EnvFilter {
    /// Reads directives, with commas between them: those of `Targets::parse`, and for spans
    /// `[name]=level` and `target[name]=level`, of which each level passes where no `=` follows. Of
    /// several for the same spans each counts, and so the most verbose does.
    ///
    /// Refused where a directive is wrong, or there are more than `MAX_DIRECTIVES`. One for spans
    /// is wrong, too, that has no `]`, that names fields by `{`, in which something else than `=`
    /// follows the `]`, or whose target has an `=`, a `]` or a `{`.
    pub fn parse(alloc: Global, text: &str) -> Result<EnvFilter, ParseError>
        ensures { EnvReads (env_reading text.now) result }
    {
        let mut filter = EnvFilter::new(alloc, Targets::new(alloc));
        match filter.take_all(text) {
            Ok(()) => Ok(filter),
            Err(error) => Err(error),
        }
    }

    /// Takes the directives of a text.
    fn take_all(&mut self, text: &str) -> Result<(), ParseError>
        ensures { EnvTakesAll text.now self.old self.new result }
    {
        let mut rest = text;
        for index in 0..MAX_DIRECTIVES {
            let Some((first, later)) = rest.split_once(',') else {
                return self.take(index + 1, rest);
            };
            if let Err(error) = self.take(index + 1, first) {
                return Err(error);
            }
            rest = later;
        }
        Err(ParseError::Wrong(WrongDirective {
            number: MAX_DIRECTIVES + 1,
            fault: Fault::TooMany,
        }))
    }

    /// Takes the directive with this number.
    fn take(&mut self, number: usize, text: &str) -> Result<(), ParseError>
        ensures { EnvTakes number (env_meaning text.now) self.old self.new result }
    {
        match read_either(text) {
            Ok(SaidOf::Targets(said)) => self.set(said)?,
            Ok(SaidOf::Spans(said)) => self.add_span(said.target, said.name, said.level)?,
            Err(fault) => return Err(ParseError::Wrong(WrongDirective { number, fault })),
        }
        Ok(())
    }
}
