//! Levels of verbosity, and filters by level.
ghost use Rattle.std.specs.Prelude.{◌≡◌, Some};
ghost use Rattle.span_core.specs.Level.{filter_number, level_number, level_text, passes_level};
ghost use Rattle.span_core.specs.LevelText.{IsFilterText, IsLevelText, Reads};

use std::fmt;
use std::str::FromStr;
use thiserror::Error;

/// A level of verbosity, from `ERROR`, the least verbose, to `TRACE`, in that order.
///
/// Stands for `tracing_core::Level`.
#[derive(Clone, Copy, Debug, PartialEq, Eq, PartialOrd, Ord, Hash)]
pub struct Level(Verbosity);

#[derive(Clone, Copy, Debug, PartialEq, Eq, PartialOrd, Ord, Hash)]
enum Verbosity {
    Error,
    Warn,
    Info,
    Debug,
    Trace,
}

impl Level {
    /// Something failed.
    pub const ERROR: Level = Level(Verbosity::Error);

    /// Something looks wrong.
    pub const WARN: Level = Level(Verbosity::Warn);

    /// Something useful happened.
    pub const INFO: Level = Level(Verbosity::Info);

    /// Of use to whoever debugs.
    pub const DEBUG: Level = Level(Verbosity::Debug);

    /// Of use to whoever traces, and verbose.
    pub const TRACE: Level = Level(Verbosity::Trace);

    /// The level's name, in capitals.
    pub fn as_str(&self) -> &'static str
        ensures { result.now ≡ level_text self.now }
    {
        match self.0 {
            Verbosity::Error => "ERROR",
            Verbosity::Warn => "WARN",
            Verbosity::Info => "INFO",
            Verbosity::Debug => "DEBUG",
            Verbosity::Trace => "TRACE",
        }
    }
}

impl fmt::Display for Level {
    ghost output = { λ level. Some (level_text level) };

    fn fmt<W: fmt::Write>(&self, f: &mut fmt::Formatter<W>) -> fmt::Result {
        let name = self.as_str();
        write!(f, "{name}")
    }
}

/// Reads a level's name, in any case, or its number, from 1 to 5.
impl FromStr for Level {
    type Err = ParseLevelError;

    ghost from_str_gives = { λ text r. Reads (IsLevelText text) r };

    fn from_str(s: &str) -> Result<Level, ParseLevelError> {
        let number = s.parse::<usize>().unwrap_or(0); // No level has the number 0.
        if number == 1 || s.eq_ignore_ascii_case("error") {
            Ok(Level::ERROR)
        } else if number == 2 || s.eq_ignore_ascii_case("warn") {
            Ok(Level::WARN)
        } else if number == 3 || s.eq_ignore_ascii_case("info") {
            Ok(Level::INFO)
        } else if number == 4 || s.eq_ignore_ascii_case("debug") {
            Ok(Level::DEBUG)
        } else if number == 5 || s.eq_ignore_ascii_case("trace") {
            Ok(Level::TRACE)
        } else {
            Err(ParseLevelError { _p: () })
        }
    }
}

/// The text is of no level.
///
/// Stands for `tracing_core::metadata::ParseLevelError`.
#[derive(Clone, Copy, Debug, Error)]
#[error("error parsing level: expected one of \"error\", \"warn\", \"info\", \"debug\", \"trace\", \
     or a number 1-5")]
pub struct ParseLevelError {
    _p: (),
}

/// Passes the levels up to one, or none of them. The order is by how much passes, `OFF` first.
///
/// Stands for `tracing_core::LevelFilter`, which a level is compared with: here `passes` is asked.
#[derive(Clone, Copy, PartialEq, Eq, PartialOrd, Ord, Hash)]
pub struct LevelFilter(Option<Level>);

impl LevelFilter {
    /// No level passes.
    pub const OFF: LevelFilter = LevelFilter(None);

    /// Only errors pass.
    pub const ERROR: LevelFilter = LevelFilter(Some(Level::ERROR));

    /// Levels up to warnings pass.
    pub const WARN: LevelFilter = LevelFilter(Some(Level::WARN));

    /// Levels up to what is useful pass.
    pub const INFO: LevelFilter = LevelFilter(Some(Level::INFO));

    /// Levels up to debugging pass.
    pub const DEBUG: LevelFilter = LevelFilter(Some(Level::DEBUG));

    /// Each level passes.
    pub const TRACE: LevelFilter = LevelFilter(Some(Level::TRACE));

    /// Whether the level is at most the filter's.
    pub fn passes(&self, level: Level) -> bool
        ensures { result ≡ passes_level self.now level }
    {
        match self.0 {
            Some(most) => level <= most,
            None => false,
        }
    }
}

impl fmt::Debug for LevelFilter {
    fn fmt<W: fmt::Write>(&self, f: &mut fmt::Formatter<W>) -> fmt::Result {
        let name = match self.0 {
            None => "OFF",
            Some(Level(Verbosity::Error)) => "ERROR",
            Some(Level(Verbosity::Warn)) => "WARN",
            Some(Level(Verbosity::Info)) => "INFO",
            Some(Level(Verbosity::Debug)) => "DEBUG",
            Some(Level(Verbosity::Trace)) => "TRACE",
        };
        write!(f, "LevelFilter::{name}")
    }
}

/// Reads `off` or 0 as the filter that passes no level, the empty text as `ERROR`, and else what a
/// level is read from, as the filter up to that level.
impl FromStr for LevelFilter {
    type Err = ParseLevelFilterError;

    ghost from_str_gives = { λ text r. Reads (IsFilterText text) r };

    fn from_str(from: &str) -> Result<LevelFilter, ParseLevelFilterError> {
        if from.is_empty() {
            return Ok(LevelFilter::ERROR);
        }
        if from.parse::<usize>() == Ok(0) || from.eq_ignore_ascii_case("off") {
            return Ok(LevelFilter::OFF);
        }
        match from.parse::<Level>() {
            Ok(level) => Ok(LevelFilter(Some(level))),
            Err(_) => Err(ParseLevelFilterError(())),
        }
    }
}

/// The text is of no filter by level.
///
/// Stands for `tracing_core::metadata::ParseLevelFilterError`.
#[derive(Clone, Copy, Debug, Error)]
#[error("error parsing level filter: expected one of \"off\", \"error\", \"warn\", \"info\", \
     \"debug\", \"trace\", or a number 0-5")]
pub struct ParseLevelFilterError(());
