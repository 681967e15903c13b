//! Levels of `log` and levels here: the same five, under the same names.
ghost use Rattle.span_log.specs.Level.{SameFilter, SameLevel};

use span_core::{Level, LevelFilter};

/// A level or a filter of `log` that has its like here.
///
/// Stands for `tracing_log::AsTrace`, at levels and filters.
pub trait AsTrace {
    /// The type here.
    type Trace;

    /// The value there and the one here are the same.
    ghost same: { Self → Self.Trace → Type 0 };

    /// The value here that is named as this one is.
    fn as_trace(&self) -> Self::Trace
        ensures { same self.now result };
}

/// A level or a filter here that has its like in `log`.
///
/// Stands for `tracing_log::AsLog`, at levels and filters.
pub trait AsLog {
    /// The type in `log`.
    type Log;

    /// The value here and the one there are the same.
    ghost same: { Self → Self.Log → Type 0 };

    /// The value in `log` that is named as this one is.
    fn as_log(&self) -> Self::Log
        ensures { same self.now result };
}

impl AsTrace for log::Level {
    type Trace = Level;

    ghost same = { SameLevel };

    fn as_trace(&self) -> Level {
        match self {
            log::Level::Error => Level::ERROR,
            log::Level::Warn => Level::WARN,
            log::Level::Info => Level::INFO,
            log::Level::Debug => Level::DEBUG,
            log::Level::Trace => Level::TRACE,
        }
    }
}

impl AsTrace for log::LevelFilter {
    type Trace = LevelFilter;

    ghost same = { SameFilter };

    fn as_trace(&self) -> LevelFilter {
        match self {
            log::LevelFilter::Off => LevelFilter::OFF,
            log::LevelFilter::Error => LevelFilter::ERROR,
            log::LevelFilter::Warn => LevelFilter::WARN,
            log::LevelFilter::Info => LevelFilter::INFO,
            log::LevelFilter::Debug => LevelFilter::DEBUG,
            log::LevelFilter::Trace => LevelFilter::TRACE,
        }
    }
}

impl AsLog for Level {
    type Log = log::Level;

    ghost same = { λ here there. SameLevel there here };

    fn as_log(&self) -> log::Level {
        match *self {
            Level::ERROR => log::Level::Error,
            Level::WARN => log::Level::Warn,
            Level::INFO => log::Level::Info,
            Level::DEBUG => log::Level::Debug,
            _ => log::Level::Trace,
        }
    }
}

impl AsLog for LevelFilter {
    type Log = log::LevelFilter;

    ghost same = { λ here there. SameFilter there here };

    fn as_log(&self) -> log::LevelFilter {
        match *self {
            LevelFilter::OFF => log::LevelFilter::Off,
            LevelFilter::ERROR => log::LevelFilter::Error,
            LevelFilter::WARN => log::LevelFilter::Warn,
            LevelFilter::INFO => log::LevelFilter::Info,
            LevelFilter::DEBUG => log::LevelFilter::Debug,
            _ => log::LevelFilter::Trace,
        }
    }
}
