//! Why no filter is read from a text.
ghost use Rattle.std.specs.Prelude.{◌≡◌};
ghost use Rattle.span_targets.specs.declared.error.ParseError.TheVariants.{OutOfMemory};

use std::alloc::AllocError;
use std::env::VarError;
use thiserror::Error;

/// What is wrong with a directive.
#[derive(Clone, Copy, Debug, PartialEq, Eq, Error)]
pub enum Fault {
    /// The directive has more than one `=`.
    #[error("it has more than one '='")]
    TwoEquals,
    /// What follows the directive's `=` is no level.
    #[error("its level isn't off, error, warn, info, debug, trace or 0 to 5")]
    UnknownLevel,
    /// The directive's target has a `[`: a filter by targets knows nothing of spans and fields.
    #[error("its target has a '['")]
    Bracket,
    /// The directive has a `[` and names no spans. One that does is a target without `=`, `]` or
    /// `{`, then `[`, a name without `{`, `]`, and nothing or `=` and a level.
    #[error("after its '[' it wants a span's name, ']', and perhaps '=' and a level")]
    Span,
    /// As many directives as are read stand before this one.
    #[error("more than 1024 directives aren't read")]
    TooMany,
}

/// A wrong directive of a text.
#[derive(Clone, Copy, Debug, PartialEq, Eq, Error)]
#[error("directive {number}: {fault}")]
pub struct WrongDirective {
    /// The directive's number in the text, counted from 1.
    pub number: usize,
    /// What is wrong with the directive.
    pub fault: Fault,
}

/// Why no filter is read from a text.
///
/// Stands for `tracing_subscriber::filter::ParseError`, which doesn't say where.
#[derive(Clone, Copy, Debug, PartialEq, Eq, Error)]
pub enum ParseError {
    /// This directive is the first that is wrong.
    #[error("{0}")]
    Wrong(WrongDirective),
    /// Memory was refused.
    #[error("out of memory")]
    OutOfMemory,
}

impl From<AllocError> for ParseError {
    ghost from_gives = { λ _ e. e ≡ OutOfMemory };

    fn from(_error: AllocError) -> ParseError {
        ParseError::OutOfMemory
    }
}

/// Why no filter is read from an environment variable.
///
/// Stands for `tracing_subscriber::filter::FromEnvError`.
#[derive(Debug, Drop, Error)]
pub enum FromEnvError {
    /// The variable's text isn't that of a filter.
    #[error("{0}")]
    Parse(ParseError),
    /// The variable can't be read.
    #[error("{0}")]
    Env(VarError),
}
