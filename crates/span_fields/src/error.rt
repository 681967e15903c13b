//! Why no directive is read from a text.
ghost use Rattle.std.specs.Prelude.{◌≡◌};
ghost use Rattle.span_fields.specs.declared.error.FieldError.TheVariants.{OutOfMemory};

use std::alloc::AllocError;
use thiserror::Error;

/// Why no directive is read from a text.
#[derive(Clone, Copy, Debug, PartialEq, Eq, Error)]
pub enum FieldError {
    /// It isn't `target[name{field=value}]`, or that with `=` and a level behind.
    #[error("it isn't target[name{{field=value}}]=level")]
    Misshapen,
    /// What follows the last `=` is no level.
    #[error("its level isn't off, error, warn, info, debug, trace or 0 to 5")]
    UnknownLevel,
    /// Memory was refused.
    #[error("out of memory")]
    OutOfMemory,
}

impl From<AllocError> for FieldError {
    ghost from_gives = { λ _ e. e ≡ OutOfMemory };

    fn from(_error: AllocError) -> FieldError {
        FieldError::OutOfMemory
    }
}
