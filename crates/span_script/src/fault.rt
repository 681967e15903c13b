//! Why a script is not read.
ghost use Rattle.std.specs.Prelude.{◌≡◌};
ghost use Rattle.span_script.specs.declared.fault.ReadFault.TheVariants.{Memory as ReadMemory};
ghost use Rattle.span_script.specs.declared.fault.ScriptFault.TheVariants.{Memory};

use crate::reason::Reason;
use std::alloc::{AllocError, AllocFailed};
use std::fmt;
use thiserror::Error;

/// The first line of a text that is wrong.
#[derive(Clone, Copy, Debug, PartialEq, Eq)]
pub struct WrongLine {
    /// The line's number, counted from 1.
    pub line: u64,
    /// The column of what is wrong, counted in bytes from 1.
    pub column: usize,
    /// What is wrong there.
    pub reason: Reason,
}

impl fmt::Display for WrongLine {
    fn fmt<W: fmt::Write>(&self, f: &mut fmt::Formatter<W>) -> fmt::Result {
        write!(
            f,
            "line {}, column {}: {}",
            self.line, self.column, self.reason
        )
    }
}

/// Why a text is not read as a script.
#[derive(Clone, Copy, Debug, PartialEq, Eq, Error)]
pub enum ScriptFault {
    /// This line is wrong, so the text is no script.
    #[error("{0}")]
    Wrong(WrongLine),
    /// Memory was refused.
    #[error("out of memory")]
    Memory,
}

/// Why a script can't be read.
#[derive(Clone, Copy, Debug, PartialEq, Eq, Error)]
pub enum ReadFault {
    /// The reader failed or gave too much.
    #[error("input failed")]
    Io,
    /// Memory was refused.
    #[error("out of memory")]
    Memory,
}

impl From<AllocError> for ScriptFault {
    ghost from_gives = { λ _ fault. fault ≡ Memory };

    fn from(_error: AllocError) -> ScriptFault {
        ScriptFault::Memory
    }
}

impl<T: Drop> From<AllocFailed<T>> for ScriptFault {
    ghost from_gives = { λ _ fault. fault ≡ Memory };

    fn from(_failed: AllocFailed<T>) -> ScriptFault {
        ScriptFault::Memory
    }
}

impl From<AllocError> for ReadFault {
    ghost from_gives = { λ _ fault. fault ≡ ReadMemory };

    fn from(_error: AllocError) -> ReadFault {
        ReadFault::Memory
    }
}

impl<T: Drop> From<AllocFailed<T>> for ReadFault {
    ghost from_gives = { λ _ fault. fault ≡ ReadMemory };

    fn from(_failed: AllocFailed<T>) -> ReadFault {
        ReadFault::Memory
    }
}
