//! Why a run ends early.
ghost use Rattle.std.specs.Prelude.{◌≡◌};
ghost use Rattle.span_script.specs.RunFault.{read_fault, script_fault, status_of};
ghost use Rattle.span_script.specs.declared.run_fault.RunFault.TheVariants.{Memory};

use crate::fault::{ReadFault, ScriptFault, WrongLine};
use std::alloc::{AllocError, AllocFailed};
use thiserror::Error;

/// Why a run ends early.
#[derive(Clone, Copy, Debug, PartialEq, Eq, Error)]
pub enum RunFault {
    /// This line of the script is the first that is wrong.
    #[error("script line {} is wrong at column {}: {}", .0.line, .0.column, .0.reason)]
    Wrong(WrongLine),
    /// The reader failed or gave too much, or the writer failed.
    #[error("input or output failed")]
    Io,
    /// Memory was refused outside a request, or to a recorder.
    #[error("out of memory")]
    Memory,
}

impl RunFault {
    /// The status that the program ends with.
    pub fn status(&self) -> u8
        ensures { result ≡ status_of self.now }
    {
        match self {
            RunFault::Wrong(_) => 2,
            RunFault::Io | RunFault::Memory => 1,
        }
    }
}

impl From<ReadFault> for RunFault {
    ghost from_gives = { λ read fault. fault ≡ read_fault read };

    fn from(fault: ReadFault) -> RunFault {
        match fault {
            ReadFault::Io => RunFault::Io,
            ReadFault::Memory => RunFault::Memory,
        }
    }
}

impl From<ScriptFault> for RunFault {
    ghost from_gives = { λ script fault. fault ≡ script_fault script };

    fn from(fault: ScriptFault) -> RunFault {
        match fault {
            ScriptFault::Wrong(wrong) => RunFault::Wrong(wrong),
            ScriptFault::Memory => RunFault::Memory,
        }
    }
}

impl From<AllocError> for RunFault {
    ghost from_gives = { λ _ fault. fault ≡ Memory };

    fn from(_error: AllocError) -> RunFault {
        RunFault::Memory
    }
}

impl<T: Drop> From<AllocFailed<T>> for RunFault {
    ghost from_gives = { λ _ fault. fault ≡ Memory };

    fn from(_failed: AllocFailed<T>) -> RunFault {
        RunFault::Memory
    }
}
