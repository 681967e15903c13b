//! Why nothing is shown.
ghost use Rattle.std.specs.Prelude.{◌≡◌};
ghost use Rattle.span_show.specs.Fault.{is_of_file, read_fault, script_fault, status_of};
ghost use Rattle.span_show.specs.declared.fault.ShowFault.TheVariants.{Memory};

use span_script::{ReadFault, ScriptFault, WrongLine};
use std::alloc::{AllocError, AllocFailed};
use thiserror::Error;

/// Why nothing is shown.
#[derive(Clone, Copy, Debug, PartialEq, Eq, Error)]
pub enum ShowFault {
    /// The arguments aren't a format and a script.
    #[error("usage: span_show tree|lines|chrome|otlp|folded|scopes|timing|svg|page SCRIPT")]
    Usage,
    /// The script's first wrong line.
    #[error("{0}")]
    Wrong(WrongLine),
    /// There is no such script, or it can't be opened.
    #[error("can't be opened")]
    Unopened,
    /// The script's file has more than `SCRIPT_LIMIT` bytes.
    #[error("has more than 1 MiB")]
    TooLong,
    /// The script can't be read, or gives too much.
    #[error("can't be read, or has more than 1 MiB")]
    Input,
    /// What is shown can't be written.
    #[error("output failed")]
    Output,
    /// Lines of what is shown can't be written, or memory was refused for them.
    #[error("lines were lost: output failed, or out of memory")]
    Lost,
    /// Memory was refused.
    #[error("out of memory")]
    Memory,
}

impl ShowFault {
    /// The status that the program ends with.
    pub fn status(&self) -> u8
        ensures { result ≡ status_of self.now }
    {
        match self {
            ShowFault::Wrong(_) => 2,
            ShowFault::Usage
            | ShowFault::Unopened
            | ShowFault::TooLong
            | ShowFault::Input
            | ShowFault::Output
            | ShowFault::Lost
            | ShowFault::Memory => 1,
        }
    }

    /// Whether it is said of the script as a file.
    pub fn is_of_file(&self) -> bool
        ensures { result ≡ is_of_file self.now }
    {
        match self {
            ShowFault::Unopened | ShowFault::TooLong | ShowFault::Input => true,
            ShowFault::Usage
            | ShowFault::Wrong(_)
            | ShowFault::Output
            | ShowFault::Lost
            | ShowFault::Memory => false,
        }
    }
}

impl From<ReadFault> for ShowFault {
    ghost from_gives = { λ read fault. fault ≡ read_fault read };

    fn from(fault: ReadFault) -> ShowFault {
        match fault {
            ReadFault::Io => ShowFault::Input,
            ReadFault::Memory => ShowFault::Memory,
        }
    }
}

impl From<ScriptFault> for ShowFault {
    ghost from_gives = { λ script fault. fault ≡ script_fault script };

    fn from(fault: ScriptFault) -> ShowFault {
        match fault {
            ScriptFault::Wrong(wrong) => ShowFault::Wrong(wrong),
            ScriptFault::Memory => ShowFault::Memory,
        }
    }
}

impl From<AllocError> for ShowFault {
    ghost from_gives = { λ _ fault. fault ≡ Memory };

    fn from(_error: AllocError) -> ShowFault {
        ShowFault::Memory
    }
}

impl<T: Drop> From<AllocFailed<T>> for ShowFault {
    ghost from_gives = { λ _ fault. fault ≡ Memory };

    fn from(_failed: AllocFailed<T>) -> ShowFault {
        ShowFault::Memory
    }
}
