//! Why a run ends early.
ghost use Rattle.std.specs.Prelude.{◌≡◌};
ghost use Rattle.span_bench.specs.Fault.{status_of};

use span_core::TraceError;
use span_tracer::LanesExhausted;
use std::alloc::{AllocError, AllocFailed};
use std::io;
use thiserror::Error;

/// Why a run ends early.
#[derive(Clone, Copy, Debug, PartialEq, Eq, Error)]
pub enum Fault {
    /// A line names no workload, neither a stack with a size nor 1, 2 or 4 threads, or no rounds.
    #[error("a line is not WORKLOAD STACK SIZE ROUNDS, nor WORKLOAD THREADS ROUNDS")]
    Line,
    /// A step of a round was refused, or a layer can't be put on a registry, or memory for the
    /// receiver of threads was refused.
    #[error("refused: {0}")]
    Refused(TraceError),
    /// A step of a round didn't do what it should, or the journal has more requests or fewer than
    /// were made.
    #[error("a round was not done in full")]
    Undone,
    /// No thread could be made.
    #[error("no thread could be made")]
    NoThread,
    /// Input or output failed.
    #[error("input or output failed")]
    Io,
    /// Memory was refused outside a round.
    #[error("out of memory")]
    Memory,
}

impl Fault {
    /// The status that the program ends with.
    pub fn status(&self) -> u8
        ensures { result ≡ status_of self.now }
    {
        match self {
            Fault::Line => 2,
            _ => 1,
        }
    }
}

impl From<TraceError> for Fault {
    fn from(error: TraceError) -> Fault {
        Fault::Refused(error)
    }
}

impl From<LanesExhausted> for Fault {
    fn from(_error: LanesExhausted) -> Fault {
        Fault::Undone
    }
}

impl From<AllocError> for Fault {
    fn from(_error: AllocError) -> Fault {
        Fault::Memory
    }
}

impl<T: Drop> From<AllocFailed<T>> for Fault {
    fn from(_failed: AllocFailed<T>) -> Fault {
        Fault::Memory
    }
}

impl From<io::Error> for Fault {
    fn from(_error: io::Error) -> Fault {
        Fault::Io
    }
}
