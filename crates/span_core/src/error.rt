//! Why a call is refused.
ghost use Rattle.std.specs.Prelude.{◌≡◌};
ghost use Rattle.span_core.specs.TraceError.{refusal_number};
ghost use Rattle.span_core.specs.declared.error.TraceError.TheVariants.{OutOfMemory};

use crate::span::Id;
use std::alloc::{AllocError, AllocFailed};
use thiserror::Error;

/// Why a call is refused. The store, the stacks and what else the call was to change are unchanged;
/// a dispatcher may have cached its stack's interest in a callsite. The text carries no id.
///
/// Own to this port: the crate panics there, or answers nothing.
#[derive(Clone, Copy, Debug, PartialEq, Eq, Error)]
pub enum TraceError {
    /// The span isn't open.
    #[error("the span isn't open")]
    UnknownSpan(Id),
    /// The explicit parent of a new span isn't open.
    #[error("the parent isn't open")]
    UnknownParent(Id),
    /// The span is open, but only by its children.
    #[error("the span has no handle left")]
    NoHandle(Id),
    /// The registered filters and the new ones together are more than 128.
    #[error("there are too many filters")]
    TooManyFilters,
    /// A value is stored under the tag already.
    #[error("the tag is taken")]
    TagTaken,
    /// The callsite's number was cached with other metadata.
    #[error("the callsite has other metadata")]
    CallsiteMismatch,
    /// The count of the span's handles, or of its children, is at the limit.
    #[error("the span's count is full")]
    CountFull(Id),
    /// Each place holds a span or is retired, or all ids were issued.
    #[error("there are too many spans")]
    TooManySpans,
    /// Memory was refused.
    #[error("out of memory")]
    OutOfMemory,
    /// No attached filter has this number, or the one that has it doesn't take the setting.
    #[error("no filter takes the setting")]
    NotSettable(u32),
}

impl TraceError {
    /// The number of this refusal, from 1 to 10.
    pub fn number(&self) -> u8
        ensures { result ≡ refusal_number self.now }
    {
        match self {
            TraceError::UnknownSpan(_) => 1,
            TraceError::UnknownParent(_) => 2,
            TraceError::NoHandle(_) => 3,
            TraceError::TooManyFilters => 4,
            TraceError::TagTaken => 5,
            TraceError::CallsiteMismatch => 6,
            TraceError::CountFull(_) => 7,
            TraceError::TooManySpans => 8,
            TraceError::OutOfMemory => 9,
            TraceError::NotSettable(_) => 10,
        }
    }
}

impl From<AllocError> for TraceError {
    ghost from_gives = { λ _ e. e ≡ OutOfMemory };

    fn from(_error: AllocError) -> TraceError {
        TraceError::OutOfMemory
    }
}

impl<T: Drop> From<AllocFailed<T>> for TraceError {
    ghost from_gives = { λ _ e. e ≡ OutOfMemory };

    fn from(_error: AllocFailed<T>) -> TraceError {
        TraceError::OutOfMemory
    }
}

/// What a refused call was handed, with the reason why it was refused.
///
/// Own to this port: the crate panics there.
#[derive(Debug, PartialEq, Eq, Drop)]
pub struct Rejected<T> {
    /// What was handed in.
    pub value: T,
    /// Why the call was refused.
    pub error: TraceError,
}
