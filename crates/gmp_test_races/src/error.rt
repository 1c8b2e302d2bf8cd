//! How a run falls short. The text of each is what is printed of it.

use std::alloc::AllocError;
use thiserror::Error;

/// How a run falls short.
#[derive(Debug, Drop, Error)]
pub enum RaceError {
    #[error("out of memory")]
    OutOfMemory,
    #[error("a line of the script is bad")]
    BadLine,
    #[error("it was not begun")]
    NotBegun,
    #[error("a log disagrees with the history")]
    Mismatch,
    #[error("its history is no legal run with its outcome")]
    NotLegal,
    #[error("a goroutine asked what its body doesn't say")]
    OtherAsk,
    #[error("a goroutine is ready beside machines of which none is awake and one is parked")]
    Asleep,
    #[error("it ended otherwise")]
    OtherEnd,
}

impl From<AllocError> for RaceError {
    fn from(_error: AllocError) -> RaceError {
        RaceError::OutOfMemory
    }
}
