//! How a run falls short. The text of each is what is printed of it.

use gmp_base::Refusal;
use gmp_check::ReplayError;
use gmp_test_cuts::CutError;
use std::alloc::AllocError;
use thiserror::Error;

/// How a run falls short.
#[derive(Debug, Drop, Error)]
pub enum RunError {
    #[error("it is not opened: {0}")]
    Unopened(Refusal),
    #[error("machine {0} makes no call where its table has one")]
    NoCall(u8),
    #[error("machine {0} adds other entries than its table has")]
    OtherEntries(u8),
    #[error("something changes after the end")]
    Late,
    #[error("it has no end")]
    Endless,
    #[error("the plain scheduler says: {0}")]
    Replay(ReplayError),
    #[error("the plain scheduler has another outcome")]
    OtherOutcome,
    #[error("machine {0} is not done")]
    NotDone(u8),
    #[error("it is not begun: {0}")]
    NotBegun(Refusal),
    #[error("{0} of {1} machines were started")]
    NotStarted(u8, u8),
    #[error("the log of machine {0} disagrees with the history")]
    OtherLog(u8),
    #[error("its limits or its bodies are others")]
    OtherOpening,
    #[error("{0}: not as it has to be")]
    Wrong(&'static str),
    #[error("cut at each entry, {0}")]
    Uncut(CutError),
    #[error("out of memory")]
    OutOfMemory,
}

impl From<AllocError> for RunError {
    fn from(_error: AllocError) -> RunError {
        RunError::OutOfMemory
    }
}
