//! How a line falls short. The text of each is what is printed of it.

use gmp_base::Refusal;
use gmp_check::ReplayError;
use std::alloc::AllocError;
use thiserror::Error;

/// How a line falls short.
#[derive(Debug, Drop, Error)]
pub enum PlayError {
    #[error("not a line, or not here")]
    Unreadable,
    #[error("limits and capacities come first")]
    NoOpening,
    #[error("the end comes last")]
    NoEnd,
    #[error("the book did not open: {0}")]
    Unopened(Refusal),
    #[error("there is no such machine")]
    NoMachine,
    #[error("what the call is handed is not in hand")]
    EmptyHanded,
    #[error("refused with number {1}: {0}")]
    Refused(Refusal, u8),
    #[error("the book says {0}")]
    Says(String),
    #[error("a value is not the run's own")]
    Astray,
    #[error("a refusal changed something")]
    Changed,
    #[error("a plain replay ends otherwise")]
    EndsOtherwise,
    #[error("a plain replay says {0}")]
    Replayed(ReplayError),
    #[error("not listed, and a step too: {0}")]
    Step(String),
    #[error("a value was not taken back: {0}")]
    NotTaken(Refusal),
    #[error("out of memory")]
    OutOfMemory,
}

impl From<AllocError> for PlayError {
    fn from(_error: AllocError) -> PlayError {
        PlayError::OutOfMemory
    }
}
