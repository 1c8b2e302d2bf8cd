//! How a line falls short. The text of each is what is printed of it.

use std::alloc::{AllocError, AllocFailed};
use thiserror::Error;

/// How a line falls short.
#[derive(Debug, Drop, Error)]
pub enum PlayError {
    #[error("not a line of a block, or not here")]
    Unreadable,
    #[error("there is no such file")]
    NoFile,
    #[error("it ends with status {0}")]
    Status(u8),
    #[error("it says {0}")]
    Says(String),
    #[error("line {0} of what it prints is another")]
    Prints(usize),
    #[error("there are {0}")]
    Counts(usize),
    #[error("it tells of its progress {0}")]
    Tells(String),
    #[error("at a terminal it tells besides {0}")]
    Tips(String),
    #[error("it ends otherwise where a read behind {0} bytes fails")]
    Reads(usize),
    #[error("it ends otherwise where there is room for {0} bytes")]
    Writes(usize),
    #[error("it ends otherwise where its input comes in pieces")]
    Pieces,
    #[error("out of memory")]
    OutOfMemory,
}

impl From<AllocError> for PlayError {
    fn from(_error: AllocError) -> PlayError {
        PlayError::OutOfMemory
    }
}

impl<T: Drop> From<AllocFailed<T>> for PlayError {
    fn from(_error: AllocFailed<T>) -> PlayError {
        PlayError::OutOfMemory
    }
}
