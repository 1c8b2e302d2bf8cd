//! How a list of asks falls short.

use std::alloc::AllocError;
use thiserror::Error;

/// How a list of asks falls short.
#[derive(Debug, Drop, Error)]
pub enum ScanError {
    #[error("the two differ")]
    Differ,
    #[error("an ask does not suit the channels")]
    Unfit,
    #[error("out of memory")]
    OutOfMemory,
}

impl From<AllocError> for ScanError {
    fn from(_error: AllocError) -> ScanError {
        ScanError::OutOfMemory
    }
}
