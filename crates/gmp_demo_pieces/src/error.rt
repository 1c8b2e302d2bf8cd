//! How the program falls short.

use gmp_base::Refusal;
use gmp_trace::WriteError;
use std::alloc::AllocError;
use std::io;
use thiserror::Error;

#[derive(Debug, Drop, Error)]
pub enum PieceError {
    #[error("out of memory")]
    OutOfMemory,
    #[error("a call is refused")]
    Refused,
    #[error("the file of a piece can't be written or read")]
    Unwritten,
    #[error("a piece is no right trace")]
    Wrong,
}

impl From<AllocError> for PieceError {
    fn from(_error: AllocError) -> PieceError {
        PieceError::OutOfMemory
    }
}

impl From<Refusal> for PieceError {
    fn from(why: Refusal) -> PieceError {
        match why {
            Refusal::OutOfMemory => PieceError::OutOfMemory,
            _ => PieceError::Refused,
        }
    }
}

impl From<WriteError> for PieceError {
    fn from(error: WriteError) -> PieceError {
        match error {
            WriteError::Device => PieceError::Unwritten,
            WriteError::OutOfMemory => PieceError::OutOfMemory,
        }
    }
}

impl From<io::Error> for PieceError {
    fn from(_error: io::Error) -> PieceError {
        PieceError::Unwritten
    }
}
