//! Why a part is not written.
ghost use Rattle.std.specs.Prelude.{◌≡◌};
ghost use Rattle.gmp_parts.specs.declared.error.PartError.TheVariants as part_error;

use gmp_check::OutOfMemory;
use gmp_trace::WriteError;
use std::alloc::AllocError;
use std::io;
use thiserror::Error;

/// Why a part was not written.
#[derive(Clone, Copy, Debug, Error)]
pub enum PartError {
    /// There is no entry, or one is no step of the scheduler.
    #[error("no step")]
    NoStep,
    #[error("out of memory")]
    OutOfMemory,
    /// The outlet failed. How much went out is not known.
    #[error("a part could not be written")]
    Device,
}

impl From<AllocError> for PartError {
    ghost from_gives = { λ _ e. e ≡ part_error.OutOfMemory };

    fn from(_error: AllocError) -> PartError {
        PartError::OutOfMemory
    }
}

impl From<OutOfMemory> for PartError {
    ghost from_gives = { λ _ e. e ≡ part_error.OutOfMemory };

    fn from(_error: OutOfMemory) -> PartError {
        PartError::OutOfMemory
    }
}

impl From<WriteError> for PartError {
    ghost use Rattle.std.specs.Prelude.{◌≢◌};

    ghost from_gives = { λ _ e. e ≢ part_error.NoStep };

    fn from(error: WriteError) -> PartError {
        match error {
            WriteError::Device => PartError::Device,
            WriteError::OutOfMemory => PartError::OutOfMemory,
        }
    }
}

impl From<io::Error> for PartError {
    ghost from_gives = { λ _ e. e ≡ part_error.Device };

    fn from(_error: io::Error) -> PartError {
        PartError::Device
    }
}
