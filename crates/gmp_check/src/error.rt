//! Why a history is not replayed: `OutOfMemory` of a step, `OpenError` of an opening, `ReplayError` of a whole history, `SplitError` and
//! `JoinError` of parts. `Stop` is a `ReplayError` without an opening, within the crate.
ghost use Rattle.std.specs.Prelude.{◌≡◌};
ghost use Rattle.gmp_check.specs.declared.error.JoinError.TheVariants as join_error;
ghost use Rattle.gmp_check.specs.declared.error.OpenError.TheVariants as open_error;
ghost use Rattle.gmp_check.specs.declared.error.SplitError.TheVariants as split_error;
ghost use Rattle.gmp_check.specs.declared.error.Stop.TheVariants as stop;
ghost use Rattle.gmp_check.specs.Replayed.{as_replay_error, stop_error};

use std::alloc::AllocError;
use thiserror::Error;

/// There was no memory for what an entry needs.
#[derive(Clone, Copy, Debug, PartialEq, Eq, Error)]
#[error("out of memory")]
pub struct OutOfMemory;

impl From<AllocError> for OutOfMemory {
    fn from(_error: AllocError) -> OutOfMemory {
        OutOfMemory
    }
}

/// Why no replay was opened.
#[derive(Clone, Copy, Debug, Error)]
pub enum OpenError {
    /// A run may not have these limits, so many bodies, or channels of these capacities.
    #[error("bad limits")]
    BadLimits,
    #[error("out of memory")]
    OutOfMemory,
}

impl From<AllocError> for OpenError {
    ghost from_gives = { λ _ e. e ≡ open_error.OutOfMemory };

    fn from(_error: AllocError) -> OpenError {
        OpenError::OutOfMemory
    }
}

/// Why a history has no outcome.
#[derive(Clone, Copy, Debug, Error)]
pub enum ReplayError {
    /// A run may not have these limits, so many bodies, or channels of these capacities.
    #[error("bad limits")]
    BadLimits,
    /// The entry at this index is no step of the scheduler, and all before it are.
    #[error("entry {0} is no step")]
    NoStep(usize),
    #[error("out of memory")]
    OutOfMemory,
}

/// Why the replay of a history doesn't come to its end.
#[derive(Clone, Copy)]
pub(crate) enum Stop {
    /// The entry at this index is no step, and all before it are.
    NoStep(usize),
    OutOfMemory,
}

impl From<OutOfMemory> for Stop {
    ghost from_gives = { λ _ e. e ≡ stop.OutOfMemory };

    fn from(_error: OutOfMemory) -> Stop {
        Stop::OutOfMemory
    }
}

impl From<Stop> for ReplayError {
    ghost from_gives = { λ why e. e ≡ stop_error why };

    fn from(stop: Stop) -> ReplayError {
        match stop {
            Stop::NoStep(i) => ReplayError::NoStep(i),
            Stop::OutOfMemory => ReplayError::OutOfMemory,
        }
    }
}

impl From<OpenError> for ReplayError {
    ghost from_gives = { λ why e. e ≡ as_replay_error why };

    fn from(error: OpenError) -> ReplayError {
        match error {
            OpenError::BadLimits => ReplayError::BadLimits,
            OpenError::OutOfMemory => ReplayError::OutOfMemory,
        }
    }
}

/// Why no part of a run was split off.
#[derive(Clone, Copy, Debug, Error)]
pub enum SplitError {
    /// There are fewer entries before it, or the run ended with them.
    #[error("past the end")]
    Past,
    #[error("out of memory")]
    OutOfMemory,
}

impl From<OutOfMemory> for SplitError {
    ghost from_gives = { λ _ e. e ≡ split_error.OutOfMemory };

    fn from(_error: OutOfMemory) -> SplitError {
        SplitError::OutOfMemory
    }
}

impl From<AllocError> for SplitError {
    ghost from_gives = { λ _ e. e ≡ split_error.OutOfMemory };

    fn from(_error: AllocError) -> SplitError {
        SplitError::OutOfMemory
    }
}

/// Why two parts were not joined.
#[derive(Clone, Copy, Debug, Error)]
pub enum JoinError {
    /// The first doesn't end where the second begins.
    #[error("apart")]
    Apart,
    #[error("out of memory")]
    OutOfMemory,
}

impl From<OutOfMemory> for JoinError {
    ghost from_gives = { λ _ e. e ≡ join_error.OutOfMemory };

    fn from(_error: OutOfMemory) -> JoinError {
        JoinError::OutOfMemory
    }
}

impl From<AllocError> for JoinError {
    ghost from_gives = { λ _ e. e ≡ join_error.OutOfMemory };

    fn from(_error: AllocError) -> JoinError {
        JoinError::OutOfMemory
    }
}
