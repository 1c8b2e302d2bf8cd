//! A run whose trace goes to a file.
ghost use Rattle.std.specs.Prelude.{◌≡◌, ◌≢◌, ◌↔◌, ◌≤◌, ◌<◌, IfErr, IfOk, OnOk, length};
ghost use Rattle.gmp_seq.specs.Fits.{AreLimits};
ghost use Rattle.gmp_turn.specs.Whole.{IsWholeRun};
ghost use Rattle.gmp_host.specs.declared.saving.SaveError.TheVariants as save_error;
ghost use Rattle.gmp_host.specs.Ends.{FellSo, IsOfLegalRun, IsSaidRun};
ghost use Rattle.gmp_host.specs.Openings.{IsCovered, NamesMissing, limits_of};
ghost use Rattle.gmp_host.specs.Played.{BoxAnswers, BoxAsks};

use crate::ending::{Ended, Short};
use crate::host::Host;
use gmp_trace::WriteError;
use std::rt::Files;
use std::sync::Wait;
use std::thread::Threads;
use std::time;
use thiserror::Error;

/// Why a run has no file with its trace.
#[derive(Debug, Drop, Error)]
pub enum SaveError {
    /// The run fell short.
    #[error(transparent)]
    Short(Short),
    /// It ended, and the file could not be written.
    #[error(transparent)]
    Write(WriteError),
}

impl From<Short> for SaveError {
    ghost from_gives = { λ why e. e ≡ save_error.Short why };

    fn from(why: Short) -> SaveError {
        SaveError::Short(why)
    }
}

impl From<WriteError> for SaveError {
    ghost from_gives = { λ why e. e ≡ save_error.Write why };

    fn from(why: WriteError) -> SaveError {
        SaveError::Write(why)
    }
}

impl Host {
    /// Runs the goroutines as `run` does, and writes the trace to a file of this name, which is made, or emptied first.
    pub fn run_saved<R: Threads + Wait + time::Clock + Files + Sync>(
        self,
        rt: &R,
        name: &str,
    ) -> Result<Ended, SaveError>
        ensures ended { IfOk result (IsOfLegalRun (limits_of self.settings) self.capacities.items (length self.bodies.items)) }
        ensures said { IfOk result (IsSaidRun (BoxAsks (λ box body. record box { value = body }) resumed) (BoxAnswers (λ box body. record box { value = body }) blocked) (limits_of self.settings) self.capacities.items self.bodies.items) }
        ensures whole { OnOk result (self.settings.entries ≤ self.settings.room) }
        ensures above { IfErr result (FellSo (λ e. e ≡ Short.AboveRoom → self.settings.room < self.settings.entries)) }
        ensures limits { IfErr result (FellSo (λ e. e ≡ Short.BadLimits
            → AreLimits (limits_of self.settings) (length self.bodies.items) self.capacities.items → ⊥)) }
        ensures memory { IfErr result (FellSo (λ e. e ≡ Short.OutOfMemory
            → IsWholeRun (limits_of self.settings) (length self.bodies.items) self.capacities.items)) }
        ensures pushed { (result ≡ Err (SaveError.Short Short.NotPushed)) ↔ (self.boxed ≢ length self.bodies.items) }
        ensures reserved { OnOk result (IsCovered self.reserved (length self.bodies.items)) }
        ensures missing { IfErr result (FellSo (NamesMissing self.reserved (length self.bodies.items))) }
        ensures kinds { IfErr result (FellSo (λ e. (e ≢ Short.NoEnd) × (e ≢ Short.Stopped))) }
    {
        let run = self.run_traced(rt)?;
        run.save(rt, name)?;
        Ok(run.ended)
    }
}
