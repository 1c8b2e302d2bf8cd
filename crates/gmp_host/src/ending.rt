//! How a run ended, or how it fell short.

ghost use Rattle.std.specs.Prelude.{◌≡◌, ◌≢◌, ◌↔◌, IsTrue};
ghost use Rattle.gmp_base.specs.declared.refusal.Refusal.TheVariants as refusal;
ghost use Rattle.gmp_host.specs.declared.ending.Short.TheVariants as short;
ghost use Rattle.gmp_host.specs.Search.{IsWell};

use gmp_base::{GNo, Refusal, Woke};
use gmp_seq::Outcome;
use gmp_waits::{Does, Waiting};
use std::alloc::{AllocError, AllocFailed};
use std::fmt;
use thiserror::Error;

/// How a run ended.
#[derive(Debug, PartialEq, Eq, Drop)]
pub struct Ended {
    pub outcome: Outcome,
    /// How many entries its history has, those with it that a sink took.
    pub entries: u64,
    /// The goroutine that was the first to get an answer that made no sense to it.
    pub lost: Option<Lost>,
    /// The goroutines that began and are not done, by number, and what each waits for or does. It is empty where main ended, of which
    /// `Traced::at_end` tells, and where a sink took the history.
    pub waiting: Vec<Waiting>,
    /// Whose the last hundred entries are, in order: those goroutines ran lately. It is empty where `waiting` is.
    pub lately: Vec<GNo>,
}

impl Ended {
    /// Whether main ended, and no goroutine was lost.
    pub fn is_well(&self) -> bool
        ensures { IsTrue result ↔ IsWell self.now }
    {
        matches!(self.outcome, Outcome::MainEnded) && self.lost.is_none()
    }
}

/// A goroutine that got an answer which made no sense to it, and exited.
#[derive(Clone, Copy, Debug, PartialEq, Eq)]
pub struct Lost {
    pub goroutine: GNo,
    pub answer: Woke,
}

impl fmt::Display for Ended {
    /// Its outcome, who was lost, and where all are asleep who waits for what; where the history was full, what those do that run, or ran
    /// lately. Not the number of entries, which is another at each run in threads.
    fn fmt<W: fmt::Write>(&self, f: &mut fmt::Formatter<W>) -> fmt::Result {
        match self.outcome {
            Outcome::MainEnded => write!(f, "main ended")?,
            Outcome::AllAsleep => write!(f, "all goroutines are asleep")?,
            Outcome::BookFull => write!(f, "the book is full")?,
        }
        if let Some(Lost { goroutine, answer }) = self.lost {
            write!(f, ", goroutine {} lost at {answer:?}", goroutine.0)?;
        }
        for waiting in &self.waiting {
            let is_told = match self.outcome {
                Outcome::MainEnded => false,
                Outcome::AllAsleep => true,
                Outcome::BookFull => {
                    waiting.does == Does::Runs || self.lately.contains(&waiting.goroutine)
                }
            };
            if is_told {
                write!(f, "; {waiting}")?;
            }
        }
        Ok(())
    }
}

/// How a run falls short.
#[derive(Debug, Drop, Error)]
pub enum Short {
    #[error("out of memory")]
    OutOfMemory,
    #[error("out of range: 1 to 32 procs, procs to 64 machines, at most 1024 channels of at most 4096 values, 1 to 4096 goroutines, entries from 16, room from 16 to 1000000, slots and outputs from 1")]
    BadLimits,
    #[error("entries above room: use run_into")]
    AboveRoom,
    #[error("it has no end after so many acts")]
    NoEnd,
    #[error("a goroutine was boxed and not pushed")]
    NotPushed,
    #[error("goroutine {} was reserved and has no body", .0.0)]
    NoBody(GNo),
    #[error("its sink stopped it")]
    Stopped,
}

impl From<AllocError> for Short {
    ghost from_gives = { λ _ why. why ≡ short.OutOfMemory };

    fn from(_error: AllocError) -> Short {
        Short::OutOfMemory
    }
}

impl<T: Drop> From<AllocFailed<T>> for Short {
    ghost from_gives = { λ _ why. why ≡ short.OutOfMemory };

    fn from(_error: AllocFailed<T>) -> Short {
        Short::OutOfMemory
    }
}

impl From<Refusal> for Short {
    ghost from_gives = { λ why e. ((e ≡ short.BadLimits) ↔ (why ≡ refusal.BadLimits)) × (e ≢ short.BadLimits → e ≡ short.OutOfMemory) };

    fn from(why: Refusal) -> Short {
        match why {
            Refusal::BadLimits => Short::BadLimits,
            _ => Short::OutOfMemory,
        }
    }
}
