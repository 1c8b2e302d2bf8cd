//! What takes the history: the plain scheduler, which goes on where it stopped at the piece before.

use anyhow::Result;
use gmp_check::Replay;
use gmp_host::{History, Sink, Stop};
use gmp_seq::Limits;
use std::alloc::Global;

/// Goes along with the run, and stops it at an entry that is no step.
#[derive(Drop)]
pub struct Judge {
    replay: Replay,
    /// How many entries were steps.
    steps: u64,
}

impl Judge {
    /// At the opening.
    pub fn new(alloc: Global, limits: Limits, bodies: u16, capacities: &[u32]) -> Result<Self> {
        Ok(Judge {
            replay: Replay::open(alloc, limits, bodies, capacities)?,
            steps: 0,
        })
    }

    /// How many entries were steps.
    pub fn steps(&self) -> u64 {
        self.steps
    }

    /// Takes the entries as far as they are steps.
    fn follow(&mut self, history: &History) -> Result<(), Stop> {
        for entry in history.iter() {
            match self.replay.step(&entry) {
                Ok(true) => self.steps = self.steps.saturating_add(1),
                _ => return Err(Stop),
            }
        }
        Ok(())
    }
}

impl Sink for Judge {
    ghost use Rattle.std.specs.Prelude.{List};
    ghost use Rattle.gmp_seq.specs.declared.call.Entry.{Entry};

    ghost takes = { λ before entries after. Unit {0} };

    ghost refuses = { λ before entries after. Unit {0} };

    fn take(&mut self, history: &mut History) -> Result<(), Stop> {
        self.follow(history)?;
        history.clear();
        Ok(())
    }
}
