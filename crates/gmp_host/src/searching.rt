//! A search through seeds for a run that does not end well.
ghost use Rattle.std.specs.Prelude.{IfErr, IfOk};
ghost use Rattle.gmp_host.specs.Search.{Compares, FallsAtFirst, FallsShort, IsKept, Searches};

use crate::ending::{Ended, Short};
use std::fmt;
use std::ops::Range;
use thiserror::Error;

/// A run that did not end well, and its seed.
#[derive(Debug, PartialEq, Eq, Drop)]
pub struct Found {
    pub seed: u64,
    pub ended: Ended,
}

impl fmt::Display for Found {
    /// The seed, and how its run ended.
    fn fmt<W: fmt::Write>(&self, f: &mut fmt::Formatter<W>) -> fmt::Result {
        write!(f, "seed {}: {}", self.seed, self.ended)
    }
}

/// A search that came to an end before it was done, since the run of this seed fell short.
#[derive(Debug, Drop, Error)]
#[error("seed {seed}: {why}")]
pub struct FellShort {
    pub seed: u64,
    pub why: Short,
}

/// Runs each seed, from the first on, until a run does not end well, and tells of that. The closure makes its host anew, and runs it by
/// `Host::step_by` or the like. A run that falls short ends the search.
pub fn search<F: Fn(u64) -> Result<Ended, Short>>(
    seeds: Range<u64>,
    run: F,
) -> Result<Option<Found>, FellShort>
    requires { F.IsAlwaysCallable run }
    ensures found { IfOk result (Searches (F.post run) seeds.start seeds.end) }
    ensures err { IfErr result (FallsAtFirst (F.post run) seeds.start seeds.end) }
{
    for seed in seeds.start..seeds.end {
        let ended = match run(seed) {
            Ok(ended) => ended,
            Err(why) => return Err(FellShort { seed, why }),
        };
        if !ended.is_well() {
            return Ok(Some(Found { seed, ended }));
        }
    }
    Ok(None)
}

/// The shorter of what was found and this seed's run, where that did not end well.
fn compared(least: Option<Found>, seed: u64, ended: Ended) -> Option<Found>
    ensures { IsKept least (record { seed = seed; ended = ended }) result }
{
    if ended.is_well() {
        return least;
    }
    match least {
        None => Some(Found { seed, ended }),
        Some(found) => {
            if found.ended.entries <= ended.entries {
                return Some(found);
            }
            Some(Found { seed, ended })
        }
    }
}

/// Runs each seed, and tells of the shortest run that does not end well: of those with the fewest entries the first.
pub fn shortest<F: Fn(u64) -> Result<Ended, Short>>(
    seeds: Range<u64>,
    run: F,
) -> Result<Option<Found>, FellShort>
    requires { F.IsAlwaysCallable run }
    ensures found { IfOk result (Compares (F.post run) seeds.start seeds.end) }
    ensures err { IfErr result (FallsShort (F.post run) seeds.start seeds.end) }
{
    let mut least = None;
    for seed in seeds.start..seeds.end {
        let ended = match run(seed) {
            Ok(ended) => ended,
            Err(why) => return Err(FellShort { seed, why }),
        };
        least = compared(least, seed, ended);
    }
    Ok(least)
}
