//! One run by a core: drawn acts until it ends, then judged, and for some seeds cut at its entries.

use crate::cutting::cut;
use crate::drawing::Draw;
use crate::error::RunError;
use crate::judging::judged;
use crate::limits::{BODIES, CAPACITIES, LIMITS, PROCS, is_fair};
use crate::tally::Ended;
use crate::watching::Watch;
use gmp_core::Core;
use std::alloc::Global;

/// How many acts a run has.
const ACTS: u32 = 100_000;

/// A run that isn't cut at each of its entries is cut at one of so many.
const EVERY: usize = 100;

/// The core of this seed, at its opening.
fn opened(alloc: Global, seed: u64) -> Result<Core<()>, RunError> {
    let bodies = vec![in alloc; (); BODIES as usize]?;
    match Core::open_fair(alloc, seed, LIMITS, &CAPACITIES, bodies, is_fair(seed)) {
        Ok(core) => Ok(core),
        Err(refused) => {
            let (why, _bodies) = refused.open();
            Err(RunError::Unopened(why))
        }
    }
}

/// Makes drawn acts; where one falls short, with how many acts were made.
fn act_all(core: &mut Core<()>, seed: u64) -> Result<(), (u32, RunError)> {
    let mut draw = Draw::new(seed, PROCS);
    let mut watch = Watch::new(is_fair(seed));
    for acts in 0..ACTS {
        let m = draw.machine();
        let choice = draw.choice();
        if let Err(error) = watch.act(core, m, &choice) {
            return Err((acts, error));
        }
    }
    Ok(())
}

/// Plays the run of this seed, and judges and cuts it.
pub fn played(alloc: Global, seed: u64, is_cut_at_each: bool) -> Result<Ended, (u32, RunError)> {
    let mut core = match opened(alloc, seed) {
        Ok(core) => core,
        Err(error) => return Err((0, error)),
    };
    let acted = act_all(&mut core, seed);
    let judgement = judged(alloc, &core);
    let every = if is_cut_at_each { 1 } else { EVERY };
    let cuts = cut(alloc, core.history(), core.outcome(), every);
    let entries = core.history().len();
    core.close();
    acted?;
    if let Err(error) = cuts {
        return Err((ACTS, error));
    }
    match judgement {
        Ok(outcome) => Ok(Ended { outcome, entries }),
        Err(error) => Err((ACTS, error)),
    }
}
