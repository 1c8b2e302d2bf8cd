//! What holds at the end of a run: the plain scheduler accepts each entry and has the book's outcome, and each machine that isn't parked is
//! done.
ghost use Rattle.std.specs.Prelude.{IfOk, OnOk, Some};
ghost use Rattle.gmp_check.specs.Replayed.{EndsWith};
ghost use Rattle.gmp_seq.specs.State.{opening};

use crate::error::RunError;
use crate::limits::{BODIES, CAPACITIES, LIMITS, MACHINES};
use gmp_base::MNo;
use gmp_check::outcome_of;
use gmp_core::Core;
use gmp_history::History;
use gmp_seq::{Limits, Outcome};
use std::alloc::Global;

/// The plain scheduler accepts each entry, and has this outcome.
pub fn replay(
    alloc: Global,
    limits: Limits,
    history: &History,
    outcome: Outcome,
) -> Result<(), RunError>
    ensures { OnOk result (EndsWith limits (opening limits BODIES CAPACITIES) history.now.list (Some outcome)) }
{
    match outcome_of(alloc, limits, BODIES, &CAPACITIES, history) {
        Ok(replayed) if replayed == Some(outcome) => Ok(()),
        Ok(_) => Err(RunError::OtherOutcome),
        Err(why) => Err(RunError::Replay(why)),
    }
}

/// How the run ended, where all holds.
pub fn judged(alloc: Global, core: &Core<()>) -> Result<Outcome, RunError>
    ensures { IfOk result (λ outcome. EndsWith LIMITS (opening LIMITS BODIES CAPACITIES) core.now.system.book.history (Some outcome)) }
{
    let Some(outcome) = core.outcome() else {
        return Err(RunError::Endless);
    };
    replay(alloc, LIMITS, core.history(), outcome)?;
    for m in 0..MACHINES as u8 {
        if !core.done(MNo(m)) {
            return Err(RunError::NotDone(m));
        }
    }
    Ok(outcome)
}
