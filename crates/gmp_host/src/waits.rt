//! Who is not done at the end of a run, and who ran lately.
ghost use Rattle.std.specs.Prelude.{◌≡◌, ◌<◌, ◌^◌, IfErr, IfOk};
ghost use Rattle.gmp_host.specs.Ends.{TellsOf};

use crate::ending::Short;
use gmp_history::History;
use gmp_seq::{Limits, Outcome};
use gmp_waits::{AtEnd, at_end};
use std::alloc::Global;

/// The goroutines that began and are not done, and those that ran lately; of a run that main ended none. Where memory is refused it falls
/// short.
pub(crate) fn told_at_end(
    alloc: Global,
    limits: Limits,
    bodies: usize,
    capacities: &[u32],
    outcome: Outcome,
    history: &History,
) -> Result<AtEnd, Short>
    requires few { bodies < 2 ^ 16 }
    ensures tells { IfOk result (λ end. TellsOf limits bodies capacities.now history.now.list outcome end.waiting.items end.lately.items) }
    ensures memory { IfErr result (λ e. e ≡ Short.OutOfMemory) }
{
    if let Outcome::MainEnded = outcome {
        return Ok(AtEnd {
            waiting: Vec::new(alloc),
            lately: Vec::new(alloc),
        });
    }
    let told = at_end(alloc, limits, bodies as u16, capacities, history);
    told.ok_or(Short::OutOfMemory)
}
