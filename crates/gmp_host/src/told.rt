//! What a run by a core, in one thread, is told of: how it ended, and its history, where that is to be kept.
ghost use Rattle.std.specs.Prelude.{◌≡◌, ◌≢◌, ◌⊎◌, ◌<◌, ◌^◌, IfErr, IfOk, None, OnOk, Some, length, true};
ghost use Rattle.gmp_seq.specs.Fits.{AreLimits};
ghost use Rattle.gmp_host.specs.Ends.{TellsOf};

use crate::ending::{Ended, Short};
use crate::waits::told_at_end;
use gmp_history::History;
use gmp_seq::{Limits, Outcome};
use gmp_waits::AtEnd;
use std::alloc::{AllocError, Global};

/// Whether a core may run so: it keeps all entries, and all is in range.
pub(crate) fn allowed(limits: Limits, bodies: usize, capacities: &[u32]) -> Result<(), Short>
    ensures whole { OnOk result (limits.room ≡ limits.entries) }
    ensures within { OnOk result (AreLimits limits bodies capacities.now) }
    ensures above { IfErr result (λ e. e ≡ Short.AboveRoom → limits.room ≢ limits.entries) }
    ensures limits { IfErr result (λ e. e ≡ Short.BadLimits → AreLimits limits bodies capacities.now → ⊥) }
    ensures kinds { IfErr result (λ e. e ≢ Short.AboveRoom → e ≡ Short.BadLimits) }
{
    if u64::from(limits.room) != limits.entries {
        return Err(Short::AboveRoom);
    }
    if !limits.allow(bodies, capacities) {
        return Err(Short::BadLimits);
    }
    Ok(())
}

/// How a run of so many bodies with this history ended, if it came to an outcome. Nobody is lost that it knows of.
pub(crate) fn ended(
    alloc: Global,
    limits: Limits,
    bodies: usize,
    capacities: &[u32],
    outcome: Option<Outcome>,
    history: &History,
) -> Result<Ended, Short>
    requires few { bodies < 2 ^ 16 }
    ensures outcome { IfOk result (λ e. outcome ≡ Some e.outcome) }
    ensures entries { IfOk result (λ e. length history.now.list ≡ e.entries) }
    ensures tells { IfOk result (λ e. TellsOf limits bodies capacities.now history.now.list e.outcome e.waiting.items e.lately.items) }
    ensures none { IfErr result (λ e. e ≡ Short.NoEnd → outcome ≡ None) }
    ensures kinds { IfErr result (λ e. (e ≡ Short.NoEnd) ⊎ (e ≡ Short.OutOfMemory)) }
{
    let Some(outcome) = outcome else {
        return Err(Short::NoEnd);
    };
    let AtEnd { waiting, lately } = told_at_end(
        alloc, limits, bodies, capacities, outcome, history,
    )?;
    Ok(Ended {
        outcome,
        entries: history.len() as u64,
        lost: None,
        waiting,
        lately,
    })
}

/// The same entries, with no more memory than they take.
fn copied(alloc: Global, history: &History) -> Result<History, AllocError>
    ensures { IfOk result (λ h. h.list ≡ history.now.list) }
{
    let mut copy = History::new(alloc);
    for entry in history.iter() {
        copy.make_room()?;
        copy.push(entry.m, entry.k, &entry.call, &entry.reply);
    }
    Ok(copy)
}

/// A copy of the history, if it is to be kept; else nothing.
pub(crate) fn kept(alloc: Global, history: &History, keeps: bool) -> Result<History, AllocError>
    ensures { keeps ≡ true → IfOk result (λ h. h.list ≡ history.now.list) }
{
    if keeps {
        return copied(alloc, history);
    }
    Ok(History::new(alloc))
}
