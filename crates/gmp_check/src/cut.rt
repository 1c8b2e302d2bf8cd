//! A run in two parts, and two parts as one run, over histories; `pieces` does the same of traces.
ghost use Rattle.std.specs.Prelude.{◌≡◌, ◌++◌, Option, drop, IfErr, IfOk, OnOk};
ghost use Rattle.gmp_seq.specs.declared.call.Outcome.{Outcome};
ghost use Rattle.gmp_seq.specs.Run.{Run};
ghost use Rattle.gmp_seq.specs.State.{State};
ghost use Rattle.gmp_start.specs.Start.{state_of};
ghost use Rattle.gmp_check.specs.declared.error.JoinError.TheVariants as join_error;
ghost use Rattle.gmp_check.specs.Checked.{IsRightPart, part};
ghost use Rattle.gmp_check.specs.Consistent.{MayBegin};
ghost use Rattle.gmp_check.specs.Parts.{AreJoined, IsPastEnd, IsSecond};

use crate::begin::{meets, state_before};
use crate::error::{JoinError, OutOfMemory};
use gmp_history::History;
use gmp_seq::Limits;
use gmp_start::Start;
use gmp_trace::End;
use std::alloc::{AllocError, Global};

/// Adds the entries from this one on.
fn add_from(history: &mut History, entries: &History, first: usize) -> Result<(), AllocError>
    ensures { OnOk result (history.new.list ≡ history.old.list ++ drop first entries.now.list) }
{
    for i in first..entries.len() {
        if let Some(entry) = entries.get(i) {
            history.make_room()?;
            history.push(entry.m, entry.k, &entry.call, &entry.reply);
        }
    }
    Ok(())
}

/// The part of a run from its entry n on: the state before it, and the entries from it on.
pub(crate) fn split_run(
    alloc: Global,
    limits: Limits,
    start: &Start,
    entries: &History,
    end: End,
    n: usize,
) -> Result<(Start, History), OutOfMemory>
    requires begins { MayBegin limits (state_of start.now) }
    requires right { (o : Option Outcome) × IsRightPart (part limits (state_of start.now) entries.now.list end) o }
    requires within { IsPastEnd entries.now.list end n → ⊥ }
    ensures { IfOk result (λ x. IsSecond (part limits (state_of start.now) entries.now.list end) n (state_of x.0) x.1.list) }
{
    let second = state_before(alloc, limits, start, entries, n)?;
    let mut rest = History::new(alloc);
    add_from(&mut rest, entries, n)?;
    Ok((second, rest))
}

/// The entries of both parts. `Apart` exactly where those of the first, which are a run, don't lead to the second's start.
pub(crate) fn join_runs(
    alloc: Global,
    limits: Limits,
    first: &Start,
    entries: &History,
    second: &Start,
    rest: &History,
) -> Result<History, JoinError>
    requires begins { MayBegin limits (state_of first.now) }
    requires run { (s : State) × Run limits (state_of first.now) entries.now.list s }
    ensures joined { IfOk result (λ h. AreJoined limits (state_of first.now) entries.now.list (state_of second.now) rest.now.list h.list) }
    ensures apart { IfErr result (λ e. e ≡ join_error.Apart → Run limits (state_of first.now) entries.now.list (state_of second.now) → ⊥) }
{
    if !meets(alloc, limits, first, entries, second)? {
        return Err(JoinError::Apart);
    }
    let mut all = History::new(alloc);
    add_from(&mut all, entries, 0)?;
    add_from(&mut all, rest, 0)?;
    Ok(all)
}
