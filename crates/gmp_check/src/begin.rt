//! A run that begins at a start, and the starts of its parts. A state is found by playing the entries before it: no entry says it.
ghost use Rattle.std.specs.Prelude.{◌≡◌, ◌↔◌, ◌≤◌, None, length, take, IfOk, IsTrue};
ghost use Rattle.gmp_seq.specs.Run.{Run};
ghost use Rattle.gmp_seq.specs.State.{State};
ghost use Rattle.gmp_start.specs.Start.{state_of};
ghost use Rattle.gmp_check.specs.Consistent.{MayBegin};

use crate::error::OutOfMemory;
use crate::replay::Replay;
use gmp_history::History;
use gmp_seq::Limits;
use gmp_start::Start;
use std::alloc::Global;

/// A replay of the first n entries of a run.
fn replayed(
    alloc: Global,
    limits: Limits,
    start: &Start,
    entries: &History,
    n: usize,
) -> Result<Replay, OutOfMemory>
    requires begins { MayBegin limits (state_of start.now) }
    requires run { (s : State) × Run limits (state_of start.now) entries.now.list s }
    requires within { n ≤ length entries.now.list }
    ensures { IfOk result (λ r. Run limits (state_of start.now) (take n entries.now.list) r.state) }
{
    let mut replay = Replay::begin(alloc, limits, start)?;
    for i in 0..n {
        if let Some(entry) = entries.get(i) {
            let _ = replay.step(&entry)?;
        }
    }
    Ok(replay)
}

/// The state before an entry of a run that goes on from it, or the state where such a run stops: the start of what follows.
pub fn state_before(
    alloc: Global,
    limits: Limits,
    start: &Start,
    entries: &History,
    n: usize,
) -> Result<Start, OutOfMemory>
    requires begins { MayBegin limits (state_of start.now) }
    requires run { (s : State) × Run limits (state_of start.now) entries.now.list s }
    requires within { n ≤ length entries.now.list }
    requires goes_on { (s : State) → Run limits (state_of start.now) (take n entries.now.list) s → s.outcome ≡ None }
    ensures { IfOk result (λ x. Run limits (state_of start.now) (take n entries.now.list) (state_of x)) }
{
    replayed(alloc, limits, start, entries, n)?.copied(alloc)
}

/// Whether the entries, which are a run from the first start, lead to the second.
pub fn meets(
    alloc: Global,
    limits: Limits,
    first: &Start,
    entries: &History,
    second: &Start,
) -> Result<bool, OutOfMemory>
    requires begins { MayBegin limits (state_of first.now) }
    requires run { (s : State) × Run limits (state_of first.now) entries.now.list s }
    ensures { IfOk result (λ b. IsTrue b ↔ Run limits (state_of first.now) entries.now.list (state_of second.now)) }
{
    let replay = replayed(alloc, limits, first, entries, entries.len())?;
    if replay.outcome().is_some() {
        return Ok(false);
    }
    Ok(replay.copied(alloc)?.same(second))
}
