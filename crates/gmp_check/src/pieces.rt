//! A trace in two parts, and two traces as one. Both sides of a cut are right where the whole is, and the whole is right where both parts
//! are and the second begins at the state to which the first leads.
ghost use Rattle.std.specs.Prelude.{◌≡◌, ◌↔◌, ◌<◌, Option, IfErr, IfOk, IsTrue};
ghost use Rattle.gmp_seq.specs.declared.call.Outcome.{Outcome};
ghost use Rattle.gmp_start.specs.Start.{state_of};
ghost use Rattle.gmp_trace.specs.Text.{IsCounted, begins_at, content};
ghost use Rattle.gmp_check.specs.declared.error.JoinError.TheVariants as join_error;
ghost use Rattle.gmp_check.specs.declared.error.SplitError.TheVariants as split_error;
ghost use Rattle.gmp_check.specs.Checked.{IsRight, start_at};
ghost use Rattle.gmp_check.specs.Parts.{AreAlike, IsJoined, IsPart, IsPast, IsPastEnd, Meets};

use crate::cut::{join_runs, split_run};
use crate::error::{JoinError, SplitError};
use gmp_history::History;
use gmp_seq::Limits;
use gmp_start::Start;
use gmp_trace::{Beginning, End, Trace};
use std::alloc::{AllocError, Global};

/// The state before the first entry.
fn first_state(
    alloc: Global,
    limits: Limits,
    bodies: u16,
    beginning: &Beginning,
) -> Result<Start, AllocError>
    requires { 0 < bodies }
    ensures { IfOk result (λ s. state_of s ≡ start_at limits bodies (begins_at beginning.now)) }
{
    match beginning {
        Beginning::Opening(capacities) => Start::opening(alloc, limits, bodies, capacities),
        Beginning::Start(start) => start.copied(alloc),
    }
}

/// Whether the run has no part from entry n on: there are not so many, or it ended with the last before n.
fn is_past(entries: &History, end: End, n: u64) -> bool
    ensures { IsTrue result ↔ IsPastEnd entries.now.list end n }
{
    let len = entries.len() as u64;
    len < n || (len == n && end != End::Running)
}

/// The beginning once more.
fn copied(alloc: Global, beginning: &Beginning) -> Result<Beginning, AllocError>
    ensures { IfOk result (λ b. begins_at b ≡ begins_at beginning.now) }
{
    match beginning {
        Beginning::Opening(capacities) => Ok(Beginning::Opening(capacities.to_vec(alloc)?)),
        Beginning::Start(start) => Ok(Beginning::Start(start.copied(alloc)?)),
    }
}

/// The part of a right trace from its entry n on, numbered from 0: it begins at the state before that entry, and is right too.
///
/// `Past` exactly where there is no such part: there are fewer entries, or the run ended with the last before entry n.
pub fn split(alloc: Global, trace: &Trace, n: u64) -> Result<Trace, SplitError>
    requires { (o : Option Outcome) × IsRight (content trace.now) o }
    ensures part { IfOk result (λ y. IsPart (content trace.now) n (content y)) }
    ensures right { IfOk result (λ y. (o : Option Outcome) → IsRight (content trace.now) o → IsRight (content y) o) }
    ensures counted { IfOk result (λ y. IsCounted (begins_at y.beginning)) }
    ensures why { IfErr result (λ e. (e ≡ split_error.Past) ↔ IsPast (content trace.now) n) }
{
    if is_past(&trace.entries, trace.end, n) {
        return Err(SplitError::Past);
    }
    let limits = trace.limits;
    let start = first_state(alloc, limits, trace.bodies, &trace.beginning)?;
    let (second, rest) = split_run(alloc, limits, &start, &trace.entries, trace.end, n as usize)?;
    Ok(Trace {
        limits,
        bodies: trace.bodies,
        beginning: Beginning::Start(second),
        entries: rest,
        end: trace.end,
    })
}

/// Whether both are within the same limits, and of as many goroutines.
fn are_alike(first: &Trace, second: &Trace) -> bool
    ensures { IsTrue result ↔ AreAlike (content first.now) (content second.now) }
{
    second.limits == first.limits && second.bodies == first.bodies
}

/// One trace of the entries of both: it begins as the first, and ends as the second. Both are right, and so is it.
///
/// `Apart` exactly where the second doesn't go on where the first stops: its limits or its number of goroutines are others, or the state
/// before its entries is not the one to which those of the first lead.
pub fn join(alloc: Global, first: &Trace, second: &Trace) -> Result<Trace, JoinError>
    requires first { (o : Option Outcome) × IsRight (content first.now) o }
    requires second { (o : Option Outcome) × IsRight (content second.now) o }
    ensures joined { IfOk result (λ z. IsJoined (content first.now) (content second.now) (content z)) }
    ensures right { IfOk result (λ z. (o : Option Outcome) → IsRight (content second.now) o → IsRight (content z) o) }
    ensures counted { IfOk result (λ z. IsCounted (begins_at z.beginning)) }
    ensures alike { IfErr result (λ e. e ≡ join_error.OutOfMemory → AreAlike (content first.now) (content second.now)) }
    ensures apart { IfErr result (λ e. e ≡ join_error.Apart → Meets (content first.now) (content second.now) → ⊥) }
{
    if !are_alike(first, second) {
        return Err(JoinError::Apart);
    }
    let limits = first.limits;
    let start = first_state(alloc, limits, first.bodies, &first.beginning)?;
    let next = first_state(alloc, second.limits, second.bodies, &second.beginning)?;
    let entries = join_runs(
        alloc,
        limits,
        &start,
        &first.entries,
        &next,
        &second.entries,
    )?;
    Ok(Trace {
        limits,
        bodies: first.bodies,
        beginning: copied(alloc, &first.beginning)?,
        entries,
        end: second.end,
    })
}
