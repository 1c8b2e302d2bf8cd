//! Where a right trace stops, and whether another goes on there.

ghost use Rattle.std.specs.Prelude.{◌≡◌, ◌↔◌, ◌<◌, Option, IfOk, IsTrue, false};
ghost use Rattle.gmp_seq.specs.declared.call.Outcome.{Outcome};
ghost use Rattle.gmp_seq.specs.Run.{Run};
ghost use Rattle.gmp_start.specs.Start.{state_of};
ghost use Rattle.gmp_trace.specs.declared.trace.End.TheVariants as end_;
ghost use Rattle.gmp_trace.specs.Text.{Content, content};
ghost use Rattle.gmp_check.specs.Checked.{IsRight, start_of};
ghost use Rattle.gmp_check.specs.Parts.{Meets};
ghost use Rattle.gmp_parts.specs.Parts.{IsRightTrace};
ghost use Rattle.gmp_join_cli.specs.Join.{IsStop};

use gmp_check::{OutOfMemory, state_before};
use gmp_seq::Limits;
use gmp_start::Start;
use gmp_trace::{Beginning, End, Trace};
use std::alloc::{AllocError, Global};

/// Where a trace stops: all that has to be known of it to judge the next one.
#[derive(Drop)]
pub(crate) struct Stop {
    pub limits: Limits,
    pub bodies: u16,
    pub end: End,
    /// The state behind the last entry. None where the run has ended.
    pub at: Option<Start>,
}

/// The state behind the last entry of a trace whose run lasts.
fn last_state(alloc: Global, trace: &Trace) -> Result<Start, OutOfMemory>
    requires right { (o : Option Outcome) × IsRight (content trace.now) o }
    requires lasts { trace.now.end ≡ end_.Running }
    ensures { IfOk result (λ s. Run trace.now.limits (start_of (content trace.now)) trace.now.entries.list (state_of s)) }
{
    let entries = &trace.entries;
    match &trace.beginning {
        Beginning::Opening(capacities) => {
            let start = Start::opening(alloc, trace.limits, trace.bodies, capacities)?;
            state_before(alloc, trace.limits, &start, entries, entries.len())
        }
        Beginning::Start(start) => {
            state_before(alloc, trace.limits, start, entries, entries.len())
        }
    }
}

/// Where a right trace stops.
pub(crate) fn stop_of(alloc: Global, trace: &Trace) -> Result<Stop, OutOfMemory>
    requires { (o : Option Outcome) × IsRight (content trace.now) o }
    ensures { IfOk result (IsStop (content trace.now)) }
{
    let at = if trace.end == End::Running {
        Some(last_state(alloc, trace)?)
    } else {
        None
    };
    Ok(Stop {
        limits: trace.limits,
        bodies: trace.bodies,
        end: trace.end,
        at,
    })
}

/// Whether this is the state before the trace's first entry.
fn begins_at(alloc: Global, trace: &Trace, state: &Start) -> Result<bool, AllocError>
    requires { 0 < trace.now.bodies }
    ensures { IfOk result (λ b. IsTrue b ↔ (state_of state.now ≡ start_of (content trace.now))) }
{
    match &trace.beginning {
        Beginning::Opening(capacities) => {
            let start = Start::opening(alloc, trace.limits, trace.bodies, capacities)?;
            Ok(state.same(&start))
        }
        Beginning::Start(start) => Ok(state.same(start)),
    }
}

/// Whether a right trace goes on where the one before it stops.
pub(crate) fn goes_on(alloc: Global, stop: &Stop, trace: &Trace) -> Result<bool, AllocError>
    requires { (o : Option Outcome) × IsRight (content trace.now) o }
    ensures meets { IfOk result (λ b. IsTrue b → (x : Content) → IsStop x stop.now → Meets x (content trace.now)) }
    ensures apart { IfOk result (λ b. b ≡ false → (x : Content) → IsStop x stop.now → IsRightTrace x → Meets x (content trace.now) → ⊥) }
{
    let Some(at) = &stop.at else {
        return Ok(false);
    };
    if stop.limits != trace.limits || stop.bodies != trace.bodies {
        return Ok(false);
    }
    begins_at(alloc, trace, at)
}
