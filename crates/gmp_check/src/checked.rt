//! Whether a trace is right: each entry a step, and the end the outcome. Bad lines are numbered as in the text, so the lines before the
//! first entry are counted here.
ghost use Rattle.std.specs.Prelude.{◌≡◌, ◌↔◌, ◌+◌, ◌≤◌, ◌<◌, ◌^◌, [], length, IfErr, IfOk, IsTrue, Option};
ghost use Rattle.gmp_seq.specs.declared.call.Outcome.{Outcome};
ghost use Rattle.gmp_seq.specs.Fits.{AreLimits};
ghost use Rattle.gmp_start.specs.Start.{state_of};
ghost use Rattle.gmp_trace.specs.declared.bad.Why.TheVariants as why;
ghost use Rattle.gmp_trace.specs.HasText.{lines_before};
ghost use Rattle.gmp_trace.specs.Text.{begins_of, content, content_of};
ghost use Rattle.gmp_check.specs.Checked.{IsBadBeginning, IsBadPartAt, IsFirstBad, IsRight, IsRightPart, MayGoOn, MayStart, line_of, part, start_at};

use crate::error::{OpenError, Stop};
use crate::replay::Replay;
use gmp_history::History;
use gmp_seq::{Goroutine, Limits, Outcome};
use gmp_start::{Start, StartChannel};
use gmp_trace::{Bad, BeginningView, End, Trace, TraceView, Watch, Why};
use std::alloc::Global;

/// Memory was refused.
const NO_MEMORY: Bad = Bad {
    line: 0,
    why: Why::OutOfMemory,
};

/// Behind so many lines, the line of an entry, or of the end, behind so many entries.
fn line_of(before: u64, entries: usize) -> u64
    requires lines { before < 2 ^ 63 }
    requires few { entries < 2 ^ 32 }
    ensures { result ≡ line_of before entries }
{
    before + entries as u64 + 1
}

/// The outcome of right entries from the replay's state on, or the first bad line: of an entry that is no step, or of the end, where it
/// is not the outcome. So many lines are before the first entry. The watch is told at each 65,536th entry how many are steps.
fn check_from<W: Watch>(
    replay: Replay,
    entries: &History,
    end: End,
    before: u64,
    watch: &mut W,
) -> Result<Option<Outcome>, Bad>
    requires { before < 2 ^ 63 }
    ensures right { IfOk result (IsRightPart (part replay.limits replay.state entries.now.list end)) }
    ensures wrong { IfErr result (λ bad. IsBadPartAt (part replay.limits replay.state entries.now.list end) before bad.line bad.why) }
    // Right entries are refused for want of memory alone.
    ensures exact { (outcome : Option Outcome) → IsRightPart (part replay.limits replay.state entries.now.list end) outcome
        → IfErr result (λ bad. bad.why ≡ why.OutOfMemory) }
{
    let all = entries.len();
    match replay.run(entries, watch) {
        Ok(outcome) if end == End::of(outcome) => Ok(outcome),
        Ok(_) => Err(Bad {
            line: line_of(before, all),
            why: Why::Outcome,
        }),
        Err(Stop::NoStep(i)) => Err(Bad {
            line: line_of(before, i),
            why: Why::Step,
        }),
        Err(Stop::OutOfMemory) => Err(NO_MEMORY),
    }
}

/// How many lines are before the first entry, behind the lines of a start.
fn lines_of(channels: &[StartChannel], goroutines: &[Goroutine]) -> u64
    ensures value { result ≡ 9 + length channels.now + length goroutines.now }
    ensures small { result < 2 ^ 63 }
{
    9 + channels.len() as u64 + goroutines.len() as u64
}

/// How many lines are before the first entry.
fn lines_before(beginning: BeginningView) -> u64
    ensures value { result ≡ lines_before (begins_of beginning.entry) }
    ensures small { result < 2 ^ 63 }
{
    match beginning {
        BeginningView::Opening(_) => 3,
        BeginningView::Start(start) => lines_of(&start.channels, &start.goroutines),
    }
}

/// Whether a run may go on from the start.
fn may_go_on(limits: Limits, bodies: u16, start: &Start) -> bool
    ensures { IsTrue result ↔ MayGoOn limits bodies (state_of start.now) }
{
    start.has_sizes(limits, bodies) && start.fits(limits)
}

/// A replay that begins as a trace does, or what is wrong with the beginning.
pub fn begun(
    alloc: Global,
    limits: Limits,
    bodies: u16,
    beginning: BeginningView,
) -> Result<Replay, Bad>
    requires { AreLimits limits bodies [] }
    ensures begun { IfOk result (λ r. r ≡ record { limits = limits; state = start_at limits bodies (begins_of beginning.entry) }) }
    ensures within { IfOk result (λ _. MayStart limits bodies (begins_of beginning.entry)) }
    ensures wrong { IfErr result (λ bad. IsBadBeginning limits bodies (begins_of beginning.entry) bad.line bad.why) }
{
    match beginning {
        BeginningView::Opening(capacities) => {
            match Replay::open(alloc, limits, bodies, capacities) {
                Ok(replay) => Ok(replay),
                Err(OpenError::BadLimits) => Err(Bad {
                    line: 3,
                    why: Why::Caps,
                }),
                Err(OpenError::OutOfMemory) => Err(NO_MEMORY),
            }
        }
        BeginningView::Start(start) => {
            if !may_go_on(limits, bodies, start) {
                return Err(Bad {
                    line: lines_before(beginning),
                    why: Why::Start,
                });
            }
            match Replay::begin(alloc, limits, start) {
                Ok(replay) => Ok(replay),
                Err(_) => Err(NO_MEMORY),
            }
        }
    }
}

/// The outcome of a right trace, or the first bad line: of an entry that is no step, or of the end, where it is not the outcome.
///
/// Limits or capacities that no run may have are bad lines too, and so is `begin` behind a state that no run may go on from; what was read
/// has none of these. Of a start it tests the sizes and that its parts fit together; that its numbers are within the limits of their lines
/// `read` tests. Memory is wanted by the beginning and by a make.
pub fn check(alloc: Global, trace: &Trace) -> Result<Option<Outcome>, Bad>
    ensures right { IfOk result (IsRight (content trace.now)) }
    ensures wrong { IfErr result (IsFirstBad (content trace.now)) }
    // A right trace is refused for want of memory alone.
    ensures exact { (outcome : Option Outcome) → IsRight (content trace.now) outcome → IfErr result (λ bad. bad.why ≡ why.OutOfMemory) }
{
    check_view(alloc, trace.view(), &mut ())
}

/// Checks a trace that lies elsewhere. The watch is told at each 65,536th entry how many are steps.
pub fn check_view<W: Watch>(
    alloc: Global,
    trace: TraceView,
    watch: &mut W,
) -> Result<Option<Outcome>, Bad>
    ensures right { IfOk result (IsRight (content_of trace.entry)) }
    ensures wrong { IfErr result (IsFirstBad (content_of trace.entry)) }
    // A right trace is refused for want of memory alone.
    ensures exact { (outcome : Option Outcome) → IsRight (content_of trace.entry) outcome → IfErr result (λ bad. bad.why ≡ why.OutOfMemory) }
{
    let TraceView {
        limits,
        bodies,
        beginning,
        entries,
        end,
    } = trace;
    if !limits.allow(bodies as usize, &[]) {
        return Err(Bad {
            line: 2,
            why: Why::Limits,
        });
    }
    let replay = begun(alloc, limits, bodies, beginning)?;
    check_from(replay, entries, end, lines_before(beginning), watch)
}
