//! What is told of a trace: the state to which its entries lead, as the checker has it, and what was heard on the way.
ghost use Rattle.std.specs.Prelude.{◌≡◌, ◌≢◌, ◌<◌, ◌^◌, IfErr, IfOk, length, option_copied};
ghost use Rattle.gmp_seq.specs.Table.{epoch_at, status_at};
ghost use Rattle.gmp_start.specs.Start.{table_of};
ghost use Rattle.gmp_trace.specs.declared.bad.Why.TheVariants.{OutOfMemory};
ghost use Rattle.gmp_trace.specs.Text.{content_of};
ghost use Rattle.gmp_check.specs.Checked.{IsFirstBad};
ghost use Rattle.gmp_explain.specs.Told.{IsTold};

use crate::heard::Heard;
use gmp_base::GNo;
use gmp_check::Replay;
use gmp_seq::Status;
use gmp_start::Start;
use gmp_trace::{Bad, BeginningView, TraceView, Watch, Why};
use gmp_walk::{first_number, walk};
use std::alloc::Global;

/// A run as it is told.
#[derive(Drop)]
pub struct Story {
    /// The scheduler after its entries.
    pub replay: Replay,
    /// The same state in its parts.
    pub last: Start,
    /// How many entries there are.
    pub steps: usize,
    /// The number of the first, where the trace begins at a state.
    pub first: Option<u64>,
    pub heard: Heard,
}

impl Story {
    /// What a goroutine does after the entries.
    pub fn does(&self, g: GNo) -> Option<&Status>
        ensures { option_copied result ≡ status_at (table_of self.now.last) g }
    {
        match self.last.goroutines.get(usize::from(g.0)) {
            Some(row) => Some(&row.status),
            None => None,
        }
    }

    /// How often a goroutine became ready.
    pub(crate) fn epoch(&self, g: GNo) -> u64
        ensures { result ≡ epoch_at (table_of self.now.last) g }
    {
        match self.last.goroutines.get(usize::from(g.0)) {
            Some(row) => row.epoch,
            None => 0,
        }
    }

    /// The entry since which the goroutine does that; None: since before the first.
    pub(crate) fn since(&self, g: GNo) -> Option<u64> {
        *self.heard.since.get(usize::from(g.0))?
    }
}

/// Memory was refused.
const NO_MEMORY: Bad = Bad {
    line: 0,
    why: Why::OutOfMemory,
};

/// The number of the first entry behind a state.
fn first_of(beginning: BeginningView) -> Option<u64> {
    match beginning {
        BeginningView::Opening(_) => None,
        BeginningView::Start(_) => Some(first_number(beginning)),
    }
}

/// What is told of a trace whose entries are steps. Of one with an entry that is none, the story ends before it.
///
/// The watch is told at each 65,536th entry how many were played.
pub fn story_of<W: Watch>(alloc: Global, trace: TraceView, watch: &mut W) -> Result<Story, Bad>
    ensures told { IfOk result (λ s. IsTold (content_of trace.entry) s.steps s.replay.state s.last) }
    ensures limits { IfOk result (λ s. s.replay.limits ≡ trace.entry.limits) }
    ensures few { IfOk result (λ s. length s.last.goroutines.items < 2 ^ 16) }
    ensures wrong { IfErr result (λ bad. bad.why ≢ OutOfMemory → IsFirstBad (content_of trace.entry) bad) }
{
    let Ok(mut heard) = Heard::new(alloc, trace.limits, trace.bodies) else {
        return Err(NO_MEMORY);
    };
    let walked = walk(alloc, trace, &mut heard, watch)?;
    let Ok(last) = walked.replay.copied(alloc) else {
        return Err(NO_MEMORY);
    };
    Ok(Story {
        replay: walked.replay,
        last,
        steps: walked.steps,
        first: first_of(trace.beginning),
        heard,
    })
}
