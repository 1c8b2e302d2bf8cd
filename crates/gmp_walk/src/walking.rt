//! The walk: the entries one after another, and the place where the first is that is no step.
ghost use Rattle.std.specs.Prelude.{◌≡◌, IfErr, IfOk, take};
ghost use Rattle.gmp_trace.specs.Text.{content_of};
ghost use Rattle.gmp_check.specs.Checked.{IsFirstBad, start_of};
ghost use Rattle.gmp_walk.specs.Led.{IsLed, IsWalked, RunsHeard};

use crate::deed::Listener;
use crate::post::Posts;
use gmp_check::{OutOfMemory, Replay, begun};
use gmp_history::History;
use gmp_trace::{Bad, BeginningView, TraceView, Watch, Why, Work, tell};
use std::alloc::Global;

/// How far a walk came.
#[derive(Drop)]
pub struct Walked {
    /// The scheduler after the entries that are steps.
    pub replay: Replay,
    /// How many those are.
    pub steps: usize,
}

/// Memory was refused.
const NO_MEMORY: Bad = Bad {
    line: 0,
    why: Why::OutOfMemory,
};

/// Tells of the entries up to the first that is no step. They are numbered from `first` on.
fn follow<L: Listener, W: Watch>(
    mut replay: Replay,
    mut posts: Posts,
    first: u64,
    entries: &History,
    listener: &mut L,
    watch: &mut W,
) -> Result<Walked, OutOfMemory>
    ensures limits { IfOk result (λ w. w.replay.limits ≡ replay.limits) }
    ensures led { IfOk result (λ w. IsLed replay.limits replay.state entries.now.list w.steps w.replay.state) }
    ensures heard { IfOk result (λ w. RunsHeard L.hears replay.limits replay.state (take w.steps entries.now.list) w.replay.state listener.old listener.new) }
{
    for (i, entry) in entries.iter().enumerate() {
        tell(watch, Work::Checking, i as u64);
        if !replay.step(&entry)? {
            return Ok(Walked { replay, steps: i });
        }
        let rows = replay.goroutines();
        let deed = posts.deed(first.wrapping_add(i as u64), &entry, rows)?;
        listener.hear(&deed, rows)?;
    }
    Ok(Walked {
        replay,
        steps: entries.len(),
    })
}

/// The number of a trace's first entry.
pub fn first_number(beginning: BeginningView) -> u64 {
    match beginning {
        BeginningView::Opening(_) => 0,
        BeginningView::Start(start) => start
            .counts
            .iter()
            .fold(0, |sum: u64, n| sum.wrapping_add(*n)),
    }
}

/// Who is where before the first entry.
fn posted(alloc: Global, replay: &Replay, beginning: BeginningView) -> Result<Posts, OutOfMemory> {
    let mut posts = Posts::new(alloc, replay.goroutines())?;
    if let BeginningView::Start(start) = beginning {
        posts.begin(start);
    }
    Ok(posts)
}

/// Tells a listener of each entry of a trace, up to the first that is no step.
///
/// The watch is told at each 65,536th entry how many are steps. An error is that of a trace at whose beginning no run may begin, or of
/// memory; the end line is not looked at.
pub fn walk<L: Listener, W: Watch>(
    alloc: Global,
    trace: TraceView,
    listener: &mut L,
    watch: &mut W,
) -> Result<Walked, Bad>
    ensures walked { IfOk result (λ w. IsWalked (content_of trace.entry) w.steps w.replay.state) }
    // The listener hears of each of these entries once, in order, and of nothing else.
    ensures heard { IfOk result (λ w. RunsHeard L.hears trace.entry.limits (start_of (content_of trace.entry)) (take w.steps trace.entry.entries.now.list) w.replay.state listener.old listener.new) }
    ensures limits { IfOk result (λ w. w.replay.limits ≡ trace.entry.limits) }
    ensures wrong { IfErr result (IsFirstBad (content_of trace.entry)) }
{
    if !trace.limits.allow(trace.bodies as usize, &[]) {
        return Err(Bad {
            line: 2,
            why: Why::Limits,
        });
    }
    let replay = begun(alloc, trace.limits, trace.bodies, trace.beginning)?;
    let Ok(posts) = posted(alloc, &replay, trace.beginning) else {
        return Err(NO_MEMORY);
    };
    let first = first_number(trace.beginning);
    match follow(replay, posts, first, trace.entries, listener, watch) {
        Ok(walked) => Ok(walked),
        Err(OutOfMemory) => Err(NO_MEMORY),
    }
}
