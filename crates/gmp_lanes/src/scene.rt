//! All that is shown of a run, as a walk tells it.

ghost use Rattle.std.specs.Prelude.{◌≡◌, ◌≢◌, IfErr, OnOk, length};
ghost use Rattle.gmp_lanes.specs.Shown.{AreShown};
ghost use Rattle.gmp_trace.specs.Text.{content_of};
ghost use Rattle.gmp_trace.specs.declared.bad.Why.TheVariants.{OutOfMemory};
ghost use Rattle.gmp_check.specs.Checked.{IsFirstBad};

use crate::arrows::Arrows;
use crate::channels::Channels;
use crate::machines::shown_machines;
use crate::moments::Moments;
use crate::range::Range;
use crate::spans::Spans;
use gmp_seq::Goroutine;
use gmp_trace::{Bad, BeginningView, End, TraceView, Watch, Why};
use gmp_walk::{Deed, Listener, walk};
use gmp_words::By;
use std::alloc::{AllocError, Global};

/// What a walk told.
#[derive(Drop)]
pub struct Scene {
    /// What has a lane.
    pub by: By,
    /// Which entries are shown.
    range: Range,
    /// The entries that were told of.
    pub told: Range,
    /// Which machines have an entry that is shown.
    acted: [bool; 256],
    pub spans: Spans,
    pub arrows: Arrows,
    pub channels: Channels,
    pub moments: Moments,
}

/// What is done before the first entry.
fn begun(alloc: Global, trace: TraceView, by: By, range: Range) -> Result<Spans, AllocError> {
    let mut spans = Spans::new(alloc, range);
    match (by, trace.beginning) {
        (By::Machine, BeginningView::Opening(_)) => spans.open_machines(trace.limits.machines)?,
        (By::Machine, BeginningView::Start(start)) => {
            spans.open_machines(trace.limits.machines)?;
            spans.begin_machines(start);
        }
        (By::Goroutine, BeginningView::Opening(_)) => spans.open_main()?,
        (By::Goroutine, BeginningView::Start(start)) => spans.begin_goroutines(start)?,
    }
    Ok(spans)
}

impl Scene {
    /// What is known before the first entry.
    fn new(alloc: Global, trace: TraceView, by: By, range: Range) -> Result<Self, AllocError> {
        let mut channels = Channels::new(alloc, range);
        let mut clock = 0;
        match trace.beginning {
            BeginningView::Opening(capacities) => channels.open(capacities)?,
            BeginningView::Start(start) => {
                channels.begin(&start.channels)?;
                clock = start.clock;
            }
        }
        Ok(Scene {
            by,
            range,
            told: Range { from: 0, to: 0 },
            acted: [false; 256],
            spans: begun(alloc, trace, by, range)?,
            arrows: Arrows::new(alloc, range, by, trace.bodies)?,
            channels,
            moments: Moments::new(alloc, range, clock),
        })
    }

    /// The entries that are shown.
    pub fn entries(&self) -> Range {
        self.range.and(self.told)
    }

    /// Which machines or goroutines have a lane: of goroutines those that did something in the entries that are shown.
    pub fn shown(&self, alloc: Global, trace: TraceView) -> Result<Vec<bool>, AllocError> {
        match self.by {
            By::Machine => shown_machines(alloc, trace.limits.machines, &self.acted),
            By::Goroutine => {
                let mut shown = vec![in alloc; false; usize::from(trace.bodies)]?;
                for span in &self.spans.closed {
                    if let Some(is_shown) = shown.get_mut(usize::from(span.lane)) {
                        *is_shown = true;
                    }
                }
                Ok(shown)
            }
        }
    }

    /// Ends what is open behind the last entry. Who waits then waits for good where the run is over.
    fn finish(&mut self, end: End) -> Result<(), AllocError> {
        let is_over = matches!(end, End::MainEnded | End::AllAsleep);
        self.spans.finish(self.told.to, is_over)?;
        self.channels.finish(self.told.to)
    }

    /// Notes what the machine or each goroutine does after an entry.
    fn note(&mut self, deed: &Deed, rows: &[Goroutine]) -> Result<(), AllocError>
        ensures by { self.new.by ≡ self.old.by }
        ensures shown { self.new.by ≡ By.Goroutine → OnOk result (AreShown self.new.spans.current.items rows.now (length rows.now)) }
    {
        match self.by {
            By::Machine => self.spans.hear_machines(deed),
            By::Goroutine => self.spans.hear_goroutines(deed, rows),
        }
    }
}

impl Listener for Scene {
    ghost use Rattle.std.specs.Prelude.{◌≡◌, length};
    ghost use Rattle.gmp_words.specs.declared.options.By.TheVariants.{Goroutine as OfGoroutines};
    ghost use Rattle.gmp_lanes.specs.Shown.{AreShown};

    // Who has lanes stays; and where goroutines have, what stands open on each is what its goroutine does. Of the rest no clause says what it keeps.
    ghost hears = { λ before entry rows after. (after.by ≡ before.by) × (after.by ≡ OfGoroutines → AreShown after.spans.current.items rows (length rows)) };

    fn hear(&mut self, deed: &Deed, rows: &[Goroutine]) -> Result<(), AllocError> {
        if self.told.is_empty() {
            self.told.from = deed.number;
        }
        self.told.to = deed.number.saturating_add(1);
        if self.range.contains(deed.number) {
            self.acted[usize::from(deed.entry.m.0)] = true;
        }
        self.arrows.hear(deed)?;
        self.channels.hear(deed)?;
        self.moments.hear(deed)?;
        self.note(deed, rows)
    }
}

/// What is shown of these entries of a trace, with a lane for each machine or goroutine. The caller has checked the trace: at an entry that
/// is no step it ends.
///
/// An error is that of a trace at whose beginning no run may begin, or of memory.
pub fn scene_of<W: Watch>(
    alloc: Global,
    trace: TraceView,
    by: By,
    range: Range,
    watch: &mut W,
) -> Result<Scene, Bad>
    ensures wrong { IfErr result (λ bad. bad.why ≢ OutOfMemory → IsFirstBad (content_of trace.entry) bad) }
{
    let no_memory = Bad {
        line: 0,
        why: Why::OutOfMemory,
    };
    let Ok(mut scene) = Scene::new(alloc, trace, by, range) else {
        return Err(no_memory);
    };
    walk(alloc, trace, &mut scene, watch)?;
    match scene.finish(trace.end) {
        Ok(()) => Ok(scene),
        Err(_) => Err(no_memory),
    }
}
