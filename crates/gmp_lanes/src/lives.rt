//! What each goroutine does from its start to its end, as a walk tells it.

ghost use Rattle.std.specs.Prelude.{◌≡◌, ◌≤◌, ◌<◌, ◌^◌, ℕ, None, true, OnOk, get_or, length};
ghost use Rattle.gmp_lanes.specs.Shown.{AreShown, shows};

use crate::spans::{Doing, Reason, Span, Spans, is_asked};
use gmp_base::GNo;
use gmp_seq::{Goroutine, Status};
use gmp_start::Start;
use gmp_walk::{Deed, goroutine_at};
use std::alloc::AllocError;

/// Whether what stands there is of this goroutine's lane, and what it does.
fn shows(g: usize, shown: &Option<Span>, status: &Status) -> bool
    ensures { result ≡ shows g shown.now status.now }
{
    let Some(span) = shown else {
        return matches!(status, Status::Dormant | Status::Dead);
    };
    if usize::from(span.lane) != g {
        return false;
    }
    match (span.doing, status) {
        (Doing::Ready, Status::Ready(_, _)) => true,
        (Doing::Runs(h, m), Status::Running(n)) => usize::from(h.0) == g && m.0 == n.0,
        (Doing::Calls(h, m), Status::Calling(n)) => usize::from(h.0) == g && m.0 == n.0,
        (Doing::Waits(_), Status::Waiting(_)) => true,
        _ => false,
    }
}

/// The span that the goroutine begins before an entry, if it is neither before its start nor behind its end.
fn begun(g: GNo, status: &Status, from: u64, opening: Option<u64>) -> Option<Span>
    ensures { shows g.0 result status.now ≡ true }
{
    let doing = match status {
        Status::Dormant | Status::Dead => return None,
        Status::Ready(_, _) => Doing::Ready,
        Status::Running(m) => Doing::Runs(g, *m),
        Status::Calling(m) => Doing::Calls(g, *m),
        Status::Waiting(wait) => Doing::Waits(Reason::of(wait)),
    };
    Some(Span::new(g.0, doing, from, opening))
}

/// The first entry of what comes behind a span. The entry of who runs is the last of what it did, but for one that begins or ends a
/// blocking call.
fn first_behind(shown: &Option<Span>, status: &Status, number: u64) -> u64 {
    let runs = match shown {
        Some(span) => matches!(span.doing, Doing::Runs(_, _) | Doing::Calls(_, _)),
        None => false,
    };
    match status {
        Status::Running(_) | Status::Calling(_) => number,
        _ if runs => number.saturating_add(1),
        _ => number,
    }
}

impl Spans {
    /// Main is ready.
    pub fn open_main(&mut self) -> Result<(), AllocError> {
        self.current
            .push(Some(Span::new(0, Doing::Ready, 0, None)))?;
        Ok(())
    }

    /// What the goroutines do before the first entry.
    pub fn begin_goroutines(&mut self, start: &Start) -> Result<(), AllocError> {
        for (g, row) in start.goroutines.iter().enumerate() {
            self.current
                .push(begun(goroutine_at(g), &row.status, 0, None))?;
        }
        Ok(())
    }

    /// Notes what goroutines do after an entry: these rows say it.
    pub fn hear_goroutines(&mut self, deed: &Deed, rows: &[Goroutine]) -> Result<(), AllocError>
        ensures { OnOk result (AreShown self.new.current.items rows.now (length rows.now)) }
    {
        if let Some(g) = deed.g {
            if is_asked(&deed.entry.call) {
                self.ask(g.0, deed.number);
            }
        }
        for g in 0..rows.len() {
            self.reach(g)?;
            self.note(g, &rows[g], deed.number)?;
        }
        Ok(())
    }

    /// Has a lane for the goroutine, where those below it have one.
    fn reach(&mut self, g: usize) -> Result<(), AllocError>
        requires { g ≤ length self.old.current.items }
        ensures others { OnOk result ((h : ℕ) → h < g → get_or self.new.current.items h None ≡ get_or self.old.current.items h None) }
        ensures longer { OnOk result (g < length self.new.current.items) }
    {
        if g == self.current.len() {
            self.current.push(None)?;
        }
        Ok(())
    }

    /// Notes what a goroutine does after an entry.
    fn note(&mut self, g: usize, row: &Goroutine, number: u64) -> Result<(), AllocError>
        requires { g < length self.old.current.items }
        ensures now { OnOk result (g < 2 ^ 16 → shows g (get_or self.new.current.items g None) row.now.status ≡ true) }
        ensures others { OnOk result ((h : ℕ) → h < g → get_or self.new.current.items h None ≡ get_or self.old.current.items h None) }
        ensures length { OnOk result (length self.new.current.items ≡ length self.old.current.items) }
    {
        let shown = self.current[g];
        if shows(g, &shown, &row.status) {
            return Ok(());
        }
        let from = first_behind(&shown, &row.status, number);
        self.keep(shown, from)?;
        self.current[g] = begun(goroutine_at(g), &row.status, from, Some(number));
        Ok(())
    }
}
