//! A run that is written in parts as it goes on.
ghost use Rattle.std.specs.Prelude.{◌≡◌, ◌≢◌, [], All, IfErr, IfOk, IfSome, OnOk};
ghost use Rattle.std.specs.Io.KnownBytes.{Appends};
ghost use Rattle.gmp_seq.specs.Fits.{AreLimits, Fits};
ghost use Rattle.gmp_seq.specs.Run.{Run};
ghost use Rattle.gmp_seq.specs.State.{opening};
ghost use Rattle.gmp_start.specs.Start.{state_of};
ghost use Rattle.gmp_trace.specs.declared.trace.End.TheVariants.{Running};
ghost use Rattle.gmp_trace.specs.Text.{IsCounted, begins_of, content_of, end_of, text};
ghost use Rattle.gmp_trace.specs.Text.Begins.{AtState};
ghost use Rattle.gmp_check.specs.Consistent.{IsConsistentUnder};
ghost use Rattle.gmp_check.specs.Replayed.{IsOpenError};
ghost use Rattle.gmp_parts.specs.declared.error.PartError.TheVariants.{Device, NoStep};
ghost use Rattle.gmp_parts.specs.Writing.{GoesOn, LeadsOn, WritesPart};

use crate::error::PartError;
use crate::outlet::Outlet;
use gmp_check::{OpenError, Replay};
use gmp_history::History;
use gmp_seq::{Entry, Limits, Outcome};
use gmp_start::Start;
use gmp_trace::{BeginningView, End, TraceView, write_view};
use std::alloc::Global;
use std::marker::Model;
use std::mem;

/// Writes a run in parts, piece by piece of its history.
///
/// A piece takes the time of its replay and of its text. Memory is taken for the state once more, for 64 KiB of text, and for the text of the
/// state.
#[derive(Drop)]
pub struct PartWriter<W> {
    alloc: Global,
    limits: Limits,
    bodies: u16,
    /// It has taken all entries that were written, and more only where the last piece failed.
    replay: Replay,
    /// The state before the next part, but for its outcome.
    start: Start,
    outcome: Option<Outcome>,
    entries: u64,
    parts: u64,
    failed: Option<PartError>,
    out: W,
}

impl<W> Model for PartWriter<W> {
    ghost use Rattle.gmp_start.specs.Start.{state_of};
    ghost use Rattle.gmp_parts.specs.Writing.{IsHeld, Writing};

    ghost Value = { Writing W };

    ghost view = { λ w. record { limits = w.limits; bodies = w.bodies; state = record (state_of w.start) { outcome = w.outcome }; entries = w.entries; parts = w.parts; failed = w.failed; out = w.out } };

    // While nothing failed the replay is in the state behind what was written.
    ghost invariant = { λ w. IsHeld w.limits w.bodies w.entries w.parts w.failed (record (state_of w.start) { outcome = w.outcome }) w.replay };
}

/// Takes the entries, each of which has to be a step, and there has to be one.
fn take_all(replay: &mut Replay, history: &History) -> Result<(), PartError>
    requires { IsConsistentUnder replay.old.limits replay.old.state }
    ensures some { OnOk result (history.now.list ≢ []) }
    ensures run { OnOk result (Run replay.old.limits replay.old.state history.now.list replay.new.state) }
    ensures fits { OnOk result (All Fits history.now.list) }
    ensures limits { replay.new.limits ≡ replay.old.limits }
    ensures no_step { IfErr result (λ e. e ≡ NoStep → LeadsOn replay.old.limits replay.old.state history.now.list → ⊥) }
    ensures kinds { IfErr result (λ e. e ≢ Device) }
{
    if history.is_empty() {
        return Err(PartError::NoStep);
    }
    for entry in history.iter() {
        // Handed over anew, its numbers are known to be within their types.
        let Entry { m, k, call, reply } = entry;
        let entry = Entry::new(m, k, call, reply);
        if !replay.step(&entry)? {
            return Err(PartError::NoStep);
        }
    }
    Ok(())
}

/// The part with these entries, before its end is known.
fn unended<'a>(limits: Limits, bodies: u16, start: &'a Start, entries: &'a History) -> TraceView<'a>
    ensures { content_of result ≡ record { limits = limits; bodies = bodies; begins = AtState (state_of start.now); entries = entries.now.list; end = Running } }
{
    TraceView {
        limits,
        bodies,
        beginning: BeginningView::Start(start),
        entries,
        end: End::Running,
    }
}

/// Takes the entries of the part, which goes on from the replay's state, and writes it with the end that they lead to, whatever end it has.
/// The result is the state behind it. Memory for that is taken before anything is written.
fn write_next<W: Outlet>(
    alloc: Global,
    replay: &mut Replay,
    part: TraceView,
    number: u64,
    out: &mut W,
) -> Result<Start, PartError>
    requires counted { IsCounted (begins_of part.beginning) }
    requires consistent { IsConsistentUnder replay.old.limits replay.old.state }
    ensures some { OnOk result (part.entry.entries.now.list ≢ []) }
    ensures run { OnOk result (Run replay.old.limits replay.old.state part.entry.entries.now.list replay.new.state) }
    ensures fits { OnOk result (All Fits part.entry.entries.now.list) }
    ensures limits { replay.new.limits ≡ replay.old.limits }
    ensures next { IfOk result (λ s. state_of s ≡ record replay.new.state { outcome = None }) }
    ensures appended { OnOk result (Appends (W.contents out.old) (W.contents out.new) (text (record (content_of part.entry) { end = end_of replay.new.state.outcome }))) }
    ensures no_step { IfErr result (λ e. e ≡ NoStep → LeadsOn replay.old.limits replay.old.state part.entry.entries.now.list → ⊥) }
    // Nothing is sent before all entries are found to be steps.
    ensures unsent { (LeadsOn replay.old.limits replay.old.state part.entry.entries.now.list → ⊥) → out.new ≡ out.old }
    ensures device { IfErr result (λ e. e ≡ Device → LeadsOn replay.old.limits replay.old.state part.entry.entries.now.list) }
{
    take_all(replay, part.entries)?;
    let next = replay.copied(alloc)?;
    let end = End::of(replay.outcome());
    out.begin(number)?;
    write_view(alloc, TraceView { end, ..part }, out)?;
    Ok(next)
}

impl<W: Outlet> PartWriter<W> {
    /// A run that begins, with so many bodies, and channels of these capacities. `BadLimits` exactly where a run may not have these. Nothing
    /// is written yet.
    pub fn open(
        alloc: Global,
        limits: Limits,
        bodies: u16,
        capacities: &[u32],
        out: W,
    ) -> Result<Self, OpenError>
    where
        W: Drop,
        ensures opened { IfOk result (λ w. w ≡ record { limits = limits; bodies = bodies; state = opening limits bodies capacities.now; entries = 0; parts = 0; failed = None; out = out }) }
        ensures within { OnOk result (AreLimits limits bodies capacities.now) }
        ensures why { IfErr result (IsOpenError limits bodies capacities.now) }
    {
        let replay = Replay::open(alloc, limits, bodies, capacities)?;
        let start = Start::opening(alloc, limits, bodies, capacities)?;
        Ok(PartWriter {
            alloc,
            limits,
            bodies,
            replay,
            start,
            outcome: None,
            entries: 0,
            parts: 0,
            failed: None,
            out,
        })
    }

    /// Writes these entries as the next part, once all are found to be steps.
    ///
    /// `Device` comes only where the outlet failed, and `OutOfMemory` only where memory was refused. Once it has failed it fails so each
    /// time: what went out of the part that failed is no whole part, so none may follow.
    ///
    /// That the outlet is told first that the part begins, no clause says.
    pub fn write(&mut self, history: &History) -> Result<(), PartError>
        ensures written { OnOk result (WritesPart W.contents self.old history.now.list self.new) }
        ensures no_step { IfErr result (λ e. e ≡ NoStep → self.old.failed ≡ None → GoesOn self.old history.now.list → ⊥) }
        ensures goes_on { OnOk result (GoesOn self.old history.now.list) }
        ensures unsent { (GoesOn self.old history.now.list → ⊥) → self.new.out ≡ self.old.out }
        ensures device { IfErr result (λ e. e ≡ Device → self.old.failed ≡ None → GoesOn self.old history.now.list) }
        // Of what is known of the run nothing changes.
        ensures failed { IfErr result (λ e. self.new ≡ record self.old { failed = Some e; out = self.new.out }) }
        ensures again { IfSome self.old.failed (λ e. (result ≡ Err e) × (self.new ≡ self.old)) }
    {
        if let Some(error) = self.failed {
            return Err(error);
        }
        let number = self.parts + 1;
        let part = unended(self.limits, self.bodies, &self.start, history);
        match write_next(self.alloc, &mut self.replay, part, number, &mut self.out) {
            Ok(next) => {
                self.start = next;
                self.outcome = self.replay.outcome();
                self.entries += history.len() as u64;
                self.parts = number;
                Ok(())
            }
            Err(error) => {
                self.failed = Some(error);
                Err(error)
            }
        }
    }

    /// How the run ends, as far as it was written.
    pub fn end(&self) -> End
        ensures { result ≡ end_of self.now.state.outcome }
    {
        End::of(self.outcome)
    }

    /// How many entries were written.
    pub fn entries(&self) -> u64
        ensures { result ≡ self.now.entries }
    {
        self.entries
    }

    /// How many parts were written.
    pub fn parts(&self) -> u64
        ensures { result ≡ self.now.parts }
    {
        self.parts
    }

    /// Why a part was not written, if one was not.
    pub fn failed(&self) -> Option<PartError>
        ensures { result ≡ self.now.failed }
    {
        self.failed
    }

    /// Where the parts go.
    pub fn out(&self) -> &W
        ensures { result.now ≡ self.now.out }
    {
        &self.out
    }

    /// Lets the parts go elsewhere from now on, and gives back where they went.
    pub fn redirect(&mut self, out: W) -> W
        ensures back { result ≡ self.old.out }
        ensures new { self.new ≡ record self.old { out = out } }
    {
        mem::replace(&mut self.out, out)
    }

    /// Where the parts went.
    pub fn into_inner(self) -> W
        ensures { result ≡ self.out }
    {
        let PartWriter { out, .. } = self;
        out
    }
}
