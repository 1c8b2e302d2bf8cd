//! A replay of a history: one entry after another, each taken where it is a step. Nothing of the entries is kept, so a replay takes no
//! memory for them.
ghost use Rattle.std.specs.Prelude.{◌≡◌, ◌↔◌, None, IfErr, IfOk, IsTrue, OnErr, OnOk};
ghost use Rattle.gmp_seq.specs.Fits.{AreLimits};
ghost use Rattle.gmp_seq.specs.Needs.{Needs};
ghost use Rattle.gmp_seq.specs.Run.{IsStep};
ghost use Rattle.gmp_seq.specs.State.{State, opening};
ghost use Rattle.gmp_start.specs.Start.{state_of};
ghost use Rattle.gmp_check.specs.Calls.{IsMake};
ghost use Rattle.gmp_check.specs.Decides.{Decides, Leads};
ghost use Rattle.gmp_check.specs.Consistent.{IsConsistentUnder, MayBegin};
ghost use Rattle.gmp_check.specs.Missing.{Lacks};
ghost use Rattle.gmp_check.specs.Replayed.{EndsWith, IsOpenError, IsReplayError, IsStop};

use crate::error::{OpenError, OutOfMemory, ReplayError, Stop};
use crate::state::{Need, State};
use gmp_base::MNo;
use gmp_history::History;
use gmp_seq::{Call, Entry, Goroutine, Limits, Outcome};
use gmp_start::Start;
use gmp_trace::{Watch, Work, tell};
use std::alloc::Global;
use std::marker::Model;

/// The scheduler, one entry of a history after another. A contract sees the limits and the state.
///
/// An entry takes time at most in proportion to the goroutines (a select for each of its cases), machines and processors.
#[derive(Drop)]
pub struct Replay {
    limits: Limits,
    state: State,
}

impl Model for Replay {
    ghost use Rattle.gmp_check.specs.Consistent.{IsConsistentUnder};
    ghost use Rattle.gmp_check.specs.Replayed.{Replayed};

    ghost Value = { Replayed };

    ghost view = { λ r. record { limits = r.limits; state = r.state } };

    ghost invariant = { λ r. IsConsistentUnder r.limits r.state };
}

impl Replay {
    /// A run that begins, with so many bodies, and channels of these capacities. `BadLimits` exactly where a run may not have these.
    /// With others the numbers of a legal run might not fit their types, and a trace with them is none.
    pub fn open(
        alloc: Global,
        limits: Limits,
        bodies: u16,
        capacities: &[u32],
    ) -> Result<Self, OpenError>
        ensures opened { IfOk result (λ r. r ≡ record { limits = limits; state = opening limits bodies capacities.now }) }
        ensures within { IfOk result (λ r. AreLimits limits bodies capacities.now) }
        ensures why { IfErr result (IsOpenError limits bodies capacities.now) }
    {
        if !limits.allow(bodies as usize, capacities) {
            return Err(OpenError::BadLimits);
        }
        let state = State::open(alloc, limits, bodies, capacities)?;
        Ok(Replay { limits, state })
    }

    /// A run that goes on from a start.
    pub fn begin(alloc: Global, limits: Limits, start: &Start) -> Result<Self, OutOfMemory>
        requires { MayBegin limits (state_of start.now) }
        ensures { IfOk result (λ r. r ≡ record { limits = limits; state = state_of start.now }) }
    {
        let state = State::begin(alloc, start)?;
        Ok(Replay { limits, state })
    }

    /// The state as a start, but for its outcome.
    pub fn copied(&self, alloc: Global) -> Result<Start, OutOfMemory>
        ensures { IfOk result (λ s. state_of s ≡ record self.now.state { outcome = None }) }
    {
        Ok(self.state.copied(alloc)?)
    }

    /// Whether the entry is a step of the scheduler; where it is, the replay takes it.
    ///
    /// An entry whose `k` is not the number of its machine's earlier entries is no step, nor is any after an outcome. Memory is wanted
    /// only by a make that is a step.
    pub fn step(&mut self, entry: &Entry) -> Result<bool, OutOfMemory>
        ensures decides { IfOk result (Decides (IsStep self.old.limits entry.now) self.old.state self.new.state) }
        ensures limits { self.new.limits ≡ self.old.limits }
        ensures refused { OnErr result (self.new.state ≡ self.old.state) }
        ensures needed { OnErr result (IsMake entry.now.call × Leads (IsStep self.old.limits entry.now) self.old.state) }
        // The entry fixes the state that follows.
        ensures determined { (a b : State) → IsStep self.old.limits entry.now self.old.state a → IsStep self.old.limits entry.now self.old.state b → a ≡ b }
    {
        Ok(self.state.step(self.limits, entry)?)
    }

    /// Whether the entry is a step, which is tried on a copy of the state: who wants to know each reply that a call may have asks for one
    /// after another.
    pub fn allows(&self, alloc: Global, entry: &Entry) -> Result<bool, OutOfMemory>
        ensures { IfOk result (λ b. IsTrue b ↔ Leads (IsStep self.now.limits entry.now) self.now.state) }
    {
        let mut state = self.state.cloned(alloc)?;
        Ok(state.step(self.limits, entry)?)
    }

    /// What a call of m needs and doesn't have: the first of what is missing. While the run lasts a call has a reply exactly where nothing
    /// is.
    pub fn lacks(&self, m: MNo, call: &Call) -> Option<Need>
        ensures { Lacks m call.now self.now.state (Needs m call.now self.now.state) result }
    {
        self.state.lacks(m, call)
    }

    /// What each goroutine does, by its number.
    pub fn goroutines(&self) -> &[Goroutine]
        ensures { result.now ≡ self.now.state.table.goroutines }
    {
        self.state.goroutines()
    }

    /// How the run ended, if it did.
    pub fn outcome(&self) -> Option<Outcome>
        ensures value { result ≡ self.now.state.outcome }
        ensures consistent { IsConsistentUnder self.now.limits self.now.state }
    {
        self.state.outcome()
    }

    /// How the run ends with these entries, where each is a step. The watch is told at each 65,536th entry how many are.
    pub(crate) fn run<W: Watch>(
        mut self,
        entries: &History,
        watch: &mut W,
    ) -> Result<Option<Outcome>, Stop>
        ensures ends { IfOk result (EndsWith self.limits self.state entries.now.list) }
        ensures why { IfErr result (IsStop self.limits self.state entries.now.list) }
        ensures consistent { IsConsistentUnder self.limits self.state }
    {
        for (i, entry) in entries.iter().enumerate() {
            tell(watch, Work::Checking, i as u64);
            if !self.step(&entry)? {
                return Err(Stop::NoStep(i));
            }
        }
        Ok(self.outcome())
    }
}

/// The outcome of a whole history from the opening on, where each entry is a step.
pub fn outcome_of(
    alloc: Global,
    limits: Limits,
    bodies: u16,
    capacities: &[u32],
    entries: &History,
) -> Result<Option<Outcome>, ReplayError>
    ensures within { OnOk result (AreLimits limits bodies capacities.now) }
    ensures ends { IfOk result (EndsWith limits (opening limits bodies capacities.now) entries.now.list) }
    ensures why { IfErr result (IsReplayError limits bodies capacities.now entries.now.list) }
{
    let replay = Replay::open(alloc, limits, bodies, capacities)?;
    Ok(replay.run(entries, &mut ())?)
}
