//! The state of the scheduler: table, channels, machines, counts and outcome, and the step from one to the next. `state/effect` has each
//! call, `channel_calls` and `transfers` those on channels, `needs` what a call needs.
ghost use Rattle.std.specs.Prelude.{◌≡◌, ◌<◌, ◌^◌, length, slice_get, sum, IfOk, OnErr};
ghost use Rattle.gmp_seq.specs.Run.{IsStep};
ghost use Rattle.gmp_seq.specs.State.{opening};
ghost use Rattle.gmp_seq.specs.Waits.{can, first_on, waiters};
ghost use Rattle.gmp_seq.specs.Step.{counted_one, outcome_after, some_can};
ghost use Rattle.gmp_start.specs.Start.{state_of};
ghost use Rattle.gmp_check.specs.Calls.{IsMake};
ghost use Rattle.gmp_check.specs.Decides.{Decides, Leads};
ghost use Rattle.gmp_check.specs.Consistent.{IsConsistent, IsConsistentUnder};

mod channel_calls;
mod effect;
mod needs;
mod transfers;

use crate::channels::Channels;
use crate::machines::Machines;
use crate::table::Table;
use gmp_base::{CNo, Case, MNo};
use gmp_seq::{Direction, Entry, Goroutine, Limits, Outcome, Reply, Waiter};
use gmp_start::{Start, copied_rows};
pub use needs::Need;
use std::alloc::{AllocError, Global};
use std::marker::Model;

/// A contract sees the state as `gmp_seq` has it.
#[derive(Drop)]
pub(crate) struct State {
    table: Table,
    channels: Channels,
    machines: Machines,
    counts: Vec<u64>,
    outcome: Option<Outcome>,
}

impl Model for State {
    ghost use Rattle.gmp_seq.specs.State.{State as StateValue};

    ghost Value = { StateValue };

    ghost view = { λ s. record { table = s.table; channels = s.channels; machines = s.machines; counts = s.counts.items; outcome = s.outcome } };
}

/// How the run ended, once the machines made so many entries, and the last was answered so.
fn outcome_after(limits: Limits, reply: Reply, counts: &[u64]) -> Option<Outcome>
    requires { sum counts.now < 2 ^ 64 }
    ensures { result ≡ outcome_after limits reply counts.now }
{
    let made: u64 = counts.iter().sum();
    match reply {
        Reply::MainEnded => Some(Outcome::MainEnded),
        Reply::AllAsleep => Some(Outcome::AllAsleep),
        _ if made >= limits.entries => Some(Outcome::BookFull),
        _ => None,
    }
}

impl State {
    /// The state of a run that begins.
    pub(crate) fn open(
        alloc: Global,
        limits: Limits,
        bodies: u16,
        capacities: &[u32],
    ) -> Result<Self, AllocError>
        requires { 0 < bodies }
        ensures { IfOk result (λ s. s ≡ opening limits bodies capacities.now) }
    {
        Ok(State {
            table: Table::open(alloc, bodies)?,
            channels: Channels::open(alloc, capacities)?,
            machines: Machines::opening(alloc, limits.procs, limits.machines)?,
            counts: vec![in alloc; 0; limits.machines as usize]?,
            outcome: None,
        })
    }

    /// The state of a start.
    pub(crate) fn begin(alloc: Global, start: &Start) -> Result<Self, AllocError>
        requires few { length start.now.goroutines.items < 2 ^ 16 }
        requires marked { length start.now.marked.items ≡ length start.now.modes.items }
        requires consistent { IsConsistent (state_of start.now) }
        ensures { IfOk result (λ s. s ≡ state_of start.now) }
    {
        Ok(State {
            table: Table::begin(alloc, start)?,
            channels: Channels::begin(alloc, &start.channels)?,
            machines: Machines::begin(alloc, start)?,
            counts: start.counts.to_vec(alloc)?,
            outcome: None,
        })
    }

    /// The same state as a start, but for its outcome.
    pub(crate) fn copied(&self, alloc: Global) -> Result<Start, AllocError>
        ensures { IfOk result (λ s. state_of s ≡ record self.now { outcome = None }) }
    {
        Ok(Start {
            counts: self.counts.to_vec(alloc)?,
            clock: self.table.clock(),
            arrivals: self.table.arrivals(),
            holders: self.machines.holders().to_vec(alloc)?,
            modes: self.machines.modes().to_vec(alloc)?,
            spinning: self.machines.spinning().to_vec(alloc)?,
            marked: self.machines.marked().to_vec(alloc)?,
            active: self.machines.active(),
            channels: self.channels.copied(alloc)?,
            goroutines: copied_rows(alloc, self.table.rows())?,
        })
    }

    /// The same state once more.
    pub(crate) fn cloned(&self, alloc: Global) -> Result<Self, AllocError>
        ensures { IfOk result (λ s. s ≡ self.now) }
    {
        Ok(State {
            table: self.table.cloned(alloc)?,
            channels: self.channels.cloned(alloc)?,
            machines: self.machines.cloned(alloc)?,
            counts: self.counts.to_vec(alloc)?,
            outcome: self.outcome,
        })
    }

    pub(crate) fn goroutines(&self) -> &[Goroutine]
        ensures { result.now ≡ self.now.table.goroutines }
    {
        self.table.rows()
    }

    pub(crate) fn outcome(&self) -> Option<Outcome>
        ensures { result ≡ self.now.outcome }
    {
        self.outcome
    }

    /// How many entries m made.
    fn count(&self, m: MNo) -> Option<u64>
        ensures { result ≡ slice_get self.now.counts m.0 }
    {
        self.counts.get(m.0 as usize).copied()
    }

    /// m made one entry more, which was answered so.
    fn count_one(&mut self, limits: Limits, m: MNo, reply: Reply)
        requires counted { m.0 < length self.old.counts }
        requires few { sum self.old.counts < 2 ^ 63 }
        ensures { self.new ≡ counted_one limits m reply self.old }
    {
        self.counts[m.0 as usize] += 1;
        self.outcome = outcome_after(limits, reply, &self.counts);
    }

    /// Where the entry is a step, the state is the next one.
    pub(crate) fn step(&mut self, limits: Limits, entry: &Entry) -> Result<bool, AllocError>
        requires { IsConsistentUnder limits self.old }
        ensures decides { IfOk result (Decides (IsStep limits entry.now) self.old self.new) }
        ensures refused { OnErr result (self.new ≡ self.old) }
        ensures needed { OnErr result (IsMake entry.now.call × Leads (IsStep limits entry.now) self.old) }
    {
        if self.outcome.is_some() || self.count(entry.m) != Some(entry.k) {
            return Ok(false);
        }
        if !self.effect(limits, entry.m, &entry.call, entry.reply)? {
            return Ok(false);
        }
        self.count_one(limits, entry.m, entry.reply);
        Ok(true)
    }

    /// The first that waits on the channel.
    fn first_on(&self, c: CNo, direction: Direction) -> Option<Waiter>
        requires { IsConsistent self.now }
        ensures { result ≡ first_on (waiters self.now.table) c direction }
    {
        self.table.first_on(c, direction)
    }

    /// Whether a communication can proceed.
    fn can(&self, case: Case) -> bool
        requires { IsConsistent self.now }
        ensures { result ≡ can self.now.channels (waiters self.now.table) case }
    {
        match case {
            Case::Send(Some(c), _) => {
                self.channels.is_closed(c)
                    || self.channels.has_room(c)
                    || self.first_on(c, Direction::Receiving).is_some()
            }
            Case::Recv(Some(c)) => {
                self.channels.first(c).is_some()
                    || self.first_on(c, Direction::Sending).is_some()
                    || self.channels.is_closed(c)
            }
            Case::Send(None, _) | Case::Recv(None) => false,
        }
    }

    /// Whether one of these communications can proceed.
    fn some_can(&self, cases: &[Case]) -> bool
        requires { IsConsistent self.now }
        ensures { result ≡ some_can self.now cases.now }
    {
        cases.iter().any(|case| self.can(*case))
    }
}
