//! A run of the scheduler whose calls are made one by one, each by any machine. A journal keeps it; beside it stands what the machines have.

ghost use Rattle.std.specs.Prelude.{◌≡◌, IfOk, OnOk, true};
ghost use Rattle.gmp_journal.specs.Grants.{Suits};
ghost use Rattle.gmp_journal.specs.Segments.{IsPart};
ghost use Rattle.gmp_seq.specs.Fits.{AreLimits};
ghost use Rattle.gmp_explore_cli.specs.Played.{EndInFault, HasComeTo, IsOpened, Keeps};

use crate::unplayed::{ASTRAY, Unplayed};
use gmp_base::{GNo, MNo, PNo, Pass, Refusal, Woke};
use gmp_history::History;
use gmp_journal::{Handed, Journal, memory_for};
use gmp_seq::{Call, Limits, Outcome, Reply};
use gmp_words::{Untraced, Verdict};
use std::alloc::Global;

/// The number of the run: there is one.
const RUN: u64 = 0;

/// What a machine has.
#[derive(Clone, Copy)]
struct Machine {
    /// How many calls it made.
    calls: u64,
    /// The processor that it holds.
    proc: Option<PNo>,
}

/// A run with its machines.
#[derive(Drop)]
pub(crate) struct Stage {
    alloc: Global,
    journal: Journal,
    machines: Vec<Machine>,
    /// How many machines there are.
    count: u8,
}

/// What a call is handed, of a machine that runs this goroutine, or makes its blocking call, and that holds this processor.
fn handed(call: &Call, g: GNo, p: PNo) -> Handed
    ensures { Suits call.now result }
{
    let (goroutine, processor) = (Some((RUN, g)), Some((RUN, p)));
    let nothing = Handed {
        ticket: None,
        held: None,
        called: None,
        proc: None,
    };
    match call {
        Call::Put(r) | Call::Claim(r) => Handed {
            ticket: Some((RUN, *r)),
            ..nothing
        },
        Call::Enter => Handed {
            held: goroutine,
            proc: processor,
            ..nothing
        },
        Call::Leave(_) => Handed {
            called: goroutine,
            ..nothing
        },
        Call::Declare => Handed {
            proc: processor,
            ..nothing
        },
        Call::Acquire
        | Call::Take
        | Call::Spin
        | Call::Woken
        | Call::Keep
        | Call::Unspin
        | Call::Poke
        | Call::Bare
        | Call::Park
        | Call::Tick(_) => nothing,
        _ => Handed {
            held: goroutine,
            ..nothing
        },
    }
}

/// The processor that a machine holds behind this reply.
fn held_behind(reply: Reply, before: Option<PNo>) -> Option<PNo> {
    match reply {
        Reply::Proc(p) | Reply::Runs(p) => Some(p),
        Reply::Idle(_) | Reply::Entered(_, _) => None,
        _ => before,
    }
}

impl Stage {
    /// A run that has made no call.
    pub(crate) fn open(
        alloc: Global,
        limits: Limits,
        bodies: usize,
        capacities: &[u32],
    ) -> Result<Self, Unplayed>
        ensures opened { IfOk result (λ s. IsOpened limits bodies capacities.now s.journal) }
        ensures within { OnOk result (AreLimits limits bodies capacities.now) }
    {
        if !limits.allow(bodies, capacities) {
            return Err(ASTRAY);
        }
        let machine = Machine {
            calls: 0,
            proc: None,
        };
        let machines = vec![in alloc; machine; usize::from(limits.machines)]?;
        let journal = Journal::open(alloc, RUN, limits, bodies as u16, capacities.to_vec(alloc)?)?;
        Ok(Stage {
            alloc,
            journal,
            machines,
            count: limits.machines,
        })
    }

    /// How many machines there are.
    pub(crate) fn machines(&self) -> u8 {
        self.count
    }

    /// Whether the machine holds a processor.
    pub(crate) fn holds(&self, m: MNo) -> bool {
        match self.machines.get(usize::from(m.0)) {
            Some(machine) => machine.proc.is_some(),
            None => false,
        }
    }

    /// The machine makes the call, where that is one of a goroutine for this one. A word chooses among the cases of a select.
    pub(crate) fn call(&mut self, m: MNo, g: GNo, call: &Call, word: u64) -> Result<Reply, Unplayed>
        ensures { Keeps self.old.journal self.new.journal }
    {
        let Some(machine) = self.machines.get_mut(usize::from(m.0)) else {
            return Err(ASTRAY);
        };
        let memory = memory_for(call, self.alloc);
        let values = handed(call, g, machine.proc.unwrap_or(PNo(0)));
        let mut pass = Pass::of(RUN, m, machine.calls, 0);
        let mut reply = Reply::Done;
        let made = self
            .journal
            .call(memory, &mut pass, call, &values, word, false, &mut reply);
        let (_, _, calls, _) = pass.open();
        machine.calls = calls;
        match made {
            Ok(()) => {
                machine.proc = held_behind(reply, machine.proc);
                Ok(reply)
            }
            Err(Refusal::OutOfMemory) => Err(Unplayed::OutOfMemory),
            Err(Refusal::Over) if self.outcome() == Some(Outcome::BookFull) => {
                Err(Unplayed::Untraced(Untraced::TooLong))
            }
            Err(_) => Err(ASTRAY),
        }
    }

    /// Every call so far.
    pub(crate) fn history(&self) -> &History
        ensures entries { result.now.list ≡ self.now.journal.history }
        ensures part { IsPart self.now.journal }
    {
        self.journal.history()
    }

    /// How the run ended, if it did.
    pub(crate) fn outcome(&self) -> Option<Outcome>
        ensures { result ≡ self.now.journal.state.outcome }
    {
        self.journal.outcome()
    }

    /// Whether the last call told a fault.
    fn ends_in_fault(&self) -> bool
        ensures { result ≡ true → EndInFault self.now.journal.history }
    {
        match self.journal.history().last() {
            Some(last) => matches!(last.reply.woke(), Woke::Fault(_)),
            None => false,
        }
    }

    /// Whether the run has come to what was found.
    pub(crate) fn shows(&self, found: Verdict) -> bool
        ensures { result ≡ true → HasComeTo found self.now.journal.history self.now.journal.state }
    {
        match found {
            Verdict::Deadlock => self.outcome() == Some(Outcome::AllAsleep),
            Verdict::Fault => self.ends_in_fault(),
            Verdict::Leak => self.outcome() == Some(Outcome::MainEnded),
            Verdict::Stranded => self.outcome() == None,
            Verdict::Safe | Verdict::Unknown => false,
        }
    }
}
