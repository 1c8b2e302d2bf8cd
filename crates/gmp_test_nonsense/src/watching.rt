//! Which acts add an entry, by the table of a machine's program (docs/DESIGN.md), as far as it is seen from outside: a machine makes only
//! so many acts between two calls.

use crate::error::RunError;
use crate::limits::{MACHINES, PROCS};
use gmp_acts::Choice;
use gmp_base::MNo;
use gmp_core::{Core, Want};
use gmp_seq::{Call, Entry, Reply};

/// How many tickets are stored after a steal: half of a queue is stolen, 16 at most, and the first ticket is to claim.
const STORED: u8 = 15;

/// How many acts a machine makes at most between this entry of its own and its next call. Steals that lose their race aren't counted.
fn acts_before_call(entry: &Entry, is_fair: bool) -> u8 {
    match (&entry.call, entry.reply) {
        // A steal from each other queue, the last with a ticket to claim. Then for each ticket to store a steal and a push: a fair machine
        // has none.
        (Call::Spin, Reply::Answer(true)) if is_fair => PROCS - 1,
        (Call::Spin, Reply::Answer(true)) => PROCS - 1 + 2 * STORED,
        // A pop, where a queue is drained.
        (Call::Put(_), _) if is_fair => 1,
        (Call::Put(_), _) => 2 * (STORED - 1),
        // A look aside at a queue, or at the shelf, and then a pop.
        (Call::Keep, Reply::Answer(true)) if is_fair => 2,
        (Call::Take, Reply::Nothing) if is_fair => 1,
        // A steal from each queue.
        (Call::Declare | Call::Bare, _) => PROCS,
        // A reading of the clock.
        (Call::Park, Reply::Mind(_)) => 1,
        (Call::Spin | Call::Park | Call::Take | Call::Unspin | Call::Woken | Call::Tick(_), _) => 0,
        (Call::Acquire, Reply::Nothing) | (Call::Leave(_), Reply::Shelved(_)) => 0,
        // A pop or a reading of the clock, a body that asks, a push, or a blocking call.
        _ => 1,
    }
}

/// What is known of the machines of a run: whether they are fair, and how many acts each may still make before its next call.
#[derive(Drop)]
pub struct Watch {
    is_fair: bool,
    left: [u8; MACHINES],
}

impl Watch {
    /// Each machine's first act is a call.
    pub fn new(is_fair: bool) -> Self {
        Watch {
            is_fair,
            left: [0; MACHINES],
        }
    }

    /// Makes an act. While the run lasts it adds an entry where it may, and one where it must; afterwards nothing changes.
    pub fn act(&mut self, core: &mut Core<()>, m: MNo, choice: &Choice) -> Result<(), RunError> {
        let outcome = core.outcome();
        let wants = core.wants(m);
        let count = core.history().len();
        core.act(m, choice);
        let added = core.history().len().wrapping_sub(count);
        if outcome.is_some() {
            return if added == 0 && core.outcome() == outcome {
                Ok(())
            } else {
                Err(RunError::Late)
            };
        }
        match core.history().last() {
            Some(entry) if added == 1 => self.called(m, wants, &entry),
            _ if added == 0 => self.passed(m, wants, choice.unsure),
            _ => Err(RunError::OtherEntries(m.0)),
        }
    }

    /// The machine's act added this entry.
    fn called(&mut self, m: MNo, wants: Want, entry: &Entry) -> Result<(), RunError> {
        match self.left.get_mut(m.0 as usize) {
            Some(left) if entry.m == m && wants == Want::Nothing => {
                *left = acts_before_call(entry, self.is_fair);
                Ok(())
            }
            _ => Err(RunError::OtherEntries(m.0)),
        }
    }

    /// The machine's act added no entry. After an ask, a number or a moment the next act is a call.
    fn passed(&mut self, m: MNo, wants: Want, unsure: bool) -> Result<(), RunError> {
        match self.left.get_mut(m.0 as usize) {
            Some(0) => return Err(RunError::NoCall(m.0)),
            Some(left) if wants != Want::Nothing => *left = 0,
            Some(left) if !unsure => *left -= 1,
            _ => {}
        }
        Ok(())
    }
}
