//! Whether machines made the calls of a history: a `PassLog` is what a machine says of itself, a `Tally` what is counted of it, a
//! `Mismatch` where they disagree.
ghost use Rattle.std.specs.Prelude.{◌≡◌, ◌↔◌, ◌⊎◌, ℕ, ◌+◌, ◌<◌, ◌^◌, IsTrue, OnOk, IfErr, length, slice_index_or};
ghost use Rattle.gmp_history.specs.Audit.{AgreesWithLogs, IsMismatch, no_tally, tally_of};

use crate::history::History;
use gmp_base::MNo;

/// How many machines an `MNo` can name.
const MACHINES: usize = 256;

/// How many calls a machine's pass made.
#[derive(Clone, Copy)]
pub struct PassLog {
    pub m: MNo,
    /// Those that were accepted.
    pub calls: u64,
}

/// A machine whose logs don't say how many entries it has.
#[derive(Clone, Copy, Debug, PartialEq, Eq)]
pub struct Mismatch {
    /// The least such machine.
    pub m: MNo,
    /// The sum of what its logs say, at most `u64::MAX`.
    pub said: u64,
    /// How many entries it has.
    pub found: u64,
}

/// What is counted of one machine.
#[derive(Clone, Copy)]
struct Tally {
    /// Its entries.
    found: u64,
    /// Its logs.
    logs: u64,
    /// The sum of what they say, at most `u64::MAX`.
    said: u64,
}

/// Whether each machine that has entries has one log, and each log says how many entries its machine has; else the least machine for which
/// that fails. In time linear in the entries and the logs, and without memory.
pub fn audit(history: &History, logs: &[PassLog]) -> Result<(), Mismatch>
    ensures ok { OnOk result ((m : ℕ) → m < 2 ^ 8 → AgreesWithLogs history.now.list logs.now m) }
    ensures err { IfErr result (λ e. IsMismatch history.now.list logs.now e) }
{
    let tallies = tallied(history, logs);
    for (m, tally) in tallies.iter().enumerate() {
        if !tally.agrees() {
            return Err(Mismatch {
                m: MNo(m as u8),
                said: tally.said,
                found: tally.found,
            });
        }
    }
    Ok(())
}

/// The machine's place among all that a number can name.
fn machine_place(m: MNo) -> usize
    ensures value { result ≡ m.0 }
    ensures bound { result < 2 ^ 8 }
{
    usize::from(m.0)
}

/// What is counted of each machine.
fn tallied(history: &History, logs: &[PassLog]) -> [Tally; MACHINES]
    ensures tallies { (m : ℕ) → m < 2 ^ 8 → slice_index_or result m no_tally ≡ tally_of history.now.list logs.now m }
    ensures few { length history.now.list + 1 < 2 ^ 64 }
{
    let mut tallies = [Tally {
        found: 0,
        logs: 0,
        said: 0,
    }; MACHINES];
    for head in history.heads() {
        tallies[machine_place(head.m)].found += 1;
    }
    for log in logs {
        let m = machine_place(log.m);
        let tally = tallies[m];
        tallies[m] = Tally {
            logs: tally.logs + 1,
            said: tally.said.saturating_add(log.calls),
            ..tally
        };
    }
    tallies
}

impl Tally {
    fn agrees(&self) -> bool
        ensures { IsTrue result ↔ ((self.now.said ≡ self.now.found) × ((self.now.found ≡ 0) ⊎ (self.now.logs ≡ 1))) }
    {
        self.said == self.found && (self.found == 0 || self.logs == 1)
    }
}
