//! Whom a close or a tick wakes: `Wake` says why, `Rank` who comes first, `Candidate` who it is and what it is told.
ghost use Rattle.std.specs.Prelude.{◌≡◌};
ghost use Rattle.gmp_table.specs.declared.wake.Wake.{Wake};
ghost use Rattle.gmp_table.specs.Waking.{is_before, candidate_of};

use gmp_base::{CNo, GNo, Woke};
use gmp_seq::Status;

/// Why goroutines are woken. A close and a tick are one effect in the definitions: each goroutine for which the reason has an answer
/// becomes ready on the shelf.
#[derive(Clone, Copy, Debug, PartialEq, Eq)]
pub enum Wake {
    /// Their channel is closed.
    Closed(CNo),
    /// Their deadline is due at this moment, in nanoseconds.
    Due(u64),
}

/// What decides who is woken first: the lesser moment, and then the earlier arrival.
#[derive(Clone, Copy, Debug, PartialEq, Eq)]
pub struct Rank {
    /// The deadline, in nanoseconds, where that is why it is woken, and else 0.
    pub moment: u64,
    /// How many waits began before its own.
    pub arrival: u64,
}

impl Rank {
    /// Two that wait never have the same rank, since no two arrived at once.
    pub(crate) fn is_before(self, other: Rank) -> bool
        ensures { result ≡ is_before self other }
    {
        self.moment < other.moment || (self.moment == other.moment && self.arrival < other.arrival)
    }
}

/// One that is to be woken, and what it is told. Its offers are still to be taken out.
#[derive(Clone, Copy, Debug, PartialEq, Eq)]
pub struct Candidate {
    pub g: GNo,
    pub rank: Rank,
    pub woke: Woke,
}

impl Candidate {
    /// The goroutine, if its deadline is at this moment or before.
    pub(crate) fn due(now: u64, g: GNo, status: &Status) -> Option<Candidate>
        ensures { result ≡ candidate_of (Wake.Due now) g status.now }
    {
        let Status::Waiting(wait) = status else {
            return None;
        };
        let moment = wait.until?;
        if moment > now {
            return None;
        }
        Some(Candidate {
            g,
            rank: Rank {
                moment,
                arrival: wait.arrival,
            },
            woke: wait.kind.late_answer(),
        })
    }
}
