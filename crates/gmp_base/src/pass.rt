//! A machine's pass: what the machine knows of the run, compared with the book at each call. Two threads can't use one, since it is moved
//! into the call and comes back with the answer.
ghost use Rattle.std.specs.Prelude.{◌≡◌, ◌+◌, ◌<◌, ◌^◌};

use crate::number::MNo;

/// The right of a machine to make calls, one after another. It can't be copied, and it can't be let go. Where its count of calls isn't the
/// book's, or it has seen more entries than were made, the call is refused (`OutOfTurn`, `Behind`): it is forged, or from another state of
/// the run.
pub struct Pass {
    /// The run that it is of.
    pub run: u64,
    pub m: MNo,
    /// How many calls of the machine were accepted.
    pub calls: u64,
    /// How many entries all machines had made after the last of them.
    pub seen: u64,
}

impl Pass {
    /// A pass of these parts. The book makes one for each machine at its opening.
    pub fn of(run: u64, m: MNo, calls: u64, seen: u64) -> Self
        ensures { result ≡ record { run = run; m = m; calls = calls; seen = seen } }
    {
        Pass {
            run,
            m,
            calls,
            seen,
        }
    }

    /// Its run, its machine, the calls and what it has seen.
    pub fn open(self) -> (u64, MNo, u64, u64)
        ensures { result ≡ record { 0 = self.run; 1 = self.m; 2 = self.calls; 3 = self.seen } }
    {
        let Pass {
            run,
            m,
            calls,
            seen,
        } = self;
        (run, m, calls, seen)
    }

    /// One more call was accepted, after which the run has so many entries.
    pub fn advance(&mut self, length: u64)
        requires { self.old.calls + 1 < 2 ^ 64 }
        ensures { self.new ≡ record self.old { calls = self.old.calls + 1; seen = length } }
    {
        self.calls += 1;
        self.seen = length;
    }
}
