//! Questions on one goroutine's status, shared by the book and the plain scheduler. Each is proved equal to a word of the definitions.
ghost use Rattle.std.specs.Prelude.{◌≡◌};
ghost use Rattle.gmp_seq.specs.Table.{answer_of_ready, deadline_of, is_astir, is_calling, is_calling_on, is_dormant, is_parked, is_ready_or_running, is_running_on, is_shelved, is_startable};

use crate::status::{Kind, Status, TicketPlace};
use gmp_base::{MNo, Woke};

impl Status {
    /// Whether it was not started.
    pub fn is_dormant(&self) -> bool
        ensures { result ≡ is_dormant self.now }
    {
        matches!(self, Status::Dormant)
    }

    /// Whether it was not started, or has ended.
    pub fn is_startable(&self) -> bool
        ensures { result ≡ is_startable self.now }
    {
        matches!(self, Status::Dormant | Status::Dead)
    }

    /// Whether its ticket is on the shelf, and not given out.
    pub fn is_shelved(&self) -> bool
        ensures { result ≡ is_shelved self.now }
    {
        matches!(self, Status::Ready(TicketPlace::Shelf, _))
    }

    /// Whether it waits for a `Ready`.
    pub fn is_parked(&self) -> bool
        ensures { result ≡ is_parked self.now }
    {
        match self {
            Status::Waiting(wait) => matches!(wait.kind, Kind::Parked),
            _ => false,
        }
    }

    /// What it is to be told, where it is ready.
    pub fn answer(&self) -> Option<Woke>
        ensures { result ≡ answer_of_ready self.now }
    {
        match self {
            Status::Ready(_, woke) => Some(*woke),
            _ => None,
        }
    }

    /// Whether this machine runs it.
    pub fn is_running_on(&self, m: MNo) -> bool
        ensures { result ≡ is_running_on m self.now }
    {
        match self {
            Status::Running(n) => m.0 == n.0,
            _ => false,
        }
    }

    /// Whether a machine makes its blocking call.
    pub fn is_calling(&self) -> bool
        ensures { result ≡ is_calling self.now }
    {
        matches!(self, Status::Calling(_))
    }

    /// Whether this machine makes its blocking call.
    pub fn is_calling_on(&self, m: MNo) -> bool
        ensures { result ≡ is_calling_on m self.now }
    {
        match self {
            Status::Calling(n) => m.0 == n.0,
            _ => false,
        }
    }

    /// Whether it can go on without anybody else. While one can, no machine that parks has to mind a deadline.
    pub fn is_ready_or_running(&self) -> bool
        ensures { result ≡ is_ready_or_running self.now }
    {
        matches!(self, Status::Ready(_, _) | Status::Running(_))
    }

    /// Whether it can go on, or comes back by itself from a blocking call or at a deadline. Where none is, all are asleep for good
    /// (`laws::asleep_for_good`).
    pub fn is_astir(&self) -> bool
        ensures { result ≡ is_astir self.now }
    {
        match self {
            Status::Ready(_, _) | Status::Running(_) | Status::Calling(_) => true,
            Status::Waiting(wait) => wait.until.is_some(),
            Status::Dormant | Status::Dead => false,
        }
    }

    /// The moment at which it stops waiting, in nanoseconds, where there is one. A select without one waits for good, a sleep always has
    /// one.
    pub fn deadline(&self) -> Option<u64>
        ensures { result ≡ deadline_of self.now }
    {
        match self {
            Status::Waiting(wait) => wait.until,
            _ => None,
        }
    }
}
