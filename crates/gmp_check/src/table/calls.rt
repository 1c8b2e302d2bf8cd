//! Calls that concern goroutines alone. Each answers whether the reply is one that the definitions allow, and changes the table only where
//! it is.
ghost use Rattle.std.specs.Prelude.{◌<◌, ◌≤◌, ◌^◌};
ghost use Rattle.gmp_seq.specs.Step.{Takes, Puts, Claims, Starts, Spawns, Yields, Exits, Sleeps, Goparks, Readies};
ghost use Rattle.gmp_base.specs.declared.number.GNo.{GNo};
ghost use Rattle.gmp_seq.specs.Table.{IsHeld, epoch_at};
ghost use Rattle.gmp_check.specs.Decides.{Decides};

use super::Table;
use gmp_base::{Fault, GNo, MNo, Readiness, Woke};
use gmp_seq::{Kind, Offers, Reply, Status, TicketPlace};

impl Table {
    /// Any ticket on the shelf is given out; or none, exactly where the shelf is empty.
    pub(crate) fn take(&mut self, reply: Reply) -> bool
        ensures { Decides (Takes reply) self.old self.new result }
    {
        match reply {
            Reply::Ticket(r) => match self.answer(r, TicketPlace::Shelf) {
                Some(woke) => {
                    self.set_status(r.g, Status::Ready(TicketPlace::Out, woke));
                    true
                }
                None => false,
            },
            Reply::Nothing => !self.has_shelved(),
            _ => false,
        }
    }

    /// A ticket that is out goes onto the shelf, and what its goroutine is to be told stays.
    pub(crate) fn put(&mut self, r: Readiness, reply: Reply) -> bool
        ensures { Decides (Puts r reply) self.old self.new result }
    {
        match (reply, self.answer(r, TicketPlace::Out)) {
            (Reply::Shelf, Some(woke)) => {
                self.set_status(r.g, Status::Ready(TicketPlace::Shelf, woke));
                true
            }
            _ => false,
        }
    }

    /// The goroutine of a ticket that is out runs on m, which runs nobody. The ticket is spent by it: its epoch is out no more.
    pub(crate) fn claim(&mut self, m: MNo, r: Readiness, reply: Reply) -> bool
        requires { (g : GNo) → IsHeld self.old g m → ⊥ }
        ensures { Decides (Claims m r reply) self.old self.new result }
    {
        match (reply, self.answer(r, TicketPlace::Out)) {
            (Reply::Held, Some(_)) => {
                self.set_status(r.g, Status::Running(m));
                true
            }
            _ => false,
        }
    }

    /// g is started, and its ticket is out; or there is no g, or it was started before.
    pub(crate) fn start(&mut self, g: GNo, reply: Reply) -> bool
        requires { epoch_at self.old g ≤ 2 ^ 63 }
        ensures { Decides (Starts g reply) self.old self.new result }
    {
        match (reply, self.status(g)) {
            (Reply::Ticket(r), Some(Status::Dormant)) if r == self.next(g) => {
                self.make_ready(g, TicketPlace::Out, Woke::First);
                true
            }
            (Reply::Fault(Fault::NoSuchBody), None) => true,
            (Reply::Fault(Fault::AlreadyStarted), Some(status)) => !status.is_dormant(),
            _ => false,
        }
    }

    /// Any goroutine that was not started, or has ended, is started, and its ticket is out; or none, exactly where there is none.
    pub(crate) fn spawn(&mut self, reply: Reply) -> bool
        requires { (g : GNo) → epoch_at self.old g ≤ 2 ^ 63 }
        ensures { Decides (Spawns reply) self.old self.new result }
    {
        match reply {
            Reply::Ticket(r) => match self.status(r.g) {
                Some(status) if status.is_startable() && r == self.next(r.g) => {
                    self.make_ready(r.g, TicketPlace::Out, Woke::First);
                    true
                }
                _ => false,
            },
            Reply::Fault(Fault::NoSuchBody) => !self.has_startable(),
            _ => false,
        }
    }

    /// g yields: it is ready on the shelf.
    pub(crate) fn give_way(&mut self, g: GNo, reply: Reply) -> bool
        requires { epoch_at self.old g ≤ 2 ^ 63 }
        ensures { Decides (Yields g reply) self.old self.new result }
    {
        match reply {
            Reply::Shelved(r) if r == self.next(g) => {
                self.make_ready(g, TicketPlace::Shelf, Woke::Done);
                true
            }
            _ => false,
        }
    }

    /// g is dead. With goroutine 0, and no other, the reply says that main ended.
    pub(crate) fn exit(&mut self, g: GNo, reply: Reply) -> bool
        ensures { Decides (Exits g reply) self.old self.new result }
    {
        let fits = match reply {
            Reply::Dead => g.0 != 0,
            Reply::MainEnded => g.0 == 0,
            _ => false,
        };
        if fits {
            self.set_status(g, Status::Dead);
        }
        fits
    }

    /// g waits until the moment, with no offer; a moment that has passed waits for the next tick too.
    pub(crate) fn sleep(&mut self, g: GNo, until: u64, reply: Reply) -> bool
        requires { self.old.arrivals < 2 ^ 63 }
        ensures { Decides (Sleeps g until reply) self.old self.new result }
    {
        match reply {
            Reply::Waits => {
                self.make_wait(g, Kind::Sleep, Offers::new(), Some(until));
                true
            }
            _ => false,
        }
    }

    /// g waits until another goroutine readies it.
    pub(crate) fn gopark(&mut self, g: GNo, reply: Reply) -> bool
        requires { self.old.arrivals < 2 ^ 63 }
        ensures { Decides (Goparks g reply) self.old self.new result }
    {
        match reply {
            Reply::Waits => {
                self.make_wait(g, Kind::Parked, Offers::new(), None);
                true
            }
            _ => false,
        }
    }

    /// g, which waits by `gopark`, is ready with its ticket out; or there is no g, or it doesn't wait so.
    pub(crate) fn ready(&mut self, g: GNo, reply: Reply) -> bool
        requires { epoch_at self.old g ≤ 2 ^ 63 }
        ensures { Decides (Readies g reply) self.old self.new result }
    {
        match (reply, self.status(g)) {
            (Reply::Ticket(r), Some(status)) if status.is_parked() && r == self.next(g) => {
                self.make_ready(g, TicketPlace::Out, Woke::Done);
                true
            }
            (Reply::Fault(Fault::NoSuchBody), None) => true,
            (Reply::Fault(Fault::NotParked), Some(status)) => !status.is_parked(),
            _ => false,
        }
    }
}
