//! Sends and receives, by the way in which they proceed: into the buffer, out of it, or to or from the first that waits.
ghost use Rattle.std.specs.Prelude.{◌≡◌, ℕ, Some};
ghost use Rattle.gmp_base.specs.declared.cases.Case.TheVariants as case;
ghost use Rattle.gmp_seq.specs.Step.{Communicates, told_of};
ghost use Rattle.gmp_check.specs.Decides.{Decides};
ghost use Rattle.gmp_check.specs.Consistent.{IsConsistent, SameCounts};
ghost use Rattle.gmp_check.specs.Ways.{IsWay, state_after};

use super::State;
use gmp_base::{CNo, Case};
use gmp_seq::{Direction, Relay, Taken, TicketPlace, Transfer};

impl State {
    /// How a send proceeds: it fails on a closed channel, goes to the first that receives, or into room; none where it has to wait.
    fn way_of_send(&self, c: CNo) -> Option<Transfer>
        requires { IsConsistent self.now }
        ensures { (v : ℕ) → IsWay self.now (case.Send (Some c) v) result }
    {
        if self.channels.is_closed(c) {
            return Some(Transfer::Failed);
        }
        match self.first_on(c, Direction::Receiving) {
            Some(w) => Some(Transfer::Handed(w)),
            None if self.channels.has_room(c) => Some(Transfer::Stored),
            None => None,
        }
    }

    /// How a receive proceeds: by the first value, and where somebody sends his goes last; from a closed channel with none it gets 0. None
    /// where it has to wait.
    fn way_of_receive(&self, c: CNo) -> Option<Transfer>
        requires { IsConsistent self.now }
        ensures { IsWay self.now (case.Recv (Some c)) result }
    {
        match (self.channels.first(c), self.first_on(c, Direction::Sending)) {
            (Some(v), Some(w)) => Some(Transfer::Relayed(v, w)),
            (None, Some(w)) => Some(Transfer::Relayed(w.offered(), w)),
            (Some(v), None) => Some(Transfer::First(v)),
            (None, None) if self.channels.is_closed(c) => Some(Transfer::Drained),
            (None, None) => None,
        }
    }

    /// In which way a communication proceeds.
    fn way(&self, case: Case) -> Option<Transfer>
        requires { IsConsistent self.now }
        ensures { IsWay self.now case result }
    {
        match case {
            Case::Send(c, _) => self.way_of_send(c?),
            Case::Recv(c) => self.way_of_receive(c?),
        }
    }

    /// What is told of a communication that proceeds in this way.
    fn told(&self, how: Transfer) -> Taken
        requires { IsConsistent self.now }
        ensures { result ≡ told_of self.now.table how }
    {
        match how {
            Transfer::Failed => Taken::Failed,
            Transfer::Handed(w) => Taken::Sent(Some(self.table.next(w.g))),
            Transfer::Stored => Taken::Sent(None),
            Transfer::First(v) => Taken::Got(v, true, None),
            Transfer::Relayed(v, w) => {
                let sender = self.table.next(w.g);
                let value = w.offered();
                Taken::Got(v, true, Some(Relay { sender, value }))
            }
            Transfer::Drained => Taken::Got(0, false, None),
        }
    }

    /// The value goes to whoever waits, or into the buffer.
    fn proceed_send(&mut self, c: CNo, v: u64, how: Transfer)
        requires consistent { IsConsistent self.old }
        requires way { IsWay self.old (case.Send (Some c) v) (Some how) }
        ensures { self.new ≡ state_after self.old (case.Send (Some c) v) how }
    {
        match how {
            Transfer::Stored => self.channels.push(c, v),
            Transfer::Handed(w) => {
                let woke = w.offer.receiver_answer(w.kind, v, true);
                self.table.make_ready(w.g, TicketPlace::Out, woke);
            }
            Transfer::Failed | Transfer::First(_) | Transfer::Relayed(_, _) | Transfer::Drained =>
                {}
        }
    }

    /// The first value goes out, and that of a sender who waits goes last: so on unbuffered channels too, where it is itself the first.
    fn proceed_receive(&mut self, c: CNo, how: Transfer)
        requires { IsConsistent self.old }
        ensures { self.new ≡ state_after self.old (case.Recv (Some c)) how }
    {
        match how {
            Transfer::First(_) => self.channels.pop(c),
            Transfer::Relayed(_, w) => {
                self.channels.relay(c, w.offered());
                self.table
                    .make_ready(w.g, TicketPlace::Out, w.sender_answer());
            }
            Transfer::Failed | Transfer::Handed(_) | Transfer::Stored | Transfer::Drained => {}
        }
    }

    /// Lets a communication proceed in this way.
    fn proceed(&mut self, case: Case, how: Transfer)
        requires consistent { IsConsistent self.old }
        requires way { IsWay self.old case (Some how) }
        ensures { self.new ≡ state_after self.old case how }
    {
        match case {
            Case::Send(Some(c), v) => self.proceed_send(c, v, how),
            Case::Recv(Some(c)) => self.proceed_receive(c, how),
            Case::Send(None, _) => {}
            Case::Recv(None) => {}
        }
    }

    /// A communication proceeds, and this is told of it.
    pub(crate) fn communicate(&mut self, case: Case, told: Taken) -> bool
        requires consistent { IsConsistent self.old }
        ensures decides { Decides (Communicates case told) self.old self.new result }
        ensures rest { SameCounts self.old self.new }
    {
        match self.way(case) {
            Some(how) if self.told(how) == told => {
                self.proceed(case, how);
                true
            }
            _ => false,
        }
    }
}
