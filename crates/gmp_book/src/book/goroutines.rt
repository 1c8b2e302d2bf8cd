//! Goroutines that begin, go on, pause and end.
ghost use Rattle.std.specs.Prelude.{◌≡◌, ◌↔◌, [], None, Some, option_map, position, OnOk, OnErr, IfOk, IfErr, IfSome};
ghost use Rattle.gmp_base.specs.declared.ask.Woke.{Woke};
ghost use Rattle.gmp_base.specs.Values.{readiness_of};
ghost use Rattle.gmp_seq.specs.declared.call.Reply.{Reply};
ghost use Rattle.gmp_seq.specs.declared.status.Goroutine.{Goroutine};
ghost use Rattle.gmp_seq.specs.declared.status.Kind.{Kind};
ghost use Rattle.gmp_seq.specs.declared.status.TicketPlace.TheVariants.{Shelf, Out};
ghost use Rattle.gmp_seq.specs.declared.status.Status.{Status};
ghost use Rattle.gmp_seq.specs.Table.{IsReady, is_startable, made_ready, made_wait, next_of, set_status};
ghost use Rattle.gmp_journal.specs.Handed.{by_held, by_ticket, nothing_handed};
ghost use Rattle.gmp_journal.specs.Log.{Records};
ghost use Rattle.gmp_journal.specs.Refusals.{refusal_in, refusal_of, why_refused};
ghost use Rattle.gmp_book.specs.Replies.{exit_reply, take_reply};

use crate::answers::Exited;
use crate::book::Book;
use crate::values::Values;
use crate::went::{Moved, Went};
use gmp_base::{GNo, Held, Pass, Refusal, Refused, Ticket};
use gmp_seq::{Call, Reply};

impl<T, Q> Book<T, Q> {
    ghost use Rattle.gmp_book.specs.Book.{HandsOut, SameValues, TakesBack};
    ghost use Rattle.gmp_book.specs.Went.{ProceedsOn};

    /// Gives out the ticket of a goroutine on the shelf, if one is on it: of the one that is there for longest.
    pub fn take(&mut self, pass: &mut Pass) -> Result<Option<Ticket>, Refusal>
        ensures refused { refusal_in result ≡ refusal_of self.old.log pass.old Call.Take nothing_handed }
        ensures err { OnErr result ((self.new ≡ self.old) × (pass.new ≡ pass.old)) }
        ensures entry { IfOk result (λ ticket. Records self.old.log pass.old Call.Take (take_reply (option_map readiness_of ticket)) self.new.log pass.new) }
        ensures run { IfOk result (λ ticket. IfSome ticket (λ t. t.run ≡ self.old.log.run)) }
        ensures values { OnOk result (SameValues self.old self.new) }
    {
        match self.note(pass, Call::Take)? {
            (ticket, Reply::Ticket(_) | Reply::Nothing) => Ok(ticket),
            (_left, _) => unreachable!(),
        }
    }

    /// Puts a ticket onto the shelf, last.
    pub fn put(&mut self, pass: &mut Pass, ticket: Ticket) -> Result<(), Refused<Ticket>>
        ensures refused { why_refused result ≡ refusal_of self.old.log pass.old (Call.Put (readiness_of ticket)) (by_ticket ticket) }
        ensures back { IfErr result (λ r. r.back ≡ ticket) }
        ensures err { OnErr result ((self.new ≡ self.old) × (pass.new ≡ pass.old)) }
        ensures entry { OnOk result (Records self.old.log pass.old (Call.Put (readiness_of ticket)) Reply.Shelf self.new.log pass.new) }
        ensures values { OnOk result (SameValues self.old self.new) }
    {
        let call = Call::Put(ticket.readiness());
        let values = Values::of(None, None, Some(ticket), None);
        let (values, result) = self.call(None, pass, call, values, 0);
        let (held, called, ticket, proc) = values.parts();
        match (held, called, ticket, proc, result) {
            (None, None, Some(back), None, Err(why)) => Err(Refused { why, back }),
            (None, None, None, None, Ok(_)) => Ok(()),
            (_held, _called, _ticket, _proc, _) => unreachable!(),
        }
    }

    /// Spends a ticket: the machine runs its goroutine, which is to be told what was stored for it.
    pub fn claim(&mut self, pass: &mut Pass, ticket: Ticket) -> Result<Held<T>, Refused<Ticket>>
        ensures refused { why_refused result ≡ refusal_of self.old.log pass.old (Call.Claim (readiness_of ticket)) (by_ticket ticket) }
        ensures back { IfErr result (λ r. r.back ≡ ticket) }
        ensures err { OnErr result ((self.new ≡ self.old) × (pass.new ≡ pass.old)) }
        ensures entry { OnOk result (Records self.old.log pass.old (Call.Claim (readiness_of ticket)) Reply.Held self.new.log pass.new) }
        ensures held { IfOk result (HandsOut self.old self.new) }
        ensures g { IfOk result (λ h. h.g ≡ ticket.g) }
        ensures woke { IfOk result (λ h. IsReady self.old.log.state.table (readiness_of ticket) Out h.woke) }
    {
        let call = Call::Claim(ticket.readiness());
        let values = Values::of(None, None, Some(ticket), None);
        let (values, result) = self.call(None, pass, call, values, 0);
        let (held, called, ticket, proc) = values.parts();
        match (held, called, ticket, proc, result) {
            (None, None, Some(back), None, Err(why)) => Err(Refused { why, back }),
            (Some(held), None, None, None, Ok(_)) => Ok(held),
            (_held, _called, _ticket, _proc, _) => unreachable!(),
        }
    }

    /// Starts the goroutine of a body, whose ticket is given out. The goroutine that asks goes on: it is told Done, or a fault, where there
    /// is no such body or it was started before.
    pub fn go(
        &mut self,
        pass: &mut Pass,
        held: Held<T>,
        body: GNo,
    ) -> Result<Went<T>, Refused<Held<T>>>
        ensures refused { why_refused result ≡ refusal_of self.old.log pass.old (Call.Go body) (by_held held) }
        ensures back { IfErr result (λ r. r.back ≡ held) }
        ensures err { OnErr result ((self.new ≡ self.old) × (pass.new ≡ pass.old)) }
        ensures entry { IfOk result (λ w. ProceedsOn self.old.log pass.old (Call.Go body) held self.new.log pass.new w) }
        ensures values { OnOk result (SameValues self.old self.new) }
    {
        let (moved, _) = self.ask(None, pass, held, Call::Go(body), 0)?;
        Ok(moved.went())
    }

    /// Starts the least goroutine that was not started or has ended, whose ticket is given out: its number is used again, and its body is the
    /// one that lies in the book. The goroutine that asks goes on: it is told Done, or a fault, where there is none.
    pub fn spawn(&mut self, pass: &mut Pass, held: Held<T>) -> Result<Went<T>, Refused<Held<T>>>
        ensures refused { why_refused result ≡ refusal_of self.old.log pass.old Call.Spawn (by_held held) }
        ensures back { IfErr result (λ r. r.back ≡ held) }
        ensures err { OnErr result ((self.new ≡ self.old) × (pass.new ≡ pass.old)) }
        ensures entry { IfOk result (λ w. ProceedsOn self.old.log pass.old Call.Spawn held self.new.log pass.new w) }
        ensures values { OnOk result (SameValues self.old self.new) }
        ensures least { IfOk result (λ w. IfSome w.push (λ t. position (λ (x : Goroutine). is_startable x.status) self.old.log.state.table.goroutines ≡ Some t.g.0)) }
    {
        let (moved, _) = self.ask(None, pass, held, Call::Spawn, 0)?;
        Ok(moved.went())
    }

    /// Puts the goroutine that asks onto the shelf, last. It is to be told Done.
    pub fn yield_to(&mut self, pass: &mut Pass, held: Held<T>) -> Result<(), Refused<Held<T>>>
        ensures refused { why_refused result ≡ refusal_of self.old.log pass.old Call.Yield (by_held held) }
        ensures back { IfErr result (λ r. r.back ≡ held) }
        ensures err { OnErr result ((self.new ≡ self.old) × (pass.new ≡ pass.old)) }
        ensures entry { OnOk result (Records self.old.log pass.old Call.Yield (Reply.Shelved (next_of self.old.log.state.table held.g)) self.new.log pass.new) }
        ensures ready { OnOk result (self.new.log.state.table ≡ made_ready self.old.log.state.table held.g Shelf Woke.Done) }
        ensures body { OnOk result (TakesBack self.old self.new held) }
    {
        match self.ask(None, pass, held, Call::Yield, 0)? {
            (Moved::Waits, Reply::Shelved(_)) => Ok(()),
            (_left, _) => unreachable!(),
        }
    }

    /// Ends the goroutine that asks, and with goroutine 0 the run.
    pub fn exit(&mut self, pass: &mut Pass, held: Held<T>) -> Result<Exited, Refused<Held<T>>>
        ensures refused { why_refused result ≡ refusal_of self.old.log pass.old Call.Exit (by_held held) }
        ensures back { IfErr result (λ r. r.back ≡ held) }
        ensures err { OnErr result ((self.new ≡ self.old) × (pass.new ≡ pass.old)) }
        ensures entry { IfOk result (λ e. Records self.old.log pass.old Call.Exit (exit_reply e) self.new.log pass.new) }
        ensures main { IfOk result (λ e. e ≡ Exited.MainEnded ↔ (held.g.0 ≡ 0)) }
        ensures dead { OnOk result (self.new.log.state.table ≡ set_status self.old.log.state.table held.g Status.Dead) }
        ensures body { OnOk result (TakesBack self.old self.new held) }
    {
        match self.ask(None, pass, held, Call::Exit, 0)? {
            (Moved::Waits, Reply::Dead) => Ok(Exited::Dead),
            (Moved::Waits, Reply::MainEnded) => Ok(Exited::MainEnded),
            (_left, _) => unreachable!(),
        }
    }

    /// Lets the goroutine wait until this moment, in nanoseconds of the clock that `tick` shows. A tick at or after it wakes the
    /// goroutine, which is told Done; a moment that has passed waits for the next tick.
    pub fn sleep(
        &mut self,
        pass: &mut Pass,
        held: Held<T>,
        until: u64,
    ) -> Result<(), Refused<Held<T>>>
        ensures refused { why_refused result ≡ refusal_of self.old.log pass.old (Call.Sleep until) (by_held held) }
        ensures back { IfErr result (λ r. r.back ≡ held) }
        ensures err { OnErr result ((self.new ≡ self.old) × (pass.new ≡ pass.old)) }
        ensures entry { OnOk result (Records self.old.log pass.old (Call.Sleep until) Reply.Waits self.new.log pass.new) }
        ensures waits { OnOk result (self.new.log.state.table ≡ made_wait self.old.log.state.table held.g Kind.Sleep [] (Some until)) }
        ensures body { OnOk result (TakesBack self.old self.new held) }
    {
        match self.ask(None, pass, held, Call::Sleep(until), 0)? {
            (Moved::Waits, Reply::Waits) => Ok(()),
            (_left, _) => unreachable!(),
        }
    }

    /// Parks the goroutine that asks: it waits, without a deadline, until another one makes it `ready`. It is told Done then.
    pub fn park_g(&mut self, pass: &mut Pass, held: Held<T>) -> Result<(), Refused<Held<T>>>
        ensures refused { why_refused result ≡ refusal_of self.old.log pass.old Call.Gopark (by_held held) }
        ensures back { IfErr result (λ r. r.back ≡ held) }
        ensures err { OnErr result ((self.new ≡ self.old) × (pass.new ≡ pass.old)) }
        ensures entry { OnOk result (Records self.old.log pass.old Call.Gopark Reply.Waits self.new.log pass.new) }
        ensures waits { OnOk result (self.new.log.state.table ≡ made_wait self.old.log.state.table held.g Kind.Parked [] None) }
        ensures body { OnOk result (TakesBack self.old self.new held) }
    {
        match self.ask(None, pass, held, Call::Gopark, 0)? {
            (Moved::Waits, Reply::Waits) => Ok(()),
            (_left, _) => unreachable!(),
        }
    }

    /// So many processors are active from now on, from 1 up to as many as there are: who asks is told how many were. Another number is a
    /// fault.
    pub fn procs(
        &mut self,
        pass: &mut Pass,
        held: Held<T>,
        n: u8,
    ) -> Result<Went<T>, Refused<Held<T>>>
        ensures refused { why_refused result ≡ refusal_of self.old.log pass.old (Call.Procs n) (by_held held) }
        ensures back { IfErr result (λ r. r.back ≡ held) }
        ensures err { OnErr result ((self.new ≡ self.old) × (pass.new ≡ pass.old)) }
        ensures entry { IfOk result (λ w. ProceedsOn self.old.log pass.old (Call.Procs n) held self.new.log pass.new w) }
        ensures values { OnOk result (SameValues self.old self.new) }
    {
        let (moved, _) = self.ask(None, pass, held, Call::Procs(n), 0)?;
        Ok(moved.went())
    }

    /// Makes a goroutine ready that is parked; its ticket is given out. The goroutine that asks goes on: it is told Done, or a fault
    /// where the other one isn't parked, or isn't there.
    pub fn ready(
        &mut self,
        pass: &mut Pass,
        held: Held<T>,
        g: GNo,
    ) -> Result<Went<T>, Refused<Held<T>>>
        ensures refused { why_refused result ≡ refusal_of self.old.log pass.old (Call.Ready g) (by_held held) }
        ensures back { IfErr result (λ r. r.back ≡ held) }
        ensures err { OnErr result ((self.new ≡ self.old) × (pass.new ≡ pass.old)) }
        ensures entry { IfOk result (λ w. ProceedsOn self.old.log pass.old (Call.Ready g) held self.new.log pass.new w) }
        ensures values { OnOk result (SameValues self.old self.new) }
    {
        let (moved, _) = self.ask(None, pass, held, Call::Ready(g), 0)?;
        Ok(moved.went())
    }
}
