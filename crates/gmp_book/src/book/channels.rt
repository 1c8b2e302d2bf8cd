//! What a running goroutine does with channels.
ghost use Rattle.std.specs.Prelude.{◌≡◌, ◌∷◌, [], None, OnOk, OnErr, IfOk, IfErr};
ghost use Rattle.gmp_base.specs.declared.cases.Case.{Case};
ghost use Rattle.gmp_base.specs.declared.refusal.Refusal.{Refusal};
ghost use Rattle.gmp_seq.specs.declared.status.Kind.{Kind};
ghost use Rattle.gmp_seq.specs.Table.{made_wait};
ghost use Rattle.gmp_seq.specs.Waits.{offers_of};
ghost use Rattle.gmp_seq.specs.Needs.{WantsMemory};
ghost use Rattle.gmp_journal.specs.Handed.{by_held};
ghost use Rattle.gmp_journal.specs.Refusals.{Says, refusal_of, why_refused};

use crate::book::Book;
use crate::went::{Moved, Went};
use gmp_base::{CNo, Cases, Held, Pass, Refused};
use gmp_seq::Call;
use std::alloc::Global;

impl<T, Q> Book<T, Q> {
    ghost use Rattle.gmp_book.specs.Book.{SameValues};
    ghost use Rattle.gmp_book.specs.Hands.{handed_back};
    ghost use Rattle.gmp_book.specs.Went.{ProceedsOn, ProceedsBy, ProceedsByChoice, ProceedsOrWaits, MovesBody};

    /// Makes a channel with room for so many values, 4,096 at most. The goroutine is told its number, or a fault: the room is too large, or
    /// the run has as many channels as it may.
    ///
    /// A channel takes memory. Where that is refused, the goroutine comes back with `NoMemory` to be told, and nothing has changed.
    // Want of memory is a refusal and no reply: as at each refusal there is no entry, and the pass stays.
    pub fn make(
        &mut self,
        alloc: Global,
        pass: &mut Pass,
        held: Held<T>,
        capacity: u32,
    ) -> Result<Went<T>, Refused<Held<T>>>
        ensures refused { Says (WantsMemory self.old.log.limits (Call.Make capacity) self.old.log.state) (refusal_of self.old.log pass.old (Call.Make capacity) (by_held held)) (why_refused result) }
        // Memory is wanted for a channel alone.
        ensures needed { IfErr result (λ r. r.why ≡ Refusal.OutOfMemory → WantsMemory self.old.log.limits (Call.Make capacity) self.old.log.state) }
        ensures back { IfErr result (λ r. r.back ≡ handed_back r.why held) }
        ensures err { OnErr result ((self.new ≡ self.old) × (pass.new ≡ pass.old)) }
        ensures entry { IfOk result (λ w. ProceedsOn self.old.log pass.old (Call.Make capacity) held self.new.log pass.new w) }
        ensures values { OnOk result (SameValues self.old self.new) }
    {
        let (moved, _) = self.ask(Some(alloc), pass, held, Call::Make(capacity), 0)?;
        Ok(moved.went())
    }

    /// Sends a value, or waits until it can. On nil it waits for ever; on a closed channel, or one that was not made, it is a fault.
    pub fn send(
        &mut self,
        pass: &mut Pass,
        held: Held<T>,
        c: Option<CNo>,
        v: u64,
    ) -> Result<Moved<T>, Refused<Held<T>>>
        ensures refused { why_refused result ≡ refusal_of self.old.log pass.old (Call.Send c v) (by_held held) }
        ensures back { IfErr result (λ r. r.back ≡ held) }
        ensures err { OnErr result ((self.new ≡ self.old) × (pass.new ≡ pass.old)) }
        ensures entry { IfOk result (λ moved. ProceedsOrWaits self.old.log pass.old (Call.Send c v) held self.new.log pass.new moved) }
        ensures waits { IfOk result (λ moved. moved ≡ Moved.Waits → self.new.log.state.table ≡ made_wait self.old.log.state.table held.g Kind.Plain (offers_of (Case.Send c v ∷ [])) None) }
        ensures body { IfOk result (MovesBody self.old self.new held) }
    {
        let (moved, _) = self.ask(None, pass, held, Call::Send(c, v), 0)?;
        Ok(moved)
    }

    /// Receives a value, or waits until it can. On nil it waits for ever; a closed channel gives what was sent, and then zeros; a channel
    /// that was not made is a fault.
    pub fn recv(
        &mut self,
        pass: &mut Pass,
        held: Held<T>,
        c: Option<CNo>,
    ) -> Result<Moved<T>, Refused<Held<T>>>
        ensures refused { why_refused result ≡ refusal_of self.old.log pass.old (Call.Recv c) (by_held held) }
        ensures back { IfErr result (λ r. r.back ≡ held) }
        ensures err { OnErr result ((self.new ≡ self.old) × (pass.new ≡ pass.old)) }
        ensures entry { IfOk result (λ moved. ProceedsOrWaits self.old.log pass.old (Call.Recv c) held self.new.log pass.new moved) }
        ensures waits { IfOk result (λ moved. moved ≡ Moved.Waits → self.new.log.state.table ≡ made_wait self.old.log.state.table held.g Kind.Plain (offers_of (Case.Recv c ∷ [])) None) }
        ensures body { IfOk result (MovesBody self.old self.new held) }
    {
        let (moved, _) = self.ask(None, pass, held, Call::Recv(c), 0)?;
        Ok(moved)
    }

    /// Takes one of the cases that can proceed, or else the default, where there is one, or else waits for any of the cases. With no case,
    /// no default and no deadline it waits for ever.
    ///
    /// `until` is a moment in nanoseconds of the clock that `tick` shows. Where it waits, a tick at or after that moment ends the wait:
    /// no offer of it is left, and it is told Late. A moment that has passed waits for the next tick; with a default it is unused.
    ///
    /// Of the r cases that can proceed, in order, number `word mod r` is taken. A case that names a channel that was not made is a fault,
    /// whatever the others could do.
    pub fn select(
        &mut self,
        pass: &mut Pass,
        held: Held<T>,
        cases: &Cases,
        has_default: bool,
        until: Option<u64>,
        word: u64,
    ) -> Result<Moved<T>, Refused<Held<T>>>
        ensures refused { why_refused result ≡ refusal_of self.old.log pass.old (Call.Select cases.now has_default until) (by_held held) }
        ensures back { IfErr result (λ r. r.back ≡ held) }
        ensures err { OnErr result ((self.new ≡ self.old) × (pass.new ≡ pass.old)) }
        ensures entry { IfOk result (λ moved. ProceedsByChoice self.old.log pass.old cases.now has_default until word held self.new.log pass.new moved) }
        ensures waits { IfOk result (λ moved. moved ≡ Moved.Waits → self.new.log.state.table ≡ made_wait self.old.log.state.table held.g Kind.Select (offers_of cases.now) until) }
        ensures body { IfOk result (MovesBody self.old self.new held) }
    {
        let call = Call::Select(cases.copied(), has_default, until);
        let (moved, _) = self.ask(None, pass, held, call, word)?;
        Ok(moved)
    }

    /// Closes a channel. All that wait on it go onto the shelf, by the beginnings of their waits; the answer counts them. Nil, a closed
    /// channel and one that was not made are faults, and the count is then 0.
    pub fn close(
        &mut self,
        pass: &mut Pass,
        held: Held<T>,
        c: Option<CNo>,
    ) -> Result<(Went<T>, u64), Refused<Held<T>>>
        ensures refused { why_refused result ≡ refusal_of self.old.log pass.old (Call.Close c) (by_held held) }
        ensures back { IfErr result (λ r. r.back ≡ held) }
        ensures err { OnErr result ((self.new ≡ self.old) × (pass.new ≡ pass.old)) }
        ensures entry { IfOk result (λ w. ProceedsBy self.old.log pass.old (Call.Close c) held self.new.log pass.new w.0 w.1) }
        ensures values { OnOk result (SameValues self.old self.new) }
    {
        let (moved, reply) = self.ask(None, pass, held, Call::Close(c), 0)?;
        Ok((moved.went(), reply.closed()))
    }

    /// Tells how many values a channel holds, 0 for nil. One that was not made is a fault.
    pub fn len(
        &mut self,
        pass: &mut Pass,
        held: Held<T>,
        c: Option<CNo>,
    ) -> Result<Went<T>, Refused<Held<T>>>
        ensures refused { why_refused result ≡ refusal_of self.old.log pass.old (Call.Len c) (by_held held) }
        ensures back { IfErr result (λ r. r.back ≡ held) }
        ensures err { OnErr result ((self.new ≡ self.old) × (pass.new ≡ pass.old)) }
        ensures entry { IfOk result (λ w. ProceedsOn self.old.log pass.old (Call.Len c) held self.new.log pass.new w) }
        ensures values { OnOk result (SameValues self.old self.new) }
    {
        let (moved, _) = self.ask(None, pass, held, Call::Len(c), 0)?;
        Ok(moved.went())
    }

    /// Tells for how many values a channel has room, 0 for nil. One that was not made is a fault.
    pub fn cap(
        &mut self,
        pass: &mut Pass,
        held: Held<T>,
        c: Option<CNo>,
    ) -> Result<Went<T>, Refused<Held<T>>>
        ensures refused { why_refused result ≡ refusal_of self.old.log pass.old (Call.Cap c) (by_held held) }
        ensures back { IfErr result (λ r. r.back ≡ held) }
        ensures err { OnErr result ((self.new ≡ self.old) × (pass.new ≡ pass.old)) }
        ensures entry { IfOk result (λ w. ProceedsOn self.old.log pass.old (Call.Cap c) held self.new.log pass.new w) }
        ensures values { OnOk result (SameValues self.old self.new) }
    {
        let (moved, _) = self.ask(None, pass, held, Call::Cap(c), 0)?;
        Ok(moved.went())
    }
}
