//! What the calls by their own types share.
ghost use Rattle.std.specs.Prelude.{◌≡◌, true, None, IfErr, IfOk, OnErr, OnOk};
ghost use Rattle.gmp_base.specs.Values.{ticket_by};
ghost use Rattle.gmp_seq.specs.Step.{ticket_in};
ghost use Rattle.std.specs.Option.{option_map};
ghost use Rattle.gmp_journal.specs.Done.{IsDoneTo};
ghost use Rattle.gmp_seq.specs.Needs.{WantsMemory};
ghost use Rattle.gmp_journal.specs.Grants.{Chooses, NeedsMemory, Suits};
ghost use Rattle.gmp_journal.specs.Handed.{by_held, goroutine_in, nothing_handed, processor_in};
ghost use Rattle.gmp_journal.specs.Log.{Records};
ghost use Rattle.gmp_journal.specs.Refusals.{Says, refusal_in, refusal_of, why_refused};

use crate::book::Book;
use crate::values::{Values, spent};
use crate::went::Moved;
use gmp_base::{Held, Pass, Refusal, Refused, Ticket};
use gmp_seq::{Call, Reply};
use std::alloc::Global;

impl<T, Q> Book<T, Q> {
    ghost use Rattle.gmp_book.specs.Book.{SameValues};
    ghost use Rattle.gmp_book.specs.Hands.{held_back};
    ghost use Rattle.gmp_book.specs.Kinds.{goes_on, is_own, may_wait, moves_nothing};
    ghost use Rattle.gmp_book.specs.Went.{GoesBy, IsOn, Moves, MovesBody};

    /// A call by which no body and no owner moves, with the ticket that it gives out.
    #[inline(always)]
    pub(crate) fn note(
        &mut self,
        pass: &mut Pass,
        call: Call,
    ) -> Result<(Option<Ticket>, Reply), Refusal>
        requires still { moves_nothing call ≡ true }
        requires suits { Suits call nothing_handed }
        requires plain { NeedsMemory call None }
        ensures refused { refusal_in result ≡ refusal_of self.old.log pass.old call nothing_handed }
        ensures err { OnErr result ((self.new ≡ self.old) × (pass.new ≡ pass.old)) }
        ensures records { IfOk result (λ x. Records self.old.log pass.old call x.1 self.new.log pass.new) }
        ensures choice { IfOk result (λ x. Chooses call 0 x.1 self.old.log.state self.old.log.shelf) }
        ensures done { IfOk result (λ x. IsDoneTo call pass.old.m (goroutine_in nothing_handed) (processor_in nothing_handed) x.1 self.old.log.state self.new.log.state) }
        ensures ticket { IfOk result (λ x. x.0 ≡ option_map (ticket_by self.old.log.run) (ticket_in x.1)) }
        ensures values { OnOk result (SameValues self.old self.new) }
    {
        let values = Values::of(None, None, None, None);
        let (values, result) = self.call(None, pass, call, values, 0);
        let (held, called, ticket, proc) = values.parts();
        match result {
            Ok(reply) => {
                spent(held);
                spent(called);
                spent(proc);
                Ok((ticket, reply))
            }
            Err(why) => {
                spent(held);
                spent(called);
                spent(ticket);
                spent(proc);
                Err(why)
            }
        }
    }

    /// A call of a goroutine that runs, with what becomes of it and the reply.
    #[inline(always)]
    pub(crate) fn ask(
        &mut self,
        memory: Option<Global>,
        pass: &mut Pass,
        held: Held<T>,
        call: Call,
        word: u64,
    ) -> Result<(Moved<T>, Reply), Refused<Held<T>>>
        requires own { is_own call ≡ true }
        requires suits { Suits call (by_held held) }
        requires memory { NeedsMemory call memory }
        ensures plain { NeedsMemory call None → why_refused result ≡ refusal_of self.old.log pass.old call (by_held held) }
        ensures refused { Says (WantsMemory self.old.log.limits call self.old.log.state) (refusal_of self.old.log pass.old call (by_held held)) (why_refused result) }
        ensures back { IfErr result (λ r. r.back ≡ held_back call r.why held) }
        ensures err { OnErr result ((self.new ≡ self.old) × (pass.new ≡ pass.old)) }
        ensures records { IfOk result (λ x. Records self.old.log pass.old call x.1 self.new.log pass.new) }
        ensures choice { IfOk result (λ x. Chooses call word x.1 self.old.log.state self.old.log.shelf) }
        ensures done { IfOk result (λ x. IsDoneTo call pass.old.m held.g (processor_in (by_held held)) x.1 self.old.log.state self.new.log.state) }
        ensures goes { IfOk result (λ x. GoesBy x.1 held x.0) }
        ensures on { IfOk result (λ x. goes_on call ≡ true → IsOn x.0) }
        ensures moves { IfOk result (λ x. may_wait call ≡ true → Moves x.1 held x.0) }
        ensures body { IfOk result (λ x. MovesBody self.old self.new held x.0) }
    {
        let values = Values::of(Some(held), None, None, None);
        let (values, result) = self.call(memory, pass, call, values, word);
        let (held, called, ticket, proc) = values.parts();
        match result {
            Ok(reply) => {
                spent(called);
                spent(proc);
                Ok((Moved::of(held, ticket), reply))
            }
            Err(why) => {
                spent(called);
                spent(ticket);
                spent(proc);
                let back = held.unwrap();
                Err(Refused { why, back })
            }
        }
    }
}
