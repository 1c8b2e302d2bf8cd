//! The one way of machines to make a call: with what they hold in their registers, and by which a body moves into its place or out of it, and
//! else not. Replies are written in place; of a call that is known to be frequent, by a constant that is handed down, no arm of another is
//! compiled in.
ghost use Rattle.std.specs.Prelude.{◌≡◌, true, IfErr, OnErr, OnOk};
ghost use Rattle.gmp_seq.specs.Needs.{WantsMemory};
ghost use Rattle.gmp_driver.specs.Uses.{Uses};
ghost use Rattle.gmp_journal.specs.Done.{IsDoneTo};
ghost use Rattle.gmp_journal.specs.Frequent.{is_frequent};
ghost use Rattle.gmp_journal.specs.Grants.{Chooses, NeedsMemory};
ghost use Rattle.gmp_journal.specs.Handed.{goroutine_in, processor_in};
ghost use Rattle.gmp_journal.specs.Log.{Records};
ghost use Rattle.gmp_journal.specs.Refusals.{Says, refusal_in, refusal_of};

use crate::book::Book;
use crate::in_hand::{
    handed_in, hands_called, hands_held, hands_proc, refuse_in, settle_body_in, settle_owner_in,
    settle_tickets_in,
};
use crate::values::{claimed, told_by, way_of};
use gmp_base::{Pass, Refusal};
use gmp_driver::Registers;
use gmp_seq::{Call, Reply};
use std::alloc::Global;

impl<T, Q> Book<T, Q> {
    ghost use Rattle.gmp_book.specs.Hands.{Hands, handed_of};
    ghost use Rattle.gmp_book.specs.InHand.{given_by, hand_after, hand_refused};
    ghost use Rattle.gmp_book.specs.declared.values.Values.{Values};

    /// The machine of the pass makes the call, with what its hand has for it, or is refused. What comes of it is in the hand. A make, and no other
    /// call, is given memory: where that is refused, its goroutine is to be told `NoMemory`. `word` chooses among the cases of a select.
    #[inline(always)]
    pub fn call_in_hand(
        &mut self,
        memory: Option<Global>,
        pass: &mut Pass,
        hand: &mut Registers<T, Q>,
        call: &Call,
        word: u64,
        frequent: bool,
        out: &mut Reply,
    ) -> Result<(), Refusal>
        requires often { frequent ≡ true → is_frequent call.now ≡ true }
        requires uses { Uses call.now hand.old }
        requires memory { NeedsMemory call.now memory }
        ensures refused { Says (WantsMemory self.old.log.limits call.now self.old.log.state) (refusal_of self.old.log pass.old call.now (handed_of (given_by self.old.log.run call.now hand.old))) (refusal_in result) }
        ensures err { OnErr result ((self.new ≡ self.old) × (pass.new ≡ pass.old)) }
        ensures told { IfErr result (λ why. hand.new ≡ hand_refused call.now why hand.old) }
        ensures records { OnOk result (Records self.old.log pass.old call.now out.new self.new.log pass.new) }
        ensures choice { OnOk result (Chooses call.now word out.new self.old.log.state self.old.log.shelf) }
        ensures hands { OnOk result ((back : Values T Q) × Hands call.now out.new (given_by self.old.log.run call.now hand.old) back self.old self.new × (hand.new ≡ hand_after call.now back hand.old)) }
        ensures done { OnOk result (let v = handed_of (given_by self.old.log.run call.now hand.old) in IsDoneTo call.now pass.old.m (goroutine_in v) (processor_in v) out.new self.old.log.state self.new.log.state) }
    {
        let run = self.journal.run();
        let given = handed_in(run, call, hand);
        let g = claimed(call);
        let known = self.journal.known(call);
        match self
            .journal
            .call(memory, pass, call, &given, word, frequent, out)
        {
            Err(why) => {
                refuse_in(call, why, hand);
                Err(why)
            }
            Ok(()) => {
                let told = told_by(known, *out);
                let (is_held, is_called) = (hands_held(call), hands_called(call));
                settle_body_in(
                    &mut self.bodies,
                    way_of(*out),
                    run,
                    g,
                    told,
                    is_held,
                    is_called,
                    &mut hand.held,
                    &mut hand.called,
                );
                settle_owner_in(
                    &mut self.owners,
                    out,
                    run,
                    hands_proc(call),
                    &mut hand.processor,
                );
                settle_tickets_in(call, out.ticket(), &mut hand.to_claim, &mut hand.to_store);
                Ok(())
            }
        }
    }
}
