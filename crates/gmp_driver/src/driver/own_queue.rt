//! What an act at a local queue changes of what a machine holds, in place. The owner stays in its register and is lent: a pop that finds
//! nothing then moves nothing, where `give` and `got` would move all that stays.
ghost use Rattle.std.specs.Prelude.{◌≡◌, None};
ghost use Rattle.std.specs.Borrow.{sem};
ghost use Rattle.std.specs.Option.{option_copied_mut};

use super::Driver;
use crate::act::QueueTold;
use crate::at_queue::go_on_at_queue;
use crate::seen::Seen;
use gmp_base::{PNo, Readiness};

impl<T, Q> Driver<T, Q> {
    ghost use Rattle.gmp_driver.specs.Fits.{SuitsPlace};
    ghost use Rattle.gmp_driver.specs.Local.{told_of};
    ghost use Rattle.gmp_driver.specs.Own.{lends_owner, owner_held, with_found};
    ghost use Rattle.gmp_driver.specs.Seen.{own_processor};
    ghost use Rattle.gmp_driver.specs.Table.{after};

    /// The run that the machine is of. A queue of another run is left alone.
    #[inline(always)]
    pub fn run(&self) -> u64
        ensures { result ≡ self.now.run }
    {
        self.run
    }

    /// The processor that is held.
    #[inline(always)]
    pub fn processor(&self) -> Option<PNo>
        ensures { result ≡ own_processor self.now.hand }
    {
        match &self.hand.processor {
            Some(parts) => Some(parts.p),
            None => None,
        }
    }

    /// Lends the owner of the processor that is held: the own end of its queue, where machines are threads.
    #[inline(always)]
    pub fn owner(&mut self) -> Option<&mut Q>
        ensures* lends { sem 𝓛 (lends_owner T.row Q.row self.entry result) }
        ensures owner { option_copied_mut result ≡ owner_held self.old.hand }
    {
        self.hand.owner()
    }

    /// The ticket to store.
    #[inline(always)]
    pub fn to_store(&self) -> Option<Readiness>
        ensures { result ≡ self.now.hand.to_store }
    {
        self.hand.to_store
    }

    /// Is told what came of its act at a queue, and goes on to the next place, where it must hold what that place says.
    #[inline(always)]
    pub fn tell_queue(&mut self, told: QueueTold)
        requires { SuitsPlace (after self.old (told_of told)).place self.old.hand }
        ensures { self.new ≡ after self.old (told_of told) }
    {
        let seen = Seen::of(self.procs, self.fresh, self.turns, self.aside, &self.hand);
        go_on_at_queue(&mut self.spot, seen, told);
    }

    /// Holds this ticket, to claim or to store, and goes on as `tell_queue` does.
    #[inline(always)]
    pub fn tell_found(&mut self, r: Readiness, is_to_store: bool, told: QueueTold)
        requires { SuitsPlace (after (record self.old { hand = with_found r is_to_store self.old.hand }) (told_of told)).place (with_found r is_to_store self.old.hand) }
        ensures { self.new ≡ after (record self.old { hand = with_found r is_to_store self.old.hand }) (told_of told) }
    {
        self.hand.hold(r, is_to_store);
        let seen = Seen::of(self.procs, self.fresh, self.turns, self.aside, &self.hand);
        go_on_at_queue(&mut self.spot, seen, told);
    }

    /// Holds no ticket to store, and goes on as `tell_queue` does.
    #[inline(always)]
    pub fn tell_stored(&mut self, told: QueueTold)
        requires { SuitsPlace (after (record self.old { hand = record self.old.hand { to_store = None } }) (told_of told)).place (record self.old.hand { to_store = None }) }
        ensures { self.new ≡ after (record self.old { hand = record self.old.hand { to_store = None } }) (told_of told) }
    {
        self.hand.to_store = None;
        let seen = Seen::of(self.procs, self.fresh, self.turns, self.aside, &self.hand);
        go_on_at_queue(&mut self.spot, seen, told);
    }
}
