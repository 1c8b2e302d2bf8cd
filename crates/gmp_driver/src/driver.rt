//! A machine's program, and what the machine holds: `Driver`. An act is made in one of three ways. A call of the book is made with the pass
//! (`give_pass`) and what is held in its place (`hand`), and is told by `got_reply` or `got_refusal`; `give` hands out a load and `got` takes
//! it back; `tell` is for acts that change no value. Acts at a queue, made in place, stand in driver/own_queue.rt.
ghost use Rattle.std.specs.Prelude.{◌≡◌, ◌≤◌, None, Some, IfSome, IsNone, IsSome, false, is_some};
ghost use Rattle.std.specs.Borrow.{sem};
ghost use Rattle.std.specs.Option.{option_copied_mut};

mod own_queue;

use crate::act::{Act, Frequent, Told};
use crate::hunt::victim_of;
use crate::load::Load;
use crate::pass::PassParts;
use crate::place::Aside;
use crate::registers::Registers;
use crate::seen::Seen;
use crate::spot::{Spot, ask_on};
use crate::table::{
    act_at, frequent_at, fresh_by, go_on, go_on_by, is_ask, next_fresh, next_turns, turns_by,
};
use gmp_base::{Ask, GNo, PNo, Pass, Refusal, Woke};
use gmp_seq::Reply;
use std::marker::Model;

/// One machine's program. A contract sees its place, its registers, the pass unless it is given out, and what it holds.
///
/// It keeps the plain parts of values. While nothing is given out it holds what its place says.
pub struct Driver<T, Q> {
    /// All values in hand are of this run.
    run: u64,
    /// The number of processors, 1 to 32.
    procs: u8,
    spot: Spot,
    /// What the body asked, at the spot Do; else of no meaning.
    ask: Ask,
    /// Whether another machine is to be woken before the next claim.
    fresh: bool,
    /// Claims since the last tick, up to 16; of a fair machine since the last tick behind which it looked aside.
    turns: u8,
    /// Where it looks aside next, if it is fair.
    aside: Option<Aside>,
    pass: PassParts,
    hand: Registers<T, Q>,
}

impl<T, Q> Model for Driver<T, Q> {
    ghost use Rattle.gmp_driver.specs.Machine.{Machine};
    ghost use Rattle.gmp_driver.specs.Fits.{IsDriver};
    ghost use Rattle.gmp_driver.specs.Pass.{pass_of};
    ghost use Rattle.gmp_driver.specs.Spot.{place_of};

    ghost Value = { Machine T Q };

    ghost view = { λ d. record { run = d.run; procs = d.procs; place = place_of d.spot d.ask; fresh = d.fresh; turns = d.turns; aside = d.aside; pass = pass_of d.run d.pass; hand = d.hand } };

    // There are 1 to 32 processors and 16 turns at most, the pass is of the run, and while the pass is in, exactly what the place needs is
    // in hand.
    ghost invariant = { λ d. IsDriver (record { run = d.run; procs = d.procs; place = place_of d.spot d.ask; fresh = d.fresh; turns = d.turns; aside = d.aside; pass = pass_of d.run d.pass; hand = d.hand }) };
}

impl<T, Q> Driver<T, Q> {
    ghost use Rattle.gmp_driver.specs.declared.act.Told.TheVariants as Told;
    ghost use Rattle.gmp_driver.specs.declared.place.Place.TheVariants as Place;
    ghost use Rattle.gmp_driver.specs.Bodies.{body_at, lends_body, speaker_at};
    ghost use Rattle.gmp_driver.specs.Fits.{SuitsPlace, IsDriver};
    ghost use Rattle.gmp_driver.specs.Frequent.{act_of, frequent_of};
    ghost use Rattle.gmp_driver.specs.Hunt.{begun, victim_of};
    ghost use Rattle.gmp_driver.specs.Loads.{IsOfRun, load_of, parts_of};
    ghost use Rattle.gmp_driver.specs.Own.{lends_hand};
    ghost use Rattle.gmp_driver.specs.Machine.{held_at, is_done, is_peek};
    ghost use Rattle.gmp_driver.specs.Registers.{AreFilledOnce, joined, nothing, unused, used};
    ghost use Rattle.gmp_driver.specs.Seen.{seen};
    ghost use Rattle.gmp_driver.specs.Table.{after, first_aside, next_act};

    /// The program at its start, with nothing in hand, of a machine that is not fair. There are so many processors.
    pub fn new(pass: Pass, procs: u8) -> Self
        requires some { 1 ≤ procs }
        requires few { procs ≤ 32 }
        ensures { result ≡ record { run = pass.run; procs = procs; place = Place.Start; fresh = false; turns = 0; aside = None; pass = Some pass; hand = nothing } }
    {
        Driver::new_fair(pass, procs, false)
    }

    /// The same of a machine that is fair, or is not. A fair one looks aside first at the shelf.
    pub fn new_fair(pass: Pass, procs: u8, is_fair: bool) -> Self
        requires some { 1 ≤ procs }
        requires few { procs ≤ 32 }
        ensures { result ≡ record { run = pass.run; procs = procs; place = Place.Start; fresh = false; turns = 0; aside = first_aside is_fair; pass = Some pass; hand = nothing } }
    {
        Driver {
            run: pass.run,
            procs,
            spot: Spot::Start,
            ask: Ask::Yield,
            fresh: false,
            turns: 0,
            aside: if is_fair {
                Some(Aside::Shelf(PNo(0)))
            } else {
                None
            },
            pass: PassParts::of(pass),
            hand: Registers::empty(),
        }
    }

    /// What the machine does next. It makes nothing, and may be asked as often as one likes.
    // Inlined, here and below: whoever looks at one kind of act alone pays for no other.
    #[inline(always)]
    pub fn next(&self) -> Act
        requires { IsSome self.now.pass }
        ensures act { result ≡ next_act self.now }
        ensures keeps { IsDriver self.now }
    {
        act_at(self.spot, &self.ask, self.seen())
    }

    /// What the machine does next, in few bytes where it is one of the acts that come most often. `Other` says only that it is none of
    /// these, and `next` what it is.
    #[inline(always)]
    pub fn frequent(&self) -> Frequent
        ensures value { result ≡ frequent_of (next_act self.now) }
        ensures act { IfSome (act_of result) (λ act. next_act self.now ≡ act) }
        ensures keeps { IsDriver self.now }
    {
        frequent_at(
            self.spot,
            &self.ask,
            self.fresh,
            self.turns,
            self.hand.to_claim,
        )
    }

    /// The first victim of a hunt that begins by this word, which the first act of the hunt draws.
    pub fn first_victim(&self, word: u64) -> PNo
        ensures { result ≡ victim_of self.now.procs (begun (seen self.now) word) }
    {
        victim_of(self.procs, self.seen().begin(word))
    }

    /// Whether it holds a ticket to claim. A ticket that is stolen then is to store: the first is claimed, the others wait in the own
    /// queue.
    pub fn has_to_claim(&self) -> bool
        ensures { result ≡ is_some self.now.hand.to_claim }
    {
        self.hand.to_claim.is_some()
    }

    /// What the body of the goroutine that runs is to be told, at Run; at Block Done, which has no meaning.
    pub fn woke(&self) -> Option<Woke>
        ensures { result ≡ held_at self.now.place self.now.hand.held }
    {
        match (self.spot, &self.hand.held) {
            (Spot::Run, Some(parts)) => Some(parts.woke),
            (Spot::Block, _) => Some(Woke::Done),
            _ => None,
        }
    }

    /// The goroutine whose step comes next: it is resumed, or its call or its blocking call is made. None where the machine acts of itself.
    pub fn speaker(&self) -> Option<GNo>
        ensures { result ≡ speaker_at self.now.place self.now.hand }
    {
        match self.spot {
            Spot::Run | Spot::Yield | Spot::Send(_, _) | Spot::Recv(_) | Spot::Do => {
                self.hand.running()
            }
            Spot::Block => self.hand.calling(),
            _ => None,
        }
    }

    /// Lends the body in hand: at Run that of the goroutine that runs, at Block that of the one in its blocking call, else none.
    pub fn body(&mut self) -> Option<&mut T>
        ensures* lends { sem 𝓛 (lends_body T.row Q.row self.entry result) }
        ensures body { option_copied_mut result ≡ body_at self.old.place self.old.hand }
    {
        self.hand.body(self.spot, &self.ask)
    }

    /// Whether there is nothing left to do: the run is over, and every value was given back.
    pub fn is_done(&self) -> bool
        ensures { result ≡ is_done self.now.place }
    {
        matches!(self.spot, Spot::Done)
    }

    /// Whether it looks aside at a queue: it steals there what its owner may be about to run.
    pub fn peeks(&self) -> bool
        ensures { result ≡ is_peek self.now.place }
    {
        matches!(self.spot, Spot::Peek(_))
    }

    /// What the table looks at beside the place.
    #[inline(always)]
    fn seen(&self) -> Seen
        ensures { result ≡ seen self.now }
    {
        Seen::of(self.procs, self.fresh, self.turns, self.aside, &self.hand)
    }

    /// Is told what came of an act, and goes on to the next place, where it must hold what that place says.
    #[inline(always)]
    pub fn tell(&mut self, told: Told)
        requires { SuitsPlace (after self.old told).place self.old.hand }
        ensures { self.new ≡ after self.old told }
    {
        let seen = self.seen();
        self.fresh = next_fresh(self.spot, seen, &told);
        self.turns = next_turns(self.spot, seen, &told);
        go_on(&mut self.spot, &mut self.ask, &mut self.aside, seen, told);
    }

    /// Is told what the body asks, and goes on to the call that stands for it. At another place than Run nothing changes.
    #[inline(always)]
    pub fn tell_asked(&mut self, ask: &Ask)
        ensures { self.new ≡ after self.old (Told.Asked ask.now) }
    {
        ask_on(&mut self.spot, &mut self.ask, ask);
    }

    /// Hands out the pass alone: what the machine holds stays in its registers.
    #[inline(always)]
    pub fn give_pass(&mut self) -> Pass
        requires { IsSome self.old.pass }
        ensures pass { self.old.pass ≡ Some result }
        ensures run { result.run ≡ self.old.run }
        ensures left { self.new ≡ record self.old { pass = None } }
    {
        self.pass.hand_out(self.run)
    }

    /// Lends what it holds, for a call that the pass is out for.
    // While the pass is in, exactly what the place needs is in hand, so that nobody may change it then.
    #[inline(always)]
    pub fn hand(&mut self) -> &mut Registers<T, Q>
        requires { IsNone self.old.pass }
        ensures* lends { sem 𝓛 (lends_hand T.row Q.row self.entry result) }
        ensures hand { result.now ≡ self.old.hand }
    {
        &mut self.hand
    }

    /// Takes the pass back, is told the reply, and goes on to the next place, where it must hold what that place says.
    // As `tell`, without a copy of the reply.
    #[inline(always)]
    pub fn got_reply(&mut self, pass: Pass, reply: &Reply)
        requires out { IsNone self.old.pass }
        requires run { pass.run ≡ self.old.run }
        requires fits { SuitsPlace (after self.old (Told.Replied reply.now)).place self.old.hand }
        ensures { self.new ≡ record (after self.old (Told.Replied reply.now)) { pass = Some pass } }
    {
        let seen = self.seen();
        // What a body asked changes neither.
        if !is_ask(self.spot) {
            self.fresh = fresh_by(self.spot, seen, reply);
            self.turns = turns_by(self.spot, seen, reply);
        }
        go_on_by(&mut self.spot, &self.ask, &mut self.aside, seen, reply);
        self.pass = PassParts::of(pass);
    }

    /// Takes the pass back, is told why the call was refused, and goes on to the next place, where it must hold what that place says.
    // Not inlined: a machine whose call is made pays for no refusal.
    #[inline(never)]
    pub fn got_refusal(&mut self, pass: Pass, why: Refusal)
        requires out { IsNone self.old.pass }
        requires run { pass.run ≡ self.old.run }
        requires fits { SuitsPlace (after self.old (Told.Refused why)).place self.old.hand }
        ensures { self.new ≡ record (after self.old (Told.Refused why)) { pass = Some pass } }
    {
        self.tell(Told::Refused(why));
        self.pass = PassParts::of(pass);
    }

    /// Hands out the pass, and the values that the next act uses.
    #[inline(always)]
    pub fn give(&mut self) -> Load<T, Q>
        requires { IsSome self.old.pass }
        ensures pass { self.old.pass ≡ Some result.pass }
        ensures run { IsOfRun self.old.run result }
        ensures used { result ≡ load_of self.old.run result.pass (used (next_act self.old) self.old.hand) }
        ensures left { self.new ≡ record self.old { pass = None; hand = unused (next_act self.old) self.old.hand } }
    {
        // The act says what is used, so that whoever takes the load need not.
        let act = self.next();
        let pass = self.pass.hand_out(self.run);
        self.hand.take_used(self.run, pass, &act)
    }

    /// Takes back the pass and what the act left or was answered, is told what came of the act, and goes on to the next place, where
    /// it must hold what that place says.
    #[inline(always)]
    pub fn got(&mut self, load: Load<T, Q>, told: Told)
        requires out { IsNone self.old.pass }
        requires run { IsOfRun self.old.run load }
        requires apart { AreFilledOnce self.old.hand (parts_of load) }
        requires fits { SuitsPlace (after (record self.old { hand = joined (parts_of load) self.old.hand }) told).place (joined (parts_of load) self.old.hand) }
        ensures { self.new ≡ after (record self.old { pass = Some load.pass; hand = joined (parts_of load) self.old.hand }) told }
    {
        let pass = self.hand.take_back(load);
        self.tell(told);
        self.pass = PassParts::of(pass);
    }
}

impl<T: Drop, Q: Drop> Driver<T, Q> {
    /// The pass. All else is let go, which only types of bodies and owners that may be dropped allow. At Done nothing else is held.
    pub fn into_pass(self) -> Pass
        requires { IsSome self.pass }
        ensures { self.pass ≡ Some result }
    {
        let Driver {
            run,
            procs: _,
            spot: _,
            ask: _,
            fresh: _,
            turns: _,
            aside: _,
            mut pass,
            hand: _,
        } = self;
        pass.hand_out(run)
    }
}
