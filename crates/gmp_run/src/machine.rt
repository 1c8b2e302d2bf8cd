//! What the thread of a machine carries (`Machine`).
//! Both waits of a thief are here, and both are short: they hold no lock, and end by themselves after so many looks.
ghost use Rattle.std.specs.Prelude.{◌≡◌, ◌≤◌, ◌∷◌, ◌++◌, [], IfSome, Some, true, is_some};
ghost use Rattle.gmp_base.specs.declared.pass.Pass.{Pass};
ghost use Rattle.gmp_driver.specs.Fits.{IsDriver};
ghost use Rattle.gmp_driver.specs.Frequent.{act_of};
ghost use Rattle.gmp_driver.specs.Table.{next_act};
ghost use Rattle.gmp_worker.specs.AtQueue.{IsQueueAct};
ghost use Rattle.gmp_worker.specs.Local.{IsOfBodyOrClock};
ghost use Rattle.gmp_acts.specs.Hands.{plain_machine};
ghost use Rattle.gmp_said.specs.Standing.{HandSaid};
ghost use Rattle.gmp_run.specs.Bodies.{HandLed};
ghost use Rattle.gmp_run.specs.Counts.{calls_in};
ghost use Rattle.gmp_run.specs.Trails.{GoesAlone, first_machine};

use crate::desk::{DeskLedger, RunLedger};
use crate::outside::{Clock, Sink};
use crate::shared::Shared;
use crate::watch::Then;
use crossbeam_utils::Backoff;
use crossbeam_utils::sync::Parker;
use gmp_base::{MNo, PNo, Pass};
use gmp_driver::{Act, Driver, Frequent};
use gmp_history::PassLog;
use gmp_queue::{Owner, Thief};
use gmp_stub::{Board, Stub};
use gmp_worker::{Runs, local_turn, queue_turn_of};
use rand_pcg::Lcg64Xsh32;
use std::hint::spin_loop;
use std::sync::ledger::Share;

/// How often a thief looks whether a queue still has something, before it steals.
const MOST_LOOKS: u32 = 80;

/// How often a hunter looks at all queues before it steals from whom it may: at first it spins between two looks, and then it rests. It
/// never yields its thread: beside threads of others that would be a wait of milliseconds.
const MOST_SPINS: u32 = 7;

/// How often it rests, after the spins.
const MOST_RESTS: u32 = 3;

/// How long a hunter rests between two looks, in nanoseconds.
const REST: u64 = 20_000;

/// A machine's driver with its pass, beside the driver as it last left the lock, from which its own acts led it and the bodies in its hand, each
/// by what it was told and asked;
/// its thieves of all queues, its generator and its parker, beside its share of the calls.
pub(crate) struct Machine<T: Runs, L: RunLedger> {
    /// Which machine it is, which its pass says too.
    pub m: MNo,
    /// Its program, with its pass and all that it holds, as parts.
    pub driver: Driver<T, Owner>,
    /// What the desk's board has of it. It takes no bytes.
    pub stub: Stub<Driver<T, Owner>>,
    /// Its own thief of each processor's queue, at that processor's place.
    pub thieves: Vec<Thief>,
    /// Its own generator: a select's case and the first victim of a hunt are drawn by it.
    pub random: Lcg64Xsh32,
    /// Where its thread waits at Rest and at Mind. A token that comes before the wait ends it.
    pub parker: Parker,
    /// Its part of the sum of all calls: as many as its pass made.
    pub share: Share<L>,
    pub ghost run: { driver.run ≡ L.run },
    pub ghost pass: { is_some driver.pass ≡ true },
    pub ghost fair: { is_some driver.aside ≡ L.fair },
    pub ghost one_part: { share.parts ≡ 1 },
    pub ghost counted: { share.amount ≡ calls_in driver.pass },
    pub ghost board: { stub.name ≡ L.board },
    pub ghost left: { driver.pass ≡ stub.value.pass },
    pub ghost alone: { ∥ GoesAlone (plain_machine stub.value) (plain_machine driver) ∥₁ },
    pub ghost led: { ∥ HandLed T.resumes T.blocks stub.value.hand driver.hand ∥₁ },
    pub ghost said: { ∥ HandSaid T.resumes T.blocks stub.value.place stub.value.hand driver.place driver.hand ∥₁ },
}

impl<T: Runs, L: RunLedger> Machine<T, L> {
    /// A machine that has made no act, fair or not, which is added to the board.
    pub fn new(
        board: &mut Board<Driver<T, Owner>>,
        pass: Pass,
        procs: u8,
        thieves: Vec<Thief>,
        random: Lcg64Xsh32,
        parker: Parker,
        share: Share<L>,
        is_fair: bool,
    ) -> Self
        requires procs { (1 ≤ procs) × (procs ≤ 32) }
        requires run { pass.run ≡ L.run }
        requires fair { is_fair ≡ L.fair }
        requires counted { share.amount ≡ pass.calls }
        requires one_part { share.parts ≡ 1 }
        requires board { board.old.name ≡ L.board }
        ensures board { board.new.name ≡ board.old.name }
        ensures added { (x : _) × (x.pass ≡ Some pass) × (plain_machine x ≡ first_machine pass procs L.fair) × (board.new.values ≡ board.old.values ++ x ∷ []) }
    {
        let m = pass.m;
        let driver = Driver::new_fair(pass, procs, is_fair);
        let stub = board.add(&driver);
        Machine {
            m,
            driver,
            stub,
            thieves,
            random,
            parker,
            share,
        }
    }

    /// The machine of its pass with the calls that it made, and its share of them.
    pub fn into_log(self) -> (PassLog, Share<L>)
        ensures log { (p : Pass) × (self.driver.pass ≡ Some p) × (result.0.m ≡ p.m) × (result.0.calls ≡ p.calls) }
        ensures amount { result.1.amount ≡ result.0.calls }
        ensures one_part { result.1.parts ≡ 1 }
    {
        let Machine {
            m: _,
            driver,
            stub: _,
            thieves: _,
            random: _,
            parker: _,
            share,
        } = self;
        let (_, m, calls, _) = driver.into_pass().open();
        (PassLog { m, calls }, share)
    }

    /// Whether this queue has something, and still has after a while. What its owner is about to run isn't there so long.
    /// A queue is emptied by its owner's pop or by another thief, or the looks are over.
    fn keeps(&self, victim: usize) -> bool {
        let Some(thief) = self.thieves.get(victim) else {
            return false;
        };
        for _ in 0..MOST_LOOKS {
            if thief.hint() == 0 {
                return false;
            }
            spin_loop();
        }
        true
    }

    /// Whether some queue keeps what it has.
    fn some_keeps(&self) -> bool {
        for victim in 0..self.thieves.len() {
            if self.keeps(victim) {
                return true;
            }
        }
        false
    }

    /// Waits until some queue keeps what it has, or whoever holds the lock calls it for the shelf or the run's end, at most a while. As
    /// long as it hunts, nobody is woken to hunt.
    /// A push ends it, or the last hold of the lock, by its hint; if neither comes, the looks are over after the last rest, and it steals
    /// from whom it may, or goes on to its park. Not without a wait: a thief would take what the owner is about to run, and the goroutine
    /// change its machine.
    pub fn lie_in_wait<C: Clock, S: Sink>(&self, clock: &C, shared: &Shared<T, L, S>)
    where
        L: DeskLedger<T, S>,
    {
        let pause = Backoff::new();
        for _ in 0..MOST_SPINS {
            if self.some_keeps() || shared.calls_hunters() {
                return;
            }
            pause.spin();
        }
        for _ in 0..MOST_RESTS {
            if self.some_keeps() || shared.calls_hunters() {
                return;
            }
            clock.rest(REST);
        }
    }

    /// Leaves the victim's owner some time to take the ticket that it is about to run. Once a ticket is stolen, more are at once. A fair
    /// machine that looks aside takes what it finds, so that no ticket is left for ever.
    pub fn leave_to_owner(&self, victim: PNo) {
        if !self.driver.has_to_claim() && !self.driver.peeks() {
            let _ = self.keeps(usize::from(victim.0));
        }
    }

    /// What it does next, as far as whoever wakes machines has to know.
    pub fn then(&self) -> Then {
        match self.driver.frequent() {
            Frequent::Push => Then::Stores,
            Frequent::Other => match self.driver.next() {
                Act::Clock(Some(_)) => Then::Minds,
                _ => Then::Acts,
            },
            _ => Then::Acts,
        }
    }

    /// Makes the act on a queue that the driver names next.
    /// It tries once and waits for nobody.
    pub fn queue_turn(&mut self)
        requires { IsQueueAct (next_act self.old.driver) }
    {
        let which = self.driver.frequent();
        self.queue_turn_of(which);
    }

    /// The same where the act has this short name.
    #[inline(always)]
    pub fn queue_turn_of(&mut self, which: Frequent)
        requires act { IsQueueAct (next_act self.old.driver) }
        requires named { IfSome (act_of which) (λ named. next_act self.old.driver ≡ named) }
        // `Driver::frequent`, which names the act, says so.
        requires keeps { IsDriver self.old.driver }
    {
        let Machine {
            driver,
            thieves,
            random,
            ..
        } = self;
        queue_turn_of(driver, thieves.as_mut_slice(), random, which);
    }
}

impl<T: Runs, L: RunLedger> Machine<T, L> {
    /// Makes the act on a body or the clock that the driver names next. The moment is the clock's reading.
    pub fn local_turn(&mut self, moment: u64)
        requires { IsOfBodyOrClock (next_act self.old.driver) }
    {
        let Machine { driver, .. } = self;
        local_turn(driver, moment);
    }
}
