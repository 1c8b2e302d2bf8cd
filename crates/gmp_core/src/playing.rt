//! A run in turn over a core. Not in an order that is drawn or written down, and not by a machine that acts until it has nothing to do: in
//! this one machines come between one another's acts.
ghost use Rattle.std.specs.Prelude.{◌≡◌, ◌<◌, ◌⊎◌, ◌↔◌, All, IfErr, IfOk, IfSome, IsTrue, None, OnOk, length};
ghost use Rattle.gmp_base.specs.declared.refusal.Refusal.TheVariants.{BadLimits, OutOfMemory};
ghost use Rattle.gmp_seq.specs.Fits.{AreLimits, Fits};
ghost use Rattle.gmp_acts.specs.Headline.{Headline, SameOpening};
ghost use Rattle.gmp_core.specs.Whole.{IsKept};
ghost use Rattle.gmp_core.specs.Plays.{IsPlayed, PlaysOne, TriesOne};
ghost use Rattle.gmp_core.specs.Stage.{AreParked, HasTurn, IsOver, machines_of, opening_stage};

use crate::choosing::choose;
use crate::engine::Core;
use crate::outside::Outside;
use gmp_acts::Choice;
use gmp_base::{MNo, Refusal, Refused};
use gmp_history::History;
use gmp_seq::{Limits, Outcome};
use std::alloc::Global;
use std::marker::Model;

/// The number of the run: there is one.
const RUN: u64 = 0;

/// A core, what is outside it, and whose turn it is.
///
/// A contract sees all machines together with the bodies, what is outside, and the number of the machine whose turn it is.
pub struct Player<T, O> {
    core: Core<T>,
    outside: O,
    /// What the last act was dealt. Each act writes what it reads, in place: an ask is large, and most acts read none.
    choice: Choice,
    /// How many machines there are.
    machines: u8,
    /// The machine whose turn it is, or the number behind the last one: behind the last comes the first.
    turn: u8,
}

impl<T, O> Model for Player<T, O> {
    ghost use Rattle.gmp_core.specs.Stage.{IsManned, Stage};

    ghost Value = { Stage T O };

    ghost view = { λ p. record { core = p.core; outside = p.outside; turn = p.turn } };

    ghost invariant = { λ p. IsManned p.machines p.core.system };
}

impl<T: Drop, O: Outside<T> + Drop> Player<T, O> {
    /// The core before its first act, of machines that are all fair, or none is. It keeps all entries.
    pub fn open(
        alloc: Global,
        limits: Limits,
        capacities: &[u32],
        bodies: Vec<T>,
        outside: O,
        is_fair: bool,
    ) -> Result<Self, Refusal>
        requires kept { IsKept limits }
        ensures within { OnOk result (AreLimits limits (length bodies.items) capacities.now) }
        ensures stage { IfOk result (λ p. p ≡ opening_stage is_fair limits capacities.now bodies.items outside) }
        ensures why { IfErr result (λ why. (why ≡ BadLimits) ⊎ (why ≡ OutOfMemory)) }
        ensures limits { IfErr result (λ why. why ≡ BadLimits → ¬ (AreLimits limits (length bodies.items) capacities.now)) }
    {
        match Core::open_fair(alloc, RUN, limits, capacities, bodies, is_fair) {
            Ok(core) => Ok(Player {
                core,
                outside,
                choice: Choice::default(),
                machines: limits.machines,
                turn: 0,
            }),
            Err(Refused { why, back: _ }) => Err(why),
        }
    }

    /// Acts in turn until the run is over and each machine that isn't parked is done, or so many acts were made, or all are parked. Each
    /// choice draws this word.
    /// No law says that each run comes to an outcome, so acts are counted: where memory is refused makes can come again and again without
    /// an entry.
    pub fn play(&mut self, acts: u32, word: u64)
        ensures played { IsPlayed O.asks O.answers O.shows acts word self.old self.new }
        ensures opened { SameOpening self.old.core.system.book self.new.core.system.book }
    {
        for made in 0..acts {
            let _ = made;
            if !self.act(word) {
                return;
            }
        }
    }

    /// One act of the machine whose turn it is, unless the run is over or no machine is left to act.
    fn act(&mut self, word: u64) -> bool
        ensures tries { TriesOne O.asks O.answers O.shows result word self.old self.new }
        ensures opened { SameOpening self.old.core.system.book self.new.core.system.book }
    {
        if self.is_over() {
            return false;
        }
        match self.next() {
            Some(m) => {
                self.advance(m, word);
                true
            }
            None => false,
        }
    }

    /// The first machine that isn't parked, from the one whose turn it is on.
    /// A parked machine's one act is to ask whether it was woken, an entry that says nothing: with a turn of its own it would fill the
    /// history. A machine that is done has its turn all the same: so who is next is a question of the book alone.
    fn next(&self) -> Option<MNo>
        ensures next { IfSome result (HasTurn self.now.core.system self.now.turn) }
        ensures there { IfSome result (λ m. m.0 < machines_of self.now.core.system) }
        ensures none { result ≡ None → AreParked self.now.core.system }
    {
        for passed in 0..self.machines {
            let m = ((self.turn as u16 + passed as u16) % self.machines as u16) as u8;
            if !self.core.parked(MNo(m)) {
                return Some(MNo(m));
            }
        }
        None
    }

    /// Whether the run has an outcome, and each machine that isn't parked is done.
    /// Who is parked then stays so: nobody pokes any more.
    fn is_over(&self) -> bool
        ensures { IsTrue result ↔ IsOver self.now.core.system }
    {
        if self.core.outcome().is_none() {
            return false;
        }
        for m in 0..self.machines {
            if !self.core.parked(MNo(m)) && !self.core.done(MNo(m)) {
                return false;
            }
        }
        true
    }

    /// The machine makes its act, and the next one's turn comes.
    fn advance(&mut self, m: MNo, word: u64)
        requires there { m.0 < machines_of self.old.core.system }
        requires lasts { ¬ (IsOver self.old.core.system) }
        requires next { HasTurn self.old.core.system self.old.turn m }
        ensures plays { PlaysOne O.asks O.answers O.shows word self.old self.new }
        ensures opened { SameOpening self.old.core.system.book self.new.core.system.book }
    {
        choose(&mut self.core, &mut self.outside, &mut self.choice, m, word);
        // All entries are kept, so there is room for each.
        let _ = self.core.act(m, &self.choice);
        self.turn = m.0 + 1;
    }

    /// Every call so far, as one legal run from the opening.
    #[tactic(auto, using(crate::proofs::Before::whole_headline))]
    pub fn history(&self) -> &History
        ensures entries { result.now.list ≡ self.now.core.system.book.history }
        ensures headline { let book = self.now.core.system.book in Headline book.run book.limits book.bodies book.capacities self.now.core.system }
        ensures within { AreLimits self.now.core.system.book.limits self.now.core.system.book.bodies self.now.core.system.book.capacities }
        ensures fits { All Fits self.now.core.system.book.history }
    {
        self.core.history()
    }

    /// How the run ended, if it did.
    pub fn outcome(&self) -> Option<Outcome>
        ensures { result ≡ self.now.core.system.book.state.outcome }
    {
        self.core.outcome()
    }

    /// Lets all go.
    pub fn close(self) {
        let Player {
            core,
            outside: _,
            choice: _,
            machines: _,
            turn: _,
        } = self;
        let _ = core.close();
    }
}
