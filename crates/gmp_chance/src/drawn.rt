//! A run over a core whose machines and words are dealt.
ghost use Rattle.std.specs.Prelude.{◌≡◌, ◌<◌, ◌≤◌, ◌+◌, ◌⊎◌, All, IfErr, IfOk, None, OnOk, false, length, map};
ghost use Rattle.gmp_base.specs.declared.refusal.Refusal.TheVariants.{BadLimits, OutOfMemory};
ghost use Rattle.gmp_seq.specs.Fits.{AreLimits, Fits};
ghost use Rattle.gmp_acts.specs.Headline.{Headline, SameOpening};
ghost use Rattle.gmp_core.specs.Whole.{IsKept};
ghost use Rattle.gmp_core.specs.Plays.{PlaysOne};
ghost use Rattle.gmp_core.specs.Stage.{machines_of, parked};
ghost use Rattle.gmp_chance.specs.Drawn.{IsDrawn, TriesDraw, at_turn, awake, next_of, opening_table, whose_of};

use crate::choosing::choose;
use crate::dealer::{Dealer, Next, Whose};
use arrayvec::ArrayVec;
use gmp_acts::Choice;
use gmp_base::{GNo, MNo, Refusal, Refused};
use gmp_core::{Core, Outside, Want};
use gmp_history::History;
use gmp_seq::{Limits, Outcome};
use std::alloc::Global;
use std::marker::Model;

/// The number of the run: there is one.
const RUN: u64 = 0;

/// The most machines that a run has.
const MOST_MACHINES: usize = 64;

/// A core, what is outside it, and who deals.
///
/// A contract sees all machines together with the bodies, what is outside, and the dealer.
pub struct Drawn<T, O, D> {
    core: Core<T>,
    outside: O,
    dealer: D,
    /// What the last act was dealt. Each act writes what it reads, in place.
    choice: Choice,
    /// How many machines there are.
    machines: u8,
}

impl<T, O, D> Model for Drawn<T, O, D> {
    ghost use Rattle.std.specs.Prelude.{◌≤◌};
    ghost use Rattle.gmp_core.specs.Stage.{IsManned};
    ghost use Rattle.gmp_chance.specs.Drawn.{Table};

    ghost Value = { Table T O D };

    ghost view = { λ p. record { core = p.core; outside = p.outside; dealer = p.dealer } };

    ghost invariant = { λ p. IsManned p.machines p.core.system × (p.machines ≤ 64) };
}

/// Whose act comes next of a machine: a goroutine's step, else time's where a deadline is waited for, else its own.
fn whose_of(speaker: Option<GNo>, wanted: Want) -> Whose
    ensures { result ≡ whose_of speaker wanted }
{
    match (speaker, wanted) {
        (Some(g), _) => Whose::Goroutine(g),
        (None, Want::Moment(Some(_))) => Whose::Clock,
        (None, _) => Whose::Machine,
    }
}

impl<T: Drop, O: Outside<T> + Drop, D: Dealer + Drop> Drawn<T, O, D> {
    /// The core before its first act, of machines that are all fair, or none is. It keeps all entries.
    pub fn open(
        alloc: Global,
        limits: Limits,
        capacities: &[u32],
        bodies: Vec<T>,
        outside: O,
        dealer: D,
        is_fair: bool,
    ) -> Result<Self, Refusal>
        requires kept { IsKept limits }
        ensures within { OnOk result (AreLimits limits (length bodies.items) capacities.now) }
        ensures table { IfOk result (λ p. p ≡ opening_table is_fair limits capacities.now bodies.items outside dealer) }
        ensures why { IfErr result (λ why. (why ≡ BadLimits) ⊎ (why ≡ OutOfMemory)) }
        ensures limits { IfErr result (λ why. why ≡ BadLimits → ¬ (AreLimits limits (length bodies.items) capacities.now)) }
    {
        match Core::open_fair(alloc, RUN, limits, capacities, bodies, is_fair) {
            Ok(core) => Ok(Drawn {
                core,
                outside,
                dealer,
                choice: Choice::default(),
                machines: limits.machines,
            }),
            Err(Refused { why, back: _ }) => Err(why),
        }
    }

    /// Acts until the run has an outcome, or so many acts were made, or all machines are parked.
    /// No law says that each run comes to an outcome, so acts are counted.
    pub fn play(&mut self, acts: u32)
        ensures drawn { IsDrawn O.asks O.answers O.shows D.deals acts self.old self.new }
        ensures opened { SameOpening self.old.core.system.book self.new.core.system.book }
    {
        for made in 0..acts {
            let _ = made;
            if !self.act() {
                return;
            }
        }
    }

    /// One act of the machine that is dealt, unless the run has an outcome or no machine is left to act.
    fn act(&mut self) -> bool
        ensures tries { TriesDraw O.asks O.answers O.shows D.deals result self.old self.new }
        ensures opened { SameOpening self.old.core.system.book self.new.core.system.book }
    {
        if self.core.outcome().is_some() {
            return false;
        }
        let awake = self.awake();
        if awake.is_empty() {
            return false;
        }
        let nexts = self.nexts(&awake);
        let (place, word) = self.dealer.deal(&nexts);
        self.advance(MNo(awake[place]), word);
        true
    }

    /// The machines that aren't parked.
    /// A parked machine's one act is to ask whether it was woken, an entry that says nothing.
    fn awake(&self) -> ArrayVec<u8, MOST_MACHINES>
        ensures { result.items ≡ awake self.now.core.system }
    {
        let mut awake = ArrayVec::new();
        for m in 0..self.machines {
            if !self.core.parked(MNo(m)) {
                awake.push(m);
            }
        }
        awake
    }

    /// What each of these machines does next.
    fn nexts(&self, awake: &[u8]) -> ArrayVec<Next, MOST_MACHINES>
        requires few { length awake.now ≤ 64 }
        ensures { result.items ≡ map (next_of self.now.core.system) awake.now }
    {
        let mut nexts = ArrayVec::new();
        for m in awake {
            nexts.push(self.next(MNo(*m)));
        }
        nexts
    }

    /// What the machine does next.
    fn next(&self, m: MNo) -> Next
        ensures { result ≡ next_of self.now.core.system m.0 }
    {
        let whose = whose_of(self.core.speaker(m), self.core.wants(m));
        Next { machine: m, whose }
    }

    /// The machine, whose turn it is, makes its act.
    fn advance(&mut self, m: MNo, word: u64)
        requires there { m.0 < machines_of self.old.core.system }
        requires awake { parked self.old.core.system m.0 ≡ false }
        requires lasts { self.old.core.system.book.state.outcome ≡ None }
        ensures plays { PlaysOne O.asks O.answers O.shows word (at_turn m.0 self.old) (at_turn (m.0 + 1) self.new) }
        ensures dealer { self.new.dealer ≡ self.old.dealer }
        ensures opened { SameOpening self.old.core.system.book self.new.core.system.book }
    {
        choose(&mut self.core, &mut self.outside, &mut self.choice, m, word);
        // All entries are kept, so there is room for each.
        let _ = self.core.act(m, &self.choice);
    }

    /// Every call so far, as one legal run from the opening.
    #[tactic(auto, using(gmp_core::proofs::Before::whole_headline))]
    pub fn history(&self) -> &History
        ensures entries { result.now.list ≡ self.now.core.system.book.history }
        ensures headline { let book = self.now.core.system.book in Headline book.run book.limits book.bodies book.capacities self.now.core.system }
        ensures within { AreLimits self.now.core.system.book.limits self.now.core.system.book.bodies self.now.core.system.book.capacities }
        ensures fits { All Fits self.now.core.system.book.history }
    {
        self.core.history()
    }

    /// How the run ended, if it did.
    pub fn outcome(&self) -> Option<Outcome>
        ensures { result ≡ self.now.core.system.book.state.outcome }
    {
        self.core.outcome()
    }

    /// Lets all go.
    pub fn close(self) {
        let Drawn {
            core,
            outside: _,
            dealer: _,
            choice: _,
            machines: _,
        } = self;
        let _ = core.close();
    }
}
