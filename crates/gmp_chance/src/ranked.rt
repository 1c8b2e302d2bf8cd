//! Goroutines by ranks that are drawn.
ghost use Rattle.std.specs.Prelude.{ℕ, ◌≡◌, ◌⊎◌, ◌+◌, ◌<◌, ◌≤◌, IfOk, IfSome, None, Some, length, slice_get};
ghost use Rattle.gmp_chance.specs.Ranked.{Falls, IsGreatest, Stays, StepsOn, WorksOn, rank_at, rank_of, ranked, seat_of};

use crate::dealer::{Dealer, Next, Whose};
use arrayvec::ArrayVec;
use rand_core::utils::{NextWord, next_u64_via_u32};
use rand_pcg::Lcg64Xsh32;
use std::alloc::{AllocError, Global};
use std::marker::Model;

/// The generator's stream, of which the seed chooses the beginning.
const STREAM: u64 = 55;

/// The most falls.
const FALLS: usize = 8;

/// A machine's own acts come before all steps: a rank above all others.
const OWN: u64 = 1 << 32;

/// Ranks for goroutines and the clock, drawn from a seed: the one of the greatest rank makes its step, and at some steps, which are drawn too,
/// the one that would make it falls behind all that never fell. A goroutine's steps are that it is resumed, its call, and its blocking call;
/// the clock's is that time goes on to a deadline. What machines do of themselves, as to take work, comes before all steps.
///
/// This is probabilistic concurrency testing (Burckhardt and others, 2010). Its threads are the goroutines and the clock, where there are as
/// many processors as goroutines: with fewer, those are ranked that machines hold. One that yields until another comes, or a ticker, keeps its
/// rank: where it is the greatest, nobody else runs, and the history fills.
#[derive(Drop)]
pub struct Ranked {
    generator: Lcg64Xsh32,
    /// The clock's, and then those of goroutines, by number.
    ranks: Vec<u32>,
    /// At which steps one falls. Its rank is then the number of the fall.
    falls: ArrayVec<u64, FALLS>,
    made: u64,
}

impl Model for Ranked {
    ghost use Rattle.gmp_chance.specs.Ranked.{Ranks};

    ghost Value = { Ranks };

    ghost view = { λ r. record { generator = r.generator; ranks = r.ranks.items; falls = r.falls.items; made = r.made } };
}

/// The first of the falls at this step, if one is.
fn fall_at(falls: &[u64], step: u64) -> Option<u32>
    requires { length falls.now ≤ 8 }
    ensures some { IfSome result (λ fall. slice_get falls.now fall ≡ Some step) }
    ensures first { IfSome result (λ fall. (other : ℕ) → other < fall → slice_get falls.now other ≡ Some step → ⊥) }
    ensures none { result ≡ None → (fall : ℕ) → slice_get falls.now fall ≡ Some step → ⊥ }
{
    for fall in 0..falls.len() {
        if falls[fall] == step {
            return Some(fall as u32);
        }
    }
    None
}

/// The seat of a rank. A machine's own act has none.
fn seat_of(whose: Whose) -> Option<usize>
    ensures { result ≡ seat_of whose }
{
    match whose {
        Whose::Machine => None,
        Whose::Clock => Some(0),
        Whose::Goroutine(g) => Some(g.0 as usize + 1),
    }
}

/// The rank by which an act comes.
fn rank_of(ranks: &[u32], whose: Whose) -> u64
    ensures { result ≡ rank_of ranks.now whose }
{
    match seat_of(whose) {
        None => OWN,
        Some(seat) => u64::from(ranks.get(seat).copied().unwrap_or(0)),
    }
}

/// The first place of the greatest rank.
fn first(ranks: &[u32], nexts: &[Next]) -> usize
    requires { 0 < length nexts.now }
    ensures { IsGreatest ranks.now nexts.now result }
{
    let mut first = 0;
    for place in 1..nexts.len() {
        if rank_of(ranks, nexts[first].whose) < rank_of(ranks, nexts[place].whose) {
            first = place;
        }
    }
    first
}

impl Ranked {
    /// From this seed, for so many goroutines, main with them: so many falls, at most 8, each among the first of so many steps. A goroutine
    /// beyond has rank 0: it comes last, and never falls.
    pub fn new(
        alloc: Global,
        seed: u64,
        goroutines: u16,
        falls: u8,
        steps: u32,
    ) -> Result<Self, AllocError>
        ensures { IfOk result (λ r. r ≡ ranked seed goroutines falls steps) }
    {
        let mut generator = Lcg64Xsh32::new(seed, STREAM);
        let mut ranks = Vec::new(alloc);
        for _ in 0..u32::from(goroutines) + 1 {
            // Above the ranks of those that fell.
            ranks.push(generator.next_word().max(8))?;
        }
        let mut at = ArrayVec::new();
        for _ in 0..falls.min(FALLS as u8) {
            at.push(u64::from(generator.next_word() % steps.max(1)));
        }
        Ok(Ranked {
            generator,
            ranks,
            falls: at,
            made: 0,
        })
    }

    /// At a step one may fall. A machine's own act is none.
    fn step(&mut self, whose: Whose)
        ensures ranked { WorksOn self.old whose self.new ⊎ StepsOn self.old whose self.new }
        ensures rest { self.new ≡ record self.old { ranks = self.new.ranks; made = self.new.made } }
    {
        if let Whose::Machine = whose {
            return;
        }
        self.fall(whose);
        self.made = self.made.wrapping_add(1);
    }

    /// Lets the one whose step comes fall behind, if one falls at this step.
    fn fall(&mut self, whose: Whose)
        ensures ranked { Falls self.old whose self.new.ranks ⊎ Stays self.old self.new.ranks }
        ensures rest { self.new ≡ record self.old { ranks = self.new.ranks } }
    {
        let Some(fall) = fall_at(&self.falls, self.made) else {
            return;
        };
        let Some(seat) = seat_of(whose) else {
            return;
        };
        if let Some(rank) = self.ranks.get_mut(seat) {
            *rank = fall;
        }
    }
}

impl Dealer for Ranked {
    ghost use Rattle.gmp_chance.specs.Ranked.{DealsByRank};

    ghost deals = { DealsByRank };

    fn deal(&mut self, nexts: &[Next]) -> (usize, u64) {
        let would = first(&self.ranks, nexts);
        self.step(nexts[would].whose);
        let place = first(&self.ranks, nexts);
        (place, next_u64_via_u32(&mut self.generator))
    }
}
