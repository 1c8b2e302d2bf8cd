//! Who acts next, and by which word.
ghost use Rattle.std.specs.Prelude.{◌≡◌, ◌<◌, length};
ghost use Rattle.gmp_chance.specs.Even.{seeded};

use gmp_base::{GNo, MNo};
use rand_core::utils::{NextWord, next_u64_via_u32};
use rand_pcg::Lcg64Xsh32;
use std::marker::Model;

/// The generator's stream, of which the seed chooses the beginning.
const STREAM: u64 = 54;

/// Whose act a machine makes next.
#[derive(Clone, Copy, Debug, PartialEq, Eq)]
pub enum Whose {
    /// Its own: it takes work, wakes another machine, or the like.
    Machine,
    /// This goroutine's: it is resumed, or its call or its blocking call is made.
    Goroutine(GNo),
    /// The clock's: it waits for a deadline, to which time goes on.
    Clock,
}

/// A machine that isn't parked, and what it does next.
#[derive(Clone, Copy, Debug, PartialEq, Eq)]
pub struct Next {
    pub machine: MNo,
    pub whose: Whose,
}

impl Default for Next {
    /// What means nothing, for the unused places of a list.
    fn default() -> Self
        ensures { result ≡ record { machine = record { 0 = 0 }; whose = Whose.Machine } }
    {
        Next {
            machine: MNo(0),
            whose: Whose::Machine,
        }
    }
}

/// Who deals each act its machine and its word.
pub trait Dealer {
    ghost use Rattle.std.specs.Prelude.{List, ℕ, ◌<◌, length};
    ghost use Rattle.gmp_chance.specs.declared.dealer.Next.{Next};

    /// From itself, where these may come next, to this place among them, this word and itself after.
    ghost deals: { Self → List Next → ℕ → ℕ → Self → Type 0 };

    /// The place, among those that may come next, of the one that does, and the word that its act draws.
    fn deal(&mut self, nexts: &[Next]) -> (usize, u64)
        requires some { 0 < length nexts.now }
        ensures deals { deals self.old nexts.now result.0 result.1 self.new }
        ensures there { result.0 < length nexts.now };
}

/// Draws each machine as often as another, and each word, from a seed. A contract sees the generator.
#[derive(Drop)]
pub struct Even {
    generator: Lcg64Xsh32,
}

impl Model for Even {
    ghost use Rattle.rand_pcg.specs.Lcg.{Lcg};

    ghost Value = { Lcg };

    ghost view = { λ e. e.generator };
}

impl Even {
    /// From this seed.
    pub fn new(seed: u64) -> Self
        ensures { result ≡ seeded seed }
    {
        Even {
            generator: Lcg64Xsh32::new(seed, STREAM),
        }
    }
}

impl Dealer for Even {
    ghost use Rattle.gmp_chance.specs.Even.{DealsEvenly};

    ghost deals = { DealsEvenly };

    fn deal(&mut self, nexts: &[Next]) -> (usize, u64) {
        let place = self.generator.next_word() as usize % nexts.len();
        (place, next_u64_via_u32(&mut self.generator))
    }
}
