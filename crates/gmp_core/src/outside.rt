//! What acts read that is not in the core.

use gmp_base::{Ask, Woke};

/// What acts read that is not in the core: bodies of type `T` ask through it, and it has the clock.
pub trait Outside<T> {
    ghost use Rattle.std.specs.Prelude.{Option, ℕ};
    ghost use Rattle.gmp_base.specs.declared.ask.Ask.{Ask};
    ghost use Rattle.gmp_base.specs.declared.ask.Woke.{Woke};

    /// From itself and a body before, which is told this answer, to this ask and both after.
    ghost asks: { Self → T → Woke → Ask → Self → T → Type 0 };

    /// From itself and a body before, by its blocking call, to this number and both after.
    ghost answers: { Self → T → ℕ → Self → T → Type 0 };

    /// From itself before, where this deadline is minded, to this moment and itself after.
    ghost shows: { Self → Option ℕ → ℕ → Self → Type 0 };

    /// Goes on with the body, by this answer, until it asks again, and writes what it asks.
    fn ask(&mut self, body: &mut T, woke: Woke, out: &mut Ask)
        ensures { asks self.old body.old woke out.new self.new body.new };

    /// Makes the body's blocking call.
    fn number(&mut self, body: &mut T) -> u64
        ensures { answers self.old body.old result self.new body.new };

    /// What the clock shows to a machine that minds this deadline, if it does.
    fn moment(&mut self, minded: Option<u64>) -> u64
        ensures { shows self.old minded result self.new };
}
