//! A machine's pass as its driver keeps it: in plain parts, as the values that it holds.
ghost use Rattle.std.specs.Prelude.{◌≡◌, ℕ, IsSome, None, Some};
ghost use Rattle.gmp_driver.specs.Pass.{pass_of};

use gmp_base::{MNo, Pass};

/// The parts of a pass without its run, which is the driver's.
#[derive(Drop)]
pub(crate) struct PassParts {
    pub m: MNo,
    pub calls: u64,
    pub seen: u64,
    /// Whether an act has the pass: then the other parts have no meaning.
    pub is_out: bool,
}

impl PassParts {
    /// The parts of this pass.
    #[inline(always)]
    pub(crate) fn of(pass: Pass) -> Self
        ensures { pass_of pass.run result ≡ Some pass }
    {
        let (_, m, calls, seen) = pass.open();
        PassParts {
            m,
            calls,
            seen,
            is_out: false,
        }
    }

    /// Hands the pass out, of this run.
    // Made anew from its parts: an Option of a pass would be copied whole, with the bytes between its fields.
    #[inline(always)]
    pub(crate) fn hand_out(&mut self, run: u64) -> Pass
        requires { IsSome (pass_of run self.old) }
        ensures pass { pass_of run self.old ≡ Some result }
        ensures left { (any : ℕ) → pass_of any self.new ≡ None }
    {
        self.is_out = true;
        Pass::of(run, self.m, self.calls, self.seen)
    }
}
