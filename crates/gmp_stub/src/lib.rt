//! Values that exist in proofs alone, each with two owners: a `Board` has all of them, and each has a `Stub` that agrees with it. A value
//! changes only where its board and its stub are both at hand. Both take no bytes, and their functions do nothing at run time.
//!
//! A board under a lock and a stub in each thread say of what the threads did what neither knows alone.
//! **Invariant**: what a stub says stands on the board of its name, at its place (`Rows`).
#![tactic(auto)]

ghost use Rattle.std.specs.Prelude.{◌≡◌, ℕ, List, []};
ghost use base.Stored.{coded_list};
ghost use Rattle.gmp_stub.specs.Rows.{board_owns, stub_owns};

use std::marker::{Model, PhantomData};

/// All values.
#[derive(Drop)]
pub struct Board<X> {
    marker: PhantomData<X>,
    /// Which board it is.
    pub ghost name: { ℕ },
    pub ghost values: { List X } by { coded_list X.code },
}

impl<X> Model for Board<X> {
    ghost also_owns = { λ b. board_owns X.row.coded.code b.name b.values };
}

/// The value at this place of the board.
#[derive(Drop)]
pub struct Stub<X> {
    marker: PhantomData<X>,
    pub ghost name: { ℕ },
    pub ghost at: { ℕ },
    pub ghost value: { X } by { X.code },
}

impl<X> Model for Stub<X> {
    ghost also_owns = { λ s. stub_owns X.row.coded.code s.name s.at s.value };
}

impl<X> Board<X> {
    ghost use Rattle.gmp_stub.specs.Boards.{IsAdded, IsSet};

    /// A board of its own, with no value.
    #[inline(always)]
    pub fn new() -> Board<X>
        ensures { result.values ≡ [] }
    {
        Board {
            marker: PhantomData,
        }
    }

    /// A value more.
    #[inline(always)]
    pub fn add(&mut self, value: &X) -> Stub<X>
        ensures { IsAdded self.old self.new result value.now }
    {
        Stub {
            marker: PhantomData,
        }
    }

    /// The value of the stub becomes this one.
    #[inline(always)]
    pub fn set(&mut self, stub: &mut Stub<X>, value: &X)
        requires { stub.old.name ≡ self.old.name }
        ensures { IsSet self.old self.new stub.old stub.new value.now }
    {}
}

unsafe impl<X> Send for Board<X> {}

unsafe impl<X> Send for Stub<X> {}
