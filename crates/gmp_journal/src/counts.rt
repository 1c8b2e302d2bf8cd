//! How many entries were made, by each machine and by all.
//! A history may be handed out in segments, so its length says nothing of the run: passes, the limit and the outcome go by these counts.
ghost use Rattle.std.specs.Prelude.{◌≡◌, ◌+◌, ◌<◌, ◌^◌, IfOk, length, replicate, slice_index, slice_set, sum};

use gmp_base::MNo;
use std::alloc::{AllocError, Global};
use std::marker::Model;

/// How many entries each machine made, with their sum. A contract sees the list of them.
#[derive(Drop)]
pub(crate) struct Counts {
    each: Vec<u64>,
    all: u64,
}

impl Model for Counts {
    ghost use Rattle.std.specs.Prelude.{◌≡◌, List, ℕ, sum};

    ghost Value = { List ℕ };

    ghost view = { λ c. c.each.items };

    ghost invariant = { λ c. c.all ≡ sum c.each.items };
}

impl Counts {
    /// No machine made any.
    pub(crate) fn none(alloc: Global, machines: u8) -> Result<Self, AllocError>
        ensures { IfOk result (λ c. c ≡ replicate machines 0) }
    {
        let each = vec![in alloc; 0; machines as usize]?;
        Ok(Counts { each, all: 0 })
    }

    /// How many m made: the number of calls that its latest pass has to name. Of a machine that isn't there 0.
    #[inline(always)]
    pub(crate) fn of(&self, m: MNo) -> u64
        ensures { result ≡ slice_index self.now m.0 }
    {
        self.each.get(m.0 as usize).copied().unwrap_or(0)
    }

    /// How many each made, in order of machines.
    pub(crate) fn as_slice(&self) -> &[u64]
        ensures { result.now ≡ self.now }
    {
        &self.each
    }

    /// How many all made. Kept beside the list: each call asks for it, and must not add up as many numbers as there are machines.
    #[inline(always)]
    pub(crate) fn all(&self) -> u64
        ensures { result ≡ sum self.now }
    {
        self.all
    }

    /// m made one more. With a limit of entries below 2 ^ 63 neither number overflows.
    #[inline(always)]
    pub(crate) fn add_one(&mut self, m: MNo)
        requires there { m.0 < length self.old }
        requires few { sum self.old < 2 ^ 63 }
        ensures counts { self.new ≡ slice_set self.old m.0 (slice_index self.old m.0 + 1) }
        ensures all { sum self.new ≡ sum self.old + 1 }
    {
        self.each[m.0 as usize] += 1;
        self.all += 1;
    }
}
