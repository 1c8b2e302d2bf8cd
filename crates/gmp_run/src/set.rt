//! Sets of machines, as bits of one word: there are 64 machines at most.

use gmp_base::MNo;

/// Machines by their numbers, which are below 64.
#[derive(Clone, Copy)]
pub(crate) struct Set {
    bits: u64,
}

impl Set {
    pub fn none() -> Self {
        Set { bits: 0 }
    }

    /// All 64, whichever there are: whoever goes over them stops at the last machine.
    pub fn all() -> Self {
        Set { bits: u64::MAX }
    }

    pub fn of(m: MNo) -> Self {
        Set {
            bits: 1u64.wrapping_shl(u32::from(m.0)),
        }
    }

    pub fn has(self, m: MNo) -> bool {
        self.bits & Set::of(m).bits != 0
    }

    /// The set with m in it, which may be there before.
    pub fn with(self, m: MNo) -> Self {
        Set {
            bits: self.bits | Set::of(m).bits,
        }
    }

    /// The set without m.
    pub fn without(self, m: MNo) -> Self {
        Set {
            bits: self.bits & !Set::of(m).bits,
        }
    }

    pub fn count(self) -> u32 {
        self.bits.count_ones()
    }

    pub fn is_empty(self) -> bool {
        self.bits == 0
    }

    /// Whether machine 0 is in it; then all move down by one. So whoever goes over the machines in order asks for each by one bit.
    pub fn take_first(&mut self) -> bool {
        let first = self.bits & 1 != 0;
        self.bits >>= 1;
        first
    }

    /// The machine with the least number.
    pub fn least(self) -> Option<MNo> {
        if self.bits == 0 {
            return None;
        }
        u8::try_from(self.bits.trailing_zeros())
            .ok()
            .map(|m| MNo(m))
    }
}
