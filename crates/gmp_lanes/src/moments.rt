//! The clock's moments, as a walk tells them.

use crate::range::Range;
use gmp_seq::Call;
use gmp_walk::Deed;
use std::alloc::{AllocError, Global};

/// The clock behind a tick.
#[derive(Clone, Copy)]
pub struct Moment {
    /// The tick's entry.
    pub number: u64,
    /// In nanoseconds.
    pub clock: u64,
}

/// The ticks that a walk told of.
#[derive(Drop)]
pub struct Moments {
    range: Range,
    /// The latest moment that was told.
    clock: u64,
    pub list: Vec<Moment>,
}

impl Moments {
    /// None yet, of these entries, where the clock shows this.
    pub fn new(alloc: Global, range: Range, clock: u64) -> Self {
        Moments {
            range,
            clock,
            list: Vec::new(alloc),
        }
    }

    /// Notes a tick.
    pub fn hear(&mut self, deed: &Deed) -> Result<(), AllocError> {
        if let Call::Tick(now) = deed.entry.call {
            self.clock = self.clock.max(now);
            if self.range.contains(deed.number) {
                self.list.push(Moment {
                    number: deed.number,
                    clock: self.clock,
                })?;
            }
        }
        Ok(())
    }
}
