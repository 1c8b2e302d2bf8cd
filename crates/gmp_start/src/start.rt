//! A state as a plain value: `Start`, and `StartChannel` for each of its channels. Fields are public, since a reader of a text fills them;
//! that they fit together is tested by `Start::fits`, and not kept by the type.
//!
//! There is no field for the number of entries before: it is the sum of `counts`.

use gmp_base::MNo;
use gmp_seq::{Goroutine, Mode};

/// One channel. Who waits on it stands in the statuses of the goroutines.
#[derive(Debug, Drop)]
pub struct StartChannel {
    /// How many values it has room for.
    pub capacity: u32,
    /// Whether it was closed.
    pub closed: bool,
    /// Its values, the first first. At most as many as there is room for, where the start fits.
    pub items: Vec<u64>,
}

/// A state of a run that lasts: all that has to be known to go on from there. It has no outcome: from a state with one no run goes on.
#[derive(Debug, Drop)]
pub struct Start {
    /// How many entries each machine made since the opening.
    pub counts: Vec<u64>,
    /// The latest moment that a tick told, in nanoseconds; 0 before the first tick.
    pub clock: u64,
    /// How many waits began since the opening. This is the arrival number of the next.
    pub arrivals: u64,
    /// Which machine holds each processor. A machine holds one at most.
    pub holders: Vec<Option<MNo>>,
    /// What each machine does. This list, `spinning`, `marked` and `counts` have one place for each machine.
    pub modes: Vec<Mode>,
    /// Whether each machine looks for work at other processors.
    pub spinning: Vec<bool>,
    /// Whether each machine has to look at all queues once more before it parks.
    pub marked: Vec<bool>,
    /// How many processors are active: those below this number alone are given out.
    pub active: u8,
    /// The channels, in the order in which they were made.
    pub channels: Vec<StartChannel>,
    /// What each goroutine does, and how often it became ready. Main is the first.
    pub goroutines: Vec<Goroutine>,
}
