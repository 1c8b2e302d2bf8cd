//! Openings of a book, of a core and of queues. Bodies are 70 and up, owners 80 and up.

use super::{Trial, Tried};
use crate::error::RunError;
use gmp_base::{Pass, Refusal};
use gmp_book::{Book, Unopened};
use gmp_core::Core;
use gmp_seq::Limits;
use std::alloc::Global;

/// The run's number.
const RUN: u64 = 7;

const LIMITS: Limits = Limits {
    procs: 2,
    machines: 3,
    channels: 16,
    entries: 100,
    room: 100,
};

const BODIES: [u32; 3] = [70, 71, 72];

const OWNERS: [u32; 2] = [80, 81];

const CAPACITIES: [u32; 2] = [1, 4096];

/// There is a pass for each machine, of this run, that has made no call and seen no entry.
fn are_first(passes: Vec<Pass>) -> bool {
    let mut passes = passes;
    let mut are_first = passes.len() == usize::from(LIMITS.machines);
    while let Some(pass) = passes.pop() {
        let (run, m, calls, seen) = pass.open();
        are_first &= run == RUN && usize::from(m.0) == passes.len() && calls == 0 && seen == 0;
    }
    passes.destroy_empty();
    are_first
}

#[derive(Drop)]
pub(super) struct BookOpening {
    bodies: Vec<u32>,
    owners: Vec<u32>,
}

impl Trial for BookOpening {
    fn new(alloc: Global) -> Result<Self, RunError> {
        let bodies = BODIES.to_vec(alloc)?;
        let owners = OWNERS.to_vec(alloc)?;
        Ok(BookOpening { bodies, owners })
    }

    fn changed(&mut self, _was_refused: bool) -> Option<&'static str> {
        if self.bodies.as_slice() != BODIES.as_slice() {
            Some("the bodies of a book")
        } else if self.owners.as_slice() != OWNERS.as_slice() {
            Some("the owners of a book")
        } else {
            None
        }
    }

    fn tried(self, alloc: Global) -> Tried<Self> {
        let BookOpening { bodies, owners } = self;
        match Book::open(alloc, RUN, LIMITS, &CAPACITIES, bodies, owners) {
            Ok((book, passes)) => {
                drop(book);
                if are_first(passes) {
                    Tried::Done
                } else {
                    Tried::Wrong("the passes of a book")
                }
            }
            Err(unopened) => {
                let Unopened {
                    why,
                    bodies,
                    owners,
                } = unopened;
                if why == Refusal::OutOfMemory {
                    Tried::Refused(BookOpening { bodies, owners })
                } else {
                    Tried::Wrong("why a book was not opened")
                }
            }
        }
    }

    fn let_go(self) {
        drop(self);
    }
}

#[derive(Drop)]
pub(super) struct CoreOpening {
    bodies: Vec<u32>,
}

impl Trial for CoreOpening {
    fn new(alloc: Global) -> Result<Self, RunError> {
        let bodies = BODIES.to_vec(alloc)?;
        Ok(CoreOpening { bodies })
    }

    fn changed(&mut self, _was_refused: bool) -> Option<&'static str> {
        (self.bodies.as_slice() != BODIES.as_slice()).then_some("the bodies of a core")
    }

    fn tried(self, alloc: Global) -> Tried<Self> {
        match Core::open(alloc, RUN, LIMITS, &CAPACITIES, self.bodies) {
            Ok(core) => {
                core.close();
                Tried::Done
            }
            Err(refused) => {
                let (why, bodies) = refused.open();
                if why == Refusal::OutOfMemory {
                    Tried::Refused(CoreOpening { bodies })
                } else {
                    Tried::Wrong("why a core was not opened")
                }
            }
        }
    }

    fn let_go(self) {
        drop(self);
    }
}

/// It is handed nothing.
#[derive(Drop)]
pub(super) struct QueueOpening;

impl Trial for QueueOpening {
    fn new(_alloc: Global) -> Result<Self, RunError> {
        Ok(QueueOpening)
    }

    fn changed(&mut self, _was_refused: bool) -> Option<&'static str> {
        None
    }

    fn tried(self, alloc: Global) -> Tried<Self> {
        match gmp_queue::open(alloc, RUN, LIMITS.procs, LIMITS.machines) {
            Ok((owners, thieves)) if owners.len() == 2 && thieves.len() == 3 => Tried::Done,
            Ok(_) => Tried::Wrong("the ends of queues"),
            Err(_) => Tried::Refused(self),
        }
    }

    fn let_go(self) {
        drop(self);
    }
}
