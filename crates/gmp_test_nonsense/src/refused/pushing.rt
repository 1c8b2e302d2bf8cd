//! Pushes onto a queue that has to grow.

use super::{Trial, Tried};
use crate::error::RunError;
use gmp_base::{GNo, Ticket};
use gmp_queue::{Owner, Thief};
use std::alloc::Global;

/// The run's number.
const RUN: u64 = 7;

/// How many tickets are pushed, each of another goroutine.
const TICKETS: u16 = 4096;

/// The readiness that each ticket is of.
const EPOCH: u64 = 1;

#[derive(Drop)]
pub(super) struct Pushing {
    owner: Owner,
    thief: Thief,
    /// How many tickets were pushed.
    pushed: u16,
}

/// The tickets come back in order, and then none.
fn are_popped(owner: &mut Owner) -> bool {
    for g in 0..TICKETS {
        let popped = owner.pop().map(Ticket::open);
        if popped != Some((RUN, GNo(g), EPOCH)) {
            return false;
        }
    }
    owner.pop().map(Ticket::open).is_none()
}

impl Trial for Pushing {
    fn new(alloc: Global) -> Result<Self, RunError> {
        let (mut owners, mut rows) = gmp_queue::open(alloc, RUN, 1, 1)?;
        let thief = rows.pop().and_then(|mut row| row.pop());
        match (owners.pop(), thief) {
            (Some(owner), Some(thief)) => Ok(Pushing {
                owner,
                thief,
                pushed: 0,
            }),
            _ => Err(RunError::Wrong("the ends of a queue")),
        }
    }

    fn changed(&mut self, _was_refused: bool) -> Option<&'static str> {
        (self.thief.hint() != u32::from(self.pushed)).then_some("the queue of a push")
    }

    fn tried(self, _alloc: Global) -> Tried<Self> {
        let mut trial = self;
        for g in trial.pushed..TICKETS {
            if let Err(back) = trial.owner.push(Ticket::of(RUN, GNo(g), EPOCH)) {
                if back.open() != (RUN, GNo(g), EPOCH) {
                    return Tried::Wrong("the ticket of a push");
                }
                trial.pushed = g;
                return Tried::Refused(trial);
            }
        }
        if are_popped(&mut trial.owner) {
            Tried::Done
        } else {
            Tried::Wrong("the tickets of a queue")
        }
    }

    fn let_go(self) {
        drop(self);
    }
}
