//! Runs in threads, in which main makes a channel and starts more goroutines than a queue has room for at first.

use crate::error::RunError;
use crate::threads::Last;
use gmp_base::{Ask, Body, GNo, Refusal, Woke};
use gmp_history::{History, audit};
use gmp_run::{Open, Report, Unrun, run};
use gmp_seq::{Call, Limits, Outcome};
use gmp_worker::Boxed;
use std::alloc::Global;
use std::sync::Wait;
use std::thread::Threads;

const BODIES: u16 = 100;

/// What a body does next.
#[derive(Clone, Copy, Drop)]
enum Stage {
    /// A channel is made, and made again where memory was wanting.
    Makes,
    /// The goroutine of this number is started, and then the next.
    Starts(u16),
    Exits,
}

/// Main makes a channel, starts the others, yields and exits. The others exit.
#[derive(Drop)]
struct Numbered {
    number: u16,
    stage: Stage,
}

impl Numbered {
    fn of(number: u16) -> Self {
        let stage = if number == 0 {
            Stage::Makes
        } else {
            Stage::Exits
        };
        Numbered { number, stage }
    }
}

impl Body for Numbered {
    ghost resumed = { λ _ _ _ _. Unit {0} };

    ghost blocked = { λ _ _ _. Unit {0} };

    fn resume(&mut self, woke: Woke) -> Ask {
        let g = match self.stage {
            Stage::Makes if woke == Woke::First || woke == Woke::NoMemory => return Ask::Make(4),
            Stage::Makes => 1,
            Stage::Starts(g) => g,
            Stage::Exits => return Ask::Exit,
        };
        if g < BODIES {
            self.stage = Stage::Starts(g + 1);
            Ask::Go(GNo(g))
        } else {
            self.stage = Stage::Exits;
            Ask::Yield
        }
    }

    fn blocking(&mut self) -> u64 {
        u64::from(self.number)
    }
}

/// All bodies are there, in order.
fn are_in_order(bodies: &mut Vec<Boxed>) -> bool {
    if bodies.len() != usize::from(BODIES) {
        return false;
    }
    for (body, number) in bodies.iter_mut().zip(0..BODIES) {
        if body.blocking() != u64::from(number) {
            return false;
        }
    }
    true
}

/// How many makes, puts and exits there are.
fn counts(history: &History) -> [usize; 3] {
    let mut counts = [0usize; 3];
    for entry in history.iter() {
        let place = match entry.call {
            Call::Make(_) => 0,
            Call::Put(_) => 1,
            Call::Exit => 2,
            _ => continue,
        };
        counts[place] = counts[place].saturating_add(1);
    }
    counts
}

/// What is wrong in the report. By one machine all others exit before main does, and at most one ticket was put on the shelf, as one whose
/// push was refused is.
fn wrong_in(mut report: Report<Boxed>) -> Option<&'static str> {
    let [makes, puts, exits] = counts(&report.history);
    let is_alone = report.logs.len() == 1;
    if !are_in_order(&mut report.bodies) {
        Some("the bodies of a report")
    } else if audit(&report.history, &report.logs).is_err() {
        Some("the logs of a report")
    } else if report.outcome != Some(Outcome::MainEnded) || makes != 1 {
        Some("the end of a run")
    } else if is_alone && (puts > 1 || exits != usize::from(BODIES)) {
        Some("a ticket whose push was refused")
    } else {
        None
    }
}

/// The body of this number, at the second time where memory was refused.
fn boxed(alloc: Global, number: u16) -> Option<Box<Numbered, Global>> {
    match Box::new(alloc, Numbered::of(number)) {
        Ok(body) => Some(body),
        Err(_) => Box::new(alloc, Numbered::of(number)).ok(),
    }
}

/// What came of a run that was begun.
fn judged(report: Report<Boxed>) -> Result<(), RunError> {
    match wrong_in(report) {
        None => Ok(()),
        Some(what) => Err(RunError::Wrong(what)),
    }
}

/// Runs the bodies by so many processors and machines. Where memory is refused they come back in order, and are run again.
pub(super) fn play_run<R: Threads + Wait + Sync>(
    rt: &R,
    alloc: Global,
    (procs, machines): (u8, u8),
) -> Result<(), RunError> {
    let limits = Limits {
        procs,
        machines,
        channels: 1,
        entries: 10_000,
        room: 10_000,
    };
    let mut bodies: Vec<Boxed> = match Vec::with_capacity(alloc, usize::from(BODIES)) {
        Ok(bodies) => bodies,
        Err(_) => Vec::with_capacity(alloc, usize::from(BODIES))?,
    };
    for number in 0..BODIES {
        let Some(body) = boxed(alloc, number) else {
            return Err(RunError::OutOfMemory);
        };
        if bodies.push(body).is_err() {
            return Err(RunError::OutOfMemory);
        }
    }
    let mut bodies = match run(rt, alloc, 7, limits, &[], bodies, &Last, &Open, 0) {
        Ok(report) => return judged(report),
        Err(Unrun { why, bodies }) if why == Refusal::OutOfMemory => bodies,
        Err(_) => return Err(RunError::Wrong("why a run was not begun")),
    };
    if !are_in_order(&mut bodies) {
        return Err(RunError::Wrong("the bodies of a run"));
    }
    match run(rt, alloc, 7, limits, &[], bodies, &Last, &Open, 0) {
        Ok(report) => judged(report),
        Err(_) => Err(RunError::OutOfMemory),
    }
}
