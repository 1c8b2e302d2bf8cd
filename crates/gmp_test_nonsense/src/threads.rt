//! One run in threads. `Drawn` is a body that asks nonsense, `Last` a clock by which each deadline is due, `Yields` a gate.

use crate::drawing::Draw;
use crate::error::RunError;
use crate::judging::replay;
use crate::limits::{BODIES, CAPACITIES, LIMITS, is_fair};
use crate::tally::Ended;
use gmp_base::{Ask, Body, MNo, Woke};
use gmp_driver::Act;
use gmp_history::audit;
use gmp_run::{Clock, Gate, Report, run_fair};
use gmp_seq::Limits;
use gmp_worker::Boxed;
use std::alloc::Global;
use std::sync::Wait;
use std::thread::{Threads, yield_now};

/// A body that asks what is drawn, whatever it is told.
#[derive(Drop)]
struct Drawn {
    draw: Draw,
}

impl Body for Drawn {
    ghost resumed = { λ _ _ _ _. Unit {0} };

    ghost blocked = { λ _ _ _. Unit {0} };

    fn resume(&mut self, _woke: Woke) -> Ask {
        self.draw.next_ask()
    }

    fn blocking(&mut self) -> u64 {
        self.draw.word()
    }
}

/// A clock that stands at the greatest moment, so that each deadline is due.
#[derive(Drop)]
pub struct Last;

impl Clock for Last {
    fn now(&self) -> u64 {
        u64::MAX
    }

    fn rest(&self, _most: u64) {}
}

/// Lets another thread go on before each ask, so that one machine doesn't make all calls.
#[derive(Drop)]
struct Yields;

impl Gate for Yields {
    fn before(&self, _m: MNo, act: &Act) {
        if matches!(act, Act::Resume) {
            yield_now();
        }
    }
}

/// Whatever the schedule, each machine was started, the logs agree with the history, which is legal by the plain scheduler with this
/// outcome, and all bodies are back.
fn judged(alloc: Global, limits: Limits, report: &Report<Boxed>) -> Result<Ended, RunError> {
    if report.started != limits.machines {
        return Err(RunError::NotStarted(report.started, limits.machines));
    }
    if report.limits != limits || report.bodies.len() != usize::from(BODIES) {
        return Err(RunError::OtherOpening);
    }
    if let Err(mismatch) = audit(&report.history, &report.logs) {
        return Err(RunError::OtherLog(mismatch.m.0));
    }
    let Some(outcome) = report.outcome else {
        return Err(RunError::Endless);
    };
    let entries = report.history.len();
    replay(alloc, limits, &report.history, outcome)?;
    Ok(Ended { outcome, entries })
}

/// Runs a body for each goroutine, each with a generator of its own by this seed, by so many processors and machines, and judges the
/// report.
pub fn threaded<R: Threads + Wait + Sync>(
    rt: &R,
    alloc: Global,
    seed: u64,
    (procs, machines): (u8, u8),
) -> Result<Ended, RunError> {
    let limits = Limits {
        procs,
        machines,
        ..LIMITS
    };
    let first = seed.wrapping_mul(u64::from(BODIES));
    let mut bodies: Vec<Boxed> = Vec::new(alloc);
    for g in 0..BODIES {
        let draw = Draw::new(first.wrapping_add(u64::from(g)), procs);
        let Ok(body) = Box::new(alloc, Drawn { draw }) else {
            return Err(RunError::OutOfMemory);
        };
        if bodies.push(body).is_err() {
            return Err(RunError::OutOfMemory);
        }
    }
    match run_fair(
        rt,
        alloc,
        seed,
        limits,
        &CAPACITIES,
        bodies,
        &Last,
        &Yields,
        seed,
        is_fair(seed),
    ) {
        Ok(report) => judged(alloc, limits, &report),
        Err(unrun) => Err(RunError::NotBegun(unrun.why)),
    }
}
