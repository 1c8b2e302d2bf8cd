//! `gmp_test_nonsense FIRST N T CUT [TAKEN]` tries what takes memory, and plays the N runs of the seeds from FIRST on: acts of drawn machines
//! of the core with drawn choices, each run judged by the plain scheduler (docs/HACKING.md). In each second run the machines are fair. The
//! first 2,000 entries of each are cut, at each entry in the first CUT runs and at each 100th in the others: both parts are right, and joined
//! they are the run again. Then T runs of drawn bodies in threads by each of three sizes.
//!
//! With TAKEN memory is taken and given back so often before, so that of a program whose Nth allocation is refused another one is; and it
//! says where that comes behind the trials.
//!
//! It prints how many runs ended in which way, or the first run that falls short, and how. How a run by several machines ends varies.
#![tactic(auto)]

mod cutting;
mod drawing;
mod error;
mod judging;
mod limits;
mod playing;
mod refused;
mod tally;
mod threads;
mod watching;

use crate::error::RunError;
use crate::limits::SIZES;
use crate::playing::played;
use crate::refused::all_tried;
use crate::tally::Tally;
use crate::threads::threaded;
use anyhow::{Context, Result};
use std::alloc::Global;
use std::env;
use std::process::ExitCode;
use std::sync::Wait;
use std::thread::Threads;

/// How often memory is taken behind the trials, to find out whether the allocation that is refused is there.
const MOST_BEHIND: u64 = 1_000;

/// The number that a word is.
fn number(word: Option<String>) -> Result<u64> {
    let word = word.context("gmp_test_nonsense FIRST N T CUT [TAKEN]")?;
    Ok(word.as_str().parse()?)
}

/// Takes memory so often, and gives it back.
fn take(alloc: Global, times: u64) -> Result<()> {
    for _ in 0..times {
        let _taken = Box::new(alloc, 0u8)?;
    }
    Ok(())
}

/// Plays the runs of these seeds, of which the first `cut` are cut at each entry; where one falls short, its seed, and how many acts it had.
fn all_played(
    alloc: Global,
    first: u64,
    count: u64,
    cut: u64,
) -> Result<Tally, (u64, u32, RunError)> {
    let mut tally = Tally::default();
    for seed in first..first.saturating_add(count) {
        match played(alloc, seed, seed < first.saturating_add(cut)) {
            Ok(ended) => tally.add(ended),
            Err((acts, error)) => return Err((seed, acts, error)),
        }
    }
    Ok(tally)
}

/// Runs drawn bodies in threads, of each seed by this size; where a run falls short, its seed.
fn all_threaded<R: Threads + Wait + AllocGlobal + Sync>(
    rt: &R,
    first: u64,
    count: u64,
    size: (u8, u8),
) -> Result<Tally, (u64, RunError)> {
    let mut tally = Tally::default();
    for seed in first..first.saturating_add(count) {
        match threaded(rt, rt.alloc(), seed, size) {
            Ok(ended) => tally.add(ended),
            Err(error) => return Err((seed, error)),
        }
    }
    Ok(tally)
}

fn main(rt: HostRuntime) -> Result<ExitCode> {
    let mut words = env::args(&rt)?;
    let _program = words.next();
    let first = number(words.next())?;
    let count = number(words.next())?;
    let threads = number(words.next())?;
    let cut = number(words.next())?;
    let taken = words.next();
    let is_refused_one = taken.is_some();
    if let Some(taken) = taken {
        take(rt.alloc(), number(Some(taken))?)?;
    }
    if let Err(error) = all_tried(&rt, rt.alloc()) {
        println!(rt; "want of memory: {error}")?;
        return Ok(ExitCode::FAILURE);
    }
    if is_refused_one && take(rt.alloc(), MOST_BEHIND).is_err() {
        println!(rt; "refused behind the trials")?;
    }
    match all_played(rt.alloc(), first, count, cut) {
        Ok(tally) => println!(rt; "{tally}")?,
        Err((seed, acts, error)) => {
            println!(rt; "run {seed}, after {acts} acts: {error}")?;
            return Ok(ExitCode::FAILURE);
        }
    }
    for (procs, machines) in SIZES {
        match all_threaded(&rt, first, threads, (procs, machines)) {
            // By one machine a run ends the same way each time.
            Ok(tally) if machines == 1 => println!(rt; "by 1 and 1 in threads, {tally}")?,
            Ok(_) => println!(rt; "by {procs} and {machines} in threads, {threads} runs")?,
            Err((seed, error)) => {
                println!(rt; "run {seed} by {procs} and {machines} in threads: {error}")?;
                return Ok(ExitCode::FAILURE);
            }
        }
    }
    Ok(ExitCode::SUCCESS)
}
