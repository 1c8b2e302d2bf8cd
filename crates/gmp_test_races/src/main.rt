//! `gmp_test_races FIRST N` runs short scripts in threads, N times by the seeds from FIRST on, under a gate that yields by drawn words and
//! holds machines at their park; the plain scheduler judges each history, each is a run of its script's bodies, and none may leave work
//! asleep (docs/HACKING.md).
//!
//! Each script has an end that doesn't depend on how its machines go, so any other end falls short. It prints how many runs ended in which
//! way, or the first run that falls short, and how. A run that hangs prints nothing: no clause says that `run` comes back.
#![tactic(auto)]

mod asleep;
mod error;
mod gate;
mod playing;
mod scripts;

use crate::playing::played;
use crate::scripts::of_seed;
use anyhow::{Context, Result};
use gmp_seq::Outcome;
use std::env;
use std::process::ExitCode;

/// The number that a word is.
fn number(word: Option<String>) -> Result<u64> {
    let word = word.context("gmp_test_races FIRST N")?;
    Ok(word.as_str().parse()?)
}

/// Each seed's script, by both of its sizes, until one falls short.
fn main(rt: HostRuntime) -> Result<ExitCode> {
    let mut words = env::args(&rt)?;
    let _program = words.next();
    let first = number(words.next())?;
    let count = number(words.next())?;
    let mut ended = 0u64;
    let mut asleep = 0u64;
    for seed in first..first.saturating_add(count) {
        let row = of_seed(seed);
        for size in row.sizes {
            if let Err(error) = played(&rt, rt.alloc(), &row, size, seed) {
                println!(rt; "run {seed} on {} and {}: {error}", size.0, size.1)?;
                return Ok(ExitCode::FAILURE);
            }
            match row.ends {
                Outcome::AllAsleep => asleep = asleep.saturating_add(1),
                _ => ended = ended.saturating_add(1),
            }
        }
    }
    println!(rt; "main ended: {ended}, all asleep: {asleep}")?;
    Ok(ExitCode::SUCCESS)
}
