//! `gmp_test_scans N` gives N lists of drawn asks to the channels of gmp_chan, whose waiters are linked, and to channels whose waiters are
//! one list that is scanned, and compares what comes of each ask, and after it all that both say of each channel and goroutine
//! (docs/HACKING.md).
//!
//! No whole book: both kinds of channels differ in nothing else. It prints how often what came, or the first ask at which the two differ;
//! the gate compares that with `stdout`.
#![tactic(auto)]

mod drawing;
mod error;
mod pair;
mod scanned;
mod tally;

use crate::drawing::{ASKS, Draw};
use crate::error::ScanError;
use crate::pair::Pair;
use crate::tally::Tally;
use anyhow::{Context, Result};
use std::alloc::Global;
use std::env;
use std::process::ExitCode;

/// Gives both the list of this seed: what comes of each ask, and what both say after it, is the same, or with the number of the ask how it
/// falls short.
fn same_history(alloc: Global, seed: u64, tally: &mut Tally) -> Result<(), (u32, ScanError)> {
    let mut draw = Draw::new(seed);
    let mut pair = match Pair::open(alloc, &draw.capacities()) {
        Ok(pair) => pair,
        Err(error) => return Err((0, error)),
    };
    for i in 0..ASKS {
        let g = draw.goroutine();
        let asked = draw.asked();
        match pair.ask(g, &asked, draw.word()) {
            Ok(came) => tally.add(came),
            Err(error) => return Err((i, error)),
        }
        if let Err(error) = pair.agree() {
            return Err((i, error));
        }
    }
    Ok(())
}

fn main(rt: HostRuntime) -> Result<ExitCode> {
    let mut words = env::args(&rt)?;
    let _program = words.next();
    let word = words.next().context("gmp_test_scans N")?;
    let count: u64 = word.as_str().parse()?;
    let mut tally = Tally::default();
    for seed in 0..count {
        if let Err((i, error)) = same_history(rt.alloc(), seed, &mut tally) {
            println!(rt; "list {seed}, ask {i}: {error}")?;
            return Ok(ExitCode::FAILURE);
        }
    }
    println!(rt; "{count} lists of {ASKS} asks: {tally}")?;
    Ok(ExitCode::SUCCESS)
}
