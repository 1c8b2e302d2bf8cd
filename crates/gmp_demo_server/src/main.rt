//! A server: each request is handed over to a goroutine of its own, which is started for it and ends with it, and leaves its answer. There
//! are 64 such goroutines, whose numbers are used again and again. A request waits for one of 16 places, until its deadline at most.
//!
//! The run is longer than its history: 10,000 entries are kept at a time, and each piece goes out as it comes. Each entry is found to be a
//! step that goes on from those before, by the plain scheduler.
//!
//! Its arguments say how many requests there are, and, if its pieces are to be written, a file for them, which may be a named pipe: they are
//! parts of one run, by which `gmp join` checks it again while it goes on.
#![tactic(auto)]

mod front;
mod judge;
mod request;
mod served;

use crate::judge::Judge;
use crate::served::{BODIES, CAPACITIES, Served, serve, settings};
use anyhow::{Context, Result};
use gmp_parts::{PartWriter, Together};
use gmp_pieces::Pieces;
use std::alloc::Global;
use std::process::ExitCode;
use std::rt::Files;
use std::sync::Wait;
use std::thread::Threads;
use std::time::Clock;
use std::{env, fs};

/// Serves so many requests, and says how many entries were steps. The history goes nowhere.
fn judged<R: Threads + Wait + Clock + Sync>(
    rt: &R,
    alloc: Global,
    count: u64,
) -> Result<(Served, u64)> {
    let judge = Judge::new(alloc, settings().limits(), BODIES, &CAPACITIES)?;
    let (served, judge) = serve(rt, alloc, count, judge)?;
    Ok((served?, judge.steps()))
}

/// What writes the history to this file.
fn opened<R: Files>(rt: &R, alloc: Global, path: &str) -> Result<Pieces<Together<R::File>>> {
    let file = Together(fs::create(rt, path)?);
    let writer = PartWriter::open(alloc, settings().limits(), BODIES, &CAPACITIES, file)?;
    Ok(Pieces(writer))
}

/// The same as `judged`, and writes the history to this file.
fn written<R: Threads + Wait + Clock + Files + Sync>(
    rt: &R,
    alloc: Global,
    count: u64,
    path: &str,
) -> Result<(Served, u64)>
where
    R::File: Send,
{
    let pieces = opened(rt, alloc, path)?;
    let (served, Pieces(writer)) = serve(rt, alloc, count, pieces)?;
    match writer.failed() {
        Some(error) => Err(error.into()),
        None => Ok((served?, writer.entries())),
    }
}

fn main(rt: HostRuntime) -> Result<ExitCode> {
    let alloc = rt.alloc();
    let mut words = env::args(&rt)?.skip(1);
    let count = words.next().context("gmp_demo_server REQUESTS [FILE]")?;
    let count: u64 = count.as_str().parse()?;
    let (served, steps) = match words.next() {
        Some(path) => written(&rt, alloc, count, path.as_str())?,
        None => judged(&rt, alloc, count)?,
    };
    let Served { ended, sum, late } = served;
    println!(rt; "{ended}, {count} requests, sum {sum}, late {late}")?;
    // An answer is twice the request's number, and these are the numbers from 1 on.
    if late == 0 && sum != count.saturating_mul(count.saturating_add(1)) {
        println!(rt; "an answer is wrong")?;
        return Ok(ExitCode::FAILURE);
    }
    if steps != ended.entries {
        println!(rt; "an entry is no step")?;
        return Ok(ExitCode::FAILURE);
    }
    println!(rt;
        "each entry is a step, and there are more than ten a request: {}",
        ended.entries > count.saturating_mul(10)
    )?;
    Ok(ExitCode::SUCCESS)
}
