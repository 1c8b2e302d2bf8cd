//! Plays files of rows, and says of each whether all went well, or which row fell short and how: that machines in threads run at the same
//! time, that one which minds a deadline hears of work, that machines left out aren't missed, that fair ones pass nobody over, that local
//! queues keep what is put and give each ticket out once, and what `gmp run` writes, also where its input or its output fails.
//!
//! Each argument names a file (docs/HACKING.md). Its rows are parted by empty lines, and those whose lines begin with `#` say what the lines
//! of the others are. The gate compares what is printed with `stdout`, which doesn't depend on how the machines go.
//!
//! Threads are made to meet by gates and by bodies that wait for one another, never by time: each wait has an end after so many looks, and
//! a row in which somebody waited in vain falls short.
#![tactic(auto)]

mod audits;
mod boxing;
mod failing;
mod fair;
mod left_out;
mod ordered;
mod queues;
mod row;
mod runs;
mod scenes;
mod script;
mod segments;
mod waiting;
mod wrong;

use crate::wrong::Wrong;
use std::alloc::Global;
use std::process::ExitCode;
use std::sync::Wait;
use std::thread::Threads;
use std::time::Clock;
use std::{env, fs, io};

/// What the rows of this file are about. That of a name with `_wrong` behind it falls short.
fn kind_of(name: &str) -> &str {
    name.strip_suffix("_wrong").unwrap_or(name)
}

/// Tries a row of this file.
fn tried<R: Threads + Wait + Clock + Sync>(
    rt: &R,
    alloc: Global,
    name: &str,
    row: &str,
) -> Result<(), Wrong> {
    match kind_of(name) {
        "queues" => queues::tried(rt, alloc, row),
        "scenes" => scenes::tried(rt, alloc, row),
        "runs" => runs::tried(rt, alloc, row),
        "segments" => segments::tried(rt, alloc, row),
        "audits" => audits::tried(rt, alloc, row),
        "failing" => failing::tried(rt, alloc, row),
        "left_out" => left_out::tried(rt, alloc, row),
        "ordered" => ordered::tried(rt, alloc, row),
        "fair" => fair::tried(rt, alloc, row),
        _ => Err(Wrong::Unreadable),
    }
}

/// Prints how many rows of this file are right, or the first that isn't, and how. Are all right?
fn is_right<R: Threads + Wait + Clock + Sync + Print>(
    rt: &R,
    alloc: Global,
    name: &str,
    rows: &str,
) -> io::Result<bool> {
    let mut count = 0usize;
    for row in rows.split("\n\n") {
        let row = row.trim_end();
        // A note stands alone: with a row below it, it is no row that can be read.
        if !row.split('\n').any(|line| !line.starts_with('#')) {
            continue;
        }
        count = count.saturating_add(1);
        if let Err(wrong) = tried(rt, alloc, name, row) {
            println!(rt; "{name}, row {count}: {wrong}")?;
            return Ok(false);
        }
    }
    println!(rt; "{name}: {count} rows are right")?;
    Ok(true)
}

fn main(rt: HostRuntime) -> io::Result<ExitCode> {
    let mut names = env::args(&rt)?;
    let _program = names.next();
    let mut code = ExitCode::SUCCESS;
    for name in names {
        let rows = fs::read_to_string(&rt, name.as_str())?;
        if !is_right(&rt, rt.alloc(), name.as_str(), rows.as_str())? {
            code = ExitCode::FAILURE;
        }
    }
    Ok(code)
}
