//! What `gmp run` writes: the row's text, with what is said behind it, or where it has none a trace that `gmp check` passes. Such a script
//! runs a second time with each claim held until every machine has acted (`Together`), so that one alone doesn't make all calls of a short
//! script: that is over before the next thread has started.

use crate::boxing::ran;
use crate::row::Row;
use crate::script::passes;
use crate::waiting::{Stopped, TURNS, bit};
use crate::wrong::Wrong;
use crossbeam_utils::Backoff;
use gmp_base::MNo;
use gmp_driver::Act;
use gmp_run::{Gate, Report};
use gmp_run_cli::run;
use gmp_seq::Call;
use gmp_worker::Boxed;
use std::alloc::Global;
use std::sync::Wait;
use std::sync::atomic::{AtomicU64, Ordering};
use std::thread::Threads;

/// Holds each claim until all machines have acted: machine m is bit m.
#[derive(Drop)]
struct Together {
    all: u64,
    begun: AtomicU64,
    acted: AtomicU64,
}

impl Together {
    fn of(machines: u8) -> Self {
        let mut all = 0;
        for m in 0..machines {
            all |= bit(m);
        }
        Together {
            all,
            begun: AtomicU64::new(0),
            acted: AtomicU64::new(0),
        }
    }

    /// Waits until each machine has acted once; the last of them ends that.
    fn wait(&self) {
        let backoff = Backoff::new();
        for _ in 0..TURNS {
            if self.acted.load(Ordering::SeqCst) == self.all {
                return;
            }
            backoff.snooze();
        }
    }
}

impl Gate for Together {
    fn before(&self, m: MNo, act: &Act) {
        let bit = bit(m.0);
        if self.begun.fetch_or(bit, Ordering::SeqCst) & bit != 0 {
            self.acted.fetch_or(bit, Ordering::SeqCst);
        }
        if matches!(act, Act::Call(Call::Claim(_))) {
            self.wait();
        }
    }
}

/// All machines were started, and each made a call.
pub fn are_all_in(report: &Report<Boxed>, machines: u8) -> Result<(), Wrong> {
    if report.started != machines {
        return Err(Wrong::Number("machines that were started", u64::from(report.started)));
    }
    for log in &report.logs {
        if log.calls == 0 {
            return Err(Wrong::Number("no call by machine", u64::from(log.m.0)));
        }
    }
    Ok(())
}

/// Where the first claim comes after an act of each machine each makes a call, and the trace is right.
fn is_right_together<R: Threads + Wait + Sync>(
    rt: &R,
    alloc: Global,
    row: &Row,
) -> Result<(), Wrong> {
    let settings = row.settings(alloc)?;
    let gate = Together::of(settings.machines);
    let ran = ran!(rt, alloc, row, settings, &gate);
    are_all_in(&ran.report, settings.machines)?;
    let (ended, output) = ran.told(alloc, &settings);
    row.ends_with(ended.status)?;
    passes(alloc, &output)
}

/// Tries the row as the program runs it, and what has no text with all machines together.
pub fn tried<R: Threads + Wait + Sync>(rt: &R, alloc: Global, row: &str) -> Result<(), Wrong> {
    let row = Row::read(row)?;
    let settings = row.settings(alloc)?;
    let input = row.lines(alloc)?;
    let mut output = Vec::new(alloc);
    let mut reader = input.as_slice();
    let ended = run(rt, alloc, &settings, &mut reader, &mut output, &Stopped);
    row.ends_with(ended.status)?;
    if row.text.is_empty() {
        passes(alloc, &output)?;
        return is_right_together(rt, alloc, &row);
    }
    let said = format!(in alloc; "{}", ended.said)?;
    output.extend_from_slice(said.as_bytes())?;
    row.is_written(&output)
}
