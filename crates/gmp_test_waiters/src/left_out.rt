//! Machines that are left out, by a gate that doesn't let them in (`Admits`): the others bring the run to its end. A thread that the system
//! refuses takes the same way, and can't be tried.
//!
//! Where a row has no text, each set of machines is left out in turn, all but machine 0 and none among them, and each trace is right. Else
//! machine 0 is alone, and the text is written.

use crate::boxing::ran;
use crate::row::Row;
use crate::script::passes;
use crate::wrong::{Wrong, held};
use gmp_base::MNo;
use gmp_driver::Act;
use gmp_run::{Gate, Report};
use gmp_words::Settings;
use gmp_worker::Boxed;
use std::alloc::Global;
use std::sync::Wait;
use std::thread::Threads;

/// Holds nobody up, and lets those machines in whose bits are set.
#[derive(Drop)]
struct Admits(u64);

impl Admits {
    fn has(&self, m: u8) -> bool {
        self.0 >> (m % 64) & 1 == 1
    }
}

impl Gate for Admits {
    fn before(&self, _m: MNo, _act: &Act) {}

    fn is_open(&self) -> bool {
        true
    }

    fn admits(&self, m: MNo) -> bool {
        self.has(m.0)
    }
}

/// Those who are let in were started, and each other made no call.
fn are_left_out(report: &Report<Boxed>, gate: &Admits) -> Result<(), Wrong> {
    let mut started = 1u8;
    for log in &report.logs {
        if log.m != MNo(0) && gate.has(log.m.0) {
            started = started.saturating_add(1);
        } else if log.m != MNo(0) && log.calls != 0 {
            return Err(Wrong::Number("calls by a machine that is left out", log.calls));
        }
    }
    held(
        report.started == started,
        Wrong::Number("machines that were started", u64::from(report.started)),
    )
}

/// The run comes to its end by those who are let in; what is written of it.
fn ends<R: Threads + Wait + Sync>(
    rt: &R,
    alloc: Global,
    settings: &Settings,
    row: &Row,
    gate: &Admits,
) -> Result<Vec<u8>, Wrong> {
    let ran = ran!(rt, alloc, row, settings, gate);
    are_left_out(&ran.report, gate)?;
    let (ended, output) = ran.told(alloc, settings);
    row.ends_with(ended.status)?;
    Ok(output)
}

/// Tries the row.
pub fn tried<R: Threads + Wait + Sync>(rt: &R, alloc: Global, row: &str) -> Result<(), Wrong> {
    let row = Row::read(row)?;
    let settings = row.settings(alloc)?;
    if !row.text.is_empty() {
        let summary = ends(rt, alloc, &settings, &row, &Admits(0))?;
        return row.is_written(&summary);
    }
    for admitted in 0..32u64 {
        let trace = ends(rt, alloc, &settings, &row, &Admits(admitted << 1))?;
        passes(alloc, &trace)?;
    }
    Ok(())
}
