//! Machines that act in a given order, a digit for each act, on the third line of a row: then `gmp run` writes what `gmp step` does, under
//! each limit of entries. Left to run freely they may make as few entries as main needs alone.
//! `InOrder` is the gate that lets one act pass at a time.

use crate::boxing::ran;
use crate::row::{Row, settings_of};
use crate::waiting::TURNS;
use crate::wrong::{Wrong, ended, held};
use crossbeam_utils::Backoff;
use gmp_base::MNo;
use gmp_driver::Act;
use gmp_run::Gate;
use std::alloc::{AllocError, Global};
use std::sync::Wait;
use std::sync::atomic::{AtomicUsize, Ordering};
use std::thread::Threads;

/// Holds each machine until the next act is its own. Once a machine has nothing more to do but surrender, or the order is spent, it holds
/// nobody.
#[derive(Drop)]
struct InOrder<'a> {
    order: &'a [u8],
    /// Twice the number of acts that were made, and 1 more while one is made.
    turn: AtomicUsize,
}

impl InOrder<'_> {
    /// Whether the act of this number is the machine's.
    fn is_of(&self, at: usize, m: MNo) -> bool {
        match self.order.get(at) {
            Some(digit) => digit.wrapping_sub(b'0') == m.0,
            None => false,
        }
    }

    /// The machine's act before this one is made.
    fn pass(&self, m: MNo) {
        let turn = self.turn.load(Ordering::SeqCst);
        if turn % 2 == 1 && self.is_of(turn / 2, m) {
            self.turn.store(turn.wrapping_add(1), Ordering::SeqCst);
        }
    }

    /// Waits for the machine's turn, and takes it.
    /// It waits for the machine before it in the order to make its act, which that one says at its next.
    fn wait(&self, m: MNo) {
        let backoff = Backoff::new();
        for _ in 0..TURNS {
            let turn = self.turn.load(Ordering::SeqCst);
            if turn / 2 >= self.order.len() {
                return;
            }
            if turn % 2 == 0 && self.is_of(turn / 2, m) {
                self.turn.store(turn.wrapping_add(1), Ordering::SeqCst);
                return;
            }
            backoff.snooze();
        }
    }
}

impl Gate for InOrder<'_> {
    fn before(&self, m: MNo, act: &Act) {
        if matches!(act, Act::Surrender(_) | Act::Nothing) {
            self.turn.store(usize::MAX, Ordering::SeqCst);
        }
        self.pass(m);
        self.wait(m);
    }
}

/// A whole trace by this limit of entries, and with which status the run ends that makes it. The row's trace has no limit, and no end.
fn wanted(alloc: Global, trace: &str, entries: usize) -> Result<(String, u8), AllocError> {
    let (head, all) = trace.split_once("\ncaps\n").unwrap_or((trace, ""));
    let mut text = format!(in alloc; "{head} {entries}\ncaps\n")?;
    let mut left = entries;
    let mut status = 0;
    for entry in all.lines() {
        if left == 0 {
            status = 3;
            break;
        }
        left = left.saturating_sub(1);
        text.push_str(entry)?;
        text.push('\n')?;
    }
    text.push_str(if status == 3 {
        "end book full\n"
    } else {
        "end main ended\n"
    })?;
    Ok((text, status))
}

/// Under this limit the machines, which act in the row's order, make the first entries of its trace.
fn is_cut<R: Threads + Wait + Sync>(
    rt: &R,
    alloc: Global,
    row: &Row,
    entries: usize,
) -> Result<(), Wrong> {
    let line = format!(in alloc; "{} --entries {entries}", row.line)?;
    let settings = settings_of(alloc, line.as_str())?;
    let gate = InOrder {
        order: row.third.as_bytes(),
        turn: AtomicUsize::new(0),
    };
    let ran = ran!(rt, alloc, row, settings, &gate);
    let (told, output) = ran.told(alloc, &settings);
    let (text, status) = wanted(alloc, row.text, entries)?;
    ended(told.status, status)?;
    held(output.as_slice() == text.as_bytes(), Wrong::OtherText)
}

/// Tries the row under each limit.
pub fn tried<R: Threads + Wait + Sync>(rt: &R, alloc: Global, row: &str) -> Result<(), Wrong> {
    let row = Row::read(row)?;
    for entries in 16..=24usize {
        is_cut(rt, alloc, &row, entries)?;
    }
    Ok(())
}
