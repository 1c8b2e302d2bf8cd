//! Fair machines, among goroutines that keep waking each other. By one machine `gmp run` writes the row's text, the same each time.
//!
//! By more, whose rows have no text, acts pass a gate one at a time, in turn (`InTurn`): however the system schedules threads, who has a
//! ticket in hand makes its next act before another makes two. So the row's limit of entries bounds what the others do until main ends.

use crate::boxing::ran;
use crate::row::Row;
use crate::runs::{self, are_all_in};
use crate::script::passes;
use crate::waiting::{TURNS, bit};
use crate::wrong::Wrong;
use crossbeam_utils::Backoff;
use gmp_base::MNo;
use gmp_driver::Act;
use gmp_run::Gate;
use gmp_seq::Call;
use std::alloc::Global;
use std::sync::Wait;
use std::sync::atomic::{AtomicU64, Ordering};
use std::thread::Threads;

/// It is no machine's turn, since all are out.
const NOBODYS: u64 = 64;

/// The run is over: nobody is held.
const OVER: u64 = 65;

/// Holds each machine until it is its turn, which goes round by their numbers. A machine that rests or minds a deadline is out, and passed
/// over, until its next act. It holds no ticket then.
#[derive(Drop)]
struct InTurn {
    machines: u8,
    /// The number of the machine that acts.
    turn: AtomicU64,
    /// Who is out: machine m is bit m.
    out: AtomicU64,
}

impl InTurn {
    fn of(machines: u8) -> Self {
        InTurn {
            machines,
            turn: AtomicU64::new(0),
            out: AtomicU64::new(0),
        }
    }

    /// Whose turn it is after this machine's.
    fn after(&self, m: u8) -> u64 {
        let out = self.out.load(Ordering::SeqCst);
        for next in (m.saturating_add(1)..self.machines).chain(0..m.saturating_add(1)) {
            if out & bit(next) == 0 {
                return u64::from(next);
            }
        }
        NOBODYS
    }

    /// Makes it another's turn where it was this one's. Was it?
    fn turns(&self, from: u64, to: u64) -> bool {
        self.turn
            .compare_exchange(from, to, Ordering::SeqCst, Ordering::SeqCst)
            .is_ok()
    }

    /// Ends the machine's turn, where it is its turn.
    fn pass(&self, m: u8) {
        self.turns(u64::from(m), self.after(m));
    }

    /// Waits for the machine's turn. Whoever has the turn ends it by its next act, or goes out. After `TURNS` looks it goes on all the same, so
    /// that no run hangs.
    fn wait(&self, m: u8) {
        let (backoff, m) = (Backoff::new(), u64::from(m));
        for _ in 0..TURNS {
            let turn = self.turn.load(Ordering::SeqCst);
            if turn == m || turn == OVER || self.turns(NOBODYS, m) {
                return;
            }
            backoff.snooze();
        }
    }
}

impl Gate for InTurn {
    fn before(&self, m: MNo, act: &Act) {
        if matches!(act, Act::Surrender(_) | Act::Nothing) {
            self.turn.store(OVER, Ordering::SeqCst);
            return;
        }
        self.pass(m.0);
        self.out.fetch_and(!bit(m.0), Ordering::SeqCst);
        self.wait(m.0);
        if matches!(act, Act::Call(Call::Woken) | Act::Clock(Some(_))) {
            self.out.fetch_or(bit(m.0), Ordering::SeqCst);
            self.pass(m.0);
        }
    }
}

/// Tries the row.
pub fn tried<R: Threads + Wait + Sync>(rt: &R, alloc: Global, text: &str) -> Result<(), Wrong> {
    let row = Row::read(text)?;
    if !row.text.is_empty() {
        return runs::tried(rt, alloc, text);
    }
    let settings = row.settings(alloc)?;
    let gate = InTurn::of(settings.machines);
    let ran = ran!(rt, alloc, &row, settings, &gate);
    are_all_in(&ran.report, settings.machines)?;
    let (ended, trace) = ran.told(alloc, &settings);
    row.ends_with(ended.status)?;
    passes(alloc, &trace)
}
