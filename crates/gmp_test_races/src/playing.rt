//! One run: a script in threads under the gate, and what is judged of its report. `Counting` is the clock, by which every deadline comes
//! soon, and `Joined` the sink of the run's history.

ghost use Rattle.std.specs.Prelude.{◌≡◌, All, IfOk};

use crate::asleep::leaves_work_asleep;
use crate::error::RaceError;
use crate::gate::Turnstile;
use crate::scripts::Row;
use gmp_check::outcome_of;
use gmp_follow::follows;
use gmp_history::{History, audit};
use gmp_run::{Clock, Report, Sink, Stop, run_into};
use gmp_script::{Script, ScriptBody};
use gmp_seq::{Limits, Outcome};
use gmp_worker::Boxed;
use std::alloc::Global;
use std::sync::Wait;
use std::sync::atomic::{AtomicU64, Ordering};
use std::thread::Threads;

/// A clock that goes on by 100 at each reading.
#[derive(Drop)]
struct Counting {
    next: AtomicU64,
}

impl Clock for Counting {
    fn now(&self) -> u64 {
        self.next.fetch_add(100, Ordering::SeqCst)
    }

    // No rest takes time, so a machine at Mind reads on until its deadline: each reading brings it nearer.
    fn rest(&self, _most: u64) {}
}

/// The pieces of a history, joined.
#[derive(Drop)]
struct Joined {
    entries: History,
    /// No memory was left for some entry.
    is_short: bool,
    /// How many pieces it takes before it stops the run.
    pieces: u64,
    /// It has stopped the run.
    has_stopped: bool,
}

impl Joined {
    /// Has no entry yet. Of some seeds it stops the run at the second piece.
    fn of(alloc: Global, seed: u64) -> Self {
        Joined {
            entries: History::new(alloc),
            is_short: false,
            pieces: if seed % 8 == 1 { 1 } else { u64::MAX },
            has_stopped: false,
        }
    }

    /// Adds these entries behind those that are there.
    fn add(&mut self, entries: &History) {
        for entry in entries.iter() {
            if self.entries.make_room().is_err() {
                self.is_short = true;
                return;
            }
            self.entries
                .push(entry.m, entry.k, &entry.call, &entry.reply);
        }
    }
}

impl Sink for Joined {
    ghost use Rattle.std.specs.Prelude.{List};
    ghost use Rattle.gmp_seq.specs.declared.call.Entry.{Entry};

    ghost takes = { λ before entries after. Unit {0} };

    ghost refuses = { λ before entries after. Unit {0} };

    fn take(&mut self, history: &mut History) -> Result<(), Stop> {
        if self.pieces == 0 {
            self.has_stopped = true;
            return Err(Stop);
        }
        self.pieces = self.pieces.saturating_sub(1);
        self.add(history);
        history.clear();
        Ok(())
    }
}

/// The script of lines that are parted by `/`.
fn script(alloc: Global, text: &[u8]) -> Result<Script, RaceError>
    ensures { IfOk result (λ s. All (λ b. b.next ≡ 0) s.bodies.items) }
{
    let mut script = Script::new(alloc);
    for line in text.split(|b| *b == b'/') {
        if !script.add(alloc, line)? {
            return Err(RaceError::BadLine);
        }
    }
    Ok(script)
}

/// Judges a run's report and its whole history: how it ended, that the history is legal, follows the script and leaves no work asleep, and
/// that the logs agree with it. One that its sink stopped has no end, and may leave work that nobody was woken for.
fn judge(
    alloc: Global,
    limits: Limits,
    bodies: &[ScriptBody],
    capacities: &[u32],
    report: &Report<Boxed>,
    history: &History,
    ends: Option<Outcome>,
) -> Result<(), RaceError>
    requires { All (λ b. b.next ≡ 0) bodies.now }
{
    if audit(history, &report.logs).is_err() {
        return Err(RaceError::Mismatch);
    }
    if ends.is_some() && leaves_work_asleep(alloc, limits.machines, history)? {
        return Err(RaceError::Asleep);
    }
    let Ok(count) = u16::try_from(bodies.len()) else {
        return Err(RaceError::NotLegal);
    };
    match outcome_of(alloc, limits, count, capacities, history) {
        Ok(outcome) if outcome == report.outcome => {}
        _ => return Err(RaceError::NotLegal),
    }
    match follows(alloc, limits, bodies, capacities, history) {
        Ok(true) => {}
        _ => return Err(RaceError::OtherAsk),
    }
    if report.outcome == ends {
        Ok(())
    } else {
        Err(RaceError::OtherEnd)
    }
}

/// Runs the bodies of a row's script by machines in threads, under a gate of this seed, and judges the run beside the same bodies once more.
fn raced<R: Threads + Wait + Sync>(
    rt: &R,
    alloc: Global,
    limits: Limits,
    capacities: &[u32],
    bodies: Vec<ScriptBody>,
    same: &[ScriptBody],
    row: &Row,
    seed: u64,
) -> Result<(), RaceError>
    requires { All (λ b. b.next ≡ 0) same.now }
{
    let mut boxes: Vec<Boxed> = Vec::new(alloc);
    for body in bodies {
        let Ok(body) = Box::new(alloc, body) else {
            return Err(RaceError::OutOfMemory);
        };
        if boxes.push(body).is_err() {
            return Err(RaceError::OutOfMemory);
        }
    }
    let clock = Counting {
        next: AtomicU64::new(0),
    };
    let others = if row.meets {
        limits.machines.saturating_sub(1)
    } else {
        0
    };
    let gate = Turnstile::new(seed, others);
    let none = Joined::of(alloc, seed);
    let (ran, joined) = run_into(
        rt, alloc, seed, limits, capacities, boxes, &clock, &gate, seed, none,
    );
    let Ok(report) = ran else {
        return Err(RaceError::NotBegun);
    };
    let mut whole = joined;
    whole.add(&report.history);
    if whole.is_short {
        return Err(RaceError::OutOfMemory);
    }
    let ends = (!whole.has_stopped).then_some(row.ends);
    judge(
        alloc,
        limits,
        same,
        capacities,
        &report,
        &whole.entries,
        ends,
    )
}

/// Runs the row's script by so many processors and machines, under a gate of this seed, and judges it.
pub fn played<R: Threads + Wait + Sync>(
    rt: &R,
    alloc: Global,
    row: &Row,
    size: (u8, u8),
    seed: u64,
) -> Result<(), RaceError> {
    let Script {
        capacities,
        bodies,
        ..
    } = script(alloc, row.script)?;
    let same = script(alloc, row.script)?.bodies;
    // Every other history goes to the sink in the smallest pieces.
    let room = if seed % 2 == 0 { 10_000 } else { 16 };
    let limits = Limits {
        procs: size.0,
        machines: size.1,
        channels: 16,
        entries: 10_000,
        room,
    };
    raced(rt, alloc, limits, &capacities, bodies, &same, row, seed)
}
