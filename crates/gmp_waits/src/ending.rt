//! Who is not done at the end of a run, and who ran lately.
ghost use Rattle.std.specs.Prelude.{◌≡◌, ◌++◌, ◌<◌, ◌^◌, IfSome, IfOk, None, OnOk, Some, if◌then◌else◌, length};
ghost use Rattle.gmp_waits.specs.Lately.{IsLately, is_at, listed, runner_below, whose};
ghost use Rattle.gmp_waits.specs.Waits.{AreWaiting, does_so, told, waits_at, waits_below};
ghost use Rattle.gmp_seq.specs.Run.{IsLegal};

use crate::doing::Doing;
use gmp_base::{GNo, MNo};
use gmp_check::Replay;
use gmp_history::History;
use gmp_seq::{Call, Entry, Goroutine, Limits, Status};
use std::alloc::{AllocError, Global};
use std::fmt;

/// How many of a history's last entries tell who ran lately.
const LATE: usize = 100;

/// What a goroutine does that began and is not done.
#[derive(Clone, Copy, Debug, PartialEq, Eq)]
pub enum Does {
    /// It may run, and no machine runs it.
    Ready,
    Runs,
    /// It is in a blocking call.
    Calls,
    Waits,
}

/// A goroutine that began and is not done, and what it does.
#[derive(Debug, PartialEq, Eq, Drop)]
pub struct Waiting {
    pub goroutine: GNo,
    pub does: Does,
    /// As `waits to receive from channel 2`.
    pub what: String,
}

impl fmt::Display for Waiting {
    /// As `goroutine 1: waits to receive from channel 2`.
    fn fmt<W: fmt::Write>(&self, f: &mut fmt::Formatter<W>) -> fmt::Result {
        write!(f, "goroutine {}: {}", self.goroutine.0, self.what)
    }
}

/// What is told of goroutines at the end of a run.
#[derive(Debug, Drop)]
pub struct AtEnd {
    /// All that began and are not done, by number.
    pub waiting: Vec<Waiting>,
    /// Whose the last hundred entries are, in order.
    pub lately: Vec<GNo>,
}

/// What it does, if it began and is not done.
fn kind_of(status: &Status) -> Option<Does>
    ensures { result ≡ does_so status.now }
{
    match status {
        Status::Dormant | Status::Dead => None,
        Status::Ready(_, _) => Some(Does::Ready),
        Status::Running(_) => Some(Does::Runs),
        Status::Calling(_) => Some(Does::Calls),
        Status::Waiting(_) => Some(Does::Waits),
    }
}

/// Adds the goroutine, with what it does, unless it never began or is done.
fn add(
    alloc: Global,
    list: &mut Vec<Waiting>,
    goroutine: GNo,
    row: &Goroutine,
) -> Result<(), AllocError>
    ensures { OnOk result (told list.new.items ≡ told list.old.items ++ waits_at goroutine.0 (Some row.now)) }
{
    if let Some(does) = kind_of(&row.status) {
        let what = format!(in alloc; "{}", Doing(&row.status))?;
        list.push(Waiting {
            goroutine,
            does,
            what,
        })?;
    }
    Ok(())
}

/// All goroutines that began and are not done.
fn all(alloc: Global, rows: &[Goroutine]) -> Result<Vec<Waiting>, AllocError>
    requires { length rows.now < 2 ^ 16 }
    ensures { IfOk result (λ list. told list.items ≡ waits_below rows.now (length rows.now)) }
{
    let mut list = Vec::new(alloc);
    for g in 0..rows.len() {
        add(alloc, &mut list, GNo(g as u16), &rows[g])?;
    }
    Ok(list)
}

/// Whether this machine runs it, or makes its blocking call.
fn is_at(m: MNo, row: &Goroutine) -> bool
    ensures { result ≡ is_at m (Some row.now) }
{
    row.status.is_running_on(m) || row.status.is_calling_on(m)
}

/// This one, where the machine runs it; else whom it was found to run.
fn newer(found: Option<GNo>, m: MNo, g: GNo, row: &Goroutine) -> Option<GNo>
    ensures { result ≡ if is_at m (Some row.now) then Some g else found }
{
    if is_at(m, row) {
        return Some(g);
    }
    found
}

/// Whom this machine runs, or whose blocking call it makes.
fn runner(m: MNo, rows: &[Goroutine]) -> Option<GNo>
    requires { length rows.now < 2 ^ 16 }
    ensures { result ≡ runner_below m rows.now (length rows.now) }
{
    let mut found = None;
    for g in 0..rows.len() {
        found = newer(found, m, GNo(g as u16), &rows[g]);
    }
    found
}

/// Whose entry it is, where goroutines do this before it, unless it is a machine's own.
fn whose(entry: &Entry, rows: &[Goroutine]) -> Option<GNo>
    requires { length rows.now < 2 ^ 16 }
    ensures { result ≡ whose entry.now rows.now }
{
    match &entry.call {
        Call::Claim(r) => Some(r.g),
        _ => runner(entry.m, rows),
    }
}

/// The same, but nobody where there are more to skip.
fn late(skips: usize, entry: &Entry, rows: &[Goroutine]) -> Option<GNo>
    requires { length rows.now < 2 ^ 16 }
    ensures early { 0 < skips → result ≡ None }
    ensures late { skips ≡ 0 → result ≡ whose entry.now rows.now }
{
    if skips > 0 {
        return None;
    }
    whose(entry, rows)
}

/// Adds this goroutine, if there is one.
fn list_one(list: &mut Vec<GNo>, goroutine: Option<GNo>) -> Result<(), AllocError>
    ensures { OnOk result (list.new.items ≡ list.old.items ++ listed goroutine) }
{
    if let Some(goroutine) = goroutine {
        list.push(goroutine)?;
    }
    Ok(())
}

/// What goroutines do, where each has a number.
fn rows_of(replay: &Replay) -> Option<&[Goroutine]>
    ensures rows { IfSome result (λ rows. rows.now ≡ replay.now.state.table.goroutines) }
    ensures few { IfSome result (λ rows. length rows.now < 2 ^ 16) }
{
    let rows = replay.goroutines();
    if rows.len() > usize::from(u16::MAX) {
        return None;
    }
    Some(rows)
}

/// The plain scheduler at the end of this run, and whose its last entries are. It is none where memory is refused, and where the entries are
/// no run.
fn replayed(
    alloc: Global,
    limits: Limits,
    bodies: u16,
    capacities: &[u32],
    history: &History,
) -> Option<(Replay, Vec<GNo>)>
    ensures legal { IfSome result (λ r. IsLegal limits bodies capacities.now history.now.list r.0.state) }
    ensures late { IfSome result (λ r. IsLately limits bodies capacities.now history.now.list r.1.items) }
{
    let mut replay = Replay::open(alloc, limits, bodies, capacities).ok()?;
    let mut lately = Vec::new(alloc);
    let mut skips = history.len().saturating_sub(LATE);
    for entry in history.iter() {
        let goroutine = late(skips, &entry, rows_of(&replay)?);
        list_one(&mut lately, goroutine).ok()?;
        skips = skips.saturating_sub(1);
        match replay.step(&entry) {
            Ok(true) => {}
            _ => return None,
        }
    }
    Some((replay, lately))
}

/// Of the run that has this history, from the opening under these limits, with so many bodies and these capacities: all goroutines that began
/// and are not done at its end, by number, and who ran lately. It is none where memory is refused, and where the entries are no run.
pub fn at_end(
    alloc: Global,
    limits: Limits,
    bodies: u16,
    capacities: &[u32],
    history: &History,
) -> Option<AtEnd>
    ensures waiting { IfSome result (λ end. AreWaiting limits bodies capacities.now history.now.list end.waiting.items) }
    ensures lately { IfSome result (λ end. IsLately limits bodies capacities.now history.now.list end.lately.items) }
{
    let (replay, lately) = replayed(alloc, limits, bodies, capacities, history)?;
    let waiting = all(alloc, rows_of(&replay)?).ok()?;
    Some(AtEnd { waiting, lately })
}
