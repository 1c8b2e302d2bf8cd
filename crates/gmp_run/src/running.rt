//! Runs the machines of a run: opens book and queues, seats the machines, starts the threads, and gathers what they leave.
//! A machine lies in a seat, a mutex of its own, from which its thread takes it and to which it brings it back. Not moved into the thread's
//! closure: where that can't be started it is dropped with the machine, and its share of the calls would be lost.
ghost use Rattle.std.specs.Prelude.{◌≡◌, ◌≤◌, [], All, IsSome, false, length, replicate, vec_capacity, IfErr, IfOk, OnErr, OnOk};
ghost use Rattle.gmp_run.specs.Counts.{IsCountOf, all_calls};
ghost use Rattle.gmp_seq.specs.Fits.{AreLimits};
ghost use Rattle.gmp_book.specs.Book.{opening_passes};
ghost use Rattle.gmp_turn.specs.Whole.{IsWholeRun};
ghost use Rattle.gmp_said.specs.Said.{AreSaid};
ghost use Rattle.gmp_run.specs.Boards.{AreCounted, AreFirst};
ghost use Rattle.gmp_run.specs.Bodies.{AllLedFrom};
ghost use Rattle.gmp_run.specs.Reports.{AreLogs, IsPiecesReport, IsPiecesReportOf, IsRunReport, IsRunReportOf, SaysPieces, WhyUnrun};

use crate::desk::{Bench, Desk, DeskLedger, RunLedger};
use crate::ending::{Report, Unrun, finish, hang};
use crate::machine::Machine;
use crate::outside::{Clock, Gate, Sink, Whole};
use crate::room::Room;
use crate::shared::Shared;
use crate::watch::Watch;
use crate::working::{Floor, Seat, Works};
use crossbeam_utils::sync::{Parker, Unparker};
use gmp_base::{MNo, Pass, Refusal};
use gmp_book::{Book, Unopened};
use gmp_driver::Driver;
use gmp_history::PassLog;
use gmp_queue::{Owner, Thief};
use gmp_seq::Limits;
use gmp_stub::Board;
use gmp_worker::{Boxed, Runs};
use rand_core::SeedableRng;
use rand_pcg::Lcg64Xsh32;
use std::alloc::Global;
use std::marker::Brand;
use std::sync::ledger::{Blank, Share};
use std::sync::{Mutex, Wait};
use std::thread;
use std::thread::Threads;

/// Runs the bodies, of which the first is main, by so many machines: the first on this thread, each other on a thread of its own. It comes
/// back once the run is over and each thread has ended. The history is kept whole: there has to be as much room as entries.
///
/// Machine m draws its words from a generator that is seeded by `random + m`, wrapping. A thread that can't be started leaves its machine
/// out, and the report counts those started. The clock is read by machines that mind a deadline, and every 16 claims. Refused, it hands the
/// bodies back.
/// Errors: `BadLimits` for limits, capacities or a number of bodies out of range, `OutOfMemory` for what is taken before the first act.
/// `run` is the number that all values of this run name. No machine is fair.
pub fn run<R: Threads + Wait + Sync, C: Clock + Sync, G: Gate + Sync>(
    rt: &R,
    alloc: Global,
    run: u64,
    limits: Limits,
    capacities: &[u32],
    bodies: Vec<Boxed>,
    clock: &C,
    gate: &G,
    random: u64,
) -> Result<Report<Boxed>, Unrun<Boxed>>
    ensures report { IfOk result (IsRunReport limits capacities.now (length bodies.items) []) }
    ensures of { IfOk result (IsRunReportOf run false limits capacities.now (length bodies.items) []) }
    ensures bodies { IfOk result (λ r. AllLedFrom (λ b woke ask c. (left : _) × (c ≡ record b { value = left }) × resumed b woke ask left) (λ b number c. (left : _) × (c ≡ record b { value = left }) × blocked b number left) bodies.items r.bodies.items) }
    ensures says { IfOk result (λ r. AreSaid (λ b woke ask c. (left : _) × (c ≡ record b { value = left }) × resumed b woke ask left) (λ b number c. (left : _) × (c ≡ record b { value = left }) × blocked b number left) limits capacities.now bodies.items r.history.list r.bodies.items) }
    ensures ended { IfOk result (λ r. IsSome r.outcome) }
    ensures whole { OnOk result (limits.room ≡ limits.entries) }
    ensures why { IfErr result (λ u. WhyUnrun (IsWholeRun limits (length bodies.items) capacities.now) u.why) }
    ensures back { IfErr result (λ u. u.bodies.items ≡ bodies.items) }
{
    run_fair(
        rt, alloc, run, limits, capacities, bodies, clock, gate, random, false,
    )
}

/// Runs the bodies, in boxes or of one type and in none (`Own`), as `run` does, by machines that are all fair, or all not.
pub fn run_fair<T: Runs + Send, R: Threads + Wait + Sync, C: Clock + Sync, G: Gate + Sync>(
    rt: &R,
    alloc: Global,
    run: u64,
    limits: Limits,
    capacities: &[u32],
    bodies: Vec<T>,
    clock: &C,
    gate: &G,
    random: u64,
    is_fair: bool,
) -> Result<Report<T>, Unrun<T>>
    ensures report { IfOk result (IsRunReport limits capacities.now (length bodies.items) []) }
    ensures of { IfOk result (IsRunReportOf run is_fair limits capacities.now (length bodies.items) []) }
    ensures bodies { IfOk result (λ r. AllLedFrom T.resumes T.blocks bodies.items r.bodies.items) }
    ensures says { IfOk result (λ r. AreSaid T.resumes T.blocks limits capacities.now bodies.items r.history.list r.bodies.items) }
    ensures ended { IfOk result (λ r. IsSome r.outcome) }
    ensures whole { OnOk result (limits.room ≡ limits.entries) }
    ensures why { IfErr result (λ u. WhyUnrun (IsWholeRun limits (length bodies.items) capacities.now) u.why) }
    ensures back { IfErr result (λ u. u.bodies.items ≡ bodies.items) }
{
    if u64::from(limits.room) != limits.entries {
        let why = Refusal::BadLimits;
        return Err(Unrun { why, bodies });
    }
    let (ran, _) = run_into_fair(
        rt, alloc, run, limits, capacities, bodies, clock, gate, random, Whole, is_fair,
    );
    ran
}

/// Runs the bodies as `run` does, and hands the history to the sink piece by piece, so that a run may go on for as long as there are
/// entries. Each time that there is no room for another entry the sink takes all that are there; what is left at the end is the report's. A
/// sink that doesn't take them stops the run, which has no outcome then: what it left is the report's.
/// The sink comes back, also where the run was not begun.
///
/// After the start only a make, a push whose queue grows, and the sink take memory.
pub fn run_into<R: Threads + Wait + Sync, C: Clock + Sync, G: Gate + Sync, S: Sink + Send>(
    rt: &R,
    alloc: Global,
    run: u64,
    limits: Limits,
    capacities: &[u32],
    bodies: Vec<Boxed>,
    clock: &C,
    gate: &G,
    random: u64,
    sink: S,
) -> (Result<Report<Boxed>, Unrun<Boxed>>, S)
    ensures report { IfOk result.0 (λ r. IsPiecesReport S.takes S.refuses limits capacities.now (length bodies.items) sink r result.1) }
    ensures of { IfOk result.0 (λ r. IsPiecesReportOf run false S.takes S.refuses limits capacities.now (length bodies.items) sink r result.1) }
    ensures bodies { IfOk result.0 (λ r. AllLedFrom (λ b woke ask c. (left : _) × (c ≡ record b { value = left }) × resumed b woke ask left) (λ b number c. (left : _) × (c ≡ record b { value = left }) × blocked b number left) bodies.items r.bodies.items) }
    ensures says { IfOk result.0 (λ r. SaysPieces run false (λ b woke ask c. (left : _) × (c ≡ record b { value = left }) × resumed b woke ask left) (λ b number c. (left : _) × (c ≡ record b { value = left }) × blocked b number left) S.takes S.refuses limits capacities.now bodies.items sink r result.1) }
    ensures why { IfErr result.0 (λ u. WhyUnrun (AreLimits limits (length bodies.items) capacities.now) u.why) }
    ensures back { IfErr result.0 (λ u. u.bodies.items ≡ bodies.items) }
    ensures unused { OnErr result.0 (result.1 ≡ sink) }
{
    run_into_fair(
        rt, alloc, run, limits, capacities, bodies, clock, gate, random, sink, false,
    )
}

/// Runs the bodies, in boxes or of one type and in none (`Own`), as `run_into` does, by machines that are all fair, or all not.
pub fn run_into_fair<
    T: Runs + Send,
    R: Threads + Wait + Sync,
    C: Clock + Sync,
    G: Gate + Sync,
    S: Sink + Send,
>(
    rt: &R,
    alloc: Global,
    run: u64,
    limits: Limits,
    capacities: &[u32],
    bodies: Vec<T>,
    clock: &C,
    gate: &G,
    random: u64,
    sink: S,
    is_fair: bool,
) -> (Result<Report<T>, Unrun<T>>, S)
    ensures report { IfOk result.0 (λ r. IsPiecesReport S.takes S.refuses limits capacities.now (length bodies.items) sink r result.1) }
    ensures of { IfOk result.0 (λ r. IsPiecesReportOf run is_fair S.takes S.refuses limits capacities.now (length bodies.items) sink r result.1) }
    ensures bodies { IfOk result.0 (λ r. AllLedFrom T.resumes T.blocks bodies.items r.bodies.items) }
    ensures says { IfOk result.0 (λ r. SaysPieces run is_fair T.resumes T.blocks S.takes S.refuses limits capacities.now bodies.items sink r result.1) }
    ensures why { IfErr result.0 (λ u. WhyUnrun (AreLimits limits (length bodies.items) capacities.now) u.why) }
    ensures back { IfErr result.0 (λ u. u.bodies.items ≡ bodies.items) }
    ensures unused { OnErr result.0 (result.1 ≡ sink) }
{
    run_as::<T, Brand, R, C, G, S>(
        rt,
        alloc,
        Blank::new(u64::from(limits.machines)),
        Board::new(),
        run,
        limits,
        capacities,
        bodies,
        clock,
        gate,
        random,
        sink,
        is_fair,
    )
}

/// The same by a ledger of this run. All memory but the book's is taken before it, so that the bodies come back whole.
fn run_as<
    T: Runs + Send,
    L: DeskLedger<T, S> + Sync,
    R: Threads + Wait + Sync,
    C: Clock + Sync,
    G: Gate + Sync,
    S: Sink + Send,
>(
    rt: &R,
    alloc: Global,
    blank: Blank,
    board: Board<Driver<T, Owner>>,
    run: u64,
    limits: Limits,
    capacities: &[u32],
    bodies: Vec<T>,
    clock: &C,
    gate: &G,
    random: u64,
    sink: S,
    is_fair: bool,
) -> (Result<Report<T>, Unrun<T>>, S)
    requires name { blank.name ≡ L.name }
    requires parts { (blank.parts ≡ L.parts) × (blank.parts ≡ limits.machines) }
    requires board { (board.name ≡ L.board) × (board.values ≡ []) }
    requires run { run ≡ L.run }
    requires fair { is_fair ≡ L.fair }
    requires first { (s : S) → L.first s → s ≡ sink }
    requires begins { L.first sink }
    requires given { bodies.items ≡ L.given }
    ensures report { IfOk result.0 (λ r. IsPiecesReport S.takes S.refuses limits capacities.now (length bodies.items) sink r result.1) }
    ensures of { IfOk result.0 (λ r. IsPiecesReportOf run is_fair S.takes S.refuses limits capacities.now (length bodies.items) sink r result.1) }
    ensures bodies { IfOk result.0 (λ r. AllLedFrom T.resumes T.blocks bodies.items r.bodies.items) }
    ensures says { IfOk result.0 (λ r. SaysPieces run is_fair T.resumes T.blocks S.takes S.refuses limits capacities.now bodies.items sink r result.1) }
    ensures why { IfErr result.0 (λ u. WhyUnrun (AreLimits limits (length bodies.items) capacities.now) u.why) }
    ensures back { IfErr result.0 (λ u. u.bodies.items ≡ bodies.items) }
    ensures unused { OnErr result.0 (result.1 ≡ sink) }
{
    let count = bodies.len();
    if !limits.allow(count, capacities) {
        let why = Refusal::BadLimits;
        return (Err(Unrun { why, bodies }), sink);
    }
    let Ok(room) = Room::<T, L>::of(alloc, run, limits) else {
        let why = Refusal::OutOfMemory;
        return (Err(Unrun { why, bodies }), sink);
    };
    let Room {
        owners,
        thieves,
        parkers,
        unparkers,
        seats,
        logs,
        spare,
    } = room;
    let (book, passes) = match Book::open(alloc, run, limits, capacities, bodies, owners) {
        Ok(opened) => opened,
        Err(unopened) => {
            let Unopened { why, bodies, .. } = unopened;
            seats.destroy_empty();
            return (Err(Unrun { why, bodies }), sink);
        }
    };
    // A part for each machine, and none left over: once the parts are together again no machine is still counting.
    let (tally, mut all) = blank.open::<L>();
    let mut board = board;
    let seats = seat_all(
        &mut board,
        seats,
        passes,
        thieves,
        parkers,
        &mut all,
        limits.procs,
        random,
        is_fair,
    );
    let desk = Desk::new(book, tally, board, sink, spare);
    let watch = Watch::new();
    let shared = Shared::new(Bench { desk, watch });
    let floor = Floor {
        shared: &shared,
        unparkers: unparkers.as_slice(),
        clock,
        gate,
    };
    let started = in_threads(rt, alloc, &floor, seats.as_slice());
    let Bench { mut desk, .. } = shared.into_inner();
    let logs = gather(rt, &mut desk, &mut all, logs, seats, limits.machines);
    let (report, sink) = finish(rt, desk, all, logs, started, limits, capacities, count);
    (Ok(report), sink)
}

/// A seat for each pass, the last first, in room that is there.
/// Lists are taken from their end, so the first machine is seated last, and `gather` meets it first of all.
fn seat_all<T: Runs, L: RunLedger>(
    board: &mut Board<Driver<T, Owner>>,
    room: Vec<Seat<T, L>>,
    passes: Vec<Pass>,
    thieves: Vec<Vec<Thief>>,
    parkers: Vec<Parker>,
    all: &mut Share<L>,
    procs: u8,
    random: u64,
    is_fair: bool,
) -> Vec<Seat<T, L>>
    requires empty { room.items ≡ [] }
    requires room { length passes.items ≤ vec_capacity room }
    requires passes { passes.items ≡ opening_passes L.run L.parts }
    requires board { (board.old.name ≡ L.board) × (board.old.values ≡ []) }
    requires fair { is_fair ≡ L.fair }
    requires thieves { length thieves.items ≡ length passes.items }
    requires parkers { length parkers.items ≡ length passes.items }
    requires procs { (1 ≤ procs) × (procs ≤ 32) }
    requires parts { all.old.parts ≡ length passes.items }
    requires amount { all.old.amount ≡ 0 }
    ensures parts { all.new.parts ≡ 0 }
    ensures amount { all.new.amount ≡ 0 }
    ensures board { board.new.name ≡ L.board }
    ensures counted { AreCounted (replicate L.parts 0) L.parts board.new.values }
    ensures all { length board.new.values ≡ L.parts }
    ensures first { AreFirst L.parts L.run L.fair procs board.new.values }
{
    let mut seats = room;
    let mut passes = passes;
    let mut thieves = thieves;
    let mut parkers = parkers;
    while let Some(pass) = passes.pop() {
        let thieves = thieves.pop().unwrap();
        let parker = parkers.pop().unwrap();
        let share = all.split_off(1, 0);
        let random = Lcg64Xsh32::seed_from_u64(random.wrapping_add(u64::from(pass.m.0)));
        let machine = Machine::new(board, pass, procs, thieves, random, parker, share, is_fair);
        seats.push_reserved(Mutex::new(Some(machine)));
    }
    passes.destroy_empty();
    seats
}

/// Whether the gate lets the machine in the seat in.
/// A gate that leaves machines out stands in for a system that refuses threads: that a closure of a caller's may start threads can't be
/// shown.
fn is_admitted<T: Runs, L: RunLedger, R: Wait, W: Works<T, L>>(
    rt: &R,
    floor: &W,
    seat: &Seat<T, L>,
) -> bool {
    let m = seat.lock(rt).as_ref().map(|machine| machine.m);
    m.is_some_and(|m| floor.admits(m))
}

/// Runs the machines in the seats, and says how many were started. One that isn't let in, or whose thread can't be started, is left in its
/// seat.
/// It waits for each thread that it started; each of them ends once the run is over.
fn in_threads<T: Runs + Send, L: RunLedger + Sync, R: Threads + Wait + Sync, W: Works<T, L> + Sync>(
    rt: &R,
    alloc: Global,
    floor: &W,
    seats: &[Seat<T, L>],
) -> u8 {
    let [others @ .., first] = seats else {
        return 0;
    };
    thread::scope(thread::scope_env(), rt, |scope| {
        let mut started = 1u8;
        for seat in others {
            if is_admitted(rt, floor, seat)
                && scope.spawn(move || floor.works(rt, alloc, seat)).is_ok()
            {
                started = started.saturating_add(1);
            }
        }
        // Machine 0 needs no thread, so a run goes on wherever none can be started.
        floor.works(rt, alloc, first);
        started
    })
}

/// Takes the machines from their seats, in order: a log of each, in room that is there, and their shares.
fn gather<T: Runs, L: DeskLedger<T, S>, R: Wait, S: Sink>(
    rt: &R,
    desk: &mut Desk<T, Owner, L, S>,
    all: &mut Share<L>,
    room: Vec<PassLog>,
    seats: Vec<Seat<T, L>>,
    machines: u8,
) -> Vec<PassLog>
    requires empty { room.items ≡ [] }
    requires room { machines ≤ vec_capacity room }
    requires parts { all.old.parts ≡ 0 }
    requires amount { all.old.amount ≡ 0 }
    ensures parts { all.new.parts ≡ machines }
    ensures amount { all.new.amount ≡ all_calls result.items }
    ensures logs { AreLogs machines result.items }
    ensures counted { All (IsCountOf desk.old.book.log.state.counts) result.items }
    ensures desk { desk.new ≡ desk.old }
{
    let mut logs = room;
    let mut seats = seats;
    // Every thread has ended here: the scope doesn't end before.
    while let Some(seat) = seats.pop() {
        let Some(machine) = seat.into_inner() else {
            hang(rt)
        };
        let (log, share) = desk.log_of(machine);
        if usize::from(log.m.0) != logs.len() || log.m.0 >= machines {
            hang(rt);
        }
        logs.push_reserved(log);
        all.merge(share);
    }
    seats.destroy_empty();
    if logs.len() != usize::from(machines) {
        hang(rt);
    }
    logs
}
