//! What no clause says of a host's run: who is lost and with which answer, a gate of one's own, how a run falls short, that each body
//! that is handed over leaves its output once, and that in a host whose machines are fair nobody is passed over. `rt run` proves, builds and runs it; the gate compares what it prints with `stdout`.
#![tactic(auto)]

mod busy;
mod drawn;
mod ends;
mod handed;
mod loaded;
mod parcels;
mod split;
mod text;
mod ways;

use crate::busy::{Waits, run_busy};
use crate::drawn::{Bug, Draws, run_bug};
use crate::ends::show_ends;
use crate::handed::{Found, run_handed};
use crate::loaded::{Tally, run_loaded};
use crate::parcels::{run_parcels, try_places};
use crate::split::run_split;
use crate::text::{show_left, show_poller, show_text};
use crate::ways::Runner;
use anyhow::Result;
use gmp_host::{
    Act, Ask, Channel, Ended, GNo, Gate, Goroutine, History, Host, MNo, Nonsense, Note, Settings,
    Short, Since, Sink, Stop, Woke, search, shortest,
};
use std::alloc::Global;
use std::sync::Wait;
use std::thread::Threads;
use std::time::Clock;

/// A channel that nobody receives from, and one that nobody sends on.
#[derive(Clone, Copy, Drop)]
struct Channels {
    closed: Channel,
    empty: Channel,
}

/// Main closes a channel, starts goroutine 1, and receives on the other one.
#[derive(Drop)]
struct Closer {
    channels: Channels,
    step: u8,
}

impl Goroutine for Closer {
    fn resume(&mut self, _woke: Woke) -> Result<Ask, Nonsense> {
        self.step = self.step.saturating_add(1);
        match self.step {
            1 => Ok(self.channels.closed.close()),
            2 => Ok(Ask::Go(GNo(1))),
            _ => Ok(self.channels.empty.recv()),
        }
    }
}

/// Goroutine 1 sends on the channel that is closed, and can make no sense of what it is told.
#[derive(Drop)]
struct Late {
    channels: Channels,
}

impl Goroutine for Late {
    fn resume(&mut self, woke: Woke) -> Result<Ask, Nonsense> {
        match woke {
            Woke::First => Ok(self.channels.closed.send(7)),
            _ => Err(Nonsense),
        }
    }
}

/// Main yields for ever.
#[derive(Drop)]
struct Yielder;

impl Goroutine for Yielder {
    fn resume(&mut self, _woke: Woke) -> Result<Ask, Nonsense> {
        Ok(Ask::Yield)
    }
}

/// Main ends at once.
#[derive(Drop)]
struct Ender;

impl Goroutine for Ender {
    fn resume(&mut self, _woke: Woke) -> Result<Ask, Nonsense> {
        Ok(Ask::Exit)
    }
}

/// Lets machine 0 in alone, and counts the acts of machine 0 and of all others.
#[derive(Drop)]
struct Counts {
    own: Note,
    others: Note,
}

impl Gate for Counts {
    fn before(&self, m: MNo, _act: &Act) {
        if m == MNo(0) {
            self.own.add(1);
        } else {
            self.others.add(1);
        }
    }

    fn admits(&self, m: MNo) -> bool {
        m == MNo(0)
    }
}

/// Takes two pieces, and stops the run at the third.
#[derive(Drop)]
struct Two {
    pieces: u8,
}

impl Sink for Two {
    ghost use Rattle.std.specs.Prelude.{List};
    ghost use Rattle.gmp_seq.specs.declared.call.Entry.{Entry};

    ghost takes = { λ before entries after. Unit {0} };

    ghost refuses = { λ before entries after. Unit {0} };

    fn take(&mut self, history: &mut History) -> Result<(), Stop> {
        if self.pieces == 2 {
            return Err(Stop);
        }
        self.pieces = self.pieces.saturating_add(1);
        history.clear();
        Ok(())
    }
}

/// How a host runs.
#[derive(Clone, Copy, Drop)]
enum Way<'a> {
    Step,
    Run,
    By(&'a Counts),
}

/// The end of a run of both, or how it falls short.
fn lossy<R: Threads + Wait + Clock + Sync>(
    rt: &R,
    alloc: Global,
    way: Way,
) -> Result<Ended, Short> {
    let mut host = Host::new(alloc, Settings::default())?;
    let (closed, empty) = (host.channel(0)?, host.channel(0)?);
    let channels = Channels { closed, empty };
    let closer = host.boxed(Closer { channels, step: 0 })?;
    host.push(closer)?;
    let late = host.boxed(Late { channels })?;
    host.push(late)?;
    match way {
        Way::Step => host.step(),
        Way::Run => host.run(rt),
        Way::By(gate) => host.run_by(rt, &Since::now(rt), gate),
    }
}

/// The end of a run of one who yields, under these settings, or how it falls short. What is boxed is pushed, if it is to be.
fn yielding(alloc: Global, settings: Settings, is_pushed: bool) -> Result<Ended, Short> {
    let mut host = Host::new(alloc, settings)?;
    let yielder = host.boxed(Yielder)?;
    if is_pushed {
        host.push(yielder)?;
    }
    host.step()
}

/// How a run falls short in which the second goroutine that was reserved has no body.
fn reserved(alloc: Global) -> Result<Ended, Short> {
    let mut host = Host::new(alloc, Settings::default())?;
    host.reserve()?;
    host.reserve()?;
    for _ in 0..2 {
        let yielder = host.boxed(Yielder)?;
        host.push(yielder)?;
    }
    host.step()
}

/// How many pieces the sink took of a run of one who yields, and how that falls short.
fn stopped<R: Threads + Wait + Clock + Sync>(
    rt: &R,
    alloc: Global,
) -> Result<(Result<Ended, Short>, u8), Short> {
    let settings = Settings {
        entries: 1 << 40,
        room: 16,
        ..Settings::default()
    };
    let mut host = Host::new(alloc, settings)?;
    let yielder = host.boxed(Yielder)?;
    host.push(yielder)?;
    let (ended, sink) = host.run_into(rt, Two { pieces: 0 });
    Ok((ended, sink.pieces))
}

/// What became of bodies that were handed over, and of work that was split, by this runner.
fn show_spawned<R: Threads + Wait + Clock + Sync + Print>(
    rt: &R,
    alloc: Global,
    runner: Runner,
) -> Result<()> {
    let found = Found::new(alloc)?;
    let ended = run_handed(rt, alloc, runner, &found)?;
    println!(rt;
        "handed over: {ended}; outputs {}, sum {}, twice {}",
        found.outputs.get(),
        found.sum.get(),
        found.twice.get()
    )?;
    // In threads goroutines may be free in time for each body.
    if let Runner::Core = runner {
        println!(rt; "bodies came back: {}", found.back.get() > 0)?;
    }
    let (count, sum) = (Note::new(alloc)?, Note::new(alloc)?);
    let ended = run_split(rt, alloc, runner, &count, &sum)?;
    println!(rt;
        "split: {ended}; numbers {}, sum {}",
        count.get(),
        sum.get()
    )?;
    Ok(())
}

/// What comes of parcels that are sent, by this runner.
fn show_parcels<R: Threads + Wait + Clock + Sync + Print>(
    rt: &R,
    alloc: Global,
    runner: Runner,
) -> Result<()> {
    let found = parcels::Found::new(alloc)?;
    let ended = run_parcels(rt, alloc, runner, &found)?;
    println!(rt;
        "parcels: {ended}; {} came, weight {}, twice {}",
        found.count.get(),
        found.weight.get(),
        found.twice.get()
    )?;
    Ok(())
}

/// What two places for values do.
fn show_places<R: Print>(rt: &R, alloc: Global) -> Result<()> {
    let Some(it) = try_places(alloc)? else {
        println!(rt; "two places: none for the second")?;
        return Ok(());
    };
    println!(rt;
        "two places: full {}, taken {}, twice {}, free again {}, by another's number {}",
        it.is_full, it.is_taken, it.is_taken_twice, it.is_free, it.is_taken_by_another
    )?;
    Ok(())
}

/// How main ends beside two goroutines that wake each other without end, where its machine is fair, and where it is not.
fn show_busy<R: Threads + Wait + Clock + Sync + Print>(
    rt: &R,
    alloc: Global,
    words: &str,
    waits: Waits,
) -> Result<()> {
    let fair = run_busy(rt, alloc, waits, true)?;
    let unfair = run_busy(rt, alloc, waits, false)?;
    println!(rt;
        "{words}: {fair}, {} entries; not fair: {:?}, {} entries",
        fair.entries, unfair.outcome, unfair.entries
    )?;
    Ok(())
}

/// How many requests of a server under load are answered, and how many late, by so many machines, under these settings for the rest.
fn show_loaded<R: Threads + Wait + Clock + Sync + Print>(
    rt: &R,
    alloc: Global,
    machines: u8,
    settings: Settings,
) -> Result<()> {
    let tally = Tally::new(alloc)?;
    let ended = run_loaded(rt, alloc, machines, settings, &tally)?;
    println!(rt;
        "under load, machines {machines}, fair {}: {ended}; answered {}, late {}",
        settings.fair,
        tally.answered.get(),
        tally.late.get()
    )?;
    Ok(())
}

/// Whether both are there, and have the same entries, call for call and reply for reply.
fn are_same(alloc: Global, one: Option<History>, other: Option<History>) -> Result<bool> {
    let (Some(one), Some(other)) = (one, other) else {
        return Ok(false);
    };
    for (a, b) in one.iter().zip(other.iter()) {
        if format!(in alloc; "{a:?}")? != format!(in alloc; "{b:?}")? {
            return Ok(false);
        }
    }
    Ok(one.len() == other.len())
}

/// What searches through 1000 seeds of such a program find, its schedule drawn so: the first seed whose run does not end well, whether it makes that
/// run again, twice, the shortest such run, and how many there are.
fn show_found<R: Print>(rt: &R, alloc: Global, words: &str, bug: Bug, draws: Draws) -> Result<()> {
    let ill = Note::new(alloc)?;
    let run = |seed| {
        let ended = run_bug(alloc, bug, drawn::Way::Drawn(draws, seed))?.0;
        ill.add(u64::from(!ended.is_well()));
        Ok(ended)
    };
    let first = search(0..1000, run)?;
    ill.set(0);
    let (Some(found), Some(least)) = (first, shortest(0..1000, run)?) else {
        println!(rt; "{words}: no seed finds it")?;
        return Ok(());
    };
    let again = drawn::Way::Replayed(draws, found.seed);
    let (ended, history) = run_bug(alloc, bug, again)?;
    let (_, once_more) = run_bug(alloc, bug, again)?;
    println!(rt;
        "{words}: {found}; again: {}, the same entries: {}; found by {} seeds, the shortest by {}: {} entries",
        ended == found.ended,
        are_same(alloc, history, once_more)?,
        ill.get(),
        least.seed,
        least.ended.entries
    )?;
    Ok(())
}

/// What a search tells whose third run is refused.
fn show_refused<R: Print>(rt: &R, alloc: Global) -> Result<()> {
    let run = |seed: u64| {
        let settings = Settings {
            entries: 16,
            procs: if seed == 2 { 0 } else { 1 },
            machines: 1,
            ..Settings::default()
        };
        let mut host = Host::new(alloc, settings)?;
        let ender = host.boxed(Ender)?;
        host.push(ender)?;
        host.step_by(seed)
    };
    match search(0..4, run) {
        Ok(_) => println!(rt; "a search: all ran")?,
        Err(fell) => println!(rt; "a search: {fell}")?,
    }
    Ok(())
}

/// How a program that goes wrong by few schedules ends in turn, and what searches find.
fn show_drawn<R: Print>(rt: &R, alloc: Global, words: &str, bug: Bug) -> Result<()> {
    let (ended, _) = run_bug(alloc, bug, drawn::Way::InTurn)?;
    println!(rt; "{words}, in turn: {ended}")?;
    show_found(rt, alloc, "even draws", bug, Draws::Even)?;
    show_found(rt, alloc, "drawn ranks", bug, Draws::Ranked)
}

fn main(rt: HostRuntime) -> Result<()> {
    let alloc = rt.alloc();
    println!(rt; "step: {}", lossy(&rt, alloc, Way::Step)?)?;
    println!(rt; "run: {}", lossy(&rt, alloc, Way::Run)?)?;
    let (own, others) = (Note::new(alloc)?, Note::new(alloc)?);
    let gate = Counts {
        own: own.share()?,
        others: others.share()?,
    };
    let ended = lossy(&rt, alloc, Way::By(&gate))?;
    let is_told = own.get() > 0;
    println!(rt;
        "by a gate: {ended}; machine 0 is told: {is_told}, others: {}",
        others.get()
    )?;
    let few = Settings {
        entries: 16,
        ..Settings::default()
    };
    let none = Settings {
        procs: 0,
        ..Settings::default()
    };
    let above = Settings {
        entries: 1_000_001,
        ..Settings::default()
    };
    for (settings, is_pushed) in [(few, true), (none, true), (above, true), (few, false)] {
        match yielding(alloc, settings, is_pushed) {
            Ok(ended) => println!(rt; "{ended}, {} entries", ended.entries)?,
            Err(short) => println!(rt; "{short}")?,
        }
    }
    match reserved(alloc) {
        Ok(ended) => println!(rt; "{ended}")?,
        Err(short) => println!(rt; "{short}")?,
    }
    match stopped(&rt, alloc)? {
        (Ok(ended), _) => println!(rt; "{ended}")?,
        (Err(short), pieces) => println!(rt; "{short}, pieces: {pieces}")?,
    }
    show_spawned(&rt, alloc, Runner::Core)?;
    show_spawned(&rt, alloc, Runner::Threads)?;
    show_parcels(&rt, alloc, Runner::Core)?;
    show_parcels(&rt, alloc, Runner::Threads)?;
    show_places(&rt, alloc)?;
    show_busy(&rt, alloc, "yields, step", Waits::Yields(Runner::Core))?;
    show_busy(
        &rt,
        alloc,
        "yields, in pieces",
        Waits::Yields(Runner::Threads),
    )?;
    show_busy(&rt, alloc, "sleeps, by a clock", Waits::Sleeps(4))?;
    let settings = Runner::Threads.settings();
    show_loaded(&rt, alloc, 1, settings)?;
    show_loaded(&rt, alloc, 4, settings)?;
    let unfair = Settings {
        entries: 10_000,
        fair: false,
        ..settings
    };
    show_loaded(&rt, alloc, 1, unfair)?;
    show_text(&rt, alloc)?;
    show_poller(&rt, alloc)?;
    show_left(&rt, alloc)?;
    show_ends(&rt, alloc)?;
    show_refused(&rt, alloc)?;
    show_drawn(&rt, alloc, "two locks", Bug::Locks)?;
    show_drawn(&rt, alloc, "a wake-up", Bug::WakeUp)?;
    show_drawn(&rt, alloc, "a closed channel", Bug::Closed)
}
