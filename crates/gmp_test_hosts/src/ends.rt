//! How runs end that lose two, or are told in pieces, or fill the book while others wait; and the time that goroutines read.

use crate::ways::Runner;
use anyhow::Result;
use gmp_host::{
    Ask, Channel, Ended, GNo, Goroutine, Host, Nonsense, Note, Settings, Short, Time, Woke,
};
use std::alloc::Global;
use std::sync::Wait;
use std::thread::Threads;
use std::time::Clock;

/// Main closes a channel, starts so many goroutines, and waits for a ready.
#[derive(Drop)]
struct Starter {
    closed: Channel,
    most: u16,
    step: u16,
}

impl Goroutine for Starter {
    fn resume(&mut self, _woke: Woke) -> Result<Ask, Nonsense> {
        let step = self.step;
        self.step = self.step.saturating_add(1);
        match step {
            0 => Ok(self.closed.close()),
            g if g <= self.most => Ok(Ask::Go(GNo(g))),
            _ => Ok(Ask::Park),
        }
    }
}

/// Makes no sense of what it is told: goroutine 1 of a length, goroutine 2 of a send on a channel that is closed.
#[derive(Drop)]
struct Loses(Ask);

impl Goroutine for Loses {
    fn resume(&mut self, woke: Woke) -> Result<Ask, Nonsense> {
        match woke {
            Woke::First => Ok(self.0.copied()),
            _ => Err(Nonsense),
        }
    }
}

/// The end of a run that loses so many, by this runner.
fn losing<R: Threads + Wait + Clock + Sync>(
    rt: &R,
    alloc: Global,
    runner: Runner,
    most: u16,
) -> Result<Ended, Short> {
    let mut host = Host::new(alloc, runner.settings())?;
    let closed = host.channel(0)?;
    let main = host.boxed(Starter {
        closed,
        most,
        step: 0,
    })?;
    host.push(main)?;
    for g in 1..=most {
        let ask = if g == 1 {
            Ask::Len(closed.0)
        } else {
            closed.send(7)
        };
        let loses = host.boxed(Loses(ask))?;
        host.push(loses)?;
    }
    runner.run(rt, host)
}

/// Yields for ever.
#[derive(Drop)]
struct Yields;

impl Goroutine for Yields {
    fn resume(&mut self, _woke: Woke) -> Result<Ask, Nonsense> {
        Ok(Ask::Yield)
    }
}

/// The end of a run that one who yields goes on with, long after main began to wait.
fn filling(alloc: Global) -> Result<Ended, Short> {
    let settings = Settings {
        procs: 1,
        machines: 1,
        entries: 300,
        ..Settings::default()
    };
    let mut host = Host::new(alloc, settings)?;
    let closed = host.channel(0)?;
    let main = host.boxed(Starter {
        closed,
        most: 1,
        step: 0,
    })?;
    host.push(main)?;
    let yields = host.boxed(Yields)?;
    host.push(yields)?;
    host.step()
}

/// Sleeps 1500 and then 500 microseconds, and notes how often it woke at that moment or later.
#[derive(Drop)]
struct Sleeps {
    time: Time,
    woke: Note,
    until: u64,
    step: u8,
}

impl Goroutine for Sleeps {
    fn resume(&mut self, _woke: Woke) -> Result<Ask, Nonsense> {
        let step = self.step;
        self.step = self.step.saturating_add(1);
        if step > 0 {
            self.woke.add(u64::from(self.time.now() >= self.until));
        }
        let us = match step {
            0 => 1500,
            1 => 500,
            _ => return Ok(Ask::Exit),
        };
        self.until = self.time.in_us(us);
        Ok(Ask::Sleep(self.until))
    }
}

/// How often one woke in time who slept twice, by this runner, and what its time is at the end, at least, in microseconds.
fn slept<R: Threads + Wait + Clock + Sync>(
    rt: &R,
    alloc: Global,
    runner: Runner,
) -> Result<(u64, bool), Short> {
    let mut host = Host::new(alloc, runner.settings())?;
    let (time, woke) = (host.time()?, host.note()?);
    let last = time.share()?;
    let sleeps = host.boxed(Sleeps {
        time,
        woke: woke.share()?,
        until: 0,
        step: 0,
    })?;
    host.push(sleeps)?;
    runner.run(rt, host)?;
    Ok((woke.get(), last.now() >= 2_000_000))
}

/// All of these.
pub fn show_ends<R: Threads + Wait + Clock + Sync + Print>(rt: &R, alloc: Global) -> Result<()> {
    println!(rt; "two lost: {}", losing(rt, alloc, Runner::Core, 2)?)?;
    println!(rt; "in pieces: {}", losing(rt, alloc, Runner::Threads, 1)?)?;
    println!(rt; "a full book: {}", filling(alloc)?)?;
    for runner in [Runner::Core, Runner::Threads] {
        let (woke, is_late) = slept(rt, alloc, runner)?;
        println!(rt; "slept: {woke} times, 2 ms in all: {is_late}")?;
    }
    Ok(())
}
