//! Two goroutines take two locks, each the other's first. In turn the run ends well; a search through seeds finds one in which each waits for the
//! other, and its trace is written behind that.
#![tactic(auto)]

use anyhow::{Context, Result};
use gmp_host::{
    Ask, Channel, Goroutine, Group, Handle, Host, Nonsense, Settings, Short, Traced, Woke, search,
};
use std::alloc::Global;
use std::io;

/// Starts the others, and waits for them.
#[derive(Drop)]
struct Boss(Vec<Handle>, Group);

impl Goroutine for Boss {
    fn resume(&mut self, _woke: Woke) -> Result<Ask, Nonsense> {
        match self.0.pop() {
            Some(handle) => Ok(handle.go()),
            None => Ok(self.1.wait().unwrap_or(Ask::Exit)),
        }
    }
}

/// Takes one lock and then another, and gives both back. A lock is a channel with room for one value: who sends holds it, and who receives gives
/// it back.
#[derive(Drop)]
struct Locker(Channel, Channel, Group, u8);

impl Goroutine for Locker {
    fn resume(&mut self, _woke: Woke) -> Result<Ask, Nonsense> {
        let Locker(first, second, group, step) = self;
        *step = step.saturating_add(1);
        match *step {
            1 => Ok(first.send(1)),
            2 => Ok(second.send(1)),
            3 => Ok(second.recv()),
            4 => Ok(first.recv()),
            5 => Ok(group.done()),
            _ => Ok(Ask::Exit),
        }
    }
}

/// Their run by this seed, or in turn.
fn run(alloc: Global, seed: Option<u64>) -> Result<Traced, Short> {
    let settings = Settings {
        procs: 2,
        machines: 2,
        channels: 3,
        entries: 1000,
        ..Settings::default()
    };
    let mut host = Host::new(alloc, settings)?;
    let (a, b, group) = (host.channel(1)?, host.channel(1)?, host.group(2)?);
    let mut handles = Vec::new(alloc);
    for _ in 0..2 {
        handles.push(host.reserve()?)?;
    }
    let boss = host.boxed(Boss(handles, group))?;
    host.push(boss)?;
    for (first, second) in [(a, b), (b, a)] {
        let locker = host.boxed(Locker(first, second, group, 0))?;
        host.push(locker)?;
    }
    match seed {
        Some(seed) => host.replay(seed),
        None => host.step_traced(),
    }
}

fn main(rt: HostRuntime) -> Result<()> {
    let alloc = rt.alloc();
    println!(rt; "in turn: {}", run(alloc, None)?.ended)?;
    let found = search(0..1000, |seed| Ok(run(alloc, Some(seed))?.ended))?;
    let found = found.context("no seed finds it")?;
    println!(rt; "{found}")?;
    run(alloc, Some(found.seed))?.write(&mut io::writer(&rt))?;
    Ok(())
}
