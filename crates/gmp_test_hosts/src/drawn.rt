//! Programs that go wrong by few schedules: in turn they end well, and a search through seeds finds the run that doesn't.

use gmp_host::{
    Ask, Channel, Ended, Fault, GNo, Goroutine, History, Host, Nonsense, Note, Ranked, Settings,
    Short, Woke,
};
use std::alloc::{AllocError, Global};

/// What is wrong.
#[derive(Clone, Copy, Drop)]
pub enum Bug {
    /// Two goroutines take two locks, each the other's first.
    Locks,
    /// One looks at a flag, and parks if it isn't set. Another sets it, and readies who is parked.
    WakeUp,
    /// Two send on a channel, which the first of them closes behind its last value.
    Closed,
}

/// How a schedule is drawn.
#[derive(Clone, Copy, Drop)]
pub enum Draws {
    Even,
    Ranked,
}

/// How a program is run.
#[derive(Clone, Copy, Drop)]
pub enum Way {
    InTurn,
    /// By this seed.
    Drawn(Draws, u64),
    /// The same, with its history.
    Replayed(Draws, u64),
}

impl Way {
    /// How it ends, and its history, where it is replayed.
    fn run(self, alloc: Global, host: Host) -> Result<(Ended, Option<History>), Short> {
        match self {
            Way::InTurn => Ok((host.step()?, None)),
            Way::Drawn(draws, seed) => match draws {
                Draws::Even => Ok((host.step_by(seed)?, None)),
                Draws::Ranked => Ok((host.step_dealt(ranked(alloc, seed)?)?, None)),
            },
            Way::Replayed(draws, seed) => {
                let run = match draws {
                    Draws::Even => host.replay(seed),
                    Draws::Ranked => host.replay_dealt(ranked(alloc, seed)?),
                }?;
                Ok((run.ended, Some(run.history)))
            }
        }
    }
}

/// How often one falls behind, where goroutines have ranks, and among how many steps.
const FALLS: u8 = 1;

const STEPS: u32 = 40;

/// Ranks for three goroutines that are drawn from this seed.
fn ranked(alloc: Global, seed: u64) -> Result<Ranked, AllocError> {
    Ranked::new(alloc, seed, 3, FALLS, STEPS)
}

/// Main: it starts goroutines 1 and 2, and receives so often.
#[derive(Drop)]
struct Boss {
    done: Channel,
    left: u8,
    started: u16,
}

impl Boss {
    fn new(done: Channel, values: u8) -> Self {
        Boss {
            done,
            left: values,
            started: 0,
        }
    }
}

impl Goroutine for Boss {
    fn resume(&mut self, woke: Woke) -> Result<Ask, Nonsense> {
        match woke {
            Woke::First | Woke::Done if self.started < 2 => {
                self.started = self.started.saturating_add(1);
                Ok(Ask::Go(GNo(self.started)))
            }
            Woke::Done | Woke::Got(_, true) if self.left > 0 => {
                self.left = self.left.saturating_sub(1);
                Ok(self.done.recv())
            }
            Woke::Got(..) => Ok(Ask::Exit),
            _ => Err(Nonsense),
        }
    }
}

/// Takes a lock, which is a channel with room for one value, and then another, and gives both back.
#[derive(Drop)]
struct Locker {
    first: Channel,
    second: Channel,
    done: Channel,
    step: u8,
}

impl Goroutine for Locker {
    fn resume(&mut self, woke: Woke) -> Result<Ask, Nonsense> {
        self.step = self.step.saturating_add(1);
        match (self.step, woke) {
            (1, Woke::First) => Ok(self.first.send(1)),
            (2, Woke::Done) => Ok(self.second.send(1)),
            (3, Woke::Done) => Ok(self.second.recv()),
            (4, Woke::Got(_, true)) => Ok(self.first.recv()),
            (5, Woke::Got(_, true)) => Ok(self.done.send(1)),
            (6, Woke::Done) => Ok(Ask::Exit),
            _ => Err(Nonsense),
        }
    }
}

/// Parks unless the flag is set, and then tells main.
#[derive(Drop)]
struct Waiter {
    flag: Note,
    done: Channel,
    step: u8,
}

impl Goroutine for Waiter {
    fn resume(&mut self, woke: Woke) -> Result<Ask, Nonsense> {
        self.step = self.step.saturating_add(1);
        match (self.step, woke) {
            (1, Woke::First) if self.flag.get() == 0 => Ok(Ask::Park),
            (1, Woke::First) | (2, Woke::Done) => {
                self.step = 2;
                Ok(self.done.send(1))
            }
            (3, Woke::Done) => Ok(Ask::Exit),
            _ => Err(Nonsense),
        }
    }
}

/// Sets the flag, and readies goroutine 1 if that is parked.
#[derive(Drop)]
struct Waker {
    flag: Note,
}

impl Goroutine for Waker {
    fn resume(&mut self, woke: Woke) -> Result<Ask, Nonsense> {
        match woke {
            Woke::First => {
                self.flag.set(1);
                Ok(Ask::Ready(GNo(1)))
            }
            Woke::Done | Woke::Fault(Fault::NotParked) => Ok(Ask::Exit),
            _ => Err(Nonsense),
        }
    }
}

/// Sends a value, and closes the channel if it is to.
#[derive(Drop)]
struct Sender {
    done: Channel,
    closes: bool,
    step: u8,
}

impl Goroutine for Sender {
    fn resume(&mut self, woke: Woke) -> Result<Ask, Nonsense> {
        self.step = self.step.saturating_add(1);
        match (self.step, woke) {
            (1, Woke::First) => Ok(self.done.send(1)),
            (2, Woke::Done) if self.closes => Ok(self.done.close()),
            (2 | 3, Woke::Done) => Ok(Ask::Exit),
            _ => Err(Nonsense),
        }
    }
}

/// Few entries.
fn few() -> Settings {
    Settings {
        entries: 1000,
        ..Settings::default()
    }
}

/// Main and the lockers, run so.
fn locks(alloc: Global, way: Way) -> Result<(Ended, Option<History>), Short> {
    let mut host = Host::new(alloc, few())?;
    let (done, a, b) = (host.channel(0)?, host.channel(1)?, host.channel(1)?);
    let boss = host.boxed(Boss::new(done, 2))?;
    host.push(boss)?;
    for (first, second) in [(a, b), (b, a)] {
        let locker = host.boxed(Locker {
            first,
            second,
            done,
            step: 0,
        })?;
        host.push(locker)?;
    }
    way.run(alloc, host)
}

/// Main, who waits, and who wakes it, run so.
fn wake_up(alloc: Global, way: Way) -> Result<(Ended, Option<History>), Short> {
    let mut host = Host::new(alloc, few())?;
    let (done, flag) = (host.channel(0)?, host.note()?);
    let boss = host.boxed(Boss::new(done, 1))?;
    host.push(boss)?;
    let waiter = host.boxed(Waiter {
        flag: flag.share()?,
        done,
        step: 0,
    })?;
    host.push(waiter)?;
    let waker = host.boxed(Waker { flag })?;
    host.push(waker)?;
    way.run(alloc, host)
}

/// Main and the two senders, run so.
fn closed(alloc: Global, way: Way) -> Result<(Ended, Option<History>), Short> {
    let mut host = Host::new(alloc, few())?;
    let done = host.channel(2)?;
    let boss = host.boxed(Boss::new(done, 2))?;
    host.push(boss)?;
    for closes in [true, false] {
        let sender = host.boxed(Sender {
            done,
            closes,
            step: 0,
        })?;
        host.push(sender)?;
    }
    way.run(alloc, host)
}

/// Main and two goroutines that go wrong so, run so.
pub fn run_bug(alloc: Global, bug: Bug, way: Way) -> Result<(Ended, Option<History>), Short> {
    match bug {
        Bug::Locks => locks(alloc, way),
        Bug::WakeUp => wake_up(alloc, way),
        Bug::Closed => closed(alloc, way),
    }
}
