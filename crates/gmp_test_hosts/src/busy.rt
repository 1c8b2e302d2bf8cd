//! Main, which lets others go on, and two goroutines that wake each other without end, over one machine: a fair one comes back to main.

use crate::ways::Runner;
use gmp_host::{
    Ask, Channel, Clock, Ended, GNo, Goroutine, Host, Nonsense, Note, Open, Settings, Short, Woke,
};
use std::alloc::Global;
use std::sync::Wait;
use std::thread::Threads;
use std::time;

/// Sends on one channel and receives on another, in turn and without end.
#[derive(Drop)]
pub struct Echo {
    to: Channel,
    from: Channel,
    /// Whether it sends first.
    is_first: bool,
}

impl Echo {
    /// Who sends first, and then receives on the other channel.
    pub fn first(there: Channel, back: Channel) -> Self {
        Echo {
            to: there,
            from: back,
            is_first: true,
        }
    }

    /// Who receives from the first, and then sends back.
    pub fn second(there: Channel, back: Channel) -> Self {
        Echo {
            to: back,
            from: there,
            is_first: false,
        }
    }
}

impl Goroutine for Echo {
    fn resume(&mut self, woke: Woke) -> Result<Ask, Nonsense> {
        match woke {
            Woke::First if self.is_first => Ok(self.to.send(1)),
            Woke::First | Woke::Done => Ok(self.from.recv()),
            Woke::Got(_, true) => Ok(self.to.send(1)),
            _ => Err(Nonsense),
        }
    }
}

/// Main: it starts the two, yields once, or sleeps until a moment, and ends.
#[derive(Drop)]
struct Waiter {
    until: Option<u64>,
    step: u8,
}

impl Goroutine for Waiter {
    fn resume(&mut self, woke: Woke) -> Result<Ask, Nonsense> {
        self.step = self.step.saturating_add(1);
        match (self.step, woke) {
            (1, Woke::First) => Ok(Ask::Go(GNo(1))),
            (2, Woke::Done) => Ok(Ask::Go(GNo(2))),
            (3, Woke::Done) => match self.until {
                Some(moment) => Ok(Ask::Sleep(moment)),
                None => Ok(Ask::Yield),
            },
            (4, Woke::Done) => Ok(Ask::Exit),
            _ => Err(Nonsense),
        }
    }
}

/// A clock that shows 1 when it is first looked at, and 1 more each time.
#[derive(Drop)]
struct Looks {
    count: Note,
}

impl Clock for Looks {
    fn now(&self) -> u64 {
        self.count.add(1);
        self.count.get()
    }

    // No rest takes time.
    fn rest(&self, _most: u64) {}
}

/// What main does, and by what it is run.
#[derive(Clone, Copy)]
pub enum Waits {
    /// It yields.
    Yields(Runner),
    /// It sleeps until the machine has looked at the clock so often, which it does every 16 claims.
    Sleeps(u64),
}

/// The end of a run of at most 1000 entries by one machine, which is fair, or is not.
///
/// By the rules there are 14 entries until the pair's first two claims are done, of which 8 are main's, and 4 at each claim that follows. The
/// 16th claim is the 13th of these. Main that yields is found on the shelf behind it: 14 + 13 * 4, and tick, take, claim, exit make 70. Main that
/// sleeps until the fourth look at the clock is woken by the fourth tick, behind a take that found none, a look aside at the queue, one more
/// such take and 3 * 16 claims, and the machine pokes then. It is taken from the shelf 16 claims later: 14 + 13 * 4 + 2 + 64 + 1 + 64 + 2 + 64
/// + 2 + 64, and tick, take, claim, exit make 333.
pub fn run_busy<R: Threads + Wait + time::Clock + Sync>(
    rt: &R,
    alloc: Global,
    waits: Waits,
    fair: bool,
) -> Result<Ended, Short> {
    let settings = Settings {
        procs: 1,
        machines: 1,
        entries: 1000,
        fair,
        ..Settings::default()
    };
    let mut host = Host::new(alloc, settings)?;
    let (there, back) = (host.channel(0)?, host.channel(0)?);
    let until = match waits {
        Waits::Yields(_) => None,
        Waits::Sleeps(moment) => Some(moment),
    };
    let waiter = host.boxed(Waiter { until, step: 0 })?;
    host.push(waiter)?;
    let first = host.boxed(Echo::first(there, back))?;
    host.push(first)?;
    let second = host.boxed(Echo::second(there, back))?;
    host.push(second)?;
    match waits {
        Waits::Yields(runner) => runner.run(rt, host),
        Waits::Sleeps(_) => {
            let looks = Looks {
                count: Note::new(alloc)?,
            };
            host.run_by(rt, &looks, &Open)
        }
    }
}
