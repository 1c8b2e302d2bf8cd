//! Bodies that hand over others: the numbers of a span are added up by goroutines, each of which hands half of what it has over, where a
//! goroutine is free for it, and adds up the rest itself.

use crate::ways::Runner;
use gmp_host::{
    Ask, Ended, Fault, Goroutine, Host, Nonsense, Note, Outputs, Short, Spawner, Task, Woke,
};
use std::alloc::Global;
use std::sync::Wait;
use std::thread::Threads;
use std::time::Clock;

/// How many goroutines add up.
const GOROUTINES: u8 = 5;

/// The last of the numbers, which begin with 1.
const LAST: u64 = 1024;

/// A span of at most so many numbers is not split.
const FEW: u64 = 16;

/// Numbers, and what was added up of them.
#[derive(Drop)]
struct Span {
    /// The first that is left.
    from: u64,
    /// Beyond the last that is left.
    to: u64,
    /// What was added up.
    added: Added,
    /// Whether a half was handed over for which no goroutine was free.
    is_refused: bool,
}

/// Numbers that were added up.
#[derive(Clone, Copy, Drop)]
struct Added {
    count: u64,
    sum: u64,
}

impl Span {
    /// These numbers, of which none was added up.
    fn new(from: u64, to: u64) -> Self {
        Span {
            from,
            to,
            added: Added { count: 0, sum: 0 },
            is_refused: false,
        }
    }

    /// Adds these numbers up.
    fn add(&mut self, from: u64, to: u64) {
        for number in from..to {
            self.added.count = self.added.count.saturating_add(1);
            self.added.sum = self.added.sum.saturating_add(number);
        }
    }

    /// Hands half of the numbers over, or adds up those that are left, and ends.
    fn split(&mut self, spawner: &Spawner<Span>) -> Ask {
        let left = self.to.saturating_sub(self.from);
        if left > FEW {
            let middle = self.to.saturating_sub(left / 2);
            if let Ok(ask) = spawner.spawn(Span::new(middle, self.to)) {
                self.to = middle;
                return ask;
            }
        }
        self.add(self.from, self.to);
        Ask::Exit
    }

    /// Takes a span back, its own or another's, and adds it up.
    fn take_back(&mut self, spawner: &Spawner<Span>) -> Ask {
        let Some(span) = spawner.take_back() else {
            self.is_refused = true;
            return Ask::Yield;
        };
        self.is_refused = false;
        self.add(span.from, span.to);
        self.split(spawner)
    }
}

impl Task for Span {
    type Output = Added;

    fn resume(&mut self, woke: Woke, spawner: &Spawner<Span>) -> Result<Ask, Nonsense> {
        match woke {
            Woke::Done if self.is_refused => Ok(self.take_back(spawner)),
            Woke::First | Woke::Done => Ok(self.split(spawner)),
            Woke::Fault(Fault::NoSuchBody) => Ok(self.take_back(spawner)),
            _ => Err(Nonsense),
        }
    }

    fn output(self) -> Added {
        let Span { added, .. } = self;
        added
    }
}

/// Main: it hands over the whole span, and takes what was added up, until that is all.
#[derive(Drop)]
struct Whole {
    spawner: Spawner<Span>,
    outputs: Outputs<Added>,
    /// Whether it has heard of an output that it did not take yet.
    is_told: bool,
    count: Note,
    sum: Note,
}

impl Whole {
    /// Takes what it has heard of, and goes on until it heard of all.
    fn goes_on(&mut self) -> Ask {
        if self.is_told {
            let Some(added) = self.outputs.take() else {
                return Ask::Yield;
            };
            self.is_told = false;
            self.count.add(added.count);
            self.sum.add(added.sum);
        }
        if self.count.get() == LAST {
            return Ask::Exit;
        }
        self.outputs.told.recv()
    }
}

impl Goroutine for Whole {
    fn resume(&mut self, woke: Woke) -> Result<Ask, Nonsense> {
        match woke {
            Woke::First => self
                .spawner
                .spawn(Span::new(1, LAST.saturating_add(1)))
                .map_err(|_| Nonsense),
            Woke::Done => Ok(self.goes_on()),
            Woke::Got(_, true) => {
                self.is_told = true;
                Ok(self.goes_on())
            }
            _ => Err(Nonsense),
        }
    }
}

/// The end of a run by this runner, in which so many numbers are added up to this sum.
pub fn run_split<R: Threads + Wait + Clock + Sync>(
    rt: &R,
    alloc: Global,
    runner: Runner,
    count: &Note,
    sum: &Note,
) -> Result<Ended, Short> {
    let mut host = Host::new(alloc, runner.settings())?;
    let told = host.channel(0)?;
    let outputs = host.outputs(1, told)?;
    let spawner = host.spawner(2)?;
    let whole = Whole {
        spawner: spawner.share()?,
        outputs: outputs.share()?,
        is_told: false,
        count: count.share()?,
        sum: sum.share()?,
    };
    let whole = host.boxed(whole)?;
    host.push(whole)?;
    for _ in 0..GOROUTINES {
        let goroutine = host.boxed(spawner.goroutine(&outputs)?)?;
        host.push(goroutine)?;
    }
    runner.run(rt, host)
}
