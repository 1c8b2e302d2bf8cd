//! Bodies that are handed over to goroutines, more of them than goroutines, and what they leave where there is room for one at a time.

use crate::ways::Runner;
use gmp_host::{
    Ask, Ended, Fault, Goroutine, Host, Nonsense, Note, Outputs, Short, Spawner, Task, Woke,
};
use std::alloc::Global;
use std::sync::Wait;
use std::thread::Threads;
use std::time::Clock;

/// How many goroutines run bodies.
const GOROUTINES: u8 = 3;

/// How many bodies there are: the numbers from 1 on.
const BODIES: u64 = 40;

/// Lets another goroutine go on, and leaves its number and the double of that.
#[derive(Drop)]
struct Doubler(u64);

/// A number and its double.
#[derive(Drop)]
struct Doubled {
    number: u64,
    double: u64,
}

impl Task for Doubler {
    type Output = Doubled;

    fn resume(&mut self, woke: Woke, _spawner: &Spawner<Doubler>) -> Result<Ask, Nonsense> {
        match woke {
            Woke::First => Ok(Ask::Yield),
            Woke::Done => Ok(Ask::Exit),
            _ => Err(Nonsense),
        }
    }

    fn output(self) -> Doubled {
        let Doubler(number) = self;
        Doubled {
            number,
            double: number.saturating_mul(2),
        }
    }
}

/// What main finds out.
#[derive(Drop)]
pub struct Found {
    /// How many outputs it took.
    pub outputs: Note,
    /// The sum of the doubles.
    pub sum: Note,
    /// The numbers of which an output was taken, a bit for each.
    pub numbers: Note,
    /// How many outputs were of a number that had one.
    pub twice: Note,
    /// How many bodies came back, since no goroutine was free.
    pub back: Note,
}

impl Found {
    /// Nothing yet.
    pub fn new(alloc: Global) -> Result<Self, Short> {
        Ok(Found {
            outputs: Note::new(alloc)?,
            sum: Note::new(alloc)?,
            numbers: Note::new(alloc)?,
            twice: Note::new(alloc)?,
            back: Note::new(alloc)?,
        })
    }

    /// One more handle of it.
    fn share(&self) -> Result<Self, Short> {
        Ok(Found {
            outputs: self.outputs.share()?,
            sum: self.sum.share()?,
            numbers: self.numbers.share()?,
            twice: self.twice.share()?,
            back: self.back.share()?,
        })
    }

    /// Notes an output.
    fn note(&self, doubled: &Doubled) {
        self.outputs.add(1);
        self.sum.add(doubled.double);
        let bit = 1u64 << (doubled.number % 64);
        let numbers = self.numbers.get();
        if numbers & bit != 0 {
            self.twice.add(1);
        }
        self.numbers.set(numbers | bit);
    }
}

/// What main does next.
#[derive(Clone, Copy)]
enum Step {
    /// It starts a goroutine.
    Starts,
    /// It has let others go on, and takes a body back.
    Back,
    /// It has let others go on, and hands over the body that came back.
    Gave,
    /// It receives word of an output.
    Hears,
    /// It has let others go on, and takes the output that it heard of.
    Looks,
}

/// Main: it hands bodies over, and takes an output only where no goroutine is free, or no body is left.
#[derive(Drop)]
struct Boss {
    spawner: Spawner<Doubler>,
    outputs: Outputs<Doubled>,
    step: Step,
    /// The body that came back.
    back: Option<Doubler>,
    /// How many bodies it made.
    made: u64,
    /// How many it handed over.
    handed: u64,
    found: Found,
}

impl Boss {
    /// Hands over the body that came back, or the next one, or takes what is left of the outputs.
    fn goes_on(&mut self) -> Ask {
        let body = match self.back.take() {
            None if self.made < BODIES => {
                self.made = self.made.saturating_add(1);
                Some(Doubler(self.made))
            }
            back => back,
        };
        match body.map(|body| self.spawner.spawn(body)) {
            Some(Ok(ask)) => {
                self.step = Step::Starts;
                ask
            }
            Some(Err(body)) => {
                self.back = Some(body);
                self.hears()
            }
            None if self.found.outputs.get() == BODIES => Ask::Exit,
            None => self.hears(),
        }
    }

    /// Receives word of an output, where a body that was handed over has left none yet, and else lets others go on.
    fn hears(&mut self) -> Ask {
        if self.found.outputs.get() < self.handed {
            self.step = Step::Hears;
            return self.outputs.told.recv();
        }
        self.step = Step::Gave;
        Ask::Yield
    }

    /// Takes a body back, since no goroutine is free.
    fn takes_back(&mut self) -> Ask {
        self.back = self.spawner.take_back();
        if self.back.is_none() {
            self.step = Step::Back;
            return Ask::Yield;
        }
        self.found.back.add(1);
        self.hears()
    }

    /// Takes an output.
    fn takes(&mut self) -> Ask {
        let Some(doubled) = self.outputs.take() else {
            self.step = Step::Looks;
            return Ask::Yield;
        };
        self.found.note(&doubled);
        self.goes_on()
    }
}

impl Goroutine for Boss {
    fn resume(&mut self, woke: Woke) -> Result<Ask, Nonsense> {
        match (self.step, woke) {
            (Step::Starts, Woke::Done) => {
                self.handed = self.handed.saturating_add(1);
                Ok(self.goes_on())
            }
            (Step::Starts, Woke::Fault(Fault::NoSuchBody)) | (Step::Back, Woke::Done) => {
                Ok(self.takes_back())
            }
            (Step::Gave, Woke::First | Woke::Done) => Ok(self.goes_on()),
            (Step::Hears, Woke::Got(_, true)) | (Step::Looks, Woke::Done) => Ok(self.takes()),
            _ => Err(Nonsense),
        }
    }
}

/// The end of a run by this runner, in which main finds this out.
pub fn run_handed<R: Threads + Wait + Clock + Sync>(
    rt: &R,
    alloc: Global,
    runner: Runner,
    found: &Found,
) -> Result<Ended, Short> {
    let mut host = Host::new(alloc, runner.settings())?;
    let told = host.channel(0)?;
    let outputs = host.outputs(1, told)?;
    let spawner = host.spawner(2)?;
    let boss = Boss {
        spawner: spawner.share()?,
        outputs: outputs.share()?,
        step: Step::Gave,
        back: None,
        made: 0,
        handed: 0,
        found: found.share()?,
    };
    let boss = host.boxed(boss)?;
    host.push(boss)?;
    for _ in 0..GOROUTINES {
        let goroutine = host.boxed(spawner.goroutine(&outputs)?)?;
        host.push(goroutine)?;
    }
    runner.run(rt, host)
}
