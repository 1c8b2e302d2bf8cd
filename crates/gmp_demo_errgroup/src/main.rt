//! Go's idioms in one program: pages are fetched at once, each for so long; the first that fails cancels the others, which wait no longer, and
//! main waits for all. What was fetched is added up under a mutex.
#![tactic(auto)]

use anyhow::Result;
use gmp_host::{
    Ask, Channel, Goroutine, Group, Handle, Host, Nonsense, Note, Select, Settings, Time, Woke,
};

/// How long each page takes, in milliseconds. The third fails.
const PAGES: [u64; 4] = [10, 20, 30, 40];

/// What all share.
#[derive(Drop)]
struct Shared {
    /// With room for one value: who sends holds it, who receives gives it back.
    mutex: Channel,
    /// Closed when a page fails.
    cancelled: Channel,
    group: Group,
    time: Time,
    total: Note,
    failures: Note,
}

impl Shared {
    /// One more handle of it.
    fn share(&self) -> Result<Self, gmp_host::Short> {
        let Shared {
            mutex,
            cancelled,
            group,
            ..
        } = *self;
        Ok(Shared {
            mutex,
            cancelled,
            group,
            time: self.time.share()?,
            total: self.total.share()?,
            failures: self.failures.share()?,
        })
    }
}

/// Main: it starts all, and waits for them.
#[derive(Drop)]
struct Boss {
    pages: Vec<Handle>,
    group: Group,
}

impl Goroutine for Boss {
    fn resume(&mut self, woke: Woke) -> Result<Ask, Nonsense> {
        match woke {
            Woke::First | Woke::Done | Woke::Got(_, true) => {}
            _ => return Err(Nonsense),
        }
        if let Some(page) = self.pages.pop() {
            return Ok(page.go());
        }
        match self.group.wait() {
            Some(ask) => Ok(ask),
            None => Ok(Ask::Exit),
        }
    }
}

/// What a page is at.
#[derive(Clone, Copy)]
enum Step {
    Begins,
    Waits,
    Locks,
    Unlocks,
    Cancels,
    Leaves,
}

/// Fetches a page: it waits, and fails or adds up what it fetched.
#[derive(Drop)]
struct Page {
    shared: Shared,
    ms: u64,
    step: Step,
}

impl Page {
    /// Asks this, and is at this step then.
    fn at(&mut self, step: Step, ask: Ask) -> Result<Ask, Nonsense> {
        self.step = step;
        Ok(ask)
    }

    /// Cancels the others, if it is the first that fails.
    fn fail(&mut self) -> Result<Ask, Nonsense> {
        match self.shared.failures.add(1) {
            0 => self.at(Step::Cancels, self.shared.cancelled.close()),
            _ => self.at(Step::Leaves, self.shared.group.done()),
        }
    }
}

impl Goroutine for Page {
    fn resume(&mut self, woke: Woke) -> Result<Ask, Nonsense> {
        let Shared {
            mutex,
            cancelled,
            group,
            ..
        } = self.shared;
        match (self.step, woke) {
            (Step::Begins, Woke::First) => {
                let moment = self.shared.time.in_ms(self.ms);
                self.at(Step::Waits, Select::new().recv(cancelled).until(moment))
            }
            (Step::Waits, Woke::Chose(0, _)) => self.at(Step::Leaves, group.done()),
            (Step::Waits, Woke::Late) if self.ms == 30 => self.fail(),
            (Step::Waits, Woke::Late) => self.at(Step::Locks, mutex.send(1)),
            (Step::Locks, Woke::Done) => {
                let total = &self.shared.total;
                total.set(total.get().saturating_add(self.ms));
                self.at(Step::Unlocks, mutex.recv())
            }
            (Step::Unlocks, Woke::Got(_, true)) | (Step::Cancels, Woke::Done) => {
                self.at(Step::Leaves, group.done())
            }
            (Step::Leaves, Woke::Done) => Ok(Ask::Exit),
            _ => Err(Nonsense),
        }
    }
}

fn main(rt: HostRuntime) -> Result<()> {
    let mut host = Host::new(rt.alloc(), Settings::default())?;
    let shared = Shared {
        mutex: host.channel(1)?,
        cancelled: host.channel(0)?,
        group: host.group(4)?,
        time: host.time()?,
        total: host.note()?,
        failures: host.note()?,
    };
    let (group, mut pages) = (shared.group, Vec::new(rt.alloc()));
    for _ in PAGES {
        pages.push(host.reserve()?)?;
    }
    let boss = host.boxed(Boss { pages, group })?;
    host.push(boss)?;
    for ms in PAGES {
        let (shared, step) = (shared.share()?, Step::Begins);
        let page = host.boxed(Page { shared, ms, step })?;
        host.push(page)?;
    }
    let ended = host.step()?;
    let (total, failures) = (shared.total.get(), shared.failures.get());
    println!(rt; "{ended}: {total} ms of pages fetched, {failures} failed")?;
    Ok(())
}
