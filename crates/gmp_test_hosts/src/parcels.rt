//! Values of a type of their own, sent by three goroutines on one channel, and received by two.

use crate::ways::Runner;
use gmp_host::{
    Ask, Ended, Goroutine, Group, Handle, Host, Nonsense, Note, Settings, Short, Slots, Typed, Woke,
};
use std::alloc::Global;
use std::ops::Range;
use std::sync::Wait;
use std::thread::Threads;
use std::time::Clock;

/// How many send. Each is known by its number, from 1 on.
const SENDERS: u16 = 3;

/// How many receive.
const RECEIVERS: u16 = 2;

/// What is sent: by whom, and its number among the sender's, from 1 on.
#[derive(Drop)]
pub struct Parcel {
    from: u64,
    number: u64,
}

/// What the receivers found.
#[derive(Drop)]
pub struct Found {
    /// How many parcels came.
    pub count: Note,
    /// The sum of what they weigh: sender times number.
    pub weight: Note,
    /// How many came twice.
    pub twice: Note,
}

impl Found {
    /// Nothing yet.
    pub fn new(alloc: Global) -> Result<Self, Short> {
        Ok(Found {
            count: Note::new(alloc)?,
            weight: Note::new(alloc)?,
            twice: Note::new(alloc)?,
        })
    }

    /// One more handle of it.
    fn share(&self) -> Result<Self, Short> {
        Ok(Found {
            count: self.count.share()?,
            weight: self.weight.share()?,
            twice: self.twice.share()?,
        })
    }
}

/// Main: it starts all, waits for the senders, closes the channel, and waits for the receivers.
#[derive(Drop)]
struct Boss {
    handles: Vec<Handle>,
    senders: Group,
    receivers: Group,
    parcels: Typed<Parcel>,
    is_closed: bool,
}

impl Boss {
    /// What it asks next.
    fn goes_on(&mut self) -> Ask {
        if let Some(handle) = self.handles.pop() {
            return handle.go();
        }
        if let Some(ask) = self.senders.wait() {
            return ask;
        }
        if !self.is_closed {
            self.is_closed = true;
            return self.parcels.close();
        }
        self.receivers.wait().unwrap_or(Ask::Exit)
    }
}

impl Goroutine for Boss {
    fn resume(&mut self, woke: Woke) -> Result<Ask, Nonsense> {
        match woke {
            Woke::First | Woke::Done | Woke::Got(_, true) => Ok(self.goes_on()),
            _ => Err(Nonsense),
        }
    }
}

/// Sends a parcel for each number.
#[derive(Drop)]
struct Sender {
    from: u64,
    numbers: Range<u64>,
    parcels: Typed<Parcel>,
    senders: Group,
    is_done: bool,
}

impl Goroutine for Sender {
    fn resume(&mut self, woke: Woke) -> Result<Ask, Nonsense> {
        if !matches!(woke, Woke::First | Woke::Done) {
            return Err(Nonsense);
        }
        if let Some(number) = self.numbers.next() {
            let from = self.from;
            let parcel = Parcel { from, number };
            return self.parcels.send(parcel).map_err(|_| Nonsense);
        }
        if self.is_done {
            return Ok(Ask::Exit);
        }
        self.is_done = true;
        Ok(self.senders.done())
    }
}

/// Receives parcels until the channel is closed.
#[derive(Drop)]
struct Receiver {
    parcels: Typed<Parcel>,
    receivers: Group,
    found: Found,
}

impl Goroutine for Receiver {
    fn resume(&mut self, woke: Woke) -> Result<Ask, Nonsense> {
        if let Some(Parcel { from, number }) = self.parcels.received(woke) {
            self.found.count.add(1);
            self.found.weight.add(from.saturating_mul(number));
            if self.parcels.received(woke).is_some() {
                self.found.twice.add(1);
            }
            return Ok(self.parcels.recv());
        }
        match woke {
            Woke::First => Ok(self.parcels.recv()),
            Woke::Got(_, false) => Ok(self.receivers.done()),
            Woke::Done => Ok(Ask::Exit),
            _ => Err(Nonsense),
        }
    }
}

/// The end of a run by this runner, in which the receivers find this.
pub fn run_parcels<R: Threads + Wait + Clock + Sync>(
    rt: &R,
    alloc: Global,
    runner: Runner,
    found: &Found,
) -> Result<Ended, Short> {
    let mut host = Host::new(alloc, runner.settings())?;
    let parcels = host.typed(1, SENDERS + RECEIVERS)?;
    let (senders, receivers) = (host.group(SENDERS)?, host.group(RECEIVERS)?);
    let mut handles = Vec::new(alloc);
    for _ in 0..SENDERS + RECEIVERS {
        handles.push(host.reserve()?)?;
    }
    let boss = host.boxed(Boss {
        handles,
        senders,
        receivers,
        parcels: parcels.share()?,
        is_closed: false,
    })?;
    host.push(boss)?;
    for from in 1..=SENDERS {
        let sender = host.boxed(Sender {
            from: u64::from(from),
            numbers: 1..11,
            parcels: parcels.share()?,
            senders,
            is_done: false,
        })?;
        host.push(sender)?;
    }
    for _ in 0..RECEIVERS {
        let receiver = host.boxed(Receiver {
            parcels: parcels.share()?,
            receivers,
            found: found.share()?,
        })?;
        host.push(receiver)?;
    }
    runner.run(rt, host)
}

/// What two places do.
#[derive(Clone, Copy)]
pub struct Places {
    /// A third value comes back.
    pub is_full: bool,
    /// A value is taken by its number, once.
    pub is_taken: bool,
    pub is_taken_twice: bool,
    /// The place is free again, and by the number of the value before nothing is taken from it.
    pub is_free: bool,
    pub is_taken_by_another: bool,
}

/// The number at which the parcel of this number is put, if there is a place.
fn put(slots: &Slots<Parcel>, number: u64) -> Option<u64> {
    slots.put(Parcel { from: 0, number }).ok()
}

/// What two places do, one after the other.
pub fn try_places(alloc: Global) -> Result<Option<Places>, Short> {
    let slots = Host::new(alloc, Settings::default())?.slots(2)?;
    let (Some(first), Some(_)) = (put(&slots, 1), put(&slots, 2)) else {
        return Ok(None);
    };
    Ok(Some(Places {
        is_full: put(&slots, 3).is_none(),
        is_taken: slots.take(first).is_some_and(|parcel| parcel.number == 1),
        is_taken_twice: slots.take(first).is_some(),
        is_free: put(&slots, 4).is_some(),
        is_taken_by_another: slots.take(first).is_some(),
    }))
}
