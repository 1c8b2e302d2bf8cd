//! A server under load: main's requests are given up at their deadlines while pairs of goroutines wake each other without end.

use crate::busy::Echo;
use crate::ways::Runner;
use gmp_host::{
    Ask, Channel, Ended, GNo, Goroutine, Host, Nonsense, Note, Select, Settings, Short, Time, Woke,
};
use std::alloc::Global;
use std::sync::Wait;
use std::thread::Threads;
use std::time::Clock;

/// How many requests there are: the numbers from 1 on.
const REQUESTS: u64 = 10;

/// What main found out.
#[derive(Drop)]
pub struct Tally {
    /// How many requests were answered.
    pub answered: Note,
    /// How many were given up.
    pub late: Note,
}

impl Tally {
    /// Nothing yet.
    pub fn new(alloc: Global) -> Result<Self, Short> {
        Ok(Tally {
            answered: Note::new(alloc)?,
            late: Note::new(alloc)?,
        })
    }

    /// One more handle of it.
    fn share(&self) -> Result<Self, Short> {
        Ok(Tally {
            answered: self.answered.share()?,
            late: self.late.share()?,
        })
    }
}

/// Main: it starts all others, and sends one request after another. For those of odd numbers, which are answered, it has more patience.
#[derive(Drop)]
struct Client {
    requests: Channel,
    answers: Channel,
    time: Time,
    /// How many others there are.
    others: u16,
    /// How many it started.
    started: u16,
    /// The request that it sent last.
    asked: u64,
    is_sent: bool,
    tally: Tally,
}

impl Client {
    /// Starts the next of the others, or sends the next request.
    fn goes_on(&mut self) -> Ask {
        if self.started < self.others {
            self.started = self.started.saturating_add(1);
            return Ask::Go(GNo(self.started));
        }
        if self.asked == REQUESTS {
            return Ask::Exit;
        }
        self.asked = self.asked.saturating_add(1);
        self.is_sent = true;
        self.requests.send(self.asked)
    }

    /// Waits for the answer.
    fn waits(&mut self) -> Ask {
        self.is_sent = false;
        let patience = if self.asked % 2 == 1 { 60_000 } else { 5 };
        Select::new()
            .recv(self.answers)
            .until(self.time.in_ms(patience))
    }
}

impl Goroutine for Client {
    fn resume(&mut self, woke: Woke) -> Result<Ask, Nonsense> {
        match woke {
            Woke::Done if self.is_sent => Ok(self.waits()),
            Woke::First | Woke::Done => Ok(self.goes_on()),
            Woke::Chose(0, Some((_, true))) => {
                self.tally.answered.add(1);
                Ok(self.goes_on())
            }
            Woke::Late => {
                self.tally.late.add(1);
                Ok(self.goes_on())
            }
            _ => Err(Nonsense),
        }
    }
}

/// Answers requests of odd numbers, and no others.
#[derive(Drop)]
struct Server {
    requests: Channel,
    answers: Channel,
}

impl Goroutine for Server {
    fn resume(&mut self, woke: Woke) -> Result<Ask, Nonsense> {
        match woke {
            Woke::Got(number, true) if number % 2 == 1 => Ok(self.answers.send(number)),
            Woke::First | Woke::Done | Woke::Got(_, true) => Ok(self.requests.recv()),
            _ => Err(Nonsense),
        }
    }
}

/// The end of a run in threads, by so many machines beside as many pairs, under these settings for the rest.
pub fn run_loaded<R: Threads + Wait + Clock + Sync>(
    rt: &R,
    alloc: Global,
    machines: u8,
    settings: Settings,
    tally: &Tally,
) -> Result<Ended, Short> {
    let settings = Settings {
        procs: machines,
        machines,
        ..settings
    };
    let mut host = Host::new(alloc, settings)?;
    let (requests, answers) = (host.channel(0)?, host.channel(0)?);
    let client = Client {
        requests,
        answers,
        time: host.time()?,
        others: u16::from(machines) * 2 + 1,
        started: 0,
        asked: 0,
        is_sent: false,
        tally: tally.share()?,
    };
    let client = host.boxed(client)?;
    host.push(client)?;
    let server = host.boxed(Server { requests, answers })?;
    host.push(server)?;
    for _ in 0..machines {
        let (there, back) = (host.channel(0)?, host.channel(0)?);
        let first = host.boxed(Echo::first(there, back))?;
        host.push(first)?;
        let second = host.boxed(Echo::second(there, back))?;
        host.push(second)?;
    }
    Runner::Threads.run(rt, host)
}
