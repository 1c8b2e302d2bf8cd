//! A pipeline: the numbers from 1 to 10 pass a stage that squares and one that adds 1, and main adds up what comes out. Each stage closes
//! its output once its input is closed.
#![tactic(auto)]

use anyhow::Result;
use gmp_host::{Ask, Channel, GNo, Goroutine, Host, Nonsense, Note, Settings, Woke};

/// Starts the three stages, and adds up what it receives.
#[derive(Drop)]
struct Sink {
    input: Channel,
    started: u16,
    sum: Note,
}

impl Goroutine for Sink {
    fn resume(&mut self, woke: Woke) -> Result<Ask, Nonsense> {
        match woke {
            Woke::First | Woke::Done if self.started < 3 => {
                self.started = self.started.saturating_add(1);
                Ok(Ask::Go(GNo(self.started)))
            }
            Woke::Done => Ok(self.input.recv()),
            Woke::Got(number, true) => {
                self.sum.add(number);
                Ok(self.input.recv())
            }
            Woke::Got(_, false) => Ok(Ask::Exit),
            _ => Err(Nonsense),
        }
    }
}

/// Sends the numbers, and closes its output.
#[derive(Drop)]
struct Source {
    output: Channel,
    step: u64,
}

impl Goroutine for Source {
    fn resume(&mut self, woke: Woke) -> Result<Ask, Nonsense> {
        self.step = self.step.saturating_add(1);
        match (self.step, woke) {
            (1..=10, Woke::First | Woke::Done) => Ok(self.output.send(self.step)),
            (11, Woke::Done) => Ok(self.output.close()),
            (12, Woke::Done) => Ok(Ask::Exit),
            _ => Err(Nonsense),
        }
    }
}

/// What a stage does with a number.
#[derive(Clone, Copy)]
enum Work {
    Square,
    AddOne,
}

/// Receives numbers, and sends what it makes of them.
#[derive(Drop)]
struct Stage {
    work: Work,
    input: Channel,
    output: Channel,
    is_over: bool,
}

impl Goroutine for Stage {
    fn resume(&mut self, woke: Woke) -> Result<Ask, Nonsense> {
        match woke {
            Woke::Done if self.is_over => Ok(Ask::Exit),
            Woke::First | Woke::Done => Ok(self.input.recv()),
            Woke::Got(number, true) => Ok(
                self.output.send(match self.work {
                    Work::Square => number.saturating_mul(number),
                    Work::AddOne => number.saturating_add(1),
                }),
            ),
            Woke::Got(_, false) => {
                self.is_over = true;
                Ok(self.output.close())
            }
            _ => Err(Nonsense),
        }
    }
}

fn main(rt: HostRuntime) -> Result<()> {
    let mut host = Host::new(rt.alloc(), Settings::default())?;
    let (first, second, last) = (host.channel(0)?, host.channel(0)?, host.channel(0)?);
    let sum = host.note()?;
    let sink = Sink {
        input: last,
        started: 0,
        sum: sum.share()?,
    };
    let source = Source {
        output: first,
        step: 0,
    };
    let sink = host.boxed(sink)?;
    host.push(sink)?;
    let source = host.boxed(source)?;
    host.push(source)?;
    for (work, input, output) in [(Work::Square, first, second), (Work::AddOne, second, last)] {
        let stage = Stage {
            work,
            input,
            output,
            is_over: false,
        };
        let stage = host.boxed(stage)?;
        host.push(stage)?;
    }
    let ended = host.run(&rt)?;
    println!(rt; "{ended}: the sum is {}", sum.get())?;
    Ok(())
}
