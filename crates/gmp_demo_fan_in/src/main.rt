//! A fan-in: three senders each have a channel of their own, and main receives from whichever can proceed. A channel that is closed becomes
//! nil, so that its case is never chosen again.
#![tactic(auto)]

use anyhow::Result;
use gmp_host::{Ask, Channel, GNo, Goroutine, Host, Nonsense, Note, Select, Settings, Woke};

/// Starts the senders, and adds up what comes on any of its inputs until all are closed.
#[derive(Drop)]
struct Merger {
    inputs: [Channel; 3],
    started: u16,
    sum: Note,
}

impl Merger {
    fn goes_on(&self) -> Ask {
        let [first, second, third] = self.inputs;
        if self.inputs == [Channel::NIL; 3] {
            return Ask::Exit;
        }
        Select::new().recv(first).recv(second).recv(third).wait()
    }
}

impl Goroutine for Merger {
    fn resume(&mut self, woke: Woke) -> Result<Ask, Nonsense> {
        match woke {
            Woke::First | Woke::Done if self.started < 3 => {
                self.started = self.started.saturating_add(1);
                return Ok(Ask::Go(GNo(self.started)));
            }
            Woke::Done => {}
            Woke::Chose(_, Some((number, true))) => {
                self.sum.add(number);
            }
            Woke::Chose(case, Some((_, false))) => {
                let closed = self.inputs.get_mut(usize::from(case)).ok_or(Nonsense)?;
                *closed = Channel::NIL;
            }
            _ => return Err(Nonsense),
        }
        Ok(self.goes_on())
    }
}

/// Sends its number five times, and closes its output.
#[derive(Drop)]
struct Sender {
    output: Channel,
    number: u64,
    step: u8,
}

impl Goroutine for Sender {
    fn resume(&mut self, woke: Woke) -> Result<Ask, Nonsense> {
        self.step = self.step.saturating_add(1);
        match (self.step, woke) {
            (1..=5, Woke::First | Woke::Done) => Ok(self.output.send(self.number)),
            (6, Woke::Done) => Ok(self.output.close()),
            (7, Woke::Done) => Ok(Ask::Exit),
            _ => Err(Nonsense),
        }
    }
}

fn main(rt: HostRuntime) -> Result<()> {
    let mut host = Host::new(rt.alloc(), Settings::default())?;
    let inputs = [host.channel(0)?, host.channel(0)?, host.channel(0)?];
    let sum = host.note()?;
    let merger = Merger {
        inputs,
        started: 0,
        sum: sum.share()?,
    };
    let merger = host.boxed(merger)?;
    host.push(merger)?;
    for (output, number) in inputs.into_iter().zip([1, 10, 100]) {
        let sender = Sender {
            output,
            number,
            step: 0,
        };
        let sender = host.boxed(sender)?;
        host.push(sender)?;
    }
    let ended = host.run(&rt)?;
    println!(rt; "{ended}: the sum is {}", sum.get())?;
    Ok(())
}
