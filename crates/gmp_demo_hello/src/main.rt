//! Main sends 1, 2 and 3 to a doubler, which sends each back twice as large, and adds up what comes back.
#![tactic(auto)]

use gmp_host::{Ask, Channel, GNo, Goroutine, Host, Nonsense, Note, Settings, Woke};

#[derive(Drop)]
struct Sender(Channel, Channel, Note, u64);

impl Goroutine for Sender {
    fn resume(&mut self, woke: Woke) -> Result<Ask, Nonsense> {
        self.2.add_received(woke);
        self.3 = self.3.saturating_add(1);
        match (self.3, woke) {
            (1, Woke::First) => Ok(Ask::Go(GNo(1))),
            (2, Woke::Done) | (4 | 6, Woke::Got(_, true)) => Ok(self.0.send(self.3 / 2)),
            (3 | 5 | 7, Woke::Done) => Ok(self.1.recv()),
            (8, Woke::Got(_, true)) => Ok(Ask::Exit),
            _ => Err(Nonsense),
        }
    }
}

#[derive(Drop)]
struct Doubler(Channel, Channel);

impl Goroutine for Doubler {
    fn resume(&mut self, woke: Woke) -> Result<Ask, Nonsense> {
        match woke {
            Woke::First | Woke::Done => Ok(self.0.recv()),
            Woke::Got(number, true) => Ok(self.1.send(number.saturating_mul(2))),
            _ => Err(Nonsense),
        }
    }
}

fn main(rt: HostRuntime) -> anyhow::Result<()> {
    let mut host = Host::new(rt.alloc(), Settings::default())?;
    let (there, back, sum) = (host.channel(0)?, host.channel(0)?, host.note()?);
    let sender = host.boxed(Sender(there, back, sum.share()?, 0))?;
    host.push(sender)?;
    let doubler = host.boxed(Doubler(there, back))?;
    host.push(doubler)?;
    let ended = host.run(&rt)?;
    Ok(println!(rt; "{ended}: the sum is {}", sum.get())?)
}
