//! A request with a timeout: main sends a request and waits for its answer until a deadline. The server answers the first at once, and
//! falls asleep over the second, which main gives up.
#![tactic(auto)]

use anyhow::Result;
use gmp_host::{Ask, Channel, GNo, Goroutine, Host, Nonsense, Note, Select, Settings, Time, Woke};

/// Asks twice. It has patience the first time, and less the second.
#[derive(Drop)]
struct Client {
    requests: Channel,
    answers: Channel,
    time: Time,
    asked: u64,
    is_sent: bool,
    answered: Note,
    late: Note,
}

impl Client {
    /// Sends the next request.
    fn asks(&mut self) -> Ask {
        self.asked = self.asked.saturating_add(1);
        self.is_sent = true;
        self.requests.send(self.asked)
    }

    /// Waits for the answer.
    fn waits(&mut self) -> Ask {
        self.is_sent = false;
        let patience = if self.asked == 1 { 10_000 } else { 20 };
        Select::new()
            .recv(self.answers)
            .until(self.time.in_ms(patience))
    }
}

impl Goroutine for Client {
    fn resume(&mut self, woke: Woke) -> Result<Ask, Nonsense> {
        match woke {
            Woke::First => Ok(Ask::Go(GNo(1))),
            Woke::Done if self.is_sent => Ok(self.waits()),
            Woke::Done => Ok(self.asks()),
            Woke::Chose(0, Some((answer, true))) => {
                self.answered.set(answer);
                Ok(self.asks())
            }
            Woke::Late => {
                self.late.set(self.asked);
                Ok(Ask::Exit)
            }
            _ => Err(Nonsense),
        }
    }
}

/// Answers the first request at once, and any other in an hour.
#[derive(Drop)]
struct Server {
    requests: Channel,
    answers: Channel,
    time: Time,
}

impl Goroutine for Server {
    fn resume(&mut self, woke: Woke) -> Result<Ask, Nonsense> {
        match woke {
            Woke::First => Ok(self.requests.recv()),
            Woke::Got(1, true) => Ok(self.answers.send(100)),
            Woke::Got(_, true) => Ok(Ask::Sleep(self.time.in_ms(3_600_000))),
            Woke::Done => Ok(self.requests.recv()),
            _ => Err(Nonsense),
        }
    }
}

fn main(rt: HostRuntime) -> Result<()> {
    let mut host = Host::new(rt.alloc(), Settings::default())?;
    let (requests, answers) = (host.channel(0)?, host.channel(0)?);
    let (answered, late) = (host.note()?, host.note()?);
    let client = Client {
        requests,
        answers,
        time: host.time()?,
        asked: 0,
        is_sent: false,
        answered: answered.share()?,
        late: late.share()?,
    };
    let server = Server {
        requests,
        answers,
        time: host.time()?,
    };
    let client = host.boxed(client)?;
    host.push(client)?;
    let server = host.boxed(server)?;
    host.push(server)?;
    let ended = host.run(&rt)?;
    println!(rt;
        "{ended}: answered {}, late at request {}",
        answered.get(),
        late.get()
    )?;
    Ok(())
}
