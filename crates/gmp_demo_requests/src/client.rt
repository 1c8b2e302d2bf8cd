//! Main: it sends the requests and receives the answers, whichever can proceed.

use crate::tally::Tally;
use gmp_host::{Ask, Channel, GNo, Goroutine, Nonsense, Select, Woke};

/// How many workers there are.
pub const WORKERS: u16 = 8;

/// How many requests there are: the numbers from 1 on.
const COUNT: u64 = 100;

/// Until when main waits for one more answer, in nanoseconds of the run's clock.
const DEADLINE: u64 = 20_000_000;

/// What main does next.
#[derive(Clone, Copy)]
enum Step {
    /// It starts the worker of this number, if there is one.
    Starts(u16),
    /// It sends a request or receives an answer.
    Serves,
    /// It has waited for one more answer.
    Waited,
    /// It has closed the requests.
    Ends,
}

/// Main.
#[derive(Drop)]
pub struct Client {
    requests: Channel,
    answers: Channel,
    step: Step,
    sent: u64,
    got: u64,
    tally: Tally,
}

impl Client {
    /// Main, which sends on `requests`, receives on `answers`, and notes what it received in the tally.
    pub fn new(requests: Channel, answers: Channel, tally: Tally) -> Self {
        Client {
            requests,
            answers,
            step: Step::Starts(1),
            sent: 0,
            got: 0,
            tally,
        }
    }

    /// Notes what its select or its receive came to.
    fn notes(&mut self, woke: Woke) -> Result<(), Nonsense> {
        match woke {
            Woke::Chose(0, None) => self.sent = self.sent.saturating_add(1),
            Woke::Chose(1, Some((answer, true))) | Woke::Got(answer, true) => {
                self.got = self.got.saturating_add(1);
                self.tally.add(answer);
            }
            _ => return Err(Nonsense),
        }
        Ok(())
    }

    /// Sends the next request or receives an answer. Once all requests are sent it receives, and once all answers came it waits for one
    /// more.
    fn goes_on(&mut self) -> Ask {
        if self.got >= COUNT {
            self.step = Step::Waited;
            return Select::new().recv(self.answers).until(DEADLINE);
        }
        if self.sent >= COUNT {
            return self.answers.recv();
        }
        let request = self.sent.saturating_add(1);
        Select::new()
            .send(self.requests, request)
            .recv(self.answers)
            .wait()
    }
}

impl Goroutine for Client {
    fn resume(&mut self, woke: Woke) -> Result<Ask, Nonsense> {
        match (self.step, woke) {
            (Step::Starts(worker), Woke::First | Woke::Done) if worker <= WORKERS => {
                self.step = Step::Starts(worker.saturating_add(1));
                Ok(Ask::Go(GNo(worker)))
            }
            (Step::Starts(_), Woke::Done) => {
                self.step = Step::Serves;
                Ok(self.goes_on())
            }
            (Step::Serves, _) => {
                self.notes(woke)?;
                Ok(self.goes_on())
            }
            (Step::Waited, Woke::Late | Woke::Chose(0, Some(_))) => {
                self.tally.late.add(u64::from(woke == Woke::Late));
                self.step = Step::Ends;
                Ok(self.requests.close())
            }
            (Step::Ends, Woke::Done) => Ok(Ask::Exit),
            _ => Err(Nonsense),
        }
    }
}
