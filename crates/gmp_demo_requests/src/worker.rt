//! A worker: it takes a request, works the answer out in a blocking call, and sends it. `Step` is where it stands, `Worker` its body.

use gmp_host::{Ask, Channel, Goroutine, Nonsense, Select, Woke};

/// Until when a worker waits first, in nanoseconds of the run's clock.
const PATIENCE: u64 = 1_000_000;

/// More steps than any request takes.
const MOST_STEPS: u64 = 1_000;

/// What a worker does next.
#[derive(Clone, Copy)]
enum Step {
    /// It asks for a request.
    Asks,
    /// It is told a request.
    Takes,
    /// It is told what its blocking call answered.
    Works,
}

/// A worker.
#[derive(Drop)]
pub struct Worker {
    requests: Channel,
    answers: Channel,
    step: Step,
    patience: u64,
    request: u64,
}

/// How many steps the number takes to 1.
fn steps(number: u64) -> u64 {
    let mut reached = number;
    for step in 0..MOST_STEPS {
        if reached <= 1 {
            return step;
        }
        reached = match reached % 2 {
            0 => reached / 2,
            _ => reached.saturating_mul(3).saturating_add(1),
        };
    }
    MOST_STEPS
}

impl Worker {
    /// A worker that receives on `requests` and sends on `answers`.
    pub fn new(requests: Channel, answers: Channel) -> Self {
        Worker {
            requests,
            answers,
            step: Step::Asks,
            patience: PATIENCE,
            request: 0,
        }
    }

    /// Waits for a request, as long as its patience lasts.
    fn asks(&mut self) -> Ask {
        self.step = Step::Takes;
        Select::new().recv(self.requests).until(self.patience)
    }
}

impl Goroutine for Worker {
    fn resume(&mut self, woke: Woke) -> Result<Ask, Nonsense> {
        match (self.step, woke) {
            (Step::Asks, Woke::First | Woke::Done) => Ok(self.asks()),
            (Step::Takes, Woke::Chose(0, Some((request, true)))) => {
                self.request = request;
                self.step = Step::Works;
                Ok(Ask::Block)
            }
            (Step::Takes, Woke::Late) => {
                self.patience = self.patience.saturating_mul(2);
                Ok(self.asks())
            }
            (Step::Works, Woke::Number(answer)) => {
                self.step = Step::Asks;
                Ok(self.answers.send(answer))
            }
            // The requests are closed.
            (Step::Takes, Woke::Chose(0, Some((_, false)))) => Ok(Ask::Exit),
            _ => Err(Nonsense),
        }
    }

    fn blocking(&mut self) -> u64 {
        steps(self.request)
    }
}
