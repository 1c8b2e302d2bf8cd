//! Main: for each request it starts a goroutine, to which it hands the request over, and it adds the answers up.

use crate::request::{Answer, Request};
use gmp_host::{
    Ask, Channel, Fault, Goroutine, Host, Nonsense, Note, Outputs, Short, Spawner, Time, Woke,
};

/// How many requests are served at a time: for each there is a goroutine.
pub const AT_ONCE: u16 = 64;

/// How long a request waits for a place before it is late, in milliseconds.
const PATIENCE: u64 = 60_000;

/// What main does next.
#[derive(Clone, Copy)]
enum Step {
    /// It hands the next request over.
    Hands,
    /// It starts a goroutine for the request.
    Starts,
    /// It has let another goroutine go on, since none was free.
    Gave,
    /// It hears of an answer.
    Hears,
    /// It takes the answer.
    Takes,
}

/// What main shares with its host, and with the goroutines that serve.
#[derive(Drop)]
pub struct Shared {
    pub spawner: Spawner<Request>,
    pub answers: Outputs<Answer>,
    places: Channel,
    /// The sum of the answers.
    pub sum: Note,
    /// How many requests were late.
    pub late: Note,
}

impl Shared {
    /// Of this host, which hears of answers on `told`, and has this channel of places.
    pub fn new(host: &Host, told: Channel, places: Channel) -> Result<Self, Short> {
        Ok(Shared {
            spawner: host.spawner(u32::from(AT_ONCE))?,
            answers: host.outputs(u32::from(AT_ONCE), told)?,
            places,
            sum: host.note()?,
            late: host.note()?,
        })
    }

    /// One more handle of it.
    pub fn share(&self) -> Result<Self, Short> {
        Ok(Shared {
            spawner: self.spawner.share()?,
            answers: self.answers.share()?,
            places: self.places,
            sum: self.sum.share()?,
            late: self.late.share()?,
        })
    }

    /// Notes an answer.
    fn note(&self, answer: &Answer) {
        match answer.double {
            Some(double) => {
                self.sum.add(double);
            }
            None => {
                self.late.add(1);
            }
        }
    }
}

/// Main.
#[derive(Drop)]
pub struct Front {
    shared: Shared,
    time: Time,
    step: Step,
    /// How many requests there are: the numbers from 1 on.
    count: u64,
    /// How many were handed over.
    handed: u64,
    /// How many were answered.
    answered: u64,
}

impl Front {
    /// Main, which serves so many requests.
    pub fn new(shared: Shared, time: Time, count: u64) -> Self {
        Front {
            shared,
            time,
            step: Step::Hands,
            count,
            handed: 0,
            answered: 0,
        }
    }

    /// Hands the next request over, where there is one and few enough are served, and else waits for an answer.
    fn goes_on(&mut self) -> Ask {
        let served = self.handed.saturating_sub(self.answered);
        if self.handed < self.count && served < u64::from(AT_ONCE) {
            return self.hands();
        }
        if self.answered < self.count {
            self.step = Step::Hears;
            return self.shared.answers.told.recv();
        }
        Ask::Exit
    }

    /// Hands the next request over, and starts a goroutine for it.
    fn hands(&mut self) -> Ask {
        let number = self.handed.saturating_add(1);
        let deadline = self.time.in_ms(PATIENCE);
        let request = Request::new(number, self.shared.places, deadline);
        match self.shared.spawner.spawn(request) {
            Ok(ask) => {
                self.handed = number;
                self.step = Step::Starts;
                ask
            }
            Err(_back) => {
                self.step = Step::Hands;
                Ask::Yield
            }
        }
    }

    /// Takes an answer.
    fn takes(&mut self) -> Ask {
        let Some(answer) = self.shared.answers.take() else {
            self.step = Step::Takes;
            return Ask::Yield;
        };
        self.answered = self.answered.saturating_add(1);
        self.shared.note(&answer);
        self.goes_on()
    }
}

impl Goroutine for Front {
    fn resume(&mut self, woke: Woke) -> Result<Ask, Nonsense> {
        match (self.step, woke) {
            (Step::Hands, Woke::First | Woke::Done) | (Step::Starts, Woke::Done) => {
                Ok(self.goes_on())
            }
            // Who answered may not have ended yet.
            (Step::Starts, Woke::Fault(Fault::NoSuchBody)) => {
                self.step = Step::Gave;
                Ok(Ask::Yield)
            }
            (Step::Gave, Woke::Done) => {
                self.step = Step::Starts;
                Ok(Ask::Spawn)
            }
            (Step::Hears, Woke::Got(_, true)) | (Step::Takes, Woke::Done) => Ok(self.takes()),
            _ => Err(Nonsense),
        }
    }
}
