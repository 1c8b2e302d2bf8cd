//! A request, and its answer.

use gmp_host::{Ask, Channel, Nonsense, Select, Spawner, Task, Woke};

/// How many requests have a place at a time, of those that are served.
pub const PLACES: u32 = 16;

/// A request, which the goroutine serves that is started for it. It waits for a place, until its deadline at most, and leaves it once it is
/// answered: a value in the channel of places stands for each that is taken.
#[derive(Drop)]
pub struct Request {
    number: u64,
    places: Channel,
    deadline: u64,
    is_answered: bool,
}

/// The answer to the request of this number: its double, or none where it was late.
#[derive(Drop)]
pub struct Answer {
    pub number: u64,
    pub double: Option<u64>,
}

impl Request {
    /// The request of this number, which waits for one of these places until this moment.
    pub fn new(number: u64, places: Channel, deadline: u64) -> Self {
        Request {
            number,
            places,
            deadline,
            is_answered: false,
        }
    }

    /// Waits for a place.
    fn waits(&self) -> Ask {
        Select::new()
            .send(self.places, self.number)
            .until(self.deadline)
    }
}

impl Task for Request {
    type Output = Answer;

    fn resume(&mut self, woke: Woke, _spawner: &Spawner<Request>) -> Result<Ask, Nonsense> {
        match woke {
            Woke::First => Ok(self.waits()),
            // Others go on while it has its place.
            Woke::Chose(0, None) => Ok(Ask::Yield),
            Woke::Done => Ok(self.places.recv()),
            Woke::Got(_, true) => {
                self.is_answered = true;
                Ok(Ask::Exit)
            }
            Woke::Late => Ok(Ask::Exit),
            _ => Err(Nonsense),
        }
    }

    fn output(self) -> Answer {
        let Request {
            number,
            is_answered,
            ..
        } = self;
        Answer {
            number,
            double: is_answered.then_some(number.saturating_mul(2)),
        }
    }
}
