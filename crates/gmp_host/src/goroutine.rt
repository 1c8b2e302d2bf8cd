//! A goroutine as a host writes it.

use crate::ending::Lost;
use gmp_base::{Ask, Body, GNo, Woke};
use std::alloc::Global;
use std::sync::{Arc, Mutex};

/// The answer makes no sense in the goroutine's state.
#[derive(Clone, Copy, Debug, PartialEq, Eq)]
pub struct Nonsense;

/// What a goroutine runs: a state machine, which gets the answer to its last ask and comes back with the next. The first answer is
/// `Woke::First`.
pub trait Goroutine: Drop {
    /// Goes on with this answer until it asks again. One whose answer makes no sense exits, and the run's end names it.
    fn resume(&mut self, woke: Woke) -> Result<Ask, Nonsense>;

    /// Makes the blocking call, after it asked `Ask::Block`: its number is the next answer.
    fn blocking(&mut self) -> u64 {
        0
    }
}

/// Where the goroutines of a host note which of them was lost first, and with which answer.
pub(crate) type Loss = Arc<Mutex<Option<Lost>>, Global>;

/// A goroutine of a host, as the runtime runs it.
#[derive(Drop)]
pub struct Go<B> {
    body: B,
    goroutine: GNo,
    loss: Loss,
}

impl<B: Goroutine> Go<B> {
    /// The goroutine of this number.
    pub(crate) fn of(body: B, goroutine: GNo, loss: Loss) -> Self {
        Go {
            body,
            goroutine,
            loss,
        }
    }

    /// Notes that it is lost, unless another is.
    fn lose(&self, answer: Woke) {
        // Who finds the lock taken comes after another.
        if let Some(mut first) = self.loss.try_lock()
            && first.is_none()
        {
            *first = Some(Lost {
                goroutine: self.goroutine,
                answer,
            });
        }
    }
}

impl<B: Goroutine> Body for Go<B> {
    ghost resumed = { λ _ _ _ _. Unit {0} };

    ghost blocked = { λ _ _ _. Unit {0} };

    fn resume(&mut self, woke: Woke) -> Ask {
        match self.body.resume(woke) {
            Ok(ask) => ask,
            Err(Nonsense) => {
                self.lose(woke);
                Ask::Exit
            }
        }
    }

    fn blocking(&mut self) -> u64 {
        self.body.blocking()
    }
}
