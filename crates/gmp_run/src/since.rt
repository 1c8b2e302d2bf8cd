//! A clock for machines in threads.

use crate::outside::{self, MOST_REST};
use crossbeam_utils::sync::Parker;
use std::sync::Wait;
use std::thread::sleep;
use std::time::{Clock, Duration, Instant};

/// A clock in nanoseconds since its start. It reads 0 where the time can't be read.
#[derive(Drop)]
pub struct Since<'a, T> {
    rt: &'a T,
    start: Option<Instant>,
}

impl<'a, T: Clock> Since<'a, T> {
    /// A clock that starts now.
    pub fn now(rt: &'a T) -> Self {
        Since {
            rt,
            start: Instant::now(rt).ok(),
        }
    }
}

impl<T: Clock + Wait> outside::Clock for Since<'_, T> {
    /// How long ago it started.
    fn now(&self) -> u64 {
        match self.start.map(|start| start.elapsed(self.rt)) {
            Some(Ok(passed)) => u64::try_from(passed.as_nanos()).unwrap_or(u64::MAX),
            _ => 0,
        }
    }

    /// Sleeps.
    fn rest(&self, most: u64) {
        sleep(self.rt, Duration::from_nanos(most));
    }

    /// Parks for so long, if it can read the time, and else sleeps.
    fn wait(&self, parker: &Parker, most: u64) {
        if self.start.is_some() {
            parker.park_timeout(self.rt, Duration::from_nanos(most));
        } else {
            self.rest(most.min(MOST_REST));
        }
    }
}
