//! What goroutines and their host share: a number that they leave for it, and the time.

ghost use Rattle.std.specs.Prelude.{◌≡◌, ◌+◌, ◌*◌, ◌≤◌, min};

use crate::ending::Short;
use gmp_base::Woke;
use std::alloc::Global;
use std::sync::Arc;
use std::sync::atomic::{AtomicU64, Ordering};

/// A number that goroutines leave for their host. Each of its handles reads and writes the same.
#[derive(Drop)]
pub struct Note {
    number: Arc<AtomicU64, Global>,
}

impl Note {
    /// A note of 0.
    pub fn new(alloc: Global) -> Result<Self, Short> {
        let number = Arc::new(alloc, AtomicU64::new(0))?;
        Ok(Note { number })
    }

    /// One more handle of it.
    pub fn share(&self) -> Result<Self, Short> {
        let number = Arc::try_clone(&self.number)?;
        Ok(Note { number })
    }

    /// What it holds.
    pub fn get(&self) -> u64 {
        self.number.load(Ordering::SeqCst)
    }

    /// Holds this number from then on.
    pub fn set(&self, number: u64) {
        self.number.store(number, Ordering::SeqCst);
    }

    /// Adds to it, and tells what it held before. Past the greatest number it begins at 0.
    pub fn add(&self, number: u64) -> u64 {
        self.number.fetch_add(number, Ordering::SeqCst)
    }

    /// Adds what was received, if this is a receive's answer.
    pub fn add_received(&self, woke: Woke) {
        if let Woke::Got(number, true) = woke {
            self.add(number);
        }
    }
}

/// The moment so many units after now, each of so many nanoseconds, or the last moment that there is.
fn later(now: u64, count: u64, unit: u64) -> u64
    ensures { result ≡ min (now + count * unit) 18446744073709551615 }
{
    now.saturating_add(count.saturating_mul(unit))
}

/// The time, as a goroutine reads it: what the run's clock showed when a goroutine was last resumed.
#[derive(Drop)]
pub struct Time {
    shown: Note,
}

impl Time {
    /// A time that this note shows.
    pub(crate) fn of(shown: Note) -> Self {
        Time { shown }
    }

    /// One more handle of it.
    pub fn share(&self) -> Result<Self, Short> {
        let shown = self.shown.share()?;
        Ok(Time { shown })
    }

    /// What the clock showed, in nanoseconds.
    pub fn now(&self) -> u64 {
        self.shown.get()
    }

    /// The moment so many milliseconds later, or the last moment that there is.
    pub fn in_ms(&self, ms: u64) -> u64
        ensures later { min (ms * 1000000) 18446744073709551615 ≤ result }
    {
        later(self.now(), ms, 1_000_000)
    }

    /// The moment so many microseconds later, or the last moment that there is.
    pub fn in_us(&self, us: u64) -> u64
        ensures later { min (us * 1000) 18446744073709551615 ≤ result }
    {
        later(self.now(), us, 1000)
    }
}
