//! The lock, and how a thread waits for it.
//! Not by the mutex alone: a thread that misses it sleeps and is handed it some 50 µs later, while an act takes less than one.

use crate::desk::{Bench, DeskLedger};
use crate::outside::Sink;
use crossbeam_utils::CachePadded;
use gmp_worker::Runs;
use std::hint::spin_loop;
use std::sync::atomic::{AtomicU8, Ordering};
use std::sync::{Mutex, MutexGuard, Wait};

/// How often a thread looks for the lock before it sleeps for it. Whoever has it is mostly done within a microsecond.
const MOST_LOOKS: u32 = 1_600;

/// The pauses between two looks.
const PAUSES: u32 = 4;

/// For so many pauses the lock has to stay free: a machine that let it go for its body's next ask alone is back by then.
const STAYS_FREE: u32 = 16;

/// A machine makes its acts under the lock.
const HELD: u8 = 1;

/// Whoever lies in wait for a queue is to come out.
const CALLS: u8 = 2;

/// The bench under the lock, away from the lock's own word, which threads that wait read and write.
#[derive(Drop)]
pub(crate) struct Shared<T: Runs, L: DeskLedger<T, S>, S: Sink> {
    bench: Mutex<CachePadded<Bench<T, L, S>>>,
    /// What those who wait and those who hunt look at, apart from the lock's own word: `HELD` and `CALLS`, each where it is so. No more
    /// than a hint; whoever has the lock writes it.
    hints: CachePadded<AtomicU8>,
}

/// So many spins.
fn pause(count: u32) {
    for _ in 0..count {
        spin_loop();
    }
}

impl<T: Runs, L: DeskLedger<T, S>, S: Sink> Shared<T, L, S> {
    pub fn new(bench: Bench<T, L, S>) -> Self {
        Shared {
            bench: Mutex::new(CachePadded::new(bench)),
            hints: CachePadded::new(AtomicU8::new(CALLS)),
        }
    }

    /// What lay under the lock, once all threads have ended.
    pub fn into_inner(self) -> Bench<T, L, S> {
        self.bench.into_inner().into_inner()
    }

    /// Takes the lock. Who waits for it looks whether it stays free for a moment, so that a machine that let it go for a body alone has it
    /// back. At last it sleeps.
    pub fn take<R: Wait>(&self, rt: &R) -> MutexGuard<'_, CachePadded<Bench<T, L, S>>> {
        let bench = match self.bench.try_lock() {
            Some(bench) => bench,
            None => self.awaited(rt),
        };
        // Loaded and stored apart: only who has the lock writes it.
        self.hints.store(self.hints() | HELD, Ordering::SeqCst);
        bench
    }

    /// Lets the lock go, and says to those who look outside that it is free, and whether hunters are called. The hint is written while the
    /// lock is still held, so the holders write in the order of their holds.
    pub fn let_go(&self, bench: MutexGuard<'_, CachePadded<Bench<T, L, S>>>) {
        let hints = if bench.calls_hunters() { CALLS } else { 0 };
        self.hints.store(hints, Ordering::SeqCst);
        drop(bench);
    }

    /// Whether whoever lies in wait is to come out.
    pub fn calls_hunters(&self) -> bool {
        self.hints() & CALLS != 0
    }

    /// What stands in the hints now.
    fn hints(&self) -> u8 {
        self.hints.load(Ordering::SeqCst)
    }

    /// Whether nobody makes acts under the lock, as far as the hint tells.
    fn is_free(&self) -> bool {
        self.hints() & HELD == 0
    }

    /// Waits for the lock: at first it looks at the hint, and tries where that says free; after so many looks it sleeps on the mutex. Each
    /// wait ends by the holder's `let_go`. Under the lock nobody parks; what takes its time there is a sink that is slow, or a body where all
    /// other machines are parked. Whoever waits for a body was unparked for nothing.
    fn awaited<R: Wait>(&self, rt: &R) -> MutexGuard<'_, CachePadded<Bench<T, L, S>>> {
        for _ in 0..MOST_LOOKS {
            if self.is_free() {
                pause(STAYS_FREE);
                if self.is_free() {
                    if let Some(bench) = self.bench.try_lock() {
                        return bench;
                    }
                }
            }
            pause(PAUSES);
        }
        self.bench.lock(rt)
    }
}
