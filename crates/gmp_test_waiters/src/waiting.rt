//! Flags that bodies and gates set and wait for, bits of machines, and a clock that stands still.

use crossbeam_utils::Backoff;
use gmp_run::Clock;
use std::sync::atomic::{AtomicBool, AtomicU64, Ordering};

/// How often somebody looks for another at most, before the wait counts as in vain.
pub const TURNS: u32 = 10_000_000;

/// What has happened, a bit for each flag, and whether somebody waited for one in vain.
#[derive(Drop)]
pub struct Seen {
    flags: AtomicU64,
    met: AtomicU64,
    is_late: AtomicBool,
}

impl Seen {
    /// Nothing has happened yet.
    pub fn nothing() -> Self {
        Seen {
            flags: AtomicU64::new(0),
            met: AtomicU64::new(0),
            is_late: AtomicBool::new(false),
        }
    }

    /// Whether somebody waited in vain.
    pub fn is_late(&self) -> bool {
        self.is_late.load(Ordering::SeqCst)
    }

    /// From now on this has happened.
    pub fn set(&self, flag: u64) {
        self.flags.fetch_or(flag, Ordering::SeqCst);
    }

    /// Waits until this has happened.
    /// Whoever sets the flag ends this, or somebody's wait in vain does: then all give up, and the row falls short.
    pub fn wait_for(&self, flag: u64) {
        let backoff = Backoff::new();
        for _ in 0..TURNS {
            if self.flags.load(Ordering::SeqCst) & flag != 0 || self.is_late() {
                return;
            }
            backoff.snooze();
        }
        self.is_late.store(true, Ordering::SeqCst);
    }

    /// Every second one that comes ends the wait of the one before. Flags that bear a letter have other bits.
    pub fn meet(&self) {
        let before = self.met.fetch_add(1, Ordering::SeqCst);
        let pair = 1 << (before / 2 % 32);
        if before % 2 == 0 {
            self.wait_for(pair);
        } else {
            self.set(pair);
        }
    }
}

/// The bit of this machine.
pub fn bit(m: u8) -> u64 {
    1u64.wrapping_shl(u32::from(m))
}

/// The flag that this letter names.
pub fn flag_of(letter: &str) -> Option<u64> {
    match letter.as_bytes() {
        [letter @ b'a'..=b'z'] => Some(1 << (letter % 64)),
        _ => None,
    }
}

/// A clock that stands still.
pub struct Stopped;

impl Clock for Stopped {
    fn now(&self) -> u64 {
        1
    }

    fn rest(&self, _most: u64) {}
}
