//! A gate that holds machines up: by drawn words, and between a last look and a park. Every wait in it yields the thread, and ends after so
//! many yields: a machine that is waited for may have ended, and then nobody else would end the wait.

use gmp_base::MNo;
use gmp_driver::Act;
use gmp_run::Gate;
use gmp_seq::Call;
use std::sync::atomic::{AtomicBool, AtomicU64, Ordering};
use std::thread::yield_now;

/// How often a machine that waits for another yields its thread at most.
const MOST_YIELDS: u32 = 100_000;

/// Of three acts about one is held up: the machine yields its thread once or several times.
///
/// Where machines meet, besides, a ticket comes into a queue behind the others' last look: the first push waits until all others are about
/// to park, these wait until the one that pushed is in its blocking call, and this one comes back once all of them have been answered.
#[derive(Drop)]
pub struct Turnstile {
    /// The state of the generator, which all machines draw from.
    drawn: AtomicU64,
    /// How many others meet.
    others: u32,
    /// Who has come to its park, a bit for each machine.
    at_park: AtomicU64,
    /// Who has made its park.
    behind: AtomicU64,
    /// Whether the blocking call was made; set from the beginning where nobody meets.
    blocks: AtomicBool,
}

/// The word that follows a number (SplitMix64).
fn mixed(n: u64) -> u64 {
    let n = (n ^ (n >> 30)).wrapping_mul(0xbf58_476d_1ce4_e5b9);
    let n = (n ^ (n >> 27)).wrapping_mul(0x94d0_49bb_1331_11eb);
    n ^ (n >> 31)
}

impl Turnstile {
    /// So many others meet.
    pub fn new(seed: u64, others: u8) -> Self {
        Turnstile {
            drawn: AtomicU64::new(mixed(seed)),
            others: u32::from(others),
            at_park: AtomicU64::new(0),
            behind: AtomicU64::new(0),
            blocks: AtomicBool::new(others == 0),
        }
    }

    /// Yields by a drawn word.
    fn stall(&self) {
        let word = mixed(
            self.drawn
                .fetch_add(0x9e37_79b9_7f4a_7c15, Ordering::SeqCst),
        );
        if word % 3 == 0 {
            for _ in 0..word / 3 % 8 {
                yield_now();
            }
        }
    }

    /// Waits until all others are in this set. Each of them ends its part by an act of its own: it comes to its park, or to the act behind
    /// it.
    fn await_others(&self, set: &AtomicU64) {
        for _ in 0..MOST_YIELDS {
            if set.load(Ordering::SeqCst).count_ones() >= self.others {
                return;
            }
            yield_now();
        }
    }

    /// Waits until a machine is in its blocking call. The machine that pushed ends that, at its act Block.
    fn await_block(&self) {
        for _ in 0..MOST_YIELDS {
            if self.blocks.load(Ordering::SeqCst) {
                return;
            }
            yield_now();
        }
    }
}

impl Gate for Turnstile {
    fn before(&self, m: MNo, act: &Act) {
        let bit = 1u64.wrapping_shl(u32::from(m.0));
        // An act behind the park: the park was answered.
        if self.at_park.load(Ordering::SeqCst) & bit != 0 {
            self.behind.fetch_or(bit, Ordering::SeqCst);
        }
        match act {
            // Ended by the others' parks, which are held in turn until this machine blocks.
            Act::Push => self.await_others(&self.at_park),
            Act::Call(Call::Park) => {
                self.at_park.fetch_or(bit, Ordering::SeqCst);
                self.await_block();
            }
            Act::Block => self.blocks.store(true, Ordering::SeqCst),
            // Ended by the others' next acts, once their park is answered.
            Act::Call(Call::Leave(_)) => self.await_others(&self.behind),
            _ => {}
        }
        self.stall();
    }
}
