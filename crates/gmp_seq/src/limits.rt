//! The limits that a run may have, each written once as code; what tests by them is proved equal to the definitions, which spell the
//! numbers out. They are the project's own. That each number of a legal run fits its type rests on them.
ghost use Rattle.std.specs.Prelude.{◌↔◌, ◌≤◌, IsTrue, All};
ghost use Rattle.gmp_seq.specs.Fits.{AreLimits};

use crate::call::Limits;

/// The most processors.
pub const MOST_PROCS: u8 = 32;

/// The most machines. As many numbers fit the masks of gmp_idle, and as many thieves a queue of gmp_queue.
pub const MOST_MACHINES: u8 = 64;

/// The most bodies, and so goroutines.
pub const MOST_BODIES: usize = 4096;

/// The most channels, those of the opening and those that are made.
pub const MOST_CHANNELS: u16 = 1024;

/// The most values that a channel's buffer may hold. Its room is taken at once, so it has a bound.
pub const MOST_CAPACITY: u32 = 4096;

/// The fewest entries that a history may have room for, and so the fewest that a run may be limited to.
pub const LEAST_ROOM: u32 = 16;

/// The most entries that a history may have room for. It is taken at the opening, 240 bytes of address space an entry.
pub const MOST_ROOM: u32 = 1_000_000;

/// The most entries of a run, all its segments together. With so many no count overflows.
pub const MOST_ENTRIES: u64 = (1 << 63) - 1;

fn fit_all(capacities: &[u32]) -> bool
    ensures { IsTrue result ↔ All (λ capacity. capacity ≤ 4096) capacities.now }
{
    capacities.iter().all(|capacity| *capacity <= MOST_CAPACITY)
}

/// Both bounds are within.
fn is_between(low: usize, n: usize, high: usize) -> bool
    ensures { IsTrue result ↔ ((low ≤ n) × (n ≤ high)) }
{
    low <= n && n <= high
}

impl Limits {
    /// Whether a run may have these limits, so many bodies, and channels of these capacities at its opening. Machines are as many as
    /// processors or more, since one in a blocking call holds none, and the room for entries is no more than they are.
    pub fn allow(self, bodies: usize, capacities: &[u32]) -> bool
        ensures { IsTrue result ↔ AreLimits self bodies capacities.now }
    {
        let machines = self.machines as usize;
        let channels = self.channels as usize;
        is_between(1, self.procs as usize, MOST_PROCS as usize)
            & is_between(self.procs as usize, machines, MOST_MACHINES as usize)
            & is_between(1, bodies, MOST_BODIES)
            & is_between(capacities.len(), channels, MOST_CHANNELS as usize)
            & fit_all(capacities)
            & is_between(LEAST_ROOM as usize, self.room as usize, MOST_ROOM as usize)
            & (u64::from(self.room) <= self.entries)
            & (self.entries <= MOST_ENTRIES)
    }
}
