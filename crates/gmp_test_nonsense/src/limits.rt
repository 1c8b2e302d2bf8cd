//! With what each run begins: small numbers, so that nonsense meets limits often.

use gmp_seq::Limits;

pub const PROCS: u8 = 3;

pub const MACHINES: usize = 5;

pub const CHANNELS: u16 = 8;

pub const LIMITS: Limits = Limits {
    procs: PROCS,
    machines: MACHINES as u8,
    channels: CHANNELS,
    entries: 5_000,
    room: 5_000,
};

/// The processors and machines of runs in threads.
pub const SIZES: [(u8, u8); 3] = [(1, 1), (3, 5), (32, 64)];

/// How many bodies there are.
pub const BODIES: u16 = 64;

/// The capacities of the channels that are there at the opening.
pub const CAPACITIES: [u32; 4] = [0, 1, 2, 3];

/// Whether the machines of the run of this seed are fair: of each second run they are.
pub fn is_fair(seed: u64) -> bool {
    seed % 2 == 1
}
