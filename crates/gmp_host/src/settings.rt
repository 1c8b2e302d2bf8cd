//! How a host runs.
ghost use Rattle.std.specs.Prelude.{◌≡◌, min, true};
ghost use Rattle.gmp_host.specs.Openings.{limits_of};

use gmp_seq::Limits;

/// How a host runs: the limits of its run, where its words begin, and whether its machines are fair.
#[derive(Clone, Copy, Debug, PartialEq, Eq)]
pub struct Settings {
    /// How many processors run goroutines: 1 to 32.
    pub procs: u8,
    /// How many machines there are, a thread for each: as many as processors to 64.
    pub machines: u8,
    /// How many channels there may be, with those that are made: at most 1024.
    pub channels: u16,
    /// How many calls a run may make before it ends, its book full: 16 to 2^63 - 1.
    pub entries: u64,
    /// How many of them are kept at a time: 16 to 1,000,000, for which memory is taken at the start. A run of more entries hands them to a
    /// sink, by `Host::run_into`.
    pub room: u32,
    /// The words that choose among cases and victims are drawn from it on.
    pub random: u64,
    /// Whether machines look aside every 16 claims, so that while a ready goroutine stands in a line others are claimed only so often, also
    /// where they wake one another without end. It changes the number of entries by a few per cent.
    pub fair: bool,
}

impl Default for Settings {
    /// Four processors, six machines, 64 channels, 200,000 entries, all of which are kept, words from 0 on, and fair machines.
    fn default() -> Self
        ensures { result ≡ record { procs = 4; machines = 6; channels = 64; entries = 200000; room = 1000000; random = 0; fair = true } }
    {
        Settings {
            procs: 4,
            machines: 6,
            channels: 64,
            entries: 200_000,
            room: 1_000_000,
            random: 0,
            fair: true,
        }
    }
}

impl Settings {
    /// The limits of a run.
    pub fn limits(self) -> Limits
        ensures { result ≡ limits_of self }
    {
        Limits {
            procs: self.procs,
            machines: self.machines,
            channels: self.channels,
            entries: self.entries,
            room: self.entries.min(u64::from(self.room)) as u32,
        }
    }
}
