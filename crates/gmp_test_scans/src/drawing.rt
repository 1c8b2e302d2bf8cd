//! Asks, drawn by a generator: `Draw` is the generator of one list, `Asked` what it draws. Few channels and many goroutines, so that many
//! wait on each.
ghost use Rattle.std.specs.Prelude.{◌<◌};

use gmp_base::{CNo, Case, Cases, GNo};
use rand_core::Rng;
use rand_pcg::Lcg64Xsh32;

/// The generator's stream, of which the seed chooses the beginning.
const STREAM: u64 = 54;

/// How many goroutines ask.
pub const BODIES: u16 = 16;

/// How many channels there are.
pub const CHANNELS: u16 = 4;

/// How many asks a list has.
pub const ASKS: u32 = 200;

/// What a goroutine asks that does not wait.
#[derive(Drop)]
pub enum Asked {
    Deal(Case),
    Select(Cases),
    Close(CNo),
}

/// What is drawn for a list.
#[derive(Drop)]
pub struct Draw {
    generator: Lcg64Xsh32,
}

impl Draw {
    /// The generator of this seed.
    pub fn new(seed: u64) -> Self {
        Draw {
            generator: Lcg64Xsh32::new(seed, STREAM),
        }
    }

    /// A number below this one.
    fn below(&mut self, n: u32) -> u32
        requires { 0 < n }
        ensures { result < n }
    {
        self.generator.next_u32() % n
    }

    /// The word of a select.
    pub fn word(&mut self) -> u64 {
        self.generator.next_u64()
    }

    /// Of one channel each: small ones, and none.
    pub fn capacities(&mut self) -> [u32; CHANNELS as usize] {
        [self.below(4), self.below(2), 0, 0]
    }

    /// Any of the goroutines: one that waits ends its wait.
    pub fn goroutine(&mut self) -> GNo {
        GNo(self.below(u32::from(BODIES)) as u16)
    }

    /// Any of the channels.
    fn channel(&mut self) -> CNo {
        CNo(self.below(u32::from(CHANNELS)) as u16)
    }

    /// Once in so many times on nil.
    fn case(&mut self) -> Case {
        let channel = if self.below(32) == 0 {
            None
        } else {
            Some(self.channel())
        };
        if self.below(2) == 0 {
            Case::Send(channel, self.word())
        } else {
            Case::Recv(channel)
        }
    }

    /// At most 8 cases.
    fn cases(&mut self) -> Cases {
        let mut cases = Cases::new();
        for _ in 0..self.below(9) {
            let _ = cases.push(self.case());
        }
        cases
    }

    /// Mostly a send or a receive, and seldom a close, since it is the last that there can be for its channel.
    pub fn asked(&mut self) -> Asked {
        match self.below(128) {
            0 => Asked::Close(self.channel()),
            1..=48 => Asked::Select(self.cases()),
            _ => Asked::Deal(self.case()),
        }
    }
}
