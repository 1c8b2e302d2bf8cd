//! Machines and choices, drawn by a generator, with no sense asked of them: numbers that no machine, goroutine or channel has come too. It
//! leans one way for a spell, so that runs get far.
ghost use Rattle.std.specs.Prelude.{◌<◌};

use crate::limits::{BODIES, CHANNELS, MACHINES};
use gmp_acts::Choice;
use gmp_base::{Ask, CNo, Case, Cases, GNo, MNo};
use rand_core::Rng;
use rand_pcg::Lcg64Xsh32;

/// The generator's stream, of which the seed chooses the beginning.
const STREAM: u64 = 54;

/// How many numbers a `u16` has.
const ALL: u32 = 65_536;

/// How many choices a spell has.
const SPELL: u32 = 512;

/// What is drawn in a run. It leans one way for a spell, and then another way.
#[derive(Drop)]
pub struct Draw {
    generator: Lcg64Xsh32,
    /// How many processors there are.
    procs: u8,
    /// How many choices were drawn. Moments are mostly near this number, so that deadlines come due.
    choices: u32,
    /// The machine that mostly acts.
    favourite: MNo,
    /// Any machine acts once in so many times.
    others: u32,
    /// A body may wait without end after one ask in so many.
    waits: u32,
    /// It gives its machine up by one in so many of the others.
    pauses: u32,
    ghost are_some: { (0 < others) × (0 < waits) × (0 < pauses) },
}

impl Draw {
    /// The generator of this seed, for so many processors. In the first spell a body seldom waits without end, so that there is time to
    /// start others.
    pub fn new(seed: u64, procs: u8) -> Self {
        let mut draw = Draw {
            generator: Lcg64Xsh32::new(seed, STREAM),
            procs,
            choices: 0,
            favourite: MNo(0),
            others: 1,
            waits: 1,
            pauses: 1,
        };
        draw.begin_spell();
        draw.waits = 64;
        draw
    }

    /// Draws which way the next spell leans.
    fn begin_spell(&mut self) {
        self.favourite = self.any_machine();
        self.others = 1 << self.below(5);
        self.waits = 1 << self.below(6);
        self.pauses = 1 << self.below(7);
    }

    /// A number below this one.
    fn below(&mut self, n: u32) -> u32
        requires { 0 < n }
        ensures { result < n }
    {
        self.generator.next_u32() % n
    }

    /// True once in so many times.
    fn once_in(&mut self, n: u32) -> bool
        requires { 0 < n }
    {
        self.below(n) == 0
    }

    /// A word of 64 bits.
    pub fn word(&mut self) -> u64 {
        self.generator.next_u64()
    }

    /// One of the machines, or the one behind the last, which isn't there.
    fn any_machine(&mut self) -> MNo {
        MNo(self.below(MACHINES as u32 + 1) as u8)
    }

    /// The machine that acts next.
    pub fn machine(&mut self) -> MNo {
        if self.once_in(self.others) {
            self.any_machine()
        } else {
            self.favourite
        }
    }

    /// Mostly one that there is.
    fn goroutine(&mut self) -> GNo {
        let bound = if self.once_in(32) {
            ALL
        } else {
            u32::from(BODIES)
        };
        GNo(self.below(bound) as u16)
    }

    /// Mostly one that there may be.
    fn channel(&mut self) -> Option<CNo> {
        match self.below(64) {
            0 => None,
            1 => Some(CNo(self.below(ALL) as u16)),
            _ => Some(CNo(self.below(u32::from(CHANNELS)) as u16)),
        }
    }

    /// Mostly a small one, sometimes near the greatest that there may be, or the greatest number.
    fn capacity(&mut self) -> u32 {
        match self.below(8) {
            0 => u32::MAX,
            1 => 4_090 + self.below(10),
            _ => self.below(4),
        }
    }

    /// Mostly a number of processors that may be active, or the one before or behind these; sometimes any.
    fn active(&mut self) -> u8 {
        let bound = if self.once_in(16) {
            256
        } else {
            u32::from(self.procs.saturating_add(1)) + 1
        };
        self.below(bound) as u8
    }

    /// Near the number of choices made so far; once in so many times any number, or the greatest.
    fn moment(&mut self, rare: u32) -> u64
        requires { 0 < rare }
    {
        if self.once_in(rare) {
            return if self.once_in(2) {
                self.word()
            } else {
                u64::MAX
            };
        }
        u64::from(self.choices) + u64::from(self.below(1_000))
    }

    /// A deadline of a select, or none.
    fn deadline(&mut self) -> Option<u64> {
        if self.once_in(2) {
            Some(self.moment(64))
        } else {
            None
        }
    }

    /// A send or a receive.
    fn case(&mut self) -> Case {
        let channel = self.channel();
        if self.once_in(2) {
            Case::Send(channel, self.word())
        } else {
            Case::Recv(channel)
        }
    }

    /// At most 8 cases.
    fn cases(&mut self) -> Cases {
        let mut cases = Cases::new();
        for _ in 0..self.below(9) {
            let _ = cases.push(self.case());
        }
        cases
    }

    /// An ask after which the body may wait without end.
    fn wait(&mut self) -> Ask {
        match self.below(16) {
            0..=2 => Ask::Park,
            3..=6 => Ask::Select(self.cases(), self.once_in(2), self.deadline()),
            7..=11 => Ask::Send(self.channel(), self.word()),
            _ => Ask::Recv(self.channel()),
        }
    }

    /// An ask by which the body gives its machine up.
    fn pause(&mut self) -> Ask {
        match self.below(32) {
            0..=1 => Ask::Exit,
            2..=11 => Ask::Sleep(self.moment(64)),
            12..=21 => Ask::Yield,
            _ => Ask::Block,
        }
    }

    /// An ask after which the body goes on.
    fn step(&mut self) -> Ask {
        match self.below(32) {
            0 => Ask::Close(self.channel()),
            1 => Ask::Make(self.capacity()),
            2..=3 => Ask::Len(self.channel()),
            4..=5 => Ask::Cap(self.channel()),
            6 => Ask::Procs(self.active()),
            7..=16 => Ask::Ready(self.goroutine()),
            17..=20 => Ask::Spawn,
            _ => Ask::Go(self.goroutine()),
        }
    }

    /// Any ask, of the three kinds.
    fn ask(&mut self) -> Ask {
        if self.once_in(self.waits) {
            self.wait()
        } else if self.once_in(self.pauses) {
            self.pause()
        } else {
            self.step()
        }
    }

    /// Counts a choice, and begins a spell where it is time.
    fn go_on(&mut self) {
        self.choices = self.choices.wrapping_add(1);
        if self.choices % SPELL == 0 {
            self.begin_spell();
        }
    }

    /// What a body asks next.
    pub fn next_ask(&mut self) -> Ask {
        self.go_on();
        self.ask()
    }

    /// What an act leaves open.
    pub fn choice(&mut self) -> Choice {
        self.go_on();
        Choice {
            ask: self.ask(),
            number: self.word(),
            word: self.word(),
            moment: self.moment(400),
            push_refused: self.once_in(8),
            unsure: self.once_in(8),
        }
    }
}
