//! What main notes of the answers.

use gmp_host::{Note, Short};
use std::alloc::Global;
use std::fmt;

/// What main notes of the answers: how many there are, their sum, and how often its wait for one more was late.
#[derive(Drop)]
pub struct Tally {
    pub answers: Note,
    pub sum: Note,
    pub late: Note,
}

impl Tally {
    /// A tally with nothing in it.
    pub fn new(alloc: Global) -> Result<Self, Short> {
        Ok(Tally {
            answers: Note::new(alloc)?,
            sum: Note::new(alloc)?,
            late: Note::new(alloc)?,
        })
    }

    /// The same once more, for main.
    pub fn share(&self) -> Result<Self, Short> {
        Ok(Tally {
            answers: self.answers.share()?,
            sum: self.sum.share()?,
            late: self.late.share()?,
        })
    }

    /// Notes an answer.
    pub fn add(&self, answer: u64) {
        self.answers.add(1);
        self.sum.add(answer);
    }
}

impl fmt::Display for Tally {
    /// The tally in words.
    fn fmt<W: fmt::Write>(&self, f: &mut fmt::Formatter<W>) -> fmt::Result {
        let (answers, sum) = (self.answers.get(), self.sum.get());
        let more = match self.late.get() {
            0 => "and more",
            _ => "no more in time",
        };
        write!(f, "{answers} answers, sum {sum}, {more}")
    }
}
