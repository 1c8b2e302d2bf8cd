//! How many runs ended in which way (`Tally`), each of them an `Ended`.

use gmp_seq::Outcome;
use std::fmt;

/// A run that is over.
#[derive(Clone, Copy)]
pub struct Ended {
    pub outcome: Outcome,
    pub entries: usize,
}

/// How many runs ended in which way, and how many entries they have together.
#[derive(Default, Drop)]
pub struct Tally {
    runs: u32,
    main_ended: u32,
    all_asleep: u32,
    book_full: u32,
    entries: usize,
}

impl Tally {
    pub fn add(&mut self, ended: Ended) {
        let ways = match ended.outcome {
            Outcome::MainEnded => &mut self.main_ended,
            Outcome::AllAsleep => &mut self.all_asleep,
            Outcome::BookFull => &mut self.book_full,
        };
        *ways = ways.wrapping_add(1);
        self.runs = self.runs.wrapping_add(1);
        self.entries = self.entries.wrapping_add(ended.entries);
    }
}

impl fmt::Display for Tally {
    fn fmt<W: fmt::Write>(&self, f: &mut fmt::Formatter<W>) -> fmt::Result {
        let Tally {
            runs,
            main_ended,
            all_asleep,
            book_full,
            entries,
        } = self;
        write!(
            f,
            "{runs} runs: main ended {main_ended}, all were asleep in {all_asleep}, the book was full in {book_full}; {entries} entries"
        )
    }
}
