//! Traces that the plain scheduler judges, each entry with changes: the entry is a step, and each change of it that no line allows is none.
//! Where a change is a step too, the file is to list it behind `also`.

mod changes;

use crate::error::PlayError;
use crate::judging::changes::changes;
use crate::opening::{Line, Opening, end_line, put_lines};
use gmp_check::ReplayError;
use gmp_history::History;
use gmp_seq::{Entry, Outcome};
use gmp_trace::read_entry;
use std::alloc::{AllocError, Global};

/// A file that is judged.
#[derive(Drop)]
struct Judge<'a> {
    alloc: Global,
    /// What else the line of an entry may end with.
    ends: &'a str,
    /// The number of the line that is judged.
    at: usize,
    /// The entries of the run so far.
    entries: Vec<Entry>,
    accepted: u64,
    refused: u64,
}

/// Judges a file: how many entries it has and how many changes were refused, or which line fell short and how.
pub fn judged(alloc: Global, ends: &str, text: &str) -> Result<String, (usize, PlayError)> {
    let mut judge = Judge {
        alloc,
        ends,
        at: 0,
        entries: Vec::new(alloc),
        accepted: 0,
        refused: 0,
    };
    match judge.file(text) {
        Ok(counts) => Ok(counts),
        Err(error) => Err((judge.at, error)),
    }
}

/// The entry that a line has, which may follow `also`.
fn entry_of(line: &str) -> &str {
    line.strip_prefix("also ").unwrap_or(line)
}

impl Judge<'_> {
    /// The lines of the file, run by run.
    fn file(&mut self, text: &str) -> Result<String, PlayError> {
        let mut lines = Vec::new(self.alloc);
        put_lines(&mut lines, &mut self.at, text)?;
        self.runs(&lines)?;
        let (entries, refused) = (self.accepted, self.refused);
        Ok(format!(in self.alloc; "{entries} entries, {refused} changes refused")?)
    }

    /// Each run ends with the line of its end.
    fn runs(&mut self, lines: &[Line]) -> Result<(), PlayError> {
        for run in lines.split_inclusive(|(_, line)| line.starts_with("end")) {
            self.run(run)?;
        }
        Ok(())
    }

    /// The lines of a run: its limits, its capacities, its entries and its end. Behind an entry stand those that could be in its place.
    fn run(&mut self, lines: &[Line]) -> Result<(), PlayError> {
        let [limits, capacities, entries @ .., (end_at, end)] = lines else {
            return Err(PlayError::NoOpening);
        };
        let opening = Opening::read(self.alloc, &mut self.at, *limits, *capacities)?;
        self.entries.clear();
        for lines in entries.chunk_by(|_, (_, line)| line.starts_with("also ")) {
            self.entry(&opening, lines)?;
        }
        self.at = *end_at;
        self.end(&opening, end)
    }

    /// The outcome of the entries so far.
    fn outcome(&self, opening: &Opening) -> Result<Option<Outcome>, PlayError> {
        opening.outcome(self.alloc, &History::of(self.alloc, &self.entries)?)
    }

    /// The line of the end is that of the outcome.
    fn end(&self, opening: &Opening, line: &str) -> Result<(), PlayError> {
        let outcome = self.outcome(opening)?;
        let said = end_line(self.alloc, outcome)?;
        if said.as_str() == line {
            Ok(())
        } else {
            Err(PlayError::EndsOtherwise)
        }
    }

    /// The next entry is a step, and so are those that could stand in its place, and no change of it else.
    fn entry(&mut self, opening: &Opening, lines: &[Line]) -> Result<(), PlayError> {
        let [(at, line), others @ ..] = lines else {
            return Ok(());
        };
        self.at = *at;
        self.is_step(opening, line)?;
        for (at, other) in others {
            self.at = *at;
            self.is_step(opening, entry_of(other))?;
        }
        self.at = *at;
        let changes = self.changes(opening, line)?;
        for change in changes.iter() {
            self.refuses(opening, change.as_str(), lines)?;
        }
        self.push(line)?;
        self.accepted = self.accepted.wrapping_add(1);
        Ok(())
    }

    /// The entry of a line becomes the last one.
    fn push(&mut self, line: &str) -> Result<(), PlayError> {
        match read_entry(self.alloc, line.as_bytes())? {
            Some((n, entry)) if n == self.entries.len() as u64 => match self.entries.push(entry) {
                Ok(()) => Ok(()),
                Err(_) => Err(PlayError::OutOfMemory),
            },
            _ => Err(PlayError::Unreadable),
        }
    }

    /// The entry of a line is a step here.
    fn is_step(&mut self, opening: &Opening, line: &str) -> Result<(), PlayError> {
        self.push(line)?;
        let outcome = self.outcome(opening);
        self.entries.pop();
        match outcome {
            Ok(_) => Ok(()),
            Err(error) => Err(error),
        }
    }

    /// How many entries each machine made.
    fn counts(&self, opening: &Opening) -> Result<Vec<u64>, AllocError> {
        let mut counts = vec![in self.alloc; 0u64; opening.limits.machines as usize]?;
        for entry in self.entries.iter() {
            if let Some(count) = counts.get_mut(entry.m.0 as usize) {
                *count = count.wrapping_add(1);
            }
        }
        Ok(counts)
    }

    /// The changes of the line.
    fn changes(&self, opening: &Opening, line: &str) -> Result<Vec<String>, AllocError> {
        let counts = self.counts(opening)?;
        changes(self.alloc, line, &counts, self.ends)
    }

    /// The change is one of the lines, or no step.
    fn refuses(
        &mut self,
        opening: &Opening,
        change: &str,
        lines: &[Line],
    ) -> Result<(), PlayError> {
        match self.is_step(opening, change) {
            Ok(()) if lines.iter().any(|(_, line)| entry_of(line) == change) => Ok(()),
            Ok(()) => Err(PlayError::Step(format!(in self.alloc; "{change}")?)),
            Err(PlayError::Replayed(ReplayError::NoStep(_))) => {
                self.refused = self.refused.wrapping_add(1);
                Ok(())
            }
            Err(PlayError::Unreadable) => Ok(()),
            Err(error) => Err(error),
        }
    }
}
