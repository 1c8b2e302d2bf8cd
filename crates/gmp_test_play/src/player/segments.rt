//! Segments and pieces of a run's history, how much there is of it, and with which state one begins. What is handed out is kept, so that the
//! whole run can be replayed.

use super::{Desk, Player};
use crate::error::PlayError;
use crate::opening::end_line;
use crate::words::line_of;
use gmp_book::Segment;
use gmp_history::History;
use gmp_start::Start;
use gmp_trace::put_start;

impl Player {
    /// How many entries the run has, those with it that were handed out.
    pub(super) fn entries(&self, book: &Desk) -> usize {
        self.handed_out.len() + book.history().len()
    }

    /// The entries go behind those that were handed out.
    pub(super) fn keeps(&mut self, entries: &History) -> Result<(), PlayError> {
        for entry in entries.iter() {
            self.handed_out.make_room()?;
            self.handed_out
                .push(entry.m, entry.k, &entry.call, &entry.reply);
        }
        Ok(())
    }

    /// The book hands out its entries with the state before them: the line says how many there are, and how the run ended, if it did; or by
    /// which number it is refused.
    pub(super) fn segment(&mut self, book: &mut Desk, line: &str) -> Result<(), PlayError> {
        let entries = book.history().len();
        match book.segment(self.alloc) {
            Ok(segment) => is_said(self.takes(&segment)?, line),
            Err(why) => {
                let said = format!(in self.alloc; "segment !{}", why.number())?;
                if said.as_str() != line {
                    Err(PlayError::Refused(why, why.number()))
                } else if book.history().len() != entries {
                    Err(PlayError::Changed)
                } else {
                    Ok(())
                }
            }
        }
    }

    /// Keeps what the segment has, and says it.
    fn takes(&mut self, segment: &Segment) -> Result<String, PlayError> {
        self.began = self.lines_of(self.handed_out.len(), &segment.start)?;
        self.keeps(&segment.entries)?;
        let end = end_line(self.alloc, segment.end)?;
        Ok(format!(in self.alloc; "segment {} {end}", segment.entries.len())?)
    }

    /// The last segment begins with these lines.
    pub(super) fn begins(&self, lines: &str) -> Result<(), PlayError> {
        is_said(format!(in self.alloc; "{}", self.began)?, lines)
    }

    /// The book hands out its entries: the line says how many there are.
    pub(super) fn hands_out(&mut self, book: &mut Desk, line: &str) -> Result<(), PlayError> {
        let entries = book.history().len();
        // As much room as a book may have.
        let mut piece = History::with_room(self.alloc, 1_000_000)?;
        book.hand_out(&mut piece);
        self.keeps(&piece)?;
        if piece.len() != entries || !book.history().is_empty() {
            return Err(PlayError::Changed);
        }
        is_said(format!(in self.alloc; "hand_out {entries}")?, line)
    }

    /// A part that began here would begin with these lines.
    pub(super) fn state(&self, book: &Desk, lines: &str) -> Result<(), PlayError> {
        let start = book.start(self.alloc)?;
        is_said(self.lines_of(self.entries(book), &start)?, lines)
    }

    /// With what a part begins, behind so many entries: the lines from that with `start` to that with `begin`, parted by `/`.
    fn lines_of(&self, made: usize, start: &Start) -> Result<String, PlayError> {
        let mut text = Vec::new(self.alloc);
        put_start(&mut text, made as u64, start)?;
        for byte in text.iter_mut() {
            if *byte == b'\n' {
                *byte = b'/';
            }
        }
        line_of(text)
    }
}

/// The line is what the book says.
fn is_said(said: String, line: &str) -> Result<(), PlayError> {
    if said.as_str() == line {
        Ok(())
    } else {
        Err(PlayError::Says(said))
    }
}
