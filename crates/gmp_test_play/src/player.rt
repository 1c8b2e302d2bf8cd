//! What plays a file, line by line, on a `Desk`: a book whose bodies and owners are their own numbers, so that one that is lost or
//! exchanged is seen. `Player` is all but that book.

mod runs;
mod segments;
mod turns;

use crate::error::PlayError;
use crate::hand::Hand;
use crate::opening::{Line, end_line, put_lines};
use crate::words::{first, number, short, small};
use gmp_base::{GNo, PNo, Woke};
use gmp_book::Book;
use gmp_history::History;
use std::alloc::Global;

/// The body of each goroutine and the owner of each processor is its number.
type Desk = Book<u32, u32>;

/// A file that is played: all but the book, which is handed on.
#[derive(Drop)]
struct Player {
    alloc: Global,
    /// The number of the line that is played.
    at: usize,
    calls: u64,
    /// The run of the book: number 7 is a file's first.
    run: u64,
    /// What each machine has.
    hands: Vec<Hand>,
    /// What each had when the run before ended.
    others: Vec<Hand>,
    /// The run of the tickets that are handed in.
    tickets: u64,
    /// What chooses among the cases of a select.
    word: u64,
    /// The entries of the run that the book has handed out.
    handed_out: History,
    /// With which lines the last segment began.
    began: String,
}

/// Plays a file: how many calls it made, or which line fell short and how.
pub fn played(alloc: Global, text: &str) -> Result<String, (usize, PlayError)> {
    let mut player = Player {
        alloc,
        at: 0,
        calls: 0,
        run: 7,
        hands: Vec::new(alloc),
        others: Vec::new(alloc),
        tickets: 0,
        word: 0,
        handed_out: History::new(alloc),
        began: String::new(alloc),
    };
    match player.file(text) {
        Ok(counts) => Ok(counts),
        Err(error) => Err((player.at, error)),
    }
}

impl Player {
    /// The lines of the file, run by run. Each run has a book of its own, whose run's number is one more.
    fn file(&mut self, text: &str) -> Result<String, PlayError> {
        let mut lines = Vec::new(self.alloc);
        put_lines(&mut lines, &mut self.at, text)?;
        self.runs(&lines)?;
        Ok(format!(in self.alloc; "{} calls", self.calls)?)
    }

    /// Each run ends with the line of its end.
    fn runs(&mut self, lines: &[Line]) -> Result<(), PlayError> {
        for run in lines.split_inclusive(|(_, line)| line.starts_with("end")) {
            self.plays(run)?;
            self.run = self.run.wrapping_add(1);
        }
        Ok(())
    }

    /// What this machine has, if there is such a machine.
    fn hand(&self, m: u64) -> Result<Hand, PlayError> {
        match self.hands.get(m as usize) {
            Some(hand) => Ok(*hand),
            None => Err(PlayError::NoMachine),
        }
    }

    /// The machine has this.
    fn put_hand(&mut self, hand: Hand) {
        if let Some(place) = self.hands.get_mut(hand.m.0 as usize) {
            *place = hand;
        }
    }

    /// A line behind the opening.
    fn line(&mut self, book: &mut Desk, line: &str) -> Result<(), PlayError> {
        let (word, rest) = first(line);
        match word {
            "end" => self.end(book, line),
            "tickets" => {
                self.tickets = number(rest)?;
                Ok(())
            }
            "word" => {
                self.word = number(rest)?;
                Ok(())
            }
            "other" => self.other(number(rest)?),
            "segment" => self.segment(book, line),
            "begins" => self.begins(rest),
            "hand_out" => self.hands_out(book, line),
            "state" => self.state(book, rest),
            "held" | "called" | "proc" | "pass" => self.forged(word, rest),
            _ => self.numbered(book, line),
        }
    }

    /// The line of the end is that of the book's outcome.
    fn end(&self, book: &Desk, line: &str) -> Result<(), PlayError> {
        let said = end_line(self.alloc, book.outcome())?;
        if said.as_str() == line {
            Ok(())
        } else {
            Err(PlayError::Says(said))
        }
    }

    /// A machine is handed what it had when the run before ended.
    fn other(&mut self, m: u64) -> Result<(), PlayError> {
        match self.others.get(m as usize) {
            Some(hand) => {
                let hand = *hand;
                self.put_hand(hand);
                Ok(())
            }
            None => Err(PlayError::NoMachine),
        }
    }

    /// A machine is handed a pass or a value that the book did not give.
    fn forged(&mut self, kind: &str, line: &str) -> Result<(), PlayError> {
        let (m, rest) = first(line);
        let (run, rest) = first(rest);
        let (of, seen) = first(rest);
        let (m, run) = (number(m)?, number(run)?);
        let mut hand = self.hand(m)?;
        match kind {
            "held" => {
                let g = short(of)?;
                hand.held = Some((run, GNo(g), u32::from(g)));
                hand.woke = Some(Woke::First);
            }
            "called" => {
                let g = short(of)?;
                hand.called = Some((run, GNo(g), u32::from(g)));
            }
            "proc" => {
                let p = small(of)?;
                hand.proc = Some((run, PNo(p), u32::from(p)));
            }
            _ => hand.pass = (run, number(of)?, number(seen)?),
        }
        self.put_hand(hand);
        Ok(())
    }
}
