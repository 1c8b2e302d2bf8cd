//! A run of a file: its book is opened, and let go at its end, with a report where it is over. `Standing` is how it stands then.

use super::{Desk, Player};
use crate::error::PlayError;
use crate::hand::Hand;
use crate::opening::{Line, Opening};
use gmp_base::{Called, Held, MNo, Pass, Proc, Refusal, Ticket, Woke};
use gmp_book::{Book, Report};
use gmp_history::History;
use gmp_seq::Outcome;
use std::alloc::{AllocError, Global};

/// How a run stands at the end of its lines.
#[derive(Clone, Copy)]
struct Standing {
    outcome: Option<Outcome>,
    entries: usize,
}

/// The numbers up to this one.
fn numbers(alloc: Global, count: u16) -> Result<Vec<u32>, AllocError> {
    let mut list = Vec::new(alloc);
    for n in 0..count {
        list.push(u32::from(n))?;
    }
    Ok(list)
}

/// What the machine has is taken back.
fn taken(book: &mut Desk, hand: Hand) -> Result<(), Refusal> {
    if let Some((run, g, body)) = hand.held {
        if let Err(refused) = book.surrender_held(Held::of(run, g, Woke::First, body)) {
            let (why, held) = refused.open();
            held.open();
            return Err(why);
        }
    }
    if let Some((run, g, body)) = hand.called {
        if let Err(refused) = book.surrender_called(Called::of(run, g, body)) {
            let (why, called) = refused.open();
            called.open();
            return Err(why);
        }
    }
    if let Some((run, r)) = hand.ticket {
        if let Err(refused) = book.surrender_ticket(Ticket::of(run, r.g, r.epoch)) {
            let (why, ticket) = refused.open();
            ticket.open();
            return Err(why);
        }
    }
    if let Some((run, p, owner)) = hand.proc {
        if let Err(refused) = book.surrender_proc(Proc::of(run, p, owner)) {
            let (why, proc) = refused.open();
            proc.open();
            return Err(why);
        }
    }
    Ok(())
}

/// The book's report, or why there is none; with it the book goes.
fn reported(book: Desk) -> Result<Report<u32, u32>, Refusal> {
    match book.into_report() {
        Ok(report) => Ok(report),
        Err(refused) => {
            let (why, _book) = refused.open();
            Err(why)
        }
    }
}

impl Opening {
    /// The book of these limits, bodies and owners, with a pass for each machine.
    fn opened(&self, alloc: Global, run: u64) -> Result<(Desk, Vec<Pass>), PlayError> {
        let bodies = numbers(alloc, self.bodies)?;
        let owners = numbers(alloc, u16::from(self.limits.procs))?;
        match Book::open(alloc, run, self.limits, &self.capacities, bodies, owners) {
            Ok(opened) => Ok(opened),
            Err(unopened) => Err(PlayError::Unopened(unopened.why)),
        }
    }

    /// The plain scheduler takes these entries for a history with the book's outcome.
    fn replayed(&self, alloc: Global, entries: &History, book: &Desk) -> Result<(), PlayError> {
        if self.outcome(alloc, entries)? == book.outcome() {
            Ok(())
        } else {
            Err(PlayError::EndsOtherwise)
        }
    }

    /// The report has what the run was opened with, as many entries as the book had, how it ended, and all bodies and owners, in order.
    fn is_reported(
        &self,
        alloc: Global,
        ended: Standing,
        report: &Report<u32, u32>,
    ) -> Result<(), PlayError> {
        let bodies = numbers(alloc, self.bodies)?;
        let owners = numbers(alloc, u16::from(self.limits.procs))?;
        let is_opened = report.limits == self.limits && report.capacities == self.capacities;
        let is_said = report.history.len() == ended.entries && report.outcome == ended.outcome;
        let has_all = report.bodies == bodies && report.owners == owners;
        if is_opened && is_said && has_all {
            Ok(())
        } else {
            Err(PlayError::Astray)
        }
    }

    /// Where the run is over there is a report as it has to be, and else none.
    fn closes(
        &self,
        alloc: Global,
        ended: Standing,
        report: &Result<Report<u32, u32>, Refusal>,
    ) -> Result<(), PlayError> {
        match report {
            Ok(report) => self.is_reported(alloc, ended, report),
            Err(Refusal::NotOver) if ended.outcome.is_none() => Ok(()),
            Err(why) => Err(PlayError::NotTaken(*why)),
        }
    }
}

impl Player {
    /// The lines of a run: its limits, its capacities, and what follows.
    pub(super) fn plays(&mut self, lines: &[Line]) -> Result<(), PlayError> {
        let [limits, capacities, lines @ ..] = lines else {
            return Err(PlayError::NoOpening);
        };
        let opening = Opening::read(self.alloc, &mut self.at, *limits, *capacities)?;
        self.opens(&opening, lines)
    }

    /// Opens the book, plays the lines, and closes it.
    fn opens(&mut self, opening: &Opening, lines: &[Line]) -> Result<(), PlayError> {
        self.makes_room(opening.limits.machines)?;
        let (book, passes) = opening.opened(self.alloc, self.run)?;
        self.deals(passes);
        let mut book = book;
        let played = self.through(&mut book, opening, lines);
        let report = reported(book);
        match played {
            Ok(ended) => opening.closes(self.alloc, ended, &report),
            Err(error) => Err(error),
        }
    }

    /// The machines begin with nothing; what they had is kept.
    fn makes_room(&mut self, machines: u8) -> Result<(), PlayError> {
        let hands = vec![in self.alloc; Hand::of(MNo(0)); machines as usize]?;
        self.others = std::mem::replace(&mut self.hands, hands);
        self.tickets = self.run;
        self.word = 0;
        self.handed_out = History::new(self.alloc);
        self.began = String::new(self.alloc);
        Ok(())
    }

    /// Each machine has its pass.
    fn deals(&mut self, passes: Vec<Pass>) {
        let mut passes = passes;
        while let Some(pass) = passes.pop() {
            let (run, m, calls, seen) = pass.open();
            let mut hand = Hand::of(m);
            hand.pass = (run, calls, seen);
            self.put_hand(hand);
        }
        passes.destroy_empty();
    }

    /// Plays the lines, has the plain scheduler replay all entries, and gives back what the machines have where the run is over.
    fn through(
        &mut self,
        book: &mut Desk,
        opening: &Opening,
        lines: &[Line],
    ) -> Result<Standing, PlayError> {
        for (at, line) in lines {
            self.at = *at;
            self.line(book, line)?;
        }
        self.keeps(book.history())?;
        opening.replayed(self.alloc, &self.handed_out, book)?;
        let outcome = book.outcome();
        let entries = book.history().len();
        if outcome.is_some() {
            for hand in self.hands.iter() {
                if let Err(why) = taken(book, *hand) {
                    return Err(PlayError::NotTaken(why));
                }
            }
        }
        Ok(Standing { outcome, entries })
    }
}
