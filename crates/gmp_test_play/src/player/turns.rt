//! A line of a machine: a call, and what it is answered, an entry or a refusal. `Turn` is the call that was made.

use super::{Desk, Player};
use crate::error::PlayError;
use crate::hand::Hand;
use crate::told::text_of;
use crate::words::{first, line_of, number};
use gmp_base::Refusal;
use gmp_journal::memory_for;
use gmp_seq::{Call, Reply};
use gmp_trace::{put_entry, read_call};

/// A call that was made: what its machine had in hand before and behind it, and its answer.
#[derive(Clone, Copy)]
struct Turn {
    before: Hand,
    after: Hand,
    answer: Result<Reply, Refusal>,
}

impl Player {
    /// A line that begins with the number of a machine, or of an entry. What the goroutine is told may follow it.
    pub(super) fn numbered(&mut self, book: &mut Desk, line: &str) -> Result<(), PlayError> {
        let (line, told) = match line.split_once(" = ") {
            Some((line, told)) => (line, Some(told)),
            None => (line, None),
        };
        let (word, rest) = first(line);
        let (place, text) = first(rest);
        if let Some((m, _)) = place.split_once('.') {
            let m = number(m)?;
            self.asks(book, m, text, line)?;
            return self.is_told(m, told);
        }
        let m = number(word)?;
        let (_, calls, _) = self.hand(m)?.pass;
        let entry = format!(in self.alloc; "{} {m}.{calls} {rest}", self.entries(book))?;
        self.asks(book, m, rest, entry.as_str())?;
        self.is_told(m, told)
    }

    /// Where the line says what the goroutine is told, it is.
    fn is_told(&self, m: u64, told: Option<&str>) -> Result<(), PlayError> {
        let Some(told) = told else {
            return Ok(());
        };
        let said = text_of(self.alloc, self.hand(m)?.woke)?;
        if said.as_str() == told {
            Ok(())
        } else {
            Err(PlayError::Says(said))
        }
    }

    /// The machine makes the call of the text, and is answered so: by this entry, or by the refusal that the text has.
    fn asks(&mut self, book: &mut Desk, m: u64, text: &str, entry: &str) -> Result<(), PlayError> {
        let entries = book.history().len();
        if let Some((call, refusal)) = text.split_once(" !") {
            let turn = self.makes(book, m, call)?;
            return self.is_refused(book, turn, number(refusal)?, entries);
        }
        let Some((call, _)) = text.split_once(" -> ") else {
            return Err(PlayError::Unreadable);
        };
        let turn = self.makes(book, m, call)?;
        self.is_entered(book, turn, entry)
    }

    /// The machine makes the call.
    fn makes(&mut self, book: &mut Desk, m: u64, text: &str) -> Result<Turn, PlayError> {
        let mut before = self.hand(m)?;
        let Some(call) = read_call(self.alloc, text.as_bytes())? else {
            return Err(PlayError::Unreadable);
        };
        before.ticket = match &call {
            Call::Put(r) | Call::Claim(r) => Some((self.tickets, *r)),
            _ => None,
        };
        let mut hand = before;
        let Some(values) = hand.gives(&call, self.tickets) else {
            return Err(PlayError::EmptyHanded);
        };
        let mut pass = hand.pass();
        let memory = memory_for(&call, self.alloc);
        let (values, answer) = book.call(memory, &mut pass, call, values, self.word);
        hand.keeps(pass, values);
        self.put_hand(hand);
        self.calls = self.calls.wrapping_add(1);
        Ok(Turn {
            before,
            after: hand,
            answer,
        })
    }

    /// The call is refused with this number, and all is as it was.
    fn is_refused(
        &self,
        book: &Desk,
        turn: Turn,
        number: u64,
        entries: usize,
    ) -> Result<(), PlayError> {
        match turn.answer {
            Ok(_) => Err(PlayError::Says(self.last_line(book)?)),
            Err(why) if u64::from(why.number()) != number => Err(PlayError::Refused(
                why,
                why.number(),
            )),
            Err(_) if turn.after == turn.before && book.history().len() == entries => Ok(()),
            Err(_) => Err(PlayError::Changed),
        }
    }

    /// The call is accepted: the last entry is this one, with the answer for its reply, and the machine has what these leave it.
    fn is_entered(&self, book: &Desk, turn: Turn, entry: &str) -> Result<(), PlayError> {
        let reply = match turn.answer {
            Ok(reply) => reply,
            Err(why) => return Err(PlayError::Refused(why, why.number())),
        };
        let said = self.last_line(book)?;
        if said.as_str() != entry {
            return Err(PlayError::Says(said));
        }
        let history = book.history();
        let want = turn
            .before
            .after(self.run, reply, self.entries(book) as u64);
        let woke = turn.after.woke;
        let is_left = turn.after == Hand { woke, ..want };
        match history.last() {
            Some(last) if is_left && last.reply == reply => Ok(()),
            _ => Err(PlayError::Astray),
        }
    }

    /// The last entry, as a trace writes it.
    fn last_line(&self, book: &Desk) -> Result<String, PlayError> {
        let mut text = Vec::new(self.alloc);
        if let Some(entry) = book.history().last() {
            let number = (self.entries(book) as u64).wrapping_sub(1);
            put_entry(&mut text, number, &entry)?;
        }
        line_of(text)
    }
}
