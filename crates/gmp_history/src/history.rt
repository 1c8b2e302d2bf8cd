//! The history: its rows, made brief, beside the vectors of what is wide. Entries are added at the end and never changed.
ghost use Rattle.std.specs.Prelude.{◌≡◌, ◌<◌, ◌≤◌, ◌-◌, ◌^◌, ◌↔◌, IsTrue, [], ◌∷◌, ◌++◌, length, map, slice_get, true, false, Some, IfOk, IsOk, OnOk};
ghost use Rattle.gmp_seq.specs.declared.call.Entry.{Entry};
ghost use Rattle.gmp_seq.specs.Fits.{Fits};
ghost use Rattle.gmp_history.specs.Brief.{is_select};
ghost use Rattle.gmp_history.specs.Heads.{head_of};

use crate::brief::{Choosing, Row, Served};
use crate::calls::{brief_call, whole_call};
use crate::entries::Entries;
use crate::heads::Heads;
use crate::replies::{brief_reply, whole_reply};
use gmp_base::MNo;
use gmp_seq::{Call, Entry, Reply};
use std::alloc::{AllocError, Global};
use std::marker::Model;

/// A list of entries. A contract sees the list, for how many there is room, and for how many there is once all are let go.
///
/// Only `with_room`, `make_room` and `of` take memory. What is not written is not touched: to write to each page at the opening would cost
/// the same, and a run that ends early would pay for its limit.
#[derive(Debug, Drop)]
pub struct History {
    rows: Vec<Row>,
    /// What selects asked, in order.
    choosings: Vec<Choosing>,
    /// What receives got that served a waiting sender, in order.
    served: Vec<Served>,
    /// For how many entries there is room, in each of the three.
    room: u32,
    /// For how many there is once all are let go. Room that was made entry by entry is no room for as many of the wide ones, so of a
    /// history that grew it is what it was opened with.
    lasting: u32,
}

impl Model for History {
    ghost use Rattle.std.specs.Prelude.{vec_capacity};
    ghost use Rattle.gmp_history.specs.Brief.{HistoryContents, entries_of};
    ghost use Rattle.gmp_history.specs.Kept.{IsHistory};

    ghost Value = { HistoryContents };

    ghost view = { λ h. record { list = entries_of h.choosings.items h.served.items h.rows.items; room = h.room; lasting = h.lasting } };

    // Each number that a row has is one of its vector, which has no more than there are rows, and in each of the three there is room for as
    // many entries as `room` says.
    ghost invariant = { λ h. IsHistory h.rows.items h.choosings.items h.served.items h.room h.lasting (vec_capacity h.rows) (vec_capacity h.choosings) (vec_capacity h.served) };
}

/// The row at this place, if there is one.
fn row_at(rows: &[Row], place: usize) -> Option<Row>
    ensures { result ≡ slice_get rows.now place }
{
    rows.get(place).copied()
}

impl History {
    /// No entry, and room for so many, whatever they are: as many places for each of the three vectors, 240 bytes an entry.
    pub fn with_room(alloc: Global, room: u32) -> Result<Self, AllocError>
        ensures { IfOk result (λ h. h ≡ record { list = []; room = room; lasting = room }) }
    {
        Ok(History {
            rows: Vec::with_capacity(alloc, room as usize)?,
            choosings: Vec::with_capacity(alloc, room as usize)?,
            served: Vec::with_capacity(alloc, room as usize)?,
            room,
            lasting: room,
        })
    }

    /// No entry, and no room.
    pub fn new(alloc: Global) -> Self
        ensures { result ≡ record { list = []; room = 0; lasting = 0 } }
    {
        History {
            rows: Vec::new(alloc),
            choosings: Vec::new(alloc),
            served: Vec::new(alloc),
            room: 0,
            lasting: 0,
        }
    }

    /// These entries, copied. It is refused where memory is.
    pub fn of(alloc: Global, entries: &[Entry]) -> Result<Self, AllocError>
        ensures { IfOk result (λ h. h.list ≡ entries.now) }
    {
        let mut history = History::new(alloc);
        for entry in entries {
            history.make_room()?;
            history.push(entry.m, entry.k, &entry.call, &entry.reply);
        }
        Ok(history)
    }

    /// Makes room for one more, by memory where that is wanted. It is refused where memory is, and behind 4,294,967,295 entries. For
    /// readers of a trace, which don't know how many come; a book has its room from the opening.
    pub fn make_room(&mut self) -> Result<(), AllocError>
        ensures list { self.new.list ≡ self.old.list }
        ensures ok { OnOk result (length self.new.list < self.new.room) }
        // Where there is room already it is not refused.
        ensures had { length self.old.list < self.old.room → IsOk result }
        ensures room { self.old.room ≤ self.new.room }
        ensures lasting { self.new.lasting ≡ self.old.lasting }
    {
        let len = self.rows.len();
        if len >= u32::MAX as usize {
            return Err(AllocError);
        }
        // Each of the three may be the one that the next entry needs. Refused, some may have more room than before, and no entry has
        // changed.
        self.rows.reserve(1)?;
        self.choosings.reserve(1)?;
        self.served.reserve(1)?;
        self.room = self.room.max(len as u32 + 1);
        Ok(())
    }

    /// How many entries there are.
    pub fn len(&self) -> usize
        ensures value { result ≡ length self.now.list }
        ensures few { result < 2 ^ 32 }
    {
        self.rows.len()
    }

    /// Whether there is no entry.
    pub fn is_empty(&self) -> bool
        ensures { IsTrue result ↔ (length self.now.list ≡ 0) }
    {
        self.rows.is_empty()
    }

    /// Lets all entries go, and keeps the room that lasts. It takes no memory.
    pub fn clear(&mut self)
        ensures { self.new ≡ record { list = []; room = self.old.lasting; lasting = self.old.lasting } }
    {
        self.rows.clear();
        self.choosings.clear();
        self.served.clear();
        self.room = self.lasting;
    }

    /// Adds an entry at the end. The parts are copied from where they lie.
    #[inline(always)]
    pub fn push(&mut self, m: MNo, k: u64, call: &Call, reply: &Reply)
        requires { length self.old.list < self.old.room }
        ensures list { self.new ≡ record self.old { list = self.old.list ++ record { m = m; k = k; call = call.now; reply = reply.now } ∷ [] } }
        ensures fits { Fits (record { m = m; k = k; call = call.now; reply = reply.now }) }
    {
        self.add(m, k, call, reply, false);
    }

    /// The same. Of a call that is known to be plain, which is no select, no wide arm is compiled in: told as a constant, `is_plain`
    /// decides the match when the program is compiled.
    #[inline(always)]
    pub fn add(&mut self, m: MNo, k: u64, call: &Call, reply: &Reply, is_plain: bool)
        requires room { length self.old.list < self.old.room }
        requires plain { is_plain ≡ true → is_select call.now ≡ false }
        ensures list { self.new ≡ record self.old { list = self.old.list ++ record { m = m; k = k; call = call.now; reply = reply.now } ∷ [] } }
        ensures fits { Fits (record { m = m; k = k; call = call.now; reply = reply.now }) }
    {
        // What is wide goes first, so that the row has its number.
        let call = brief_call(&mut self.choosings, call, is_plain);
        let reply = brief_reply(&mut self.served, reply);
        self.rows.push_reserved(Row {
            m,
            call: call.kind,
            reply: reply.kind,
            reply_small: reply.small,
            call_number: call.number,
            reply_number: reply.number,
            k,
            call_word: call.word,
            reply_word: reply.word,
        });
    }

    /// The entries, in order.
    pub fn iter(&self) -> Entries<'_>
        ensures list { result ≡ self.now.list }
        ensures few { length self.now.list < 2 ^ 32 }
    {
        Entries {
            rows: &self.rows,
            choosings: &self.choosings,
            served: &self.served,
        }
    }

    /// Whose each entry is and which call it makes, in order.
    pub fn heads(&self) -> Heads<'_>
        ensures list { result ≡ map head_of self.now.list }
        ensures few { length self.now.list < 2 ^ 32 }
    {
        Heads { rows: &self.rows }
    }

    /// The last entry, if there is one.
    pub fn last(&self) -> Option<Entry>
        ensures { result ≡ slice_get self.now.list (length self.now.list - 1) }
    {
        // Of none the place is beyond all, where there is no entry.
        self.get(self.rows.len().wrapping_sub(1))
    }

    /// The entry at this place, from 0, if there is one. It is made whole, and a select's cases are copied.
    #[inline(always)]
    pub fn get(&self, place: usize) -> Option<Entry>
        ensures { result ≡ slice_get self.now.list place }
    {
        match row_at(&self.rows, place) {
            Some(row) => Some(Entry {
                m: row.m,
                k: row.k,
                call: whole_call(&self.choosings, row.brief_call()),
                reply: whole_reply(&self.served, row.brief_reply()),
            }),
            None => None,
        }
    }
}
