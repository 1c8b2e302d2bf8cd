//! The deadlines of those who wait, in order, so that the least is found with no scan: `Deadline` is one, `Deadlines` the list of all.
//!
//! A vector in order, and no heap or wheel: a wait may end early, served by a channel, and then its deadline has to be found again, which a
//! heap can't be searched for.
ghost use Rattle.std.specs.Prelude.{◌≡◌, ◌+◌, ◌<◌, ◌≤◌, ◌==◌, ◌⊎◌, ◌↔◌, ◌≢◌, [], Some, true, false, length, is_some, Contains, All, IfOk, IfSome, IfNone};
ghost use Rattle.std.specs.List.Sorted.{IsPartitionPoint};
ghost use Rattle.gmp_table.specs.Due.{DueContents, deadline_in, is_sooner};
ghost use Rattle.gmp_table.specs.Kept.{tally};

use crate::wake::Rank;
use gmp_base::GNo;
use gmp_seq::Status;
use std::alloc::{AllocError, Global};
use std::marker::Model;

/// When a goroutine stops waiting. By the rank it is woken; the goroutine's number makes each of them different.
#[derive(Clone, Copy, Debug, PartialEq, Eq)]
pub(crate) struct Deadline {
    pub rank: Rank,
    pub g: GNo,
}

impl Deadline {
    /// That of a goroutine, where it waits with one.
    #[inline(always)]
    pub(crate) fn of(g: GNo, status: &Status) -> Option<Deadline>
        ensures { result ≡ deadline_in g status.now }
    {
        let Status::Waiting(wait) = status else {
            return None;
        };
        let moment = wait.until?;
        let arrival = wait.arrival;
        Some(Deadline {
            rank: Rank { moment, arrival },
            g,
        })
    }

    /// By moment, then arrival, then number: a total order, so that each has one place.
    fn is_sooner(self, other: Deadline) -> bool
        ensures { result ≡ is_sooner self other }
    {
        // The numbers decide between equal ranks, of which a run has none.
        self.rank.is_before(other.rank)
            || (!other.rank.is_before(self.rank) && self.g.0 < other.g.0)
    }
}

/// The latest stands first, so that the least is taken off the end: a tick moves none of the others. A contract sees the list, and how many
/// have room.
#[derive(Drop)]
pub(crate) struct Deadlines {
    list: Vec<Deadline>,
}

impl Model for Deadlines {
    ghost use Rattle.std.specs.Prelude.{vec_capacity};
    ghost use Rattle.gmp_table.specs.Due.{DueContents, IsLatestFirst};

    ghost Value = { DueContents };

    ghost view = { λ d. record { list = d.list.items; room = vec_capacity d.list } };

    // Each is later than the next one.
    ghost invariant = { λ d. IsLatestFirst d.list.items };
}

impl Deadlines {
    /// None, with room for so many.
    pub(crate) fn open(alloc: Global, room: u16) -> Result<Self, AllocError>
        ensures { IfOk result (λ d. d ≡ record { list = []; room = room }) }
    {
        let list = Vec::with_capacity(alloc, room as usize)?;
        Ok(Deadlines { list })
    }

    /// Whether nobody waits with a deadline.
    pub(crate) fn is_empty(&self) -> bool
        ensures { result ≡ (length self.now.list == 0) }
    {
        self.list.is_empty()
    }

    /// The soonest.
    pub(crate) fn least(&self) -> Option<Deadline>
        ensures none { IfNone result (self.now.list ≡ []) }
        ensures there { IfSome result (λ d. Contains self.now.list d) }
        ensures least { IfSome result (λ d. All (λ x. is_sooner x d ≡ false) self.now.list) }
    {
        self.list.last().copied()
    }

    /// How many are later than x, found by halves.
    fn place(&self, x: Deadline) -> usize
        ensures within { result ≤ length self.now.list }
        ensures later { IsPartitionPoint (λ y. is_sooner x y ≡ true) (λ y. is_sooner x y ≡ false) self.now.list result }
    {
        self.list.partition_point(|y| x.is_sooner(*y))
    }

    /// Puts one in its place, if one is given. Those that are sooner move down; the room is there from the opening.
    #[inline(always)]
    pub(crate) fn add(&mut self, x: Option<Deadline>)
        requires new { IfSome x (λ d. Contains self.old.list d → ⊥) }
        requires room { length self.old.list + tally (is_some x) ≤ self.old.room }
        ensures each { (d : Deadline) → Contains self.new.list d ↔ ((x ≡ Some d) ⊎ Contains self.old.list d) }
        ensures size { length self.new.list ≡ length self.old.list + tally (is_some x) }
        ensures room { self.new.room ≡ self.old.room }
    {
        let Some(x) = x else {
            return;
        };
        let i = self.place(x);
        // It isn't refused: there is room for one of each goroutine.
        self.list.insert(i, x).unwrap();
    }

    /// Takes one out, if one is given: it is found by halves, and those that are sooner move up.
    #[inline(always)]
    pub(crate) fn withdraw(&mut self, x: Option<Deadline>)
        requires there { IfSome x (λ d. Contains self.old.list d) }
        ensures each { (d : Deadline) → Contains self.new.list d ↔ (Contains self.old.list d × (x ≢ Some d)) }
        ensures size { length self.new.list + tally (is_some x) ≡ length self.old.list }
        ensures room { self.new.room ≡ self.old.room }
    {
        let Some(x) = x else {
            return;
        };
        let i = self.place(x);
        // Of those that aren't later the first is x itself, since no two are the same.
        self.list.remove(i);
    }
}
