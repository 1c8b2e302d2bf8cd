//! The status table: rows and shelf, and how many waits began and what the clock shows.
//!
//! A goroutine's way: dormant, ready (`start`, `spawn`, or the opening for main), running (`claim`), and then waiting (`wait`) or in a blocking call
//! (`enter`), from which it comes back ready or running (`ready`, `requeue`, `leave`), until it is dead (`dead`), from which `spawn` may start it anew. While it is ready its
//! ticket is on the shelf or out (`shelve`, `unshelve`), and its epoch is the number of times that it was made ready.
ghost use Rattle.std.specs.Prelude.{◌≡◌, ◌<◌, ◌^◌, true, false, Some, [], ◌∷◌, ◌++◌, max, position, slice_get, option_copied, length, IfOk, IfSome, IfNone};
ghost use Rattle.std.specs.Option.{option_map_or};
ghost use Rattle.gmp_base.specs.declared.ask.Woke.{Woke};
ghost use Rattle.gmp_seq.specs.declared.call.Reply.{Reply};
ghost use Rattle.gmp_base.specs.declared.ask.Fault.{Fault};
ghost use Rattle.gmp_base.specs.declared.number.GNo.{GNo};
ghost use Rattle.gmp_seq.specs.declared.status.Goroutine.{Goroutine};
ghost use Rattle.gmp_seq.specs.Step.{Takes, Puts, Claims, Spawns, Starts};
ghost use Rattle.gmp_seq.specs.Table.{IsReady, IsOffShelf, status_at, epoch_at, next_of, some_status, is_running_on, is_shelved, is_astir, is_ready_or_running, is_outstanding, is_startable, least_deadline, set_status, made_ready, made_wait};
ghost use Rattle.gmp_table.specs.Kept.{IsListing, count_status};
ghost use Rattle.gmp_table.specs.Contents.{TableContents, opening_contents};
ghost use Rattle.gmp_table.specs.declared.wake.Wake.{Wake};
ghost use Rattle.gmp_table.specs.Waking.{IsFirst};

use crate::rows::Rows;
use crate::wake::Candidate;
use circular_buffer::HeapCircularBuffer;
use gmp_base::{GNo, MNo, Readiness, Woke};
use gmp_seq::{Goroutine, Kind, Offers, Status, TicketPlace, Wait};
use std::alloc::{AllocError, Global};
use std::marker::Model;

/// The goroutines and the shelf, first in, first out. A contract sees the table, and the shelf in order.
///
/// Only the opening takes memory. The shelf is a ring with room for every goroutine, so that a yield or a tick is never refused for want of
/// it; a list that grows, or a filter of the rows for those on the shelf, would either need memory or look at all goroutines.
#[derive(Drop)]
pub struct StatusTable {
    rows: Rows,
    /// Who is on the shelf, the first first. The ticket's epoch is in the row.
    shelf: HeapCircularBuffer<GNo>,
    /// How many waits began.
    arrivals: u64,
    /// The latest moment that was told, in nanoseconds: it never goes back.
    clock: u64,
}

impl Model for StatusTable {
    ghost use Rattle.gmp_table.specs.Contents.{TableContents};
    ghost use Rattle.gmp_table.specs.Kept.{IsTable};

    ghost Value = { TableContents };

    ghost view = { λ t. record { table = record { goroutines = t.rows; arrivals = t.arrivals; clock = t.clock }; shelf = t.shelf.items } };

    // On the shelf is each goroutine whose status says so, once, and there is room for all.
    ghost invariant = { λ t. IsTable t.rows t.shelf.items t.shelf.capacity };
}

impl StatusTable {
    /// All goroutines are dormant, but goroutine 0, which is main, is on the shelf. Room is made for all of them.
    pub fn open(alloc: Global, bodies: u16) -> Result<Self, AllocError>
        requires { 0 < bodies }
        ensures { IfOk result (λ t. t ≡ opening_contents bodies) }
    {
        let mut rows = Rows::dormant(alloc, bodies)?;
        let mut shelf = HeapCircularBuffer::with_capacity(alloc, bodies as usize)?;
        rows.rise(GNo(0), TicketPlace::Shelf, Woke::First);
        shelf.push_back(GNo(0));
        Ok(StatusTable {
            rows,
            shelf,
            arrivals: 0,
            clock: 0,
        })
    }

    /// How many goroutines there are.
    pub fn len(&self) -> u16
        ensures { result ≡ length self.now.table.goroutines }
    {
        self.rows.len()
    }

    /// What g does and how often it became ready, if there is such a goroutine.
    pub fn get(&self, g: GNo) -> Option<&Goroutine>
        ensures { option_copied result ≡ slice_get self.now.table.goroutines g.0 }
    {
        self.rows.get(g)
    }

    /// All goroutines, by number.
    pub fn rows(&self) -> &[Goroutine]
        ensures { result.now ≡ self.now.table.goroutines }
    {
        self.rows.as_slice()
    }

    /// The latest moment that a tick told, in nanoseconds.
    pub fn clock(&self) -> u64
        ensures { result ≡ self.now.table.clock }
    {
        self.clock
    }

    /// Whether somebody is on the shelf.
    pub fn has_shelved(&self) -> bool
        ensures some { result ≡ some_status is_shelved self.now.table }
        // The shelf has each goroutine on it once, and no other.
        ensures listing { IsListing is_shelved self.now.table.goroutines self.now.shelf }
    {
        !self.shelf.is_empty()
    }

    /// Whether somebody is ready or running. While somebody is, no park has to mind a deadline.
    pub fn has_going(&self) -> bool
        ensures { result ≡ some_status is_ready_or_running self.now.table }
    {
        self.rows.any_going()
    }

    /// How many are ready or running.
    pub fn count_going(&self) -> usize
        ensures { result ≡ count_status is_ready_or_running self.now.table.goroutines }
    {
        self.rows.count_going()
    }

    /// Whether somebody is ready, running or calling, or waits with a deadline. If not, all are asleep for good.
    pub fn has_astir(&self) -> bool
        ensures { result ≡ some_status is_astir self.now.table }
    {
        // By counts: no row is looked at.
        self.rows.any_going() | self.rows.any_calling() | self.rows.any_timed()
    }

    /// The least deadline of all that wait, in nanoseconds.
    pub fn least_deadline(&self) -> Option<u64>
        ensures { result ≡ least_deadline self.now.table }
    {
        self.rows.least_deadline()
    }

    /// Whether the ticket of this readiness is given out, and not yet claimed or put back. Any other ticket is refused above: it is spent,
    /// on the shelf, or was never given out.
    pub fn is_outstanding(&self, r: Readiness) -> bool
        ensures { result ≡ is_outstanding self.now.table r }
    {
        match self.get(r.g) {
            Some(
                Goroutine {
                    status: Status::Ready(TicketPlace::Out, _),
                    epoch,
                },
            ) => *epoch == r.epoch,
            _ => false,
        }
    }

    /// Whether m runs g.
    pub fn runs(&self, m: MNo, g: GNo) -> bool
        ensures { result ≡ option_map_or (is_running_on m) (status_at self.now.table g) false }
    {
        match self.get(g) {
            Some(row) => row.status.is_running_on(m),
            None => false,
        }
    }

    /// How many waits began so far. This is the arrival of the next.
    pub fn arrivals(&self) -> u64
        ensures { result ≡ self.now.table.arrivals }
    {
        self.arrivals
    }

    /// Who of those whose deadline is at this moment, in nanoseconds, or before is woken first, by deadline and then by arrival, and what
    /// it is told. Only who is soonest of all can be; who waits without a deadline is never.
    pub fn due(&self, now: u64) -> Option<Candidate>
        ensures first { IsFirst (Wake.Due now) self.now.table.goroutines (length self.now.table.goroutines) result }
        // So few can be woken.
        ensures few { length self.now.table.goroutines < 2 ^ 16 }
    {
        self.rows.due(now)
    }

    /// Gives out the ticket of the goroutine that is on the shelf for longest. The definitions let it be any; that nobody is passed over is
    /// this crate's promise.
    pub fn unshelve(&mut self) -> Option<Readiness>
        ensures none { IfNone result (Takes Reply.Nothing self.old.table self.new.table) }
        ensures taken { IfSome result (λ r. Takes (Reply.Ticket r) self.old.table self.new.table) }
        ensures empty { IfNone result ((self.old.shelf ≡ []) × (self.new.shelf ≡ [])) }
        ensures first { IfSome result (λ r. self.old.shelf ≡ r.g ∷ self.new.shelf) }
    {
        // The answer stands in the row, and stays: the shelf has numbers alone, so both can't differ.
        let g = self.shelf.pop_front()?;
        self.rows.move_ticket(g, TicketPlace::Out);
        Some(Readiness {
            g,
            epoch: self.rows.epoch(g),
        })
    }

    /// Puts a ticket that is out onto the shelf, last. The epoch stays, since it is the same time of being ready.
    pub fn shelve(&mut self, r: Readiness)
        requires { is_outstanding self.old.table r ≡ true }
        ensures puts { Puts r Reply.Shelf self.old.table self.new.table }
        ensures last { self.new.shelf ≡ self.old.shelf ++ r.g ∷ [] }
    {
        self.rows.move_ticket(r.g, TicketPlace::Shelf);
        self.shelf.push_back(r.g);
    }

    /// Spends a ticket that is out: m runs its goroutine, which is to be told the answer. Its epoch stays, and is never given out again.
    pub fn claim(&mut self, m: MNo, r: Readiness) -> Woke
        requires { is_outstanding self.old.table r ≡ true }
        ensures claims { Claims m r Reply.Held self.old.table self.new.table }
        ensures answer { IsReady self.old.table r TicketPlace.Out result }
        ensures shelf { self.new.shelf ≡ self.old.shelf }
    {
        let woke = self.rows.answer(r.g).unwrap();
        self.rows.put_status(r.g, Status::Running(m));
        woke
    }

    /// Starts a dormant goroutine: it is ready, and its ticket is given out.
    pub fn start(&mut self, g: GNo) -> Readiness
        requires dormant { status_at self.old.table g ≡ Some Status.Dormant }
        requires young { epoch_at self.old.table g < 2 ^ 63 }
        ensures g { result.g ≡ g }
        ensures starts { Starts g (Reply.Ticket result) self.old.table self.new.table }
        ensures shelf { self.new.shelf ≡ self.old.shelf }
    {
        self.ready(g, Woke::First)
    }

    /// Starts the least goroutine that is dormant or dead, if there is one: it is ready, and its ticket is given out. The definitions let it be
    /// any.
    pub fn spawn(&mut self) -> Option<Readiness>
        requires young { (g : GNo) → epoch_at self.old.table g < 2 ^ 63 }
        ensures none { IfNone result (Spawns (Reply.Fault Fault.NoSuchBody) self.old.table self.new.table) }
        ensures spawns { IfSome result (λ r. Spawns (Reply.Ticket r) self.old.table self.new.table) }
        ensures least { IfSome result (λ r. position (λ (x : Goroutine). is_startable x.status) self.old.table.goroutines ≡ Some r.g.0) }
        ensures shelf { self.new.shelf ≡ self.old.shelf }
    {
        let g = self.rows.least_startable()?;
        Some(self.ready(g, Woke::First))
    }

    /// Makes a goroutine ready, its ticket given out to the machine that makes the call: one that starts, or stops waiting since it was
    /// served or readied.
    pub fn ready(&mut self, g: GNo, woke: Woke) -> Readiness
        requires off { IsOffShelf self.old.table g }
        requires young { epoch_at self.old.table g < 2 ^ 63 }
        ensures ticket { result ≡ next_of self.old.table g }
        ensures table { self.new.table ≡ made_ready self.old.table g TicketPlace.Out woke }
        ensures shelf { self.new.shelf ≡ self.old.shelf }
    {
        let epoch = self.rows.rise(g, TicketPlace::Out, woke);
        Readiness { g, epoch }
    }

    /// Makes a goroutine ready on the shelf, last: one that yields, that a close or a tick wakes, or that comes back from a blocking call
    /// and finds no processor. A close or a tick may wake as many as there are, for which a reply has no room, and the shelf has.
    pub fn requeue(&mut self, g: GNo, woke: Woke) -> Readiness
        requires off { IsOffShelf self.old.table g }
        requires young { epoch_at self.old.table g < 2 ^ 63 }
        ensures ticket { result ≡ next_of self.old.table g }
        ensures table { self.new.table ≡ made_ready self.old.table g TicketPlace.Shelf woke }
        ensures last { self.new.shelf ≡ self.old.shelf ++ g ∷ [] }
    {
        let epoch = self.rows.rise(g, TicketPlace::Shelf, woke);
        self.shelf.push_back(g);
        Readiness { g, epoch }
    }

    /// Ends a goroutine that is off the shelf. A spawn may start it again.
    pub fn dead(&mut self, g: GNo)
        requires { IsOffShelf self.old.table g }
        ensures table { self.new.table ≡ set_status self.old.table g Status.Dead }
        ensures shelf { self.new.shelf ≡ self.old.shelf }
    {
        self.rows.put_status(g, Status::Dead);
    }

    /// A goroutine that is off the shelf goes into a blocking call, which m makes.
    pub fn enter(&mut self, m: MNo, g: GNo)
        requires { IsOffShelf self.old.table g }
        ensures table { self.new.table ≡ set_status self.old.table g (Status.Calling m) }
        ensures shelf { self.new.shelf ≡ self.old.shelf }
    {
        self.rows.put_status(g, Status::Calling(m));
    }

    /// A goroutine that is off the shelf comes back from its blocking call, and m runs it. One that finds no processor is requeued.
    pub fn leave(&mut self, m: MNo, g: GNo)
        requires { IsOffShelf self.old.table g }
        ensures table { self.new.table ≡ set_status self.old.table g (Status.Running m) }
        ensures shelf { self.new.shelf ≡ self.old.shelf }
    {
        self.rows.put_status(g, Status::Running(m));
    }

    /// A goroutine that is off the shelf begins to wait, with these offers, until this moment, in nanoseconds. That the offers stand with
    /// their channels too is the caller's to do.
    pub fn wait(&mut self, g: GNo, kind: Kind, offers: Offers, until: Option<u64>)
        requires off { IsOffShelf self.old.table g }
        requires few { self.old.table.arrivals < 2 ^ 63 }
        ensures table { self.new.table ≡ made_wait self.old.table g kind offers until }
        ensures shelf { self.new.shelf ≡ self.old.shelf }
    {
        let arrival = self.arrivals;
        self.rows.put_status(
            g,
            Status::Waiting(Wait {
                arrival,
                kind,
                offers,
                until,
            }),
        );
        self.arrivals = arrival + 1;
    }

    /// Lets the clock show this moment, in nanoseconds, unless it showed a later one, and answers what it shows. Machines read the clock
    /// before they make the call, so an earlier moment may come after a later one.
    pub fn advance_clock(&mut self, moment: u64) -> u64
        ensures shown { result ≡ max self.old.table.clock moment }
        ensures table { self.new ≡ record self.old { table = record self.old.table { clock = result } } }
    {
        let shown = self.clock.max(moment);
        self.clock = shown;
        shown
    }
}
