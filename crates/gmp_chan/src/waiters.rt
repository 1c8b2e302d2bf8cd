//! Who waits on channels. `Store` has each offer as a record of a slab, linked with the others of its channel and direction and with those
//! of its goroutine; `Waiters` is what a contract sees of it, one list in order.
//!
//! Rejected: a list of all who wait, at which each send would look; a fixed cell for each goroutine and case, of which 8 are looked at
//! where one is used.
ghost use Rattle.std.specs.Prelude.{◌≡◌, ◌<◌, ◌+◌, ◌*◌, ◌++◌, [], ◌∷◌, true, None, Some, IsSome, count_by, find, nat_lt, set, get_or, IfSome, IfNone, IfOk};
ghost use Rattle.gmp_seq.specs.declared.status.Waiter.{Waiter};
ghost use Rattle.gmp_seq.specs.Waits.{as_waiters, first_on, is_on};
ghost use Rattle.gmp_chan.specs.Contents.{WaiterContents, is_of, without};
ghost use Rattle.gmp_chan.specs.Kept.{AreBelow, queue_end};
ghost use Rattle.gmp_chan.specs.Order.{is_at, is_later, rise};
ghost use Rattle.gmp_chan.specs.Slots.{IsFirstSlot, IsLast, IsNowhere, IsThere, earlier_of, in_order};
ghost use Rattle.gmp_chan.specs.Stored.{IsStored};
ghost use Rattle.slab.specs.Slab.{slab_len};

use crate::rings::Rings;
use gmp_base::{CNo, GNo, MAX_CASES};
use gmp_seq::{Direction, Kind, Offers, Waiter};
use slab::Slab;
use std::alloc::{AllocError, Global};
use std::marker::Model;

/// The records, and their links by key. Nodes are the slab's slots, and then the ends: of the queues two for each channel, and of the
/// chains one for each goroutine. A queue has the offers on a channel in a direction, in order, and a chain those of a goroutine: so who is
/// served is found by the queue, and all of its offers are taken out by the chain.
#[derive(Drop)]
struct Store {
    records: Slab<Waiter>,
    queues: Rings,
    chains: Rings,
    bodies: u16,
    channels: u16,
}

/// The number of a queue's end among those of the queues.
fn queue_end(c: CNo, direction: Direction) -> usize
    ensures { result ≡ queue_end c direction }
{
    2 * c.0 as usize
        + match direction {
            Direction::Sending => 0,
            Direction::Receiving => 1,
        }
}

impl Store {
    /// Removes the record under this key, and links its neighbours in its queue and in its chain.
    fn take_out(&mut self, key: usize)
        requires kept { IsStored self.old }
        requires there { IsSome (get_or self.old.records.slots key None) }
        ensures kept { IsStored self.new }
        ensures slots { self.new.records.slots ≡ set self.old.records.slots key None }
        ensures len { slab_len self.new.records + 1 ≡ slab_len self.old.records }
        ensures bodies { self.new.bodies ≡ self.old.bodies }
        ensures channels { self.new.channels ≡ self.old.channels }
    {
        self.queues.unlink(key);
        self.chains.unlink(key);
        let _ = self.records.remove(key);
    }

    /// Puts in a record, last in its queue and in its chain: whoever begins to wait arrived later than all others, so no place has to be
    /// looked for.
    fn put_in(&mut self, w: Waiter)
        requires kept { IsStored self.old }
        requires known { w.g.0 < self.old.bodies }
        requires made { w.offer.channel.0 < self.old.channels }
        requires last { IsLast self.old.records.slots w }
        requires few { count_by (is_of w.g) (in_order self.old.records.slots) < 8 }
        ensures kept { IsStored self.new }
        ensures list { in_order self.new.records.slots ≡ in_order self.old.records.slots ++ w ∷ [] }
        ensures bodies { self.new.bodies ≡ self.old.bodies }
        ensures channels { self.new.channels ≡ self.old.channels }
    {
        // Nodes up to the capacity are slots, and the ends come behind.
        let base = self.records.capacity();
        let queue = base + queue_end(w.offer.channel, w.offer.deal.direction());
        let chain = base + w.g.0 as usize;
        let key = self.records.insert_reserved(w);
        self.queues.link_last(key, queue);
        self.chains.link_last(key, chain);
    }

    /// Who is first in the queue of the channel in this direction. The end's own node stands for nobody: it is no key of a record.
    fn first_in_queue(&self, c: CNo, direction: Direction) -> Option<Waiter>
        requires { IsStored self.now }
        ensures some { IfSome result (λ w. IsFirstSlot (is_on c direction) self.now.records.slots w) }
        ensures none { IfNone result (IsNowhere (is_on c direction) self.now.records.slots) }
    {
        if c.0 >= self.channels {
            return None;
        }
        let end = self.records.capacity() + queue_end(c, direction);
        // Of an empty ring this is the end, under which the slab has no record.
        let key = self.queues.first(end);
        self.records.get(key).copied()
    }

    /// The key of the first in the chain of goroutine g.
    fn first_in_chain(&self, g: GNo) -> Option<usize>
        requires { IsStored self.now }
        ensures some { IfSome result (λ key. IsThere (is_of g) self.now.records.slots key) }
        ensures none { IfNone result (IsNowhere (is_of g) self.now.records.slots) }
    {
        if g.0 >= self.bodies {
            return None;
        }
        let end = self.records.capacity() + g.0 as usize;
        let key = self.chains.first(end);
        match self.records.get(key) {
            Some(_) => Some(key),
            None => None,
        }
    }
}

/// The earlier of two, by arrival, and then by case. One select may wait in both directions on a channel, with one arrival.
fn earlier_of(a: Option<Waiter>, b: Option<Waiter>) -> Option<Waiter>
    ensures { result ≡ earlier_of a b }
{
    match (a, b) {
        (None, None) => None,
        (Some(v), None) => Some(v),
        (None, Some(w)) => Some(w),
        (Some(v), Some(w)) => {
            if v.arrival < w.arrival || (v.arrival == w.arrival && v.offer.case < w.offer.case) {
                Some(v)
            } else {
                Some(w)
            }
        }
    }
}

/// The waiters. A contract sees them by arrival, and then by case.
#[derive(Drop)]
pub(crate) struct Waiters {
    store: Store,
}

impl Model for Waiters {
    ghost use Rattle.gmp_chan.specs.Slots.{in_order};
    ghost use Rattle.gmp_chan.specs.Stored.{IsStored};
    ghost use Rattle.gmp_chan.specs.Contents.{WaiterContents};

    ghost Value = { WaiterContents };

    ghost view = { λ w. record { list = in_order w.store.records.slots; bodies = w.store.bodies; channels = w.store.channels } };

    // Each record is in the queue of its channel and direction and in the chain of its goroutine, in order, and nothing else is; a
    // goroutine has 8 at most.
    ghost invariant = { λ w. IsStored w.store };
}

impl Waiters {
    /// Nobody waits. There is room for 8 offers of each of so many goroutines, on any of so many channels: a goroutine waits once at a
    /// time, so no offer ever wants memory.
    pub(crate) fn open(alloc: Global, bodies: u16, channels: u16) -> Result<Self, AllocError>
        ensures { IfOk result (λ w. w ≡ record { list = []; bodies = bodies; channels = channels }) }
    {
        let records = Slab::with_capacity(alloc, MAX_CASES * bodies as usize)?;
        let base = records.capacity();
        let queues = Rings::open(alloc, base, 2 * channels as usize)?;
        let chains = Rings::open(alloc, base, bodies as usize)?;
        Ok(Waiters {
            store: Store {
                records,
                queues,
                chains,
                bodies,
                channels,
            },
        })
    }

    /// Who waits first on the channel in this direction.
    pub(crate) fn first_on(&self, c: CNo, direction: Direction) -> Option<Waiter>
        ensures { result ≡ first_on self.now.list c direction }
    {
        self.store.first_in_queue(c, direction)
    }

    /// Who waits first on the channel, in either direction.
    pub(crate) fn first_at(&self, c: CNo) -> Option<Waiter>
        ensures { result ≡ find (is_at c) self.now.list }
    {
        // Each queue is in order, so the first of both is one of two.
        let sender = self.store.first_in_queue(c, Direction::Sending);
        let receiver = self.store.first_in_queue(c, Direction::Receiving);
        earlier_of(sender, receiver)
    }

    /// How many goroutines there are.
    pub(crate) fn bodies(&self) -> u16
        ensures { result ≡ self.now.bodies }
    {
        self.store.bodies
    }

    /// Whether goroutine g has an offer.
    pub(crate) fn has(&self, g: GNo) -> bool
        ensures { result ≡ nat_lt 0 (count_by (is_of g) self.now.list) }
    {
        self.store.first_in_chain(g).is_some()
    }

    /// Whether this arrival is later than all. It looks at all records, and serves as a test for those who can't know.
    pub(crate) fn is_later(&self, arrival: u64) -> bool
        ensures { result ≡ is_later arrival self.now.list }
    {
        let records = &self.store.records;
        (0..records.capacity()).all(|key| match records.get(key) {
            Some(w) => w.arrival < arrival,
            None => true,
        })
    }

    /// Goroutine g begins to wait: each of its offers goes last in its queue.
    pub(crate) fn add(&mut self, g: GNo, arrival: u64, kind: Kind, offers: &Offers)
        requires known { g.0 < self.old.bodies }
        requires fresh { count_by (is_of g) self.old.list ≡ 0 }
        requires later { is_later arrival self.old.list ≡ true }
        requires rising { rise offers.now ≡ true }
        requires made { AreBelow self.old.channels offers.now }
        ensures list { self.new.list ≡ self.old.list ++ as_waiters g arrival kind offers.now }
        ensures bodies { self.new.bodies ≡ self.old.bodies }
        ensures channels { self.new.channels ≡ self.old.channels }
    {
        for offer in offers.as_slice() {
            self.store.put_in(Waiter {
                g,
                arrival,
                kind,
                offer: *offer,
            });
        }
    }

    /// Goroutine g waits no more: its offers are taken out one by one, 8 at most, each in constant time.
    pub(crate) fn withdraw(&mut self, g: GNo)
        ensures list { self.new.list ≡ without g self.old.list }
        ensures bodies { self.new.bodies ≡ self.old.bodies }
        ensures channels { self.new.channels ≡ self.old.channels }
    {
        // Each turn takes one out, so the loop ends with the last of g's.
        while let Some(key) = self.store.first_in_chain(g) {
            self.store.take_out(key);
        }
    }
}
