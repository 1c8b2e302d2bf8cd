//! The local queues: one ring of tickets for each processor.
//! Not those of gmp_queue, which are for threads: here one act comes after another, so a ring will do, and its contract says what it holds.
ghost use Rattle.std.specs.Prelude.{◌≡◌, ◌<◌, [], ◌∷◌, ◌++◌, drop, length, replicate, slice_get, slice_index_or, slice_set, IfOk};
ghost use Rattle.circular_buffer.specs.Buffer.{buffer};
ghost use Rattle.gmp_core.specs.Queues.{Pops};

use circular_buffer::HeapCircularBuffer;
use gmp_base::{PNo, Readiness};
use std::alloc::{AllocError, Global};
use std::marker::Model;

/// A queue of tickets for each processor. A contract sees the lists of them, first to last, and for how many each has room.
///
/// All its memory is taken in `open`.
#[derive(Drop)]
pub(crate) struct Queues {
    /// Processor p's is at place p. Tickets in them are plain parts and go with them: one that is out keeps nothing back, so none is
    /// surrendered at the end.
    rings: Vec<HeapCircularBuffer<Readiness>>,
    /// Of each: as many as there are bodies, so no push finds a full queue.
    room: u16,
}

impl Model for Queues {
    ghost use Rattle.std.specs.Prelude.{◌<◌, ◌^◌, map, All};
    ghost use Rattle.gmp_base.specs.declared.number.Readiness.{Readiness};
    ghost use Rattle.circular_buffer.specs.Buffer.{Buffer};
    ghost use Rattle.gmp_core.specs.Queues.{HasRoom, Rings};

    ghost Value = { Rings };

    ghost view = { λ q. record { queues = map (λ (b : Buffer Readiness). b.items) q.rings.items; room = q.room } };

    ghost invariant = { λ q. (q.room < 2 ^ 16) × All (HasRoom q.room) q.rings.items };
}

/// Takes the first ticket of a ring out.
fn take_first(ring: &mut HeapCircularBuffer<Readiness>) -> Option<Readiness>
    ensures first { result ≡ slice_get ring.old.items 0 }
    ensures rest { ring.new ≡ buffer (drop 1 ring.old.items) ring.old.capacity }
{
    ring.pop_front()
}

/// Puts a ticket last on a ring.
fn put_last(ring: &mut HeapCircularBuffer<Readiness>, r: Readiness)
    requires { length ring.old.items < ring.old.capacity }
    ensures { ring.new ≡ buffer (ring.old.items ++ r ∷ []) ring.old.capacity }
{
    // There is room, so no error comes.
    ring.try_push_back(r).unwrap();
}

impl Queues {
    /// An empty queue for each of so many processors, with room for so many tickets.
    pub(crate) fn open(alloc: Global, procs: u8, room: u16) -> Result<Self, AllocError>
        ensures { IfOk result (λ q. q ≡ record { queues = replicate procs []; room = room }) }
    {
        let mut rings = Vec::with_capacity(alloc, procs as usize)?;
        for _number in 0..procs {
            let ring = HeapCircularBuffer::with_capacity(alloc, room as usize)?;
            rings.push_reserved(ring);
        }
        Ok(Queues { rings, room })
    }

    /// How many tickets a queue holds, if there is such a queue.
    pub(crate) fn len(&self, p: PNo) -> u32
        ensures { result ≡ length (slice_index_or self.now.queues p.0 []) }
    {
        // Of a number that no processor has the queue is empty.
        let place = p.0 as usize;
        if place < self.rings.len() {
            self.rings[place].len() as u32
        } else {
            0
        }
    }

    /// Takes the first ticket of a queue out.
    pub(crate) fn pop(&mut self, p: PNo) -> Option<Readiness>
        ensures pops { Pops self.old.queues p (slice_index_or self.old.queues p.0 []) result self.new.queues }
        ensures room { self.new.room ≡ self.old.room }
    {
        let place = p.0 as usize;
        if place < self.rings.len() {
            take_first(&mut self.rings[place])
        } else {
            None
        }
    }

    /// Puts a ticket last on a queue.
    pub(crate) fn push(&mut self, p: PNo, r: Readiness)
        requires there { p.0 < length self.old.queues }
        requires room { length (slice_index_or self.old.queues p.0 []) < self.old.room }
        ensures { self.new ≡ record self.old { queues = slice_set self.old.queues p.0 (slice_index_or self.old.queues p.0 [] ++ r ∷ []) } }
    {
        put_last(&mut self.rings[p.0 as usize], r);
    }
}
