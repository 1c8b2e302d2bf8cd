//! One channel: its values, first in first out, and whether it was closed.
ghost use Rattle.std.specs.Prelude.{◌≡◌, ◌<◌, ◌++◌, [], ◌∷◌, length, drop, nat_lt, true, IfOk};
ghost use Rattle.gmp_seq.specs.Channels.{new_channel};
ghost use Rattle.gmp_start.specs.Start.{channel_of};

use circular_buffer::HeapCircularBuffer;
use gmp_start::StartChannel;
use std::alloc::{AllocError, Global};
use std::marker::Model;

/// Its buffer has room for as many values as its capacity, and never grows: a send then wants no memory, and is not refused for another
/// reason than the definitions'. A closed channel keeps its values, which are still received (Go specification, Close).
#[derive(Drop)]
pub(crate) struct Channel {
    items: HeapCircularBuffer<u64>,
    closed: bool,
}

impl Model for Channel {
    ghost use Rattle.std.specs.Prelude.{◌≤◌, ◌<◌, ◌^◌, length};
    ghost use Rattle.gmp_seq.specs.Channels.{Channel as PlainChannel};

    ghost Value = { PlainChannel };

    ghost view = { λ c. record { capacity = c.items.capacity; items = c.items.items; closed = c.closed } };

    // No more values than room, which fits 32 bits.
    ghost invariant = { λ c. (length c.items.items ≤ c.items.capacity) × (c.items.capacity < 2 ^ 32) };
}

impl Channel {
    /// Open and empty.
    pub(crate) fn new(alloc: Global, capacity: u32) -> Result<Self, AllocError>
        ensures { IfOk result (λ c. c ≡ new_channel capacity) }
    {
        let items = HeapCircularBuffer::with_capacity(alloc, capacity as usize)?;
        Ok(Channel {
            items,
            closed: false,
        })
    }

    /// The same channel for a start, in memory of its own.
    pub(crate) fn copied(&self, alloc: Global) -> Result<StartChannel, AllocError>
        ensures { IfOk result (λ c. channel_of c ≡ self.now) }
    {
        Ok(StartChannel {
            capacity: self.items.capacity() as u32,
            closed: self.closed,
            items: self.items.to_vec(alloc)?,
        })
    }

    /// Whether it was closed.
    pub(crate) fn is_closed(&self) -> bool
        ensures { result ≡ self.now.closed }
    {
        self.closed
    }

    /// Whether a send proceeds with nobody to receive. An unbuffered channel never has room.
    pub(crate) fn has_room(&self) -> bool
        ensures { result ≡ nat_lt (length self.now.items) self.now.capacity }
    {
        self.items.len() < self.items.capacity()
    }

    /// How many values it holds.
    pub(crate) fn len(&self) -> u64
        ensures { result ≡ length self.now.items }
    {
        self.items.len() as u64
    }

    /// For how many values it has room.
    pub(crate) fn capacity(&self) -> u64
        ensures { result ≡ self.now.capacity }
    {
        self.items.capacity() as u64
    }

    /// Puts a value last.
    pub(crate) fn push(&mut self, v: u64)
        requires { length self.old.items < self.old.capacity }
        ensures { self.new ≡ record self.old { items = self.old.items ++ v ∷ [] } }
    {
        self.items.try_push_back(v).unwrap();
    }

    /// Takes the first value.
    pub(crate) fn pop(&mut self) -> u64
        requires { 0 < length self.old.items }
        ensures first { self.old.items ≡ result ∷ drop 1 self.old.items }
        ensures rest { self.new ≡ record self.old { items = drop 1 self.old.items } }
    {
        self.items.pop_front().unwrap()
    }

    /// Puts a value last and takes the first, which may be that value. It needs no room beside: on a full buffer one goes before the other
    /// comes, and on an unbuffered channel the value is itself the first.
    pub(crate) fn relay(&mut self, v: u64) -> u64
        ensures first { self.old.items ++ v ∷ [] ≡ result ∷ drop 1 (self.old.items ++ v ∷ []) }
        ensures rest { self.new ≡ record self.old { items = drop 1 (self.old.items ++ v ∷ []) } }
    {
        if self.items.is_empty() {
            return v;
        }
        let first = self.pop();
        self.push(v);
        first
    }

    /// Closes it. Its values stay.
    pub(crate) fn close(&mut self)
        ensures { self.new ≡ record self.old { closed = true } }
    {
        self.closed = true;
    }
}
