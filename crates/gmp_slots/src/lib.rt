//! Values that are put at numbers, and taken by these.
//!
//! A channel carries a number of 64 bits. So who sends a value of another type puts it into a store and sends its number, and who receives that
//! takes the value. No number is given twice, so a number that is left over somewhere takes no other's value.
#![tactic(auto)]

ghost use Rattle.std.specs.Prelude.{◌≡◌, ◌⊎◌, ◌+◌, ◌<◌, ◌≤◌, ◌↔◌, ◌^◌, IfErr, IfNone, IfOk, IsTrue, None, OnErr, OnOk, OnSome, Some};
ghost use Rattle.slab.specs.Slab.{slab_len};

use slab::Slab;
use std::alloc::{AllocError, Global};

/// A value, and in which round it was put.
#[derive(Drop)]
struct Slot<T> {
    round: u64,
    value: T,
}

/// Values, each at a number of its own, with room for so many.
///
/// Each round of as many numbers as the slab has keys gives one of them: that of the key under which the value lies.
#[derive(Drop)]
pub struct Store<T> {
    slots: Slab<Slot<T>>,
    /// How many values were put.
    rounds: u64,
    /// How many values it may hold at a time.
    pub room: u32,
    ghost some: { 0 < room },
    ghost kept: { room ≤ slots.capacity },
}

impl<T> Store<T> {
    ghost use Rattle.gmp_slots.specs.Store.{Changes, count, next, span, there};

    /// It holds nothing, and has memory for so many values.
    pub fn new(alloc: Global, room: u32) -> Result<Self, AllocError>
        requires { 0 < room }
        ensures room { IfOk result (λ s. s.room ≡ room) }
        ensures none { IfOk result (λ s. (number : _) → there s number ≡ None) }
        ensures count { IfOk result (λ s. count s ≡ 0) }
    {
        let slots = Slab::with_capacity(alloc, room as usize)?;
        Ok(Store {
            slots,
            rounds: 0,
            room,
        })
    }

    /// How many values it holds.
    pub fn len(&self) -> usize
        ensures { result ≡ count self.now }
    {
        self.slots.len()
    }

    /// Whether it holds no value.
    pub fn is_empty(&self) -> bool
        ensures { IsTrue result ↔ (count self.now ≡ 0) }
    {
        self.slots.is_empty()
    }

    /// Puts the value at a number that was never given. It comes back where there is no room, or no number is left.
    pub fn put(&mut self, value: T) -> Result<u64, T>
        ensures fresh { IfOk result (λ number. (next self.old ≤ number) × (number < next self.new)) }
        ensures puts { IfOk result (λ number. Changes self.old self.new number (Some value)) }
        ensures count { OnOk result (count self.new ≡ count self.old + 1) }
        ensures full { OnErr result ((self.old.room ≤ count self.old) ⊎ (2 ^ 64 ≤ next self.old + span self.old)) }
        ensures back { IfErr result (λ it. it ≡ value) }
        ensures same { OnErr result (self.new ≡ self.old) }
        ensures room { self.new.room ≡ self.old.room }
    {
        if self.slots.len() >= self.room as usize {
            return Err(value);
        }
        let span = self.slots.capacity() as u64;
        let first = self.rounds.checked_mul(span);
        let Some(first) = first.filter(|&first| first <= u64::MAX - span) else {
            return Err(value);
        };
        let round = self.rounds;
        let key = self.slots.insert_reserved(Slot { round, value });
        self.rounds = round + 1;
        Ok(first + key as u64)
    }

    /// Takes the value that stands at this number, if one does: it was given for that value, which nobody took yet.
    pub fn take(&mut self, number: u64) -> Option<T>
        ensures value { result ≡ there self.old number }
        ensures takes { Changes self.old self.new number None }
        ensures count { OnSome result (count self.new + 1 ≡ count self.old) }
        ensures none { IfNone result (self.new ≡ self.old) }
        ensures next { next self.new ≡ next self.old }
        ensures room { self.new.room ≡ self.old.room }
    {
        let span = self.slots.capacity() as u64;
        let key = (number % span) as usize;
        match self.slots.get(key) {
            Some(slot) if slot.round == number / span => Some(self.slots.remove(key).value),
            _ => None,
        }
    }
}
