//! A row of slots, each of which has a value or is vacant. Values need not be copied or let go.
ghost use Rattle.std.specs.Prelude.{◌≡◌, ◌≤◌, [], true, List, Option, Some, None, map, slice_get, slice_set, vec_len, vec_capacity, IfOk, IfErr};
ghost use Rattle.std.specs.Coded.{coded_list, coded_option};
ghost use Rattle.gmp_book.specs.Slots.{is_filled, is_vacant, all_filled};

use std::alloc::Global;
use std::marker::Model;

/// As many slots as it was made with, each of which has a value or is vacant. A contract sees the list of what each has.
///
/// Only `of` takes memory. The slots may be let go only where their values may be.
#[derive(Drop)]
pub(crate) struct Slots<T> {
    slots: Vec<Option<T>>,
    // The emptied vector that the slots were made from: `into_items` needs its room.
    room: Vec<T>,
}

impl<T> Model for Slots<T> {
    ghost Value = { List (Option T) };

    ghost coded = { coded_list (coded_option T.code) };

    ghost view = { λ s. s.slots.items };

    ghost invariant = { λ s. (s.room.items ≡ []) × (vec_len s.slots ≤ vec_capacity s.room) };
}

impl<T> Slots<T> {
    /// Each item in a slot of its own, in order. The cost is linear.
    ///
    /// It takes memory for all slots at once. Where that is refused, the items come back.
    pub(crate) fn of(alloc: Global, items: Vec<T>) -> Result<Self, Vec<T>>
        ensures ok { IfOk result (λ slots. slots ≡ map Some items.items) }
        ensures err { IfErr result (λ back. back.items ≡ items.items) }
    {
        let mut room = items;
        let Ok(mut slots) = Vec::with_capacity(alloc, room.len()) else {
            return Err(room);
        };
        room.reverse();
        while let Some(item) = room.pop() {
            slots.push_reserved(Some(item));
        }
        Ok(Slots { slots, room })
    }

    /// Whether there is a slot `i`, counted from 0, and it has no value. The cost is constant.
    pub(crate) fn is_vacant(&self, i: usize) -> bool
        ensures { result ≡ is_vacant self.now i }
    {
        matches!(self.slots.get(i), Some(None))
    }

    /// Whether each slot has a value. The cost is linear, at most: it ends at the first vacant slot.
    pub(crate) fn all_filled(&self) -> bool
        ensures { result ≡ all_filled self.now }
    {
        self.slots.iter().all(|slot| slot.is_some())
    }

    /// Takes the value out of slot `i`, and leaves the slot vacant. The cost is constant.
    pub(crate) fn take(&mut self, i: usize) -> T
        requires { is_filled self.old i ≡ true }
        ensures value { slice_get self.old i ≡ Some (Some result) }
        ensures slots { self.new ≡ slice_set self.old i None }
    {
        self.slots[i].take().unwrap()
    }

    /// Puts a value into slot `i`, which is vacant. The cost is constant.
    pub(crate) fn put(&mut self, i: usize, item: T)
        requires { is_vacant self.old i ≡ true }
        ensures { self.new ≡ slice_set self.old i (Some item) }
    {
        match self.slots[i].replace(item) {
            None => {}
            Some(_) => unreachable!(),
        }
    }

    /// The values in order, where each slot has one. The cost is linear.
    ///
    /// It takes no memory: they lie in the vector that the slots were made from.
    pub(crate) fn into_items(self) -> Vec<T>
        requires { all_filled self ≡ true }
        ensures { map Some result.items ≡ self }
    {
        let Slots {
            mut slots,
            mut room,
        } = self;
        slots.reverse();
        while let Some(slot) = slots.pop() {
            room.push_reserved(slot.unwrap());
        }
        slots.destroy_empty();
        room
    }
}
