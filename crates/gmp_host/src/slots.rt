//! Values of any type that goroutines send: each is put at a number, which a channel carries.

ghost use Rattle.std.specs.Prelude.{◌≡◌, ◌↔◌, ◌≢◌, ◌≤◌, ◌⊎◌, ◌+◌, ◌^◌, ◌++◌, ◌∷◌, [], length, ℕ, IfErr, IfOk, IfSome, OnErr, OnOk, Some, true};
ghost use Rattle.gmp_base.specs.declared.ask.Woke.TheVariants as woke;

use crate::channel::Channel;
use crate::ending::Short;
use crate::host::Host;
use crate::queue::TRIES;
use gmp_base::{Ask, Woke};
use gmp_slots::Store;
use std::alloc::Global;
use std::sync::{Arc, Mutex};
use std::thread::yield_now;

/// A handle of values, each at a number of its own, from `Host::slots`. Its handles put values and take them at once, from any goroutine.
///
/// Of what lies behind its lock no clause speaks. What it does there is `Store` of gmp_slots, of which it is proved that a number is given once,
/// and that the value at it is given back once.
///
///     let number = slots.put(text).map_err(|_| Nonsense)?;
///     Ok(channel.send(number))
#[derive(Drop)]
pub struct Slots<T> {
    values: Arc<Mutex<Store<T>>, Global>,
    /// How many values may be there at a time.
    pub room: u32,
}

impl<T: Drop> Slots<T> {
    /// No value yet, with memory for so many, at least one.
    pub(crate) fn new(alloc: Global, room: u32) -> Result<Self, Short>
        ensures room { IfOk result (λ it. it.room ≡ room) }
        ensures limits { (result ≡ Err Short.BadLimits) ↔ (room ≡ 0) }
        ensures memory { IfErr result (λ e. e ≢ Short.BadLimits → e ≡ Short.OutOfMemory) }
    {
        if room == 0 {
            return Err(Short::BadLimits);
        }
        let store = Store::new(alloc, room)?;
        let values = Arc::new(alloc, Mutex::new(store))?;
        Ok(Slots { values, room })
    }
}

// Nothing is asked of `T`: a value that isn't `Drop` can't be let go, so none is lost here.
impl<T> Slots<T> {
    /// One more handle of them.
    pub fn share(&self) -> Result<Self, Short>
        ensures room { IfOk result (λ it. it.room ≡ self.now.room) }
        ensures memory { IfErr result (λ e. e ≡ Short.OutOfMemory) }
    {
        let values = Arc::try_clone(&self.values)?;
        let room = self.room;
        Ok(Slots { values, room })
    }

    /// Puts the value, and tells its number, which was never told before. The value comes back where there is no room, or other threads were
    /// at the values all the while.
    pub fn put(&self, value: T) -> Result<u64, T>
        ensures back { IfErr result (λ it. it ≡ value) }
    {
        for _ in 0..TRIES {
            if let Some(mut values) = self.values.try_lock() {
                return values.put(value);
            }
            yield_now();
        }
        Err(value)
    }

    /// Takes the value that was put at this number. It is none where somebody took it, or no value was put there, and also where other threads
    /// were at the values all the while: then a goroutine yields, and takes it later.
    pub fn take(&self, number: u64) -> Option<T> {
        for _ in 0..TRIES {
            if let Some(mut values) = self.values.try_lock() {
                return values.take(number);
            }
            yield_now();
        }
        None
    }
}

/// A handle of a channel on which values of any type are sent, from `Host::typed`.
///
/// There is a place for each value that the channel has room for, and one for each goroutine that sends or receives on it. That is enough where
/// each takes what it received when it is told of it. A value whose send is answered by a fault keeps its place: so who may send on a closed
/// channel puts the value into `slots`, sends its number on `channel`, and takes it back at a fault. A select, too, sends and receives numbers.
///
/// A worker, which receives jobs and sends results:
///
///     match woke {
///         Woke::First | Woke::Done => Ok(self.jobs.recv()),
///         _ => match self.jobs.received(woke) {
///             Some(job) => self.results.send(job.result()).map_err(|_| Nonsense),
///             None => Ok(Ask::Exit),
///         },
///     }
#[derive(Drop)]
pub struct Typed<T> {
    /// What carries the numbers of the values.
    pub channel: Channel,
    /// Where the values are on their way.
    pub slots: Slots<T>,
}

impl<T> Typed<T> {
    /// One more handle of it.
    pub fn share(&self) -> Result<Self, Short>
        ensures channel { IfOk result (λ it. it.channel ≡ self.now.channel) }
        ensures room { IfOk result (λ it. it.slots.room ≡ self.now.slots.room) }
        ensures memory { IfErr result (λ e. e ≡ Short.OutOfMemory) }
    {
        let channel = self.channel;
        let slots = self.slots.share()?;
        Ok(Typed { channel, slots })
    }

    /// Sends the value: `c <- value`. It comes back where there is no place for it, or other threads were at the values all the while.
    pub fn send(&self, value: T) -> Result<Ask, T>
        ensures ask { IfOk result (λ it. (number : ℕ) × (it ≡ Ask.Send self.now.channel.0 number)) }
        ensures back { IfErr result (λ it. it ≡ value) }
    {
        let number = self.slots.put(value)?;
        Ok(self.channel.send(number))
    }

    /// Receives a value: `<-c`. Its answer is for `received`.
    pub fn recv(&self) -> Ask
        ensures { result ≡ Ask.Recv self.now.channel.0 }
    {
        self.channel.recv()
    }

    /// Closes the channel: `close(c)`.
    pub fn close(&self) -> Ask
        ensures { result ≡ Ask.Close self.now.channel.0 }
    {
        self.channel.close()
    }

    /// The value that came by this answer to a receive, once. It is none by any other answer, as that a closed channel is empty, and where
    /// `Slots::take` has none.
    pub fn received(&self, woke: Woke) -> Option<T>
        ensures { IfSome result (λ _. (number : ℕ) × (woke ≡ Woke.Got number true)) }
    {
        match woke {
            Woke::Got(number, true) => self.slots.take(number),
            _ => None,
        }
    }
}

impl Host {
    /// Values of any type, each at a number, with memory for so many, at least one.
    pub fn slots<T: Drop>(&self, room: u32) -> Result<Slots<T>, Short>
        ensures room { IfOk result (λ it. it.room ≡ room) }
        ensures limits { (result ≡ Err Short.BadLimits) ↔ (room ≡ 0) }
        ensures memory { IfErr result (λ e. e ≢ Short.BadLimits → e ≡ Short.OutOfMemory) }
    {
        Slots::new(self.alloc, room)
    }

    /// One more channel, with room for so many values, of any type, on which so many goroutines send or receive: `make(chan T, capacity)`.
    pub fn typed<T: Drop>(&mut self, capacity: u32, goroutines: u16) -> Result<Typed<T>, Short>
        ensures number { IfOk result (λ t. t.channel.0 ≡ Some (record { 0 = length self.old.capacities.items })) }
        ensures room { IfOk result (λ t. t.slots.room ≡ capacity + goroutines) }
        ensures capacities { OnOk result (self.new.capacities.items ≡ self.old.capacities.items ++ capacity ∷ []) }
        ensures limits { IfErr result (λ e. e ≡ Short.BadLimits
            → (capacity + goroutines ≡ 0) ⊎ (2 ^ 32 ≤ capacity + goroutines) ⊎ (65536 ≤ length self.old.capacities.items)) }
        ensures memory { IfErr result (λ e. e ≢ Short.BadLimits → e ≡ Short.OutOfMemory) }
        ensures err { OnErr result (self.new.capacities.items ≡ self.old.capacities.items) }
        ensures bodies { (self.new.bodies ≡ self.old.bodies) × (self.new.boxed ≡ self.old.boxed) }
        ensures settings { self.new.settings ≡ self.old.settings }
    {
        let room = capacity.checked_add(u32::from(goroutines));
        let slots = self.slots(room.ok_or(Short::BadLimits)?)?;
        let channel = self.channel(capacity)?;
        Ok(Typed { channel, slots })
    }
}
