//! Who waits at Mind, which of them watches the least deadline, and who is to be called.
//!
//! A machine at Mind waits on its parker, and is awake to the book: no poke wakes it. Who waits, who watches and until when lies here, under
//! the lock; all else is asked of the book (`Census`), and only while somebody waits. No clause speaks of it: that no wake-up is lost rests on
//! the order of these steps.
//!
//! 1. **Note.** Each hold in which acts were made ends by saying what its machine does next (`Then`). So a machine waits here from the hold
//!    on in which it was told to mind a deadline, before it reads the clock or its thread waits. A ticket that is given out counts as ready
//!    from the hold on in which its machine pokes: by then it is in a queue or on the shelf, and whoever is called for it finds it.
//! 2. **Settle: the call.** Then one of those that wait is called (`settle`), where more goroutines are ready than machines look for them,
//!    and more active processors are idle than machines that look have none. It waits no more, so from then on it counts as one that looks,
//!    and isn't called twice.
//! 3. **Settle: the watch.** Then, where the least deadline that stands is before the watcher's limit, or nobody watches, the watcher is
//!    told the new limit; where there is none, one of those that wait becomes the watcher, rather the machine itself. This is put off while
//!    more machines look than goroutines are ready: each of them comes to another act at the book, as it claims, takes a processor, gives
//!    it up or parks, and that hold is settled again.
//! 4. **Let go, and then unpark.** Whoever was called or told is unparked once the lock is free. Its token stays in its parker until it
//!    is taken, so an unpark that comes before the wait ends it, and one that comes late costs a look, or one `woken -> false`.
//! 5. **Look, and then wait.** A machine at Mind reads the clock, looks under the lock whether it still waits, whether it watches and
//!    until when (`stays`), lets the lock go and waits: with no limit, or as the watcher until the limit. After each wait it looks again.
//!    It comes back where it waits no more, where the run is over, and as the watcher at its limit; then it counts as one that looks, and
//!    the watch is free.
//! 6. **Act.** Whoever comes back ticks, takes a processor and looks for work by its table, and 1 to 4 hold of each of its holds.
//! 7. **The end.** The hold in which the run is over has all unparked, and whoever looks from then on comes back.
//!
//! Who waits changes after step 5's look in a later hold alone, whose unpark (step 4) comes after that look: so its token is still there
//! for the wait. Calls end, since each of them leaves one less that waits, and only `park -> mind D` brings one, after the machine has
//! looked everywhere.
//!
//! A blocking call that begins marks all machines that are awake, those at Mind too: what a marked one saw when it looked may be old. One
//! that comes to its park looks again. Of those at Mind the same hold calls one by step 2, where a goroutine is ready that nobody looks for
//! and an active processor is idle for it. Not all marked ones come back: each would make some ten entries at each blocking call, and with
//! many machines these alone would fill the book.

use crate::set::Set;
use gmp_base::MNo;
use gmp_book::Book;
use gmp_idle::Machines;

/// What a machine at Mind does.
#[derive(Drop)]
pub(crate) enum Stay {
    /// It comes back.
    Back,
    /// It waits until it is called.
    Waits,
    /// It waits for at most so many nanoseconds.
    Watches(u64),
}

/// What a machine does once the lock is let go.
#[derive(Clone, Copy)]
pub(crate) enum Then {
    /// It minds a deadline.
    Minds,
    /// It pushes a ticket that it was given, and then pokes.
    Stores,
    /// Anything else.
    Acts,
}

/// Whether the first of two deadlines is before the second, or alone.
fn is_before(a: Option<u64>, b: Option<u64>) -> bool {
    match (a, b) {
        (Some(a), Some(b)) => a < b,
        (Some(_), None) => true,
        (None, _) => false,
    }
}

/// What the book tells of machines and goroutines, to whoever wakes machines.
#[derive(Drop)]
struct Census {
    /// How many goroutines are ready, but for those whose tickets are still to be stored.
    ready: usize,
    /// How many machines look for work: those that are awake, run nothing and don't wait at Mind, since their first call.
    looks: usize,
    /// How many of these have no processor.
    bare: usize,
    /// How many active processors nobody holds.
    idle: usize,
    /// The least deadline.
    least: Option<u64>,
}

/// How many active processors nobody holds.
fn count_idle(machines: &Machines) -> usize {
    let active = usize::from(machines.active());
    let mut idle = 0usize;
    for holder in machines.holders().iter().take(active) {
        if holder.is_none() {
            idle = idle.saturating_add(1);
        }
    }
    idle
}

impl Census {
    /// What stands now, where these wait at Mind, and these have a ticket to store. A machine that made no call yet may have been left out,
    /// and looks for nothing.
    fn of<T, Q>(book: &Book<T, Q>, waits: Set, stores: Set) -> Self {
        let (machines, goroutines) = (book.machines(), book.goroutines());
        let (mut running, mut looks, mut bare) = (0usize, 0usize, 0usize);
        let count = u8::try_from(machines.modes().len()).unwrap_or(u8::MAX);
        for m in 0..count {
            let m = MNo(m);
            if goroutines.runs_some(m) {
                running = running.saturating_add(1);
            } else if machines.is_awake(m) && !waits.has(m) && book.calls(m) > 0 {
                looks = looks.saturating_add(1);
                if !machines.has_processor(m) {
                    bare = bare.saturating_add(1);
                }
            }
        }
        Census {
            ready: goroutines
                .count_going()
                .saturating_sub(running)
                .saturating_sub(stores.count() as usize),
            looks,
            bare,
            idle: count_idle(machines),
            least: goroutines.least_deadline(),
        }
    }

    /// Whether there is work for one more.
    fn wants(&self) -> bool {
        self.ready > self.looks && self.idle > self.bare
    }
}

/// Who waits at Mind, and who of them watches. Not a part of the book: to wake who minds as it wakes who is parked would be another poke,
/// enter, close, tick and leave in the definitions.
#[derive(Drop)]
pub(crate) struct Watch {
    /// Who is at Mind, and isn't called.
    waits: Set,
    /// Who was given a ticket, and didn't poke since.
    stores: Set,
    watcher: Option<MNo>,
    /// The watcher's limit.
    until: Option<u64>,
    over: bool,
}

impl Watch {
    /// Nobody waits.
    pub fn new() -> Self {
        Watch {
            waits: Set::none(),
            stores: Set::none(),
            watcher: None,
            until: None,
            over: false,
        }
    }

    /// Whether the run is over: all were told.
    pub fn is_over(&self) -> bool {
        self.over
    }

    /// m waits no more. The watcher is one of those who wait.
    fn goes(&mut self, m: MNo) {
        self.waits = self.waits.without(m);
        if self.watcher == Some(m) {
            self.watcher = None;
            self.until = None;
        }
    }

    /// The least of those who wait, and rather one who doesn't watch.
    fn waiting(&self) -> Option<MNo> {
        let others = match self.watcher {
            Some(m) => self.waits.without(m),
            None => self.waits,
        };
        others.least().or(self.waits.least())
    }

    /// At the end of a hold in which m made acts, and after which it does this: calls one, where there is work for it, and sees to it that
    /// somebody watches. Whom to unpark once m has let the lock go.
    #[inline(always)]
    pub fn settle<T, Q>(&mut self, m: MNo, then: Then, book: &Book<T, Q>) -> Set {
        self.stores = self.stores.without(m);
        match then {
            Then::Minds => self.waits = self.waits.with(m),
            Then::Stores => self.stores = self.stores.with(m),
            Then::Acts => {}
        }
        if self.waits.is_empty() {
            return Set::none();
        }
        self.settle_waits(m, book)
    }

    /// Whether nobody is to be called, and the watcher is told nothing, whatever machines do: no processor is idle or nobody is ready, and no
    /// deadline is before the watcher's limit.
    fn is_settled<T, Q>(&self, book: &Book<T, Q>) -> bool {
        let goroutines = book.goroutines();
        let has_work = book.machines().has_idle() && goroutines.count_going() > 0;
        !has_work && !is_before(goroutines.least_deadline(), self.until)
    }

    /// The same, where somebody waits.
    #[inline(never)]
    fn settle_waits<T, Q>(&mut self, m: MNo, book: &Book<T, Q>) -> Set {
        let mut told = Set::none();
        if self.is_settled(book) {
            return told;
        }
        let mut census = Census::of(book, self.waits, self.stores);
        if census.wants() {
            if let Some(n) = self.waiting() {
                self.goes(n);
                census.looks = census.looks.saturating_add(1);
                told = told.with(n);
            }
        }
        if is_before(census.least, self.until) && census.looks <= census.ready {
            let n = match self.watcher {
                Some(n) => Some(n),
                None if self.waits.has(m) => Some(m),
                None => self.waiting(),
            };
            if let Some(n) = n {
                self.watcher = Some(n);
                self.until = census.least;
                told = told.with(n);
            }
        }
        told.without(m)
    }

    /// What m does at this moment, which was told to mind a deadline.
    pub fn stays(&mut self, m: MNo, now: u64) -> Stay {
        if self.over || !self.waits.has(m) {
            return Stay::Back;
        }
        match self.until {
            Some(until) if self.watcher == Some(m) => {
                if now < until {
                    return Stay::Watches(until.saturating_sub(now));
                }
                self.goes(m);
                Stay::Back
            }
            _ => Stay::Waits,
        }
    }

    /// The run is over, and whoever waits comes back: all are to be unparked, the first time.
    pub fn end(&mut self) -> Set {
        if self.over {
            return Set::none();
        }
        self.over = true;
        Set::all()
    }
}
