//! Where a machine stands in its program: `Place`, with `Round` for where a hunt stands. The sources named are sections of the Scalable Go
//! Scheduler Design Doc; where none is named the place is the project's own.
//!
//! Go's runtime (1.19, proc.go) has the like: Look to Hunt are `schedule` with `findRunnable`, Unspin and the fresh poke `resetspinning`
//! with `wakep`, Drop and Scan `releasep`, `pidleput` and `checkRunqsNoP`, Park and Rest `stopm` with `mPark`, Store `runqput`.
//!
//! What differs: tickets are stolen one at a time; the clock is read after 16 claims, and not at each look; the shelf is looked into only
//! where the own queue is empty, where Go does so at each 61st look as well, and a fair machine at each 32nd claim; a queue that refuses
//! gives one ticket to the shelf, where `runqputslow` gives half.

use gmp_base::{Ask, PNo};

/// Where a hunt stands in its order of victims, which is the processors `word mod np`, `word mod np + 1` and so on, modulo np, the number
/// of processors. A drawn word begins it, so that thieves don't meet; an order tries each once. The own one is skipped and keeps its
/// number.
#[derive(Clone, Copy)]
pub struct Round {
    /// The word that its first act drew.
    pub word: u64,
    /// The number of the victim in the order, from 0.
    pub number: u8,
}

/// Where a fair machine looks next beside its own queue: in turn at the shelf and at a queue, and at one queue after another. So no ticket
/// is passed over for ever.
#[derive(Clone, Copy)]
pub enum Aside {
    /// At the shelf, and the next time at the queue of this processor.
    Shelf(PNo),
    /// At the queue of this processor, which may be its own.
    Queue(PNo),
}

/// A place of the program. At each there is one act. Numbers and asks stand in the place and not in a register, so that what is filled
/// follows from the place. Contracts speak of places: no code makes one, since the driver keeps each as a `Spot`.
#[derive(Drop)]
pub enum Place {
    /// Takes a processor, without which no goroutine runs (Processors).
    Start,
    /// Reads the clock after 16 claims, else pops its own queue, where its data are likely near (Scheduling). Deadlines so pass while
    /// goroutines are ready as well.
    Look,
    /// Tells the book this moment, in nanoseconds.
    Ticking(u64),
    /// Asks whether it may keep its processor, after a tick, where there are several.
    Keep,
    /// Takes from the shelf, beside its own queue.
    Glance,
    /// Steals from the queue of this processor, beside its own queue.
    Peek(PNo),
    /// Pops its own queue, before it gives up a processor that is active no more: its tickets go to the shelf, where everybody finds them.
    Drain,
    /// Puts the ticket onto the shelf.
    PutDrain,
    /// Takes from the shelf, once the own queue is empty.
    Global,
    /// Asks whether it may look for work at others: as many do at most as processors are active (Syscalls/M Parking and Unparking).
    Spin,
    /// Steals from one victim after another (Scheduling); before its first act it has drawn no word.
    Hunt(Option<Round>),
    /// Steals once more from this victim, and so many tickets at most: half of what it had, one by one. A fair machine never stands here,
    /// nor at the two that follow: it takes one ticket a hunt.
    More(PNo, u8),
    /// Pushes the ticket to store, and goes on with `More`.
    StoreMore(PNo, u8),
    /// Puts it onto the shelf, where the push was refused.
    PutMore(PNo, u8),
    /// Looks for work no more. Before the claim, so that it doesn't count as spinning when it wakes another.
    Unspin,
    /// Wakes another machine where it is fresh, and then claims the ticket (Syscalls/M Parking and Unparking: who goes from idle to busy
    /// sees to it that another looks).
    Claim,
    /// Resumes the body.
    Run,
    /// Makes the book call of what the body asked.
    Do(Ask),
    /// Pushes the ticket to store: what a goroutine readies goes to the own queue (Scheduling).
    Store,
    /// Puts it onto the shelf, where the push was refused: a full queue refuses, and no ticket is lost.
    PutStore,
    /// Wakes another machine for what was readied, and goes on with the body.
    Poke,
    /// Runs the body's blocking call, with no processor.
    Block,
    /// Comes back from it with this number.
    Leave(u64),
    /// Gives its processor up, with nothing found.
    Drop,
    /// Says that it holds none, and looks at all queues next.
    Bare,
    /// Steals from every queue once, this one next, before it parks: a ticket may have come into one after the hunt passed it, and who
    /// pushed it may have seen this machine as one that still looks (Syscalls/M Parking and Unparking).
    Scan(PNo),
    /// Has a ticket, and takes a processor for it anew.
    Have,
    /// Puts the ticket onto the shelf: there was no processor for it, or the machine is fair and has to look aside before it claims.
    PutHave,
    /// Has nothing to do. It may be told of work, of a deadline, or to look again.
    Park,
    /// Is parked, and asks whether it was woken. A thread sleeps here, until a `poke` or an `enter` of another wakes it.
    Rest,
    /// Has nothing to do before this deadline, in nanoseconds.
    Mind(u64),
    /// Tells the book this moment, in nanoseconds.
    MindTick(u64),
    /// The run is over: it gives back what it holds.
    Over,
    /// Has nothing left to do.
    Done,
}
