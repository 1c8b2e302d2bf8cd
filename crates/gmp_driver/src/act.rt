//! What a machine does next, and what came of it. `Act` is one act, `Frequent` its short name, `Value` what it may give back; `Told` is
//! what came of an act, `Tried` of a steal, `QueueTold` of an act at a queue that is made in place.

use gmp_base::{Ask, CNo, GNo, PNo, Refusal};
use gmp_seq::{Call, Reply};

/// Which of the values that a machine holds.
#[derive(Clone, Copy, Debug, PartialEq, Eq)]
pub enum Value {
    /// The goroutine that runs.
    Held,
    /// The goroutine in its blocking call.
    Called,
    /// The ticket to claim.
    ToClaim,
    /// The ticket to store.
    ToStore,
    /// The processor with its owner.
    Proc,
}

/// One act of a machine. A call is carried whole, as it stands in the history, so that it was made, and with which reply, is an equation
/// and no table of 29 rows. Acts that are no call of the book have a variant each.
#[derive(Debug, Drop)]
pub enum Act {
    /// Makes this call of the book. A select draws a word with it.
    Call(Call),
    /// Pops its own queue.
    Pop,
    /// Pops its own queue, and the ticket is one to store. Apart from a pop, since the place alone says which registers are filled.
    Drain,
    /// Pushes the ticket to store onto its own queue.
    Push,
    /// Draws a word, and steals from the first victim of the hunt that begins by it.
    Hunt,
    /// Steals from the queue of this processor, once.
    Steal(PNo),
    /// Resumes the body, which asks.
    Resume,
    /// Runs the body's blocking call, which answers a number.
    Block,
    /// Reads the clock. At Mind, with the deadline that it minds, for which whoever makes the act may wait. Any reading is fine: an early
    /// one wakes nobody, and the machine comes back.
    Clock(Option<u64>),
    /// Gives this value back, or none, where it holds none.
    Surrender(Option<Value>),
    /// There is nothing left to do.
    Nothing,
}

/// An act of those that come most often, in 16 bytes. A machine that makes one looks at no wide value: an `Act` has room for a select's
/// cases, and is written twice where one looks what comes next and then makes it.
#[derive(Clone, Copy, Debug, PartialEq, Eq)]
pub enum Frequent {
    Take,
    /// Claims the ticket of this goroutine and epoch.
    Claim(GNo, u64),
    Yield,
    Poke,
    Send(Option<CNo>, u64),
    Recv(Option<CNo>),
    Pop,
    Push,
    Resume,
    /// Any other act.
    Other,
}

/// What came of one try to steal.
#[derive(Clone, Copy, Debug, PartialEq, Eq)]
pub enum Tried {
    /// A ticket, and how long the victim's queue was said to be with the steal.
    Got(u32),
    Empty,
    /// A race was lost, and nothing was taken: whether there are more isn't known.
    Unsure,
}

/// What came of an act.
#[derive(Debug, Drop)]
pub enum Told {
    /// The book accepted the call, and this is its entry's reply, whole.
    Replied(Reply),
    /// The book refused the call: what was handed out is back in its registers.
    Refused(Refusal),
    /// The own queue had a ticket.
    Got,
    /// It had one, which is to store.
    Drained,
    /// It had none.
    Empty,
    /// The word that was drawn, and what came of the steal from its first victim.
    Drew(u64, Tried),
    /// What came of the steal.
    Tried(Tried),
    /// The own queue took the ticket.
    Pushed,
    /// It refused the ticket, which goes to the shelf: no ticket is lost.
    PushRefused,
    /// What the body asked.
    Asked(Ask),
    /// What the blocking call answered.
    Number(u64),
    /// What the clock showed, in nanoseconds.
    Moment(u64),
    /// The value was given back.
    Surrendered,
    /// There was nothing to give back, or to do.
    Nothing,
}

/// What came of an act at a local queue. The same as `Told` has of queues, in few bytes.
#[derive(Clone, Copy)]
pub enum QueueTold {
    /// The own queue had a ticket, which is one to store, or else to claim.
    Popped(bool),
    /// It had none.
    Empty,
    /// The word, where one was drawn, and what came of the steal.
    Stole(Option<u64>, Tried),
    /// The own queue took the ticket.
    Pushed,
    /// It refused the ticket.
    PushRefused,
}
