//! What a host hands in with a turn, and what it comes to.

use gmp_base::{Ask, GNo, Woke};

/// What is handed in with a turn of a machine.
#[derive(Debug, Drop)]
pub struct Handed {
    /// What the goroutine asks that the machine's last event resumed.
    pub ask: Option<Ask>,
    /// What its blocking call answered.
    pub number: Option<u64>,
    /// What the clock shows, in nanoseconds.
    pub moment: u64,
    /// What selects and steals draw by. Any word does.
    pub word: u64,
}

/// What a turn of a machine comes to.
#[derive(Clone, Copy, Debug, PartialEq, Eq)]
pub enum Event {
    /// As many acts were made as one turn may have: the machine goes on with its next one.
    More,
    /// The machine has nothing to do until another wakes it.
    Parked,
    /// The run is over, and the machine has given back all that it held; or there is no machine of this number.
    Done,
    /// The goroutine goes on, and is told this: what it asks next is to be handed in.
    Resume(GNo, Woke),
    /// The goroutine makes its blocking call: what that answers is to be handed in. Other machines can have turns meanwhile.
    Call(GNo),
    /// There is nothing to do before this moment, in nanoseconds, unless another machine acts. A turn before it looks round once more.
    Wait(u64),
    /// The history has no room. After a hand-out the machine goes on; what was handed in is to be handed in again.
    Full,
}
