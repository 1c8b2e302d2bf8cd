//! The local queues of the processors (Scalable Go Scheduler Design Doc, Scheduling): deques whose owner puts tickets at the back and takes
//! them at the front, and whose thieves take them at the front, from any thread. The owner moves with its processor; each machine has one
//! thief for each queue.
//!
//! The invariant (the rule, `InOrder`): of all that was put, what is before the front was taken, from each position once, and the queue
//! holds the rest, in order. So no ticket is lost, none is taken twice, and none is passed over. Both ends take at the front: the oldest
//! ticket comes first, whoever takes it.
//!
//! Refused is a push of a ticket of another run, or for which the queue can't grow: the ticket comes back. An opening and a close may be
//! refused memory; a close then gives all ends back.
//!
//! No function here waits for another thread, and the check grants it none: a steal is tried once and may say that it lost its race, and
//! what a pop or a steal can't have is answered.
#![tactic(auto)]

mod closing;
mod ends;
mod laws;
mod opening;
mod rule;

pub use closing::close;
pub use ends::{Owner, Stole, Thief};
pub use laws::steps_keep_the_rule;
pub use opening::open;
pub use rule::{InOrder, Taken, View};
