//! What one machine of a threaded run does in one turn: a call of the book or a surrender (`turn`), a pop, a push or a steal at the local
//! queues (`queue_turn`), a body's resuming or its blocking call or a reading of the clock (`local_turn`).
//!
//! A turn makes exactly the act that the machine's driver names next, once, and tells the driver exactly what came of it; the driver holds
//! then what its new place says. A word is drawn from the machine's generator by a select and by the first steal of a hunt, and by no other
//! act.
//!
//! A caller has to choose the turn by the act that comes next. One that asked for it already hands it on (`turn_by`), or its short name
//! (`turn_of`, `queue_turn_of`).
//!
//! What the book refuses is told to the driver. At a queue of another run nothing is taken and nothing put: a pop and a steal find none, a
//! push is refused.
//!
//! Nothing here needs a thread or a lock, so that it is checked without them: `gmp_run` has both.
#![tactic(auto)]

mod at_book;
mod at_queue;
mod bodies;
mod drawing;
mod locally;
mod trying;

pub use at_book::{turn, turn_by, turn_of};
pub use at_queue::{queue_turn, queue_turn_of};
pub use bodies::{Boxed, Own, Runs, block_boxed, resume_boxed};
pub use locally::local_turn;
