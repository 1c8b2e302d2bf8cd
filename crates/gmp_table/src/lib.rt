//! What each goroutine does, and the shelf: the scheduler's own queue of tickets that nobody has. Channels and machines are not known here.
//!
//! The invariant: on the shelf is each goroutine whose status says so, once, and no other; and what is kept beside the rows, as how many
//! are ready or running and who waits with a deadline, is what a look at all rows would find. So no call has to look at all of them.
//!
//! Nothing is refused: each call requires what it needs, as that a ticket is out, and the journal above tests it. Want of memory is told by
//! `open` alone, which takes room for every goroutine's row, place on the shelf and deadline.
//!
//! What the calls cost: `open` is linear in the number of goroutines. A call that gives a goroutine a deadline, or ends its wait for one,
//! finds the place of that deadline by halves, and moves those that are sooner: none where a tick wakes it. Every other call is constant,
//! `due` and `least_deadline` among them.
#![tactic(auto)]

mod deadlines;
mod rows;
mod table;
mod wake;

pub use table::StatusTable;
pub use wake::{Candidate, Rank, Wake};
