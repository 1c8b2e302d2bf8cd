//! One machine's program as a value (the loop of an M in the Scalable Go Scheduler Design Doc, Vyukov, 2012): which act comes next, what
//! the act is handed, and where the machine stands after what came of it. It keeps what the machine holds.
//!
//! The program is a table of places, one act each (`Place`, table.rt): look into the own queue, the shelf, others' queues; claim, resume
//! the body, make the call of what it asked; with nothing to do give the processor up, look once more, park. The order is the design
//! document's (Scheduling; Syscalls/M Parking and Unparking); what differs is told where it stands.
//!
//! A machine is fair or not, from its start on (`Driver::new_fair`). A fair one looks aside after each 16 claims, before it claims again: in
//! turn at the shelf and at a queue, all queues in rotation; what it finds on its way to the park when it is late it gives to the shelf, and
//! it steals one ticket a hunt. So no ticket is passed over for ever (`gmp_fair`). One that is not fair does none of that (`laws`).
//!
//! The invariant: while nothing is given out, exactly those registers are filled that the place needs, and the pass and all values are of
//! one run. So no value is lost, and no call finds that it lacks one.
//!
//! Nothing here takes memory, waits or calls the book: whoever runs the driver makes the act, and tells what came of it. So one program is
//! run act by act, in any order of machines, and by threads. It refuses nothing: to tell what can't have come of the act leaves the place
//! as it is.
#![tactic(auto)]

mod act;
mod at_queue;
mod driver;
mod hunt;
pub mod laws;
mod load;
mod pass;
mod place;
mod registers;
mod seen;
mod spot;
mod table;

pub use act::{Act, Frequent, QueueTold, Told, Tried, Value};
pub use driver::Driver;
pub use hunt::steal_goal;
pub use load::Load;
pub use place::{Aside, Place, Round};
pub use registers::{CalledParts, HeldParts, ProcParts, Registers, fill};
