//! A walk along a trace: the plain scheduler replays it, and whoever listens is told what each entry did.
//!
//! A trace names neither the goroutine that asks nor the processor that its machine holds, and a close or a tick says how many became ready
//! and not who. A walk tells all that as a [`Deed`]. Who became ready is read off the checker's rows, by epochs that rose; who is at which
//! machine and holds which processor is kept beside, by what the replies say.
//!
//! **Invariant**: the entries that were told of are a run from where the trace begins, and the rows that a listener sees are those of the
//! state to which they lead. The first entry that is no step ends the walk, and it is not told.
//!
//! Refused are limits that no run may have, a beginning at which none may begin, and want of memory.
#![tactic(auto)]

mod deed;
mod places;
mod post;
mod walking;

pub use deed::{Deed, Listener, communication};
pub use places::{channel_at, goroutine_at, machine_at, processor_at};
pub use walking::{Walked, first_number, walk};
