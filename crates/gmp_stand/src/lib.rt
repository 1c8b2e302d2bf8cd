//! The scheduler for a host of another kind: turns of machines, as a library. It knows no bodies, threads or clocks. Whoever calls has the
//! bodies of goroutines, each by its number, and the clock.
//!
//! `Stand::turn` lets a machine act until it needs something from outside, and answers with an `Event` what that is: a goroutine is to be
//! resumed, or makes its blocking call, or a moment is to come; or the machine is parked or done, or the history is full. What the event asks
//! for is `Handed` in with the machine's next turn. Machines may have their turns in any order, so a host can have a thread for each, with
//! the stand behind a lock.
//!
//! `PartText` has the text of what was handed out last, as a part of the run.
//!
//! **Invariant** (`HeadlineOf`, `NoWorkIsAsleep`): that of a core (gmp_core), whose acts a turn makes and no others.
//!
//! `Stand::open` refuses limits that don't fit and want of memory. A turn refuses nothing: an ask or an answer that the machine doesn't want
//! is let go. `hand_out` makes room in a full history. Only `open`, the first `hand_out`, what
//! tells a text, and a make take memory.
#![tactic(auto)]

mod dealing;
mod event;
mod parting;
mod stand;
mod telling;

pub use event::{Event, Handed};
pub use parting::PartText;
pub use stand::Stand;
pub use telling::TextError;
