//! Which replies are allowed at an entry of a trace (`allowed`), and who waits on a channel (`waiter_at`).
//!
//! Each reply that the call could have by the numbers of the state is tried by the checker. **Invariant**: the replies that are found are those
//! with which the entry is a step of the scheduler (`right`), and none that fits a trace is left out (`whole`).
//! Refused is want of memory.
#![tactic(auto)]

mod allowing;
mod dealing;
mod numbered;
mod replies;

pub use allowing::allowed;
pub use dealing::waiter_at;
