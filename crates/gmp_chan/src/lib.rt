//! The channels, and those who wait on them (Go specification, Channel types, Send statements, Receive operator, Close). Goroutines are
//! numbers here: what becomes of one that is served is done above, by what a call answers (`Transfer`, `Waiter`).
//!
//! The invariant: no channel holds more values than it has room for, and those who wait stand in order of arrival and then of case, each
//! with the offers that it began with, until it is served or withdrawn; then none of them is left.
//!
//! Nothing is refused but a `make` or an opening for want of memory, which take all room that is ever needed. A call requires that its
//! channel was made (`has`); nil is a channel on which nothing proceeds.
//!
//! What a call costs does not grow with those who wait: a send, a receive, `can` and `first_waiting` look at who waits first on the
//! channel, `wait_on` links each offer behind the last one, `has_offer` looks at the goroutine's first offer, and a withdrawal unlinks the
//! goroutine's own. `is_later` alone, which tests what `wait_on` requires, looks at all slots.
#![tactic(auto)]

mod cases;
mod channel;
mod channels;
mod rings;
mod waiters;

pub use cases::cases_rise;
pub use channels::Channels;
