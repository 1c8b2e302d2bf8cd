//! A trace as the Trace Event format, one JSON object, which Perfetto and chrome://tracing open: a process of goroutines with a thread for
//! each, one of machines, and one of channels.
//!
//! gmp_lanes tells what is shown, once with a lane for each machine and once for each goroutine. `sheet` makes the `event`s of it, and
//! `document` their text. An entry's number is its time, in microseconds, and its length is one.
//!
//! **Invariant**: slices of a thread hold one another or stand apart; an arrow leaves a slice that is there, and comes to one.
//!
//! Refused is what `gmp check` refuses (`command`), an output that fails, and want of memory.
#![tactic(auto)]

mod command;
mod document;
mod event;
mod sheet;

pub use command::perfetto;
