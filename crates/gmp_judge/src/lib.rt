//! How a command reads a trace and judges it: the same for each that takes one, so what they say of it is true by one definition
//! (`SaysOfTrace`).
//!
//! It stands on nothing of the book: what made the trace is not what judges it, and a trace may come from anywhere.
//!
//! **Invariant**: a text goes with what is wrong (`Ended`): an input that is longer than 1 GiB or can't be read, the first bad line, and want
//! of memory.
//!
//! Long inputs take a while, so a caller may be told how far the check is (`Progress`); what is found doesn't depend on it.
#![tactic(auto)]

mod judging;
mod progress;

pub use judging::{Judgement, judged, read_trace, right_trace};
pub use progress::Progress;
