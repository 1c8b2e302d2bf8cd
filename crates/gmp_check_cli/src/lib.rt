//! The commands `gmp check` and `gmp cut` as functions: each reads a trace, has the plain scheduler check it (gmp_judge), and then writes its
//! summary, or the part of it from an entry on.
//!
//! They stand on nothing of the book: what made the trace is not what judges it, and a trace may come from anywhere.
//!
//! **Invariant**: a status and a text go together (`Ended`), and nothing is written before the trace is found right. Whatever is wrong ends
//! the command with its own text: what gmp_judge says of the input, no such part, an output that fails, and want of memory.
#![tactic(auto)]

mod checking;
mod cutting;

pub use checking::check;
pub use cutting::cut;
