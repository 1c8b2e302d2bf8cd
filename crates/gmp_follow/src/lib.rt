//! Whether a history is a run of a script's bodies: what `gmp run` recorded is held against the script, so that what is proved of runs of
//! the script is known of it.
//!
//! [`follows`] plays the entries one after another by a `Replay` of gmp_check, and beside it a place in each body's commands, with what the
//! body is told next: a call that a body asks for has to be what the goroutine that its machine runs asks next. `calls` compares, `bodies`
//! has the places.
//! **Invariant**: the places, and what is told next, are those of the one run of the script's bodies that the entries so far can be.
//!
//! Refused are limits that no run may have, and want of memory (`OpenError`). A make that is refused memory has no entry, though its body
//! has gone on: a history beside which that happened need not follow its script.
#![tactic(auto)]

mod bodies;
mod calls;
mod follow;

pub use follow::follows;
