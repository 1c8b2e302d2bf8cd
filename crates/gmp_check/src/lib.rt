//! The plain, slow scheduler: which entries of a history are steps. It is the second opinion on what the book and the machines did, and
//! uses none of the crates of the book.
//!
//! [`Replay::step`] answers yes exactly where the definitions of `gmp_seq` have a step with the entry's machine, number, call and reply,
//! whichever choice the reply names, and takes it. [`outcome_of`] answers the outcome of a whole history, or its first entry that is no
//! step, and [`check`] the first line of a trace that is wrong. A replay begins at an opening or at any start. [`split`] and [`join`] take
//! a trace apart and put two together.
//! **Invariant**: the parts of a replay's state fit together, wherever the run began (`IsConsistentUnder`). It keeps no history: who asks
//! has the entries.
//!
//! Refused are limits, bodies or capacities that no run may have (`OpenError`), an entry that is no step (`Ok(false)`, and nothing
//! changed), and want of memory, which a beginning and a make alone can have.
//! Each relation of the definitions has a method that answers with the reply in hand (`Decides`): no list of allowed replies, and no test
//! beside a change. Who asks why an entry is no step tries other replies on a copy (`Replay::allows`), and is told what its call lacks. Tables are plain and scanned: `channels`, `machines`, `table`, together `state`; `replay` is a run over it, `checked` a
//! trace, `pieces` and `cut` its parts.
#![tactic(auto)]

mod answers;
mod begin;
mod channels;
mod checked;
mod cut;
mod error;
pub mod laws;
mod machines;
mod pieces;
mod replay;
mod state;
mod table;

pub use begin::{meets, state_before};
pub use checked::{begun, check, check_view};
pub use error::{JoinError, OpenError, OutOfMemory, ReplayError, SplitError};
pub use pieces::{join, split};
pub use replay::{Replay, outcome_of};
pub use state::Need;
