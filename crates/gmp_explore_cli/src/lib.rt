//! The command `gmp explore` as a function: it reads a script, has all its runs looked at (gmp_explore), and writes that no run has what is
//! not wanted, or by which choices one comes to it.
//!
//! What is found is a path of the small system (gmp_scene): `asking` is what goroutines ask on it, `reading` what a scene says of an ask,
//! `telling` writes it in words, over `turns` and `lines`. With `--trace` a run of the scheduler follows it, one call after another: `stage` is the run with its
//! machines, `playing` the choices, `ending` what comes behind the last, `tracing` all of them. `exploring` is the command.
//!
//! **Invariant**: what is written as a trace is the text of a legal run, since the run is kept by a journal (gmp_journal), whatever is called.
//! Where a call is refused, or answered otherwise than the choices say, there is no trace, and that is said.
//!
//! Refused is what `gmp step` refuses of a script, of limits and of the output, and want of memory.
#![tactic(auto)]

mod asking;
mod ending;
mod exploring;
mod lines;
mod playing;
mod reading;
mod stage;
mod telling;
mod tracing;
mod turns;
mod unplayed;

pub use exploring::{Found, explore};
