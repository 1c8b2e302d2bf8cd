//! The command `gmp step` as a function: a script's run by several machines over one core, in one thread, and its trace.
//!
//! A script has bodies, channels and readings of the clock. Turns go round by number, from machine 0, one act a turn, and a machine that
//! the book has parked is passed over. So the same script and the same options give the same trace, byte for byte, and a person can work it
//! out line by line.
//!
//! **Invariant**: the run is the one that the definitions name (`IsPlayed`: one act of gmp_acts after another, with what each reads from
//! the script), and what is written is the trace of that run, which is legal.
//!
//! Refused are a bad line of the script, an input too long or unreadable, limits out of range, an output that fails, and want of memory;
//! each has its status and text (`Ended` of gmp_words). A run that comes to no outcome ends after `--acts` acts, with `end running` and
//! status 4.
#![tactic(auto)]

mod clock;
mod stepping;

pub use stepping::step;
