//! Scripts of goroutines: texts that a person writes. What a line says, which lines make which bodies, and what a body asks.
//!
//! A script is a list of asks for each body, behind the channels of the opening and the readings of the clock. Its one branch is the `else` of
//! a receive: a body passes over all else that it is told, so what a run does can be worked out by hand.
//!
//! **Invariant**: what is kept of the lines so far is the script that they are (`IsScript`); a body never begins with `again`, and asks
//! `exit` once its commands are spent.
//!
//! A line is bad where it says nothing that is known, has a number out of range, a tab or a carriage return outside a comment, or stands in
//! the wrong place: a channel or the clock behind a body, a command before one. A bad line leaves the script as it was; who says so, and
//! how much is read, is the program's. Limits are not looked at here.
//!
//! `lines` reads a line, with `lines/selects` and `lines/clocks`; `commands` is what a body asks, `reader` reads it, `scripts` is the script
//! as a whole. `misfits` and `strays` tell a person what is wrong with a bad line, and what a good one names that isn't there.
#![tactic(auto)]

mod commands;
mod digits;
mod lines;
mod misfits;
mod reader;
mod scripts;
mod strays;

pub use commands::{Command, ScriptBody};
pub use digits::number;
pub use misfits::{Misfit, Operand, misfit_of};
pub use reader::Reader;
pub use scripts::Script;
pub use strays::{Stray, first_stray};
