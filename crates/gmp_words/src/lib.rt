//! What the program `gmp` is told and what it says: its command line, its input whole, scripts read from it, and how it ends. It stands on
//! none of the commands, which stand on it.
//!
//! **Invariant**: `Settings` has each number within its range, and an `Ended` has an exit status and a text that go together; no other pair
//! can be made.
//!
//! A command line is refused with status 64 and a text: an unknown word, an option given twice, a number out of range or not in digits
//! alone, options that don't go together, a word that isn't UTF-8. Help and the version that are asked for are no refusal. An input is refused where it is too long
//! (`MAX_SCRIPT`, `MAX_TRACE`) or can't be read, a script by its first bad line.
//!
//! `words`, `numeric`, `wanting` and `drawing` read the command line by `commands` (with the texts of `helps`), `options` has what it says, `host` hands it in, `reading`
//! and `parsing` read the input, `ended` and `said` are the end, `tips` what a person is
//! told besides.
#![tactic(auto)]

mod commands;
mod drawing;
mod ended;
mod helps;
mod host;
mod numeric;
mod options;
mod parsing;
mod reading;
mod said;
mod tips;
mod wanting;
mod words;

pub use commands::MOST_ENTRIES;
pub use ended::{Ended, Verdict};
pub use host::arguments;
pub use options::{By, CommandLine, Segments, Settings, Task, Wanted};
pub use parsing::script;
pub use reading::{MAX_SCRIPT, MAX_TRACE, input};
pub use said::{Said, Untraced};
pub use tips::{Limit, Tip, tip_of};
pub use words::command_line;
