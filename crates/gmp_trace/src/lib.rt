//! The trace: a run of the scheduler as a text, one line an entry, to be kept, compared and judged.
//!
//! Line 1 is `gmp-trace 1`, `gmp-trace 2` or `gmp-trace 4`, and line 2 has the limits. In version 1 line 3 has the capacities of the channels
//! at the opening; in versions 2 and 4 lines 3 to that with `begin` have the state at which the run goes on. Version 4 is of a run whose
//! history is handed out in segments: its limits have the room of the history. Then each entry has a line,
//! `N M.K CALL -> REPLY`: its number in the run, from 0, its machine, how many entries that machine made before, the call, and the reply.
//! The last line says how the run ended.
//!
//! The text is ASCII. Each line ends with a line feed, and its words are parted by one space. A number is decimal, with no leading zero. A
//! moment, as of `tick` or `sleep`, is in nanoseconds.
//!
//! **Invariant**: a trace has one text (`text`), `write` writes exactly that, and `read` takes back that and no other spelling. `read`
//! refuses the first bad line by its number and a word (`Bad`, `Why`): a spelling, a number that isn't next, a limit out of range, a start
//! that doesn't fit together. Whether each entry is a step of the scheduler it doesn't ask: that is `check` of gmp_check.
//! Writing: `line` over `call`, `reply` and `start/put`, by `place` and `put`. Reading: `whole` over `at` and `start/at`, which guess a
//! line (`guess`, `guess_reply`) from its `words`, write the guess and compare.
#![tactic(auto)]

mod at;
mod bad;
mod call;
mod digits;
mod guess;
mod guess_reply;
pub mod laws;
mod line;
mod place;
mod put;
mod reading;
mod reply;
mod start;
mod summing;
mod trace;
mod watch;
mod whole;
mod words;
mod writing;

pub use bad::{Bad, Why};
pub use line::{put_end, put_entry};
pub use reading::{read_call, read_capacities, read_entry, read_limits};
pub use start::{put_start, read_whole_start};
pub use summing::{CALLS, call_name, call_place, summary};
pub use trace::{Beginning, BeginningView, End, Trace, TraceView, is_whole};
pub use watch::{Watch, Work, tell};
pub use whole::{read, read_watched};
pub use writing::{WriteError, write, write_view};
