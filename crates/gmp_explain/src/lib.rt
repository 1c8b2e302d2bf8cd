//! What a trace tells of its run, in words: how it ended; what each goroutine does and since when; of each channel that somebody waits on or
//! that holds values what it is, its values, who waits, and who ever dealt on it; who waits for whom in a circle; with
//! `--all` what each machine and processor did. Of an entry that is no step of the scheduler it says what was before it, and which replies are allowed there, or what is missing.
//!
//! **Invariant**: the text is the lines of the facts that are told, one after another, each in its own words (`Lines`: `told`). Some facts are
//! remarks on a state or on an entry that is no step (`remark`), and of these the text has, in order, just what is to be said. Of the state to
//! which the checker's own replay comes (`story_of`): how the run ended and after how many entries; what each goroutine does, the cases of its
//! select, whether it is a leak; what each channel is that somebody waits on or that holds values, its values, and who waits there
//! (`state_said`; `explain`: `told`). Of an entry that is no step: its line, under some number; what its machine does, the goroutine there, the
//! one that it names, with its latest ticket, and what the channels are that it names; then either that the run was over, what
//! `Replay::lacks` names, or which replies are allowed. A reply is called so only where the checker takes it, in the words of a trace, and none
//! that is allowed and fits a trace is left out (gmp_allowed; `AreOfEntry`; `explain`: `riddle`). That the other facts are told or true, as
//! since when a goroutine does what it does, and what `--json` says, no clause speaks of.
//!
//! One fact a line, of at most 120 columns; or the same facts as one JSON object.
//!
//! A trace that is not right ends as `gmp check` ends; where an entry is no step, or the end is not that of the run, the facts say why.
//! Refused is what `gmp check` refuses, and want of memory.
#![tactic(auto)]

mod before;
mod channels;
mod explaining;
mod fact;
mod heard;
mod json;
mod knot;
mod lines;
mod riddle;
mod telling;
mod text;
mod told;

pub use explaining::{Explained, explain};
pub use fact::{Fact, Sink};
pub use told::{Story, story_of};
