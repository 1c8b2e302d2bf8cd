//! Who is not done at the end of a run, and what it waits for, in words; and who ran lately.
//!
//! The plain scheduler replays the history, and its rows say it. By the same words `gmp explain` says it.
#![tactic(auto)]

mod doing;
mod ending;

pub use doing::{Dealing, Doing};
pub use ending::{AtEnd, Does, Waiting, at_end};
