//! Selects: which cases can proceed, which of them is taken, and who waits for any of its cases (Go specification, Select statements). It
//! keeps nothing of its own: cases are looked at, and offers stand, in gmp_chan.
//!
//! A select is made in steps: `none_missing`, `ready_cases` and `choose`; then `complete` for the case that was chosen, or else `register`,
//! by which the goroutine waits. What it keeps to: a goroutine that was served, or whose offers were withdrawn, has no offer left on any
//! channel, so one communication of a select happens.
//!
//! Go chooses uniformly among the cases that can proceed. Here a word that the caller draws decides, so that a run can be made again from
//! its words; how it is drawn nobody says.
//!
//! Nothing here takes memory or refuses: that a case names a channel that was made is asked first. What a select costs is what its cases
//! cost: each looks at who waits first on its channel.
#![tactic(auto)]

mod choosing;
mod waiting;

pub use choosing::{choose, ready_cases};
pub use waiting::{complete, none_missing, register, withdraw_all};
