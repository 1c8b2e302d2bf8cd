//! A start: a state of the scheduler as a plain value, from which a run may go on.
//!
//! A `Start` has all that a state has while the run lasts, in public fields; whoever reads one from a text may put anything into them.
//! The rule is that its parts fit together as those of a state that a run reaches: `Start::fits` tests it, and each step keeps it, wherever
//! the run began. Refused are as many entries as the limit allows, or more; a channel with more values than room; a wait that arrived after
//! all waits, at once with another, or whose cases don't rise; an epoch that is 0 for one that was started, above 0 for one that wasn't, or
//! above what the entries allow; a machine with two goroutines or two processors; one that holds a processor, spins or is marked and isn't
//! awake; one that runs a goroutine with no processor, or spins while it runs one; and a blocking call without its machine, or a machine in
//! a blocking call without its goroutine.
//!
//! A start that passes needn't be a state that a run from the opening reaches: a waiter that could proceed passes. Nor does the test ask
//! how long the lists are, how many processors are active, or what is stored for whom: `forms` says what a status may store, and the laws
//! that steps keep this too.
#![tactic(auto)]

mod copying;
mod counting;
mod fit;
pub mod forms;
pub mod laws;
mod opening;
mod sameness;
mod start;

pub use copying::{copied_row, copied_rows};
pub use start::{Start, StartChannel};
