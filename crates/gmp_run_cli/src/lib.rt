//! The command `gmp run` as functions: `run` has a script's bodies run by machines in threads, and `told` audits what is reported and
//! writes it; `run_in_segments` hands the history out in parts while the run goes on.
//!
//! **Invariant**: what is written is the trace or the summary of the run that is reported, or its parts, and that is a legal run from the
//! opening under the limits of the command line, and what the script's bodies said. Which run it is depends on who comes first; a worked trace can't be compared with it.
//!
//! Refused are a bad line of the script, limits out of range, more bodies than a trace can count, an input or an output that fails, and
//! want of memory. An audit that finds a machine whose count of calls isn't that of its entries ends with status 6 and names it; of a
//! report by `run` there is none (`run`, `mismatch`), and all the same it is asked. A run that is held against its script (`--scripted`) and
//! is none of it ends with status 6 too, as where memory was refused to a make. Of a run in segments the audit is of the whole alone, and
//! none is found wrong (`run_in_segments`, `audit`). A run that never ends isn't excluded: it waits for threads.
#![tactic(auto)]

mod owning;
mod parting;
mod running;
mod segments;
mod telling;

pub use running::run;
pub use segments::{Segmented, run_in_segments};
pub use telling::told;
