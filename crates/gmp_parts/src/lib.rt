//! Parts of one run: traces one behind another, each of which goes on where the one before stops. As one trace they are the run.
//!
//! `writer` writes them: a [`PartWriter`] takes a run's history piece by piece, sees itself that each entry is a step, by the plain
//! scheduler of gmp_check, and writes each piece as a trace that `gmp check` passes. `outlet` is where they go, `telling` the lines by which
//! `gmp join` tells their sum, and `laws` what a row of written parts is.
//!
//! **Invariant**: what was written, one part behind another, is one legal run from the opening to the present state, whoever handed the
//! entries in. Of it the state alone is kept, so the memory doesn't grow with the run.
//!
//! Refused are entries that don't go on from there (`NoStep`), want of memory, and an outlet that fails. Behind a refusal nothing is written
//! any more.
#![tactic(auto)]

mod error;
pub mod laws;
mod outlet;
mod telling;
mod writer;

pub use error::PartError;
pub use outlet::{Outlet, Together};
pub use telling::tell;
pub use writer::PartWriter;
