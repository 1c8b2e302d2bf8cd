//! What is left of a run.

use gmp_history::History;
use gmp_seq::{Limits, Outcome};

/// What a run was opened with, its history but for what was handed out, how it ended, and all bodies and owners, in order.
#[derive(Drop)]
pub struct Report<T, Q> {
    /// Those of the opening.
    pub limits: Limits,
    /// What the channels of the opening could hold.
    pub capacities: Vec<u32>,
    /// Every accepted call that was not handed out, with its reply, in order.
    pub history: History,
    /// How the run ended, if it wasn't stopped before.
    pub outcome: Option<Outcome>,
    /// By goroutine.
    pub bodies: Vec<T>,
    /// By processor.
    pub owners: Vec<Q>,
}
