//! The first entries of a run as a trace, cut at each of them.

use crate::error::RunError;
use crate::limits::{BODIES, CAPACITIES, LIMITS};
use gmp_history::History;
use gmp_seq::Outcome;
use gmp_test_cuts::cut_everywhere;
use gmp_trace::{BeginningView, End, TraceView, write_view};
use std::alloc::Global;

/// The first so many entries of a run are cut.
const MOST: usize = 2_000;

/// The parts of the run's first entries are right, and make them when they are joined, at each `every`th of these entries.
pub fn cut(
    alloc: Global,
    history: &History,
    outcome: Option<Outcome>,
    every: usize,
) -> Result<(), RunError> {
    let trace = TraceView {
        limits: LIMITS,
        bodies: BODIES,
        beginning: BeginningView::Opening(&CAPACITIES),
        entries: history,
        end: End::of(outcome),
    };
    let mut text = Vec::new(alloc);
    if write_view(alloc, trace, &mut text).is_err() {
        return Err(RunError::OutOfMemory);
    }
    cut_everywhere(alloc, &text, MOST, every).map_err(RunError::Uncut)
}
