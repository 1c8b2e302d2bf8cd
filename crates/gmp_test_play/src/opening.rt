//! The lines of a file (`Line`, with its number), and with what each of its runs begins (`Opening`).

use crate::error::PlayError;
use crate::words::line_of;
use gmp_history::History;
use gmp_seq::{Limits, Outcome};
use gmp_trace::{End, put_end, read_capacities, read_limits};
use std::alloc::Global;

/// A line with its number.
pub type Line<'a> = (usize, &'a str);

/// With what a run begins.
#[derive(Drop)]
pub struct Opening {
    pub limits: Limits,
    pub bodies: u16,
    pub capacities: Vec<u32>,
}

/// Puts the lines of a file to the list, but for empty ones, comments and the first of a trace. The last has to be the line of an end. `at`
/// becomes the number of the last.
pub fn put_lines<'a>(
    list: &mut Vec<Line<'a>>,
    at: &mut usize,
    text: &'a str,
) -> Result<(), PlayError> {
    let mut is_ended = false;
    for line in text.lines() {
        *at = at.wrapping_add(1);
        if !(line.is_empty() || line.starts_with('#') || line == "gmp-trace 1") {
            let pushed = list.push((*at, line));
            if pushed.is_err() {
                return Err(PlayError::OutOfMemory);
            }
            is_ended = line.starts_with("end");
        }
    }
    if is_ended {
        Ok(())
    } else {
        Err(PlayError::NoEnd)
    }
}

/// The line of a run's end.
pub fn end_line(alloc: Global, outcome: Option<Outcome>) -> Result<String, PlayError> {
    let mut text = Vec::new(alloc);
    put_end(&mut text, End::of(outcome))?;
    line_of(text)
}

impl Opening {
    /// What the first lines of a run say, its limits and its capacities. `at` becomes the number of the line that is read.
    pub fn read(
        alloc: Global,
        at: &mut usize,
        limits: Line,
        capacities: Line,
    ) -> Result<Opening, PlayError> {
        *at = limits.0;
        let Some((limits, bodies)) = read_limits(alloc, limits.1.as_bytes())? else {
            return Err(PlayError::NoOpening);
        };
        *at = capacities.0;
        let Some(capacities) = read_capacities(alloc, capacities.1.as_bytes())? else {
            return Err(PlayError::NoOpening);
        };
        Ok(Opening {
            limits,
            bodies,
            capacities,
        })
    }

    /// The outcome of these entries, by the plain scheduler.
    pub fn outcome(&self, alloc: Global, entries: &History) -> Result<Option<Outcome>, PlayError> {
        match gmp_check::outcome_of(alloc, self.limits, self.bodies, &self.capacities, entries) {
            Ok(outcome) => Ok(outcome),
            Err(why) => Err(PlayError::Replayed(why)),
        }
    }
}
