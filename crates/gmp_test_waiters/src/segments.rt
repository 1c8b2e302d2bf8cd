//! Runs in segments: `gmp join` says of the parts what is told of them, which ends with the row's text.

use crate::row::Row;
use crate::waiting::Stopped;
use crate::wrong::Wrong;
use gmp_join_cli::join;
use gmp_parts::Together;
use gmp_run_cli::{Segmented, run_in_segments};
use std::alloc::Global;
use std::sync::Wait;
use std::thread::Threads;

/// `gmp join` passes these parts, and writes this of them.
fn are_joined(alloc: Global, mut parts: &[u8], told: &[u8]) -> Result<(), Wrong> {
    let mut output = Vec::new(alloc);
    match join(alloc, &mut parts, &mut output, &mut ()).status {
        0 if output.as_slice() == told => Ok(()),
        0 => Err(Wrong::OtherText),
        status => Err(Wrong::Number("status of `gmp join`", u64::from(status))),
    }
}

/// Tries the row.
pub fn tried<R: Threads + Wait + Sync>(rt: &R, alloc: Global, row: &str) -> Result<(), Wrong> {
    let row = Row::read(row)?;
    let settings = row.settings(alloc)?;
    let Some(segments) = settings.segments else {
        return Err(Wrong::Unreadable);
    };
    let input = row.lines(alloc)?;
    let (mut input, mut output) = (input.as_slice(), Vec::new(alloc));
    let ran = run_in_segments(
        rt,
        alloc,
        &settings,
        segments,
        Together(Vec::new(alloc)),
        &mut input,
        &mut output,
        &Stopped,
    );
    let Segmented { ended, outlet } = ran;
    row.ends_with(ended.status)?;
    let Some(Together(parts)) = outlet else {
        return Err(Wrong::OtherEnd);
    };
    are_joined(alloc, &parts, &output)?;
    match output.as_slice() {
        [told @ .., b'\n'] if told.ends_with(row.text.as_bytes()) => Ok(()),
        _ => Err(Wrong::OtherText),
    }
}
