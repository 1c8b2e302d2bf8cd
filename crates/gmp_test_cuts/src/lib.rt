//! Cuts a trace at each of its entries: both parts are right, and joined they are the trace again, byte for byte. For programs of tests,
//! which print what falls short (`CutError`).
//!
//! It goes by the texts, as `gmp cut` does: each part is written, read again and checked. A trace that is not right, or that has no text,
//! falls short too.
//!
//! Each cut replays the trace, so a long one is cut in its first entries alone.
#![tactic(auto)]

ghost use Rattle.std.specs.Prelude.{IfOk, Option};
ghost use Rattle.gmp_check.specs.Checked.{IsRight};
ghost use Rattle.gmp_seq.specs.declared.call.Outcome.{Outcome};
ghost use Rattle.gmp_trace.specs.Text.{IsCounted, begins_at, content};

use gmp_check::{JoinError, SplitError, check, join, split};
use gmp_trace::{Bad, Trace, WriteError, read, write};
use std::alloc::{AllocError, Global};
use thiserror::Error;

/// What falls short.
#[derive(Debug, Drop, Error)]
pub enum CutError {
    #[error("out of memory")]
    OutOfMemory,
    #[error("a part is wrong, {0}")]
    Wrong(Bad),
    #[error("there is no part from entry {0} on")]
    Past(usize),
    #[error("the parts at entry {0} don't make the trace")]
    Apart(usize),
}

impl From<AllocError> for CutError {
    fn from(_error: AllocError) -> CutError {
        CutError::OutOfMemory
    }
}

impl From<Bad> for CutError {
    fn from(bad: Bad) -> CutError {
        CutError::Wrong(bad)
    }
}

impl From<WriteError> for CutError {
    fn from(_error: WriteError) -> CutError {
        CutError::OutOfMemory
    }
}

/// The right trace whose text this is.
fn right(alloc: Global, text: &[u8]) -> Result<Trace, CutError>
    ensures right { IfOk result (λ x. (o : Option Outcome) × IsRight (content x) o) }
    ensures counted { IfOk result (λ x. IsCounted (begins_at x.beginning)) }
{
    let trace = read(alloc, text)?;
    let _outcome = check(alloc, &trace)?;
    Ok(trace)
}

/// The text of the trace.
fn written(alloc: Global, trace: &Trace) -> Result<Vec<u8>, CutError>
    requires { IsCounted (begins_at trace.now.beginning) }
{
    let mut text = Vec::new(alloc);
    write(alloc, trace, &mut text)?;
    Ok(text)
}

/// So many lines of the text, and then the end of a run that lasts.
fn first_text(alloc: Global, text: &[u8], lines: usize) -> Result<Vec<u8>, AllocError> {
    let mut first = Vec::new(alloc);
    for line in text.split(|byte| *byte == b'\n').take(lines) {
        first.extend_from_slice(line)?;
        first.push(b'\n')?;
    }
    first.extend_from_slice(b"end running\n")?;
    Ok(first)
}

/// Cuts the trace of this text at entry n, behind so many lines, and joins its parts.
fn cut_at(alloc: Global, trace: &Trace, text: &[u8], lines: usize, n: usize) -> Result<(), CutError>
    requires { (o : Option Outcome) × IsRight (content trace.now) o }
{
    let second = match split(alloc, trace, n as u64) {
        Ok(second) => second,
        Err(SplitError::Past) => return Err(CutError::Past(n)),
        Err(SplitError::OutOfMemory) => return Err(CutError::OutOfMemory),
    };
    let second = right(alloc, &written(alloc, &second)?)?;
    let first = right(alloc, &first_text(alloc, text, lines)?)?;
    let whole = match join(alloc, &first, &second) {
        Ok(whole) => whole,
        Err(JoinError::Apart) => return Err(CutError::Apart(n)),
        Err(JoinError::OutOfMemory) => return Err(CutError::OutOfMemory),
    };
    if written(alloc, &whole)?.as_slice() == text {
        Ok(())
    } else {
        Err(CutError::Apart(n))
    }
}

/// Cuts the trace at each `every`th of its entries, of which the first stands behind so many lines.
fn cut_all(alloc: Global, text: &[u8], before: usize, every: usize) -> Result<(), CutError> {
    let trace = right(alloc, text)?;
    for n in 0..trace.entries.len() {
        if n % every.max(1) == 0 {
            cut_at(alloc, &trace, text, before.saturating_add(n), n)?;
        }
    }
    Ok(())
}

/// Cuts the right trace of this text, or that of its first entries where it has more than `most`, at its first entry and each `every`th
/// after that.
pub fn cut_everywhere(
    alloc: Global,
    text: &[u8],
    most: usize,
    every: usize,
) -> Result<(), CutError> {
    let entries = right(alloc, text)?.entries.len();
    let lines = text.iter().filter(|byte| **byte == b'\n').count();
    let before = lines.saturating_sub(entries).saturating_sub(1);
    if entries <= most {
        return cut_all(alloc, text, before, every);
    }
    let first = first_text(alloc, text, before.saturating_add(most))?;
    cut_all(alloc, &first, before, every)
}
