//! Traces by the libraries' functions: read and written, summed up, and joined.

ghost use Rattle.std.specs.Prelude.{IfOk, Option};
ghost use Rattle.gmp_check.specs.Checked.{IsRight};
ghost use Rattle.gmp_seq.specs.declared.call.Outcome.{Outcome};
ghost use Rattle.gmp_trace.specs.Text.{content};

use crate::streams::Room;
use gmp_check::{JoinError, check, join};
use gmp_trace::{Trace, read, summary, write};
use gmp_words::Ended;
use std::alloc::Global;

/// Reads a trace, and writes it.
pub fn write_to(alloc: Global, text: &[u8], output: &mut Room) -> Result<Ended, Ended> {
    let trace = read(alloc, text)?;
    write(alloc, &trace, output)?;
    Ok(Ended::passed())
}

/// Reads a trace, and writes its summary.
pub fn sum_up(alloc: Global, text: &[u8], output: &mut Room) -> Result<Ended, Ended> {
    let trace = read(alloc, text)?;
    summary(alloc, &trace, output)?;
    Ok(Ended::passed())
}

/// The right trace whose text this is.
fn right(alloc: Global, text: &str) -> Result<Trace, Ended>
    ensures { IfOk result (λ x. (o : Option Outcome) × IsRight (content x) o) }
{
    let trace = read(alloc, text.as_bytes())?;
    check(alloc, &trace)?;
    Ok(trace)
}

/// Two right traces as one. The second begins at the last first line.
pub fn joined(alloc: Global, text: &[u8], out: &mut Vec<u8>) -> Result<(), Ended> {
    let text = str::from_utf8(text).unwrap_or("");
    let at = text.rfind("gmp-trace ").unwrap_or(0);
    let first = right(alloc, text.get(..at).unwrap_or(""))?;
    let second = right(alloc, text.get(at..).unwrap_or(""))?;
    match join(alloc, &first, &second) {
        Ok(trace) => Ok(write(alloc, &trace, out)?),
        Err(JoinError::Apart) => Err(Ended::apart(2)),
        Err(JoinError::OutOfMemory) => Err(Ended::out_of_memory()),
    }
}
