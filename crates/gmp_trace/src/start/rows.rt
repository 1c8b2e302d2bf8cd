//! The lines of goroutines, one each, in order: as many as the limits' line has bodies.
ghost use Rattle.std.specs.Prelude.{◌≡◌, ◌≤◌, ◌<◌, length, IfOk, IfErr, MatchOption};
ghost use Rattle.gmp_trace.specs.StartNext.{AreRows, IsNext, NoRow, RowsEnd, behind_rows, row_line};

use crate::start::at::row_at;
use crate::start::heads::right_row;
use gmp_seq::{Goroutine, Limits};
use std::alloc::{AllocError, Global};

/// The goroutine of the next number, where its line stands there and is right, and the text behind the line.
fn row_next<'a>(
    limits: Limits,
    bodies: u16,
    channels: u16,
    count: u16,
    text: &'a [u8],
    words: &mut Vec<&'a [u8]>,
    line: &mut Vec<u8>,
) -> Result<Option<(Goroutine, &'a [u8])>, AllocError>
    requires machines { limits.machines ≤ 64 }
    requires channels { channels ≤ 1024 }
    requires count { count < bodies }
    ensures { IfOk result (λ o. MatchOption o (NoRow limits bodies channels count text.now) (λ r. IsNext limits bodies (behind_rows channels count) text.now (row_line count r.0) r.1.now)) }
{
    let Some((g, row, rest)) = row_at(text, words, line)? else {
        return Ok(None);
    };
    if g != count {
        return Ok(None);
    }
    let Some(row) = right_row(limits, channels, row) else {
        return Ok(None);
    };
    Ok(Some((row, rest)))
}

/// All goroutines, and the text behind their lines, or how many of the lines are right before the first that isn't.
pub fn rows_of<'a>(
    alloc: Global,
    limits: Limits,
    bodies: u16,
    channels: u16,
    text: &'a [u8],
    words: &mut Vec<&'a [u8]>,
    line: &mut Vec<u8>,
) -> Result<Result<(Vec<Goroutine>, &'a [u8]), u16>, AllocError>
    requires machines { limits.machines ≤ 64 }
    requires channels { channels ≤ 1024 }
    ensures right { IfOk result (λ o. IfOk o (λ r. AreRows limits bodies channels text.now r.0.items r.1.now × (length r.0.items ≡ bodies))) }
    ensures fault { IfOk result (λ o. IfErr o (λ count. RowsEnd limits bodies channels text.now count)) }
{
    let mut rows = Vec::new(alloc);
    let mut rest = text;
    for count in 0..bodies {
        let Some((row, more)) = row_next(limits, bodies, channels, count, rest, words, line)? else {
            return Ok(Err(count));
        };
        rows.push(row)?;
        rest = more;
    }
    Ok(Ok((rows, rest)))
}
