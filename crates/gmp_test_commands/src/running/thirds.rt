//! A short trace cut in three, at each two of its entries: joined by `gmp join` the parts are the whole, and in another order they are apart.

use gmp_check_cli::cut;
use gmp_join_cli::join;
use gmp_words::Ended;
use std::alloc::{AllocError, Global};

/// The lines before the entries of a trace from its opening, and of a part of one with one processor, one goroutine and no channel.
const HEADS: (usize, usize) = (3, 10);

/// The part of the trace from this entry on.
fn from(alloc: Global, trace: &[u8], at: usize) -> Vec<u8> {
    let mut part = Vec::new(alloc);
    let mut reader = trace;
    let _ended = cut(alloc, at as u64, &mut reader, &mut part);
    part
}

/// So many lines of the text, and then the end of a run that lasts.
fn put_first(parts: &mut Vec<u8>, text: &[u8], lines: usize) -> Result<(), AllocError> {
    for line in text.split_inclusive(|byte| *byte == b'\n').take(lines) {
        parts.extend_from_slice(line)?;
    }
    parts.extend_from_slice(b"end running\n")
}

/// What `gmp join` prints of these parts, or says.
fn told(alloc: Global, parts: &[u8]) -> Result<String, AllocError> {
    let mut printed = Vec::new(alloc);
    let mut reader = parts;
    let ended = join(alloc, &mut reader, &mut printed, &mut ());
    let printed = str::from_utf8(&printed).unwrap_or("?");
    format!(in alloc; "{} {}{printed}", ended.status, ended.said)
}

/// What is told of the three parts, the second of which goes from one of these entries to the other; and of them where the last two change
/// places.
fn both(
    alloc: Global,
    trace: &[u8],
    at: usize,
    next: usize,
) -> Result<(String, String), AllocError> {
    let (rest, last) = (from(alloc, trace, at), from(alloc, trace, next));
    let (whole_head, part_head) = HEADS;
    let mut parts = Vec::new(alloc);
    put_first(&mut parts, trace, whole_head.wrapping_add(at))?;
    let mut swapped = parts.to_vec(alloc)?;
    swapped.extend_from_slice(&last)?;
    let lines = part_head.wrapping_add(next.wrapping_sub(at));
    put_first(&mut parts, &rest, lines)?;
    put_first(&mut swapped, &rest, lines)?;
    parts.extend_from_slice(&last)?;
    Ok((told(alloc, &parts)?, told(alloc, &swapped)?))
}

/// What is told of the trace cut at each two of its entries.
pub fn thirds(alloc: Global, trace: &[u8], out: &mut Vec<u8>) -> Result<(), Ended> {
    let entries = str::from_utf8(trace).unwrap_or("").matches(" -> ").count();
    for at in 0..entries {
        for next in at.saturating_add(1)..entries {
            let (joined, swapped) = both(alloc, trace, at, next)?;
            out.extend_from_slice(joined.as_bytes())?;
            out.extend_from_slice(swapped.as_bytes())?;
        }
    }
    Ok(())
}
