//! The six lines of a start before those of channels and goroutines: each is read where it may stand, or nothing that may stand there
//! stands there. What a line says must be within the limits: lists as long as these have machines and processors, and machines that are
//! there.
ghost use Rattle.std.specs.Prelude.{◌≡◌, ◌↔◌, ◌<◌, ◌^◌, All, IfOk, IfSome, IsTrue, MatchOption};
ghost use Rattle.gmp_base.specs.Fits.{IsWord};
ghost use Rattle.gmp_trace.specs.StartForms.{BelowAll, FitsStatus, NoneFollows};
ghost use Rattle.gmp_trace.specs.StartNext.{IsNext, behind_lines, counts_line, head_line, machines_line, marked_line, procs_line, spinning_line};

use crate::start::at::{Head, counts_at, head_at, machines_at, members_at, procs_at};
use gmp_base::MNo;
use gmp_seq::{Goroutine, Limits, Mode};
use gmp_start::forms::fits_status;
use std::alloc::{AllocError, Global};

/// Numbers of this type are words.
pub fn are_words(list: &[u64])
    ensures { All IsWord list.now }
{}

/// What line 3 says, and the text behind it.
pub fn head_of<'a>(
    limits: Limits,
    bodies: u16,
    text: &'a [u8],
    words: &mut Vec<&'a [u8]>,
    line: &mut Vec<u8>,
) -> Result<Option<(Head, &'a [u8])>, AllocError>
    ensures { IfOk result (λ o. MatchOption o (NoneFollows limits bodies (behind_lines 0) text.now) (λ r. IsNext limits bodies (behind_lines 0) text.now (head_line r.0) r.1.now)) }
{
    let Some((head, rest)) = head_at(text, words, line)? else {
        return Ok(None);
    };
    if head.active == 0 || head.active > limits.procs {
        return Ok(None);
    }
    Ok(Some((head, rest)))
}

/// How many entries each machine made, and the text behind the line.
pub fn counts_of<'a>(
    alloc: Global,
    limits: Limits,
    bodies: u16,
    text: &'a [u8],
    words: &mut Vec<&'a [u8]>,
    line: &mut Vec<u8>,
) -> Result<Option<(Vec<u64>, &'a [u8])>, AllocError>
    ensures { IfOk result (λ o. MatchOption o (NoneFollows limits bodies (behind_lines 1) text.now) (λ r. IsNext limits bodies (behind_lines 1) text.now (counts_line r.0.items) r.1.now)) }
{
    let Some((counts, rest)) = counts_at(alloc, text, words, line)? else {
        return Ok(None);
    };
    if counts.len() != limits.machines as usize {
        return Ok(None);
    }
    are_words(&counts);
    Ok(Some((counts, rest)))
}

/// Whether a processor is idle or its holder is a machine that is there.
fn is_below(machines: u8, holder: Option<MNo>) -> bool
    ensures { IsTrue result ↔ IfSome holder (λ m. m.0 < machines) }
{
    match holder {
        None => true,
        Some(m) => m.0 < machines,
    }
}

/// The same of all processors.
fn are_below(machines: u8, holders: &[Option<MNo>]) -> bool
    ensures { IsTrue result ↔ BelowAll machines holders.now }
{
    holders.iter().all(|holder| is_below(machines, *holder))
}

/// Who holds each processor, and the text behind the line.
pub fn procs_of<'a>(
    alloc: Global,
    limits: Limits,
    bodies: u16,
    text: &'a [u8],
    words: &mut Vec<&'a [u8]>,
    line: &mut Vec<u8>,
) -> Result<Option<(Vec<Option<MNo>>, &'a [u8])>, AllocError>
    ensures { IfOk result (λ o. MatchOption o (NoneFollows limits bodies (behind_lines 2) text.now) (λ r. IsNext limits bodies (behind_lines 2) text.now (procs_line r.0.items) r.1.now)) }
{
    let Some((holders, rest)) = procs_at(alloc, text, words, line)? else {
        return Ok(None);
    };
    if holders.len() != limits.procs as usize || !are_below(limits.machines, &holders) {
        return Ok(None);
    }
    Ok(Some((holders, rest)))
}

/// What each machine does, and the text behind the line.
pub fn machines_of<'a>(
    alloc: Global,
    limits: Limits,
    bodies: u16,
    text: &'a [u8],
    words: &mut Vec<&'a [u8]>,
    line: &mut Vec<u8>,
) -> Result<Option<(Vec<Mode>, &'a [u8])>, AllocError>
    ensures { IfOk result (λ o. MatchOption o (NoneFollows limits bodies (behind_lines 3) text.now) (λ r. IsNext limits bodies (behind_lines 3) text.now (machines_line r.0.items) r.1.now)) }
{
    let Some((modes, rest)) = machines_at(alloc, text, words, line)? else {
        return Ok(None);
    };
    if modes.len() != limits.machines as usize {
        return Ok(None);
    }
    Ok(Some((modes, rest)))
}

/// Which machines spin, and the text behind the line.
pub fn spinning_of<'a>(
    alloc: Global,
    limits: Limits,
    bodies: u16,
    text: &'a [u8],
    words: &mut Vec<&'a [u8]>,
    line: &mut Vec<u8>,
) -> Result<Option<(Vec<bool>, &'a [u8])>, AllocError>
    ensures { IfOk result (λ o. MatchOption o (NoneFollows limits bodies (behind_lines 4) text.now) (λ r. IsNext limits bodies (behind_lines 4) text.now (spinning_line r.0.items) r.1.now)) }
{
    members_at(alloc, b"spinning", limits.machines, text, words, line)
}

/// Which machines are marked, and the text behind the line.
pub fn marked_of<'a>(
    alloc: Global,
    limits: Limits,
    bodies: u16,
    text: &'a [u8],
    words: &mut Vec<&'a [u8]>,
    line: &mut Vec<u8>,
) -> Result<Option<(Vec<bool>, &'a [u8])>, AllocError>
    ensures { IfOk result (λ o. MatchOption o (NoneFollows limits bodies (behind_lines 5) text.now) (λ r. IsNext limits bodies (behind_lines 5) text.now (marked_line r.0.items) r.1.now)) }
{
    members_at(alloc, b"marked", limits.machines, text, words, line)
}

/// The row as it is, where its line may stand behind so many channels.
pub fn right_row(limits: Limits, channels: u16, row: Goroutine) -> Option<Goroutine>
    ensures { MatchOption result (FitsStatus limits.machines channels row.status → ⊥) (λ r. (r ≡ row) × (row.epoch < 2 ^ 64) × FitsStatus limits.machines channels row.status) }
{
    if fits_status(limits.machines, channels, &row.status) {
        Some(row)
    } else {
        None
    }
}
