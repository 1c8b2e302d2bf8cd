//! All lines of a start, the six heads (`Heads`) first, then channels, goroutines and `begin`.
ghost use Rattle.std.specs.Prelude.{◌≡◌, ◌≤◌, ℕ, List, [], None, IfOk, IfErr, IsOkAnd};
ghost use Rattle.gmp_seq.specs.Fits.{AreLimits};
ghost use Rattle.gmp_seq.specs.State.{State};
ghost use Rattle.gmp_start.specs.Start.{state_of};
ghost use Rattle.gmp_trace.specs.StartForms.{IsLineFault};
ghost use Rattle.gmp_trace.specs.StartWhole.{AreHeads, AreStartLines, IsStartFault, IsStartText};

use crate::at::behind;
use crate::start::at::Head;
use crate::start::begin::{begin_line, may_go_on};
use crate::start::channels::channels_of;
use crate::start::heads::{counts_of, head_of, machines_of, marked_of, procs_of, spinning_of};
use crate::start::rows::rows_of;
use gmp_base::MNo;
use gmp_seq::{Limits, Mode};
use gmp_start::Start;
use std::alloc::{AllocError, Global};

/// What the first six lines say.
#[derive(Debug, Drop)]
pub struct Heads {
    pub head: Head,
    pub counts: Vec<u64>,
    pub holders: Vec<Option<MNo>>,
    pub modes: Vec<Mode>,
    pub spinning: Vec<bool>,
    pub marked: Vec<bool>,
}

/// What the first six lines say, and the text behind them, or the number of the first of them that isn't right.
fn heads_of<'a>(
    alloc: Global,
    limits: Limits,
    bodies: u16,
    text: &'a [u8],
    words: &mut Vec<&'a [u8]>,
    line: &mut Vec<u8>,
) -> Result<Result<(Heads, &'a [u8]), u32>, AllocError>
    ensures right { IfOk result (λ o. IfOk o (λ r. AreHeads limits bodies text.now r.0 r.1.now)) }
    ensures fault { IfOk result (λ o. IfErr o (λ n. IsLineFault limits bodies text.now n)) }
{
    let Some((head, rest)) = head_of(limits, bodies, text, words, line)? else {
        return Ok(Err(3));
    };
    let Some((counts, rest)) = counts_of(alloc, limits, bodies, rest, words, line)? else {
        return Ok(Err(4));
    };
    let Some((holders, rest)) = procs_of(alloc, limits, bodies, rest, words, line)? else {
        return Ok(Err(5));
    };
    let Some((modes, rest)) = machines_of(alloc, limits, bodies, rest, words, line)? else {
        return Ok(Err(6));
    };
    let Some((spinning, rest)) = spinning_of(alloc, limits, bodies, rest, words, line)? else {
        return Ok(Err(7));
    };
    let Some((marked, rest)) = marked_of(alloc, limits, bodies, rest, words, line)? else {
        return Ok(Err(8));
    };
    let heads = Heads {
        head,
        counts,
        holders,
        modes,
        spinning,
        marked,
    };
    Ok(Ok((heads, rest)))
}

/// The start whose lines the text begins with, the number of entries that line 3 says before it, and the text behind `begin`. Or the number
/// of the first line that isn't right.
fn read_start<'a>(
    alloc: Global,
    limits: Limits,
    bodies: u16,
    text: &'a [u8],
) -> Result<Result<(u64, Start, &'a [u8]), u32>, AllocError>
    requires { AreLimits limits bodies [] }
    ensures found { IfOk result (λ o. IfOk o (λ r. AreStartLines limits bodies r.0 text.now (state_of r.1) r.2.now)) }
    ensures only { IfOk result (λ o. (made : ℕ) (s : State) (rest : List ℕ) → s.outcome ≡ None → AreStartLines limits bodies made text.now s rest
        → IsOkAnd o (λ r. (r.0 ≡ made) × (state_of r.1 ≡ s) × (r.2.now ≡ rest))) }
    ensures fault { IfOk result (λ o. IfErr o (λ line. IsLineFault limits bodies text.now line)) }
{
    let mut words = Vec::new(alloc);
    let mut line = Vec::new(alloc);
    let (heads, rest) = match heads_of(alloc, limits, bodies, text, &mut words, &mut line)? {
        Ok(found) => found,
        Err(n) => return Ok(Err(n)),
    };
    let (channels, many, rest) = channels_of(alloc, limits, bodies, rest, &mut words, &mut line)?;
    let (rows, rest) = match rows_of(alloc, limits, bodies, many, rest, &mut words, &mut line)? {
        Ok(found) => found,
        Err(count) => return Ok(Err(9 + u32::from(many) + u32::from(count))),
    };
    let Some(rest) = behind(rest, b"begin\n") else {
        return Ok(Err(9 + u32::from(many) + u32::from(bodies)));
    };
    let start = Start {
        counts: heads.counts,
        clock: heads.head.clock,
        arrivals: heads.head.arrivals,
        holders: heads.holders,
        modes: heads.modes,
        spinning: heads.spinning,
        marked: heads.marked,
        active: heads.head.active,
        channels,
        goroutines: rows,
    };
    Ok(Ok((heads.head.made, start, rest)))
}

/// The start whose lines the text begins with, and the text behind `begin`; or the number of the first bad line.
///
/// The text begins behind the limits, so its first line has the number 3. The line of `begin` is bad where all lines before it are right
/// and the counts don't add up to the number of entries that line 3 says, or the parts don't fit together, as `Start::fits` tests. It takes
/// memory for the start, the words of one line and that line written anew.
pub fn read_whole_start<'a>(
    alloc: Global,
    limits: Limits,
    bodies: u16,
    text: &'a [u8],
) -> Result<Result<(Start, &'a [u8]), u32>, AllocError>
    requires { AreLimits limits bodies [] }
    ensures found { IfOk result (λ o. IfOk o (λ r. IsStartText limits bodies text.now (state_of r.0) r.1.now)) }
    ensures only { IfOk result (λ o. (s : State) (rest : List ℕ) → IsStartText limits bodies text.now s rest
        → IsOkAnd o (λ r. (state_of r.0 ≡ s) × (r.1.now ≡ rest))) }
    ensures fault { IfOk result (λ o. IfErr o (λ line. IsStartFault limits bodies text.now line)) }
{
    let (made, start, rest) = match read_start(alloc, limits, bodies, text)? {
        Ok(found) => found,
        Err(line) => return Ok(Err(line)),
    };
    if !may_go_on(limits, made, &start) {
        return Ok(Err(begin_line(&start)));
    }
    Ok(Ok((start, rest)))
}
