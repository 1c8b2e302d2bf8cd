//! Reads a select: its cases, `recv:C` or `send:C:V`, then a default where there is one, then a deadline where there is one. From behind,
//! so that the words before need no look ahead.

ghost use Rattle.std.specs.Prelude.{◌≡◌, ◌==◌, IfOk, map};
ghost use Rattle.std.specs.List.{slice_split};
ghost use Rattle.gmp_script.specs.Lines.{case_by_parts, case_of, cases_of, select_of, select_offered, selected};

use crate::commands::Command;
use crate::lines::{Line, channel, value};
use gmp_base::{Case, Cases};
use std::alloc::{AllocError, Global};

/// The parts of a word: what lies between its colons.
fn parts<'a>(alloc: Global, word: &'a [u8]) -> Result<Vec<&'a [u8]>, AllocError>
    ensures { IfOk result (λ found. map (λ part. part.now) found.items ≡ slice_split (λ b. b == 58) word.now) }
{
    word.split(|byte| *byte == b':').collect(alloc)
}

/// The case that a word of these parts names.
fn by_parts(parts: &[&[u8]]) -> Option<Case>
    ensures { result ≡ case_by_parts (map (λ part. part.now) parts.now) }
{
    match parts {
        [kind, c] if *kind == b"recv".as_slice() => Some(Case::Recv(channel(c)?)),
        [kind, c, v] if *kind == b"send".as_slice() => Some(Case::Send(channel(c)?, value(v)?)),
        _ => None,
    }
}

/// The case that a word names.
fn case(alloc: Global, word: &[u8]) -> Result<Option<Case>, AllocError>
    ensures { IfOk result (λ named. named ≡ case_of word.now) }
{
    let parts = parts(alloc, word)?;
    Ok(by_parts(&parts))
}

/// The cases that the words name, where each names one and they fit one select.
fn cases(alloc: Global, words: &[&[u8]]) -> Result<Option<Cases>, AllocError>
    ensures { IfOk result (λ named. named ≡ cases_of (map (λ word. word.now) words.now)) }
{
    let mut cases = Cases::new();
    for word in words {
        let Some(case) = case(alloc, word)? else {
            return Ok(None);
        };
        if cases.push(case).is_err() {
            return Ok(None);
        }
    }
    Ok(Some(cases))
}

/// The select of the cases that the words name.
fn select(
    alloc: Global,
    words: &[&[u8]],
    has_default: bool,
    until: Option<u64>,
) -> Result<Option<Line>, AllocError>
    ensures { IfOk result (λ said. said ≡ select_of (map (λ word. word.now) words.now) has_default until) }
{
    let named = cases(alloc, words)?;
    Ok(named.map(|cases| Line::Command(Command::Select(cases, has_default, until))))
}

/// The select of what the words offer: cases, and at the end a default where there is one.
fn offered(alloc: Global, words: &[&[u8]], until: Option<u64>) -> Result<Option<Line>, AllocError>
    ensures { IfOk result (λ said. said ≡ select_offered (map (λ word. word.now) words.now) until) }
{
    match words {
        [offers @ .., last] if *last == b"default".as_slice() => select(alloc, offers, true, until),
        offers => select(alloc, offers, false, until),
    }
}

/// What a line says that has these words after `select`.
pub(super) fn selected(alloc: Global, words: &[&[u8]]) -> Result<Option<Line>, AllocError>
    ensures { IfOk result (λ said. said ≡ selected (map (λ word. word.now) words.now)) }
{
    match words {
        [offers @ .., until, moment] if *until == b"until".as_slice() => {
            let Some(moment) = value(moment) else {
                return Ok(None);
            };
            offered(alloc, offers, Some(moment))
        }
        offers => offered(alloc, offers, None),
    }
}
