//! Reads single lines of the text of a trace, each without its line feed, for whoever has a line and no trace. None where the line spells
//! no such thing.

ghost use Rattle.std.specs.Prelude.{◌≡◌, ◌<◌, ◌^◌, ◌++◌, ◌∷◌, [], ℕ, List, length, All, IfOk, IfSome, IsSomeAnd};
ghost use Rattle.gmp_seq.specs.declared.call.Call.{Call};
ghost use Rattle.gmp_seq.specs.declared.call.Entry.{Entry};
ghost use Rattle.gmp_seq.specs.declared.call.Limits.{Limits};
ghost use Rattle.gmp_seq.specs.Fits.{FitsCall};
ghost use Rattle.gmp_trace.specs.Reading.{FitLimits, IsEntry};
ghost use Rattle.gmp_trace.specs.Pieces.{call_pieces, capacities_text, entry_text, fields, limits_text};

use crate::at::{blank, capacities_at, entry_at, limits_at};
use crate::call::put_call;
use crate::guess::guess_call;
use crate::put::{put, put_word};
use crate::words::split;
use gmp_seq::{Call, Entry, Limits};
use std::alloc::{AllocError, Global};

/// The call that a text spells, without a space before it.
pub fn read_call(alloc: Global, text: &[u8]) -> Result<Option<Call>, AllocError>
    ensures found { IfOk result (λ o. IfSome o (λ call. fields (call_pieces call) ≡ 32 ∷ text.now)) }
    ensures only { IfOk result (λ o. (call : Call) → FitsCall call → fields (call_pieces call) ≡ 32 ∷ text.now → IsSomeAnd o (λ c. c ≡ call)) }
{
    let mut words = Vec::new(alloc);
    split(text, &mut words)?;
    let mut call = Call::Yield;
    guess_call(&words, &mut call);
    let mut guessed = Vec::new(alloc);
    put_call(&mut guessed, &call)?;
    let mut given = Vec::new(alloc);
    put_word(&mut given, text)?;
    if guessed.as_slice() != given.as_slice() {
        return Ok(None);
    }
    Ok(Some(call))
}

/// The line with its line feed, as the readers of a whole text want it.
fn fed(alloc: Global, line: &[u8]) -> Result<Vec<u8>, AllocError>
    ensures { IfOk result (λ v. v.items ≡ line.now ++ 10 ∷ []) }
{
    let mut text = Vec::new(alloc);
    put(&mut text, line)?;
    text.push(b'\n')?;
    Ok(text)
}

/// The limits and the number of bodies that a line spells, without its line feed.
pub fn read_limits(alloc: Global, line: &[u8]) -> Result<Option<(Limits, u16)>, AllocError>
    ensures found { IfOk result (λ o. IfSome o (λ r. limits_text r.0 r.1 ≡ line.now ++ 10 ∷ [])) }
    ensures only { IfOk result (λ o. (limits : Limits) (bodies : ℕ) → FitLimits limits bodies → limits_text limits bodies ≡ line.now ++ 10 ∷ []
        → IsSomeAnd o (λ r. (r.0 ≡ limits) × (r.1 ≡ bodies))) }
{
    let text = fed(alloc, line)?;
    let mut words = Vec::new(alloc);
    let mut guessed = Vec::new(alloc);
    let Some((limits, bodies, rest)) = limits_at(&text, &mut words, &mut guessed)? else {
        return Ok(None);
    };
    if !rest.is_empty() {
        return Ok(None);
    }
    Ok(Some((limits, bodies)))
}

/// The capacities that a line spells, without its line feed.
pub fn read_capacities(alloc: Global, line: &[u8]) -> Result<Option<Vec<u32>>, AllocError>
    ensures found { IfOk result (λ o. IfSome o (λ capacities. capacities_text capacities.items ≡ line.now ++ 10 ∷ [])) }
    ensures only { IfOk result (λ o. (capacities : List ℕ) → All (λ c. c < 2 ^ 32) capacities → length capacities < 1030
        → capacities_text capacities ≡ line.now ++ 10 ∷ [] → IsSomeAnd o (λ v. v.items ≡ capacities)) }
{
    let text = fed(alloc, line)?;
    let mut words = Vec::new(alloc);
    let mut guessed = Vec::new(alloc);
    let Some((capacities, rest)) = capacities_at(alloc, &text, &mut words, &mut guessed)? else {
        return Ok(None);
    };
    if !rest.is_empty() {
        return Ok(None);
    }
    Ok(Some(capacities))
}

/// The number of an entry and the entry that a line spells, without its line feed. What is answered `idle P` is read by the call.
pub fn read_entry(alloc: Global, line: &[u8]) -> Result<Option<(u64, Entry)>, AllocError>
    ensures found { IfOk result (λ o. IfSome o (λ r. entry_text r.0 r.1 ≡ line.now ++ 10 ∷ [])) }
    ensures only { IfOk result (λ o. (n : ℕ) (e : Entry) → IsEntry n e → entry_text n e ≡ line.now ++ 10 ∷ []
        → IsSomeAnd o (λ r. (r.0 ≡ n) × (r.1 ≡ e))) }
{
    let text = fed(alloc, line)?;
    let mut words = Vec::new(alloc);
    let mut guessed = Vec::new(alloc);
    let mut entry = blank();
    let Some((n, rest)) = entry_at(&text, &mut words, &mut guessed, &mut entry)? else {
        return Ok(None);
    };
    if !rest.is_empty() {
        return Ok(None);
    }
    Ok(Some((n, entry)))
}
