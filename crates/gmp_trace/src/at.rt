//! Reads the line that a text begins with. What it may say is guessed, the guess is written, and the text must begin with what was written:
//! so what is read is spelled so, to the byte.
//! Not a reader that refuses as it goes: it would be a second definition of the text, and each of the two could be wrong in its own way.

ghost use Rattle.std.specs.Prelude.{◌≡◌, ◌≢◌, ◌++◌, ◌<◌, ◌^◌, ℕ, List, length, map, All, OnOk, IfOk, IfSome, IsSomeAnd, MatchOption};
ghost use Rattle.gmp_base.specs.Fits.{IsWord};
ghost use Rattle.gmp_seq.specs.declared.call.Entry.{Entry};
ghost use Rattle.gmp_seq.specs.declared.call.Limits.{Limits};
ghost use Rattle.gmp_seq.specs.Fits.{Fits};
ghost use Rattle.gmp_trace.specs.declared.trace.End.{End};
ghost use Rattle.gmp_trace.specs.Guess.{bodies_of, capacity_of, end_in, entry_of, limits_read};
ghost use Rattle.gmp_trace.specs.Reading.{FitLimits, IsEntry};
ghost use Rattle.gmp_trace.specs.Pieces.{capacities_text, end_text, entry_text, limits_text};

use crate::guess::guess_call;
use crate::guess_reply::guess_reply;
use crate::line::{put_capacities, put_end, put_entry, put_limits};
use crate::trace::End;
use crate::words::{narrow8, narrow16, narrow32, number, part, sides, skip, split, word};
use gmp_base::MNo;
use gmp_seq::{Call, Entry, Limits, Reply};
use std::alloc::{AllocError, Global};

/// The text behind the line, if it begins with the line.
/// No error tells the two apart: whoever reads knows which line it is.
pub fn behind<'a>(text: &'a [u8], line: &[u8]) -> Option<&'a [u8]>
    ensures { MatchOption result ((rest : List ℕ) → text.now ≢ line.now ++ rest) (λ rest. text.now ≡ line.now ++ rest.now) }
{
    text.strip_prefix(line)
}

/// What the words of line 2 may say. A number too great for its place is cut, and then the comparison fails.
#[tactic(auto, unfolding(crate::specs::Guess::limits_read))]
fn guess_limits(words: &[&[u8]]) -> Limits
    ensures { result ≡ limits_read (map (λ w. w.now) words.now) }
{
    let entries = number(word(words, 10));
    let room = if word(words, 11) == b"room".as_slice() {
        number(word(words, 12))
    } else {
        entries
    };
    Limits {
        procs: narrow8(number(word(words, 2))),
        machines: narrow8(number(word(words, 4))),
        channels: narrow16(number(word(words, 8))),
        entries,
        room: narrow32(room),
    }
}

/// The number of bodies of the same line.
#[tactic(auto, unfolding(crate::specs::Guess::bodies_of))]
fn guess_bodies(words: &[&[u8]]) -> u16
    ensures { result ≡ bodies_of (map (λ w. w.now) words.now) }
{
    narrow16(number(word(words, 6)))
}

/// The limits and the number of bodies whose line the text begins with, and the text behind it.
/// `words` and `line` are room that is used anew for each line.
pub fn limits_at<'a>(
    text: &'a [u8],
    words: &mut Vec<&'a [u8]>,
    line: &mut Vec<u8>,
) -> Result<Option<(Limits, u16, &'a [u8])>, AllocError>
    ensures found { IfOk result (λ o. IfSome o (λ r. text.now ≡ limits_text r.0 r.1 ++ r.2.now)) }
    ensures only { IfOk result (λ o. (limits : Limits) (bodies : ℕ) (more : List ℕ) → FitLimits limits bodies → text.now ≡ limits_text limits bodies ++ more
        → IsSomeAnd o (λ r. (r.0 ≡ limits) × (r.1 ≡ bodies) × (r.2.now ≡ more))) }
{
    split(text, words)?;
    let limits = guess_limits(words);
    let bodies = guess_bodies(words);
    line.clear();
    put_limits(line, &limits, bodies)?;
    let Some(rest) = behind(text, line) else {
        return Ok(None);
    };
    Ok(Some((limits, bodies, rest)))
}

/// A capacity for each word.
fn guess_capacities(alloc: Global, words: &[&[u8]]) -> Result<Vec<u32>, AllocError>
    ensures { IfOk result (λ v. v.items ≡ map capacity_of (map (λ w. w.now) words.now)) }
{
    let mut capacities = Vec::new(alloc);
    for word in words {
        capacities.push(narrow32(number(word)))?;
    }
    Ok(capacities)
}

/// The capacities whose line the text begins with, and the text behind it.
pub fn capacities_at<'a>(
    alloc: Global,
    text: &'a [u8],
    words: &mut Vec<&'a [u8]>,
    line: &mut Vec<u8>,
) -> Result<Option<(Vec<u32>, &'a [u8])>, AllocError>
    ensures found { IfOk result (λ o. IfSome o (λ r. text.now ≡ capacities_text r.0.items ++ r.1.now)) }
    ensures only { IfOk result (λ o. (capacities : List ℕ) (more : List ℕ) → All (λ c. c < 2 ^ 32) capacities → length capacities < 1030
        → text.now ≡ capacities_text capacities ++ more → IsSomeAnd o (λ r. (r.0.items ≡ capacities) × (r.1.now ≡ more))) }
{
    split(text, words)?;
    let capacities = guess_capacities(alloc, skip(words, 1))?;
    line.clear();
    put_capacities(line, &capacities)?;
    let Some(rest) = behind(text, line) else {
        return Ok(None);
    };
    Ok(Some((capacities, rest)))
}

/// The entry that the words of a line may say, but for its number.
#[tactic(auto, unfolding(crate::specs::Guess::entry_of))]
fn guess_entry(words: &[&[u8]], entry: &mut Entry)
    ensures value { entry.new ≡ entry_of (map (λ w. w.now) words.now) }
    ensures fits { Fits entry.new }
{
    let (m, k) = part(word(words, 1), b'.');
    let (asked, answered) = sides(skip(words, 2));
    entry.m = MNo(narrow8(number(m)));
    entry.k = number(k);
    guess_call(asked, &mut entry.call);
    entry.reply = guess_reply(&entry.call, answered);
}

/// An entry to read into.
/// Reading into one that is there saves the copy of an entry, which is wide.
pub fn blank() -> Entry {
    Entry::new(MNo(0), 0, Call::Yield, Reply::Nothing)
}

/// Reads the entry whose line the text begins with. It answers the number before it, and the text behind the line. What is answered
/// `idle P` is read by the call. Where the text begins with no such line, the entry is some entry.
pub fn entry_at<'a>(
    text: &'a [u8],
    words: &mut Vec<&'a [u8]>,
    line: &mut Vec<u8>,
    entry: &mut Entry,
) -> Result<Option<(u64, &'a [u8])>, AllocError>
    ensures found { IfOk result (λ o. IfSome o (λ r. (text.now ≡ entry_text r.0 entry.new ++ r.1.now) × IsWord r.0 × Fits entry.new)) }
    ensures only { IfOk result (λ o. (n : ℕ) (e : Entry) (more : List ℕ) → IsEntry n e → text.now ≡ entry_text n e ++ more
        → IsSomeAnd o (λ r. (r.0 ≡ n) × (entry.new ≡ e) × (r.1.now ≡ more))) }
{
    split(text, words)?;
    let n = number(word(words, 0));
    guess_entry(words, entry);
    line.clear();
    put_entry(line, n, entry)?;
    let Some(rest) = behind(text, line) else {
        return Ok(None);
    };
    Ok(Some((n, rest)))
}

/// The end that the words of the last line may say.
#[tactic(auto, unfolding(crate::specs::Guess::end_in))]
fn guess_end(words: &[&[u8]]) -> End
    ensures { result ≡ end_in (map (λ w. w.now) words.now) }
{
    let how = word(words, 1);
    if how == b"main".as_slice() {
        End::MainEnded
    } else if how == b"all".as_slice() {
        End::AllAsleep
    } else if how == b"book".as_slice() {
        End::BookFull
    } else {
        End::Running
    }
}

/// The end whose line the text begins with, and the text behind it.
pub fn end_at<'a>(
    text: &'a [u8],
    words: &mut Vec<&'a [u8]>,
    line: &mut Vec<u8>,
) -> Result<Option<(End, &'a [u8])>, AllocError>
    ensures found { IfOk result (λ o. IfSome o (λ r. text.now ≡ end_text r.0 ++ r.1.now)) }
    ensures only { IfOk result (λ o. (end : End) (more : List ℕ) → text.now ≡ end_text end ++ more
        → IsSomeAnd o (λ r. (r.0 ≡ end) × (r.1.now ≡ more))) }
{
    split(text, words)?;
    let end = guess_end(words);
    line.clear();
    put_end(line, end)?;
    let Some(rest) = behind(text, line) else {
        return Ok(None);
    };
    Ok(Some((end, rest)))
}
