//! Puts words at a place in a line that has room for them, and answers where they end. Each bound is as if every number in the words had 20
//! digits.
//! With the bounds of `line`'s pieces this shows that the longest line fits its array, so nothing here can fail.

ghost use Rattle.std.specs.Prelude.{◌≡◌, ◌+◌, ◌<◌, ◌≤◌, [], ◌∷◌, ◌++◌, length, take, decimal};
ghost use Rattle.gmp_trace.specs.Pieces.{boolean, channel_text, case_text, piece_text};

use crate::digits::place_digits;
use gmp_base::{CNo, Case, Readiness};

/// One byte.
#[inline(always)]
pub fn place_byte(line: &mut [u8], at: usize, byte: u8) -> usize
    requires { at < length line.old }
    ensures text { take result line.new ≡ take at line.old ++ byte ∷ [] }
    ensures end { result ≡ at + 1 }
{
    line[at] = byte;
    at + 1
}

/// These bytes.
#[inline(always)]
pub fn place(line: &mut [u8], at: usize, bytes: &[u8]) -> usize
    requires { at + length bytes.now ≤ length line.old }
    ensures text { take result line.new ≡ take at line.old ++ bytes.now }
    ensures end { result ≡ at + length bytes.now }
{
    let end = at + bytes.len();
    line[at..end].copy_from_slice(bytes);
    end
}

/// A space and a word.
#[inline(always)]
pub fn place_word(line: &mut [u8], at: usize, word: &[u8]) -> usize
    requires { at + length word.now + 1 ≤ length line.old }
    ensures text { take result line.new ≡ take at line.old ++ 32 ∷ word.now }
    ensures end { result ≡ at + length word.now + 1 }
{
    let at = place_byte(line, at, b' ');
    place(line, at, word)
}

/// A space and a number.
#[inline(always)]
pub fn place_number(line: &mut [u8], at: usize, n: u64) -> usize
    requires { at + 21 ≤ length line.old }
    ensures text { take result line.new ≡ take at line.old ++ 32 ∷ decimal n }
    ensures end { result ≤ at + 21 }
{
    let at = place_byte(line, at, b' ');
    place_digits(line, at, n)
}

/// A space and two numbers.
#[inline(always)]
pub fn place_pair(line: &mut [u8], at: usize, a: u64, b: u64) -> usize
    requires { at + 42 ≤ length line.old }
    ensures text { take result line.new ≡ take at line.old ++ 32 ∷ (decimal a ++ 46 ∷ decimal b) }
    ensures end { result ≤ at + 42 }
{
    let at = place_number(line, at, a);
    let at = place_byte(line, at, b'.');
    place_digits(line, at, b)
}

/// A space, a goroutine and its epoch.
#[inline(always)]
pub fn place_readiness(line: &mut [u8], at: usize, r: Readiness) -> usize
    requires { at + 42 ≤ length line.old }
    ensures text { take result line.new ≡ take at line.old ++ 32 ∷ (decimal r.g.0 ++ 46 ∷ decimal r.epoch) }
    ensures end { result ≤ at + 42 }
{
    place_pair(line, at, u64::from(r.g.0), r.epoch)
}

/// A space, and `true` or `false`.
pub fn place_bool(line: &mut [u8], at: usize, b: bool) -> usize
    requires { at + 6 ≤ length line.old }
    ensures text { take result line.new ≡ take at line.old ++ 32 ∷ piece_text (boolean b) }
    ensures end { result ≤ at + 6 }
{
    if b {
        place_word(line, at, b"true")
    } else {
        place_word(line, at, b"false")
    }
}

/// A channel by its number, or `nil`.
fn place_channel_text(line: &mut [u8], at: usize, c: Option<CNo>) -> usize
    requires { at + 20 ≤ length line.old }
    ensures text { take result line.new ≡ take at line.old ++ channel_text c }
    ensures end { result ≤ at + 20 }
{
    match c {
        None => place(line, at, b"nil"),
        Some(c) => place_digits(line, at, u64::from(c.0)),
    }
}

/// A space, and a channel.
pub fn place_channel(line: &mut [u8], at: usize, c: Option<CNo>) -> usize
    requires { at + 21 ≤ length line.old }
    ensures text { take result line.new ≡ take at line.old ++ 32 ∷ channel_text c }
    ensures end { result ≤ at + 21 }
{
    let at = place_byte(line, at, b' ');
    place_channel_text(line, at, c)
}

/// A space, and a case of a select in one word: `send:C:V` or `recv:C`.
pub fn place_case(line: &mut [u8], at: usize, case: Case) -> usize
    requires { at + 47 ≤ length line.old }
    ensures text { take result line.new ≡ take at line.old ++ 32 ∷ case_text case }
    ensures end { result ≤ at + 47 }
{
    match case {
        Case::Send(c, value) => {
            let at = place_word(line, at, b"send:");
            let at = place_channel_text(line, at, c);
            let at = place_byte(line, at, b':');
            place_digits(line, at, value)
        }
        Case::Recv(c) => {
            let at = place_word(line, at, b"recv:");
            place_channel_text(line, at, c)
        }
    }
}

/// A word, and then a number.
#[inline(always)]
pub fn place_named(line: &mut [u8], at: usize, word: &[u8], n: u64) -> usize
    requires { at + length word.now + 22 ≤ length line.old }
    ensures text { take result line.new ≡ take at line.old ++ 32 ∷ (word.now ++ 32 ∷ decimal n) }
    ensures end { result ≤ at + length word.now + 22 }
{
    let at = place_word(line, at, word);
    place_number(line, at, n)
}

/// A word, and then a goroutine and its epoch.
#[inline(always)]
pub fn place_named_readiness(line: &mut [u8], at: usize, word: &[u8], r: Readiness) -> usize
    requires { at + length word.now + 43 ≤ length line.old }
    ensures text { take result line.new ≡ take at line.old ++ 32 ∷ (word.now ++ 32 ∷ (decimal r.g.0 ++ 46 ∷ decimal r.epoch)) }
    ensures end { result ≤ at + length word.now + 43 }
{
    let at = place_word(line, at, word);
    place_readiness(line, at, r)
}

/// A word, and then a channel.
#[inline(always)]
pub fn place_named_channel(line: &mut [u8], at: usize, word: &[u8], c: Option<CNo>) -> usize
    requires { at + length word.now + 22 ≤ length line.old }
    ensures text { take result line.new ≡ take at line.old ++ 32 ∷ (word.now ++ 32 ∷ channel_text c) }
    ensures end { result ≤ at + length word.now + 22 }
{
    let at = place_word(line, at, word);
    place_channel(line, at, c)
}
