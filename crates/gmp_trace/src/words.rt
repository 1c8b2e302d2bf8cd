//! Words of a line, and what they may stand for. Nothing is refused: who reads writes what was read, and compares.

ghost use Rattle.std.specs.Prelude.{◌≡◌, [], OnOk, map, take, drop};
ghost use Rattle.gmp_trace.specs.Guess.{words_on, parted, sides, number_read, narrow, byte_at, letter_at, word_at, readiness_read, channel_read};

use gmp_base::{CNo, GNo, Readiness};
use std::alloc::AllocError;

/// No line of a trace has so many words: a channel has at most 4,096 values.
const MOST_WORDS: usize = 4_110;

/// The text before the first such byte, and the text behind it.
#[tactic(auto, unfolding(crate::specs::Guess::parted))]
pub fn part(text: &[u8], byte: u8) -> (&[u8], &[u8])
    ensures { (result.0.now, result.1.now) ≡ parted byte text.now }
{
    for (i, b) in text.iter().enumerate() {
        if *b == byte {
            return (&text[..i], &text[i + 1..]);
        }
    }
    (text, &[])
}

/// The words before the first arrow, and those behind it.
#[tactic(auto, unfolding(crate::specs::Guess::sides))]
pub fn sides<'b, 'a>(words: &'b [&'a [u8]]) -> (&'b [&'a [u8]], &'b [&'a [u8]])
    ensures { (map (λ w. w.now) result.0.now, map (λ w. w.now) result.1.now) ≡ sides (map (λ w. w.now) words.now) }
{
    for (i, word) in words.iter().enumerate() {
        if *word == b"->".as_slice() {
            return (until(words, i), skip(words, i + 1));
        }
    }
    (words, skip(words, words.len()))
}

/// The number that digits write; of one that is too great, its last 64 bits.
#[tactic(auto, unfolding(crate::specs::Guess::number_read))]
pub fn number(word: &[u8]) -> u64
    ensures { result ≡ number_read word.now }
{
    let mut n = 0u64;
    for digit in word {
        n = n.wrapping_mul(10).wrapping_add(u64::from(digit % 16));
    }
    n
}

/// The last 8 bits. A number that is cut is spelled otherwise than it was read.
#[tactic(auto, unfolding(crate::specs::Guess::narrow))]
pub fn narrow8(n: u64) -> u8
    ensures { result ≡ narrow 8 n }
{
    (n % 256) as u8
}

/// The last 16 bits.
#[tactic(auto, unfolding(crate::specs::Guess::narrow))]
pub fn narrow16(n: u64) -> u16
    ensures { result ≡ narrow 16 n }
{
    (n % 65_536) as u16
}

/// The last 32 bits.
#[tactic(auto, unfolding(crate::specs::Guess::narrow))]
pub fn narrow32(n: u64) -> u32
    ensures { result ≡ narrow 32 n }
{
    (n % 4_294_967_296) as u32
}

/// The goroutine and the epoch that a word with a point says.
#[tactic(auto, unfolding(crate::specs::Guess::readiness_read))]
pub fn readiness(word: &[u8]) -> Readiness
    ensures { result ≡ readiness_read word.now }
{
    let (g, epoch) = part(word, b'.');
    Readiness {
        g: GNo(narrow16(number(g))),
        epoch: number(epoch),
    }
}

/// The channel that a word says, or none for `nil`.
#[tactic(auto, unfolding(crate::specs::Guess::channel_read))]
pub fn channel(word: &[u8]) -> Option<CNo>
    ensures { result ≡ channel_read word.now }
{
    if word == b"nil".as_slice() {
        return None;
    }
    Some(CNo(narrow16(number(word))))
}

/// The words of the first line, as many as a line of a trace may have.
pub fn split<'a>(text: &'a [u8], words: &mut Vec<&'a [u8]>) -> Result<(), AllocError>
    ensures { OnOk result (map (λ w. w.now) words.new.items ≡ take 4110 (words_on [] text.now)) }
{
    words.clear();
    let mut start = 0;
    for (i, b) in text.iter().enumerate() {
        if *b > b' ' {
            continue;
        }
        if *b == b'\n' {
            words.push(&text[start..i])?;
            return Ok(());
        }
        if *b == b' ' {
            words.push(&text[start..i])?;
            start = i + 1;
            if words.len() >= MOST_WORDS {
                return Ok(());
            }
        }
    }
    words.push(&text[start..])?;
    Ok(())
}

/// The word at this place, or no text.
pub fn word<'a>(words: &[&'a [u8]], i: usize) -> &'a [u8]
    ensures { result.now ≡ word_at i (map (λ w. w.now) words.now) }
{
    match words.get(i) {
        Some(word) => word,
        None => &[],
    }
}

/// The byte at this place, or 0.
pub fn byte(word: &[u8], i: usize) -> u8
    ensures { result ≡ byte_at i word.now }
{
    match word.get(i) {
        Some(byte) => *byte,
        None => 0,
    }
}

/// The first byte of the word at this place, or 0.
pub fn letter(words: &[&[u8]], i: usize) -> u8
    ensures { result ≡ letter_at i (map (λ w. w.now) words.now) }
{
    byte(word(words, i), 0)
}

/// The words up to this place.
fn until<'b, 'a>(words: &'b [&'a [u8]], n: usize) -> &'b [&'a [u8]]
    ensures { map (λ w. w.now) result.now ≡ take n (map (λ w. w.now) words.now) }
{
    if n < words.len() { &words[..n] } else { words }
}

/// The words from this place on.
pub fn skip<'b, 'a>(words: &'b [&'a [u8]], n: usize) -> &'b [&'a [u8]]
    ensures { map (λ w. w.now) result.now ≡ drop n (map (λ w. w.now) words.now) }
{
    if n < words.len() { &words[n..] } else { &[] }
}
