//! Reads a line of a script. Words are parted by spaces, as many as there are; of a comment nothing but the beginning of its first word is
//! looked at, so it may hold any bytes.

ghost use Rattle.std.specs.Prelude.{◌≡◌, IfOk, map};
ghost use Rattle.gmp_script.specs.Lines.{words, value, below, goroutine_named, capacity, processors, channel, said_alone, said_with, said_with_two, said_with_else, said_by_few, said_by_words, said_by};

mod clocks;
mod selects;

use crate::commands::Command;
use crate::digits::number;
pub use crate::lines::clocks::Readings;
use crate::lines::clocks::clocked;
use crate::lines::selects::selected;
use gmp_base::{CNo, GNo};
use std::alloc::{AllocError, Global};

/// What a line says.
#[derive(Debug, Drop)]
pub enum Line {
    /// It is empty, or a comment.
    Nothing,
    /// The next body begins.
    Body,
    /// One more channel of this capacity is there at the opening.
    Channel(u32),
    /// The clock reads so, after what it read by the lines before.
    Clock(Readings),
    /// What the body that began last asks next.
    Command(Command),
}

/// The words of a line.
fn words<'a>(alloc: Global, line: &'a [u8]) -> Result<Vec<&'a [u8]>, AllocError>
    ensures { IfOk result (λ found. map (λ word. word.now) found.items ≡ words line.now) }
{
    line.split(|byte| *byte == b' ')
        .filter(|word| !word.is_empty())
        .collect(alloc)
}

/// The number that a word writes in 1 to 20 digits.
pub(crate) fn value(word: &[u8]) -> Option<u64>
    ensures { result ≡ value word.now }
{
    if word.len() > 20 {
        return None;
    }
    number(word)
}

/// The number of a goroutine or a channel, or how many commands are skipped.
pub(crate) fn narrow(word: &[u8]) -> Option<u16>
    ensures { result ≡ below 65536 (value word.now) }
{
    u16::try_from(value(word)?).ok()
}

/// The goroutine that a word names.
fn goroutine(word: &[u8]) -> Option<GNo>
    ensures { result ≡ goroutine_named word.now }
{
    Some(GNo(narrow(word)?))
}

/// The capacity that a word writes. Whether it is within the limits the opening says.
pub(crate) fn capacity(word: &[u8]) -> Option<u32>
    ensures { result ≡ capacity word.now }
{
    u32::try_from(value(word)?).ok()
}

/// The number of processors that a word writes.
pub(crate) fn processors(word: &[u8]) -> Option<u8>
    ensures { result ≡ processors word.now }
{
    u8::try_from(value(word)?).ok()
}

/// The channel that a word names, nil too.
pub(crate) fn channel(word: &[u8]) -> Option<Option<CNo>>
    ensures { result ≡ channel word.now }
{
    if word == b"nil".as_slice() {
        return Some(None);
    }
    Some(Some(CNo(narrow(word)?)))
}

/// What a line of one word says.
fn alone(word: &[u8]) -> Option<Line>
    ensures { result ≡ said_alone word.now }
{
    if word == b"body".as_slice() {
        Some(Line::Body)
    } else if word == b"yield".as_slice() {
        Some(Line::Command(Command::Yield))
    } else if word == b"park".as_slice() {
        Some(Line::Command(Command::Park))
    } else if word == b"exit".as_slice() {
        Some(Line::Command(Command::Exit))
    } else if word == b"again".as_slice() {
        Some(Line::Command(Command::Again))
    } else {
        None
    }
}

/// What a line of two words says.
fn with(word: &[u8], k: &[u8]) -> Option<Line>
    ensures { result ≡ said_with word.now k.now }
{
    if word == b"chan".as_slice() {
        Some(Line::Channel(capacity(k)?))
    } else if word == b"go".as_slice() {
        Some(Line::Command(Command::Go(goroutine(k)?)))
    } else if word == b"make".as_slice() {
        Some(Line::Command(Command::Make(capacity(k)?)))
    } else if word == b"recv".as_slice() {
        Some(Line::Command(Command::Recv(channel(k)?, 0)))
    } else if word == b"close".as_slice() {
        Some(Line::Command(Command::Close(channel(k)?)))
    } else if word == b"len".as_slice() {
        Some(Line::Command(Command::Len(channel(k)?)))
    } else if word == b"cap".as_slice() {
        Some(Line::Command(Command::Cap(channel(k)?)))
    } else if word == b"procs".as_slice() {
        Some(Line::Command(Command::Procs(processors(k)?)))
    } else if word == b"ready".as_slice() {
        Some(Line::Command(Command::Ready(goroutine(k)?)))
    } else if word == b"sleep".as_slice() {
        Some(Line::Command(Command::Sleep(value(k)?)))
    } else if word == b"block".as_slice() {
        Some(Line::Command(Command::Block(value(k)?)))
    } else {
        None
    }
}

/// What a line of three words says.
fn with_two(word: &[u8], c: &[u8], v: &[u8]) -> Option<Line>
    ensures { result ≡ said_with_two word.now c.now v.now }
{
    if word == b"send".as_slice() {
        Some(Line::Command(Command::Send(channel(c)?, value(v)?)))
    } else {
        None
    }
}

/// What a line of four words says.
fn with_else(word: &[u8], c: &[u8], other: &[u8], n: &[u8]) -> Option<Line>
    ensures { result ≡ said_with_else word.now c.now other.now n.now }
{
    if word == b"recv".as_slice() && other == b"else".as_slice() {
        Some(Line::Command(Command::Recv(channel(c)?, narrow(n)?)))
    } else {
        None
    }
}

/// What a line of up to four words says.
fn by_few(words: &[&[u8]]) -> Option<Line>
    ensures { result ≡ said_by_few (map (λ word. word.now) words.now) }
{
    match words {
        [] => Some(Line::Nothing),
        [word] => alone(word),
        [word, k] => with(word, k),
        [word, c, v] => with_two(word, c, v),
        [word, c, other, n] => with_else(word, c, other, n),
        _ => None,
    }
}

/// What a line of these words says, if it is no comment.
fn by_words(alloc: Global, words: &[&[u8]]) -> Result<Option<Line>, AllocError>
    ensures { IfOk result (λ said. said ≡ said_by_words (map (λ word. word.now) words.now)) }
{
    match words {
        [first, offers @ ..] if *first == b"select".as_slice() => selected(alloc, offers),
        [first, readings @ ..] if *first == b"clock".as_slice() => clocked(alloc, readings),
        words => Ok(by_few(words)),
    }
}

/// What a line says, or none where it is bad.
pub fn line_of(alloc: Global, line: &[u8]) -> Result<Option<Line>, AllocError>
    ensures { IfOk result (λ said. said ≡ said_by line.now) }
{
    let words = words(alloc, line)?;
    match words.as_slice() {
        [first, ..] if first.starts_with(b"#") => Ok(Some(Line::Nothing)),
        words => by_words(alloc, words),
    }
}
