//! Words and numbers of lines.

use std::alloc::{AllocError, Global};

/// The first word, and the rest.
pub fn first(line: &str) -> (&str, &str) {
    line.split_once(' ').unwrap_or((line, ""))
}

/// The numbers of `16-24`, or of `16`: the first and the last.
pub fn range(word: &str) -> Option<(usize, usize)> {
    let (first, last) = word.split_once('-').unwrap_or((word, word));
    Some((first.parse().ok()?, last.parse().ok()?))
}

/// The words of a line, which are parted by single spaces.
pub fn words_of(alloc: Global, line: &str) -> Result<Vec<String>, AllocError> {
    let mut words = Vec::new(alloc);
    for word in line.split(' ') {
        words.push(String::from_str(alloc, word)?)?;
    }
    Ok(words)
}

/// Adds a line of these pieces.
pub fn put_line(text: &mut Vec<u8>, pieces: &[&str]) -> Result<(), AllocError> {
    for piece in pieces {
        text.extend_from_slice(piece.as_bytes())?;
    }
    text.extend_from_slice(b"\n")
}
