//! Words and numbers of lines.

use crate::error::PlayError;

/// The first word, and the rest.
pub fn first(line: &str) -> (&str, &str) {
    line.split_once(' ').unwrap_or((line, ""))
}

/// The number that a word writes, spelled as a trace spells it: no sign, no leading zero.
pub fn number(word: &str) -> Result<u64, PlayError> {
    let is_plain = word == "0" || !(word.starts_with('0') || word.starts_with('+'));
    match word.parse() {
        Ok(n) if is_plain => Ok(n),
        _ => Err(PlayError::Unreadable),
    }
}

/// The number below 65,536 that a word writes.
pub fn short(word: &str) -> Result<u16, PlayError> {
    match u16::try_from(number(word)?) {
        Ok(n) => Ok(n),
        Err(_) => Err(PlayError::Unreadable),
    }
}

/// The number below 256 that a word writes.
pub fn small(word: &str) -> Result<u8, PlayError> {
    match u8::try_from(number(word)?) {
        Ok(n) => Ok(n),
        Err(_) => Err(PlayError::Unreadable),
    }
}

/// A line of a trace, without its line feed.
pub fn line_of(text: Vec<u8>) -> Result<String, PlayError> {
    match String::from_utf8(text) {
        Ok(line) => {
            let mut line = line;
            let _ = line.pop();
            Ok(line)
        }
        Err(_) => Err(PlayError::Unreadable),
    }
}
