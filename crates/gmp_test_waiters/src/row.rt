//! Rows of command lines, each with a script and how it ends (`Row`), and the words of lines.

use crate::wrong::{Wrong, ended};
use gmp_words::{Settings, command_line};
use std::alloc::{AllocError, Global};

/// A row: on its first line a command line, on the second a script, its lines parted by `/` (`-` is none), on the third a status or what
/// else a row of its file has there. What is behind is a text.
#[derive(Clone, Copy)]
pub struct Row<'a> {
    pub line: &'a str,
    script: &'a str,
    pub third: &'a str,
    /// Without its last line feed.
    pub text: &'a str,
}

impl<'a> Row<'a> {
    pub fn read(row: &'a str) -> Result<Self, Wrong> {
        let (line, rest) = first_line(row);
        let (script, rest) = first_line(rest);
        let (third, text) = first_line(rest);
        if third.is_empty() {
            return Err(Wrong::Unreadable);
        }
        Ok(Row {
            line,
            script: unless_none(script),
            third,
            text,
        })
    }

    /// The status that it ends with.
    pub fn status(&self) -> Result<u8, Wrong> {
        number(self.third)
    }

    /// It ended with its status.
    pub fn ends_with(&self, status: u8) -> Result<(), Wrong> {
        ended(status, self.status()?)
    }

    /// The text, with its last line feed, is what was written.
    pub fn is_written(&self, written: &[u8]) -> Result<(), Wrong> {
        match written {
            [text @ .., b'\n'] if text == self.text.as_bytes() => Ok(()),
            _ => Err(Wrong::OtherText),
        }
    }

    /// The script's lines.
    pub fn lines(&self, alloc: Global) -> Result<Vec<u8>, AllocError> {
        lines(alloc, self.script)
    }

    /// What its command line says.
    pub fn settings(&self, alloc: Global) -> Result<Settings, Wrong> {
        settings_of(alloc, self.line)
    }
}

/// The first line, and the rest.
pub fn first_line(text: &str) -> (&str, &str) {
    text.split_once('\n').unwrap_or((text, ""))
}

/// The text, which is empty where a line says that there is none.
pub fn unless_none(text: &str) -> &str {
    if text == "-" { "" } else { text }
}

/// The number below 256 that a word writes.
pub fn number(word: &str) -> Result<u8, Wrong> {
    word.parse().map_err(|_| Wrong::Unreadable)
}

/// The text with a line feed for each `/`.
pub fn lines(alloc: Global, text: &str) -> Result<Vec<u8>, AllocError> {
    let mut lines = Vec::new(alloc);
    for byte in text.bytes() {
        lines.push(if byte == b'/' { b'\n' } else { byte })?;
    }
    Ok(lines)
}

/// The settings of a command line whose words are parted by single spaces.
pub fn settings_of(alloc: Global, line: &str) -> Result<Settings, Wrong> {
    let mut words = Vec::new(alloc);
    for word in line.split(' ') {
        words.push(String::from_str(alloc, word)?)?;
    }
    match command_line(alloc, &words) {
        Ok(line) => Ok(line.settings),
        Err(_) => Err(Wrong::Unreadable),
    }
}
