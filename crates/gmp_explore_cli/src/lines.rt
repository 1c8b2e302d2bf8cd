//! Lines of at most 120 columns: a longer one goes on in the next, further in.

use std::alloc::{AllocError, Global};
use std::fmt;

/// No line has more columns.
const WIDTH: usize = 120;

/// What stands before the words with which a line goes on.
const FURTHER: &str = "    ";

/// Lines that are gathered.
#[derive(Drop)]
pub(crate) struct Lines {
    text: String,
}

/// Where the first words end that fit into so many columns, and where the next word begins: a word that is longer stays whole.
fn split(line: &str, columns: usize) -> Option<(&str, &str)> {
    if line.len() <= columns {
        return None;
    }
    let fitting = line.as_bytes().get(..columns.wrapping_add(1))?;
    let end = match fitting.iter().rposition(|byte| *byte == b' ') {
        Some(end) => end,
        None => line.as_bytes().iter().position(|byte| *byte == b' ')?,
    };
    Some((line.get(..end)?, line.get(end.wrapping_add(1)..)?))
}

impl Lines {
    /// No line yet.
    pub(crate) fn new(alloc: Global) -> Self {
        Lines {
            text: String::new(alloc),
        }
    }

    /// Adds a line, or several where it is long. Its words are ASCII, and parted by single spaces.
    pub(crate) fn put<D: fmt::Display>(&mut self, line: &D) -> Result<(), AllocError> {
        let line = format!(in *self.text.allocator(); "{line}")?;
        let mut rest = line.as_str();
        let mut columns = WIDTH;
        for _ in 0..line.len() {
            let Some((words, more)) = split(rest, columns) else {
                break;
            };
            self.text.push_str(words)?;
            self.text.push_str("\n")?;
            self.text.push_str(FURTHER)?;
            rest = more;
            columns = WIDTH - FURTHER.len();
        }
        self.text.push_str(rest)?;
        self.text.push_str("\n")
    }

    /// The lines.
    pub(crate) fn text(self) -> String {
        self.text
    }
}
