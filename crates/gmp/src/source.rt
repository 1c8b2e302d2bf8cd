//! Where the input comes from: standard input, or the file that the command line names.
//! A clause can say nothing of what either holds.

use gmp_words::MAX_SCRIPT;
use std::io::{self, ErrorKind, Read};

/// Standard input, or a file.
#[derive(Drop)]
pub enum Origin<S, F> {
    Standard(S),
    File(F),
}

/// The input, of which what was read is kept for a person at a terminal, up to the length of a script.
#[derive(Drop)]
pub struct Source<S, F> {
    origin: Origin<S, F>,
    /// None where nothing is kept, or there was more.
    kept: Option<Vec<u8>>,
    /// What its last error was, if a read failed.
    pub failed: Option<ErrorKind>,
}

impl<S, F> Source<S, F> {
    /// An input of which nothing was read yet. What is read goes to `kept`.
    pub fn of(origin: Origin<S, F>, kept: Option<Vec<u8>>) -> Self {
        Source {
            origin,
            kept,
            failed: None,
        }
    }

    /// All that was read, or nothing where it isn't kept.
    pub fn text(&self) -> &[u8] {
        match &self.kept {
            Some(text) => text,
            None => &[],
        }
    }

    /// Keeps what was read, where there is room for it.
    fn keep(&mut self, read: &[u8]) {
        let is_kept = match &mut self.kept {
            Some(text) => {
                read.len() <= MAX_SCRIPT.saturating_sub(text.len())
                    && text.extend_from_slice(read).is_ok()
            }
            None => false,
        };
        if !is_kept {
            self.kept = None;
        }
    }
}

impl<S: Read, F: Read> Read for Origin<S, F> {
    fn read(&mut self, buf: &mut [u8]) -> io::Result<usize> {
        match self {
            Origin::Standard(input) => input.read(buf),
            Origin::File(file) => file.read(buf),
        }
    }
}

impl<S: Read, F: Read> Read for Source<S, F> {
    fn read(&mut self, buf: &mut [u8]) -> io::Result<usize> {
        match self.origin.read(buf) {
            Ok(n) => {
                self.keep(&buf[..n]);
                Ok(n)
            }
            Err(error) => {
                self.failed = Some(error.kind());
                Err(error)
            }
        }
    }
}
