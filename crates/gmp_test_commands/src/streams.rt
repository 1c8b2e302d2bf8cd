//! What a command reads from and writes to, and who hears how far it is: `Pieces`, `Room` and `Notes`.

use gmp_judge::Progress;
use gmp_trace::{Watch, Work};
use std::alloc::{AllocError, Global};
use std::io;
use std::io::{ErrorKind, Read, Write};

/// A reader that gives its text in pieces, and then ends or fails.
#[derive(Drop)]
pub struct Pieces<'a> {
    pub text: &'a [u8],
    /// The most bytes of a piece.
    pub size: usize,
    /// Whether it ends behind the text. Else it fails.
    pub ends: bool,
    /// Whether it is interrupted before each piece.
    pub is_interrupted: bool,
    /// Whether its last read was interrupted.
    pub was_interrupted: bool,
}

impl<'a> Pieces<'a> {
    /// The text in one piece.
    pub fn whole(text: &'a [u8]) -> Self {
        Pieces {
            text,
            size: usize::MAX,
            ends: true,
            is_interrupted: false,
            was_interrupted: false,
        }
    }
}

impl Read for Pieces<'_> {
    fn read(&mut self, buf: &mut [u8]) -> io::Result<usize> {
        self.was_interrupted = self.is_interrupted && !self.was_interrupted;
        if self.was_interrupted {
            return Err(io::Error::from(ErrorKind::Interrupted));
        }
        let count = self.text.len().min(buf.len()).min(self.size);
        if count == 0 && !self.ends {
            return Err(io::Error::from(ErrorKind::TimedOut));
        }
        buf[..count].copy_from_slice(&self.text[..count]);
        self.text = &self.text[count..];
        Ok(count)
    }
}

/// A writer that has room for so many bytes, and takes a part where not all fit.
#[derive(Drop)]
pub struct Room {
    pub left: usize,
    /// Whether a full one fails. Else it takes no byte.
    pub fails: bool,
    pub written: Vec<u8>,
}

impl Room {
    /// Room for all.
    pub fn whole(alloc: Global) -> Self {
        Room {
            left: usize::MAX,
            fails: true,
            written: Vec::new(alloc),
        }
    }
}

impl Write for Room {
    fn write(&mut self, buf: &[u8]) -> io::Result<usize> {
        let count = buf.len().min(self.left);
        if count == 0 && self.fails && !buf.is_empty() {
            return Err(io::Error::from(ErrorKind::StorageFull));
        }
        self.written.extend_from_slice(&buf[..count])?;
        self.left -= count;
        Ok(count)
    }

    fn flush(&mut self) -> io::Result<()> {
        Ok(())
    }
}

/// What is told of a command's progress.
#[derive(Drop)]
pub struct Notes {
    begun: usize,
    told: Vec<(Work, u64)>,
    ended: bool,
}

impl Notes {
    pub fn new(alloc: Global) -> Self {
        Notes {
            begun: 0,
            told: Vec::new(alloc),
            ended: false,
        }
    }

    /// Of an input of so many bytes: what was told, whether that began with the input's length, and whether it ended.
    pub fn text(&self, alloc: Global, bytes: usize) -> Result<String, AllocError> {
        let (has_begun, ended) = (self.begun == bytes, self.ended);
        format!(in alloc; "{:?} {has_begun} {ended}", self.told)
    }
}

impl Watch for Notes {
    fn entries(&mut self, work: Work, count: u64) {
        let _ = self.told.push((work, count));
    }
}

impl Progress for Notes {
    fn begin(&mut self, bytes: usize) {
        self.begun = bytes;
    }

    fn end(&mut self) {
        self.ended = true;
    }
}
