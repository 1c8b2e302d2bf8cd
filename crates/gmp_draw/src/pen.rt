//! Who writes the picture: `Pen` has the bytes so far, and the entries that titles cite.

use crate::svg::{put, put_escaped, put_number};
use gmp_history::History;
use gmp_lanes::Doing;
use gmp_trace::{call_name, call_place, put_entry};
use gmp_words::By;
use std::alloc::{AllocError, Global};

/// The picture as far as it is written.
#[derive(Drop)]
pub struct Pen<'a> {
    alloc: Global,
    pub out: Vec<u8>,
    /// An entry's line as the trace has it.
    line: Vec<u8>,
    entries: &'a History,
    /// The number of the first of them.
    first: u64,
}

impl<'a> Pen<'a> {
    /// Nothing is written.
    pub fn new(alloc: Global, entries: &'a History, first: u64) -> Self {
        Pen {
            alloc,
            out: Vec::new(alloc),
            line: Vec::new(alloc),
            entries,
            first,
        }
    }

    /// Writes these bytes.
    pub fn put(&mut self, bytes: &[u8]) -> Result<(), AllocError> {
        put(&mut self.out, bytes)
    }

    /// Writes a number.
    pub fn put_number(&mut self, n: u64) -> Result<(), AllocError> {
        put_number(&mut self.out, n)
    }

    /// Writes these bytes and a number.
    pub fn put_named(&mut self, bytes: &[u8], n: u64) -> Result<(), AllocError> {
        self.put(bytes)?;
        self.put_number(n)
    }

    /// What a machine or goroutine does, in words.
    pub fn words(&self, by: By, doing: Doing) -> Result<String, AllocError> {
        match by {
            By::Machine => doing.of_machine(self.alloc),
            By::Goroutine => doing.of_goroutine(self.alloc),
        }
    }

    /// Writes a line feed and the line of an entry, where there is one.
    pub fn put_line(&mut self, number: Option<u64>) -> Result<(), AllocError> {
        let Some(number) = number else {
            return Ok(());
        };
        let Some(entry) = self.entries.get(number.wrapping_sub(self.first) as usize) else {
            return Ok(());
        };
        self.line.clear();
        self.line.push(b'\n')?;
        put_entry(&mut self.line, number, &entry)?;
        // The title goes on behind the line.
        self.line.pop();
        put_escaped(&mut self.out, &self.line)
    }

    /// Which call an entry is: the first word of it.
    pub fn call_of(&self, number: u64) -> Option<&'static [u8]> {
        let entry = self.entries.get(number.wrapping_sub(self.first) as usize)?;
        Some(call_name(call_place(&entry.call)))
    }

    /// Writes which entries something lasts for: from one on, where it began in the trace, to before another.
    pub fn put_entries(&mut self, first: Option<u64>, to: u64) -> Result<(), AllocError> {
        let last = to.saturating_sub(1);
        match first {
            None => self.put_named(b", up to entry ", last),
            Some(first) if first == last => self.put_named(b", entry ", first),
            Some(first) => {
                self.put_named(b", entries ", first)?;
                self.put_named(b" to ", last)
            }
        }
    }

    /// What is written.
    pub fn finish(self) -> Vec<u8> {
        self.out
    }
}
