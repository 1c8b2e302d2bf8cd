//! A block, as its lines say it: the input, and what has to be printed and said. Lines that begin with `=` say how that is judged.

use crate::error::PlayError;
use crate::words::{first, put_line, range};
use std::alloc::{AllocError, Global};
use std::fs;

/// A line of a file with its number.
pub type Line<'a> = (usize, &'a str);

/// What has to be printed.
#[derive(Clone, Copy, PartialEq, Eq)]
pub enum Printed {
    /// These lines.
    Whole,
    /// Something that ends with these lines.
    End,
    /// The input.
    Input,
    /// No matter what.
    Any,
}

/// What the lines of a block say.
#[derive(Drop)]
pub struct Block {
    alloc: Global,
    pub input: Vec<u8>,
    /// Where the text begins that was added last.
    last: usize,
    pub lines: Vec<u8>,
    pub printed: Printed,
    pub says: Vec<u8>,
    pub status: u8,
}

/// Adds the lines of a template, which are parted by `/`, for each number of a range; the number stands for `#`.
fn put_each(alloc: Global, text: &mut Vec<u8>, rest: &str) -> Result<(), PlayError> {
    let (numbers, template) = first(rest);
    let (from, to) = range(numbers).ok_or(PlayError::Unreadable)?;
    for k in from..to.saturating_add(1) {
        let digits = format!(in alloc; "{k}")?;
        for line in template.split('/') {
            match line.split_once('#') {
                Some((head, tail)) => put_line(text, &[head, digits.as_str(), tail])?,
                None => put_line(text, &[line])?,
            }
        }
    }
    Ok(())
}

/// Adds a text, which stands in quotes, so many times.
fn put_times(text: &mut Vec<u8>, rest: &str) -> Result<(), PlayError> {
    let (times, piece) = first(rest);
    let (times, _) = range(times).ok_or(PlayError::Unreadable)?;
    for _ in 0..times {
        text.extend_from_slice(piece.trim_matches('"').as_bytes())?;
    }
    Ok(())
}

/// The text with another line of this number, from 1.
fn changed(alloc: Global, text: &[u8], number: usize, other: &str) -> Result<Vec<u8>, AllocError> {
    let mut changed = Vec::new(alloc);
    for (before, line) in text.split_inclusive(|byte| *byte == b'\n').enumerate() {
        if before.wrapping_add(1) == number {
            put_line(&mut changed, &[other])?;
        } else {
            changed.extend_from_slice(line)?;
        }
    }
    Ok(changed)
}

impl Block {
    pub fn new(alloc: Global) -> Block {
        Block {
            alloc,
            input: Vec::new(alloc),
            last: 0,
            lines: Vec::new(alloc),
            printed: Printed::Whole,
            says: Vec::new(alloc),
            status: 0,
        }
    }

    /// In the text that was added last, the line of this number is this one.
    fn change(&mut self, rest: &str) -> Result<(), PlayError> {
        let (number, other) = first(rest);
        let (number, _) = range(number).ok_or(PlayError::Unreadable)?;
        let text = self.input.get(self.last..).unwrap_or(&[]);
        let changed = changed(self.alloc, text, number, other)?;
        self.input.truncate(self.last);
        self.input.extend_from_slice(&changed)?;
        Ok(())
    }

    /// Adds this text to the input.
    fn add(&mut self, text: &[u8]) -> Result<(), PlayError> {
        self.last = self.input.len();
        self.input.extend_from_slice(text)?;
        Ok(())
    }

    /// What a line says of the input; `kept` is what a command before printed. False where it says nothing of it.
    pub fn reads(&mut self, rt: &HostRuntime, kept: &[u8], line: &str) -> Result<bool, PlayError> {
        let (word, rest) = first(line);
        match word {
            "<" => put_line(&mut self.input, &[rest])?,
            "<-" => self.input.extend_from_slice(rest.as_bytes())?,
            "of" => self.add(file(rt, rest)?.as_bytes())?,
            "kept" => self.add(kept)?,
            "each" => put_each(self.alloc, &mut self.input, rest)?,
            "times" => put_times(&mut self.input, rest)?,
            "return" => self.input.extend_from_slice(b"\r")?,
            "with" => self.change(rest)?,
            _ => return Ok(false),
        }
        Ok(true)
    }

    /// What a line says of the end. Lines that begin with `=` are left for later.
    pub fn wants(&mut self, rt: &HostRuntime, line: &str) -> Result<(), PlayError> {
        let (word, rest) = first(line);
        match word {
            ">" => put_line(&mut self.lines, &[rest])?,
            ">-" => self.lines.extend_from_slice(rest.as_bytes())?,
            ">each" => put_each(self.alloc, &mut self.lines, rest)?,
            "to" => self.lines.extend_from_slice(file(rt, rest)?.as_bytes())?,
            "!" => put_line(&mut self.says, &[rest])?,
            "status" => self.status = rest.parse().ok().ok_or(PlayError::Unreadable)?,
            "end" => self.printed = Printed::End,
            "back" => self.printed = Printed::Input,
            "any" => self.printed = Printed::Any,
            "=" => {}
            _ => return Err(PlayError::Unreadable),
        }
        Ok(())
    }
}

/// The text of the file of this name.
fn file(rt: &HostRuntime, name: &str) -> Result<String, PlayError> {
    match fs::read_to_string(rt, name) {
        Ok(text) => Ok(text),
        Err(_) => Err(PlayError::NoFile),
    }
}
