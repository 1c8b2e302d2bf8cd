//! Changes of one line of a text: `Edit` is the change, `Site` the line with what stands around it.

use std::alloc::{AllocError, Global};
use std::ops::Range;

/// A line of a text, with what stands before it and behind it.
#[derive(Clone, Copy)]
pub struct Site<'a> {
    /// From 1.
    pub number: usize,
    pub before: &'a [u8],
    pub line: &'a [u8],
    pub behind: &'a [u8],
}

/// What becomes of a line.
#[derive(Clone, Copy)]
pub enum Edit<'a> {
    /// It is this line instead.
    Line(&'a str),
    /// It is left out.
    Without,
    /// It stands there twice.
    Twice,
    /// It stands behind the next one.
    Swapped,
    /// This byte stands behind it.
    Behind(u8),
    /// The text ends before it.
    Before,
    /// The text ends within it, before each of its bytes but the first.
    Within,
    /// Each of its bytes, in turn, is this one.
    Spoil(u8),
    /// This byte stands before each of its bytes, in turn.
    Pad(u8),
}

/// Adds these pieces.
fn extend(out: &mut Vec<u8>, first: &[u8], second: &[u8], third: &[u8]) -> Result<(), AllocError> {
    out.extend_from_slice(first)?;
    out.extend_from_slice(second)?;
    out.extend_from_slice(third)
}

impl<'a> Edit<'a> {
    /// The edit of this name, with what is said of it.
    pub fn named(name: &str, more: &'a str) -> Option<Self> {
        let byte = more.parse().ok();
        match name {
            "line" => Some(Edit::Line(more)),
            "without" => Some(Edit::Without),
            "twice" => Some(Edit::Twice),
            "swapped" => Some(Edit::Swapped),
            "behind" => Some(Edit::Behind(byte?)),
            "before" => Some(Edit::Before),
            "within" => Some(Edit::Within),
            "spoil" => Some(Edit::Spoil(byte?)),
            "pad" => Some(Edit::Pad(byte?)),
            _ => None,
        }
    }

    /// The places in a line of so many bytes where it is made.
    pub fn places(self, bytes: usize) -> Range<usize> {
        match self {
            Edit::Within => 1..bytes,
            Edit::Spoil(_) | Edit::Pad(_) => 0..bytes,
            _ => 0..1,
        }
    }

    /// Does the text end there?
    fn cuts(self) -> bool {
        matches!(self, Edit::Before | Edit::Within)
    }

    /// Adds what stands in the line's stead, where the edit is made at this place in it.
    fn put(self, out: &mut Vec<u8>, line: &[u8], at: usize) -> Result<(), AllocError> {
        let (head, tail) = line.split_at(at.min(line.len()));
        match self {
            Edit::Line(text) => extend(out, text.as_bytes(), b"\n", &[]),
            Edit::Without | Edit::Before => Ok(()),
            Edit::Twice => extend(out, line, line, &[]),
            Edit::Swapped => extend(out, line, &[], &[]),
            Edit::Behind(byte) => extend(out, line, &[byte], &[]),
            Edit::Within => extend(out, head, &[], &[]),
            Edit::Spoil(byte) => extend(out, head, &[byte], tail.get(1..).unwrap_or(tail)),
            Edit::Pad(byte) => extend(out, head, &[byte], tail),
        }
    }

    /// What stands behind the line, in two: what comes before it now, and the rest.
    fn around(self, behind: &[u8]) -> (&[u8], &[u8]) {
        let next = behind.iter().position(|byte| *byte == b'\n');
        match (self, next) {
            (Edit::Swapped, Some(end)) => behind.split_at(end.saturating_add(1).min(behind.len())),
            _ => (&[], behind),
        }
    }

    /// The text, where the edit is made at this place in the line.
    pub fn made(self, alloc: Global, site: &Site, at: usize) -> Result<Vec<u8>, AllocError> {
        let (next, behind) = self.around(site.behind);
        let mut out = Vec::new(alloc);
        extend(&mut out, site.before, next, &[])?;
        self.put(&mut out, site.line, at)?;
        if !self.cuts() {
            out.extend_from_slice(behind)?;
        }
        Ok(out)
    }
}
