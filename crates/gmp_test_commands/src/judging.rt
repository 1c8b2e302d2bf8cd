//! Whether a command ended as its block says. `Played` is a command that was run, with how it ended.

use crate::block::{Block, Printed};
use crate::error::PlayError;
use crate::running::{Ran, run_on, settings_of};
use crate::streams::{Pieces, Room};
use crate::words::{first, range};
use gmp_words::tip_of;
use std::alloc::{AllocError, Global};

/// A command that was run.
#[derive(Clone, Copy)]
pub struct Played<'a> {
    pub alloc: Global,
    pub command: &'a str,
    pub input: &'a [u8],
    /// How it ended.
    pub ran: &'a Ran,
}

/// The number of the first line in which two texts differ, if they do.
fn differs(got: &[u8], want: &[u8]) -> Option<usize> {
    if got == want {
        return None;
    }
    let mut line = 1usize;
    for (a, b) in got.iter().zip(want.iter()) {
        if *a != *b {
            return Some(line);
        }
        if *a == b'\n' {
            line = line.wrapping_add(1);
        }
    }
    Some(line)
}

/// What a line says that begins with `=`.
pub fn holds(played: &Played, line: &str) -> Result<(), PlayError> {
    let (word, rest) = first(line);
    match word {
        "keep" => Ok(()),
        "breaks" => played.breaks(),
        "room" => played.has_room(rest),
        "has" => played.has(rest),
        "lines" => is_count(
            played.ran.written.split(|byte| *byte == b'\n').count(),
            rest,
        ),
        "tells" => played.tells(rest),
        "tips" => played.tips(rest),
        _ => Err(PlayError::Unreadable),
    }
}

/// A text of so many line feeds has one part more.
fn is_count(parts: usize, rest: &str) -> Result<(), PlayError> {
    let lines = parts.saturating_sub(1);
    match range(rest) {
        Some((want, _)) if want == lines => Ok(()),
        _ => Err(PlayError::Counts(lines)),
    }
}

impl Played<'_> {
    /// It ended with the block's status, and printed and said what the block has.
    pub fn ends(&self, block: &Block) -> Result<(), PlayError> {
        if self.ran.said.as_bytes() != block.says.as_slice() {
            let said = self.ran.said.as_str().trim_end();
            return Err(PlayError::Says(String::from_str(self.alloc, said)?));
        }
        if self.ran.status != block.status {
            return Err(PlayError::Status(self.ran.status));
        }
        let got = self.ran.written.as_slice();
        let want = match block.printed {
            Printed::Any => got,
            Printed::Input => self.input,
            Printed::Whole | Printed::End => block.lines.as_slice(),
        };
        let from = match block.printed {
            Printed::End => got.len().saturating_sub(want.len()),
            _ => 0,
        };
        match differs(got.get(from..).unwrap_or(&[]), want) {
            None => Ok(()),
            Some(line) => Err(PlayError::Prints(line)),
        }
    }

    /// It printed a text, which stands in quotes, so many times.
    fn has(&self, rest: &str) -> Result<(), PlayError> {
        let (times, text) = first(rest);
        let printed = str::from_utf8(&self.ran.written).unwrap_or("");
        let count = printed.matches(text.trim_matches('"')).count();
        match range(times) {
            Some((want, _)) if want == count => Ok(()),
            _ => Err(PlayError::Counts(count)),
        }
    }

    /// It told of its progress so.
    fn tells(&self, rest: &str) -> Result<(), PlayError> {
        let told = self.ran.told.as_str();
        if told == rest {
            Ok(())
        } else {
            Err(PlayError::Tells(String::from_str(self.alloc, told)?))
        }
    }

    /// A person at a terminal is told this besides, without the spaces before it.
    fn tips(&self, rest: &str) -> Result<(), PlayError> {
        let Ok(settings) = settings_of(self.alloc, self.command) else {
            return Err(PlayError::Unreadable);
        };
        let tip = tip_of(self.alloc, &settings, &self.ran.end, self.input);
        let text = format!(in self.alloc; "{tip}")?;
        let text = text.trim();
        if text == rest {
            Ok(())
        } else {
            Err(PlayError::Tips(String::from_str(self.alloc, text)?))
        }
    }

    /// Whether it ends so and prints this where it reads from that.
    fn is_so(
        &self,
        input: Pieces,
        status: u8,
        said: &str,
        printed: &[u8],
    ) -> Result<bool, AllocError> {
        let ran = run_on(self.alloc, self.command, input, Room::whole(self.alloc))?;
        Ok(ran.status == status && ran.said.as_str() == said && ran.written.as_slice() == printed)
    }

    /// It ends as it should where its reader gives so many bytes, in pieces of this size, and then fails.
    fn fails_behind(
        &self,
        count: usize,
        size: usize,
        is_interrupted: bool,
    ) -> Result<(), PlayError> {
        let input = Pieces {
            size,
            ends: false,
            is_interrupted,
            ..Pieces::whole(self.input.get(..count).unwrap_or(&[]))
        };
        if self.is_so(input, 1, "gmp: input unreadable\n", b"")? {
            Ok(())
        } else {
            Err(PlayError::Reads(count))
        }
    }

    /// With room for so many bytes it prints as many, and says whether that was all.
    fn fills(&self, count: usize, fails: bool) -> Result<(), PlayError> {
        let room = Room {
            left: count,
            fails,
            ..Room::whole(self.alloc)
        };
        let ran = run_on(self.alloc, self.command, Pieces::whole(self.input), room)?;
        let (status, said) = if count < self.ran.written.len() {
            (1, "gmp: output failed\n")
        } else {
            (self.ran.status, self.ran.said.as_str())
        };
        let printed = self.ran.written.get(..count).unwrap_or(&self.ran.written);
        if ran.status == status && ran.said.as_str() == said && ran.written.as_slice() == printed {
            Ok(())
        } else {
            Err(PlayError::Writes(count))
        }
    }

    /// It ends as it should with room for each of these numbers of bytes, and for all but one.
    fn has_room(&self, rest: &str) -> Result<(), PlayError> {
        for word in rest.split(' ') {
            let (count, _) = range(word).ok_or(PlayError::Unreadable)?;
            self.fills(count, true)?;
        }
        self.fills(self.ran.written.len().saturating_sub(1), true)
    }

    /// It ends as it should where any of its reads fails, whatever it is given at each, and behind each byte of what it prints; and its input
    /// may come in pieces, with reads that are interrupted.
    fn breaks(&self) -> Result<(), PlayError> {
        for count in 0..self.input.len().saturating_add(1) {
            self.fails_behind(count, 1, false)?;
            self.fails_behind(count, 3, true)?;
            self.fails_behind(count, usize::MAX, false)?;
        }
        for count in 0..self.ran.written.len().saturating_add(1) {
            self.fills(count, false)?;
            self.fills(count, true)?;
        }
        let input = Pieces {
            size: 3,
            is_interrupted: true,
            ..Pieces::whole(self.input)
        };
        let ran = self.ran;
        if self.is_so(input, ran.status, ran.said.as_str(), &ran.written)? {
            Ok(())
        } else {
            Err(PlayError::Pieces)
        }
    }
}
