//! Plays a file, block by block. `Player` has what is kept from one block to the next.

use crate::block::{Block, Line};
use crate::error::PlayError;
use crate::judging::{Played, holds};
use crate::running::run_on;
use crate::streams::{Pieces, Room};
use std::alloc::Global;

/// A file that is played.
#[derive(Drop)]
struct Player {
    alloc: Global,
    /// The number of the line that is played.
    at: usize,
    /// What a command printed, for those behind it.
    kept: Vec<u8>,
}

/// Plays a file: how many blocks it has, or which line fell short and how.
pub fn played(rt: &HostRuntime, text: &str) -> Result<usize, (usize, PlayError)> {
    let alloc = rt.alloc();
    let mut player = Player {
        alloc,
        at: 0,
        kept: Vec::new(alloc),
    };
    match player.file(rt, text) {
        Ok(count) => Ok(count),
        Err(error) => Err((player.at, error)),
    }
}

impl Player {
    /// The blocks of the file, which are parted by empty lines.
    fn file(&mut self, rt: &HostRuntime, text: &str) -> Result<usize, PlayError> {
        let mut lines = Vec::new(self.alloc);
        for (before, line) in text.split('\n').enumerate() {
            if !line.starts_with('#') {
                lines.push((before.wrapping_add(1), line))?;
            }
        }
        let mut count = 0usize;
        for block in lines.split(|(_, line)| line.is_empty()) {
            if let [command, lines @ ..] = block {
                self.block(rt, *command, lines)?;
                count = count.wrapping_add(1);
            }
        }
        Ok(count)
    }

    /// The block of this command.
    fn block(&mut self, rt: &HostRuntime, command: Line, lines: &[Line]) -> Result<(), PlayError> {
        let mut block = Block::new(self.alloc);
        for (at, line) in lines {
            self.at = *at;
            if !block.reads(rt, &self.kept, line)? {
                block.wants(rt, line)?;
            }
        }
        self.at = command.0;
        self.runs(command.1, block, lines)
    }

    /// Runs the command, and judges how it ends.
    fn runs(&mut self, command: &str, block: Block, lines: &[Line]) -> Result<(), PlayError> {
        let input = Pieces::whole(&block.input);
        let ran = run_on(self.alloc, command, input, Room::whole(self.alloc))?;
        let played = Played {
            alloc: self.alloc,
            command,
            input: &block.input,
            ran: &ran,
        };
        played.ends(&block)?;
        for (at, line) in lines {
            if let Some(line) = line.strip_prefix("= ") {
                self.at = *at;
                holds(&played, line)?;
                if line == "keep" {
                    self.kept = ran.written.to_vec(self.alloc)?;
                }
            }
        }
        Ok(())
    }
}
