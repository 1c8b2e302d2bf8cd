//! How a file falls short.

use std::alloc::{AllocError, Global};
use std::io;

/// How a file falls short, or why it isn't judged.
#[derive(Drop)]
pub enum ScriptError {
    /// A file can't be read, or there is no memory.
    Io(io::Error),
    /// This is said of the line of this number.
    Line(usize, String),
}

impl ScriptError {
    /// This is said of this line.
    pub fn line(alloc: Global, line: usize, said: &str) -> ScriptError {
        match String::from_str(alloc, said) {
            Ok(said) => ScriptError::Line(line, said),
            Err(error) => ScriptError::from(error),
        }
    }
}

impl From<io::Error> for ScriptError {
    fn from(error: io::Error) -> ScriptError {
        ScriptError::Io(error)
    }
}

impl From<AllocError> for ScriptError {
    fn from(error: AllocError) -> ScriptError {
        ScriptError::Io(io::Error::from(error))
    }
}
