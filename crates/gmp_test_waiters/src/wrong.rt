//! How a row falls short. The text of each is what is printed of it.

use std::alloc::{AllocError, AllocFailed};
use std::fmt;

/// How a row falls short.
#[derive(Clone, Copy)]
pub enum Wrong {
    OutOfMemory,
    Unreadable,
    NotBegun,
    OtherLog,
    OtherEnd,
    BodyLost,
    Late,
    OtherText,
    NotClosed,
    NotOnce,
    /// What has another number than it has to have, or is wrong at this number.
    Number(&'static str, u64),
}

impl fmt::Display for Wrong {
    fn fmt<W: fmt::Write>(&self, f: &mut fmt::Formatter<W>) -> fmt::Result {
        f.write_str(match self {
            Wrong::OutOfMemory => "out of memory",
            Wrong::Unreadable => "the row can't be read",
            Wrong::NotBegun => "the run was not begun",
            Wrong::OtherLog => "a log disagrees with the history, or should and doesn't",
            Wrong::OtherEnd => "it ended otherwise",
            Wrong::BodyLost => "a body is missing",
            Wrong::Late => "somebody waited in vain",
            Wrong::OtherText => "something else was written",
            Wrong::NotClosed => "the queue was not closed",
            Wrong::NotOnce => "not each ticket came once, in order",
            Wrong::Number(what, number) => return write!(f, "{what}: {number}"),
        })
    }
}

impl From<AllocError> for Wrong {
    fn from(_error: AllocError) -> Wrong {
        Wrong::OutOfMemory
    }
}

impl<T: Drop> From<AllocFailed<T>> for Wrong {
    fn from(_error: AllocFailed<T>) -> Wrong {
        Wrong::OutOfMemory
    }
}

/// Nothing, or what is wrong where it isn't right.
pub fn held(is_right: bool, wrong: Wrong) -> Result<(), Wrong> {
    if is_right { Ok(()) } else { Err(wrong) }
}

/// The status is the one that is wanted.
pub fn ended(status: u8, wanted: u8) -> Result<(), Wrong> {
    held(status == wanted, Wrong::Number("status", u64::from(status)))
}
