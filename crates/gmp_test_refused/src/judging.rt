//! How a command may end where an allocation is refused: as `Way` says, and in no other way.

use gmp_words::{Ended, Said};
use std::fmt;

/// How a command ended.
#[derive(Clone, Copy)]
pub enum Way {
    /// Nothing was refused.
    Whole,
    /// A make was refused memory, of which the goroutine was told, and the run went on. It is no run of the script then.
    NoMemory,
    /// It ended with `gmp: out of memory` and status 5.
    OutOfMemory,
    /// None of these.
    Wrong,
}

impl fmt::Display for Way {
    fn fmt<W: fmt::Write>(&self, f: &mut fmt::Formatter<W>) -> fmt::Result {
        f.write_str(match self {
            Way::Whole => "whole",
            Way::NoMemory => "no memory",
            Way::OutOfMemory => "out of memory",
            Way::Wrong => "wrong",
        })
    }
}

/// How a command ended that wrote this. It writes `whole` where nothing is refused, and `unmade` where a make is, and ends with this status. A
/// run that is held against its script writes nothing where a make is refused.
pub fn judged(ended: &Ended, status: u8, written: &[u8], whole: &str, unmade: &str) -> Way {
    match &ended.said {
        Said::OutOfMemory if ended.status == 5 => Way::OutOfMemory,
        Said::Nothing if ended.status != status => Way::Wrong,
        Said::Nothing if written == whole.as_bytes() => Way::Whole,
        Said::Nothing if written == unmade.as_bytes() => Way::NoMemory,
        Said::NoRun if unmade.is_empty() && written.is_empty() => Way::NoMemory,
        _ => Way::Wrong,
    }
}
