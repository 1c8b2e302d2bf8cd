//! How far a check is, on one line of standard error, which is written over and gone at the end.
//! Shown only where standard error is a terminal and the input is long: what goes into a file has no such line.

use gmp_judge::Progress;
use gmp_trace::{Watch, Work};

/// An input of more bytes takes long enough for a line: one of more than 100,000 entries has more.
const LONG: usize = 2 * 1024 * 1024;

/// The line, which is shown where standard error is a terminal and the input is long, and gone at the end.
#[derive(Drop)]
pub struct Line<'a, E> {
    rt: &'a E,
    /// Whether standard error is a terminal.
    is_terminal: bool,
    /// Whether there is a line to be written over.
    is_shown: bool,
}

impl<'a, E> Line<'a, E> {
    /// A line that is not shown yet: whether it is, the input's length says.
    pub fn on(rt: &'a E, is_terminal: bool) -> Self {
        Line {
            rt,
            is_terminal,
            is_shown: false,
        }
    }
}

impl<E: Eprint> Watch for Line<'_, E> {
    fn entries(&mut self, work: Work, count: u64) {
        if !self.is_shown {
            return;
        }
        // A line that cannot be shown keeps nothing from the check.
        let _ = match work {
            Work::Reading => eprint!(self.rt; "\r{count} entries read\x1b[K"),
            Work::Checking => eprint!(self.rt; "\r{count} entries checked\x1b[K"),
        };
    }
}

impl<E: Eprint> Progress for Line<'_, E> {
    fn begin(&mut self, bytes: usize) {
        self.is_shown = self.is_terminal && bytes > LONG;
    }

    fn end(&mut self) {
        if self.is_shown {
            let _ = eprint!(self.rt; "\r\x1b[K");
        }
    }
}
