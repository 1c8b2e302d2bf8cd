//! What the program says at its end, on standard error, or with status 0 on standard output.

use gmp_base::MNo;
use gmp_trace::Bad;
use std::fmt;

/// Why there is no trace of a run that follows what was found.
#[derive(Clone, Copy)]
pub enum Untraced {
    /// More goroutines are between two asks at once than there are processors, of which there are so many.
    Crowded(u8),
    /// A run may not have so many entries.
    TooLong,
    /// A call was refused, or answered otherwise than what was found says.
    Astray,
}

/// What is said at the end, besides the trace or the summary.
///
/// Its text, by `Display`, ends with a line feed. `Nothing` has no text.
#[derive(Drop)]
pub enum Said {
    /// The trace or the summary was written.
    Nothing,
    /// This line of the script is the first bad one, numbered from 1.
    BadLine(u64),
    /// The first bad line of the trace.
    BadTrace(Bad),
    /// The first bad line of this part, of which the lines are counted from 1. Parts are counted from 1 too.
    BadPart(u64, Bad),
    /// This part doesn't go on where the one before stops.
    Apart(u64),
    /// A script, a trace or a part of a run has more bytes than it may have.
    InputTooLong,
    /// The file of this name can't be opened.
    Unopened(String),
    /// A read failed.
    InputUnreadable,
    /// A write failed.
    OutputFailed,
    /// No run can have these limits, so many bodies or such channels; or there is no such part of a trace.
    BadLimits,
    /// Memory was refused.
    OutOfMemory,
    /// The least machine whose count of calls is not the number of its entries.
    Mismatch(MNo),
    /// The parts that were written are no run to its end, with as many entries as the machines made calls.
    NoRun,
    /// There is no trace of what was found.
    NoTrace(Untraced),
    /// A text of the command line's parser: why it refused, or the help that was asked for.
    Usage(String),
}

impl fmt::Display for Said {
    ghost use Rattle.std.specs.Prelude.{Some};
    ghost use Rattle.gmp_words.specs.Said.{text_of};

    ghost output = { λ said. Some (text_of said) };

    fn fmt<W: fmt::Write>(&self, f: &mut fmt::Formatter<W>) -> fmt::Result {
        match self {
            Said::Nothing => Ok(()),
            Said::BadLine(line) => writeln!(f, "gmp: line {line}: bad script line"),
            Said::BadTrace(bad) => writeln!(f, "gmp: {bad}"),
            Said::BadPart(part, bad) => writeln!(f, "gmp: part {part}: {bad}"),
            Said::Apart(part) => writeln!(f, "gmp: part {part}: apart"),
            Said::InputTooLong => f.write_str("gmp: input too long\n"),
            Said::Unopened(name) => writeln!(f, "gmp: {name}: can't be opened"),
            Said::InputUnreadable => f.write_str("gmp: input unreadable\n"),
            Said::OutputFailed => f.write_str("gmp: output failed\n"),
            Said::BadLimits => f.write_str("gmp: bad limits\n"),
            Said::OutOfMemory => f.write_str("gmp: out of memory\n"),
            Said::Mismatch(m) => writeln!(f, "gmp: audit: machine {}", m.0),
            Said::NoRun => f.write_str("gmp: audit: no run\n"),
            Said::NoTrace(Untraced::Crowded(procs)) => {
                writeln!(f, "gmp: no trace: too few processors: {procs}")
            }
            Said::NoTrace(Untraced::TooLong) => f.write_str(
                "gmp: no trace: it would have more than 1000000 entries\n",
            ),
            Said::NoTrace(Untraced::Astray) => f.write_str(
                "gmp: audit: no run follows the choices\n",
            ),
            Said::Usage(text) => f.write_str(text),
        }
    }
}
