//! What is wrong with a trace: `Why` is the word, `Bad` the word with its line.
//! `read` says all but Step and Outcome, which `check` of gmp_check says.

ghost use Rattle.std.specs.Prelude.{◌≡◌};
ghost use Rattle.gmp_trace.specs.Bad.{word_of};

use std::error::Error;
use std::fmt;

/// What is wrong with a line. Its text, by `Display`, is its word.
#[derive(Clone, Copy, Debug, PartialEq, Eq)]
pub enum Why {
    /// Line 1 is none of the three headers.
    Header,
    /// Line 2 isn't spelled so, or its limits are out of range or none of the version's.
    Limits,
    /// Line 3 of version 1 isn't spelled so, or has too many channels or too great a capacity.
    Caps,
    /// A line of the start of version 2 or 3 is bad, or the state doesn't fit together.
    Start,
    /// A line is spelled as none of an entry and none of an end, or its call is never answered so.
    Grammar,
    /// An entry's number, its machine, or its count of the machine's entries isn't the next.
    Number,
    /// The text stops with no line of an end.
    End,
    /// Something stands behind the end.
    Extra,
    /// No step of the plain scheduler is this entry.
    Step,
    /// The end is not that of the state.
    Outcome,
    /// Memory was refused, so nothing is said of the text.
    OutOfMemory,
}

impl Why {
    /// Its word, as it stands in the texts.
    fn word(self) -> &'static str
        ensures { result.now ≡ word_of self }
    {
        match self {
            Why::Header => "header",
            Why::Limits => "limits",
            Why::Caps => "caps",
            Why::Start => "start",
            Why::Grammar => "grammar",
            Why::Number => "number",
            Why::End => "end",
            Why::Extra => "extra",
            Why::Step => "step",
            Why::Outcome => "outcome",
            Why::OutOfMemory => "out of memory",
        }
    }
}

impl fmt::Display for Why {
    ghost use Rattle.std.specs.Prelude.{Some};
    ghost use Rattle.gmp_trace.specs.Bad.{word_of};

    ghost output = { λ why. Some (word_of why) };

    fn fmt<W: fmt::Write>(&self, f: &mut fmt::Formatter<W>) -> fmt::Result {
        f.write_str(self.word())
    }
}

impl Error for Why {}

/// The first bad line, numbered from 1.
#[derive(Clone, Copy, Debug, PartialEq, Eq)]
pub struct Bad {
    /// 0 where memory was refused.
    pub line: u64,
    /// What is wrong with it.
    pub why: Why,
}

impl fmt::Display for Bad {
    ghost use Rattle.std.specs.Prelude.{Some};
    ghost use Rattle.gmp_trace.specs.Bad.{bad_text};

    ghost output = { λ bad. Some (bad_text bad) };

    fn fmt<W: fmt::Write>(&self, f: &mut fmt::Formatter<W>) -> fmt::Result {
        write!(f, "line {}: {}", self.line, self.why)
    }
}

impl Error for Bad {}
