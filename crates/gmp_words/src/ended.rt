//! How the program ends. One function for each end, so that a status is never paired with another's text.

ghost use Rattle.std.specs.Prelude.{◌≡◌, true};
ghost use Rattle.gmp_words.specs.Runs.{status_of, status_of_verdict};
ghost use Rattle.gmp_words.specs.Said.{goes_with};

use crate::said::{Said, Untraced};
use gmp_base::MNo;
use gmp_trace::{Bad, End, Why, WriteError};
use std::alloc::AllocError;

/// The exit status, and what is said: a status goes only with what it stands for.
#[derive(Drop)]
pub struct Ended {
    /// What the process ends with.
    pub status: u8,
    pub said: Said,
    pub ghost paired: { goes_with said status ≡ true },
}

/// The status of a run that ended so: 1 is for bad input, so outcomes go from 2 on.
fn status_of(end: End) -> u8
    ensures { result ≡ status_of end }
{
    match end {
        End::MainEnded => 0,
        End::AllAsleep => 2,
        End::BookFull => 3,
        End::Running => 4,
    }
}

/// What was found of all runs of a script.
#[derive(Clone, Copy)]
pub enum Verdict {
    /// No run has what is not wanted.
    Safe,
    /// A run ends since all goroutines are asleep.
    Deadlock,
    /// A run tells a goroutine a fault.
    Fault,
    /// A run leaves a goroutine or a value behind.
    Leak,
    /// A run comes to where main can't end any more.
    Stranded,
    /// None of these: there are more states than may be looked at.
    Unknown,
}

/// The status for what was found.
fn status_of_verdict(verdict: Verdict) -> u8
    ensures { result ≡ status_of_verdict verdict }
{
    match verdict {
        Verdict::Safe => 0,
        Verdict::Deadlock => 2,
        Verdict::Fault => 7,
        Verdict::Leak => 8,
        Verdict::Unknown => 9,
        Verdict::Stranded => 10,
    }
}

impl Ended {
    /// The trace was written, and the run ended so.
    pub fn written(end: End) -> Self
        ensures status { result.status ≡ status_of end }
        ensures said { result.said ≡ Said.Nothing }
    {
        let status = status_of(end);
        Ended {
            status,
            said: Said::Nothing,
        }
    }

    /// The trace that was read is right, and its summary was written.
    pub fn passed() -> Self
        ensures status { result.status ≡ 0 }
        ensures said { result.said ≡ Said.Nothing }
    {
        Ended {
            status: 0,
            said: Said::Nothing,
        }
    }

    /// What was found of a script was written.
    pub fn found(verdict: Verdict) -> Self
        ensures status { result.status ≡ status_of_verdict verdict }
        ensures said { result.said ≡ Said.Nothing }
    {
        let status = status_of_verdict(verdict);
        Ended {
            status,
            said: Said::Nothing,
        }
    }

    /// There is no trace of what was found of a script.
    pub fn no_trace(why: Untraced) -> Self
        ensures status { result.status ≡ 6 }
        ensures said { result.said ≡ Said.NoTrace why }
    {
        Ended {
            status: 6,
            said: Said::NoTrace(why),
        }
    }

    /// The script's line, numbered from 1, is bad.
    pub fn bad_line(line: u64) -> Self
        ensures status { result.status ≡ 1 }
        ensures said { result.said ≡ Said.BadLine line }
    {
        Ended {
            status: 1,
            said: Said::BadLine(line),
        }
    }

    /// The first bad line of the trace.
    pub fn bad_trace(bad: Bad) -> Self
        ensures status { result.status ≡ 1 }
        ensures said { result.said ≡ Said.BadTrace bad }
    {
        Ended {
            status: 1,
            said: Said::BadTrace(bad),
        }
    }

    /// The first bad line of this part of a run, counted from the part's own first line.
    pub fn bad_part(part: u64, bad: Bad) -> Self
        ensures status { result.status ≡ 1 }
        ensures said { result.said ≡ Said.BadPart part bad }
    {
        Ended {
            status: 1,
            said: Said::BadPart(part, bad),
        }
    }

    /// This part of a run doesn't go on where the one before stops.
    pub fn apart(part: u64) -> Self
        ensures status { result.status ≡ 1 }
        ensures said { result.said ≡ Said.Apart part }
    {
        Ended {
            status: 1,
            said: Said::Apart(part),
        }
    }

    /// The input is longer than it may be.
    pub fn too_long() -> Self
        ensures status { result.status ≡ 1 }
        ensures said { result.said ≡ Said.InputTooLong }
    {
        Ended {
            status: 1,
            said: Said::InputTooLong,
        }
    }

    /// The file of this name, which the command line names, can't be opened.
    pub fn unopened(name: String) -> Self
        ensures status { result.status ≡ 1 }
        ensures said { result.said ≡ Said.Unopened name }
    {
        Ended {
            status: 1,
            said: Said::Unopened(name),
        }
    }

    /// A read failed.
    pub fn unreadable() -> Self
        ensures status { result.status ≡ 1 }
        ensures said { result.said ≡ Said.InputUnreadable }
    {
        Ended {
            status: 1,
            said: Said::InputUnreadable,
        }
    }

    /// A write failed.
    pub fn output_failed() -> Self
        ensures status { result.status ≡ 1 }
        ensures said { result.said ≡ Said.OutputFailed }
    {
        Ended {
            status: 1,
            said: Said::OutputFailed,
        }
    }

    /// No run can be opened with these limits.
    pub fn bad_limits() -> Self
        ensures status { result.status ≡ 64 }
        ensures said { result.said ≡ Said.BadLimits }
    {
        Ended {
            status: 64,
            said: Said::BadLimits,
        }
    }

    /// Memory was refused.
    pub fn out_of_memory() -> Self
        ensures status { result.status ≡ 5 }
        ensures said { result.said ≡ Said.OutOfMemory }
    {
        Ended {
            status: 5,
            said: Said::OutOfMemory,
        }
    }

    /// The machine's count of its calls is not the number of its entries.
    pub fn mismatch(m: MNo) -> Self
        ensures status { result.status ≡ 6 }
        ensures said { result.said ≡ Said.Mismatch m }
    {
        Ended {
            status: 6,
            said: Said::Mismatch(m),
        }
    }

    /// The parts that were written are no run to its end, with as many entries as the machines made calls.
    pub fn no_run() -> Self
        ensures status { result.status ≡ 6 }
        ensures said { result.said ≡ Said.NoRun }
    {
        Ended {
            status: 6,
            said: Said::NoRun,
        }
    }

    /// The command line was refused, with this text.
    pub fn usage(text: String) -> Self
        ensures status { result.status ≡ 64 }
        ensures said { result.said ≡ Said.Usage text }
    {
        Ended {
            status: 64,
            said: Said::Usage(text),
        }
    }

    /// Help was asked for, and this is its text.
    pub fn help(text: String) -> Self
        ensures status { result.status ≡ 0 }
        ensures said { result.said ≡ Said.Usage text }
    {
        Ended {
            status: 0,
            said: Said::Usage(text),
        }
    }
}

impl From<AllocError> for Ended {
    ghost use Rattle.std.specs.Prelude.{◌≡◌};
    ghost use Rattle.gmp_words.specs.declared.said.Said.TheVariants.{OutOfMemory};

    ghost from_gives = { λ _ e. (e.status ≡ 5) × (e.said ≡ OutOfMemory) };

    fn from(_error: AllocError) -> Self {
        Ended::out_of_memory()
    }
}

impl From<Bad> for Ended {
    ghost use Rattle.std.specs.Prelude.{◌≡◌};
    ghost use Rattle.gmp_words.specs.Said.{said_for};

    ghost from_gives = { λ bad e. e.said ≡ said_for bad.why bad };

    fn from(bad: Bad) -> Self {
        match bad.why {
            Why::OutOfMemory => Ended::out_of_memory(),
            _ => Ended::bad_trace(bad),
        }
    }
}

impl From<WriteError> for Ended {
    ghost use Rattle.std.specs.Prelude.{◌≡◌};
    ghost use Rattle.gmp_words.specs.Said.{said_of_write};

    ghost from_gives = { λ error e. e.said ≡ said_of_write error };

    fn from(error: WriteError) -> Self {
        match error {
            WriteError::Device => Ended::output_failed(),
            WriteError::OutOfMemory => Ended::out_of_memory(),
        }
    }
}
