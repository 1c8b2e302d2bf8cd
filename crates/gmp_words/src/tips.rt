//! What a person at a terminal is told besides: behind a refusal what was expected, behind a run what its script names that isn't there. Status
//! and text of an end are there before, and stay as they are: a program reads those, wherever they go.

use crate::options::{Settings, Task};
use crate::reading::{MAX_SCRIPT, MAX_TRACE};
use crate::said::Said;
use gmp_script::{Misfit, Script, Stray, first_stray, misfit_of};
use gmp_seq::{MOST_BODIES, MOST_CAPACITY};
use gmp_trace::Why;
use std::alloc::Global;
use std::fmt;
use std::io::ErrorKind;

/// The first limit that a script or the command line is out of.
#[derive(Clone, Copy)]
pub enum Limit {
    NoBody,
    Bodies,
    Capacity,
    Channels,
    Machines,
    /// A trace has no such part.
    Part,
}

impl Limit {
    /// What is within it.
    fn words(self) -> &'static str {
        match self {
            Limit::NoBody => "a script has a line body for main",
            Limit::Bodies => "there are at most 4096 lines body",
            Limit::Capacity => "before the first body: chan CAP, where CAP is at most 4096",
            Limit::Channels =>
                "there are at most as many lines chan as --channels says, by default 16",
            Limit::Machines =>
                "--machines is at least --procs, which is 1 by default, as --machines is",
            Limit::Part =>
                "--at is at most the number of entries, and below it where the run has ended",
        }
    }
}

/// What a person at a terminal is told besides. Its text, by `Display`, ends with a line feed; `Nothing` has none.
#[derive(Clone, Copy)]
pub enum Tip {
    Nothing,
    /// What is wrong with the script's bad line.
    Line(Misfit),
    /// Which limit.
    Limit(Limit),
    /// What a trace has to be there.
    Trace(Why),
    /// What is read as a trace is a script.
    Script,
    /// What a part of a run has to be.
    Apart,
    /// The most bytes.
    AtMost(usize),
    /// Why the device failed.
    Cause(ErrorKind),
    /// What a line of a script names that isn't there.
    Stray(u64, Stray),
}

/// What a trace has to be where this is wrong with it.
fn words_of(why: Why) -> &'static str {
    match why {
        Why::Header => "a trace begins with a line gmp-trace 1, gmp-trace 2 or gmp-trace 4",
        Why::Limits =>
            "limits procs NP machines NM bodies NG channels NC entries NE[ room NR], each within its range",
        Why::Caps =>
            "caps and the capacity of each first channel, 4096 at most, no more than the limits allow",
        Why::Start =>
            "the lines of a state up to begin, and all of them together one that a run can have",
        Why::Grammar =>
            "N M.K CALL -> REPLY, or an end line, with one space between words and a line feed at its end",
        Why::Number =>
            "entries are numbered one by one, those of each machine too, and M is below the number of machines",
        Why::End => "end main ended, end all asleep, end book full or end running",
        Why::Extra => "nothing stands behind the end line",
        Why::Step => "the rules don't allow this entry here: gmp explain says what they allow",
        Why::Outcome => "the run ended otherwise: gmp explain says how",
        Why::OutOfMemory => "there was too little memory",
    }
}

impl fmt::Display for Tip {
    fn fmt<W: fmt::Write>(&self, f: &mut fmt::Formatter<W>) -> fmt::Result {
        match self {
            Tip::Nothing => Ok(()),
            Tip::Line(misfit) => writeln!(f, "  {misfit}"),
            Tip::Limit(limit) => writeln!(f, "  {}", limit.words()),
            Tip::Trace(why) => writeln!(f, "  {}", words_of(*why)),
            Tip::Script => f.write_str("  this is a script: gmp step makes a trace of it\n"),
            Tip::Apart => f.write_str(
                "  a part begins at the state where the one before stops, as gmp run --segments writes them\n",
            ),
            Tip::AtMost(bytes) => writeln!(f, "  at most {bytes} bytes"),
            Tip::Cause(kind) => writeln!(f, "  {kind}"),
            Tip::Stray(line, stray) => writeln!(f, "gmp: warning: line {line}: {stray}"),
        }
    }
}

/// The script that a text is, or what is wrong with its first bad line.
fn read(alloc: Global, text: &[u8]) -> Result<Script, Tip> {
    let mut script = Script::new(alloc);
    for line in text.split(|byte| *byte == b'\n') {
        match script.add(alloc, line) {
            Ok(true) => {}
            Ok(false) => return Err(Tip::Line(misfit_of(line, !script.bodies.is_empty()))),
            Err(_) => return Err(Tip::Nothing),
        }
    }
    Ok(script)
}

/// The first limit that the script is out of, by these settings.
fn limit_of(settings: &Settings, script: &Script) -> Limit {
    if script.bodies.is_empty() {
        Limit::NoBody
    } else if script.bodies.len() > MOST_BODIES {
        Limit::Bodies
    } else if script
        .capacities
        .iter()
        .any(|capacity| *capacity > MOST_CAPACITY)
    {
        Limit::Capacity
    } else if script.capacities.len() > usize::from(settings.channels) {
        Limit::Channels
    } else {
        Limit::Machines
    }
}

/// What the script of a run names that isn't there.
fn stray_of(alloc: Global, settings: &Settings, text: &[u8]) -> Tip {
    let Ok(script) = read(alloc, text) else {
        return Tip::Nothing;
    };
    match first_stray(alloc, text, &script, settings.channels) {
        Ok(Some((line, stray))) => Tip::Stray(line, stray),
        _ => Tip::Nothing,
    }
}

/// What a person at a terminal is told besides where a command ends so. The text is its input.
///
/// Where memory is short that is nothing.
pub fn tip_of(alloc: Global, settings: &Settings, said: &Said, text: &[u8]) -> Tip {
    let task = settings.task;
    match said {
        Said::Nothing if matches!(task, Task::Step | Task::Run) => stray_of(alloc, settings, text),
        Said::BadLine(_) => read(alloc, text).err().unwrap_or(Tip::Nothing),
        Said::BadLimits if matches!(task, Task::Cut) => Tip::Limit(Limit::Part),
        Said::BadLimits => match read(alloc, text) {
            Ok(script) => Tip::Limit(limit_of(settings, &script)),
            Err(tip) => tip,
        },
        Said::BadTrace(bad) | Said::BadPart(_, bad) => match (bad.why, read(alloc, text)) {
            (Why::Header, Ok(script)) if !script.bodies.is_empty() => Tip::Script,
            (why, _) => Tip::Trace(why),
        },
        Said::Apart(_) => Tip::Apart,
        Said::InputTooLong if matches!(task, Task::Step | Task::Run | Task::Explore) => Tip::AtMost(
            MAX_SCRIPT,
        ),
        Said::InputTooLong => Tip::AtMost(MAX_TRACE),
        _ => Tip::Nothing,
    }
}
