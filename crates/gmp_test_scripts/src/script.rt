//! Scripts, each with the trace that is to be written of it: run, compared, read again, checked, held
//! against the script, cut, explained, drawn and explored.

ghost use Rattle.std.specs.Prelude.{◌≡◌, All};

use crate::error::ScriptError;
use crate::program::{Drawing, Ran, checked, drawn, explained, explored, stepped};
use crate::reasons::judge_reasons;
use gmp_follow::follows;
use gmp_script::Script;
use gmp_test_cuts::cut_everywhere;
use gmp_trace::{read, write};
use gmp_words::By;
use std::alloc::{AllocError, Global};
use std::io::ErrorKind;
use std::{fs, io};

/// No line of an explanation is wider.
const WIDTH: usize = 120;

/// A trace is cut at so many entries at most.
const MOST_CUTS: usize = 2_000;

/// What is drawn, and how the names of its files end.
static DRAWINGS: [(Drawing, &str); 3] = [
    (Drawing::Picture(By::Machine), ".svg"),
    (Drawing::Picture(By::Goroutine), ".goroutines.svg"),
    (Drawing::Perfetto, ".perfetto.json"),
];

/// The number of the first line in which two texts differ, if they do.
fn differs(got: &[u8], want: &[u8]) -> Option<usize> {
    if got == want {
        return None;
    }
    let mut line = 1usize;
    for (a, b) in got.iter().zip(want.iter()) {
        if *a != *b {
            return Some(line);
        }
        if *a == b'\n' {
            line = line.wrapping_add(1);
        }
    }
    Some(line)
}

/// Where two texts differ, this is said of the first line in which they do.
pub(crate) fn same(alloc: Global, got: &[u8], want: &[u8], said: &str) -> Result<(), ScriptError> {
    match differs(got, want) {
        None => Ok(()),
        Some(line) => Err(ScriptError::line(alloc, line, said)),
    }
}

/// The text of the file beside the script that ends like this.
pub(crate) fn read_beside(rt: &HostRuntime, stem: &str, end: &str) -> io::Result<String> {
    let name = format!(in rt.alloc(); "{stem}{end}")?;
    fs::read_to_string(rt, name.as_str())
}

/// `gmp step` writes this trace of the script of this name.
fn judge_step(rt: &HostRuntime, name: &str, trace: &[u8]) -> Result<(), ScriptError> {
    let script = fs::read_to_string(rt, name)?;
    let ran = stepped(rt.alloc(), script.as_bytes())?;
    same(
        rt.alloc(),
        &ran.written,
        trace,
        "gmp step wrote another line",
    )
}

/// The trace that is read is written as it was.
fn judge_read(alloc: Global, text: &[u8]) -> Result<(), ScriptError> {
    let mut out = Vec::new(alloc);
    if let Ok(trace) = read(alloc, text) {
        let _ = write(alloc, &trace, &mut out);
    }
    same(alloc, &out, text, "another line was read and written")
}

/// `gmp check` passes the trace, with the summary that lies beside the script.
fn judge_check(rt: &HostRuntime, stem: &str, trace: &[u8]) -> Result<(), ScriptError> {
    let ran = checked(rt.alloc(), trace)?;
    judge_status(rt.alloc(), &ran, 0)?;
    is_beside(
        rt,
        stem,
        ".summary",
        &ran.written,
        "gmp check wrote another line",
    )?;
    Ok(())
}

/// The trace's entries are a run of this script.
fn judge_run(alloc: Global, script: &Script, trace: &[u8]) -> Result<(), ScriptError>
    requires { All (λ b. b.next ≡ 0) script.now.bodies.items }
{
    let Ok(trace) = read(alloc, trace) else {
        return Err(ScriptError::line(alloc, 0, "the trace is not read"));
    };
    match follows(
        alloc,
        trace.limits,
        &script.bodies,
        &script.capacities,
        &trace.entries,
    ) {
        Ok(true) => Ok(()),
        _ => Err(ScriptError::line(alloc, 0, "the trace is no run of the script")),
    }
}

/// The trace's entries are a run of the script's bodies.
fn judge_follows(rt: &HostRuntime, name: &str, trace: &[u8]) -> Result<(), ScriptError> {
    let alloc = rt.alloc();
    let text = fs::read_to_string(rt, name)?;
    match gmp_words::script(alloc, &mut text.as_bytes()) {
        Ok(script) => judge_run(alloc, &script, trace),
        Err(_) => Err(ScriptError::line(alloc, 0, "the script is not read")),
    }
}

/// No line of the text has more columns.
fn judge_width(alloc: Global, text: &[u8]) -> Result<(), ScriptError> {
    for (index, line) in text.split(|byte| *byte == b'\n').enumerate() {
        if line.len() > WIDTH {
            return Err(ScriptError::line(alloc, index.wrapping_add(1), "a line too wide"));
        }
    }
    Ok(())
}

/// What is written lies beside the script, if anything does. Does it?
fn is_beside(
    rt: &HostRuntime,
    stem: &str,
    end: &str,
    got: &[u8],
    said: &str,
) -> Result<bool, ScriptError> {
    match read_beside(rt, stem, end) {
        Ok(want) => {
            same(rt.alloc(), got, want.as_bytes(), said)?;
            Ok(true)
        }
        Err(error) if error.kind() == ErrorKind::NotFound => Ok(false),
        Err(error) => Err(ScriptError::Io(error)),
    }
}

/// What is said and written lies beside the script, if anything does. Does it?
fn is_told_beside(
    rt: &HostRuntime,
    stem: &str,
    end: &str,
    ran: &Ran,
    said: &str,
) -> Result<bool, ScriptError> {
    let got = text_of(rt.alloc(), ran)?;
    is_beside(rt, stem, end, got.as_bytes(), said)
}

/// `gmp explain` on a trace tells what lies beside it, if that does: what ends with `.explained` is told without options, with `.all` by
/// `--all`, with `.json` by both. Does it?
fn judge_explained(
    rt: &HostRuntime,
    stem: &str,
    trace: &[u8],
    end: &str,
) -> Result<bool, ScriptError> {
    let (json, all) = (end == ".json", end != ".explained");
    let ran = explained(rt.alloc(), trace, json, all)?;
    if !json {
        judge_width(rt.alloc(), &ran.written)?;
    }
    is_told_beside(rt, stem, end, &ran, "gmp explain wrote another line")
}

/// `gmp draw` draws the trace as what lies beside it with this end, if that does.
fn judge_drawn(
    rt: &HostRuntime,
    stem: &str,
    trace: &[u8],
    drawing: Drawing,
    end: &str,
) -> Result<(), ScriptError> {
    let ran = drawn(rt.alloc(), drawing, trace)?;
    judge_status(rt.alloc(), &ran, 0)?;
    is_beside(rt, stem, end, &ran.written, "gmp draw wrote another line")?;
    Ok(())
}

/// What was said, and behind it what was written.
fn text_of(alloc: Global, ran: &Ran) -> Result<String, AllocError> {
    let written = str::from_utf8(&ran.written).unwrap_or("?");
    format!(in alloc; "{}{written}", ran.said)
}

/// It ended with this status.
fn judge_status(alloc: Global, ran: &Ran, status: u8) -> Result<(), ScriptError> {
    if ran.status == status {
        Ok(())
    } else {
        Err(ScriptError::line(alloc, 0, ran.said.trim_end()))
    }
}

/// `gmp check` passes the trace.
fn judge_right(alloc: Global, trace: &[u8]) -> Result<(), ScriptError> {
    let ran = checked(alloc, trace)?;
    judge_status(alloc, &ran, 0)
}

/// No line of what `gmp explain` tells of the trace is too wide.
fn judge_telling(alloc: Global, trace: &[u8]) -> Result<(), ScriptError> {
    let told = explained(alloc, trace, false, true)?;
    judge_width(alloc, &told.written)
}

/// What is said in place of a trace is what was found.
fn judge_note(alloc: Global, traced: &Ran, found: &Ran) -> Result<(), ScriptError> {
    let told = text_of(alloc, found)?;
    same(
        alloc,
        traced.said.as_bytes(),
        told.as_bytes(),
        "another note",
    )
}

/// The trace of what `gmp explore` finds of a script ends with the same status, and `gmp check` passes it.
fn judge_found(alloc: Global, script: &[u8], found: &Ran) -> Result<(), ScriptError> {
    let traced = explored(alloc, script, true)?;
    judge_status(alloc, &traced, found.status)?;
    if traced.written.is_empty() {
        return judge_note(alloc, &traced, found);
    }
    judge_right(alloc, &traced.written)?;
    judge_telling(alloc, &traced.written)
}

/// `gmp explore` of this script finds what lies beside it, if that does, and has a trace of it.
fn judge_exploring(rt: &HostRuntime, script: &[u8], stem: &str) -> Result<(), ScriptError> {
    let found = explored(rt.alloc(), script, false)?;
    judge_width(rt.alloc(), &found.written)?;
    is_told_beside(
        rt,
        stem,
        ".explored",
        &found,
        "gmp explore wrote another line",
    )?;
    judge_found(rt.alloc(), script, &found)
}

/// `gmp explore` of the script of this name finds what lies beside it, if that does, and has a trace of it.
fn judge_explored(rt: &HostRuntime, name: &str, stem: &str) -> Result<(), ScriptError> {
    let script = fs::read_to_string(rt, name)?;
    judge_exploring(rt, script.as_bytes(), stem)
}

/// `gmp explain` tells what lies beside the trace.
fn judge_reason(rt: &HostRuntime, stem: &str, trace: &[u8]) -> Result<(), ScriptError> {
    judge_explained(rt, stem, trace, ".json")?;
    if judge_explained(rt, stem, trace, ".explained")? {
        Ok(())
    } else {
        Err(ScriptError::line(rt.alloc(), 0, "nothing says why it is wrong"))
    }
}

/// The trace of this name is not right, and `gmp explain` says why: how many calls it has, or what falls short.
pub fn judged_wrong(rt: &HostRuntime, name: &str) -> Result<usize, ScriptError> {
    let stem = name.strip_suffix(".wrong").unwrap_or(name);
    let trace = fs::read_to_string(rt, name)?;
    judge_reason(rt, stem, trace.as_bytes())?;
    Ok(trace.matches(" -> ").count())
}

/// The trace cut at each entry, and its parts joined.
fn judge_cuts(alloc: Global, trace: &[u8]) -> Result<(), ScriptError> {
    match cut_everywhere(alloc, trace, MOST_CUTS, 1) {
        Ok(()) => Ok(()),
        Err(uncut) => {
            let said = format!(in alloc; "{uncut}")?;
            Err(ScriptError::line(alloc, 0, said.as_str()))
        }
    }
}

/// The trace is the script's, and right, also in parts.
fn judge_trace(rt: &HostRuntime, name: &str, stem: &str, trace: &[u8]) -> Result<(), ScriptError> {
    judge_step(rt, name, trace)?;
    judge_read(rt.alloc(), trace)?;
    judge_check(rt, stem, trace)?;
    judge_follows(rt, name, trace)?;
    judge_cuts(rt.alloc(), trace)
}

/// What is told of the trace and its script.
fn judge_tellings(
    rt: &HostRuntime,
    name: &str,
    stem: &str,
    trace: &[u8],
) -> Result<(), ScriptError> {
    judge_explained(rt, stem, trace, ".explained")?;
    judge_explained(rt, stem, trace, ".all")?;
    judge_explained(rt, stem, trace, ".json")?;
    for (drawing, end) in DRAWINGS {
        judge_drawn(rt, stem, trace, drawing, end)?;
    }
    judge_explored(rt, name, stem)?;
    judge_reasons(rt.alloc(), trace)
}

/// Runs the script of this name: how many calls its trace has, or what falls short.
pub fn judged(rt: &HostRuntime, name: &str) -> Result<usize, ScriptError> {
    let stem = name.strip_suffix(".gmp").unwrap_or(name);
    let trace = read_beside(rt, stem, ".trace")?;
    judge_trace(rt, name, stem, trace.as_bytes())?;
    judge_tellings(rt, name, stem, trace.as_bytes())?;
    Ok(trace.matches(" -> ").count())
}
