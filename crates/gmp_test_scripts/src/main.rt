//! Judges `gmp step`, `check`, `explain`, `draw` and `explore` by files of lines, which lie in `data/`: docs/HACKING.md. A file is a script with its worked trace
//! (and what `gmp explain` tells of it, its picture, and what `gmp explore` finds), a trace that is not right, a table of changes of a trace or script, or a table of limits of entries.
//!
//! For each file that an argument names it prints that all went well, or the first line that falls short; the gate compares that with
//! `stdout`. Traces are compared byte for byte: that a trace is a legal run is proved, which legal run was meant is not.
#![tactic(auto)]

mod changes;
mod edit;
mod error;
mod program;
mod reasons;
mod script;
mod sweep;

use crate::error::ScriptError;
use std::process::ExitCode;
use std::{env, io};

/// Prints that all went well in this file, or the first line that falls short. Did all go well?
fn is_right(rt: &HostRuntime, name: &str) -> io::Result<bool> {
    let (judged, of) = if name.ends_with(".changes") {
        (changes::judged(rt, name), "texts")
    } else if name.ends_with(".sweep") {
        (sweep::judged(rt, name), "limits")
    } else if name.ends_with(".wrong") {
        (script::judged_wrong(rt, name), "calls")
    } else {
        (script::judged(rt, name), "calls")
    };
    match judged {
        Ok(count) => {
            println!(rt; "{name} ok, {count} {of}")?;
            Ok(true)
        }
        Err(ScriptError::Line(line, said)) => {
            println!(rt; "{name}:{line}: {said}")?;
            Ok(false)
        }
        Err(ScriptError::Io(error)) => Err(error),
    }
}

fn main(rt: HostRuntime) -> io::Result<ExitCode> {
    let mut names = env::args(&rt)?;
    let _program = names.next();
    let mut code = ExitCode::SUCCESS;
    for name in names {
        if !is_right(&rt, name.as_str())? {
            code = ExitCode::FAILURE;
        }
    }
    Ok(code)
}
