//! What is read of command lines and scripts, as text.

use crate::words::{put_line, words_of};
use gmp_script::{Script, misfit_of};
use gmp_words::{By, Ended, Said, Task, command_line};
use std::alloc::{AllocError, Global};

/// The options of a command line that its command has: of `explore`, of `run`, of `draw`, of `explain`, or of `step`; of `check`
/// the file.
pub fn settings(alloc: Global, line: &str, out: &mut Vec<u8>) -> Result<(), Ended> {
    let words = words_of(alloc, line)?;
    let said = command_line(alloc, &words)?;
    let s = said.settings;
    let text = match s.task {
        Task::Explore => {
            let w = s.wanted;
            let wanted = (w.no_deadlock, w.no_fault, w.no_leak, w.main_ends);
            format!(in alloc; "{:?}", (s.has_procs, s.procs, s.states, s.trace, wanted))?
        }
        Task::Run => {
            let segments = s.segments.map(|segments| (segments.entries, segments.room));
            format!(in alloc; "{segments:?} {:?} {}", said.folder, s.fair)?
        }
        Task::Draw => {
            let by = match s.by {
                By::Machine => "machine",
                By::Goroutine => "goroutine",
            };
            format!(in alloc; "{by} {} {} {}", s.perfetto, s.from, s.to)?
        }
        Task::Explain => format!(in alloc; "{:?}", (s.json, s.all))?,
        Task::Check => format!(in alloc; "{:?}", said.file)?,
        _ => format!(in alloc;
            "{:?}",
            (
                s.procs, s.machines, s.channels, s.entries, s.word, s.acts, s.fair
            )
        )?,
    };
    Ok(put_line(out, &[text.as_str()])?)
}

/// Whether a command line is refused with this status, and a text is told.
fn is_refused(alloc: Global, line: &str, status: &str) -> Result<bool, AllocError> {
    let words = words_of(alloc, line)?;
    match command_line(alloc, &words) {
        Ok(_) => Ok(false),
        Err(
            Ended {
                status: own,
                said: Said::Usage(text),
                ..
            },
        ) => { Ok(status.parse().ok() == Some(own) && text.ends_with('\n')) }
        Err(_) => Ok(false),
    }
}

/// Those of the command lines that are not refused with this status.
pub fn refused(alloc: Global, status: &str, text: &[u8], out: &mut Vec<u8>) -> Result<(), Ended> {
    for line in str::from_utf8(text).unwrap_or("?").lines() {
        if !is_refused(alloc, line, status)? {
            put_line(out, &[line])?;
        }
    }
    Ok(())
}

/// The capacities, the clock's readings and the bodies of a script.
fn script_text(alloc: Global, script: &Script) -> Result<String, AllocError> {
    let mut commands = Vec::new(alloc);
    for body in &script.bodies {
        commands.push(body.commands())?;
    }
    format!(in alloc;
        "{:?} {:?} {commands:?}",
        script.capacities, script.readings
    )
}

/// What a script says.
pub fn script(alloc: Global, text: &[u8], out: &mut Vec<u8>) -> Result<(), Ended> {
    let mut reader = text;
    let script = gmp_words::script(alloc, &mut reader)?;
    Ok(put_line(out, &[script_text(alloc, &script)?.as_str()])?)
}

/// What is wrong with each of the lines, which are bad ones in a body, or before the first.
pub fn misfits(alloc: Global, place: &str, text: &[u8], out: &mut Vec<u8>) -> Result<(), Ended> {
    for line in text.split(|byte| *byte == b'\n') {
        let misfit = misfit_of(line, place == "body");
        put_line(out, &[format!(in alloc; "{misfit}")?.as_str()])?;
    }
    Ok(())
}
