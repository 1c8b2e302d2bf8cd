//! Runs a command on what its streams have: one of `gmp`, or a function of the libraries under a name of its own. `Ran` is how it ended.

mod cores;
mod lines;
mod replays;
mod texts;
mod thirds;
mod traces;

use crate::streams::{Notes, Pieces, Room};
use crate::words::{first, range, words_of};
use gmp_check_cli::{check, cut};
use gmp_cli::step;
use gmp_join_cli::join;
use gmp_words::{Ended, MAX_TRACE, Said, Settings, Task, command_line, input};
use std::alloc::{AllocError, Global};
use std::io::Write;

/// How a command ended.
#[derive(Drop)]
pub struct Ran {
    pub status: u8,
    /// The text, which is empty where nothing is wrong.
    pub said: String,
    /// What it is of.
    pub end: Said,
    pub written: Vec<u8>,
    /// What it told of its progress.
    pub told: String,
}

/// Runs the command.
pub fn run_on(
    alloc: Global,
    command: &str,
    input: Pieces,
    output: Room,
) -> Result<Ran, AllocError> {
    let bytes = input.text.len();
    let (mut input, mut output) = (input, output);
    let mut notes = Notes::new(alloc);
    let ended = match ended(alloc, command, &mut input, &mut output, &mut notes) {
        Ok(ended) => ended,
        Err(ended) => ended,
    };
    let Room { written, .. } = output;
    let Ended { status, said, .. } = ended;
    Ok(Ran {
        status,
        said: format!(in alloc; "{said}")?,
        end: said,
        written,
        told: notes.text(alloc, bytes)?,
    })
}

/// That is no command, or not its words.
fn unknown(alloc: Global) -> Ended {
    match String::from_str(alloc, "no such command") {
        Ok(text) => Ended::usage(text),
        Err(_) => Ended::out_of_memory(),
    }
}

/// How the command ends.
fn ended(
    alloc: Global,
    command: &str,
    reader: &mut Pieces,
    output: &mut Room,
    notes: &mut Notes,
) -> Result<Ended, Ended> {
    let (word, rest) = first(command);
    if word == "gmp" {
        return by_line(alloc, command, reader, output, notes);
    }
    let most = match range(rest) {
        Some((most, _)) if word == "input" => most,
        _ => MAX_TRACE,
    };
    let text = input(alloc, reader, most)?;
    match word {
        "write" => traces::write_to(alloc, &text, output),
        "summary" => traces::sum_up(alloc, &text, output),
        _ => {
            let mut printed = Vec::new(alloc);
            prints(alloc, word, rest, &text, &mut printed)?;
            match output.write_all(&printed) {
                Ok(()) => Ok(Ended::passed()),
                Err(_) => Ok(Ended::output_failed()),
            }
        }
    }
}

/// The settings of a command of `gmp`.
pub fn settings_of(alloc: Global, command: &str) -> Result<Settings, Ended> {
    let words = words_of(alloc, command)?;
    Ok(command_line(alloc, &words)?.settings)
}

/// How a command of `gmp` ends.
fn by_line(
    alloc: Global,
    command: &str,
    reader: &mut Pieces,
    output: &mut Room,
    notes: &mut Notes,
) -> Result<Ended, Ended> {
    let settings = settings_of(alloc, command)?;
    match settings.task {
        Task::Step => Ok(step(alloc, &settings, reader, output)),
        Task::Check => Ok(check(alloc, reader, output, notes)),
        Task::Join => Ok(join(alloc, reader, output, notes)),
        Task::Cut => Ok(cut(alloc, settings.at, reader, output)),
        _ => Err(unknown(alloc)),
    }
}

/// What the command of this word prints of a text.
fn prints(
    alloc: Global,
    word: &str,
    rest: &str,
    text: &[u8],
    out: &mut Vec<u8>,
) -> Result<(), Ended> {
    match word {
        "input" => Ok(out.extend_from_slice(text)?),
        "settings" => lines::settings(alloc, rest, out),
        "refused" => lines::refused(alloc, rest, text, out),
        "script" => lines::script(alloc, text, out),
        "misfits" => lines::misfits(alloc, rest, text, out),
        "joined" => traces::joined(alloc, text, out),
        "thirds" => thirds::thirds(alloc, text, out),
        "replay" => replays::replay(alloc, text, out),
        "acts" => cores::acts(alloc, rest, text, out),
        "hands" => cores::hands(alloc, rest, text, out),
        "full" => cores::full(alloc, rest, text, out),
        "audits" => texts::audits(alloc, text, out),
        "opens" => texts::opens(alloc, out),
        "texts" => texts::texts(alloc, out),
        _ => Err(unknown(alloc)),
    }
}
