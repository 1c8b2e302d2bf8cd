//! The program `gmp`: runs scripts of goroutines, in one thread (`step`) or in several (`run`), and prints what was done; and checks what
//! was printed (`check`), in parts too (`join`), cuts it (`cut`), says what it tells (`explain`) and draws it (`draw`). Of a script it also
//! says what can go wrong in any run (`explore`).
//!
//! It hands the commands what the host has: standard input or a file, standard output, the memory, the threads and the clock. What each command promises
//! stands in its crate (gmp_cli, gmp_run_cli, gmp_check_cli, gmp_join_cli, gmp_explain, gmp_draw, gmp_perfetto, gmp_explore_cli), what the command line
//! may say in gmp_words.
//!
//! Each way out is an `Ended`: a status, and a text that goes to standard error, or to standard output where the status is 0. Nothing is
//! refused here that the commands don't refuse. Where even the last words can't be written the status stays, so that a script that calls
//! the program can rely on it. A person at a terminal is told a `Tip` behind that; and not that a pipe was closed.
#![tactic(auto)]

mod folder;
mod line;
mod output;
mod source;

use crate::folder::Folder;
use crate::line::Line;
use crate::output::Output;
use crate::source::{Origin, Source};
use gmp_check_cli::{check, cut};
use gmp_cli::step;
use gmp_draw::draw;
use gmp_explain::explain;
use gmp_explore_cli::explore;
use gmp_join_cli::join;
use gmp_perfetto::perfetto;
use gmp_run::Since;
use gmp_run_cli::{run, run_in_segments};
use gmp_words::{CommandLine, Ended, Said, Settings, Task, Tip, arguments, command_line, tip_of};
use std::alloc::Global;
use std::fs;
use std::io::{self, ErrorKind, Input, IsTerminal, Read, Write};
use std::process::ExitCode;
use std::rt::Files;

/// Says how it ended, on standard error, or at status 0 on standard output, and on a terminal the tip behind that; and gives the exit code.
fn finish(rt: &HostRuntime, ended: &Ended, tip: Tip) -> ExitCode {
    let said = &ended.said;
    let told = if ended.status == 0 {
        print!(rt; "{said}")
    } else {
        eprint!(rt; "{said}")
    };
    // Where the last words cannot be written, the status still says how it ended.
    let _ = told;
    if rt.stderr().is_terminal() {
        let _ = eprint!(rt; "{tip}");
    }
    ExitCode::from(ended.status)
}

/// Says how the command ended, but on a terminal not that nobody reads its output any more: a pipe that was closed.
fn told<S, F, W>(
    rt: &HostRuntime,
    settings: &Settings,
    ended: &Ended,
    source: &Source<S, F>,
    output: &Output<W>,
) -> ExitCode {
    let tip = match (&ended.said, source.failed, output.failed) {
        (Said::OutputFailed, _, Some(ErrorKind::BrokenPipe)) if rt.stderr().is_terminal() => {
            return ExitCode::from(ended.status);
        }
        (Said::OutputFailed, _, Some(why)) => Tip::Cause(why),
        (Said::InputUnreadable, Some(why), _) => Tip::Cause(why),
        (said, ..) => tip_of(rt.alloc(), settings, said, source.text()),
    };
    finish(rt, ended, tip)
}

/// Explains the trace: says how that ended, and writes the facts behind it.
fn tell<S: Read, F: Read, W: Write>(
    rt: &HostRuntime,
    settings: &Settings,
    source: &mut Source<S, F>,
    output: &mut Output<W>,
    line: &mut Line<'_, HostRuntime>,
) -> ExitCode {
    let explained = explain(rt.alloc(), settings.json, settings.all, source, line);
    let code = told(rt, settings, &explained.ended, source, output);
    match output.write_all(explained.text().as_bytes()) {
        Ok(()) => code,
        Err(_) => told(rt, settings, &Ended::output_failed(), source, output),
    }
}

/// Draws the trace.
fn picture<R: Read, W: Write>(
    rt: &HostRuntime,
    settings: &Settings,
    reader: &mut R,
    writer: &mut W,
    line: &mut Line<'_, HostRuntime>,
) -> Ended {
    let (alloc, from, to) = (rt.alloc(), settings.from, settings.to);
    if settings.perfetto {
        return perfetto(alloc, from, to, reader, writer, line);
    }
    draw(alloc, settings.by, from, to, reader, writer, line)
}

/// Explores the script, and notes on standard error what was found where there is no trace of it.
fn look<R: Read, W: Write>(
    rt: &HostRuntime,
    settings: &Settings,
    reader: &mut R,
    writer: &mut W,
) -> Ended {
    let found = explore(rt.alloc(), settings, reader, writer);
    // Where the note cannot be written, the status still says what was found.
    let _ = eprint!(rt; "{}", found.note);
    found.ended
}

/// How the program ends where the file of this name can't be opened, and what a person is told besides.
fn unopened(alloc: Global, name: &str, why: ErrorKind) -> (Ended, Tip) {
    match String::from_str(alloc, name) {
        Ok(name) => (Ended::unopened(name), Tip::Cause(why)),
        Err(_) => (Ended::out_of_memory(), Tip::Nothing),
    }
}

/// Where the script or the trace is read from: the file of this name, or standard input where there is none, or it is `-`. What is read is kept
/// for a person alone.
fn opened<R: Input + Files + AllocGlobal>(
    rt: &R,
    file: Option<&str>,
    is_terminal: bool,
) -> Result<Source<R::Reader, R::File>, (Ended, Tip)> {
    let origin = match file {
        Some(name) if name != "-" => match fs::open(rt, name) {
            Ok(file) => Origin::File(file),
            Err(error) => return Err(unopened(rt.alloc(), name, error.kind())),
        },
        _ => Origin::Standard(rt.reader()),
    };
    let kept = if is_terminal {
        Some(Vec::new(rt.alloc()))
    } else {
        None
    };
    Ok(Source::of(origin, kept))
}

/// Reads the command line, does what it says, and ends with what came of it.
fn main(rt: HostRuntime) -> ExitCode {
    let (alloc, is_terminal) = (rt.alloc(), rt.stderr().is_terminal());
    let words = match arguments(&rt) {
        Ok(words) => words,
        Err(ended) => return finish(&rt, &ended, Tip::Nothing),
    };
    let said = match command_line(alloc, &words) {
        Ok(said) => said,
        Err(ended) => return finish(&rt, &ended, Tip::Nothing),
    };
    let mut source = match opened(&rt, said.file, is_terminal) {
        Ok(source) => source,
        Err((ended, tip)) => return finish(&rt, &ended, tip),
    };
    let mut output = Output::of(io::writer(&rt));
    let (settings, reader, writer) = (&said.settings, &mut source, &mut output);
    let line = &mut Line::on(&rt, is_terminal);
    let ended = match settings.task {
        Task::Step => step(alloc, settings, reader, writer),
        // Here, since main alone may hand the host's folder to threads.
        Task::Run => match (settings.segments, said.folder) {
            (None, _) => run(&rt, alloc, settings, reader, writer, &Since::now(&rt)),
            (Some(segments), Some(name)) => {
                let (folder, clock) = (Folder::new(&rt, alloc, name), &Since::now(&rt));
                let ran = run_in_segments(
                    &rt, alloc, settings, segments, folder, reader, writer, clock,
                );
                output.failed = output
                    .failed
                    .or(ran.outlet.and_then(|folder| folder.failed));
                ran.ended
            }
            // There is no such line: one has segments only where it names a folder.
            (Some(_), None) => Ended::output_failed(),
        },
        Task::Check => check(alloc, reader, writer, line),
        Task::Join => join(alloc, reader, writer, line),
        Task::Cut => cut(alloc, settings.at, reader, writer),
        Task::Draw => picture(&rt, settings, reader, writer, line),
        Task::Explain => return tell(&rt, settings, reader, writer, line),
        Task::Explore => look(&rt, settings, reader, writer),
    };
    told(&rt, settings, &ended, &source, &output)
}
