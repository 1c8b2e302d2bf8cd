//! The program, run on a text by its functions, and no process: `Ran` is what it wrote and said.

use gmp_check_cli::check;
use gmp_cli::step;
use gmp_draw::draw;
use gmp_explain::explain;
use gmp_explore_cli::explore;
use gmp_perfetto::perfetto;
use gmp_words::{By, Said, Settings, command_line};
use std::alloc::{AllocError, Global};

/// What it wrote and what it said.
#[derive(Drop)]
pub struct Ran {
    pub written: Vec<u8>,
    /// The text, which is empty where nothing is wrong.
    pub said: String,
    pub status: u8,
}

/// The first comment of the script's head that begins with these words, or else the words.
fn command_of<'a>(script: &'a [u8], words: &'static str) -> &'a str {
    for line in script.split(|byte| *byte == b'\n') {
        let line = str::from_utf8(line).unwrap_or("");
        match line.strip_prefix("# ") {
            Some(command) if command.starts_with(words) => return command,
            Some(_) => {}
            None => break,
        }
    }
    words
}

/// The words of a command line, parted by single spaces.
fn words_of(alloc: Global, command: &str) -> Result<Vec<String>, AllocError> {
    let mut words = Vec::new(alloc);
    for word in command.split(' ') {
        words.push(String::from_str(alloc, word)?)?;
    }
    Ok(words)
}

/// `gmp step` on a script. Its options are those of a comment of its head that begins with `gmp step`, if there is one.
pub fn stepped(alloc: Global, script: &[u8]) -> Result<Ran, AllocError> {
    let words = words_of(alloc, command_of(script, "gmp step"))?;
    step_by(alloc, &words, script)
}

/// The same with this limit of entries.
pub fn stepped_within(alloc: Global, script: &[u8], entries: &str) -> Result<Ran, AllocError> {
    let command = format!(in alloc; "{} --entries {entries}", command_of(script, "gmp step"))?;
    let words = words_of(alloc, command.as_str())?;
    step_by(alloc, &words, script)
}

/// What the words of a command line say, on a script.
fn step_by(alloc: Global, words: &[String], script: &[u8]) -> Result<Ran, AllocError> {
    let mut written = Vec::new(alloc);
    let ended = match command_line(alloc, words) {
        Ok(line) => step(alloc, &line.settings, &mut &script[..], &mut written),
        Err(ended) => ended,
    };
    done(alloc, written, ended.status, &ended.said)
}

/// `gmp check` on a trace.
pub fn checked(alloc: Global, trace: &[u8]) -> Result<Ran, AllocError> {
    let mut written = Vec::new(alloc);
    let ended = check(alloc, &mut &trace[..], &mut written, &mut ());
    done(alloc, written, ended.status, &ended.said)
}

/// `gmp explain` on a trace, or with `--json` or `--all`.
pub fn explained(alloc: Global, trace: &[u8], json: bool, all: bool) -> Result<Ran, AllocError> {
    let explained = explain(alloc, json, all, &mut &trace[..], &mut ());
    let written = explained.text().as_bytes().to_vec(alloc)?;
    done(
        alloc,
        written,
        explained.ended.status,
        &explained.ended.said,
    )
}

/// What `gmp draw` makes of a trace: a picture with these lanes, or by `--perfetto` no picture.
#[derive(Clone, Copy)]
pub enum Drawing {
    Picture(By),
    Perfetto,
}

/// `gmp draw` on a trace.
pub fn drawn(alloc: Global, drawing: Drawing, trace: &[u8]) -> Result<Ran, AllocError> {
    let (mut written, reader) = (Vec::new(alloc), &mut &trace[..]);
    let ended = match drawing {
        Drawing::Picture(by) => draw(alloc, by, 0, u64::MAX, reader, &mut written, &mut ()),
        Drawing::Perfetto => perfetto(alloc, 0, u64::MAX, reader, &mut written, &mut ()),
    };
    done(alloc, written, ended.status, &ended.said)
}

/// `gmp explore` on a script, or with `--trace`. Its options are those of a comment of its head that begins with `gmp explore`, if there is
/// one. What is noted counts as said.
pub fn explored(alloc: Global, script: &[u8], trace: bool) -> Result<Ran, AllocError> {
    let mut words = words_of(alloc, command_of(script, "gmp explore"))?;
    if trace {
        words.push(String::from_str(alloc, "--trace")?)?;
    }
    explore_by(alloc, &words, script)
}

/// What the words of a command line say, on a script.
fn explore_by(alloc: Global, words: &[String], script: &[u8]) -> Result<Ran, AllocError> {
    match command_line(alloc, words) {
        Ok(line) => explore_within(alloc, &line.settings, script),
        Err(ended) => done(alloc, Vec::new(alloc), ended.status, &ended.said),
    }
}

/// `gmp explore` on a script by these settings.
fn explore_within(alloc: Global, settings: &Settings, script: &[u8]) -> Result<Ran, AllocError> {
    let mut written = Vec::new(alloc);
    let found = explore(alloc, settings, &mut &script[..], &mut written);
    let said = format!(in alloc; "{}{}", found.ended.said, found.note)?;
    Ok(Ran {
        written,
        said,
        status: found.ended.status,
    })
}

/// What was written, with the text of what was said.
fn done(alloc: Global, written: Vec<u8>, status: u8, said: &Said) -> Result<Ran, AllocError> {
    let said = format!(in alloc; "{said}")?;
    Ok(Ran {
        written,
        said,
        status,
    })
}
