//! Plays files of blocks of lines: a command of `gmp` or of this crate, its input, and how it has to end. docs/HACKING.md says what the lines
//! say. So a test of a command is data, and no Rust, whose proof would cost far more.
//!
//! Each argument names a file. Of each it prints that all went well, or which line fell short and how, and the gate compares that with
//! `stdout`. Commands run by their functions, and no process: so their readers and writers can be made to fail.
#![tactic(auto)]

mod block;
mod error;
mod judging;
mod playing;
mod running;
mod streams;
mod words;

use crate::playing::played;
use std::process::ExitCode;
use std::{env, fs, io};

/// Prints that all went well in this file, or which line fell short and how. Did all go well?
fn is_right(rt: &HostRuntime, name: &str) -> io::Result<bool> {
    let text = fs::read_to_string(rt, name)?;
    let said = played(rt, text.as_str());
    match &said {
        Ok(count) => println!(rt; "{name} ok, {count} blocks")?,
        Err((line, error)) => println!(rt; "{name}:{line}: {error}")?,
    }
    Ok(said.is_ok())
}

fn main(rt: HostRuntime) -> io::Result<ExitCode> {
    let mut names = env::args(&rt)?;
    let _program = names.next();
    let mut code = ExitCode::SUCCESS;
    for name in names {
        if !is_right(&rt, name.as_str())? {
            code = ExitCode::FAILURE;
        }
    }
    Ok(code)
}
