//! Plays files of lines on a book, and has the plain scheduler judge traces: docs/HACKING.md says what they say. So a test of a whole run is
//! data, which a person can work out, and no Rust, whose proof would cost far more.
//!
//! Each argument names a file: one that ends in `ends` has what else the lines of an entry may end with, in the traces behind it; one that
//! ends in `.run` is played, and any other is a trace, which is judged. For each of these it prints that all went well, or which line fell
//! short and how, and the gate compares that with `stdout`.
#![tactic(auto)]

mod error;
mod hand;
mod judging;
mod opening;
mod player;
mod told;
mod words;

use crate::judging::judged;
use crate::player::played;
use std::process::ExitCode;
use std::{env, fs, io};

/// Prints that all went well in this file, or which line fell short and how. Did all go well?
fn is_right(rt: &HostRuntime, ends: &str, name: &str) -> io::Result<bool> {
    let text = fs::read_to_string(rt, name)?;
    let said = if name.ends_with(".run") {
        played(rt.alloc(), text.as_str())
    } else {
        judged(rt.alloc(), ends, text.as_str())
    };
    match &said {
        Ok(counts) => println!(rt; "{name} ok, {counts}")?,
        Err((line, error)) => println!(rt; "{name}:{line}: {error}")?,
    }
    Ok(said.is_ok())
}

fn main(rt: HostRuntime) -> io::Result<ExitCode> {
    let alloc = rt.alloc();
    let names: Vec<String> = env::args(&rt)?.collect(alloc)?;
    let mut ends = String::new(alloc);
    let mut code = ExitCode::SUCCESS;
    for name in names.iter().skip(1) {
        if name.ends_with("ends") {
            ends = fs::read_to_string(&rt, name.as_str())?;
        } else if !is_right(&rt, ends.as_str(), name.as_str())? {
            code = ExitCode::FAILURE;
        }
    }
    Ok(code)
}
