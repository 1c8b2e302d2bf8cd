//! An example: a host with a book of its own, whose history goes out in pieces. A goroutine yields on and on, and each time that 10,000
//! entries were made they are written to a file, `piece-0.trace` and so on in the folder where it runs, as a trace that begins at the state
//! where the one before stopped; so the book never holds more than one piece.
//!
//! It shows calls of the book by their own types, values that must be spent on every path, and segments. `rt run` proves, builds and runs
//! it. Of each file it prints the name, and what `gmp check` says of it: its summary.
#![tactic(auto)]

mod error;
mod host;

use crate::error::PieceError;
use crate::host::{hand_out, hold, opened, yield_once};
use anyhow::Result;
use gmp_base::{Pass, Refusal};
use gmp_book::Book;
use gmp_check_cli::check;
use std::alloc::Global;
use std::fs;
use std::rt::Files;

/// So many entries go out at a time.
const EACH: usize = 10_000;

/// There are fewer pieces: the limit of entries ends the run before.
const PIECES: usize = 10;

/// The goroutine takes its turns, until it has so many entries or the run is over.
fn fill(book: &mut Book<(), ()>, pass: &mut Pass) -> Result<(), PieceError> {
    for _ in 0..EACH {
        if EACH <= book.history().len() {
            break;
        }
        match yield_once(book, pass) {
            Ok(()) => {}
            Err(Refusal::Over) => break,
            Err(why) => return Err(why.into()),
        }
    }
    Ok(())
}

/// What `gmp check` says of the trace in this file.
fn summary(rt: &impl Files, alloc: Global, path: &str) -> Result<Vec<u8>, PieceError> {
    let mut file = fs::open(rt, path)?;
    let mut summary = Vec::new(alloc);
    let ended = check(alloc, &mut file, &mut summary, &mut ());
    if ended.status == 0 {
        Ok(summary)
    } else {
        Err(PieceError::Wrong)
    }
}

/// Writes piece after piece, each to a file of its own, and prints what `gmp check` says of it.
fn pieces<R: Files + Print>(
    rt: &R,
    alloc: Global,
    book: &mut Book<(), ()>,
    pass: &mut Pass,
) -> Result<()> {
    for number in 0..PIECES {
        // Once the run is over nothing is left: the piece before had all.
        if book.outcome().is_some() {
            break;
        }
        // The state before the first entry of the piece.
        let start = book.start(alloc)?;
        if number == 0 {
            hold(book, pass)?;
        }
        fill(book, pass)?;
        let path = format!(in alloc; "piece-{number}.trace")?;
        hand_out(rt, alloc, book, &start, path.as_str())?;
        let summary = summary(rt, alloc, path.as_str())?;
        println!(rt; "{path}")?;
        print!(rt; "{}", str::from_utf8(&summary).unwrap_or("?"))?;
    }
    Ok(())
}

/// Opens the book, and spends the pass at the end, whatever came of it.
fn main(rt: HostRuntime) -> Result<()> {
    let alloc = rt.alloc();
    let (mut book, mut pass) = opened(alloc)?;
    let done = pieces(&rt, alloc, &mut book, &mut pass);
    pass.open();
    done
}
