//! The book, a turn of its goroutine, and a piece of its history. What the compiler asks for is seen here: a pass, a processor or a ticket
//! can be neither copied nor dropped, so each way out spends what it has.

ghost use Rattle.std.specs.Prelude.{◌<◌, ◌^◌, sum};

use crate::error::PieceError;
use gmp_base::{Pass, Refusal};
use gmp_book::Book;
use gmp_history::History;
use gmp_seq::Limits;
use gmp_start::Start;
use gmp_trace::{BeginningView, End, TraceView, write_view};
use std::alloc::Global;
use std::fs;
use std::rt::Files;

/// One processor, one machine, and entries for two pieces and a half, of which the book has room for a piece and a turn.
const LIMITS: Limits = Limits {
    procs: 1,
    machines: 1,
    channels: 0,
    entries: 25_000,
    room: 10_010,
};

/// A book of one goroutine, and the pass of its one machine.
pub fn opened(alloc: Global) -> Result<(Book<(), ()>, Pass), PieceError> {
    let bodies = vec![in alloc; (); 1]?;
    let owners = vec![in alloc; (); 1]?;
    let (book, mut passes) = match Book::open(alloc, 1, LIMITS, &[], bodies, owners) {
        Ok(opened) => opened,
        Err(unopened) => return Err(unopened.why.into()),
    };
    let first = passes.pop();
    while let Some(pass) = passes.pop() {
        pass.open();
    }
    passes.destroy_empty();
    let Some(pass) = first else {
        return Err(PieceError::Refused);
    };
    Ok((book, pass))
}

/// The machine takes the processor, and keeps it.
pub fn hold(book: &mut Book<(), ()>, pass: &mut Pass) -> Result<(), PieceError> {
    match book.acquire(pass)? {
        Some(proc) => {
            proc.open();
            Ok(())
        }
        None => Err(PieceError::Refused),
    }
}

/// The goroutine comes from the shelf, runs, and yields.
/// Where a call is refused the value comes back with the refusal, and is spent here.
pub fn yield_once(book: &mut Book<(), ()>, pass: &mut Pass) -> Result<(), Refusal> {
    let Some(ticket) = book.take(pass)? else {
        return Err(Refusal::NotOutstanding);
    };
    let held = match book.claim(pass, ticket) {
        Ok(held) => held,
        Err(refused) => {
            let (why, ticket) = refused.open();
            ticket.open();
            return Err(why);
        }
    };
    match book.yield_to(pass, held) {
        Ok(()) => Ok(()),
        Err(refused) => {
            let (why, held) = refused.open();
            held.open();
            Err(why)
        }
    }
}

/// Takes the entries since the last piece from the book, and writes them to a file, as a trace that begins at this state, where that one
/// stopped.
///
/// The book has let go of these entries: a host that may have to try again keeps them until they are written.
pub fn hand_out(
    rt: &impl Files,
    alloc: Global,
    book: &mut Book<(), ()>,
    start: &Start,
    path: &str,
) -> Result<(), PieceError>
    requires few { sum start.now.counts.items < 2 ^ 63 }
{
    // As much room as a book may have; that the book has no more, its history tells.
    let _ = book.history();
    let mut entries = History::with_room(alloc, 1_000_000)?;
    book.hand_out(&mut entries);
    let trace = TraceView {
        limits: LIMITS,
        bodies: 1,
        beginning: BeginningView::Start(start),
        entries: &entries,
        end: End::of(book.outcome()),
    };
    let mut file = fs::create(rt, path)?;
    write_view(alloc, trace, &mut file)?;
    Ok(())
}
