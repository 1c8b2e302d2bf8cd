//! Makes of channels by a book, of main that the one machine runs.

use super::{Trial, Tried};
use crate::error::RunError;
use gmp_base::{CNo, GNo, Held, MNo, Pass, Proc, Refusal, Woke};
use gmp_book::{Book, Went};
use gmp_seq::{Call, Entry, Limits, Reply};
use std::alloc::Global;

/// The run's number.
const RUN: u64 = 7;

const LIMITS: Limits = Limits {
    procs: 1,
    machines: 1,
    channels: 16,
    entries: 100,
    room: 100,
};

const BODIES: [u32; 1] = [70];

const OWNERS: [u32; 1] = [80];

/// The capacities of the channels that are made.
const CAPACITIES: [u32; 3] = [2, 4096, 0];

/// How many entries there are before the first make: acquire, take, claim.
const BEFORE: u64 = 3;

pub(super) struct Making {
    book: Book<u32, u32>,
    pass: Pass,
    proc: Proc<u32>,
    main: Held<u32>,
    /// How many channels were made.
    made: u16,
}

/// The pass of the one machine.
fn only(passes: Vec<Pass>) -> Option<Pass> {
    let mut passes = passes;
    let pass = passes.pop();
    while let Some(other) = passes.pop() {
        other.open();
    }
    passes.destroy_empty();
    pass
}

/// The machine takes the processor and main's ticket, and runs main.
fn begun(book: &mut Book<u32, u32>, pass: &mut Pass) -> Result<(Proc<u32>, Held<u32>), RunError> {
    let Some(proc) = book.acquire(pass).ok().flatten() else {
        return Err(RunError::Wrong("the processor"));
    };
    let Some(ticket) = book.take(pass).ok().flatten() else {
        proc.open();
        return Err(RunError::Wrong("the ticket"));
    };
    match book.claim(pass, ticket) {
        Ok(main) => Ok((proc, main)),
        Err(refused) => {
            let (_, ticket) = refused.open();
            ticket.open();
            proc.open();
            Err(RunError::Wrong("the claim"))
        }
    }
}

/// What main is told of the channel, and whether that is right.
fn told(went: Went<u32>, c: CNo) -> (Held<u32>, bool) {
    let Went { held, push } = went;
    let mut is_right = held.woke == Woke::Made(c);
    if let Some(ticket) = push {
        ticket.open();
        is_right = false;
    }
    (held, is_right)
}

impl Making {
    /// How many entries there are, all of the one machine.
    fn count(&self) -> u64 {
        BEFORE + u64::from(self.made)
    }

    /// The last entry is this make, by the number of the machine's next call.
    fn is_entered(&self, capacity: u32) -> bool {
        let is_make = |entry: Entry| {
            entry.m == MNo(0)
                && entry.k == self.count()
                && matches!(entry.call, Call::Make(n) if n == capacity)
                && entry.reply == Reply::Channel(CNo(self.made))
        };
        self.book.history().last().is_some_and(is_make)
    }

    /// Makes the next channel.
    fn make(self, alloc: Global, capacity: u32) -> Result<Self, Tried<Self>> {
        let Making {
            mut book,
            mut pass,
            proc,
            main,
            made,
        } = self;
        match book.make(alloc, &mut pass, main, capacity) {
            Ok(went) => {
                let (main, is_told) = told(went, CNo(made));
                let mut making = Making {
                    book,
                    pass,
                    proc,
                    main,
                    made,
                };
                if is_told && making.is_entered(capacity) {
                    making.made = made.saturating_add(1);
                    Ok(making)
                } else {
                    making.let_go();
                    Err(Tried::Wrong("the entry of a make"))
                }
            }
            Err(refused) => {
                let (why, main) = refused.open();
                let making = Making {
                    book,
                    pass,
                    proc,
                    main,
                    made,
                };
                if why == Refusal::OutOfMemory {
                    Err(Tried::Refused(making))
                } else {
                    making.let_go();
                    Err(Tried::Wrong("why a make was refused"))
                }
            }
        }
    }
}

impl Trial for Making {
    fn new(alloc: Global) -> Result<Self, RunError> {
        let bodies = BODIES.to_vec(alloc)?;
        let owners = OWNERS.to_vec(alloc)?;
        let Ok((mut book, passes)) = Book::open(alloc, RUN, LIMITS, &[], bodies, owners) else {
            return Err(RunError::OutOfMemory);
        };
        let Some(mut pass) = only(passes) else {
            return Err(RunError::Wrong("the pass"));
        };
        match begun(&mut book, &mut pass) {
            Ok((proc, main)) => Ok(Making {
                book,
                pass,
                proc,
                main,
                made: 0,
            }),
            Err(error) => {
                pass.open();
                Err(error)
            }
        }
    }

    fn changed(&mut self, was_refused: bool) -> Option<&'static str> {
        let count = self.count();
        let Making {
            book,
            pass,
            main,
            ..
        } = self;
        if book.history().len() as u64 != count {
            Some("the history before a make")
        } else if pass.calls != count || pass.seen != count {
            Some("the pass before a make")
        } else if main.run != RUN || main.g != GNo(0) || main.body != BODIES[0] {
            Some("the goroutine of a make")
        } else if was_refused && main.woke != Woke::NoMemory {
            Some("what is told of a make that is refused memory")
        } else {
            None
        }
    }

    fn tried(self, alloc: Global) -> Tried<Self> {
        let mut making = self;
        for capacity in CAPACITIES.into_iter().skip(usize::from(making.made)) {
            match making.make(alloc, capacity) {
                Ok(made) => making = made,
                Err(tried) => return tried,
            }
        }
        making.let_go();
        Tried::Done
    }

    fn let_go(self) {
        let Making {
            book: _,
            pass,
            proc,
            main,
            made: _,
        } = self;
        pass.open();
        proc.open();
        main.open();
    }
}
