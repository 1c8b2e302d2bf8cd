//! What a machine has in its hands, as parts. Each value that the book gives out is taken apart, and made again of its parts for the call
//! that spends it: so a line can hand in a forged one. A ticket is made of the readiness that a line names.

ghost use Rattle.std.specs.Prelude.{IfSome};
ghost use Rattle.gmp_journal.specs.Grants.{Suits};
ghost use Rattle.gmp_book.specs.Hands.{handed_of};

use gmp_base::{Called, GNo, Held, MNo, PNo, Pass, Proc, Readiness, Ticket, Woke};
use gmp_book::Values;
use gmp_seq::{Call, Reply};

/// The parts of a machine's pass and of the values that it has. Of each value they begin with its run.
#[derive(Clone, Copy, PartialEq, Eq)]
pub struct Hand {
    pub m: MNo,
    /// The run, how many calls were made, and how many entries were seen.
    pub pass: (u64, u64, u64),
    /// The goroutine that runs, with its body.
    pub held: Option<(u64, GNo, u32)>,
    /// What it is told.
    pub woke: Option<Woke>,
    /// The goroutine whose blocking call is made.
    pub called: Option<(u64, GNo, u32)>,
    /// The processor that it holds, with its owner.
    pub proc: Option<(u64, PNo, u32)>,
    /// The ticket that it was given last.
    pub ticket: Option<(u64, Readiness)>,
}

/// The goroutine of this number, of the run, with its body: each body is its goroutine's number.
fn own(run: u64, of: Option<(u64, GNo, u32)>) -> Option<(u64, GNo, u32)> {
    match of {
        Some((_, g, _)) => Some((run, g, u32::from(g.0))),
        None => None,
    }
}

impl Hand {
    /// Nothing but a machine's number.
    pub fn of(m: MNo) -> Hand {
        Hand {
            m,
            pass: (0, 0, 0),
            held: None,
            woke: None,
            called: None,
            proc: None,
            ticket: None,
        }
    }

    /// The pass, made of its parts.
    pub fn pass(&self) -> Pass {
        let (run, calls, seen) = self.pass;
        Pass::of(run, self.m, calls, seen)
    }

    /// What the call is handed, out of the hand; a ticket is of this run. None where something is missing.
    pub fn gives(&mut self, call: &Call, run: u64) -> Option<Values<u32, u32>>
        ensures { IfSome result (λ v. Suits call.now (handed_of v)) }
    {
        let told = self.woke.unwrap_or(Woke::First);
        self.ticket = None;
        let (held, called, ticket, proc) = match call {
            Call::Put(r) => (None, None, Some(Ticket::of(run, r.g, r.epoch)), None),
            Call::Claim(r) => (None, None, Some(Ticket::of(run, r.g, r.epoch)), None),
            Call::Enter => {
                let (run, g, body) = self.held?;
                let (other, p, owner) = self.proc.take()?;
                (self.held, self.woke) = (None, None);
                let held = Held::of(run, g, told, body);
                (Some(held), None, None, Some(Proc::of(other, p, owner)))
            }
            Call::Leave(_) => {
                let (run, g, body) = self.called.take()?;
                (None, Some(Called::of(run, g, body)), None, None)
            }
            Call::Declare => {
                let (run, p, owner) = self.proc.take()?;
                (None, None, None, Some(Proc::of(run, p, owner)))
            }
            Call::Acquire
            | Call::Take
            | Call::Spin
            | Call::Woken
            | Call::Keep
            | Call::Unspin
            | Call::Poke
            | Call::Bare
            | Call::Park
            | Call::Tick(_) => (None, None, None, None),
            _ => {
                let (run, g, body) = self.held.take()?;
                self.woke = None;
                (Some(Held::of(run, g, told, body)), None, None, None)
            }
        };
        Some(Values {
            held,
            called,
            ticket,
            proc,
        })
    }

    /// Keeps the pass and what a call handed out or back.
    pub fn keeps(&mut self, pass: Pass, values: Values<u32, u32>) {
        let (run, _, calls, seen) = pass.open();
        self.pass = (run, calls, seen);
        let Values {
            held,
            called,
            ticket,
            proc,
        } = values;
        if let Some(held) = held {
            let (run, g, woke, body) = held.open();
            self.held = Some((run, g, body));
            self.woke = Some(woke);
        }
        if let Some(called) = called {
            self.called = Some(called.open());
        }
        if let Some(proc) = proc {
            self.proc = Some(proc.open());
        }
        if let Some(ticket) = ticket {
            let (run, g, epoch) = ticket.open();
            self.ticket = Some((run, Readiness { g, epoch }));
        }
    }

    /// What it has to have behind an accepted call of the run with this reply, when there are so many entries: each value is the run's own,
    /// and has the body or the owner of its number. What a goroutine is told stays open.
    pub fn after(self, run: u64, reply: Reply, entries: u64) -> Hand {
        let (_, calls, _) = self.pass;
        let claimed = match self.ticket {
            Some((_, r)) => Some((run, r.g, 0)),
            None => None,
        };
        let (held, called, proc) = match reply {
            Reply::Held => (claimed, self.called, self.proc),
            Reply::Proc(p) => (self.held, self.called, Some((run, p, 0))),
            Reply::Idle(_) => (self.held, self.called, None),
            Reply::Entered(_, _) => (None, self.held, None),
            Reply::Runs(p) => (self.called, None, Some((run, p, 0))),
            Reply::Shelved(_) | Reply::Waits | Reply::Dead | Reply::MainEnded => {
                (None, None, self.proc)
            }
            _ => (self.held, self.called, self.proc),
        };
        Hand {
            m: self.m,
            pass: (run, calls.wrapping_add(1), entries),
            held: own(run, held),
            woke: self.woke,
            called: own(run, called),
            proc: match proc {
                Some((_, p, _)) => Some((run, p, u32::from(p.0))),
                None => None,
            },
            ticket: match reply.ticket() {
                Some(r) => Some((run, r)),
                None => None,
            },
        }
    }
}
