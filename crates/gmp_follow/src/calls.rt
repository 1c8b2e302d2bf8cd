//! What a call has to do with bodies, and whether a command asks for a call.
ghost use Rattle.std.specs.Prelude.{◌≡◌, ◌↔◌, Some, IsTrue};
ghost use Rattle.std.specs.Option.{option_copied};
ghost use Rattle.gmp_driver.specs.Table.{call_for};
ghost use Rattle.gmp_follow.specs.Follows.{part_of};
ghost use Rattle.gmp_script.specs.Script.{ask_of};

use gmp_base::{Cases, Readiness};
use gmp_script::Command;
use gmp_seq::Call;

/// What a call has to do with bodies.
#[derive(Clone, Copy)]
pub(crate) enum Part {
    /// A body asks for it.
    Asked,
    /// It takes up the goroutine of this ticket.
    Claims(Readiness),
    /// A blocking call brings this number.
    Brings(u64),
    /// Nothing: it is the machine's own.
    Own,
}

pub(crate) fn part_of(call: &Call) -> Part
    ensures { result ≡ part_of call.now }
{
    match call {
        Call::Claim(r) => Part::Claims(*r),
        Call::Leave(number) => Part::Brings(*number),
        Call::Acquire
        | Call::Take
        | Call::Put(_)
        | Call::Spin
        | Call::Woken
        | Call::Keep
        | Call::Unspin
        | Call::Poke
        | Call::Declare
        | Call::Bare
        | Call::Park
        | Call::Tick(_) => Part::Own,
        _ => Part::Asked,
    }
}

/// The same cases, in the same order.
fn same_cases(a: &Cases, b: &Cases) -> bool
    ensures { IsTrue result ↔ (a.now ≡ b.now) }
{
    a.as_slice() == b.as_slice()
}

/// Whether the command asks for this call, with the same values.
fn asks_for(command: &Command, call: &Call) -> bool
    ensures { IsTrue result ↔ (call.now ≡ call_for (ask_of (Some command.now))) }
{
    match (command, call) {
        (Command::Yield, Call::Yield) => true,
        (Command::Go(g), Call::Go(h)) => *g == *h,
        (Command::Make(n), Call::Make(o)) => *n == *o,
        (Command::Send(c, v), Call::Send(d, w)) => *c == *d && *v == *w,
        (Command::Recv(c, _), Call::Recv(d)) => *c == *d,
        (Command::Close(c), Call::Close(d)) => *c == *d,
        (Command::Len(c), Call::Len(d)) => *c == *d,
        (Command::Cap(c), Call::Cap(d)) => *c == *d,
        (Command::Procs(n), Call::Procs(o)) => *n == *o,
        (Command::Select(a, x, s), Call::Select(b, y, t)) => {
            same_cases(a, b) && *x == *y && *s == *t
        }
        (Command::Sleep(s), Call::Sleep(t)) => *s == *t,
        (Command::Park, Call::Gopark) => true,
        (Command::Ready(g), Call::Ready(h)) => *g == *h,
        (Command::Block(_), Call::Enter) => true,
        (Command::Exit | Command::Again, Call::Exit) => true,
        _ => false,
    }
}

/// Whether a body asks for this call by the command, or, where there is none, by its end.
pub(crate) fn is_next(command: Option<&Command>, call: &Call) -> bool
    ensures { IsTrue result ↔ (call.now ≡ call_for (ask_of (option_copied command.entry))) }
{
    match command {
        Some(command) => asks_for(command, call),
        None => matches!(call, Call::Exit),
    }
}
