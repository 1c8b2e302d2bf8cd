//! What a goroutine does, in words: `Doing` of a status of the checker's table, `Waited` of a wait, `Dealing` of an offer. Each text is that
//! of the definitions, so what a line says of a goroutine is what the table has.

use gmp_seq::{Deal, Kind, Offer, Status, TicketPlace, Wait};
use std::fmt;

/// A communication that is waited for.
#[derive(Clone, Copy)]
pub struct Dealing<'a>(pub &'a Offer);

impl fmt::Display for Dealing<'_> {
    ghost use Rattle.std.specs.Prelude.{Some};
    ghost use Rattle.gmp_waits.specs.Doing.{dealing_text};

    ghost output = { λ d. Some (dealing_text d.0.now) };

    fn fmt<W: fmt::Write>(&self, f: &mut fmt::Formatter<W>) -> fmt::Result {
        let c = self.0.channel.0;
        match self.0.deal {
            Deal::Send(v) => write!(f, "send {v} on channel {c}"),
            Deal::Receive => write!(f, "receive from channel {c}"),
        }
    }
}

/// A wait.
#[derive(Clone, Copy)]
pub struct Waited<'a>(pub &'a Wait);

impl fmt::Display for Waited<'_> {
    ghost use Rattle.std.specs.Prelude.{Some};
    ghost use Rattle.gmp_waits.specs.Doing.{wait_text};

    ghost output = { λ w. Some (wait_text w.0.now) };

    fn fmt<W: fmt::Write>(&self, f: &mut fmt::Formatter<W>) -> fmt::Result {
        let offers = self.0.offers.as_slice();
        match (self.0.kind, self.0.until) {
            (Kind::Parked, _) => f.write_str("waits for a ready"),
            (Kind::Sleep, Some(until)) => write!(f, "sleeps until {until}"),
            (Kind::Sleep, None) => f.write_str("sleeps"),
            (Kind::Plain, _) => match offers.first() {
                Some(offer) => write!(f, "waits to {}", Dealing(offer)),
                None => f.write_str("waits on nil"),
            },
            (Kind::Select, Some(until)) => write!(f, "waits in a select until {until}"),
            (Kind::Select, None) if offers.is_empty() => {
                f.write_str("waits in a select that has nothing but nil")
            }
            (Kind::Select, None) => f.write_str("waits in a select"),
        }
    }
}

/// What a goroutine does.
#[derive(Clone, Copy)]
pub struct Doing<'a>(pub &'a Status);

impl fmt::Display for Doing<'_> {
    ghost use Rattle.std.specs.Prelude.{Some};
    ghost use Rattle.gmp_waits.specs.Doing.{doing_text};

    ghost output = { λ d. Some (doing_text d.0.now) };

    fn fmt<W: fmt::Write>(&self, f: &mut fmt::Formatter<W>) -> fmt::Result {
        match self.0 {
            Status::Dormant => f.write_str("never started"),
            Status::Ready(TicketPlace::Shelf, _) => f.write_str("ready, its ticket on the shelf"),
            Status::Ready(TicketPlace::Out, _) => f.write_str(
                "ready, its ticket given out and not claimed",
            ),
            Status::Running(m) => write!(f, "runs on machine {}", m.0),
            Status::Calling(m) => write!(f, "in a blocking call of machine {}", m.0),
            Status::Waiting(wait) => write!(f, "{}", Waited(wait)),
            Status::Dead => f.write_str("ended"),
        }
    }
}
