//! What becomes of a goroutine that asked: `Went` is one that goes on, `Moved` one that goes on or waits.
ghost use Rattle.std.specs.Prelude.{◌≡◌, None};
ghost use Rattle.gmp_book.specs.Went.{IsOn, moved_of};

use gmp_base::{Held, Ticket};

/// The goroutine goes on, and is told the answer of its call; a ticket that the call gave out is to be pushed onto a queue.
pub struct Went<T> {
    /// What it is to be told is in it.
    pub held: Held<T>,
    /// Of a goroutine that was started, served or made ready.
    pub push: Option<Ticket>,
}

/// Whether the goroutine goes on.
pub enum Moved<T> {
    On(Went<T>),
    /// It waits, and its body is in the book.
    Waits,
}

impl<T> Moved<T> {
    /// The goroutine goes on where there is one, with this ticket.
    pub(crate) fn of(held: Option<Held<T>>, push: Option<Ticket>) -> Self
        requires { held ≡ None → push ≡ None }
        ensures { result ≡ moved_of held push }
    {
        match (held, push) {
            (Some(held), push) => Moved::On(Went { held, push }),
            (None, None) => Moved::Waits,
            (None, Some(_)) => unreachable!(),
        }
    }

    /// The goroutine, which goes on.
    pub(crate) fn went(self) -> Went<T>
        requires { IsOn self }
        ensures { self ≡ Moved.On result }
    {
        match self {
            Moved::On(went) => went,
            Moved::Waits => unreachable!(),
        }
    }
}
