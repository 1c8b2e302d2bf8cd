//! Values that must be spent: each has to be handed to a call, or opened. None can be copied, and none can be let go. `Ticket` is the right
//! to claim a ready goroutine, `Held` a goroutine that runs, `Called` one in its blocking call, `Proc` a processor.
//!
//! The book gives them out and takes them back. `of` and `open` are for the crates that keep their parts. Fields are public: private ones
//! would hide nothing, since `of` and `open` are, and no contract could name them. A value that nobody gave out is refused by the book.
ghost use Rattle.std.specs.Prelude.{◌≡◌};

use crate::ask::Woke;
use crate::number::{GNo, PNo, Readiness};

/// The right to claim a ready goroutine, once. The epoch says which time of being ready is meant, so that an old ticket opens nothing.
pub struct Ticket {
    /// The run that it is of.
    pub run: u64,
    pub g: GNo,
    pub epoch: u64,
}

impl Ticket {
    ghost use Rattle.gmp_base.specs.Values.{readiness_of, ticket_by};

    /// A ticket of these parts. Whether it is given out is the book's to know.
    pub fn of(run: u64, g: GNo, epoch: u64) -> Self
        ensures { result ≡ record { run = run; g = g; epoch = epoch } }
    {
        Ticket { run, g, epoch }
    }

    /// The ticket of this readiness, of a run.
    pub fn by(run: u64, r: Readiness) -> Self
        ensures { result ≡ ticket_by run r }
    {
        Ticket::of(run, r.g, r.epoch)
    }

    /// Its run, its goroutine and its epoch.
    pub fn open(self) -> (u64, GNo, u64)
        ensures { result ≡ record { 0 = self.run; 1 = self.g; 2 = self.epoch } }
    {
        let Ticket { run, g, epoch } = self;
        (run, g, epoch)
    }

    /// The readiness that it stands for.
    pub fn readiness(&self) -> Readiness
        ensures { result ≡ readiness_of self.now }
    {
        Readiness {
            g: self.g,
            epoch: self.epoch,
        }
    }
}

/// A goroutine that a machine runs, with its body and what the body is to be told next. It is spent by each call of the goroutine, and
/// handed back where the goroutine goes on.
pub struct Held<T> {
    /// The run that it is of.
    pub run: u64,
    pub g: GNo,
    pub woke: Woke,
    pub body: T,
}

impl<T> Held<T> {
    /// A goroutine of these parts, which the book takes only from the machine that runs it.
    pub fn of(run: u64, g: GNo, woke: Woke, body: T) -> Self
        ensures { result ≡ record { run = run; g = g; woke = woke; body = body } }
    {
        Held { run, g, woke, body }
    }

    /// Its run, its goroutine, what is to be told, and the body.
    pub fn open(self) -> (u64, GNo, Woke, T)
        ensures { result ≡ record { 0 = self.run; 1 = self.g; 2 = self.woke; 3 = self.body } }
    {
        let Held { run, g, woke, body } = self;
        (run, g, woke, body)
    }
}

/// A goroutine whose blocking call a machine makes, with its body. The machine that makes the call hands it to `leave`.
pub struct Called<T> {
    /// The run that it is of.
    pub run: u64,
    pub g: GNo,
    pub body: T,
}

impl<T> Called<T> {
    /// A goroutine of these parts, which the book takes only from the machine that makes its call.
    pub fn of(run: u64, g: GNo, body: T) -> Self
        ensures { result ≡ record { run = run; g = g; body = body } }
    {
        Called { run, g, body }
    }

    /// Its run, its goroutine, and the body.
    pub fn open(self) -> (u64, GNo, T)
        ensures { result ≡ record { 0 = self.run; 1 = self.g; 2 = self.body } }
    {
        let Called { run, g, body } = self;
        (run, g, body)
    }
}

/// A processor that a machine holds (Scalable Go Scheduler Design Doc, Processors), with its owner: what goes along with the processor, as
/// the own end of its queue. An owner may be of any type; nobody but its host looks into it.
pub struct Proc<Q> {
    /// The run that it is of.
    pub run: u64,
    pub p: PNo,
    pub owner: Q,
}

impl<Q> Proc<Q> {
    /// A processor of these parts, which the book takes only from the machine that holds it.
    pub fn of(run: u64, p: PNo, owner: Q) -> Self
        ensures { result ≡ record { run = run; p = p; owner = owner } }
    {
        Proc { run, p, owner }
    }

    /// Its run, its processor, and the owner.
    pub fn open(self) -> (u64, PNo, Q)
        ensures { result ≡ record { 0 = self.run; 1 = self.p; 2 = self.owner } }
    {
        let Proc { run, p, owner } = self;
        (run, p, owner)
    }
}
