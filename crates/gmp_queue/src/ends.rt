//! The two ends of a local queue: `Owner`, of which there is one, and `Thief`; `Stole` is what a steal answers.
//!
//! A ticket's run isn't in the slots, which have goroutine and epoch alone: it is the end's, and a ticket comes out with it. So a ticket of
//! another run is refused at the push, where its run would else be changed.
ghost use Rattle.std.specs.Prelude.{◌≡◌, ◌<◌, true};
ghost use Rattle.crossbeam_deque.specs.Handles.{view, IsPassOf, worker_view, worker_flavor, stealer_deque, stealer_flavor};

use crate::rule::{InOrder, Lend, Pop, Push, Steal, View};
use crossbeam_deque::{Pass, Stealer, Worker};
use gmp_base::{Readiness, Ticket};
use std::alloc::{AllocError, Global};
use std::sync::Arc;
use std::sync::atomic::{AtomicU64, Ordering};

/// The deque's back, under the rule, whose tasks are readinesses.
pub(crate) type Back = Worker<Readiness, Global, View, InOrder>;

/// The deque's front, of which each thief has a handle.
type Front = Stealer<Readiness, Global, View, InOrder>;

/// The owner's end, which puts tickets at the back and takes them at the front. It has at least one part of the right to know the whole. It
/// can be dropped, but an end that is takes its parts along, and then `close` can't be called.
#[derive(Drop)]
pub struct Owner {
    pub(crate) run: u64,
    pub(crate) worker: Back,
    /// How many tickets there are, counted up and down beside the deque by whoever puts or takes: to ask the deque itself would be another
    /// kind of step of the rule.
    pub(crate) length: Arc<AtomicU64>,
    pub ghost first_in_first_out: { worker_flavor worker ≡ 0 },
    pub ghost owns: { (worker_view worker).owner ≡ true },
    pub ghost has_part: { 0 < (worker_view worker).parts },
}

/// A thief's end, which takes tickets at the front. It has its own part of the right to know the whole, and gives it back to the owner at
/// the close.
#[derive(Drop)]
pub struct Thief {
    pub(crate) run: u64,
    pub(crate) stealer: Front,
    pub(crate) pass: Pass<Readiness, View>,
    pub(crate) length: Arc<AtomicU64>,
    pub ghost first_in_first_out: { stealer_flavor stealer ≡ 0 },
    pub ghost its_pass: { IsPassOf (stealer_deque stealer) pass },
    pub ghost has_part: { 0 < (view pass).parts },
}

/// What a steal answers.
pub enum Stole {
    Got(Ticket),
    /// The queue was empty at one moment.
    Empty,
    /// Another thread came first, and nothing was taken. Whether there are more isn't known.
    Unsure,
}

impl Owner {
    ghost use Rattle.std.specs.Prelude.{◌≡◌, ◌<◌, [], ◌∷◌, IfOk, MatchOption, MatchResult};
    ghost use Rattle.gmp_base.specs.Values.{readiness_of};
    ghost use Rattle.gmp_queue.specs.Queue.{PutLast, PoppedFirst, FoundNone, lent, kept, both};
    ghost use Rattle.gmp_queue.specs.Ends.{owner_run, owner_view, thief_view, SameOwner, KeepsOwner, IsThiefOf};

    /// The run that its tickets are of.
    pub fn run(&self) -> u64
        ensures { result ≡ owner_run self.now }
    {
        self.run
    }

    /// Puts a ticket at the back. It comes back where it is of another run or the queue can't grow, as for want of memory. It waits for
    /// nobody: a thief that has not yet cleared a slot is given a bounded time, and then the queue grows or refuses.
    pub fn push(&mut self, ticket: Ticket) -> Result<(), Ticket>
        ensures same { KeepsOwner self.old self.new }
        ensures step { MatchResult result (λ _. (ticket.run ≡ owner_run self.old) × PutLast (owner_view self.old) (readiness_of ticket ∷ []) (owner_view self.new)) (λ back. (back ≡ ticket) × (owner_view self.new ≡ owner_view self.old)) }
    {
        if ticket.run != self.run {
            return Err(ticket);
        }
        match self.worker.push_as::<Push>(ticket.readiness()) {
            Ok(()) => {
                // The ticket is spent: its readiness is in the queue. The length is counted after, so it may be too small, and never
                // promises a ticket that isn't there yet.
                let (_, _, _) = ticket.open();
                self.length.fetch_add(1, Ordering::SeqCst);
                Ok(())
            }
            Err(_) => Err(ticket),
        }
    }

    /// Takes the first ticket. It waits for nobody: it moves the front on by one add, which no thief can make it do again, and where it
    /// answers none the queue was empty at one moment of the call.
    pub fn pop(&mut self) -> Option<Ticket>
        ensures same { KeepsOwner self.old self.new }
        ensures step { MatchOption result ((owner_view self.new ≡ owner_view self.old) × FoundNone (owner_view self.old)) (λ ticket. (ticket.run ≡ owner_run self.old) × PoppedFirst (owner_view self.old) (readiness_of ticket ∷ []) (owner_view self.new)) }
    {
        let readiness = self.worker.pop_as::<Pop>()?;
        self.length.fetch_sub(1, Ordering::SeqCst);
        Some(Ticket::of(self.run, readiness.g, readiness.epoch))
    }

    // An end for one more thief, with a part of the owner's, which keeps at least one. It is refused where memory is.
    pub(crate) fn thief(&mut self) -> Result<Thief, AllocError>
        requires { 1 < (owner_view self.old).parts }
        ensures same { SameOwner self.old self.new }
        ensures thief { IfOk result (λ t. IsThiefOf self.new t × (thief_view t ≡ lent) × (owner_view self.new ≡ kept (owner_view self.old))) }
    {
        let stealer = self.worker.stealer()?;
        let length = Arc::try_clone(&self.length)?;
        let pass = self.worker.another::<Lend>();
        Ok(Thief {
            run: self.run,
            stealer,
            pass,
            length,
        })
    }

    // Takes in what a thief has taken, and its part. The thief is handed over, so its thread uses it no more: nobody is waited for.
    pub(crate) fn absorb(&mut self, thief: Thief)
        requires { IsThiefOf self.old thief }
        ensures same { SameOwner self.old self.new }
        ensures view { owner_view self.new ≡ both (owner_view self.old) (thief_view thief) }
    {
        let Thief {
            run: _,
            stealer: _,
            pass,
            length: _,
        } = thief;
        self.worker.absorb::<Lend>(pass);
    }
}

impl Thief {
    ghost use Rattle.std.specs.Prelude.{◌≡◌, [], ◌∷◌};
    ghost use Rattle.gmp_base.specs.Values.{readiness_of};
    ghost use Rattle.gmp_queue.specs.Queue.{StoleFirst};
    ghost use Rattle.gmp_queue.specs.Ends.{thief_run, thief_view, KeepsThief, MatchStole};

    /// The run that its tickets are of.
    pub fn run(&self) -> u64
        ensures { result ≡ thief_run self.now }
    {
        self.run
    }

    /// The queue's length that was last published, in tickets. It may be old, and is good to say how many to steal, and for nothing else.
    /// One read, which waits for nobody.
    pub fn hint(&self) -> u32 {
        let length = self.length.load(Ordering::SeqCst);
        // A thief may take a ticket before its owner has published it.
        if length > u64::MAX / 2 {
            return 0;
        }
        u32::try_from(length).unwrap_or(u32::MAX)
    }

    /// Tries once to take the first ticket. It waits for nobody: a race that is lost is answered `Unsure`, and whoever drives the machine
    /// tries again or goes on. A loop here would hold the thread for as long as others are quicker.
    pub fn steal(&mut self) -> Stole
        ensures same { KeepsThief self.old self.new }
        ensures step { MatchStole result (λ ticket. (ticket.run ≡ thief_run self.old) × StoleFirst (thief_view self.old) (readiness_of ticket ∷ []) (thief_view self.new)) (thief_view self.new ≡ thief_view self.old) (thief_view self.new ≡ thief_view self.old) }
    {
        match self.stealer.steal_as::<Steal>(&mut self.pass) {
            crossbeam_deque::Steal::Success(readiness) => {
                self.length.fetch_sub(1, Ordering::SeqCst);
                Stole::Got(Ticket::of(self.run, readiness.g, readiness.epoch))
            }
            crossbeam_deque::Steal::Empty => Stole::Empty,
            crossbeam_deque::Steal::Retry => Stole::Unsure,
        }
    }
}
