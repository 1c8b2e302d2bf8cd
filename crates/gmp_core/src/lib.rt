//! The core: several machines by their programs over one book and their local queues, act by act, in any order, with no threads. It is the
//! whole scheduler as one value, whose owner says who acts next.
//!
//! A machine is a driver (gmp_driver), whose table names its next act: a call of the book, a pop, push or steal at a queue, a reading of
//! the clock, or one step of its goroutine's body. `Core::act` makes that act with a `Choice`, which has what the act reads from outside:
//! the body's ask, a number, a moment, a drawn word.
//!
//! **Invariant** (`HeadlineOf`, `NoWorkIsAsleep`): whatever acts were made, the history, with what was handed out of it before, is a legal
//! run and is what the machines were told, each ticket stands in one place, no machine lost what it holds, no claim is refused, and while a
//! machine is parked each queue with a ticket has a machine that is awake and will look at it. No act changes the stock of bodies.
//!
//! `Core::open` refuses limits that don't fit and want of memory, and hands the bodies back. An act is not made where the run lasts and the
//! history is full; one of a machine that isn't there, or is done, changes nothing. Only `Core::open` and a make take memory. An act is
//! constant in time but for its call of the book.
//!
//! A `Player` runs a core in turn: turns go round by number, from machine 0, one act a turn, and a machine that the book has parked is passed
//! over. So the same bodies, which get the same from outside and the same memory, make the same run: of a script a law of gmp_step_laws says
//! it. What bodies ask and the clock shows comes from an `Outside`, whose relations the clauses cite: a caller whose outside says nothing of
//! itself learns of the run what the core says of any. Its run is the one that the definitions name (`IsPlayed`: one act of gmp_acts after
//! another, with what each reads).
//!
//! `engine` has the core, `acting` one act of it, `local` the acts at queues, `queues` these themselves, `want` what an act reads, `laws`
//! that what is handed out and what is left are one history; `playing` has the player, and `choosing` what it deals each act.
#![tactic(auto)]

mod acting;
mod choosing;
mod engine;
mod few;
mod laws;
mod local;
mod opening;
mod outside;
mod playing;
mod queues;
mod want;

pub use engine::Core;
pub use laws::pieces_are_one_history;
pub use outside::Outside;
pub use playing::Player;
pub use want::Want;
