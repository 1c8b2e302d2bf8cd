//! All machines together, as definitions: what each act of a machine does to the book's run, the local queues and the machines. Every
//! interleaving is a list of acts, and the laws say what holds after each list. It is the Scalable Go Scheduler Design Doc's scheduler
//! (Vyukov, 2012) as a whole; code that acts so is in gmp_core and gmp_run.
//!
//! What each act keeps (`IsSound`): the history is a legal run, each machine's entries are its calls with what it was told, a goroutine is
//! in one hand at most, and each ticket stands in one place.
//!
//! What is refused: while the run lasts no call is, but a make for want of memory; that this is so is a law, since a call whose needs
//! aren't met has an answer here too, by which nothing changes.
//!
//! A call is any step that the scheduler has, and not the one that the book takes, so the laws hold of every scheduler that is legal. It
//! stands on definitions alone, below book and threads, so that both can cite it.
#![tactic(auto)]

mod choice;
pub mod laws;
mod made;

pub use choice::Choice;
pub use made::Made;
