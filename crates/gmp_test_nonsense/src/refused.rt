//! Want of memory: what takes memory gives back all that it was handed where an allocation is refused, and succeeds at the second time. One
//! player for all that is tried (`Trial`, and what became of it, `Tried`).
//!
//! Each allocation is refused in turn by `rt try --fail-alloc 1..`, one in a run of the program (docs/HACKING.md).

mod making;
mod opening;
mod pushing;
mod running;

use crate::error::RunError;
use making::Making;
use opening::{BookOpening, CoreOpening, QueueOpening};
use pushing::Pushing;
use running::play_run;
use std::alloc::Global;
use std::sync::Wait;
use std::thread::Threads;

/// What became of a trial.
enum Tried<T> {
    Done,
    /// Memory was refused, and this came back.
    Refused(T),
    /// This is not as it has to be.
    Wrong(&'static str),
}

/// Something that takes memory, with what it is handed.
trait Trial: Sized {
    /// What is to be tried.
    fn new(alloc: Global) -> Result<Self, RunError>;

    /// What is not as it was before the try. Some are told that they were refused.
    fn changed(&mut self, was_refused: bool) -> Option<&'static str>;

    fn tried(self, alloc: Global) -> Tried<Self>;

    /// Lets go of what came back.
    fn let_go(self);
}

/// The trial, if it is as it was.
fn unchanged<T: Trial>(mut trial: T, was_refused: bool) -> Result<T, RunError> {
    match trial.changed(was_refused) {
        None => Ok(trial),
        Some(what) => {
            trial.let_go();
            Err(RunError::Wrong(what))
        }
    }
}

/// One allocation is refused at most, so that the second time is the last.
fn play<T: Trial>(alloc: Global) -> Result<(), RunError> {
    let trial = match T::new(alloc) {
        Err(RunError::OutOfMemory) => T::new(alloc)?,
        trial => trial?,
    };
    let back = match unchanged(trial, false)?.tried(alloc) {
        Tried::Done => return Ok(()),
        Tried::Refused(back) => unchanged(back, true)?,
        Tried::Wrong(what) => return Err(RunError::Wrong(what)),
    };
    match back.tried(alloc) {
        Tried::Done => Ok(()),
        Tried::Refused(back) => {
            back.let_go();
            Err(RunError::OutOfMemory)
        }
        Tried::Wrong(what) => Err(RunError::Wrong(what)),
    }
}

/// Opens a book, a core and queues, makes channels, pushes onto a queue, and runs bodies in threads.
pub fn all_tried<R: Threads + Wait + Sync>(rt: &R, alloc: Global) -> Result<(), RunError> {
    play::<BookOpening>(alloc)?;
    play::<CoreOpening>(alloc)?;
    play::<QueueOpening>(alloc)?;
    play::<Making>(alloc)?;
    play::<Pushing>(alloc)?;
    play_run(rt, alloc, (1, 1))?;
    play_run(rt, alloc, (2, 3))
}
