//! A queue that threads share. No call waits for another thread: who finds one at it tries again, so often at most.

ghost use Rattle.std.specs.Prelude.{◌≡◌, ◌⊎◌, ◌++◌, ◌∷◌, ◌<◌, ◌≤◌, [], IfErr, OnErr, OnOk, length};
ghost use Rattle.std.proofs.Common.{deque_capacity};

use std::alloc::{AllocError, Global};
use std::collections::VecDeque;
use std::sync::{Arc, Mutex};
use std::thread::yield_now;

/// How often a call tries to come to a queue that other threads are at.
pub(crate) const TRIES: u32 = 1 << 16;

/// Other threads were at the queue, as often as it was tried.
#[derive(Drop)]
pub(crate) struct Busy;

/// Takes the value in, as the last one, where there are fewer than so many. Where there is no room it comes back.
fn put<T>(values: &mut VecDeque<T>, value: T, room: u32) -> Result<(), T>
    ensures last { OnOk result (values.new.items ≡ values.old.items ++ value ∷ []) }
    ensures room { OnOk result (length values.old.items < room) }
    ensures full { OnErr result ((room ≤ length values.old.items) ⊎ (deque_capacity values.old ≤ length values.old.items)) }
    ensures back { IfErr result (λ it. it ≡ value) }
    ensures same { OnErr result (values.new.items ≡ values.old.items) }
{
    if values.len() >= room as usize {
        return Err(value);
    }
    values.push_back(value).map_err(|failed| failed.value)
}

/// A handle of a queue.
#[derive(Drop)]
pub(crate) struct Queue<T> {
    values: Arc<Mutex<VecDeque<T>>, Global>,
}

impl<T: Drop> Queue<T> {
    /// An empty queue, with memory for so many values.
    pub fn new(alloc: Global, room: u32) -> Result<Self, AllocError> {
        let values = VecDeque::with_capacity(alloc, room as usize)?;
        let values = Arc::new(alloc, Mutex::new(values))?;
        Ok(Queue { values })
    }
}

// Nothing is asked of `T`: a value that isn't `Drop` can't be let go, so none is lost here.
impl<T> Queue<T> {
    /// One more handle of it.
    pub fn share(&self) -> Result<Self, AllocError> {
        let values = Arc::try_clone(&self.values)?;
        Ok(Queue { values })
    }

    /// Takes the value in, as the last one, where there are fewer than so many. It comes back where there is no room, or others were at the
    /// queue all the while.
    pub fn put(&self, value: T, room: u32) -> Result<(), T>
        ensures back { IfErr result (λ it. it ≡ value) }
    {
        for _ in 0..TRIES {
            if let Some(mut values) = self.values.try_lock() {
                return put(&mut values, value, room);
            }
            yield_now();
        }
        Err(value)
    }

    /// The oldest value, which leaves the queue, if there is one.
    pub fn take(&self) -> Result<Option<T>, Busy> {
        for _ in 0..TRIES {
            if let Some(mut values) = self.values.try_lock() {
                return Ok(values.pop_front());
            }
            yield_now();
        }
        Err(Busy)
    }
}
