//! Changes of many goroutines at once, and the clock. Both a close and a tick wake all that their cause has an answer for, and in which
//! order the shelf has them is no part of the state.
ghost use Rattle.std.specs.Prelude.{◌≡◌, ◌≤◌, ◌^◌, ℕ, map, None, Some, slice_get};
ghost use Rattle.gmp_base.specs.declared.number.GNo.{GNo};
ghost use Rattle.gmp_seq.specs.declared.status.Goroutine.{Goroutine};
ghost use Rattle.gmp_seq.specs.Step.{Ticks};
ghost use Rattle.gmp_seq.specs.Table.{all_woken, epoch_at, earlier, how_many_woken, least_deadline, least_of, minded, woken_with};
ghost use Rattle.gmp_check.specs.Causes.{answer_for};
ghost use Rattle.gmp_check.specs.Decides.{Decides};

use super::Table;
use crate::answers::Cause;
use gmp_base::GNo;
use gmp_seq::{Goroutine, Reply, Status, TicketPlace};

/// The lesser of two deadlines, where there are two.
fn earlier(a: Option<u64>, b: Option<u64>) -> Option<u64>
    ensures { result ≡ earlier a b }
{
    match (a, b) {
        (None, b) => b,
        (a, None) => a,
        (Some(x), Some(y)) => Some(x.min(y)),
    }
}

/// The least deadline of all rows.
fn least_of(rows: &[Goroutine]) -> Option<u64>
    ensures { result ≡ least_of rows.now }
{
    let mut least = None;
    for row in rows {
        least = earlier(least, row.status.deadline());
    }
    least
}

/// Makes a goroutine ready on the shelf, where the cause has an answer for it.
fn wake(row: &mut Goroutine, cause: Cause)
    requires { row.old.epoch ≤ 2 ^ 63 }
    ensures { row.new ≡ woken_with (answer_for cause row.old.status) row.old }
{
    if let Some(woke) = cause.answer(&row.status) {
        row.status = Status::Ready(TicketPlace::Shelf, woke);
        row.epoch += 1;
    }
}

/// The same of each goroutine.
fn wake_all(rows: &mut [Goroutine], cause: Cause)
    requires { (k : ℕ) (x : Goroutine) → slice_get rows.old k ≡ Some x → x.epoch ≤ 2 ^ 63 }
    ensures { rows.new ≡ map (λ (x : Goroutine). woken_with (answer_for cause x.status) x) rows.old }
{
    for row in rows.iter_mut() {
        wake(row, cause);
    }
}

impl Table {
    /// How many goroutines the cause wakes.
    pub(crate) fn how_many_woken(&self, cause: Cause) -> usize
        ensures { result ≡ how_many_woken (answer_for cause) self.now }
    {
        let rows = self.goroutines.iter();
        rows.filter(|row| cause.answer(&row.status).is_some())
            .count()
    }

    /// The least deadline of all that wait.
    pub(crate) fn least_deadline(&self) -> Option<u64>
        ensures { result ≡ least_deadline self.now }
    {
        least_of(&self.goroutines)
    }

    /// The moment to wait for, where nobody is ready or running.
    pub(crate) fn minded(&self) -> Option<u64>
        ensures { result ≡ minded self.now }
    {
        if self.has_ready_or_running() {
            None
        } else {
            self.least_deadline()
        }
    }

    /// Makes all ready on the shelf for whom the cause has an answer.
    pub(crate) fn wake(&mut self, cause: Cause)
        requires young { (g : GNo) → epoch_at self.old g ≤ 2 ^ 63 }
        ensures { self.new ≡ all_woken (answer_for cause) self.old }
    {
        wake_all(&mut self.goroutines, cause);
    }

    /// The clock shows this moment, or stays at a greater one: who waited until then becomes ready, and the reply counts them.
    pub(crate) fn tick(&mut self, moment: u64, reply: Reply) -> bool
        requires young { (g : GNo) → epoch_at self.old g ≤ 2 ^ 63 }
        ensures { Decides (Ticks moment reply) self.old self.new result }
    {
        let now = self.clock.max(moment);
        let cause = Cause::Due(now);
        match reply {
            Reply::Woke(n) if n == self.how_many_woken(cause) as u64 => {
                self.wake(cause);
                self.clock = now;
                true
            }
            _ => false,
        }
    }
}
