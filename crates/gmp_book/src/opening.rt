//! What a book is opened with.
ghost use Rattle.std.specs.Prelude.{◌≡◌, ◌≤◌, ◌↔◌, [], IsTrue, vec_capacity};
ghost use Rattle.gmp_book.specs.Book.{MayOpen, opening_passes};

use gmp_base::{MNo, Pass, Refusal};
use gmp_seq::Limits;

/// The bodies and owners of a book that was not opened, as they were handed in.
#[derive(Drop)]
pub struct Unopened<T, Q> {
    /// `BadLimits` or `OutOfMemory`.
    pub why: Refusal,
    /// By goroutine.
    pub bodies: Vec<T>,
    /// By processor.
    pub owners: Vec<Q>,
}

impl<T, Q> Unopened<T, Q> {
    pub(crate) fn of(why: Refusal, bodies: Vec<T>, owners: Vec<Q>) -> Self
        ensures { result ≡ record { why = why; bodies = bodies; owners = owners } }
    {
        Unopened {
            why,
            bodies,
            owners,
        }
    }
}

/// Whether the limits are in range, and there is an owner for each processor.
pub(crate) fn may_open(limits: Limits, bodies: usize, capacities: &[u32], owners: usize) -> bool
    ensures { IsTrue result ↔ MayOpen limits bodies capacities.now owners }
{
    limits.allow(bodies, capacities) && owners == limits.procs as usize
}

/// One pass a machine, in order, in room that is there.
pub(crate) fn first_passes(room: Vec<Pass>, run: u64, machines: u8) -> Vec<Pass>
    requires empty { room.items ≡ [] }
    requires room { machines ≤ vec_capacity room }
    ensures { result.items ≡ opening_passes run machines }
{
    let mut passes = room;
    for m in 0..machines {
        passes.push_reserved(Pass::of(run, MNo(m), 0, 0));
    }
    passes
}
