//! What two thieves take on two threads, while the owner puts: each ticket once, and each thief in order.
ghost use Rattle.std.specs.Prelude.{[], ◌∷◌};
ghost use Rattle.gmp_queue.specs.Ends.{AreTheEnds, KeepsOwner, KeepsThief};

use super::{TICKETS, left, put, spend};
use crate::wrong::{Wrong, held};
use gmp_base::GNo;
use gmp_queue::{Owner, Stole, Thief};
use std::alloc::Global;
use std::thread::{Threads, join};

/// How often a thief tries, of which most find nothing.
const TRIES: u32 = 100_000;

/// Puts the tickets.
fn put_all(mut owner: Owner) -> (Owner, Result<(), Wrong>)
    ensures { KeepsOwner owner result.0 }
{
    for g in 0..TICKETS {
        if let Err(wrong) = put(&mut owner, g) {
            return (owner, Err(wrong));
        }
    }
    (owner, Ok(()))
}

/// Tries to steal, and notes the numbers of what it got.
fn steal_all(alloc: Global, mut thief: Thief) -> (Thief, Vec<u16>)
    ensures { KeepsThief thief result.0 }
{
    let mut got = Vec::new(alloc);
    // Nobody ends this loop but its count: a thief can't know that no more is put.
    for _ in 0..TRIES {
        match thief.steal() {
            Stole::Got(ticket) => {
                let _ = got.push(spend(ticket));
            }
            Stole::Empty | Stole::Unsure => {}
        }
    }
    (thief, got)
}

/// Each thief got its numbers in order, and with the rest they are those of all tickets, each once.
fn are_all(mut one: Vec<u16>, two: &[u16], rest: &[(GNo, u64)]) -> Result<(), Wrong> {
    held(one.is_sorted() && two.is_sorted(), Wrong::NotOnce)?;
    one.extend_from_slice(two)?;
    for (g, epoch) in rest {
        held(
            *epoch == 1,
            Wrong::Number("ticket of another epoch", u64::from(g.0)),
        )?;
        one.push(g.0)?;
    }
    one.sort()?;
    held(one.iter().copied().eq(0..TICKETS), Wrong::NotOnce)
}

/// Two thieves steal while the owner puts; then the queue is closed.
pub fn steals_once<R: Threads + Sync>(
    rt: &R,
    alloc: Global,
    owner: Owner,
    first: Thief,
    second: Thief,
) -> Result<(), Wrong>
    requires { AreTheEnds owner (first ∷ second ∷ []) }
{
    let ((owner, put), ((first, one), (second, two))) = join(
        rt,
        move ||
            ensures { KeepsOwner owner result.0 }
        { put_all(owner) },
        move ||
            ensures { KeepsThief first result.0.0 × KeepsThief second result.1.0 }
        {
            join(
                rt,
                move ||
                    ensures { KeepsThief first result.0 }
                { steal_all(alloc, first) },
                move ||
                    ensures { KeepsThief second result.0 }
                { steal_all(alloc, second) },
            )
        },
    );
    let rest = left(alloc, owner, first, second)?;
    put?;
    are_all(one, &two, &rest)
}
