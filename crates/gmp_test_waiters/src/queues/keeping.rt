//! What one thread puts and takes, and what is left at a close.
ghost use Rattle.std.specs.Prelude.{[], ◌∷◌};
ghost use Rattle.gmp_queue.specs.Ends.{AreTheEnds, KeepsOwner, KeepsThief};

use super::{TICKETS, left, pops, put, spend, steals};
use crate::wrong::{Wrong, held};
use gmp_base::GNo;
use gmp_queue::{Owner, Thief};
use std::alloc::Global;

/// Each ticket comes back in its turn, and then none; so does one more, to a thief.
pub fn keeps(mut owner: Owner, mut thief: Thief) -> Result<(), Wrong> {
    for g in 0..TICKETS {
        put(&mut owner, g)?;
    }
    for g in 0..TICKETS {
        pops(&mut owner, g)?;
    }
    held(owner.pop().map(spend).is_none(), Wrong::NotOnce)?;
    put(&mut owner, 9)?;
    steals(&mut thief, 9)
}

/// The thief is told this length.
fn is_told(thief: &Thief, length: u32) -> Result<(), Wrong> {
    let hint = thief.hint();
    held(
        hint == length,
        Wrong::Number("length that is told", u64::from(hint)),
    )
}

/// Of five tickets the owner takes one and the thief another; three are left. Where nobody is at work the length is told.
pub fn counts(mut owner: Owner, mut thief: Thief, other: &Thief) -> Result<(), Wrong> {
    is_told(&thief, 0)?;
    for g in 0..5 {
        put(&mut owner, g)?;
    }
    is_told(&thief, 5)?;
    pops(&mut owner, 0)?;
    steals(&mut thief, 1)?;
    is_told(other, 3)
}

/// Puts 20 tickets; the owner takes two of them, and the thief three.
fn used(owner: &mut Owner, thief: &mut Thief) -> Result<(), Wrong>
    ensures owner { KeepsOwner owner.old owner.new }
    ensures thief { KeepsThief thief.old thief.new }
{
    for g in 0..20 {
        put(owner, g)?;
    }
    for g in 0..2 {
        pops(owner, g)?;
    }
    for g in 2..5 {
        steals(thief, g)?;
    }
    Ok(())
}

/// A close gives those that nobody took.
pub fn closes(alloc: Global, mut owner: Owner, mut first: Thief, second: Thief) -> Result<(), Wrong>
    requires { AreTheEnds owner (first ∷ second ∷ []) }
{
    used(&mut owner, &mut first)?;
    let out = left(alloc, owner, first, second)?;
    let wanted = (5..20).map(|g| (GNo(g), 1));
    held(out.iter().copied().eq(wanted), Wrong::NotOnce)
}
