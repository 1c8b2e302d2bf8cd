//! Queues of run 7, whose tickets have the numbers from 0 up, each with epoch 1. A row says what is tried: `keep`, `count`, `close` or `steal`.
ghost use Rattle.std.specs.Prelude.{[], ◌∷◌, IfSome};
ghost use Rattle.gmp_queue.specs.Ends.{AreTheEnds, KeepsOwner, KeepsThief};

mod keeping;
mod stealing;

use crate::wrong::{Wrong, held};
use gmp_base::{GNo, Ticket};
use gmp_queue::{Owner, Stole, Thief, close, open};
use std::alloc::Global;
use std::thread::Threads;

/// How many tickets are put at most.
const TICKETS: u16 = 4096;

fn ticket(g: u16) -> Ticket {
    Ticket::of(7, GNo(g), 1)
}

/// Its goroutine's number.
fn spend(ticket: Ticket) -> u16 {
    let (_, g, _) = ticket.open();
    g.0
}

/// A queue with two thieves.
fn queue_of_two(alloc: Global) -> Option<(Owner, Thief, Thief)>
    ensures { IfSome result (λ q. AreTheEnds q.0 (q.1 ∷ q.2 ∷ [])) }
{
    let Ok((mut owners, mut rows)) = open(alloc, 7, 1, 2) else {
        return None;
    };
    let owner = owners.pop()?;
    let mut second = rows.pop()?;
    let mut first = rows.pop()?;
    let two = second.pop()?;
    let one = first.pop()?;
    Some((owner, one, two))
}

/// The ticket goes last.
fn put(owner: &mut Owner, g: u16) -> Result<(), Wrong>
    ensures { KeepsOwner owner.old owner.new }
{
    match owner.push(ticket(g)) {
        Ok(()) => Ok(()),
        Err(back) => Err(Wrong::Number("ticket not put", u64::from(spend(back)))),
    }
}

/// The owner takes this ticket.
fn pops(owner: &mut Owner, g: u16) -> Result<(), Wrong>
    ensures { KeepsOwner owner.old owner.new }
{
    held(
        owner.pop().map(spend) == Some(g),
        Wrong::Number("ticket not in its turn", u64::from(g)),
    )
}

/// The thief takes this ticket.
fn steals(thief: &mut Thief, g: u16) -> Result<(), Wrong>
    ensures { KeepsThief thief.old thief.new }
{
    match thief.steal() {
        Stole::Got(ticket) => held(
            spend(ticket) == g,
            Wrong::Number("ticket not in its turn", u64::from(g)),
        ),
        Stole::Empty | Stole::Unsure => Err(Wrong::Number("ticket not in its turn", u64::from(g))),
    }
}

/// What was left in the queue, which is closed.
fn left(alloc: Global, owner: Owner, first: Thief, second: Thief) -> Result<Vec<(GNo, u64)>, Wrong>
    requires { AreTheEnds owner (first ∷ second ∷ []) }
{
    let mut thieves = Vec::new(alloc);
    thieves.reserve(2)?;
    thieves.push_reserved(first);
    thieves.push_reserved(second);
    let mut out = Vec::new(alloc);
    match close(owner, thieves, &mut out) {
        Ok(()) => Ok(out),
        Err(_) => Err(Wrong::NotClosed),
    }
}

/// Tries the row.
pub fn tried<R: Threads + Sync>(rt: &R, alloc: Global, row: &str) -> Result<(), Wrong> {
    let Some((owner, first, second)) = queue_of_two(alloc) else {
        return Err(Wrong::NotBegun);
    };
    match row {
        "keep" => keeping::keeps(owner, first),
        "count" => keeping::counts(owner, first, &second),
        "close" => keeping::closes(alloc, owner, first, second),
        "steal" => stealing::steals_once(rt, alloc, owner, first, second),
        _ => Err(Wrong::Unreadable),
    }
}
