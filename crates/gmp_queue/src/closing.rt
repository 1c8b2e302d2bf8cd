//! Takes what is left in a queue, once its machines are done. It needs all ends of the queue, so no other thread is at it.
ghost use Rattle.std.specs.Prelude.{◌≡◌, [], IfErr, IfOk};
ghost use Rattle.gmp_queue.specs.Queue.{FoundNone};
ghost use Rattle.gmp_queue.specs.Ends.{owner_view, AreTheEnds, SameOwner};
ghost use Rattle.gmp_queue.specs.Closed.{ClosesQueue, Drains, Gathers, GivesBack};

use crate::ends::{Owner, Thief};
use gmp_base::GNo;
use std::alloc::AllocError;

/// Appends what is left in the queue, in order. Where memory runs out the ends come back, with the rest in the queue, and what was appended
/// stays. It waits for nobody, since it has every end.
///
/// It drains, takes in what the thieves know, and drains again. To take that in first would leave no thieves to give back where memory is
/// refused at a ticket.
pub fn close(
    mut owner: Owner,
    mut thieves: Vec<Thief>,
    out: &mut Vec<(GNo, u64)>,
) -> Result<(), (Owner, Vec<Thief>)>
    requires { AreTheEnds owner thieves.items }
    ensures closed { IfOk result (λ _. ClosesQueue owner thieves.items out.old.items out.new.items) }
    ensures back { IfErr result (λ ends. GivesBack owner thieves.items out.old.items out.new.items ends.0 ends.1.items) }
{
    if drain(&mut owner, out).is_err() {
        return Err((owner, thieves));
    }
    gather(&mut owner, &mut thieves);
    // The owner has every part now, and knows where it finds none that nothing is left.
    match drain(&mut owner, out) {
        Ok(()) => Ok(()),
        Err(AllocError) => Err((owner, thieves)),
    }
}

// Takes tickets until the queue is empty or memory runs out. The loop ends since nobody pushes: the owner is here. Room for a ticket is
// there before it is popped, so that none is out of the queue with no place to go.
fn drain(owner: &mut Owner, out: &mut Vec<(GNo, u64)>) -> Result<(), AllocError>
    ensures same { SameOwner owner.old owner.new }
    ensures drains { Drains (owner_view owner.old) (owner_view owner.new) out.old.items out.new.items }
    ensures none { IfOk result (λ _. FoundNone (owner_view owner.new)) }
{
    loop {
        out.reserve(1)?;
        let Some(ticket) = owner.pop() else {
            return Ok(());
        };
        let (_, g, epoch) = ticket.open();
        out.push_reserved((g, epoch));
    }
}

// The owner takes in all that its thieves have taken, and their parts. The loop ends with the last of them, and waits for none: each was
// handed over.
fn gather(owner: &mut Owner, thieves: &mut Vec<Thief>)
    requires { AreTheEnds owner.old thieves.old.items }
    ensures same { SameOwner owner.old owner.new }
    ensures view { Gathers (owner_view owner.old) thieves.old.items (owner_view owner.new) }
    ensures none { thieves.new.items ≡ [] }
{
    while !thieves.is_empty() {
        let thief = thieves.remove(0);
        owner.absorb(thief);
    }
}
