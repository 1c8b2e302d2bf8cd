//! The rows of the table that say where an act at a local queue leads. Apart from table.rt, since they are told by `QueueTold`, and an act
//! at a queue made in place needs no other row.
ghost use Rattle.std.specs.Prelude.{◌≡◌, ◌≤◌};
ghost use Rattle.gmp_base.specs.declared.ask.Ask.{Ask};
ghost use Rattle.gmp_driver.specs.Local.{told_of};
ghost use Rattle.gmp_driver.specs.Spot.{place_of};
ghost use Rattle.gmp_driver.specs.Table as table;

use crate::act::{QueueTold, Tried};
use crate::hunt::more;
use crate::place::Round;
use crate::seen::Seen;
use crate::spot::Spot;
use crate::table::{is_late, scanned};

/// Goes where what came of an act at a local queue leads. What isn't in the row of the place leaves it: a scan that lost its race looks
/// into the same queue again.
#[inline(always)]
pub(crate) fn go_on_at_queue(here: &mut Spot, seen: Seen, told: QueueTold)
    requires { 1 ≤ seen.procs }
    ensures { (beside : Ask) → place_of here.new beside ≡ table.next_place seen (place_of here.old beside) (told_of told) }
{
    match (*here, told) {
        // The own queue: what was found is claimed, or stored where the processor is given up.
        (Spot::Look, QueueTold::Popped(false)) => *here = Spot::Claim,
        (Spot::Look, QueueTold::Empty) => *here = Spot::Global,
        (Spot::Drain, QueueTold::Popped(true)) => *here = Spot::PutDrain,
        (Spot::Drain, QueueTold::Empty) => *here = Spot::Drop,
        // A hunt: its first act told the word that it drew, and every other knows its round.
        (Spot::Hunt, QueueTold::Stole(Some(word), tried)) => {
            *here = seen.hunted(seen.begin(word), tried);
        }
        (Spot::HuntOn(number, word), QueueTold::Stole(None, tried)) => {
            *here = seen.hunted(Round { word, number }, tried);
        }
        // More of the same victim. A race that is lost ends it, since one ticket to claim is in hand.
        (Spot::More(v, goal), QueueTold::Stole(None, Tried::Got(_))) => {
            *here = Spot::StoreMore(v, goal.saturating_sub(1));
        }
        (Spot::More(_, _), QueueTold::Stole(None, _)) => *here = Spot::Unspin,
        (Spot::StoreMore(v, goal), QueueTold::Pushed) => *here = more(v, goal),
        (Spot::StoreMore(v, goal), QueueTold::PushRefused) => *here = Spot::PutMore(v, goal),
        (Spot::Store, QueueTold::Pushed) => *here = Spot::Poke,
        (Spot::Store, QueueTold::PushRefused) => *here = Spot::PutStore,
        // A look aside. A race that is lost is tried again.
        (Spot::Peek(_), QueueTold::Stole(None, Tried::Got(_))) => *here = Spot::Claim,
        (Spot::Peek(_), QueueTold::Stole(None, Tried::Empty)) => *here = Spot::Look,
        // The last look, without a processor. Who is late gives what it found to the shelf.
        (Spot::Scan(_), QueueTold::Stole(None, Tried::Got(_))) if is_late(seen) => *here =
            Spot::PutHave,
        (Spot::Scan(_), QueueTold::Stole(None, Tried::Got(_))) => *here = Spot::Have,
        (Spot::Scan(v), QueueTold::Stole(None, Tried::Empty)) => *here = scanned(seen.procs, v),
        (_, _) => {}
    }
}
