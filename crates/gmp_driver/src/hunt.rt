//! From whom a machine steals, and how many tickets (Scalable Go Scheduler Design Doc, Scheduling: a random victim, and half of what it
//! has; a fair machine takes one). A steal takes one ticket; the goal says how many follow.
ghost use Rattle.std.specs.Prelude.{◌≡◌, ◌≤◌, ◌<◌};
ghost use Rattle.gmp_base.specs.declared.ask.Ask.{Ask};
ghost use Rattle.gmp_driver.specs.Hunt as hunt;
ghost use Rattle.gmp_driver.specs.Spot.{place_of};

use crate::act::Tried;
use crate::place::Round;
use crate::seen::Seen;
use crate::spot::Spot;
use gmp_base::PNo;

/// How many tickets a machine that is not fair steals from a queue that is said to have so many: half of them, rounded up, at least one, and
/// 16 at most. The hint may be old, so the goal is a wish; the bound of 16 is the project's own.
pub fn steal_goal(hint: u32) -> u8
    ensures goal { result ≡ hunt.steal_goal hint }
    ensures some { 1 ≤ result }
    ensures few { result ≤ 16 }
{
    ((u64::from(hint) + 1) / 2).min(16).max(1) as u8
}

/// The victim of this number in a hunt's order. It is below the number of processors, by the last remainder.
pub(crate) fn victim(procs: u8, word: u64, number: u8) -> PNo
    requires { 1 ≤ procs }
    ensures { result ≡ hunt.victim procs word number }
{
    let procs = u64::from(procs);
    PNo(((word % procs + u64::from(number)) % procs) as u8)
}

/// The victim at which a hunt stands.
pub(crate) fn victim_of(procs: u8, round: Round) -> PNo
    requires { 1 ≤ procs }
    ensures { result ≡ hunt.victim_of procs round }
{
    victim(procs, round.word, round.number)
}

/// Steals once more from this victim, unless that were none.
pub(crate) fn more(v: PNo, goal: u8) -> Spot
    ensures { (beside : Ask) → place_of result beside ≡ hunt.more v goal }
{
    if goal == 0 {
        Spot::Unspin
    } else {
        Spot::More(v, goal)
    }
}

impl Seen {
    /// This number of the order, or the next one, where it is the own processor's.
    fn skipped(self, word: u64, number: u8) -> u8
        requires some { 1 ≤ self.procs }
        requires within { number < 255 }
        ensures { result ≡ hunt.skipped self word number }
    {
        match self.own {
            Some(own) if own.0 == victim(self.procs, word, number).0 => number + 1,
            _ => number,
        }
    }

    /// The hunt that begins by this word.
    pub(crate) fn begin(self, word: u64) -> Round
        requires { 1 ≤ self.procs }
        ensures { result ≡ hunt.begun self word }
    {
        Round {
            word,
            number: self.skipped(word, 0),
        }
    }

    /// The hunt goes on at this number of its order, and ends after the last: then it found nothing.
    fn hunt_on(self, word: u64, number: u8) -> Spot
        requires { 1 ≤ self.procs }
        ensures { (beside : Ask) → place_of result beside ≡ hunt.hunt_on self word number }
    {
        if number >= self.procs {
            return Spot::Unspin;
        }
        let number = self.skipped(word, number);
        if number < self.procs {
            Spot::HuntOn(number, word)
        } else {
            Spot::Unspin
        }
    }

    /// How many tickets a hunt takes from a queue that is said to have so many. A fair machine takes one: so no ticket goes from queue to
    /// queue, where each time others might stand before it.
    fn hunt_goal(self, hint: u32) -> u8
        ensures goal { result ≡ hunt.hunt_goal self.aside hint }
        ensures some { 1 ≤ result }
    {
        match self.aside {
            None => steal_goal(hint),
            Some(_) => 1,
        }
    }

    /// Where a try of a hunt leads: with a ticket to more of the same victim, where the goal is more, with none to the next one. A race that
    /// was lost is tried again, since it says nothing of whether the queue is empty; it was lost to one who has the ticket.
    pub(crate) fn hunted(self, round: Round, tried: Tried) -> Spot
        requires { 1 ≤ self.procs }
        ensures { (beside : Ask) → place_of result beside ≡ hunt.hunted self round tried }
    {
        match tried {
            Tried::Got(hint) => more(victim_of(self.procs, round), self.hunt_goal(hint) - 1),
            Tried::Empty if round.number < self.procs => self.hunt_on(round.word, round.number + 1),
            Tried::Empty => Spot::Unspin,
            Tried::Unsure => Spot::HuntOn(round.number, round.word),
        }
    }
}
