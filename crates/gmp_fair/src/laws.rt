//! Nobody is passed over for ever. Each law is the contract of a function that does nothing.
ghost use Rattle.std.specs.Prelude.{◌≡◌, ◌<◌, ◌≤◌, ◌+◌, ◌*◌, ℕ, List, length, true};
ghost use Rattle.gmp_base.specs.declared.number.GNo.{GNo};
ghost use Rattle.gmp_base.specs.declared.number.MNo.{MNo};
ghost use Rattle.gmp_base.specs.declared.number.PNo.{PNo};
ghost use Rattle.gmp_base.specs.declared.number.Readiness.{Readiness};
ghost use Rattle.gmp_seq.specs.declared.call.Limits.{Limits};
ghost use Rattle.gmp_seq.specs.declared.call.Call.{Call};
ghost use Rattle.gmp_seq.specs.declared.call.Reply.{Reply};
ghost use Rattle.gmp_seq.specs.Fits.{AreLimits};
ghost use Rattle.gmp_seq.specs.Table.{Table};
ghost use Rattle.gmp_goroutines.specs.Shelf.{Shelves};
ghost use Rattle.gmp_acts.specs.declared.choice.Choice.{Choice};
ghost use Rattle.gmp_acts.specs.Acts.{Acts, ActsAll};
ghost use Rattle.gmp_acts.specs.Headline.{opening_system};
ghost use Rattle.gmp_acts.specs.Sound.{IsSound};
ghost use Rattle.gmp_acts.specs.System.{System, machine_at, queue_at};
ghost use Rattle.gmp_fair.specs.Fair.{AllSteady, InTurn, IsBehind, TicksNever, WaitsAtHome, WaitsInQueue, WaitsOnShelf, claims_of};
ghost use Rattle.gmp_fair.specs.Waits.{Waits};

/// Fair machines at their opening are steady, and each act keeps that.
pub fn acts_keep_steady()
    ensures opening { (run : ℕ) (limits : Limits) (bodies : ℕ) (capacities : List ℕ) → AreLimits limits bodies capacities
        → AllSteady (opening_system true run limits bodies capacities) }
    ensures act { (k : System) (m : MNo) (choice : Choice) (end : System) → IsSound k → AllSteady k → Acts k m choice end → AllSteady end }
{}

/// While a goroutine waits on the shelf behind j others, no machine claims more than 32 * (j + 1) tickets, whatever all machines do, in any
/// order.
pub fn shelf_is_served()
    ensures { (run : ℕ) (limits : Limits) (bodies : ℕ) (capacities : List ℕ) (before : List (MNo × Choice)) (k : System) (g : GNo) (j : ℕ) (shelf : List GNo)
        (moves : List (MNo × Choice)) (end : System) (m : MNo) → AreLimits limits bodies capacities → ActsAll (opening_system true run limits bodies capacities) before k
        → IsBehind j g shelf → WaitsOnShelf g shelf k moves end → m.0 < limits.machines
        → claims_of end m ≤ claims_of k m + 32 * (j + 1) }
{}

/// While a ticket waits in a local queue behind j others, no machine claims more than 32 * procs * (j + 1) tickets, whether a machine holds
/// that queue's processor or none does.
pub fn queues_are_served()
    ensures { (run : ℕ) (limits : Limits) (bodies : ℕ) (capacities : List ℕ) (before : List (MNo × Choice)) (k : System) (p : PNo) (r : Readiness) (j : ℕ)
        (moves : List (MNo × Choice)) (end : System) (m : MNo) → AreLimits limits bodies capacities → ActsAll (opening_system true run limits bodies capacities) before k
        → IsBehind j r (queue_at k p) → WaitsInQueue p r k moves end → m.0 < limits.machines
        → claims_of end m ≤ claims_of k m + 32 * limits.procs * (j + 1) }
{}

/// While a ticket waits in a local queue behind j others, and one machine holds that queue's processor, that machine claims at most
/// 16 * (j + 2) / 15 tickets: of each 16 one may come from elsewhere.
pub fn own_queue_is_served()
    ensures { (run : ℕ) (limits : Limits) (bodies : ℕ) (capacities : List ℕ) (before : List (MNo × Choice)) (k : System) (p : PNo) (r : Readiness) (j : ℕ)
        (moves : List (MNo × Choice)) (end : System) (m : MNo) → AreLimits limits bodies capacities → ActsAll (opening_system true run limits bodies capacities) before k
        → IsBehind j r (queue_at k p) → WaitsAtHome m p r k moves end → m.0 < limits.machines
        → 15 * claims_of end m ≤ 15 * claims_of k m + 16 * (j + 2) }
{}

/// A machine claims at most 16 tickets with no tick between: so deadlines are seen to pass while goroutines are ready as well.
pub fn clock_is_told()
    ensures { (run : ℕ) (limits : Limits) (bodies : ℕ) (capacities : List ℕ) (before : List (MNo × Choice)) (k : System) (moves : List (MNo × Choice)) (end : System) (m : MNo)
        → AreLimits limits bodies capacities → ActsAll (opening_system true run limits bodies capacities) before k → TicksNever m k moves end → m.0 < limits.machines
        → claims_of end m ≤ claims_of k m + 16 }
{}

/// Nobody is passed over for ever: while a goroutine waits on the shelf, no machine claims more than 32 tickets for each goroutine that there
/// is, and while one waits in a local queue, no more than that for each processor. Nothing is said of a ticket in the hand of a machine that
/// makes no act, and of a body that doesn't come back: its goroutine isn't ready.
pub fn nobody_is_passed_over()
    ensures shelf { (run : ℕ) (limits : Limits) (bodies : ℕ) (capacities : List ℕ) (before : List (MNo × Choice)) (k : System) (g : GNo) (shelf : List GNo)
        (moves : List (MNo × Choice)) (end : System) (m : MNo) → AreLimits limits bodies capacities → ActsAll (opening_system true run limits bodies capacities) before k
        → WaitsOnShelf g shelf k moves end → m.0 < limits.machines → claims_of end m ≤ claims_of k m + 32 * bodies }
    ensures queue { (run : ℕ) (limits : Limits) (bodies : ℕ) (capacities : List ℕ) (before : List (MNo × Choice)) (k : System) (p : PNo) (r : Readiness)
        (moves : List (MNo × Choice)) (end : System) (m : MNo) → AreLimits limits bodies capacities → ActsAll (opening_system true run limits bodies capacities) before k
        → WaitsInQueue p r k moves end → m.0 < limits.machines → claims_of end m ≤ claims_of k m + 32 * limits.procs * bodies }
{}

/// The whole wait, from the moment on when a goroutine is ready until it is claimed: while the run lasts, no machine claims more than
/// 32 * (procs + 1) tickets for each goroutine that there is, while the ticket stands in lines. It is in one queue at most, then on the shelf
/// at most once, and then in a hand that claims it; in a hand it waits for the next acts of that machine alone.
pub fn whole_wait_is_bounded()
    ensures { (run : ℕ) (limits : Limits) (bodies : ℕ) (capacities : List ℕ) (before : List (MNo × Choice)) (k : System) (r : Readiness) (shelf : List GNo)
        (moves : List (MNo × Choice)) (count : ℕ) (end : System) (m : MNo) → AreLimits limits bodies capacities → ActsAll (opening_system true run limits bodies capacities) before k
        → Waits m r shelf k moves count end → m.0 < limits.machines → count ≤ 32 * (limits.procs + 1) * bodies }
{}

/// The book's shelf is first in, first out: so it is a shelf as these laws take it to be.
pub fn shelf_is_in_turn()
    ensures { (call : Call) (answer : Reply) (t now : Table) (old new : List GNo) → Shelves call answer t now old new → InTurn old new }
{}
