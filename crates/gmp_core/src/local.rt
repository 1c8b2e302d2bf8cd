//! Acts of a machine on local queues, and what it is told of its body and of the clock.
//! Each is made where the machine holds what it holds: taking all out of the driver and putting it back would cost far more than a pop that
//! finds nothing.
ghost use Rattle.std.specs.Prelude.{◌≡◌, ◌<◌, [], Some, length, slice_index_or, IsSome};
ghost use Rattle.gmp_base.specs.declared.number.PNo.{PNo};
ghost use Rattle.gmp_base.specs.declared.number.Readiness.{Readiness};
ghost use Rattle.gmp_driver.specs.declared.act.Act.TheVariants as Act;
ghost use Rattle.gmp_driver.specs.Fits.{SuitsPlace};
ghost use Rattle.gmp_driver.specs.Local.{IsSteal, MayCome, pop_for};
ghost use Rattle.gmp_driver.specs.Seen.{own_processor};
ghost use Rattle.gmp_driver.specs.Table.{after, next_act};
ghost use Rattle.gmp_acts.specs.Acts.{own_taken, pushed, stolen};
ghost use Rattle.gmp_acts.specs.Hands.{plain_machine};
ghost use Rattle.gmp_core.specs.Local.{IsTold, KeepsHand};

use crate::queues::Queues;
use gmp_base::PNo;
use gmp_driver::{Driver, QueueTold, Told, Tried};

/// Tells the machine what its body asked, what its blocking call answered, or what the clock showed. It holds what it held.
pub(crate) fn tell<T>(driver: &mut Driver<T, ()>, what: Told)
    requires next { IsTold (next_act driver.old) }
    requires may { MayCome (next_act driver.old) what }
    requires pass { IsSome driver.old.pass }
    requires fits { SuitsPlace driver.old.place driver.old.hand }
    ensures told { driver.new ≡ after driver.old what }
    ensures fits { SuitsPlace driver.new.place driver.new.hand }
{
    driver.tell(what);
}

/// The machine takes the first ticket of its own queue, which is one to claim, or one to store, or finds none.
/// Which of the two the caller says by `is_to_store`: a drain sends what it finds to the shelf.
pub(crate) fn pop<T>(driver: &mut Driver<T, ()>, queues: &mut Queues, is_to_store: bool)
    requires next { next_act driver.old ≡ pop_for is_to_store }
    requires fits { SuitsPlace driver.old.place driver.old.hand }
    ensures acts { (plain_machine driver.new, queues.new.queues) ≡ own_taken is_to_store (plain_machine driver.old) queues.old.queues }
    ensures hand { KeepsHand driver.old.hand driver.new.hand }
    ensures fits { SuitsPlace driver.new.place driver.new.hand }
    ensures pass { driver.new.pass ≡ driver.old.pass }
    ensures room { queues.new.room ≡ queues.old.room }
{
    // Who pops has a processor, by its place.
    let Some(p) = driver.processor() else {
        unreachable!()
    };
    match queues.pop(p) {
        Some(r) => driver.tell_found(r, is_to_store, QueueTold::Popped(is_to_store)),
        None => driver.tell_queue(QueueTold::Empty),
    }
}

/// The machine takes the first ticket of a victim's queue, or finds none, or loses the race. The queue's length before is told with the
/// ticket.
/// A lost race is the choice's `unsure`: no other machine acts meanwhile, so the race is told and not run.
pub(crate) fn steal<T>(
    driver: &mut Driver<T, ()>,
    queues: &mut Queues,
    drawn: Option<u64>,
    victim: PNo,
    unsure: bool,
)
    requires next { IsSteal (next_act driver.old) drawn }
    requires fits { SuitsPlace driver.old.place driver.old.hand }
    ensures acts { (plain_machine driver.new, queues.new.queues) ≡ stolen (plain_machine driver.old) drawn queues.old.queues victim unsure }
    ensures hand { KeepsHand driver.old.hand driver.new.hand }
    ensures fits { SuitsPlace driver.new.place driver.new.hand }
    ensures pass { driver.new.pass ≡ driver.old.pass }
    ensures room { queues.new.room ≡ queues.old.room }
{
    if unsure {
        driver.tell_queue(QueueTold::Stole(drawn, Tried::Unsure));
        return;
    }
    let has_to_claim = driver.has_to_claim();
    // Before the pop: a thief of threads reads the length first, too.
    let hint = queues.len(victim);
    match queues.pop(victim) {
        Some(r) => {
            let told = QueueTold::Stole(drawn, Tried::Got(hint));
            driver.tell_found(r, has_to_claim, told);
        }
        None => driver.tell_queue(QueueTold::Stole(drawn, Tried::Empty)),
    }
}

/// The machine's ticket to store goes last on its own queue, unless the push is refused.
/// A refused push is the choice's `push_refused`: the ticket then stays in hand, to be put onto the shelf.
pub(crate) fn push<T>(driver: &mut Driver<T, ()>, queues: &mut Queues, refused: bool)
    requires next { next_act driver.old ≡ Act.Push }
    requires fits { SuitsPlace driver.old.place driver.old.hand }
    requires room { (r : Readiness) → driver.old.hand.to_store ≡ Some r → (p : PNo) → own_processor driver.old.hand ≡ Some p
        → (p.0 < length queues.old.queues) × (length (slice_index_or queues.old.queues p.0 []) < queues.old.room) }
    ensures acts { (plain_machine driver.new, queues.new.queues) ≡ pushed (plain_machine driver.old) queues.old.queues driver.old.hand.to_store refused }
    ensures hand { KeepsHand driver.old.hand driver.new.hand }
    ensures fits { SuitsPlace driver.new.place driver.new.hand }
    ensures pass { driver.new.pass ≡ driver.old.pass }
    ensures room { queues.new.room ≡ queues.old.room }
{
    if refused {
        driver.tell_queue(QueueTold::PushRefused);
        return;
    }
    let Some(p) = driver.processor() else {
        unreachable!()
    };
    let Some(r) = driver.to_store() else {
        unreachable!()
    };
    queues.push(p, r);
    driver.tell_stored(QueueTold::Pushed);
}
