//! One act of a machine: a row of the driver's table, made at the book, at a queue, at the body or at the clock.
//! Frequent acts are asked for and made by a way of their own, and any other by `any_act`.
ghost use Rattle.std.specs.Prelude.{◌≡◌, ◌<◌, ℕ, [], IsSome, Some, length, slice_index_or};
ghost use Rattle.gmp_base.specs.declared.number.PNo.{PNo};
ghost use Rattle.gmp_base.specs.declared.number.Readiness.{Readiness};
ghost use Rattle.gmp_driver.specs.Fits.{IsDriver};
ghost use Rattle.gmp_driver.specs.Seen.{own_processor};
ghost use Rattle.gmp_driver.specs.Table.{next_act};
ghost use Rattle.gmp_turn.specs.Turns.{HasMemory};
ghost use Rattle.gmp_core.specs.Doing.{Does};

use crate::local::{pop, push, steal, tell};
use crate::queues::Queues;
use gmp_acts::Choice;
use gmp_base::MNo;
use gmp_book::Book;
use gmp_driver::{Act, Driver, Frequent, Told};
use gmp_seq::Reply;
use gmp_turn::{frequent_turn, memory_at, surrender, turn};
use std::alloc::Global;

/// Makes the act that machine m's program names next.
#[inline(always)]
pub(crate) fn act<T>(
    alloc: Global,
    driver: &mut Driver<T, ()>,
    book: &mut Book<T, ()>,
    queues: &mut Queues,
    m: MNo,
    choice: &Choice,
)
    requires pass { IsSome driver.old.pass }
    requires run { driver.old.run ≡ book.old.log.run }
    // A ticket to store finds room.
    requires room { (r : Readiness) → driver.old.hand.to_store ≡ Some r → (p : PNo) → own_processor driver.old.hand ≡ Some p
        → (p.0 < length queues.old.queues) × (length (slice_index_or queues.old.queues p.0 []) < queues.old.room) }
    ensures does { Does (next_act driver.old) m choice.now (record { machine = driver.old; book = book.old; rings = queues.old })
        (record { machine = driver.new; book = book.new; rings = queues.new }) }
{
    match driver.frequent() {
        Frequent::Pop => pop(driver, queues, false),
        Frequent::Push => push(driver, queues, choice.push_refused),
        Frequent::Resume => driver.tell_asked(&choice.ask),
        Frequent::Other => any_act(alloc, driver, book, queues, m, choice),
        // The six calls that come most often. Whom to wake is of no use here, where nobody waits in a thread.
        which => {
            let _ = frequent_turn(driver, book, which, choice.word);
        }
    }
}

/// The same, whichever act comes next.
// Not inlined: whoever makes a frequent act looks at no wide one.
#[inline(never)]
fn any_act<T>(
    alloc: Global,
    driver: &mut Driver<T, ()>,
    book: &mut Book<T, ()>,
    queues: &mut Queues,
    m: MNo,
    choice: &Choice,
)
    requires pass { IsSome driver.old.pass }
    requires run { driver.old.run ≡ book.old.log.run }
    // A ticket to store finds room.
    requires room { (r : Readiness) → driver.old.hand.to_store ≡ Some r → (p : PNo) → own_processor driver.old.hand ≡ Some p
        → (p.0 < length queues.old.queues) × (length (slice_index_or queues.old.queues p.0 []) < queues.old.room) }
    ensures does { Does (next_act driver.old) m choice.now (record { machine = driver.old; book = book.old; rings = queues.old })
        (record { machine = driver.new; book = book.new; rings = queues.new }) }
{
    let next = driver.next();
    let memory = memory_at(&next, alloc);
    act_next(memory, next, driver, book, queues, m, choice);
}

/// The same of the act that the program names. A make alone is handed memory.
#[inline(always)]
fn act_next<T>(
    memory: Option<Global>,
    next: Act,
    driver: &mut Driver<T, ()>,
    book: &mut Book<T, ()>,
    queues: &mut Queues,
    m: MNo,
    choice: &Choice,
)
    requires next { next ≡ next_act driver.old }
    requires memory { HasMemory next memory }
    // `Driver::next`, which names the act, says so.
    requires keeps { IsDriver driver.old }
    requires pass { IsSome driver.old.pass }
    requires run { driver.old.run ≡ book.old.log.run }
    requires room { (r : Readiness) → driver.old.hand.to_store ≡ Some r → (p : PNo) → own_processor driver.old.hand ≡ Some p
        → (p.0 < length queues.old.queues) × (length (slice_index_or queues.old.queues p.0 []) < queues.old.room) }
    ensures does { Does next m choice.now (record { machine = driver.old; book = book.old; rings = queues.old })
        (record { machine = driver.new; book = book.new; rings = queues.new }) }
{
    match next {
        Act::Call(call) => {
            let mut reply = Reply::Done;
            let _ = turn(memory, driver, book, &call, choice.word, &mut reply);
        }
        Act::Pop => pop(driver, queues, false),
        Act::Drain => pop(driver, queues, true),
        Act::Push => push(driver, queues, choice.push_refused),
        Act::Hunt => {
            // The first victim is drawn; those after it follow by number, so all queues are looked at.
            let victim = driver.first_victim(choice.word);
            steal(driver, queues, Some(choice.word), victim, choice.unsure);
        }
        Act::Steal(victim) => steal(driver, queues, None, victim, choice.unsure),
        Act::Resume => tell(driver, Told::Asked(choice.ask.copied())),
        Act::Block => tell(driver, Told::Number(choice.number)),
        Act::Clock(_) => tell(driver, Told::Moment(choice.moment)),
        Act::Surrender(which) => {
            let _ = surrender(driver, book, which);
        }
        Act::Nothing => {}
    }
}
