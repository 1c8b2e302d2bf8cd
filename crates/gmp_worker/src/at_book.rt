//! One turn of a machine at the book.
ghost use Rattle.std.specs.Prelude.{◌≡◌, None, IfSome, IsSome};
ghost use Rattle.gmp_driver.specs.Fits.{IsDriver};
ghost use Rattle.gmp_driver.specs.Frequent.{act_of};
ghost use Rattle.gmp_driver.specs.Table.{next_act};
ghost use Rattle.gmp_turn.specs.Turns.{HasMemory};
ghost use Rattle.gmp_worker.specs.Turn.{IsAtBook, TakesTurn};

use crate::drawing::draw_for;
use gmp_base::MNo;
use gmp_book::Book;
use gmp_driver::{Act, Driver, Frequent};
use gmp_seq::Reply;
use gmp_turn::{frequent_turn, surrender, woken};
use rand_pcg::Lcg64Xsh32;
use std::alloc::Global;

/// Makes the call of the book or the surrender that the driver's machine names next, and answers the machine to wake. A select draws its
/// word, and a make is handed memory.
pub fn turn<T, Q>(
    memory: Option<Global>,
    driver: &mut Driver<T, Q>,
    book: &mut Book<T, Q>,
    random: &mut Lcg64Xsh32,
) -> Option<MNo>
    requires act { IsAtBook (next_act driver.old) }
    requires memory { HasMemory (next_act driver.old) memory }
    requires pass { IsSome driver.old.pass }
    requires run { driver.old.run ≡ book.old.log.run }
    ensures turn { TakesTurn (next_act driver.old) driver.old book.old random.old result driver.new book.new random.new }
    ensures pass { IsSome driver.new.pass }
    ensures run { driver.new.run ≡ book.new.log.run }
{
    let which = driver.frequent();
    turn_of(memory, driver, book, random, which)
}

/// The same where the act that the driver names is at hand in few bytes, and isn't asked for once more. Where it is known at compile time, the
/// call of its own is made with no match.
#[inline(always)]
pub fn turn_of<T, Q>(
    memory: Option<Global>,
    driver: &mut Driver<T, Q>,
    book: &mut Book<T, Q>,
    random: &mut Lcg64Xsh32,
    which: Frequent,
) -> Option<MNo>
    requires named { IfSome (act_of which) (λ named. next_act driver.old ≡ named) }
    requires act { IsAtBook (next_act driver.old) }
    requires memory { HasMemory (next_act driver.old) memory }
    // `Driver::frequent`, which names the act, says so.
    requires keeps { IsDriver driver.old }
    requires pass { IsSome driver.old.pass }
    requires run { driver.old.run ≡ book.old.log.run }
    ensures turn { TakesTurn (next_act driver.old) driver.old book.old random.old result driver.new book.new random.new }
    ensures pass { IsSome driver.new.pass }
    ensures run { driver.new.run ≡ book.new.log.run }
{
    match which {
        Frequent::Other => rare_turn(memory, driver, book, random),
        Frequent::Pop | Frequent::Push | Frequent::Resume => unreachable!(),
        which => frequent_turn(driver, book, which, 0),
    }
}

/// The same of an act that isn't frequent.
// Not inlined: whoever makes a frequent call looks at no wide one.
#[inline(never)]
fn rare_turn<T, Q>(
    memory: Option<Global>,
    driver: &mut Driver<T, Q>,
    book: &mut Book<T, Q>,
    random: &mut Lcg64Xsh32,
) -> Option<MNo>
    requires act { IsAtBook (next_act driver.old) }
    requires memory { HasMemory (next_act driver.old) memory }
    requires pass { IsSome driver.old.pass }
    requires run { driver.old.run ≡ book.old.log.run }
    ensures turn { TakesTurn (next_act driver.old) driver.old book.old random.old result driver.new book.new random.new }
    ensures pass { IsSome driver.new.pass }
    ensures run { driver.new.run ≡ book.new.log.run }
{
    let act = driver.next();
    turn_by(memory, driver, book, random, &act)
}

/// The same where the act that the driver names is at hand: it is wide, and isn't asked for once more.
#[inline(never)]
pub fn turn_by<T, Q>(
    memory: Option<Global>,
    driver: &mut Driver<T, Q>,
    book: &mut Book<T, Q>,
    random: &mut Lcg64Xsh32,
    act: &Act,
) -> Option<MNo>
    requires next { act.now ≡ next_act driver.old }
    requires act { IsAtBook act.now }
    requires memory { HasMemory act.now memory }
    // `Driver::next`, which names the act, says so.
    requires keeps { IsDriver driver.old }
    requires pass { IsSome driver.old.pass }
    requires run { driver.old.run ≡ book.old.log.run }
    ensures turn { TakesTurn act.now driver.old book.old random.old result driver.new book.new random.new }
    ensures pass { IsSome driver.new.pass }
    ensures run { driver.new.run ≡ book.new.log.run }
{
    let word = draw_for(act, random);
    match act {
        Act::Call(call) => {
            let mut reply = Reply::Done;
            match gmp_turn::turn(memory, driver, book, call, word, &mut reply) {
                Ok(()) => woken(reply),
                Err(_) => None,
            }
        }
        Act::Surrender(which) => {
            let _ = surrender(driver, book, *which);
            None
        }
        _ => unreachable!(),
    }
}
