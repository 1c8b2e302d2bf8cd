//! One act of a machine at the local queues.
ghost use Rattle.std.specs.Prelude.{◌≡◌, IfSome, IsSome};
ghost use Rattle.gmp_driver.specs.declared.act.Act.TheVariants as Act;
ghost use Rattle.gmp_driver.specs.Fits.{IsDriver, SuitsPlace};
ghost use Rattle.gmp_driver.specs.Frequent.{act_of};
ghost use Rattle.gmp_driver.specs.Table.{next_act};
ghost use Rattle.gmp_worker.specs.AtQueue.{IsQueueAct, TurnsOnQueue};
ghost use Rattle.gmp_worker.specs.Drawn.{drawn_for};

use crate::drawing::draw_for;
use crate::trying::{pop, push, steal};
use gmp_driver::{Act, Driver, Frequent};
use gmp_queue::{Owner, Thief};
use rand_pcg::Lcg64Xsh32;

/// Tries once what the driver's machine names next: a pop, a drain or a push at its own queue, or a steal. Then the driver is told what
/// came of it, and holds what its new place says.
///
/// The thieves are this machine's, one for each queue, in order. The first steal of a hunt draws a word, by which its victim is chosen.
pub fn queue_turn<T>(driver: &mut Driver<T, Owner>, thieves: &mut [Thief], random: &mut Lcg64Xsh32)
    requires act { IsQueueAct (next_act driver.old) }
    requires pass { IsSome driver.old.pass }
    ensures turns { TurnsOnQueue driver.old thieves.old (drawn_for (next_act driver.old) random.old).0 driver.new thieves.new }
    ensures random { random.new ≡ (drawn_for (next_act driver.old) random.old).1 }
    ensures fits { SuitsPlace driver.new.place driver.new.hand }
    ensures pass { driver.new.pass ≡ driver.old.pass }
    ensures run { driver.new.run ≡ driver.old.run }
{
    let which = driver.frequent();
    queue_turn_of(driver, thieves, random, which);
}

/// The same where the act that the driver names is at hand in few bytes, and isn't asked for once more.
#[inline(always)]
pub fn queue_turn_of<T>(
    driver: &mut Driver<T, Owner>,
    thieves: &mut [Thief],
    random: &mut Lcg64Xsh32,
    which: Frequent,
)
    requires named { IfSome (act_of which) (λ named. next_act driver.old ≡ named) }
    requires act { IsQueueAct (next_act driver.old) }
    requires keeps { IsDriver driver.old }
    requires pass { IsSome driver.old.pass }
    ensures turns { TurnsOnQueue driver.old thieves.old (drawn_for (next_act driver.old) random.old).0 driver.new thieves.new }
    ensures random { random.new ≡ (drawn_for (next_act driver.old) random.old).1 }
    ensures fits { SuitsPlace driver.new.place driver.new.hand }
    ensures pass { driver.new.pass ≡ driver.old.pass }
    ensures run { driver.new.run ≡ driver.old.run }
{
    match which {
        Frequent::Pop => pop(driver, false),
        Frequent::Push => push(driver),
        _ => any_queue_turn(driver, thieves, random),
    }
}

/// The same, whichever act comes next.
#[inline(never)]
fn any_queue_turn<T>(driver: &mut Driver<T, Owner>, thieves: &mut [Thief], random: &mut Lcg64Xsh32)
    requires act { IsQueueAct (next_act driver.old) }
    requires pass { IsSome driver.old.pass }
    ensures turns { TurnsOnQueue driver.old thieves.old (drawn_for (next_act driver.old) random.old).0 driver.new thieves.new }
    ensures random { random.new ≡ (drawn_for (next_act driver.old) random.old).1 }
    ensures fits { SuitsPlace driver.new.place driver.new.hand }
    ensures pass { driver.new.pass ≡ driver.old.pass }
    ensures run { driver.new.run ≡ driver.old.run }
{
    let act = driver.next();
    let word = draw_for(&act, random);
    match act {
        Act::Pop => pop(driver, false),
        Act::Drain => pop(driver, true),
        Act::Push => push(driver),
        Act::Hunt => hunt(driver, thieves, word),
        Act::Steal(victim) => steal(driver, thieves, None, victim),
        _ => unreachable!(),
    }
}

/// Steals from the first victim of the hunt that begins by this word.
#[inline(never)]
fn hunt<T>(driver: &mut Driver<T, Owner>, thieves: &mut [Thief], word: u64)
    requires next { next_act driver.old ≡ Act.Hunt }
    requires fits { SuitsPlace driver.old.place driver.old.hand }
    ensures turns { TurnsOnQueue driver.old thieves.old word driver.new thieves.new }
    ensures fits { SuitsPlace driver.new.place driver.new.hand }
{
    let first = driver.first_victim(word);
    steal(driver, thieves, Some(word), first);
}
