//! One book call of one machine.
ghost use Rattle.std.specs.Prelude.{◌≡◌, None, IsSome};
ghost use Rattle.gmp_driver.specs.declared.act.Act.TheVariants as act;
ghost use Rattle.gmp_driver.specs.Fits.{SuitsPlace};
ghost use Rattle.gmp_driver.specs.Table.{next_act};
ghost use Rattle.gmp_journal.specs.Grants.{NeedsMemory};
ghost use Rattle.gmp_turn.specs.Turns.{HasMemory, Turns, replied, woken_in};

use crate::known::{EnterCall, Known, LeaveCall, SleepCall, TickCall};
use gmp_base::{MNo, Refusal};
use gmp_book::Book;
use gmp_driver::{Act, Driver};
use gmp_journal::memory_for;
use gmp_seq::{Call, Reply};
use std::alloc::Global;

/// Makes the call that the driver's machine names next, with what the machine holds, and tells the driver the reply, which is written in
/// place, or why the book refused the call. A make is handed memory, and `word` chooses among the cases of a select. The driver holds what
/// its new place says.
// Both are of one run, which callers keep in their types: a run beside each register would be eight bytes each, for what no caller does.
// Calls that come often, if less so than the frequent ones, are known where their turns are compiled.
pub fn turn<T, Q>(
    memory: Option<Global>,
    driver: &mut Driver<T, Q>,
    book: &mut Book<T, Q>,
    call: &Call,
    word: u64,
    out: &mut Reply,
) -> Result<(), Refusal>
    requires act { next_act driver.old ≡ act.Call call.now }
    requires memory { NeedsMemory call.now memory }
    requires pass { IsSome driver.old.pass }
    requires run { driver.old.run ≡ book.old.log.run }
    // `Driver::next`, which names the call, says so.
    requires keeps { SuitsPlace driver.old.place driver.old.hand }
    ensures turns { Turns driver.old book.old call.now word (replied out.new result) driver.new book.new }
    ensures fits { SuitsPlace driver.new.place driver.new.hand }
    ensures pass { IsSome driver.new.pass }
    ensures run { driver.new.run ≡ book.new.log.run }
{
    match call {
        Call::Enter => known_turn(driver, book, EnterCall, word, out),
        Call::Leave(number) => known_turn(driver, book, LeaveCall(*number), word, out),
        Call::Sleep(until) => known_turn(driver, book, SleepCall(*until), word, out),
        Call::Tick(moment) => known_turn(driver, book, TickCall(*moment), word, out),
        _ => any_turn(memory, driver, book, call, word, out),
    }
}

/// The same of a call that is known where this is compiled.
// Not inlined, here and below: whoever makes one call pays for no local of another.
#[inline(never)]
fn known_turn<T, Q, C: Known>(
    driver: &mut Driver<T, Q>,
    book: &mut Book<T, Q>,
    known: C,
    word: u64,
    out: &mut Reply,
) -> Result<(), Refusal>
    requires plain { NeedsMemory (C.call known) None }
    requires act { next_act driver.old ≡ act.Call (C.call known) }
    requires pass { IsSome driver.old.pass }
    requires run { driver.old.run ≡ book.old.log.run }
    requires keeps { SuitsPlace driver.old.place driver.old.hand }
    ensures turns { Turns driver.old book.old (C.call known) word (replied out.new result) driver.new book.new }
    ensures fits { SuitsPlace driver.new.place driver.new.hand }
    ensures pass { IsSome driver.new.pass }
    ensures run { driver.new.run ≡ book.new.log.run }
{
    let call = known.call();
    let mut pass = driver.give_pass();
    match book.call_in_hand(None, &mut pass, driver.hand(), &call, word, false, out) {
        Ok(()) => {
            driver.got_reply(pass, out);
            Ok(())
        }
        Err(why) => {
            driver.got_refusal(pass, why);
            Err(why)
        }
    }
}

/// The same, whichever call it is.
#[inline(never)]
fn any_turn<T, Q>(
    memory: Option<Global>,
    driver: &mut Driver<T, Q>,
    book: &mut Book<T, Q>,
    call: &Call,
    word: u64,
    out: &mut Reply,
) -> Result<(), Refusal>
    requires act { next_act driver.old ≡ act.Call call.now }
    requires memory { NeedsMemory call.now memory }
    requires pass { IsSome driver.old.pass }
    requires run { driver.old.run ≡ book.old.log.run }
    requires keeps { SuitsPlace driver.old.place driver.old.hand }
    ensures turns { Turns driver.old book.old call.now word (replied out.new result) driver.new book.new }
    ensures fits { SuitsPlace driver.new.place driver.new.hand }
    ensures pass { IsSome driver.new.pass }
    ensures run { driver.new.run ≡ book.new.log.run }
{
    let mut pass = driver.give_pass();
    match book.call_in_hand(memory, &mut pass, driver.hand(), call, word, false, out) {
        Ok(()) => {
            driver.got_reply(pass, out);
            Ok(())
        }
        Err(why) => {
            driver.got_refusal(pass, why);
            Err(why)
        }
    }
}

/// The memory that an act is handed: a make has some, and no other act any.
// No turn has an allocator of its own, so that whatever takes memory is seen where it is handed in.
#[inline(always)]
pub fn memory_at(act: &Act, alloc: Global) -> Option<Global>
    ensures { HasMemory act.now result }
{
    match act {
        Act::Call(call) => memory_for(call, alloc),
        _ => None,
    }
}

/// The machine that a reply names to wake.
#[inline(always)]
pub fn woken(reply: Reply) -> Option<MNo>
    ensures { result ≡ woken_in reply }
{
    match reply {
        Reply::Wakes(m) => Some(m),
        Reply::Entered(_, m) => m,
        _ => None,
    }
}
