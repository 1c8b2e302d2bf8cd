//! Turns of the calls that come most often, each compiled apart with its call known (known.rt). In one turn for all calls every local of each
//! arm would be zeroed in each call. None of them reads the word, of which contracts speak.
//!
//! The book's call is inlined into each. A turn that is inlined itself would grow larger than what the toolchain inlines.
ghost use Rattle.std.specs.Prelude.{◌≡◌, true, None, IfSome, IsSome};
ghost use Rattle.gmp_seq.specs.declared.call.Call.{Call as CallValue};
ghost use Rattle.gmp_journal.specs.Frequent.{is_frequent};
ghost use Rattle.gmp_journal.specs.Grants.{NeedsMemory};
ghost use Rattle.gmp_driver.specs.declared.act.Act.TheVariants as act;
ghost use Rattle.gmp_driver.specs.Fits.{SuitsPlace};
ghost use Rattle.gmp_driver.specs.Frequent.{act_of};
ghost use Rattle.gmp_driver.specs.Table.{next_act};
ghost use Rattle.gmp_turn.specs.Turns.{Wakes, is_call};

use crate::calling::woken;
use crate::known::{ClaimCall, Known, PokeCall, RecvCall, SendCall, TakeCall, YieldCall};
use gmp_base::MNo;
use gmp_book::Book;
use gmp_driver::{Driver, Frequent};
use gmp_seq::Reply;

/// Makes the frequent call that the driver's machine names next, tells the driver the reply, or why the book refused it, and answers the
/// machine to wake.
#[inline(always)]
pub fn frequent_turn<T, Q>(
    driver: &mut Driver<T, Q>,
    book: &mut Book<T, Q>,
    which: Frequent,
    word: u64,
) -> Option<MNo>
    requires call { is_call which ≡ true }
    requires act { IfSome (act_of which) (λ named. next_act driver.old ≡ named) }
    requires pass { IsSome driver.old.pass }
    requires run { driver.old.run ≡ book.old.log.run }
    requires keeps { SuitsPlace driver.old.place driver.old.hand }
    ensures turns { (asked : CallValue) → next_act driver.old ≡ act.Call asked → Wakes driver.old book.old asked word result driver.new book.new }
    ensures fits { SuitsPlace driver.new.place driver.new.hand }
    ensures pass { IsSome driver.new.pass }
    ensures run { driver.new.run ≡ book.new.log.run }
{
    match which {
        Frequent::Take => make_known(driver, book, TakeCall, word),
        Frequent::Claim(g, epoch) => make_known(driver, book, ClaimCall(g, epoch), word),
        Frequent::Yield => make_known(driver, book, YieldCall, word),
        Frequent::Poke => make_known(driver, book, PokeCall, word),
        Frequent::Send(c, v) => make_known(driver, book, SendCall(c, v), word),
        Frequent::Recv(c) => make_known(driver, book, RecvCall(c), word),
        Frequent::Pop | Frequent::Push | Frequent::Resume | Frequent::Other => unreachable!(),
    }
}

/// Makes a frequent call that is known where this is compiled.
// Not inlined: whoever makes one frequent call pays for no local of another.
#[inline(never)]
fn make_known<T, Q, C: Known>(
    driver: &mut Driver<T, Q>,
    book: &mut Book<T, Q>,
    known: C,
    word: u64,
) -> Option<MNo>
    requires often { is_frequent (C.call known) ≡ true }
    requires plain { NeedsMemory (C.call known) None }
    requires act { next_act driver.old ≡ act.Call (C.call known) }
    requires pass { IsSome driver.old.pass }
    requires run { driver.old.run ≡ book.old.log.run }
    requires keeps { SuitsPlace driver.old.place driver.old.hand }
    ensures turns { Wakes driver.old book.old (C.call known) word result driver.new book.new }
    ensures fits { SuitsPlace driver.new.place driver.new.hand }
    ensures pass { IsSome driver.new.pass }
    ensures run { driver.new.run ≡ book.new.log.run }
{
    let call = known.call();
    let mut reply = Reply::Done;
    let mut pass = driver.give_pass();
    match book.call_in_hand(
        None,
        &mut pass,
        driver.hand(),
        &call,
        word,
        true,
        &mut reply,
    ) {
        Ok(()) => {
            driver.got_reply(pass, &reply);
            woken(reply)
        }
        Err(why) => {
            driver.got_refusal(pass, why);
            None
        }
    }
}
