//! What a machine gives back once the run is over.
ghost use Rattle.std.specs.Prelude.{◌≡◌, None, Some, Ok, Err, IsNone, IsSome, IfOk, IfErr};
ghost use Rattle.gmp_driver.specs.declared.act.Act.TheVariants as act;
ghost use Rattle.gmp_driver.specs.Fits.{SuitsPlace};
ghost use Rattle.gmp_driver.specs.Table.{next_act};
ghost use Rattle.gmp_journal.specs.Refusals.{refusal_in};
ghost use Rattle.gmp_turn.specs.Surrenders.{Surrenders, book_after, left_after, refusal_back, told_back};

use gmp_base::{Refusal, Refused};
use gmp_book::Book;
use gmp_driver::{Driver, Load, Told, Value, fill};

/// Gives the value back that the driver's machine names next, and tells the driver so, or why the book refused it.
pub fn surrender<T, Q>(
    driver: &mut Driver<T, Q>,
    book: &mut Book<T, Q>,
    which: Option<Value>,
) -> Result<(), Refusal>
    requires act { next_act driver.old ≡ act.Surrender which }
    requires pass { IsSome driver.old.pass }
    ensures surrenders { Surrenders driver.old book.old which result driver.new book.new }
    ensures fits { SuitsPlace driver.new.place driver.new.hand }
    ensures pass { IsSome driver.new.pass }
    ensures run { driver.new.run ≡ driver.old.run }
    ensures log { book.new.log ≡ book.old.log }
{
    let mut load = driver.give();
    let result = give_back(book, which, &mut load);
    driver.got(load, told_back(which, result));
    result
}

/// What the driver is told.
fn told_back(which: Option<Value>, answer: Result<(), Refusal>) -> Told
    ensures { result ≡ told_back which answer }
{
    match (which, answer) {
        (Some(_), Ok(())) => Told::Surrendered,
        (Some(_), Err(why)) => Told::Refused(why),
        (None, _) => Told::Nothing,
    }
}

/// A value that was refused goes back into its register.
fn settled<V>(register: &mut Option<V>, answer: Result<(), Refused<V>>) -> Result<(), Refusal>
    requires { IsNone register.old }
    ensures ok { IfOk answer (λ _. (result ≡ Ok tt) × (register.new ≡ None)) }
    ensures err { IfErr answer (λ r. (result ≡ Err r.why) × (register.new ≡ Some r.back)) }
{
    match answer {
        Ok(()) => Ok(()),
        Err(refused) => {
            let (why, back) = refused.open();
            fill(register, back);
            Err(why)
        }
    }
}

/// Gives this value back, where there is one; refused, it stays.
fn give_back<T, Q>(
    book: &mut Book<T, Q>,
    which: Option<Value>,
    load: &mut Load<T, Q>,
) -> Result<(), Refusal>
    ensures refused { refusal_in result ≡ refusal_back which load.old book.old }
    ensures left { load.new ≡ left_after which result load.old }
    ensures book { book.new ≡ book_after which result load.old book.old }
{
    match which {
        Some(Value::Held) => match load.held.take() {
            Some(held) => settled(&mut load.held, book.surrender_held(held)),
            None => Ok(()),
        },
        Some(Value::Called) => match load.called.take() {
            Some(called) => settled(&mut load.called, book.surrender_called(called)),
            None => Ok(()),
        },
        Some(Value::ToClaim) => match load.to_claim.take() {
            Some(ticket) => settled(&mut load.to_claim, book.surrender_ticket(ticket)),
            None => Ok(()),
        },
        Some(Value::ToStore) => match load.to_store.take() {
            Some(ticket) => settled(&mut load.to_store, book.surrender_ticket(ticket)),
            None => Ok(()),
        },
        Some(Value::Proc) => match load.proc.take() {
            Some(proc) => settled(&mut load.proc, book.surrender_proc(proc)),
            None => Ok(()),
        },
        None => Ok(()),
    }
}
