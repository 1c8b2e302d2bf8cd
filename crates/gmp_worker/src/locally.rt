//! One turn of a machine on what it alone holds: a body or the clock.
ghost use Rattle.std.specs.Prelude.{◌≡◌, ℕ, Option, IsSome, is_some};
ghost use Rattle.gmp_base.specs.declared.ask.Ask.{Ask};
ghost use Rattle.gmp_driver.specs.declared.act.Act.TheVariants as act;
ghost use Rattle.gmp_driver.specs.declared.act.Told.TheVariants as told;
ghost use Rattle.gmp_driver.specs.Bodies.{with_body};
ghost use Rattle.gmp_driver.specs.Fits.{IsDriver};
ghost use Rattle.gmp_driver.specs.Table.{after, next_act};
ghost use Rattle.gmp_worker.specs.Local.{CalledWhere, HeldWhere, IsOfBodyOrClock};

use crate::bodies::Runs;
use gmp_base::Ask;
use gmp_driver::{Act, Driver, Frequent, Told};

/// Resumes the body of the goroutine that the driver's machine runs, or makes the blocking call of the one in it, or tells the machine this
/// moment as the clock's reading, whichever the driver names next.
pub fn local_turn<T: Runs, Q>(driver: &mut Driver<T, Q>, moment: u64)
    requires act { IsOfBodyOrClock (next_act driver.old) }
    requires pass { IsSome driver.old.pass }
    ensures resumes { next_act driver.old ≡ act.Resume → HeldWhere driver.old (λ h. (ask : Ask) × (left : _) × T.resumes h.body h.woke ask left × (driver.new ≡ after (with_body driver.old left) (told.Asked ask))) }
    ensures blocks { next_act driver.old ≡ act.Block → CalledWhere driver.old (λ c. (number : ℕ) × (left : _) × T.blocks c.body number left × (driver.new ≡ after (with_body driver.old left) (told.Number number))) }
    ensures reads { (minded : Option ℕ) → next_act driver.old ≡ act.Clock minded → driver.new ≡ after driver.old (told.Moment moment) }
    ensures pass { driver.new.pass ≡ driver.old.pass }
    ensures run { driver.new.run ≡ driver.old.run }
    ensures fair { is_some driver.new.aside ≡ is_some driver.old.aside }
{
    match driver.frequent() {
        Frequent::Resume => resume(driver),
        _ => any_local_turn(driver, moment),
    }
}

/// The same, whichever act comes next.
#[inline(never)]
fn any_local_turn<T: Runs, Q>(driver: &mut Driver<T, Q>, moment: u64)
    requires act { IsOfBodyOrClock (next_act driver.old) }
    requires pass { IsSome driver.old.pass }
    ensures resumes { next_act driver.old ≡ act.Resume → HeldWhere driver.old (λ h. (ask : Ask) × (left : _) × T.resumes h.body h.woke ask left × (driver.new ≡ after (with_body driver.old left) (told.Asked ask))) }
    ensures blocks { next_act driver.old ≡ act.Block → CalledWhere driver.old (λ c. (number : ℕ) × (left : _) × T.blocks c.body number left × (driver.new ≡ after (with_body driver.old left) (told.Number number))) }
    ensures reads { (minded : Option ℕ) → next_act driver.old ≡ act.Clock minded → driver.new ≡ after driver.old (told.Moment moment) }
    ensures pass { driver.new.pass ≡ driver.old.pass }
    ensures run { driver.new.run ≡ driver.old.run }
    ensures fair { is_some driver.new.aside ≡ is_some driver.old.aside }
{
    match driver.next() {
        Act::Resume => resume(driver),
        Act::Block => block(driver),
        Act::Clock(_) => driver.tell(Told::Moment(moment)),
        _ => unreachable!(),
    }
}

/// Resumes the body of the goroutine that runs, and tells the machine what it asks.
fn resume<T: Runs, Q>(driver: &mut Driver<T, Q>)
    requires act { next_act driver.old ≡ act.Resume }
    requires keeps { IsDriver driver.old }
    requires pass { IsSome driver.old.pass }
    ensures resumes { HeldWhere driver.old (λ h. (ask : Ask) × (left : _) × T.resumes h.body h.woke ask left × (driver.new ≡ after (with_body driver.old left) (told.Asked ask))) }
    ensures pass { driver.new.pass ≡ driver.old.pass }
    ensures run { driver.new.run ≡ driver.old.run }
    ensures fair { is_some driver.new.aside ≡ is_some driver.old.aside }
{
    let Some(woke) = driver.woke() else {
        unreachable!()
    };
    let Some(body) = driver.body() else {
        unreachable!()
    };
    let mut ask = Ask::Exit;
    body.goes_on(woke, &mut ask);
    driver.tell_asked(&ask);
}

/// Makes the blocking call of the body in it, and tells the machine the number.
fn block<T: Runs, Q>(driver: &mut Driver<T, Q>)
    requires act { next_act driver.old ≡ act.Block }
    requires keeps { IsDriver driver.old }
    requires pass { IsSome driver.old.pass }
    ensures blocks { CalledWhere driver.old (λ c. (number : ℕ) × (left : _) × T.blocks c.body number left × (driver.new ≡ after (with_body driver.old left) (told.Number number))) }
    ensures pass { driver.new.pass ≡ driver.old.pass }
    ensures run { driver.new.run ≡ driver.old.run }
    ensures fair { is_some driver.new.aside ≡ is_some driver.old.aside }
{
    let number = match driver.body() {
        Some(body) => body.calls(),
        None => unreachable!(),
    };
    driver.tell(Told::Number(number));
}
