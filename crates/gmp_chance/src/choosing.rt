//! What a machine's act reads: it is written into a choice.
ghost use Rattle.std.specs.Prelude.{◌≡◌, IsSome};
ghost use Rattle.gmp_acts.specs.System.{machine_at};
ghost use Rattle.gmp_driver.specs.Machine.{held_at};
ghost use Rattle.gmp_driver.specs.Table.{next_act};
ghost use Rattle.gmp_core.specs.Whole.{wanted_by};
ghost use Rattle.gmp_core.specs.Plays.{AnswersNumber, Asks, IsDealt, IsSettled};

use gmp_acts::Choice;
use gmp_base::{Ask, MNo};
use gmp_core::{Core, Outside, Want};

/// Chooses what the machine's next act reads: what its body asks or answers, or what the clock shows.
pub(crate) fn choose<T, O: Outside<T>>(
    core: &mut Core<T>,
    outside: &mut O,
    choice: &mut Choice,
    m: MNo,
    word: u64,
)
    ensures deals { IsDealt O.asks O.answers O.shows (wanted_by (next_act (machine_at core.old.system m))) core.old outside.old m choice.new core.new.stock outside.new }
    ensures settled { IsSettled word choice.new }
    ensures system { core.new.system ≡ core.old.system }
    ensures shelf { core.new.shelf ≡ core.old.shelf }
{
    choice.word = word;
    // What goes wrong between threads doesn't here: no push is refused, and no steal loses a race.
    choice.push_refused = false;
    choice.unsure = false;
    match core.wants(m) {
        Want::Ask => ask(core, outside, m, &mut choice.ask),
        Want::Number => choice.number = number(core, outside, m),
        Want::Moment(minded) => choice.moment = outside.moment(minded),
        Want::Nothing => {}
    }
}

/// Writes what the body in the machine's hand asks next.
fn ask<T, O: Outside<T>>(core: &mut Core<T>, outside: &mut O, m: MNo, out: &mut Ask)
    requires { IsSome (held_at (machine_at core.old.system m).place (machine_at core.old.system m).hand.held) }
    ensures asks { Asks O.asks core.old outside.old m out.new core.new.stock outside.new }
    ensures system { core.new.system ≡ core.old.system }
    ensures shelf { core.new.shelf ≡ core.old.shelf }
{
    let Some(woke) = core.held(m) else {
        unreachable!()
    };
    match core.body(m) {
        Some(body) => outside.ask(body, woke, out),
        None => unreachable!(),
    }
}

/// What the blocking call of the body in the machine's hand answers.
fn number<T, O: Outside<T>>(core: &mut Core<T>, outside: &mut O, m: MNo) -> u64
    requires { IsSome (held_at (machine_at core.old.system m).place (machine_at core.old.system m).hand.held) }
    ensures answers { AnswersNumber O.answers core.old outside.old m result core.new.stock outside.new }
    ensures system { core.new.system ≡ core.old.system }
    ensures shelf { core.new.shelf ≡ core.old.shelf }
{
    match core.body(m) {
        Some(body) => outside.number(body),
        None => unreachable!(),
    }
}
