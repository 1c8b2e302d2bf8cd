//! What a machine's act reads: it is written into a choice.
ghost use Rattle.std.specs.Prelude.{◌≡◌, IsSome};
ghost use Rattle.gmp_core.specs.declared.want.Want.TheVariants as Want;
ghost use Rattle.gmp_core.specs.Plays.{IsSettled};
ghost use Rattle.gmp_stand.specs.Turns.{IsDealt};

use crate::event::Handed;
use gmp_acts::Choice;
use gmp_core::Want;

/// Writes what an act that wants this reads, which was handed in. An ask and an answer are handed on, and are left no more.
pub(crate) fn deal(want: Want, handed: &mut Handed, choice: &mut Choice)
    requires ask { want ≡ Want.Ask → IsSome handed.old.ask }
    requires number { want ≡ Want.Number → IsSome handed.old.number }
    ensures dealt { IsDealt want handed.old choice.new handed.new }
    ensures settled { IsSettled handed.old.word choice.new }
{
    choice.word = handed.word;
    // What goes wrong between threads doesn't here: no push is refused, and no steal loses a race.
    choice.push_refused = false;
    choice.unsure = false;
    match want {
        Want::Ask => {
            if let Some(ask) = handed.ask.take() {
                choice.ask = ask;
            }
        }
        Want::Number => {
            if let Some(number) = handed.number.take() {
                choice.number = number;
            }
        }
        Want::Moment(_) => choice.moment = handed.moment,
        Want::Nothing => {}
    }
}
