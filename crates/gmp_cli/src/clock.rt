//! What is outside a script's run: the clock. What it reads is given beforehand, and one clock serves all machines. Not the machine's own: the
//! trace of a script is the same each time, and a script can show a clock that goes back.

use gmp_base::{Ask, Body, Woke};
use gmp_core::Outside;
use gmp_script::ScriptBody;
use std::marker::Model;

/// A clock with given readings, in nanoseconds.
///
/// A contract sees the readings that are ahead, and the greatest so far.
#[derive(Drop)]
pub(crate) struct Clock {
    readings: Vec<u64>,
    /// The place of the next reading; the number of readings once all are spent.
    next: usize,
    /// Over all readings so far, those of minded deadlines too.
    greatest: u64,
}

impl Model for Clock {
    ghost use Rattle.std.specs.Prelude.{drop};
    ghost use Rattle.gmp_cli.specs.Clock.{ClockState};

    ghost Value = { ClockState };

    ghost view = { λ c. record { ahead = drop c.next c.readings.items; greatest = c.greatest } };
}

impl Clock {
    ghost use Rattle.std.specs.Prelude.{◌≡◌};
    ghost use Rattle.gmp_cli.specs.Clock.{unread};

    /// A clock before its first reading.
    pub(crate) fn of(readings: Vec<u64>) -> Self
        ensures { result ≡ unread readings.items }
    {
        Clock {
            readings,
            next: 0,
            greatest: 0,
        }
    }
}

impl Outside<ScriptBody> for Clock {
    ghost use Rattle.gmp_cli.specs.Plays.{AnswersCommand, AsksCommand, Reads};

    ghost asks = { AsksCommand };

    ghost answers = { AnswersCommand };

    ghost shows = { Reads };

    fn ask(&mut self, body: &mut ScriptBody, woke: Woke, out: &mut Ask) {
        body.resume_into(woke, out);
    }

    fn number(&mut self, body: &mut ScriptBody) -> u64 {
        body.blocking()
    }

    /// The next reading that was given. Once they are spent it is the greatest so far, or the minded deadline where that is greater.
    fn moment(&mut self, minded: Option<u64>) -> u64 {
        let reading = match self.readings.get(self.next) {
            Some(given) => {
                self.next += 1;
                *given
            }
            None => self.greatest.max(minded.unwrap_or(0)),
        };
        self.greatest = self.greatest.max(reading);
        reading
    }
}
