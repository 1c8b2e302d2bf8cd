//! What a run is handed: a `Clock`, a `Gate` that each act passes (`Open` is the gate of a run that is not tested), and a `Sink`, which takes
//! the history of a run that has less room than entries (`Whole` is that of a run whose history is kept whole).
//! Clock and gate are shared by all threads at once, and neither is ever called with the lock held. The sink lies under the lock.

use crossbeam_utils::sync::Parker;
use gmp_base::MNo;
use gmp_driver::Act;
use gmp_history::History;

/// The longest rest that is asked of a clock, in nanoseconds.
pub const MOST_REST: u64 = 10_000_000;

/// The time in nanoseconds, from whatever start.
pub trait Clock {
    ghost use Rattle.std.specs.Prelude.{◌≤◌};

    /// The present reading. It may stand or go back: the book takes the greatest so far.
    fn now(&self) -> u64;

    /// Rests for at most so many nanoseconds. A machine that looks for work rests so too, between two looks.
    fn rest(&self, most: u64)
        requires { most ≤ 10000000 };

    /// Waits for at most so many nanoseconds, or until this machine is called, which the parker is told. It may come back at any time. A
    /// clock that knows no parker rests: its machine hears of a call at the end of the rest.
    fn wait(&self, parker: &Parker, most: u64) {
        let _ = parker;
        self.rest(most.min(MOST_REST));
    }
}

/// Told of each act before it is made, with no lock held. It may hold the machine up.
pub trait Gate {
    /// Machine m makes this act next. It may wait here for acts of other machines, but each of those can be at its park and make none.
    fn before(&self, m: MNo, act: &Act);

    /// Whether it holds nobody up, whatever the act, throughout the run. Then acts may be made of which it isn't told, several under one
    /// hold of the lock, and bodies be resumed under it where all other machines are parked.
    fn is_open(&self) -> bool {
        false
    }

    /// Whether machine m is let in, asked before its thread is started. One that isn't is left out, as where its thread can't be started.
    /// Machine 0, which runs on the calling thread, is let in unasked.
    fn admits(&self, m: MNo) -> bool {
        let _ = m;
        true
    }
}

/// The sink takes no more: the run is to stop.
#[derive(Clone, Copy, Debug, PartialEq, Eq)]
pub struct Stop;

/// Takes the history of a run piece by piece: all entries so far, each time that there is no room for another.
///
/// It is called with the lock held, since the run can't go on before it has taken them: a sink that is slow stops the run. One whose work
/// takes long swaps the history with an empty one of its own, and leaves the work to a thread of its own. One that can't take the entries
/// leaves them as they are and stops the run, which has no outcome then.
pub trait Sink {
    ghost use Rattle.std.specs.Prelude.{◌≡◌, ◌≤◌, [], List, OnErr, OnOk};
    ghost use Rattle.gmp_seq.specs.declared.call.Entry.{Entry};

    /// From the sink before, by these entries, to the sink after.
    ghost takes: { Self → List Entry → Self → Type 0 };

    /// From the sink before, which didn't take these entries, to the sink after.
    ghost refuses: { Self → List Entry → Self → Type 0 };

    /// Takes the entries, which go on where those of the call before stop, and leaves none in their place, and as much room as lasted.
    fn take(&mut self, history: &mut History) -> Result<(), Stop>
        ensures takes { OnOk result (takes self.old history.old.list self.new) }
        ensures empty { OnOk result (history.new.list ≡ []) }
        ensures room { OnOk result (history.old.lasting ≤ history.new.room) }
        ensures lasting { OnOk result (history.old.lasting ≤ history.new.lasting) }
        ensures stops { OnErr result (refuses self.old history.old.list self.new) }
        ensures kept { OnErr result (history.new ≡ history.old) };
}

/// The sink of a run that has as much room as entries. It is never handed any.
#[derive(Drop)]
pub(crate) struct Whole;

impl Sink for Whole {
    ghost use Rattle.std.specs.Prelude.{List};
    ghost use Rattle.gmp_seq.specs.declared.call.Entry.{Entry};

    ghost takes = { λ before entries after. Unit {0} };

    ghost refuses = { λ before entries after. ⊥ };

    fn take(&mut self, history: &mut History) -> Result<(), Stop> {
        history.clear();
        Ok(())
    }
}

/// The gate that holds nobody up.
#[derive(Drop)]
pub struct Open;

impl Gate for Open {
    fn before(&self, _m: MNo, _act: &Act) {}

    fn is_open(&self) -> bool {
        true
    }
}
