//! The parts in which a history is taken together with the state before them. `Segment` goes out, `Begun` stays: where the next one begins.
ghost use Rattle.std.specs.Prelude.{◌≡◌};
ghost use Rattle.std.specs.Option.{option_map};
ghost use Rattle.gmp_seq.specs.State.{State};
ghost use Rattle.gmp_start.specs.Start.{state_of};
ghost use Rattle.gmp_journal.specs.Begun.{begun_of};

use gmp_history::History;
use gmp_seq::Outcome;
use gmp_start::Start;

/// The entries since the last segment, the state before the first of them, and how the run ended, if it did.
#[derive(Drop)]
pub struct Segment {
    /// The state before the first of the entries: the opening, or where the segment before it, or the last `hand_out`, stopped.
    pub start: Start,
    /// In order. There may be none.
    pub entries: History,
    /// Some in the last segment of a run; after it no segment is given.
    pub end: Option<Outcome>,
}

/// The state before the first entry of the history, as far as it is kept.
#[derive(Drop)]
pub(crate) enum Begun {
    /// The opening, which is made anew when it is asked for: a copy from the beginning on would take memory in each run that takes no segment.
    Opening,
    /// The state at which the last segment was taken.
    At(Start),
    /// None is kept: entries were handed out without one, or the run has its outcome.
    Unknown,
}

impl Begun {
    /// The state of a start, or none.
    pub(crate) fn of(start: Option<Start>) -> Self
        ensures { (first : State) → begun_of result first ≡ option_map state_of start }
    {
        match start {
            Some(start) => Begun::At(start),
            None => Begun::Unknown,
        }
    }
}
