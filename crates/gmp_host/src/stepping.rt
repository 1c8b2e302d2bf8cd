//! A run by a core: one thread makes the acts of all machines, which take turns.
ghost use Rattle.std.specs.Prelude.{◌≡◌, ◌≢◌, IfErr, IfOk, OnOk, length, true};
ghost use Rattle.gmp_turn.specs.Whole.{IsWholeRun};
ghost use Rattle.gmp_seq.specs.Fits.{AreLimits};
ghost use Rattle.gmp_host.specs.Ends.{IsOfLegalRun};
ghost use Rattle.gmp_host.specs.Openings.{NamesNobody};
ghost use Rattle.gmp_host.specs.Played.{HasNoEnd, IsPlayedOut, IsPlayedTo};

use crate::ending::{Ended, Short};
use crate::note::Note;
use crate::told::{allowed, ended, kept};
use gmp_base::{Ask, Woke};
use gmp_core::{Outside, Player};
use gmp_history::History;
use gmp_seq::Limits;
use gmp_worker::{Boxed, block_boxed, resume_boxed};
use std::alloc::Global;
use std::marker::Model;

/// The most acts, for each machine.
pub(crate) const MOST_ACTS: u32 = 1_000_000;

/// A body that a machine of a core has in hand. Each says by two relations of its own what it does. A run has it as a parameter, and no box.
pub(crate) trait InHand: Drop {
    ghost use Rattle.std.specs.Prelude.{ℕ};
    ghost use Rattle.gmp_base.specs.declared.ask.Ask.{Ask};
    ghost use Rattle.gmp_base.specs.declared.ask.Woke.{Woke};

    /// From the body before, with this answer, to this ask and the body after.
    ghost resumed: { Self → Woke → Ask → Self → Type 0 };

    /// From the body before, by its blocking call, to this number and the body after.
    ghost called: { Self → ℕ → Self → Type 0 };

    /// Goes on with this answer until it asks again, and writes what it asks.
    fn goes_on(&mut self, woke: Woke, out: &mut Ask)
        ensures { resumed self.old woke out.new self.new };

    /// Makes its blocking call.
    fn calls(&mut self) -> u64
        ensures { called self.old result self.new };
}

/// A box does what the body in it says of itself, and is the same box afterwards.
impl InHand for Boxed {
    ghost use Rattle.gmp_host.specs.Played.{BoxAnswers, BoxAsks};

    ghost resumed = { BoxAsks (λ box body. record box { value = body }) (λ box. (Body-box box).resumed box.value) };

    ghost called = { BoxAnswers (λ box body. record box { value = body }) (λ box. (Body-box box).blocked box.value) };

    fn goes_on(&mut self, woke: Woke, out: &mut Ask) {
        resume_boxed(self, woke, out);
    }

    fn calls(&mut self) -> u64 {
        block_boxed(self)
    }
}

/// What the clock shows: it stands still until a machine minds a deadline, and then shows that. A contract sees the moment that it shows.
#[derive(Drop)]
pub(crate) struct Shown {
    moment: u64,
    /// Where goroutines read it.
    note: Note,
}

impl Model for Shown {
    ghost use Rattle.std.specs.Prelude.{ℕ};

    ghost Value = { ℕ };

    ghost view = { λ s. s.moment };
}

impl Shown {
    /// Nothing yet, where goroutines read it from this note.
    pub fn new(note: Note) -> Self
        ensures { result ≡ 0 }
    {
        Shown { moment: 0, note }
    }
}

impl<T: InHand> Outside<T> for Shown {
    ghost use Rattle.gmp_host.specs.Played.{AnswersSo, AsksSo, ShowsSo};

    ghost asks = { AsksSo T.resumed };

    ghost answers = { AnswersSo T.called };

    ghost shows = { ShowsSo };

    fn ask(&mut self, body: &mut T, woke: Woke, out: &mut Ask) {
        body.goes_on(woke, out);
    }

    fn number(&mut self, body: &mut T) -> u64 {
        body.calls()
    }

    fn moment(&mut self, minded: Option<u64>) -> u64 {
        self.moment = self.moment.max(minded.unwrap_or(0));
        self.note.set(self.moment);
        self.moment
    }
}

/// A core whose machines acted in turn until the run was over. Each choice among what can proceed was the first, and time, which `shown` shows,
/// passed only where a machine waited for a deadline.
fn played<T: InHand>(
    alloc: Global,
    limits: Limits,
    capacities: &[u32],
    bodies: Vec<T>,
    shown: Note,
    is_fair: bool,
) -> Result<Player<T, Shown>, Short>
    ensures played { IfOk result (IsPlayedTo T.resumed T.called is_fair limits capacities.now bodies.items) }
    ensures opened { IfOk result (λ p. let book = p.core.system.book in
        (book.limits ≡ limits) × (book.capacities ≡ capacities.now) × (book.bodies ≡ length bodies.items)) }
    ensures whole { OnOk result (limits.room ≡ limits.entries) }
    ensures above { IfErr result (λ e. e ≡ Short.AboveRoom → limits.room ≢ limits.entries) }
    ensures limits { IfErr result (λ e. e ≡ Short.BadLimits → AreLimits limits (length bodies.items) capacities.now → ⊥) }
    ensures memory { IfErr result (λ e. e ≡ Short.OutOfMemory → IsWholeRun limits (length bodies.items) capacities.now) }
    ensures kinds { IfErr result (λ e. (e ≢ Short.NoEnd) × (e ≢ Short.Stopped) × (e ≢ Short.NotPushed)) }
    ensures nobody { IfErr result NamesNobody }
{
    // Also what `Player::open` tests itself: where it has no memory it doesn't say that they are in range.
    allowed(limits, bodies.len(), capacities)?;
    let outside = Shown::new(shown);
    let mut player = Player::open(alloc, limits, capacities, bodies, outside, is_fair)?;
    player.play(MOST_ACTS * u32::from(limits.machines), 0);
    Ok(player)
}

/// Runs the bodies, of which the first is main, by a core in this thread. Its machines, which are all fair or all not, act in turn: so it is the
/// same every time. The history comes with the end, if it is to be kept.
pub(crate) fn play_all<T: InHand>(
    alloc: Global,
    limits: Limits,
    capacities: &[u32],
    bodies: Vec<T>,
    shown: Note,
    is_fair: bool,
    keeps: bool,
) -> Result<(Ended, History), Short>
    ensures ended { IfOk result (λ r. (run : IsOfLegalRun limits capacities.now (length bodies.items) r.0) × (keeps ≡ true → r.1.list ≡ run.history)) }
    // The run is the one that these bodies, played in turn by machines so fair, make.
    ensures played { IfOk result (λ r. (p : IsPlayedOut T.resumed T.called is_fair limits capacities.now bodies.items r.0) × (keeps ≡ true → r.1.list ≡ p.last.core.system.book.history)) }
    ensures endless { IfErr result (λ e. e ≡ Short.NoEnd → HasNoEnd T.resumed T.called is_fair limits capacities.now bodies.items) }
    ensures whole { OnOk result (limits.room ≡ limits.entries) }
    ensures above { IfErr result (λ e. e ≡ Short.AboveRoom → limits.room ≢ limits.entries) }
    ensures limits { IfErr result (λ e. e ≡ Short.BadLimits → AreLimits limits (length bodies.items) capacities.now → ⊥) }
    ensures memory { IfErr result (λ e. e ≡ Short.OutOfMemory → IsWholeRun limits (length bodies.items) capacities.now) }
    ensures kinds { IfErr result (λ e. (e ≢ Short.Stopped) × (e ≢ Short.NotPushed)) }
    ensures nobody { IfErr result NamesNobody }
{
    let count = bodies.len();
    let player = played(alloc, limits, capacities, bodies, shown, is_fair)?;
    let ended = ended(
        alloc,
        limits,
        count,
        capacities,
        player.outcome(),
        player.history(),
    );
    let history = kept(alloc, player.history(), keeps);
    player.close();
    Ok((ended?, history?))
}
