//! A run by a core whose machines and words a dealer deals.
ghost use Rattle.std.specs.Prelude.{◌≡◌, ◌≢◌, IfErr, IfOk, OnOk, length, true};
ghost use Rattle.gmp_turn.specs.Whole.{IsWholeRun};
ghost use Rattle.gmp_seq.specs.Fits.{AreLimits};
ghost use Rattle.gmp_host.specs.Ends.{IsOfLegalRun};
ghost use Rattle.gmp_host.specs.Openings.{NamesNobody};
ghost use Rattle.gmp_host.specs.Played.{HasNoDrawnEnd, IsDrawnOut, IsDrawnTo};

use crate::ending::{Ended, Short};
use crate::note::Note;
use crate::stepping::{InHand, MOST_ACTS, Shown};
use crate::told::{allowed, ended, kept};
use gmp_chance::{Dealer, Drawn};
use gmp_history::History;
use gmp_seq::Limits;
use std::alloc::Global;

/// A run of bodies of type `T`.
type Run<T, D> = Drawn<T, Shown, D>;

/// Runs the bodies, of which the first is main, by a core in this thread, until the run is over. Each act's machine and word are dealt,
/// and time, which `shown` shows, passes only where a machine waits for a deadline.
fn drawn<T: InHand, D: Dealer + Drop>(
    alloc: Global,
    limits: Limits,
    capacities: &[u32],
    bodies: Vec<T>,
    shown: Note,
    is_fair: bool,
    dealer: D,
) -> Result<Run<T, D>, Short>
    ensures played { IfOk result (IsDrawnTo T.resumed T.called D.deals dealer is_fair limits capacities.now bodies.items) }
    ensures opened { IfOk result (λ p. let book = p.core.system.book in
        (book.limits ≡ limits) × (book.capacities ≡ capacities.now) × (book.bodies ≡ length bodies.items)) }
    ensures whole { OnOk result (limits.room ≡ limits.entries) }
    ensures above { IfErr result (λ e. e ≡ Short.AboveRoom → limits.room ≢ limits.entries) }
    ensures limits { IfErr result (λ e. e ≡ Short.BadLimits → AreLimits limits (length bodies.items) capacities.now → ⊥) }
    ensures memory { IfErr result (λ e. e ≡ Short.OutOfMemory → IsWholeRun limits (length bodies.items) capacities.now) }
    ensures kinds { IfErr result (λ e. (e ≢ Short.NoEnd) × (e ≢ Short.Stopped) × (e ≢ Short.NotPushed)) }
    ensures nobody { IfErr result NamesNobody }
{
    // Also what `Drawn::open` tests itself: where it has no memory it doesn't say that they are in range.
    allowed(limits, bodies.len(), capacities)?;
    let outside = Shown::new(shown);
    let mut run = Drawn::open(alloc, limits, capacities, bodies, outside, dealer, is_fair)?;
    run.play(MOST_ACTS * u32::from(limits.machines));
    Ok(run)
}

/// How the bodies' run by this dealer ends. The history comes with the end, if it is to be kept.
pub(crate) fn draw_all<T: InHand, D: Dealer + Drop>(
    alloc: Global,
    limits: Limits,
    capacities: &[u32],
    bodies: Vec<T>,
    shown: Note,
    is_fair: bool,
    dealer: D,
    keeps: bool,
) -> Result<(Ended, History), Short>
    ensures ended { IfOk result (λ r. (run : IsOfLegalRun limits capacities.now (length bodies.items) r.0) × (keeps ≡ true → r.1.list ≡ run.history)) }
    // The run is the one that these bodies, played as the dealer deals by machines so fair, make.
    ensures drawn { IfOk result (λ r. (d : IsDrawnOut T.resumed T.called D.deals dealer is_fair limits capacities.now bodies.items r.0) × (keeps ≡ true → r.1.list ≡ d.last.core.system.book.history)) }
    ensures endless { IfErr result (λ e. e ≡ Short.NoEnd → HasNoDrawnEnd T.resumed T.called D.deals dealer is_fair limits capacities.now bodies.items) }
    ensures whole { OnOk result (limits.room ≡ limits.entries) }
    ensures above { IfErr result (λ e. e ≡ Short.AboveRoom → limits.room ≢ limits.entries) }
    ensures limits { IfErr result (λ e. e ≡ Short.BadLimits → AreLimits limits (length bodies.items) capacities.now → ⊥) }
    ensures memory { IfErr result (λ e. e ≡ Short.OutOfMemory → IsWholeRun limits (length bodies.items) capacities.now) }
    ensures kinds { IfErr result (λ e. (e ≢ Short.Stopped) × (e ≢ Short.NotPushed)) }
    ensures nobody { IfErr result NamesNobody }
{
    let count = bodies.len();
    let run = drawn(alloc, limits, capacities, bodies, shown, is_fair, dealer)?;
    let ended = ended(
        alloc,
        limits,
        count,
        capacities,
        run.outcome(),
        run.history(),
    );
    let history = kept(alloc, run.history(), keeps);
    run.close();
    Ok((ended?, history?))
}
