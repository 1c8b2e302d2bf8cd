//! What a goroutine's status may store: the forms that a run gives it, wherever it began. Apart from `Start::fits`, since a step neither
//! needs them nor looks at them; a text of a state has words for these forms alone.
ghost use Rattle.std.specs.Prelude.{◌≡◌, ◌↔◌, ◌⊎◌, ◌∷◌, [], All, IsTrue};
ghost use Rattle.gmp_seq.specs.declared.status.Offer.{Offer};
ghost use Rattle.gmp_start.specs.Forms.{FitsOffer, FitsWoke, HasForm, SuitsKind};

use crate::fit::rise;
use gmp_base::{Fault, MAX_CASES, Woke};
use gmp_seq::{Kind, Offer, Status, Wait};

/// Whether this may be stored for a goroutine that is ready, to be told when it runs: no other fault is than that of a send on a closed
/// channel, since any other panic is told at once, to a goroutine that runs.
pub fn is_stored(woke: Woke) -> bool
    ensures { IsTrue result ↔ FitsWoke woke }
{
    match woke {
        Woke::First | Woke::Done | Woke::Late => true,
        Woke::Got(_, _) | Woke::Chose(_, _) | Woke::Number(_) => true,
        Woke::Fault(Fault::SendOnClosed) => true,
        Woke::Fault(_) | Woke::Default | Woke::Made(_) | Woke::NoMemory => false,
    }
}

/// The case is one of 8, and the channel was made.
fn fits_offer(channels: u16, offer: Offer) -> bool
    ensures { IsTrue result ↔ FitsOffer channels offer }
{
    (offer.case as usize) < MAX_CASES && offer.channel.0 < channels
}

fn fit_all(channels: u16, offers: &[Offer]) -> bool
    ensures { IsTrue result ↔ All (FitsOffer channels) offers.now }
{
    offers.iter().all(|offer| fits_offer(channels, *offer))
}

/// A plain send or receive is one offer, of case 0, or none where it is on nil.
fn is_plain(offers: &[Offer]) -> bool
    ensures { IsTrue result ↔ ((offers.now ≡ []) ⊎ ((o : Offer) × (offers.now ≡ o ∷ []) × (o.case ≡ 0))) }
{
    if offers.is_empty() {
        return true;
    }
    offers.len() == 1 && offers[0].case == 0
}

/// What each kind of wait may offer, and whether it may have a deadline: a sleep has one, a select may.
fn suits(kind: Kind, offers: &[Offer], until: Option<u64>) -> bool
    ensures { IsTrue result ↔ SuitsKind kind offers.now until }
{
    match kind {
        Kind::Plain => is_plain(offers) && until.is_none(),
        Kind::Select => rise(offers),
        Kind::Sleep => offers.is_empty() && until.is_some(),
        Kind::Parked => offers.is_empty() && until.is_none(),
    }
}

/// Each offer is on a channel that was made, and their number suits why it waits.
fn fits_wait(channels: u16, wait: &Wait) -> bool
    ensures { IsTrue result ↔ (All (FitsOffer channels) wait.now.offers × SuitsKind wait.now.kind wait.now.offers wait.now.until) }
{
    let offers = wait.offers.as_slice();
    fit_all(channels, offers) && suits(wait.kind, offers, wait.until)
}

/// Whether a goroutine may have this status where there are so many machines and channels.
pub fn fits_status(machines: u8, channels: u16, status: &Status) -> bool
    ensures { IsTrue result ↔ HasForm machines channels status.now }
{
    match status {
        Status::Dormant | Status::Dead => true,
        Status::Running(m) => m.0 < machines,
        Status::Calling(m) => m.0 < machines,
        Status::Ready(_, woke) => is_stored(*woke),
        Status::Waiting(wait) => fits_wait(channels, wait),
    }
}
