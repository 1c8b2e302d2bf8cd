//! What a goroutine that waited is told. `Cause` is what makes several ready at once: a close and a tick are one effect, as in the
//! definitions.
ghost use Rattle.std.specs.Prelude.{◌≡◌};
ghost use Rattle.std.specs.Option.{option_map};
ghost use Rattle.gmp_seq.specs.Waits.{closed_answer, first_offer_on};
ghost use Rattle.gmp_check.specs.Causes.{answer_for};

use gmp_base::{CNo, Woke};
use gmp_seq::{Kind, Offers, Status};

/// Why several goroutines become ready at once.
#[derive(Clone, Copy)]
pub(crate) enum Cause {
    /// The clock shows this moment, in nanoseconds.
    Due(u64),
    /// The channel is closed.
    Closed(CNo),
}

/// What one that waits with these offers is told when the channel is closed, by the first offer on it.
fn told_at_close(kind: Kind, offers: &Offers, c: CNo) -> Option<Woke>
    ensures { result ≡ option_map (closed_answer kind) (first_offer_on c offers.now) }
{
    match offers.first_offer_on(c) {
        Some(offer) => Some(offer.closed_answer(kind)),
        None => None,
    }
}

impl Cause {
    /// What a goroutine with this status is told, where it becomes ready.
    pub(crate) fn answer(self, status: &Status) -> Option<Woke>
        ensures { result ≡ answer_for self status.now }
    {
        let Status::Waiting(wait) = status else {
            return None;
        };
        match self {
            Cause::Due(now) => match wait.until {
                Some(until) if until <= now => Some(wait.kind.late_answer()),
                _ => None,
            },
            Cause::Closed(c) => told_at_close(wait.kind, &wait.offers, c),
        }
    }
}
