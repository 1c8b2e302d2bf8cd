//! What the table looks at beside the place.
ghost use Rattle.std.specs.Prelude.{◌≡◌};
ghost use Rattle.gmp_driver.specs.Seen.{seen_of};

use crate::act::Value;
use crate::place::Aside;
use crate::registers::Registers;
use gmp_base::{PNo, Readiness};

/// What the table looks at beside the place. Plain and copied, so that the table has neither bodies nor owners in it, and no type
/// parameter.
#[derive(Clone, Copy)]
pub struct Seen {
    /// The number of processors.
    pub procs: u8,
    /// Whether another machine is to be woken for what was found, before the next claim.
    pub fresh: bool,
    /// Claims since the last tick, up to 16; of a fair machine since the last tick behind which it looked aside.
    pub turns: u8,
    /// Where it looks aside next. None at a machine that is not fair, which looks into its own queue as long as that has tickets.
    pub aside: Option<Aside>,
    /// The own processor.
    pub own: Option<PNo>,
    pub to_claim: Option<Readiness>,
    pub to_store: Option<Readiness>,
    /// The first value that there is to give back.
    pub first: Option<Value>,
}

impl Seen {
    /// What is to be seen of these registers.
    #[inline(always)]
    pub(crate) fn of<T, Q>(
        procs: u8,
        fresh: bool,
        turns: u8,
        aside: Option<Aside>,
        hand: &Registers<T, Q>,
    ) -> Self
        ensures { result ≡ seen_of procs fresh turns aside hand.now }
    {
        Seen {
            procs,
            fresh,
            turns,
            aside,
            own: match &hand.processor {
                Some(parts) => Some(parts.p),
                None => None,
            },
            to_claim: hand.to_claim,
            to_store: hand.to_store,
            first: hand.first_value(),
        }
    }
}
