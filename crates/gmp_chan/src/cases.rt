//! Whether offers rise by their cases, as those of a select do. `wait_on` requires it, and who waits stands in order by it.
ghost use Rattle.std.specs.Prelude.{◌≡◌};
ghost use Rattle.gmp_chan.specs.Order.{above, rise};

use gmp_seq::{Offer, Offers};

/// Whether all of these offers are of a later case.
fn above(case: u8, offers: &[Offer]) -> bool
    ensures { result ≡ above case offers.now }
{
    offers.iter().all(|offer| case < offer.case)
}

/// As the definition goes: the first is below all others, and these rise.
fn slice_rises(offers: &[Offer]) -> bool
    ensures { result ≡ rise offers.now }
{
    match offers {
        [] => true,
        [first, rest @ ..] => above(first.case, rest) && slice_rises(rest),
    }
}

/// Whether the offers rise by their cases. The cost is at most 28 comparisons, of 8 offers.
pub fn cases_rise(offers: &Offers) -> bool
    ensures { result ≡ rise offers.now }
{
    slice_rises(offers.as_slice())
}
