//! Who waits on a channel: the first by arrival and then by case, found by comparing all offers. No list of waiters is kept, and no order
//! is trusted in which offers were added: that the waiters are the offers in order is a law.
ghost use Rattle.std.specs.Prelude.{◌≡◌};
ghost use Rattle.gmp_check.specs.First.{IsFirstOf, IsOfferAt, IsOfferOf, IsOfferOn, comes_before, sooner};

use super::Table;
use gmp_base::{CNo, GNo};
use gmp_seq::{Direction, Status, Wait, Waiter};

/// Whether x waits for longer, or has the lesser case of the same wait.
fn comes_before(x: Waiter, y: Waiter) -> bool
    ensures { result ≡ comes_before x y }
{
    x.arrival < y.arrival || (x.arrival == y.arrival && x.offer.case < y.offer.case)
}

/// The one of both that comes first, where there is one.
fn sooner(a: Option<Waiter>, b: Option<Waiter>) -> Option<Waiter>
    ensures { result ≡ sooner a b }
{
    match (a, b) {
        (None, b) => b,
        (a, None) => a,
        (Some(x), Some(y)) => Some(if comes_before(y, x) { y } else { x }),
    }
}

/// The first of the offers of one that waits that are on the channel.
fn first_of(g: GNo, wait: &Wait, c: CNo, direction: Direction) -> Option<Waiter>
    ensures { IsFirstOf (IsOfferOf g wait.now c direction) result }
{
    let mut first = None;
    for offer in wait.offers.as_slice() {
        let w = Waiter {
            g,
            arrival: wait.arrival,
            kind: wait.kind,
            offer: *offer,
        };
        first = sooner(first, w.is_on(c, direction).then_some(w));
    }
    first
}

/// The first of the offers on the channel of a goroutine with this status: one that doesn't wait has none.
fn first_at(g: GNo, status: &Status, c: CNo, direction: Direction) -> Option<Waiter>
    ensures { IsFirstOf (IsOfferAt g status.now c direction) result }
{
    match status {
        Status::Waiting(wait) => first_of(g, wait, c, direction),
        _ => None,
    }
}

impl Table {
    /// The first of all offers on the channel in this direction.
    pub(crate) fn first_on(&self, c: CNo, direction: Direction) -> Option<Waiter>
        ensures { IsFirstOf (IsOfferOn self.now c direction) result }
    {
        let mut first = None;
        for (g, row) in self.goroutines.iter().enumerate() {
            let of_g = first_at(GNo(g as u16), &row.status, c, direction);
            first = sooner(first, of_g);
        }
        first
    }
}
