//! Whether two starts are the same state: part by part, from the cheap parts to the rows. Each kind of list has a function of its own, with
//! the equality of its elements as its contract.
ghost use Rattle.std.specs.Prelude.{◌≡◌, ◌↔◌, map, IsTrue};
ghost use Rattle.gmp_start.specs.Start.{channel_of, machines_of, state_of, table_of};

use crate::start::{Start, StartChannel};
use gmp_base::MNo;
use gmp_seq::{Goroutine, Mode, Offers, Status, Wait};

/// Offers in their order: a select's rise by case, so no other order of the same is left.
fn same_offers(a: &Offers, b: &Offers) -> bool
    ensures { IsTrue result ↔ (a.now ≡ b.now) }
{
    a.as_slice() == b.as_slice()
}

fn same_wait(a: &Wait, b: &Wait) -> bool
    ensures { IsTrue result ↔ (a.now ≡ b.now) }
{
    a.arrival == b.arrival
        && a.kind == b.kind
        && a.until == b.until
        && same_offers(&a.offers, &b.offers)
}

/// Two of different kinds differ, whatever they store.
fn same_status(a: &Status, b: &Status) -> bool
    ensures { IsTrue result ↔ (a.now ≡ b.now) }
{
    match (a, b) {
        (Status::Dormant, Status::Dormant) => true,
        (Status::Ready(p, v), Status::Ready(q, w)) => *p == *q && *v == *w,
        (Status::Running(m), Status::Running(n)) => *m == *n,
        (Status::Calling(m), Status::Calling(n)) => *m == *n,
        (Status::Waiting(v), Status::Waiting(w)) => same_wait(v, w),
        (Status::Dead, Status::Dead) => true,
        _ => false,
    }
}

fn same_row(a: &Goroutine, b: &Goroutine) -> bool
    ensures { IsTrue result ↔ (a.now ≡ b.now) }
{
    a.epoch == b.epoch && same_status(&a.status, &b.status)
}

/// Lists of other lengths differ, so each place of one is there in the other.
fn same_rows(a: &[Goroutine], b: &[Goroutine]) -> bool
    ensures { IsTrue result ↔ (a.now ≡ b.now) }
{
    if a.len() != b.len() {
        return false;
    }
    for (i, x) in a.iter().enumerate() {
        if !same_row(x, &b[i]) {
            return false;
        }
    }
    true
}

/// By what a state has of a channel: room, whether it is closed, and the values.
fn same_channel(a: &StartChannel, b: &StartChannel) -> bool
    ensures { IsTrue result ↔ (channel_of a.now ≡ channel_of b.now) }
{
    a.capacity == b.capacity && a.closed == b.closed && a.items.as_slice() == b.items.as_slice()
}

fn same_channels(a: &[StartChannel], b: &[StartChannel]) -> bool
    ensures { IsTrue result ↔ (map channel_of a.now ≡ map channel_of b.now) }
{
    if a.len() != b.len() {
        return false;
    }
    for (i, x) in a.iter().enumerate() {
        if !same_channel(x, &b[i]) {
            return false;
        }
    }
    true
}

/// The four below are each one comparison of slices, with the equality of the lists as contract.
fn same_counts(a: &[u64], b: &[u64]) -> bool
    ensures { IsTrue result ↔ (a.now ≡ b.now) }
{
    a == b
}

fn same_flags(a: &[bool], b: &[bool]) -> bool
    ensures { IsTrue result ↔ (a.now ≡ b.now) }
{
    a == b
}

fn same_modes(a: &[Mode], b: &[Mode]) -> bool
    ensures { IsTrue result ↔ (a.now ≡ b.now) }
{
    a == b
}

fn same_holders(a: &[Option<MNo>], b: &[Option<MNo>]) -> bool
    ensures { IsTrue result ↔ (a.now ≡ b.now) }
{
    a == b
}

impl Start {
    /// What the state has of machines and processors.
    fn same_machines(&self, other: &Start) -> bool
        ensures { IsTrue result ↔ (machines_of self.now ≡ machines_of other.now) }
    {
        same_holders(&self.holders, &other.holders)
            && same_modes(&self.modes, &other.modes)
            && same_flags(&self.spinning, &other.spinning)
            && same_flags(&self.marked, &other.marked)
            && self.active == other.active
    }

    /// What the state has of goroutines: the clock, the next arrival and the rows.
    fn same_table(&self, other: &Start) -> bool
        ensures { IsTrue result ↔ (table_of self.now ≡ table_of other.now) }
    {
        self.clock == other.clock
            && self.arrivals == other.arrivals
            && same_rows(&self.goroutines, &other.goroutines)
    }

    /// Whether the states are the same: counts, clock, machines, channels with their values in order, and each goroutine. Room that lists
    /// have besides doesn't count.
    pub fn same(&self, other: &Start) -> bool
        ensures { IsTrue result ↔ (state_of self.now ≡ state_of other.now) }
    {
        same_counts(&self.counts, &other.counts)
            && self.same_machines(other)
            && self.same_table(other)
            && same_channels(&self.channels, &other.channels)
    }
}
