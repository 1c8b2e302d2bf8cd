//! A start once more. Lists take memory, and may be refused it; a goroutine's row takes none. There is no `Clone`: a start is large, and
//! each copy of it is to be seen.
ghost use Rattle.std.specs.Prelude.{◌≡◌, ◌↔◌, map, IfOk, IsTrue};
ghost use Rattle.gmp_start.specs.Start.{channel_of, state_of};

use crate::start::{Start, StartChannel};
use gmp_seq::{Goroutine, Offer, Offers, Status, Wait};
use std::alloc::{AllocError, Global};

fn copied_offers(offers: &Offers) -> Offers
    ensures { result ≡ offers.now }
{
    let mut copy = Offers::new();
    for offer in offers.as_slice() {
        copy.push(*offer);
    }
    copy
}

fn copied_wait(wait: &Wait) -> Wait
    ensures { result ≡ wait.now }
{
    Wait {
        arrival: wait.arrival,
        kind: wait.kind,
        offers: copied_offers(&wait.offers),
        until: wait.until,
    }
}

/// A waiting goroutine's offers are the only part that can't be copied as it is.
fn copied_status(status: &Status) -> Status
    ensures { result ≡ status.now }
{
    match status {
        Status::Dormant => Status::Dormant,
        Status::Ready(place, woke) => Status::Ready(*place, *woke),
        Status::Running(m) => Status::Running(*m),
        Status::Calling(m) => Status::Calling(*m),
        Status::Waiting(wait) => Status::Waiting(copied_wait(wait)),
        Status::Dead => Status::Dead,
    }
}

/// The same goroutine once more. It takes no memory.
pub fn copied_row(row: &Goroutine) -> Goroutine
    ensures { result ≡ row.now }
{
    Goroutine {
        status: copied_status(&row.status),
        epoch: row.epoch,
    }
}

/// The same goroutines once more. Refused where memory is; then nothing is kept.
pub fn copied_rows(alloc: Global, rows: &[Goroutine]) -> Result<Vec<Goroutine>, AllocError>
    ensures { IfOk result (λ v. v.items ≡ rows.now) }
{
    let mut copy = Vec::with_capacity(alloc, rows.len())?;
    for row in rows {
        copy.push_reserved(copied_row(row));
    }
    Ok(copy)
}

fn copied_channel(alloc: Global, channel: &StartChannel) -> Result<StartChannel, AllocError>
    ensures { IfOk result (λ c. channel_of c ≡ channel_of channel.now) }
{
    // The copy has no more room than values: it is written or compared, and nothing is sent on it.
    Ok(StartChannel {
        capacity: channel.capacity,
        closed: channel.closed,
        items: channel.items.to_vec(alloc)?,
    })
}

fn copied_channels(
    alloc: Global,
    channels: &[StartChannel],
) -> Result<Vec<StartChannel>, AllocError>
    ensures { IfOk result (λ v. map channel_of v.items ≡ map channel_of channels.now) }
{
    let mut copy = Vec::with_capacity(alloc, channels.len())?;
    for channel in channels {
        let one = copied_channel(alloc, channel)?;
        copy.push_reserved(one);
    }
    Ok(copy)
}

impl Start {
    /// The same start once more, in memory of its own. It is refused where memory is.
    pub fn copied(&self, alloc: Global) -> Result<Start, AllocError>
        ensures { IfOk result (λ s. state_of s ≡ state_of self.now) }
    {
        Ok(Start {
            counts: self.counts.to_vec(alloc)?,
            clock: self.clock,
            arrivals: self.arrivals,
            holders: self.holders.to_vec(alloc)?,
            modes: self.modes.to_vec(alloc)?,
            spinning: self.spinning.to_vec(alloc)?,
            marked: self.marked.to_vec(alloc)?,
            active: self.active,
            channels: copied_channels(alloc, &self.channels)?,
            goroutines: copied_rows(alloc, &self.goroutines)?,
        })
    }
}
