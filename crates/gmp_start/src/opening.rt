//! The opening as a start: the state in which a run from nothing begins. It is made with room for what it has, and not for what a run may
//! come to.
ghost use Rattle.std.specs.Prelude.{◌≡◌, ◌∷◌, ◌-◌, ◌<◌, map, replicate, IfOk};
ghost use Rattle.gmp_seq.specs.Channels.{new_channel};
ghost use Rattle.gmp_seq.specs.State.{dormant, first_goroutine, opening};
ghost use Rattle.gmp_start.specs.Start.{channel_of, state_of};

use crate::start::{Start, StartChannel};
use gmp_base::Woke;
use gmp_seq::{Goroutine, Limits, Mode, Status, TicketPlace};
use std::alloc::{AllocError, Global};

/// Main is on the shelf, ready for the first time; all others are dormant.
fn opening_rows(alloc: Global, bodies: u16) -> Result<Vec<Goroutine>, AllocError>
    requires { 0 < bodies }
    ensures { IfOk result (λ v. v.items ≡ first_goroutine ∷ replicate (bodies - 1) dormant) }
{
    let mut goroutines = Vec::with_capacity(alloc, bodies as usize)?;
    goroutines.push_reserved(Goroutine {
        status: Status::Ready(TicketPlace::Shelf, Woke::First),
        epoch: 1,
    });
    for _ in 1..bodies {
        goroutines.push_reserved(Goroutine {
            status: Status::Dormant,
            epoch: 0,
        });
    }
    Ok(goroutines)
}

/// An open channel with nothing on its list.
fn opening_channel(alloc: Global, capacity: u32) -> StartChannel
    ensures { channel_of result ≡ new_channel capacity }
{
    StartChannel {
        capacity,
        closed: false,
        items: Vec::new(alloc),
    }
}

fn opening_channels(alloc: Global, capacities: &[u32]) -> Result<Vec<StartChannel>, AllocError>
    ensures { IfOk result (λ v. map channel_of v.items ≡ map new_channel capacities.now) }
{
    let mut list = Vec::new(alloc);
    for capacity in capacities {
        list.push(opening_channel(alloc, *capacity))?;
    }
    Ok(list)
}

impl Start {
    /// The state at which a run of these limits, bodies and channels begins: no processor is held, all of them are active, and every
    /// machine is awake. It is refused where memory is.
    pub fn opening(
        alloc: Global,
        limits: Limits,
        bodies: u16,
        capacities: &[u32],
    ) -> Result<Start, AllocError>
        requires { 0 < bodies }
        ensures { IfOk result (λ s. state_of s ≡ opening limits bodies capacities.now) }
    {
        Ok(Start {
            counts: vec![in alloc; 0; limits.machines as usize]?,
            clock: 0,
            arrivals: 0,
            holders: vec![in alloc; None; limits.procs as usize]?,
            modes: vec![in alloc; Mode::Awake; limits.machines as usize]?,
            spinning: vec![in alloc; false; limits.machines as usize]?,
            marked: vec![in alloc; false; limits.machines as usize]?,
            active: limits.procs,
            channels: opening_channels(alloc, capacities)?,
            goroutines: opening_rows(alloc, bodies)?,
        })
    }
}
