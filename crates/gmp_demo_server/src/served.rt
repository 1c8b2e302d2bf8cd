//! The server's run.

use crate::front::{AT_ONCE, Front, Shared};
use crate::request::PLACES;
use gmp_host::{Ended, Host, Settings, Short, Sink};
use std::alloc::Global;
use std::sync::Wait;
use std::thread::Threads;
use std::time::Clock;

/// Main, and a goroutine for each request that is served at a time.
pub const BODIES: u16 = AT_ONCE + 1;

/// The channel on which main hears of answers, and that of places.
pub const CAPACITIES: [u32; 2] = [0, PLACES];

/// What a run came to.
#[derive(Drop)]
pub struct Served {
    pub ended: Ended,
    /// The sum of the answers.
    pub sum: u64,
    /// How many requests were late.
    pub late: u64,
}

/// Room for 10,000 entries at a time, and entries for all requests.
pub fn settings() -> Settings {
    Settings {
        procs: 4,
        machines: 4,
        entries: 1 << 40,
        room: 10_000,
        ..Settings::default()
    }
}

/// Serves so many requests, and hands the history to the sink.
// A host is filled where it is run: a function that boxes a goroutine may not hand the box out.
pub fn serve<R: Threads + Wait + Clock + Sync, S: Sink + Send + Drop>(
    rt: &R,
    alloc: Global,
    count: u64,
    sink: S,
) -> Result<(Result<Served, Short>, S), Short> {
    let mut host = Host::new(alloc, settings())?;
    let [told, places] = CAPACITIES;
    let (told, places) = (host.channel(told)?, host.channel(places)?);
    let shared = Shared::new(&host, told, places)?;
    let front = Front::new(shared.share()?, host.time()?, count);
    let front = host.boxed(front)?;
    host.push(front)?;
    for _ in 0..AT_ONCE {
        let goroutine = host.boxed(shared.spawner.goroutine(&shared.answers)?)?;
        host.push(goroutine)?;
    }
    let (ended, sink) = host.run_into(rt, sink);
    let served = match ended {
        Ok(ended) => Ok(Served {
            ended,
            sum: shared.sum.get(),
            late: shared.late.get(),
        }),
        Err(short) => Err(short),
    };
    Ok((served, sink))
}
