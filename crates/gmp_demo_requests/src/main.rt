//! Workers that serve main's requests, each by a blocking call: how many steps a number takes to 1 (Collatz).
//!
//! It prints how many answers main got, their sum, and whether its wait for one more was late: after a run by a core, which is the same
//! every time, and after one by machines in threads.
#![tactic(auto)]

mod client;
mod tally;
mod worker;

use crate::client::{Client, WORKERS};
use crate::tally::Tally;
use crate::worker::Worker;
use anyhow::Result;
use gmp_host::{Ended, Host, Settings, Short};
use std::alloc::Global;
use std::sync::Wait;
use std::thread::Threads;
use std::time::Clock;

/// Runs main, which notes the answers in the tally, and the workers: by a core, or else in threads.
fn serve<R: Threads + Wait + Clock + Sync>(
    rt: &R,
    alloc: Global,
    tally: &Tally,
    is_by_core: bool,
) -> Result<Ended, Short> {
    let mut host = Host::new(alloc, Settings::default())?;
    let (requests, answers) = (host.channel(0)?, host.channel(0)?);
    let client = Client::new(requests, answers, tally.share()?);
    let client = host.boxed(client)?;
    host.push(client)?;
    for _ in 0..WORKERS {
        let worker = host.boxed(Worker::new(requests, answers))?;
        host.push(worker)?;
    }
    if is_by_core {
        host.step()
    } else {
        host.run(rt)
    }
}

/// Serves by a core and in threads, and prints both.
fn main(rt: HostRuntime) -> Result<()> {
    let alloc = rt.alloc();

    let tally = Tally::new(alloc)?;
    let ended = serve(&rt, alloc, &tally, true)?;
    println!(rt; "by a core: {tally}")?;
    println!(rt; "{:?} after {} entries", ended.outcome, ended.entries)?;

    let tally = Tally::new(alloc)?;
    let ended = serve(&rt, alloc, &tally, false)?;
    println!(rt; "in threads: {tally}")?;
    println!(rt; "{:?}", ended.outcome)?;
    Ok(())
}
