//! Opens the local queues of a run, and hands out their ends: owners by processor, thieves by machine and then processor. All thieves are
//! made here, so that the owner's parts suffice for them, and a close can ask for every one.
ghost use Rattle.std.specs.Prelude.{◌≡◌, ◌≤◌, [], length, IfOk};
ghost use Rattle.gmp_queue.specs.Opened.{AddsThief, IsOpened, IsFresh, AreThievesOf};

use crate::ends::{Back, Owner, Thief};
use std::alloc::{AllocError, Global};
use std::sync::Arc;
use std::sync::atomic::AtomicU64;

// The slots that a queue begins with. It grows by need: room for a ticket of each goroutine in each queue would mostly stay unused.
const SLOTS: usize = 64;

/// One owner for each queue, and for each machine one thief for each queue, in order. All tickets are of this run. It is refused where
/// memory is, and what was opened then is let go.
pub fn open(
    alloc: Global,
    run: u64,
    queues: u8,
    machines: u8,
) -> Result<(Vec<Owner>, Vec<Vec<Thief>>), AllocError>
    requires { machines ≤ 64 }
    ensures opened { IfOk result (λ ends. IsOpened run machines ends.0.items ends.1.items) }
    ensures all { IfOk result (λ ends. length ends.0.items ≡ queues) }
{
    let mut thieves = rows(alloc, machines)?;
    let owners = open_queues(alloc, run, queues, thieves.as_mut_slice())?;
    Ok((owners, thieves))
}

// As many empty rows.
fn rows(alloc: Global, count: u8) -> Result<Vec<Vec<Thief>>, AllocError>
    ensures { IfOk result (λ rows. (length rows.items ≡ count) × AreThievesOf [] rows.items) }
{
    let mut rows = Vec::new(alloc);
    for _ in 0..count {
        rows.push(Vec::new(alloc))?;
    }
    Ok(rows)
}

// Opens queues, and adds a thief of each to each row.
fn open_queues(
    alloc: Global,
    run: u64,
    queues: u8,
    rows: &mut [Vec<Thief>],
) -> Result<Vec<Owner>, AllocError>
    requires empty { AreThievesOf [] rows.old }
    requires few { length rows.old ≤ 64 }
    ensures opened { IfOk result (λ owners. IsOpened run (length rows.old) owners.items rows.new) }
    ensures all { IfOk result (λ owners. length owners.items ≡ queues) }
{
    let mut owners = Vec::new(alloc);
    for _ in 0..queues {
        let owner = open_queue(alloc, run, rows)?;
        owners.push(owner)?;
    }
    Ok(owners)
}

// Opens a queue, and adds a thief of it to each row.
#[tactic(auto, using(crate::proofs::Keeps::begins))]
fn open_queue(alloc: Global, run: u64, rows: &mut [Vec<Thief>]) -> Result<Owner, AllocError>
    requires { length rows.old ≤ 64 }
    ensures { IfOk result (λ owner. IsFresh run (length rows.old) owner × AddsThief owner rows.old rows.new) }
{
    let worker = Back::fifo_as(alloc, SLOTS)?;
    let length = Arc::new(alloc, AtomicU64::new(0))?;
    let mut owner = Owner {
        run,
        worker,
        length,
    };
    for row in rows.iter_mut() {
        row.push(owner.thief()?)?;
    }
    Ok(owner)
}
