//! Who is where: what a trace leaves to its reader. `Posts` has the goroutine and the processor of each machine, and each goroutine's last
//! epoch.
ghost use Rattle.std.specs.Prelude.{◌≡◌, IfOk};

use crate::deed::Deed;
use crate::places::{goroutine_at, processor_at};
use gmp_base::{GNo, MNo, PNo};
use gmp_seq::{Call, Entry, Goroutine, Reply, Status};
use gmp_start::Start;
use std::alloc::{AllocError, Global};

/// What a machine has.
#[derive(Clone, Copy)]
struct Post {
    g: Option<GNo>,
    p: Option<PNo>,
}

/// What each machine has, and how often each goroutine was ready.
#[derive(Drop)]
pub struct Posts {
    machines: [Post; 256],
    epochs: Vec<u64>,
    /// Who became ready by the last entry; its room is kept.
    readied: Vec<GNo>,
}

/// Who becomes ready on the shelf by its own call.
fn shelved(reply: Reply) -> Option<GNo> {
    match reply {
        Reply::Shelved(r) => Some(r.g),
        _ => None,
    }
}

/// Who becomes ready by an entry that names it.
fn named(entry: &Entry) -> Option<GNo> {
    match entry.call {
        Call::Take | Call::Put(_) | Call::Claim(_) => None,
        Call::Yield | Call::Leave(_) => shelved(entry.reply),
        _ => Some(entry.reply.ticket()?.g),
    }
}

/// Whom a claim is of.
fn claimed(call: &Call) -> Option<GNo> {
    match call {
        Call::Claim(r) => Some(r.g),
        _ => None,
    }
}

/// Whether goroutines become ready by the entry that it doesn't name.
fn wakes_many(reply: Reply) -> bool {
    match reply {
        Reply::Closed(n) | Reply::Woke(n) => n > 0,
        _ => false,
    }
}

impl Posts {
    /// Nobody is at a machine, and nobody holds a processor.
    pub fn new(alloc: Global, rows: &[Goroutine]) -> Result<Self, AllocError> {
        let mut epochs = Vec::with_capacity(alloc, rows.len())?;
        for row in rows {
            epochs.push(row.epoch)?;
        }
        Ok(Posts {
            machines: [Post { g: None, p: None }; 256],
            epochs,
            readied: Vec::with_capacity(alloc, rows.len())?,
        })
    }

    /// Who is where at a start.
    pub fn begin(&mut self, start: &Start) {
        for (p, holder) in start.holders.iter().enumerate() {
            if let Some(m) = holder {
                if let Some(post) = self.machines.get_mut(usize::from(m.0)) {
                    post.p = Some(processor_at(p));
                }
            }
        }
        for (g, row) in start.goroutines.iter().enumerate() {
            match row.status {
                Status::Running(m) | Status::Calling(m) => {
                    if let Some(post) = self.machines.get_mut(usize::from(m.0)) {
                        post.g = Some(goroutine_at(g));
                    }
                }
                _ => {}
            }
        }
    }

    /// What the entry did, which led to these rows.
    pub fn deed<'a>(
        &'a mut self,
        number: u64,
        entry: &'a Entry,
        rows: &[Goroutine],
    ) -> Result<Deed<'a>, AllocError>
        ensures { IfOk result (λ d. d.entry.now ≡ entry.now) }
    {
        let before = self.machines[usize::from(entry.m.0)];
        let g = claimed(&entry.call).or(before.g);
        self.note_ready(entry, rows)?;
        self.move_on(entry);
        Ok(Deed {
            number,
            entry,
            g,
            p: before.p,
            readied: &self.readied,
        })
    }

    /// Notes who became ready.
    fn note_ready(&mut self, entry: &Entry, rows: &[Goroutine]) -> Result<(), AllocError> {
        self.readied.clear();
        if wakes_many(entry.reply) {
            for (g, row) in rows.iter().enumerate() {
                self.note(goroutine_at(g), row)?;
            }
        } else if let Some(g) = named(entry) {
            if let Some(row) = rows.get(usize::from(g.0)) {
                self.note(g, row)?;
            }
        }
        Ok(())
    }

    /// Notes that the goroutine became ready, if its epoch rose.
    fn note(&mut self, g: GNo, row: &Goroutine) -> Result<(), AllocError> {
        if let Some(epoch) = self.epochs.get_mut(usize::from(g.0)) {
            if *epoch != row.epoch {
                *epoch = row.epoch;
                self.readied.push(g)?;
            }
        }
        Ok(())
    }

    /// The machine's goroutine and processor after the entry.
    fn move_on(&mut self, entry: &Entry) {
        let post = &mut self.machines[usize::from(entry.m.0)];
        match entry.reply {
            Reply::Held => post.g = claimed(&entry.call),
            Reply::Shelved(_) | Reply::Waits | Reply::Dead | Reply::MainEnded => post.g = None,
            Reply::Proc(p) => post.p = Some(p),
            Reply::Runs(p) => post.p = Some(p),
            Reply::Idle(_) | Reply::Entered(_, _) => post.p = None,
            _ => {}
        }
    }
}
