//! Whether work is left asleep, as the entries tell it: a second account of who is awake, apart from the book's.

use gmp_base::MNo;
use gmp_history::History;
use gmp_seq::{Call, Entry, Mode, Reply};
use std::alloc::{AllocError, Global};

/// What the machines do, and how many goroutines are ready.
#[derive(Drop)]
struct State {
    modes: Vec<Mode>,
    ready: u64,
}

impl State {
    /// All machines are awake, and main is ready.
    fn opening(alloc: Global, machines: u8) -> Result<Self, AllocError> {
        let mut modes = Vec::with_capacity(alloc, usize::from(machines))?;
        for _ in 0..machines {
            modes.push(Mode::Awake)?;
        }
        Ok(State { modes, ready: 1 })
    }

    /// What the machine does from now on.
    fn set(&mut self, m: MNo, mode: Mode) {
        if let Some(its) = self.modes.get_mut(usize::from(m.0)) {
            *its = mode;
        }
    }

    /// So many more are ready.
    fn more_ready(&mut self, count: u64) {
        self.ready = self.ready.saturating_add(count);
    }

    /// Notes an entry. A ticket that is taken from the shelf was ready before, and who is claimed is ready no more.
    fn note(&mut self, entry: &Entry) {
        let m = entry.m;
        match entry.reply {
            Reply::Parked => self.set(m, Mode::Parked),
            Reply::Wakes(n) => self.set(n, Mode::Awake),
            Reply::Entered(_, woken) => {
                self.set(m, Mode::Calling);
                if let Some(n) = woken {
                    self.set(n, Mode::Awake);
                }
            }
            Reply::Runs(_) => self.set(m, Mode::Awake),
            Reply::Shelved(_) => {
                self.set(m, Mode::Awake);
                self.more_ready(1);
            }
            Reply::Held => self.ready = self.ready.saturating_sub(1),
            Reply::Closed(count) | Reply::Woke(count) => self.more_ready(count),
            Reply::Ticket(_) if matches!(entry.call, Call::Take) => {}
            reply if reply.ticket().is_some() => self.more_ready(1),
            _ => {}
        }
    }

    /// Whether a goroutine is ready, nobody is awake and a machine is parked.
    fn is_asleep(&self) -> bool {
        self.ready > 0
            && !self.modes.iter().any(|mode| *mode == Mode::Awake)
            && self.modes.iter().any(|mode| *mode == Mode::Parked)
    }
}

/// Whether at some time a goroutine is ready while nobody is awake and a machine is parked.
/// A machine at a deadline counts as awake: it comes back by itself, or is called.
pub fn leaves_work_asleep(
    alloc: Global,
    machines: u8,
    history: &History,
) -> Result<bool, AllocError> {
    let mut state = State::opening(alloc, machines)?;
    for entry in history.iter() {
        state.note(&entry);
        if state.is_asleep() {
            return Ok(true);
        }
    }
    Ok(false)
}
