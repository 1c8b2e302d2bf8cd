//! What each machine does, as a walk tells it.

use crate::spans::{Doing, Span, Spans, is_asked};
use gmp_base::{GNo, MNo};
use gmp_seq::{Call, Mode, Reply, Status};
use gmp_start::Start;
use gmp_walk::Deed;
use std::alloc::{AllocError, Global};

/// So many machines have a lane each, whatever they do; of more only those that act.
const MACHINES: u8 = 8;

/// The machine that an entry woke.
fn woken_by(reply: Reply) -> Option<MNo> {
    match reply {
        Reply::Wakes(m) => Some(m),
        Reply::Entered(_, woken) => woken,
        _ => None,
    }
}

/// What the machine does from the entry on, if the entry begins something.
fn begun_by(deed: &Deed) -> Option<Doing> {
    let m = deed.entry.m;
    match (&deed.entry.call, deed.entry.reply) {
        (Call::Claim(r), Reply::Held) => Some(Doing::Runs(r.g, m)),
        (Call::Leave(_), Reply::Runs(_)) => Some(Doing::Runs(deed.g?, m)),
        (Call::Enter, Reply::Entered(_, _)) => Some(Doing::Calls(deed.g?, m)),
        (Call::Spin, Reply::Answer(true)) => Some(Doing::Spins),
        (Call::Park, Reply::Parked) => Some(Doing::Parked),
        _ => None,
    }
}

/// Whether the entry is the last of what the machine did.
fn is_last(call: &Call, reply: Reply) -> bool {
    match (call, reply) {
        (Call::Yield | Call::Leave(_), Reply::Shelved(_)) => true,
        (Call::Exit, _) | (_, Reply::Waits) => true,
        _ => false,
    }
}

impl Spans {
    /// Has a lane for each of so many machines.
    pub fn open_machines(&mut self, machines: u8) -> Result<(), AllocError> {
        for _ in 0..machines {
            self.current.push(None)?;
        }
        Ok(())
    }

    /// What the machines do before the first entry.
    pub fn begin_machines(&mut self, start: &Start) {
        for (m, (mode, spins)) in (0..=u8::MAX).zip(start.modes.iter().zip(start.spinning.iter())) {
            if *mode == Mode::Parked {
                self.begin(MNo(m), Doing::Parked, 0, None);
            } else if *spins {
                self.begin(MNo(m), Doing::Spins, 0, None);
            }
        }
        for (g, row) in (0..=u16::MAX).zip(start.goroutines.iter()) {
            match row.status {
                Status::Running(m) => self.begin(m, Doing::Runs(GNo(g), m), 0, None),
                Status::Calling(m) => self.begin(m, Doing::Calls(GNo(g), m), 0, None),
                _ => {}
            }
        }
    }

    /// Whether the entry is the last of what its machine does. One that runs a goroutine may stop to spin, though it doesn't.
    fn is_end(&self, deed: &Deed) -> bool {
        match (
            &deed.entry.call,
            self.current.get(usize::from(deed.entry.m.0)),
        ) {
            (Call::Unspin, Some(Some(span))) => matches!(span.doing, Doing::Spins),
            (call, _) => is_last(call, deed.entry.reply),
        }
    }

    /// Notes what an entry began and ended at machines.
    pub fn hear_machines(&mut self, deed: &Deed) -> Result<(), AllocError> {
        let m = deed.entry.m;
        if let Some(doing) = begun_by(deed) {
            self.end(m, deed.number)?;
            self.begin(m, doing, deed.number, Some(deed.number));
        } else {
            if is_asked(&deed.entry.call) {
                self.ask(u16::from(m.0), deed.number);
            }
            if self.is_end(deed) {
                self.end(m, deed.number.saturating_add(1))?;
            }
        }
        if let Some(woken) = woken_by(deed.entry.reply) {
            self.end(woken, deed.number)?;
        }
        Ok(())
    }

    /// Begins a span. None is open at the machine.
    fn begin(&mut self, m: MNo, doing: Doing, from: u64, opening: Option<u64>) {
        if let Some(place) = self.current.get_mut(usize::from(m.0)) {
            *place = Some(Span::new(u16::from(m.0), doing, from, opening));
        }
    }

    /// Ends what is open at the machine, before this entry.
    fn end(&mut self, m: MNo, to: u64) -> Result<(), AllocError> {
        let m = usize::from(m.0);
        if m < self.current.len() {
            let span = self.current[m];
            self.current[m] = None;
            self.keep(span, to)?;
        }
        Ok(())
    }
}

/// Which of so many machines have a lane, where these have an entry that is shown.
pub fn shown_machines(
    alloc: Global,
    machines: u8,
    acted: &[bool; 256],
) -> Result<Vec<bool>, AllocError> {
    let mut shown = Vec::new(alloc);
    for m in 0..machines {
        shown.push(machines <= MACHINES || acted[usize::from(m)])?;
    }
    Ok(shown)
}
