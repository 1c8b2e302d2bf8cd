//! The gate of a host's run in threads.

use crate::note::Note;
use gmp_base::MNo;
use gmp_driver::Act;
use gmp_run::{Clock, Gate};

/// A gate that notes what the clock shows before each resumption, where a goroutine reads the time, and then is another gate.
#[derive(Drop)]
pub(crate) struct Stamps<'a, C, G> {
    clock: &'a C,
    shown: &'a Note,
    /// Whether a goroutine reads the time.
    is_read: bool,
    gate: &'a G,
}

impl<'a, C, G> Stamps<'a, C, G> {
    pub fn of(clock: &'a C, shown: &'a Note, is_read: bool, gate: &'a G) -> Self {
        Stamps {
            clock,
            shown,
            is_read,
            gate,
        }
    }
}

impl<C: Clock, G: Gate> Gate for Stamps<'_, C, G> {
    /// Notes the time where a goroutine is about to be resumed.
    fn before(&self, m: MNo, act: &Act) {
        if self.is_read && matches!(act, Act::Resume) {
            self.shown.set(self.clock.now());
        }
        self.gate.before(m, act);
    }

    fn is_open(&self) -> bool {
        !self.is_read && self.gate.is_open()
    }

    fn admits(&self, m: MNo) -> bool {
        self.gate.admits(m)
    }
}
