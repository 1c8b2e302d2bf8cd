//! The two ways in which a host is run.

use gmp_host::{Ended, History, Host, Settings, Short, Sink, Stop};
use std::sync::Wait;
use std::thread::Threads;
use std::time::Clock;

/// Lets go of each piece of the history.
#[derive(Drop)]
struct LetsGo;

impl Sink for LetsGo {
    ghost use Rattle.std.specs.Prelude.{List};
    ghost use Rattle.gmp_seq.specs.declared.call.Entry.{Entry};

    ghost takes = { λ before entries after. Unit {0} };

    ghost refuses = { λ before entries after. ⊥ };

    fn take(&mut self, history: &mut History) -> Result<(), Stop> {
        history.clear();
        Ok(())
    }
}

/// What runs a host.
#[derive(Clone, Copy, Drop)]
pub enum Runner {
    /// A core, in this thread.
    Core,
    /// Machines in threads.
    Threads,
}

impl Runner {
    /// In threads there are entries for goroutines that yield for as long as others take.
    pub fn settings(self) -> Settings {
        let settings = Settings::default();
        match self {
            Runner::Core => settings,
            Runner::Threads => Settings {
                entries: 1 << 40,
                ..settings
            },
        }
    }

    /// Runs the host.
    pub fn run<R: Threads + Wait + Clock + Sync>(self, rt: &R, host: Host) -> Result<Ended, Short> {
        match self {
            Runner::Core => host.step(),
            Runner::Threads => host.run_into(rt, LetsGo).0,
        }
    }
}
