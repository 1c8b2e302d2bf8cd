//! One run of a row's script in threads, under a gate: its capacities and its report (`Ran`), and what `gmp run` tells of them.

use crate::row::Row;
use crate::wrong::Wrong;
use gmp_check_cli::check;
use gmp_run::Report;
use gmp_run_cli::told;
use gmp_script::Script;
use gmp_words::{Ended, Settings, script};
use gmp_worker::Boxed;
use std::alloc::Global;

/// What a run came to.
#[derive(Drop)]
pub struct Ran {
    pub capacities: Vec<u32>,
    pub report: Report<Boxed>,
}

/// The row's script.
pub fn script_of(alloc: Global, row: &Row) -> Result<Script, Wrong> {
    let text = row.lines(alloc)?;
    script(alloc, &mut text.as_slice()).map_err(|_| Wrong::Unreadable)
}

impl Ran {
    /// How the command ends, and what it writes.
    pub fn told(self, alloc: Global, settings: &Settings) -> (Ended, Vec<u8>) {
        let mut output = Vec::new(alloc);
        let Ran { capacities, report } = self;
        let ended = told(alloc, settings, &capacities, None, Ok(report), &mut output);
        (ended, output)
    }
}

/// `gmp check` passes the trace.
pub fn passes(alloc: Global, mut trace: &[u8]) -> Result<(), Wrong> {
    let mut summary = Vec::new(alloc);
    match check(alloc, &mut trace, &mut summary, &mut ()).status {
        0 => Ok(()),
        status => Err(Wrong::Number("status of `gmp check`", u64::from(status))),
    }
}
