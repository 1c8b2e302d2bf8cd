//! Reports of machine 0 alone whose logs are others, or that are held against another script. Behind its status a row has on a line each how
//! many calls the logs say, how many in all the audit says where it finds fault with them, and the script against which the run is held.

use crate::boxing::ran;
use crate::row::{Row, first_line, lines, unless_none};
use crate::wrong::{Wrong, held};
use gmp_base::MNo;
use gmp_history::{Mismatch, PassLog, audit};
use gmp_run::{Open, Report};
use gmp_run_cli::told;
use gmp_words::{Ended, Settings, script};
use gmp_worker::Boxed;
use std::alloc::{AllocError, Global};
use std::sync::Wait;
use std::thread::Threads;

/// How many entries the run has.
const ENTRIES: u64 = 7;

/// The logs of machine 0 that say so many calls.
fn logs_of(alloc: Global, calls: &str) -> Result<Vec<PassLog>, Wrong> {
    let mut logs = Vec::new(alloc);
    for calls in calls.split_whitespace() {
        let Ok(calls) = calls.parse() else {
            return Err(Wrong::Unreadable);
        };
        logs.push(PassLog { m: MNo(0), calls })?;
    }
    Ok(logs)
}

/// The audit finds that the logs say so many calls, which aren't as many as entries, or it finds nothing.
fn is_audited(report: &Report<Boxed>, said: &str) -> Result<(), Wrong> {
    let wanted = match said.parse() {
        Ok(said) => Err(Mismatch {
            m: MNo(0),
            said,
            found: ENTRIES,
        }),
        Err(_) => Ok(()),
    };
    let found = audit(&report.history, &report.logs);
    held(found == wanted, Wrong::OtherLog)
}

/// How the command ends on this report, held against this script, if any; what it writes goes to `output`.
fn ended(
    alloc: Global,
    settings: &Settings,
    report: Report<Boxed>,
    other: &str,
    output: &mut Vec<u8>,
) -> Result<Ended, Wrong> {
    if other.is_empty() {
        return Ok(told(alloc, settings, &[], None, Ok(report), output));
    }
    let text = lines(alloc, other)?;
    let Ok(other) = script(alloc, &mut text.as_slice()) else {
        return Err(Wrong::Unreadable);
    };
    let against = Some(other.bodies.as_slice());
    Ok(told(alloc, settings, &[], against, Ok(report), output))
}

/// What is wrong is named by this text, and nothing is written then.
fn is_named(alloc: Global, ended: &Ended, text: &str, output: &[u8]) -> Result<(), Wrong> {
    let said = format!(in alloc; "{}", ended.said)?;
    held(said.trim_end() == text, Wrong::OtherText)?;
    held(output.is_empty() != text.is_empty(), Wrong::OtherText)
}

/// Tries the row.
pub fn tried<R: Threads + Wait + Sync>(rt: &R, alloc: Global, row: &str) -> Result<(), Wrong> {
    let row = Row::read(row)?;
    let (logs, rest) = first_line(row.text);
    let (said, rest) = first_line(rest);
    let (other, text) = first_line(rest);
    let settings = row.settings(alloc)?;
    let ran = ran!(rt, alloc, &row, settings, &Open);
    let mut report = ran.report;
    report.logs = logs_of(alloc, unless_none(logs))?;
    is_audited(&report, said)?;
    let mut output = Vec::new(alloc);
    let ended = ended(alloc, &settings, report, unless_none(other), &mut output)?;
    row.ends_with(ended.status)?;
    is_named(alloc, &ended, text, &output)
}
