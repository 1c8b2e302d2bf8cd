//! Texts and sizes that no clause says, what a run is made of where there is memory, and audits.

use crate::words::put_line;
use gmp_base::{Fault, MNo, Refusal};
use gmp_chan::Channels;
use gmp_history::{History, PassLog, audit};
use gmp_idle::Machines;
use gmp_seq::{Call, Entry, Reply};
use gmp_table::StatusTable;
use gmp_trace::{Bad, Why};
use gmp_words::{Ended, Untraced};
use std::alloc::{AllocError, Global};

/// What faults and refusals say, and ends with their statuses; and whether an entry is small, as histories are long.
pub fn texts(alloc: Global, out: &mut Vec<u8>) -> Result<(), Ended> {
    let (fault, refusal) = (Fault::SendOnClosed, Refusal::Behind(3, 5));
    let is_small = std::mem::size_of::<Entry>() <= 256;
    let text = format!(in alloc; "{fault}\n{refusal}\n{is_small}")?;
    put_line(out, &[text.as_str()])?;
    let bad = Bad {
        line: 8,
        why: Why::Step,
    };
    put_end(alloc, Ended::bad_line(2), out)?;
    put_end(alloc, Ended::bad_trace(bad), out)?;
    put_end(alloc, Ended::bad_part(3, bad), out)?;
    put_end(alloc, Ended::apart(3), out)?;
    put_end(alloc, Ended::too_long(), out)?;
    put_end(alloc, Ended::unreadable(), out)?;
    put_end(alloc, Ended::output_failed(), out)?;
    put_end(alloc, Ended::bad_limits(), out)?;
    put_end(alloc, Ended::out_of_memory(), out)?;
    put_end(alloc, Ended::no_run(), out)?;
    for why in [Untraced::Crowded(2), Untraced::TooLong, Untraced::Astray] {
        put_end(alloc, Ended::no_trace(why), out)?;
    }
    let usage = String::from_str(alloc, "error: no\n")?;
    Ok(put_end(alloc, Ended::usage(usage), out)?)
}

/// A status, and what is said.
fn put_end(alloc: Global, ended: Ended, out: &mut Vec<u8>) -> Result<(), AllocError> {
    let text = format!(in alloc; "{} {}", ended.status, ended.said)?;
    out.extend_from_slice(text.as_bytes())
}

/// Tables, channels and machines have memory enough.
pub fn opens(alloc: Global, out: &mut Vec<u8>) -> Result<(), Ended> {
    let table = StatusTable::open(alloc, 3)?;
    let mut channels = Channels::open(alloc, 4, 8, &[])?;
    let c = channels.make(alloc, 4096)?;
    let machines = Machines::opening(alloc, 32, 64)?;
    let (len, cap, has_idle) = (table.len(), channels.cap(c), machines.has_idle());
    let text = format!(in alloc; "{len} {cap} {has_idle}")?;
    Ok(put_line(out, &[text.as_str()])?)
}

/// What machine 0 says of itself, once for each word of the line.
fn logs(alloc: Global, line: &str) -> Result<Vec<PassLog>, AllocError> {
    let mut logs = Vec::new(alloc);
    for word in line.split(' ') {
        if let Ok(calls) = word.parse() {
            logs.push(PassLog { m: MNo(0), calls })?;
        }
    }
    Ok(logs)
}

/// What the audit finds of seven entries of machine 0, by the logs of each line.
pub fn audits(alloc: Global, text: &[u8], out: &mut Vec<u8>) -> Result<(), Ended> {
    let entries = [0, 1, 2, 3, 4, 5, 6].map(|k| Entry::new(MNo(0), k, Call::Bare, Reply::Done));
    let history = History::of(alloc, &entries)?;
    for line in str::from_utf8(text).unwrap_or("").lines() {
        let found = audit(&history, &logs(alloc, line)?);
        let found = format!(in alloc; "{found:?}")?;
        put_line(out, &[found.as_str()])?;
    }
    Ok(())
}
