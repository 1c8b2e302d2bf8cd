//! The entries of a trace, replayed one by one by the plain scheduler. And what no trace can say: a reply that is spelled as another one is
//! told apart from it.

use crate::words::put_line;
use gmp_check::{Replay, outcome_of};
use gmp_seq::{Entry, Reply};
use gmp_trace::{Beginning, read};
use gmp_words::Ended;
use std::alloc::Global;

/// What was found of a replay's entries.
struct Found {
    steps: usize,
    /// Those that are no steps by a reply that is spelled alike.
    told_apart: usize,
}

/// The reply that is spelled as this one: of an `enter` as of a `declare`.
fn alike(reply: Reply) -> Option<Reply> {
    match reply {
        Reply::Entered(p, None) => Some(Reply::Idle(p)),
        Reply::Idle(p) => Some(Reply::Entered(p, None)),
        _ => None,
    }
}

/// The entry is first tried with the reply that is spelled alike, if there is one.
fn judge(replay: &mut Replay, mut entry: Entry, found: &mut Found) {
    let reply = entry.reply;
    if let Some(other) = alike(reply) {
        entry.reply = other;
        if replay.step(&entry) == Ok(false) {
            found.told_apart = found.told_apart.wrapping_add(1);
        }
        entry.reply = reply;
    }
    if replay.step(&entry) == Ok(true) {
        found.steps = found.steps.wrapping_add(1);
    }
}

/// How many entries of the trace are steps, how many are told apart, and its outcome: as it is replayed, and of all entries at once.
pub fn replay(alloc: Global, text: &[u8], out: &mut Vec<u8>) -> Result<(), Ended> {
    let trace = read(alloc, text)?;
    let Beginning::Opening(capacities) = &trace.beginning else {
        return Err(Ended::bad_limits());
    };
    let Ok(mut replay) = Replay::open(alloc, trace.limits, trace.bodies, capacities) else {
        return Err(Ended::bad_limits());
    };
    let mut found = Found {
        steps: 0,
        told_apart: 0,
    };
    for entry in trace.entries.iter() {
        judge(&mut replay, entry, &mut found);
    }
    let outcome = outcome_of(
        alloc,
        trace.limits,
        trace.bodies,
        capacities,
        &trace.entries,
    );
    let Found { steps, told_apart } = found;
    let text = format!(in alloc; "{steps} {told_apart} {:?} {outcome:?}", replay.outcome())?;
    Ok(put_line(out, &[text.as_str()])?)
}
