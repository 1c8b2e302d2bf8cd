//! Of each entry of a right trace: its reply is among those that are allowed there, and its call lacks nothing.
//! That the replies which are called allowed are steps, and all of them, is proved; that an entry which is a step is found to lack nothing is seen here.

ghost use Rattle.std.specs.Prelude.{[]};
ghost use Rattle.gmp_seq.specs.Fits.{AreLimits};

use crate::error::ScriptError;
use gmp_allowed::allowed;
use gmp_check::{Replay, begun};
use gmp_history::History;
use gmp_seq::Entry;
use gmp_trace::{Trace, read};
use std::alloc::Global;

/// The entry's reply is allowed before it.
fn judge_entry(alloc: Global, replay: &Replay, mut entry: Entry) -> Result<bool, ScriptError> {
    let reply = entry.reply;
    if replay.lacks(entry.m, &entry.call).is_some() {
        return Ok(false);
    }
    match allowed(alloc, replay, &mut entry) {
        Ok(replies) => Ok(replies.contains(&reply)),
        Err(_) => Ok(false),
    }
}

/// Each entry's reply is among those that are allowed.
pub fn judge_reasons(alloc: Global, text: &[u8]) -> Result<(), ScriptError> {
    match read(alloc, text) {
        Ok(trace) => judge_trace(alloc, &trace),
        Err(_) => Err(ScriptError::line(alloc, 0, "the trace is not read")),
    }
}

/// The same of the trace that is read.
fn judge_trace(alloc: Global, trace: &Trace) -> Result<(), ScriptError>
    requires { AreLimits trace.now.limits trace.now.bodies [] }
{
    let view = trace.view();
    match begun(alloc, view.limits, view.bodies, view.beginning) {
        Ok(mut replay) => judge_entries(alloc, &mut replay, &trace.entries),
        Err(_) => Err(ScriptError::line(alloc, 0, "the trace doesn't begin")),
    }
}

/// The same of these entries, which the replay makes.
fn judge_entries(alloc: Global, replay: &mut Replay, entries: &History) -> Result<(), ScriptError> {
    for i in 0..entries.len() {
        let (Some(one), Some(two)) = (entries.get(i), entries.get(i)) else {
            break;
        };
        if !judge_entry(alloc, replay, one)? || replay.step(&two) != Ok(true) {
            return Err(ScriptError::line(
                alloc,
                i.wrapping_add(4),
                "a reply is not called allowed",
            ));
        }
    }
    Ok(())
}
