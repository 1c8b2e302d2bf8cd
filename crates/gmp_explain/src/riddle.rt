//! Why an entry is no step: the entry, what was before it, and the replies that are allowed, or what is missing.
ghost use Rattle.std.specs.Prelude.{◌≡◌, ◌<◌, ◌^◌, [], ◌∷◌, ◌++◌, IfOk, None, OnOk, decimal, drop, length};
ghost use Rattle.gmp_start.specs.Start.{state_of};
ghost use Rattle.gmp_trace.specs.Pieces.{entry_pieces, fields};
ghost use Rattle.gmp_allowed.specs.Allowed.{AreAlike};
ghost use Rattle.gmp_explain.specs.Spoken.{TellsOf};
ghost use Rattle.gmp_explain.specs.Told.{IsReplyPlace, TellsAllowed, TellsAnswer, TellsEntry, may};

use crate::before::tell_before;
use crate::fact::{Fact, Sink};
use crate::told::Story;
use gmp_allowed::allowed;
use gmp_check::{OutOfMemory, Replay};
use gmp_seq::{Entry, Reply};
use gmp_trace::put_entry;
use std::alloc::{AllocError, Global};

/// How long the words of the reply `Nothing` are.
const NOTHING: usize = 4;

/// The entry's line, without its line feed.
fn line_of(alloc: Global, number: u64, entry: &Entry) -> Result<Vec<u8>, AllocError>
    ensures { IfOk result (λ line. line.items ≡ decimal number ++ fields (entry_pieces entry.now)) }
{
    let mut line = Vec::new(alloc);
    put_entry(&mut line, number, entry)?;
    line.pop();
    Ok(line)
}

/// Where the reply begins in the line of entry 0, whatever it is.
fn reply_place(alloc: Global, entry: &mut Entry) -> Result<usize, AllocError>
    ensures place { IfOk result (IsReplyPlace entry.old) }
    ensures alike { AreAlike entry.new entry.old }
{
    entry.reply = Reply::Nothing;
    let line = line_of(alloc, 0, entry)?;
    Ok(line.len().saturating_sub(NOTHING))
}

/// What stands from a place on.
fn behind(line: &[u8], place: usize) -> &[u8]
    ensures { result.now ≡ drop place line.now }
{
    if place <= line.len() {
        &line[place..]
    } else {
        &[]
    }
}

/// Tells of one reply.
fn tell_reply<S: Sink>(
    alloc: Global,
    place: usize,
    entry: &mut Entry,
    reply: Reply,
    sink: &mut S,
) -> Result<(), AllocError>
    requires { IsReplyPlace entry.old place }
    ensures tells { OnOk result (TellsOf S.told (may reply ∷ []) sink.old sink.new) }
    ensures reply { entry.new ≡ record entry.old { reply = reply } }
{
    entry.reply = reply;
    let line = line_of(alloc, 0, entry)?;
    sink.tell(&Fact::Allowed(behind(&line, place)))?;
    Ok(())
}

/// The replies that are allowed.
fn tell_replies<S: Sink>(
    alloc: Global,
    replay: &Replay,
    entry: &mut Entry,
    sink: &mut S,
) -> Result<(), OutOfMemory>
    ensures { OnOk result (TellsAllowed S.told replay.now.limits replay.now.state entry.old sink.old sink.new) }
{
    let replies = allowed(alloc, replay, entry)?;
    let place = reply_place(alloc, entry)?;
    for reply in &replies {
        tell_reply(alloc, place, entry, *reply, sink)?;
    }
    Ok(())
}

/// The replies that are allowed, or why there is none.
fn tell_allowed<S: Sink>(
    alloc: Global,
    story: &Story,
    entry: &mut Entry,
    sink: &mut S,
) -> Result<(), OutOfMemory>
    ensures { OnOk result (TellsAnswer S.told story.now.replay.limits story.now.replay.state entry.old sink.old sink.new) }
{
    if story.replay.outcome().is_some() {
        sink.tell(&Fact::Over)?;
        return Ok(());
    }
    if let Some(need) = story.replay.lacks(entry.m, &entry.call) {
        sink.tell(&Fact::Lacks(need))?;
        return Ok(());
    }
    tell_replies(alloc, &story.replay, entry, sink)
}

/// Why the entry at which the story ends is no step.
pub fn tell_riddle<S: Sink>(
    alloc: Global,
    story: &Story,
    mut entry: Entry,
    sink: &mut S,
) -> Result<(), OutOfMemory>
    requires few { length story.now.last.goroutines.items < 2 ^ 16 }
    requires same { state_of story.now.last ≡ record story.now.replay.state { outcome = None } }
    ensures { OnOk result (TellsEntry S.told story.now.replay.limits story.now.replay.state entry sink.old sink.new) }
{
    let number = story.first.unwrap_or(0).wrapping_add(story.steps as u64);
    let line = line_of(alloc, number, &entry)?;
    sink.tell(&Fact::NoStep(&line))?;
    tell_before(story, &entry, sink)?;
    tell_allowed(alloc, story, &mut entry, sink)
}
