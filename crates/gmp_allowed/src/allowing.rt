//! Which replies are allowed before an entry: of those that its call could have, the ones by which the checker takes it.
ghost use Rattle.std.specs.Prelude.{◌≡◌, ◌↔◌, All, IfOk, IsTrue, OnOk};
ghost use Rattle.gmp_allowed.specs.Allowed.{AreAlike, AreThoseAllowed, IsAllowed, IsWhole, Tries};

use crate::replies::{add, candidates};
use gmp_check::{OutOfMemory, Replay};
use gmp_seq::{Entry, Reply};
use std::alloc::Global;

/// Whether the entry is a step with this reply, which it has afterwards.
fn is_step(
    alloc: Global,
    replay: &Replay,
    entry: &mut Entry,
    reply: Reply,
) -> Result<bool, OutOfMemory>
    ensures step { IfOk result (λ b. IsTrue b ↔ IsAllowed replay.now.limits replay.now.state entry.old reply) }
    ensures reply { entry.new ≡ record entry.old { reply = reply } }
{
    entry.reply = reply;
    replay.allows(alloc, entry)
}

/// Adds the reply, if the entry is a step with it.
fn try_reply(
    alloc: Global,
    replay: &Replay,
    entry: &mut Entry,
    reply: Reply,
    right: &mut Vec<Reply>,
) -> Result<(), OutOfMemory>
    ensures tries { OnOk result (Tries replay.now.limits replay.now.state entry.old reply right.old.items right.new.items) }
    ensures reply { entry.new ≡ record entry.old { reply = reply } }
{
    if is_step(alloc, replay, entry, reply)? {
        add(right, reply)?;
    }
    Ok(())
}

/// Of these replies, in order, those with which the entry would be a step.
fn allowed_of(
    alloc: Global,
    replay: &Replay,
    entry: &mut Entry,
    replies: &[Reply],
) -> Result<Vec<Reply>, OutOfMemory>
    ensures exact { IfOk result (λ v. AreThoseAllowed replay.now.limits replay.now.state entry.old replies.now v.items) }
    ensures alike { OnOk result (AreAlike entry.new entry.old) }
{
    let mut right = Vec::new(alloc);
    for reply in replies {
        try_reply(alloc, replay, entry, *reply, &mut right)?;
    }
    Ok(right)
}

/// The replies with which the entry would be a step. The reply that it has is not looked at, and is another one afterwards.
pub fn allowed(alloc: Global, replay: &Replay, entry: &mut Entry) -> Result<Vec<Reply>, OutOfMemory>
    ensures right { IfOk result (λ v. All (IsAllowed replay.now.limits replay.now.state entry.old) v.items) }
    ensures whole { IfOk result (λ v. IsWhole replay.now.limits replay.now.state entry.old v.items) }
    ensures alike { OnOk result (AreAlike entry.new entry.old) }
{
    let last = replay.copied(alloc)?;
    let replies = candidates(alloc, &last, entry.m, &entry.call)?;
    let right = allowed_of(alloc, replay, entry, &replies)?;
    Ok(right)
}
