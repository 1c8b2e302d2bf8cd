//! What is told of channels: of each that somebody waits on or that holds values, what it is, its values, who waits, and who ever dealt on it.
ghost use Rattle.std.specs.Prelude.{◌≡◌, ◌<◌, ◌^◌, ◌∷◌, ◌++◌, [], false, IfOk, None, OnOk, Some, if◌then◌else◌, is_some, length, map, min, slice_get};
ghost use Rattle.std.specs.Option.{option_map_or};
ghost use Rattle.gmp_seq.specs.declared.status.Goroutine.{Goroutine};
ghost use Rattle.gmp_start.specs.Start.{channel_of};
ghost use Rattle.gmp_explain.specs.Spoken.{TellsOf, waiting_by};
ghost use Rattle.gmp_explain.specs.Stated.{busy_said, channel_said, for_each, channel_now, is_still, values_said, if_waiting, waiting, waiting_said};
ghost use Rattle.gmp_allowed.specs.Tried.{waiter_at};

use crate::fact::{Fact, Role, Sink};
use crate::heard::Party;
use crate::told::Story;
use gmp_allowed::waiter_at;
use gmp_base::{CNo, GNo};
use gmp_seq::{Direction, Goroutine};
use gmp_start::StartChannel;
use gmp_walk::{channel_at, goroutine_at};
use std::alloc::{AllocError, Global};

/// So many channels have a number.
const NUMBERS: usize = 1 << 16;

/// Whether the goroutine of this number waits on the channel in this direction.
fn waits_on(rows: &[Goroutine], g: GNo, c: CNo, direction: Direction) -> bool
    ensures { result ≡ option_map_or (λ (row : Goroutine). is_some (waiter_at g row.status c direction)) (slice_get rows.now g.0) false }
{
    match rows.get(usize::from(g.0)) {
        Some(row) => waiter_at(g, &row.status, c, direction).is_some(),
        None => false,
    }
}

/// Adds the goroutine, if so.
fn add_if(who: &mut Vec<GNo>, g: GNo, is: bool) -> Result<(), AllocError>
    ensures { OnOk result (who.new.items ≡ who.old.items ++ (if is then g ∷ [] else [])) }
{
    if is {
        who.push(g)?;
    }
    Ok(())
}

/// The goroutines that wait on the channel in this direction.
fn waiting(
    alloc: Global,
    rows: &[Goroutine],
    c: CNo,
    direction: Direction,
) -> Result<Vec<GNo>, AllocError>
    requires { length rows.now < 2 ^ 16 }
    ensures { IfOk result (λ who. who.items ≡ waiting rows.now c direction) }
{
    let mut who = Vec::new(alloc);
    for g in 0..rows.len() {
        let g = goroutine_at(g);
        add_if(&mut who, g, waits_on(rows, g, c, direction))?;
    }
    Ok(who)
}

/// What those who did this are called.
fn role_of(party: Party) -> Role
    ensures { waiting_by result ≡ None }
{
    match party {
        Party::Sent => Role::Sent,
        Party::Received => Role::Received,
        Party::Closed => Role::Closed,
    }
}

/// Who did this on the channel.
fn tell_party<S: Sink>(
    alloc: Global,
    story: &Story,
    c: CNo,
    party: Party,
    sink: &mut S,
) -> Result<(), AllocError>
    ensures { OnOk result (TellsOf S.told [] sink.old sink.new) }
{
    let mut who = Vec::new(alloc);
    for g in 0..story.last.goroutines.len() {
        let g = goroutine_at(g);
        if story.heard.parties.has(c, g, party) {
            who.push(g)?;
        }
    }
    sink.tell(&Fact::Dealers(c, role_of(party), &who))?;
    Ok(())
}

/// Who closed the channel, if it is closed.
fn tell_closer<S: Sink>(
    alloc: Global,
    story: &Story,
    c: CNo,
    closed: bool,
    sink: &mut S,
) -> Result<(), AllocError>
    ensures { OnOk result (TellsOf S.told [] sink.old sink.new) }
{
    if !closed {
        return Ok(());
    }
    tell_party(alloc, story, c, Party::Closed, sink)
}

/// Who sent on the channel and received from it, where somebody waits there.
fn tell_dealers<S: Sink>(
    alloc: Global,
    story: &Story,
    c: CNo,
    is_waited: bool,
    sink: &mut S,
) -> Result<(), AllocError>
    ensures { OnOk result (TellsOf S.told [] sink.old sink.new) }
{
    if !is_waited {
        return Ok(());
    }
    tell_party(alloc, story, c, Party::Sent, sink)?;
    tell_party(alloc, story, c, Party::Received, sink)
}

/// What a channel is.
pub(crate) fn tell_state<S: Sink>(
    c: CNo,
    channel: &StartChannel,
    sink: &mut S,
) -> Result<(), AllocError>
    ensures { OnOk result (TellsOf S.told (channel_now c (channel_of channel.now) ∷ []) sink.old sink.new) }
{
    sink.tell(&Fact::Channel {
        c,
        closed: channel.closed,
        room: channel.capacity,
        holds: channel.items.len(),
    })?;
    Ok(())
}

/// The values that a channel holds, if it holds any.
fn tell_values<S: Sink>(c: CNo, items: &[u64], sink: &mut S) -> Result<(), AllocError>
    ensures { OnOk result (TellsOf S.told (values_said c items.now) sink.old sink.new) }
{
    if items.is_empty() {
        return Ok(());
    }
    sink.tell(&Fact::Values(c, items))?;
    Ok(())
}

/// What those who wait so are called.
fn role_in(direction: Direction) -> Role
    ensures { waiting_by result ≡ Some direction }
{
    match direction {
        Direction::Sending => Role::WaitsToSend,
        Direction::Receiving => Role::WaitsToReceive,
    }
}

/// Who waits on the channel in this direction, if anybody does.
fn tell_waiting<S: Sink>(
    c: CNo,
    direction: Direction,
    who: &[GNo],
    sink: &mut S,
) -> Result<(), AllocError>
    ensures { OnOk result (TellsOf S.told (waiting_said c direction who.now) sink.old sink.new) }
{
    if who.is_empty() {
        return Ok(());
    }
    sink.tell(&Fact::Dealers(c, role_in(direction), who))?;
    Ok(())
}

/// A channel's state, who waits, and who dealt on it.
fn tell_busy<S: Sink>(
    alloc: Global,
    story: &Story,
    c: CNo,
    channel: &StartChannel,
    sending: &[GNo],
    receiving: &[GNo],
    sink: &mut S,
) -> Result<(), AllocError>
    ensures { OnOk result (TellsOf S.told (busy_said c (channel_of channel.now) sending.now receiving.now) sink.old sink.new) }
{
    tell_state(c, channel, sink)?;
    tell_values(c, &channel.items, sink)?;
    tell_closer(alloc, story, c, channel.closed, sink)?;
    tell_waiting(c, Direction::Sending, sending, sink)?;
    tell_waiting(c, Direction::Receiving, receiving, sink)?;
    let is_waited = !sending.is_empty() || !receiving.is_empty();
    tell_dealers(alloc, story, c, is_waited, sink)
}

/// Whether nobody waits, and nothing is held.
fn is_still(items: &[u64], sending: &[GNo], receiving: &[GNo]) -> bool
    ensures { result ≡ is_still items.now sending.now receiving.now }
{
    sending.is_empty() && receiving.is_empty() && items.is_empty()
}

/// A channel that somebody waits on or that holds values.
fn tell_channel<S: Sink>(
    alloc: Global,
    story: &Story,
    c: CNo,
    sink: &mut S,
) -> Result<(), AllocError>
    requires { length story.now.last.goroutines.items < 2 ^ 16 }
    ensures { OnOk result (TellsOf S.told
        (channel_said story.now.last.goroutines.items (map channel_of story.now.last.channels.items) c) sink.old sink.new) }
{
    let Some(channel) = story.last.channels.get(usize::from(c.0)) else {
        return Ok(());
    };
    let rows = &story.last.goroutines;
    let sending = waiting(alloc, rows, c, Direction::Sending)?;
    let receiving = waiting(alloc, rows, c, Direction::Receiving)?;
    if is_still(&channel.items, &sending, &receiving) {
        return Ok(());
    }
    tell_busy(alloc, story, c, channel, &sending, &receiving, sink)
}

/// Each channel that somebody waits on or that holds values.
pub fn tell_channels<S: Sink>(alloc: Global, story: &Story, sink: &mut S) -> Result<(), AllocError>
    requires { length story.now.last.goroutines.items < 2 ^ 16 }
    ensures { OnOk result (TellsOf S.told
        (for_each (min (length story.now.last.channels.items) (2 ^ 16))
        (λ c. channel_said story.now.last.goroutines.items (map channel_of story.now.last.channels.items) (record { 0 = c })))
        sink.old sink.new) }
{
    for c in 0..story.last.channels.len().min(NUMBERS) {
        tell_channel(alloc, story, channel_at(c), sink)?;
    }
    Ok(())
}
