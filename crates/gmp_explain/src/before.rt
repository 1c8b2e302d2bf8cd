//! What is told of the state before an entry that is no step: of its machine, of the goroutine there, of the one that its call names, and of
//! the channels that it names.
ghost use Rattle.std.specs.Prelude.{◌≡◌, ◌<◌, ◌^◌, [], IfNone, IfSome, OnOk, length, map, slice_get};
ghost use Rattle.std.specs.Option.{option_map_or};
ghost use Rattle.gmp_base.specs.declared.number.GNo.{GNo};
ghost use Rattle.gmp_seq.specs.Machines.{spins};
ghost use Rattle.gmp_seq.specs.Table.{IsCalling, IsRunning};
ghost use Rattle.gmp_start.specs.Start.{channel_of, machines_of, state_of, table_of};
ghost use Rattle.gmp_explain.specs.Spoken.{TellsOf};
ghost use Rattle.gmp_explain.specs.Stated.{IsAt, IsHolding, cases_named, channel_named, channels_said, does_said, each_named, latest_said, machine_said, named, named_said, ticket_said};
ghost use Rattle.gmp_explain.specs.Told.{TellsBefore};

use crate::channels::tell_state;
use crate::fact::{Fact, Sink, Told};
use crate::told::Story;
use gmp_base::{CNo, Case, GNo, MNo, PNo, Readiness};
use gmp_seq::{Call, Entry, Mode, Reply, channel_of as case_channel};
use gmp_start::Start;
use gmp_walk::{goroutine_at, processor_at};
use std::alloc::AllocError;

/// So many processors have a number.
const NUMBERS: usize = 1 << 8;

/// What a goroutine does.
fn tell_goroutine<S: Sink>(story: &Story, g: GNo, sink: &mut S) -> Result<(), AllocError>
    ensures { OnOk result (TellsOf S.told (does_said (table_of story.now.last) g) sink.old sink.new) }
{
    let Some(status) = story.does(g) else {
        return Ok(());
    };
    sink.tell(&Fact::Goroutine(Told {
        g,
        status,
        since: story.since(g),
        leak: false,
    }))?;
    Ok(())
}

/// The processor that the machine holds.
fn held_by(last: &Start, m: MNo) -> Option<PNo>
    ensures { IsHolding (machines_of last.now) m result }
{
    let p = last
        .holders
        .iter()
        .take(NUMBERS)
        .position(|holder| *holder == Some(m))?;
    Some(processor_at(p))
}

/// The machine's mode, if it is there.
fn mode(last: &Start, m: MNo) -> Option<Mode>
    ensures { result ≡ slice_get (machines_of last.now).modes m.0 }
{
    last.modes.get(usize::from(m.0)).copied()
}

/// Whether the machine spins.
fn spins(last: &Start, m: MNo) -> bool
    ensures { result ≡ spins (machines_of last.now) m }
{
    last.spinning
        .get(usize::from(m.0))
        .copied()
        .unwrap_or(false)
}

/// What the machine does.
fn tell_machine<S: Sink>(
    last: &Start,
    m: MNo,
    holds: Option<PNo>,
    sink: &mut S,
) -> Result<(), AllocError>
    ensures { OnOk result (TellsOf S.told (machine_said (machines_of last.now) m holds) sink.old sink.new) }
{
    let Some(mode) = mode(last, m) else {
        return Ok(());
    };
    sink.tell(&Fact::Machine {
        m,
        mode,
        holds,
        spins: spins(last, m),
    })?;
    Ok(())
}

/// The place of that which the machine runs.
fn running(last: &Start, m: MNo) -> Option<usize>
    ensures some { IfSome result (λ g. IsRunning (table_of last.now) (record { 0 = g }) m) }
    ensures within { IfSome result (λ g. g < length last.now.goroutines.items) }
    ensures none { IfNone result ((g : GNo) → IsRunning (table_of last.now) g m → ⊥) }
{
    last.goroutines
        .iter()
        .position(|row| row.status.is_running_on(m))
}

/// The place of that whose blocking call the machine makes.
fn calling(last: &Start, m: MNo) -> Option<usize>
    ensures some { IfSome result (λ g. IsCalling (table_of last.now) (record { 0 = g }) m) }
    ensures within { IfSome result (λ g. g < length last.now.goroutines.items) }
    ensures none { IfNone result ((g : GNo) → IsCalling (table_of last.now) g m → ⊥) }
{
    last.goroutines
        .iter()
        .position(|row| row.status.is_calling_on(m))
}

/// Whose blocking call the machine makes.
fn in_call(last: &Start, m: MNo) -> Option<GNo>
    requires { length last.now.goroutines.items < 2 ^ 16 }
    ensures some { IfSome result (λ g. IsCalling (table_of last.now) g m) }
    ensures none { IfNone result ((g : GNo) → IsCalling (table_of last.now) g m → ⊥) }
{
    match calling(last, m) {
        Some(g) => Some(goroutine_at(g)),
        None => None,
    }
}

/// Whom the machine runs, or whose blocking call it makes.
fn at_machine(last: &Start, m: MNo) -> Option<GNo>
    requires { length last.now.goroutines.items < 2 ^ 16 }
    ensures { IsAt (table_of last.now) m result }
{
    match running(last, m) {
        Some(g) => Some(goroutine_at(g)),
        None => in_call(last, m),
    }
}

/// What the goroutine at the machine does.
fn tell_runner<S: Sink>(story: &Story, g: Option<GNo>, sink: &mut S) -> Result<(), AllocError>
    ensures { OnOk result (TellsOf S.told (option_map_or (does_said (table_of story.now.last)) g []) sink.old sink.new) }
{
    match g {
        Some(g) => tell_goroutine(story, g, sink),
        None => Ok(()),
    }
}

/// The goroutine that a call names; of a spawn, the one that its reply names.
fn named(call: &Call, reply: Reply) -> Option<GNo>
    ensures { result ≡ named call.now reply }
{
    match call {
        Call::Put(r) | Call::Claim(r) => Some(r.g),
        Call::Go(h) | Call::Ready(h) => Some(*h),
        Call::Spawn => Some(reply.ticket()?.g),
        _ => None,
    }
}

/// The latest ticket of a goroutine.
fn tell_latest<S: Sink>(story: &Story, g: GNo, sink: &mut S) -> Result<(), AllocError>
    ensures { OnOk result (TellsOf S.told (latest_said (table_of story.now.last) g) sink.old sink.new) }
{
    let epoch = story.epoch(g);
    if epoch == 0 {
        return Ok(());
    }
    sink.tell(&Fact::Latest(Readiness { g, epoch }))?;
    Ok(())
}

/// What the goroutine does, and its latest ticket.
fn tell_ticket<S: Sink>(story: &Story, g: GNo, sink: &mut S) -> Result<(), AllocError>
    ensures { OnOk result (TellsOf S.told (ticket_said (table_of story.now.last) g) sink.old sink.new) }
{
    tell_goroutine(story, g, sink)?;
    tell_latest(story, g, sink)
}

/// The same of the goroutine that is named.
fn tell_named<S: Sink>(story: &Story, g: Option<GNo>, sink: &mut S) -> Result<(), AllocError>
    ensures { OnOk result (TellsOf S.told (option_map_or (ticket_said (table_of story.now.last)) g []) sink.old sink.new) }
{
    match g {
        Some(g) => tell_ticket(story, g, sink),
        None => Ok(()),
    }
}

/// What a channel is.
fn tell_one<S: Sink>(story: &Story, c: Option<CNo>, sink: &mut S) -> Result<(), AllocError>
    ensures { OnOk result (TellsOf S.told (named_said (map channel_of story.now.last.channels.items) c) sink.old sink.new) }
{
    let Some(c) = c else {
        return Ok(());
    };
    let Some(channel) = story.last.channels.get(usize::from(c.0)) else {
        return Ok(());
    };
    tell_state(c, channel, sink)
}

/// The channel that a call names, but a select, which has cases.
fn channel_named(call: &Call) -> Option<CNo>
    ensures { result ≡ channel_named call.now }
{
    match call {
        Call::Send(c, _) => *c,
        Call::Recv(c) | Call::Close(c) | Call::Len(c) | Call::Cap(c) => *c,
        _ => None,
    }
}

/// The cases of a select.
fn cases_named(call: &Call) -> &[Case]
    ensures { result.now ≡ cases_named call.now }
{
    match call {
        Call::Select(cases, _, _) => cases.as_slice(),
        _ => &[],
    }
}

/// What the channels of the cases are.
fn tell_cases<S: Sink>(story: &Story, cases: &[Case], sink: &mut S) -> Result<(), AllocError>
    ensures { OnOk result (TellsOf S.told (each_named (map channel_of story.now.last.channels.items) cases.now) sink.old sink.new) }
{
    for case in cases {
        tell_one(story, case_channel(*case), sink)?;
    }
    Ok(())
}

/// What the channels are that the call names.
fn tell_channels<S: Sink>(story: &Story, call: &Call, sink: &mut S) -> Result<(), AllocError>
    ensures { OnOk result (TellsOf S.told (channels_said (map channel_of story.now.last.channels.items) call.now) sink.old sink.new) }
{
    tell_one(story, channel_named(call), sink)?;
    tell_cases(story, cases_named(call), sink)
}

/// What is to be said of the state before the entry at which the story ends.
pub fn tell_before<S: Sink>(story: &Story, entry: &Entry, sink: &mut S) -> Result<(), AllocError>
    requires { length story.now.last.goroutines.items < 2 ^ 16 }
    ensures { OnOk result (TellsBefore S.told (state_of story.now.last) entry.now sink.old sink.new) }
{
    let holds = held_by(&story.last, entry.m);
    let at = at_machine(&story.last, entry.m);
    tell_machine(&story.last, entry.m, holds, sink)?;
    tell_runner(story, at, sink)?;
    tell_named(story, named(&entry.call, entry.reply), sink)?;
    tell_channels(story, &entry.call, sink)
}
