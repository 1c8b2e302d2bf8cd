//! The facts of a story, in order: the end, each goroutine, each channel that somebody waits on or that holds values, cycles, machines
//! and processors where all is told, and the longest way of a ticket.
ghost use Rattle.std.specs.Prelude.{◌≡◌, ◌<◌, ◌^◌, [], None, OnOk, length};
ghost use Rattle.gmp_start.specs.Start.{state_of, table_of};
ghost use Rattle.gmp_explain.specs.Spoken.{TellsOf};
ghost use Rattle.gmp_explain.specs.Stated.{cases_said, for_each, goroutine_said, is_leak, state_said};

use crate::channels::tell_channels;
use crate::fact::{Caller, Fact, Made, Sink, Told};
use crate::heard::{Counts, Heard};
use crate::knot::tell_cycles;
use crate::told::Story;
use gmp_base::GNo;
use gmp_seq::{Kind, Outcome, Status};
use gmp_trace::End;
use gmp_walk::{goroutine_at, machine_at, processor_at};
use std::alloc::{AllocError, Global};

/// Whether it waits though main ended.
fn is_leak(outcome: Option<Outcome>, status: &Status) -> bool
    ensures { result ≡ is_leak outcome status.now }
{
    matches!(
        (outcome, status),
        (Some(Outcome::MainEnded), Status::Waiting(_))
    )
}

/// The cases of the select in which a goroutine waits.
fn tell_cases<S: Sink>(g: GNo, status: &Status, sink: &mut S) -> Result<(), AllocError>
    ensures { OnOk result (TellsOf S.told (cases_said g status.now) sink.old sink.new) }
{
    let Status::Waiting(wait) = status else {
        return Ok(());
    };
    if !matches!(wait.kind, Kind::Select) {
        return Ok(());
    }
    for offer in wait.offers.as_slice() {
        sink.tell(&Fact::Case { g, offer })?;
    }
    Ok(())
}

/// The `ready` that a goroutine missed, where it waits for one.
fn tell_lost<S: Sink>(
    g: GNo,
    status: &Status,
    story: &Story,
    sink: &mut S,
) -> Result<(), AllocError>
    ensures { OnOk result (TellsOf S.told [] sink.old sink.new) }
{
    if !status.is_parked() {
        return Ok(());
    }
    if let Some(Some(lost)) = story.heard.lost.get(usize::from(g.0)) {
        sink.tell(&Fact::Lost { g, lost: *lost })?;
        return Ok(());
    }
    Ok(())
}

/// What a goroutine does, and the `ready` that it missed, where it waits for one.
fn tell_goroutine<S: Sink>(g: GNo, story: &Story, sink: &mut S) -> Result<(), AllocError>
    ensures { OnOk result (TellsOf S.told (goroutine_said story.now.replay.state.outcome (table_of story.now.last) g) sink.old sink.new) }
{
    let Some(status) = story.does(g) else {
        return Ok(());
    };
    sink.tell(&Fact::Goroutine(Told {
        g,
        status,
        since: story.since(g),
        leak: is_leak(story.replay.outcome(), status),
    }))?;
    tell_cases(g, status, sink)?;
    tell_lost(g, status, story, sink)
}

/// What each goroutine does.
fn tell_goroutines<S: Sink>(story: &Story, sink: &mut S) -> Result<(), AllocError>
    requires { length story.now.last.goroutines.items < 2 ^ 16 }
    ensures { OnOk result (TellsOf S.told
        (for_each (length story.now.last.goroutines.items) (λ g. goroutine_said story.now.replay.state.outcome (table_of story.now.last) (record { 0 = g })))
        sink.old sink.new) }
{
    for g in 0..story.last.goroutines.len() {
        tell_goroutine(goroutine_at(g), story, sink)?;
    }
    Ok(())
}

/// How many entries a machine or a processor has, and of which calls.
fn tell_counts<S: Sink>(
    alloc: Global,
    unit: Caller,
    counts: &Counts,
    sink: &mut S,
) -> Result<(), AllocError>
    ensures { OnOk result (TellsOf S.told [] sink.old sink.new) }
{
    let mut made: Vec<Made> = Vec::new(alloc);
    let mut all = 0u64;
    for (call, n) in counts.iter().enumerate() {
        if *n > 0 {
            made.push((call, *n))?;
            all = all.saturating_add(*n);
        }
    }
    sink.tell(&Fact::Entries(unit, all))?;
    if !made.is_empty() {
        sink.tell(&Fact::Calls(unit, &made))?;
    }
    Ok(())
}

/// Machines and processors, where all is told.
fn tell_callers<S: Sink>(
    alloc: Global,
    all: bool,
    heard: &Heard,
    sink: &mut S,
) -> Result<(), AllocError>
    ensures { OnOk result (TellsOf S.told [] sink.old sink.new) }
{
    if !all {
        return Ok(());
    }
    for (m, counts) in heard.machines.iter().enumerate() {
        tell_counts(alloc, Caller::Machine(machine_at(m)), counts, sink)?;
    }
    for (p, counts) in heard.processors.iter().enumerate() {
        tell_counts(alloc, Caller::Processor(processor_at(p)), counts, sink)?;
    }
    Ok(())
}

/// Machines and processors where all is told, and the longest way of a ticket.
fn tell_units<S: Sink>(
    alloc: Global,
    all: bool,
    heard: &Heard,
    sink: &mut S,
) -> Result<(), AllocError>
    ensures { OnOk result (TellsOf S.told [] sink.old sink.new) }
{
    tell_callers(alloc, all, heard, sink)?;
    match heard.longest {
        Some(way) => sink.tell(&Fact::Longest(way)),
        None => Ok(()),
    }
}

/// The facts of the story: what is to be said of the state, and what was heard of the past, of machines and processors where all is told.
pub fn tell_story<S: Sink>(
    alloc: Global,
    all: bool,
    story: &Story,
    sink: &mut S,
) -> Result<(), AllocError>
    requires few { length story.now.last.goroutines.items < 2 ^ 16 }
    requires same { state_of story.now.last ≡ record story.now.replay.state { outcome = None } }
    ensures { OnOk result (TellsOf S.told (state_said story.now.steps story.now.replay.state) sink.old sink.new) }
{
    sink.tell(&Fact::End {
        end: End::of(story.replay.outcome()),
        entries: story.steps,
        first: story.first,
    })?;
    tell_goroutines(story, sink)?;
    tell_channels(alloc, story, sink)?;
    tell_cycles(alloc, story, sink)?;
    tell_units(alloc, all, &story.heard, sink)
}
