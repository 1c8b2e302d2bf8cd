//! The trace of a run that follows the path to what was found.

ghost use Rattle.std.specs.Prelude.{◌≡◌, ◌≤◌, OnOk, length, true};
ghost use Rattle.gmp_explore_cli.specs.Played.{HasComeTo, IsOpened, Keeps, WritesPlayed, is_of_trace};
ghost use Rattle.gmp_scene.specs.Reached.{IsRunOf};
ghost use Rattle.gmp_scene.specs.Scripted.{Speakers};
ghost use Rattle.gmp_seq.specs.Fits.{AreLimits};
ghost use Rattle.gmp_seq.specs.State.{State};
ghost use Rattle.gmp_trace.specs.Pieces.{is_whole};
ghost use Rattle.gmp_words.specs.Runs.{status_of_verdict};
ghost use Rattle.gmp_words.specs.Said.{is_before_writing};
ghost use Rattle.gmp_words.specs.declared.said.Said.TheVariants.{Nothing};

use crate::playing::Player;
use crate::reading::Bounds;
use crate::stage::Stage;
use crate::unplayed::{Unplayed, expect};
use gmp_explore::Scene;
use gmp_follow::follows;
use gmp_scene::Move;
use gmp_script::Script;
use gmp_seq::{LEAST_ROOM, Limits};
use gmp_trace::{BeginningView, End, TraceView, WriteError, write_view};
use gmp_words::{Ended, MOST_ENTRIES, Verdict};
use std::alloc::Global;
use std::io::Write;

/// A choice, or a goroutine that asks behind the last one, has no more entries.
const ENTRIES_EACH: usize = 8;

/// Room for all entries of so many choices.
fn room_for(bodies: usize, procs: u8, choices: usize) -> u32 {
    let turns = choices.saturating_add(bodies);
    turns
        .saturating_mul(ENTRIES_EACH)
        .saturating_add(usize::from(procs))
        .saturating_add(LEAST_ROOM as usize)
        .min(MOST_ENTRIES as usize) as u32
}

/// The limits of the run: a machine for each processor, and room for all entries.
fn limits_for(bodies: usize, bounds: Bounds, choices: usize) -> Limits
    ensures whole { is_whole result ≡ true }
    ensures asked { (result.channels ≡ bounds.channels) × (result.procs ≡ bounds.procs) }
{
    let room = room_for(bodies, bounds.procs, choices);
    Limits {
        procs: bounds.procs,
        machines: bounds.procs,
        channels: bounds.channels,
        entries: u64::from(room),
        room,
    }
}

/// Makes a choice of the scene. Where it is the one by which somebody is left behind, all who are wait before it.
fn choose<'a>(
    alloc: Global,
    script: &'a Script,
    bounds: Bounds,
    is_leaving: bool,
    scene: &Scene,
    what: Move,
    player: &mut Player<'a>,
) -> Result<(), Unplayed>
    ensures { Keeps player.old.stage.journal player.new.stage.journal }
{
    if is_leaving {
        player.stay_behind(alloc, &script.bodies, scene)?;
    }
    player.follow(scene, bounds, what)
}

/// Plays what comes behind the path.
fn end<'a>(
    alloc: Global,
    script: &'a Script,
    bounds: Bounds,
    found: Verdict,
    scene: &Scene,
    player: &mut Player<'a>,
) -> Result<(), Unplayed>
    ensures { Keeps player.old.stage.journal player.new.stage.journal }
{
    match found {
        Verdict::Deadlock => player.fall_asleep(&script.bodies, scene),
        Verdict::Fault => player.fault(&script.bodies, bounds, scene),
        Verdict::Stranded => player.stay_behind(alloc, &script.bodies, scene),
        Verdict::Leak | Verdict::Safe | Verdict::Unknown => Ok(()),
    }
}

/// Makes all choices of the path, from scene to scene.
fn walk<'a>(
    alloc: Global,
    script: &'a Script,
    bounds: Bounds,
    found: Verdict,
    path: &[Move],
    scene: &mut Scene,
    player: &mut Player<'a>,
) -> Result<(), Unplayed>
    ensures { Keeps player.old.stage.journal player.new.stage.journal }
{
    for (i, what) in path.iter().enumerate() {
        // Main's exit comes last.
        let is_leaving = found == Verdict::Leak && i.wrapping_add(1) == path.len();
        choose(alloc, script, bounds, is_leaving, scene, *what, player)?;
        scene.make(&script.bodies, bounds.channels, *what)?;
    }
    Ok(())
}

/// Follows the path, and goes on so that the run shows what was found.
fn lead<'a>(
    alloc: Global,
    script: &'a Script,
    bounds: Bounds,
    found: Verdict,
    path: &[Move],
    player: &mut Player<'a>,
) -> Result<(), Unplayed>
    requires { length script.now.bodies.items ≤ 65536 }
    ensures { Keeps player.old.stage.journal player.new.stage.journal }
{
    let mut scene = Scene::opening(alloc, &script.bodies, &script.capacities)?;
    walk(alloc, script, bounds, found, path, &mut scene, player)?;
    end(alloc, script, bounds, found, &scene, player)
}

/// The run has come to what was found, and is known to be one of the script.
fn is_shown(
    alloc: Global,
    limits: Limits,
    script: &Script,
    found: Verdict,
    stage: &Stage,
) -> Result<(), Unplayed>
    ensures come { OnOk result (HasComeTo found stage.now.journal.history stage.now.journal.state) }
    ensures runs { OnOk result ((s : State) × (after : Speakers)
        × IsRunOf limits script.now.capacities.items script.now.bodies.items stage.now.journal.history s after) }
{
    expect(stage.shows(found))?;
    let entries = stage.history();
    let is_one = follows(alloc, limits, &script.bodies, &script.capacities, entries)?;
    expect(is_one)
}

/// Makes the run one that follows the path and shows what was found.
fn show<'a>(
    alloc: Global,
    limits: Limits,
    script: &'a Script,
    bounds: Bounds,
    found: Verdict,
    path: &[Move],
    player: &mut Player<'a>,
) -> Result<(), Unplayed>
    requires few { length script.now.bodies.items ≤ 65536 }
    ensures keeps { Keeps player.old.stage.journal player.new.stage.journal }
    ensures come { OnOk result (HasComeTo found player.new.stage.journal.history player.new.stage.journal.state) }
    ensures runs { OnOk result ((s : State) × (after : Speakers)
        × IsRunOf limits script.now.capacities.items script.now.bodies.items player.new.stage.journal.history s after) }
{
    player.begin(limits.machines)?;
    lead(alloc, script, bounds, found, path, player)?;
    is_shown(alloc, limits, script, found, &player.stage)
}

/// Writes the trace of such a run.
fn write_run<W: Write>(
    alloc: Global,
    limits: Limits,
    script: &Script,
    found: Verdict,
    stage: &Stage,
    writer: &mut W,
) -> Result<(), WriteError>
    requires whole { is_whole limits ≡ true }
    requires opened { IsOpened limits (length script.now.bodies.items) script.now.capacities.items stage.now.journal }
    requires within { AreLimits limits (length script.now.bodies.items) script.now.capacities.items }
    requires come { HasComeTo found stage.now.journal.history stage.now.journal.state }
    requires runs { (s : State) × (after : Speakers)
        × IsRunOf limits script.now.capacities.items script.now.bodies.items stage.now.journal.history s after }
    ensures { OnOk result
        (WritesPlayed limits.channels limits.procs script.now.capacities.items script.now.bodies.items found (W.contents writer.old) (W.contents writer.new)) }
{
    let trace = TraceView {
        limits,
        bodies: script.bodies.len() as u16,
        beginning: BeginningView::Opening(&script.capacities),
        entries: stage.history(),
        end: End::of(stage.outcome()),
    };
    write_view(alloc, trace, writer)
}

/// Has the run follow the path, and writes its trace.
fn write_shown<'a, W: Write>(
    alloc: Global,
    limits: Limits,
    script: &'a Script,
    bounds: Bounds,
    found: Verdict,
    path: &[Move],
    player: &mut Player<'a>,
    writer: &mut W,
) -> Ended
    requires whole { is_whole limits ≡ true }
    requires asked { (limits.channels ≡ bounds.channels) × (limits.procs ≡ bounds.procs) }
    requires opened { IsOpened limits (length script.now.bodies.items) script.now.capacities.items player.old.stage.journal }
    requires within { AreLimits limits (length script.now.bodies.items) script.now.capacities.items }
    ensures traced { result.said ≡ Nothing
        → WritesPlayed bounds.channels bounds.procs script.now.capacities.items script.now.bodies.items found (W.contents writer.old) (W.contents writer.new) }
    ensures status { result.said ≡ Nothing → result.status ≡ status_of_verdict found }
    ensures kinds { is_of_trace result.said ≡ true }
    ensures quiet { is_before_writing result.said ≡ true → W.contents writer.new ≡ W.contents writer.old }
{
    if let Err(why) = show(alloc, limits, script, bounds, found, path, player) {
        return why.ended();
    }
    match write_run(alloc, limits, script, found, &player.stage, writer) {
        Ok(()) => Ended::found(found),
        Err(error) => Ended::from(error),
    }
}

/// Writes the trace of a run that follows the path to what was found.
pub(crate) fn traced<W: Write>(
    alloc: Global,
    script: &Script,
    bounds: Bounds,
    found: Verdict,
    path: &[Move],
    writer: &mut W,
) -> Ended
    ensures traced { result.said ≡ Nothing
        → WritesPlayed bounds.channels bounds.procs script.now.capacities.items script.now.bodies.items found (W.contents writer.old) (W.contents writer.new) }
    ensures status { result.said ≡ Nothing → result.status ≡ status_of_verdict found }
    ensures kinds { is_of_trace result.said ≡ true }
    ensures quiet { is_before_writing result.said ≡ true → W.contents writer.new ≡ W.contents writer.old }
{
    let limits = limits_for(script.bodies.len(), bounds, path.len());
    match Player::open(alloc, limits, &script.bodies, &script.capacities) {
        Ok(mut player) => write_shown(
            alloc,
            limits,
            script,
            bounds,
            found,
            path,
            &mut player,
            writer,
        ),
        Err(why) => why.ended(),
    }
}
